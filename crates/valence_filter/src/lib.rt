//! Rules over the counts of a formula, and the sieve that a caller's test makes of them.
#![tactic(auto)]

mod rule;
mod sieve;

pub use rule::{Parity, Rule, all_hold, fragment_rule, neutral_rule};
pub use sieve::{Sieve, Test};
