//! The list of a window: exactly the formulas in it that the limits and a sieve allow.
#![tactic(auto)]

mod chosen;
mod counting;
mod divisor;
mod element;
mod levels;
mod lister;
mod outcome;

pub use lister::list;
pub use outcome::{GREATEST_LIST, ListFault};
