//! What words order: the commands, the form of their options, and what these name.
#![tactic(auto)]

mod laws;
mod orders;
mod words;

pub use laws::an_option_without_a_value_takes_none;
pub use orders::{DocumentNames, ListNames, Order, read_order};
