//! The command `list`: the formulas of each spectrum of a text.
#![tactic(auto)]

mod listing;
mod report;
mod section;

pub use listing::list;
