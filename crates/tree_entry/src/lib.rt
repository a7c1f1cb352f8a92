//! The entries of candidates: when the tree of one is right for its graph, its rows, and the order of their ranks.
#![tactic(auto)]

mod laws;
mod place;
mod ranking;
mod rows;

pub use laws::ranked_entries_rise;
pub use place::EntryPlace;
pub use ranking::{compare_entries, rank};
pub use rows::tree_rows;
