//! Whether the trees of candidates are right for their graphs, and gaps may stand: a checker that knows no way to find
//! trees.
#![tactic(auto)]

mod adding;
mod cap;
mod entry;
mod gap;
mod rows;
mod verdict;

pub use entry::check_entry;
pub use verdict::EntryVerdict;
