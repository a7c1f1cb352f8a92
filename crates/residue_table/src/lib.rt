//! The residue table of the money changing problem: the least sum of some masses in each residue class.
#![tactic(auto)]

mod rounds;
mod table;

pub use table::Table;
