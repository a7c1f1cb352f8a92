//! Best colourful trees of graphs of few colours, with the tables that prove them best, after Böcker and Rasche 2008.
#![tactic(auto)]

mod rebuilding;
mod solving;
mod table;

pub use solving::solve_small;
