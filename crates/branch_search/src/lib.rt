//! Bounds on the scores of colourful trees by splits of the set of edges, for graphs with many colours: a search whose
//! leaves are bounded by prices.
#![tactic(auto)]

mod bounder;
mod growing;
mod leaves;
mod searching;
mod splitting;
mod trees;

pub use bounder::{Bounder, Pricing};
pub use searching::{Found, GREATEST_BUDGET, GREATEST_SEARCH_COLOURS, search};
