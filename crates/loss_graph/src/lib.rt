//! The graph of a candidate over the lists of a spectrum: its vertices, its edges and their scores.
#![tactic(auto)]

mod building;
mod edges;
mod gathering;
mod loss_graph;
mod outcome;
mod scoring;
mod vertex;

pub use building::build;
pub use loss_graph::{LossGraph, PeakNumbers};
pub use outcome::GraphFault;
