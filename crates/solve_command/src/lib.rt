//! The command `solve`: for each candidate of a spectrum a best tree with a certificate, in a document and a report.
#![tactic(auto)]

mod document;
mod entry;
mod section;
mod solving;

pub use solving::solve;
