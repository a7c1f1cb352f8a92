//! The command `check`: whether a document is right for a text, and where not, without any search.
#![tactic(auto)]

mod checking;
mod document;
mod entries;
mod laws;
mod section;
mod trees;

pub use checking::check;
pub use laws::{
    a_rejected_document_is_not_right, a_right_document_is_accepted,
    what_is_accepted_is_nothing_else,
};
