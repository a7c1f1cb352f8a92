//! Documents of fragmentation trees and their certificates: what they hold, their lines, their one spelling, and what
//! bytes read as. The text of a title is here; the rest is written by `document_writer` and read by `document_reader`.
#![tactic(auto)]

mod document;
mod entry;
mod fault;
mod outline;
mod title;

pub use document::{Body, Document, Ending, FormulaLists, MgfEnd, Section, Sections, Skip, Solved};
pub use entry::{Entries, Entry, Mark, Outcome, Tree, TreeRow, TreeRows};
pub use fault::{CertFault, DocumentError};
pub use outline::Outline;
pub use title::{push_escaped, push_spelling};
