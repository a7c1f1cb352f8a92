//! What a check says of the tree of a candidate.

use tree_entry::EntryPlace;

/// What is said of the tree of a candidate.
#[derive(Clone, Copy, Debug, PartialEq, Eq)]
pub enum EntryVerdict {
    /// It is right.
    Right,
    /// It is wrong, here first.
    Wrong(EntryPlace),
}
