//! Where a document differs first from the right ones of a text.

use tree_entry::EntryPlace;

/// The part of a document that differs, in the order of looking within a section.
#[derive(Clone, Copy, Debug, PartialEq, Eq)]
pub enum RejectPart {
    /// The text has a further section.
    Missing,
    /// The document has a further section.
    Extra,
    /// The line or the title of the spectrum.
    Spectrum,
    /// Whether it is skipped, or the reason.
    Skipped,
    /// The first list that differs, from 0.
    Lists(u32),
    /// The entries are not exactly the candidates, each once.
    Candidates,
    /// The first entry whose error is wrong, from 1.
    Error(u32),
    /// The first entry that is wrongly a tree or too large, or has a wrong number of vertices, from 1.
    Outcome(u32),
    /// The first entry whose tree is wrong, from 1, and where it is wrong first.
    Tree(u32, EntryPlace),
    /// The first entry that may not follow the one before, from 1.
    Order(u32),
    /// The ending.
    Ending,
}

/// The number of a section, from 1, and its part. That of the ending is one more than there are sections.
#[derive(Clone, Copy, Debug, PartialEq, Eq)]
pub struct RejectPlace {
    pub section: u32,
    pub part: RejectPart,
}
