//! A number that is too low.

/// A number of a vertex that is lower than it needs to be: its place in the row, and what it is to be at least.
#[derive(Clone, Copy, Debug, PartialEq, Eq)]
pub(crate) struct Low {
    pub place: usize,
    pub needed: i64,
}
