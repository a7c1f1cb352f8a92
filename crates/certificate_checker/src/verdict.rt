//! What a check says of a certificate.

use tree_certificate::Place;

/// What is said of a certificate.
#[derive(Clone, Copy, Debug, PartialEq, Eq)]
pub enum Verdict {
    /// It holds.
    Holds,
    /// It fails, here first.
    Fails(Place),
}
