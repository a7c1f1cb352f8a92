//! Why the reading of a document stops.
ghost use Rattle.std.specs.Prelude.{◌≡◌};

use std::alloc::{AllocError, AllocFailed};

/// Why the reading stops before the document ends.
#[derive(Clone, Copy)]
pub enum Stop<'a> {
    /// No document has the first line of these bytes here, which are the last ones of the text.
    Bad(&'a [u8]),
    /// A number or a count of their first line is past its range.
    Big(&'a [u8]),
    /// As many splits stand above their first line, which is a split, as may.
    Deep(&'a [u8]),
    /// No whole line is left.
    End,
    /// There was no memory.
    OutOfMemory,
}

impl From<AllocError> for Stop<'_> {
    ghost use Rattle.line_reader.specs.declared.stop.Stop.TheVariants.{OutOfMemory};

    ghost from_gives = { λ _ stop. stop ≡ OutOfMemory };

    fn from(_: AllocError) -> Self {
        Stop::OutOfMemory
    }
}

impl<T: Drop> From<AllocFailed<T>> for Stop<'_> {
    ghost use Rattle.line_reader.specs.declared.stop.Stop.TheVariants.{OutOfMemory};

    ghost from_gives = { λ _ stop. stop ≡ OutOfMemory };

    fn from(_: AllocFailed<T>) -> Self {
        Stop::OutOfMemory
    }
}
