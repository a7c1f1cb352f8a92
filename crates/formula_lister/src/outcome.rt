//! How long a list may be, and why one is not given.
ghost use Rattle.std.specs.Prelude.{◌≡◌};
ghost use Rattle.formula_lister.specs.declared.outcome.ListFault.TheVariants.{OutOfMemory};

use std::alloc::{AllocError, AllocFailed};

/// The greatest number of formulas of a list.
pub const GREATEST_LIST: usize = 20_000;

/// Why a list is not given.
#[derive(Clone, Copy, Debug, PartialEq, Eq)]
pub enum ListFault {
    /// The window has more formulas than a list may have.
    TooMany,
    OutOfMemory,
}

impl From<AllocError> for ListFault {
    ghost from_gives = { λ _ fault. fault ≡ OutOfMemory };

    fn from(_error: AllocError) -> ListFault {
        ListFault::OutOfMemory
    }
}

impl<T: Drop> From<AllocFailed<T>> for ListFault {
    ghost from_gives = { λ _ fault. fault ≡ OutOfMemory };

    fn from(_failed: AllocFailed<T>) -> ListFault {
        ListFault::OutOfMemory
    }
}
