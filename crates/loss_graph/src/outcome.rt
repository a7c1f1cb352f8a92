//! Why a graph is not built.
use std::alloc::AllocError;

/// Why a graph is not built.
#[derive(Clone, Copy, Debug, PartialEq, Eq)]
pub enum GraphFault {
    /// It would have so many vertices, more than 512.
    TooLarge(u32),
    /// There is no memory for it.
    OutOfMemory,
}

impl From<AllocError> for GraphFault {
    ghost use Rattle.std.specs.Prelude.{◌≡◌};
    ghost use Rattle.loss_graph.specs.declared.outcome.GraphFault.TheVariants.{OutOfMemory};

    ghost from_gives = { λ _ fault. fault ≡ OutOfMemory };

    fn from(_error: AllocError) -> GraphFault {
        GraphFault::OutOfMemory
    }
}
