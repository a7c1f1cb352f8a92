//! A count that stands at its last value.
ghost use Rattle.std.specs.Prelude.{◌≡◌, ◌<◌, ◌^◌};
ghost use Rattle.frag_io.specs.Count.{raised};

/// How often something happened; at the last value of a u64 it stands.
#[derive(Clone, Copy)]
pub(crate) struct Count {
    value: u64,
    ghost fits: { value < 2 ^ 64 },
}

impl Count {
    /// Nothing happened yet.
    pub(crate) fn zero() -> Count
        ensures { result.value ≡ 0 }
    {
        Count { value: 0 }
    }

    /// How often it happened.
    pub(crate) fn value(self) -> u64
        ensures { result ≡ self.value }
    {
        self.value
    }

    /// The count after one time more.
    pub(crate) fn raised(self) -> Count
        ensures { result.value ≡ raised self.value }
    {
        Count {
            value: self.value.saturating_add(1),
        }
    }
}
