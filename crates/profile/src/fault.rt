//! Why no profile is read.
ghost use Rattle.std.specs.Prelude.{◌≡◌};

use std::alloc::AllocError;
use std::marker::Model;

/// The name of a place in a profile text: the keys and the numbers of items that lead to it, joined by points.
#[derive(Debug, Drop)]
pub struct Name {
    bytes: Vec<u8>,
}

impl Model for Name {
    ghost use Rattle.std.specs.Prelude.{List, ℕ};

    ghost Value = { List ℕ };

    ghost view = { λ name. name.bytes.items };
}

impl Name {
    /// The name of these bytes.
    pub fn of(bytes: Vec<u8>) -> Name
        ensures { result ≡ bytes.items }
    {
        Name { bytes }
    }

    /// Its bytes.
    pub fn items(&self) -> &[u8]
        ensures { result.now ≡ self.now }
    {
        &self.bytes
    }
}

/// Why a profile text is refused.
#[derive(Debug, Drop)]
pub enum ProfileFault {
    /// The bytes are not TOML.
    NotToml,
    /// The first key that is not one of a profile.
    UnknownKey(Name),
    /// No key is unknown, and this is the first place whose value has the wrong kind.
    BadValue(Name),
    /// All values have their kind, and this is the first place with a number out of its range, and that number; or with
    /// more rules than are allowed, and how many.
    OverLimit(Name, i64),
}

/// Why no profile was read.
#[derive(Debug, Drop)]
pub enum ProfileError {
    /// The text is refused.
    Refused(ProfileFault),
    /// There was no memory.
    OutOfMemory,
}

impl From<AllocError> for ProfileError {
    ghost use Rattle.profile.specs.declared.fault.ProfileError.TheVariants.{OutOfMemory};

    ghost from_gives = { λ _ error. error ≡ OutOfMemory };

    fn from(_e: AllocError) -> ProfileError {
        ProfileError::OutOfMemory
    }
}
