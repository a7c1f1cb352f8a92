//! Reading a profile text.
ghost use Rattle.std.specs.Prelude.{◌≡◌, IfOk, IfErr, Ok, Err, Some};
ghost use Rattle.profile.specs.ProfileOf.{profile_of, table_of};
ghost use Rattle.profile.specs.declared.fault.ProfileError.TheVariants.{Refused};
ghost use Rattle.profile.specs.declared.fault.ProfileFault.{ProfileFault};
ghost use Rattle.toml.specs.View.{table_view};

use crate::fault::{ProfileError, ProfileFault};
use crate::places::lay_out;
use crate::profile::Profile;
use crate::refusal::search_all;
use crate::values::profile_in;
use std::alloc::Global;
use toml::Table;

/// The profile of a text, or the first reason to refuse it: bytes that are not TOML, then a key that is not known, then
/// a value of the wrong kind, then a number out of its range.
pub fn read_profile(alloc: Global, bytes: &[u8]) -> Result<Profile, ProfileError>
    ensures read { IfOk result (λ profile. profile_of bytes.now ≡ Ok profile) }
    ensures refused { IfErr result (λ error.
        (fault : ProfileFault) → error ≡ Refused fault → profile_of bytes.now ≡ Err fault) }
{
    let table = read_table(alloc, bytes)?;
    let places = lay_out(alloc, &table)?;
    search_all(alloc, &places)?;
    Ok(profile_in(alloc, &table)?)
}

/// The table of a text, where it is TOML.
fn read_table(alloc: Global, bytes: &[u8]) -> Result<Table, ProfileError>
    ensures read { IfOk result (λ table. table_of bytes.now ≡ Some (table_view table)) }
    ensures refused { IfErr result (λ error.
        (fault : ProfileFault) → error ≡ Refused fault → profile_of bytes.now ≡ Err fault) }
{
    match toml::table_from_slice(alloc, bytes) {
        Ok(table) => Ok(table),
        Err(error) => {
            if error.is_memory() {
                Err(ProfileError::OutOfMemory)
            } else {
                Err(ProfileError::Refused(ProfileFault::NotToml))
            }
        }
    }
}
