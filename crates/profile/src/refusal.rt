//! The searches of a profile text for its first fault.
ghost use Rattle.std.specs.Prelude.{◌≡◌, IfOk};
ghost use Rattle.profile.specs.Refusal.{refusal_of, first_fault};
ghost use Rattle.profile.specs.inside.Searched.{Finds, fault_at, place_seen, places_seen};

use crate::fault::{Name, ProfileError, ProfileFault};
use crate::places::Place;
use std::alloc::{AllocError, Global};

/// What a search looks for.
#[derive(Clone, Copy)]
enum Sought {
    UnknownKeys,
    BadValues,
    OverLimits,
}

/// Searches the places for an unknown key, then for a bad value, then for a number out of its range.
pub(crate) fn search_all(alloc: Global, places: &[Place<'_>]) -> Result<(), ProfileError>
    ensures { Finds result (refusal_of (places_seen places.now)) }
{
    search(alloc, places, Sought::UnknownKeys)?;
    search(alloc, places, Sought::BadValues)?;
    search(alloc, places, Sought::OverLimits)
}

/// Searches the places for the first fault.
fn search(alloc: Global, places: &[Place<'_>], sought: Sought) -> Result<(), ProfileError>
    ensures { Finds result (first_fault (fault_at sought) (places_seen places.now)) }
{
    for place in places {
        look_at(alloc, place, sought)?;
    }
    Ok(())
}

/// Whether a place is at fault.
fn look_at(alloc: Global, place: &Place<'_>, sought: Sought) -> Result<(), ProfileError>
    ensures { Finds result (fault_at sought (place_seen place.now)) }
{
    match sought {
        Sought::UnknownKeys => {
            if place.form.is_unknown() {
                return Err(ProfileError::Refused(ProfileFault::UnknownKey(name_of(alloc, place)?)));
            }
        }
        Sought::BadValues => {
            if !place.form.is_kind_of(place.value) {
                return Err(ProfileError::Refused(ProfileFault::BadValue(name_of(alloc, place)?)));
            }
        }
        Sought::OverLimits => {
            if let Some(number) = place.form.excess(place.value) {
                return Err(ProfileError::Refused(ProfileFault::OverLimit(
                    name_of(alloc, place)?,
                    number,
                )));
            }
        }
    }
    Ok(())
}

/// A copy of a place's name.
fn name_of(alloc: Global, place: &Place<'_>) -> Result<Name, AllocError>
    ensures { IfOk result (λ name. name ≡ (place_seen place.now).name) }
{
    Ok(Name::of(Vec::from_slice(alloc, &place.name)?))
}
