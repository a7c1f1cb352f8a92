//! The profile of a run: that of the text that it names, or the default one.
ghost use Rattle.std.specs.Prelude.{◌≡◌, ◌⊎◌, ◌++◌, List, false, None, Some, Ok, option_map, OnOk, IfOk, IfErr};
ghost use Rattle.frag_io.specs.declared.desk.Slot.{Slot};
ghost use Rattle.frag_io.specs.Slot.{Same};
ghost use Rattle.profile.specs.Profile.{ProfileValue};
ghost use Rattle.run_plan.specs.Causes.{IsUnwritten};
ghost use Rattle.run_plan.specs.Class.{class_of, memory, IsAnswer, IsOfProfile};
ghost use Rattle.run_plan.specs.Plan.{Step, profile_steps};
ghost use Rattle.run_plan.specs.ProfilePromise.{OnlyProfile, ProfilePromise, profile_outcome};
ghost use Rattle.run_plan.specs.ProfileTaken.{IsTaken, status_of_error};
ghost use Rattle.run_plan.specs.Running.{Ends, HasDone};

use crate::status::Status;
use crate::steps::{begin_slot, read_text};
use frag_io::{Desk, Slot};
use profile::{Profile, ProfileError, default_profile, read_profile};
use std::alloc::Global;

/// Reads the profile that a name gives, or takes the default one where there is no name.
pub fn take_profile<D: Desk>(
    alloc: Global,
    name: Option<&str>,
    desk: &mut D,
) -> Result<Profile, Status>
    requires fresh { (slot : Slot) → (D.state desk.old).begun slot ≡ false }
    ensures taken { IfOk result (IsTaken (D.state desk.old).gives (option_map (λ name. name.now) name.entry)) }
    ensures done { OnOk result (HasDone (profile_steps (option_map (λ name. name.now) name.entry)) (D.state desk.old)
        (D.state desk.new)) }
    ensures ends { (later : List Step) → IfErr result (Ends
        (profile_steps (option_map (λ name. name.now) name.entry) ++ later) (D.state desk.old) (D.state desk.new)) }
    ensures promise { IfErr result (ProfilePromise (option_map (λ name. name.now) name.entry) (D.state desk.old)
        (D.state desk.new)) }
    ensures own { IfErr result (λ status. (class_of status ≡ memory) ⊎ IsOfProfile (class_of status)) }
    ensures accepted { IfErr result (λ status. (profile : ProfileValue)
        → profile_outcome (D.state desk.old).gives (option_map (λ name. name.now) name.entry) ≡ Some (Ok profile)
        → IsAnswer (class_of status) → ⊥) }
    ensures only { OnlyProfile (D.state desk.new) }
    ensures finished { Same (D.state desk.old).finished (D.state desk.new).finished }
    ensures unwritten { IsUnwritten (D.state desk.old) → IsUnwritten (D.state desk.new) }
{
    match name {
        None => Ok(default_profile(alloc)?),
        Some(name) => read_named(alloc, name, desk),
    }
}

/// Reads the profile that a name gives.
fn read_named<D: Desk>(alloc: Global, name: &str, desk: &mut D) -> Result<Profile, Status>
    requires fresh { (slot : Slot) → (D.state desk.old).begun slot ≡ false }
    ensures taken { IfOk result (IsTaken (D.state desk.old).gives (Some name.now)) }
    ensures done { OnOk result (HasDone (profile_steps (Some name.now)) (D.state desk.old) (D.state desk.new)) }
    ensures ends { (later : List Step) → IfErr result
        (Ends (profile_steps (Some name.now) ++ later) (D.state desk.old) (D.state desk.new)) }
    ensures promise { IfErr result (ProfilePromise (Some name.now) (D.state desk.old) (D.state desk.new)) }
    ensures own { IfErr result (λ status. (class_of status ≡ memory) ⊎ IsOfProfile (class_of status)) }
    ensures accepted { IfErr result (λ status. (profile : ProfileValue)
        → profile_outcome (D.state desk.old).gives (Some name.now) ≡ Some (Ok profile)
        → IsAnswer (class_of status) → ⊥) }
    ensures only { OnlyProfile (D.state desk.new) }
    ensures finished { Same (D.state desk.old).finished (D.state desk.new).finished }
    ensures unwritten { IsUnwritten (D.state desk.old) → IsUnwritten (D.state desk.new) }
{
    begin_slot(alloc, desk, Slot::Profile, name)?;
    let text = read_text(alloc, desk, Slot::Profile)?;
    match read_profile(alloc, &text) {
        Ok(profile) => Ok(profile),
        Err(error) => Err(error_status(error)),
    }
}

/// What a run answers where no profile was read.
fn error_status(error: ProfileError) -> Status
    ensures { result ≡ status_of_error error }
{
    match error {
        ProfileError::Refused(fault) => Status::ProfileRefused(fault),
        ProfileError::OutOfMemory => Status::Memory,
    }
}
