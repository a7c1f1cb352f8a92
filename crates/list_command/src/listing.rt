//! The command `list`: reads a text of spectra and reports for each the formulas of its precursor and its selected
//! peaks.
ghost use Rattle.std.specs.Prelude.{◌≡◌, ◌≢◌, ◌++◌, List, None, false, IfSome};
ghost use Rattle.frag_io.specs.declared.desk.Slot.{Slot};
ghost use Rattle.frag_io.specs.DeskState.{DeskState};
ghost use Rattle.run_plan.specs.Causes.{IsUnwritten};
ghost use Rattle.run_plan.specs.Class.{class_of, IsOfProfile};
ghost use Rattle.run_plan.specs.Plan.{Step, report_steps, text_steps};
ghost use Rattle.run_plan.specs.ProfilePromise.{OnlyProfile, ProfilePromise};
ghost use Rattle.right_document.specs.RunSettings.{run_settings_of};
ghost use Rattle.run_plan.specs.TextPromise.{OwesText};
ghost use Rattle.order_words.specs.NamesOf.{names_of};
ghost use Rattle.run_plan.specs.Running.{Ends, HasDone, IsUnfinished, status_of};
ghost use Rattle.right_document.specs.SettingsOf.{settings_value_of};
ghost use Rattle.list_command.specs.ListPlan.{list_plan};
ghost use Rattle.list_command.specs.ListPromise.{ListPromise, list_meaning};

use crate::report::report_of;
use adducts::Adduct;
use frag_io::Desk;
use order_words::ListNames;
use profile::Profile;
use right_document::{RunSettings, run_settings, sieve_of};
use run_plan::{Status, read_spectra, take_profile, write_report};
use std::alloc::Global;

/// Lists the formulas of the text that a name gives, under the profile that is named, for ions of the adduct.
pub fn list<D: Desk>(alloc: Global, names: &ListNames, desk: &mut D) -> Status
    requires { (slot : Slot) → (D.state desk.old).begun slot ≡ false }
    ensures ends { Ends (list_plan (names_of names.now)) (D.state desk.old) (D.state desk.new) result }
    ensures profile { ProfilePromise (names_of names.now).profile (D.state desk.old) (D.state desk.new) result }
    ensures promise { ListPromise (names_of names.now) (D.state desk.old) (D.state desk.new) result }
    ensures an_order { result ≢ Status.Words }
{
    let profile = match take_profile(alloc, names.profile, desk) {
        Ok(profile) => profile,
        Err(status) => return status,
    };
    Status::of(list_under(alloc, names.spectra, &profile, names.adduct, desk))
}

/// Lists under a profile, for ions of an adduct.
fn list_under<D: Desk>(
    alloc: Global,
    name: &str,
    profile: &Profile,
    adduct: Adduct,
    desk: &mut D,
) -> Result<(), Status>
    requires only { OnlyProfile (D.state desk.old) }
    requires unfinished { IsUnfinished (D.state desk.old) }
    requires unwritten { IsUnwritten (D.state desk.old) }
    ensures ends { (done : List Step) (before : DeskState) → HasDone done before (D.state desk.old)
        → Ends (done ++ (text_steps name.now None ++ report_steps)) before (D.state desk.new) (status_of result) }
    ensures text { IfSome ((D.state desk.old).gives name.now) (λ text.
        OwesText (list_meaning (run_settings_of profile.now adduct) text) text (D.state desk.new) (status_of result)) }
    ensures own { IsOfProfile (class_of (status_of result)) → ⊥ }
    ensures an_order { status_of result ≢ Status.Words }
{
    let settings = run_settings(profile, adduct, sieve_of!(alloc, profile, &adduct));
    list_steps(alloc, name, &settings, desk)
}

/// Begins both slots, reads the text, makes the report whole, and writes and finishes it.
fn list_steps<D: Desk>(
    alloc: Global,
    name: &str,
    settings: &RunSettings,
    desk: &mut D,
) -> Result<(), Status>
    requires only { OnlyProfile (D.state desk.old) }
    requires unfinished { IsUnfinished (D.state desk.old) }
    requires unwritten { IsUnwritten (D.state desk.old) }
    ensures ends { (done : List Step) (before : DeskState) → HasDone done before (D.state desk.old)
        → Ends (done ++ (text_steps name.now None ++ report_steps)) before (D.state desk.new) (status_of result) }
    ensures text { IfSome ((D.state desk.old).gives name.now) (λ text.
        OwesText (list_meaning (settings_value_of settings.now) text) text (D.state desk.new) (status_of result)) }
    ensures own { IsOfProfile (class_of (status_of result)) → ⊥ }
    ensures an_order { status_of result ≢ Status.Words }
{
    let text = read_spectra(alloc, name, None, desk)?;
    let (report, fault) = report_of(alloc, &text, settings)?;
    write_report(alloc, desk, &report)?;
    match fault {
        None => Ok(()),
        Some(fault) => Err(Status::MgfRefused(fault)),
    }
}
