//! The command `check`: whether a document is right for a text, without any search.
ghost use Rattle.std.specs.Prelude.{◌≡◌, ◌≢◌, ◌≤◌, ◌<◌, ◌+◌, ◌++◌, ℕ, List, Some, false, true, length, IfOk, IfSome};
ghost use Rattle.frag_io.specs.declared.desk.Slot.{Slot};
ghost use Rattle.frag_io.specs.declared.desk.Slot.TheVariants.{Spectra, Report, CertOut};
ghost use Rattle.frag_io.specs.DeskState.{DeskState};
ghost use Rattle.loss_graph.specs.Lists.{greatest_lists};
ghost use Rattle.run_plan.specs.Causes.{IsUnwritten};
ghost use Rattle.run_plan.specs.Class.{class_of, IsOfProfile};
ghost use Rattle.run_plan.specs.Limits.{greatest_text_of};
ghost use Rattle.run_plan.specs.Plan.{Step, report_steps};
ghost use Rattle.run_plan.specs.ProfilePromise.{OnlyProfile, ProfilePromise};
ghost use Rattle.right_document.specs.SolveSettings.{SolveSettingsValue, solve_settings_of};
ghost use Rattle.run_plan.specs.TextPromise.{OwesText};
ghost use Rattle.check_command.specs.CheckPlan.{check_plan, check_steps_of};
ghost use Rattle.check_command.specs.CheckPromise as spec;
ghost use Rattle.check_command.specs.CheckOutcome.{IsAccepted};
ghost use Rattle.check_command.specs.CheckPromise.{CheckPromise, check_meaning};
ghost use Rattle.order_words.specs.NamesOf.{document_names_of};
ghost use Rattle.run_plan.specs.Running.{Ends, HasDone, IsUnfinished, status_of};
ghost use Rattle.right_document.specs.SettingsOf.{solve_settings_value_of};

use crate::document::{Checked, check_text};
use frag_io::{Desk, Slot};
use mgf_reader::MgfFault;
use order_words::DocumentNames;
use profile::Profile;
use right_document::{SolveSettings, candidate_rules_of, sieve_of, solve_settings};
use run_plan::{DocumentSlot, Status, read_spectra, read_text, take_profile, write_report};
use std::alloc::{AllocError, Global};

/// Checks the document that a name gives against the text of another name, under the profile that is named, for ions of
/// the adduct.
pub fn check<D: Desk>(alloc: Global, names: &DocumentNames, desk: &mut D) -> Status
    requires { (slot : Slot) → (D.state desk.old).begun slot ≡ false }
    ensures ends { Ends (check_plan (document_names_of names.now)) (D.state desk.old) (D.state desk.new) result }
    ensures profile { ProfilePromise (document_names_of names.now).profile (D.state desk.old) (D.state desk.new)
        result }
    ensures promise { CheckPromise (document_names_of names.now) (D.state desk.old) (D.state desk.new) result }
    ensures an_order { result ≢ Status.Words }
{
    let profile = match take_profile(alloc, names.profile, desk) {
        Ok(profile) => profile,
        Err(status) => return status,
    };
    Status::of(check_under(alloc, names, &profile, desk))
}

/// Checks under a profile.
fn check_under<D: Desk>(
    alloc: Global,
    names: &DocumentNames,
    profile: &Profile,
    desk: &mut D,
) -> Result<(), Status>
    requires only { OnlyProfile (D.state desk.old) }
    requires unfinished { IsUnfinished (D.state desk.old) }
    requires unwritten { IsUnwritten (D.state desk.old) }
    ensures ends { (done : List Step) (before : DeskState) → HasDone done before (D.state desk.old)
        → Ends (done ++ check_steps_of names.now.spectra.now names.now.document.now) before (D.state desk.new)
        (status_of result) }
    ensures texts { IfSome ((D.state desk.old).gives names.now.spectra.now) (λ text.
        IfSome ((D.state desk.old).gives names.now.document.now) (λ bytes.
        OwesText (check_meaning (solve_settings_of profile.now names.now.adduct) text bytes) text (D.state desk.new)
        (status_of result))) }
    ensures own { IsOfProfile (class_of (status_of result)) → ⊥ }
    ensures an_order { status_of result ≢ Status.Words }
{
    let sieve = sieve_of!(alloc, profile, &names.adduct);
    let candidate_rules = candidate_rules_of(alloc, profile)?;
    let settings = solve_settings(profile, names.adduct, sieve, candidate_rules);
    check_steps(alloc, names.spectra, names.document, &settings, desk)
}

/// Begins all three slots, reads the text and the document, and checks it.
fn check_steps<D: Desk>(
    alloc: Global,
    name: &str,
    document: &str,
    settings: &SolveSettings,
    desk: &mut D,
) -> Result<(), Status>
    requires peaks { settings.now.listing.choice.peaks + 1 < greatest_lists }
    requires only { OnlyProfile (D.state desk.old) }
    requires unfinished { IsUnfinished (D.state desk.old) }
    requires unwritten { IsUnwritten (D.state desk.old) }
    ensures ends { (done : List Step) (before : DeskState) → HasDone done before (D.state desk.old)
        → Ends (done ++ check_steps_of name.now document.now) before (D.state desk.new) (status_of result) }
    ensures texts { IfSome ((D.state desk.old).gives name.now) (λ text.
        IfSome ((D.state desk.old).gives document.now) (λ bytes.
        OwesText (check_meaning (solve_settings_value_of settings.now) text bytes) text (D.state desk.new)
        (status_of result))) }
    ensures own { IsOfProfile (class_of (status_of result)) → ⊥ }
    ensures an_order { status_of result ≢ Status.Words }
{
    let slot = Slot::CertIn;
    let named = Some(DocumentSlot {
        slot,
        name: document,
    });
    let text = read_spectra(alloc, name, named, desk)?;
    let bytes = read_text(alloc, desk, slot)?;
    match check_text(alloc, &text, &bytes, settings)? {
        Checked::Refused(fault) => Err(Status::DocumentRefused(fault)),
        Checked::Rejected(place) => Err(Status::DocumentRejected(place)),
        Checked::Accepted(count, fault) => tell_accepted(alloc, desk, count, fault),
    }
}

/// Reports that a document of so many sections is accepted, and then tells the line that refuses the text, if one does.
fn tell_accepted<D: Desk>(
    alloc: Global,
    desk: &mut D,
    count: usize,
    fault: Option<MgfFault>,
) -> Result<(), Status>
    requires begun { (D.state desk.old).begun Report ≡ true }
    requires alone { (D.state desk.old).begun CertOut ≡ false }
    requires unfinished { IsUnfinished (D.state desk.old) }
    requires unwritten { IsUnwritten (D.state desk.old) }
    ensures ends { (done : List Step) (before : DeskState) → HasDone done before (D.state desk.old)
        → Ends (done ++ report_steps) before (D.state desk.new) (status_of result) }
    ensures texts { (settings : SolveSettingsValue) (text bytes : List ℕ) → length text ≤ greatest_text_of Spectra
        → IsAccepted settings text bytes count fault
        → OwesText (check_meaning settings text bytes) text (D.state desk.new) (status_of result) }
    ensures own { IsOfProfile (class_of (status_of result)) → ⊥ }
    ensures an_order { status_of result ≢ Status.Words }
{
    let report = accepted_text(alloc, count)?;
    write_report(alloc, desk, &report)?;
    match fault {
        None => Ok(()),
        Some(fault) => Err(Status::MgfRefused(fault)),
    }
}

/// The report that a document of so many sections is accepted.
fn accepted_text(alloc: Global, count: usize) -> Result<Vec<u8>, AllocError>
    ensures { IfOk result (λ report. report.items ≡ spec.accepted_text count) }
{
    let digits = count.to_string(alloc)?;
    let mut report = Vec::new(alloc);
    report.extend_from_slice(b"accepted ")?;
    report.extend_from_slice(digits.as_bytes())?;
    report.extend_from_slice(b"\n")?;
    Ok(report)
}
