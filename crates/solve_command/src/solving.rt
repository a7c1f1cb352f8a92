//! The command `solve`: reads a text of spectra, writes a document with a tree and a certificate for each candidate of
//! each spectrum, and reports it.
ghost use Rattle.std.specs.Prelude.{◌≡◌, ◌≢◌, ◌≤◌, ◌++◌, List, Some, true, false, IfSome, IfErr, OnOk, OnErr};
ghost use Rattle.frag_io.specs.declared.desk.Slot.{Slot};
ghost use Rattle.frag_io.specs.declared.desk.Slot.TheVariants.{Report, CertOut};
ghost use Rattle.frag_io.specs.DeskState.{DeskState};
ghost use Rattle.frag_io.specs.Desk.{appended};
ghost use Rattle.profile.specs.Profile.{greatest_peaks};
ghost use Rattle.run_plan.specs.Causes.{IsUnwritten};
ghost use Rattle.run_plan.specs.Class.{class_of, ended, IsOfProfile};
ghost use Rattle.run_plan.specs.Plan.{Step, output_steps};
ghost use Rattle.run_plan.specs.ProfilePromise.{OnlyProfile, ProfilePromise};
ghost use Rattle.right_document.specs.SolveSettings.{solve_settings_of};
ghost use Rattle.run_plan.specs.TextPromise.{OwesText};
ghost use Rattle.order_words.specs.NamesOf.{document_names_of};
ghost use Rattle.run_plan.specs.Running.{Ends, HasDone, IsUnfinished, status_of};
ghost use Rattle.right_document.specs.SettingsOf.{solve_settings_value_of};
ghost use Rattle.run_plan.specs.TextSteps.{ArePartlyWritten, IsWriteStop};
ghost use Rattle.solve_command.specs.SolvePlan.{solve_plan, solve_steps_of};
ghost use Rattle.solve_command.specs.SolvePromise.{SolvePromise, solve_meaning};

use crate::document::{Solution, solve_text};
use document_writer::parts_make_the_spelling;
use frag_io::{Desk, Slot};
use order_words::DocumentNames;
use profile::Profile;
use right_document::{SolveSettings, candidate_rules_of, sieve_of, solve_settings};
use run_plan::{DocumentSlot, Status, finish_slot, read_spectra, take_profile, write_slot};
use std::alloc::Global;

/// Solves the text that a name gives into the document of another name, under the profile that is named, for ions of
/// the adduct.
pub fn solve<D: Desk>(alloc: Global, names: &DocumentNames, desk: &mut D) -> Status
    requires { (slot : Slot) → (D.state desk.old).begun slot ≡ false }
    ensures ends { Ends (solve_plan (document_names_of names.now)) (D.state desk.old) (D.state desk.new) result }
    ensures profile { ProfilePromise (document_names_of names.now).profile (D.state desk.old) (D.state desk.new)
        result }
    ensures promise { SolvePromise (document_names_of names.now) (D.state desk.old) (D.state desk.new) result }
    ensures an_order { result ≢ Status.Words }
{
    let profile = match take_profile(alloc, names.profile, desk) {
        Ok(profile) => profile,
        Err(status) => return status,
    };
    Status::of(solve_under(alloc, names, &profile, desk))
}

/// Solves under a profile.
fn solve_under<D: Desk>(
    alloc: Global,
    names: &DocumentNames,
    profile: &Profile,
    desk: &mut D,
) -> Result<(), Status>
    requires only { OnlyProfile (D.state desk.old) }
    requires unfinished { IsUnfinished (D.state desk.old) }
    requires unwritten { IsUnwritten (D.state desk.old) }
    ensures ends { (done : List Step) (before : DeskState) → HasDone done before (D.state desk.old)
        → Ends (done ++ solve_steps_of names.now.spectra.now names.now.document.now) before (D.state desk.new)
        (status_of result) }
    ensures text { IfSome ((D.state desk.old).gives names.now.spectra.now) (λ text.
        OwesText (solve_meaning (solve_settings_of profile.now names.now.adduct) text) text (D.state desk.new)
        (status_of result)) }
    ensures own { IsOfProfile (class_of (status_of result)) → ⊥ }
    ensures an_order { status_of result ≢ Status.Words }
{
    let sieve = sieve_of!(alloc, profile, &names.adduct);
    let candidate_rules = candidate_rules_of(alloc, profile)?;
    let settings = solve_settings(profile, names.adduct, sieve, candidate_rules);
    solve_steps(alloc, names.spectra, names.document, &settings, desk)
}

/// Begins all three slots, reads the text, makes the document and the report whole, and writes and finishes both.
fn solve_steps<D: Desk>(
    alloc: Global,
    name: &str,
    document: &str,
    settings: &SolveSettings,
    desk: &mut D,
) -> Result<(), Status>
    requires peaks { settings.now.listing.choice.peaks ≤ greatest_peaks }
    requires only { OnlyProfile (D.state desk.old) }
    requires unfinished { IsUnfinished (D.state desk.old) }
    requires unwritten { IsUnwritten (D.state desk.old) }
    ensures ends { (done : List Step) (before : DeskState) → HasDone done before (D.state desk.old)
        → Ends (done ++ solve_steps_of name.now document.now) before (D.state desk.new) (status_of result) }
    ensures text { IfSome ((D.state desk.old).gives name.now) (λ text.
        OwesText (solve_meaning (solve_settings_value_of settings.now) text) text (D.state desk.new)
        (status_of result)) }
    ensures own { IsOfProfile (class_of (status_of result)) → ⊥ }
    ensures an_order { status_of result ≢ Status.Words }
{
    parts_make_the_spelling();
    let slot = Slot::CertOut;
    let named = Some(DocumentSlot {
        slot,
        name: document,
    });
    let text = read_spectra(alloc, name, named, desk)?;
    let solution = solve_text(alloc, &text, settings)?;
    write_outputs(alloc, desk, &solution.document, &solution.report)?;
    match solution.fault {
        None => Ok(()),
        Some(fault) => Err(Status::MgfRefused(fault)),
    }
}

/// Writes the document and the report, and finishes them in this order.
fn write_outputs<D: Desk>(
    alloc: Global,
    desk: &mut D,
    document: &[u8],
    report: &[u8],
) -> Result<(), Status>
    requires document { (D.state desk.old).begun CertOut ≡ true }
    requires report { (D.state desk.old).begun Report ≡ true }
    requires unfinished { IsUnfinished (D.state desk.old) }
    ensures document { OnOk result
        ((D.state desk.new).written CertOut ≡ appended ((D.state desk.old).written CertOut) document.now) }
    ensures report { OnOk result
        ((D.state desk.new).written Report ≡ appended ((D.state desk.old).written Report) report.now) }
    ensures part { OnErr result (ArePartlyWritten (D.state desk.old) (D.state desk.new) document.now report.now) }
    ensures stop { IfErr result (λ status. IsWriteStop (class_of status)) }
    ensures ended { (done : List Step) (before : DeskState) → HasDone done before (D.state desk.old)
        → OnOk result ((status : Status) → class_of status ≡ ended
        → Ends (done ++ output_steps) before (D.state desk.new) status) }
    ensures ends { (done : List Step) (before : DeskState) → HasDone done before (D.state desk.old)
        → IfErr result (Ends (done ++ output_steps) before (D.state desk.new)) }
{
    write_slot(alloc, desk, Slot::CertOut, document)?;
    write_slot(alloc, desk, Slot::Report, report)?;
    finish_slot(desk, Slot::CertOut)?;
    finish_slot(desk, Slot::Report)
}
