//! The steps that commands on a text share: their slots begun and the text read, and the report written at the end.
ghost use Rattle.std.specs.Prelude.{◌≡◌, ◌≤◌, ◌++◌, ℕ, List, true};
ghost use Rattle.std.specs.Prelude.{false, length, take, is_some, option_map, IfSome, IfOk, IfErr, OnOk, OnErr};
ghost use Rattle.frag_io.specs.declared.desk.Slot.{Slot};
ghost use Rattle.frag_io.specs.declared.desk.Slot.TheVariants.{Spectra, Report, CertOut};
ghost use Rattle.frag_io.specs.DeskState.{DeskState};
ghost use Rattle.frag_io.specs.Desk.{appended};
ghost use Rattle.frag_io.specs.Slot.{IsRead, Same};
ghost use Rattle.run_plan.specs.Causes.{IsUnwritten};
ghost use Rattle.run_plan.specs.Class.{class_of, ended};
ghost use Rattle.run_plan.specs.Limits.{greatest_text_of};
ghost use Rattle.run_plan.specs.Plan.{Step, document_steps, name_in, report_steps, text_steps};
ghost use Rattle.run_plan.specs.ProfilePromise.{OnlyProfile};
ghost use Rattle.run_plan.specs.Running.{Ends, HasDone};
ghost use Rattle.run_plan.specs.TextSteps.{HasSlots, IsDocumentSlot, IsTextStop, IsWriteStop, begin_of};

use crate::status::Status;
use crate::steps::{begin_slot, finish_slot, read_text, write_slot};
use frag_io::{Desk, Slot};
use std::alloc::Global;

/// The slot of a document that is read or written, and its name.
#[derive(Clone, Copy)]
pub struct DocumentSlot<'a> {
    pub slot: Slot,
    pub name: &'a str,
}

/// Begins the text, the document where there is one, and the report, and reads the text.
pub fn read_spectra<D: Desk>(
    alloc: Global,
    name: &str,
    document: Option<DocumentSlot>,
    desk: &mut D,
) -> Result<Vec<u8>, Status>
    requires kind { IfSome document (λ it. IsDocumentSlot it.slot) }
    requires only { OnlyProfile (D.state desk.old) }
    requires unwritten { IsUnwritten (D.state desk.old) }
    ensures text { IfSome ((D.state desk.old).gives name.now) (λ text. IfOk result (λ bytes. text ≡ bytes.items)) }
    ensures short { IfOk result (λ bytes. length bytes.items ≤ greatest_text_of Spectra) }
    ensures begun { OnOk result (HasSlots (option_map begin_of document.entry) (D.state desk.new)) }
    ensures unread { OnOk result (IfSome document.entry (λ it. IsRead it.slot
        → (D.state desk.new).left it.slot ≡ (D.state desk.old).gives it.name.now)) }
    ensures finished { Same (D.state desk.old).finished (D.state desk.new).finished }
    ensures unwritten { IsUnwritten (D.state desk.new) }
    ensures done { (done : List Step) (before : DeskState) → HasDone done before (D.state desk.old)
        → OnOk result (HasDone (done ++ text_steps name.now (option_map begin_of document.entry)) before
        (D.state desk.new)) }
    ensures ends { (done later : List Step) (before : DeskState) → HasDone done before (D.state desk.old)
        → IfErr result (Ends (done ++ (text_steps name.now (option_map begin_of document.entry) ++ later)) before
        (D.state desk.new)) }
    ensures stop { IfErr result (λ status. IsTextStop (class_of status)) }
{
    begin_slot(alloc, desk, Slot::Spectra, name)?;
    begin_document(alloc, desk, document)?;
    begin_slot(alloc, desk, Slot::Report, "")?;
    read_text(alloc, desk, Slot::Spectra)
}

/// Begins the document, where there is one.
fn begin_document<D: Desk>(
    alloc: Global,
    desk: &mut D,
    document: Option<DocumentSlot>,
) -> Result<(), Status>
    requires kind { IfSome document (λ it. IsDocumentSlot it.slot) }
    requires fresh { (slot : Slot) → IsDocumentSlot slot → (D.state desk.old).begun slot ≡ false }
    ensures begun { OnOk result ((slot : Slot) → IsDocumentSlot slot
        → (D.state desk.new).begun slot
        ≡ is_some (name_in (document_steps (option_map begin_of document.entry)) slot)) }
    ensures unread { OnOk result (IfSome document.entry (λ it. IsRead it.slot
        → (D.state desk.new).left it.slot ≡ (D.state desk.old).gives it.name.now)) }
    ensures others { (slot : Slot) → (IsDocumentSlot slot → ⊥)
        → ((D.state desk.new).begun slot ≡ (D.state desk.old).begun slot)
        × ((D.state desk.new).left slot ≡ (D.state desk.old).left slot) }
    ensures gives { (name : List ℕ) → (D.state desk.new).gives name ≡ (D.state desk.old).gives name }
    ensures finished { Same (D.state desk.old).finished (D.state desk.new).finished }
    ensures stop { IfErr result (λ status. IsTextStop (class_of status)) }
    ensures unwritten { IsUnwritten (D.state desk.old) → IsUnwritten (D.state desk.new) }
    ensures done { (done : List Step) (before : DeskState) → HasDone done before (D.state desk.old)
        → OnOk result (HasDone (done ++ document_steps (option_map begin_of document.entry)) before
        (D.state desk.new)) }
    ensures ends { (done later : List Step) (before : DeskState) → HasDone done before (D.state desk.old)
        → IfErr result (Ends (done ++ (document_steps (option_map begin_of document.entry) ++ later)) before
        (D.state desk.new)) }
{
    match document {
        None => Ok(()),
        Some(document) => begin_slot(alloc, desk, document.slot, document.name),
    }
}

/// Writes the report of a command that writes no document, and finishes it.
pub fn write_report<D: Desk>(alloc: Global, desk: &mut D, report: &[u8]) -> Result<(), Status>
    requires begun { (D.state desk.old).begun Report ≡ true }
    requires alone { (D.state desk.old).begun CertOut ≡ false }
    requires unfinished { (D.state desk.old).finished Report ≡ false }
    ensures all { OnOk result
        ((D.state desk.new).written Report ≡ appended ((D.state desk.old).written Report) report.now) }
    ensures part { OnErr result ((n : ℕ)
        × ((D.state desk.new).written Report ≡ appended ((D.state desk.old).written Report) (take n report.now))) }
    ensures stop { IfErr result (λ status. IsWriteStop (class_of status)) }
    ensures ended { (done : List Step) (before : DeskState) → HasDone done before (D.state desk.old)
        → OnOk result ((status : Status) → class_of status ≡ ended
        → Ends (done ++ report_steps) before (D.state desk.new) status) }
    ensures ends { (done : List Step) (before : DeskState) → HasDone done before (D.state desk.old)
        → IfErr result (Ends (done ++ report_steps) before (D.state desk.new)) }
{
    write_slot(alloc, desk, Slot::Report, report)?;
    finish_slot(desk, Slot::Report)
}
