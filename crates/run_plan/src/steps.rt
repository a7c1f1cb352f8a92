//! The steps over the desk that a command is made of: a slot begun, read, written or finished.
ghost use Rattle.std.specs.Prelude.{◌≡◌, ◌≢◌, ◌≤◌, ◌++◌, ◌∷◌, [], ℕ, List, true, false, length, take, IfSome, IfOk};
ghost use Rattle.std.specs.Prelude.{IfErr, OnOk, OnErr};
ghost use Rattle.frag_io.specs.declared.desk.Slot.TheVariants.{Profile, Report};
ghost use Rattle.frag_io.specs.DeskState.{DeskState};
ghost use Rattle.frag_io.specs.Slot.{Gains, IsRead, IsWritten, Same};
ghost use Rattle.frag_io.specs.Desk.{appended, IsEmpty, Keeps};
ghost use Rattle.run_plan.specs.Plan.{Step, begin, finish, is_read_in, read, write};
ghost use Rattle.run_plan.specs.Causes.{IsUnwritten};
ghost use Rattle.run_plan.specs.Limits.{greatest_text_of};
ghost use Rattle.run_plan.specs.Running.{Ends, HasDone, IsOpenAnswer, IsReadAnswer, IsWriteAnswer};
ghost use Rattle.run_plan.specs.Running.{open_status_of, read_status_of, write_status_of};

use crate::status::Status;
use frag_io::{Desk, DeskFault, ReadWhole, Slot, read_whole, write_whole};
use std::alloc::Global;

/// How many bytes a text of spectra or of a profile may have.
pub const GREATEST_TEXT: usize = 67_108_864;

/// How many bytes a document that is read may have.
pub const GREATEST_DOCUMENT: usize = 268_435_456;

/// How many bytes may be read from a slot.
fn limit_of(slot: Slot) -> usize
    ensures { result ≡ greatest_text_of slot }
{
    match slot {
        Slot::Spectra | Slot::Profile => GREATEST_TEXT,
        Slot::CertIn => GREATEST_DOCUMENT,
        Slot::Report | Slot::CertOut => 0,
    }
}

/// Begins a slot under a name.
pub fn begin_slot<D: Desk>(
    alloc: Global,
    desk: &mut D,
    slot: Slot,
    name: &str,
) -> Result<(), Status>
    requires fresh { (D.state desk.old).begun slot ≡ false }
    requires unnamed { slot ≡ Report → name.now ≡ [] }
    ensures ok { OnOk result (Gains slot (D.state desk.old).begun (D.state desk.new).begun) }
    ensures err { OnErr result (Same (D.state desk.old).begun (D.state desk.new).begun) }
    ensures left { OnOk result (IsRead slot → (D.state desk.new).left slot ≡ (D.state desk.old).gives name.now) }
    ensures finished { Same (D.state desk.old).finished (D.state desk.new).finished }
    ensures keeps { Keeps slot (D.state desk.old) (D.state desk.new) }
    ensures answer { IfErr result (IsOpenAnswer slot) }
    ensures unwritten { IsUnwritten (D.state desk.old) → IsUnwritten (D.state desk.new) }
    ensures done { (done : List Step) (before : DeskState) → HasDone done before (D.state desk.old)
        → OnOk result (HasDone (done ++ begin slot name.now ∷ []) before (D.state desk.new)) }
    ensures ends { (done later : List Step) (before : DeskState) → HasDone done before (D.state desk.old)
        → IfErr result (Ends (done ++ begin slot name.now ∷ later) before (D.state desk.new)) }
{
    match desk.begin(alloc, slot, name) {
        Ok(()) => Ok(()),
        Err(fault) => Err(open_status(slot, fault)),
    }
}

/// Reads a slot whole, up to its limit.
pub fn read_text<D: Desk>(alloc: Global, desk: &mut D, slot: Slot) -> Result<Vec<u8>, Status>
    requires read { IsRead slot }
    requires begun { (D.state desk.old).begun slot ≡ true }
    ensures text { IfSome ((D.state desk.old).left slot) (λ text.
        IfOk result (λ bytes. (text ≡ bytes.items) × ((D.state desk.new).left slot ≡ Some []))) }
    ensures short { IfOk result (λ bytes. length bytes.items ≤ greatest_text_of slot) }
    ensures begun { Same (D.state desk.old).begun (D.state desk.new).begun }
    ensures finished { Same (D.state desk.old).finished (D.state desk.new).finished }
    ensures keeps { Keeps slot (D.state desk.old) (D.state desk.new) }
    ensures answer { IfErr result (IsReadAnswer slot) }
    ensures unwritten { IsUnwritten (D.state desk.old) → IsUnwritten (D.state desk.new) }
    ensures done { (done : List Step) (before : DeskState) → HasDone done before (D.state desk.old)
        → is_read_in done slot ≡ false → OnOk result (HasDone (done ++ read slot ∷ []) before (D.state desk.new)) }
    ensures ends { (done later : List Step) (before : DeskState) → HasDone done before (D.state desk.old)
        → is_read_in done slot ≡ false → IfErr result (Ends (done ++ read slot ∷ later) before (D.state desk.new)) }
{
    match read_whole(alloc, desk, slot, limit_of(slot)) {
        Ok(text) => Ok(text),
        Err(fault) => Err(read_status(slot, fault)),
    }
}

/// Appends bytes to a written slot.
pub fn write_slot<D: Desk>(
    alloc: Global,
    desk: &mut D,
    slot: Slot,
    bytes: &[u8],
) -> Result<(), Status>
    requires written { IsWritten slot }
    requires begun { (D.state desk.old).begun slot ≡ true }
    requires unfinished { (D.state desk.old).finished slot ≡ false }
    ensures all { OnOk result ((D.state desk.new).written slot ≡ appended ((D.state desk.old).written slot) bytes.now) }
    ensures part { OnErr result ((n : ℕ)
        × ((D.state desk.new).written slot ≡ appended ((D.state desk.old).written slot) (take n bytes.now))) }
    ensures begun { Same (D.state desk.old).begun (D.state desk.new).begun }
    ensures finished { Same (D.state desk.old).finished (D.state desk.new).finished }
    ensures keeps { Keeps slot (D.state desk.old) (D.state desk.new) }
    ensures answer { IfErr result (IsWriteAnswer slot) }
    ensures done { (done : List Step) (before : DeskState) → HasDone done before (D.state desk.old)
        → OnOk result (HasDone (done ++ write slot ∷ []) before (D.state desk.new)) }
    ensures ends { (done later : List Step) (before : DeskState) → HasDone done before (D.state desk.old)
        → IfErr result (Ends (done ++ write slot ∷ later) before (D.state desk.new)) }
{
    match write_whole(alloc, desk, slot, bytes) {
        Ok(()) => Ok(()),
        Err(fault) => Err(write_status(slot, fault)),
    }
}

/// Finishes a written slot.
pub fn finish_slot<D: Desk>(desk: &mut D, slot: Slot) -> Result<(), Status>
    requires written { IsWritten slot }
    requires begun { (D.state desk.old).begun slot ≡ true }
    requires unfinished { (D.state desk.old).finished slot ≡ false }
    ensures ok { OnOk result (Gains slot (D.state desk.old).finished (D.state desk.new).finished) }
    ensures unchanged { (D.state desk.new).written slot ≡ (D.state desk.old).written slot }
    ensures begun { Same (D.state desk.old).begun (D.state desk.new).begun }
    ensures keeps { Keeps slot (D.state desk.old) (D.state desk.new) }
    ensures answer { IfErr result (IsWriteAnswer slot) }
    ensures done { (done : List Step) (before : DeskState) → HasDone done before (D.state desk.old)
        → OnOk result (HasDone (done ++ finish slot ∷ []) before (D.state desk.new)) }
    ensures ends { (done later : List Step) (before : DeskState) → HasDone done before (D.state desk.old)
        → IfErr result (Ends (done ++ finish slot ∷ later) before (D.state desk.new)) }
{
    match desk.finish(slot) {
        Ok(()) => Ok(()),
        Err(fault) => Err(write_status(slot, fault)),
    }
}

/// What a failed begin of a slot answers.
fn open_status(slot: Slot, fault: DeskFault) -> Status
    ensures { result ≡ open_status_of slot fault }
{
    match fault {
        DeskFault::Failed => Status::OpenFault(slot),
        DeskFault::OutOfMemory => Status::Memory,
    }
}

/// What a failed reading of a slot answers.
fn read_status(slot: Slot, fault: ReadWhole) -> Status
    ensures { result ≡ read_status_of slot fault }
{
    match fault {
        ReadWhole::Failed => Status::ReadFault(slot),
        ReadWhole::TooLong => Status::TooLong(slot),
        ReadWhole::OutOfMemory => Status::Memory,
    }
}

/// What a failed write or end of a slot answers.
fn write_status(slot: Slot, fault: DeskFault) -> Status
    ensures { result ≡ write_status_of slot fault }
{
    match fault {
        DeskFault::Failed => Status::WriteFault(slot),
        DeskFault::OutOfMemory => Status::Memory,
    }
}
