//! The outside of a run, as five slots of bytes. What a file or a terminal really does is beyond any proof; what a
//! run asks of it, and which fault of it a run tells, is stated here.
ghost use Rattle.std.specs.Prelude.{◌≡◌, ◌≢◌, ◌≤◌, ◌<◌, ◌^◌, ◌↔◌, [], length, take};
ghost use Rattle.std.specs.Prelude.{true, false, IfSome, IfOk, OnOk, OnErr};
ghost use Rattle.frag_io.specs.declared.desk.Slot.{Slot};
ghost use Rattle.frag_io.specs.declared.desk.Slot.TheVariants.{Report};
ghost use Rattle.frag_io.specs.Slot.{IsRead, IsWritten, Same};
ghost use Rattle.frag_io.specs.DeskState.{DeskState};
ghost use Rattle.frag_io.specs.Desk.{IsNamed, IsEmpty, appended, Keeps, AddsOnOk, HasCause, Moves};

use std::alloc::Global;

/// A place through which bytes come in or go out.
#[derive(Clone, Copy, Debug, PartialEq, Eq)]
pub enum Slot {
    /// The text of spectra, which is read.
    Spectra,
    /// The text of settings, which is read.
    Profile,
    /// A document to be checked, which is read.
    CertIn,
    /// The report, which is written.
    Report,
    /// The document, which is written.
    CertOut,
}

/// Why a call of a desk did nothing.
#[derive(Clone, Copy, Debug, PartialEq, Eq)]
pub enum DeskFault {
    /// The outside failed; a fault of the slot is counted.
    Failed,
    /// There was no memory.
    OutOfMemory,
}

/// The outside of a run. A run reads the texts that it was named and writes what it makes, slot by slot.
pub trait Desk {
    /// What is known of the outside: the slots that were begun and finished, names, bytes and faults.
    ghost state: { Self → DeskState };

    /// Begins a slot under a name, which for the report is empty. From `Ok` on a read slot has to give what the
    /// name gives, and a written one is empty.
    fn begin(&mut self, alloc: Global, slot: Slot, name: &str) -> Result<(), DeskFault>
        requires fresh { (state self.old).begun slot ≡ false }
        requires unnamed { slot ≡ Report → name.now ≡ [] }
        ensures begun { AddsOnOk slot (state self.old).begun (state self.new).begun result }
        ensures finished { Same (state self.old).finished (state self.new).finished }
        ensures named { OnOk result (IsNamed slot name.now (state self.new)) }
        ensures left { OnOk result (IsRead slot → (state self.new).left slot ≡ (state self.old).gives name.now) }
        ensures written { OnOk result (IsWritten slot → IsEmpty ((state self.new).written slot)) }
        ensures keeps { Keeps slot (state self.old) (state self.new) }
        ensures cause { HasCause slot (state self.old) (state self.new) result };

    /// Moves the next bytes of a read slot to the front of a buffer, and says how many. None come exactly where
    /// nothing is left. An `Err` takes nothing from the slot.
    fn read(&mut self, slot: Slot, buffer: &mut [u8]) -> Result<usize, DeskFault>
        requires read { IsRead slot }
        requires begun { (state self.old).begun slot ≡ true }
        requires room { 0 < length buffer.old }
        ensures moved { IfOk result (λ n.
            Moves ((state self.old).left slot) ((state self.new).left slot) buffer.new n) }
        ensures end { IfOk result (λ n.
            IfSome ((state self.old).left slot) (λ bytes. (n ≡ 0) ↔ (bytes ≡ []))) }
        ensures fits { IfOk result (λ n. n ≤ length buffer.old) }
        ensures unmoved { OnErr result ((state self.new).left slot ≡ (state self.old).left slot) }
        ensures begun { Same (state self.old).begun (state self.new).begun }
        ensures finished { Same (state self.old).finished (state self.new).finished }
        ensures names { Same (state self.old).names (state self.new).names }
        ensures keeps { Keeps slot (state self.old) (state self.new) }
        ensures cause { HasCause slot (state self.old) (state self.new) result }
        ensures takes_no_memory { result ≢ Err DeskFault.OutOfMemory };

    /// Appends the first bytes of a piece to a written slot, and says how many: at least one of a piece that has
    /// some. An `Err` appends nothing.
    fn write(&mut self, alloc: Global, slot: Slot, bytes: &[u8]) -> Result<usize, DeskFault>
        requires written { IsWritten slot }
        requires begun { (state self.old).begun slot ≡ true }
        requires unfinished { (state self.old).finished slot ≡ false }
        ensures appended { IfOk result (λ n.
            (state self.new).written slot ≡ appended ((state self.old).written slot) (take n bytes.now)) }
        ensures fits { IfOk result (λ n. n ≤ length bytes.now) }
        ensures some { IfOk result (λ n. bytes.now ≢ [] → 0 < n) }
        ensures unwritten { OnErr result ((state self.new).written slot ≡ (state self.old).written slot) }
        ensures begun { Same (state self.old).begun (state self.new).begun }
        ensures finished { Same (state self.old).finished (state self.new).finished }
        ensures names { Same (state self.old).names (state self.new).names }
        ensures keeps { Keeps slot (state self.old) (state self.new) }
        ensures cause { HasCause slot (state self.old) (state self.new) result };

    /// Ends a written slot. Its bytes stay.
    fn finish(&mut self, slot: Slot) -> Result<(), DeskFault>
        requires written { IsWritten slot }
        requires begun { (state self.old).begun slot ≡ true }
        requires unfinished { (state self.old).finished slot ≡ false }
        ensures finished { AddsOnOk slot (state self.old).finished (state self.new).finished result }
        ensures begun { Same (state self.old).begun (state self.new).begun }
        ensures unchanged { (state self.new).written slot ≡ (state self.old).written slot }
        ensures names { Same (state self.old).names (state self.new).names }
        ensures keeps { Keeps slot (state self.old) (state self.new) }
        ensures cause { HasCause slot (state self.old) (state self.new) result }
        ensures takes_no_memory { result ≢ Err DeskFault.OutOfMemory };

    /// A slot that was finished was begun.
    ghost finished_was_begun: { (desk : Self) (slot : Slot)
        → (state desk).finished slot ≡ true → (state desk).begun slot ≡ true };

    /// Of a written slot that was not begun nothing is written.
    ghost unbegun_is_empty: { (desk : Self) (slot : Slot)
        → IsWritten slot → (state desk).begun slot ≡ false → IsEmpty ((state desk).written slot) };

    /// A count is a u64.
    ghost counts_fit: { (desk : Self) (slot : Slot) → (state desk).faults slot < 2 ^ 64 };
}
