//! A desk in memory: files by name, what was written, and calls that fail as planned.
ghost use Rattle.std.specs.Prelude.{◌≡◌, ◌≢◌, ◌≤◌, ◌<◌, ◌↔◌, ◌⊎◌, ◌++◌, ℕ, List, [], length, take};
ghost use Rattle.std.specs.Prelude.{min, false, true, None, Some, option_map, IfOk, IfSome, IsTrue, OnOk, OnErr};
ghost use Rattle.frag_io.specs.declared.desk.Slot.{Slot};
ghost use Rattle.frag_io.specs.Slot.{IsRead, IsWritten, SameBut, Same};
ghost use Rattle.frag_io.specs.Failing.{IsDue, CountsCall};
ghost use Rattle.frag_io.specs.Files.{bytes_under};
ghost use Rattle.frag_io.specs.inside.BySlot.{at};

use crate::by_slot::BySlot;
use crate::failing::Plan;
use crate::faults::Faults;
use crate::stage::{Source, Stage, first_stage, rest};
use crate::{CallKind, Desk, DeskFault, Failing, Slot};
use std::alloc::{AllocError, Global};

/// A desk over files in memory. It tells all its bytes, and the name under which each slot was begun.
#[derive(Drop)]
pub struct MemoryDesk {
    files: Vec<(String, Vec<u8>)>,
    plan: Plan,
    piece: usize,
    stages: BySlot<Stage>,
    names: BySlot<Option<String>>,
    faults: Faults,
    report: Vec<u8>,
    cert_out: Vec<u8>,
    ghost has_piece: { 0 < piece },
}

impl MemoryDesk {
    ghost use Rattle.frag_io.specs.Memory.{state_of, piece_of, failing_of, calls_made};
    ghost use Rattle.frag_io.specs.inside.Bytes.{bytes_at};

    /// A desk over these files, of which the first of a name counts. These calls fail; the others move at most
    /// `piece` bytes each. No slot is begun.
    pub fn new(
        alloc: Global,
        files: Vec<(String, Vec<u8>)>,
        failing: Vec<Failing>,
        piece: usize,
    ) -> MemoryDesk
        requires { 0 < piece }
        ensures unbegun { (slot : Slot) → (state_of result).begun slot ≡ false }
        ensures unfinished { (slot : Slot) → (state_of result).finished slot ≡ false }
        ensures unnamed { (slot : Slot) → (state_of result).names slot ≡ None }
        ensures empty { (slot : Slot) → (state_of result).written slot ≡ Some [] }
        ensures faultless { (slot : Slot) → (state_of result).faults slot ≡ 0 }
        ensures files { (name : List ℕ) → (state_of result).gives name ≡ bytes_under files.items name }
        ensures failing { failing_of result ≡ failing.items }
        ensures uncalled { (kind : CallKind) → calls_made result kind ≡ 0 }
        ensures piece { piece_of result ≡ piece }
    {
        MemoryDesk {
            files,
            plan: Plan::new(failing),
            piece,
            stages: BySlot::of(Stage::Fresh),
            names: BySlot::none(),
            faults: Faults::none(),
            report: Vec::new(alloc),
            cert_out: Vec::new(alloc),
        }
    }

    /// The bytes that were written to a slot.
    pub fn written(&self, slot: Slot) -> &[u8]
        ensures { (state_of self.now).written slot ≡ Some result.now }
    {
        match (self.stages.at(slot), slot) {
            (Stage::Fresh, _) => &[],
            (_, Slot::Report) => &self.report,
            (_, Slot::CertOut) => &self.cert_out,
            _ => &[],
        }
    }

    /// The name under which a slot was begun.
    pub fn name(&self, slot: Slot) -> Option<&str>
        ensures { (state_of self.now).names slot ≡ option_map (λ name. name.now) result }
    {
        match self.names.get(slot) {
            Some(name) => Some(name.as_str()),
            None => None,
        }
    }

    /// How many faults of a slot were counted.
    pub fn faults(&self, slot: Slot) -> u64
        ensures { result ≡ (state_of self.now).faults slot }
    {
        self.faults.at(slot)
    }

    /// Counts a call, and tells whether it is to fail.
    fn is_due(&mut self, kind: CallKind) -> bool
        ensures due { IsTrue result ↔ IsDue self.old.plan kind }
        ensures counted { CountsCall kind self.old.plan self.new.plan }
        ensures rest { self.new ≡ record self.old { plan = self.new.plan } }
    {
        self.plan.is_due(kind)
    }

    /// Puts bytes behind those of a written slot.
    fn append(&mut self, slot: Slot, bytes: &[u8]) -> Result<(), AllocError>
        requires { IsWritten slot }
        ensures ok { OnOk result (bytes_at self.new slot ≡ bytes_at self.old slot ++ bytes.now) }
        ensures err { OnErr result (bytes_at self.new slot ≡ bytes_at self.old slot) }
        ensures others { SameBut slot (bytes_at self.old) (bytes_at self.new) }
        ensures rest { self.new
            ≡ record self.old { report = self.new.report; cert_out = self.new.cert_out } }
    {
        match slot {
            Slot::Report => self.report.extend_from_slice(bytes),
            Slot::CertOut => self.cert_out.extend_from_slice(bytes),
            _ => unreachable!(),
        }
    }

    /// Empties a slot.
    fn clear(&mut self, slot: Slot)
        ensures own { bytes_at self.new slot ≡ [] }
        ensures others { SameBut slot (bytes_at self.old) (bytes_at self.new) }
        ensures rest { self.new
            ≡ record self.old { report = self.new.report; cert_out = self.new.cert_out } }
    {
        match slot {
            Slot::Report => self.report.clear(),
            Slot::CertOut => self.cert_out.clear(),
            _ => {}
        }
    }
}

impl Desk for MemoryDesk {
    ghost use Rattle.frag_io.specs.declared.desk.Slot.TheVariants.{Report};
    ghost use Rattle.frag_io.specs.Desk.{IsNamed, IsEmpty, appended, Keeps, AddsOnOk, HasCause, CountsFault, Moves};
    ghost use Rattle.frag_io.specs.Memory.{state_of, left_of, piece_of, FailsNext, Counts};
    ghost use Rattle.frag_io.specs.inside.Bytes.{bytes_at};
    ghost use Rattle.frag_io.specs.inside.Stage.{finished_is_begun, fresh_is_empty};

    ghost state = { state_of };

    ghost finished_was_begun = { λ desk slot is. finished_is_begun (at desk.stages slot) is };

    ghost unbegun_is_empty = { λ desk slot _ is. fresh_is_empty (at desk.stages slot) (bytes_at desk slot) is };

    ghost counts_fit = { λ desk slot. (at desk.faults.counts slot).fits };

    fn begin(&mut self, alloc: Global, slot: Slot, name: &str) -> Result<(), DeskFault>
        requires fresh { (state_of self.old).begun slot ≡ false }
        requires unnamed { slot ≡ Report → name.now ≡ [] }
        ensures begun { AddsOnOk slot (state_of self.old).begun (state_of self.new).begun result }
        ensures finished { Same (state_of self.old).finished (state_of self.new).finished }
        ensures named { OnOk result ((state_of self.new).names slot ≡ Some name.now) }
        ensures left { OnOk result (IsRead slot → (state_of self.new).left slot ≡ (state_of self.old).gives name.now) }
        ensures written { OnOk result (IsWritten slot → IsEmpty ((state_of self.new).written slot)) }
        ensures keeps { Keeps slot (state_of self.old) (state_of self.new) }
        ensures cause { HasCause slot (state_of self.old) (state_of self.new) result }
        ensures failed { (result ≡ Err DeskFault.Failed)
            ↔ (FailsNext self.old CallKind.Begin ⊎ (IsRead slot × ((state_of self.old).gives name.now ≡ None))) }
        ensures faults { CountsFault slot (state_of self.old) (state_of self.new) result }
        ensures calls { Counts CallKind.Begin self.old self.new }
    {
        if self.is_due(CallKind::Begin) {
            return Err(self.faults.fail(slot));
        }
        let Some(stage) = first_stage(&self.files, slot, name) else {
            return Err(self.faults.fail(slot));
        };
        let Ok(name) = String::from_str(alloc, name) else {
            return Err(DeskFault::OutOfMemory);
        };
        self.clear(slot);
        self.names.put(slot, Some(name));
        self.stages.put(slot, stage);
        Ok(())
    }

    fn read(&mut self, slot: Slot, buffer: &mut [u8]) -> Result<usize, DeskFault>
        requires read { IsRead slot }
        requires begun { (state_of self.old).begun slot ≡ true }
        requires room { 0 < length buffer.old }
        ensures moved { IfOk result (λ n.
            Moves ((state_of self.old).left slot) ((state_of self.new).left slot) buffer.new n) }
        ensures end { IfOk result (λ n.
            IfSome ((state_of self.old).left slot) (λ bytes. (n ≡ 0) ↔ (bytes ≡ []))) }
        ensures fits { IfOk result (λ n. n ≤ length buffer.old) }
        ensures unmoved { OnErr result ((state_of self.new).left slot ≡ (state_of self.old).left slot) }
        ensures begun { Same (state_of self.old).begun (state_of self.new).begun }
        ensures finished { Same (state_of self.old).finished (state_of self.new).finished }
        ensures names { Same (state_of self.old).names (state_of self.new).names }
        ensures keeps { Keeps slot (state_of self.old) (state_of self.new) }
        ensures cause { HasCause slot (state_of self.old) (state_of self.new) result }
        ensures takes_no_memory { result ≢ Err DeskFault.OutOfMemory }
        ensures failed { (result ≡ Err DeskFault.Failed) ↔ FailsNext self.old CallKind.Read }
        ensures piece { IfOk result (λ n.
            n ≡ min (min (length (left_of self.old slot)) (length buffer.old)) (piece_of self.old)) }
        ensures faults { CountsFault slot (state_of self.old) (state_of self.new) result }
        ensures calls { Counts CallKind.Read self.old self.new }
    {
        if self.is_due(CallKind::Read) {
            return Err(self.faults.fail(slot));
        }
        let Stage::Reading(source) = self.stages.at(slot) else {
            return Ok(0);
        };
        let rest = rest(&self.files, source);
        let n = rest.len().min(buffer.len()).min(self.piece);
        buffer[..n].copy_from_slice(&rest[..n]);
        let done = source.done + n;
        self.stages
            .put(slot, Stage::Reading(Source { done, ..source }));
        Ok(n)
    }

    fn write(&mut self, _alloc: Global, slot: Slot, bytes: &[u8]) -> Result<usize, DeskFault>
        requires written { IsWritten slot }
        requires begun { (state_of self.old).begun slot ≡ true }
        requires unfinished { (state_of self.old).finished slot ≡ false }
        ensures appended { IfOk result (λ n.
            (state_of self.new).written slot ≡ appended ((state_of self.old).written slot) (take n bytes.now)) }
        ensures fits { IfOk result (λ n. n ≤ length bytes.now) }
        ensures some { IfOk result (λ n. bytes.now ≢ [] → 0 < n) }
        ensures unwritten { OnErr result ((state_of self.new).written slot ≡ (state_of self.old).written slot) }
        ensures begun { Same (state_of self.old).begun (state_of self.new).begun }
        ensures finished { Same (state_of self.old).finished (state_of self.new).finished }
        ensures names { Same (state_of self.old).names (state_of self.new).names }
        ensures keeps { Keeps slot (state_of self.old) (state_of self.new) }
        ensures cause { HasCause slot (state_of self.old) (state_of self.new) result }
        ensures failed { (result ≡ Err DeskFault.Failed) ↔ FailsNext self.old CallKind.Write }
        ensures piece { IfOk result (λ n. n ≡ min (length bytes.now) (piece_of self.old)) }
        ensures faults { CountsFault slot (state_of self.old) (state_of self.new) result }
        ensures calls { Counts CallKind.Write self.old self.new }
    {
        if self.is_due(CallKind::Write) {
            return Err(self.faults.fail(slot));
        }
        let n = bytes.len().min(self.piece);
        match self.append(slot, &bytes[..n]) {
            Ok(()) => Ok(n),
            Err(_) => Err(DeskFault::OutOfMemory),
        }
    }

    fn finish(&mut self, slot: Slot) -> Result<(), DeskFault>
        requires written { IsWritten slot }
        requires begun { (state_of self.old).begun slot ≡ true }
        requires unfinished { (state_of self.old).finished slot ≡ false }
        ensures finished { AddsOnOk slot (state_of self.old).finished (state_of self.new).finished result }
        ensures begun { Same (state_of self.old).begun (state_of self.new).begun }
        ensures unchanged { (state_of self.new).written slot ≡ (state_of self.old).written slot }
        ensures names { Same (state_of self.old).names (state_of self.new).names }
        ensures keeps { Keeps slot (state_of self.old) (state_of self.new) }
        ensures cause { HasCause slot (state_of self.old) (state_of self.new) result }
        ensures takes_no_memory { result ≢ Err DeskFault.OutOfMemory }
        ensures failed { (result ≡ Err DeskFault.Failed) ↔ FailsNext self.old CallKind.Finish }
        ensures faults { CountsFault slot (state_of self.old) (state_of self.new) result }
        ensures calls { Counts CallKind.Finish self.old self.new }
    {
        if self.is_due(CallKind::Finish) {
            return Err(self.faults.fail(slot));
        }
        self.stages.put(slot, Stage::Finished);
        Ok(())
    }
}
