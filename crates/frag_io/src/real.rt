//! A desk over the files and the standard output of a runtime. What these do is beyond any proof: here stands only what
//! is asked of them, and how their errors are counted.
ghost use Rattle.std.specs.Prelude.{◌≡◌, ◌≢◌, ◌≤◌, ◌<◌, ◌↔◌, [], length, take};
ghost use Rattle.std.specs.Prelude.{true, false, IfOk, IfSome, IsSome, OnOk, OnErr};
ghost use Rattle.std.specs.IoError.{error_kind};
ghost use Rattle.frag_io.specs.declared.desk.Slot.{Slot};
ghost use Rattle.frag_io.specs.Slot.{IsRead, SameBut, Same, Gains};
ghost use Rattle.frag_io.specs.Count.{raised};
ghost use Rattle.frag_io.specs.inside.BySlot.{at};
ghost use Rattle.frag_io.specs.inside.Faults.{faults_of};
ghost use Rattle.frag_io.specs.inside.Outlets.{is_open, is_ended, is_begun_in, is_finished_in};

use crate::faults::Faults;
use crate::file_identity::FileIdentity;
use crate::{Desk, DeskFault, Slot};
use std::alloc::Global;
use std::fs::{OpenFile, OpenOptions};
use std::io::{ErrorKind, Read, Write};
use std::rt::Files;
use std::{fs, io};

/// What a slot is written to.
#[derive(Drop)]
enum Outlet<F> {
    /// It was not begun.
    Fresh,
    /// It is open.
    Open(F),
    /// It was ended.
    Finished,
}

/// The slots' files, and the counts of their faults. The report goes to the standard output, which is always open.
#[derive(Drop)]
struct Slots<F> {
    spectra: Option<F>,
    profile: Option<F>,
    cert_in: Option<F>,
    report: Outlet<()>,
    cert_out: Outlet<F>,
    faults: Faults,
}

impl<F: Drop> Slots<F> {
    /// Begins a read slot over an open file.
    fn start(&mut self, slot: Slot, file: F)
        requires { IsRead slot }
        ensures begun { Gains slot (is_begun_in self.old) (is_begun_in self.new) }
        ensures finished { Same (is_finished_in self.old) (is_finished_in self.new) }
        ensures faults { self.new.faults ≡ self.old.faults }
    {
        match slot {
            Slot::Spectra => self.spectra = Some(file),
            Slot::Profile => self.profile = Some(file),
            Slot::CertIn => self.cert_in = Some(file),
            _ => unreachable!(),
        }
    }
}

impl<F: OpenFile> Slots<F> {
    /// The identities of the regular files that are read.
    fn files_read(&self) -> io::Result<[Option<FileIdentity>; 3]> {
        Ok([
            identity_of(&self.spectra)?,
            identity_of(&self.profile)?,
            identity_of(&self.cert_in)?,
        ])
    }
}

/// The identity of the file at a slot, where it was begun and is a regular file.
fn identity_of<F: OpenFile>(file: &Option<F>) -> io::Result<Option<FileIdentity>> {
    match file {
        Some(file) => Ok(FileIdentity::of(&file.metadata()?)),
        None => Ok(None),
    }
}

/// A file that is there on every Linux system and has no bytes.
const NO_BYTES: &str = "/dev/null";

/// Files that are kept open, and nothing else.
#[derive(Drop)]
struct Held<F>(F, F, F);

/// Takes as many descriptors as there are standard streams. Where one of these is closed, the system gives its
/// descriptor to the next file that is opened, and what is meant for the stream would land in that file.
fn take_descriptors<R: Files>(rt: &R) -> io::Result<Held<R::File>> {
    Ok(Held(
        fs::open(rt, NO_BYTES)?,
        fs::open(rt, NO_BYTES)?,
        fs::open(rt, NO_BYTES)?,
    ))
}

/// Opens a file to write it from its beginning, creating it where there is none. One of those that are read is refused
/// as it is, under whatever name, so a file is emptied only once it is known to be none of them. What is no regular
/// file has nothing to be emptied of.
fn open_emptied<R: Files>(rt: &R, name: &str, slots: &Slots<R::File>) -> io::Result<R::File> {
    let file = OpenOptions::new().write(true).create(true).open(rt, name)?;
    if let Some(identity) = FileIdentity::of(&file.metadata()?) {
        if identity.is_among(&slots.files_read()?) {
            return Err(io::Error::from(ErrorKind::InvalidInput));
        }
        file.set_len(0)?;
    }
    Ok(file)
}

/// Reads an open file.
fn read_from<F: Read>(file: &mut Option<F>, buffer: &mut [u8]) -> io::Result<usize>
    requires { IsSome file.old }
    ensures open { IsSome file.new }
    ensures bound { IfOk result (λ n. n ≤ length buffer.old) }
{
    match file {
        Some(file) => file.read(buffer),
        None => unreachable!(),
    }
}

/// Writes to an open file.
fn write_to<F: Write>(outlet: &mut Outlet<F>, bytes: &[u8]) -> io::Result<usize>
    requires { is_open outlet.old ≡ true }
    ensures open { is_open outlet.new ≡ true }
    ensures bound { IfOk result (λ n. n ≤ length bytes.now) }
{
    match outlet {
        Outlet::Open(file) => file.write(bytes),
        _ => unreachable!(),
    }
}

/// Ends an open file; where the system refuses, it stays open.
fn end<F: Write + Drop>(outlet: &mut Outlet<F>) -> io::Result<()>
    requires { is_open outlet.old ≡ true }
    ensures ended { OnOk result (is_ended outlet.new ≡ true) }
    ensures open { OnErr result (is_open outlet.new ≡ true) }
{
    match outlet {
        Outlet::Open(file) => file.flush()?,
        _ => unreachable!(),
    }
    *outlet = Outlet::Finished;
    Ok(())
}

/// A desk over real files and the standard output. It tells no bytes. Read slots are opened only to read; the
/// document's file is created, or emptied, as it begins, but refused where it is one of the files that are read, and
/// never takes the descriptor of a standard stream; the report goes to the standard output.
#[derive(Drop)]
pub struct RealDesk<'a, R: Files + Print> {
    rt: &'a R,
    slots: Slots<R::File>,
    held: Option<Held<R::File>>,
}

impl<'a, R: Files + Print> RealDesk<'a, R> {
    /// A desk with no slot begun and no fault counted.
    pub fn new(rt: &'a R) -> RealDesk<'a, R>
        ensures unbegun { (slot : Slot) → (⟦<RealDesk<'static, R> as Desk>⟧.state result).begun slot ≡ false }
        ensures unfinished { (slot : Slot) → (⟦<RealDesk<'static, R> as Desk>⟧.state result).finished slot ≡ false }
        ensures faultless { (slot : Slot) → (⟦<RealDesk<'static, R> as Desk>⟧.state result).faults slot ≡ 0 }
    {
        RealDesk {
            rt,
            slots: Slots {
                spectra: None,
                profile: None,
                cert_in: None,
                report: Outlet::Fresh,
                cert_out: Outlet::Fresh,
                faults: Faults::none(),
            },
            held: None,
        }
    }

    /// Counts an error as a fault of a slot, and tells it, but for want of memory.
    fn refuse(&mut self, slot: Slot, error: &io::Error) -> DeskFault
        ensures memory { (result ≡ DeskFault.OutOfMemory)
            ↔ (error_kind error.now ≡ ErrorKind.OutOfMemory) }
        ensures counted { result ≡ DeskFault.Failed
            → faults_of self.new.slots.faults slot ≡ raised (faults_of self.old.slots.faults slot) }
        ensures uncounted { result ≡ DeskFault.OutOfMemory → self.new ≡ self.old }
        ensures others { SameBut slot (faults_of self.old.slots.faults) (faults_of self.new.slots.faults) }
        ensures rest { self.new.slots ≡ record self.old.slots { faults = self.new.slots.faults } }
    {
        if error.kind() == ErrorKind::OutOfMemory {
            DeskFault::OutOfMemory
        } else {
            self.slots.faults.fail(slot)
        }
    }

    /// Opens a slot.
    fn open(&mut self, slot: Slot, name: &str) -> io::Result<()>
        ensures ok { OnOk result (Gains slot (is_begun_in self.old.slots) (is_begun_in self.new.slots)) }
        ensures err { OnErr result (Same (is_begun_in self.old.slots) (is_begun_in self.new.slots)) }
        ensures finished { is_finished_in self.old.slots slot ≡ false
            → Same (is_finished_in self.old.slots) (is_finished_in self.new.slots) }
        ensures faults { self.new.slots.faults ≡ self.old.slots.faults }
    {
        match slot {
            Slot::Report => self.slots.report = Outlet::Open(()),
            Slot::CertOut => {
                let held = take_descriptors(self.rt)?;
                let file = open_emptied(self.rt, name, &self.slots)?;
                self.held = Some(held);
                self.slots.cert_out = Outlet::Open(file);
            }
            _ => {
                let file = fs::open(self.rt, name)?;
                self.slots.start(slot, file);
            }
        }
        Ok(())
    }
}

impl<R: Files + Print> Desk for RealDesk<'_, R> {
    ghost use Rattle.frag_io.specs.declared.desk.Slot.TheVariants.{Report};
    ghost use Rattle.frag_io.specs.Desk.{IsNamed, IsEmpty, appended, Keeps, AddsOnOk, HasCause, CountsFault, Moves};
    ghost use Rattle.frag_io.specs.Real.{state_of};
    ghost use Rattle.frag_io.specs.Slot.{IsWritten};
    ghost use Rattle.frag_io.specs.inside.Outlets.{finished_in_is_begun};

    ghost state = { λ desk. state_of desk.slots };

    ghost finished_was_begun = { λ desk slot is. finished_in_is_begun desk.slots slot is };

    ghost unbegun_is_empty = { λ _ _ _ _. tt };

    ghost counts_fit = { λ desk slot. (at desk.slots.faults.counts slot).fits };

    fn begin(&mut self, _alloc: Global, slot: Slot, name: &str) -> Result<(), DeskFault>
        requires fresh { (state_of self.old.slots).begun slot ≡ false }
        requires unnamed { slot ≡ Report → name.now ≡ [] }
        ensures begun { AddsOnOk slot (state_of self.old.slots).begun (state_of self.new.slots).begun result }
        ensures finished { Same (state_of self.old.slots).finished (state_of self.new.slots).finished }
        ensures named { OnOk result (IsNamed slot name.now (state_of self.new.slots)) }
        ensures left { OnOk result (IsRead slot
            → (state_of self.new.slots).left slot ≡ (state_of self.old.slots).gives name.now) }
        ensures written { OnOk result (IsWritten slot → IsEmpty ((state_of self.new.slots).written slot)) }
        ensures keeps { Keeps slot (state_of self.old.slots) (state_of self.new.slots) }
        ensures faults { CountsFault slot (state_of self.old.slots) (state_of self.new.slots) result }
        ensures cause { HasCause slot (state_of self.old.slots) (state_of self.new.slots) result }
    {
        match self.open(slot, name) {
            Ok(()) => Ok(()),
            Err(error) => Err(self.refuse(slot, &error)),
        }
    }

    fn read(&mut self, slot: Slot, buffer: &mut [u8]) -> Result<usize, DeskFault>
        requires read { IsRead slot }
        requires begun { (state_of self.old.slots).begun slot ≡ true }
        requires room { 0 < length buffer.old }
        ensures moved { IfOk result (λ n.
            Moves ((state_of self.old.slots).left slot) ((state_of self.new.slots).left slot) buffer.new n) }
        ensures end { IfOk result (λ n.
            IfSome ((state_of self.old.slots).left slot) (λ bytes. (n ≡ 0) ↔ (bytes ≡ []))) }
        ensures fits { IfOk result (λ n. n ≤ length buffer.old) }
        ensures unmoved { OnErr result ((state_of self.new.slots).left slot ≡ (state_of self.old.slots).left slot) }
        ensures begun { Same (state_of self.old.slots).begun (state_of self.new.slots).begun }
        ensures finished { Same (state_of self.old.slots).finished (state_of self.new.slots).finished }
        ensures names { Same (state_of self.old.slots).names (state_of self.new.slots).names }
        ensures keeps { Keeps slot (state_of self.old.slots) (state_of self.new.slots) }
        ensures faults { CountsFault slot (state_of self.old.slots) (state_of self.new.slots) result }
        ensures cause { HasCause slot (state_of self.old.slots) (state_of self.new.slots) result }
        ensures takes_no_memory { result ≢ Err DeskFault.OutOfMemory }
    {
        let moved = match slot {
            Slot::Spectra => read_from(&mut self.slots.spectra, buffer),
            Slot::Profile => read_from(&mut self.slots.profile, buffer),
            Slot::CertIn => read_from(&mut self.slots.cert_in, buffer),
            _ => unreachable!(),
        };
        match moved {
            Ok(n) => Ok(n),
            Err(_) => Err(self.slots.faults.fail(slot)),
        }
    }

    fn write(&mut self, _alloc: Global, slot: Slot, bytes: &[u8]) -> Result<usize, DeskFault>
        requires written { IsWritten slot }
        requires begun { (state_of self.old.slots).begun slot ≡ true }
        requires unfinished { (state_of self.old.slots).finished slot ≡ false }
        ensures appended { IfOk result (λ n.
            (state_of self.new.slots).written slot
            ≡ appended ((state_of self.old.slots).written slot) (take n bytes.now)) }
        ensures fits { IfOk result (λ n. n ≤ length bytes.now) }
        ensures some { IfOk result (λ n. bytes.now ≢ [] → 0 < n) }
        ensures unwritten { OnErr result
            ((state_of self.new.slots).written slot ≡ (state_of self.old.slots).written slot) }
        ensures begun { Same (state_of self.old.slots).begun (state_of self.new.slots).begun }
        ensures finished { Same (state_of self.old.slots).finished (state_of self.new.slots).finished }
        ensures names { Same (state_of self.old.slots).names (state_of self.new.slots).names }
        ensures keeps { Keeps slot (state_of self.old.slots) (state_of self.new.slots) }
        ensures faults { CountsFault slot (state_of self.old.slots) (state_of self.new.slots) result }
        ensures cause { HasCause slot (state_of self.old.slots) (state_of self.new.slots) result }
    {
        let taken = match slot {
            Slot::Report => self.rt.write_some(bytes),
            Slot::CertOut => write_to(&mut self.slots.cert_out, bytes),
            _ => unreachable!(),
        };
        match taken {
            Ok(0) if !bytes.is_empty() => Err(self.slots.faults.fail(slot)),
            Ok(n) => Ok(n),
            Err(error) => Err(self.refuse(slot, &error)),
        }
    }

    // The standard output keeps nothing back that would have to be flushed.
    fn finish(&mut self, slot: Slot) -> Result<(), DeskFault>
        requires written { IsWritten slot }
        requires begun { (state_of self.old.slots).begun slot ≡ true }
        requires unfinished { (state_of self.old.slots).finished slot ≡ false }
        ensures finished { AddsOnOk slot (state_of self.old.slots).finished (state_of self.new.slots).finished result }
        ensures begun { Same (state_of self.old.slots).begun (state_of self.new.slots).begun }
        ensures unchanged { (state_of self.new.slots).written slot ≡ (state_of self.old.slots).written slot }
        ensures names { Same (state_of self.old.slots).names (state_of self.new.slots).names }
        ensures keeps { Keeps slot (state_of self.old.slots) (state_of self.new.slots) }
        ensures faults { CountsFault slot (state_of self.old.slots) (state_of self.new.slots) result }
        ensures cause { HasCause slot (state_of self.old.slots) (state_of self.new.slots) result }
        ensures takes_no_memory { result ≢ Err DeskFault.OutOfMemory }
    {
        let ended = match slot {
            Slot::Report => {
                self.slots.report = Outlet::Finished;
                Ok(())
            }
            Slot::CertOut => end(&mut self.slots.cert_out),
            _ => unreachable!(),
        };
        match ended {
            Ok(()) => Ok(()),
            Err(_) => Err(self.slots.faults.fail(slot)),
        }
    }
}
