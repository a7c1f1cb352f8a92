//! How a run ended: the status, its code and the line that tells it.
ghost use Rattle.std.specs.Prelude.{◌≡◌, ◌++◌, IfOk, OnOk, codes, decimal};
ghost use Rattle.tree_document.specs.Title.{escaped};
ghost use Rattle.run_plan.specs.Running.{status_of};
ghost use Rattle.run_plan.specs.declared.status.Status.TheVariants.{Memory};
ghost use Rattle.run_plan.specs.Status.{code_of, fault_line, part_text, refusal_text, slot_name_of};
ghost use Rattle.run_plan.specs.inside.Numbered.{number_text};

use crate::reject::{RejectPart, RejectPlace};
use frag_io::Slot;
use mgf_reader::MgfFault;
use profile::{Name, ProfileFault};
use std::alloc::{AllocError, Global};
use tree_document::{CertFault, push_escaped};

/// How a run ended.
#[derive(Debug, Drop)]
pub enum Status {
    /// All that was ordered was written.
    Done,
    /// The words are no order.
    Words,
    /// There was no memory.
    Memory,
    /// A read of this slot failed.
    ReadFault(Slot),
    /// A write to this slot failed, or its end.
    WriteFault(Slot),
    /// This slot could not be begun.
    OpenFault(Slot),
    /// More was read from this slot than the limit allows.
    TooLong(Slot),
    /// This line refuses the text.
    MgfRefused(MgfFault),
    /// The profile is refused.
    ProfileRefused(ProfileFault),
    /// The bytes of the document are refused.
    DocumentRefused(CertFault),
    /// The document differs from the right ones of the text, here first.
    DocumentRejected(RejectPlace),
}

impl From<AllocError> for Status {
    ghost from_gives = { λ _ status. status ≡ Memory };

    fn from(_: AllocError) -> Self {
        Status::Memory
    }
}

impl Status {
    /// The status that an outcome is told by.
    pub fn of(outcome: Result<(), Status>) -> Status
        ensures { result ≡ status_of outcome }
    {
        match outcome {
            Ok(()) => Status::Done,
            Err(status) => status,
        }
    }

    /// The code that the process ends with.
    pub fn code(&self) -> u8
        ensures { result ≡ code_of self.now }
    {
        match self {
            Status::Done => 0,
            Status::Words => 2,
            Status::Memory => 3,
            Status::MgfRefused(_) => 4,
            Status::ProfileRefused(_) => 5,
            Status::ReadFault(_) => 6,
            Status::WriteFault(_) => 7,
            Status::OpenFault(_) => 8,
            Status::TooLong(_) => 9,
            Status::DocumentRefused(_) => 10,
            Status::DocumentRejected(_) => 11,
        }
    }
}

/// The line that tells how a run ended, with its line feed; nothing where all is done.
pub fn fault_text(alloc: Global, status: &Status) -> Result<Vec<u8>, AllocError>
    ensures { IfOk result (λ line. line.items ≡ fault_line status.now) }
{
    match status {
        Status::Done => Ok(Vec::new(alloc)),
        Status::Words => line(alloc, "words: not an order of this program", ""),
        Status::Memory => line(alloc, "memory: refused", ""),
        Status::ReadFault(slot) => line(alloc, "read fault: ", slot_name(*slot)),
        Status::WriteFault(slot) => line(alloc, "write fault: ", slot_name(*slot)),
        Status::OpenFault(slot) => line(alloc, "open fault: ", slot_name(*slot)),
        Status::TooLong(slot) => line(alloc, "too long: ", slot_name(*slot)),
        Status::MgfRefused(fault) => refusal(alloc, fault),
        Status::ProfileRefused(fault) => profile_refusal(alloc, fault),
        Status::DocumentRefused(fault) => document_refusal(alloc, *fault),
        Status::DocumentRejected(place) => rejection(alloc, *place),
    }
}

/// The line that tells which line refuses a text.
fn refusal(alloc: Global, fault: &MgfFault) -> Result<Vec<u8>, AllocError>
    ensures { IfOk result (λ line. line.items ≡ fault_line (Status.MgfRefused fault.now)) }
{
    let number = fault.line.to_string(alloc)?;
    let mut line = Vec::new(alloc);
    line.extend_from_slice(b"mgf: line ")?;
    line.extend_from_slice(number.as_bytes())?;
    line.extend_from_slice(b": ")?;
    line.extend_from_slice(fault.kind.text().as_bytes())?;
    line.extend_from_slice(b"\n")?;
    Ok(line)
}

/// The line that tells why a profile is refused.
fn profile_refusal(alloc: Global, fault: &ProfileFault) -> Result<Vec<u8>, AllocError>
    ensures { IfOk result (λ line. line.items ≡ fault_line (Status.ProfileRefused fault.now)) }
{
    let mut line = Vec::new(alloc);
    line.extend_from_slice(b"profile: ")?;
    push_refusal(alloc, &mut line, fault)?;
    line.extend_from_slice(b"\n")?;
    Ok(line)
}

/// Appends why a profile is refused.
fn push_refusal(alloc: Global, line: &mut Vec<u8>, fault: &ProfileFault) -> Result<(), AllocError>
    ensures { OnOk result (line.new.items ≡ line.old.items ++ refusal_text fault.now) }
{
    match fault {
        ProfileFault::NotToml => line.extend_from_slice(b"not TOML")?,
        ProfileFault::UnknownKey(name) => push_named(line, b"unknown key ", name)?,
        ProfileFault::BadValue(name) => push_named(line, b"bad value ", name)?,
        ProfileFault::OverLimit(name, number) => {
            push_named(line, b"out of range ", name)?;
            line.extend_from_slice(b" ")?;
            let digits = number.to_string(alloc)?;
            line.extend_from_slice(digits.as_bytes())?;
        }
    }
    Ok(())
}

/// Appends words and the name of a place in a profile.
fn push_named(line: &mut Vec<u8>, words: &[u8], name: &Name) -> Result<(), AllocError>
    ensures { OnOk result (line.new.items ≡ line.old.items ++ words.now ++ escaped name.now) }
{
    line.extend_from_slice(words)?;
    push_escaped(line, name.items())
}

/// The line that tells why the bytes of a document are refused.
fn document_refusal(alloc: Global, fault: CertFault) -> Result<Vec<u8>, AllocError>
    ensures { IfOk result (λ line. line.items ≡ fault_line (Status.DocumentRefused fault)) }
{
    match fault {
        CertFault::BadLine(number) => numbered(alloc, "document: line ", number, ": bad line\n"),
        CertFault::TooBig(number) => numbered(alloc, "document: line ", number, ": too big\n"),
        CertFault::TooDeep(number) => numbered(alloc, "document: line ", number, ": too deep\n"),
        CertFault::Truncated => line(alloc, "document: truncated", ""),
    }
}

/// The line that tells where a document differs first from the right ones.
fn rejection(alloc: Global, place: RejectPlace) -> Result<Vec<u8>, AllocError>
    ensures { IfOk result (λ line. line.items ≡ fault_line (Status.DocumentRejected place)) }
{
    let mut line = numbered(alloc, "rejected: section ", place.section, ": ")?;
    let (words, number) = part_words(place.part);
    line.extend_from_slice(words.as_bytes())?;
    if let Some(number) = number {
        let digits = number.to_string(alloc)?;
        line.extend_from_slice(digits.as_bytes())?;
    }
    line.extend_from_slice(b"\n")?;
    Ok(line)
}

/// The words of a part, and the number behind them, where it keeps one.
fn part_words(part: RejectPart) -> (&'static str, Option<u32>)
    ensures { part_text part ≡ result.0.now ++ number_text result.1 }
{
    match part {
        RejectPart::Missing => ("missing", None),
        RejectPart::Extra => ("extra", None),
        RejectPart::Spectrum => ("spectrum", None),
        RejectPart::Skipped => ("skip", None),
        RejectPart::Lists(number) => ("list ", Some(number)),
        RejectPart::Candidates => ("candidates", None),
        RejectPart::Error(number) => ("error ", Some(number)),
        RejectPart::Outcome(number) => ("outcome ", Some(number)),
        RejectPart::Tree(number, _) => ("tree ", Some(number)),
        RejectPart::Order(number) => ("order ", Some(number)),
        RejectPart::Ending => ("ending", None),
    }
}

/// A number with words before and behind it.
fn numbered(alloc: Global, before: &str, number: u32, behind: &str) -> Result<Vec<u8>, AllocError>
    ensures { IfOk result (λ line. line.items ≡ before.now ++ decimal number ++ behind.now) }
{
    let digits = number.to_string(alloc)?;
    let mut line = Vec::new(alloc);
    line.extend_from_slice(before.as_bytes())?;
    line.extend_from_slice(digits.as_bytes())?;
    line.extend_from_slice(behind.as_bytes())?;
    Ok(line)
}

/// A line of two parts.
fn line(alloc: Global, first: &str, second: &str) -> Result<Vec<u8>, AllocError>
    ensures { IfOk result (λ line. line.items ≡ first.now ++ second.now ++ codes "\n") }
{
    let mut line = Vec::new(alloc);
    line.extend_from_slice(first.as_bytes())?;
    line.extend_from_slice(second.as_bytes())?;
    line.extend_from_slice(b"\n")?;
    Ok(line)
}

/// What a line calls a slot.
fn slot_name(slot: Slot) -> &'static str
    ensures { result.now ≡ slot_name_of slot }
{
    match slot {
        Slot::Spectra => "spectra",
        Slot::Profile => "profile",
        Slot::CertIn => "cert-in",
        Slot::Report => "report",
        Slot::CertOut => "cert-out",
    }
}
