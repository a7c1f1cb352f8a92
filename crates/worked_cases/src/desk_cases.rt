//! Copies over a desk in memory of which a call may fail.
ghost use Rattle.std.specs.Prelude.{◌≡◌, ◌<◌, false, IfOk};
ghost use Rattle.frag_io.specs.declared.desk.Slot.{Slot};

use frag_io::{CallKind, Desk, Failing, MemoryDesk, ReadWhole, Slot, read_whole, write_whole};
use std::alloc::{AllocError, Global};
use std::io;
use std::str::SplitWhitespace;

/// Copies a text, and prints what came of it. The words of a case are how many bytes a call moves at most, which call
/// fails, by its kind and its number among them, how long the text may be, and its name.
pub fn answer(rt: &HostRuntime, case: &str) -> io::Result<()> {
    let mut words = case.split_whitespace();
    let piece = number(&mut words);
    let failing = failing(&mut words);
    let limit = number(&mut words);
    let name = words.next().unwrap_or("");
    if piece == 0 {
        return println!(rt; "  no such desk");
    }
    let mut desk = desk(rt.alloc(), failing, piece as usize)?;
    let copied = copy(rt.alloc(), &mut desk, name, limit as usize);
    tell(rt, copied, &desk)
}

/// Prints what came of a copy; and of the text and of its copy what the desk keeps.
fn tell(rt: &HostRuntime, copied: Result<(), ReadWhole>, desk: &MemoryDesk) -> io::Result<()> {
    println!(rt; "  {copied:?}")?;
    tell_slot(rt, Slot::Spectra, desk)?;
    tell_slot(rt, Slot::CertOut, desk)
}

/// Prints of a slot how many faults were counted, the name, and what was written.
fn tell_slot(rt: &HostRuntime, slot: Slot, desk: &MemoryDesk) -> io::Result<()> {
    let (faults, name, written) = (desk.faults(slot), desk.name(slot), desk.written(slot));
    println!(rt; "  {slot:?} {faults} {name:?} {written:?}")
}

/// The number of a word, and 0 where it is none.
fn number(words: &mut SplitWhitespace<'_>) -> u32 {
    match words.next() {
        Some(word) => word.parse().unwrap_or(0),
        None => 0,
    }
}

/// The call of a kind and a number.
fn failing(words: &mut SplitWhitespace<'_>) -> Failing {
    let kind = match words.next() {
        Some("begin") => CallKind::Begin,
        Some("read") => CallKind::Read,
        Some("write") => CallKind::Write,
        _ => CallKind::Finish,
    };
    let number = u64::from(number(words));
    Failing { kind, number }
}

/// A desk over three files, of which two have one name.
fn desk(alloc: Global, failing: Failing, piece: usize) -> Result<MemoryDesk, AllocError>
    requires { 0 < piece }
    ensures unbegun { IfOk result (λ desk. (slot : Slot)
        → (⟦<MemoryDesk as Desk>⟧.state desk).begun slot ≡ false) }
    ensures unfinished { IfOk result (λ desk. (slot : Slot)
        → (⟦<MemoryDesk as Desk>⟧.state desk).finished slot ≡ false) }
{
    let mut files = Vec::new(alloc);
    for (name, bytes) in [("a.mgf", "abc"), ("b.toml", ""), ("a.mgf", "second")] {
        let name = String::from_str(alloc, name)?;
        files.push((name, bytes.as_bytes().to_vec(alloc)?))?;
    }
    Ok(MemoryDesk::new(alloc, files, vec![in alloc; failing]?, piece))
}

/// Copies the text of a name, of at most `limit` bytes, to `copy.txt`.
fn copy<D: Desk>(alloc: Global, desk: &mut D, name: &str, limit: usize) -> Result<(), ReadWhole>
    requires unbegun { (slot : Slot) → (D.state desk.old).begun slot ≡ false }
    requires unfinished { (slot : Slot) → (D.state desk.old).finished slot ≡ false }
{
    desk.begin(alloc, Slot::Spectra, name)?;
    let text = read_whole(alloc, desk, Slot::Spectra, limit)?;
    desk.begin(alloc, Slot::CertOut, "copy.txt")?;
    write_whole(alloc, desk, Slot::CertOut, &text)?;
    desk.finish(Slot::CertOut)?;
    Ok(())
}
