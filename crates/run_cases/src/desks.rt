//! The desks of cases, and what a run leaves on one.
ghost use Rattle.std.specs.Prelude.{◌≡◌, ◌<◌, false, IfOk};
ghost use Rattle.frag_io.specs.declared.desk.Slot.{Slot};

use crate::texts::text_named;
use frag_io::{CallKind, Desk, Failing, MemoryDesk, Slot};
use fragment_run::{Status, fault_text};
use std::alloc::{AllocError, Global};
use std::io;
use std::str::{SplitWhitespace, from_utf8};

/// What the words before the bar say: the texts of the files `a` and `d`, how many bytes a call moves at most, and
/// which call fails, by its kind and its number among them.
#[derive(Clone, Copy)]
pub struct Case {
    spectra: &'static [u8],
    document: &'static [u8],
    piece: usize,
    failing: Failing,
}

impl Case {
    pub fn of(settings: &str) -> Case {
        let mut words = settings.split_whitespace();
        Case {
            spectra: text_named(words.next()),
            document: text_named(words.next()),
            piece: number(&mut words) as usize,
            failing: failing(&mut words),
        }
    }
}

/// The number of a word, and 0 where it is none.
fn number(words: &mut SplitWhitespace<'_>) -> u32 {
    match words.next() {
        Some(word) => word.parse().unwrap_or(0),
        None => 0,
    }
}

/// The call of a kind and a number, from 1. None fails where the number is 0.
fn failing(words: &mut SplitWhitespace<'_>) -> Failing {
    let kind = match words.next() {
        Some("begin") => CallKind::Begin,
        Some("read") => CallKind::Read,
        Some("write") => CallKind::Write,
        _ => CallKind::Finish,
    };
    let number = u64::from(number(words));
    Failing { kind, number }
}

/// The desk of a case with the files `a`, `d` and a profile `p` of sugars. No slot of it was begun.
pub fn begun_none(alloc: Global, case: &Case) -> Result<MemoryDesk, AllocError>
    ensures { IfOk result (λ desk. (slot : Slot) → (⟦<MemoryDesk as Desk>⟧.state desk).begun slot ≡ false) }
{
    let mut files = Vec::new(alloc);
    let sugars = text_named(Some("sugars"));
    for (name, bytes) in [("a", case.spectra), ("d", case.document), ("p", sugars)] {
        let name = String::from_str(alloc, name)?;
        files.push((name, bytes.to_vec(alloc)?))?;
    }
    let fails = vec![in alloc; case.failing]?;
    Ok(MemoryDesk::new(alloc, files, fails, case.piece.max(1)))
}

/// Prints the code and the line of a status, how many faults of each slot were counted, and what was written.
pub fn tell(rt: &HostRuntime, status: &Status, desk: &MemoryDesk) -> io::Result<()> {
    let line = fault_text(rt.alloc(), status)?;
    println!(rt; "  {} {:?}", status.code(), shown(&line))?;
    for slot in [
        Slot::Profile,
        Slot::Spectra,
        Slot::CertIn,
        Slot::CertOut,
        Slot::Report,
    ] {
        tell_slot(rt, slot, desk.faults(slot), desk.written(slot))?;
    }
    Ok(())
}

/// Prints a slot of which a fault was counted or to which something was written.
fn tell_slot(rt: &HostRuntime, slot: Slot, faults: u64, written: &[u8]) -> io::Result<()> {
    if faults > 0 || !written.is_empty() {
        println!(rt; "  {slot:?} {faults} {:?}", shown(written))?;
    }
    Ok(())
}

/// Bytes as the text that they are.
fn shown(bytes: &[u8]) -> &str {
    from_utf8(bytes).unwrap_or("no UTF-8")
}
