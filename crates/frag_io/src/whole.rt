//! A slot's bytes as a whole: all that a read slot has, and all of a text to a written one.
ghost use Rattle.std.specs.Prelude.{◌≡◌, ◌≤◌, ◌<◌, ℕ, true, false, length, take, IfSome, IfOk, OnOk, OnErr};
ghost use Rattle.frag_io.specs.Slot.{IsRead, IsWritten, Same};
ghost use Rattle.frag_io.specs.Desk.{appended, Keeps, HasCause, IsCounted};
ghost use Rattle.frag_io.specs.Whole.{ReadsWhole, greatest_piece};

use crate::{Desk, DeskFault, Slot};
use std::alloc::{AllocError, Global};

/// How many bytes a read asks for, and so how many are read past a limit at most.
const GREATEST_PIECE: usize = 65_536;

/// Why a slot was not read whole.
#[derive(Clone, Copy, Debug, PartialEq, Eq)]
pub enum ReadWhole {
    /// A read failed; a fault of the slot is counted.
    Failed,
    /// More than the limit was read.
    TooLong,
    /// There was no memory.
    OutOfMemory,
}

impl From<DeskFault> for ReadWhole {
    ghost use Rattle.frag_io.specs.Whole.{read_fault};

    ghost from_gives = { λ fault whole. whole ≡ read_fault fault };

    fn from(fault: DeskFault) -> Self {
        match fault {
            DeskFault::Failed => ReadWhole::Failed,
            DeskFault::OutOfMemory => ReadWhole::OutOfMemory,
        }
    }
}

impl From<AllocError> for ReadWhole {
    ghost use Rattle.frag_io.specs.declared.whole.ReadWhole.TheVariants.{OutOfMemory};

    ghost from_gives = { λ _ e. e ≡ OutOfMemory };

    fn from(_: AllocError) -> Self {
        ReadWhole::OutOfMemory
    }
}

/// Room for what one read brings.
fn make_buffer(alloc: Global) -> Result<Vec<u8>, AllocError>
    ensures { IfOk result (λ buffer. length buffer.items ≡ greatest_piece) }
{
    vec![in alloc; 0u8; GREATEST_PIECE]
}

/// All that a read slot has, read to its end, of at most `limit` bytes. Past the limit no more than 65,536 are read.
pub fn read_whole<D: Desk>(
    alloc: Global,
    desk: &mut D,
    slot: Slot,
    limit: usize,
) -> Result<Vec<u8>, ReadWhole>
    requires read { IsRead slot }
    requires begun { (D.state desk.old).begun slot ≡ true }
    ensures whole { IfSome ((D.state desk.old).left slot) (ReadsWhole limit ((D.state desk.new).left slot) result) }
    ensures short { IfOk result (λ bytes. length bytes.items ≤ limit) }
    ensures begun { Same (D.state desk.old).begun (D.state desk.new).begun }
    ensures finished { Same (D.state desk.old).finished (D.state desk.new).finished }
    ensures names { Same (D.state desk.old).names (D.state desk.new).names }
    ensures keeps { Keeps slot (D.state desk.old) (D.state desk.new) }
    ensures cause { result ≡ Err ReadWhole.Failed → IsCounted slot (D.state desk.old) (D.state desk.new) }
{
    let mut text = Vec::new(alloc);
    let mut buffer = make_buffer(alloc)?;
    loop {
        let n = desk.read(slot, &mut buffer)?;
        if n == 0 {
            return Ok(text);
        }
        if n > limit - text.len() {
            return Err(ReadWhole::TooLong);
        }
        text.extend_from_slice(&buffer[..n])?;
    }
}

/// Appends all of a text to a written slot. After an `Err` a first part of it was appended.
pub fn write_whole<D: Desk>(
    alloc: Global,
    desk: &mut D,
    slot: Slot,
    bytes: &[u8],
) -> Result<(), DeskFault>
    requires written { IsWritten slot }
    requires begun { (D.state desk.old).begun slot ≡ true }
    requires unfinished { (D.state desk.old).finished slot ≡ false }
    ensures all { OnOk result
        ((D.state desk.new).written slot ≡ appended ((D.state desk.old).written slot) bytes.now) }
    ensures part { OnErr result ((n : ℕ)
        × ((D.state desk.new).written slot ≡ appended ((D.state desk.old).written slot) (take n bytes.now))) }
    ensures begun { Same (D.state desk.old).begun (D.state desk.new).begun }
    ensures finished { Same (D.state desk.old).finished (D.state desk.new).finished }
    ensures names { Same (D.state desk.old).names (D.state desk.new).names }
    ensures keeps { Keeps slot (D.state desk.old) (D.state desk.new) }
    ensures cause { HasCause slot (D.state desk.old) (D.state desk.new) result }
{
    let mut done = 0;
    while done < bytes.len() {
        done += desk.write(alloc, slot, &bytes[done..])?;
    }
    Ok(())
}
