//! The reading of a text of spectra to its end.
ghost use Rattle.std.specs.Prelude.{◌≡◌, ◌≤◌, [], false, length, IfOk};
ghost use Rattle.mgf_reader.specs.Grammar.{Reads};
ghost use Rattle.mgf_reader.specs.Stands.{Stands};
ghost use Rattle.frag_io.specs.declared.desk.Slot.TheVariants.{Spectra};
ghost use Rattle.run_plan.specs.Limits.{greatest_text_of};

use mgf_reader::{FeedFault, MgfFault, Reader};
use std::alloc::AllocError;

/// Reads a text whole, and leaves its spectra in the reader.
pub fn read_all(reader: &mut Reader, text: &[u8]) -> Result<Option<MgfFault>, AllocError>
    requires new { Stands reader.old [] [] }
    requires unfed { reader.old.fed ≡ 0 }
    requires open { reader.old.ended ≡ false }
    requires short { length text.now ≤ greatest_text_of Spectra }
    ensures { IfOk result (λ fault. Reads text.now reader.new.waiting fault) }
{
    // What a feed answers, the end answers again.
    let _fed = reader.feed(text);
    match reader.end() {
        Ok(()) => Ok(None),
        Err(FeedFault::Mgf(fault)) => Ok(Some(fault)),
        Err(FeedFault::OutOfMemory) => Err(AllocError),
    }
}
