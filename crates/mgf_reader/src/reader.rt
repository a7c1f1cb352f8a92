//! A reader of a text that comes in pieces of any size. It keeps one unfinished line, one open block, and the spectra
//! that wait.
ghost use Rattle.std.specs.Prelude.{◌≡◌, ◌≢◌, ◌≤◌, ◌+◌, ◌-◌, ◌++◌, [], ◌∷◌, List, ℕ, false, true, None, Some, Ok, Err};
ghost use Rattle.std.specs.Prelude.{length, IfOk, OnErr, OnOk, MatchOption};
ghost use Rattle.std.specs.Option.{option_to_list};
ghost use Rattle.mgf_reader.specs.Spectrum.{SpectrumValue};
ghost use Rattle.mgf_reader.specs.declared.fault.FeedFault.{FeedFault};
ghost use Rattle.mgf_reader.specs.Grammar.{Reads, SoFar};
ghost use Rattle.mgf_reader.specs.Stands.{Answers, Broken, IsFirstPart, Stands, answer_of, greatest_fed};

use crate::cutter::Cutter;
use crate::fault::FeedFault;
use crate::spectrum::Spectrum;
use std::alloc::{AllocError, Global};
use std::marker::Model;

/// How many bytes a reader may be fed in all: one more than a text may have, so that one too long is seen to be so.
pub const GREATEST_FED: usize = 67_108_865;

/// A reader of a text that comes in pieces.
#[derive(Drop)]
pub struct Reader {
    fed: usize,
    ended: bool,
    failed: Option<FeedFault>,
    cutter: Cutter,
}

impl Model for Reader {
    ghost use Rattle.std.specs.Prelude.{◌≡◌, ◌+◌, ◌≤◌, None, false, length};
    ghost use Rattle.mgf_reader.specs.Stands.{ReaderValue, greatest_fed};

    ghost Value = { ReaderValue };

    ghost view = { λ reader. record {
      fed = reader.fed;
      ended = reader.ended;
      waiting = reader.cutter.lines.waiting;
      failed = reader.failed;
      unfinished = reader.cutter.unfinished;
      judged = reader.cutter.lines.judged;
      defaults = reader.cutter.lines.defaults;
      block = reader.cutter.lines.block;
    } };

    // Each line that was judged took a byte, and what is kept is not judged.
    ghost invariant = { λ reader. (reader.fed ≤ greatest_fed)
        × (reader.failed ≡ None → reader.ended ≡ false
        → reader.cutter.lines.judged + length reader.cutter.unfinished ≤ reader.fed) };
}

impl Reader {
    /// A reader that was fed nothing.
    pub fn new(alloc: Global) -> Result<Reader, AllocError>
        ensures stands { IfOk result (λ reader. Stands reader [] []) }
        ensures unfed { IfOk result (λ reader. (reader.fed ≡ 0) × (reader.ended ≡ false)) }
    {
        Ok(Reader {
            fed: 0,
            ended: false,
            failed: None,
            cutter: Cutter::new(alloc),
        })
    }

    /// How many bytes more it may be fed.
    pub fn room(&self) -> usize
        ensures { result ≡ greatest_fed - self.now.fed }
    {
        GREATEST_FED - self.fed
    }

    /// Takes the next piece of the text in. Answers the first line of the text so far that has no place. From then on,
    /// and after want of memory, every later call answers the same.
    pub fn feed(&mut self, piece: &[u8]) -> Result<(), FeedFault>
        requires open { self.old.ended ≡ false }
        requires room { self.old.fed + length piece.now ≤ greatest_fed }

        ensures fed { self.new.fed ≡ self.old.fed + length piece.now }
        ensures open { self.new.ended ≡ false }

        // The reader stands for the longer text, however it was cut, and the answer is that text's.
        ensures stands { result ≢ Err FeedFault.OutOfMemory → (text : List ℕ) (out : List SpectrumValue)
            → Stands self.old text out → Stands self.new (text ++ piece.now) out }
        ensures answers { result ≢ Err FeedFault.OutOfMemory → (text : List ℕ) (out : List SpectrumValue)
            → Stands self.old text out → Answers (SoFar (text ++ piece.now)) (out ++ self.new.waiting) result }

        // Whatever is answered, the spectra that waited wait on, before those that are new.
        ensures waits { IsFirstPart self.old.waiting self.new.waiting }

        // Want of memory loses no spectrum that was right.
        ensures broken { result ≡ Err FeedFault.OutOfMemory → (text : List ℕ) (out : List SpectrumValue)
            → Stands self.old text out → Broken (SoFar (text ++ piece.now)) (out ++ self.new.waiting) }

        // A reader that failed answers the same for ever and takes nothing in.
        ensures failed { (fault : FeedFault) → self.old.failed ≡ Some fault
            → (result ≡ Err fault) × (self.new ≡ record self.old { fed = self.new.fed }) }
        ensures keeps_fault { (fault : FeedFault) → result ≡ Err fault → self.new.failed ≡ Some fault }
    {
        self.fed += piece.len();
        if let Some(fault) = self.failed {
            return Err(fault);
        }
        let taken = self.cutter.take(piece);
        self.failed = taken.err();
        taken
    }

    /// Hands the first of the spectra out that wait; none where none waits.
    pub fn next(&mut self) -> Option<Spectrum>
        ensures taken { MatchOption result (self.old.waiting ≡ [])
            (λ spectrum. self.old.waiting ≡ spectrum ∷ self.new.waiting) }
        ensures others { self.new ≡ record self.old { waiting = self.new.waiting } }
        ensures none { result ≡ None → self.new ≡ self.old }
        ensures stands { (text : List ℕ) (out : List SpectrumValue)
            → Stands self.old text out → Stands self.new text (out ++ option_to_list result) }
    {
        self.cutter.next()
    }

    /// Ends the text: what stands after the last line feed is a line. Answers the first line that has no place, or the
    /// block that is still open.
    pub fn end(&mut self) -> Result<(), FeedFault>
        requires { self.old.ended ≡ false }

        ensures fed { self.new.fed ≡ self.old.fed }
        ensures ended { OnOk result (self.new.ended ≡ true) }
        ensures open { OnErr result (self.new.ended ≡ false) }

        ensures answers { result ≢ Err FeedFault.OutOfMemory → (text : List ℕ) (out : List SpectrumValue)
            → Stands self.old text out → Answers (Reads text) (out ++ self.new.waiting) result }
        ensures waits { IsFirstPart self.old.waiting self.new.waiting }
        ensures broken { result ≡ Err FeedFault.OutOfMemory → (text : List ℕ) (out : List SpectrumValue)
            → Stands self.old text out → Broken (Reads text) (out ++ self.new.waiting) }

        ensures failed { (fault : FeedFault) → self.old.failed ≡ Some fault
            → (result ≡ Err fault) × (self.new ≡ self.old) }
        ensures keeps_fault { (fault : FeedFault) → result ≡ Err fault → self.new.failed ≡ Some fault }
    {
        if let Some(fault) = self.failed {
            return Err(fault);
        }
        let answer = self.cutter.end();
        self.failed = answer.err();
        self.ended = answer.is_ok();
        answer
    }
}
