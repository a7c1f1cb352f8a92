//! Cuts pieces into lines and has each judged. It keeps the bytes since the last line feed.
ghost use Rattle.std.specs.Prelude.{◌≡◌, ◌+◌, ◌++◌, ◌<◌, ◌≤◌, ◌^◌, [], ◌∷◌, None, length, OnOk, MatchOption};
ghost use Rattle.mgf_reader.specs.inside.Judging.{Judges, line_at, nothing_judged};
ghost use Rattle.mgf_reader.specs.Stands.{IsFirstPart};
ghost use Rattle.mgf_reader.specs.LineForm.{line_form};
ghost use Rattle.mgf_reader.specs.inside.Cutting.{TakesIn, Ends, HasNoLineFeed};

use crate::fault::FeedFault;
use crate::judge::Judge;
use crate::line::GREATEST_LINE;
use crate::spectrum::Spectrum;
use memchr::memchr;
use std::alloc::Global;
use std::marker::Model;

/// The bytes that may mark a text's start.
const MARK: [u8; 3] = [0xEF, 0xBB, 0xBF];

/// What was taken in so far.
#[derive(Drop)]
pub struct Cutter {
    unfinished: Vec<u8>,
    judge: Judge,
}

impl Model for Cutter {
    ghost use Rattle.mgf_reader.specs.inside.Cutting.{Kept};

    ghost Value = { Kept };

    ghost view = { λ cutter. record { unfinished = cutter.unfinished.items; lines = cutter.judge } };
}

impl Cutter {
    /// Before the first byte.
    pub fn new(alloc: Global) -> Cutter
        ensures { result ≡ record { unfinished = []; lines = nothing_judged } }
    {
        Cutter {
            unfinished: Vec::new(alloc),
            judge: Judge::new(alloc),
        }
    }

    /// Takes a piece in, up to the first line that has no place.
    pub fn take(&mut self, piece: &[u8]) -> Result<(), FeedFault>
        requires { self.old.lines.judged + length self.old.unfinished + length piece.now < 2 ^ 31 }
        ensures size { OnOk result (self.new.lines.judged + length self.new.unfinished
            ≤ self.old.lines.judged + length self.old.unfinished + length piece.now) }
        ensures waits { IsFirstPart self.old.lines.waiting self.new.lines.waiting }
        ensures takes { TakesIn self.old piece.now result self.new }
    {
        let mut rest = piece;
        while let Some(at) = memchr(b'\n', rest) {
            self.take_line(&rest[..at])?;
            rest = &rest[at + 1..];
        }
        self.keep(rest)
    }

    /// Takes the rest of a line in, and its line feed.
    fn take_line(&mut self, part: &[u8]) -> Result<(), FeedFault>
        requires room { self.old.lines.judged + length self.old.unfinished + length part.now + 1 < 2 ^ 31 }
        requires part { HasNoLineFeed part.now }
        ensures size { OnOk result (self.new.lines.judged + length self.new.unfinished ≤ self.old.lines.judged + 1) }
        ensures waits { IsFirstPart self.old.lines.waiting self.new.lines.waiting }
        ensures takes { TakesIn self.old (part.now ++ 10 ∷ []) result self.new }
    {
        if self.unfinished.is_empty() {
            return judge_line(&mut self.judge, part);
        }
        self.keep(part)?;
        let judged = judge_line(&mut self.judge, &self.unfinished);
        self.unfinished.clear();
        judged
    }

    /// Keeps a part of a line that is not ended, unless it is too long already.
    fn keep(&mut self, part: &[u8]) -> Result<(), FeedFault>
        requires room { self.old.lines.judged + length self.old.unfinished + length part.now < 2 ^ 31 }
        requires part { HasNoLineFeed part.now }
        ensures size { OnOk result ((self.new.lines.judged ≡ self.old.lines.judged)
            × (self.new.unfinished ≡ self.old.unfinished ++ part.now)) }
        ensures waits { self.new.lines.waiting ≡ self.old.lines.waiting }
        ensures takes { TakesIn self.old part.now result self.new }
    {
        if self.unfinished.len() + part.len() > GREATEST_LINE + MARK.len() {
            return Err(self.judge.too_long());
        }
        if self.unfinished.extend_from_slice(part).is_err() {
            return Err(FeedFault::OutOfMemory);
        }
        if line_at(self.judge.judged(), &self.unfinished).len() > GREATEST_LINE {
            return Err(self.judge.too_long());
        }
        Ok(())
    }

    /// The first of the spectra that wait.
    pub fn next(&mut self) -> Option<Spectrum>
        ensures taken { MatchOption result ((self.old.lines.waiting ≡ []) × (self.new.lines.waiting ≡ []))
            (λ spectrum. self.old.lines.waiting ≡ spectrum ∷ self.new.lines.waiting) }
        ensures others { self.new
            ≡ record self.old { lines = record self.old.lines { waiting = self.new.lines.waiting } } }
    {
        self.judge.next()
    }

    /// Takes what stands after the last line feed as a line, and looks for an open block.
    pub fn end(&mut self) -> Result<(), FeedFault>
        requires { self.old.lines.judged + length self.old.unfinished < 2 ^ 31 }
        ensures waits { IsFirstPart self.old.lines.waiting self.new.lines.waiting }
        ensures ends { Ends self.old result self.new }
    {
        let line = line_at(self.judge.judged(), &self.unfinished);
        if !line.is_empty() {
            self.judge.judge(line)?;
        }
        self.judge.end()
    }
}

/// Has a line judged as it was gathered.
fn judge_line(judge: &mut Judge, bytes: &[u8]) -> Result<(), FeedFault>
    requires { judge.old.judged + 1 < 2 ^ 32 }
    ensures counted { judge.new.judged ≡ judge.old.judged + 1 }
    ensures judges { Judges judge.old (line_form (line_at judge.old.judged bytes.now)) result judge.new }
{
    let line = line_at(judge.judged(), bytes);
    judge.judge(line)
}

/// A line without the mark of the text's start where it is the first.
fn line_at(judged: u32, bytes: &[u8]) -> &[u8]
    ensures { result.now ≡ line_at judged bytes.now }
{
    if judged == 0 && bytes.starts_with(&MARK) {
        &bytes[3..]
    } else {
        bytes
    }
}
