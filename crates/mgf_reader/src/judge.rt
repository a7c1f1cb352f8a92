//! Judges lines one after another, and keeps what they leave.
ghost use Rattle.std.specs.Prelude.{◌≡◌, ◌+◌, ◌<◌, ◌^◌, [], ◌∷◌, None, Some, OnOk, IfErr, IfSome, MatchOption};
ghost use Rattle.mgf_reader.specs.LineForm.{line_form};
ghost use Rattle.mgf_reader.specs.inside.Line.{form_of_line};
ghost use Rattle.mgf_reader.specs.Grammar.{fault_outside};
ghost use Rattle.mgf_reader.specs.inside.Judging.{Judges, fault_behind, left_behind, left_outside, kind_in, end_of};
ghost use Rattle.mgf_reader.specs.inside.Judging.{nothing_judged};

use crate::block::{Block, LineFault, SpectrumSettings};
use crate::fault::{FeedFault, MgfFault, MgfKind};
use crate::line::{Line, line_of};
use crate::spectrum::Spectrum;
use std::alloc::Global;
use std::collections::VecDeque;
use std::marker::Model;

/// What the lines so far leave.
#[derive(Drop)]
pub struct Judge {
    alloc: Global,
    judged: u32,
    defaults: SpectrumSettings,
    block: Option<Block>,
    waiting: VecDeque<Spectrum>,
}

impl Model for Judge {
    ghost use Rattle.mgf_reader.specs.inside.Judging.{Judged};

    ghost Value = { Judged };

    ghost view = { λ judge. record {
      waiting = judge.waiting.items;
      judged = judge.judged;
      defaults = judge.defaults;
      block = judge.block;
    } };
}

impl Judge {
    /// Before the first line.
    pub fn new(alloc: Global) -> Judge
        ensures { result ≡ nothing_judged }
    {
        Judge {
            alloc,
            judged: 0,
            defaults: SpectrumSettings::new(alloc),
            block: None,
            waiting: VecDeque::new(alloc),
        }
    }

    /// How many lines were judged.
    pub fn judged(&self) -> u32
        ensures { result ≡ self.now.judged }
    {
        self.judged
    }

    /// Judges the next line, given without its line feed.
    pub fn judge(&mut self, bytes: &[u8]) -> Result<(), FeedFault>
        requires { self.old.judged + 1 < 2 ^ 32 }
        ensures counted { self.new.judged ≡ self.old.judged + 1 }
        ensures judges { Judges self.old (line_form bytes.now) result self.new }
    {
        self.judged += 1;
        match self.take(line_of(bytes)) {
            Ok(()) => Ok(()),
            Err(LineFault::Refused(kind)) => Err(fault_at(self.judged, kind)),
            Err(LineFault::OutOfMemory) => Err(FeedFault::OutOfMemory),
        }
    }

    /// Takes a line in that was counted.
    fn take(&mut self, line: Line<'_>) -> Result<(), LineFault>
        ensures counted { self.new.judged ≡ self.old.judged }
        ensures right { OnOk result ((fault_behind self.old (form_of_line line.entry) ≡ None)
            × (self.new ≡ left_behind self.old (form_of_line line.entry))) }
        ensures refused { IfErr result (λ fault.
            IfSome (kind_in fault) (λ kind. fault_behind self.old (form_of_line line.entry) ≡ Some kind)) }
        ensures waits { IfErr result (λ _. self.new.waiting ≡ self.old.waiting) }
    {
        let Some(mut block) = self.block.take() else {
            return self.take_outside(line);
        };
        if let Line::End = line {
            self.waiting.push_back(block.close())?;
            return Ok(());
        }
        let taken = block.take(self.alloc, line, self.judged);
        self.block = Some(block);
        taken
    }

    /// Takes a line outside a block in.
    fn take_outside(&mut self, line: Line<'_>) -> Result<(), LineFault>
        requires { self.old.block ≡ None }
        ensures counted { self.new.judged ≡ self.old.judged }
        ensures right { OnOk result ((fault_outside (form_of_line line.entry) ≡ None)
            × (self.new ≡ left_outside self.old (form_of_line line.entry))) }
        ensures refused { IfErr result (λ fault.
            IfSome (kind_in fault) (λ kind. fault_outside (form_of_line line.entry) ≡ Some kind)) }
        ensures waits { IfErr result (λ _. self.new.waiting ≡ self.old.waiting) }
    {
        match line {
            Line::TooLong => Err(LineFault::Refused(MgfKind::LineTooLong)),
            Line::Blank | Line::Comment | Line::Remark => Ok(()),
            Line::Begin => {
                self.block = Some(Block::new(self.alloc, self.judged, &self.defaults)?);
                Ok(())
            }
            Line::End => Err(LineFault::Refused(MgfKind::StrayEnd)),
            Line::Parameter(key, value) => Ok(self.defaults.read(self.alloc, key, value)?),
            Line::Peak(_) => Err(LineFault::Refused(MgfKind::PeakOutside)),
            Line::NoForm => Err(LineFault::Refused(MgfKind::NoForm)),
        }
    }

    /// The first of the spectra that wait.
    pub fn next(&mut self) -> Option<Spectrum>
        ensures taken { MatchOption result ((self.old.waiting ≡ []) × (self.new.waiting ≡ []))
            (λ spectrum. self.old.waiting ≡ spectrum ∷ self.new.waiting) }
        ensures others { self.new ≡ record self.old { waiting = self.new.waiting } }
    {
        self.waiting.pop_front()
    }

    /// The fault of a next line that is too long.
    pub fn too_long(&self) -> FeedFault
        requires { self.now.judged + 1 < 2 ^ 32 }
        ensures { result ≡ FeedFault.Mgf (record { line = self.now.judged + 1; kind = MgfKind.LineTooLong }) }
    {
        fault_at(self.judged + 1, MgfKind::LineTooLong)
    }

    /// The fault of a text that ends here.
    pub fn end(&self) -> Result<(), FeedFault>
        ensures { result ≡ end_of self.now.block }
    {
        match &self.block {
            None => Ok(()),
            Some(block) => Err(fault_at(block.line(), MgfKind::OpenBlock)),
        }
    }
}

/// The refusal of a text at a line.
fn fault_at(line: u32, kind: MgfKind) -> FeedFault
    ensures { result ≡ FeedFault.Mgf (record { line = line; kind = kind }) }
{
    FeedFault::Mgf(MgfFault { line, kind })
}
