//! The open block, and what is set for it.
ghost use Rattle.std.specs.Prelude.{◌≡◌, ◌++◌, [], None, Some, IfOk, IfErr, IfSome, OnOk, length};
ghost use Rattle.mgf_reader.specs.Parameter.{parameter_fault};
ghost use Rattle.mgf_reader.specs.Bytes.{fields_of};
ghost use Rattle.mgf_reader.specs.LineForm.{parameter, peak};
ghost use Rattle.mgf_reader.specs.Grammar.{fault_inside};
ghost use Rattle.mgf_reader.specs.inside.Line.{form_of_line, kind_of};
ghost use Rattle.mgf_reader.specs.inside.Judging.{set_by, block_with, block_after, kind_in};
ghost use Rattle.mgf_reader.specs.declared.block.LineFault.TheVariants.{OutOfMemory};

use crate::fault::MgfKind;
use crate::line::Line;
use crate::setting::{Setting, SettingFault, read_peak, read_setting};
use crate::spectrum::{Charge, Charges, Peak, Peaks, Spectrum, Title};
use std::alloc::{AllocError, AllocFailed, Global};
use std::marker::Model;

/// How many peaks a block may have.
const GREATEST_PEAKS_OF_A_BLOCK: usize = 100_000;

/// Why a line is not taken in.
#[derive(Clone, Copy)]
pub enum LineFault {
    /// The line has no place, or a value of it is refused.
    Refused(MgfKind),
    /// There was no memory.
    OutOfMemory,
}

impl From<SettingFault> for LineFault {
    ghost use Rattle.mgf_reader.specs.inside.Judging.{kind_in};
    ghost use Rattle.mgf_reader.specs.inside.Line.{kind_of};

    ghost from_gives = { λ fault e. kind_in e ≡ kind_of fault };

    fn from(fault: SettingFault) -> LineFault {
        match fault {
            SettingFault::BadPrecursor => LineFault::Refused(MgfKind::BadPrecursor),
            SettingFault::BadCharge => LineFault::Refused(MgfKind::BadCharge),
            SettingFault::OutOfMemory => LineFault::OutOfMemory,
        }
    }
}

impl From<AllocError> for LineFault {
    ghost from_gives = { λ _ e. e ≡ OutOfMemory };

    fn from(_error: AllocError) -> LineFault {
        LineFault::OutOfMemory
    }
}

impl<T: Drop> From<AllocFailed<T>> for LineFault {
    ghost from_gives = { λ _ e. e ≡ OutOfMemory };

    fn from(_error: AllocFailed<T>) -> LineFault {
        LineFault::OutOfMemory
    }
}

/// What some lines set for a spectrum.
#[derive(Drop)]
pub struct SpectrumSettings {
    title: Vec<u8>,
    precursor: Option<u64>,
    charges: Vec<Charge>,
}

impl Model for SpectrumSettings {
    ghost use Rattle.std.specs.Prelude.{◌≤◌};
    ghost use Rattle.std.specs.Option.{ForSome};
    ghost use Rattle.fixed_mass.specs.Units.{greatest_units};
    ghost use Rattle.mgf_reader.specs.Stands.{Defaults};

    ghost Value = { Defaults };

    ghost view = { λ settings. record {
      title = settings.title.items;
      precursor = settings.precursor;
      charges = settings.charges.items;
    } };

    ghost invariant = { λ settings. ForSome settings.precursor (λ mz. mz ≤ greatest_units) };
}

impl SpectrumSettings {
    /// What no line sets.
    pub fn new(alloc: Global) -> SpectrumSettings
        ensures { result ≡ record { title = []; precursor = None; charges = [] } }
    {
        SpectrumSettings {
            title: Vec::new(alloc),
            precursor: None,
            charges: Vec::new(alloc),
        }
    }

    /// The same once more.
    pub fn copied(&self, alloc: Global) -> Result<SpectrumSettings, AllocError>
        ensures { IfOk result (λ copy. copy ≡ self.now) }
    {
        Ok(SpectrumSettings {
            title: Vec::from_slice(alloc, &self.title)?,
            precursor: self.precursor,
            charges: Vec::from_slice(alloc, &self.charges)?,
        })
    }

    /// Sets what a parameter line says.
    pub fn read(&mut self, alloc: Global, key: &[u8], value: &[u8]) -> Result<(), SettingFault>
        ensures right { OnOk result ((parameter_fault key.now value.now ≡ None)
            × (self.new ≡ set_by self.old (parameter key.now value.now))) }
        ensures refused { IfErr result (λ fault.
            IfSome (kind_of fault) (λ kind. parameter_fault key.now value.now ≡ Some kind)) }
    {
        match read_setting(alloc, key, value)? {
            Setting::Title(bytes) => {
                let Ok(title) = Vec::from_slice(alloc, bytes) else {
                    return Err(SettingFault::OutOfMemory);
                };
                self.title = title;
            }
            Setting::Precursor(units) => self.precursor = Some(units),
            Setting::Charges(charges) => self.charges = charges,
            Setting::Nothing => {}
        }
        Ok(())
    }
}

/// A block that was begun.
#[derive(Drop)]
pub struct Block {
    line: u32,
    settings: SpectrumSettings,
    peaks: Vec<Peak>,
}

impl Model for Block {
    ghost use Rattle.mgf_reader.specs.Spectrum.{SpectrumValue};
    ghost use Rattle.mgf_reader.specs.inside.Judging.{block_with};

    ghost Value = { SpectrumValue };

    ghost view = { λ block. block_with block.line block.settings block.peaks.items };
}

impl Block {
    /// A block that begins at a line with a copy of the defaults.
    pub fn new(alloc: Global, line: u32, defaults: &SpectrumSettings) -> Result<Block, AllocError>
        ensures { IfOk result (λ block. block ≡ block_with line defaults.now []) }
    {
        Ok(Block {
            line,
            settings: defaults.copied(alloc)?,
            peaks: Vec::new(alloc),
        })
    }

    /// The line of its begin.
    pub fn line(&self) -> u32
        ensures { result ≡ self.now.line }
    {
        self.line
    }

    /// Takes a line of this number in. An end line changes nothing.
    pub fn take(&mut self, alloc: Global, line: Line<'_>, number: u32) -> Result<(), LineFault>
        ensures right { OnOk result ((fault_inside (length self.old.peaks) (form_of_line line.entry) ≡ None)
            × (self.new ≡ block_after self.old number (form_of_line line.entry))) }
        ensures refused { IfErr result (λ fault. IfSome (kind_in fault)
            (λ kind. fault_inside (length self.old.peaks) (form_of_line line.entry) ≡ Some kind)) }
    {
        match line {
            Line::TooLong => Err(LineFault::Refused(MgfKind::LineTooLong)),
            Line::Blank | Line::Comment | Line::Remark | Line::End => Ok(()),
            Line::Begin => Err(LineFault::Refused(MgfKind::NestedBegin)),
            Line::Parameter(key, value) => Ok(self.settings.read(alloc, key, value)?),
            Line::Peak(bytes) => self.add_peak(bytes, number),
            Line::NoForm => Err(LineFault::Refused(MgfKind::NoForm)),
        }
    }

    /// Adds the peak of a peak line.
    fn add_peak(&mut self, bytes: &[u8], number: u32) -> Result<(), LineFault>
        ensures right { OnOk result ((fault_inside (length self.old.peaks) (peak (fields_of bytes.now)) ≡ None)
            × (self.new ≡ block_after self.old number (peak (fields_of bytes.now)))) }
        ensures refused { IfErr result (λ fault. IfSome (kind_in fault)
            (λ kind. fault_inside (length self.old.peaks) (peak (fields_of bytes.now)) ≡ Some kind)) }
    {
        let Some(peak) = read_peak(bytes, number) else {
            return Err(LineFault::Refused(MgfKind::BadPeak));
        };
        if self.peaks.len() >= GREATEST_PEAKS_OF_A_BLOCK {
            return Err(LineFault::Refused(MgfKind::TooManyPeaks));
        }
        self.peaks.push(peak)?;
        Ok(())
    }

    /// The spectrum of the whole block.
    pub fn close(self) -> Spectrum
        ensures { result ≡ self }
    {
        let SpectrumSettings {
            title,
            precursor,
            charges,
        } = self.settings;
        Spectrum {
            line: self.line,
            title: Title::of(title),
            precursor,
            charges: Charges::of(charges),
            peaks: Peaks::of(self.peaks),
        }
    }
}
