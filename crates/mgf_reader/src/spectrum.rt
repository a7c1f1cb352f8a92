//! What a text holds: spectra, their peaks and charges.
ghost use Rattle.std.specs.Prelude.{◌≡◌};

use std::marker::Model;

/// A sign of a charge.
#[derive(Clone, Copy, Debug, PartialEq, Eq)]
pub enum Sign {
    /// `+`
    Plus,
    /// `-`
    Minus,
    /// No sign was written.
    Unsigned,
}

/// A charge that a text gives. A reader hands out none of value 0.
#[derive(Clone, Copy, Debug, PartialEq, Eq)]
pub struct Charge {
    pub value: u16,
    pub sign: Sign,
}

/// A peak: its m/z in units of 10^-7, its intensity in units of 10^-6, both at most 10^18, and its line in the text.
#[derive(Clone, Copy, Debug, PartialEq, Eq)]
pub struct Peak {
    pub mz: u64,
    pub intensity: u64,
    pub line: u32,
}

impl Model for Peak {
    ghost use Rattle.std.specs.Prelude.{◌≤◌};
    ghost use Rattle.fixed_mass.specs.Units.{greatest_units};
    ghost use Rattle.mgf_reader.specs.Spectrum.{PeakValue};

    ghost Value = { PeakValue };

    ghost view = { λ peak. record { mz = peak.mz; intensity = peak.intensity; line = peak.line } };

    ghost invariant = { λ peak. (peak.mz ≤ greatest_units) × (peak.intensity ≤ greatest_units) };

    ghost inverse = { λ peak. record { mz = peak.mz; intensity = peak.intensity; line = peak.line } };
}

/// The bytes of a title.
#[derive(Debug, Drop)]
pub struct Title {
    bytes: Vec<u8>,
}

impl Model for Title {
    ghost use Rattle.std.specs.Prelude.{List, ℕ};

    ghost Value = { List ℕ };

    ghost view = { λ title. title.bytes.items };
}

impl Title {
    /// The title of these bytes.
    pub fn of(bytes: Vec<u8>) -> Title
        ensures { result ≡ bytes.items }
    {
        Title { bytes }
    }

    /// Its bytes.
    pub fn items(&self) -> &[u8]
        ensures { result.now ≡ self.now }
    {
        &self.bytes
    }
}

/// The charges that a spectrum may have, in the order of the text.
#[derive(Debug, Drop)]
pub struct Charges {
    items: Vec<Charge>,
}

impl Model for Charges {
    ghost use Rattle.std.specs.Prelude.{List};
    ghost use Rattle.mgf_reader.specs.declared.spectrum.Charge.{Charge};

    ghost Value = { List Charge };

    ghost view = { λ charges. charges.items.items };
}

impl Charges {
    /// The list of these charges.
    pub fn of(items: Vec<Charge>) -> Charges
        ensures { result ≡ items.items }
    {
        Charges { items }
    }

    /// The charges.
    pub fn items(&self) -> &[Charge]
        ensures { result.now ≡ self.now }
    {
        &self.items
    }
}

/// The peaks of a spectrum, in the order of the text.
#[derive(Debug, Drop)]
pub struct Peaks {
    items: Vec<Peak>,
}

impl Model for Peaks {
    ghost use Rattle.std.specs.Prelude.{List};
    ghost use Rattle.mgf_reader.specs.Spectrum.{PeakValue};

    ghost Value = { List PeakValue };

    ghost view = { λ peaks. peaks.items.items };
}

impl Peaks {
    /// The list of these peaks.
    pub fn of(items: Vec<Peak>) -> Peaks
        ensures { result ≡ items.items }
    {
        Peaks { items }
    }

    /// The peaks.
    pub fn items(&self) -> &[Peak]
        ensures { result.now ≡ self.now }
    {
        &self.items
    }
}

/// One spectrum of a text: the line of its `BEGIN IONS`, its title, the m/z of its precursor in units of 10^-7 and at
/// most 10^18, where the text gives one, its charges and its peaks.
#[derive(Debug, Drop)]
pub struct Spectrum {
    pub line: u32,
    pub title: Title,
    pub precursor: Option<u64>,
    pub charges: Charges,
    pub peaks: Peaks,
}

impl Model for Spectrum {
    ghost use Rattle.std.specs.Prelude.{◌≤◌};
    ghost use Rattle.fixed_mass.specs.Units.{greatest_units};
    ghost use Rattle.std.specs.Option.{ForSome};
    ghost use Rattle.mgf_reader.specs.Spectrum.{SpectrumValue};

    ghost Value = { SpectrumValue };

    ghost view = { λ spectrum. record {
      line = spectrum.line;
      title = spectrum.title;
      precursor = spectrum.precursor;
      charges = spectrum.charges;
      peaks = spectrum.peaks;
    } };

    ghost invariant = { λ spectrum. ForSome spectrum.precursor (λ mz. mz ≤ greatest_units) };
}
