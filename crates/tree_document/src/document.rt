//! What a document holds: a section for each spectrum, and how the text of the spectra ended.
ghost use Rattle.std.specs.Prelude.{◌≡◌};

use crate::entry::Entries;
use element_table::FormulaList;
use mgf_reader::Title;
use std::marker::Model;

/// Why a spectrum was skipped.
#[derive(Clone, Copy, Debug, PartialEq, Eq)]
pub enum Skip {
    /// It has no precursor.
    NoPrecursor,
    /// None of its charges is the adduct's.
    Charge,
    /// The neutral mass at this m/z is out of range.
    Range(u64),
    /// The window of this m/z holds too many formulas.
    TooMany(u64),
}

/// The lists of formulas of a spectrum, the precursor's first.
#[derive(Debug, Drop)]
pub struct FormulaLists {
    items: Vec<FormulaList>,
}

impl Model for FormulaLists {
    ghost use Rattle.std.specs.Prelude.{List};
    ghost use Rattle.element_table.specs.FormulaList.{FormulaListValue};

    ghost Value = { List FormulaListValue };

    ghost view = { λ lists. lists.items.items };
}

impl FormulaLists {
    /// The list of these lists.
    pub fn of(items: Vec<FormulaList>) -> FormulaLists
        ensures { result ≡ items.items }
    {
        FormulaLists { items }
    }

    /// The lists.
    pub fn items(&self) -> &[FormulaList]
        ensures { result.now ≡ self.now }
    {
        &self.items
    }
}

/// What explains a spectrum: its lists, and an entry for each candidate.
#[derive(Debug, Drop)]
pub struct Solved {
    pub lists: FormulaLists,
    pub entries: Entries,
}

/// What stands of a spectrum.
#[derive(Debug, Drop)]
pub enum Body {
    /// Why it was skipped.
    Skipped(Skip),
    /// What explains it.
    Solved(Solved),
}

/// One spectrum of the text: the line of its `BEGIN IONS`, its title, and what stands of it.
#[derive(Debug, Drop)]
pub struct Section {
    pub line: u32,
    pub title: Title,
    pub body: Body,
}

/// The sections of a document.
#[derive(Debug, Drop)]
pub struct Sections {
    items: Vec<Section>,
}

impl Model for Sections {
    ghost use Rattle.std.specs.Prelude.{List};
    ghost use Rattle.std.specs.Coded.{codes};
    ghost use Rattle.tree_document.specs.declared.document.Section.{Section};
    ghost use Rattle.tree_certificate.specs.BoundCode.{bound_code};

    ghost Value = { List Section };

    ghost coded = { Prim.hlevel (codes, bound_code) };

    ghost view = { λ sections. sections.items.items };
}

impl Sections {
    /// The list of these sections.
    pub fn of(items: Vec<Section>) -> Sections
        ensures { result ≡ items.items }
    {
        Sections { items }
    }

    /// The sections.
    pub fn items(&self) -> &[Section]
        ensures { result.now ≡ self.now }
    {
        &self.items
    }
}

/// The line that refused a text, and the number of the refusal's kind, from 1 to 10.
#[derive(Clone, Copy, Debug, PartialEq, Eq)]
pub struct MgfEnd {
    pub line: u32,
    pub kind: u8,
}

/// How the text of the spectra ended.
#[derive(Clone, Copy, Debug, PartialEq, Eq)]
pub enum Ending {
    /// No line of it was refused.
    Clean,
    /// A line was refused.
    Refused(MgfEnd),
}

/// A document.
#[derive(Debug, Drop)]
pub struct Document {
    pub sections: Sections,
    pub ending: Ending,
}
