//! The formulas of one peak.
ghost use Rattle.std.specs.Prelude.{◌≡◌};
ghost use Rattle.std.specs.List.{All};
ghost use Rattle.element_table.specs.Formula.{IsFormula};

use crate::formula::Formula;
use std::marker::Model;

/// A list of formulas.
#[derive(Debug, Drop)]
pub struct Formulas {
    items: Vec<Formula>,
}

impl Model for Formulas {
    ghost use Rattle.std.specs.Prelude.{List, ℕ};
    ghost use Rattle.std.specs.List.{All};
    ghost use Rattle.element_table.specs.Formula.{IsFormula};

    ghost Value = { List (List ℕ) };

    ghost view = { λ formulas. formulas.items.items };

    ghost invariant = { λ formulas. All IsFormula formulas.items.items };
}

impl Formulas {
    /// The list of these formulas.
    pub fn of(items: Vec<Formula>) -> Formulas
        ensures { result ≡ items.items }
    {
        for formula in &items {
            formula.is_formula();
        }
        Formulas { items }
    }

    /// Each of them is a formula. A law for proofs: it does nothing.
    #[inline]
    pub fn are_formulas(&self)
        ensures { All IsFormula self.now }
    {
        let _items = &self.items;
    }

    /// The formulas.
    pub fn items(&self) -> &[Formula]
        ensures items { result.now ≡ self.now }
        ensures formulas { All IsFormula self.now }
    {
        &self.items
    }
}

/// The formulas of one peak, with its m/z in units of 10^-7 and its intensity in units of 10^-6. The list of a
/// precursor has the intensity 0.
#[derive(Debug, Drop)]
pub struct FormulaList {
    pub mz: u64,
    pub intensity: u64,
    pub formulas: Formulas,
}

impl Model for FormulaList {
    ghost use Rattle.element_table.specs.FormulaList.{FormulaListValue};

    ghost Value = { FormulaListValue };

    ghost view = { λ list. record { mz = list.mz; intensity = list.intensity; formulas = list.formulas } };
}
