//! A formula as its counts, and what is computed from them.
ghost use Rattle.std.specs.Prelude.{◌≡◌, ◌≤◌, ◌<◌, ◌+◌, ◌*◌, ◌*ℤ◌, ◌↔◌, ◌==◌, ℕ, List, IsTrue, length, pos};
ghost use Rattle.std.specs.Prelude.{slice_index, slice_index_or, slice_set};
ghost use Rattle.std.specs.List.{list_all};
ghost use Rattle.element_table.specs.Elements.{element_count, formula_places, greatest_count};
ghost use Rattle.element_table.specs.Formula.{IsFormula, empty_formula, greatest_mass, mass_of, IsWithin, is_within};
ghost use Rattle.element_table.specs.Formula.{loss_of, union_of, formula_cmp};
ghost use Rattle.element_table.specs.Rule.{IsNearZero, bond_coefficients, greatest_rdbe2, rdbe2_of};

use crate::elements::{ELEMENTS, FORMULA_PLACES, GREATEST_COUNT, bond_number_at, mass_at};
use std::cmp::Ordering;
use std::marker::Model;

/// A molecular formula: how many atoms it has of each element of the table, by places.
#[derive(Clone, Copy, Debug, PartialEq, Eq, PartialOrd, Ord, Hash)]
pub struct Formula {
    counts: [u16; FORMULA_PLACES],
}

impl Model for Formula {
    ghost Value = { List ℕ };

    ghost view = { λ formula. formula.counts };

    ghost invariant = { λ formula. IsFormula formula.counts };

    ghost inverse = { λ counts. record { counts = counts } };
}

impl Formula {
    /// No atom at all.
    pub fn empty() -> Formula
        ensures { result ≡ empty_formula }
    {
        Formula {
            counts: [0; FORMULA_PLACES],
        }
    }

    /// The formula of these counts.
    pub(crate) fn of_counts(counts: [u16; FORMULA_PLACES]) -> Formula
        requires { IsFormula counts }
        ensures { result ≡ counts }
    {
        Formula { counts }
    }

    /// Every formula is one. A law for proofs: it does nothing.
    #[inline]
    pub fn is_formula(&self)
        ensures { IsFormula self.now }
    {
        let _counts = &self.counts;
    }

    /// Whether there is no atom at all.
    pub(crate) fn is_empty(&self) -> bool
        ensures { result ≡ list_all (λ count. count == 0) self.now }
    {
        self.counts.iter().all(|count| *count == 0)
    }

    /// The count at a place.
    pub fn count(&self, place: usize) -> u16
        requires { place < formula_places }
        ensures count { result ≡ slice_index self.now place }
        ensures capped { result ≤ greatest_count }
        ensures formula { IsFormula self.now }
    {
        self.counts[place]
    }

    /// The formula with another count at one place.
    pub fn with(&self, place: usize, count: u16) -> Formula
        requires element { place < element_count }
        requires capped { count ≤ greatest_count }
        ensures { result ≡ slice_set self.now place count }
    {
        let mut counts = self.counts;
        counts[place] = count;
        Formula { counts }
    }

    /// The mass, in units of 10^-7 Da.
    pub fn mass(&self) -> u64
        ensures mass { result ≡ mass_of self.now }
        ensures light { result ≤ greatest_mass }
    {
        let mut mass = 0;
        for place in 0..ELEMENTS.len() {
            mass += u64::from(self.counts[place]) * mass_at(place);
        }
        mass
    }

    /// Twice the number of rings and double bonds.
    pub fn rdbe2(&self) -> i32
        ensures bonds { result ≡ rdbe2_of self.now }
        ensures near { IsNearZero greatest_rdbe2 result }
    {
        let mut rdbe2 = 2;
        for place in 0..ELEMENTS.len() {
            rdbe2 += bonds_of(place, self.counts[place]);
        }
        rdbe2
    }

    /// Whether each count is at most the other's.
    pub fn within(&self, other: &Formula) -> bool
        ensures exactly { IsTrue result ↔ IsWithin self.now other.now }
        ensures test { result ≡ is_within self.now other.now }
    {
        self.counts
            .iter()
            .zip(other.counts.iter())
            .all(|(count, most)| count <= most)
    }

    /// The loss to a part of this formula.
    pub fn minus(&self, part: &Formula) -> Formula
        requires { IsWithin part.now self.now }
        ensures { result ≡ loss_of self.now part.now }
    {
        let mut counts = self.counts;
        for (place, count) in counts.iter_mut().enumerate() {
            *count -= part.counts[place];
        }
        Formula { counts }
    }

    /// This formula and another together.
    pub fn plus(&self, other: &Formula) -> Formula
        requires { (place : ℕ) → slice_index self.now place + slice_index other.now place ≤ greatest_count }
        ensures { result ≡ union_of self.now other.now }
    {
        let mut counts = self.counts;
        for (place, count) in counts.iter_mut().enumerate() {
            *count += other.counts[place];
        }
        Formula { counts }
    }

    /// Formula order: the counts are compared from the first place on, the smaller first.
    pub fn compare(&self, other: &Formula) -> Ordering
        ensures { result ≡ formula_cmp self.now other.now }
    {
        self.counts.cmp(&other.counts)
    }
}

/// What so many atoms of the element at a place add to twice the number of rings and double bonds.
fn bonds_of(place: usize, count: u16) -> i32
    requires element { place < element_count }
    requires capped { count ≤ greatest_count }
    ensures product { result ≡ slice_index_or bond_coefficients place (pos 0) *ℤ pos count }
    ensures near { IsNearZero (2 * greatest_count) result }
{
    bond_number_at(place) * i32::from(count)
}
