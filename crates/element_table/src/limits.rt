//! The greatest count of each element.
ghost use Rattle.std.specs.Prelude.{◌≡◌, ◌≤◌, ◌<◌, ℕ, List, slice_index};
ghost use Rattle.element_table.specs.Elements.{formula_places, greatest_count};
ghost use Rattle.element_table.specs.Formula.{IsFormula};

use crate::elements::FORMULA_PLACES;
use std::marker::Model;

/// The greatest count of each element that a listed formula may have, by places: at most 1,999, and 0 at the places
/// without an element. So the limits are counts of a formula, the greatest of those within them.
#[derive(Clone, Copy, Debug, PartialEq, Eq)]
pub struct Limits {
    counts: [u16; FORMULA_PLACES],
}

impl Model for Limits {
    ghost Value = { List ℕ };

    ghost view = { λ limits. limits.counts };

    ghost invariant = { λ limits. IsFormula limits.counts };

    ghost inverse = { λ counts. record { counts = counts } };
}

impl Limits {
    /// The limits of these counts.
    pub fn new(counts: [u16; FORMULA_PLACES]) -> Limits
        requires { IsFormula counts }
        ensures { result ≡ counts }
    {
        Limits { counts }
    }

    /// The greatest count of the element at a place.
    pub fn at(&self, place: usize) -> u16
        requires { place < formula_places }
        ensures count { result ≡ slice_index self.now place }
        ensures capped { result ≤ greatest_count }
        ensures limits { IsFormula self.now }
    {
        self.counts[place]
    }
}
