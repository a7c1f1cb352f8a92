//! The elements that are counted: those with a positive limit.
ghost use Rattle.std.specs.Prelude.{◌≡◌, ◌≤◌, ◌<◌, ◌+◌, ◌*◌, ◌^◌, ◌↔◌, ℕ, length, slice_index, IfOk};
ghost use Rattle.element_table.specs.Elements.{formula_places};
ghost use Rattle.formula_lister.specs.inside.Elements.{AreElements, IsUncounted, IsKnown, first_mass};

use crate::divisor::Divisor;
use crate::levels::Levels;
use element_table::{ELEMENTS, Limits, mass_at};
use std::alloc::{AllocError, Global};

/// An element that is counted.
#[derive(Clone, Copy)]
pub(crate) struct Element {
    /// Its place in the element table.
    pub place: usize,
    /// The mass of an atom, in units of 10^-7 Da.
    pub mass: u64,
    /// The greatest count.
    pub limit: u64,
    /// The greatest mass that the elements counted after this one have together.
    pub after: u64,
    /// Its mass, to divide by.
    pub divisor: Divisor,
    /// What it is in atoms of the element counted after it.
    pub levels: Levels,
}

impl Element {
    /// The least count beside the chosen mass with which the elements counted after this one may still reach the least
    /// mass.
    #[inline]
    pub fn least_count(&self, chosen: u64, least: u64) -> u64
        requires known { IsKnown self.now }
        requires light { chosen ≤ 10 ^ 11 }
        requires least { least ≤ 10 ^ 11 }
        ensures { (count : ℕ) → (result ≤ count) ↔ (least ≤ chosen + count * self.now.mass + self.now.after) }
    {
        self.divisor
            .rounded_up(least.saturating_sub(chosen + self.after))
    }

    /// One more than the greatest count that the limit and the greatest mass allow beside the chosen mass.
    #[inline]
    pub fn count_end(&self, chosen: u64, most: u64) -> u64
        requires known { IsKnown self.now }
        requires light { chosen ≤ most }
        ensures { (count : ℕ) → (count < result)
            ↔ ((count ≤ self.now.limit) × (chosen + count * self.now.mass ≤ most)) }
    {
        self.limit.min(self.divisor.quotient(most - chosen)) + 1
    }
}

/// The mass of the first of some elements, or another where there is none.
fn first_mass(elements: &[Element], mass: u64) -> u64
    ensures { result ≡ first_mass elements.now mass }
{
    match elements.first() {
        Some(first) => first.mass,
        None => mass,
    }
}

/// The elements of positive limit, that at the last place first. So carbon and hydrogen, which have the most counts,
/// come last.
pub(crate) fn counted_elements(alloc: Global, limits: &Limits) -> Result<Vec<Element>, AllocError>
    ensures elements { IfOk result (λ elements. AreElements limits.now elements.items) }
    ensures places { IfOk result (λ _. length limits.now ≡ formula_places) }
    ensures others { IfOk result (λ elements. (place : ℕ)
        → IsUncounted elements.items place → slice_index limits.now place ≡ 0) }
{
    let mut elements = Vec::new(alloc);
    let mut after = 0;
    for place in 0..ELEMENTS.len() {
        let limit = u64::from(limits.at(place));
        if limit > 0 {
            let mass = mass_at(place);
            let levels = Levels::of(mass, first_mass(elements.as_slice(), mass));
            elements.insert(
                0,
                Element {
                    place,
                    mass,
                    limit,
                    after,
                    divisor: Divisor::of(mass),
                    levels,
                },
            )?;
            after += limit * mass;
        }
    }
    Ok(elements)
}
