//! The counts chosen so far, and what they have to keep.
ghost use Rattle.std.specs.Prelude.{◌≡◌, ◌≤◌, ◌+◌, ◌*◌, ◌^◌, ◌↔◌, ◌+ℤ◌, ◌-ℤ◌, ◌≤ℤ◌, pos, ℕ, List};
ghost use Rattle.std.specs.Prelude.{slice_index, slice_set, IfSome, IfNone};
ghost use Rattle.element_table.specs.Formula.{empty_formula, mass_of};
ghost use Rattle.element_table.specs.Window.{InWindow, greatest_half_width};
ghost use Rattle.formula_lister.specs.inside.Elements.{IsKnown};
ghost use Rattle.formula_lister.specs.inside.Weights.{IsWeighed};

use crate::element::Element;
use element_table::{Formula, Limits, Window};

/// The masses and the counts that a listed formula may have, both ends of the masses included, in units of 10^-7 Da.
#[derive(Clone, Copy)]
pub(crate) struct Bounds {
    pub least: u64,
    pub most: u64,
    pub limits: Limits,
    ghost ordered: { least ≤ most },
    ghost narrow: { most ≤ least + 2 * greatest_half_width },
    ghost small: { most ≤ 10 ^ 11 },
}

impl Bounds {
    /// The bounds of a window, if any mass is in it.
    pub fn of(window: &Window, limits: &Limits) -> Option<Bounds>
        requires light { (window.now.centre +ℤ pos window.now.half) ≤ℤ pos (10 ^ 11) }
        requires narrow { window.now.half ≤ greatest_half_width }
        ensures limits { IfSome result (λ bounds. bounds.limits ≡ limits.now) }
        ensures masses { IfSome result (λ bounds. (counts : List ℕ) → InWindow window.now counts
            ↔ ((bounds.least ≤ mass_of counts) × (mass_of counts ≤ bounds.most))) }
        ensures none { IfNone result ((counts : List ℕ) → ¬ InWindow window.now counts) }
    {
        let most = window.centre + window.half as i64;
        if most < 0 {
            return None;
        }
        Some(Bounds {
            least: least_mass(window.centre, window.half),
            most: most as u64,
            limits: *limits,
        })
    }
}

/// The least mass that is at most `half` below a centre.
fn least_mass(centre: i64, half: u64) -> u64
    requires not_below { pos 0 ≤ℤ (centre +ℤ pos half) }
    requires narrow { half ≤ greatest_half_width }
    ensures least { (mass : ℕ) → (result ≤ mass) ↔ ((centre -ℤ pos half) ≤ℤ pos mass) }
    ensures ordered { pos result ≤ℤ (centre +ℤ pos half) }
    ensures narrow { (centre +ℤ pos half) ≤ℤ pos (result + 2 * greatest_half_width) }
{
    let least = centre - half as i64;
    if least < 0 { 0 } else { least as u64 }
}

/// Counts of some elements, and their mass in units of 10^-7 Da.
#[derive(Drop)]
pub(crate) struct Chosen {
    pub formula: Formula,
    pub mass: u64,
    ghost weighed: { IsWeighed formula mass },
}

impl Chosen {
    /// No atom at all.
    pub fn nothing() -> Chosen
        ensures { result.formula ≡ empty_formula }
    {
        Chosen {
            formula: Formula::empty(),
            mass: 0,
        }
    }

    /// The counts with that of one more element.
    pub fn with(&self, element: &Element, count: u64) -> Chosen
        requires known { IsKnown element.now }
        requires within_limit { count ≤ element.now.limit }
        requires not_chosen { slice_index self.now.formula element.now.place ≡ 0 }
        requires light { self.now.mass + count * element.now.mass ≤ 10 ^ 11 }
        ensures { result.formula ≡ slice_set self.now.formula element.now.place count }
    {
        Chosen {
            formula: self.formula.with(element.place, count as u16),
            mass: self.mass + count * element.mass,
        }
    }
}
