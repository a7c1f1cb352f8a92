//! Coarse masses, and the range of coarse sums that belongs to a range of masses.
ghost use Rattle.std.specs.Prelude.{◌≡◌, ◌≤◌, ◌<◌, ◌+◌, ◌*◌, ◌/◌, ◌^◌, ℕ, List, length};
ghost use Rattle.std.specs.List.{All};
ghost use Rattle.element_table.specs.Elements.{element_count};
ghost use Rattle.element_table.specs.Formula.{mass_of};
ghost use Rattle.blowup_bounds.specs.Coarse.{IsOver, coarse_at, coarse_sum, coarse_unit, greatest_rest, least_coarse};
ghost use Rattle.blowup_bounds.specs.Coarse.{rest_at};

use element_table::mass_at;

/// A coarse mass counts so many units of 10^-7 Da as one.
pub const COARSE_UNIT: u64 = 1_000;

/// The coarse mass of the element at a place, and the units of its mass that this leaves out.
#[inline]
pub fn coarse(place: usize) -> (u64, u64)
    requires { place < element_count }
    ensures coarse { result.0 ≡ coarse_at place }
    ensures rest { result.1 ≡ rest_at place }
{
    let mass = mass_at(place);
    (mass / COARSE_UNIT, mass % COARSE_UNIT)
}

/// The least and the greatest coarse sum that a formula of these elements may have whose mass is from `least` to
/// `most`, both included, in units of 10^-7 Da. Masses end at 10,000 Da.
pub fn range(least: u64, most: u64, places: &[usize]) -> (u64, u64)
    requires ordered { least ≤ most }
    requires light { most ≤ 10 ^ 11 }
    requires known { All (λ place. place < element_count) places.now }
    requires some { 0 < length places.now }
    ensures least { result.0 ≡ least_coarse least most places.now }
    ensures most { result.1 ≡ most / coarse_unit }
    ensures not_below { (counts : List ℕ) → IsOver places.now counts → least ≤ mass_of counts → mass_of counts ≤ most
        → result.0 ≤ coarse_sum counts }
    ensures not_above { (counts : List ℕ) → IsOver places.now counts → least ≤ mass_of counts → mass_of counts ≤ most
        → coarse_sum counts ≤ result.1 }
{
    let rest = rest_of(most, places);
    (
        least.saturating_sub(rest).div_ceil(COARSE_UNIT),
        most / COARSE_UNIT,
    )
}

/// The greatest number of units that the coarse masses of a formula of these elements leave out of its mass, where that
/// is at most `most`.
fn rest_of(most: u64, places: &[usize]) -> u64
    requires light { most ≤ 10 ^ 11 }
    requires known { All (λ place. place < element_count) places.now }
    ensures { result ≡ greatest_rest most places.now }
{
    let mut greatest = 0;
    for place in places {
        let rest = coarse(*place).1;
        greatest = greatest.max(most * rest / mass_at(*place));
    }
    greatest
}
