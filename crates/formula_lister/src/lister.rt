//! The list of a window.
ghost use Rattle.std.specs.Prelude.{◌≡◌, ◌≤◌, ◌<◌, ◌^◌, ◌+ℤ◌, ◌≤ℤ◌, pos, Err, length, IfOk};
ghost use Rattle.element_table.specs.FormulaList.{greatest_list};
ghost use Rattle.element_table.specs.Listed.{Listed, listed_of};
ghost use Rattle.element_table.specs.Window.{greatest_half_width};

use crate::chosen::{Bounds, Chosen};
use crate::counting::Lister;
use crate::element::counted_elements;
use crate::outcome::ListFault;
use element_table::{Formula, Limits, Window, sorted_formulas_rise, the_list_is_a_filter};
use std::alloc::Global;
use valence_filter::Sieve;

/// The formulas in a window whose counts are within the limits and which pass the sieve, each once, in formula order.
/// Where they are more than 20,000, the answer is `TooMany`, as soon as one more is found. A window is at most
/// 0.4 Da wide and ends at most at 10,000 Da.
pub fn list(
    alloc: Global,
    window: &Window,
    limits: &Limits,
    sieve: &Sieve,
) -> Result<Vec<Formula>, ListFault>
    requires light { (window.now.centre +ℤ pos window.now.half) ≤ℤ pos (10 ^ 11) }
    requires narrow { window.now.half ≤ greatest_half_width }
    ensures list { IfOk result (λ formulas. Listed window.now limits.now sieve.now.rules.items formulas.items) }
    ensures filter { IfOk result (λ formulas. formulas.items ≡ listed_of window.now limits.now sieve.now.rules.items) }
    ensures few { IfOk result (λ formulas. length formulas.items ≤ greatest_list) }
    ensures too_many { result ≡ Err ListFault.TooMany
        → greatest_list < length (listed_of window.now limits.now sieve.now.rules.items) }
{
    the_list_is_a_filter();
    sorted_formulas_rise();
    let elements = counted_elements(alloc, limits)?;
    let mut list = Vec::new(alloc);
    let Some(bounds) = Bounds::of(window, limits) else {
        return Ok(list);
    };
    let lister = Lister { sieve, bounds };
    lister.list_from(&mut list, &Chosen::nothing(), elements.as_slice())?;
    list.sort_unstable();
    Ok(list)
}
