//! Formulas drawn from a generator, and parts of them.
ghost use Rattle.std.specs.Prelude.{◌≡◌, ◌≤◌, ◌+◌, ◌%◌};
ghost use Rattle.element_table.specs.Elements.{greatest_count};
ghost use Rattle.case_maker.specs.Draws.{draw_at, next_state, state_after};
ghost use Rattle.case_maker.specs.Drawn.{drawn_formula, drawn_part, formula_of};
ghost use Rattle.case_maker.specs.MadeText.{draws_of_formula};

use crate::generator::Generator;
use element_table::Formula;

/// The places of the element table that are drawn.
const HYDROGEN: usize = 0;

const CARBON: usize = 1;

const NITROGEN: usize = 2;

const OXYGEN: usize = 3;

/// The formula of so many atoms of each element that is drawn.
fn formula(carbon: u16, hydrogen: u16, nitrogen: u16, oxygen: u16) -> Formula
    requires carbon { carbon ≤ greatest_count }
    requires hydrogen { hydrogen ≤ greatest_count }
    requires nitrogen { nitrogen ≤ greatest_count }
    requires oxygen { oxygen ≤ greatest_count }
    ensures { result ≡ formula_of carbon hydrogen nitrogen oxygen }
{
    Formula::empty()
        .with(CARBON, carbon)
        .with(HYDROGEN, hydrogen)
        .with(NITROGEN, nitrogen)
        .with(OXYGEN, oxygen)
}

/// Draws a count of at most so many atoms.
fn draw_count(generator: &mut Generator, most: u16) -> u16
    ensures state { generator.new ≡ next_state generator.old }
    ensures drawn { result ≡ draw_at 0 generator.old % (most + 1) }
    ensures capped { result ≤ most }
{
    generator.draw_below(u64::from(most) + 1) as u16
}

/// Draws the formula of a precursor: carbon, nitrogen, oxygen, and then hydrogen.
pub(crate) fn draw_formula(generator: &mut Generator) -> Formula
    ensures state { generator.new ≡ state_after draws_of_formula generator.old }
    ensures drawn { result ≡ drawn_formula generator.old }
{
    let carbon = 8 + draw_count(generator, 42);
    let nitrogen = draw_count(generator, 4);
    let oxygen = 1 + draw_count(generator, 8);
    let hydrogen = 2 * draw_count(generator, carbon) + nitrogen % 2;
    formula(carbon, hydrogen, nitrogen, oxygen)
}

/// Draws a part of a formula: carbon, hydrogen, nitrogen and oxygen.
pub(crate) fn draw_part(generator: &mut Generator, whole: &Formula) -> Formula
    ensures state { generator.new ≡ state_after 4 generator.old }
    ensures drawn { result ≡ drawn_part whole.now generator.old }
{
    let carbon = draw_count(generator, whole.count(CARBON));
    let hydrogen = draw_count(generator, whole.count(HYDROGEN));
    let nitrogen = draw_count(generator, whole.count(NITROGEN));
    let oxygen = draw_count(generator, whole.count(OXYGEN));
    formula(carbon, hydrogen, nitrogen, oxygen)
}
