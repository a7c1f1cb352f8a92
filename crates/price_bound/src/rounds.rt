//! A walk over prices that looks for a low total: rounds of a subgradient method. It is a search, so nothing is said of
//! what it finds.
ghost use Rattle.std.specs.Prelude.{◌≤◌};
ghost use Rattle.colour_graph.specs.Graph.{greatest_graph};
ghost use Rattle.price_bound.specs.inside.Packed.{IsPacked};

use crate::packed::{GREATEST_PRICE, Numbers, ONE, Packed, ROOM};

/// How many rounds there are at most.
const ROUNDS: u32 = 200;

/// After so many rounds without a lower total the steps are halved.
const PATIENCE: u32 = 10;

/// The greatest scaled price.
const GREATEST_SCALED: i64 = GREATEST_PRICE * ONE;

/// The greatest length of a step.
const GREATEST_STEP: i64 = 1 << 36;

/// The best scaled prices that a walk finds from a start, for so many colours.
pub(crate) fn best_prices(packed: &Packed, start: &Numbers, colours: usize) -> Numbers
    requires packed { IsPacked packed.now }
    requires colours { colours ≤ greatest_graph }
{
    let mut prices = *start;
    let mut best = *start;
    let mut least = i64::MAX;
    let mut fails = 0;
    let mut reach = (sum_of(start, colours) / 16).max(8 * ONE);
    for _ in 0..ROUNDS {
        let mut potentials = packed.potentials(&prices);
        let mut total = potentials[0].saturating_add(sum_of(&prices, colours));
        if total < least {
            least = total;
            best = prices;
            fails = 0;
        } else {
            fails += 1;
        }
        if fails == PATIENCE {
            fails = 0;
            reach /= 2;
            if reach < ONE {
                break;
            }
            total = least;
            prices = best;
            potentials = packed.potentials(&prices);
        }
        let uses = packed.uses(&prices, &potentials);
        let step = total
            .saturating_sub(least)
            .saturating_add(reach)
            .min(GREATEST_STEP);
        if !move_prices(&mut prices, &uses, colours, step) {
            break;
        }
    }
    best
}

/// The sum of so many first numbers.
fn sum_of(numbers: &Numbers, count: usize) -> i64
    requires { count ≤ greatest_graph }
{
    let mut sum = 0i64;
    for place in 0..count {
        sum = sum.saturating_add(numbers[place]);
    }
    sum
}

/// Moves so many first prices against their slopes, and tells whether any is to move.
fn move_prices(prices: &mut Numbers, uses: &[u32; ROOM], count: usize, step: i64) -> bool
    requires { count ≤ greatest_graph }
{
    let norm = norm_of(prices, uses, count);
    if norm <= 0 {
        return false;
    }
    for colour in 0..count {
        let slope = slope_of(prices[colour], uses[colour]);
        let moved = step.saturating_mul(slope) / norm;
        prices[colour] = prices[colour]
            .saturating_sub(moved)
            .clamp(0, GREATEST_SCALED);
    }
    true
}

/// The sum of the squares of so many first slopes.
fn norm_of(prices: &Numbers, uses: &[u32; ROOM], count: usize) -> i64
    requires { count ≤ greatest_graph }
{
    let mut norm = 0i64;
    for colour in 0..count {
        let slope = slope_of(prices[colour], uses[colour]);
        norm = norm.saturating_add(slope.saturating_mul(slope));
    }
    norm
}

/// How the total rises with a price: by 1, less one for each use of its colour. A price of 0 does not fall.
fn slope_of(price: i64, uses: u32) -> i64 {
    if price == 0 && uses == 0 {
        0
    } else {
        1 - i64::from(uses.min(1023))
    }
}
