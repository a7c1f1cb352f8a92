//! The least potentials for given prices.
ghost use Rattle.std.specs.Prelude.{◌≡◌, ◌≤◌, ◌<◌, ◌+ℤ◌, ◌-ℤ◌, ◌<ℤ◌, ℕ, pos, false, length, true};
ghost use Rattle.colour_graph.specs.EdgeSet.{IsSetOf};
ghost use Rattle.colour_graph.specs.Graph.{IsScore, colour_count};
ghost use Rattle.price_bound.specs.inside.Exact.{AreAmounts, AreClear, AreExactAbove, AreGainAmounts, IsAmount};
ghost use Rattle.tree_certificate.specs.Number.{number_in};
ghost use Rattle.price_bound.specs.inside.Exact.{IsGainAmount, IsGreater, IsTooHigh, cert_with, gain_at};

use colour_graph::{Allowed, Colour, ColourGraph};
use tree_certificate::GREATEST_NUMBER;

/// The greatest number that may stand in a certificate.
const GREATEST: i64 = GREATEST_NUMBER as i64;

/// Writes the least potentials for some prices and tells true; tells false where one is too great for a certificate.
/// The gains are a buffer, all 0 before and after.
pub(crate) fn set_potentials(
    graph: &ColourGraph,
    allowed: &Allowed,
    prices: &[i64],
    potentials: &mut [i64],
    gains: &mut [i64],
) -> bool
    requires set { IsSetOf graph.now allowed.now }
    requires price_count { length prices.now ≡ colour_count graph.now }
    requires prices { AreAmounts prices.now }
    requires potential_count { length potentials.old ≡ length graph.now.colours }
    requires gain_count { length gains.old ≡ length graph.now.colours }
    requires clear { AreClear gains.old }
    ensures exact { result ≡ true
        → AreExactAbove graph.now allowed.now (cert_with prices.now potentials.new) 0 }
    ensures low { result ≡ true → AreAmounts potentials.new }
    ensures high { result ≡ false → IsTooHigh graph.now allowed.now prices.now }
    ensures clear { AreClear gains.new }
{
    graph.is_graph();
    clear(potentials);
    let mut colour = graph.colour_count() as Colour;
    while colour > 0 {
        let price = prices[usize::from(colour) - 1];
        gather_gains(graph, allowed, colour, price, potentials, gains);
        if !add_gains(potentials, gains) {
            return false;
        }
        colour -= 1;
    }
    true
}

/// Sets each number to 0.
fn clear(numbers: &mut [i64])
    ensures { AreClear numbers.new }
{
    for number in numbers.iter_mut() {
        *number = 0;
    }
}

/// Writes what each vertex gains by the edges of a set into a colour at a price.
fn gather_gains(
    graph: &ColourGraph,
    allowed: &Allowed,
    colour: Colour,
    price: i64,
    potentials: &[i64],
    gains: &mut [i64],
)
    requires set { IsSetOf graph.now allowed.now }
    requires colour { (0 < colour) × (colour ≤ colour_count graph.now) }
    requires price { IsAmount price }
    requires potential_count { length potentials.now ≡ length graph.now.colours }
    requires potentials { AreAmounts potentials.now }
    requires gain_count { length gains.old ≡ length graph.now.colours }
    requires clear { AreClear gains.old }
    ensures gains { (vertex : ℕ) → vertex < length graph.now.colours
        → number_in gains.new vertex ≡ gain_at graph.now allowed.now colour price potentials.now vertex }
    ensures near { AreGainAmounts gains.new }
{
    let (first, past) = graph.edges_into(colour);
    for edge in first..past {
        if allowed.has(edge) {
            let here = graph.edge_at(edge);
            let tail = usize::from(here.tail);
            gains[tail] = raised(
                gains[tail],
                here.weight,
                price,
                potentials[usize::from(here.head)],
            );
        }
    }
}

/// The greater of a gain and what is gained by an edge of a weight at a price, whose head has a potential.
#[inline(always)]
fn raised(gain: i64, weight: i32, price: i64, potential: i64) -> i64
    requires gain { IsGainAmount gain }
    requires weight { IsScore weight }
    requires price { IsAmount price }
    requires potential { IsAmount potential }
    ensures greater { IsGreater result gain ((weight -ℤ price) +ℤ potential) }
    ensures near { IsGainAmount result }
{
    let sum = i64::from(weight) - price + potential;
    if sum > gain { sum } else { gain }
}

/// Adds each gain to its potential, clears it, and tells whether all potentials may stand in a certificate.
fn add_gains(potentials: &mut [i64], gains: &mut [i64]) -> bool
    requires same_length { length gains.old ≡ length potentials.old }
    requires potentials { AreAmounts potentials.old }
    requires gains { AreGainAmounts gains.old }
    ensures added { (place : ℕ) → number_in potentials.new place
        ≡ number_in potentials.old place +ℤ number_in gains.old place }
    ensures clear { AreClear gains.new }
    ensures low { result ≡ true → AreAmounts potentials.new }
    ensures high { result ≡ false → (place : ℕ) × (place < length potentials.new)
        × (pos 1000000000000000 <ℤ number_in potentials.new place) }
{
    let mut low = true;
    for vertex in 0..potentials.len() {
        let sum = added(potentials[vertex], gains[vertex]);
        potentials[vertex] = sum;
        gains[vertex] = 0;
        if sum > GREATEST {
            low = false;
        }
    }
    low
}

/// A potential and a gain.
#[inline(always)]
fn added(potential: i64, gain: i64) -> i64
    requires potential { IsAmount potential }
    requires gain { IsGainAmount gain }
    ensures { result ≡ potential +ℤ gain }
{
    potential + gain
}
