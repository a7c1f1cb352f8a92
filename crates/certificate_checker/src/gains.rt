//! What the edges from a vertex into a colour gain.
ghost use Rattle.std.specs.Prelude.{◌≡◌, ◌≤◌, ◌<◌, ◌*◌, ◌-◌, ◌^◌, ◌+ℤ◌, ℕ, false, length, map};
ghost use Rattle.colour_graph.specs.Graph.{IsScore, colour_count};
ghost use Rattle.tree_certificate.specs.Number.{AreNumbers, number_in};
ghost use Rattle.tree_certificate.specs.TableHolds.{FitsGraph, greatest_colours, row_at};
ghost use Rattle.certificate_checker.specs.inside.Enough.{AreGainsBefore, AreGainsBelow, AreNoGains, AreNumbersBelow};
ghost use Rattle.tree_certificate.specs.Enough.{IsRaised};
ghost use Rattle.certificate_checker.specs.inside.Enough.{IsGain, IsNumber};

use colour_graph::{Colour, ColourGraph, VertexId};

/// What stands for the gain of no edge: with a number of a table beside it, it is above no other.
const NOTHING: i64 = -2_000_000_000_000_000;

/// The numbers of a vertex.
pub(crate) fn numbers_of(rows: &[Vec<i64>], vertex: usize) -> &[i64]
    requires { vertex < length rows.now }
    ensures { result.now ≡ row_at (map (λ row. row.items) rows.now) vertex }
{
    rows[vertex].as_slice()
}

/// Copies each number that stands at a multiple of a step.
pub(crate) fn copy_numbers(row: &[i64], step: usize, own: &mut [i64])
    requires few { length row.now ≤ 2 ^ greatest_colours }
    requires numbers { AreNumbersBelow row.now (length row.now) }
    requires step { (0 < step) × (step ≤ 2 ^ greatest_colours) }
    requires room { length own.old * step ≡ length row.now }
    ensures length { length own.new ≡ length own.old }
    ensures copied { (place : ℕ) → place < length own.old → number_in own.new place ≡ number_in row.now (step * place) }
{
    for place in 0..own.len() {
        own[place] = row[step * place];
    }
}

/// Gathers what the edges from a vertex into a colour gain, by the set of the colours behind it that their heads get;
/// and tells whether there is such an edge.
pub(crate) fn gather_gains(
    graph: &ColourGraph,
    rows: &[Vec<i64>],
    vertex: VertexId,
    colour: Colour,
    gains: &mut [i64],
) -> bool
    requires fits { FitsGraph graph.now (map (λ row. row.items) rows.now) }
    requires numbers { AreNumbers (map (λ row. row.items) rows.now) }
    requires vertex { vertex < length graph.now.colours }
    requires colour { (0 < colour) × (colour ≤ colour_count graph.now) }
    requires room { length gains.old ≡ 2 ^ (colour_count graph.now - colour) }
    ensures room { length gains.new ≡ length gains.old }
    ensures gains { AreGainsBefore graph.now (map (λ row. row.items) rows.now) vertex colour (length graph.now.edges)
        (length gains.old) gains.new }
    ensures none { result ≡ false → AreNoGains gains.new (length gains.old) }
{
    let (first, past) = graph.edges_into(colour);
    let mut any = false;
    for edge in first..past {
        let here = graph.edge_at(edge);
        if here.tail == vertex {
            let numbers = numbers_of(rows, usize::from(here.head));
            if any {
                raise_gains(gains, here.weight, numbers);
            } else {
                set_gains(gains, here.weight, numbers);
            }
            any = true;
        }
    }
    if !any {
        clear_gains(gains);
    }
    any
}

/// Sets each gain to what stands for no edge.
fn clear_gains(gains: &mut [i64])
    ensures length { length gains.new ≡ length gains.old }
    ensures clear { AreNoGains gains.new (length gains.old) }
{
    for gain in gains.iter_mut() {
        *gain = NOTHING;
    }
}

/// Sets each gain to what an edge of a weight gains, whose head has these numbers. Its loop stays in registers where it
/// stands alone, as that of `raise_gains` does.
#[inline(never)]
fn set_gains(gains: &mut [i64], weight: i32, numbers: &[i64])
    requires weight { IsScore weight }
    requires numbers { AreNumbersBelow numbers.now (length numbers.now) }
    requires few { length numbers.now ≤ 2 ^ greatest_colours }
    requires room { length numbers.now ≡ length gains.old }
    ensures length { length gains.new ≡ length gains.old }
    ensures set { (place : ℕ) → place < length gains.old
        → number_in gains.new place ≡ weight +ℤ number_in numbers.now place }
{
    for place in 0..numbers.len() {
        gains[place] = i64::from(weight) + numbers[place];
    }
}

/// Raises each gain to what an edge of a weight gains, whose head has these numbers.
#[inline(never)]
fn raise_gains(gains: &mut [i64], weight: i32, numbers: &[i64])
    requires weight { IsScore weight }
    requires numbers { AreNumbersBelow numbers.now (length numbers.now) }
    requires few { length numbers.now ≤ 2 ^ greatest_colours }
    requires room { length numbers.now ≡ length gains.old }
    requires gains { AreGainsBelow gains.old (length gains.old) }
    ensures length { length gains.new ≡ length gains.old }
    ensures raised { (place : ℕ) → place < length gains.old
        → IsRaised (number_in gains.new place) (number_in gains.old place) weight (number_in numbers.now place) }
    ensures gains { AreGainsBelow gains.new (length gains.old) }
{
    for place in 0..numbers.len() {
        gains[place] = raised_by(gains[place], weight, numbers[place]);
    }
}

/// The greater of a gain and the sum of a weight and a number.
#[inline(always)]
fn raised_by(gain: i64, weight: i32, number: i64) -> i64
    requires gain { IsGain gain }
    requires weight { IsScore weight }
    requires number { IsNumber number }
    ensures greater { IsRaised result gain weight number }
    ensures near { IsGain result }
{
    let sum = i64::from(weight) + number;
    if sum > gain { sum } else { gain }
}
