//! The first number of a vertex that is too low.
ghost use Rattle.std.specs.Prelude.{◌≡◌, ◌≤◌, ◌<◌, ◌+◌, ◌*◌, ◌-◌, ◌^◌, ℤ, List, false, length, map};
ghost use Rattle.std.specs.Int.{IsPowerOfTwo};
ghost use Rattle.colour_graph.specs.Graph.{colour_count, colour_of};
ghost use Rattle.tree_certificate.specs.Number.{AreNumbers};
ghost use Rattle.tree_certificate.specs.TableHolds.{FitsGraph, greatest_colours};
ghost use Rattle.certificate_checker.specs.inside.Enough.{AreGainsBelow, AreNoGains, AreNumbersBelow};
ghost use Rattle.certificate_checker.specs.inside.Low.{IsEarlier, IsFoundOfSizes, IsFoundOfVertex, IsFoundSet};

use crate::colours::colours_of;
use crate::gains::{copy_numbers, gather_gains, numbers_of};
use crate::low::Low;
use crate::parts::least_enough;
use colour_graph::{Colour, ColourGraph, VertexId};

/// The first number of a vertex that is too low. Two buffers of one length are written over, each with room for a
/// number for each set of all colours.
pub(crate) fn first_low_of(
    graph: &ColourGraph,
    rows: &[Vec<i64>],
    vertex: VertexId,
    own: &mut [i64],
    gains: &mut [i64],
) -> Option<Low>
    requires fits { FitsGraph graph.now (map (λ row. row.items) rows.now) }
    requires numbers { AreNumbers (map (λ row. row.items) rows.now) }
    requires vertex { vertex < length graph.now.colours }
    requires own { length own.old ≡ 2 ^ colour_count graph.now }
    requires gains { length gains.old ≡ 2 ^ colour_count graph.now }
    ensures own { length own.new ≡ length own.old }
    ensures gains { length gains.new ≡ length gains.old }
    ensures found { IsFoundOfVertex graph.now (map (λ row. row.items) rows.now) vertex result }
{
    if numbers_of(rows, usize::from(vertex))[0] < 0 {
        return Some(Low {
            place: 0,
            needed: 0,
        });
    }
    let greater = graph.colour_count() as usize - usize::from(graph.colour_of(vertex));
    let mut first = None;
    for size in 0..greater {
        let found = first_low_within(graph, rows, vertex, size, own, gains);
        first = earlier(first, found);
    }
    first
}

/// The first number of a vertex that is too low, among those for a colour and sets of the colours behind it, of which
/// there are so many. Of both buffers the first numbers are written over.
fn first_low_within(
    graph: &ColourGraph,
    rows: &[Vec<i64>],
    vertex: VertexId,
    size: usize,
    own: &mut [i64],
    gains: &mut [i64],
) -> Option<Low>
    requires fits { FitsGraph graph.now (map (λ row. row.items) rows.now) }
    requires numbers { AreNumbers (map (λ row. row.items) rows.now) }
    requires vertex { vertex < length graph.now.colours }
    requires size { colour_of graph.now vertex + size < colour_count graph.now }
    requires room { (2 ^ size ≤ length own.old) × (2 ^ size ≤ length gains.old) }
    ensures own { length own.new ≡ length own.old }
    ensures gains { length gains.new ≡ length gains.old }
    ensures found { IsFoundOfSizes graph.now (map (λ row. row.items) rows.now) vertex size (size + 1) result }
{
    let sets = sets_of(size);
    first_low_of_size(
        graph,
        rows,
        vertex,
        size,
        &mut own[..sets],
        &mut gains[..sets],
    )
}

/// The same, over two buffers of a number for each of the sets.
fn first_low_of_size(
    graph: &ColourGraph,
    rows: &[Vec<i64>],
    vertex: VertexId,
    size: usize,
    own: &mut [i64],
    gains: &mut [i64],
) -> Option<Low>
    requires fits { FitsGraph graph.now (map (λ row. row.items) rows.now) }
    requires numbers { AreNumbers (map (λ row. row.items) rows.now) }
    requires vertex { vertex < length graph.now.colours }
    requires size { colour_of graph.now vertex + size < colour_count graph.now }
    requires own { length own.old ≡ 2 ^ size }
    requires gains { length gains.old ≡ 2 ^ size }
    ensures own { length own.new ≡ length own.old }
    ensures gains { length gains.new ≡ length gains.old }
    ensures found { IsFoundOfSizes graph.now (map (λ row. row.items) rows.now) vertex size (size + 1) result }
{
    let row = numbers_of(rows, usize::from(vertex));
    let step = step_of(graph, vertex, size);
    copy_numbers(row, 2 * step, own);
    let colour = graph.colour_count() as usize - size;
    let any = gather_gains(graph, rows, vertex, colour as Colour, gains);
    first_low_set(row, step, own, gains, any)
}

/// How many sets of so many colours there are.
pub(crate) fn sets_of(size: usize) -> usize
    requires { size ≤ greatest_colours }
    ensures sets { result ≡ 2 ^ size }
    ensures few { result ≤ 2 ^ greatest_colours }
{
    1 << size
}

/// Where the first number of a vertex stands that is for a colour with so many ones behind it.
fn step_of(graph: &ColourGraph, vertex: VertexId, size: usize) -> usize
    requires few { colour_count graph.now ≤ greatest_colours }
    requires vertex { vertex < length graph.now.colours }
    requires size { colour_of graph.now vertex + size < colour_count graph.now }
    ensures step { result ≡ 2 ^ (colour_count graph.now - size - colour_of graph.now vertex - 1) }
    ensures some { 0 < result }
    ensures few { 2 * result ≤ 2 ^ greatest_colours }
{
    1 << (graph.colour_count() as usize - size - usize::from(graph.colour_of(vertex)) - 1)
}

/// The first number of a row that is too low, among those for a colour and sets of the colours behind it. Its loop
/// stays in registers where it stands alone.
#[inline(never)]
fn first_low_set(row: &[i64], step: usize, own: &[i64], gains: &[i64], any: bool) -> Option<Low>
    requires few { length row.now ≤ 2 ^ greatest_colours }
    requires step { (0 < step) × (step ≤ 2 ^ greatest_colours) }
    requires row { length own.now * (2 * step) ≡ length row.now }
    requires held { AreNumbersBelow row.now (length row.now) }
    requires room { length own.now ≡ length gains.now }
    requires sets { IsPowerOfTwo (length own.now) }
    requires numbers { AreNumbersBelow own.now (length own.now) }
    requires gains { AreGainsBelow gains.now (length own.now) }
    requires none { any ≡ false → AreNoGains gains.now (length own.now) }
    ensures { IsFoundSet row.now own.now gains.now step (length own.now) result }
{
    if !any {
        return first_below(row, step, own);
    }
    let colours = colours_of(own, gains);
    for set in 0..own.len() {
        let place = step * (1 + 2 * set);
        let part = set & colours.telling;
        if part < set && row[step * (1 + 2 * part)] <= row[place] {
            continue;
        }
        let needed = least_enough(own, gains, colours.useful, set);
        if row[place] < needed {
            return Some(Low { place, needed });
        }
    }
    None
}

/// The first number of a row that is too low, among those for a colour that no edge goes to: there each is to be at
/// least the one for the set without the colour.
#[inline(never)]
fn first_below(row: &[i64], step: usize, own: &[i64]) -> Option<Low>
    requires few { length row.now ≤ 2 ^ greatest_colours }
    requires step { (0 < step) × (step ≤ 2 ^ greatest_colours) }
    requires row { length own.now * (2 * step) ≡ length row.now }
    requires held { AreNumbersBelow row.now (length row.now) }
    requires numbers { AreNumbersBelow own.now (length own.now) }
    ensures { (gains : List ℤ) → AreNoGains gains (length own.now)
        → IsFoundSet row.now own.now gains step (length own.now) result }
{
    for (set, number) in own.iter().enumerate() {
        let needed = *number;
        let place = step * (1 + 2 * set);
        if row[place] < needed {
            return Some(Low { place, needed });
        }
    }
    None
}

/// The one of two that stands first.
fn earlier(low: Option<Low>, other: Option<Low>) -> Option<Low>
    ensures { IsEarlier low other result }
{
    match (low, other) {
        (None, found) => found,
        (Some(first), None) => Some(first),
        (Some(first), Some(second)) => {
            if first.place <= second.place {
                Some(first)
            } else {
                Some(second)
            }
        }
    }
}
