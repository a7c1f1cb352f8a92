//! The filling of the table of a graph of few colours with exact numbers, after Böcker and Rasche 2008.
ghost use Rattle.std.specs.Prelude.{◌≡◌, ◌≤◌, ◌<◌, ◌+◌, ◌-◌, ◌*◌, ◌^◌, ◌↔◌, ℕ, ℤ, pos, negsuc, ◌+ℤ◌, ◌≤ℤ◌, List, Bool};
ghost use Rattle.std.specs.Prelude.{false, IfOk, length, map};
ghost use Rattle.colour_graph.specs.Graph.{IsGraph, colour_count, colour_of, greatest_graph};
ghost use Rattle.subset_tree.specs.inside.Exact.{IsExact};
ghost use Rattle.tree_certificate.specs.Enough.{IsEnough, IsRaised};
ghost use Rattle.subset_tree.specs.inside.Filling.{AreFilledFrom, AreGains, AreGainsBefore, AreModest};
ghost use Rattle.tree_certificate.specs.Number.{AreNumbers, number_in};
ghost use Rattle.subset_tree.specs.inside.Filling.{IsFilledTo};
ghost use Rattle.tree_certificate.specs.ColourSet.{place_of};
ghost use Rattle.tree_certificate.specs.TableHolds.{greatest_colours};

use colour_graph::{Colour, ColourGraph, VertexId};
use std::alloc::{AllocError, Global};

/// What no edge gains, less than any that one does.
const NOTHING: i64 = -1_000_000_000;

/// The table of a graph in which each number is the least that it may be.
pub(crate) fn fill_table(alloc: Global, graph: &ColourGraph) -> Result<Vec<Vec<i64>>, AllocError>
    requires colours { colour_count graph.now ≤ greatest_colours }
    requires vertices { length graph.now.colours ≤ greatest_graph }
    ensures exact { IfOk result (λ rows. IsExact graph.now (map (λ row. row.items) rows.items)) }
    ensures numbers { IfOk result (λ rows. AreNumbers (map (λ row. row.items) rows.items)) }
{
    let count = graph.vertex_count() as usize;
    graph.is_graph();
    let mut rows: Vec<Vec<i64>> = Vec::with_capacity(alloc, count)?;
    for _ in 0..count {
        rows.push(Vec::new(alloc))?;
    }
    let mut gains = vec![in alloc; NOTHING; set_count(graph.colour_count() as usize)]?;
    let mut vertex = count;
    while vertex > 0 {
        vertex -= 1;
        let row = filled_row(alloc, graph, &rows, vertex as VertexId, &mut gains)?;
        rows[vertex] = row;
    }
    Ok(rows)
}

/// The numbers of a vertex, where the rows of all later ones are filled.
fn filled_row(
    alloc: Global,
    graph: &ColourGraph,
    rows: &[Vec<i64>],
    vertex: VertexId,
    gains: &mut [i64],
) -> Result<Vec<i64>, AllocError>
    requires graph { IsGraph graph.now }
    requires few { colour_count graph.now ≤ greatest_colours }
    requires vertex { vertex < length graph.now.colours }
    requires rows { AreFilledFrom graph.now (map (λ row. row.items) rows.now) (vertex + 1) }
    requires gains { length gains.old ≡ 2 ^ colour_count graph.now }
    ensures gains { length gains.new ≡ length gains.old }
    ensures size { IfOk result (λ row. length row.items ≡ 2 ^ (colour_count graph.now - colour_of graph.now vertex)) }
    ensures filled { IfOk result (λ row.
        IsFilledTo graph.now (map (λ row. row.items) rows.now) vertex
        (colour_count graph.now - colour_of graph.now vertex) row.items) }
{
    let count = graph.colour_count() as usize;
    let greater = count - usize::from(graph.colour_of(vertex));
    let mut row = vec![in alloc; 0i64; set_count(greater)]?;
    for size in 0..greater {
        let colour = (count - size) as Colour;
        let here = &mut gains[..set_count(size)];
        let any = gather_gains(graph, rows, vertex, colour, here);
        widen(&mut row, here, any);
    }
    Ok(row)
}

/// How many sets there are of so many colours.
fn set_count(colours: usize) -> usize
    requires { colours ≤ greatest_colours }
    ensures count { result ≡ 2 ^ colours }
    ensures few { result ≤ 2 ^ greatest_colours }
{
    1 << colours
}

/// Gathers what the edges from a vertex into a colour gain, by the set of the colours behind it that their heads get;
/// and tells whether there is such an edge.
fn gather_gains(
    graph: &ColourGraph,
    rows: &[Vec<i64>],
    vertex: VertexId,
    colour: Colour,
    gains: &mut [i64],
) -> bool
    requires graph { IsGraph graph.now }
    requires few { colour_count graph.now ≤ greatest_colours }
    requires vertex { vertex < length graph.now.colours }
    requires rows { AreFilledFrom graph.now (map (λ row. row.items) rows.now) (vertex + 1) }
    requires colour { (0 < colour) × (colour ≤ colour_count graph.now) }
    requires room { length gains.old ≡ 2 ^ (colour_count graph.now - colour) }
    ensures room { length gains.new ≡ length gains.old }
    ensures exact { AreGainsBefore graph.now (map (λ row. row.items) rows.now) vertex colour (length graph.now.edges)
        gains.new }
    ensures none { result ≡ false → (place : ℕ) → place < length gains.old
        → number_in gains.new place ≡ negsuc 999999999 }
{
    clear_gains(gains);
    let (first, past) = graph.edges_into(colour);
    let mut any = false;
    for edge in first..past {
        let here = graph.edge_at(edge);
        if here.tail == vertex {
            raise_gains(gains, here.weight, &rows[usize::from(here.head)]);
            any = true;
        }
    }
    any
}

/// Sets each gain to what no edge gains.
fn clear_gains(gains: &mut [i64])
    ensures length { length gains.new ≡ length gains.old }
    ensures clear { (place : ℕ) → place < length gains.old → number_in gains.new place ≡ negsuc 999999999 }
{
    for gain in gains.iter_mut() {
        *gain = NOTHING;
    }
}

/// Raises each gain to what an edge of a weight gains, whose head has these numbers.
fn raise_gains(gains: &mut [i64], weight: i32, numbers: &[i64])
    requires weight { (negsuc 99999 ≤ℤ weight) × (weight ≤ℤ pos 100000) }
    requires numbers { AreModest numbers.now }
    requires few { length numbers.now ≤ 2 ^ greatest_colours }
    requires room { length numbers.now ≤ length gains.old }
    requires gains { AreGains gains.old }
    ensures length { length gains.new ≡ length gains.old }
    ensures raised { (place : ℕ) → place < length numbers.now
        → IsRaised (number_in gains.new place) (number_in gains.old place) weight (number_in numbers.now place) }
    ensures gains { AreGains gains.new }
{
    let gain = i64::from(weight);
    for place in 0..numbers.len() {
        gains[place] = raised(gains[place], gain, numbers[place]);
    }
}

/// The greater of a number and the sum of two others.
#[inline(always)]
fn raised(most: i64, gain: i64, rest: i64) -> i64
    requires gain { (negsuc 999999999 ≤ℤ gain) × (gain ≤ℤ pos 1000000000) }
    requires rest { (pos 0 ≤ℤ rest) × (rest ≤ℤ pos 1000000000) }
    ensures { IsRaised result most gain rest }
{
    let sum = gain + rest;
    if sum > most { sum } else { most }
}

/// Makes the numbers for the sets of some last colours, at the first places, into those for one smaller colour more.
fn widen(numbers: &mut [i64], gains: &[i64], any: bool)
    requires room { 2 * length gains.now ≤ length numbers.old }
    requires few { length numbers.old ≤ 2 ^ greatest_colours }
    requires gains { AreGains gains.now }
    requires modest { AreModest numbers.old }
    requires none { any ≡ false → (place : ℕ) → place < length gains.now
        → number_in gains.now place ≡ negsuc 999999999 }
    ensures length { length numbers.new ≡ length numbers.old }
    ensures modest { AreModest numbers.new }
    ensures kept { (place : ℕ) → place < length gains.now
        → number_in numbers.new (2 * place) ≡ number_in numbers.old place }
    ensures grown { (set : List Bool) → place_of set < length gains.now → (candidate : ℤ)
        → (number_in numbers.new (1 + 2 * place_of set) ≤ℤ candidate) ↔ IsEnough numbers.old gains.now set candidate }
{
    let mut set = gains.len();
    while set > 0 {
        set -= 1;
        let number = least_enough(numbers, gains, set, any);
        numbers[2 * set + 1] = number;
        numbers[2 * set] = numbers[set];
    }
}

/// The least number that is enough for a set, given by its place, beside one smaller colour.
fn least_enough(numbers: &[i64], gains: &[i64], set: usize, any: bool) -> i64
    requires few { set < 2 ^ greatest_colours }
    requires room { (set < length numbers.now) × (set < length gains.now) }
    requires modest { AreModest numbers.now }
    requires gains { AreGains gains.now }
    requires none { any ≡ false → (place : ℕ) → place < length gains.now
        → number_in gains.now place ≡ negsuc 999999999 }
    ensures enough { (colours : List Bool) → place_of colours ≡ set → (candidate : ℤ)
        → (result ≤ℤ candidate) ↔ IsEnough numbers.now gains.now colours candidate }
    ensures not_below { pos 0 ≤ℤ result }
    ensures not_above { result ≤ℤ pos (100000 * (set + 1)) }
{
    if any {
        greatest_sum(numbers, gains, set)
    } else {
        numbers[set]
    }
}

/// The same where there is an edge into the smaller colour, by a walk over all parts of the set.
fn greatest_sum(numbers: &[i64], gains: &[i64], set: usize) -> i64
    requires few { set < 2 ^ greatest_colours }
    requires room { (set < length numbers.now) × (set < length gains.now) }
    requires modest { AreModest numbers.now }
    requires gains { AreGains gains.now }
    ensures enough { (colours : List Bool) → place_of colours ≡ set → (candidate : ℤ)
        → (result ≤ℤ candidate) ↔ IsEnough numbers.now gains.now colours candidate }
    ensures not_below { pos 0 ≤ℤ result }
    ensures not_above { result ≤ℤ pos (100000 * (set + 1)) }
{
    let whole = numbers[set];
    let mut most = raised(whole, gains[0], whole);
    let mut part = set;
    while part > 0 {
        most = raised(most, gains[part], numbers[set - part]);
        part = (part - 1) & set;
    }
    most
}
