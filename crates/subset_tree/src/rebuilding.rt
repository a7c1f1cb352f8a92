//! Reading a best colourful list of edges out of a table of exact numbers: colour by colour, each left out by the
//! vertex that owns it or taken by an edge from there.
ghost use Rattle.std.specs.Prelude.{◌≡◌, ◌≤◌, ◌<◌, ◌+◌, ◌-◌, ◌∷◌, ◌^◌, ℕ, List, Bool, IfOk, MatchOption, drop, length};
ghost use Rattle.std.specs.Prelude.{map};
ghost use Rattle.std.specs.Prelude.{negsuc, pos, slice_index, ◌≤ℤ◌};
ghost use Rattle.std.specs.List.{All, AllPairs};
ghost use Rattle.colour_graph.specs.Colourful.{IsColourful, score_of};
ghost use Rattle.colour_graph.specs.Graph.{IsGraph, colour_count, colour_of, edge_at, head_colour};
ghost use Rattle.subset_tree.specs.inside.Exact.{IsExact};
ghost use Rattle.subset_tree.specs.inside.Rebuilding.{IsChoice, IsLeftOut, IsMissed, IsStep, given, owned};
ghost use Rattle.tree_certificate.specs.ColourSet.{place_of};
ghost use Rattle.tree_certificate.specs.Number.{AreNumbers};
ghost use Rattle.tree_certificate.specs.TableHolds.{FitsGraph, greatest_colours, number_of, table_total};

use colour_graph::{Colour, ColourGraph, Edge, EdgeId, VertexId};
use std::alloc::{AllocError, Global};

/// A best colourful list of edges in rising order, out of a table of exact numbers.
pub(crate) fn read_tree(
    alloc: Global,
    graph: &ColourGraph,
    rows: &[Vec<i64>],
) -> Result<Vec<EdgeId>, AllocError>
    requires exact { IsExact graph.now (map (λ row. row.items) rows.now) }
    requires numbers { AreNumbers (map (λ row. row.items) rows.now) }
    requires graph { IsGraph graph.now }
    ensures colourful { IfOk result (λ edges. IsColourful graph.now edges.items) }
    ensures rising { IfOk result (λ edges. AllPairs (λ edge later. edge < later) edges.items) }
    ensures few { IfOk result (λ edges. length edges.items ≤ colour_count graph.now) }
    ensures score { IfOk result (λ edges.
        score_of graph.now edges.items ≡ table_total graph.now (map (λ row. row.items) rows.now)) }
{
    let count = graph.colour_count() as usize;
    let mut owners: Vec<VertexId> = vec![in alloc; 0; count]?;
    let mut edges = Vec::new(alloc);
    for decided in 0..count {
        if let Some(edge) = decide(graph, rows, &mut owners, decided) {
            edges.push(edge)?;
        }
    }
    Ok(edges)
}

/// Decides the next colour: the vertex that owns it leaves it out, or takes an edge into it whose head then owns a part
/// of its later colours.
fn decide(
    graph: &ColourGraph,
    rows: &[Vec<i64>],
    owners: &mut [VertexId],
    decided: usize,
) -> Option<EdgeId>
    requires exact { IsExact graph.now (map (λ row. row.items) rows.now) }
    requires numbers { AreNumbers (map (λ row. row.items) rows.now) }
    requires graph { IsGraph graph.now }
    requires count { length owners.old ≡ colour_count graph.now }
    requires next { decided < length owners.old }
    requires vertex { slice_index owners.old decided < length graph.now.colours }
    requires before { colour_of graph.now (slice_index owners.old decided) ≤ decided }
    ensures { MatchOption result
        ((owners.new ≡ owners.old) × IsLeftOut graph.now (map (λ row. row.items) rows.now)
        (slice_index owners.old decided)
        (owned (slice_index owners.old decided) (drop (decided + 1) owners.old)))
        (λ edge. IsStep graph.now (map (λ row. row.items) rows.now) (slice_index owners.old decided)
        (drop (decided + 1) owners.old) (drop (decided + 1) owners.new) edge) }
{
    let owner = owners[decided];
    let later = &mut owners[decided + 1..];
    let rest = place_owned(later, owner);
    let (edge, part) = choose(graph, rows, owner, decided as Colour + 1, rest)?;
    give(later, part, graph.edge_at(edge).head);
    Some(edge)
}

/// The place of the set of colours that a vertex owns.
fn place_owned(owners: &[VertexId], vertex: VertexId) -> usize
    requires { length owners.now ≤ greatest_colours }
    ensures { result ≡ place_of (owned vertex owners.now) }
{
    let mut place = 0;
    let mut bit = 1;
    for owner in owners {
        if *owner == vertex {
            place += bit;
        }
        bit *= 2;
    }
    place
}

/// Gives the colours of a part, by its place, to a vertex.
fn give(owners: &mut [VertexId], part: usize, vertex: VertexId)
    ensures { (set : List Bool) → place_of set ≡ part → length set ≡ length owners.old
        → owners.new ≡ given set vertex owners.old }
{
    let mut left = part;
    for owner in owners.iter_mut() {
        *owner = if left % 2 == 1 { vertex } else { *owner };
        left /= 2;
    }
}

/// An edge from a vertex into a colour and the place of a part of the later colours, with which the vertex reaches its
/// number; none where it reaches it without the colour.
fn choose(
    graph: &ColourGraph,
    rows: &[Vec<i64>],
    vertex: VertexId,
    colour: Colour,
    rest: usize,
) -> Option<(EdgeId, usize)>
    requires exact { IsExact graph.now (map (λ row. row.items) rows.now) }
    requires numbers { AreNumbers (map (λ row. row.items) rows.now) }
    requires graph { IsGraph graph.now }
    requires vertex { vertex < length graph.now.colours }
    requires before { colour_of graph.now vertex < colour }
    requires counted { colour ≤ colour_count graph.now }
    requires place { rest < 2 ^ (colour_count graph.now - colour) }
    ensures { (set : List Bool) → place_of set ≡ rest → colour + length set ≡ colour_count graph.now
        → MatchOption result (IsLeftOut graph.now (map (λ row. row.items) rows.now) vertex set)
        (λ found. IsChoice graph.now (map (λ row. row.items) rows.now) vertex set found.0 found.1) }
{
    let left_out = number_at(graph, rows, vertex, colour, rest);
    if left_out == number_at(graph, rows, vertex, colour - 1, 1 + 2 * rest) {
        return None;
    }
    let (first, past) = graph.edges_into(colour);
    for edge in first..past {
        if graph.edge_at(edge).tail == vertex {
            if let Some(part) = find_part(graph, rows, edge, colour, rest) {
                return Some((edge, part));
            }
        }
    }
    None
}

/// The place of a part of some colours, with which an edge reaches its tail's number for its head's colour and these.
fn find_part(
    graph: &ColourGraph,
    rows: &[Vec<i64>],
    edge: EdgeId,
    colour: Colour,
    rest: usize,
) -> Option<usize>
    requires fits { FitsGraph graph.now (map (λ row. row.items) rows.now) }
    requires numbers { AreNumbers (map (λ row. row.items) rows.now) }
    requires edge { edge < length graph.now.edges }
    requires colour { head_colour graph.now edge ≡ colour }
    requires counted { colour ≤ colour_count graph.now }
    requires place { rest < 2 ^ (colour_count graph.now - colour) }
    ensures { (set : List Bool) → place_of set ≡ rest → colour + length set ≡ colour_count graph.now
        → MatchOption result (IsMissed graph.now (map (λ row. row.items) rows.now) set edge)
        (λ part. IsChoice graph.now (map (λ row. row.items) rows.now) (edge_at graph.now edge).tail set edge part) }
{
    let Edge { tail, head, weight } = graph.edge_at(edge);
    let number = number_at(graph, rows, tail, colour - 1, 1 + 2 * rest);
    for part in 0..rest + 1 {
        if part & rest == part {
            let below = i64::from(weight) + number_at(graph, rows, head, colour, part);
            if below + number_at(graph, rows, tail, colour, rest - part) == number {
                return Some(part);
            }
        }
    }
    None
}

/// The number of a vertex for the set of the colours behind one that has a place.
fn number_at(
    graph: &ColourGraph,
    rows: &[Vec<i64>],
    vertex: VertexId,
    colour: Colour,
    place: usize,
) -> i64
    requires fits { FitsGraph graph.now (map (λ row. row.items) rows.now) }
    requires numbers { AreNumbers (map (λ row. row.items) rows.now) }
    requires vertex { vertex < length graph.now.colours }
    requires before { colour_of graph.now vertex ≤ colour }
    requires counted { colour ≤ colour_count graph.now }
    requires place { place < 2 ^ (colour_count graph.now - colour) }
    ensures number { (set : List Bool) → place_of set ≡ place → colour + length set ≡ colour_count graph.now
        → result ≡ number_of graph.now (map (λ row. row.items) rows.now) vertex set }
    ensures not_below { negsuc 999999999999999 ≤ℤ result }
    ensures not_above { result ≤ℤ pos 1000000000000000 }
{
    let step = step_of(colour - graph.colour_of(vertex));
    rows[usize::from(vertex)][step * place]
}

/// 2 to a small number: how far the places of sets of the colours behind one stand apart in the row of a vertex that
/// has so many colours more before them.
fn step_of(more: u16) -> usize
    requires { more ≤ greatest_colours }
    ensures { result ≡ 2 ^ more }
{
    1 << more
}
