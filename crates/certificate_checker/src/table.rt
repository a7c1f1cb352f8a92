//! Whether a table holds, and the first place where it fails.
ghost use Rattle.std.specs.Prelude.{◌≡◌, ◌≤◌, ◌<◌, ◌↔◌, ℤ, IfOk, MatchOption, IsTrue, length, map};
ghost use Rattle.colour_graph.specs.Graph.{IsGraph, colour_count, greatest_graph};
ghost use Rattle.tree_certificate.specs.Number.{AreNumbers};
ghost use Rattle.tree_certificate.specs.TableHolds.{FitsGraph, HasRow, greatest_colours, number_at, table_total};
ghost use Rattle.tree_certificate.specs.Value.{a_table};
ghost use Rattle.certificate_checker.specs.Places.{IsShapePlace, IsTablePlace, IsVerdict};
ghost use Rattle.certificate_checker.specs.inside.Low.{AreHigh, AreHighBefore, IsLowOfVertex};

use crate::gains::numbers_of;
use crate::low::Low;
use crate::verdict::Verdict;
use crate::vertex::{first_low_of, sets_of};
use colour_graph::{ColourGraph, VertexId};
use std::alloc::{AllocError, Global};
use tree_certificate::{GREATEST_COLOURS, Place};

/// Whether a table of these rows holds for an upper bound, or the first place where it fails.
pub(crate) fn check_table(
    alloc: Global,
    graph: &ColourGraph,
    rows: &[Vec<i64>],
    upper: i64,
) -> Result<Verdict, AllocError>
    requires vertices { length graph.now.colours ≤ greatest_graph }
    requires graph { IsGraph graph.now }
    requires numbers { AreNumbers (map (λ row. row.items) rows.now) }
    ensures { IfOk result
        (λ verdict. IsVerdict graph.now (a_table (map (λ row. row.items) rows.now)) upper verdict) }
{
    let colours = graph.colour_count();
    if colours > GREATEST_COLOURS {
        return Ok(Verdict::Fails(Place::TableColours(colours)));
    }
    if let Some(vertex) = first_misfit(graph, rows) {
        return Ok(Verdict::Fails(Place::TableShape(vertex)));
    }
    if let Some(place) = first_low(alloc, graph, rows)? {
        return Ok(Verdict::Fails(place));
    }
    let total = total_of(graph, rows);
    if total > upper {
        Ok(Verdict::Fails(Place::TableTotal(total)))
    } else {
        Ok(Verdict::Holds)
    }
}

/// The first vertex whose row is missing or has another length; the number of vertices where there are too many rows.
fn first_misfit(graph: &ColourGraph, rows: &[Vec<i64>]) -> Option<u32>
    requires vertices { length graph.now.colours ≤ greatest_graph }
    requires few { colour_count graph.now ≤ greatest_colours }
    ensures { MatchOption result (FitsGraph graph.now (map (λ row. row.items) rows.now))
        (λ vertex. IsShapePlace graph.now (map (λ row. row.items) rows.now) vertex) }
{
    let count = graph.vertex_count();
    for vertex in 0..count {
        if !has_row(graph, rows, vertex as VertexId) {
            return Some(vertex);
        }
    }
    if rows.len() > count as usize {
        Some(count)
    } else {
        None
    }
}

/// Whether the row of a vertex has a number for each set of greater colours.
fn has_row(graph: &ColourGraph, rows: &[Vec<i64>], vertex: VertexId) -> bool
    requires few { colour_count graph.now ≤ greatest_colours }
    requires vertex { vertex < length graph.now.colours }
    ensures { IsTrue result ↔ HasRow graph.now (map (λ row. row.items) rows.now) vertex }
{
    let place = usize::from(vertex);
    place < rows.len()
        && numbers_of(rows, place).len()
            == 1 << (graph.colour_count() - u32::from(graph.colour_of(vertex)))
}

/// The place of the first number that is too low, by vertex and then by place.
fn first_low(
    alloc: Global,
    graph: &ColourGraph,
    rows: &[Vec<i64>],
) -> Result<Option<Place>, AllocError>
    requires vertices { length graph.now.colours ≤ greatest_graph }
    requires fits { FitsGraph graph.now (map (λ row. row.items) rows.now) }
    requires numbers { AreNumbers (map (λ row. row.items) rows.now) }
    ensures { IfOk result (λ found. MatchOption found (AreHigh graph.now (map (λ row. row.items) rows.now))
        (λ place. (upper : ℤ) → IsTablePlace graph.now (map (λ row. row.items) rows.now) upper place)) }
{
    let sets = sets_of(graph.colour_count() as usize);
    let mut own = vec![in alloc; 0i64; sets]?;
    let mut gains = vec![in alloc; 0i64; sets]?;
    for vertex in 0..graph.vertex_count() {
        if let Some(low) = first_low_of(graph, rows, vertex as VertexId, &mut own, &mut gains) {
            return Ok(Some(place_of(graph, rows, vertex as VertexId, low)));
        }
    }
    Ok(None)
}

/// The place of the first number of a vertex that is too low.
fn place_of(graph: &ColourGraph, rows: &[Vec<i64>], vertex: VertexId, low: Low) -> Place
    requires fits { FitsGraph graph.now (map (λ row. row.items) rows.now) }
    requires vertex { vertex < length graph.now.colours }
    requires before { AreHighBefore graph.now (map (λ row. row.items) rows.now) vertex }
    requires low { IsLowOfVertex graph.now (map (λ row. row.items) rows.now) vertex low }
    ensures { (upper : ℤ) → IsTablePlace graph.now (map (λ row. row.items) rows.now) upper result }
{
    let held = numbers_of(rows, usize::from(vertex))[low.place];
    Place::TableRow(u32::from(vertex), low.place as u32, held, low.needed)
}

/// What a table says of the whole graph.
fn total_of(graph: &ColourGraph, rows: &[Vec<i64>]) -> i64
    requires graph { IsGraph graph.now }
    requires fits { FitsGraph graph.now (map (λ row. row.items) rows.now) }
    requires numbers { AreNumbers (map (λ row. row.items) rows.now) }
    ensures { result ≡ table_total graph.now (map (λ row. row.items) rows.now) }
{
    let row = numbers_of(rows, 0);
    i64::from(graph.root_score()) + row[row.len() - 1]
}
