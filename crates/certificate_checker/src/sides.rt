//! Whether a split is one, and its two sides, which are made of one set of edges and undone.
ghost use Rattle.std.specs.Prelude.{◌≡◌, ◌≤◌, ◌<◌, ◌++◌, ◌↔◌, IsTrue, MatchOption, OnOk};
ghost use Rattle.std.specs.Prelude.{drop, length, nat_eq, not, take, true};
ghost use Rattle.std.specs.List.{All};
ghost use Rattle.colour_graph.specs.EdgeSet.{IsSetOf, edges_into, is_allowed, keeping, leaving, only};
ghost use Rattle.colour_graph.specs.Graph.{colour_count, head_colour};
ghost use Rattle.tree_certificate.specs.BoundHolds.{IsSplit};
ghost use Rattle.certificate_checker.specs.BoundPlaces.{IsSplitPlace};
ghost use Rattle.certificate_checker.specs.inside.Sides.{AreRisingInto, adding};

use colour_graph::{Allowed, Colour, ColourGraph, EdgeId};
use std::alloc::AllocError;
use tree_certificate::Place;

/// The place where the split of a node fails on a set of edges, apart from its sides.
pub(crate) fn wrong_split(
    graph: &ColourGraph,
    allowed: &Allowed,
    colour: Colour,
    part: &[EdgeId],
    node: u32,
) -> Option<Place>
    requires set { IsSetOf graph.now allowed.now }
    ensures { MatchOption result (IsSplit graph.now allowed.now colour part.now)
        (λ place. IsSplitPlace graph.now allowed.now colour part.now node place) }
{
    if colour == 0 || u32::from(colour) > graph.colour_count() {
        return Some(Place::SplitColour(node, colour));
    }
    if is_split(graph, allowed, colour, part) {
        None
    } else {
        Some(Place::SplitEdges(node))
    }
}

/// Whether a part names, in rising order, some but not all of the edges of a set into a colour.
fn is_split(graph: &ColourGraph, allowed: &Allowed, colour: Colour, part: &[EdgeId]) -> bool
    requires set { IsSetOf graph.now allowed.now }
    requires not_root { 0 < colour }
    requires counted { colour ≤ colour_count graph.now }
    ensures { IsTrue result ↔ IsSplit graph.now allowed.now colour part.now }
{
    !part.is_empty()
        && are_rising_into(graph, allowed, colour, part)
        && part.len() < allowed.into_colour(graph, colour) as usize
}

/// Whether a part names edges of a set into a colour, in rising order.
fn are_rising_into(graph: &ColourGraph, allowed: &Allowed, colour: Colour, part: &[EdgeId]) -> bool
    requires set { IsSetOf graph.now allowed.now }
    requires not_root { 0 < colour }
    requires counted { colour ≤ colour_count graph.now }
    ensures { IsTrue result ↔ AreRisingInto graph.now allowed.now colour part.now }
{
    let (first, past) = graph.edges_into(colour);
    let mut least = first;
    for edge in part {
        if !is_within(allowed, *edge, least, past) {
            return false;
        }
        least = *edge + 1;
    }
    true
}

/// Whether an edge is in a set, not below one and below another.
fn is_within(allowed: &Allowed, edge: EdgeId, least: EdgeId, past: EdgeId) -> bool
    requires { past ≤ length allowed.now }
    ensures { IsTrue result ↔ ((least ≤ edge) × (edge < past) × (is_allowed allowed.now edge ≡ true)) }
{
    least <= edge && edge < past && allowed.has(edge)
}

/// Leaves a set only those of its edges into a colour that a part names; the numbers of the others are put behind those
/// that were taken out before.
pub fn keep_only(
    graph: &ColourGraph,
    allowed: &mut Allowed,
    colour: Colour,
    part: &[EdgeId],
    taken: &mut Vec<EdgeId>,
) -> Result<(), AllocError>
    requires set { IsSetOf graph.now allowed.old }
    requires split { IsSplit graph.now allowed.old colour part.now }
    ensures only { OnOk result (allowed.new ≡ only graph.now allowed.old colour part.now) }
    ensures taken { OnOk result (taken.new.items
        ≡ taken.old.items ++ edges_into graph.now (leaving allowed.old part.now) colour) }
{
    take_part(allowed, part);
    take_edges_into(graph, allowed, colour, taken)?;
    put_part(allowed, part);
    Ok(())
}

/// Takes the edges that a part names out of a set.
pub fn take_part(allowed: &mut Allowed, part: &[EdgeId])
    requires { All (λ edge. edge < length allowed.old) part.now }
    ensures { allowed.new ≡ leaving allowed.old part.now }
{
    for edge in part {
        allowed.take_out(*edge);
    }
}

/// Puts the edges that a part names into a set.
pub fn put_part(allowed: &mut Allowed, part: &[EdgeId])
    requires { All (λ edge. edge < length allowed.old) part.now }
    ensures { allowed.new ≡ adding allowed.old part.now }
{
    for edge in part {
        allowed.put(*edge);
    }
}

/// Takes the edges into a colour out of a set, and puts their numbers behind those that were taken out before.
fn take_edges_into(
    graph: &ColourGraph,
    allowed: &mut Allowed,
    colour: Colour,
    taken: &mut Vec<EdgeId>,
) -> Result<(), AllocError>
    requires set { IsSetOf graph.now allowed.old }
    requires not_root { 0 < colour }
    requires counted { colour ≤ colour_count graph.now }
    ensures left { OnOk result
        (allowed.new ≡ keeping (λ edge. not (nat_eq (head_colour graph.now edge) colour)) allowed.old) }
    ensures taken { OnOk result (taken.new.items ≡ taken.old.items ++ edges_into graph.now allowed.old colour) }
{
    let (first, past) = graph.edges_into(colour);
    for edge in first..past {
        if allowed.has(edge) {
            taken.push(edge)?;
            allowed.take_out(edge);
        }
    }
    Ok(())
}

/// Puts edges that were taken out back into a set, all but the first so many.
pub fn give_back(allowed: &mut Allowed, taken: &mut Vec<EdgeId>, before: usize)
    requires before { before ≤ length taken.old.items }
    requires in_range { All (λ edge. edge < length allowed.old) (drop before taken.old.items) }
    ensures given { allowed.new ≡ adding allowed.old (drop before taken.old.items) }
    ensures left { taken.new.items ≡ take before taken.old.items }
{
    put_part(allowed, &taken[before..]);
    taken.truncate(before);
}
