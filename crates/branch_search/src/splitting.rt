//! Which colour a set of edges is split by, and the half of its edges that a split names.
ghost use Rattle.std.specs.Prelude.{◌≡◌, ◌≤◌, ◌<◌, IfOk, MatchOption, length};
ghost use Rattle.std.specs.List.{All, AllPairs, Contains};
ghost use Rattle.colour_graph.specs.EdgeSet.{IsSetOf, edges_into};
ghost use Rattle.colour_graph.specs.Graph.{colour_count};
ghost use Rattle.tree_certificate.specs.BoundHolds.{IsDecided};
ghost use Rattle.branch_search.specs.inside.Growing.{IsHalf};

use colour_graph::{Allowed, Colour, ColourGraph, EdgeId};
use std::alloc::{AllocError, Global};

/// The least colour with two edges of a set, or none where the set has at most one edge into each colour.
pub(crate) fn open_colour(graph: &ColourGraph, allowed: &Allowed) -> Option<Colour>
    requires set { IsSetOf graph.now allowed.now }
    ensures { MatchOption result (IsDecided graph.now allowed.now)
        (λ colour. (1 ≤ colour) × (colour ≤ colour_count graph.now)
        × (2 ≤ length (edges_into graph.now allowed.now colour))) }
{
    graph.is_graph();
    let mut colour = 0;
    while u32::from(colour) < graph.colour_count() {
        colour += 1;
        if allowed.into_colour(graph, colour) > 1 {
            return Some(colour);
        }
    }
    None
}

/// The first half of the edges of a set into a colour.
pub(crate) fn half_of(
    alloc: Global,
    graph: &ColourGraph,
    allowed: &Allowed,
    colour: Colour,
) -> Result<Vec<EdgeId>, AllocError>
    requires set { IsSetOf graph.now allowed.now }
    requires colour { (1 ≤ colour) × (colour ≤ colour_count graph.now) }
    requires open { 2 ≤ length (edges_into graph.now allowed.now colour) }
    ensures { IfOk result (λ part. IsHalf graph.now allowed.now colour part.items) }
{
    graph.is_graph();
    let count = allowed.into_colour(graph, colour) / 2;
    let (first, past) = graph.edges_into(colour);
    let mut part = Vec::new(alloc);
    for place in first..past {
        if part.len() < count as usize && allowed.has(place) {
            part.push(place)?;
        }
    }
    Ok(part)
}
