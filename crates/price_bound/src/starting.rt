//! The prices that an improvement starts from: the best edge into each colour.
ghost use Rattle.std.specs.Prelude.{◌≡◌, ◌≤◌, ◌<◌, ◌≤ℤ◌, IfOk, pos};
ghost use Rattle.colour_graph.specs.EdgeSet.{IsSetOf};
ghost use Rattle.colour_graph.specs.Graph.{IsScore, colour_count};
ghost use Rattle.price_bound.specs.inside.Exact.{AreAmounts};
ghost use Rattle.price_bound.specs.inside.Kept.{best_into, best_weights};

use colour_graph::{Allowed, Colour, ColourGraph};
use std::alloc::{AllocError, Global};

/// For each colour the greatest weight of the edges of a set into it, or 0 where that is more.
pub(crate) fn greatest_weights(
    alloc: Global,
    graph: &ColourGraph,
    allowed: &Allowed,
) -> Result<Vec<i64>, AllocError>
    requires set { IsSetOf graph.now allowed.now }
    ensures weights { IfOk result (λ weights. weights.items ≡ best_weights graph.now allowed.now) }
    ensures amounts { IfOk result (λ weights. AreAmounts weights.items) }
{
    graph.is_graph();
    let mut weights = Vec::new(alloc);
    for before in 0..graph.colour_count() {
        let weight = greatest_into(graph, allowed, before as Colour + 1);
        weights.push(i64::from(weight))?;
    }
    Ok(weights)
}

/// The greatest weight of the edges of a set into a colour, or 0 where that is more.
fn greatest_into(graph: &ColourGraph, allowed: &Allowed, colour: Colour) -> i32
    requires set { IsSetOf graph.now allowed.now }
    requires not_root { 0 < colour }
    requires counted { colour ≤ colour_count graph.now }
    ensures greatest { result ≡ best_into graph.now allowed.now colour }
    ensures near { IsScore result }
    ensures not_below { pos 0 ≤ℤ result }
{
    let (first, past) = graph.edges_into(colour);
    let mut most = 0;
    for edge in first..past {
        if allowed.has(edge) {
            most = most.max(graph.edge_at(edge).weight);
        }
    }
    most
}
