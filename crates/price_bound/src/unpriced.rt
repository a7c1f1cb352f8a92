//! The least potentials for prices of 0.
ghost use Rattle.std.specs.Prelude.{◌≡◌, ◌≤◌, ◌⊎◌, IfOk, length};
ghost use Rattle.colour_graph.specs.EdgeSet.{IsSetOf};
ghost use Rattle.colour_graph.specs.Graph.{colour_count, greatest_graph};
ghost use Rattle.price_bound.specs.Plain.{IsPlain, IsTreeScore};
ghost use Rattle.tree_certificate.specs.BoundHolds.{IsDecided};
ghost use Rattle.tree_certificate.specs.PriceHolds.{PriceHolds, price_total};
ghost use Rattle.tree_certificate.specs.TableHolds.{greatest_colours};

use crate::exact::set_potentials;
use colour_graph::{Allowed, ColourGraph};
use std::alloc::{AllocError, Global};
use tree_certificate::PriceCert;

/// Prices of 0 and the least potentials for them, on a set of edges of a graph of at most `GREATEST_GRAPH` vertices.
/// The graph has at most `GREATEST_COLOURS` colours, or the set at most one edge into each of them. They hold on the
/// set; and where it has at most one edge into each colour, what they say of the whole graph is the score of one of its
/// trees. The error is want of memory.
pub fn plain(alloc: Global, graph: &ColourGraph, allowed: &Allowed) -> Result<PriceCert, AllocError>
    requires vertices { length graph.now.colours ≤ greatest_graph }
    requires set { IsSetOf graph.now allowed.now }
    requires few { (colour_count graph.now ≤ greatest_colours) ⊎ IsDecided graph.now allowed.now }
    ensures plain { IfOk result (λ cert. IsPlain graph.now allowed.now cert) }
    ensures holds { IfOk result (λ cert. PriceHolds graph.now allowed.now cert) }
    ensures tree { IsDecided graph.now allowed.now
        → IfOk result (λ cert. IsTreeScore graph.now allowed.now (price_total graph.now cert)) }
{
    graph.is_graph();
    let vertices = graph.vertex_count() as usize;
    let prices = vec![in alloc; 0i64; graph.colour_count() as usize]?;
    let mut potentials = vec![in alloc; 0i64; vertices]?;
    let mut gains = vec![in alloc; 0i64; vertices]?;
    // no potential is too great: each of few colours at most doubles them, and a decided set has few edges
    let _low = set_potentials(graph, allowed, &prices, &mut potentials, &mut gains);
    Ok(PriceCert::new(prices, potentials).unwrap())
}
