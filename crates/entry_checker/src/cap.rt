//! The cap of a set of edges of a graph: what the best edge into each colour adds up to.
ghost use Rattle.std.specs.Prelude.{◌≡◌, ◌≤◌, ◌<◌, IfOk, length};
ghost use Rattle.colour_graph.specs.Cap.{cap_of, greatest};
ghost use Rattle.colour_graph.specs.Colourful.{weights_of};
ghost use Rattle.colour_graph.specs.EdgeSet.{IsSetOf, all_edges, edges_into};
ghost use Rattle.colour_graph.specs.Graph.{IsScore, colour_count, greatest_graph};

use colour_graph::{Allowed, Colour, ColourGraph};
use std::alloc::{AllocError, Global};

/// The cap of all edges of a graph.
pub(crate) fn cap(alloc: Global, graph: &ColourGraph) -> Result<i64, AllocError>
    requires vertices { length graph.now.colours ≤ greatest_graph }
    ensures { IfOk result (λ cap. cap ≡ cap_of graph.now (all_edges graph.now)) }
{
    let all = Allowed::all(alloc, graph)?;
    Ok(cap_in(graph, &all))
}

/// The cap of a set of edges of a graph.
pub(crate) fn cap_in(graph: &ColourGraph, allowed: &Allowed) -> i64
    requires vertices { length graph.now.colours ≤ greatest_graph }
    requires set { IsSetOf graph.now allowed.now }
    ensures { result ≡ cap_of graph.now allowed.now }
{
    graph.is_graph();
    let mut cap = i64::from(graph.root_score());
    for before in 0..graph.colour_count() {
        cap += i64::from(greatest_into(graph, allowed, before as Colour + 1));
    }
    cap
}

/// The greatest weight of the edges of a set into a colour, or 0 where that is more.
fn greatest_into(graph: &ColourGraph, allowed: &Allowed, colour: Colour) -> i32
    requires set { IsSetOf graph.now allowed.now }
    requires not_root { 0 < colour }
    requires counted { colour ≤ colour_count graph.now }
    ensures greatest { result ≡ greatest (weights_of graph.now (edges_into graph.now allowed.now colour)) }
    ensures near { IsScore result }
{
    let (first, past) = graph.edges_into(colour);
    let mut most = 0;
    for edge in first..past {
        let here = allowed.has(edge);
        if here {
            most = most.max(graph.edge_at(edge).weight);
        }
    }
    most
}
