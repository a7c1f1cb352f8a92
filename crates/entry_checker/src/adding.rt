//! Which edges could be added to a tree with gain.
ghost use Rattle.std.specs.Prelude.{◌≡◌, ◌≤◌, ◌<◌, ◌↔◌, ◌<ℤ◌, ℕ, List, pos, false, true, IsTrue, MatchOption, length, replicate};
ghost use Rattle.std.specs.List.{All};
ghost use Rattle.colour_graph.specs.Graph.{greatest_graph};
ghost use Rattle.colour_graph.specs.Maximal.{IsMaximal};
ghost use Rattle.entry_checker.specs.EntryPlaces.{CanBeAdded, IsAddedPlace};
ghost use Rattle.entry_checker.specs.inside.Marks.{AreMarks, is_marked};

use colour_graph::{Colour, ColourGraph, Edge, EdgeId, GREATEST_GRAPH};

/// The least edge that could be added to a list of edges with gain, by one pass over the graph.
pub(crate) fn first_added(graph: &ColourGraph, edges: &[EdgeId]) -> Option<EdgeId>
    requires vertices { length graph.now.colours ≤ greatest_graph }
    requires in_range { All (λ edge. edge < length graph.now.edges) edges.now }
    ensures { MatchOption result (IsMaximal graph.now edges.now) (λ edge. IsAddedPlace graph.now edges.now edge) }
{
    let mut reached = [false; GREATEST_GRAPH as usize];
    let mut taken = [false; GREATEST_GRAPH as usize];
    mark_heads(graph, edges, &mut reached, &mut taken);
    for edge in 0..graph.edge_count() {
        if can_be_added(graph, edge, &reached, &taken) {
            return Some(edge);
        }
    }
    None
}

/// Marks the root and the heads of edges, and the heads' colours.
fn mark_heads(graph: &ColourGraph, edges: &[EdgeId], reached: &mut [bool], taken: &mut [bool])
    requires in_range { All (λ edge. edge < length graph.now.edges) edges.now }
    requires vertices { length graph.now.colours ≤ length reached.old }
    requires colours { length graph.now.colours ≤ length taken.old }
    requires clear { reached.old ≡ replicate (length reached.old) false }
    requires untaken { taken.old ≡ replicate (length taken.old) false }
    ensures marks { AreMarks graph.now edges.now reached.new taken.new }
    ensures length { (length reached.new ≡ length reached.old) × (length taken.new ≡ length taken.old) }
{
    graph.is_graph();
    reached[0] = true;
    for edge in edges {
        let head = graph.edge_at(*edge).head;
        reached[usize::from(head)] = true;
        taken[usize::from(graph.colour_of(head))] = true;
    }
}

/// Whether an edge gains where these vertices are reached and these colours are taken.
fn can_be_added(graph: &ColourGraph, edge: EdgeId, reached: &[bool], taken: &[bool]) -> bool
    requires edge { edge < length graph.now.edges }
    requires vertices { length graph.now.colours ≤ length reached.now }
    requires colours { length graph.now.colours ≤ length taken.now }
    ensures { (edges : List ℕ) → AreMarks graph.now edges reached.now taken.now
        → IsTrue result ↔ CanBeAdded graph.now edges edge }
{
    graph.is_graph();
    let edge = graph.edge_at(edge);
    adds(edge, graph.colour_of(edge.head), reached, taken)
}

/// Whether an edge to a colour gains where these vertices are reached and these colours are taken.
fn adds(edge: Edge, colour: Colour, reached: &[bool], taken: &[bool]) -> bool
    requires vertex { edge.tail < length reached.now }
    requires colour { colour < length taken.now }
    ensures { IsTrue result ↔ ((is_marked reached.now edge.tail ≡ true) × (is_marked taken.now colour ≡ false)
        × (pos 0 <ℤ edge.weight)) }
{
    edge.weight > 0 && reached[usize::from(edge.tail)] && !taken[usize::from(colour)]
}
