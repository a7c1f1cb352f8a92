//! The search.
ghost use Rattle.std.specs.Prelude.{◌≡◌, ◌≤◌, ◌<◌, ◌≤ℤ◌, ◌<ℤ◌, IfOk, length};
ghost use Rattle.std.specs.List.{AllPairs};
ghost use Rattle.colour_graph.specs.Cap.{cap_of};
ghost use Rattle.colour_graph.specs.Colourful.{IsColourful, score_of};
ghost use Rattle.colour_graph.specs.EdgeSet.{all_edges};
ghost use Rattle.colour_graph.specs.Graph.{colour_count, greatest_graph};
ghost use Rattle.colour_graph.specs.Maximal.{IsMaximal};
ghost use Rattle.tree_certificate.specs.BoundHolds.{BoundHolds, depth_of, greatest_depth, splits_of};
ghost use Rattle.tree_certificate.specs.BoundView.{bound_value};
ghost use Rattle.tree_certificate.specs.Spent.{Spent};
ghost use Rattle.branch_search.specs.Limits.{greatest_budget, greatest_search_colours};
ghost use Rattle.branch_search.specs.Room.{enough_splits};

use crate::bounder::Bounder;
use crate::growing::{Node, bound_from, grown};
use crate::leaves::own_leaf;
use colour_graph::{Allowed, ColourGraph, EdgeId};
use std::alloc::{AllocError, Global};
use tree_certificate::{Bound, a_bound_that_holds_bounds_every_tree};

/// A search is of a graph with at most so many colours beside the root's.
pub const GREATEST_SEARCH_COLOURS: u32 = 64;

/// A search makes at most so many splits.
pub const GREATEST_BUDGET: u32 = 10_000;

/// What a search found: a tree, as the numbers of its edges in rising order, and a bound that holds on all edges for an
/// upper bound, in units of scores.
#[derive(Debug, Drop)]
pub struct Found {
    pub tree: Vec<EdgeId>,
    pub bound: Bound,
    pub upper: i64,
}

/// A tree to which no edge can be added with gain, and a bound by splits and prices that no tree of the graph
/// outscores. The search splits the set of greatest bound first, by half of its edges into a colour, until that bound
/// is the tree's score or the budget of splits is spent. Where the upper bound is above the score, no split was
/// wasted. The graph has at most `GREATEST_SEARCH_COLOURS` colours and `GREATEST_GRAPH` vertices, and the budget is at
/// most `GREATEST_BUDGET`. The error is want of memory.
pub fn search(
    alloc: Global,
    graph: &ColourGraph,
    bounder: &Bounder,
    budget: u32,
) -> Result<Found, AllocError>
    requires colours { colour_count graph.now ≤ greatest_search_colours }
    requires vertices { length graph.now.colours ≤ greatest_graph }
    requires budget { budget ≤ greatest_budget }
    ensures colourful { IfOk result (λ found. IsColourful graph.now found.tree.items) }
    ensures rising { IfOk result (λ found. AllPairs (λ edge later. edge < later) found.tree.items) }
    ensures maximal { IfOk result (λ found. IsMaximal graph.now found.tree.items) }
    ensures holds { IfOk result (λ found.
        BoundHolds graph.now (all_edges graph.now) (bound_value found.bound) found.upper) }
    ensures few_splits { IfOk result (λ found. splits_of (bound_value found.bound) ≤ budget) }
    ensures shallow { IfOk result (λ found. depth_of (bound_value found.bound) ≤ greatest_depth) }
    ensures not_below { IfOk result (λ found. score_of graph.now found.tree.items ≤ℤ found.upper) }
    ensures capped { IfOk result (λ found. found.upper ≤ℤ cap_of graph.now (all_edges graph.now)) }
    ensures spent { IfOk result (λ found. score_of graph.now found.tree.items <ℤ found.upper
        → Spent graph.now (bound_value found.bound) (score_of graph.now found.tree.items) found.upper budget) }
    ensures enough { IfOk result (λ found. enough_splits graph.now ≤ budget
        → found.upper ≡ score_of graph.now found.tree.items) }
{
    a_bound_that_holds_bounds_every_tree();
    graph.is_graph();
    let all = Allowed::all(alloc, graph)?;
    let (first, mut best) = own_leaf(alloc, graph, bounder, &all)?;
    let mut node = Node::Leaf(first.cert, first.total);
    let mut made = 0;
    while made < budget && best.score < node.total() {
        let set = Allowed::all(alloc, graph)?;
        node = grown(alloc, graph, bounder, node, set, &mut best)?;
        made += 1;
    }
    let upper = node.total();
    let bound = bound_from(alloc, node)?;
    Ok(Found {
        tree: best.edges,
        bound,
        upper,
    })
}
