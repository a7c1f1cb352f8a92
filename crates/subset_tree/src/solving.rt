//! A best tree of a graph, and its table.
ghost use Rattle.std.specs.Prelude.{◌≤◌, ◌<◌, ◌≤ℤ◌, IfOk, length};
ghost use Rattle.std.specs.List.{AllPairs};
ghost use Rattle.colour_graph.specs.Bounded.{IsBest};
ghost use Rattle.colour_graph.specs.Cap.{cap_of};
ghost use Rattle.colour_graph.specs.Colourful.{score_of};
ghost use Rattle.colour_graph.specs.EdgeSet.{all_edges};
ghost use Rattle.colour_graph.specs.Graph.{colour_count, greatest_graph};
ghost use Rattle.colour_graph.specs.Maximal.{IsMaximal};
ghost use Rattle.tree_certificate.specs.TableHolds.{TableHolds, greatest_colours};

use crate::rebuilding::read_tree;
use crate::table::fill_table;
use colour_graph::{ColourGraph, EdgeId, a_best_list_is_maximal};
use std::alloc::{AllocError, Global};
use tree_certificate::{TableCert, the_cap_bounds_every_tree, what_holds_bounds_every_tree};

/// A colourful tree that no colourful tree outscores, as the numbers of its edges in rising order; and the table that
/// holds with its score as upper bound. The graph has at most `GREATEST_COLOURS` colours and `GREATEST_GRAPH` vertices.
pub fn solve_small(
    alloc: Global,
    graph: &ColourGraph,
) -> Result<(Vec<EdgeId>, TableCert), AllocError>
    requires colours { colour_count graph.now ≤ greatest_colours }
    requires vertices { length graph.now.colours ≤ greatest_graph }
    ensures best { IfOk result (λ found. IsBest graph.now found.0.items) }
    ensures few { IfOk result (λ found. length found.0.items ≤ greatest_colours) }
    ensures rising { IfOk result (λ found. AllPairs (λ edge later. edge < later) found.0.items) }
    ensures holds { IfOk result (λ found. TableHolds graph.now found.1 (score_of graph.now found.0.items)) }
    ensures maximal { IfOk result (λ found. IsMaximal graph.now found.0.items) }
    ensures capped { IfOk result (λ found.
        score_of graph.now found.0.items ≤ℤ cap_of graph.now (all_edges graph.now)) }
{
    what_holds_bounds_every_tree();
    the_cap_bounds_every_tree();
    a_best_list_is_maximal();
    graph.is_graph();
    let rows = fill_table(alloc, graph)?;
    let edges = read_tree(alloc, graph, &rows)?;
    Ok((edges, TableCert::new(rows).unwrap()))
}
