//! Best trees of graphs, and what prices say of sets of their edges.
ghost use Rattle.std.specs.Prelude.{◌≤◌, length};
ghost use Rattle.colour_graph.specs.Graph.{greatest_graph};

use crate::side_text::side_of;
use colour_graph::ColourGraph;
use price_bound::{bound_of, improve, plain};
use std::io;
use subset_tree::solve_small;
use tree_certificate::GREATEST_COLOURS;

/// Prints the edges of a best tree, its score, and the rows of the table.
pub fn solve(rt: &HostRuntime, graph: &ColourGraph) -> io::Result<()>
    requires { length graph.now.colours ≤ greatest_graph }
{
    if graph.colour_count() > GREATEST_COLOURS {
        return println!(rt; "  too many colours");
    }
    let (edges, table) = solve_small(rt.alloc(), graph)?;
    let score = graph.tree_score(&edges);
    println!(rt; "  {:?} {score}", edges.as_slice())?;
    for row in table.rows() {
        println!(rt; "  {:?}", row.as_slice())?;
    }
    Ok(())
}

/// Prints how many edges of a set go to each colour.
pub fn count(rt: &HostRuntime, graph: &ColourGraph, side: &str) -> io::Result<()> {
    let set = side_of(rt.alloc(), graph, side)?;
    for colour in 1..=GREATEST_COLOURS as u16 {
        if u32::from(colour) <= graph.colour_count() {
            let count = set.into_colour(graph, colour);
            println!(rt; "  {count}")?;
        }
    }
    Ok(())
}

/// Prints what improved prices say of a set of edges; and for prices of 0 the potentials, and what they say.
pub fn bound(rt: &HostRuntime, graph: &ColourGraph, side: &str) -> io::Result<()>
    requires { length graph.now.colours ≤ greatest_graph }
{
    if graph.colour_count() > GREATEST_COLOURS {
        return println!(rt; "  too many colours");
    }
    let set = side_of(rt.alloc(), graph, side)?;
    let improved = improve(rt.alloc(), graph, &set)?;
    println!(rt; "  {}", bound_of(graph, &improved))?;
    let unpriced = plain(rt.alloc(), graph, &set)?;
    let total = bound_of(graph, &unpriced);
    println!(rt; "  {:?} {total}", unpriced.potentials())
}
