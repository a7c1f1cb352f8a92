//! A set of the edges of a graph from its text: words that are each taken in turn from the set of all edges. A colour,
//! a colon and an edge keep of the edges into the colour that one alone; a minus sign and an edge take that one out.
ghost use Rattle.std.specs.Prelude.{IfOk};
ghost use Rattle.colour_graph.specs.EdgeSet.{IsSetOf};

use crate::numbers::place;
use colour_graph::{Allowed, ColourGraph};
use std::alloc::{AllocError, Global};

/// The set of a text.
pub fn side_of(alloc: Global, graph: &ColourGraph, text: &str) -> Result<Allowed, AllocError>
    ensures { IfOk result (λ set. IsSetOf graph.now set) }
{
    let mut set = Allowed::all(alloc, graph)?;
    for word in text.split_whitespace() {
        set = taken_from(graph, set, word)?;
    }
    Ok(set)
}

fn taken_from(graph: &ColourGraph, set: Allowed, word: &str) -> Result<Allowed, AllocError>
    requires { IsSetOf graph.now set }
    ensures { IfOk result (λ left. IsSetOf graph.now left) }
{
    let (colour, edge) = word
        .split_once(':')
        .unwrap_or(("", word.trim_start_matches('-')));
    let (colour, edge) = (place(colour), u32::from(place(edge)));
    if edge >= graph.edge_count() {
        return Ok(set);
    }
    if colour == 0 {
        set.without(&[edge])
    } else if u32::from(colour) <= graph.colour_count() {
        set.only(graph, colour, &[edge])
    } else {
        Ok(set)
    }
}
