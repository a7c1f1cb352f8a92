//! A graph from its text: the root's score, and behind each semicolon the colour of the next vertex with the edges into
//! it, each as its tail, a colon and its weight. What no graph may have is left out.
ghost use Rattle.std.specs.Prelude.{◌≡◌, ◌≤◌, ◌<◌, ◌+◌, ◌-◌, IsTrue, OnOk, length, pos, slice_index};
ghost use Rattle.colour_graph.specs.Building.{ComesNext};
ghost use Rattle.colour_graph.specs.Graph.{greatest_vertices};

use crate::numbers::{place, score};
use colour_graph::{Colour, ColourGraph, GraphBuilder, VertexId};
use std::alloc::{AllocError, Global};
use std::str::SplitWhitespace;

/// The graph of a text.
pub fn graph_of(alloc: Global, text: &str) -> Result<ColourGraph, AllocError> {
    let (root, vertices) = text.split_once(';').unwrap_or((text, ""));
    let mut builder = GraphBuilder::new(alloc, score(root))?;
    let mut colours = Vec::new(alloc);
    colours.push(0)?;
    for vertex in vertices.split(';') {
        add_vertex(&mut builder, &mut colours, vertex)?;
    }
    Ok(builder.finish())
}

fn add_vertex(
    builder: &mut GraphBuilder,
    colours: &mut Vec<Colour>,
    text: &str,
) -> Result<(), AllocError>
    requires colours { builder.old.colours ≡ colours.old.items }
    requires some { 0 < length colours.old.items }
    requires next { ComesNext builder.old (record { tail = 0; head = length colours.old.items; weight = pos 0 }) }
    ensures colours { OnOk result (builder.new.colours ≡ colours.new.items) }
    ensures some { OnOk result (0 < length colours.new.items) }
    ensures next { OnOk result
        (ComesNext builder.new (record { tail = 0; head = length colours.new.items; weight = pos 0 })) }
{
    let mut words = text.split_whitespace();
    let colour = place(words.next().unwrap_or(""));
    if colours.len() >= 4096 || !comes_next(colours, colour) {
        return Ok(());
    }
    builder.vertex(colour)?;
    colours.push(colour)?;
    add_edges(builder, colours, words)
}

/// Whether the next vertex may have a colour.
fn comes_next(colours: &[Colour], colour: Colour) -> bool
    requires { 0 < length colours.now }
    ensures { IsTrue result → (0 < colour) × (slice_index colours.now (length colours.now - 1) ≤ colour)
        × (colour ≤ slice_index colours.now (length colours.now - 1) + 1) }
{
    let last = colours[colours.len() - 1];
    0 < colour && last <= colour && colour - last <= 1
}

/// Adds the edges of words into the last vertex.
fn add_edges(
    builder: &mut GraphBuilder,
    colours: &[Colour],
    words: SplitWhitespace<'_>,
) -> Result<(), AllocError>
    requires colours { builder.old.colours ≡ colours.now }
    requires few { length colours.now ≤ greatest_vertices }
    requires some { 0 < length colours.now }
    requires next { ComesNext builder.old (record { tail = 0; head = length colours.now - 1; weight = pos 0 }) }
    ensures colours { OnOk result (builder.new.colours ≡ colours.now) }
    ensures next { OnOk result
        (ComesNext builder.new (record { tail = 0; head = length colours.now; weight = pos 0 })) }
{
    let head = colours.len() - 1;
    let mut least = 0;
    for word in words {
        let (tail, weight) = word.split_once(':').unwrap_or((word, ""));
        let (tail, weight) = (place(tail), score(weight));
        let at = usize::from(tail);
        if least <= at && at < head && colours[at] < colours[head] {
            builder.edge(tail, head as VertexId, weight)?;
            least = at + 1;
        }
    }
    Ok(())
}
