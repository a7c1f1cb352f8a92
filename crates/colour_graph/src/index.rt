//! The index of a graph: for each colour, how many edges go to it or to smaller colours.
ghost use Rattle.std.specs.Prelude.{◌≡◌, ◌≤◌, ◌<◌, ◌^◌, ℕ, length};
ghost use Rattle.colour_graph.specs.inside.Index.{CanIndex, EndsAt, IsIndex, head_colour_at};

use crate::edge::{Colour, Edge};

/// Writes for each colour how many edges go to it or to smaller colours.
pub(crate) fn index_of(colours: &[Colour], edges: &[Edge], mut ends: Vec<u32>) -> Vec<u32>
    requires order { CanIndex colours.now edges.now }
    requires few { length edges.now < 2 ^ 32 }
    ensures index { IsIndex colours.now edges.now result.items }
    ensures colours { length result.items ≡ length ends.items }
{
    let mut past = 0;
    for colour in 0..ends.len() {
        past = past_colour(colours, edges, past, colour);
        ends[colour] = past as u32;
    }
    ends
}

/// The first edge that goes to a greater colour than this one, where those before a place do not.
fn past_colour(colours: &[Colour], edges: &[Edge], from: usize, colour: usize) -> usize
    requires order { CanIndex colours.now edges.now }
    requires within { from ≤ length edges.now }
    requires before { (edge : ℕ) → edge < from → head_colour_at colours.now edges.now edge ≤ colour }
    ensures { EndsAt colours.now edges.now colour result }
{
    let mut past = from;
    while past < edges.len() && usize::from(colours[usize::from(edges[past].head)]) <= colour {
        past += 1;
    }
    past
}
