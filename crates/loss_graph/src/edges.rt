//! The vertices and edges of a candidate's graph, put into a builder.
ghost use Rattle.std.specs.Prelude.{◌≡◌, ◌≤◌, ◌<◌, ◌*◌, ◌+ℤ◌, IfOk, length};
ghost use Rattle.std.specs.List.{All};
ghost use Rattle.colour_graph.specs.Building.{root_alone};
ghost use Rattle.colour_graph.specs.Graph.{IsScore};
ghost use Rattle.element_table.specs.Formula.{IsWithin, loss_of};
ghost use Rattle.element_table.specs.Rule.{IsNearZero};
ghost use Rattle.score_tables.specs.Scores.{greatest_single_score, loss_score_of};
ghost use Rattle.loss_graph.specs.inside.Joining.{CanJoin, colours_at, edges_below, with_edges, without_edges};

use crate::vertex::{Vertex, is_proper_part};
use colour_graph::{GraphBuilder, VertexId};
use score_tables::Scores;
use std::alloc::AllocError;

/// Adds the vertices behind the root.
pub(crate) fn add_vertices(
    builder: &mut GraphBuilder,
    vertices: &[Vertex],
) -> Result<(), AllocError>
    requires can { CanJoin vertices.now }
    requires alone { builder.old ≡ root_alone builder.old.root_score }
    ensures { IfOk result (λ _. builder.new ≡ without_edges builder.old.root_score vertices.now) }
{
    for place in 1..vertices.len() {
        builder.vertex(vertices[place].colour)?;
    }
    Ok(())
}

/// Adds the edges into a vertex, from each vertex of which it is a proper part. The head alone scores `base`.
pub(crate) fn add_edges_to(
    builder: &mut GraphBuilder,
    scores: &Scores,
    vertices: &[Vertex],
    base: i32,
    head: usize,
) -> Result<(), AllocError>
    requires can { CanJoin vertices.now }
    requires head { head < length vertices.now }
    requires near { IsNearZero (2 * greatest_single_score) base }
    requires colours { builder.old.colours ≡ colours_at vertices.now }
    requires before { All (λ edge. edge.head < head) builder.old.edges }
    ensures { IfOk result (λ _.
        builder.new ≡ with_edges builder.old (edges_below scores.now vertices.now base head head)) }
{
    for tail in 0..head {
        if is_proper_part(&vertices[head].formula, &vertices[tail].formula) {
            let weight = weight_between(scores, &vertices[tail], &vertices[head], base);
            builder.edge(tail as VertexId, head as VertexId, weight)?;
        }
    }
    Ok(())
}

/// The weight of an edge of which the head alone scores `base`.
fn weight_between(scores: &Scores, tail: &Vertex, head: &Vertex, base: i32) -> i32
    requires part { IsWithin head.now.formula tail.now.formula }
    requires near { IsNearZero (2 * greatest_single_score) base }
    ensures weight { result ≡ loss_score_of scores.now (loss_of tail.now.formula head.now.formula) +ℤ base }
    ensures near { IsScore result }
{
    scores.loss_score(&tail.formula.minus(&head.formula)) + base
}
