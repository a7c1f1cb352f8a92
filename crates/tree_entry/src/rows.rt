//! The rows of a tree, from its edges.
ghost use Rattle.std.specs.Prelude.{◌≡◌, ◌≢◌, ◌≤◌, ◌<◌, ◌+◌, ◌-◌, ◌++◌, ◌∷◌, ◌⊎◌, ℕ, [], IfOk, length};
ghost use Rattle.std.specs.List.{All, AllPairs};
ghost use Rattle.tree_entry.specs.Rows.{AreRows, IsParent, IsRow, edges_of, head_of, row_at};
ghost use Rattle.colour_graph.specs.Colourful.{IsColourful};
ghost use Rattle.colour_graph.specs.Graph.{edge_at, greatest_graph};

use colour_graph::{EdgeId, VertexId};
use loss_graph::LossGraph;
use std::alloc::{AllocError, Global};
use tree_document::TreeRow;

/// The rows of a colourful tree with these edges, which rise.
pub fn tree_rows(
    alloc: Global,
    built: &LossGraph,
    edges: &[EdgeId],
) -> Result<Vec<TreeRow>, AllocError>
    requires colourful { IsColourful built.now.graph edges.now }
    requires rising { AllPairs (λ edge later. edge < later) edges.now }
    requires few { length edges.now ≤ greatest_graph }
    ensures rows { IfOk result (λ rows. AreRows built.now rows.items) }
    ensures edges { IfOk result (λ rows. edges_of rows.items ≡ edges.now) }
{
    built.graph.is_graph();
    let mut rows = Vec::new(alloc);
    for edge in edges {
        let row = row_of(built, &rows, *edge);
        rows.push(row)?;
    }
    Ok(rows)
}

/// The row of an edge behind other rows.
fn row_of(built: &LossGraph, rows: &[TreeRow], edge: EdgeId) -> TreeRow
    requires edge { edge < length built.now.graph.edges }
    requires others { All (λ row. row.edge < length built.now.graph.edges) rows.now }
    requires few { length rows.now < greatest_graph }
    requires rises { 0 < length rows.now → (row_at rows.now (length rows.now - 1)).edge < edge }
    requires reached { ((edge_at built.now.graph edge).tail ≡ 0)
        ⊎ ((row : ℕ) × (row < length rows.now)
        × (head_of built.now.graph rows.now row ≡ (edge_at built.now.graph edge).tail)) }
    ensures row { IsRow built.now (rows.now ++ result ∷ []) (length rows.now) }
    ensures edge { result.edge ≡ edge }
{
    let here = built.graph.edge_at(edge);
    let colour = built.graph.colour_of(here.head);
    let formulas = built.formulas.items();
    let formula = formulas[usize::from(here.head)];
    let loss = formulas[usize::from(here.tail)].minus(&formula);
    TreeRow {
        edge,
        parent: parent_of(built, rows, here.tail),
        peak: built.peaks.items()[usize::from(colour) - 1],
        formula,
        loss,
        weight: here.weight,
    }
}

/// The number of the row whose edge goes to a vertex, from 1, or 0 for the root.
fn parent_of(built: &LossGraph, rows: &[TreeRow], vertex: VertexId) -> u16
    requires others { All (λ row. row.edge < length built.now.graph.edges) rows.now }
    requires few { length rows.now < greatest_graph }
    requires reached { (vertex ≡ 0)
        ⊎ ((row : ℕ) × (row < length rows.now) × (head_of built.now.graph rows.now row ≡ vertex)) }
    ensures { IsParent built.now.graph rows.now (length rows.now) vertex result }
{
    if vertex == 0 {
        return 0;
    }
    let mut row = 0;
    while row < rows.len() && built.graph.edge_at(rows[row].edge).head != vertex {
        row += 1;
    }
    row as u16 + 1
}
