//! Whether the rows of a tree are those of its graph.
ghost use Rattle.std.specs.Prelude.{◌≡◌, ◌≤◌, ◌<◌, ◌+◌, ◌-◌, ◌↔◌, IsTrue, MatchOption, length};
ghost use Rattle.colour_graph.specs.Graph.{greatest_graph};
ghost use Rattle.entry_checker.specs.EntryPlaces.{IsRowsPlace};
ghost use Rattle.tree_entry.specs.Rows.{AreRows, IsRow, row_at};
ghost use Rattle.entry_checker.specs.inside.Firsts.{AreFirsts, IsParentBy, TellsEdge};

use colour_graph::{ColourGraph, GREATEST_GRAPH, VertexId};
use loss_graph::LossGraph;
use tree_document::TreeRow;

/// The number, from 1, of the first row that is not the graph's. One pass keeps the first row of each vertex, so that
/// parents are not searched for.
pub(crate) fn first_wrong_row(built: &LossGraph, rows: &[TreeRow]) -> Option<u32>
    requires vertices { length built.now.graph.colours ≤ greatest_graph }
    ensures { MatchOption result (AreRows built.now rows.now) (λ number. IsRowsPlace built.now rows.now number) }
{
    built.graph.is_graph();
    let mut firsts = [0u32; GREATEST_GRAPH as usize];
    for place in 0..rows.len() {
        if !is_row(built, rows, place, &firsts) {
            return Some(place as u32 + 1);
        }
        note_row(&built.graph, rows, place, &mut firsts);
    }
    None
}

/// Whether a row is the graph's, by the first rows of vertices before it.
fn is_row(built: &LossGraph, rows: &[TreeRow], place: usize, firsts: &[u32]) -> bool
    requires vertices { length built.now.graph.colours ≤ length firsts.now }
    requires place { place < length rows.now }
    requires firsts { AreFirsts built.now.graph rows.now place firsts.now }
    ensures { IsTrue result ↔ IsRow built.now rows.now place }
{
    let row = rows[place];
    if row.edge >= built.graph.edge_count() {
        return false;
    }
    let tail = built.graph.edge_at(row.edge).tail;
    rises(rows, place) && is_parent(firsts, tail, row.parent) && tells_edge(built, &row)
}

/// Whether a row's edge is greater than that of the row before it, if there is one.
fn rises(rows: &[TreeRow], place: usize) -> bool
    requires { place < length rows.now }
    ensures { IsTrue result ↔ (0 < place → (row_at rows.now (place - 1)).edge < (row_at rows.now place).edge) }
{
    place == 0 || rows[place - 1].edge < rows[place].edge
}

/// Whether a row's parent is the root, or the first row of the vertex where its edge begins.
fn is_parent(firsts: &[u32], tail: VertexId, parent: u16) -> bool
    requires { tail < length firsts.now }
    ensures { IsTrue result ↔ IsParentBy firsts.now tail parent }
{
    if tail == 0 {
        parent == 0
    } else {
        parent != 0 && firsts[usize::from(tail)] == u32::from(parent)
    }
}

/// Whether a row has the peak, the formula, the loss and the weight that its edge has in the graph.
fn tells_edge(built: &LossGraph, row: &TreeRow) -> bool
    requires { row.now.edge < length built.now.graph.edges }
    ensures { IsTrue result ↔ TellsEdge built.now row.now }
{
    built.is_loss_graph();
    let edge = built.graph.edge_at(row.edge);
    let colour = built.graph.colour_of(edge.head);
    let formulas = built.formulas.items();
    let formula = formulas[usize::from(edge.head)];
    let loss = formulas[usize::from(edge.tail)].minus(&formula);
    row.peak == built.peaks.items()[usize::from(colour) - 1]
        && row.formula == formula
        && row.loss == loss
        && row.weight == edge.weight
}

/// Notes a row as the first of the vertex to which its edge goes, where no row before it is.
fn note_row(graph: &ColourGraph, rows: &[TreeRow], place: usize, firsts: &mut [u32])
    requires vertices { length graph.now.colours ≤ length firsts.old }
    requires in_rows { place < length rows.now }
    requires few { place < length graph.now.edges }
    requires edge { (row_at rows.now place).edge < length graph.now.edges }
    requires firsts { AreFirsts graph.now rows.now place firsts.old }
    ensures firsts { AreFirsts graph.now rows.now (place + 1) firsts.new }
    ensures length { length firsts.new ≡ length firsts.old }
{
    graph.is_graph();
    let head = usize::from(graph.edge_at(rows[place].edge).head);
    if firsts[head] == 0 {
        firsts[head] = place as u32 + 1;
    }
}
