//! Gaps of trees whose edges all go from the root, in graphs of carbon: vertex `n` has `n` atoms less than the root,
//! which has 14, and the colour of a vertex is the number of its list.
ghost use Rattle.std.specs.Prelude.{◌≡◌, ◌≤◌, ◌<◌, [], IfOk, IsTrue, length, slice_index_or};
ghost use Rattle.std.specs.List.{All};
ghost use Rattle.colour_graph.specs.Graph.{greatest_graph};
ghost use Rattle.element_table.specs.Formula.{IsProperPart};
ghost use Rattle.tree_certificate.specs.BoundHolds.{depth_of, splits_of};
ghost use Rattle.tree_certificate.specs.BoundView.{bound_value};

use crate::certificates::{prices_of, split_of};
use crate::numbers::{number, place};
use colour_graph::{ColourGraph, EdgeId, GREATEST_GRAPH};
use element_table::{Formula, Formulas};
use entry_checker::check_entry;
use loss_graph::{LossGraph, PeakNumbers};
use std::alloc::{AllocError, Global};
use std::io;
use tree_certificate::{Bound, Cert};
use tree_document::{Mark, Tree, TreeRow, TreeRows};

/// Prints what is said of a tree with a gap. The case has its score, its upper bound and the budget; the edges of the
/// tree; and one leaf, or a split and its two leaves.
pub fn gap(rt: &HostRuntime, graph: ColourGraph, case: &str) -> io::Result<()> {
    let (numbers, rest) = case.split_once('|').unwrap_or((case, ""));
    let (edges, cert) = rest.split_once('|').unwrap_or((rest, ""));
    let rows = rows_of(rt.alloc(), &graph, edges)?;
    match carbon_graph(rt.alloc(), graph)? {
        Some(built) => tell(rt, &built, numbers, rows, cert),
        None => println!(rt; "  no such graph"),
    }
}

fn tell(
    rt: &HostRuntime,
    built: &LossGraph,
    numbers: &str,
    rows: Vec<TreeRow>,
    cert: &str,
) -> io::Result<()> {
    if built.graph.vertex_count() > GREATEST_GRAPH {
        return println!(rt; "  too large");
    }
    match bound_of(rt.alloc(), cert)? {
        Some(bound) => tell_of(rt, built, numbers, rows, bound),
        None => println!(rt; "  no prices"),
    }
}

fn tell_of(
    rt: &HostRuntime,
    built: &LossGraph,
    numbers: &str,
    rows: Vec<TreeRow>,
    bound: Bound,
) -> io::Result<()>
    requires vertices { length built.now.graph.colours ≤ greatest_graph }
    requires depth { depth_of (bound_value bound) ≤ 1 }
    requires splits { splits_of (bound_value bound) ≤ 1 }
{
    let (score, rest) = numbers.split_once(' ').unwrap_or((numbers, ""));
    let (upper, budget) = rest.split_once(' ').unwrap_or((rest, ""));
    let tree = Tree {
        score: number(score),
        upper: number(upper),
        mark: Mark::Gap,
        rows: TreeRows::of(rows),
        cert: Cert::Bounds(bound),
    };
    let verdict = check_entry(rt.alloc(), built, &tree, u32::from(place(budget)))?;
    println!(rt; "  {verdict:?}")
}

/// The rows of edges that go from the root.
fn rows_of(alloc: Global, graph: &ColourGraph, text: &str) -> Result<Vec<TreeRow>, AllocError> {
    let mut rows = Vec::new(alloc);
    for word in text.split_whitespace() {
        let edge = u32::from(place(word));
        if edge < graph.edge_count() {
            rows.push(row_of(graph, edge))?;
        }
    }
    Ok(rows)
}

fn row_of(graph: &ColourGraph, edge: EdgeId) -> TreeRow
    requires { edge < length graph.now.edges }
{
    let here = graph.edge_at(edge);
    TreeRow {
        edge,
        parent: 0,
        peak: graph.colour_of(here.head),
        formula: carbon(14u16.saturating_sub(here.head)),
        loss: carbon(here.head),
        weight: here.weight,
    }
}

/// So many atoms of carbon, at most 14.
fn carbon(atoms: u16) -> Formula {
    Formula::empty().with(1, atoms.min(14))
}

/// A graph with the formulas of its vertices; none where a head has no fewer atoms than its tail.
fn carbon_graph(alloc: Global, graph: ColourGraph) -> Result<Option<LossGraph>, AllocError> {
    let mut formulas = Vec::new(alloc);
    for atoms in (1..15u16).rev() {
        formulas.push(carbon(atoms))?;
    }
    let mut peaks = Vec::new(alloc);
    for number in 1..14u16 {
        peaks.push(number)?;
    }
    let fits = formulas.len() == graph.vertex_count() as usize
        && peaks.len() == graph.colour_count() as usize;
    if !fits || !are_parts(&graph, &formulas) {
        return Ok(None);
    }
    Ok(Some(LossGraph {
        graph,
        formulas: Formulas::of(formulas),
        peaks: PeakNumbers::of(peaks),
    }))
}

/// Whether the formula of each edge's head is a proper part of its tail's.
fn are_parts(graph: &ColourGraph, formulas: &[Formula]) -> bool
    requires { length formulas.now ≡ length graph.now.colours }
    ensures { IsTrue result → All (λ edge. IsProperPart (slice_index_or formulas.now edge.head [])
        (slice_index_or formulas.now edge.tail [])) graph.now.edges }
{
    for place in 0..graph.edge_count() {
        let edge = graph.edge_at(place);
        let head = formulas[usize::from(edge.head)];
        let tail = formulas[usize::from(edge.tail)];
        if !head.within(&tail) || head == tail {
            return false;
        }
    }
    true
}

/// A leaf, or a split and its two leaves.
fn bound_of(alloc: Global, text: &str) -> Result<Option<Bound>, AllocError>
    ensures depth { IfOk result (λ found. (bound : Bound) → found ≡ Some bound → depth_of (bound_value bound) ≤ 1) }
    ensures splits { IfOk result (λ found. (bound : Bound) → found ≡ Some bound → splits_of (bound_value bound) ≤ 1) }
{
    match text.split_once('|') {
        None => match prices_of(alloc, text)? {
            Some(cert) => Ok(Some(Bound::Priced(cert))),
            None => Ok(None),
        },
        Some((fork, sides)) => {
            let (first, second) = sides.split_once('|').unwrap_or((sides, ""));
            match (prices_of(alloc, first)?, prices_of(alloc, second)?) {
                (Some(first), Some(second)) => Ok(Some(split_of(alloc, fork, first, second)?)),
                _ => Ok(None),
            }
        }
    }
}
