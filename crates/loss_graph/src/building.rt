//! How the graph of a candidate is built.
ghost use Rattle.std.specs.Prelude.{◌≡◌, ◌≤◌, ◌<◌, ℕ, Err, IfOk, length, map};
ghost use Rattle.std.specs.List.{All, flat_map, range_with_len};
ghost use Rattle.colour_graph.specs.Graph.{greatest_graph};
ghost use Rattle.element_table.specs.Formula.{IsFormula};
ghost use Rattle.loss_graph.specs.Lists.{AreLists, list_at, root_of};
ghost use Rattle.loss_graph.specs.LossGraph.{IsLossGraph, edges_to, graph_over, loss_graph_of};
ghost use Rattle.loss_graph.specs.Vertices.{vertex_at, vertices_of};
ghost use Rattle.loss_graph.specs.declared.outcome.GraphFault.{GraphFault};
ghost use Rattle.loss_graph.specs.declared.outcome.GraphFault.TheVariants.{TooLarge};
ghost use Rattle.loss_graph.specs.inside.Joining.{CanJoin, with_edges, without_edges};
ghost use Rattle.loss_graph.specs.inside.Placed.{IsPart};

use crate::edges::{add_edges_to, add_vertices};
use crate::gathering::{Gathered, gather};
use crate::loss_graph::{LossGraph, PeakNumbers};
use crate::outcome::GraphFault;
use crate::scoring::{error_score, greatest_intensity, head_score};
use crate::vertex::Vertex;
use adducts::Choice;
use colour_graph::{ColourGraph, GREATEST_GRAPH, GraphBuilder};
use element_table::{
    Formula, FormulaList, Formulas, atoms_weigh_more_than_a_window, the_tests_decide,
};
use score_tables::Scores;
use std::alloc::{AllocError, Global};

/// The graph of a candidate over the lists of a spectrum: the precursor's, which holds the candidate with what the
/// adduct adds, and then those of the selected peaks by falling m/z. A graph of more than 512 vertices is not built.
pub fn build(
    alloc: Global,
    lists: &[FormulaList],
    candidate: &Formula,
    choice: &Choice,
    scores: &Scores,
) -> Result<LossGraph, GraphFault>
    requires { AreLists choice.now (root_of choice.now candidate.now) lists.now }
    ensures exactly { IfOk result (λ built.
        built ≡ loss_graph_of choice.now scores.now (root_of choice.now candidate.now) lists.now) }
    ensures small { IfOk result (λ built.
        length (vertices_of (root_of choice.now candidate.now) lists.now) ≤ greatest_graph) }
    ensures too_large { (n : ℕ) → result ≡ Err (TooLarge n)
        → (greatest_graph < n) × (n ≡ length (vertices_of (root_of choice.now candidate.now) lists.now)) }
    ensures parts { IfOk result (λ built. IsLossGraph built) }
{
    let root = root_formula(lists, candidate, choice);
    let gathered = gather(alloc, lists, &root)?;
    if gathered.count > GREATEST_GRAPH {
        return Err(GraphFault::TooLarge(gathered.count));
    }
    let Gathered {
        vertices,
        peaks,
        ..
    } = gathered;
    the_tests_decide();
    atoms_weigh_more_than_a_window();
    let graph = graph_over_vertices(alloc, lists, choice, scores, &vertices)?;
    let formulas = formulas_of(alloc, &vertices)?;
    Ok(LossGraph {
        graph,
        formulas: Formulas::of(formulas),
        peaks: PeakNumbers::of(peaks),
    })
}

/// The candidate with what the adduct adds. It is in the list of the precursor, so no count of it is too great.
fn root_formula(lists: &[FormulaList], candidate: &Formula, choice: &Choice) -> Formula
    requires { AreLists choice.now (root_of choice.now candidate.now) lists.now }
    ensures root { result ≡ root_of choice.now candidate.now }
    ensures formula { IsFormula result }
{
    let precursor = &lists[0];
    precursor.formulas.are_formulas();
    let adduct = &choice.adduct;
    candidate.is_formula();
    adduct.extra.is_formula();
    candidate.plus(&adduct.extra)
}

/// The graph over the vertices of a candidate, the first of which is the root.
fn graph_over_vertices(
    alloc: Global,
    lists: &[FormulaList],
    choice: &Choice,
    scores: &Scores,
    vertices: &[Vertex],
) -> Result<ColourGraph, AllocError>
    requires can { CanJoin vertices.now }
    requires lists { AreLists choice.now (vertex_at vertices.now 0).formula lists.now }
    requires parts { (place : ℕ) → 0 < place → place < length vertices.now
        → IsPart choice.now (vertex_at vertices.now 0).formula lists.now (vertex_at vertices.now place) }
    ensures { IfOk result (λ graph.
        graph ≡ graph_over choice.now scores.now (vertex_at vertices.now 0).formula lists.now vertices.now) }
{
    let root_score = error_score(choice, scores, &lists[0], &vertices[0].formula);
    let mut builder = GraphBuilder::new(alloc, root_score)?;
    add_vertices(&mut builder, vertices)?;
    add_edges(&mut builder, lists, choice, scores, vertices)?;
    Ok(builder.finish())
}

/// Adds the edges between the vertices of a candidate, by their heads.
fn add_edges(
    builder: &mut GraphBuilder,
    lists: &[FormulaList],
    choice: &Choice,
    scores: &Scores,
    vertices: &[Vertex],
) -> Result<(), AllocError>
    requires can { CanJoin vertices.now }
    requires lists { AreLists choice.now (vertex_at vertices.now 0).formula lists.now }
    requires parts { (place : ℕ) → 0 < place → place < length vertices.now
        → IsPart choice.now (vertex_at vertices.now 0).formula lists.now (vertex_at vertices.now place) }
    requires none { builder.old ≡ without_edges builder.old.root_score vertices.now }
    ensures { IfOk result (λ _. builder.new ≡ with_edges builder.old
        (flat_map (edges_to choice.now scores.now lists.now vertices.now) (range_with_len 0 (length vertices.now)))) }
{
    let greatest = greatest_intensity(lists);
    for head in 1..vertices.len() {
        let base = head_score(choice, scores, lists, greatest, &vertices[head]);
        add_edges_to(builder, scores, vertices, base, head)?;
    }
    Ok(())
}

/// The formulas of the vertices.
fn formulas_of(alloc: Global, vertices: &[Vertex]) -> Result<Vec<Formula>, AllocError>
    ensures { IfOk result (λ formulas. formulas.items ≡ map (λ vertex. vertex.formula) vertices.now) }
{
    vertices.iter().map(|vertex| vertex.formula).collect(alloc)
}
