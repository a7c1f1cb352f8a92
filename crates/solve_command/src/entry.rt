//! The entry of a candidate: its best tree with a certificate, or that its graph is too large.
ghost use Rattle.std.specs.Prelude.{◌≡◌, ◌≤◌, ◌+◌, ℕ, IfOk, length, slice_index};
ghost use Rattle.tree_entry.specs.EntryIsRight.{EntryIsRight};
ghost use Rattle.colour_graph.specs.Bounded.{IsBounded};
ghost use Rattle.colour_graph.specs.EdgeSet.{all_edges};
ghost use Rattle.colour_graph.specs.Graph.{colour_count, greatest_graph};
ghost use Rattle.loss_graph.specs.Lists.{AreLists};
ghost use Rattle.profile.specs.Profile.{greatest_peaks};
ghost use Rattle.tree_certificate.specs.TableHolds.{greatest_colours};
ghost use Rattle.tree_document.specs.Document.{AreGoodLines, entry_lines};
ghost use Rattle.tree_document.specs.declared.entry.Outcome.TheVariants as outcomes;
ghost use Rattle.right_document.specs.Candidates.{ion_of};
ghost use Rattle.right_document.specs.RightSection.{IsRightEntry, OutcomeIsRight};
ghost use Rattle.right_document.specs.GoodLines.{HasGoodLines};
ghost use Rattle.right_document.specs.SettingsOf.{solve_settings_value_of};

use element_table::{Formula, FormulaList, a_whole_is_its_part_and_its_loss};
use loss_graph::{GraphFault, LossGraph, build};
use right_document::{SolveSettings, ion_error};
use std::alloc::{AllocError, Global};
use subset_tree::solve_small;
use tree_certificate::Cert;
use tree_document::{Entry, Mark, Outcome, Tree, TreeRows};
use tree_entry::tree_rows;

/// The entry of a candidate over the lists of its spectrum, one list more than selected peaks.
pub fn entry_of(
    alloc: Global,
    lists: &[FormulaList],
    candidate: &Formula,
    settings: &SolveSettings,
) -> Result<Entry, AllocError>
    requires lists { AreLists settings.now.listing.choice
        (ion_of (solve_settings_value_of settings.now) candidate.now) lists.now }
    requires few { length lists.now ≤ greatest_peaks + 1 }
    ensures entry { IfOk result (λ entry. IsRightEntry (solve_settings_value_of settings.now) lists.now entry) }
    ensures candidate { IfOk result (λ entry. entry.candidate ≡ candidate.now) }
    ensures good { IfOk result (λ entry. AreGoodLines (entry_lines entry)) }
{
    candidate.is_formula();
    let outcome = outcome_of(alloc, lists, candidate, settings)?;
    Ok(Entry {
        candidate: *candidate,
        error: ion_error(lists, candidate, &settings.listing.choice),
        outcome,
    })
}

/// What is found for a candidate.
fn outcome_of(
    alloc: Global,
    lists: &[FormulaList],
    candidate: &Formula,
    settings: &SolveSettings,
) -> Result<Outcome, AllocError>
    requires lists { AreLists settings.now.listing.choice
        (ion_of (solve_settings_value_of settings.now) candidate.now) lists.now }
    requires few { length lists.now ≤ greatest_peaks + 1 }
    ensures right { IfOk result (λ outcome.
        OutcomeIsRight (solve_settings_value_of settings.now) lists.now candidate.now outcome) }
    ensures good { IfOk result HasGoodLines }
{
    match build(
        alloc,
        lists,
        candidate,
        &settings.listing.choice,
        settings.scores,
    ) {
        Ok(built) => Ok(Outcome::Tree(best_tree(alloc, &built)?)),
        Err(GraphFault::TooLarge(vertices)) => Ok(too_large(vertices)),
        Err(GraphFault::OutOfMemory) => Err(AllocError),
    }
}

/// What is found for a candidate whose graph has too many vertices.
fn too_large(vertices: u32) -> Outcome
    ensures outcome { result ≡ outcomes.TooLarge vertices }
    ensures good { HasGoodLines result }
{
    Outcome::TooLarge(vertices)
}

/// A best tree of a candidate's graph of few colours, with the table that proves it best.
fn best_tree(alloc: Global, built: &LossGraph) -> Result<Tree, AllocError>
    requires colours { colour_count built.now.graph ≤ greatest_colours }
    requires vertices { length built.now.graph.colours ≤ greatest_graph }
    requires peaks { (colour : ℕ) → slice_index built.now.peaks colour ≤ greatest_peaks }
    ensures entry { (budget : ℕ) → IfOk result (λ tree. EntryIsRight built.now tree budget) }
    ensures bounded { IfOk result (λ tree. IsBounded built.now.graph (all_edges built.now.graph) tree.upper) }
    ensures good { IfOk result (λ tree. HasGoodLines (outcomes.Tree tree)) }
{
    built.graph.is_graph();
    built.formulas.are_formulas();
    a_whole_is_its_part_and_its_loss();
    let (edges, table) = solve_small(alloc, &built.graph)?;
    let _numbers = table.rows();
    let score = built.graph.tree_score(&edges);
    let rows = tree_rows(alloc, built, &edges)?;
    Ok(Tree {
        score,
        upper: score,
        mark: Mark::Optimal,
        rows: TreeRows::of(rows),
        cert: Cert::Table(table),
    })
}
