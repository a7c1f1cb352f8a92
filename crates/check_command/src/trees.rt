//! Where the graphs and trees of entries differ first from the right ones.
ghost use Rattle.std.specs.Prelude.{◌≡◌, ◌≤◌, IfOk, length};
ghost use Rattle.std.specs.List.{All, AllByRecursion};
ghost use Rattle.colour_graph.specs.Graph.{greatest_graph};
ghost use Rattle.element_table.specs.FormulaList.{greatest_list};
ghost use Rattle.loss_graph.specs.Lists.{AreLists};
ghost use Rattle.tree_document.specs.Document.{IsSmallCert, OfOutcome};
ghost use Rattle.right_document.specs.Candidates.{ion_of};
ghost use Rattle.check_command.specs.inside.CheckAnswers.{AreTreesAnswer, IsFinding, IsFindingOver, IsSizeFinding};
ghost use Rattle.check_command.specs.inside.CheckAnswers.{IsToldFinding};
ghost use Rattle.right_document.specs.SettingsOf.{solve_settings_value_of};

use element_table::FormulaList;
use entry_checker::{EntryVerdict, check_entry};
use loss_graph::{GraphFault, LossGraph, build};
use right_document::SolveSettings;
use run_plan::RejectPart;
use std::alloc::{AllocError, Global};
use tree_document::{Entry, Outcome};
use tree_entry::EntryPlace;

/// What is found of an entry.
#[derive(Clone, Copy)]
enum Finding {
    /// Nothing is wrong with it.
    Right,
    /// It is wrongly a tree or too large, or has a wrong number of vertices.
    Size,
    /// Its tree is wrong, here first.
    Tree(EntryPlace),
}

/// The first entry whose graph has another size than it says, or else the first whose tree is wrong. The graph of each
/// candidate is built once.
pub fn trees_place(
    alloc: Global,
    lists: &[FormulaList],
    entries: &[Entry],
    settings: &SolveSettings,
) -> Result<Option<RejectPart>, AllocError>
    requires few { length entries.now ≤ greatest_list }
    requires lists { All (λ entry. AreLists settings.now.listing.choice
        (ion_of (solve_settings_value_of settings.now) entry.candidate) lists.now) entries.now }
    requires small { AllByRecursion (λ entry. OfOutcome IsSmallCert entry.outcome) entries.now }
    ensures { IfOk result (AreTreesAnswer (solve_settings_value_of settings.now) lists.now entries.now) }
{
    let mut first = None;
    for place in 0..entries.len() {
        match finding_of(alloc, lists, &entries[place], settings)? {
            Finding::Right => {}
            Finding::Size => return Ok(Some(RejectPart::Outcome(place as u32 + 1))),
            Finding::Tree(wrong) => {
                let part = RejectPart::Tree(place as u32 + 1, wrong);
                first = first.or(Some(part));
            }
        }
    }
    Ok(first)
}

/// What is found of an entry, over the graph of its candidate.
fn finding_of(
    alloc: Global,
    lists: &[FormulaList],
    entry: &Entry,
    settings: &SolveSettings,
) -> Result<Finding, AllocError>
    requires lists { AreLists settings.now.listing.choice
        (ion_of (solve_settings_value_of settings.now) entry.now.candidate) lists.now }
    requires small { OfOutcome IsSmallCert entry.now.outcome }
    ensures { IfOk result (IsFinding (solve_settings_value_of settings.now) lists.now entry.now) }
{
    let choice = &settings.listing.choice;
    match build(alloc, lists, &entry.candidate, choice, settings.scores) {
        Ok(built) => finding_over(alloc, &built, &entry.outcome, settings.budget),
        Err(fault) => size_finding(fault, &entry.outcome),
    }
}

/// What is found of an outcome over a graph that is not too large.
fn finding_over(
    alloc: Global,
    built: &LossGraph,
    outcome: &Outcome,
    budget: u32,
) -> Result<Finding, AllocError>
    requires vertices { length built.now.graph.colours ≤ greatest_graph }
    requires small { OfOutcome IsSmallCert outcome.now }
    ensures { IfOk result (IsFindingOver built.now budget outcome.now) }
{
    match outcome {
        Outcome::Tree(tree) => match check_entry(alloc, built, tree, budget)? {
            EntryVerdict::Right => Ok(Finding::Right),
            EntryVerdict::Wrong(place) => Ok(Finding::Tree(place)),
        },
        Outcome::TooLarge(_) => Ok(Finding::Size),
    }
}

/// What is found of an outcome where a graph has too many vertices for a tree.
fn size_finding(fault: GraphFault, outcome: &Outcome) -> Result<Finding, AllocError>
    ensures { IfOk result (IsSizeFinding fault outcome.now) }
{
    match fault {
        GraphFault::TooLarge(vertices) => Ok(told_finding(vertices, outcome)),
        GraphFault::OutOfMemory => Err(AllocError),
    }
}

/// What is found of an outcome where a graph has so many vertices.
fn told_finding(vertices: u32, outcome: &Outcome) -> Finding
    ensures { IsToldFinding vertices outcome.now result }
{
    match outcome {
        Outcome::TooLarge(told) if *told == vertices => Finding::Right,
        _ => Finding::Size,
    }
}
