//! Whether the tree of a candidate is right for its graph, and the first place where it is not.
ghost use Rattle.std.specs.Prelude.{◌≡◌, ◌≤◌, ◌<◌, ◌^◌, ◌↔◌, ℕ, Ok, IfOk, IsTrue, MatchOption, length};
ghost use Rattle.colour_graph.specs.Bounded.{IsBounded};
ghost use Rattle.colour_graph.specs.EdgeSet.{all_edges};
ghost use Rattle.colour_graph.specs.Graph.{colour_count, greatest_graph};
ghost use Rattle.tree_entry.specs.EntryIsRight.{EntryIsRight, MarkFits};
ghost use Rattle.tree_certificate.specs.CertHolds.{cert_depth, cert_splits};
ghost use Rattle.tree_document.specs.declared.entry.Mark.TheVariants as mark;
ghost use Rattle.entry_checker.specs.EntryPlaces.{CertIsRight, IsEntryPlace, IsEntryVerdict, MarkIsFitting};
ghost use Rattle.entry_checker.specs.EntryPlaces.{NoneIsAdded, ScoreIsRight, UpperIsCapped};
ghost use Rattle.tree_entry.specs.Rows.{AreRows, edges_of};
ghost use Rattle.entry_checker.specs.declared.verdict.EntryVerdict.TheVariants.{Right};
ghost use Rattle.tree_certificate.specs.BoundHolds.{depth_of, greatest_depth, splits_of};
ghost use Rattle.tree_certificate.specs.BoundView.{bound_value};
ghost use Rattle.tree_certificate.specs.TableHolds.{greatest_colours};
ghost use Rattle.tree_certificate.specs.Value.{a_bound};

use crate::adding::first_added;
use crate::cap::cap;
use crate::gap::wrong_gap;
use crate::rows::first_wrong_row;
use crate::verdict::EntryVerdict;
use certificate_checker::{Verdict, check_cert};
use colour_graph::EdgeId;
use loss_graph::LossGraph;
use std::alloc::{AllocError, Global};
use tree_certificate::{Bound, Cert, GREATEST_COLOURS, what_holds_bounds_every_tree};
use tree_document::{Mark, Tree, TreeRow};
use tree_entry::EntryPlace;

/// Whether a tree is right for the graph of its candidate, of at most `GREATEST_GRAPH` vertices, under a budget of
/// splits, or the first place where it is not. The upper bound of one that is right bounds every tree of the graph.
pub fn check_entry(
    alloc: Global,
    built: &LossGraph,
    tree: &Tree,
    budget: u32,
) -> Result<EntryVerdict, AllocError>
    requires vertices { length built.now.graph.colours ≤ greatest_graph }
    requires depth { cert_depth tree.now.cert ≤ greatest_depth }
    requires few { cert_splits tree.now.cert < 2 ^ 31 }
    ensures verdict { IfOk result (λ verdict. IsEntryVerdict built.now tree.now budget verdict) }
    ensures exactly { IfOk result (λ verdict. (verdict ≡ Right) ↔ EntryIsRight built.now tree.now budget) }
    ensures bounded { result ≡ Ok Right → IsBounded built.now.graph (all_edges built.now.graph) tree.now.upper }
{
    what_holds_bounds_every_tree();
    built.graph.is_graph();
    if let Some(number) = first_wrong_row(built, tree.rows.items()) {
        return Ok(EntryVerdict::Wrong(EntryPlace::Rows(number)));
    }
    let edges = edges_in(alloc, tree.rows.items())?;
    if let Some(place) = wrong_edges(built, tree, &edges) {
        return Ok(EntryVerdict::Wrong(place));
    }
    if let Some(place) = wrong_number(alloc, built, tree, &edges)? {
        return Ok(EntryVerdict::Wrong(place));
    }
    check_last(alloc, built, tree, budget)
}

/// The edges of rows.
fn edges_in(alloc: Global, rows: &[TreeRow]) -> Result<Vec<EdgeId>, AllocError>
    ensures { IfOk result (λ edges. edges.items ≡ edges_of rows.now) }
{
    rows.iter().map(|row| row.edge).collect(alloc)
}

/// Where the edges of right rows are not colourful, or one could be added with gain.
fn wrong_edges(built: &LossGraph, tree: &Tree, edges: &[EdgeId]) -> Option<EntryPlace>
    requires vertices { length built.now.graph.colours ≤ greatest_graph }
    requires rows { AreRows built.now tree.now.rows }
    requires edges { edges.now ≡ edges_of tree.now.rows }
    ensures { MatchOption result (NoneIsAdded built.now tree.now)
        (λ place. (budget : ℕ) → IsEntryPlace built.now tree.now budget place) }
{
    if !built.graph.is_colourful(edges) {
        return Some(EntryPlace::NotColourful);
    }
    let edge = first_added(&built.graph, edges)?;
    Some(EntryPlace::NotMaximal(edge))
}

/// Where the score, the upper bound or the mark of a tree with right edges is wrong.
fn wrong_number(
    alloc: Global,
    built: &LossGraph,
    tree: &Tree,
    edges: &[EdgeId],
) -> Result<Option<EntryPlace>, AllocError>
    requires vertices { length built.now.graph.colours ≤ greatest_graph }
    requires before { NoneIsAdded built.now tree.now }
    requires edges { edges.now ≡ edges_of tree.now.rows }
    ensures { IfOk result (λ wrong. MatchOption wrong (MarkIsFitting built.now tree.now)
        (λ place. (budget : ℕ) → IsEntryPlace built.now tree.now budget place)) }
{
    if let Some(place) = wrong_score(built, tree, edges) {
        return Ok(Some(place));
    }
    if let Some(place) = wrong_upper(alloc, built, tree)? {
        return Ok(Some(place));
    }
    if !fits_mark(tree.mark, tree.score, tree.upper) {
        return Ok(Some(EntryPlace::Mark));
    }
    Ok(None)
}

/// Where the score of a tree with right edges is wrong.
fn wrong_score(built: &LossGraph, tree: &Tree, edges: &[EdgeId]) -> Option<EntryPlace>
    requires vertices { length built.now.graph.colours ≤ greatest_graph }
    requires before { NoneIsAdded built.now tree.now }
    requires edges { edges.now ≡ edges_of tree.now.rows }
    ensures { MatchOption result (ScoreIsRight built.now tree.now)
        (λ place. (budget : ℕ) → IsEntryPlace built.now tree.now budget place) }
{
    built.graph.is_graph();
    let score = built.graph.tree_score(edges);
    if tree.score != score {
        return Some(EntryPlace::Score(score));
    }
    None
}

/// Where the upper bound of a tree with a right score is wrong.
fn wrong_upper(
    alloc: Global,
    built: &LossGraph,
    tree: &Tree,
) -> Result<Option<EntryPlace>, AllocError>
    requires vertices { length built.now.graph.colours ≤ greatest_graph }
    requires before { ScoreIsRight built.now tree.now }
    ensures { IfOk result (λ wrong. MatchOption wrong (UpperIsCapped built.now tree.now)
        (λ place. (budget : ℕ) → IsEntryPlace built.now tree.now budget place)) }
{
    let cap = cap(alloc, &built.graph)?;
    if tree.upper > cap {
        return Ok(Some(EntryPlace::Upper(cap)));
    }
    Ok(None)
}

/// Whether a mark says that the upper bound is the score exactly where it is.
fn fits_mark(mark: Mark, score: i64, upper: i64) -> bool
    ensures { IsTrue result ↔ MarkFits mark score upper }
{
    match mark {
        Mark::Optimal => upper == score,
        Mark::Gap => upper != score,
    }
}

/// Whether the certificate of a tree with right numbers holds, and a gap is one that may stand.
fn check_last(
    alloc: Global,
    built: &LossGraph,
    tree: &Tree,
    budget: u32,
) -> Result<EntryVerdict, AllocError>
    requires vertices { length built.now.graph.colours ≤ greatest_graph }
    requires depth { cert_depth tree.now.cert ≤ greatest_depth }
    requires few { cert_splits tree.now.cert < 2 ^ 31 }
    requires before { MarkIsFitting built.now tree.now }
    ensures { IfOk result (λ verdict. IsEntryVerdict built.now tree.now budget verdict) }
{
    if let Verdict::Fails(place) = check_cert(alloc, &built.graph, &tree.cert, tree.upper)? {
        return Ok(EntryVerdict::Wrong(EntryPlace::Cert(place)));
    }
    match tree.mark {
        Mark::Optimal => Ok(EntryVerdict::Right),
        Mark::Gap => check_gap(alloc, built, tree, budget),
    }
}

/// Whether a gap may stand beside a certificate that holds.
fn check_gap(
    alloc: Global,
    built: &LossGraph,
    tree: &Tree,
    budget: u32,
) -> Result<EntryVerdict, AllocError>
    requires vertices { length built.now.graph.colours ≤ greatest_graph }
    requires depth { cert_depth tree.now.cert ≤ greatest_depth }
    requires few { cert_splits tree.now.cert < 2 ^ 31 }
    requires before { CertIsRight built.now tree.now }
    requires gap { tree.now.mark ≡ mark.Gap }
    ensures { IfOk result (λ verdict. IsEntryVerdict built.now tree.now budget verdict) }
{
    let colours = built.graph.colour_count();
    if colours <= GREATEST_COLOURS {
        return Ok(EntryVerdict::Wrong(EntryPlace::FewColours(colours)));
    }
    match &tree.cert {
        // a table that holds is of a graph of few colours
        Cert::Table(_) => Ok(EntryVerdict::Wrong(EntryPlace::FewColours(colours))),
        Cert::Bounds(bound) => check_spending(alloc, built, tree, bound, budget),
    }
}

/// Whether the budget of splits was spent on a bound that holds, of a graph of many colours.
fn check_spending(
    alloc: Global,
    built: &LossGraph,
    tree: &Tree,
    bound: &Bound,
    budget: u32,
) -> Result<EntryVerdict, AllocError>
    requires vertices { length built.now.graph.colours ≤ greatest_graph }
    requires depth { depth_of (bound_value bound.now) ≤ greatest_depth }
    requires few { splits_of (bound_value bound.now) < 2 ^ 31 }
    requires before { CertIsRight built.now tree.now }
    requires gap { tree.now.mark ≡ mark.Gap }
    requires many { greatest_colours < colour_count built.now.graph }
    requires bound { tree.now.cert ≡ a_bound (bound_value bound.now) }
    ensures { IfOk result (λ verdict. IsEntryVerdict built.now tree.now budget verdict) }
{
    let wrong = wrong_gap(alloc, &built.graph, bound, tree.score, tree.upper, budget)?;
    Ok(match wrong {
        Some(place) => EntryVerdict::Wrong(place),
        None => EntryVerdict::Right,
    })
}
