//! Whether a gap may stand beside a bound that holds: whether its budget of splits was spent, and the first place where
//! it was not.
ghost use Rattle.std.specs.Prelude.{◌≡◌, ◌≤◌, ◌<◌, ◌+◌, ◌++◌, ◌∷◌, ◌^◌, ◌↔◌, ◌<ℤ◌, ℕ, ℤ, Bool, List, [], length};
ghost use Rattle.std.specs.Prelude.{IfOk, IsTrue, MatchOption, OnOk};
ghost use Rattle.colour_graph.specs.EdgeSet.{IsSetOf, all_edges};
ghost use Rattle.colour_graph.specs.Graph.{Graph, greatest_graph};
ghost use Rattle.tree_certificate.specs.BoundHolds.{BoundHolds, IsDecided, depth_of, nodes_of, splits_of};
ghost use Rattle.tree_certificate.specs.BoundHolds.{greatest_depth};
ghost use Rattle.tree_certificate.specs.BoundValue.{BoundValue};
ghost use Rattle.tree_certificate.specs.BoundView.{bound_value};
ghost use Rattle.tree_certificate.specs.PriceHolds.{PriceHolds};
ghost use Rattle.tree_certificate.specs.Spent.{SplitNode, IsGreatestTotal, Leaf, Spent, split_nodes_of, leaves_of};
ghost use Rattle.entry_checker.specs.GapPlaces.{IsGapPlace, UpperIsReached, all_splits, all_leaves};
ghost use Rattle.entry_checker.specs.inside.Gathered.{Gathered, HasTotals, found_with};

use crate::cap::cap_in;
use certificate_checker::{give_back, keep_only, put_part, take_part, total_of};
use colour_graph::{Allowed, Colour, ColourGraph, EdgeId};
use std::alloc::{AllocError, Global};
use tree_certificate::{Bound, PriceCert, splits};
use tree_entry::EntryPlace;

/// A gap: the score of a tree, and its upper bound.
#[derive(Clone, Copy)]
struct Gap {
    score: i64,
    upper: i64,
}

/// What was found among the nodes of a bound that were looked at: the first of each kind, by its number.
#[derive(Drop)]
struct Found {
    /// The number of the next node.
    next: u32,
    /// A leaf whose total is above the cap of its set.
    first_slack: Option<u32>,
    /// A split of a set whose cap is below the upper bound.
    first_wasted: Option<u32>,
    /// A leaf whose total is above the score, though its set has at most one edge into each colour.
    first_decided: Option<u32>,
}

/// The first place where the budget of splits of a bound that holds was not spent, if there is one.
pub(crate) fn wrong_gap(
    alloc: Global,
    graph: &ColourGraph,
    bound: &Bound,
    score: i64,
    upper: i64,
    budget: u32,
) -> Result<Option<EntryPlace>, AllocError>
    requires vertices { length graph.now.colours ≤ greatest_graph }
    requires depth { depth_of (bound_value bound.now) ≤ greatest_depth }
    requires few { splits_of (bound_value bound.now) < 2 ^ 31 }
    requires holds { BoundHolds graph.now (all_edges graph.now) (bound_value bound.now) upper }
    ensures { IfOk result (λ found. MatchOption found (Spent graph.now (bound_value bound.now) score upper budget)
        (λ place. IsGapPlace graph.now (bound_value bound.now) score upper budget place)) }
{
    let splits = splits(bound);
    if splits != u64::from(budget) {
        return Ok(Some(EntryPlace::Splits(splits as u32)));
    }
    let greatest = greatest_total(graph, bound);
    if greatest != upper {
        return Ok(Some(EntryPlace::Loose(greatest)));
    }
    let mut allowed = Allowed::all(alloc, graph)?;
    let mut taken = Vec::new(alloc);
    let mut found = nothing_found();
    look_at(
        graph,
        bound,
        Gap { score, upper },
        &mut allowed,
        &mut taken,
        &mut found,
    )?;
    Ok(first_place(&found))
}

/// Nothing was found yet.
fn nothing_found() -> Found
    ensures next { result.next ≡ 0 }
    ensures gathered { (graph : Graph) → (score upper : ℤ) → Gathered graph score upper [] [] result }
{
    Found {
        next: 0,
        first_slack: None,
        first_wasted: None,
        first_decided: None,
    }
}

/// The place that is told first of what was found among all nodes.
fn first_place(found: &Found) -> Option<EntryPlace>
    ensures { (graph : Graph) → (bound : BoundValue) → (score upper : ℤ) → (budget : ℕ)
        → UpperIsReached graph bound upper budget
        → Gathered graph score upper (all_leaves graph bound) (all_splits graph bound) found.now
        → MatchOption result (Spent graph bound score upper budget)
        (λ place. IsGapPlace graph bound score upper budget place) }
{
    if let Some(node) = found.first_slack {
        return Some(EntryPlace::Slack(node));
    }
    if let Some(node) = found.first_wasted {
        return Some(EntryPlace::Wasted(node));
    }
    let node = found.first_decided?;
    Some(EntryPlace::Decided(node))
}

/// The greatest total of the leaves of a bound.
fn greatest_total(graph: &ColourGraph, bound: &Bound) -> i64
    requires vertices { length graph.now.colours ≤ greatest_graph }
    requires depth { depth_of (bound_value bound.now) ≤ greatest_depth }
    requires totals { HasTotals graph.now (bound_value bound.now) }
    ensures { (allowed : List Bool) → (node : ℕ)
        → IsGreatestTotal graph.now (leaves_of graph.now allowed (bound_value bound.now) node) result }
{
    match bound {
        Bound::Priced(cert) => total_of(graph, cert),
        Bound::Split(_, _, first, second) => {
            greatest_total(graph, first.get()).max(greatest_total(graph, second.get()))
        }
    }
}

/// Looks at the nodes of the bound that begins at a node and holds on a set of edges, in order. The edges that are
/// taken out of the set stand behind those taken out before, and are put back.
fn look_at(
    graph: &ColourGraph,
    bound: &Bound,
    gap: Gap,
    allowed: &mut Allowed,
    taken: &mut Vec<EdgeId>,
    found: &mut Found,
) -> Result<(), AllocError>
    requires vertices { length graph.now.colours ≤ greatest_graph }
    requires depth { depth_of (bound_value bound.now) ≤ greatest_depth }
    requires few { found.old.next + nodes_of (bound_value bound.now) < 2 ^ 32 }
    requires set { IsSetOf graph.now allowed.old }
    requires holds { BoundHolds graph.now allowed.old (bound_value bound.now) gap.upper }
    ensures next { OnOk result (found.new.next ≡ found.old.next + nodes_of (bound_value bound.now)) }
    ensures gathered { OnOk result ((leaves : List Leaf) → (splits : List SplitNode)
        → Gathered graph.now gap.score gap.upper leaves splits found.old
        → Gathered graph.now gap.score gap.upper
        (leaves ++ leaves_of graph.now allowed.old (bound_value bound.now) found.old.next)
        (splits ++ split_nodes_of graph.now allowed.old (bound_value bound.now) found.old.next) found.new) }
    ensures set { OnOk result (allowed.new ≡ allowed.old) }
    ensures taken { OnOk result (taken.new.items ≡ taken.old.items) }
{
    match bound {
        Bound::Priced(cert) => {
            look_at_leaf(graph, allowed, cert, gap, found);
            Ok(())
        }
        Bound::Split(colour, part, first, second) => {
            look_at_split(graph, allowed, gap, found);
            let part = part.as_slice();
            let before = taken.len();
            keep_only(graph, allowed, *colour, part, taken)?;
            look_at(graph, first.get(), gap, allowed, taken, found)?;
            give_back(allowed, taken, before);
            take_part(allowed, part);
            look_at(graph, second.get(), gap, allowed, taken, found)?;
            put_part(allowed, part);
            Ok(())
        }
    }
}

/// Looks at the next node, which is a leaf that is reached with a set of edges.
fn look_at_leaf(
    graph: &ColourGraph,
    allowed: &Allowed,
    cert: &PriceCert,
    gap: Gap,
    found: &mut Found,
)
    requires vertices { length graph.now.colours ≤ greatest_graph }
    requires set { IsSetOf graph.now allowed.now }
    requires holds { PriceHolds graph.now allowed.now cert.now }
    requires few { found.old.next + 1 < 2 ^ 32 }
    ensures next { found.new.next ≡ found.old.next + 1 }
    ensures gathered { (leaves : List Leaf) → (splits : List SplitNode)
        → Gathered graph.now gap.score gap.upper leaves splits found.old
        → Gathered graph.now gap.score gap.upper
        (leaves ++ (record { node = found.old.next; allowed = allowed.now; cert = cert.now }) ∷ []) splits found.new }
{
    let node = found.next;
    let total = total_of(graph, cert);
    let tight = total <= cap_in(graph, allowed);
    found.first_slack = first_with(found.first_slack, tight, node);
    let goes_on = can_go_on(graph, allowed, total, gap.score);
    found.first_decided = first_with(found.first_decided, goes_on, node);
    found.next = node + 1;
}

/// Looks at the next node, which is a split of a set of edges.
fn look_at_split(graph: &ColourGraph, allowed: &Allowed, gap: Gap, found: &mut Found)
    requires vertices { length graph.now.colours ≤ greatest_graph }
    requires set { IsSetOf graph.now allowed.now }
    requires few { found.old.next + 1 < 2 ^ 32 }
    ensures next { found.new.next ≡ found.old.next + 1 }
    ensures gathered { (leaves : List Leaf) → (splits : List SplitNode)
        → Gathered graph.now gap.score gap.upper leaves splits found.old
        → Gathered graph.now gap.score gap.upper leaves
        (splits ++ (record { node = found.old.next; allowed = allowed.now }) ∷ []) found.new }
{
    let node = found.next;
    let useful = gap.upper <= cap_in(graph, allowed);
    found.first_wasted = first_with(found.first_wasted, useful, node);
    found.next = node + 1;
}

/// The first node of which something does not hold, with one more node.
fn first_with(first: Option<u32>, holds: bool, node: u32) -> Option<u32>
    ensures { result ≡ found_with first holds node }
{
    match first {
        Some(first) => Some(first),
        None if holds => None,
        None => Some(node),
    }
}

/// Whether a leaf of this total, if that is more than a score, can be split.
fn can_go_on(graph: &ColourGraph, allowed: &Allowed, total: i64, score: i64) -> bool
    requires vertices { length graph.now.colours ≤ greatest_graph }
    requires set { IsSetOf graph.now allowed.now }
    ensures { IsTrue result ↔ (score <ℤ total → ¬ IsDecided graph.now allowed.now) }
{
    total <= score || !is_decided(graph, allowed)
}

/// Whether a set has at most one edge into each colour, so that nothing of it can be split.
fn is_decided(graph: &ColourGraph, allowed: &Allowed) -> bool
    requires vertices { length graph.now.colours ≤ greatest_graph }
    requires set { IsSetOf graph.now allowed.now }
    ensures { IsTrue result ↔ IsDecided graph.now allowed.now }
{
    graph.is_graph();
    for before in 0..graph.colour_count() {
        if allowed.into_colour(graph, before as Colour + 1) > 1 {
            return false;
        }
    }
    true
}
