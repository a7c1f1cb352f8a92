//! A bound that grows: its leaf of greatest total is split.
ghost use Rattle.std.specs.Prelude.{◌≡◌, ◌≤◌, ◌<◌, ◌+◌, ◌≤ℤ◌, ◌<ℤ◌, IfOk, OnOk, length};
ghost use Rattle.std.specs.Int.{int_max};
ghost use Rattle.colour_graph.specs.EdgeSet.{IsSetOf};
ghost use Rattle.colour_graph.specs.Graph.{greatest_graph};
ghost use Rattle.tree_certificate.specs.BoundView.{bound_value};
ghost use Rattle.branch_search.specs.inside.Choosing.{IsTree};
ghost use Rattle.branch_search.specs.inside.Growing.{IsLeaf, Stands, bound_in, fork, grown_of, leaf, splits_in};
ghost use Rattle.branch_search.specs.inside.Growing.{total_in};

use crate::bounder::Bounder;
use crate::leaves::{Leaf, side_leaf};
use crate::splitting::{half_of, open_colour};
use crate::trees::Tree;
use colour_graph::{Allowed, Colour, ColourGraph, EdgeId};
use sqlite_items::{Boxed, Items};
use std::alloc::{AllocError, Global};
use tree_certificate::{Bound, PriceCert};

/// A part of a bound that grows, with the greatest total of its leaves.
#[derive(Debug, Drop)]
pub(crate) enum Node {
    /// A leaf: its certificate.
    Leaf(PriceCert, i64),
    /// A split: its colour and edges, and its sides.
    Fork(i64, Colour, Items<EdgeId>, Boxed<Node>, Boxed<Node>),
}

impl Node {
    /// The greatest total of the leaves.
    pub fn total(&self) -> i64
        ensures { result ≡ total_in (grown_of self.now) }
    {
        match self {
            Node::Leaf(_, total) => *total,
            Node::Fork(total, _, _, _, _) => *total,
        }
    }
}

/// What was a part of the bound that is reached with a set, after its leaf of greatest total was split. A better tree
/// is kept.
pub(crate) fn grown(
    alloc: Global,
    graph: &ColourGraph,
    bounder: &Bounder,
    node: Node,
    allowed: Allowed,
    best: &mut Tree,
) -> Result<Node, AllocError>
    requires vertices { length graph.now.colours ≤ greatest_graph }
    requires set { IsSetOf graph.now allowed }
    requires stands { Stands graph.now allowed best.old.score (total_in (grown_of node)) (grown_of node) }
    requires open { best.old.score <ℤ total_in (grown_of node) }
    requires best { IsTree graph.now best.old.edges.items best.old.score }
    ensures stands { IfOk result (λ new.
        Stands graph.now allowed best.new.score (total_in (grown_of node)) (grown_of new)) }
    ensures less { IfOk result (λ new. total_in (grown_of new) ≤ℤ total_in (grown_of node)) }
    ensures splits { IfOk result (λ new. splits_in (grown_of new) ≡ splits_in (grown_of node) + 1) }
    ensures best { OnOk result (IsTree graph.now best.new.edges.items best.new.score) }
    ensures better { OnOk result (best.old.score ≤ℤ best.new.score) }
{
    match node {
        Node::Leaf(cert, total) => split_leaf(
            alloc,
            graph,
            bounder,
            Leaf { cert, total },
            &allowed,
            best,
        ),
        Node::Fork(_, colour, part, first, second) => {
            if second.get().total() <= first.get().total() {
                let side = allowed.only(graph, colour, part.as_slice())?;
                let first = grown(alloc, graph, bounder, first.into_inner(), side, best)?;
                let first = Boxed::new(alloc, first)?;
                Ok(fork_of(colour, part, first, second))
            } else {
                let side = allowed.without(part.as_slice())?;
                let second = grown(alloc, graph, bounder, second.into_inner(), side, best)?;
                let second = Boxed::new(alloc, second)?;
                Ok(fork_of(colour, part, first, second))
            }
        }
    }
}

/// The split of a leaf, by half of the edges into the least colour that has two of them.
fn split_leaf(
    alloc: Global,
    graph: &ColourGraph,
    bounder: &Bounder,
    above: Leaf,
    allowed: &Allowed,
    best: &mut Tree,
) -> Result<Node, AllocError>
    requires vertices { length graph.now.colours ≤ greatest_graph }
    requires set { IsSetOf graph.now allowed.now }
    requires leaf { IsLeaf graph.now allowed.now best.old.score above.cert above.total }
    requires open { best.old.score <ℤ above.total }
    requires best { IsTree graph.now best.old.edges.items best.old.score }
    ensures stands { IfOk result (λ new.
        Stands graph.now allowed.now best.new.score above.total (grown_of new)) }
    ensures less { IfOk result (λ new. total_in (grown_of new) ≤ℤ above.total) }
    ensures splits { IfOk result (λ new. splits_in (grown_of new) ≡ 1) }
    ensures best { OnOk result (IsTree graph.now best.new.edges.items best.new.score) }
    ensures better { OnOk result (best.old.score ≤ℤ best.new.score) }
{
    let colour = open_colour(graph, allowed).unwrap();
    let part = half_of(alloc, graph, allowed, colour)?;
    let only = allowed.only(graph, colour, &part)?;
    let first = side_leaf(alloc, graph, bounder, &only, &above, best)?;
    let without = allowed.without(&part)?;
    let second = side_leaf(alloc, graph, bounder, &without, &above, best)?;
    let first = Boxed::new(alloc, Node::Leaf(first.cert, first.total))?;
    let second = Boxed::new(alloc, Node::Leaf(second.cert, second.total))?;
    Ok(fork_of(colour, Items::from_vec(part), first, second))
}

/// The split of two sides.
fn fork_of(colour: Colour, part: Items<EdgeId>, first: Boxed<Node>, second: Boxed<Node>) -> Node
    ensures { grown_of result ≡ fork (int_max (total_in (grown_of first)) (total_in (grown_of second))) colour part
        (grown_of first) (grown_of second) }
{
    let total = greater(first.get().total(), second.get().total());
    Node::Fork(total, colour, part, first, second)
}

/// The greater of two totals.
fn greater(one: i64, other: i64) -> i64
    ensures { result ≡ int_max one other }
{
    one.max(other)
}

/// The bound that has grown.
pub(crate) fn bound_from(alloc: Global, node: Node) -> Result<Bound, AllocError>
    ensures { IfOk result (λ bound. bound_value bound ≡ bound_in (grown_of node)) }
{
    match node {
        Node::Leaf(cert, _) => Ok(Bound::Priced(cert)),
        Node::Fork(_, colour, part, first, second) => {
            let first = bound_from(alloc, first.into_inner())?;
            let second = bound_from(alloc, second.into_inner())?;
            let first = Boxed::new(alloc, first)?;
            let second = Boxed::new(alloc, second)?;
            Ok(Bound::Split(colour, part, first, second))
        }
    }
}
