//! Leaves of the search: the prices of a set, and the tree that is built by them.
ghost use Rattle.std.specs.Prelude.{◌≡◌, ◌≤◌, ◌≤ℤ◌, IfOk, OnOk, length};
ghost use Rattle.colour_graph.specs.EdgeSet.{IsSetOf};
ghost use Rattle.colour_graph.specs.Graph.{greatest_graph};
ghost use Rattle.tree_certificate.specs.PriceHolds.{PriceHolds, price_total};
ghost use Rattle.branch_search.specs.inside.Choosing.{IsTree};
ghost use Rattle.branch_search.specs.inside.Growing.{IsLeaf};

use crate::bounder::Bounder;
use crate::splitting::open_colour;
use crate::trees::{Tree, tree_by};
use colour_graph::{Allowed, ColourGraph};
use price_bound::{bound_of, plain};
use std::alloc::{AllocError, Global};
use tree_certificate::{PriceCert, the_cap_bounds_every_tree};

/// A certificate that holds on a set of edges, and what it says of the whole graph.
#[derive(Debug, Drop)]
pub(crate) struct Leaf {
    pub cert: PriceCert,
    pub total: i64,
}

/// The certificate of a set, and the tree that is built by it: by prices of 0 where the set has at most one edge into
/// each colour, else by the pricing.
pub(crate) fn own_leaf(
    alloc: Global,
    graph: &ColourGraph,
    bounder: &Bounder,
    allowed: &Allowed,
) -> Result<(Leaf, Tree), AllocError>
    requires vertices { length graph.now.colours ≤ greatest_graph }
    requires set { IsSetOf graph.now allowed.now }
    ensures leaf { IfOk result (λ own. IsLeaf graph.now allowed.now own.1.score own.0.cert own.0.total) }
    ensures tree { IfOk result (λ own. IsTree graph.now own.1.edges.items own.1.score) }
{
    the_cap_bounds_every_tree();
    graph.is_graph();
    let cert = if open_colour(graph, allowed).is_some() {
        bounder.ask(graph, allowed)?
    } else {
        plain(alloc, graph, allowed)?
    };
    let total = bound_of(graph, &cert);
    let tree = tree_by(alloc, graph, allowed, &cert)?;
    Ok((Leaf { cert, total }, tree))
}

/// The leaf of a side: of its own certificate and the one above it, that which says less. A better tree is kept.
pub(crate) fn side_leaf(
    alloc: Global,
    graph: &ColourGraph,
    bounder: &Bounder,
    allowed: &Allowed,
    above: &Leaf,
    best: &mut Tree,
) -> Result<Leaf, AllocError>
    requires vertices { length graph.now.colours ≤ greatest_graph }
    requires set { IsSetOf graph.now allowed.now }
    requires holds { PriceHolds graph.now allowed.now above.now.cert }
    requires total { above.now.total ≡ price_total graph.now above.now.cert }
    requires best { IsTree graph.now best.old.edges.items best.old.score }
    ensures leaf { IfOk result (λ leaf. IsLeaf graph.now allowed.now best.new.score leaf.cert leaf.total) }
    ensures less { IfOk result (λ leaf. leaf.total ≤ℤ above.now.total) }
    ensures best { OnOk result (IsTree graph.now best.new.edges.items best.new.score) }
    ensures better { OnOk result (best.old.score ≤ℤ best.new.score) }
{
    let (own, tree) = own_leaf(alloc, graph, bounder, allowed)?;
    if tree.score > best.score {
        *best = tree;
    }
    if own.total <= above.total {
        Ok(own)
    } else {
        let cert = copy_of(alloc, &above.cert)?;
        Ok(Leaf {
            cert,
            total: above.total,
        })
    }
}

/// The same certificate once more.
fn copy_of(alloc: Global, cert: &PriceCert) -> Result<PriceCert, AllocError>
    ensures { IfOk result (λ copy. copy ≡ cert.now) }
{
    let prices = Vec::from_slice(alloc, cert.prices())?;
    let potentials = Vec::from_slice(alloc, cert.potentials())?;
    Ok(PriceCert::of_numbers(prices, potentials))
}
