//! Whether prices and splits hold, and the first place where they fail.
ghost use Rattle.std.specs.Prelude.{◌≡◌, ◌≤◌, ◌<◌, ◌+◌, ◌^◌, ◌↔◌, IfOk, Ok, length};
ghost use Rattle.colour_graph.specs.EdgeSet.{IsSetOf, all_edges};
ghost use Rattle.tree_certificate.specs.BoundHolds.{BoundHolds, depth_of, greatest_depth, nodes_of, splits_of};
ghost use Rattle.tree_certificate.specs.BoundValue.{priced};
ghost use Rattle.tree_certificate.specs.BoundView.{bound_value};
ghost use Rattle.certificate_checker.specs.BoundPlaces.{IsBoundVerdict, IsVerdictFrom};
ghost use Rattle.certificate_checker.specs.declared.verdict.Verdict.TheVariants.{Holds};
ghost use Rattle.colour_graph.specs.Graph.{greatest_graph};

use crate::prices::wrong_prices;
use crate::sides::{give_back, keep_only, put_part, take_part, wrong_split};
use crate::verdict::Verdict;
use colour_graph::{Allowed, ColourGraph, EdgeId};
use std::alloc::{AllocError, Global};
use tree_certificate::{Bound, PriceCert};

/// Whether prices and splits hold for an upper bound of a graph of at most `GREATEST_GRAPH` vertices, or the first
/// place where they fail.
pub(crate) fn check_bound(
    alloc: Global,
    graph: &ColourGraph,
    bound: &Bound,
    upper: i64,
) -> Result<Verdict, AllocError>
    requires vertices { length graph.now.colours ≤ greatest_graph }
    requires depth { depth_of (bound_value bound.now) ≤ greatest_depth }
    requires few { splits_of (bound_value bound.now) < 2 ^ 31 }
    ensures verdict { IfOk result
        (λ verdict. IsBoundVerdict graph.now (all_edges graph.now) (bound_value bound.now) upper verdict) }
    ensures exactly { IfOk result
        (λ verdict. (verdict ≡ Holds) ↔ BoundHolds graph.now (all_edges graph.now) (bound_value bound.now) upper) }
{
    let mut allowed = Allowed::all(alloc, graph)?;
    let mut taken = Vec::new(alloc);
    let mut next = 0;
    check_node(graph, bound, upper, &mut allowed, &mut taken, &mut next)
}

/// Whether the bound that begins at a node holds on a set of edges, or the first place where it fails. Where it holds,
/// the next number is that of the node behind it. The edges that are taken out of the set stand behind those taken out
/// before, and are put back.
fn check_node(
    graph: &ColourGraph,
    bound: &Bound,
    upper: i64,
    allowed: &mut Allowed,
    taken: &mut Vec<EdgeId>,
    next: &mut u32,
) -> Result<Verdict, AllocError>
    requires vertices { length graph.now.colours ≤ greatest_graph }
    requires depth { depth_of (bound_value bound.now) ≤ greatest_depth }
    requires few { next.old + nodes_of (bound_value bound.now) < 2 ^ 32 }
    requires set { IsSetOf graph.now allowed.old }
    ensures verdict { IfOk result
        (λ verdict. IsVerdictFrom graph.now allowed.old (bound_value bound.now) upper next.old verdict) }
    ensures behind { result ≡ Ok Holds → next.new ≡ next.old + nodes_of (bound_value bound.now) }
    ensures set { IfOk result (λ verdict. allowed.new ≡ allowed.old) }
    ensures taken { IfOk result (λ verdict. taken.new.items ≡ taken.old.items) }
{
    let node = *next;
    *next += 1;
    match bound {
        Bound::Priced(cert) => Ok(check_leaf(graph, allowed, cert, upper, node)),
        Bound::Split(colour, part, first, second) => {
            let part = part.as_slice();
            if let Some(place) = wrong_split(graph, allowed, *colour, part, node) {
                return Ok(Verdict::Fails(place));
            }
            let before = taken.len();
            keep_only(graph, allowed, *colour, part, taken)?;
            let side = check_node(graph, first.get(), upper, allowed, taken, next)?;
            give_back(allowed, taken, before);
            if let Verdict::Fails(place) = side {
                return Ok(Verdict::Fails(place));
            }
            take_part(allowed, part);
            let side = check_node(graph, second.get(), upper, allowed, taken, next)?;
            put_part(allowed, part);
            Ok(side)
        }
    }
}

/// Whether a leaf holds on a set of edges for an upper bound, or the first place where it fails.
fn check_leaf(
    graph: &ColourGraph,
    allowed: &Allowed,
    cert: &PriceCert,
    upper: i64,
    node: u32,
) -> Verdict
    requires vertices { length graph.now.colours ≤ greatest_graph }
    requires set { IsSetOf graph.now allowed.now }
    ensures { IsVerdictFrom graph.now allowed.now (priced cert.now) upper node result }
{
    match wrong_prices(graph, allowed, cert, upper, node) {
        None => Verdict::Holds,
        Some(place) => Verdict::Fails(place),
    }
}
