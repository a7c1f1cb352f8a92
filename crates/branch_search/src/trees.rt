//! Trees that are built a colour at a time, by the potentials of a certificate.
ghost use Rattle.std.specs.Prelude.{◌≡◌, ◌≤◌, ◌<◌, ◌+◌, ◌↔◌, ◌+ℤ◌, ◌-ℤ◌, ◌≤ℤ◌, IfOk, IsTrue, false, length, true};
ghost use Rattle.colour_graph.specs.EdgeSet.{IsSetOf};
ghost use Rattle.colour_graph.specs.Graph.{IsScore, colour_count, greatest_graph, head_colour};
ghost use Rattle.price_bound.specs.Plain.{IsPlain};
ghost use Rattle.tree_certificate.specs.BoundHolds.{IsDecided};
ghost use Rattle.tree_certificate.specs.PriceHolds.{FitsPrices, gain_by, price_total};
ghost use Rattle.branch_search.specs.inside.Choosing.{IsBestBefore, IsBestInto, IsCandidate, IsNear, IsTree};

use colour_graph::{Allowed, Colour, ColourGraph, EdgeId};
use std::alloc::{AllocError, Global};
use tree_certificate::PriceCert;

/// The edges of a tree, in rising order, and their score.
#[derive(Debug, Drop)]
pub(crate) struct Tree {
    pub edges: Vec<EdgeId>,
    pub score: i64,
}

/// A tree that takes, for each colour from the least on, the edge of greatest gain among those of the set that gain and
/// those of positive weight. Where the set has at most one edge into each colour and the prices are 0 with the least
/// potentials, its score is at least what these say of the graph.
pub(crate) fn tree_by(
    alloc: Global,
    graph: &ColourGraph,
    allowed: &Allowed,
    cert: &PriceCert,
) -> Result<Tree, AllocError>
    requires vertices { length graph.now.colours ≤ greatest_graph }
    requires set { IsSetOf graph.now allowed.now }
    requires fits { FitsPrices graph.now cert.now }
    ensures tree { IfOk result (λ tree. IsTree graph.now tree.edges.items tree.score) }
    ensures reached { IsDecided graph.now allowed.now → IsPlain graph.now allowed.now cert.now
        → IfOk result (λ tree. price_total graph.now cert.now ≤ℤ tree.score) }
{
    graph.is_graph();
    let mut marks = vec![in alloc; false; graph.vertex_count() as usize]?;
    marks[0] = true;
    let mut edges = Vec::new(alloc);
    let mut colour = 0;
    while u32::from(colour) < graph.colour_count() {
        colour += 1;
        if let Some(edge) = best_into(graph, allowed, cert, &marks, colour) {
            marks[usize::from(graph.edge_at(edge).head)] = true;
            edges.push(edge)?;
        }
    }
    let score = graph.tree_score(&edges);
    Ok(Tree { edges, score })
}

/// The edge into a colour that a tree takes whose vertices are marked, or none where it may take none.
fn best_into(
    graph: &ColourGraph,
    allowed: &Allowed,
    cert: &PriceCert,
    marks: &[bool],
    colour: Colour,
) -> Option<EdgeId>
    requires set { IsSetOf graph.now allowed.now }
    requires fits { FitsPrices graph.now cert.now }
    requires marks { length marks.now ≡ length graph.now.colours }
    requires colour { (0 < colour) × (colour ≤ colour_count graph.now) }
    ensures { IsBestInto graph.now allowed.now cert.now marks.now colour result }
{
    let (first, past) = graph.edges_into(colour);
    let mut best = None;
    for place in first..past {
        best = better_of(graph, allowed, cert, marks, colour, best, place);
    }
    best
}

/// The same of the edges up to one, where it is known of those before it.
#[inline(always)]
fn better_of(
    graph: &ColourGraph,
    allowed: &Allowed,
    cert: &PriceCert,
    marks: &[bool],
    colour: Colour,
    best: Option<EdgeId>,
    place: EdgeId,
) -> Option<EdgeId>
    requires set { IsSetOf graph.now allowed.now }
    requires fits { FitsPrices graph.now cert.now }
    requires marks { length marks.now ≡ length graph.now.colours }
    requires colour { (0 < colour) × (colour ≤ colour_count graph.now) }
    requires within { place < length graph.now.edges }
    requires into { head_colour graph.now place ≡ colour }
    requires best { IsBestBefore graph.now allowed.now cert.now marks.now colour place best }
    ensures { IsBestBefore graph.now allowed.now cert.now marks.now colour (place + 1) result }
{
    if !may_take(graph, allowed, cert, marks, colour, place) {
        return best;
    }
    match best {
        Some(other) if is_no_less(graph, cert, colour, other, place) => best,
        _ => Some(place),
    }
}

/// Whether a tree whose vertices are marked may take an edge into a colour.
fn may_take(
    graph: &ColourGraph,
    allowed: &Allowed,
    cert: &PriceCert,
    marks: &[bool],
    colour: Colour,
    place: EdgeId,
) -> bool
    requires set { IsSetOf graph.now allowed.now }
    requires fits { FitsPrices graph.now cert.now }
    requires marks { length marks.now ≡ length graph.now.colours }
    requires colour { (0 < colour) × (colour ≤ colour_count graph.now) }
    requires within { place < length graph.now.edges }
    requires into { head_colour graph.now place ≡ colour }
    ensures { IsTrue result ↔ IsCandidate graph.now allowed.now cert.now marks.now colour place }
{
    let edge = graph.edge_at(place);
    if !marks[usize::from(edge.tail)] {
        return false;
    }
    edge.weight > 0 || allowed.has(place) && gain_at(graph, cert, colour, place) > 0
}

/// Whether an edge gains no less than another one into the same colour.
fn is_no_less(
    graph: &ColourGraph,
    cert: &PriceCert,
    colour: Colour,
    one: EdgeId,
    other: EdgeId,
) -> bool
    requires fits { FitsPrices graph.now cert.now }
    requires colour { (0 < colour) × (colour ≤ colour_count graph.now) }
    requires one { one < length graph.now.edges }
    requires other { other < length graph.now.edges }
    ensures yes { result ≡ true → gain_by graph.now cert.now colour other ≤ℤ gain_by graph.now cert.now colour one }
    ensures no { result ≡ false → gain_by graph.now cert.now colour one ≤ℤ gain_by graph.now cert.now colour other }
{
    gain_at(graph, cert, colour, other) <= gain_at(graph, cert, colour, one)
}

/// What is gained by an edge into a colour.
fn gain_at(graph: &ColourGraph, cert: &PriceCert, colour: Colour, place: EdgeId) -> i64
    requires fits { FitsPrices graph.now cert.now }
    requires colour { (0 < colour) × (colour ≤ colour_count graph.now) }
    requires within { place < length graph.now.edges }
    ensures { result ≡ gain_by graph.now cert.now colour place }
{
    let edge = graph.edge_at(place);
    let price = cert.prices()[usize::from(colour) - 1];
    let potential = cert.potentials()[usize::from(edge.head)];
    gained(edge.weight, price, potential)
}

/// A weight less a price, with a potential.
#[inline(always)]
fn gained(weight: i32, price: i64, potential: i64) -> i64
    requires weight { IsScore weight }
    requires price { IsNear price }
    requires potential { IsNear potential }
    ensures { result ≡ ((weight -ℤ price) +ℤ potential) }
{
    i64::from(weight) - price + potential
}
