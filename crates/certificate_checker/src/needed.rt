//! What the potentials of vertices are to be at least, by the prices of colours.
ghost use Rattle.std.specs.Prelude.{◌≡◌, ◌≤◌, ◌<◌, ◌-◌, ◌+ℤ◌, ◌-ℤ◌, pos, length, slice_set};
ghost use Rattle.std.specs.Int.{int_max};
ghost use Rattle.colour_graph.specs.EdgeSet.{IsSetOf};
ghost use Rattle.colour_graph.specs.Graph.{IsScore, colour_count, greatest_graph};
ghost use Rattle.tree_certificate.specs.PriceHolds.{FitsPrices};
ghost use Rattle.tree_certificate.specs.Number.{number_in};
ghost use Rattle.certificate_checker.specs.inside.Enough.{IsNumber};
ghost use Rattle.certificate_checker.specs.inside.Gained.{AreClear, AreGained, AreGainsOf, AreNeededBy, AreNeeds};
ghost use Rattle.certificate_checker.specs.inside.Gained.{AreOfTails, AreSums, IsEdgeGain, IsGained, IsNeed};

use colour_graph::{Allowed, Colour, ColourGraph};
use tree_certificate::PriceCert;

/// Adds up what each vertex gains by each colour. Both buffers are of zeros, with room for a number for each vertex.
pub(crate) fn gather_needed(
    graph: &ColourGraph,
    allowed: &Allowed,
    cert: &PriceCert,
    needed: &mut [i64],
    gains: &mut [i64],
)
    requires vertices { length graph.now.colours ≤ greatest_graph }
    requires set { IsSetOf graph.now allowed.now }
    requires fits { FitsPrices graph.now cert.now }
    requires room { length graph.now.colours ≤ length gains.old }
    requires long { length needed.old ≡ length gains.old }
    requires none { AreClear needed.old }
    requires clear { AreClear gains.old }
    ensures long { length needed.new ≡ length needed.old }
    ensures needed { AreNeededBy graph.now allowed.now cert.now (colour_count graph.now) needed.new }
{
    graph.is_graph();
    for before in 0..graph.colour_count() {
        let colour = before as Colour + 1;
        gather_best(graph, allowed, cert, colour, gains);
        add_gains(graph, colour, needed, gains);
    }
}

/// Gathers what vertices gain by a colour, each by the best of its edges there, in a buffer of zeros.
fn gather_best(
    graph: &ColourGraph,
    allowed: &Allowed,
    cert: &PriceCert,
    colour: Colour,
    gains: &mut [i64],
)
    requires set { IsSetOf graph.now allowed.now }
    requires fits { FitsPrices graph.now cert.now }
    requires not_root { 0 < colour }
    requires counted { colour ≤ colour_count graph.now }
    requires room { length graph.now.colours ≤ length gains.old }
    requires clear { AreClear gains.old }
    ensures long { length gains.new ≡ length gains.old }
    ensures gains { AreGainsOf graph.now allowed.now cert.now colour gains.new }
    ensures near { AreGained gains.new }
    ensures tails { AreOfTails graph.now colour 0 gains.new }
{
    let price = cert.prices()[usize::from(colour) - 1];
    let potentials = cert.potentials();
    let (first, past) = graph.edges_into(colour);
    for edge in first..past {
        if allowed.has(edge) {
            let here = graph.edge_at(edge);
            let gain = gain(here.weight, price, potentials[usize::from(here.head)]);
            raise(gains, usize::from(here.tail), gain);
        }
    }
}

/// What an edge gains: its weight less the price of its colour, and its head's potential.
#[inline(always)]
fn gain(weight: i32, price: i64, potential: i64) -> i64
    requires weight { IsScore weight }
    requires price { IsNumber price }
    requires potential { IsNumber potential }
    ensures gain { result ≡ (weight -ℤ price) +ℤ potential }
    ensures near { IsEdgeGain result }
{
    i64::from(weight) - price + potential
}

/// Raises what a vertex gains to what one edge gains, where that is more.
#[inline(always)]
fn raise(gains: &mut [i64], vertex: usize, gain: i64)
    requires vertex { vertex < length gains.old }
    requires held { IsGained (number_in gains.old vertex) }
    requires gain { IsEdgeGain gain }
    ensures { gains.new ≡ slice_set gains.old vertex (int_max (number_in gains.old vertex) gain) }
{
    gains[vertex] = gains[vertex].max(gain);
}

/// Adds what vertices gain by a colour to what they gain by smaller ones, and sets it back to 0.
fn add_gains(graph: &ColourGraph, colour: Colour, needed: &mut [i64], gains: &mut [i64])
    requires not_root { 0 < colour }
    requires counted { colour ≤ colour_count graph.now }
    requires few { colour ≤ greatest_graph }
    requires room { length graph.now.colours ≤ length gains.old }
    requires long { length needed.old ≡ length gains.old }
    requires needs { AreNeeds (colour - 1) needed.old }
    requires gained { AreGained gains.old }
    requires tails { AreOfTails graph.now colour 0 gains.old }
    ensures needs_long { length needed.new ≡ length needed.old }
    ensures gains_long { length gains.new ≡ length gains.old }
    ensures added { AreSums needed.new needed.old gains.old }
    ensures clear { AreClear gains.new }
{
    let (first, past) = graph.edges_into(colour);
    for edge in first..past {
        move_gain(needed, gains, usize::from(graph.edge_at(edge).tail));
    }
}

/// Adds what a vertex gains by a colour to what it gains by smaller ones, and sets it back to 0.
#[inline(always)]
fn move_gain(needed: &mut [i64], gains: &mut [i64], vertex: usize)
    requires needed_room { vertex < length needed.old }
    requires gains_room { vertex < length gains.old }
    requires needed { IsNeed greatest_graph (number_in needed.old vertex) }
    requires gained { IsGained (number_in gains.old vertex) }
    ensures added { needed.new
        ≡ slice_set needed.old vertex (number_in needed.old vertex +ℤ number_in gains.old vertex) }
    ensures clear { gains.new ≡ slice_set gains.old vertex (pos 0) }
{
    needed[vertex] += gains[vertex];
    gains[vertex] = 0;
}
