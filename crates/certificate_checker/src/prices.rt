//! Whether prices and potentials hold, and the first place where they fail.
ghost use Rattle.std.specs.Prelude.{◌≡◌, ◌≤◌, ◌-◌, ◌↔◌, ◌+ℤ◌, ◌≤ℤ◌, ℤ, IsTrue, MatchOption, length};
ghost use Rattle.colour_graph.specs.Bounded.{IsBounded};
ghost use Rattle.colour_graph.specs.Colourful.{total};
ghost use Rattle.colour_graph.specs.EdgeSet.{IsSetOf};
ghost use Rattle.colour_graph.specs.Graph.{IsScore, greatest_graph};
ghost use Rattle.tree_certificate.specs.Number.{AreNear};
ghost use Rattle.tree_certificate.specs.PriceHolds.{AreNotNegative, FitsPrices, PriceHolds, price_total};
ghost use Rattle.certificate_checker.specs.BoundPlaces.{IsLeafPlace, IsNegativePlace};
ghost use Rattle.certificate_checker.specs.inside.Enough.{IsNumber};
ghost use Rattle.certificate_checker.specs.inside.Gained.{IsPriceSum};

use crate::needed::gather_needed;
use colour_graph::{Allowed, Colour, ColourGraph, GREATEST_GRAPH};
use tree_certificate::{Place, PriceCert, what_prices_hold_bounds_every_tree};

/// Whether prices and potentials hold on a set of edges of a graph of at most `GREATEST_GRAPH` vertices, and what they
/// say of it is at most an upper bound. Then no colourful list of edges of the set scores more than that.
pub fn check_prices(graph: &ColourGraph, allowed: &Allowed, cert: &PriceCert, upper: i64) -> bool
    requires vertices { length graph.now.colours ≤ greatest_graph }
    requires set { IsSetOf graph.now allowed.now }
    ensures exactly { IsTrue result
        ↔ (PriceHolds graph.now allowed.now cert.now × (price_total graph.now cert.now ≤ℤ upper)) }
    ensures bounded { IsTrue result → IsBounded graph.now allowed.now upper }
{
    what_prices_hold_bounds_every_tree();
    graph.is_graph();
    wrong_prices(graph, allowed, cert, upper, 0).is_none()
}

/// The first place where a leaf fails on a set of edges, and where its total is above an upper bound.
#[inline(never)]
pub(crate) fn wrong_prices(
    graph: &ColourGraph,
    allowed: &Allowed,
    cert: &PriceCert,
    upper: i64,
    node: u32,
) -> Option<Place>
    requires vertices { length graph.now.colours ≤ greatest_graph }
    requires set { IsSetOf graph.now allowed.now }
    ensures { MatchOption result
        (PriceHolds graph.now allowed.now cert.now × (price_total graph.now cert.now ≤ℤ upper))
        (λ place. IsLeafPlace graph.now allowed.now cert.now upper node place) }
{
    if !fits_prices(graph, cert) {
        return Some(Place::PriceShape(node));
    }
    if let Some(colour) = first_negative(graph, cert) {
        return Some(Place::PriceNegative(node, colour));
    }
    if let Some(place) = low_potential(graph, allowed, cert, node) {
        return Some(place);
    }
    let total = total_of(graph, cert);
    if total > upper {
        Some(Place::LeafTotal(node, total))
    } else {
        None
    }
}

/// Whether there is a price for each colour and a potential for each vertex.
fn fits_prices(graph: &ColourGraph, cert: &PriceCert) -> bool
    ensures { IsTrue result ↔ FitsPrices graph.now cert.now }
{
    cert.prices().len() == graph.colour_count() as usize
        && cert.potentials().len() == graph.vertex_count() as usize
}

/// The first colour whose price is below 0.
fn first_negative(graph: &ColourGraph, cert: &PriceCert) -> Option<Colour>
    requires vertices { length graph.now.colours ≤ greatest_graph }
    requires fits { FitsPrices graph.now cert.now }
    ensures { MatchOption result (AreNotNegative cert.now.prices)
        (λ colour. IsNegativePlace graph.now cert.now colour) }
{
    graph.is_graph();
    let prices = cert.prices();
    for place in 0..prices.len() {
        if prices[place] < 0 {
            return Some(place as Colour + 1);
        }
    }
    None
}

/// The place in a leaf of the first vertex whose potential is lower than it needs to be.
fn low_potential(
    graph: &ColourGraph,
    allowed: &Allowed,
    cert: &PriceCert,
    node: u32,
) -> Option<Place>
    requires vertices { length graph.now.colours ≤ greatest_graph }
    requires set { IsSetOf graph.now allowed.now }
    requires fits { FitsPrices graph.now cert.now }
    requires prices { AreNotNegative cert.now.prices }
    ensures { MatchOption result (PriceHolds graph.now allowed.now cert.now)
        (λ place. (upper : ℤ) → IsLeafPlace graph.now allowed.now cert.now upper node place) }
{
    let mut needed = [0i64; GREATEST_GRAPH as usize];
    let mut gains = [0i64; GREATEST_GRAPH as usize];
    gather_needed(graph, allowed, cert, &mut needed, &mut gains);
    let potentials = cert.potentials();
    for vertex in 0..graph.vertex_count() {
        let held = potentials[vertex as usize];
        let least = needed[vertex as usize];
        if held < least {
            return Some(Place::PotentialLow(node, vertex, held, least));
        }
    }
    None
}

/// What prices and potentials say of the whole graph.
pub fn total_of(graph: &ColourGraph, cert: &PriceCert) -> i64
    requires vertices { length graph.now.colours ≤ greatest_graph }
    requires fits { FitsPrices graph.now cert.now }
    requires prices { AreNotNegative cert.now.prices }
    ensures { result ≡ price_total graph.now cert.now }
{
    graph.is_graph();
    added(
        graph.root_score(),
        cert.potentials()[0],
        sum_of(cert.prices()),
    )
}

/// The sum of a score, a potential and prices.
#[inline(always)]
fn added(score: i32, potential: i64, prices: i64) -> i64
    requires score { IsScore score }
    requires potential { IsNumber potential }
    requires prices { IsPriceSum greatest_graph prices }
    ensures { result ≡ score +ℤ (potential +ℤ prices) }
{
    i64::from(score) + (potential + prices)
}

/// The sum of prices, none of which is below 0.
fn sum_of(prices: &[i64]) -> i64
    requires few { length prices.now ≤ greatest_graph }
    requires near { AreNear prices.now }
    requires not_negative { AreNotNegative prices.now }
    ensures total { result ≡ total prices.now }
    ensures near { IsPriceSum greatest_graph result }
{
    let mut sum = 0;
    for price in prices {
        sum = with_price(sum, *price);
    }
    sum
}

/// The sum of some prices and one more.
#[inline(always)]
fn with_price(sum: i64, price: i64) -> i64
    requires sum { IsPriceSum (greatest_graph - 1) sum }
    requires price { IsPriceSum 1 price }
    ensures { result ≡ sum +ℤ price }
{
    sum + price
}
