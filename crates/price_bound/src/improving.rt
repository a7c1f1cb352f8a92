//! Prices that say little: a walk over scaled prices, whose best ones are offered as whole numbers.
ghost use Rattle.std.specs.Prelude.{◌≡◌, ◌≤◌, ◌≤ℤ◌, IfOk, length};
ghost use Rattle.colour_graph.specs.Cap.{cap_of};
ghost use Rattle.colour_graph.specs.EdgeSet.{IsSetOf};
ghost use Rattle.colour_graph.specs.Graph.{greatest_graph};
ghost use Rattle.price_bound.specs.inside.Kept.{AreOffers};
ghost use Rattle.price_bound.specs.inside.Packed.{IsPacked};
ghost use Rattle.tree_certificate.specs.PriceHolds.{PriceHolds, price_total};

use crate::offers::Offers;
use crate::packed::{GREATEST_PRICE, Numbers, ONE, Packed, ROOM};
use crate::rounds::best_prices;
use colour_graph::{Allowed, ColourGraph};
use std::alloc::{AllocError, Global};
use tree_certificate::PriceCert;

/// How often all prices are tried one higher or lower.
const PASSES: u32 = 4;

/// Prices and potentials, in units of scores, that hold on a set of edges of a graph of at most `GREATEST_GRAPH`
/// vertices and say no more of the whole graph than the cap of the set. They are found by a subgradient walk over
/// prices, as for Lagrangian relaxations (Held and Karp 1971), and are not always the best ones. The error is want of
/// memory.
pub fn improve(
    alloc: Global,
    graph: &ColourGraph,
    allowed: &Allowed,
) -> Result<PriceCert, AllocError>
    requires vertices { length graph.now.colours ≤ greatest_graph }
    requires set { IsSetOf graph.now allowed.now }
    ensures holds { IfOk result (λ cert. PriceHolds graph.now allowed.now cert) }
    ensures capped { IfOk result (λ cert. price_total graph.now cert ≤ℤ cap_of graph.now allowed.now) }
{
    let mut offers = Offers::new(alloc, graph, allowed)?;
    let packed = Packed::new(alloc, graph, allowed)?;
    lower_total(graph, allowed, &packed, &mut offers);
    Ok(PriceCert::new(offers.kept.prices, offers.kept.potentials).unwrap())
}

/// Lowers what the prices that are kept say: by the best prices of a walk, then by prices one higher or lower.
fn lower_total(graph: &ColourGraph, allowed: &Allowed, packed: &Packed, offers: &mut Offers)
    requires vertices { length graph.now.colours ≤ greatest_graph }
    requires set { IsSetOf graph.now allowed.now }
    requires packed { IsPacked packed.now }
    requires offers { AreOffers graph.now allowed.now offers.old }
    ensures offers { AreOffers graph.now allowed.now offers.new }
{
    graph.is_graph();
    let best = best_prices(
        packed,
        &scaled(&offers.kept.prices),
        graph.colour_count() as usize,
    );
    offers.offer_scaled(graph, allowed, &best);
    for _ in 0..PASSES {
        let before = offers.kept.total;
        try_neighbours(graph, allowed, packed, offers);
        if offers.kept.total == before {
            break;
        }
    }
}

/// Tries each price one higher where its colour is used more than once, and one lower where it is not used.
fn try_neighbours(graph: &ColourGraph, allowed: &Allowed, packed: &Packed, offers: &mut Offers)
    requires vertices { length graph.now.colours ≤ greatest_graph }
    requires set { IsSetOf graph.now allowed.now }
    requires packed { IsPacked packed.now }
    requires offers { AreOffers graph.now allowed.now offers.old }
    ensures offers { AreOffers graph.now allowed.now offers.new }
{
    graph.is_graph();
    let prices = scaled(&offers.kept.prices);
    let potentials = packed.potentials(&prices);
    let uses = packed.uses(&prices, &potentials);
    for colour in 0..graph.colour_count() as usize {
        let price = offers.kept.prices[colour];
        if uses[colour] > 1 {
            offers.offer_one(graph, allowed, colour, price.saturating_add(1));
        } else if uses[colour] == 0 && price > 0 {
            offers.offer_one(graph, allowed, colour, price.saturating_sub(1));
        }
    }
}

/// Prices scaled.
fn scaled(prices: &[i64]) -> Numbers
    requires { length prices.now ≤ greatest_graph }
{
    let mut scaled = [0; ROOM];
    for colour in 0..prices.len() {
        scaled[colour] = prices[colour].clamp(0, GREATEST_PRICE) * ONE;
    }
    scaled
}
