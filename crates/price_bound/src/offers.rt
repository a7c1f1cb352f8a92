//! The best certificate so far, and others that are tried in its place.
ghost use Rattle.std.specs.Prelude.{◌≤◌, ◌<◌, IfOk, length};
ghost use Rattle.colour_graph.specs.EdgeSet.{IsSetOf};
ghost use Rattle.colour_graph.specs.Graph.{colour_count, greatest_graph};
ghost use Rattle.price_bound.specs.inside.Exact.{AreAmounts, IsAmount};
ghost use Rattle.price_bound.specs.inside.Kept.{AreOffers};

use crate::exact::set_potentials;
use crate::packed::{GREATEST_PRICE, Numbers, ONE};
use crate::starting::greatest_weights;
use crate::total::{sum, total_of};
use colour_graph::{Allowed, ColourGraph};
use std::alloc::{AllocError, Global};
use std::mem;

/// Prices and potentials, and what they say of the whole graph.
#[derive(Debug, Drop)]
pub(crate) struct Priced {
    pub prices: Vec<i64>,
    pub potentials: Vec<i64>,
    pub total: i64,
}

/// The best certificate so far, and room to try another one.
#[derive(Debug, Drop)]
pub(crate) struct Offers {
    pub kept: Priced,
    trial: Priced,
    gains: Vec<i64>,
}

impl Offers {
    /// The certificate of the cap: each price is the best edge into its colour, and the potentials are 0.
    pub fn new(alloc: Global, graph: &ColourGraph, allowed: &Allowed) -> Result<Offers, AllocError>
        requires set { IsSetOf graph.now allowed.now }
        ensures offers { IfOk result (λ offers. AreOffers graph.now allowed.now offers) }
    {
        let vertices = graph.vertex_count() as usize;
        graph.is_graph();
        let prices = greatest_weights(alloc, graph, allowed)?;
        let total = i64::from(graph.root_score()) + sum(&prices);
        let kept = Priced {
            prices,
            potentials: vec![in alloc; 0i64; vertices]?,
            total,
        };
        let trial = Priced {
            prices: vec![in alloc; 0i64; graph.colour_count() as usize]?,
            potentials: vec![in alloc; 0i64; vertices]?,
            total: 0,
        };
        let gains = vec![in alloc; 0i64; vertices]?;
        Ok(Offers { kept, trial, gains })
    }

    /// Tries scaled prices, to the nearest whole numbers.
    pub fn offer_scaled(&mut self, graph: &ColourGraph, allowed: &Allowed, scaled: &Numbers)
        requires vertices { length graph.now.colours ≤ greatest_graph }
        requires set { IsSetOf graph.now allowed.now }
        requires offers { AreOffers graph.now allowed.now self.old }
        ensures offers { AreOffers graph.now allowed.now self.new }
    {
        graph.is_graph();
        round(&mut self.trial.prices, scaled);
        self.offer(graph, allowed);
    }

    /// Tries the prices that are kept with another price for one colour, counted from 0.
    pub fn offer_one(&mut self, graph: &ColourGraph, allowed: &Allowed, colour: usize, price: i64)
        requires set { IsSetOf graph.now allowed.now }
        requires colour { colour < colour_count graph.now }
        requires offers { AreOffers graph.now allowed.now self.old }
        ensures offers { AreOffers graph.now allowed.now self.new }
    {
        self.trial.prices.copy_from_slice(&self.kept.prices);
        self.trial.prices[colour] = price.clamp(0, GREATEST_PRICE);
        self.offer(graph, allowed);
    }

    /// Keeps the prices that are tried, with their least potentials, where their total is lower.
    fn offer(&mut self, graph: &ColourGraph, allowed: &Allowed)
        requires set { IsSetOf graph.now allowed.now }
        requires offers { AreOffers graph.now allowed.now self.old }
        ensures offers { AreOffers graph.now allowed.now self.new }
    {
        let trial = &mut self.trial;
        if set_potentials(
            graph,
            allowed,
            &trial.prices,
            &mut trial.potentials,
            &mut self.gains,
        ) {
            trial.total = total_of(graph, &trial.prices, &trial.potentials);
            if trial.total < self.kept.total {
                mem::swap(&mut self.kept, &mut self.trial);
            }
        }
    }
}

/// Writes scaled prices to the nearest whole numbers.
fn round(prices: &mut [i64], scaled: &Numbers)
    requires { length prices.old ≤ greatest_graph }
    ensures { AreAmounts prices.new }
{
    for colour in 0..prices.len() {
        prices[colour] = nearest(scaled[colour]);
    }
}

/// A scaled price as the nearest whole number.
fn nearest(scaled: i64) -> i64
    ensures { IsAmount result }
{
    (scaled.saturating_add(ONE / 2) / ONE).clamp(0, GREATEST_PRICE)
}
