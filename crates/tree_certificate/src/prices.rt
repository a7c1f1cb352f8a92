//! A certificate that is prices and potentials.
ghost use Rattle.std.specs.Prelude.{◌≡◌, ◌↔◌, IsSome, IfSome};
ghost use Rattle.std.specs.List.{list_all};
ghost use Rattle.tree_certificate.specs.Number.{AreNear, greatest_number, is_near};

use crate::table::are_near_zero;
use std::marker::Model;

/// A price for each colour of a graph, from 1 on, and a potential for each vertex: whole numbers within 10^15 of 0.
#[derive(Debug, Drop)]
pub struct PriceCert {
    prices: Vec<i64>,
    potentials: Vec<i64>,
}

impl Model for PriceCert {
    ghost use Rattle.tree_certificate.specs.Number.{AreNear};
    ghost use Rattle.tree_certificate.specs.BoundValue.{PriceValue};

    ghost Value = { PriceValue };

    ghost view = { λ cert. record { prices = cert.prices.items; potentials = cert.potentials.items } };

    ghost invariant = { λ cert. (AreNear cert.prices.items) × (AreNear cert.potentials.items) };
}

impl PriceCert {
    /// The certificate of these prices and potentials, and none exactly where a number is more than 10^15 away from 0.
    pub fn new(prices: Vec<i64>, potentials: Vec<i64>) -> Option<PriceCert>
        ensures some { IsSome result ↔ ((AreNear prices.items) × (AreNear potentials.items)) }
        ensures numbers { IfSome result
            (λ cert. cert ≡ record { prices = prices.items; potentials = potentials.items }) }
    {
        if are_near_zero(&prices) && are_near_zero(&potentials) {
            Some(PriceCert { prices, potentials })
        } else {
            None
        }
    }

    /// The certificate of numbers that may stand in one.
    pub fn of_numbers(prices: Vec<i64>, potentials: Vec<i64>) -> PriceCert
        requires prices { AreNear prices.items }
        requires potentials { AreNear potentials.items }
        ensures { result ≡ record { prices = prices.items; potentials = potentials.items } }
    {
        PriceCert { prices, potentials }
    }

    /// The prices, by colour from 1 on.
    pub fn prices(&self) -> &[i64]
        ensures prices { result.now ≡ self.now.prices }
        ensures numbers { AreNear result.now }
    {
        &self.prices
    }

    /// The potentials, by vertex.
    pub fn potentials(&self) -> &[i64]
        ensures potentials { result.now ≡ self.now.potentials }
        ensures numbers { AreNear result.now }
    {
        &self.potentials
    }
}
