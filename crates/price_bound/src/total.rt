//! What prices and potentials say of a whole graph.
ghost use Rattle.std.specs.Prelude.{◌≡◌, ◌≤◌, length};
ghost use Rattle.colour_graph.specs.Colourful.{total};
ghost use Rattle.colour_graph.specs.Graph.{colour_count, greatest_vertices};
ghost use Rattle.tree_certificate.specs.Number.{AreNear};
ghost use Rattle.tree_certificate.specs.PriceHolds.{price_total};

use colour_graph::ColourGraph;
use tree_certificate::PriceCert;

/// What prices and potentials say of the whole graph: the root's score and potential and all prices, in units of
/// scores. Where they hold on a set of edges, no colourful list of its edges scores more.
pub fn bound_of(graph: &ColourGraph, cert: &PriceCert) -> i64
    requires prices { length cert.now.prices ≡ colour_count graph.now }
    requires potentials { length cert.now.potentials ≡ length graph.now.colours }
    ensures { result ≡ price_total graph.now cert.now }
{
    total_of(graph, cert.prices(), cert.potentials())
}

/// The same of a slice of prices and one of potentials.
pub(crate) fn total_of(graph: &ColourGraph, prices: &[i64], potentials: &[i64]) -> i64
    requires prices { length prices.now ≡ colour_count graph.now }
    requires potentials { length potentials.now ≡ length graph.now.colours }
    requires prices_near { AreNear prices.now }
    requires potentials_near { AreNear potentials.now }
    ensures { result ≡ price_total graph.now (record { prices = prices.now; potentials = potentials.now }) }
{
    graph.is_graph();
    i64::from(graph.root_score()) + (potentials[0] + sum(prices))
}

/// The sum of some numbers of a certificate.
pub(crate) fn sum(numbers: &[i64]) -> i64
    requires few { length numbers.now ≤ greatest_vertices }
    requires near { AreNear numbers.now }
    ensures { result ≡ total numbers.now }
{
    let mut sum = 0;
    for number in numbers {
        sum += *number;
    }
    sum
}
