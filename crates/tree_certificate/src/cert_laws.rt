//! Laws of certificates: what bounds the score of every tree. A check of this crate proves them.
ghost use Rattle.std.specs.Prelude.{Bool, List, ℤ, ◌≤ℤ◌};
ghost use Rattle.colour_graph.specs.Bounded.{IsBounded};
ghost use Rattle.colour_graph.specs.Cap.{cap_of};
ghost use Rattle.colour_graph.specs.EdgeSet.{all_edges};
ghost use Rattle.colour_graph.specs.Graph.{Graph, IsGraph};
ghost use Rattle.tree_certificate.specs.BoundHolds.{BoundHolds};
ghost use Rattle.tree_certificate.specs.BoundValue.{BoundValue, PriceValue};
ghost use Rattle.tree_certificate.specs.CertHolds.{CertHolds};
ghost use Rattle.tree_certificate.specs.PriceHolds.{PriceHolds, price_total};
ghost use Rattle.tree_certificate.specs.Value.{CertValue};

/// No tree scores more than a number for which a certificate holds.
pub fn what_holds_bounds_every_tree()
    ensures { (graph : Graph) (cert : CertValue) (upper : ℤ) → IsGraph graph → CertHolds graph cert upper
        → IsBounded graph (all_edges graph) upper }
{}

/// No tree of edges of a set scores more than the cap of the set.
pub fn the_cap_bounds_every_tree()
    ensures { (graph : Graph) (allowed : List Bool) → IsGraph graph
        → IsBounded graph allowed (cap_of graph allowed) }
{}

/// No tree of edges of a set scores more than what prices and potentials that hold on the set say of the graph.
pub fn what_prices_hold_bounds_every_tree()
    ensures { (graph : Graph) (allowed : List Bool) (cert : PriceValue) (upper : ℤ) → IsGraph graph
        → PriceHolds graph allowed cert → price_total graph cert ≤ℤ upper → IsBounded graph allowed upper }
{}

/// No tree of edges of a set scores more than a number for which a bound holds on the set.
pub fn a_bound_that_holds_bounds_every_tree()
    ensures { (graph : Graph) (allowed : List Bool) (bound : BoundValue) (upper : ℤ) → IsGraph graph
        → BoundHolds graph allowed bound upper → IsBounded graph allowed upper }
{}
