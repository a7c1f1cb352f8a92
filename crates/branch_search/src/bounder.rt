//! A caller's pricing of sets of edges, beside what is known of it.
ghost use Rattle.std.specs.Prelude.{◌≡◌, ◌≤◌, Bool, List, Result, IfOk, length};
ghost use Rattle.std.specs.Borrow.{Bor};
ghost use Rattle.std.specs.declared.alloc.AllocError.{AllocError};
ghost use Rattle.std.proofs.Props.{props};
ghost use Rattle.colour_graph.specs.EdgeSet.{IsSetOf};
ghost use Rattle.colour_graph.specs.Graph.{Graph, greatest_graph};
ghost use Rattle.tree_certificate.specs.BoundValue.{PriceValue};
ghost use Rattle.branch_search.specs.Pricing.{IsAsked, IsPriced, PricesSets};

use colour_graph::{Allowed, ColourGraph};
use std::alloc::AllocError;
use tree_certificate::PriceCert;

/// A pricing of sets of edges, boxed, so that a bounder can keep what is known of it. Its error is want of memory.
pub type Pricing = Box<dyn Fn(&ColourGraph, &Allowed) -> Result<PriceCert, AllocError>>;

/// A pricing. Of every bounder it is true that its pricing may be called on every graph of at most `GREATEST_GRAPH`
/// vertices with every set of its edges, and that each certificate that it answers holds on that set and says no more
/// of the whole graph than the set's cap.
#[derive(Drop)]
pub struct Bounder {
    pricing: Pricing,
    ghost callable: { (graph : Bor Graph) (allowed : Bor (List Bool)) → IsAsked graph.now allowed.now
        → Pricing.pre pricing graph allowed },
    ghost right: { (graph : Bor Graph) (allowed : Bor (List Bool)) (answer : Result PriceValue AllocError)
        → IsAsked graph.now allowed.now → Pricing.post pricing graph allowed answer
        → IfOk answer (IsPriced graph.now allowed.now) } by { Prim.hlevel props },
}

impl Bounder {
    /// The bounder of a pricing.
    pub fn new(pricing: Pricing) -> Bounder
        requires { PricesSets (Pricing.pre pricing) (Pricing.post pricing) }
        ensures { result.pricing ≡ pricing }
    {
        Bounder { pricing }
    }

    /// What the pricing answers for a graph and a set of its edges: prices and potentials that hold on the set and say
    /// no more of the whole graph than the cap of the set. The graph has at most `GREATEST_GRAPH` vertices. The error
    /// is want of memory.
    pub fn ask(&self, graph: &ColourGraph, allowed: &Allowed) -> Result<PriceCert, AllocError>
        requires vertices { length graph.now.colours ≤ greatest_graph }
        requires set { IsSetOf graph.now allowed.now }
        ensures answer { Pricing.post self.now.pricing graph.entry allowed.entry result }
        ensures priced { IfOk result (IsPriced graph.now allowed.now) }
    {
        graph.is_graph();
        (self.pricing)(graph, allowed)
    }
}
