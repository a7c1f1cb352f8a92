//! Laws of the definitions, which a check of this crate proves.
ghost use Rattle.std.specs.Prelude.{ℕ, List};
ghost use Rattle.colour_graph.specs.Bounded.{IsBest};
ghost use Rattle.colour_graph.specs.Graph.{Graph, IsGraph};
ghost use Rattle.colour_graph.specs.Maximal.{IsMaximal};

/// No edge can be added to a best list of edges with gain.
pub fn a_best_list_is_maximal()
    ensures { (graph : Graph) (edges : List ℕ) → IsGraph graph → IsBest graph edges → IsMaximal graph edges }
{}
