//! A candidate's graph with what its vertices and colours stand for.
ghost use Rattle.std.specs.Prelude.{◌≡◌};
ghost use Rattle.loss_graph.specs.LossGraph.{IsLossGraph};

use colour_graph::ColourGraph;
use element_table::Formulas;
use std::marker::Model;

/// Numbers of lists.
#[derive(Debug, Drop)]
pub struct PeakNumbers {
    items: Vec<u16>,
}

impl Model for PeakNumbers {
    ghost use Rattle.std.specs.Prelude.{List, ℕ};

    ghost Value = { List ℕ };

    ghost view = { λ numbers. numbers.items.items };
}

impl PeakNumbers {
    /// The list of these numbers.
    pub fn of(items: Vec<u16>) -> PeakNumbers
        ensures { result ≡ items.items }
    {
        PeakNumbers { items }
    }

    /// The numbers.
    pub fn items(&self) -> &[u16]
        ensures { result.now ≡ self.now }
    {
        &self.items
    }
}

/// The graph of a candidate: the formula of each vertex, and for each colour, from 1 on, the number of its list. The
/// formula of each edge's head is a proper part of its tail's.
#[derive(Debug, Drop)]
pub struct LossGraph {
    pub graph: ColourGraph,
    pub formulas: Formulas,
    pub peaks: PeakNumbers,
}

impl Model for LossGraph {
    ghost use Rattle.loss_graph.specs.LossGraph.{IsLossGraph, LossGraphValue};

    ghost Value = { LossGraphValue };

    ghost view = { λ built. record { graph = built.graph; formulas = built.formulas; peaks = built.peaks } };

    ghost invariant = { λ built.
        IsLossGraph (record { graph = built.graph; formulas = built.formulas; peaks = built.peaks }) };
}

impl LossGraph {
    /// Every such value is one. A law for proofs: it does nothing.
    #[inline]
    pub fn is_loss_graph(&self)
        ensures { IsLossGraph self.now }
    {
        let _graph = &self.graph;
    }
}
