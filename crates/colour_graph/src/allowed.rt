//! Sets of the edges of a graph.
ghost use Rattle.std.specs.Prelude.{◌≡◌, ◌≤◌, ◌<◌, ◌&&◌, ℕ, IfOk, false, length, nat_le, nat_lt, not, slice_set, true};
ghost use Rattle.std.specs.List.{All};
ghost use Rattle.colour_graph.specs.EdgeSet.{IsSetOf, all_edges, edges_into, is_allowed, keeping, leaving, only};
ghost use Rattle.colour_graph.specs.Graph.{colour_count};
ghost use Rattle.colour_graph.specs.inside.Sets.{AreBack};

use crate::bits::{is_marked, mark, unmark};
use crate::edge::{Colour, EdgeId};
use crate::graph::ColourGraph;
use std::alloc::{AllocError, Global};
use std::marker::Model;

/// A set of the edges of a graph, seen as a truth value for each of them. It is kept as bits.
#[derive(Debug, Drop)]
pub struct Allowed {
    words: Vec<u64>,
    count: u32,
}

impl Model for Allowed {
    ghost use Rattle.std.specs.Prelude.{◌≤◌, ◌*◌, Bool, List, length};
    ghost use Rattle.colour_graph.specs.inside.Bits.{marks_of};

    ghost Value = { List Bool };

    ghost view = { λ set. marks_of set.words.items set.count };

    ghost invariant = { λ set. set.count ≤ 64 * length set.words.items };
}

impl Allowed {
    /// The set of all edges of a graph.
    pub fn all(alloc: Global, graph: &ColourGraph) -> Result<Allowed, AllocError>
        ensures all { IfOk result (λ set. set ≡ all_edges graph.now) }
        ensures set { IfOk result (λ set. IsSetOf graph.now set) }
    {
        let count = graph.edge_count();
        let words = vec![in alloc; u64::MAX; count as usize / 64 + 1]?;
        Ok(Allowed { words, count })
    }

    /// Whether an edge is in the set.
    pub fn has(&self, edge: EdgeId) -> bool
        requires { edge < length self.now }
        ensures { result ≡ is_allowed self.now edge }
    {
        is_marked(&self.words, edge as usize)
    }

    /// How many edges of the set go to a colour.
    pub fn into_colour(&self, graph: &ColourGraph, colour: Colour) -> u32
        requires set { IsSetOf graph.now self.now }
        requires not_root { 0 < colour }
        requires counted { colour ≤ colour_count graph.now }
        ensures { result ≡ length (edges_into graph.now self.now colour) }
    {
        let (first, past) = graph.edges_into(colour);
        let mut count = 0;
        for edge in first..past {
            if self.has(edge) {
                count += 1;
            }
        }
        count
    }

    /// The set without the edges into a colour that are not in a part of it.
    pub fn only(
        &self,
        graph: &ColourGraph,
        colour: Colour,
        part: &[EdgeId],
    ) -> Result<Allowed, AllocError>
        requires set { IsSetOf graph.now self.now }
        requires not_root { 0 < colour }
        requires counted { colour ≤ colour_count graph.now }
        requires in_range { All (λ edge. edge < length self.now) part.now }
        ensures only { IfOk result (λ set. set ≡ only graph.now self.now colour part.now) }
        ensures set { IfOk result (λ set. IsSetOf graph.now set) }
    {
        let (first, past) = graph.edges_into(colour);
        let mut set = self.copy()?;
        set.take_out_row(first, past);
        set.put_back(self, part);
        Ok(set)
    }

    /// The set without some edges.
    pub fn without(&self, part: &[EdgeId]) -> Result<Allowed, AllocError>
        requires { All (λ edge. edge < length self.now) part.now }
        ensures left { IfOk result (λ set. set ≡ leaving self.now part.now) }
        ensures same_length { IfOk result (λ set. length set ≡ length self.now) }
    {
        let mut set = self.copy()?;
        for edge in part {
            set.take_out(*edge);
        }
        Ok(set)
    }

    /// The same set once more.
    fn copy(&self) -> Result<Allowed, AllocError>
        ensures { IfOk result (λ set. set ≡ self.now) }
    {
        let words = self.words.clone()?;
        Ok(Allowed {
            words,
            count: self.count,
        })
    }

    /// Puts an edge into the set.
    pub fn put(&mut self, edge: EdgeId)
        requires { edge < length self.old }
        ensures { self.new ≡ slice_set self.old edge true }
    {
        mark(&mut self.words, edge as usize);
    }

    /// Takes an edge out of the set.
    pub fn take_out(&mut self, edge: EdgeId)
        requires { edge < length self.old }
        ensures { self.new ≡ slice_set self.old edge false }
    {
        unmark(&mut self.words, edge as usize);
    }

    /// Takes the edges from one place on and below another out of the set.
    fn take_out_row(&mut self, first: EdgeId, past: EdgeId)
        requires in_order { first ≤ past }
        requires in_range { past ≤ length self.old }
        ensures { self.new ≡ keeping (λ edge. not (nat_le first edge && nat_lt edge past)) self.old }
    {
        for edge in first..past {
            self.take_out(edge);
        }
    }

    /// Puts the edges of a part that are in another set into this one.
    fn put_back(&mut self, other: &Allowed, part: &[EdgeId])
        requires same { length other.now ≡ length self.old }
        requires in_range { All (λ edge. edge < length self.old) part.now }
        ensures { AreBack self.old self.new other.now part.now }
    {
        for edge in part {
            if other.has(*edge) {
                self.put(*edge);
            }
        }
    }
}
