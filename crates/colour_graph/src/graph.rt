//! The graph, and what can be asked of it.
ghost use Rattle.std.specs.Prelude.{◌≡◌, ◌≤◌, ◌<◌, length};
ghost use Rattle.colour_graph.specs.EdgeSet.{AreInto};
ghost use Rattle.colour_graph.specs.Graph.{IsEdge, IsGraph, IsScore, colour_count, colour_of, edge_at};

use crate::edge::{Colour, Edge, EdgeId, VertexId};
use crate::index::index_of;
use std::marker::Model;

/// How many vertices a graph may have.
pub(crate) const GREATEST_VERTICES: usize = 4_096;

/// How many vertices a graph may have of which a tree is sought.
pub const GREATEST_GRAPH: u32 = 512;

/// A graph whose vertices have colours. Vertex 0 is the root and alone has colour 0; the other vertices stand in order
/// of their colours, 1 to k without a gap, and there are at most 4,096 in all. The edges stand by their heads, then by
/// their tails, each once and each to a greater colour. The root's score and each weight are within 100,000 of 0.
#[derive(Debug, Drop)]
pub struct ColourGraph {
    root_score: i32,
    colours: Vec<Colour>,
    edges: Vec<Edge>,
    ends: Vec<u32>,
}

impl Model for ColourGraph {
    ghost use Rattle.std.specs.Prelude.{◌<◌, length};
    ghost use Rattle.colour_graph.specs.Graph.{Graph, IsGraph, colour_count};
    ghost use Rattle.colour_graph.specs.inside.Index.{IsIndex};

    ghost Value = { Graph };

    ghost view = { λ graph.
        record { root_score = graph.root_score; colours = graph.colours.items; edges = graph.edges.items } };

    ghost invariant = { λ graph.
        (IsGraph (record { root_score = graph.root_score; colours = graph.colours.items; edges = graph.edges.items }))
        × (IsIndex graph.colours.items graph.edges.items graph.ends.items)
        × (colour_count (record {
          root_score = graph.root_score;
          colours = graph.colours.items;
          edges = graph.edges.items;
        })
        < length graph.ends.items) };
}

impl ColourGraph {
    ghost use Rattle.colour_graph.specs.Graph.{Graph};

    /// The graph of these vertices and edges. There is a number for each colour, which the index takes.
    pub(crate) fn of(
        root_score: i32,
        colours: Vec<Colour>,
        edges: Vec<Edge>,
        ends: Vec<u32>,
    ) -> ColourGraph
        requires graph { IsGraph (record { root_score = root_score; colours = colours.items; edges = edges.items }) }
        requires ends { colour_count (record { root_score = root_score; colours = colours.items; edges = edges.items })
            < length ends.items }
        ensures { result ≡ record { root_score = root_score; colours = colours.items; edges = edges.items } }
    {
        let ends = index_of(&colours, &edges, ends);
        ColourGraph {
            root_score,
            colours,
            edges,
            ends,
        }
    }

    /// Every graph is one. A law for proofs: it does nothing.
    #[inline]
    pub fn is_graph(&self)
        ensures { IsGraph self.now }
    {
        let _colours = &self.colours;
    }

    /// How many vertices there are, the root among them.
    pub fn vertex_count(&self) -> u32
        ensures { result ≡ length self.now.colours }
    {
        self.colours.len() as u32
    }

    /// How many colours there are beside the root's.
    pub fn colour_count(&self) -> u32
        ensures { result ≡ colour_count self.now }
    {
        u32::from(self.colours[self.colours.len() - 1])
    }

    /// How many edges there are.
    pub fn edge_count(&self) -> u32
        ensures count { result ≡ length self.now.edges }
        ensures is_graph { IsGraph self.now }
    {
        self.edges.len() as u32
    }

    /// The score of the root.
    pub fn root_score(&self) -> i32
        ensures score { result ≡ self.now.root_score }
        ensures near { IsScore result }
    {
        self.root_score
    }

    /// The colour of a vertex.
    pub fn colour_of(&self, vertex: VertexId) -> Colour
        requires { vertex < length self.now.colours }
        ensures colour { result ≡ colour_of self.now vertex }
        ensures counted { result ≤ colour_count self.now }
    {
        self.colours[usize::from(vertex)]
    }

    /// The edge at a place.
    pub fn edge_at(&self, edge: EdgeId) -> Edge
        requires { edge < length self.now.edges }
        ensures edge { result ≡ edge_at self.now edge }
        ensures is_edge { IsEdge self.now result }
    {
        self.edges[edge as usize]
    }

    /// The first edge into a colour and the one past the last. Where there is none, both numbers are the number of
    /// edges into smaller colours.
    pub fn edges_into(&self, colour: Colour) -> (EdgeId, EdgeId)
        requires not_root { 0 < colour }
        requires counted { colour ≤ colour_count self.now }
        ensures { AreInto self.now colour result.0 result.1 }
    {
        let colour = usize::from(colour);
        (self.ends[colour - 1], self.ends[colour])
    }
}
