//! How a graph is made: the root, then vertices and edges in their order.
ghost use Rattle.std.specs.Prelude.{◌≡◌, ◌≤◌, ◌<◌, ◌+◌, length, IfOk, OnOk, OnErr};
ghost use Rattle.colour_graph.specs.Building.{ComesNext, root_alone, with_edge, with_vertex};
ghost use Rattle.colour_graph.specs.Graph.{IsEdge, IsScore, colour_count, greatest_vertices};

use crate::edge::{Colour, Edge, VertexId};
use crate::graph::ColourGraph;
use std::alloc::{AllocError, Global};
use std::marker::Model;

/// A graph that is being made. It is seen as the graph that it has become so far.
#[derive(Debug, Drop)]
pub struct GraphBuilder {
    root_score: i32,
    colours: Vec<Colour>,
    edges: Vec<Edge>,
    ends: Vec<u32>,
}

impl Model for GraphBuilder {
    ghost use Rattle.std.specs.Prelude.{◌<◌, length};
    ghost use Rattle.colour_graph.specs.Graph.{Graph, IsGraph, colour_count};

    ghost Value = { Graph };

    ghost view = { λ graph.
        record { root_score = graph.root_score; colours = graph.colours.items; edges = graph.edges.items } };

    ghost invariant = { λ graph.
        (IsGraph (record { root_score = graph.root_score; colours = graph.colours.items; edges = graph.edges.items }))
        × (colour_count (record {
          root_score = graph.root_score;
          colours = graph.colours.items;
          edges = graph.edges.items;
        })
        < length graph.ends.items) };
}

impl GraphBuilder {
    ghost use Rattle.colour_graph.specs.declared.edge.Edge.{Edge};

    /// The graph of the root alone, with its score.
    pub fn new(alloc: Global, root_score: i32) -> Result<GraphBuilder, AllocError>
        requires { IsScore root_score }
        ensures { IfOk result (λ builder. builder ≡ root_alone root_score) }
    {
        let mut colours = Vec::new(alloc);
        colours.push(0)?;
        let mut ends = Vec::new(alloc);
        ends.push(0)?;
        Ok(GraphBuilder {
            root_score,
            colours,
            edges: Vec::new(alloc),
            ends,
        })
    }

    /// Adds a vertex of the last vertex's colour or of the next one, and tells its place. Without memory nothing is
    /// changed.
    pub fn vertex(&mut self, colour: Colour) -> Result<VertexId, AllocError>
        requires not_root { 0 < colour }
        requires not_before { colour_count self.old ≤ colour }
        requires no_gap { colour ≤ colour_count self.old + 1 }
        requires room { length self.old.colours < greatest_vertices }
        ensures place { IfOk result (λ vertex. vertex ≡ length self.old.colours) }
        ensures added { OnOk result (self.new ≡ with_vertex self.old colour) }
        ensures unchanged { OnErr result (self.new ≡ self.old) }
    {
        let vertex = self.colours.len() as VertexId;
        if self.ends.len() <= usize::from(colour) {
            self.ends.push(0)?;
        }
        self.colours.push(colour)?;
        Ok(vertex)
    }

    /// Adds an edge behind all others in order: by its head, then by its tail. Without memory nothing is changed.
    pub fn edge(&mut self, tail: VertexId, head: VertexId, weight: i32) -> Result<(), AllocError>
        requires is_edge { IsEdge self.old (record { tail = tail; head = head; weight = weight }) }
        requires next { ComesNext self.old (record { tail = tail; head = head; weight = weight }) }
        ensures added { OnOk result
            (self.new ≡ with_edge self.old (record { tail = tail; head = head; weight = weight })) }
        ensures unchanged { OnErr result (self.new ≡ self.old) }
    {
        self.edges.push(Edge { tail, head, weight })?;
        Ok(())
    }

    /// The graph that was made.
    pub fn finish(self) -> ColourGraph
        ensures { result ≡ self }
    {
        let GraphBuilder {
            root_score,
            colours,
            edges,
            ends,
        } = self;
        ColourGraph::of(root_score, colours, edges, ends)
    }
}
