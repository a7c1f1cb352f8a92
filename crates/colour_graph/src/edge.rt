//! Edges, and the numbers that name vertices, colours and edges.

/// A vertex by its place; the root is vertex 0.
pub type VertexId = u16;

/// A colour; the root alone has colour 0.
pub type Colour = u16;

/// An edge by its place in the graph.
pub type EdgeId = u32;

/// An edge from a vertex to one of greater colour, with its weight.
#[derive(Clone, Copy, Debug, PartialEq, Eq)]
pub struct Edge {
    pub tail: VertexId,
    pub head: VertexId,
    pub weight: i32,
}
