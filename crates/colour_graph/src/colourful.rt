//! Whether a list of edges is colourful, and its score.
ghost use Rattle.std.specs.Prelude.{◌≡◌, ◌≢◌, ◌≤◌, ◌<◌, ◌↔◌, ℕ, IsTrue, IsSome, IfSome, length};
ghost use Rattle.std.specs.List.{All, AllPairs, Contains};
ghost use Rattle.colour_graph.specs.Colourful.{IsColourful, heads_of, score_of};
ghost use Rattle.colour_graph.specs.Graph.{edge_at, greatest_vertices};
ghost use Rattle.colour_graph.specs.inside.Bits as bits;
ghost use Rattle.colour_graph.specs.inside.Heads.{AreApart, AreHeads, IsMarkedTail};

use crate::bits::{is_marked, mark};
use crate::edge::EdgeId;
use crate::graph::{ColourGraph, GREATEST_VERTICES};

/// How many words have a bit for each vertex of a graph, and for each colour.
const WORDS: usize = GREATEST_VERTICES / 64;

impl ColourGraph {
    /// Whether the heads of a list of edges, in any order, have different colours and each tail is the root or a head.
    /// An edge that the graph does not have makes no colourful list.
    pub fn is_colourful(&self, edges: &[EdgeId]) -> bool
        ensures { IsTrue result ↔ IsColourful self.now edges.now }
    {
        match self.marked_heads(edges) {
            Some(heads) => self.tails_are_marked(edges, &heads),
            None => false,
        }
    }

    /// The heads of a list of edges, as bits. None where the graph does not have an edge of it, or two heads have one
    /// colour.
    fn marked_heads(&self, edges: &[EdgeId]) -> Option<[u64; WORDS]>
        ensures few { length self.now.colours ≤ greatest_vertices }
        ensures apart { IsSome result ↔ AreApart self.now edges.now }
        ensures heads { IfSome result (λ heads. AreHeads self.now edges.now heads) }
    {
        let mut heads = [0; WORDS];
        let mut colours = [0; WORDS];
        let count = self.edge_count();
        for edge in edges {
            if *edge >= count {
                return None;
            }
            let head = self.edge_at(*edge).head;
            let colour = self.colour_of(head);
            if is_marked(&colours, usize::from(colour)) {
                return None;
            }
            mark(&mut colours, usize::from(colour));
            mark(&mut heads, usize::from(head));
        }
        Some(heads)
    }

    /// Whether each tail of a list of edges is the root or has its bit.
    fn tails_are_marked(&self, edges: &[EdgeId], marked: &[u64; WORDS]) -> bool
        requires in_range { All (λ edge. edge < length self.now.edges) edges.now }
        requires few { length self.now.colours ≤ greatest_vertices }
        ensures { IsTrue result ↔ All (λ edge. IsMarkedTail marked.now (edge_at self.now edge).tail) edges.now }
    {
        for edge in edges {
            let tail = self.edge_at(*edge).tail;
            if tail != 0 && !is_marked(marked, usize::from(tail)) {
                return false;
            }
        }
        true
    }

    /// The score of a list of edges: the root's and the weights.
    pub fn tree_score(&self, edges: &[EdgeId]) -> i64
        requires in_range { All (λ edge. edge < length self.now.edges) edges.now }
        requires few { length edges.now ≤ 100000 }
        ensures { result ≡ score_of self.now edges.now }
    {
        let mut score = i64::from(self.root_score());
        for edge in edges {
            score += i64::from(self.edge_at(*edge).weight);
        }
        score
    }
}
