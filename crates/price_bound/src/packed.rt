//! The edges of a set, packed for the rounds of an improvement: scaled, and in a row for each tail and colour. The
//! rounds are a search, so nothing is said of what they find.
ghost use Rattle.std.specs.Prelude.{◌≤◌, ◌<◌, ◌^◌, IfOk, length};
ghost use Rattle.std.specs.List.{All};
ghost use Rattle.colour_graph.specs.EdgeSet.{IsSetOf};
ghost use Rattle.colour_graph.specs.Graph.{greatest_graph};
ghost use Rattle.price_bound.specs.inside.Packed.{AreHeld, IsGroup, IsHeld, IsPacked, IsScaled};

use colour_graph::{Allowed, ColourGraph, GREATEST_GRAPH, VertexId};
use std::alloc::{AllocError, Global};

/// There are at most so many vertices, and fewer colours.
pub(crate) const ROOM: usize = GREATEST_GRAPH as usize;

/// A number for each vertex or for each colour.
pub(crate) type Numbers = [i64; ROOM];

/// Weights, prices and potentials are kept in parts of so many to one.
pub(crate) const ONE: i64 = 64;

/// The greatest price, as a whole number.
pub(crate) const GREATEST_PRICE: i64 = 1 << 34;

/// Scaled potentials are held at most so great.
const GREATEST_POTENTIAL: i64 = 1 << 48;

/// Less than any edge gains.
const NOTHING: i64 = -(1 << 60);

/// An edge with its scaled weight.
#[derive(Clone, Copy, Debug, PartialEq, Eq)]
struct Scaled {
    tail: VertexId,
    head: VertexId,
    weight: i32,
}

/// The edges from one vertex into one colour, which stand in a row. Colours are counted from 0.
#[derive(Clone, Copy, Debug, PartialEq, Eq)]
struct Group {
    tail: VertexId,
    colour: u16,
    first: u32,
    past: u32,
}

/// The edges of a set by tail, then by head.
#[derive(Debug, Drop)]
pub(crate) struct Packed {
    groups: Vec<Group>,
    edges: Vec<Scaled>,
}

impl Packed {
    /// The edges of a set of a graph.
    pub fn new(alloc: Global, graph: &ColourGraph, allowed: &Allowed) -> Result<Packed, AllocError>
        requires vertices { length graph.now.colours ≤ greatest_graph }
        requires set { IsSetOf graph.now allowed.now }
        ensures packed { IfOk result (λ packed. IsPacked packed) }
    {
        let edges = edges_by_tail(alloc, graph, allowed)?;
        let groups = groups_of(alloc, graph, &edges)?;
        Ok(Packed { groups, edges })
    }

    /// The least potentials for some prices.
    pub fn potentials(&self, prices: &Numbers) -> Numbers
        requires packed { IsPacked self.now }
        ensures held { AreHeld result }
    {
        let mut potentials = [0; ROOM];
        let mut place = self.groups.len();
        while place > 0 {
            place -= 1;
            let group = self.groups[place];
            let (most, _head) = self.best_of(group, &potentials);
            let gain = most.saturating_sub(prices[usize::from(group.colour)]);
            if gain > 0 {
                let tail = usize::from(group.tail);
                potentials[tail] = potentials[tail]
                    .saturating_add(gain)
                    .clamp(0, GREATEST_POTENTIAL);
            }
        }
        potentials
    }

    /// How often each colour is used where the greatest choices are followed from the root.
    pub fn uses(&self, prices: &Numbers, potentials: &Numbers) -> [u32; ROOM]
        requires packed { IsPacked self.now }
        requires held { AreHeld potentials.now }
    {
        let mut uses = [0u32; ROOM];
        let mut times = [0u32; ROOM];
        times[0] = 1;
        for group in &self.groups {
            let more = times[usize::from(group.tail)];
            if more > 0 {
                let (most, head) = self.best_of(*group, potentials);
                let colour = usize::from(group.colour);
                if most > prices[colour] {
                    uses[colour] = uses[colour].saturating_add(more);
                    times[usize::from(head)] = times[usize::from(head)].saturating_add(more);
                }
            }
        }
        uses
    }

    /// The greatest sum of a weight and the head's potential in a group, and the first head that has it.
    #[inline(always)]
    fn best_of(&self, group: Group, potentials: &Numbers) -> (i64, VertexId)
        requires packed { IsPacked self.now }
        requires group { IsGroup (length self.now.edges.items) group }
        requires held { AreHeld potentials.now }
        ensures head { result.1 < greatest_graph }
    {
        let mut most = NOTHING;
        let mut best = 0;
        for edge in &self.edges[group.first as usize..group.past as usize] {
            let sum = reached(edge.weight, potentials[usize::from(edge.head)]);
            if sum > most {
                most = sum;
                best = edge.head;
            }
        }
        (most, best)
    }
}

/// A scaled weight and the potential of the edge's head.
#[inline(always)]
fn reached(weight: i32, potential: i64) -> i64
    requires { IsHeld potential }
{
    i64::from(weight) + potential
}

/// The edges of a set in order of their tails, and of their places where these are the same.
fn edges_by_tail(
    alloc: Global,
    graph: &ColourGraph,
    allowed: &Allowed,
) -> Result<Vec<Scaled>, AllocError>
    requires vertices { length graph.now.colours ≤ greatest_graph }
    requires set { IsSetOf graph.now allowed.now }
    ensures edges { IfOk result (λ edges. All (IsScaled (length graph.now.colours)) edges.items) }
    ensures few { IfOk result (λ edges. length edges.items < 2 ^ 32) }
{
    let mut ends = edges_from(graph, allowed);
    let count = add_up(&mut ends);
    let nothing = Scaled {
        tail: 0,
        head: 0,
        weight: 0,
    };
    let mut edges = vec![in alloc; nothing; count as usize]?;
    let mut edge = graph.edge_count();
    while edge > 0 {
        edge -= 1;
        if allowed.has(edge) {
            let here = graph.edge_at(edge);
            let tail = usize::from(here.tail);
            ends[tail] = ends[tail].saturating_sub(1);
            let to = ends[tail] as usize;
            if to < edges.len() {
                edges[to] = Scaled {
                    tail: here.tail,
                    head: here.head,
                    weight: here.weight * ONE as i32,
                };
            }
        }
    }
    Ok(edges)
}

/// How many edges of a set go from each vertex.
fn edges_from(graph: &ColourGraph, allowed: &Allowed) -> [u32; ROOM]
    requires vertices { length graph.now.colours ≤ greatest_graph }
    requires set { IsSetOf graph.now allowed.now }
{
    let mut counts = [0u32; ROOM];
    for edge in 0..graph.edge_count() {
        if allowed.has(edge) {
            let tail = usize::from(graph.edge_at(edge).tail);
            counts[tail] = counts[tail].saturating_add(1);
        }
    }
    counts
}

/// Adds to each number those before it, and tells their sum.
fn add_up(counts: &mut [u32; ROOM]) -> u32 {
    let mut sum = 0u32;
    for count in counts.iter_mut() {
        sum = sum.saturating_add(*count);
        *count = sum;
    }
    sum
}

/// The groups of edges that stand by tail and head. The first may be empty.
fn groups_of(alloc: Global, graph: &ColourGraph, edges: &[Scaled]) -> Result<Vec<Group>, AllocError>
    requires vertices { length graph.now.colours ≤ greatest_graph }
    requires edges { All (IsScaled (length graph.now.colours)) edges.now }
    requires few { length edges.now < 2 ^ 32 }
    ensures { IfOk result (λ groups. All (IsGroup (length edges.now)) groups.items) }
{
    graph.is_graph();
    let mut groups = Vec::new(alloc);
    let mut group = Group {
        tail: 0,
        colour: 0,
        first: 0,
        past: 0,
    };
    for place in 0..edges.len() {
        let edge = edges[place];
        let colour = graph.colour_of(edge.head).saturating_sub(1);
        if edge.tail != group.tail || colour != group.colour {
            groups.push(group)?;
            group = Group {
                tail: edge.tail,
                colour,
                first: place as u32,
                past: place as u32,
            };
        }
        group.past = place as u32 + 1;
    }
    groups.push(group)?;
    Ok(groups)
}
