//! Where a certificate fails.

/// The first place where a certificate fails, in the order of looking. The leaves and splits of a bound are its nodes,
/// numbered from 0: a split before its sides, and the first side before the second.
#[derive(Clone, Copy, Debug, PartialEq, Eq)]
pub enum Place {
    /// The graph has so many colours, more than 12.
    TableColours(u32),
    /// The row of this vertex is missing or has another length; the number of vertices where there are too many rows.
    TableShape(u32),
    /// The number of a vertex for a set of colours, by its place in the row, is lower than it needs to be.
    TableRow(u32, u32, i64, i64),
    /// The table says that the graph is worth so much, above the upper bound.
    TableTotal(i64),
    /// The split of a node is by this colour, which the graph does not have.
    SplitColour(u32, u16),
    /// The split of this node does not name, in rising order, some but not all of the edges of its set into its colour.
    SplitEdges(u32),
    /// The numbers of prices or of potentials of this leaf, by its node, are not the graph's.
    PriceShape(u32),
    /// Among the prices of a leaf, by its node, that of this colour is the first below 0.
    PriceNegative(u32, u16),
    /// Among the potentials of a leaf, by its node, that of this vertex is the first that is lower than it needs to be:
    /// what it is, and what it is to be at least.
    PotentialLow(u32, u32, i64, i64),
    /// The total of this leaf, by its node, is so much, above the upper bound.
    LeafTotal(u32, i64),
}
