//! Where the tree of a candidate is wrong.

use tree_certificate::Place;

/// The first place where a tree is not right for the graph of its candidate, in the order of looking.
#[derive(Clone, Copy, Debug, PartialEq, Eq)]
pub enum EntryPlace {
    /// The row of this number, from 1, is not the graph's.
    Rows(u32),
    /// The edges of the rows are not colourful.
    NotColourful,
    /// This edge could be added with gain, and no smaller one could.
    NotMaximal(u32),
    /// The score is not this one, which is right.
    Score(i64),
    /// The upper bound is above the cap of all edges, which is this.
    Upper(i64),
    /// The tree is marked optimal and its score is not its upper bound, or it is marked as a gap and it is.
    Mark,
    /// The certificate fails, here first.
    Cert(Place),
    /// There is a gap, though the graph has only so many colours, at most 12.
    FewColours(u32),
    /// There is a gap, and the bound has so many splits, which are not the budget.
    Splits(u32),
    /// There is a gap, and the upper bound is not the greatest total of the leaves, which is this.
    Loose(i64),
    /// There is a gap, and the total of this leaf, by its node, is above the cap of its set, as no earlier one's is.
    Slack(u32),
    /// There is a gap, and the cap of the set of this split, by its node, is below the upper bound, as no earlier one's
    /// is.
    Wasted(u32),
    /// There is a gap, and the total of this leaf, by its node, is above the score, though its set has at most one edge
    /// into each colour, and no earlier one is so.
    Decided(u32),
}
