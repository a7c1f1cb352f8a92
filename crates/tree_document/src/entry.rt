//! What a section says of one candidate: its tree with a certificate, or that its graph is too large.
ghost use Rattle.std.specs.Prelude.{◌≡◌};

use element_table::Formula;
use std::marker::Model;
use tree_certificate::Cert;

/// Whether a tree's score is its upper bound.
#[derive(Clone, Copy, Debug, PartialEq, Eq)]
pub enum Mark {
    /// No tree scores more.
    Optimal,
    /// The upper bound is above the score.
    Gap,
}

/// An edge of a tree: its number in the graph, the row of its parent from 1 or 0 for the root, the list of its head
/// from 0, the head's formula, what the tail loses, and the weight.
#[derive(Clone, Copy, Debug, PartialEq, Eq)]
pub struct TreeRow {
    pub edge: u32,
    pub parent: u16,
    pub peak: u16,
    pub formula: Formula,
    pub loss: Formula,
    pub weight: i32,
}

/// The rows of a tree.
#[derive(Debug, Drop)]
pub struct TreeRows {
    items: Vec<TreeRow>,
}

impl Model for TreeRows {
    ghost use Rattle.std.specs.Prelude.{List};
    ghost use Rattle.tree_document.specs.declared.entry.TreeRow.{TreeRow};

    ghost Value = { List TreeRow };

    ghost view = { λ rows. rows.items.items };
}

impl TreeRows {
    /// The list of these rows.
    pub fn of(items: Vec<TreeRow>) -> TreeRows
        ensures { result ≡ items.items }
    {
        TreeRows { items }
    }

    /// The rows.
    pub fn items(&self) -> &[TreeRow]
        ensures { result.now ≡ self.now }
    {
        &self.items
    }
}

/// A tree with its score, an upper bound of every tree's, and what shows the bound.
#[derive(Debug, Drop)]
pub struct Tree {
    pub score: i64,
    pub upper: i64,
    pub mark: Mark,
    pub rows: TreeRows,
    pub cert: Cert,
}

impl Model for Tree {
    ghost use Rattle.std.specs.Coded.{codes};
    ghost use Rattle.tree_document.specs.Value.{TreeValue};
    ghost use Rattle.tree_certificate.specs.Value.{cert_of};
    ghost use Rattle.tree_certificate.specs.BoundCode.{bound_code};

    ghost Value = { TreeValue };

    ghost coded = { Prim.hlevel (codes, bound_code) };

    ghost view = { λ tree. record {
      score = tree.score;
      upper = tree.upper;
      mark = tree.mark;
      rows = tree.rows;
      cert = cert_of tree.cert;
    } };
}

/// What was found for a candidate.
#[derive(Debug, Drop)]
pub enum Outcome {
    /// A tree.
    Tree(Tree),
    /// The graph has so many vertices, which are too many.
    TooLarge(u32),
}

/// A candidate, how far its mass is from the centre of the window in units of 10^-7 Da, and what was found for it.
#[derive(Debug, Drop)]
pub struct Entry {
    pub candidate: Formula,
    pub error: u64,
    pub outcome: Outcome,
}

/// The entries of a section.
#[derive(Debug, Drop)]
pub struct Entries {
    items: Vec<Entry>,
}

impl Model for Entries {
    ghost use Rattle.std.specs.Prelude.{List};
    ghost use Rattle.std.specs.Coded.{codes};
    ghost use Rattle.tree_document.specs.declared.entry.Entry.{Entry};
    ghost use Rattle.tree_certificate.specs.BoundCode.{bound_code};

    ghost Value = { List Entry };

    ghost coded = { Prim.hlevel (codes, bound_code) };

    ghost view = { λ entries. entries.items.items };
}

impl Entries {
    /// The list of these entries.
    pub fn of(items: Vec<Entry>) -> Entries
        ensures { result ≡ items.items }
    {
        Entries { items }
    }

    /// The entries.
    pub fn items(&self) -> &[Entry]
        ensures { result.now ≡ self.now }
    {
        &self.items
    }
}
