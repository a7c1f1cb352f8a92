//! A bound by splits, whose leaves are prices and potentials.
ghost use Rattle.std.specs.Prelude.{◌≡◌, ◌≤◌, ◌<◌, ◌^◌};
ghost use Rattle.tree_certificate.specs.BoundHolds.{depth_of, greatest_depth, splits_of};
ghost use Rattle.tree_certificate.specs.BoundView.{bound_value};

use crate::prices::PriceCert;
use sqlite_items::{Boxed, Items};

/// A bound has at most so many splits above a leaf.
pub const GREATEST_DEPTH: u32 = 1_024;

/// What shows that no tree of a set of edges scores more than an upper bound.
#[derive(Debug, Drop)]
pub enum Bound {
    /// A leaf: prices and potentials of the set.
    Priced(PriceCert),
    /// A split: a colour and some of the set's edges into it, the bound of the set without the others into it, and that
    /// of the set without these.
    Split(u16, Items<u32>, Boxed<Bound>, Boxed<Bound>),
}

/// How many splits a bound has.
pub fn splits(bound: &Bound) -> u64
    requires depth { depth_of (bound_value bound.now) ≤ greatest_depth }
    requires few { splits_of (bound_value bound.now) < 2 ^ 32 }
    ensures { result ≡ splits_of (bound_value bound.now) }
{
    match bound {
        Bound::Priced(_) => 0,
        Bound::Split(_, _, first, second) => 1 + splits(first.get()) + splits(second.get()),
    }
}

/// How many splits stand above the deepest leaf of a bound.
pub fn depth(bound: &Bound) -> u32
    requires depth { depth_of (bound_value bound.now) ≤ greatest_depth }
    ensures { result ≡ depth_of (bound_value bound.now) }
{
    match bound {
        Bound::Priced(_) => 0,
        Bound::Split(_, _, first, second) => 1 + depth(first.get()).max(depth(second.get())),
    }
}
