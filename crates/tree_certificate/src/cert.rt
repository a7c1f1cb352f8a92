//! A certificate: what shows that no tree of a graph scores more than an upper bound.

use crate::bound::Bound;
use crate::table::TableCert;

/// What shows that no tree scores more than an upper bound.
#[derive(Debug, Drop)]
pub enum Cert {
    /// A number for each vertex and each set of colours.
    Table(TableCert),
    /// Prices and potentials, or splits whose ends are such.
    Bounds(Bound),
}
