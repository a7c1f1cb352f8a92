//! The vertices of a candidate's graph, and the relation between two formulas that makes an edge.
ghost use Rattle.std.specs.Prelude.{◌≡◌, IsTrue};
ghost use Rattle.element_table.specs.Formula.{IsWithin};
ghost use Rattle.element_table.specs.Formula as formulas;

use colour_graph::Colour;
use element_table::Formula;

/// A vertex: its formula, the number of its list, from 1 on for those of peaks, and its colour. The root is of list 0
/// and of colour 0.
#[derive(Clone, Copy, Debug)]
pub(crate) struct Vertex {
    pub(crate) formula: Formula,
    pub(crate) peak: u16,
    pub(crate) colour: Colour,
}

/// Whether one formula is a part of another and not the whole.
pub(crate) fn is_proper_part(part: &Formula, whole: &Formula) -> bool
    ensures test { result ≡ formulas.is_proper_part part.now whole.now }
    ensures within { IsTrue result → IsWithin part.now whole.now }
{
    part.within(whole) && part != whole
}
