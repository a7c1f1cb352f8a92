//! The outline of a spectrum: its lists of formulas, or why it is skipped. A list of formulas tells no more; a document
//! has entries behind the lists.
use crate::document::Skip;
use element_table::FormulaList;

/// What stands of a spectrum.
#[derive(Drop)]
pub enum Outline {
    Skipped(Skip),
    /// The precursor's list, then those of the selected peaks.
    Listed(Vec<FormulaList>),
}
