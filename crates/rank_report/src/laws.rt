//! Laws of the report, computed on small values. A check of this crate proves them.
ghost use Rattle.std.specs.Prelude.{◌≡◌, codes, pos};
ghost use Rattle.rank_report.specs.Report.{mark_words};
ghost use Rattle.tree_document.specs.declared.entry.Mark.TheVariants.{Gap, Optimal};

/// A score below its upper bound is told with the bound, and one that no tree exceeds without it.
pub fn a_gap_is_told_with_its_bound()
    ensures gap { mark_words Gap (pos 12) ≡ codes "  upper 12  gap" }
    ensures optimal { mark_words Optimal (pos 12) ≡ codes "  optimal" }
{}
