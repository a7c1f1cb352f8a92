//! Laws of the definitions, which a check of this crate proves.
ghost use Rattle.std.specs.Prelude.{◌≡◌, ◌≢◌, List};
ghost use Rattle.std.specs.List.{AllPairs};
ghost use Rattle.std.specs.declared.cmp.Ordering.TheVariants.{Less};
ghost use Rattle.tree_entry.specs.Rank.{AreRanked, rank_cmp};
ghost use Rattle.tree_document.specs.declared.entry.Entry.{Entry};

/// Ranked entries rise strictly where no two of them are of the same candidate.
pub fn ranked_entries_rise()
    ensures { (entries : List Entry) → AreRanked entries
        → AllPairs (λ one later. one.candidate ≢ later.candidate) entries
        → AllPairs (λ one later. rank_cmp one later ≡ Less) entries }
{}
