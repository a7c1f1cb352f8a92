//! The order of a section's entries.
ghost use Rattle.std.specs.Prelude.{◌≡◌, OnOk};
ghost use Rattle.std.specs.List.Sorted.{IsPermutation};
ghost use Rattle.tree_entry.specs.Rank.{AreRanked, outcome_cmp, rank_cmp};

use std::alloc::{AllocError, Global};
use std::cmp::Ordering;
use tree_document::{Entry, Outcome};

/// Puts entries in the order of their ranks: trees before candidates whose graph is too large, trees by falling score,
/// then by rising error, then in formula order. Without memory they stand in some order.
pub fn rank(alloc: Global, entries: &mut Vec<Entry>) -> Result<(), AllocError>
    ensures same { IsPermutation entries.old.items entries.new.items }
    ensures ranked { OnOk result (AreRanked entries.new.items) }
{
    entries
        .as_mut_slice()
        .sort_by(alloc, |one, other| compare_entries(one, other))?;
    Ok(())
}

/// How the ranks of two entries compare: less where the first comes before.
pub fn compare_entries(one: &Entry, other: &Entry) -> Ordering
    ensures { result ≡ rank_cmp one.now other.now }
{
    compare_outcomes(&one.outcome, &other.outcome)
        .then(one.error.cmp(&other.error))
        .then(one.candidate.compare(&other.candidate))
}

/// How two outcomes compare: by the scores of the trees, never by their upper bounds.
fn compare_outcomes(one: &Outcome, other: &Outcome) -> Ordering
    ensures { result ≡ outcome_cmp one.now other.now }
{
    match (one, other) {
        (Outcome::Tree(one), Outcome::Tree(other)) => other.score.cmp(&one.score),
        (Outcome::Tree(_), Outcome::TooLarge(_)) => Ordering::Less,
        (Outcome::TooLarge(_), Outcome::Tree(_)) => Ordering::Greater,
        (Outcome::TooLarge(_), Outcome::TooLarge(_)) => Ordering::Equal,
    }
}
