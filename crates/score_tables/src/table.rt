//! Look-ups in tables of shares and of losses.
ghost use Rattle.std.specs.Prelude.{◌≡◌, ◌≢◌, ◌≤◌, All, AllPairs, IfSome, nat_le};
ghost use Rattle.std.specs.FinMap.{find};
ghost use Rattle.std.specs.List.Sorted.{IsPermutation};
ghost use Rattle.element_table.specs.Formula.{formula_cmp};
ghost use Rattle.element_table.specs.Rule.{IsNearZero};
ghost use Rattle.score_tables.specs.Scores.{first_score, share_of};
ghost use Rattle.score_tables.specs.Tables.{LossesRise, greatest_score, sorted_losses};

use element_table::{Formula, sorted_formulas_rise};

/// The share of a part in a whole, in thousandths.
pub(crate) fn share(part: u64, whole: u64) -> u64
    requires { part ≤ whole }
    ensures { result ≡ share_of part whole }
{
    if whole == 0 {
        return 0;
    }
    (u128::from(part) * 1_000 / u128::from(whole)) as u64
}

/// The score of the first pair whose bound is at most the share.
pub(crate) fn at_least_score(pairs: &[(u16, i16)], share: u64) -> i32
    requires { All (λ pair. IsNearZero greatest_score pair.1) pairs.now }
    ensures near { IsNearZero greatest_score result }
    ensures score { result ≡ first_score (λ at_least. nat_le at_least share) pairs.now }
{
    for (bound, score) in pairs {
        if u64::from(*bound) <= share {
            return i32::from(*score);
        }
    }
    0
}

/// The score of the first pair whose bound is at least the share.
pub(crate) fn at_most_score(pairs: &[(u16, i16)], share: u64) -> i32
    requires { All (λ pair. IsNearZero greatest_score pair.1) pairs.now }
    ensures near { IsNearZero greatest_score result }
    ensures score { result ≡ first_score (λ at_most. nat_le share at_most) pairs.now }
{
    for (bound, score) in pairs {
        if share <= u64::from(*bound) {
            return i32::from(*score);
        }
    }
    0
}

/// The score of a loss in a table whose losses stand in formula order.
pub(crate) fn table_score(table: &[(Formula, i16)], loss: &Formula) -> Option<i32>
    requires rising { LossesRise table.now }
    requires near { All (λ entry. IsNearZero greatest_score entry.1) table.now }
    ensures near { IfSome result (λ score. IsNearZero greatest_score score) }
    ensures score { result ≡ find formula_cmp loss.now table.now }
{
    match table.binary_search_by_key(loss, |entry| entry.0) {
        Ok(place) => Some(i32::from(table[place].1)),
        Err(_) => None,
    }
}

/// Puts the losses of a table in formula order.
pub(crate) fn sort_losses(table: &mut Vec<(Formula, i16)>)
    requires { AllPairs (λ first later. first.0 ≢ later.0) table.old.items }
    ensures table { table.new.items ≡ sorted_losses table.old.items }
    ensures rising { LossesRise table.new.items }
    ensures moved { IsPermutation table.old.items table.new.items }
{
    sorted_formulas_rise();
    table.sort_unstable_by_key(|entry| entry.0);
}
