//! The tables of a run, and the scores that are read from them.
ghost use Rattle.std.specs.Prelude.{◌≡◌, ◌≤◌, ◌*◌, ◌^◌, IfOk, if◌then◌else◌, int_lt, pos, unwrap_or};
ghost use Rattle.std.specs.FinMap.{find};
ghost use Rattle.element_table.specs.Formula.{formula_cmp};
ghost use Rattle.element_table.specs.Listed.{has_parity};
ghost use Rattle.element_table.specs.Rule.{IsNearZero, odd};
ghost use Rattle.element_table.specs.Window.{greatest_half_width};
ghost use Rattle.score_tables.specs.Default.{default_scores};
ghost use Rattle.score_tables.specs.Scores.{error_score_of, loss_score_of, peak_score_of, size_cost_of};
ghost use Rattle.score_tables.specs.Scores.{unnamed_score_of};
ghost use Rattle.score_tables.specs.Scores.{greatest_cost, greatest_single_score};
ghost use Rattle.score_tables.specs.Tables.{IsScores, greatest_score, in_formula_order};

use crate::default::{
    DEFAULT_NEGATIVE, DEFAULT_RADICAL, DEFAULT_SIZE, default_error, default_implausible,
    default_intensity, default_named,
};
use crate::table::{at_least_score, at_most_score, share, sort_losses, table_score};
use element_table::Formula;
use std::alloc::{AllocError, Global};
use std::marker::Model;

/// The greatest cost of a loss for its mass.
const GREATEST_COST: u64 = 2_000;

/// The tables that the scores of a run are read from. Scores are whole numbers within 2,000 of 0. The losses of a table
/// stand in formula order.
#[derive(Debug, Drop)]
pub struct Scores {
    intensity: Vec<(u16, i16)>,
    error: Vec<(u16, i16)>,
    named: Vec<(Formula, i16)>,
    implausible: Vec<(Formula, i16)>,
    radical: i16,
    negative: i16,
    size: u32,
}

impl Model for Scores {
    ghost use Rattle.score_tables.specs.Tables.{ScoresValue, IsScores, AreSorted};

    ghost Value = { ScoresValue };

    ghost view = { λ scores. record {
      intensity = scores.intensity.items;
      error = scores.error.items;
      named = scores.named.items;
      implausible = scores.implausible.items;
      radical = scores.radical;
      negative = scores.negative;
      size = scores.size;
    } };

    ghost invariant = { λ scores. AreSorted (record {
      intensity = scores.intensity.items;
      error = scores.error.items;
      named = scores.named.items;
      implausible = scores.implausible.items;
      radical = scores.radical;
      negative = scores.negative;
      size = scores.size;
    }) };
}

impl Scores {
    /// The tables that count where a profile gives no others.
    pub fn default_tables(alloc: Global) -> Result<Scores, AllocError>
        ensures { IfOk result (λ scores. scores ≡ default_scores) }
    {
        Ok(Scores::new(
            default_intensity(alloc)?,
            default_error(alloc)?,
            default_named(alloc)?,
            default_implausible(alloc)?,
            DEFAULT_RADICAL,
            DEFAULT_NEGATIVE,
            DEFAULT_SIZE,
        ))
    }

    /// The tables of these pairs of a bound and a score, and of these pairs of a loss and its score. Bounds are
    /// thousandths, the size is in units of 10^-7 Da.
    pub fn new(
        intensity: Vec<(u16, i16)>,
        error: Vec<(u16, i16)>,
        mut named: Vec<(Formula, i16)>,
        mut implausible: Vec<(Formula, i16)>,
        radical: i16,
        negative: i16,
        size: u32,
    ) -> Scores
        requires { IsScores (record {
          intensity = intensity.items;
          error = error.items;
          named = named.items;
          implausible = implausible.items;
          radical = radical;
          negative = negative;
          size = size;
        }) }
        ensures { result ≡ in_formula_order (record {
          intensity = intensity.items;
          error = error.items;
          named = named.items;
          implausible = implausible.items;
          radical = radical;
          negative = negative;
          size = size;
        }) }
    {
        sort_losses(&mut named);
        sort_losses(&mut implausible);
        Scores {
            intensity,
            error,
            named,
            implausible,
            radical,
            negative,
            size,
        }
    }

    /// The score of a peak, by the share of its intensity in the greatest one.
    pub fn peak_score(&self, intensity: u64, greatest: u64) -> i32
        requires some { 1 ≤ intensity }
        requires within { intensity ≤ greatest }
        requires small { greatest ≤ 10 ^ 18 }
        ensures score { result ≡ peak_score_of self.now intensity greatest }
        ensures near { IsNearZero greatest_single_score result }
    {
        at_least_score(&self.intensity, share(intensity, greatest))
    }

    /// The score of the error of a mass, by its share in half the width of the window.
    pub fn error_score(&self, error: u64, half: u64) -> i32
        requires within { error ≤ half }
        requires small { half ≤ greatest_half_width }
        ensures score { result ≡ error_score_of self.now error half }
        ensures near { IsNearZero greatest_single_score result }
    {
        at_most_score(&self.error, share(error, half))
    }

    /// The score of a loss: that of its name, or else the sum of what is said of losses without one, less what its mass
    /// costs.
    pub fn loss_score(&self, loss: &Formula) -> i32
        ensures score { result ≡ loss_score_of self.now loss.now }
        ensures near { IsNearZero greatest_single_score result }
    {
        let base = match table_score(&self.named, loss) {
            Some(score) => score,
            None => self.unnamed_score(loss),
        };
        base - self.size_cost(loss)
    }

    /// The score of a loss without a name, before its mass counts.
    fn unnamed_score(&self, loss: &Formula) -> i32
        ensures score { result ≡ unnamed_score_of self.now loss.now }
        ensures near { IsNearZero (3 * greatest_score) result }
    {
        let bonds = loss.rdbe2();
        self.implausible_score(loss) + self.radical_score(bonds) + self.negative_score(bonds)
    }

    /// What is added for a loss that hardly occurs.
    fn implausible_score(&self, loss: &Formula) -> i32
        ensures score { result ≡ unwrap_or (find formula_cmp loss.now self.now.implausible) (pos 0) }
        ensures near { IsNearZero greatest_score result }
    {
        table_score(&self.implausible, loss).unwrap_or(0)
    }

    /// What is added for a loss with so many rings and double bonds, twice, where it is a radical.
    fn radical_score(&self, bonds: i32) -> i32
        ensures score { result ≡ (if has_parity odd bonds then self.now.radical else pos 0) }
        ensures near { IsNearZero greatest_score result }
    {
        if bonds % 2 != 0 {
            i32::from(self.radical)
        } else {
            0
        }
    }

    /// What is added for a loss with so many rings and double bonds, twice, where that is below 0.
    fn negative_score(&self, bonds: i32) -> i32
        ensures score { result ≡ (if int_lt bonds (pos 0) then self.now.negative else pos 0) }
        ensures near { IsNearZero greatest_score result }
    {
        if bonds < 0 {
            i32::from(self.negative)
        } else {
            0
        }
    }

    /// What a loss costs for its mass.
    fn size_cost(&self, loss: &Formula) -> i32
        ensures cost { result ≡ pos (size_cost_of self.now loss.now) }
        ensures near { IsNearZero greatest_cost result }
    {
        (loss.mass() / u64::from(self.size)).min(GREATEST_COST) as i32
    }
}
