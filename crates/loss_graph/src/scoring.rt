//! The scores of a candidate's graph.
ghost use Rattle.std.specs.Prelude.{◌≡◌, ◌≤◌, ◌<◌, ◌*◌, ◌^◌, length};
ghost use Rattle.std.specs.List.{All};
ghost use Rattle.element_table.specs.Rule.{IsNearZero};
ghost use Rattle.element_table.specs.Window.{InWindow};
ghost use Rattle.loss_graph.specs.Lists.{list_at, window_at};
ghost use Rattle.score_tables.specs.Scores.{greatest_single_score};
ghost use Rattle.loss_graph.specs.Lists as of_lists;
ghost use Rattle.loss_graph.specs.LossGraph.{error_score_in, head_score_of};

use crate::vertex::Vertex;
use adducts::{Choice, window};
use element_table::{Formula, FormulaList};
use score_tables::Scores;

/// The greatest intensity of the selected peaks.
pub(crate) fn greatest_intensity(lists: &[FormulaList]) -> u64
    requires { 0 < length lists.now }
    ensures { result ≡ of_lists.greatest_intensity lists.now }
{
    let mut greatest = 0;
    for list in &lists[1..] {
        greatest = greatest.max(list.intensity);
    }
    greatest
}

/// The score of a formula's error in the window of a list.
pub(crate) fn error_score(
    choice: &Choice,
    scores: &Scores,
    list: &FormulaList,
    formula: &Formula,
) -> i32
    requires measured { list.now.mz ≤ 10 ^ 18 }
    requires in_window { InWindow (window_at choice.now list.now) formula.now }
    ensures score { result ≡ error_score_in choice.now scores.now list.now formula.now }
    ensures near { IsNearZero greatest_single_score result }
{
    let window = window(choice, list.mz);
    let error = (formula.mass() as i64 - window.centre).unsigned_abs();
    scores.error_score(error, window.half)
}

/// What a vertex scores as the head of an edge: its list's peak and its error there.
pub(crate) fn head_score(
    choice: &Choice,
    scores: &Scores,
    lists: &[FormulaList],
    greatest: u64,
    head: &Vertex,
) -> i32
    requires list { head.now.peak < length lists.now }
    requires measured { (list_at lists.now head.now.peak).mz ≤ 10 ^ 18 }
    requires in_window { InWindow (window_at choice.now (list_at lists.now head.now.peak)) head.now.formula }
    requires intense { 1 ≤ (list_at lists.now head.now.peak).intensity }
    requires weaker { (list_at lists.now head.now.peak).intensity ≤ greatest }
    requires greatest { greatest ≡ of_lists.greatest_intensity lists.now }
    requires small { greatest ≤ 10 ^ 18 }
    ensures score { result ≡ head_score_of choice.now scores.now lists.now head.now }
    ensures near { IsNearZero (2 * greatest_single_score) result }
{
    let list = &lists[usize::from(head.peak)];
    let peak = scores.peak_score(list.intensity, greatest);
    let error = error_score(choice, scores, list, &head.formula);
    peak + error
}
