//! The candidates of a spectrum, and how far off each of their ions is.
ghost use Rattle.std.specs.Prelude.{◌≡◌, IfOk};
ghost use Rattle.loss_graph.specs.Lists.{AreLists, list_at, root_of, window_at};
ghost use Rattle.loss_graph.specs.LossGraph.{error_of};
ghost use Rattle.right_document.specs.Candidates.{candidates_of};
ghost use Rattle.right_document.specs.SettingsOf.{solve_settings_value_of};

use crate::settings::SolveSettings;
use adducts::{Choice, window};
use element_table::{Formula, FormulaList};
use std::alloc::{AllocError, Global};
use valence_filter::all_hold;

/// The formulas of the precursor's list that hold what the adduct adds, without that, where the rules of candidates
/// hold.
pub fn candidates(
    alloc: Global,
    formulas: &[Formula],
    settings: &SolveSettings,
) -> Result<Vec<Formula>, AllocError>
    ensures { IfOk result (λ candidates.
        candidates.items ≡ candidates_of (solve_settings_value_of settings.now) formulas.now) }
{
    let extra = settings.listing.choice.adduct.extra;
    let mut candidates = Vec::new(alloc);
    for formula in formulas {
        if extra.within(formula) {
            let candidate = formula.minus(&extra);
            if all_hold(&settings.candidate_rules, &candidate) {
                candidates.push(candidate)?;
            }
        }
    }
    Ok(candidates)
}

/// How far the mass of a candidate's ion is from the centre of the precursor's window.
pub fn ion_error(lists: &[FormulaList], candidate: &Formula, choice: &Choice) -> u64
    requires { AreLists choice.now (root_of choice.now candidate.now) lists.now }
    ensures { result ≡ error_of (window_at choice.now (list_at lists.now 0)) (root_of choice.now candidate.now) }
{
    let precursor = &lists[0];
    let adduct = &choice.adduct;
    precursor.formulas.are_formulas();
    candidate.is_formula();
    adduct.extra.is_formula();
    let ion = candidate.plus(&adduct.extra);
    window(choice, precursor.mz)
        .centre
        .abs_diff(ion.mass() as i64)
}
