//! The outline of a spectrum: the lists of its precursor and its selected peaks, or why it is skipped.
ghost use Rattle.std.specs.Prelude.{◌≡◌, ◌≤◌, ◌++◌, ◌∷◌, ◌^◌, ◌≤ℤ◌, [], true, not, List, Ok, IfOk};
ghost use Rattle.std.specs.List.{All};
ghost use Rattle.adducts.specs.Fit.{fit_of, greatest_neutral_mass};
ghost use Rattle.adducts.specs.Selected.{StandApart};
ghost use Rattle.loss_graph.specs.Lists.{IsList};
ghost use Rattle.mgf_reader.specs.Spectrum.{PeakValue};
ghost use Rattle.tree_document.specs.Outline.{outline_of};
ghost use Rattle.right_document.specs.Outline.{IsOutline, explained};
ghost use Rattle.right_document.specs.RunSettings.{has_too_many, list_of_ion, window_at};
ghost use Rattle.right_document.specs.GoodLines.{HasGoodReason};
ghost use Rattle.right_document.specs.Outlines.{HasOwnLists};
ghost use Rattle.right_document.specs.SettingsOf.{settings_value_of};

use crate::settings::RunSettings;
use adducts::{Fit, fit, select_peaks, window};
use element_table::{FormulaList, Formulas};
use formula_lister::{ListFault, list};
use mgf_reader::{Peak, Spectrum};
use std::alloc::{AllocError, Global};
use tree_document::{Outline, Skip};

/// What stands of a spectrum.
pub fn read_outline(
    alloc: Global,
    spectrum: &Spectrum,
    settings: &RunSettings,
) -> Result<Outline, AllocError>
    ensures outline { IfOk result (λ outline. IsOutline (settings_value_of settings.now) spectrum.now.peaks
        (fit_of spectrum.now (settings_value_of settings.now).choice) (outline_of outline)) }
    ensures lists { IfOk result (λ outline. HasOwnLists settings.now.choice (outline_of outline)) }
    ensures reason { IfOk result (λ outline. HasGoodReason (outline_of outline)) }
{
    // tells that the precursor was measured, for the proof; nothing is done
    let _precursor = spectrum.precursor;
    match fit(spectrum, &settings.choice) {
        Fit::NoPrecursor => Ok(Outline::Skipped(Skip::NoPrecursor)),
        Fit::Charge => Ok(Outline::Skipped(Skip::Charge)),
        Fit::Range(mz) => Ok(Outline::Skipped(Skip::Range(mz))),
        Fit::Usable(mz) => {
            let selected = select_peaks(alloc, spectrum, &settings.choice)?;
            explain(alloc, settings, mz, &selected)
        }
    }
}

/// What stands of a spectrum with this precursor and these selected peaks: their lists, or that one has too many
/// formulas.
fn explain(
    alloc: Global,
    settings: &RunSettings,
    precursor: u64,
    selected: &[Peak],
) -> Result<Outline, AllocError>
    requires measured { precursor ≤ 10 ^ 18 }
    requires light { (window_at (settings_value_of settings.now) precursor).centre ≤ℤ greatest_neutral_mass }
    requires below { All (λ peak. peak.mz ≤ precursor) selected.now }
    requires apart { (peaks : List PeakValue) × StandApart settings.now.choice precursor peaks selected.now }
    ensures explained { IfOk result (λ outline. outline_of outline
        ≡ explained (settings_value_of settings.now) precursor selected.now) }
    ensures lists { IfOk result (λ outline. HasOwnLists settings.now.choice (outline_of outline)) }
    ensures reason { IfOk result (λ outline. HasGoodReason (outline_of outline)) }
{
    let mut lists = Vec::new(alloc);
    if !add_list(alloc, &mut lists, settings, precursor, 0)? {
        return Ok(Outline::Skipped(Skip::TooMany(precursor)));
    }
    for peak in selected {
        if !add_list(alloc, &mut lists, settings, peak.mz, peak.intensity)? {
            return Ok(Outline::Skipped(Skip::TooMany(peak.mz)));
        }
    }
    Ok(Outline::Listed(lists))
}

/// Adds the list of an ion, unless it has too many formulas, and says whether it did.
fn add_list(
    alloc: Global,
    lists: &mut Vec<FormulaList>,
    settings: &RunSettings,
    mz: u64,
    intensity: u64,
) -> Result<bool, AllocError>
    requires measured { mz ≤ 10 ^ 18 }
    requires light { (window_at (settings_value_of settings.now) mz).centre ≤ℤ greatest_neutral_mass }
    requires counted { intensity ≤ 10 ^ 18 }
    ensures told { IfOk result (λ added. added ≡ not (has_too_many (settings_value_of settings.now) mz)) }
    ensures lists { result ≡ Ok true
        → lists.new.items ≡ lists.old.items ++ list_of_ion (settings_value_of settings.now) mz intensity ∷ [] }
    ensures list { result ≡ Ok true
        → IsList settings.now.choice (list_of_ion (settings_value_of settings.now) mz intensity) }
{
    match list(
        alloc,
        &window(&settings.choice, mz),
        &settings.limits,
        &settings.sieve,
    ) {
        Ok(formulas) => {
            lists.push(FormulaList {
                mz,
                intensity,
                formulas: Formulas::of(formulas),
            })?;
            Ok(true)
        }
        Err(ListFault::TooMany) => Ok(false),
        Err(ListFault::OutOfMemory) => Err(AllocError),
    }
}
