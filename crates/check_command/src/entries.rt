//! Where the lists and entries of a section differ first from the right ones.
ghost use Rattle.std.specs.Prelude.{◌≡◌, ◌≤◌, ◌<◌, ◌+◌, ◌↔◌, true, IfOk, MatchOption, Ok, length, map};
ghost use Rattle.std.specs.List.{All, AllByRecursion, AllPairs};
ghost use Rattle.std.specs.List.Sorted.{IsPermutation};
ghost use Rattle.std.specs.declared.cmp.Ordering.TheVariants.{Less};
ghost use Rattle.element_table.specs.Formula.{formula_cmp};
ghost use Rattle.element_table.specs.FormulaList.{greatest_list};
ghost use Rattle.loss_graph.specs.Lists.{AreLists, greatest_lists, list_at};
ghost use Rattle.tree_entry.specs.Rank.{rank_cmp};
ghost use Rattle.tree_document.specs.Document.{IsSmallCert, OfOutcome};
ghost use Rattle.right_document.specs.Candidates.{candidates_of, ion_of};
ghost use Rattle.right_document.specs.RightSection.{ErrorIsRight};
ghost use Rattle.check_command.specs.CheckPlaces.{IsFirstWrong, IsListsPlace, IsOrderPlace};
ghost use Rattle.check_command.specs.inside.CheckAnswers.{IsSolvedAnswer};
ghost use Rattle.right_document.specs.Outlines.{AreOwnLists};
ghost use Rattle.right_document.specs.SettingsOf.{solve_settings_value_of};

use crate::trees::trees_place;
use element_table::{Formula, FormulaList, sorted_formulas_rise};
use right_document::{SolveSettings, candidates, ion_error};
use run_plan::RejectPart;
use std::alloc::{AllocError, Global};
use std::cmp::Ordering;
use tree_document::{Entry, Solved};
use tree_entry::compare_entries;

/// The first part of lists and entries that differs from the right ones for the lists of a spectrum, if one does.
pub fn solved_place(
    alloc: Global,
    lists: &[FormulaList],
    solved: &Solved,
    settings: &SolveSettings,
) -> Result<Option<RejectPart>, AllocError>
    requires peaks { settings.now.listing.choice.peaks + 1 < greatest_lists }
    requires own { AreOwnLists settings.now.listing.choice lists.now }
    requires small { AllByRecursion (λ entry. OfOutcome IsSmallCert entry.outcome) solved.now.entries }
    ensures { IfOk result (IsSolvedAnswer (solve_settings_value_of settings.now) lists.now solved.now) }
{
    if let Some(number) = first_other_list(lists, solved.lists.items()) {
        return Ok(Some(RejectPart::Lists(number)));
    }
    let entries = solved.entries.items();
    if !are_of_candidates(alloc, lists, entries, settings)? {
        return Ok(Some(RejectPart::Candidates));
    }
    if let Some(number) = first_wrong_error(lists, entries, settings) {
        return Ok(Some(RejectPart::Error(number)));
    }
    if let Some(part) = trees_place(alloc, lists, entries, settings)? {
        return Ok(Some(part));
    }
    Ok(first_wrong_order(entries).map(|number| RejectPart::Order(number)))
}

/// The number, from 0, of the first list that differs, or that one side alone has.
fn first_other_list(lists: &[FormulaList], own: &[FormulaList]) -> Option<u32>
    requires few { length lists.now < greatest_lists }
    ensures { MatchOption result (own.now ≡ lists.now) (λ number. IsListsPlace lists.now own.now number) }
{
    let shared = lists.len().min(own.len());
    for number in 0..shared {
        if !is_same_list(&lists[number], &own[number]) {
            return Some(number as u32);
        }
    }
    if lists.len() == own.len() {
        None
    } else {
        Some(shared as u32)
    }
}

/// Whether two lists are the same.
fn is_same_list(list: &FormulaList, other: &FormulaList) -> bool
    ensures { (result ≡ true) ↔ (other.now ≡ list.now) }
{
    list.mz == other.mz
        && list.intensity == other.intensity
        && are_same_formulas(list.formulas.items(), other.formulas.items())
}

/// Whether formulas are the same, one after another.
fn are_same_formulas(formulas: &[Formula], others: &[Formula]) -> bool
    ensures { (result ≡ true) ↔ (formulas.now ≡ others.now) }
{
    formulas == others
}

/// Whether entries are those of the candidates of a spectrum with these lists, each once. If so they are not too many,
/// and the graph of each can be built.
fn are_of_candidates(
    alloc: Global,
    lists: &[FormulaList],
    entries: &[Entry],
    settings: &SolveSettings,
) -> Result<bool, AllocError>
    requires peaks { settings.now.listing.choice.peaks + 1 < greatest_lists }
    requires own { AreOwnLists settings.now.listing.choice lists.now }
    ensures all { IfOk result (λ answer. (answer ≡ true) ↔ IsPermutation
        (candidates_of (solve_settings_value_of settings.now) (list_at lists.now 0).formulas)
        (map (λ entry. entry.candidate) entries.now)) }
    ensures few { result ≡ Ok true → length entries.now ≤ greatest_list }
    ensures lists { result ≡ Ok true → All (λ entry. AreLists settings.now.listing.choice
        (ion_of (solve_settings_value_of settings.now) entry.candidate) lists.now) entries.now }
{
    let precursor = &lists[0];
    let right = candidates(alloc, precursor.formulas.items(), settings)?;
    are_candidates(alloc, entries, &right)
}

/// Whether entries are those of some candidates, each once. The candidates stand in formula order.
fn are_candidates(
    alloc: Global,
    entries: &[Entry],
    candidates: &[Formula],
) -> Result<bool, AllocError>
    requires rising { AllPairs (λ one later. formula_cmp one later ≡ Less) candidates.now }
    ensures { IfOk result (λ answer.
        (answer ≡ true) ↔ IsPermutation candidates.now (map (λ entry. entry.candidate) entries.now)) }
{
    sorted_formulas_rise();
    let mut own = candidates_told(alloc, entries)?;
    own.sort_unstable();
    Ok(are_same_formulas(&own, candidates))
}

/// The candidates that entries tell of.
fn candidates_told(alloc: Global, entries: &[Entry]) -> Result<Vec<Formula>, AllocError>
    ensures { IfOk result (λ told. told.items ≡ map (λ entry. entry.candidate) entries.now) }
{
    entries.iter().map(|entry| entry.candidate).collect(alloc)
}

/// The number, from 1, of the first entry whose error is wrong.
fn first_wrong_error(
    lists: &[FormulaList],
    entries: &[Entry],
    settings: &SolveSettings,
) -> Option<u32>
    requires few { length entries.now ≤ greatest_list }
    requires lists { All (λ entry. AreLists settings.now.listing.choice
        (ion_of (solve_settings_value_of settings.now) entry.candidate) lists.now) entries.now }
    ensures { MatchOption result (All (ErrorIsRight (solve_settings_value_of settings.now) lists.now) entries.now)
        (λ number. IsFirstWrong (ErrorIsRight (solve_settings_value_of settings.now) lists.now) entries.now number) }
{
    for place in 0..entries.len() {
        let entry = &entries[place];
        if entry.error != ion_error(lists, &entry.candidate, &settings.listing.choice) {
            return Some(place as u32 + 1);
        }
    }
    None
}

/// The number, from 1, of the first entry that may not follow the one before.
fn first_wrong_order(entries: &[Entry]) -> Option<u32>
    requires few { length entries.now ≤ greatest_list }
    ensures { MatchOption result (AllPairs (λ one later. rank_cmp one later ≡ Less) entries.now)
        (λ number. IsOrderPlace entries.now number) }
{
    for place in 1..entries.len() {
        if compare_entries(&entries[place - 1], &entries[place]) != Ordering::Less {
            return Some(place as u32 + 1);
        }
    }
    None
}
