//! The section of a spectrum: its lists and an entry for each candidate, or why it is skipped.
ghost use Rattle.std.specs.Prelude.{◌≡◌, ◌≤◌, ◌+◌, IfOk, IsTrue, length, map};
ghost use Rattle.std.specs.List.{All};
ghost use Rattle.element_table.specs.Formula.{IsFormula};
ghost use Rattle.loss_graph.specs.Lists.{AreLists};
ghost use Rattle.profile.specs.Profile.{greatest_peaks};
ghost use Rattle.tree_document.specs.Document.{AreGoodLines, body_lines, entry_lines, section_lines};
ghost use Rattle.tree_document.specs.Title.{are_bytes};
ghost use Rattle.tree_document.specs.declared.document.Body.TheVariants as bodies;
ghost use Rattle.right_document.specs.Candidates.{ion_of};
ghost use Rattle.right_document.specs.RightSection.{IsRightEntry, SectionIsRight, SolvedIsRight};
ghost use Rattle.right_document.specs.Outlines.{AreOwnLists};
ghost use Rattle.right_document.specs.SettingsOf.{solve_settings_value_of};

use crate::entry::entry_of;
use element_table::{Formula, FormulaList};
use mgf_reader::{Spectrum, Title};
use right_document::{SolveSettings, candidates, read_outline};
use std::alloc::{AllocError, Global};
use tree_document::{Body, Entries, Entry, FormulaLists, Outline, Section, Solved};
use tree_entry::{rank, ranked_entries_rise};

/// The section of a spectrum.
pub fn section_of(
    alloc: Global,
    spectrum: Spectrum,
    settings: &SolveSettings,
) -> Result<Section, AllocError>
    requires peaks { settings.now.listing.choice.peaks ≤ greatest_peaks }
    ensures right { IfOk result (λ section. SectionIsRight (solve_settings_value_of settings.now) spectrum section) }
    ensures good { IfOk result (λ section. AreGoodLines (section_lines section)) }
{
    let body = match read_outline(alloc, &spectrum, &settings.listing)? {
        Outline::Skipped(reason) => Body::Skipped(reason),
        Outline::Listed(lists) => Body::Solved(solved_of(alloc, lists, settings)?),
    };
    Ok(section_with(spectrum.line, spectrum.title, body))
}

/// The section of a spectrum with this line, this title and what stands of it.
fn section_with(line: u32, title: Title, body: Body) -> Section
    requires { AreGoodLines (body_lines body) }
    ensures section { result ≡ record { line = line; title = title; body = body } }
    ensures good { AreGoodLines (section_lines result) }
{
    is_bytes(title.items());
    Section { line, title, body }
}

/// Tells that a title is bytes, for proofs alone: it does nothing.
fn is_bytes(title: &[u8])
    ensures { IsTrue (are_bytes title.now) }
{}

/// The lists of a spectrum and the entries of its candidates, by rank.
fn solved_of(
    alloc: Global,
    lists: Vec<FormulaList>,
    settings: &SolveSettings,
) -> Result<Solved, AllocError>
    requires own { AreOwnLists settings.now.listing.choice lists.items }
    requires few { length lists.items ≤ greatest_peaks + 1 }
    ensures right { IfOk result (λ solved. SolvedIsRight (solve_settings_value_of settings.now) lists.items solved) }
    ensures good { IfOk result (λ solved. AreGoodLines (body_lines (bodies.Solved solved))) }
{
    ranked_entries_rise();
    let candidates = candidates(alloc, lists[0].formulas.items(), settings)?;
    let mut entries = entries_of(alloc, &lists, &candidates, settings)?;
    are_formulas(&lists);
    rank(alloc, &mut entries)?;
    Ok(Solved {
        lists: FormulaLists::of(lists),
        entries: Entries::of(entries),
    })
}

/// The entries of candidates over the lists of their spectrum, in the order of the candidates.
fn entries_of(
    alloc: Global,
    lists: &[FormulaList],
    candidates: &[Formula],
    settings: &SolveSettings,
) -> Result<Vec<Entry>, AllocError>
    requires lists { All (λ candidate. AreLists settings.now.listing.choice
        (ion_of (solve_settings_value_of settings.now) candidate) lists.now) candidates.now }
    requires few { length lists.now ≤ greatest_peaks + 1 }
    ensures right { IfOk result (λ entries.
        All (IsRightEntry (solve_settings_value_of settings.now) lists.now) entries.items) }
    ensures candidates { IfOk result (λ entries. map (λ entry. entry.candidate) entries.items ≡ candidates.now) }
    ensures good { IfOk result (λ entries. All (λ entry. AreGoodLines (entry_lines entry)) entries.items) }
{
    let mut entries = Vec::new(alloc);
    for candidate in candidates {
        let entry = entry_of(alloc, lists, candidate, settings)?;
        entries.push(entry)?;
    }
    Ok(entries)
}

/// Tells what the formulas of lists are, for proofs alone: it does nothing.
fn are_formulas(lists: &[FormulaList])
    ensures { All (λ list. All IsFormula list.formulas) lists.now }
{
    for list in lists {
        list.formulas.are_formulas();
    }
}
