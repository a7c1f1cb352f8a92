//! The lines of a report.
ghost use Rattle.std.specs.Prelude.{◌≡◌, ◌++◌, OnOk, codes, decimal};
ghost use Rattle.std.specs.Fmt.{signed_decimal};
ghost use Rattle.std.specs.List.{enumerate_from, flat_map};
ghost use Rattle.fixed_mass.specs.FixedText.{fixed_text, mass_places};
ghost use Rattle.element_table.specs.FormulaText.{formula_text};
ghost use Rattle.mgf_reader.specs.Fault.{kind_of_number};
ghost use Rattle.rank_report.specs.Report as spec;
ghost use Rattle.tree_document.specs.Line.{word_of};
ghost use Rattle.tree_document.specs.declared.document.Body.TheVariants.{Skipped};
ghost use Rattle.tree_document.specs.declared.entry.Outcome.TheVariants as outcome;

use element_table::{Formula, FormulaList, print_formula};
use fixed_mass::print_units;
use itoa::Buffer;
use mgf_reader::MgfKind;
use std::alloc::AllocError;
use tree_document::{Entry, Mark, Outcome, Skip, Tree, TreeRow};

/// Appends some words and a number.
pub fn push_number(text: &mut Vec<u8>, words: &[u8], number: u64) -> Result<(), AllocError>
    ensures { OnOk result (text.new.items ≡ text.old.items ++ (words.now ++ decimal number)) }
{
    text.extend_from_slice(words)?;
    text.extend_from_slice(Buffer::new().format(number).as_bytes())?;
    Ok(())
}

/// Appends some words and a number that may be negative.
fn push_signed(text: &mut Vec<u8>, words: &[u8], number: i64) -> Result<(), AllocError>
    ensures { OnOk result (text.new.items ≡ text.old.items ++ (words.now ++ signed_decimal number)) }
{
    text.extend_from_slice(words)?;
    text.extend_from_slice(Buffer::new().format(number).as_bytes())?;
    Ok(())
}

/// Appends some words and an m/z.
fn push_mz(text: &mut Vec<u8>, words: &[u8], mz: u64) -> Result<(), AllocError>
    ensures { OnOk result (text.new.items ≡ text.old.items ++ (words.now ++ fixed_text mass_places mz)) }
{
    text.extend_from_slice(words)?;
    text.extend_from_slice(print_units(mz).items())?;
    Ok(())
}

/// Appends some words and a formula.
fn push_formula(text: &mut Vec<u8>, words: &[u8], formula: &Formula) -> Result<(), AllocError>
    ensures { OnOk result (text.new.items ≡ text.old.items ++ (words.now ++ formula_text formula.now)) }
{
    text.extend_from_slice(words)?;
    text.extend_from_slice(print_formula(formula).items())?;
    Ok(())
}

/// Appends a space and the word of a kind.
pub fn push_kind(text: &mut Vec<u8>, number: u8) -> Result<(), AllocError>
    ensures { OnOk result (text.new.items ≡ text.old.items ++ (codes " " ++ word_of (kind_of_number number))) }
{
    text.push(b' ')?;
    if let Some(kind) = MgfKind::of_number(number) {
        text.extend_from_slice(kind.text().as_bytes())?;
    }
    Ok(())
}

/// Appends the line that says why a spectrum was skipped.
pub fn push_skip(text: &mut Vec<u8>, reason: &Skip) -> Result<(), AllocError>
    ensures { OnOk result (text.new.items ≡ text.old.items ++ spec.body_text (Skipped reason.now)) }
{
    text.extend_from_slice(b"  skipped: ")?;
    push_skip_words(text, reason)?;
    text.push(b'\n')?;
    Ok(())
}

/// Appends why a spectrum was skipped.
fn push_skip_words(text: &mut Vec<u8>, reason: &Skip) -> Result<(), AllocError>
    ensures { OnOk result (text.new.items ≡ text.old.items ++ spec.skip_words reason.now) }
{
    match reason {
        Skip::NoPrecursor => text.extend_from_slice(b"no precursor")?,
        Skip::Charge => text.extend_from_slice(b"charge")?,
        Skip::Range(mz) => push_mz(text, b"range ", *mz)?,
        Skip::TooMany(mz) => push_mz(text, b"too many at ", *mz)?,
    }
    Ok(())
}

/// Appends the lines of lists, numbered from 0.
pub fn push_peaks(text: &mut Vec<u8>, lists: &[FormulaList]) -> Result<(), AllocError>
    ensures { OnOk result (text.new.items ≡ text.old.items ++ flat_map spec.peak_line (enumerate_from 0 lists.now)) }
{
    for (place, list) in lists.iter().enumerate() {
        push_peak(text, place as u64, list)?;
    }
    Ok(())
}

/// Appends the line of a list.
fn push_peak(text: &mut Vec<u8>, number: u64, list: &FormulaList) -> Result<(), AllocError>
    ensures { OnOk result (text.new.items ≡ text.old.items ++ spec.peak_line (number, list.now)) }
{
    push_number(text, b"  peak ", number)?;
    push_mz(text, b"  ", list.mz)?;
    push_number(text, b"  formulas ", list.formulas.items().len() as u64)?;
    text.push(b'\n')?;
    Ok(())
}

/// Appends entries by rank, from 1, each with the rows of its tree.
pub fn push_entries(text: &mut Vec<u8>, entries: &[Entry]) -> Result<(), AllocError>
    ensures { OnOk result (text.new.items ≡ text.old.items ++ flat_map spec.entry_text (enumerate_from 1 entries.now)) }
{
    for (place, entry) in entries.iter().enumerate() {
        push_entry(text, place as u64 + 1, entry)?;
    }
    Ok(())
}

/// Appends the line of an entry, and those of the rows of its tree.
fn push_entry(text: &mut Vec<u8>, number: u64, entry: &Entry) -> Result<(), AllocError>
    ensures { OnOk result (text.new.items ≡ text.old.items ++ spec.entry_text (number, entry.now)) }
{
    push_number(text, b"  rank ", number)?;
    push_formula(text, b"  ", &entry.candidate)?;
    push_number(text, b"  error ", entry.error)?;
    push_outcome(text, &entry.outcome)?;
    Ok(())
}

/// Appends what was found for a candidate.
fn push_outcome(text: &mut Vec<u8>, found: &Outcome) -> Result<(), AllocError>
    ensures { OnOk result (text.new.items ≡ text.old.items ++ spec.outcome_text found.now) }
{
    match found {
        Outcome::Tree(tree) => push_tree(text, tree)?,
        Outcome::TooLarge(vertices) => push_too_large(text, *vertices)?,
    }
    Ok(())
}

/// Appends how many vertices the graph of a candidate has, where they are too many.
fn push_too_large(text: &mut Vec<u8>, vertices: u32) -> Result<(), AllocError>
    ensures { OnOk result (text.new.items ≡ text.old.items ++ spec.outcome_text (outcome.TooLarge vertices)) }
{
    push_number(text, b"  too large ", u64::from(vertices))?;
    text.push(b'\n')?;
    Ok(())
}

/// Appends the score of a tree, what is said of it, and the lines of the rows.
fn push_tree(text: &mut Vec<u8>, tree: &Tree) -> Result<(), AllocError>
    ensures { OnOk result (text.new.items ≡ text.old.items ++ spec.outcome_text (outcome.Tree tree.now)) }
{
    push_score(text, tree)?;
    push_mark(text, tree)?;
    text.push(b'\n')?;
    push_rows(text, tree.rows.items())?;
    Ok(())
}

/// Appends the score of a tree.
fn push_score(text: &mut Vec<u8>, tree: &Tree) -> Result<(), AllocError>
    ensures { OnOk result (text.new.items ≡ text.old.items ++ (codes "  score " ++ signed_decimal tree.now.score)) }
{
    push_signed(text, b"  score ", tree.score)?;
    Ok(())
}

/// Appends what is said of a tree's score, by its mark.
fn push_mark(text: &mut Vec<u8>, tree: &Tree) -> Result<(), AllocError>
    ensures { OnOk result (text.new.items ≡ text.old.items ++ spec.mark_words tree.now.mark tree.now.upper) }
{
    match tree.mark {
        Mark::Optimal => text.extend_from_slice(b"  optimal")?,
        Mark::Gap => push_gap(text, tree.upper)?,
    }
    Ok(())
}

/// Appends the upper bound of a tree whose score is below it.
fn push_gap(text: &mut Vec<u8>, upper: i64) -> Result<(), AllocError>
    ensures { OnOk result (text.new.items
        ≡ text.old.items ++ (codes "  upper " ++ signed_decimal upper ++ codes "  gap")) }
{
    push_signed(text, b"  upper ", upper)?;
    text.extend_from_slice(b"  gap")?;
    Ok(())
}

/// Appends the lines of the rows of a tree, numbered from 1.
fn push_rows(text: &mut Vec<u8>, rows: &[TreeRow]) -> Result<(), AllocError>
    ensures { OnOk result (text.new.items ≡ text.old.items ++ flat_map spec.row_line (enumerate_from 1 rows.now)) }
{
    for (place, row) in rows.iter().enumerate() {
        push_row(text, place as u64 + 1, row)?;
    }
    Ok(())
}

/// Appends the line of a row.
fn push_row(text: &mut Vec<u8>, number: u64, row: &TreeRow) -> Result<(), AllocError>
    ensures { OnOk result (text.new.items ≡ text.old.items ++ spec.row_line (number, row.now)) }
{
    push_number(text, b"    row ", number)?;
    push_number(text, b"  parent ", u64::from(row.parent))?;
    push_number(text, b"  peak ", u64::from(row.peak))?;
    push_formula(text, b"  ", &row.formula)?;
    push_formula(text, b"  loss ", &row.loss)?;
    push_weight(text, row)?;
    text.push(b'\n')?;
    Ok(())
}

/// Appends the weight of a row.
fn push_weight(text: &mut Vec<u8>, row: &TreeRow) -> Result<(), AllocError>
    ensures { OnOk result (text.new.items ≡ text.old.items ++ (codes "  weight " ++ signed_decimal row.now.weight)) }
{
    push_signed(text, b"  weight ", i64::from(row.weight))?;
    Ok(())
}
