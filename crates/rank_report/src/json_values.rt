//! The JSON values of a section and of what stands in it.
ghost use Rattle.std.specs.Prelude.{◌≡◌, ◌++◌, IfOk, decimal, map, string_bytes};
ghost use Rattle.element_table.specs.FormulaText.{formula_text};
ghost use Rattle.mgf_reader.specs.Fault.{kind_of_number};
ghost use Rattle.rank_report.specs.JsonReport.{skip_word};
ghost use Rattle.rank_report.specs.inside.JsonData as spec;
ghost use Rattle.serde_json.specs.View.{view};
ghost use Rattle.tree_document.specs.Line.{mark_text, word_of};
ghost use Rattle.tree_document.specs.Title.{escaped};

use element_table::{Formula, FormulaList, a_spelling_is_one_word, print_formula};
use itoa::Buffer;
use mgf_reader::MgfKind;
use serde_json::{Value, json};
use std::alloc::{AllocError, Global};
use tree_document::{
    Body, Entry, Mark, MgfEnd, Outcome, Section, Skip, Solved, Tree, TreeRow, push_spelling,
};

/// The value of a section.
pub fn section_value(alloc: Global, section: &Section) -> Result<Value, AllocError>
    ensures { IfOk result (λ value. view value
        ≡ spec.body_data section.now.line section.now.title section.now.body) }
{
    match &section.body {
        Body::Skipped(reason) => skipped_value(alloc, section.line, section.title.items(), reason),
        Body::Solved(solved) => solved_value(alloc, section.line, section.title.items(), solved),
    }
}

/// The value of a spectrum that was skipped.
fn skipped_value(alloc: Global, line: u32, title: &[u8], reason: &Skip) -> Result<Value, AllocError>
    ensures { IfOk result (λ value. view value ≡ spec.skipped_data line title.now reason.now) }
{
    let skip = skip_string(alloc, reason)?;
    let title = title_string(alloc, title)?;
    json!(in alloc; {"line": line, "skip": skip, "title": title})
}

/// The value of a spectrum that is explained.
fn solved_value(
    alloc: Global,
    line: u32,
    title: &[u8],
    solved: &Solved,
) -> Result<Value, AllocError>
    ensures { IfOk result (λ value. view value
        ≡ spec.solved_data line title.now solved.now.lists solved.now.entries) }
{
    let entries = entry_values(alloc, solved.entries.items())?;
    let peaks = peak_values(alloc, solved.lists.items())?;
    let title = title_string(alloc, title)?;
    json!(in alloc; {"entries": entries, "line": line, "peaks": peaks, "title": title})
}

/// The value of the ending of a text whose line was refused.
pub fn refused_value(alloc: Global, fault: MgfEnd) -> Result<Value, AllocError>
    ensures { IfOk result (λ value. view value ≡ spec.refused_data fault) }
{
    let kind = kind_word(fault.kind);
    json!(in alloc; {"end": "refused", "kind": kind, "line": fault.line})
}

/// The word of a kind, where the number is one's.
fn kind_word(number: u8) -> &'static str
    ensures { result.now ≡ word_of (kind_of_number number) }
{
    match MgfKind::of_number(number) {
        Some(kind) => kind.text(),
        None => "",
    }
}

/// Why a spectrum was skipped, in the words of a document.
fn skip_string(alloc: Global, reason: &Skip) -> Result<String, AllocError>
    ensures { IfOk result (λ text. string_bytes text ≡ skip_word reason.now) }
{
    match reason {
        Skip::NoPrecursor => String::from_str(alloc, "no-precursor"),
        Skip::Charge => String::from_str(alloc, "charge"),
        Skip::Range(mz) => counted_string(alloc, "range ", *mz),
        Skip::TooMany(mz) => counted_string(alloc, "too-many ", *mz),
    }
}

/// A word with a number behind it.
fn counted_string(alloc: Global, word: &str, number: u64) -> Result<String, AllocError>
    ensures { IfOk result (λ text. string_bytes text ≡ word.now ++ decimal number) }
{
    let mut text = String::from_str(alloc, word)?;
    text.push_str(Buffer::new().format(number))?;
    Ok(text)
}

/// A title, spelled as in a document.
fn title_string(alloc: Global, title: &[u8]) -> Result<String, AllocError>
    ensures { IfOk result (λ text. string_bytes text ≡ escaped title.now) }
{
    let mut spelling = Vec::new(alloc);
    push_spelling(&mut spelling, title)?;
    Ok(String::from_utf8(spelling).unwrap())
}

/// The spelling of a formula.
fn formula_string(alloc: Global, formula: &Formula) -> Result<String, AllocError>
    ensures { IfOk result (λ text. string_bytes text ≡ formula_text formula.now) }
{
    formula.is_formula();
    a_spelling_is_one_word();
    let spelling = print_formula(formula);
    String::from_str(alloc, str::from_utf8(spelling.items()).unwrap())
}

/// The values of lists.
fn peak_values(alloc: Global, lists: &[FormulaList]) -> Result<Vec<Value>, AllocError>
    ensures { IfOk result (λ values. map view values.items ≡ map spec.peak_data lists.now) }
{
    let mut values = Vec::with_capacity(alloc, lists.len())?;
    for list in lists {
        values.push(peak_value(alloc, list)?)?;
    }
    Ok(values)
}

/// The value of a list.
fn peak_value(alloc: Global, list: &FormulaList) -> Result<Value, AllocError>
    ensures { IfOk result (λ value. view value ≡ spec.peak_data list.now) }
{
    let count = list.formulas.items().len();
    json!(in alloc; {"formulas": count, "mz": list.mz})
}

/// The values of entries.
fn entry_values(alloc: Global, entries: &[Entry]) -> Result<Vec<Value>, AllocError>
    ensures { IfOk result (λ values. map view values.items ≡ map spec.entry_data entries.now) }
{
    let mut values = Vec::with_capacity(alloc, entries.len())?;
    for entry in entries {
        values.push(entry_value(alloc, entry)?)?;
    }
    Ok(values)
}

/// The value of an entry.
fn entry_value(alloc: Global, entry: &Entry) -> Result<Value, AllocError>
    ensures { IfOk result (λ value. view value ≡ spec.entry_data entry.now) }
{
    match &entry.outcome {
        Outcome::Tree(tree) => tree_value(alloc, &entry.candidate, entry.error, tree),
        Outcome::TooLarge(vertices) => too_large_value(
            alloc,
            &entry.candidate,
            entry.error,
            *vertices,
        ),
    }
}

/// The value of a candidate whose graph has too many vertices.
fn too_large_value(
    alloc: Global,
    candidate: &Formula,
    error: u64,
    vertices: u32,
) -> Result<Value, AllocError>
    ensures { IfOk result (λ value. view value ≡ spec.too_large_data candidate.now error vertices) }
{
    let candidate = formula_string(alloc, candidate)?;
    json!(in alloc; {"candidate": candidate, "error": error, "vertices": vertices})
}

/// The value of a candidate with a tree.
fn tree_value(
    alloc: Global,
    candidate: &Formula,
    error: u64,
    tree: &Tree,
) -> Result<Value, AllocError>
    ensures { IfOk result (λ value. view value ≡ spec.tree_data candidate.now error tree.now) }
{
    let candidate = formula_string(alloc, candidate)?;
    let mark = mark_word(tree.mark);
    let rows = row_values(alloc, tree.rows.items())?;
    let (score, upper) = (tree.score, tree.upper);
    json!(in alloc; {"candidate": candidate, "error": error, "mark": mark, "rows": rows,
        "score": score, "upper": upper})
}

/// The word of a mark.
fn mark_word(mark: Mark) -> &'static str
    ensures { result.now ≡ mark_text mark }
{
    match mark {
        Mark::Optimal => "optimal",
        Mark::Gap => "gap",
    }
}

/// The values of the rows of a tree.
fn row_values(alloc: Global, rows: &[TreeRow]) -> Result<Vec<Value>, AllocError>
    ensures { IfOk result (λ values. map view values.items ≡ map spec.row_data rows.now) }
{
    let mut values = Vec::with_capacity(alloc, rows.len())?;
    for row in rows {
        values.push(row_value(alloc, row)?)?;
    }
    Ok(values)
}

/// The value of a row.
fn row_value(alloc: Global, row: &TreeRow) -> Result<Value, AllocError>
    ensures { IfOk result (λ value. view value ≡ spec.row_data row.now) }
{
    let formula = formula_string(alloc, &row.formula)?;
    let loss = formula_string(alloc, &row.loss)?;
    let (parent, peak, weight) = (row.parent, row.peak, row.weight);
    json!(in alloc; {"formula": formula, "loss": loss, "parent": parent, "peak": peak, "weight": weight})
}
