//! A document written, line by line.
ghost use Rattle.std.specs.Prelude.{◌≡◌, ◌++◌, [], ◌∷◌, IfOk, OnOk, codes, decimal, length, map};
ghost use Rattle.std.specs.Fmt.{signed_decimal};
ghost use Rattle.std.specs.List.{flat_map};
ghost use Rattle.tree_document.specs.Document.{body_lines, cert_lines, ending_line, entry_lines, list_lines};
ghost use Rattle.tree_document.specs.Document.{outcome_lines, section_lines, text_of};
ghost use Rattle.tree_document.specs.declared.entry.Outcome.TheVariants as variants;
ghost use Rattle.tree_certificate.specs.Value.{cert_of};
ghost use Rattle.tree_document.specs.Line as spec;

use crate::appending::push_done;
use crate::bound_writer::push_bound;
use element_table::{Formula, FormulaList, print_formula};
use itoa::Buffer;
use mgf_reader::MgfKind;
use std::alloc::{AllocError, Global};
use tree_certificate::Cert;
use tree_document::{
    Body, Ending, Entry, Mark, Outcome, Section, Skip, Solved, Tree, TreeRow, push_spelling,
};

/// The line that begins a document.
pub fn write_header() -> &'static [u8]
    ensures { result.now ≡ text_of (spec.header_line ∷ []) }
{
    b"fragdoc 1\n"
}

/// Appends the line of a spectrum: the line of its `BEGIN IONS` and its title.
pub(crate) fn push_spectrum_line(
    text: &mut Vec<u8>,
    line: u32,
    title: &[u8],
) -> Result<(), AllocError>
    ensures { OnOk result (text.new.items ≡ text.old.items ++ text_of (spec.spectrum_line line title.now ∷ [])) }
{
    text.extend_from_slice(b"spectrum")?;
    push_number(text, u64::from(line))?;
    text.push(b' ')?;
    push_spelling(text, title)?;
    text.push(b'\n')?;
    Ok(())
}

/// Appends the line of a list.
fn push_list_head(text: &mut Vec<u8>, mz: u64, intensity: u64, count: u64) -> Result<(), AllocError>
    ensures { OnOk result (text.new.items ≡ text.old.items
        ++ (spec.line_text (spec.list_line mz intensity count) ++ codes "\n")) }
{
    text.extend_from_slice(b"list")?;
    push_number(text, mz)?;
    push_number(text, intensity)?;
    push_number(text, count)?;
    text.push(b'\n')?;
    Ok(())
}

/// Appends the line of a formula.
fn push_formula_line(text: &mut Vec<u8>, formula: &Formula) -> Result<(), AllocError>
    ensures { OnOk result (text.new.items ≡ text.old.items
        ++ (spec.line_text (spec.formula_line formula.now) ++ codes "\n")) }
{
    text.push(b'f')?;
    push_formula(text, formula)?;
    text.push(b'\n')?;
    Ok(())
}

/// Appends the line of a row of a tree.
fn push_row(text: &mut Vec<u8>, row: &TreeRow) -> Result<(), AllocError>
    ensures { OnOk result (text.new.items ≡ text.old.items ++ (spec.line_text (spec.row_line row.now) ++ codes "\n")) }
{
    push_row_numbers(text, row)?;
    push_row_formulas(text, row)?;
    text.push(b'\n')?;
    Ok(())
}

/// Appends the first word of a row and its numbers before the formulas.
fn push_row_numbers(text: &mut Vec<u8>, row: &TreeRow) -> Result<(), AllocError>
    ensures { OnOk result (text.new.items ≡ text.old.items
        ++ (codes "r" ++ ((codes " " ++ decimal row.now.edge)
        ++ ((codes " " ++ decimal row.now.parent) ++ (codes " " ++ decimal row.now.peak))))) }
{
    text.push(b'r')?;
    push_number(text, u64::from(row.edge))?;
    push_number(text, u64::from(row.parent))?;
    push_number(text, u64::from(row.peak))?;
    Ok(())
}

/// Appends the formulas of a row and its weight.
fn push_row_formulas(text: &mut Vec<u8>, row: &TreeRow) -> Result<(), AllocError>
    ensures { OnOk result (text.new.items ≡ text.old.items
        ++ (spec.field_text (spec.a_formula row.now.formula)
        ++ (spec.field_text (spec.a_formula row.now.loss) ++ (codes " " ++ signed_decimal row.now.weight)))) }
{
    push_formula(text, &row.formula)?;
    push_formula(text, &row.loss)?;
    push_signed(text, i64::from(row.weight))?;
    Ok(())
}

/// Appends the line of a row of a table.
fn push_table_row(text: &mut Vec<u8>, row: &[i64]) -> Result<(), AllocError>
    ensures { OnOk result (text.new.items ≡ text.old.items
        ++ (spec.line_text (spec.table_row_line row.now) ++ codes "\n")) }
{
    text.push(b't')?;
    push_numbers(text, row)?;
    text.push(b'\n')?;
    Ok(())
}

/// Appends a space and a number.
pub fn push_number(text: &mut Vec<u8>, number: u64) -> Result<(), AllocError>
    ensures { OnOk result (text.new.items ≡ text.old.items ++ (codes " " ++ decimal number)) }
{
    text.push(b' ')?;
    text.extend_from_slice(Buffer::new().format(number).as_bytes())?;
    Ok(())
}

/// Appends a space and a number that may be negative.
fn push_signed(text: &mut Vec<u8>, number: i64) -> Result<(), AllocError>
    ensures { OnOk result (text.new.items ≡ text.old.items ++ (codes " " ++ signed_decimal number)) }
{
    text.push(b' ')?;
    text.extend_from_slice(Buffer::new().format(number).as_bytes())?;
    Ok(())
}

/// Appends a space and a formula.
fn push_formula(text: &mut Vec<u8>, formula: &Formula) -> Result<(), AllocError>
    ensures { OnOk result (text.new.items ≡ text.old.items ++ spec.field_text (spec.a_formula formula.now)) }
{
    text.push(b' ')?;
    text.extend_from_slice(print_formula(formula).items())?;
    Ok(())
}

/// Appends numbers, each with a space before it.
pub fn push_numbers(text: &mut Vec<u8>, numbers: &[i64]) -> Result<(), AllocError>
    ensures { OnOk result (text.new.items ≡ text.old.items
        ++ flat_map (λ number. codes " " ++ signed_decimal number) numbers.now) }
{
    for number in numbers {
        push_signed(text, *number)?;
    }
    Ok(())
}

/// Appends the lines of formulas.
fn push_formulas(text: &mut Vec<u8>, formulas: &[Formula]) -> Result<(), AllocError>
    ensures { OnOk result (text.new.items ≡ text.old.items
        ++ flat_map (λ counts. spec.line_text (spec.formula_line counts) ++ codes "\n") formulas.now) }
{
    for formula in formulas {
        push_formula_line(text, formula)?;
    }
    Ok(())
}

/// Appends the lines of the rows of a tree.
fn push_rows(text: &mut Vec<u8>, rows: &[TreeRow]) -> Result<(), AllocError>
    ensures { OnOk result (text.new.items ≡ text.old.items
        ++ flat_map (λ row. spec.line_text (spec.row_line row) ++ codes "\n") rows.now) }
{
    for row in rows {
        push_row(text, row)?;
    }
    Ok(())
}

/// The line that ends a document.
pub fn write_ending(alloc: Global, ending: &Ending) -> Result<Vec<u8>, AllocError>
    ensures { IfOk result (λ text. text.items ≡ text_of (ending_line ending.now ∷ [])) }
{
    let mut text = Vec::new(alloc);
    match ending {
        Ending::Clean => text.extend_from_slice(b"end clean")?,
        Ending::Refused(fault) => {
            text.extend_from_slice(b"end refused")?;
            push_number(&mut text, u64::from(fault.line))?;
            push_kind(&mut text, fault.kind)?;
        }
    }
    text.push(b'\n')?;
    Ok(text)
}

/// Appends a space and the word of a kind.
fn push_kind(text: &mut Vec<u8>, number: u8) -> Result<(), AllocError>
    ensures { OnOk result (text.new.items ≡ text.old.items ++ spec.field_text (spec.a_kind number)) }
{
    text.push(b' ')?;
    if let Some(kind) = MgfKind::of_number(number) {
        text.extend_from_slice(kind.text().as_bytes())?;
    }
    Ok(())
}

/// Appends the lines of a list.
fn push_list(text: &mut Vec<u8>, list: &FormulaList) -> Result<(), AllocError>
    ensures { OnOk result (text.new.items ≡ text.old.items ++ text_of (list_lines list.now)) }
{
    let formulas = list.formulas.items();
    push_list_head(text, list.mz, list.intensity, formulas.len() as u64)?;
    push_formulas(text, formulas)?;
    Ok(())
}

/// Appends the line that counts some lists, and their lines.
pub(crate) fn push_counted_lists(
    text: &mut Vec<u8>,
    lists: &[FormulaList],
) -> Result<(), AllocError>
    ensures { OnOk result (text.new.items ≡ text.old.items
        ++ text_of (spec.lists_line (length lists.now) ∷ flat_map list_lines lists.now)) }
{
    push_counted(text, b"lists", lists.len() as u64)?;
    push_each_list(text, lists)?;
    Ok(())
}

/// Appends the lines of lists, one after another.
fn push_each_list(text: &mut Vec<u8>, lists: &[FormulaList]) -> Result<(), AllocError>
    ensures { OnOk result (text.new.items ≡ text.old.items ++ flat_map (λ list. text_of (list_lines list)) lists.now) }
{
    for list in lists {
        push_list(text, list)?;
    }
    Ok(())
}

/// Appends a line that is a word and a number.
fn push_counted(text: &mut Vec<u8>, word: &[u8], number: u64) -> Result<(), AllocError>
    ensures { OnOk result (text.new.items ≡ text.old.items
        ++ ((word.now ++ ((codes " " ++ decimal number) ++ [])) ++ codes "\n")) }
{
    text.extend_from_slice(word)?;
    push_number(text, number)?;
    text.push(b'\n')?;
    Ok(())
}

/// Appends the lines of the rows of a table.
fn push_table_rows(text: &mut Vec<u8>, rows: &[Vec<i64>]) -> Result<(), AllocError>
    ensures { OnOk result (text.new.items ≡ text.old.items
        ++ flat_map (λ row. spec.line_text (spec.table_row_line row.items) ++ codes "\n") rows.now) }
{
    for row in rows {
        push_table_row(text, row.as_slice())?;
    }
    Ok(())
}

/// Appends the line that says why a spectrum was skipped.
pub(crate) fn push_reason(text: &mut Vec<u8>, reason: &Skip) -> Result<(), AllocError>
    ensures { OnOk result (text.new.items ≡ text.old.items ++ text_of (spec.skip_line reason.now ∷ [])) }
{
    match reason {
        Skip::NoPrecursor => text.extend_from_slice(b"skip no-precursor\n")?,
        Skip::Charge => text.extend_from_slice(b"skip charge\n")?,
        Skip::Range(mz) => push_counted(text, b"skip range", *mz)?,
        Skip::TooMany(mz) => push_counted(text, b"skip too-many", *mz)?,
    }
    Ok(())
}

/// Appends the beginning of an entry's line: the candidate and its error.
fn push_candidate(text: &mut Vec<u8>, candidate: &Formula, error: u64) -> Result<(), AllocError>
    ensures { OnOk result (text.new.items ≡ text.old.items
        ++ (codes "entry" ++ (spec.field_text (spec.a_formula candidate.now) ++ (codes " " ++ decimal error)))) }
{
    text.extend_from_slice(b"entry")?;
    push_formula(text, candidate)?;
    push_number(text, error)?;
    Ok(())
}

/// Appends the line of a candidate whose graph is too large.
fn push_too_large(
    text: &mut Vec<u8>,
    candidate: &Formula,
    error: u64,
    vertices: u32,
) -> Result<(), AllocError>
    ensures { OnOk result (text.new.items ≡ text.old.items
        ++ (spec.line_text (spec.too_large_line candidate.now error vertices) ++ codes "\n")) }
{
    push_candidate(text, candidate, error)?;
    push_counted(text, b" too-large", u64::from(vertices))?;
    Ok(())
}

/// Appends a space and the mark of a tree.
fn push_mark(text: &mut Vec<u8>, mark: Mark) -> Result<(), AllocError>
    ensures { OnOk result (text.new.items ≡ text.old.items ++ spec.field_text (spec.a_mark mark)) }
{
    match mark {
        Mark::Optimal => text.extend_from_slice(b" optimal")?,
        Mark::Gap => text.extend_from_slice(b" gap")?,
    }
    Ok(())
}

/// Appends the end of a tree's line, behind its candidate and error.
fn push_scores(
    text: &mut Vec<u8>,
    score: i64,
    upper: i64,
    mark: Mark,
    count: u64,
) -> Result<(), AllocError>
    ensures { OnOk result (text.new.items ≡ text.old.items
        ++ ((codes " " ++ signed_decimal score) ++ ((codes " " ++ signed_decimal upper)
        ++ (spec.field_text (spec.a_mark mark) ++ ((codes " " ++ decimal count) ++ codes "\n"))))) }
{
    push_signed(text, score)?;
    push_signed(text, upper)?;
    push_mark(text, mark)?;
    push_number(text, count)?;
    text.push(b'\n')?;
    Ok(())
}

/// Appends the lines of a table.
fn push_table(text: &mut Vec<u8>, rows: &[Vec<i64>]) -> Result<(), AllocError>
    ensures { OnOk result (text.new.items ≡ text.old.items
        ++ text_of (spec.table_line (length rows.now) ∷ map (λ row. spec.table_row_line row.items) rows.now)) }
{
    push_counted(text, b"table", rows.len() as u64)?;
    push_table_rows(text, rows)?;
    Ok(())
}

/// Appends the lines of a certificate.
fn push_cert(text: &mut Vec<u8>, cert: &Cert) -> Result<(), AllocError>
    ensures { OnOk result (text.new.items ≡ text.old.items ++ text_of (cert_lines (cert_of cert.now))) }
{
    match cert {
        Cert::Table(table) => push_table(text, table.rows())?,
        Cert::Bounds(bound) => push_bound(text, bound)?,
    }
    Ok(())
}

/// Appends the line of a candidate with a tree.
fn push_tree_line(
    text: &mut Vec<u8>,
    candidate: &Formula,
    error: u64,
    tree: &Tree,
) -> Result<(), AllocError>
    ensures { OnOk result (text.new.items ≡ text.old.items ++ (spec.line_text (spec.tree_line candidate.now error
        tree.now.score tree.now.upper tree.now.mark (length tree.now.rows)) ++ codes "\n")) }
{
    push_candidate(text, candidate, error)?;
    push_scores(
        text,
        tree.score,
        tree.upper,
        tree.mark,
        tree.rows.items().len() as u64,
    )?;
    Ok(())
}

/// Appends the lines of a candidate with a tree.
fn push_tree(
    text: &mut Vec<u8>,
    candidate: &Formula,
    error: u64,
    tree: &Tree,
) -> Result<(), AllocError>
    ensures { OnOk result (text.new.items ≡ text.old.items
        ++ text_of (outcome_lines candidate.now error (variants.Tree tree.now))) }
{
    push_tree_line(text, candidate, error, tree)?;
    push_rows(text, tree.rows.items())?;
    push_cert(text, &tree.cert)?;
    Ok(())
}

/// Appends the lines of an entry.
fn push_entry(text: &mut Vec<u8>, entry: &Entry) -> Result<(), AllocError>
    ensures { OnOk result (text.new.items ≡ text.old.items ++ text_of (entry_lines entry.now)) }
{
    match &entry.outcome {
        Outcome::TooLarge(vertices) => push_too_large(
            text,
            &entry.candidate,
            entry.error,
            *vertices,
        )?,
        Outcome::Tree(tree) => push_tree(text, &entry.candidate, entry.error, tree)?,
    }
    Ok(())
}

/// Appends the lines of entries, one after another.
fn push_each_entry(text: &mut Vec<u8>, entries: &[Entry]) -> Result<(), AllocError>
    ensures { OnOk result (text.new.items ≡ text.old.items
        ++ flat_map (λ entry. text_of (entry_lines entry)) entries.now) }
{
    for entry in entries {
        push_entry(text, entry)?;
    }
    Ok(())
}

/// Appends the line that counts some entries, and their lines.
fn push_entries(text: &mut Vec<u8>, entries: &[Entry]) -> Result<(), AllocError>
    ensures { OnOk result (text.new.items ≡ text.old.items
        ++ text_of (spec.entries_line (length entries.now) ∷ flat_map entry_lines entries.now)) }
{
    push_counted(text, b"entries", entries.len() as u64)?;
    push_each_entry(text, entries)?;
    Ok(())
}

/// Appends the lists and the entries of a spectrum.
fn push_solved(text: &mut Vec<u8>, solved: &Solved) -> Result<(), AllocError>
    ensures { OnOk result (text.new.items ≡ text.old.items
        ++ text_of ((spec.lists_line (length solved.now.lists) ∷ flat_map list_lines solved.now.lists)
        ++ spec.entries_line (length solved.now.entries) ∷ flat_map entry_lines solved.now.entries)) }
{
    push_counted_lists(text, solved.lists.items())?;
    push_entries(text, solved.entries.items())?;
    Ok(())
}

/// Appends what stands between the line of a spectrum and the line `done`.
fn push_body(text: &mut Vec<u8>, body: &Body) -> Result<(), AllocError>
    ensures { OnOk result (text.new.items ≡ text.old.items ++ text_of (body_lines body.now)) }
{
    match body {
        Body::Skipped(reason) => push_reason(text, reason)?,
        Body::Solved(solved) => push_solved(text, solved)?,
    }
    Ok(())
}

/// The lines of a section.
pub fn write_section(alloc: Global, section: &Section) -> Result<Vec<u8>, AllocError>
    ensures { IfOk result (λ text. text.items ≡ text_of (section_lines section.now)) }
{
    let mut text = Vec::new(alloc);
    push_spectrum_line(&mut text, section.line, section.title.items())?;
    push_body(&mut text, &section.body)?;
    push_done(&mut text)?;
    Ok(text)
}
