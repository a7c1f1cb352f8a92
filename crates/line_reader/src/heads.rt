//! One line of a document, where something is needed: it is taken, or the reading stops there.
ghost use Rattle.std.specs.Prelude.{◌≡◌, ◌≤◌, [], ◌∷◌, IfOk, IsTrue, unsigned_abs};
ghost use Rattle.std.specs.List.{list_all};
ghost use Rattle.std.specs.Option.{option_map};
ghost use Rattle.tree_certificate.specs.Number.{greatest_number, is_near};
ghost use Rattle.tree_document.specs.Line as spec;
ghost use Rattle.line_reader.specs.Head.{IsSmallHead, IsSmallSection};
ghost use Rattle.line_reader.specs.Head.{body_head_line, entry_head_line, section_head_line};
ghost use Rattle.line_fields.specs.Need.{need_body, need_document, need_done, need_entries, need_entry};
ghost use Rattle.line_fields.specs.Need.{need_formula, need_list, need_row, need_sections, need_table_row};
ghost use Rattle.line_fields.specs.Need.{clean_shape, first_line, line_at, refused_shape};
ghost use Rattle.line_forms.specs.Row.{row_fields_line};
ghost use Rattle.line_reader.specs.inside.Row.{IsSmallRow};
ghost use Rattle.line_reader.specs.Taking.{Takes, TakesTable};

use crate::cut::{next_line, take_line};
use crate::ranges::{are_signed_within, is_signed_within, is_within};
use crate::stop::Stop;
use colour_graph::GREATEST_GRAPH;
use element_table::Formula;
use line_fields::a_line_has_one_spelling;
use line_forms::RowFields;
use mgf_reader::Title;
use std::alloc::{AllocError, Global};
use tree_certificate::{GREATEST_COLOURS, GREATEST_NUMBER};
use tree_document::{Mark, Skip, TreeRow};

/// The greatest line of a text, and the greatest number of vertices that is told.
const GREATEST_LINE_NUMBER: u64 = 4_294_967_295;

/// The greatest m/z, in units of 10^-7, and the greatest intensity, in units of 10^-6.
const GREATEST_PEAK_NUMBER: u64 = 1_000_000_000_000_000_000;

/// The greatest number of formulas in a list, and of entries in a section.
const GREATEST_LISTED: u64 = 20_000;

/// The greatest number of lists of a section.
const GREATEST_LISTS: u64 = 41;

/// The greatest number of rows of a tree and of a table, of prices and of potentials, and the greatest number of a
/// row, of a list and of a colour.
pub const GREATEST_ROWS: u64 = GREATEST_GRAPH as u64;

/// The greatest number of numbers in a row of a table: one for each set of colours.
const GREATEST_NUMBERS: u64 = 1 << GREATEST_COLOURS;

/// The greatest number of an edge.
pub const GREATEST_EDGE: u64 = 131_071;

/// The greatest error, in units of 10^-7 Da.
const GREATEST_ERROR: u64 = 2_000_000;

/// The weight of an edge is at most so far from 0.
const GREATEST_WEIGHT: u64 = 100_000;

/// The line that begins a document.
pub fn document_head(bytes: &[u8]) -> Result<((), &[u8]), Stop<'_>>
    ensures { Takes need_document (λ x. spec.header_line) bytes.now result }
{
    take_line!(bytes, line => line_forms::header(line), () => ())
}

/// A line where a section or the ending is needed.
#[derive(Drop)]
pub enum SectionHead {
    /// The line of a spectrum and its title.
    Spectrum(u64, Title),
    /// The ending of a text of which no line is refused.
    Clean,
    /// The line that is refused, and the number of the refusal's kind.
    Refused(u64, u8),
}

/// The line that begins a section, or the ending.
pub fn section_head(alloc: Global, bytes: &[u8]) -> Result<(SectionHead, &[u8]), Stop<'_>>
    ensures taken { Takes need_sections section_head_line bytes.now result }
    ensures small { IfOk result (λ both. IsSmallSection both.0) }
{
    take_line!(bytes, line => section_line(alloc, line)?, head => head, if is_section(&head))
}

/// The line that begins a section, or the ending, its number of any size.
fn section_line(alloc: Global, line: &[u8]) -> Result<Option<SectionHead>, AllocError>
    ensures { IfOk result (λ read. option_map section_head_line read ≡ line_at need_sections line.now) }
{
    if let Some((number, title)) = line_forms::spectrum(alloc, line)? {
        return Ok(Some(SectionHead::Spectrum(number, title)));
    }
    Ok(ending_line(line))
}

/// The ending, its number of any size.
fn ending_line(line: &[u8]) -> Option<SectionHead>
    ensures { option_map section_head_line result ≡ first_line (clean_shape ∷ refused_shape ∷ []) line.now }
{
    if line_forms::clean(line).is_some() {
        return Some(SectionHead::Clean);
    }
    let (number, kind) = line_forms::refused(line)?;
    Some(SectionHead::Refused(number, kind))
}

/// Whether the number of a section's line, or of the ending, is in its range.
fn is_section(head: &SectionHead) -> bool
    ensures exactly { result ≡ spec.in_range (section_head_line head.now) }
    ensures small { IsTrue result → IsSmallSection head.now }
{
    match head {
        SectionHead::Spectrum(number, _) => is_within(*number, 0, GREATEST_LINE_NUMBER),
        SectionHead::Clean => true,
        SectionHead::Refused(number, _) => is_within(*number, 0, GREATEST_LINE_NUMBER),
    }
}

/// A line where the body of a section is needed.
#[derive(Drop)]
pub enum BodyHead {
    /// Why it was skipped.
    Skipped(Skip),
    /// The number of its lists.
    Lists(u64),
}

/// The line that begins the body of a section.
pub fn body_head(bytes: &[u8]) -> Result<(BodyHead, &[u8]), Stop<'_>>
    ensures { Takes need_body body_head_line bytes.now result }
{
    take_line!(bytes, line => body_line(line), head => head, if is_body(&head))
}

/// The line that begins the body of a section, its number of any size.
fn body_line(line: &[u8]) -> Option<BodyHead>
    ensures { option_map body_head_line result ≡ line_at need_body line.now }
{
    if let Some(count) = line_forms::lists(line) {
        return Some(BodyHead::Lists(count));
    }
    if line_forms::no_precursor(line).is_some() {
        return Some(BodyHead::Skipped(Skip::NoPrecursor));
    }
    if line_forms::charge(line).is_some() {
        return Some(BodyHead::Skipped(Skip::Charge));
    }
    if let Some(mz) = line_forms::range(line) {
        return Some(BodyHead::Skipped(Skip::Range(mz)));
    }
    if let Some(mz) = line_forms::too_many(line) {
        return Some(BodyHead::Skipped(Skip::TooMany(mz)));
    }
    None
}

/// Whether the number of a body's line is in its range.
fn is_body(head: &BodyHead) -> bool
    ensures { result ≡ spec.in_range (body_head_line head.now) }
{
    match head {
        BodyHead::Lists(count) => is_within(*count, 1, GREATEST_LISTS),
        BodyHead::Skipped(Skip::Range(mz)) => is_within(*mz, 0, GREATEST_PEAK_NUMBER),
        BodyHead::Skipped(Skip::TooMany(mz)) => is_within(*mz, 0, GREATEST_PEAK_NUMBER),
        BodyHead::Skipped(Skip::NoPrecursor) => true,
        BodyHead::Skipped(Skip::Charge) => true,
    }
}

/// The line of a list: its m/z, its intensity and the number of its formulas.
pub fn list_head(bytes: &[u8]) -> Result<((u64, u64, u64), &[u8]), Stop<'_>>
    ensures { Takes need_list (λ x. spec.list_line x.0 x.1 x.2) bytes.now result }
{
    take_line!(bytes, line => line_forms::list(line), (mz, intensity, count) => (mz, intensity, count),
        if is_list(mz, intensity, count))
}

/// Whether the numbers of a list's line are in their ranges.
fn is_list(mz: u64, intensity: u64, count: u64) -> bool
    ensures { result ≡ spec.in_range (spec.list_line mz intensity count) }
{
    is_within(mz, 0, GREATEST_PEAK_NUMBER)
        && is_within(intensity, 0, GREATEST_PEAK_NUMBER)
        && is_within(count, 0, GREATEST_LISTED)
}

/// The line of a formula.
pub fn formula_line(bytes: &[u8]) -> Result<(Formula, &[u8]), Stop<'_>>
    ensures { Takes need_formula (λ counts. spec.formula_line counts) bytes.now result }
{
    take_line!(bytes, line => line_forms::formula(line), formula => formula)
}

/// The line that tells how many entries follow.
pub fn entries_head(bytes: &[u8]) -> Result<(u64, &[u8]), Stop<'_>>
    ensures { Takes need_entries (λ count. spec.entries_line count) bytes.now result }
{
    take_line!(bytes, line => line_forms::entries(line), count => count, if is_entries(count))
}

/// Whether a number of entries is in its range.
fn is_entries(count: u64) -> bool
    ensures { result ≡ spec.in_range (spec.entries_line count) }
{
    is_within(count, 0, GREATEST_LISTED)
}

/// A line where an entry is needed.
#[derive(Drop)]
pub enum EntryHead {
    /// The candidate, its error, and how many vertices its graph has.
    TooLarge(Formula, u64, u64),
    /// The candidate, its error, the score, the upper bound, the mark, and how many rows the tree has.
    Tree(Formula, u64, i64, i64, Mark, u64),
}

/// The line that begins an entry.
pub fn entry_head(bytes: &[u8]) -> Result<(EntryHead, &[u8]), Stop<'_>>
    ensures taken { Takes need_entry entry_head_line bytes.now result }
    ensures small { IfOk result (λ both. IsSmallHead both.0) }
{
    take_line!(bytes, line => entry_line(line), head => head, if is_entry(&head))
}

/// The line that begins an entry, its numbers of any size.
fn entry_line(line: &[u8]) -> Option<EntryHead>
    ensures { option_map entry_head_line result ≡ line_at need_entry line.now }
{
    if let Some((candidate, error, score, upper, mark, count)) = line_forms::tree(line) {
        return Some(EntryHead::Tree(candidate, error, score, upper, mark, count));
    }
    if let Some((candidate, error, vertices)) = line_forms::too_large(line) {
        return Some(EntryHead::TooLarge(candidate, error, vertices));
    }
    None
}

/// Whether the numbers of an entry's line are in their ranges.
fn is_entry(head: &EntryHead) -> bool
    ensures exactly { result ≡ spec.in_range (entry_head_line head.now) }
    ensures small { IsTrue result → IsSmallHead head.now }
{
    match head {
        EntryHead::TooLarge(_, error, vertices) => {
            is_within(*error, 0, GREATEST_ERROR) && is_within(*vertices, 0, GREATEST_LINE_NUMBER)
        }
        EntryHead::Tree(_, error, score, upper, _, count) => {
            is_within(*error, 0, GREATEST_ERROR)
                && is_signed_within(*score, GREATEST_NUMBER)
                && is_signed_within(*upper, GREATEST_NUMBER)
                && is_within(*count, 0, GREATEST_ROWS)
        }
    }
}

/// The line of a row of a tree.
pub fn row_line(bytes: &[u8]) -> Result<(TreeRow, &[u8]), Stop<'_>>
    ensures { Takes need_row (λ it. spec.row_line it) bytes.now result }
{
    take_line!(bytes, line => line_forms::row(line), fields => tree_row(&fields), if is_row(&fields))
}

/// The row of a line whose numbers are in their ranges.
fn tree_row(fields: &RowFields) -> TreeRow
    requires { IsSmallRow fields.now }
    ensures { spec.row_line result ≡ row_fields_line fields.now }
{
    TreeRow {
        edge: fields.edge as u32,
        parent: fields.parent as u16,
        peak: fields.peak as u16,
        formula: fields.formula,
        loss: fields.loss,
        weight: weight_of(fields.weight),
    }
}

/// A weight in its range.
fn weight_of(weight: i64) -> i32
    requires { unsigned_abs weight ≤ spec.greatest_weight }
    ensures { result ≡ weight }
{
    weight as i32
}

/// Whether the numbers of a row's line are in their ranges.
fn is_row(fields: &RowFields) -> bool
    ensures exactly { result ≡ spec.in_range (row_fields_line fields.now) }
    ensures small { IsTrue result → IsSmallRow fields.now }
{
    is_within(fields.edge, 0, GREATEST_EDGE)
        && is_within(fields.parent, 0, GREATEST_ROWS)
        && is_within(fields.peak, 0, GREATEST_ROWS)
        && is_signed_within(fields.weight, GREATEST_WEIGHT)
}

/// The line of a table where a certificate is needed: the number of its rows. There is none where another line stands,
/// which is a bound's then.
pub fn table_head(bytes: &[u8]) -> Result<Option<(u64, &[u8])>, Stop<'_>>
    ensures { TakesTable bytes.now result }
{
    a_line_has_one_spelling();
    let Some((line, rest)) = next_line(bytes) else {
        return Err(Stop::End);
    };
    let Some(count) = line_forms::table(line) else {
        return Ok(None);
    };
    if !is_table(count) {
        return Err(Stop::Big(bytes));
    }
    Ok(Some((count, rest)))
}

/// Whether a number of rows is in its range.
fn is_table(count: u64) -> bool
    ensures { result ≡ spec.in_range (spec.table_line count) }
{
    is_within(count, 0, GREATEST_ROWS)
}

/// The line of a row of a table.
pub fn table_row_line(alloc: Global, bytes: &[u8]) -> Result<(Vec<i64>, &[u8]), Stop<'_>>
    ensures taken { Takes need_table_row (λ row. spec.table_row_line row.items) bytes.now result }
    ensures numbers { IfOk result (λ both. IsTrue (list_all (is_near greatest_number) both.0.items)) }
{
    take_line!(bytes, line => line_forms::table_row(alloc, line)?, row => row, if is_table_row(&row))
}

/// Whether the numbers of a row of a table are in their ranges.
fn is_table_row(row: &[i64]) -> bool
    ensures exactly { result ≡ spec.in_range (spec.table_row_line row.now) }
    ensures numbers { IsTrue result → IsTrue (list_all (is_near greatest_number) row.now) }
{
    row.len() as u64 <= GREATEST_NUMBERS && are_signed_within(row, GREATEST_NUMBER)
}

/// The line that ends a section.
pub fn done_line(bytes: &[u8]) -> Result<((), &[u8]), Stop<'_>>
    ensures { Takes need_done (λ x. spec.done_line) bytes.now result }
{
    take_line!(bytes, line => line_forms::done(line), () => ())
}
