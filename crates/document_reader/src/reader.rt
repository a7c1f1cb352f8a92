//! A document read from its lines.
ghost use Rattle.std.specs.Prelude.{◌≡◌, ◌<◌, ◌^◌, ◌++◌, [], ◌∷◌, IfOk, IsTrue, length, map, replicate};
ghost use Rattle.std.specs.List.{All, flat_map, list_all};
ghost use Rattle.tree_document.specs.Line as spec;
ghost use Rattle.tree_certificate.specs.BoundView.{bound_value};
ghost use Rattle.tree_document.specs.Document.{body_lines, bound_lines, cert_lines, ending_line, entry_lines, lines_of};
ghost use Rattle.tree_document.specs.Document.{list_lines, section_lines};
ghost use Rattle.line_fields.specs.Need.{need_body, need_bound, need_cert, need_document, need_done};
ghost use Rattle.line_fields.specs.Need.{need_entries, need_entry, need_formula, need_list, need_potentials};
ghost use Rattle.line_fields.specs.Need.{need_row, need_sections, need_table_row};
ghost use Rattle.tree_document.specs.Line.{done_line, entries_line};
ghost use Rattle.tree_certificate.specs.Number.{AreNear, greatest_number, is_near};
ghost use Rattle.tree_certificate.specs.Value.{cert_of};
ghost use Rattle.line_reader.specs.Taking.{TakesAll};

use element_table::{Formula, FormulaList, Formulas};
use line_reader::{
    BodyHead, BoundHead, EntryHead, SectionHead, Stop, body_head, bound_head, document_head,
    done_line, entries_head, entry_head, formula_line, list_head, potentials_line, row_line,
    section_head, table_head, table_row_line,
};
use mgf_reader::Title;
use sqlite_items::{Boxed, Items};
use std::alloc::{AllocError, Global};
use tree_certificate::{Bound, Cert, PriceCert, TableCert};
use tree_document::{
    Body, Document, Ending, Entries, Entry, FormulaLists, Mark, MgfEnd, Outcome, Section, Sections,
    Solved, Tree, TreeRow, TreeRows,
};

/// The value of a part and the rest, or the part's stop.
macro_rules! part {
    ($read:expr) => {
        match $read {
            Ok(both) => both,
            Err(stop) => return Err(stop),
        }
    };
}

/// So many parts, one behind the other, each read from the bytes that the part before it leaves.
macro_rules! read_counted {
    ($alloc:ident, $count:ident, $bytes:ident, $rest:ident => $read:expr) => {{
        let mut items = Vec::new($alloc);
        let mut $rest = $bytes;
        let mut left = $count;
        while left > 0 {
            let (item, later) = part!($read);
            items.push(item)?;
            $rest = later;
            left -= 1;
        }
        Ok((items, $rest))
    }};
}

/// So many lines of formulas.
fn read_formulas(alloc: Global, count: u64, bytes: &[u8]) -> Result<(Vec<Formula>, &[u8]), Stop<'_>>
    ensures taken { TakesAll (replicate count need_formula)
        (λ items. map (λ counts. spec.formula_line counts) items.items) bytes.now result }
    ensures count { IfOk result (λ both. length both.0.items ≡ count) }
{
    read_counted!(alloc, count, bytes, rest => formula_line(rest))
}

/// So many rows of a tree.
fn read_rows(alloc: Global, count: u64, bytes: &[u8]) -> Result<(Vec<TreeRow>, &[u8]), Stop<'_>>
    ensures taken { TakesAll (replicate count need_row) (λ items. map (λ it. spec.row_line it) items.items)
        bytes.now result }
    ensures count { IfOk result (λ both. length both.0.items ≡ count) }
{
    read_counted!(alloc, count, bytes, rest => row_line(rest))
}

/// A list of formulas.
fn read_list(alloc: Global, bytes: &[u8]) -> Result<(FormulaList, &[u8]), Stop<'_>>
    ensures { TakesAll (need_list ∷ []) (λ list. list_lines list) bytes.now result }
{
    let ((mz, intensity, count), rest) = part!(list_head(bytes));
    let (formulas, rest) = part!(read_formulas(alloc, count, rest));
    let formulas = Formulas::of(formulas);
    Ok((
        FormulaList {
            mz,
            intensity,
            formulas,
        },
        rest,
    ))
}

/// So many lists.
fn read_lists(
    alloc: Global,
    count: u64,
    bytes: &[u8],
) -> Result<(Vec<FormulaList>, &[u8]), Stop<'_>>
    ensures taken { TakesAll (replicate count need_list) (λ items. flat_map (λ list. list_lines list) items.items)
        bytes.now result }
    ensures count { IfOk result (λ both. length both.0.items ≡ count) }
{
    read_counted!(alloc, count, bytes, rest => read_list(alloc, rest))
}

/// So many rows of a table.
fn read_table_rows(
    alloc: Global,
    count: u64,
    bytes: &[u8],
) -> Result<(Vec<Vec<i64>>, &[u8]), Stop<'_>>
    ensures taken { TakesAll (replicate count need_table_row)
        (λ items. map (λ row. spec.table_row_line row.items) items.items) bytes.now result }
    ensures numbers { IfOk result
        (λ both. IsTrue (list_all (λ row. list_all (is_near greatest_number) row.items) both.0.items)) }
    ensures count { IfOk result (λ both. length both.0.items ≡ count) }
{
    read_counted!(alloc, count, bytes, rest => table_row_line(alloc, rest))
}

/// A certificate.
fn read_cert(alloc: Global, bytes: &[u8]) -> Result<(Cert, &[u8]), Stop<'_>>
    ensures { TakesAll (need_cert ∷ []) (λ cert. cert_lines (cert_of cert)) bytes.now result }
{
    let Some((count, rest)) = part!(table_head(bytes)) else {
        let (bound, rest) = part!(read_bound(alloc, 0, bytes));
        return Ok((Cert::Bounds(bound), rest));
    };
    let (rows, rest) = part!(read_table_rows(alloc, count, rest));
    Ok((Cert::Table(TableCert::of_rows(rows)), rest))
}

/// A bound under so many splits.
fn read_bound(alloc: Global, under: u32, bytes: &[u8]) -> Result<(Bound, &[u8]), Stop<'_>>
    ensures { TakesAll (need_bound under ∷ []) (λ bound. bound_lines under (bound_value bound)) bytes.now result }
{
    let (head, rest) = part!(bound_head(alloc, under, bytes));
    match head {
        BoundHead::Prices(prices) => {
            let (cert, rest) = part!(read_potentials(alloc, prices, rest));
            Ok((Bound::Priced(cert), rest))
        }
        BoundHead::Split(colour, edges) => {
            let edges = edges_of(alloc, edges)?;
            let (first, rest) = part!(read_bound(alloc, under + 1, rest));
            let (second, rest) = part!(read_bound(alloc, under + 1, rest));
            let first = Boxed::new(alloc, first)?;
            let second = Boxed::new(alloc, second)?;
            Ok((Bound::Split(colour as u16, edges, first, second), rest))
        }
    }
}

/// The potentials behind prices, with these.
fn read_potentials(
    alloc: Global,
    prices: Vec<i64>,
    bytes: &[u8],
) -> Result<(PriceCert, &[u8]), Stop<'_>>
    requires { AreNear prices.items }
    ensures taken { TakesAll (need_potentials ∷ []) (λ cert. spec.potentials_line cert.potentials ∷ [])
        bytes.now result }
    ensures prices { IfOk result (λ both. both.0.prices ≡ prices.items) }
{
    let (potentials, rest) = part!(potentials_line(alloc, bytes));
    Ok((PriceCert::of_numbers(prices, potentials), rest))
}

/// Edges as a split keeps them.
fn edges_of(alloc: Global, edges: Vec<u64>) -> Result<Items<u32>, AllocError>
    requires { All (λ edge. edge < 2 ^ 32) edges.items }
    ensures { IfOk result (λ kept. kept ≡ edges.items) }
{
    let mut kept = Vec::new(alloc);
    for edge in &edges {
        kept.push(*edge as u32)?;
    }
    Ok(Items::from_vec(kept))
}

/// An entry.
fn read_entry(alloc: Global, bytes: &[u8]) -> Result<(Entry, &[u8]), Stop<'_>>
    ensures { TakesAll (need_entry ∷ []) (λ entry. entry_lines entry) bytes.now result }
{
    let (head, rest) = part!(entry_head(bytes));
    match head {
        EntryHead::TooLarge(candidate, error, vertices) => {
            let outcome = Outcome::TooLarge(vertices as u32);
            Ok((
                Entry {
                    candidate,
                    error,
                    outcome,
                },
                rest,
            ))
        }
        EntryHead::Tree(candidate, error, score, upper, mark, count) => {
            let (rows, rest) = part!(read_rows(alloc, count, rest));
            let (cert, rest) = part!(read_cert(alloc, rest));
            let outcome = Outcome::Tree(tree_of(score, upper, mark, rows, cert));
            Ok((
                Entry {
                    candidate,
                    error,
                    outcome,
                },
                rest,
            ))
        }
    }
}

/// The tree of these parts.
fn tree_of(score: i64, upper: i64, mark: Mark, rows: Vec<TreeRow>, cert: Cert) -> Tree
    ensures { result ≡ record { score = score; upper = upper; mark = mark; rows = rows.items; cert = cert_of cert } }
{
    Tree {
        score,
        upper,
        mark,
        rows: TreeRows::of(rows),
        cert,
    }
}

/// So many entries.
fn read_entries(alloc: Global, count: u64, bytes: &[u8]) -> Result<(Vec<Entry>, &[u8]), Stop<'_>>
    ensures taken { TakesAll (replicate count need_entry) (λ items. flat_map (λ entry. entry_lines entry) items.items)
        bytes.now result }
    ensures count { IfOk result (λ both. length both.0.items ≡ count) }
{
    read_counted!(alloc, count, bytes, rest => read_entry(alloc, rest))
}

/// The body of a section.
fn read_body(alloc: Global, bytes: &[u8]) -> Result<(Body, &[u8]), Stop<'_>>
    ensures { TakesAll (need_body ∷ []) (λ body. body_lines body) bytes.now result }
{
    let (head, rest) = part!(body_head(bytes));
    match head {
        BodyHead::Skipped(reason) => Ok((Body::Skipped(reason), rest)),
        BodyHead::Lists(count) => {
            let (lists, rest) = part!(read_lists(alloc, count, rest));
            let (solved, rest) = part!(read_solved(alloc, lists, rest));
            Ok((Body::Solved(solved), rest))
        }
    }
}

/// The entries of a section, beside its lists.
fn read_solved(
    alloc: Global,
    lists: Vec<FormulaList>,
    bytes: &[u8],
) -> Result<(Solved, &[u8]), Stop<'_>>
    ensures taken { TakesAll (need_entries ∷ [])
        (λ solved. entries_line (length solved.entries) ∷ flat_map entry_lines solved.entries) bytes.now result }
    ensures lists { IfOk result (λ both. both.0.lists ≡ lists.items) }
{
    let (count, rest) = part!(entries_head(bytes));
    let (entries, rest) = part!(read_entries(alloc, count, rest));
    let lists = FormulaLists::of(lists);
    let entries = Entries::of(entries);
    Ok((Solved { lists, entries }, rest))
}

/// The body of a section and the line that ends it, behind the line of its spectrum.
fn read_section(
    alloc: Global,
    line: u32,
    title: Title,
    bytes: &[u8],
) -> Result<(Section, &[u8]), Stop<'_>>
    ensures taken { TakesAll (need_body ∷ need_done ∷ []) (λ section. body_lines section.body ++ done_line ∷ [])
        bytes.now result }
    ensures line { IfOk result (λ both. both.0.line ≡ line) }
    ensures title { IfOk result (λ both. both.0.title ≡ title) }
{
    let (body, rest) = part!(read_body(alloc, bytes));
    let (_, rest) = part!(done_line(rest));
    Ok((Section { line, title, body }, rest))
}

/// The sections of a document and its ending.
fn read_sections(alloc: Global, bytes: &[u8]) -> Result<(Document, &[u8]), Stop<'_>>
    ensures { TakesAll (need_sections ∷ [])
        (λ document. flat_map section_lines document.sections ++ ending_line document.ending ∷ []) bytes.now result }
{
    let mut sections = Vec::new(alloc);
    let mut rest = bytes;
    'sections: loop {
        let (head, later) = part!(section_head(alloc, rest));
        match head {
            SectionHead::Spectrum(line, title) => {
                let (section, after) = part!(read_section(alloc, line as u32, title, later));
                sections.push(section)?;
                rest = after;
            }
            SectionHead::Clean => return Ok((document_of(sections, Ending::Clean), later)),
            SectionHead::Refused(line, kind) => {
                let line = line as u32;
                let ending = Ending::Refused(MgfEnd { line, kind });
                return Ok((document_of(sections, ending), later));
            }
        }
    }
}

/// The document of these sections and this ending.
fn document_of(sections: Vec<Section>, ending: Ending) -> Document
    ensures sections { result.sections ≡ sections.items }
    ensures ending { result.ending ≡ ending }
{
    Document {
        sections: Sections::of(sections),
        ending,
    }
}

/// A document, and the bytes behind its end line.
pub fn read_all(alloc: Global, bytes: &[u8]) -> Result<(Document, &[u8]), Stop<'_>>
    ensures { TakesAll (need_document ∷ []) (λ document. lines_of document) bytes.now result }
{
    let (_, rest) = part!(document_head(bytes));
    let (document, rest) = part!(read_sections(alloc, rest));
    Ok((document, rest))
}
