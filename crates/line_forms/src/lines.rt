//! The lines of a document, one function a form: from its bytes to what it holds. Their numbers are not yet compared
//! with their ranges.
ghost use Rattle.std.specs.Prelude.{◌≡◌, [], ◌∷◌, ℕ, IfOk, codes};
ghost use Rattle.std.specs.Option.{option_map};
ghost use Rattle.tree_document.specs.Line.{clean_line, done_line, entries_line, formula_line, header_line, list_line};
ghost use Rattle.tree_document.specs.Line.{lists_line, potentials_line, prices_line, refused_line, spectrum_line};
ghost use Rattle.tree_document.specs.Line.{split_line, table_line, table_row_line, too_large_line, tree_line};
ghost use Rattle.tree_document.specs.Line as spec;
ghost use Rattle.line_forms.specs.Row.{row_fields_line};
ghost use Rattle.line_fields.specs.Need.{clean_shape, done_shape, entries_shape, formula_shape, header_shape};
ghost use Rattle.line_fields.specs.Need.{line_with, list_shape, lists_shape, no_precursor_shape};
ghost use Rattle.line_fields.specs.Need.{potentials_shape, prices_shape, split_shape, charge_shape};
ghost use Rattle.line_fields.specs.Need.{range_shape, too_many_shape, refused_shape, row_shape, table_shape};
ghost use Rattle.line_fields.specs.Need.{too_large_shape, tree_shape, spectrum_shape, table_row_shape};
ghost use Rattle.line_fields.specs.Field.{form_at, mark_kind, no_tail, number_kind, signed_kind, tail_at};
ghost use Rattle.line_fields.specs.Field.{values_at, word_kind};
ghost use Rattle.tree_document.specs.declared.document.Skip.TheVariants.{NoPrecursor, Charge, Range, TooMany};

use element_table::Formula;
use line_fields::{
    behind_word, formula_at, kind_at, mark_at, naturals_at, number_at, numbers_at, signed_at,
    title_at, word_at,
};
use mgf_reader::Title;
use std::alloc::{AllocError, Global};
use tree_document::Mark;

/// `fragdoc 1`
pub fn header(line: &[u8]) -> Option<()>
    ensures { option_map (λ x. header_line) result ≡ line_with header_shape line.now }
{
    two_words(b"fragdoc", b"1", line)
}

/// `end clean`
pub fn clean(line: &[u8]) -> Option<()>
    ensures { option_map (λ x. clean_line) result ≡ line_with clean_shape line.now }
{
    two_words(b"end", b"clean", line)
}

/// `end refused LINE KIND`
pub fn refused(line: &[u8]) -> Option<(u64, u8)>
    ensures { option_map (λ x. refused_line x.0 x.1) result ≡ line_with refused_shape line.now }
{
    let rest = behind_word(b"end", line)?;
    let rest = word_at(b"refused", rest)?;
    let (number, rest) = number_at(rest)?;
    let (kind, rest) = kind_at(rest)?;
    ended(rest)?;
    Some((number, kind))
}

/// `spectrum LINE TITLE`
pub fn spectrum(alloc: Global, line: &[u8]) -> Result<Option<(u64, Title)>, AllocError>
    ensures { IfOk result (λ read. option_map (λ x. spectrum_line x.0 x.1) read ≡ line_with spectrum_shape line.now) }
{
    let Some(rest) = behind_word(b"spectrum", line) else {
        return Ok(None);
    };
    let Some((number, rest)) = number_at(rest) else {
        return Ok(None);
    };
    match title_at(alloc, rest)? {
        Some(title) => Ok(Some((number, Title::of(title)))),
        None => Ok(None),
    }
}

/// `t NUMBERS`
pub fn table_row(alloc: Global, line: &[u8]) -> Result<Option<Vec<i64>>, AllocError>
    ensures { IfOk result (λ read. option_map (λ row. table_row_line row.items) read
        ≡ line_with table_row_shape line.now) }
{
    let Some(rest) = behind_word(b"t", line) else {
        return Ok(None);
    };
    numbers_at(alloc, rest)
}

/// `split COLOUR EDGES`, under however many splits.
pub fn split(alloc: Global, line: &[u8]) -> Result<Option<(u64, Vec<u64>)>, AllocError>
    ensures { (above : ℕ) → IfOk result (λ read. option_map (λ x. split_line above x.0 x.1.items) read
        ≡ line_with (split_shape above) line.now) }
{
    let Some(rest) = behind_word(b"split", line) else {
        return Ok(None);
    };
    let Some((colour, rest)) = number_at(rest) else {
        return Ok(None);
    };
    match naturals_at(alloc, rest)? {
        Some(edges) => Ok(Some((colour, edges))),
        None => Ok(None),
    }
}

/// `prices NUMBERS`, of which there may be none.
pub fn prices(alloc: Global, line: &[u8]) -> Result<Option<Vec<i64>>, AllocError>
    ensures { IfOk result (λ read. option_map (λ prices. prices_line prices.items) read
        ≡ line_with prices_shape line.now) }
{
    let Some(rest) = behind_word(b"prices", line) else {
        return Ok(None);
    };
    if rest.is_empty() {
        return Ok(Some(Vec::new(alloc)));
    }
    numbers_at(alloc, rest)
}

/// `potentials NUMBERS`
pub fn potentials(alloc: Global, line: &[u8]) -> Result<Option<Vec<i64>>, AllocError>
    ensures { IfOk result (λ read. option_map (λ potentials. potentials_line potentials.items) read
        ≡ line_with potentials_shape line.now) }
{
    let Some(rest) = behind_word(b"potentials", line) else {
        return Ok(None);
    };
    numbers_at(alloc, rest)
}

/// `skip no-precursor`
pub fn no_precursor(line: &[u8]) -> Option<()>
    ensures { option_map (λ x. spec.skip_line NoPrecursor) result ≡ line_with no_precursor_shape line.now }
{
    two_words(b"skip", b"no-precursor", line)
}

/// `skip charge`
pub fn charge(line: &[u8]) -> Option<()>
    ensures { option_map (λ x. spec.skip_line Charge) result ≡ line_with charge_shape line.now }
{
    two_words(b"skip", b"charge", line)
}

/// `skip range MZ`
pub fn range(line: &[u8]) -> Option<u64>
    ensures { option_map (λ mz. spec.skip_line (Range mz)) result ≡ line_with range_shape line.now }
{
    skipped(b"range", line)
}

/// `skip too-many MZ`
pub fn too_many(line: &[u8]) -> Option<u64>
    ensures { option_map (λ mz. spec.skip_line (TooMany mz)) result ≡ line_with too_many_shape line.now }
{
    skipped(b"too-many", line)
}

/// `lists N`
pub fn lists(line: &[u8]) -> Option<u64>
    ensures { option_map (λ count. lists_line count) result ≡ line_with lists_shape line.now }
{
    counted(b"lists", line)
}

/// `entries N`
pub fn entries(line: &[u8]) -> Option<u64>
    ensures { option_map (λ count. entries_line count) result ≡ line_with entries_shape line.now }
{
    counted(b"entries", line)
}

/// `table N`
pub fn table(line: &[u8]) -> Option<u64>
    ensures { option_map (λ count. table_line count) result ≡ line_with table_shape line.now }
{
    counted(b"table", line)
}

/// `list MZ INTENSITY N`
pub fn list(line: &[u8]) -> Option<(u64, u64, u64)>
    ensures { option_map (λ x. list_line x.0 x.1 x.2) result ≡ line_with list_shape line.now }
{
    let rest = behind_word(b"list", line)?;
    let (mz, rest) = number_at(rest)?;
    let (intensity, rest) = number_at(rest)?;
    let (count, rest) = number_at(rest)?;
    ended(rest)?;
    Some((mz, intensity, count))
}

/// `f FORMULA`
pub fn formula(line: &[u8]) -> Option<Formula>
    ensures { option_map (λ counts. formula_line counts) result ≡ line_with formula_shape line.now }
{
    let rest = behind_word(b"f", line)?;
    let Some((formula, rest)) = formula_at(rest) else {
        return None;
    };
    ended(rest)?;
    Some(formula)
}

/// `entry CANDIDATE ERROR too-large N`
pub fn too_large(line: &[u8]) -> Option<(Formula, u64, u64)>
    ensures { option_map (λ x. too_large_line x.0 x.1 x.2) result ≡ line_with too_large_shape line.now }
{
    let rest = behind_word(b"entry", line)?;
    let Some((candidate, rest)) = formula_at(rest) else {
        return None;
    };
    let (error, rest) = number_at(rest)?;
    let rest = word_at(b"too-large", rest)?;
    let (vertices, rest) = number_at(rest)?;
    ended(rest)?;
    Some((candidate, error, vertices))
}

/// `entry CANDIDATE ERROR SCORE UPPER MARK N`
pub fn tree(line: &[u8]) -> Option<(Formula, u64, i64, i64, Mark, u64)>
    ensures { option_map (λ x. tree_line x.0 x.1 x.2 x.3 x.4 x.5) result ≡ line_with tree_shape line.now }
{
    let rest = behind_word(b"entry", line)?;
    let Some((candidate, rest)) = formula_at(rest) else {
        return None;
    };
    let (error, rest) = number_at(rest)?;
    let (score, upper, mark, count) = scores(rest)?;
    Some((candidate, error, score, upper, mark, count))
}

/// The score of a tree, its upper bound, its mark and the number of its rows.
fn scores(rest: &[u8]) -> Option<(i64, i64, Mark, u64)>
    ensures { option_map (λ x. (x.0, (x.1, (x.2, (x.3, tt))))) result
        ≡ values_at (signed_kind 0 ∷ signed_kind 0 ∷ mark_kind ∷ number_kind 0 0 ∷ []) no_tail rest.now }
{
    let (score, rest) = signed_at(rest)?;
    let (upper, rest) = signed_at(rest)?;
    let (mark, rest) = mark_at(rest)?;
    let (count, rest) = number_at(rest)?;
    ended(rest)?;
    Some((score, upper, mark, count))
}

/// What the line of a row holds, its numbers of any size.
#[derive(Drop)]
pub struct RowFields {
    pub edge: u64,
    pub parent: u64,
    pub peak: u64,
    pub formula: Formula,
    pub loss: Formula,
    pub weight: i64,
}

/// `r EDGE PARENT PEAK FORMULA LOSS WEIGHT`
pub fn row(line: &[u8]) -> Option<RowFields>
    ensures { option_map row_fields_line result ≡ line_with row_shape line.now }
{
    let rest = behind_word(b"r", line)?;
    let (edge, rest) = number_at(rest)?;
    let (parent, rest) = number_at(rest)?;
    let (peak, rest) = number_at(rest)?;
    let Some((formula, rest)) = formula_at(rest) else {
        return None;
    };
    let Some((loss, rest)) = formula_at(rest) else {
        return None;
    };
    let (weight, rest) = signed_at(rest)?;
    ended(rest)?;
    Some(RowFields {
        edge,
        parent,
        peak,
        formula,
        loss,
        weight,
    })
}

/// `done`
pub fn done(line: &[u8]) -> Option<()>
    ensures { option_map (λ x. done_line) result ≡ line_with done_shape line.now }
{
    ended(behind_word(b"done", line)?)
}

/// Two words.
fn two_words(first: &[u8], second: &[u8], line: &[u8]) -> Option<()>
    ensures { option_map (λ x. (tt, tt)) result ≡ form_at first.now (word_kind second.now ∷ []) no_tail line.now }
{
    let rest = behind_word(first, line)?;
    ended(word_at(second, rest)?)
}

/// The m/z for which a spectrum is skipped, behind the word of the reason.
fn skipped(reason: &[u8], line: &[u8]) -> Option<u64>
    ensures { option_map (λ mz. (tt, (mz, tt))) result
        ≡ form_at (codes "skip") (word_kind reason.now ∷ number_kind 0 0 ∷ []) no_tail line.now }
{
    let rest = behind_word(b"skip", line)?;
    let rest = word_at(reason, rest)?;
    let (mz, rest) = number_at(rest)?;
    ended(rest)?;
    Some(mz)
}

/// A word and a number.
fn counted(word: &[u8], line: &[u8]) -> Option<u64>
    ensures { option_map (λ n. (n, tt)) result ≡ form_at word.now (number_kind 0 0 ∷ []) no_tail line.now }
{
    let rest = behind_word(word, line)?;
    let (number, rest) = number_at(rest)?;
    ended(rest)?;
    Some(number)
}

/// That nothing is left.
fn ended(rest: &[u8]) -> Option<()>
    ensures { option_map (λ x. tt) result ≡ tail_at no_tail rest.now }
{
    if rest.is_empty() { Some(()) } else { None }
}
