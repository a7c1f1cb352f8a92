//! A formula read from its text.
ghost use Rattle.std.specs.Prelude.{◌≡◌, ◌≤◌, ◌<◌, ◌+◌, ◌&&◌, [], ◌∷◌, ℕ, None, Some, drop, if◌then◌else◌, length, min};
ghost use Rattle.std.specs.Prelude.{nat_le, nat_lt, slice_index, slice_index_or};
ghost use Rattle.std.specs.Char.{is_ascii_uppercase};
ghost use Rattle.std.specs.List.{before_first, list_all, position, position_or_len};
ghost use Rattle.element_table.specs.Elements.{element_count, greatest_count, symbols};
ghost use Rattle.element_table.specs.FormulaReading.{count_of_digits, digits_of, formula_of, is_count, is_known};
ghost use Rattle.element_table.specs.FormulaReading.{share_of};
ghost use Rattle.element_table.specs.FormulaReading.{symbol_of};

use crate::elements::{ELEMENTS, FORMULA_PLACES, GREATEST_COUNT, symbol_at};
use crate::formula::Formula;

/// Why a text is no formula.
#[derive(Clone, Copy, Debug, PartialEq, Eq)]
pub enum FormulaFault {
    /// It has another form.
    NoFormula,
    /// A symbol stands in it that the element table does not have.
    UnknownElement,
    /// The counts of one element are more than 1,999 in all.
    CountTooLarge,
}

/// A number of atoms that no formula may have: every greater one is taken for it.
const TOO_MANY: u16 = GREATEST_COUNT + 1;

/// Reads a formula: `-` for the empty one, or symbols of elements, each with an optional count. A symbol is a capital
/// letter with at most one small letter after it, a count is digits of which the first is no zero. The counts of an
/// element add up. The first that applies is refused: another form, an unknown symbol, more than 1,999 atoms of an
/// element.
pub fn read_formula(text: &[u8]) -> Result<Formula, FormulaFault>
    ensures { result ≡ formula_of text.now }
{
    if text == b"-".as_slice() {
        return Ok(Formula::empty());
    }
    if !begins_piece(text) {
        return Err(FormulaFault::NoFormula);
    }
    let mut totals = [0; FORMULA_PLACES];
    let mut all_known = true;
    let mut rest = text;
    while !rest.is_empty() {
        let (piece, later) = split_piece(rest);
        let (symbol, digits) = split_symbol(piece);
        let Some(count) = read_count(digits) else {
            return Err(FormulaFault::NoFormula);
        };
        all_known &= add(&mut totals, symbol, count);
        rest = later;
    }
    if !all_known {
        return Err(FormulaFault::UnknownElement);
    }
    if !all_fit(&totals) {
        return Err(FormulaFault::CountTooLarge);
    }
    Ok(Formula::of_counts(totals))
}

/// Whether a text begins with a capital letter.
fn begins_piece(text: &[u8]) -> bool
    ensures { result ≡ (nat_lt 0 (length text.now) && is_ascii_uppercase (slice_index text.now 0)) }
{
    text.first().is_some_and(|byte| byte.is_ascii_uppercase())
}

/// The capital letter at the front with all that stands before the next one, and the rest.
fn split_piece(text: &[u8]) -> (&[u8], &[u8])
    requires { 0 < length text.now }
    ensures piece { result.0.now ≡ slice_index text.now 0 ∷ before_first is_ascii_uppercase (drop 1 text.now) }
    ensures rest { result.1.now ≡ drop (length result.0.now) text.now }
{
    text.split_at(1 + count_to_capital(&text[1..]))
}

/// How many bytes stand before the first capital letter, or all where there is none.
fn count_to_capital(bytes: &[u8]) -> usize
    ensures count { result ≡ position_or_len is_ascii_uppercase bytes.now }
    ensures within { result ≤ length bytes.now }
{
    first_capital(bytes).unwrap_or(bytes.len())
}

/// Where the first capital letter stands.
fn first_capital(bytes: &[u8]) -> Option<usize>
    ensures { result ≡ position is_ascii_uppercase bytes.now }
{
    bytes.iter().position(|byte| byte.is_ascii_uppercase())
}

/// The symbol and the digits of a piece.
fn split_symbol(piece: &[u8]) -> (&[u8], &[u8])
    requires { 0 < length piece.now }
    ensures symbol { result.0.now ≡ symbol_of piece.now }
    ensures digits { result.1.now ≡ digits_of piece.now }
{
    let has_small = piece.get(1).is_some_and(|byte| byte.is_ascii_lowercase());
    piece.split_at(if has_small { 2 } else { 1 })
}

/// The number that digits write, one where there is none, and what is too many where it is more than that.
fn read_count(digits: &[u8]) -> Option<u16>
    ensures { result ≡ (if is_count digits.now then Some (min TOO_MANY (count_of_digits digits.now)) else None) }
{
    if digits.is_empty() {
        return Some(1);
    }
    let first = digits[0];
    if first == b'0' {
        return None;
    }
    let mut count = 0;
    for digit in digits {
        if !digit.is_ascii_digit() {
            return None;
        }
        count = (count * 10 + u16::from(*digit - b'0')).min(TOO_MANY);
    }
    Some(count)
}

/// Adds so many atoms of a symbol to the totals, none of which becomes more than too many. Whether the symbol is known.
fn add(totals: &mut [u16; FORMULA_PLACES], symbol: &[u8], count: u16) -> bool
    requires count { count ≤ TOO_MANY }
    requires totals { (place : ℕ) → slice_index totals.old place ≤ TOO_MANY }
    ensures known { result ≡ is_known symbol.now }
    ensures added { (place : ℕ) → place < element_count → slice_index totals.new place
        ≡ min TOO_MANY (slice_index totals.old place + share_of (slice_index_or symbols place []) symbol.now count) }
    ensures others { (place : ℕ) → element_count ≤ place → slice_index totals.new place ≡ slice_index totals.old place }
{
    let mut known = false;
    for place in 0..ELEMENTS.len() {
        if symbol_at(place).as_bytes() == symbol {
            known = true;
            totals[place] = (totals[place] + count).min(TOO_MANY);
        }
    }
    known
}

/// Whether a formula may have these counts.
fn all_fit(totals: &[u16; FORMULA_PLACES]) -> bool
    ensures { result ≡ list_all (λ total. nat_le total greatest_count) totals.now }
{
    totals.iter().all(|total| *total <= GREATEST_COUNT)
}
