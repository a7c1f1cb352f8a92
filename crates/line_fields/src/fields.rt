//! The fields of a line, each behind a space.
ghost use Rattle.std.specs.Prelude.{◌≡◌, ◌≤◌, ◌&&◌, ◌==◌, IfSome, length, pos, neg_ℤ, not, if◌then◌else◌};
ghost use Rattle.std.specs.List.{position_or_len};
ghost use Rattle.std.specs.Option.{option_map};
ghost use Rattle.std.specs.Str.{all_ascii_digits};
ghost use Rattle.std.specs.Str.Parse.{digits_value};
ghost use Rattle.tree_document.specs.Line.{is_number};
ghost use Rattle.line_fields.specs.Field as spec;

use element_table::{Formula, print_formula, read_formula};
use mgf_reader::MgfKind;
use tree_document::Mark;

/// No field may have this number: every greater one is read as it.
const GREATEST_READ: u64 = 1_000_000_000_000_000_001;

/// The rest of a line behind its first word.
pub fn behind_word<'a>(word: &[u8], line: &'a [u8]) -> Option<&'a [u8]>
    ensures { option_map (λ rest. rest.now) result ≡ spec.behind_word word.now line.now }
{
    if line.starts_with(word) {
        Some(&line[word.len()..])
    } else {
        None
    }
}

/// A word that stands next, and the rest.
pub fn word_at<'a>(word: &[u8], text: &'a [u8]) -> Option<&'a [u8]>
    ensures { option_map (λ rest. (tt, rest.now)) result ≡ spec.value_at (spec.word_kind word.now) text.now }
{
    let (token, rest) = token_at(text)?;
    if token == word { Some(rest) } else { None }
}

/// A number that stands next, and the rest. A number that no field may have is read as one that none may have.
pub fn number_at(text: &[u8]) -> Option<(u64, &[u8])>
    ensures { option_map (λ parts. (parts.0, parts.1.now)) result ≡ spec.value_at (spec.number_kind 0 0) text.now }
{
    let (token, rest) = token_at(text)?;
    let number = number_in(token)?;
    Some((number, rest))
}

/// A number that may be negative, and the rest.
#[inline(always)]
pub fn signed_at(text: &[u8]) -> Option<(i64, &[u8])>
    ensures { option_map (λ parts. (parts.0, parts.1.now)) result ≡ spec.value_at (spec.signed_kind 0) text.now }
{
    match short_at(text) {
        Some((number, rest)) => Some((number, rest)),
        None => any_at(text),
    }
}

/// A number of at most three digits before another space, and the rest: most numbers of a table are so short.
#[inline(always)]
fn short_at(text: &[u8]) -> Option<(i64, &[u8])>
    ensures { IfSome result (λ parts. Some (parts.0, parts.1.now) ≡ spec.value_at (spec.signed_kind 0) text.now) }
{
    if text.len() < 5 || text[0] != b' ' || !text[1].is_ascii_digit() {
        return None;
    }
    let first = u32::from(text[1] - b'0');
    if text[2] == b' ' {
        return Some((i64::from(first), &text[2..]));
    }
    if first == 0 || !text[2].is_ascii_digit() {
        return None;
    }
    let second = first * 10 + u32::from(text[2] - b'0');
    if text[3] == b' ' {
        return Some((i64::from(second), &text[3..]));
    }
    if !text[3].is_ascii_digit() || text[4] != b' ' {
        return None;
    }
    let third = second * 10 + u32::from(text[3] - b'0');
    Some((i64::from(third), &text[4..]))
}

/// A number of any length, and the rest.
#[inline(never)]
fn any_at(text: &[u8]) -> Option<(i64, &[u8])>
    ensures { option_map (λ parts. (parts.0, parts.1.now)) result ≡ spec.value_at (spec.signed_kind 0) text.now }
{
    let (token, rest) = token_at(text)?;
    let number = signed_in(token)?;
    Some((number, rest))
}

/// A formula that stands next, and the rest.
pub fn formula_at(text: &[u8]) -> Option<(Formula, &[u8])>
    ensures { option_map (λ parts. (parts.0, parts.1.now)) result ≡ spec.value_at spec.formula_kind text.now }
{
    let (token, rest) = token_at(text)?;
    let formula = formula_in(token)?;
    Some((formula, rest))
}

/// The mark of a tree that stands next, and the rest.
pub fn mark_at(text: &[u8]) -> Option<(Mark, &[u8])>
    ensures { option_map (λ parts. (parts.0, parts.1.now)) result ≡ spec.value_at spec.mark_kind text.now }
{
    let (token, rest) = token_at(text)?;
    let mark = mark_in(token)?;
    Some((mark, rest))
}

/// The number of the kind of a refusal whose word stands next, and the rest.
pub fn kind_at(text: &[u8]) -> Option<(u8, &[u8])>
    ensures { option_map (λ parts. (parts.0, parts.1.now)) result ≡ spec.value_at spec.kind_kind text.now }
{
    let (token, rest) = token_at(text)?;
    let kind = kind_in(token)?;
    Some((kind, rest))
}

/// What stands between a space at the front and the next one, and the rest.
fn token_at(text: &[u8]) -> Option<(&[u8], &[u8])>
    ensures { option_map (λ parts. (parts.0.now, parts.1.now)) result ≡ spec.token_at text.now }
{
    if text.is_empty() {
        return None;
    }
    if text[0] != b' ' {
        return None;
    }
    let rest = &text[1..];
    Some(rest.split_at(token_length(rest)))
}

/// How many bytes stand before the next space, or all where there is none.
fn token_length(bytes: &[u8]) -> usize
    ensures count { result ≡ position_or_len spec.is_space bytes.now }
    ensures within { result ≤ length bytes.now }
{
    let mut count = 0;
    for byte in bytes {
        if *byte == b' ' {
            return count;
        }
        count += 1;
    }
    count
}

/// The number that a token writes.
fn number_in(token: &[u8]) -> Option<u64>
    ensures number { result ≡ spec.number_in token.now }
    ensures within { IfSome result (λ number. number ≤ spec.greatest_read) }
{
    if token.is_empty() {
        return None;
    }
    if token[0] == b'0' && token.len() > 1 {
        return None;
    }
    digits_in(token)
}

/// The number of some bytes, if they are digits.
fn digits_in(digits: &[u8]) -> Option<u64>
    ensures number { result
        ≡ (if all_ascii_digits digits.now then Some (spec.capped (digits_value 10 digits.now)) else None) }
    ensures within { IfSome result (λ number. number ≤ spec.greatest_read) }
{
    let mut number = 0;
    for digit in digits {
        if !digit.is_ascii_digit() {
            return None;
        }
        number = (number * 10 + u64::from(*digit - b'0')).min(GREATEST_READ);
    }
    Some(number)
}

/// The number that a token writes, which may be negative; a minus stands before no 0.
fn signed_in(token: &[u8]) -> Option<i64>
    ensures { result ≡ spec.signed_in token.now }
{
    if token.is_empty() {
        return None;
    }
    if token[0] == b'-' {
        negative_in(&token[1..])
    } else {
        let number = number_in(token)?;
        Some(number as i64)
    }
}

/// The number that a minus before these digits writes.
fn negative_in(digits: &[u8]) -> Option<i64>
    ensures { result ≡ (if is_number digits.now && not (digits_value 10 digits.now == 0)
        then Some (neg_ℤ (pos (spec.capped (digits_value 10 digits.now)))) else None) }
{
    let number = number_in(digits)?;
    if number == 0 {
        return None;
    }
    Some(-(number as i64))
}

/// The formula that a token spells.
fn formula_in(token: &[u8]) -> Option<Formula>
    ensures { result ≡ spec.formula_in token.now }
{
    match read_formula(token) {
        Ok(formula) => {
            if print_formula(&formula).items() == token {
                Some(formula)
            } else {
                None
            }
        }
        Err(_) => None,
    }
}

/// The mark that a token names.
fn mark_in(token: &[u8]) -> Option<Mark>
    ensures { result ≡ spec.mark_in token.now }
{
    if token == b"optimal".as_slice() {
        Some(Mark::Optimal)
    } else if token == b"gap".as_slice() {
        Some(Mark::Gap)
    } else {
        None
    }
}

/// The number of the kind of a refusal that a token names.
fn kind_in(token: &[u8]) -> Option<u8>
    ensures { result ≡ spec.kind_in token.now }
{
    let kind = MgfKind::of_text(token)?;
    Some(kind.number())
}
