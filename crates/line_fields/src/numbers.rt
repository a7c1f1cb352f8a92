//! Numbers to the end of a line.
ghost use Rattle.std.specs.Prelude.{◌≡◌, [], ◌∷◌, ◌++◌, IfOk, OnOk};
ghost use Rattle.std.specs.Option.{option_map};
ghost use Rattle.line_fields.specs.Field as spec;

use crate::fields::{number_at, signed_at};
use std::alloc::{AllocError, Global};

/// The numbers to the end of a line, each behind a space; there is at least one. Its loop is a document's longest, and
/// stays in registers where it stands alone.
#[inline(never)]
pub fn numbers_at(alloc: Global, text: &[u8]) -> Result<Option<Vec<i64>>, AllocError>
    ensures { IfOk result (λ read. option_map (λ numbers. numbers.items) read ≡ spec.some_numbers_at text.now) }
{
    if text.is_empty() {
        return Ok(None);
    }
    let mut numbers = Vec::new(alloc);
    let mut rest = text;
    while !rest.is_empty() {
        let Some((number, later)) = signed_at(rest) else {
            return Ok(None);
        };
        push_number(&mut numbers, number)?;
        rest = later;
    }
    Ok(Some(numbers))
}

/// Appends a number.
fn push_number(numbers: &mut Vec<i64>, number: i64) -> Result<(), AllocError>
    ensures { OnOk result (numbers.new.items ≡ numbers.old.items ++ number ∷ []) }
{
    numbers.push(number)?;
    Ok(())
}

/// The natural numbers to the end of a line, each behind a space; there is at least one.
pub fn naturals_at(alloc: Global, text: &[u8]) -> Result<Option<Vec<u64>>, AllocError>
    ensures { IfOk result (λ read. option_map (λ numbers. numbers.items) read ≡ spec.naturals_at text.now) }
{
    if text.is_empty() {
        return Ok(None);
    }
    let mut numbers = Vec::new(alloc);
    let mut rest = text;
    while !rest.is_empty() {
        let Some((natural, later)) = number_at(rest) else {
            return Ok(None);
        };
        numbers.push(natural)?;
        rest = later;
    }
    Ok(Some(numbers))
}
