//! A title from its spelling.
ghost use Rattle.std.specs.Prelude.{◌≡◌, ◌<◌, ◌&&◌, IfOk};
ghost use Rattle.std.specs.Option.{option_map};
ghost use Rattle.std.specs.Str.{bytes_eq};
ghost use Rattle.tree_document.specs.Title.{are_bytes, escaped};
ghost use Rattle.line_fields.specs.Field as spec;

use std::alloc::{AllocError, Global};
use tree_document::push_spelling;

/// The title that is spelled behind a space, to the end of the line.
pub fn title_at(alloc: Global, text: &[u8]) -> Result<Option<Vec<u8>>, AllocError>
    ensures { IfOk result (λ read. option_map (λ title. title.items) read ≡ spec.title_at text.now) }
{
    if text.is_empty() {
        return Ok(None);
    }
    if text[0] != b' ' {
        return Ok(None);
    }
    let spelled = &text[1..];
    let title = title_of(alloc, spelled)?;
    if is_spelling(alloc, &title, spelled)? {
        Ok(Some(title))
    } else {
        Ok(None)
    }
}

/// Whether some bytes are the spelling of a title.
fn is_spelling(alloc: Global, title: &[u8], spelled: &[u8]) -> Result<bool, AllocError>
    ensures { IfOk result (λ same. same ≡ (are_bytes title.now && bytes_eq (escaped title.now) spelled.now)) }
{
    let mut again = Vec::new(alloc);
    push_spelling(&mut again, title)?;
    Ok(again.as_slice() == spelled)
}

/// The title that a spelling has, and some title where it is none.
fn title_of(alloc: Global, spelled: &[u8]) -> Result<Vec<u8>, AllocError>
    ensures { IfOk result (λ title. title.items ≡ spec.title_of spelled.now) }
{
    let mut title = Vec::new(alloc);
    let mut rest = spelled;
    while let Some((byte, later)) = title_byte(rest) {
        title.push(byte)?;
        rest = later;
    }
    Ok(title)
}

/// The first byte of a title behind its spelling, and the rest.
fn title_byte(text: &[u8]) -> Option<(u8, &[u8])>
    ensures { option_map (λ parts. (parts.0, parts.1.now)) result ≡ spec.title_byte_at text.now }
{
    if text.is_empty() {
        return None;
    }
    if text[0] != b'\\' {
        return Some((text[0], &text[1..]));
    }
    if text.len() < 4 {
        return None;
    }
    Some((nibble(text[2]) * 16 + nibble(text[3]), &text[4..]))
}

/// The number of a hexadecimal digit, and some number of another byte.
fn nibble(digit: u8) -> u8
    ensures number { result ≡ spec.nibble_of digit }
    ensures small { result < 16 }
{
    if digit <= b'9' {
        digit.saturating_sub(48) % 16
    } else {
        digit.saturating_sub(87) % 16
    }
}
