//! The spelling of a title.
ghost use Rattle.std.specs.Prelude.{◌≡◌, ◌<◌, ◌++◌, OnErr, OnOk};
ghost use Rattle.tree_document.specs.Title.{escaped, escaped_byte, hexadecimal};

use std::alloc::AllocError;

/// Appends a title, its bytes that are not printed by their numbers: whole, or not at all.
pub fn push_escaped(text: &mut Vec<u8>, title: &[u8]) -> Result<(), AllocError>
    ensures appended { OnOk result (text.new.items ≡ text.old.items ++ escaped title.now) }
    ensures unchanged { OnErr result (text.new.items ≡ text.old.items) }
{
    let mut more = Vec::new(*text.allocator());
    push_spelling(&mut more, title)?;
    text.extend_from_slice(&more)?;
    Ok(())
}

/// Appends a title in the same way; where memory ends, a part of it is left.
pub fn push_spelling(text: &mut Vec<u8>, title: &[u8]) -> Result<(), AllocError>
    ensures { OnOk result (text.new.items ≡ text.old.items ++ escaped title.now) }
{
    for byte in title {
        push_byte(text, *byte)?;
    }
    Ok(())
}

/// Appends one byte of a title.
fn push_byte(text: &mut Vec<u8>, byte: u8) -> Result<(), AllocError>
    ensures { OnOk result (text.new.items ≡ text.old.items ++ escaped_byte byte) }
{
    if (b' '..=b'~').contains(&byte) && byte != b'\\' {
        text.push(byte)?;
    } else {
        text.extend_from_slice(&[
            b'\\',
            b'x',
            hexadecimal_digit(byte / 16),
            hexadecimal_digit(byte % 16),
        ])?;
    }
    Ok(())
}

/// A small hexadecimal digit.
fn hexadecimal_digit(digit: u8) -> u8
    requires { digit < 16 }
    ensures { result ≡ hexadecimal digit }
{
    if digit < 10 {
        b'0' + digit
    } else {
        b'a' + (digit - 10)
    }
}
