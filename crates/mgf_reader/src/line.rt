//! The form of a line.
ghost use Rattle.std.specs.Prelude.{◌≡◌, IsTrue, false, slice_index};
ghost use Rattle.mgf_reader.specs.Bytes.{is_blank, is_comment_mark, is_name_byte, is_peak_start};
ghost use Rattle.mgf_reader.specs.LineForm.{line_form, form_within};
ghost use Rattle.mgf_reader.specs.inside.Line.{form_of_line};

use crate::bytes::{ByteClass, are_words, first_place, trim};

/// A line by its form. What it holds is borrowed from the line.
#[derive(Clone, Copy)]
pub enum Line<'a> {
    /// More bytes than a line may have.
    TooLong,
    /// Nothing is left of it.
    Blank,
    /// A line that begins with the mark of a comment.
    Comment,
    /// `BEGIN IONS`
    Begin,
    /// `END IONS`
    End,
    /// The key and the value, without the blanks around them.
    Parameter(&'a [u8], &'a [u8]),
    /// The bytes from which the fields of a peak are taken.
    Peak(&'a [u8]),
    /// Words that set nothing.
    Remark,
    /// None of these.
    NoForm,
}

/// How many bytes a line may have before its line feed.
pub const GREATEST_LINE: usize = 65_536;

/// The form of a line, given without its line feed.
pub fn line_of(bytes: &[u8]) -> Line<'_>
    ensures { form_of_line result ≡ line_form bytes.now }
{
    if bytes.len() > GREATEST_LINE {
        return Line::TooLong;
    }
    form_by_first(trim(ByteClass::Edge, bytes))
}

/// The form of a line without what is dropped at its ends. Its first byte tells it, but for the lines that begin as a
/// name does. Most lines are peaks, so these come first.
fn form_by_first(line: &[u8]) -> Line<'_>
    requires { is_blank (slice_index line.now 0) ≡ false }
    ensures { form_of_line result ≡ form_within line.now }
{
    let [first, ..] = line else {
        return Line::Blank;
    };
    if is_peak_start(*first) {
        Line::Peak(line)
    } else if is_name_byte(*first) {
        form_of_named(line)
    } else if is_comment_mark(*first) {
        Line::Comment
    } else {
        Line::NoForm
    }
}

/// The form of such a line that begins with a letter or an underscore.
fn form_of_named(line: &[u8]) -> Line<'_>
    requires { IsTrue (is_name_byte (slice_index line.now 0)) }
    ensures { form_of_line result ≡ form_within line.now }
{
    if are_words(line, b"BEGIN", b"IONS") {
        return Line::Begin;
    }
    if are_words(line, b"END", b"IONS") {
        return Line::End;
    }
    let equals = first_place(ByteClass::Equals, line);
    if equals == line.len() {
        return Line::Remark;
    }
    let key = trim(ByteClass::Blank, &line[..equals]);
    let value = trim(ByteClass::Blank, &line[equals + 1..]);
    Line::Parameter(key, value)
}

/// A digit, a point or a plus.
fn is_peak_start(byte: u8) -> bool
    ensures { result ≡ is_peak_start byte }
{
    byte.is_ascii_digit() || byte == b'.' || byte == b'+'
}

/// A letter or an underscore.
fn is_name_byte(byte: u8) -> bool
    ensures { result ≡ is_name_byte byte }
{
    byte.is_ascii_uppercase() || byte.is_ascii_lowercase() || byte == b'_'
}

/// `#`, `;`, `!` or `/`.
fn is_comment_mark(byte: u8) -> bool
    ensures { result ≡ is_comment_mark byte }
{
    byte == b'#' || byte == b';' || byte == b'!' || byte == b'/'
}
