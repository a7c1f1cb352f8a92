//! The ends of a line, and its fields one after another. Nothing is copied.
ghost use Rattle.std.specs.Prelude.{◌≡◌, ◌≤◌, ◌<◌, ◌∷◌, [], IfSome, MatchOption, length};
ghost use Rattle.std.specs.List.{position_or_len};
ghost use Rattle.mgf_reader.specs.Bytes.{fields_by, fields_of, trimmed, trimmed_front};
ghost use Rattle.mgf_reader.specs.inside.ByteClass.{is_of};
ghost use Rattle.mgf_reader.specs.LineForm.{are_words};

/// A class of bytes at which a line is cut.
#[derive(Clone, Copy)]
pub enum ByteClass {
    /// What is dropped at the ends of a line: spaces, tabs and carriage returns.
    Edge,
    /// What parts the fields of a line: spaces and tabs.
    Blank,
    /// What parts charges: spaces, tabs and commas.
    Gap,
    /// What parts a key from its value.
    Equals,
}

impl ByteClass {
    /// Whether a byte is of this class.
    fn holds(self, byte: u8) -> bool
        ensures { result ≡ is_of self byte }
    {
        match self {
            ByteClass::Edge => byte == b' ' || byte == b'\t' || byte == b'\r',
            ByteClass::Blank => byte == b' ' || byte == b'\t',
            ByteClass::Gap => byte == b' ' || byte == b'\t' || byte == b',',
            ByteClass::Equals => byte == b'=',
        }
    }
}

/// The bytes without those of a class at their front.
fn trim_front(class: ByteClass, bytes: &[u8]) -> &[u8]
    ensures { result.now ≡ trimmed_front (is_of class) bytes.now }
{
    let mut left = bytes;
    while let [first, rest @ ..] = left {
        if !class.holds(*first) {
            break;
        }
        left = rest;
    }
    left
}

/// The bytes without those of a class at both ends.
pub fn trim(class: ByteClass, bytes: &[u8]) -> &[u8]
    ensures { result.now ≡ trimmed (is_of class) bytes.now }
{
    let mut left = trim_front(class, bytes);
    while let [rest @ .., last] = left {
        if !class.holds(*last) {
            break;
        }
        left = rest;
    }
    left
}

/// The first field, where bytes of a class part them, and what follows it.
pub fn first_field(class: ByteClass, bytes: &[u8]) -> Option<(&[u8], &[u8])>
    ensures fields { MatchOption result (fields_by (is_of class) bytes.now ≡ [])
        (λ parts. fields_by (is_of class) bytes.now ≡ parts.0.now ∷ fields_by (is_of class) parts.1.now) }
    ensures shorter { IfSome result (λ parts. length parts.1.now < length bytes.now) }
{
    let left = trim_front(class, bytes);
    if left.is_empty() {
        return None;
    }
    let end = first_place(class, left);
    Some((&left[..end], &left[end..]))
}

/// The place of the first byte of a class, or the number of bytes where there is none.
pub fn first_place(class: ByteClass, bytes: &[u8]) -> usize
    ensures place { result ≡ position_or_len (is_of class) bytes.now }
    ensures within { result ≤ length bytes.now }
{
    bytes
        .iter()
        .position(|byte| class.holds(*byte))
        .unwrap_or(bytes.len())
}

/// Whether the fields of a line are these two words, without ASCII case.
pub fn are_words(line: &[u8], one: &[u8], other: &[u8]) -> bool
    ensures { result ≡ are_words (fields_of line.now) one.now other.now }
{
    let Some((first, rest)) = first_field(ByteClass::Blank, line) else {
        return false;
    };
    if !first.eq_ignore_ascii_case(one) {
        return false;
    }
    let Some((second, rest)) = first_field(ByteClass::Blank, rest) else {
        return false;
    };
    second.eq_ignore_ascii_case(other) && first_field(ByteClass::Blank, rest).is_none()
}
