//! The lines of a text, one after another.
ghost use Rattle.std.specs.Prelude.{◌≡◌, ◌<◌, ◌≤◌, ◌+◌, IfSome, length};
ghost use Rattle.std.specs.List.{position};
ghost use Rattle.std.specs.Option.{option_map};
ghost use Rattle.mgf_reader.specs.Text.{ended_lines};
ghost use Rattle.tree_document.specs.Reading.{greatest_document};
ghost use Rattle.line_reader.specs.inside.Cut.{cut_line, is_feed};

use memchr::memchr;

/// The first whole line of some bytes without its line feed, and the rest behind that.
pub fn next_line(bytes: &[u8]) -> Option<(&[u8], &[u8])>
    ensures { option_map (λ parts. (parts.0.now, parts.1.now)) result ≡ cut_line bytes.now }
{
    let Some(end) = first_feed(bytes) else {
        return None;
    };
    Some((&bytes[..end], &bytes[end + 1..]))
}

/// Where the first line feed stands.
fn first_feed(bytes: &[u8]) -> Option<usize>
    ensures place { result ≡ position is_feed bytes.now }
    ensures within { IfSome result (λ place. place < length bytes.now) }
{
    memchr(b'\n', bytes)
}

/// How many whole lines some bytes have.
#[tactic(auto, using(crate::proofs::Cutting::one_line, crate::proofs::Cutting::no_line))]
pub fn count_lines(bytes: &[u8]) -> u32
    requires { length (ended_lines bytes.now) ≤ greatest_document }
    ensures count { result ≡ length (ended_lines bytes.now) }
    ensures few { result ≤ greatest_document }
{
    let mut count = 0;
    let mut rest = bytes;
    while let Some((_, later)) = next_line(rest) {
        count += 1;
        rest = later;
    }
    count
}

/// The line with which some bytes begin, by what it holds, and the bytes behind it. The reading stops where no whole
/// line is left, where no such line may stand, and where a number of the line is past its range.
macro_rules! take_line {
    ($bytes:ident, $line:ident => $read:expr, $head:pat => $value:expr) => {{
        a_line_has_one_spelling();
        let Some(($line, rest)) = next_line($bytes) else {
            return Err(Stop::End);
        };
        let Some($head) = $read else {
            return Err(Stop::Bad($bytes));
        };
        Ok(($value, rest))
    }};
    ($bytes:ident, $line:ident => $read:expr, $head:pat => $value:expr, if $within:expr) => {{
        a_line_has_one_spelling();
        let Some(($line, rest)) = next_line($bytes) else {
            return Err(Stop::End);
        };
        let Some($head) = $read else {
            return Err(Stop::Bad($bytes));
        };
        if !$within {
            return Err(Stop::Big($bytes));
        }
        Ok(($value, rest))
    }};
}

pub(crate) use take_line;
