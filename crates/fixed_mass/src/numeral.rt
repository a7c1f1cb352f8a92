//! The parts of a numeral.
ghost use Rattle.std.specs.Prelude.{◌≡◌, ◌≤◌, ◌+◌, ◌++◌, ℕ, List, IfSome, IsNone, IsTrue, min, length, true, false};
ghost use Rattle.std.specs.Prelude.{take, drop};
ghost use Rattle.std.specs.List.{position_or_len};
ghost use Rattle.std.specs.Str.{all_ascii_digits};
ghost use Rattle.std.specs.Str.Parse.{digits_value, starts_with_minus, without_leading_plus, without_leading_sign};
ghost use Rattle.fixed_mass.specs.Numeral.{is_mark, is_point, is_digits, is_exponent, is_numeral, whole_of};
ghost use Rattle.fixed_mass.specs.Numeral.{fraction_of, raise_by, raise_of, lower_by, lower_of};
ghost use Rattle.fixed_mass.specs.inside.Tenths.{greatest_places};

/// From here on a further place of an exponent changes no answer for a text that is short enough to be read.
const GREATEST_PLACES: usize = 99;

/// A numeral in its parts. At most one of the two numbers of places is above 0.
#[derive(Clone, Copy)]
pub struct Numeral<'a> {
    /// The digits before the point.
    pub whole: &'a [u8],
    /// The digits behind the point.
    pub fraction: &'a [u8],
    /// By how many places the exponent raises the digits.
    pub raised: usize,
    /// By how many places the exponent lowers the digits.
    pub lowered: usize,
    ghost whole_is_digits: { IsTrue (all_ascii_digits whole.now) },
    ghost fraction_is_digits: { IsTrue (all_ascii_digits fraction.now) },
    ghost raised_in_range: { raised ≤ greatest_places },
    ghost lowered_in_range: { lowered ≤ greatest_places },
}

impl<'a> Numeral<'a> {
    /// The parts of a text, where it is a numeral.
    pub fn of(text: &'a [u8]) -> Option<Numeral<'a>>
        ensures numeral { IfSome result (λ _. is_numeral text.now ≡ true) }
        ensures whole { IfSome result (λ numeral. numeral.whole.now ≡ whole_of text.now) }
        ensures fraction { IfSome result (λ numeral. numeral.fraction.now ≡ fraction_of text.now) }
        ensures raised { IfSome result (λ numeral. numeral.raised ≡ min (raise_of text.now) greatest_places) }
        ensures lowered { IfSome result (λ numeral. numeral.lowered ≡ min (lower_of text.now) greatest_places) }
        ensures none { IsNone result → is_numeral text.now ≡ false }
    {
        let mark = mark_place(text);
        let significand = without_plus(&text[..mark]);
        let point = point_place(significand);
        let whole = &significand[..point];
        let fraction = behind(significand, point);
        if !is_significand(whole, fraction) {
            return None;
        }
        let (raised, lowered) = exponent_places(text, mark)?;
        Some(Numeral {
            whole,
            fraction,
            raised,
            lowered,
        })
    }
}

/// Where the mark of the exponent stands, or the length of a text without one.
fn mark_place(text: &[u8]) -> usize
    ensures place { result ≡ position_or_len is_mark text.now }
    ensures within { result ≤ length text.now }
{
    text.iter()
        .position(|byte| *byte == b'e' || *byte == b'E')
        .unwrap_or(text.len())
}

/// Where the point stands, or the length of a text without one.
fn point_place(text: &[u8]) -> usize
    ensures place { result ≡ position_or_len is_point text.now }
    ensures within { result ≤ length text.now }
{
    text.iter()
        .position(|byte| *byte == b'.')
        .unwrap_or(text.len())
}

/// What stands behind a place.
fn behind(text: &[u8], place: usize) -> &[u8]
    requires { place ≤ length text.now }
    ensures { result.now ≡ drop (place + 1) text.now }
{
    if place < text.len() {
        &text[place + 1..]
    } else {
        &[]
    }
}

/// A text without its leading plus.
fn without_plus(text: &[u8]) -> &[u8]
    ensures { result.now ≡ without_leading_plus text.now }
{
    if text.first() == Some(&b'+') {
        &text[1..]
    } else {
        text
    }
}

/// Whether these bytes before and behind the point are digits, and at least one.
fn is_significand(whole: &[u8], fraction: &[u8]) -> bool
    ensures { result ≡ is_digits (whole.now ++ fraction.now) }
{
    if whole.is_empty() && fraction.is_empty() {
        return false;
    }
    is_all_digits(whole) && is_all_digits(fraction)
}

/// Whether each byte is a decimal digit.
pub fn is_all_digits(bytes: &[u8]) -> bool
    ensures { result ≡ all_ascii_digits bytes.now }
{
    bytes.iter().all(|byte| byte.is_ascii_digit())
}

/// By how many places the exponent of a text raises the digits, and by how many it lowers them: none where the text
/// has no mark. `None` where what stands behind the mark is no exponent.
fn exponent_places(text: &[u8], mark: usize) -> Option<(usize, usize)>
    requires place { mark ≡ position_or_len is_mark text.now }
    requires within { mark ≤ length text.now }
    ensures raised { IfSome result (λ places. places.0 ≡ min (raise_of text.now) greatest_places) }
    ensures lowered { IfSome result (λ places. places.1 ≡ min (lower_of text.now) greatest_places) }
    ensures some { IfSome result (λ _. is_exponent text.now ≡ true) }
    ensures none { IsNone result → is_exponent text.now ≡ false }
{
    if mark == text.len() {
        return Some((0, 0));
    }
    read_exponent(behind(text, mark))
}

/// By how many places an exponent with its sign raises the digits, and by how many it lowers them.
fn read_exponent(exponent: &[u8]) -> Option<(usize, usize)>
    ensures raised { IfSome result (λ places. places.0 ≡ min (raise_by exponent.now) greatest_places) }
    ensures lowered { IfSome result (λ places. places.1 ≡ min (lower_by exponent.now) greatest_places) }
    ensures some { IfSome result (λ _. is_digits (without_leading_sign exponent.now) ≡ true) }
    ensures none { IsNone result → is_digits (without_leading_sign exponent.now) ≡ false }
{
    let places = read_places(without_sign(exponent))?;
    if has_minus(exponent) {
        Some((0, places))
    } else {
        Some((places, 0))
    }
}

/// An exponent without its sign.
fn without_sign(exponent: &[u8]) -> &[u8]
    ensures { result.now ≡ without_leading_sign exponent.now }
{
    if has_minus(exponent) {
        &exponent[1..]
    } else {
        without_plus(exponent)
    }
}

/// Whether an exponent begins with a minus.
fn has_minus(exponent: &[u8]) -> bool
    ensures { result ≡ starts_with_minus exponent.now }
{
    exponent.first() == Some(&b'-')
}

/// The number that digits write, or the greatest that still matters where it is greater. `None` unless there is at
/// least one byte and each is a digit.
fn read_places(digits: &[u8]) -> Option<usize>
    ensures places { IfSome result (λ places. places ≡ min (digits_value 10 digits.now) greatest_places) }
    ensures digits { IfSome result (λ _. is_digits digits.now ≡ true) }
    ensures none { IsNone result → is_digits digits.now ≡ false }
{
    if digits.is_empty() || !is_all_digits(digits) {
        return None;
    }
    Some(capped_value(digits))
}

/// The number that digits write, or the greatest that still matters where it is greater.
fn capped_value(digits: &[u8]) -> usize
    requires { IsTrue (all_ascii_digits digits.now) }
    ensures { result ≡ min (digits_value 10 digits.now) greatest_places }
{
    let mut value = 0;
    for digit in digits {
        value = GREATEST_PLACES.min(10 * value + usize::from(*digit - b'0'));
    }
    value
}
