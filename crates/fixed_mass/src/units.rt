//! Numerals read to whole units.
ghost use Rattle.std.specs.Prelude.{◌≡◌, ◌≤◌, ◌<◌, ◌+◌, ◌-◌, ◌*◌, ◌/◌, ◌^◌, ◌++◌, ◌↔◌, ℕ, List, Err, IfOk, IfSome};
ghost use Rattle.std.specs.Prelude.{IsNone, IsTrue, length, take, true, false};
ghost use Rattle.std.specs.Result.{result_ok};
ghost use Rattle.std.specs.Str.{all_ascii_digits};
ghost use Rattle.std.specs.Str.Parse.{digits_value, digits_value_after};
ghost use Rattle.fixed_mass.specs.Numeral.{is_numeral};
ghost use Rattle.fixed_mass.specs.inside.Tenths.{leading_of, rounded_of, tenths_of};
ghost use Rattle.fixed_mass.specs.Numeral.{is_digits, number_of_digits};
ghost use Rattle.fixed_mass.specs.Units.{greatest_numeral_length, greatest_scale, greatest_units, readable_units};
ghost use Rattle.fixed_mass.specs.Units.{units_of};

use crate::numeral::{Numeral, is_all_digits};
use crate::powers::POWERS_OF_TEN;

/// How many bytes a numeral may have.
const GREATEST_NUMERAL_LENGTH: usize = 40;

/// How many units a numeral may stand for.
const GREATEST_UNITS: u64 = 1_000_000_000_000_000_000;

/// Why a text is not read as a number of units.
#[derive(Clone, Copy, Debug, PartialEq, Eq)]
pub enum NumeralFault {
    /// The text is no numeral.
    NotANumeral,
    /// The numeral has more than 40 bytes.
    TooLong,
    /// The rounded number is above 10^18.
    OutOfRange,
}

/// The value of a decimal numeral in units of 10^-scale, of a scale of at most 9, rounded to whole units, half a unit
/// up.
pub fn read_units(text: &[u8], scale: u8) -> Result<u64, NumeralFault>
    requires { scale ≤ greatest_scale }
    ensures units { result_ok result ≡ readable_units scale text.now }
    ensures range { IfOk result (λ units. units ≤ greatest_units) }

    // The faults, in this order.
    ensures not_a_numeral { (result ≡ Err NumeralFault.NotANumeral) ↔ (is_numeral text.now ≡ false) }
    ensures too_long { (result ≡ Err NumeralFault.TooLong)
        ↔ (IsTrue (is_numeral text.now) × (greatest_numeral_length < length text.now)) }
    ensures out_of_range { (result ≡ Err NumeralFault.OutOfRange)
        ↔ (IsTrue (is_numeral text.now) × (length text.now ≤ greatest_numeral_length)
        × (greatest_units < units_of scale text.now)) }
{
    let Some(numeral) = Numeral::of(text) else {
        return Err(NumeralFault::NotANumeral);
    };
    if text.len() > GREATEST_NUMERAL_LENGTH {
        return Err(NumeralFault::TooLong);
    }
    match rounded_units(&numeral, scale) {
        Some(units) => Ok(units),
        None => Err(NumeralFault::OutOfRange),
    }
}

/// The number that decimal digits write. `None` unless there is at least one byte, each is a digit, and the number is
/// below 2^64.
pub fn read_digits(digits: &[u8]) -> Option<u64>
    ensures { result ≡ number_of_digits digits.now }
{
    if digits.is_empty() || !is_all_digits(digits) {
        return None;
    }
    read_on(0, digits)
}

/// The rounded number of units. `None` where it is above the most.
fn rounded_units(numeral: &Numeral<'_>, scale: u8) -> Option<u64>
    requires { scale ≤ greatest_scale }
    ensures some { IfSome result (λ units. units ≡ rounded_of scale numeral.now.whole.now
        numeral.now.fraction.now numeral.now.raised numeral.now.lowered) }
    ensures within { IfSome result (λ units. units ≤ greatest_units) }
    ensures none { IsNone result → greatest_units < rounded_of scale numeral.now.whole.now
        numeral.now.fraction.now numeral.now.raised numeral.now.lowered }
{
    let tenths = tenths(numeral, scale)?;
    let units = tenths / 10 + u64::from(tenths % 10 >= 5);
    if units <= GREATEST_UNITS {
        Some(units)
    } else {
        None
    }
}

/// The tenths of units that a numeral stands for, rounded down. `None` where they do not fit.
fn tenths(numeral: &Numeral<'_>, scale: u8) -> Option<u64>
    requires { scale ≤ greatest_scale }
    ensures some { IfSome result (λ tenths. tenths ≡ tenths_of scale numeral.now.whole.now
        numeral.now.fraction.now numeral.now.raised numeral.now.lowered) }
    ensures none { IsNone result → 2 ^ 64 ≤ tenths_of scale numeral.now.whole.now
        numeral.now.fraction.now numeral.now.raised numeral.now.lowered }
{
    let up = usize::from(scale) + 1 + numeral.raised;
    let down = numeral.fraction.len() + numeral.lowered;
    let value = leading_value(numeral.whole, numeral.fraction, down.saturating_sub(up))?;
    raised_value(value, up.saturating_sub(down))
}

/// A number with places raised. `None` where it does not fit.
fn raised_value(value: u64, places: usize) -> Option<u64>
    ensures some { IfSome result (λ raised. raised ≡ value * 10 ^ places) }
    ensures none { IsNone result → 2 ^ 64 ≤ value * 10 ^ places }
{
    if value == 0 {
        return Some(0);
    }
    let power = POWERS_OF_TEN.get(places)?;
    value.checked_mul(*power)
}

/// The number that the digits before and behind the point write, without the last of them. `None` where it does not
/// fit.
fn leading_value(whole: &[u8], fraction: &[u8], dropped: usize) -> Option<u64>
    requires whole { IsTrue (all_ascii_digits whole.now) }
    requires fraction { IsTrue (all_ascii_digits fraction.now) }
    ensures some { IfSome result (λ value. value ≡ leading_of dropped (whole.now ++ fraction.now)) }
    ensures none { IsNone result → 2 ^ 64 ≤ leading_of dropped (whole.now ++ fraction.now) }
{
    let kept = (whole.len() + fraction.len()).saturating_sub(dropped);
    let from_whole = kept.min(whole.len());
    let value = read_on(0, &whole[..from_whole])?;
    read_on(value, &fraction[..kept - from_whole])
}

/// The number that further digits make of the one so far. `None` where it does not fit.
fn read_on(start: u64, digits: &[u8]) -> Option<u64>
    requires { IsTrue (all_ascii_digits digits.now) }
    ensures some { IfSome result (λ value. value ≡ digits_value_after 10 start digits.now) }
    ensures none { IsNone result → 2 ^ 64 ≤ digits_value_after 10 start digits.now }
{
    let mut value = start;
    for digit in digits {
        value = value
            .checked_mul(10)?
            .checked_add(u64::from(*digit - b'0'))?;
    }
    Some(value)
}
