//! The text of a number of units.
ghost use Rattle.std.specs.Prelude.{◌≡◌, ◌≤◌, ◌<◌, ◌^◌, ◌∷◌, ◌++◌, ℕ, List, [], length, drop, decimal};
ghost use Rattle.fixed_mass.specs.FixedText.{fixed_text, decimals_of, greatest_text_length, mass_places};

use crate::powers::POWERS_OF_TEN;
use std::marker::Model;

/// How many bytes a text may have.
const GREATEST_TEXT_LENGTH: usize = 24;

/// How many decimals a number of units of masses and m/z has.
const MASS_PLACES: usize = 7;

/// A short text, kept in place.
#[derive(Debug, Drop)]
pub struct FixedText {
    bytes: [u8; GREATEST_TEXT_LENGTH],
    start: usize,
}

impl Model for FixedText {
    ghost Value = { List ℕ };

    ghost view = { λ text. drop text.start text.bytes };

    ghost invariant = { λ text. text.start ≤ greatest_text_length };
}

impl FixedText {
    /// The text of no byte.
    fn empty() -> FixedText
        ensures { result ≡ [] }
    {
        FixedText {
            bytes: [0; GREATEST_TEXT_LENGTH],
            start: GREATEST_TEXT_LENGTH,
        }
    }

    /// Puts a byte before the others.
    fn prepend(&mut self, byte: u8)
        requires { length self.old < greatest_text_length }
        ensures { self.new ≡ byte ∷ self.old }
    {
        self.start -= 1;
        self.bytes[self.start] = byte;
    }

    /// The bytes of the text.
    pub fn items(&self) -> &[u8]
        ensures { result.now ≡ self.now }
    {
        &self.bytes[self.start..]
    }
}

/// A number of units of 10^-7 as a decimal number: the whole part without leading zeros, a point, seven decimals.
pub fn print_units(units: u64) -> FixedText
    ensures text { result ≡ fixed_text mass_places units }
    ensures short { length result ≤ greatest_text_length }
{
    let mut text = FixedText::empty();
    prepend_decimals(&mut text, units);
    text.prepend(b'.');
    prepend_whole(&mut text, units / POWERS_OF_TEN[MASS_PLACES]);
    text
}

/// Puts the decimals of a number of units before a text.
fn prepend_decimals(text: &mut FixedText, units: u64)
    requires { length text.old ≤ 16 }
    ensures { text.new ≡ decimals_of mass_places units ++ text.old }
{
    for place in 0..MASS_PLACES {
        let digit = units / POWERS_OF_TEN[place] % 10;
        text.prepend(b'0' + digit as u8);
    }
}

/// Puts a whole number without leading zeros before a text.
fn prepend_whole(text: &mut FixedText, number: u64)
    requires room { length text.old ≤ 8 }
    requires small { number < 10 ^ 16 }
    ensures { text.new ≡ decimal number ++ text.old }
{
    let mut rest = number;
    while rest >= 10 {
        text.prepend(b'0' + (rest % 10) as u8);
        rest /= 10;
    }
    text.prepend(b'0' + rest as u8);
}
