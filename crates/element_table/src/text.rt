//! The one spelling of a formula.
ghost use Rattle.std.specs.Prelude.{◌≡◌, ◌≤◌, ◌<◌, ◌+◌, ◌++◌, ℕ, List, length};
ghost use Rattle.arrayvec.specs.ArrayVec.{array_vec_len};
ghost use Rattle.element_table.specs.Elements.{element_count};
ghost use Rattle.element_table.specs.FormulaText.{element_text, formula_text, greatest_formula_text};

use crate::elements::{ELEMENTS, GREATEST_COUNT, symbol_at};
use crate::formula::Formula;
use arrayvec::ArrayVec;
use itoa::Buffer;
use std::marker::Model;

/// How many bytes a formula's spelling may have.
pub const GREATEST_FORMULA_TEXT: usize = 96;

/// The places in the order of print: carbon, hydrogen, and the others as in the table.
const PRINTED_PLACES: [usize; 11] = [1, 0, 2, 3, 4, 5, 6, 7, 8, 9, 10];

/// The spelling of a formula, of at most 96 bytes.
#[derive(Drop)]
pub struct FormulaText {
    bytes: ArrayVec<u8, GREATEST_FORMULA_TEXT>,
}

impl Model for FormulaText {
    ghost Value = { List ℕ };

    ghost view = { λ text. text.bytes.items };
}

impl FormulaText {
    /// The bytes of the spelling.
    pub fn items(&self) -> &[u8]
        ensures bytes { result.now ≡ self.now }
        ensures short { length self.now ≤ greatest_formula_text }
    {
        self.bytes.as_slice()
    }
}

/// Spells a formula: each element's symbol and count, carbon and hydrogen first, where a count of one is left out. The
/// empty formula is `-`.
pub fn print_formula(formula: &Formula) -> FormulaText
    ensures { result ≡ formula_text formula.now }
{
    let mut bytes = ArrayVec::new();
    if formula.is_empty() {
        bytes.push(b'-');
        return FormulaText { bytes };
    }
    for place in PRINTED_PLACES {
        append_element(&mut bytes, place, formula.count(place));
    }
    FormulaText { bytes }
}

/// Appends an element's part of the spelling.
fn append_element(bytes: &mut ArrayVec<u8, GREATEST_FORMULA_TEXT>, place: usize, count: u16)
    requires element { place < element_count }
    requires room { array_vec_len bytes.old + 7 ≤ greatest_formula_text }
    ensures text { bytes.new.items ≡ bytes.old.items ++ element_text place count }
    ensures short { array_vec_len bytes.new ≤ array_vec_len bytes.old + 7 }
{
    if count == 0 {
        return;
    }
    append(bytes, symbol_at(place).as_bytes());
    if count > 1 {
        append(bytes, Buffer::new().format(count).as_bytes());
    }
}

/// Appends bytes for which there is room.
fn append(bytes: &mut ArrayVec<u8, GREATEST_FORMULA_TEXT>, part: &[u8])
    requires { array_vec_len bytes.old + length part.now ≤ greatest_formula_text }
    ensures { bytes.new.items ≡ bytes.old.items ++ part.now }
{
    for byte in part {
        bytes.push(*byte);
    }
}
