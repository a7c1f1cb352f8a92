//! What a table says at a key.
ghost use Rattle.std.specs.Prelude.{◌≡◌, ◌<◌, [], length, pos, slice_index_or, option_map, option_and_then};
ghost use Rattle.element_table.specs.Elements.{symbols};
ghost use Rattle.profile.specs.Table as spec;
ghost use Rattle.toml.specs.Data.{get_member, as_table, as_array};
ghost use Rattle.toml.specs.View.{view, array_view, table_view};

use element_table::{ELEMENTS, symbol_at};
use toml::value::Array;
use toml::{Table, Value};

/// The value at a key.
fn value_at<'a>(table: &'a Table, key: &str) -> Option<&'a Value>
    ensures { option_map (λ value. view value.now) result ≡ get_member key.now (table_view table.now) }
{
    table.get(key)
}

/// The integer at a key, or else another.
pub(crate) fn number_at(table: &Table, key: &str, other: i64) -> i64
    ensures { result ≡ spec.number_at (table_view table.now) key.now other }
{
    match value_at(table, key) {
        Some(value) => value.as_integer().unwrap_or(other),
        None => other,
    }
}

/// The integer at the symbol of the element at a place, and 0 where there is none.
pub(crate) fn element_number(table: &Table, place: usize) -> i64
    ensures { result ≡ slice_index_or (spec.element_numbers (table_view table.now)) place (pos 0) }
{
    if place < ELEMENTS.len() {
        number_at(table, symbol_at(place), 0)
    } else {
        0
    }
}

/// Whether the string at a key is this word.
pub(crate) fn says(table: &Table, key: &str, word: &str) -> bool
    ensures { result ≡ spec.says (table_view table.now) key.now word.now }
{
    match value_at(table, key) {
        Some(value) => is_word(value, word),
        None => false,
    }
}

/// Whether a value is this word.
fn is_word(value: &Value, word: &str) -> bool
    ensures { result ≡ spec.is_word (view value.now) word.now }
{
    match value.as_str() {
        Some(text) => text == word,
        None => false,
    }
}

/// The table at a key.
pub(crate) fn table_at<'a>(table: &'a Table, key: &str) -> Option<&'a Table>
    ensures { option_map (λ found. table_view found.now) result
        ≡ option_and_then as_table (get_member key.now (table_view table.now)) }
{
    match value_at(table, key) {
        Some(value) => value.as_table(),
        None => None,
    }
}

/// The array at a key.
pub(crate) fn array_at<'a>(table: &'a Table, key: &str) -> Option<&'a Array>
    ensures { option_map (λ found. array_view found.now) result
        ≡ option_and_then as_array (get_member key.now (table_view table.now)) }
{
    match value_at(table, key) {
        Some(value) => value.as_array(),
        None => None,
    }
}
