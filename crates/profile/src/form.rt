//! What may stand at a place of a profile text.
ghost use Rattle.std.specs.Prelude.{◌≡◌, ◌<◌, ◌^◌, map, bytes_eq, int_lt};
ghost use Rattle.std.specs.List.{list_any};
ghost use Rattle.std.specs.Ordering.{int_eq};
ghost use Rattle.profile.specs.Form as spec;
ghost use Rattle.profile.specs.Form.{Known};
ghost use Rattle.profile.specs.inside.Counted.{items_excess, keys_excess};
ghost use Rattle.profile.specs.inside.Ordered.{comes};
ghost use Rattle.profile.specs.inside.Seen.{form_seen, rows_seen};
ghost use Rattle.score_tables.specs.Tables.{are_ordered};
ghost use Rattle.toml.specs.View.{view, array_view, table_view};

use crate::table::element_number;
use element_table::FORMULA_PLACES;
use toml::value::Array;
use toml::{Table, Value};

/// What may stand at a place.
#[derive(Clone, Copy)]
pub(crate) enum Form {
    /// The whole table.
    Whole,
    /// An integer from one to another.
    Number(i64, i64),
    /// `parity` of a rule: one of its words.
    Parity,
    /// `apply` of a rule: one of its words.
    Apply,
    /// `elements`: a table of elements with integers, of which one at least is positive.
    Elements,
    /// `coefficients` of a rule: a table of elements with integers.
    Coefficients,
    /// `rules`: an array of rules.
    Rules,
    /// An item of `rules`.
    Rule,
    /// `scores`: a table of the tables that scores are read from.
    Scores,
    /// `intensity` of the scores: an array of pairs.
    Intensities,
    /// `error` of the scores: an array of pairs.
    Errors,
    /// An item of these arrays: a bound and a score.
    Pair,
    /// `named` of the scores: a table of losses.
    NamedLosses,
    /// `implausible` of the scores: a table of losses.
    ImplausibleLosses,
    /// The score of a loss, and whether its key gives a loss, and one that no other key gives.
    Loss(bool),
    /// Nothing: the key is unknown.
    Unknown,
}

/// How many peaks may be selected.
const GREATEST_PEAKS: i64 = 12;

/// The keys of the whole table.
const PROFILE_KEYS: [(&str, Form); 8] = [
    ("version", Form::Number(1, 1)),
    ("ppm", Form::Number(0, 100)),
    ("abs", Form::Number(0, 2_000_000)),
    ("peaks", Form::Number(1, GREATEST_PEAKS)),
    ("budget", Form::Number(0, 10_000)),
    ("elements", Form::Elements),
    ("rules", Form::Rules),
    ("scores", Form::Scores),
];

/// A score.
const SCORE: Form = Form::Number(-2_000, 2_000);

/// The keys of the scores.
const SCORE_KEYS: [(&str, Form); 7] = [
    ("intensity", Form::Intensities),
    ("error", Form::Errors),
    ("named", Form::NamedLosses),
    ("implausible", Form::ImplausibleLosses),
    ("radical", SCORE),
    ("negative", SCORE),
    ("size", Form::Number(10_000_000, 1_000_000_000)),
];

/// The keys of a rule.
const RULE_KEYS: [(&str, Form); 4] = [
    ("coefficients", Form::Coefficients),
    ("constant", Form::Number(-1_000_000, 1_000_000)),
    ("parity", Form::Parity),
    ("apply", Form::Apply),
];

/// The words of `parity`.
const PARITIES: [&str; 3] = ["any", "even", "odd"];

/// The words of `apply`.
const USES: [&str; 2] = ["all", "neutral"];

/// How many rules there may be.
const GREATEST_RULES: usize = 32;

/// How many pairs a table of the scores may have.
const GREATEST_PAIRS: usize = 16;

/// How many losses a table of the scores may have.
const GREATEST_LOSSES: usize = 64;

impl Form {
    /// What may stand at a key of a table of this form, where these elements may be named.
    pub(crate) fn at(self, elements: &[(&str, u64, u8)], key: &str) -> Form
        ensures { (known : Known) → known.symbols ≡ map (λ element. element.0.now) elements.now
            → form_seen result ≡ spec.form_at known (form_seen self) key.now }
    {
        match self {
            Form::Whole => among(&PROFILE_KEYS, key),
            Form::Rule => among(&RULE_KEYS, key),
            Form::Scores => among(&SCORE_KEYS, key),
            Form::Elements => number_of_element(elements, key, 0, 1_999),
            Form::Coefficients => number_of_element(elements, key, -1_000, 1_000),
            Form::Number(_, _)
            | Form::Parity
            | Form::Apply
            | Form::Rules
            | Form::Intensities
            | Form::Errors
            | Form::Pair
            | Form::NamedLosses
            | Form::ImplausibleLosses
            | Form::Loss(_)
            | Form::Unknown => Form::Unknown,
        }
    }

    /// Whether the keys of a table of this form are words that are looked at.
    pub(crate) fn has_keys(self) -> bool
        ensures { result ≡ spec.has_keys (form_seen self) }
    {
        match self {
            Form::Whole | Form::Rule | Form::Scores | Form::Elements | Form::Coefficients => true,
            _ => false,
        }
    }

    /// Whether the items of an array of this form are looked at.
    pub(crate) fn has_items(self) -> bool
        ensures { result ≡ spec.has_items (form_seen self) }
    {
        match self {
            Form::Rules | Form::Intensities | Form::Errors | Form::Pair => true,
            _ => false,
        }
    }

    /// What may stand at an item of an array of this form.
    pub(crate) fn of_item(self, number: usize) -> Form
        ensures { form_seen result ≡ spec.item_form (form_seen self) number }
    {
        match self {
            Form::Rules => Form::Rule,
            Form::Pair => {
                if number == 0 {
                    Form::Number(0, 1_000)
                } else {
                    SCORE
                }
            }
            _ => Form::Pair,
        }
    }

    /// Whether nothing may stand there.
    pub(crate) fn is_unknown(self) -> bool
        ensures { result ≡ spec.is_unknown (form_seen self) }
    {
        match self {
            Form::Unknown => true,
            _ => false,
        }
    }

    /// Whether a value has the kind of this form.
    pub(crate) fn is_kind_of(self, value: &Value) -> bool
        ensures { result ≡ spec.has_kind (form_seen self) (view value.now) }
    {
        match self {
            Form::Number(_, _) => value.is_integer(),
            Form::Parity => is_one_of(value, &PARITIES),
            Form::Apply => is_one_of(value, &USES),
            Form::Elements => is_positive_table(value),
            Form::Coefficients
            | Form::Rule
            | Form::Scores
            | Form::NamedLosses
            | Form::ImplausibleLosses => value.is_table(),
            Form::Rules => value.is_array(),
            Form::Intensities => is_intensity_table(value),
            Form::Errors => is_error_table(value),
            Form::Pair => is_pair(value),
            Form::Loss(is_free) => is_free && value.is_integer(),
            Form::Whole | Form::Unknown => false,
        }
    }

    /// The number of a value that is out of range.
    pub(crate) fn excess(self, value: &Value) -> Option<i64>
        ensures { result ≡ spec.excess_of (form_seen self) (view value.now) }
    {
        match self {
            Form::Number(least, most) => integer_outside(value, least, most),
            Form::Loss(_) => integer_outside(value, -2_000, 2_000),
            Form::Rules => too_many_items(value, GREATEST_RULES),
            Form::Intensities | Form::Errors => too_many_items(value, GREATEST_PAIRS),
            Form::NamedLosses | Form::ImplausibleLosses => too_many_keys(value, GREATEST_LOSSES),
            Form::Whole
            | Form::Parity
            | Form::Apply
            | Form::Elements
            | Form::Coefficients
            | Form::Rule
            | Form::Scores
            | Form::Pair
            | Form::Unknown => None,
        }
    }
}

/// What stands at a key, where the keys name it.
fn among(keys: &[(&str, Form)], key: &str) -> Form
    ensures { form_seen result ≡ spec.form_among (rows_seen keys.now) key.now }
{
    for (name, form) in keys {
        if key == *name {
            return *form;
        }
    }
    Form::Unknown
}

/// An integer in a range, where the key is the symbol of one of the elements.
fn number_of_element(elements: &[(&str, u64, u8)], key: &str, least: i64, most: i64) -> Form
    ensures { form_seen result
        ≡ spec.number_of_element (map (λ element. element.0.now) elements.now) key.now least most }
{
    if is_symbol(elements, key) {
        Form::Number(least, most)
    } else {
        Form::Unknown
    }
}

/// Whether a key is the symbol of one of the elements.
fn is_symbol(elements: &[(&str, u64, u8)], key: &str) -> bool
    ensures { result ≡ spec.is_symbol (map (λ element. element.0.now) elements.now) key.now }
{
    for (symbol, _, _) in elements {
        if key == *symbol {
            return true;
        }
    }
    false
}

/// Whether a value is one of some words.
fn is_one_of(value: &Value, words: &[&str]) -> bool
    ensures { result ≡ spec.has_kind (spec.word (map (λ word. word.now) words.now)) (view value.now) }
{
    match value.as_str() {
        Some(text) => is_among(words, text),
        None => false,
    }
}

/// Whether a text is one of some words.
fn is_among(words: &[&str], text: &str) -> bool
    ensures { result ≡ list_any (bytes_eq text.now) (map (λ word. word.now) words.now) }
{
    for word in words {
        if text == *word {
            return true;
        }
    }
    false
}

/// Whether a value is a table with a positive integer.
fn is_positive_table(value: &Value) -> bool
    ensures { result ≡ spec.has_kind spec.limits (view value.now) }
{
    match value.as_table() {
        Some(table) => has_positive(table),
        None => false,
    }
}

/// Whether a table has a positive integer at the symbol of an element.
fn has_positive(table: &Table) -> bool
    ensures { result ≡ spec.has_positive (table_view table.now) }
{
    for place in 0..FORMULA_PLACES {
        if 0 < element_number(table, place) {
            return true;
        }
    }
    false
}

/// An integer outside a range.
fn integer_outside(value: &Value, least: i64, most: i64) -> Option<i64>
    ensures { result ≡ spec.excess_of (spec.number least most) (view value.now) }
{
    match value.as_integer() {
        Some(number) if number < least || most < number => Some(number),
        _ => None,
    }
}

/// How many items an array has, where they are more than there may be.
fn too_many_items(value: &Value, greatest: usize) -> Option<i64>
    ensures { result ≡ items_excess greatest (view value.now) }
{
    match value.as_array() {
        Some(items) => too_many(items.len(), greatest),
        None => None,
    }
}

/// How many keys a table has, where they are more than there may be.
fn too_many_keys(value: &Value, greatest: usize) -> Option<i64>
    ensures { result ≡ keys_excess greatest (view value.now) }
{
    match value.as_table() {
        Some(table) => too_many(table.len(), greatest),
        None => None,
    }
}

/// How many there are, where they are more than there may be.
fn too_many(count: usize, greatest: usize) -> Option<i64>
    requires { count < 2 ^ 63 }
    ensures { result ≡ spec.too_many greatest count }
{
    if count <= greatest {
        None
    } else {
        Some(count as i64)
    }
}

/// The integer at an item of an array.
fn integer_at(value: &Value, place: usize) -> Option<i64>
    ensures { result ≡ spec.integer_at place (view value.now) }
{
    match value.get(place) {
        Some(item) => item.as_integer(),
        None => None,
    }
}

/// Whether a value is an array of two integers.
fn is_pair(value: &Value) -> bool
    ensures { result ≡ spec.is_pair (view value.now) }
{
    integer_at(value, 0).is_some() && integer_at(value, 1).is_some() && value.get(2usize).is_none()
}

/// Whether all items of an array are pairs.
fn are_pairs(items: &Array) -> bool
    ensures { result ≡ spec.are_pairs (array_view items.now) }
{
    for item in items {
        if !is_pair(item) {
            return false;
        }
    }
    true
}

/// The bound of a pair.
pub(crate) fn pair_bound(value: &Value) -> i64
    ensures { result ≡ spec.pair_bound (view value.now) }
{
    integer_at(value, 0).unwrap_or(0)
}

/// The score of a pair.
pub(crate) fn pair_score(value: &Value) -> i64
    ensures { result ≡ spec.pair_score (view value.now) }
{
    integer_at(value, 1).unwrap_or(0)
}

/// Whether a value is a table of intensities: pairs whose bounds fall to 0.
fn is_intensity_table(value: &Value) -> bool
    ensures { result ≡ spec.has_kind spec.intensities (view value.now) }
{
    match value.as_array() {
        Some(items) => are_pairs(items) && are_ordered(items, false, 0),
        None => false,
    }
}

/// Whether a value is a table of errors: pairs whose bounds rise to 1,000.
fn is_error_table(value: &Value) -> bool
    ensures { result ≡ spec.has_kind spec.errors (view value.now) }
{
    match value.as_array() {
        Some(items) => are_pairs(items) && are_ordered(items, true, 1_000),
        None => false,
    }
}

/// Whether a number is below another.
fn is_below(number: i64, other: i64) -> bool
    ensures { result ≡ int_lt number other }
{
    number < other
}

/// Whether a number is another.
fn is_number(number: i64, other: i64) -> bool
    ensures { result ≡ int_eq number other }
{
    number == other
}

/// Whether one bound may stand before another: below it where they rise, above it where they fall.
fn comes(rises: bool, bound: i64, next: i64) -> bool
    ensures { result ≡ comes rises bound next }
{
    if rises {
        is_below(bound, next)
    } else {
        is_below(next, bound)
    }
}

/// Whether each bound rises above the one before it, or falls below it, and the last is a given one.
fn are_ordered(items: &Array, rises: bool, last: i64) -> bool
    ensures { result ≡ are_ordered (comes rises) last (spec.item_bounds (array_view items.now)) }
{
    for place in 0..items.len() {
        let bound = pair_bound(&items[place]);
        if place + 1 == items.len() {
            return is_number(bound, last);
        }
        if !comes(rises, bound, pair_bound(&items[place + 1])) {
            return false;
        }
    }
    false
}
