//! The scores of a table that is not refused.
ghost use Rattle.std.specs.Prelude.{◌≡◌, ◌++◌, IfOk, OnOk, codes, unwrap_or, pos};
ghost use Rattle.element_table.specs.Formula.{empty_formula};
ghost use Rattle.element_table.specs.Rule.{IsNearZero};
ghost use Rattle.profile.specs.inside.Fine.{AreNearScores, AreShareItems, IsFine, IsShareItem};
ghost use Rattle.profile.specs.Form as form;
ghost use Rattle.profile.specs.Losses.{key_formula};
ghost use Rattle.profile.specs.Table as said;
ghost use Rattle.profile.specs.Values as spec;
ghost use Rattle.score_tables.specs.Tables.{greatest_score, in_formula_order};
ghost use Rattle.toml.specs.Data.{as_integer};
ghost use Rattle.toml.specs.View.{view, array_view, table_view};

use crate::form::{pair_bound, pair_score};
use crate::table::{array_at, number_at, table_at};
use element_table::{Formula, a_read_formula_is_one, read_formula};
use score_tables::{
    DEFAULT_NEGATIVE, DEFAULT_RADICAL, DEFAULT_SIZE, Scores, default_error, default_implausible,
    default_intensity, default_named, default_tables_are_right,
};
use std::alloc::{AllocError, Global};
use toml::value::Array;
use toml::{Table, Value};

/// The scores that a table gives, or else the default ones.
pub(crate) fn scores_in(alloc: Global, table: &Table) -> Result<Scores, AllocError>
    requires { IsFine form.whole (table_view table.now) }
    ensures { IfOk result (λ scores. scores
        ≡ in_formula_order (spec.tables_said (said.table_at (table_view table.now) (codes "scores")))) }
{
    match table_at(table, "scores") {
        Some(scores) => scores_of(alloc, scores),
        None => Scores::default_tables(alloc),
    }
}

/// The scores of a table `scores`. What it does not give is as in the default tables.
fn scores_of(alloc: Global, scores: &Table) -> Result<Scores, AllocError>
    requires { IsFine form.scores (table_view scores.now) }
    ensures { IfOk result (λ made. made ≡ in_formula_order (spec.tables_said (table_view scores.now))) }
{
    a_read_formula_is_one();
    default_tables_are_right();
    Ok(Scores::new(
        intensity_in(alloc, scores)?,
        error_in(alloc, scores)?,
        named_in(alloc, scores)?,
        implausible_in(alloc, scores)?,
        score_at(scores, "radical", DEFAULT_RADICAL),
        score_at(scores, "negative", DEFAULT_NEGATIVE),
        size_in(scores),
    ))
}

/// The score at a key, or else another.
fn score_at(scores: &Table, key: &str, other: i16) -> i16
    requires { IsNearZero greatest_score (said.number_at (table_view scores.now) key.now other) }
    ensures { result ≡ said.number_at (table_view scores.now) key.now other }
{
    number_at(scores, key, i64::from(other)) as i16
}

/// The mass for which a loss costs one.
fn size_in(scores: &Table) -> u32
    requires { IsFine form.scores (table_view scores.now) }
    ensures { result ≡ (spec.tables_said (table_view scores.now)).size }
{
    number_at(scores, "size", i64::from(DEFAULT_SIZE)) as u32
}

/// The table of intensities.
fn intensity_in(alloc: Global, scores: &Table) -> Result<Vec<(u16, i16)>, AllocError>
    requires { IsFine form.scores (table_view scores.now) }
    ensures { IfOk result (λ pairs. pairs.items ≡ (spec.tables_said (table_view scores.now)).intensity) }
{
    match array_at(scores, "intensity") {
        Some(items) => shares_of(alloc, items),
        None => default_intensity(alloc),
    }
}

/// The table of errors.
fn error_in(alloc: Global, scores: &Table) -> Result<Vec<(u16, i16)>, AllocError>
    requires { IsFine form.scores (table_view scores.now) }
    ensures { IfOk result (λ pairs. pairs.items ≡ (spec.tables_said (table_view scores.now)).error) }
{
    match array_at(scores, "error") {
        Some(items) => shares_of(alloc, items),
        None => default_error(alloc),
    }
}

/// The table of named losses.
fn named_in(alloc: Global, scores: &Table) -> Result<Vec<(Formula, i16)>, AllocError>
    requires { IsFine form.scores (table_view scores.now) }
    ensures { IfOk result (λ losses. losses.items ≡ (spec.tables_said (table_view scores.now)).named) }
{
    match table_at(scores, "named") {
        Some(table) => losses_of(alloc, table),
        None => default_named(alloc),
    }
}

/// The table of losses that hardly occur.
fn implausible_in(alloc: Global, scores: &Table) -> Result<Vec<(Formula, i16)>, AllocError>
    requires { IsFine form.scores (table_view scores.now) }
    ensures { IfOk result (λ losses. losses.items ≡ (spec.tables_said (table_view scores.now)).implausible) }
{
    match table_at(scores, "implausible") {
        Some(table) => losses_of(alloc, table),
        None => default_implausible(alloc),
    }
}

/// The pairs of an array.
fn shares_of(alloc: Global, items: &Array) -> Result<Vec<(u16, i16)>, AllocError>
    requires { AreShareItems (array_view items.now) }
    ensures { IfOk result (λ pairs. pairs.items ≡ spec.shares_said (array_view items.now)) }
{
    let mut pairs = Vec::new(alloc);
    for item in items {
        pairs.push(pair_of(item))?;
    }
    Ok(pairs)
}

/// The bound and the score of a pair.
fn pair_of(item: &Value) -> (u16, i16)
    requires { IsShareItem (view item.now) }
    ensures { result ≡ spec.pair_said (view item.now) }
{
    (pair_bound(item) as u16, pair_score(item) as i16)
}

/// The losses of a table, with their scores.
fn losses_of(alloc: Global, table: &Table) -> Result<Vec<(Formula, i16)>, AllocError>
    requires { AreNearScores (table_view table.now) }
    ensures { IfOk result (λ losses. losses.items ≡ spec.losses_said (table_view table.now)) }
{
    let mut losses = Vec::new(alloc);
    for (key, value) in table.iter() {
        losses.push(entry_of(key.as_str(), value))?;
    }
    Ok(losses)
}

/// The loss of a key, and its score.
fn entry_of(key: &str, value: &Value) -> (Formula, i16)
    requires { IsNearZero greatest_score (unwrap_or (as_integer (view value.now)) (pos 0)) }
    ensures { result ≡ spec.loss_said key.now (view value.now) }
{
    (loss_of(key), score_in(value))
}

/// The loss of a key.
fn loss_of(key: &str) -> Formula
    ensures { result ≡ unwrap_or (key_formula key.now) empty_formula }
{
    match read_formula(key.as_bytes()) {
        Ok(formula) => formula,
        Err(_) => Formula::empty(),
    }
}

/// The score of a loss.
fn score_in(value: &Value) -> i16
    requires { IsNearZero greatest_score (unwrap_or (as_integer (view value.now)) (pos 0)) }
    ensures { result ≡ unwrap_or (as_integer (view value.now)) (pos 0) }
{
    value.as_integer().unwrap_or(0) as i16
}
