//! The profile of a table that is not refused.
ghost use Rattle.std.specs.Prelude.{◌≡◌, ◌++◌, pos, IfOk, OnOk, codes};
ghost use Rattle.toml.specs.View.{view, array_view, table_view};
ghost use Rattle.profile.specs.inside.Fine.{IsFine, AreFine, IsSmallCount, alone};
ghost use Rattle.profile.specs.Form as form;
ghost use Rattle.profile.specs.Table as said;
ghost use Rattle.profile.specs.Values as spec;
ghost use Rattle.valence_filter.specs.Parity.{parity_of};

use crate::profile::{
    DEFAULT_ABS, DEFAULT_BUDGET, DEFAULT_PEAKS, DEFAULT_PPM, Profile, Rules, default_limits,
};
use crate::scores::scores_in;
use crate::table::{array_at, element_number, number_at, says, table_at};
use element_table::{FORMULA_PLACES, Limits, a_read_formula_is_one};
use score_tables::{default_tables_are_right, sorted_tables_are_right};
use std::alloc::{AllocError, Global};
use toml::value::Array;
use toml::{Table, Value};
use valence_filter::{Parity, Rule};

/// The profile of a table of which nothing is refused. What the table does not name is as in the default profile.
pub(crate) fn profile_in(alloc: Global, table: &Table) -> Result<Profile, AllocError>
    requires { IsFine form.whole (table_view table.now) }
    ensures { IfOk result (λ profile. profile ≡ spec.profile_value_of (table_view table.now)) }
{
    a_read_formula_is_one();
    default_tables_are_right();
    sorted_tables_are_right();
    Ok(Profile {
        ppm: count_at(table, "ppm", DEFAULT_PPM),
        abs: count_at(table, "abs", DEFAULT_ABS),
        peaks: count_at(table, "peaks", DEFAULT_PEAKS),
        budget: count_at(table, "budget", DEFAULT_BUDGET),
        limits: limits_in(table),
        rules: rules_in(alloc, table, false)?,
        neutral_rules: rules_in(alloc, table, true)?,
        scores: scores_in(alloc, table)?,
    })
}

/// The number at a key, or else another.
fn count_at(table: &Table, key: &str, other: u32) -> u32
    requires { IsSmallCount (said.number_at (table_view table.now) key.now (pos other)) }
    ensures { result ≡ spec.as_count (said.number_at (table_view table.now) key.now (pos other)) }
{
    number_at(table, key, i64::from(other)) as u32
}

/// The limits that a table gives, or else the default ones.
fn limits_in(table: &Table) -> Limits
    requires { IsFine form.whole (table_view table.now) }
    ensures { result ≡ (spec.profile_value_of (table_view table.now)).limits }
{
    match table_at(table, "elements") {
        Some(elements) => limits_of(elements),
        None => default_limits(),
    }
}

fn limits_of(elements: &Table) -> Limits
    requires { IsFine form.limits (table_view elements.now) }
    ensures { result ≡ spec.limits_of (table_view elements.now) }
{
    let mut counts = [0; FORMULA_PLACES];
    for place in 0..FORMULA_PLACES {
        counts[place] = element_number(elements, place) as u16;
    }
    Limits::new(counts)
}

/// The rules that candidates alone have to pass, or those that all formulas have to pass.
fn rules_in(alloc: Global, table: &Table, neutral: bool) -> Result<Rules, AllocError>
    requires { IsFine form.whole (table_view table.now) }
    ensures { IfOk result (λ rules. rules
        ≡ spec.rules_said neutral (said.items_at (table_view table.now) (codes "rules"))) }
{
    match array_at(table, "rules") {
        Some(items) => rules_said(alloc, items, neutral),
        None => Ok(Rules::of(Vec::new(alloc))),
    }
}

fn rules_said(alloc: Global, items: &Array, neutral: bool) -> Result<Rules, AllocError>
    requires { AreFine form.rules (array_view items.now) }
    ensures { IfOk result (λ rules. rules ≡ spec.rules_said neutral (array_view items.now)) }
{
    let mut rules = Vec::new(alloc);
    for item in items {
        add_rule(item, neutral, &mut rules)?;
    }
    Ok(Rules::of(rules))
}

/// Adds a rule, where it is one of those that candidates alone have to pass, or one of the others.
fn add_rule(item: &Value, neutral: bool, rules: &mut Vec<Rule>) -> Result<(), AllocError>
    requires { AreFine form.rules (alone (view item.now)) }
    ensures { OnOk result (rules.new.items ≡ rules.old.items ++ spec.rules_said neutral (alone (view item.now))) }
{
    match item.as_table() {
        Some(rule) => {
            if says(rule, "apply", "neutral") == neutral {
                rules.push(rule_of(rule))?;
            }
        }
        None => {}
    }
    Ok(())
}

fn rule_of(rule: &Table) -> Rule
    requires { IsFine form.rule (table_view rule.now) }
    ensures { result ≡ spec.rule_of (table_view rule.now) }
{
    Rule {
        coefficients: coefficients_in(rule),
        constant: number_at(rule, "constant", 0) as i32,
        parity: parity_in(rule),
    }
}

fn coefficients_in(rule: &Table) -> [i32; FORMULA_PLACES]
    requires { IsFine form.rule (table_view rule.now) }
    ensures { result ≡ said.element_numbers (said.table_at (table_view rule.now) (codes "coefficients")) }
{
    match table_at(rule, "coefficients") {
        Some(elements) => coefficients_of(elements),
        None => [0; FORMULA_PLACES],
    }
}

fn coefficients_of(elements: &Table) -> [i32; FORMULA_PLACES]
    requires { IsFine form.coefficients (table_view elements.now) }
    ensures { result ≡ said.element_numbers (table_view elements.now) }
{
    let mut coefficients = [0; FORMULA_PLACES];
    for place in 0..FORMULA_PLACES {
        coefficients[place] = element_number(elements, place) as i32;
    }
    coefficients
}

fn parity_in(rule: &Table) -> Parity
    ensures { parity_of result ≡ spec.parity_said (table_view rule.now) }
{
    if says(rule, "parity", "even") {
        Parity::Even
    } else if says(rule, "parity", "odd") {
        Parity::Odd
    } else {
        Parity::Any
    }
}
