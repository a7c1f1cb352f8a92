//! A rule over the counts of a formula, and the two rules that every run has.
ghost use Rattle.std.specs.Prelude.{◌≡◌, ◌≤◌, ◌*◌, ◌*ℤ◌, ◌<◌, ◌↔◌, IsTrue, pos, slice_index_or};
ghost use Rattle.element_table.specs.Elements.{greatest_count};
ghost use Rattle.element_table.specs.Rule.{Holds, IsNearZero, Passes};
ghost use Rattle.element_table.specs.Rule.{bond_coefficients, fragment_rule_of, neutral_rule_of, value_of};
ghost use Rattle.element_table.specs.Listed.{has_parity, holds, passes};
ghost use Rattle.valence_filter.specs.Parity.{parity_of};

use element_table::{ELEMENTS, FORMULA_PLACES, Formula, bond_number_at};
use std::marker::Model;

/// Which whole numbers a rule takes.
#[derive(Clone, Copy, Debug, PartialEq, Eq)]
pub enum Parity {
    Any,
    Even,
    Odd,
}

/// A rule over the counts of a formula: the constant and the sum of each coefficient times the count at its place make
/// a number that is at least 0 and has the parity. Each coefficient is within 1,000 of 0, the constant within
/// 1,000,000.
#[derive(Clone, Copy, Debug, PartialEq, Eq)]
pub struct Rule {
    pub coefficients: [i32; FORMULA_PLACES],
    pub constant: i32,
    pub parity: Parity,
}

impl Model for Rule {
    ghost use Rattle.element_table.specs.Rule as spec;

    ghost Value = { spec.Rule };

    ghost use Rattle.valence_filter.specs.Parity.{parity_of, seen_as, seen_as-parity_of};

    ghost view = { λ rule. record {
      coefficients = rule.coefficients;
      constant = rule.constant;
      parity = parity_of rule.parity;
    } };

    ghost invariant = { λ rule. spec.IsRule (record {
      coefficients = rule.coefficients;
      constant = rule.constant;
      parity = parity_of rule.parity;
    }) };

    ghost inverse = { λ rule. record {
      coefficients = rule.coefficients;
      constant = rule.constant;
      parity = seen_as rule.parity;
    } };
}

impl Parity {
    /// Whether a number has this parity.
    fn has(self, number: i64) -> bool
        ensures { result ≡ has_parity (parity_of self) number }
    {
        match self {
            Parity::Any => true,
            Parity::Even => number % 2 == 0,
            Parity::Odd => number % 2 != 0,
        }
    }
}

impl Rule {
    /// Whether the rule holds for a formula.
    pub fn holds(&self, formula: &Formula) -> bool
        ensures exactly { IsTrue result ↔ Holds self.now formula.now }
        ensures test { result ≡ holds self.now formula.now }
    {
        let value = self.value(formula);
        value >= 0 && self.parity.has(value)
    }

    /// The number that the rule makes of a formula.
    fn value(&self, formula: &Formula) -> i64
        ensures { result ≡ value_of self.now formula.now }
    {
        let mut value = i64::from(self.constant);
        for place in 0..FORMULA_PLACES {
            value += contribution(self.coefficients[place], formula.count(place));
        }
        value
    }
}

/// What so many atoms add to a rule's number.
fn contribution(coefficient: i32, count: u16) -> i64
    requires near { IsNearZero 1000 coefficient }
    requires capped { count ≤ greatest_count }
    ensures product { result ≡ coefficient *ℤ pos count }
    ensures near { IsNearZero (1000 * greatest_count) result }
{
    i64::from(coefficient) * i64::from(count)
}

/// What an atom adds to twice the ring and double bond equivalent, by places.
fn bond_numbers() -> [i32; FORMULA_PLACES]
    ensures { result ≡ bond_coefficients }
{
    let mut numbers = [0; FORMULA_PLACES];
    for place in 0..ELEMENTS.len() {
        numbers[place] = bond_number_at(place);
    }
    numbers
}

/// The rule that twice the ring and double bond equivalent is at least the bound.
pub fn fragment_rule(bound: i32) -> Rule
    requires { IsNearZero 1000 bound }
    ensures { result ≡ fragment_rule_of bound }
{
    Rule {
        coefficients: bond_numbers(),
        constant: 2 - bound,
        parity: Parity::Any,
    }
}

/// The rule that twice the ring and double bond equivalent is even and at least 0.
pub fn neutral_rule() -> Rule
    ensures { result ≡ neutral_rule_of }
{
    Rule {
        coefficients: bond_numbers(),
        constant: 2,
        parity: Parity::Even,
    }
}

/// Whether all rules hold for a formula.
pub fn all_hold(rules: &[Rule], formula: &Formula) -> bool
    ensures exactly { IsTrue result ↔ Passes rules.now formula.now }
    ensures test { result ≡ passes rules.now formula.now }
{
    rules.iter().all(|rule| rule.holds(formula))
}
