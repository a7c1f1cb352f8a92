//! A caller's test of formulas, beside the rules that it stands for.
ghost use Rattle.std.specs.Prelude.{◌≡◌, ◌↔◌, IsTrue, Bool, ℕ, List};
ghost use Rattle.std.specs.Borrow.{Bor};
ghost use Rattle.element_table.specs.Formula.{IsFormula};
ghost use Rattle.element_table.specs.Rule.{Passes};
ghost use Rattle.element_table.specs.Listed.{passes};
ghost use Rattle.valence_filter.specs.Test.{AnswersAs};

use crate::rule::Rule;
use element_table::Formula;

/// A test of formulas, boxed, so that a sieve can keep what is known of it.
pub type Test = Box<dyn Fn(&Formula) -> bool>;

/// A test of formulas and the rules that it stands for. Of every sieve it is true that its test may be called on every
/// formula, and answers whether all of the rules hold.
#[derive(Drop)]
pub struct Sieve {
    rules: Vec<Rule>,
    test: Test,
    ghost callable: { (formula : Bor (List ℕ)) → IsFormula formula.now → Test.pre test formula },
    ghost right: { (formula : Bor (List ℕ)) (answer : Bool) → IsFormula formula.now → Test.post test formula answer
        → answer ≡ passes rules.items formula.now },
}

impl Sieve {
    /// A sieve of these rules, for which the test stands.
    pub fn new(rules: Vec<Rule>, test: Test) -> Sieve
        requires { AnswersAs rules.items (Test.pre test) (Test.post test) }
        ensures { result.rules ≡ rules }
    {
        Sieve { rules, test }
    }

    /// Whether all rules hold for a formula, as the test answers.
    pub fn passes(&self, formula: &Formula) -> bool
        ensures exactly { IsTrue result ↔ Passes self.now.rules.items formula.now }
        ensures test { result ≡ passes self.now.rules.items formula.now }
    {
        self.answer(formula)
    }

    /// What the test answers.
    fn answer(&self, formula: &Formula) -> bool
        ensures { result ≡ passes self.now.rules.items formula.now }
    {
        formula.is_formula();
        (self.test)(formula)
    }
}
