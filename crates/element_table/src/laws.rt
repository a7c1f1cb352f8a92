//! Laws of the definitions, which a check of this crate proves.
ghost use Rattle.std.specs.Prelude.{◌≡◌, ◌≢◌, ◌≤◌, ◌<◌, ◌+◌, ◌*◌, ◌↔◌, ◌≤ℤ◌, ℕ, ℤ, pos, IsTrue, List, Ok, length};
ghost use Rattle.std.specs.List.{All, AllPairs};
ghost use Rattle.std.specs.List.Sorted.{IsPermutation, IsSorted};
ghost use Rattle.std.specs.declared.cmp.Ordering.TheVariants.{Less};
ghost use Rattle.element_table.specs.Elements.{formula_places};
ghost use Rattle.element_table.specs.Formula.{IsFormula, IsProperPart, IsWithin, empty_formula, formula_cmp};
ghost use Rattle.element_table.specs.Formula.{greatest_mass, is_proper_part, is_within, loss_of, mass_of};
ghost use Rattle.element_table.specs.FormulaReading.{formula_of};
ghost use Rattle.element_table.specs.FormulaText.{formula_text};
ghost use Rattle.element_table.specs.Listed.{Listed, is_in_window, listed_of, passes};
ghost use Rattle.element_table.specs.Rule.{HasParity, Holds, Passes, Rule, even, fragment_rule_of, neutral_rule_of};
ghost use Rattle.element_table.specs.Rule.{rdbe2_of};
ghost use Rattle.element_table.specs.Window.{InWindow, Window, greatest_half_width};

/// The tests of a formula answer whether the facts that they are named for hold.
pub fn the_tests_decide()
    ensures within { (part whole : List ℕ) → IsFormula part → IsFormula whole
        → IsTrue (is_within part whole) ↔ IsWithin part whole }
    ensures proper { (part whole : List ℕ) → IsFormula part → IsFormula whole
        → IsTrue (is_proper_part part whole) ↔ IsProperPart part whole }
    ensures window { (window : Window) (counts : List ℕ)
        → IsTrue (is_in_window window counts) ↔ InWindow window counts }
    ensures rules { (rules : List Rule) (counts : List ℕ)
        → IsTrue (passes rules counts) ↔ Passes rules counts }
{}

/// The rule of a fragment holds exactly where twice the ring and double bond equivalent is at least the bound, and the
/// rule of a candidate exactly where it is even and at least 0.
pub fn the_rules_speak_of_bonds()
    ensures fragment { (bound : ℤ) (counts : List ℕ)
        → Holds (fragment_rule_of bound) counts ↔ (bound ≤ℤ rdbe2_of counts) }
    ensures neutral { (counts : List ℕ)
        → Holds neutral_rule_of counts ↔ ((pos 0 ≤ℤ rdbe2_of counts) × HasParity even (rdbe2_of counts)) }
{}

/// The list of a window is the filter of all count lists within the limits, and there is no other such list.
pub fn the_list_is_a_filter()
    ensures is_listed { (window : Window) (limits : List ℕ) (rules : List Rule)
        → length limits ≡ formula_places → Listed window limits rules (listed_of window limits rules) }
    ensures only_one { (window : Window) (limits : List ℕ) (rules : List Rule) (formulas : List (List ℕ))
        → length limits ≡ formula_places → Listed window limits rules formulas
        → formulas ≡ listed_of window limits rules }
{}

/// Sorted formulas of which no two are the same rise strictly, in whatever order they came.
pub fn sorted_formulas_rise()
    ensures { (formulas sorted : List (List ℕ)) → AllPairs (λ first later. first ≢ later) formulas
        → IsPermutation formulas sorted → IsSorted formula_cmp sorted
        → AllPairs (λ first later. formula_cmp first later ≡ Less) sorted }
{}

/// Reading gives back every formula that was printed.
pub fn reading_undoes_printing()
    ensures { (counts : List ℕ) → IsFormula counts → formula_of (formula_text counts) ≡ Ok counts }
{}

/// What is read is a formula.
pub fn a_read_formula_is_one()
    ensures { (text counts : List ℕ) → formula_of text ≡ Ok counts → IsFormula counts }
{}

/// The spelling of a formula is one word: it is not empty, and all its bytes are visible ones, so that no space and no
/// line feed is among them.
pub fn a_spelling_is_one_word()
    ensures some { (counts : List ℕ) → IsFormula counts → 0 < length (formula_text counts) }
    ensures visible { (counts : List ℕ) → IsFormula counts
        → All (λ byte. (32 < byte) × (byte < 127)) (formula_text counts) }
{}

/// What a whole loses to a part of it is a formula, and their masses together are the whole's.
pub fn a_whole_is_its_part_and_its_loss()
    ensures formula { (whole part : List ℕ) → IsFormula whole → IsFormula part → IsFormula (loss_of whole part) }
    ensures mass { (whole part : List ℕ) → IsFormula whole → IsFormula part → IsWithin part whole
        → mass_of whole ≡ mass_of part + mass_of (loss_of whole part) }
{}

/// Every atom weighs more than twice the greatest half-width of a window: so does a formula that has one, and a proper
/// part is lighter than its whole by more than that. No formula weighs more than the greatest mass.
pub fn atoms_weigh_more_than_a_window()
    ensures some { (counts : List ℕ) → IsFormula counts → counts ≢ empty_formula
        → 2 * greatest_half_width < mass_of counts }
    ensures proper { (part whole : List ℕ) → IsFormula part → IsFormula whole → IsProperPart part whole
        → mass_of part + 2 * greatest_half_width < mass_of whole }
    ensures light { (counts : List ℕ) → IsFormula counts → mass_of counts ≤ greatest_mass }
{}
