//! Laws of the definitions, which a check of this crate proves.
ghost use Rattle.std.specs.Prelude.{◌≤◌, ℕ};
ghost use Rattle.element_table.specs.Formula.{mass_of};
ghost use Rattle.case_maker.specs.Drawn.{drawn_formula, drawn_part, greatest_drawn_mass};

/// No formula that is drawn weighs more than 901.7568524 Da, and no part that is drawn weighs more than its formula.
pub fn a_drawn_formula_is_light()
    ensures formula { (state : ℕ) → mass_of (drawn_formula state) ≤ greatest_drawn_mass }
    ensures part { (first state : ℕ)
        → mass_of (drawn_part (drawn_formula first) state) ≤ mass_of (drawn_formula first) }
{}
