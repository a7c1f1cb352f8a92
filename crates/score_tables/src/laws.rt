//! Laws of the scores, which a check of this crate proves.
ghost use Rattle.std.specs.Prelude.{◌≡◌, ℕ, List, map};
ghost use Rattle.score_tables.specs.Default.{default_named_texts, default_implausible_texts, default_named};
ghost use Rattle.score_tables.specs.Default.{default_implausible, default_scores, default_tables, some_losses};
ghost use Rattle.score_tables.specs.Default.{some_loss_scores};
ghost use Rattle.score_tables.specs.Scores.{loss_score_of};
ghost use Rattle.score_tables.specs.Tables.{IsScores, ScoresValue, in_formula_order};
ghost use Rattle.element_table.specs.FormulaText.{formula_text};

/// In which order the losses of a table are given changes no score.
pub fn losses_score_as_given()
    ensures { (scores : ScoresValue) (loss : List ℕ)
        → loss_score_of (in_formula_order scores) loss ≡ loss_score_of scores loss }
{}

/// Tables stay right where their losses are put in formula order.
pub fn sorted_tables_are_right()
    ensures { (scores : ScoresValue) → IsScores scores → IsScores (in_formula_order scores) }
{}

/// The default tables are right.
pub fn default_tables_are_right()
    ensures { IsScores default_tables }
{}

/// The losses of the default tables, by their spellings.
pub fn default_losses_are_named()
    ensures named { map (λ entry. formula_text entry.0) default_named ≡ default_named_texts }
    ensures implausible { map (λ entry. formula_text entry.0) default_implausible ≡ default_implausible_texts }
{}

/// Worked examples under the default tables: H2O 12, CO 9, HN4 -14, C -30 and H3 -52.
pub fn some_losses_score_so()
    ensures { map (λ loss. loss_score_of default_scores loss) some_losses ≡ some_loss_scores }
{}
