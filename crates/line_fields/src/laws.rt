//! Laws of the reading of a line, which a check of this crate proves.
ghost use Rattle.std.specs.Prelude.{◌≡◌, ℕ, List, Some, true};
ghost use Rattle.tree_document.specs.Line.{Line, Spells, in_range, is_shallow, line_text};
ghost use Rattle.tree_document.specs.Document.{IsGoodLine};
ghost use Rattle.line_fields.specs.LineRead.{IsRead, ReadAs};
ghost use Rattle.line_fields.specs.Need.{Need, follow, line_at};

use element_table::{a_read_formula_is_one, a_spelling_is_one_word, reading_undoes_printing};
use mgf_reader::a_kind_has_one_number_and_one_word;

/// A line that is read where something is needed is good if its numbers are in their ranges and no more splits stand
/// above it than may, and the text is its spelling.
pub fn a_line_has_one_spelling()
    ensures { (need : Need) (text : List ℕ) (line : Line) → line_at need text ≡ Some line → in_range line ≡ true
        → is_shallow line ≡ true → (text ≡ line_text line) × IsGoodLine line }
{
    reading_undoes_printing();
    a_read_formula_is_one();
    a_spelling_is_one_word();
    a_kind_has_one_number_and_one_word();
}

/// What is read where something is needed is what a line that may stand there spells, and what such a line spells is
/// read.
pub fn a_line_is_read_as_it_is_spelled()
    ensures sound { (need : Need) (text : List ℕ) (line : Line) → line_at need text ≡ Some line
        → ReadAs need text line }
    ensures complete { (need : Need) (text : List ℕ) (whole : Line) (more : List Need)
        → follow need whole ≡ Some more → Spells whole text → IsRead need text whole }
{
    reading_undoes_printing();
    a_read_formula_is_one();
    a_spelling_is_one_word();
    a_kind_has_one_number_and_one_word();
}
