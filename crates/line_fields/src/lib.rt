//! The fields of the lines of documents, from their bytes to what they hold, and that what is read where something is
//! needed is what a line spells.
#![tactic(auto)]

mod fields;
mod laws;
mod numbers;
mod title;

pub use fields::{behind_word, formula_at, kind_at, mark_at, number_at, signed_at, word_at};
pub use laws::{a_line_has_one_spelling, a_line_is_read_as_it_is_spelled};
pub use numbers::{naturals_at, numbers_at};
pub use title::title_at;
