//! The lines of documents read, one at a time: where something is needed, the line that stands there is taken, or the
//! reading stops.
#![tactic(auto)]

mod bound_lines;
mod cut;
mod heads;
mod ranges;
mod stop;

pub use bound_lines::{BoundHead, bound_head, potentials_line};
pub use cut::count_lines;
pub use heads::{
    BodyHead, EntryHead, SectionHead, body_head, document_head, done_line, entries_head,
    entry_head, formula_line, list_head, row_line, section_head, table_head, table_row_line,
};
pub use stop::Stop;
