//! Documents written, part by part: the header, each section, the ending, and the lines that other texts have too.
#![tactic(auto)]

mod appending;
mod bound_writer;
mod laws;
mod writer;

pub use appending::{push_done, push_lists, push_skip, push_spectrum};
pub use laws::parts_make_the_spelling;
pub use writer::{write_ending, write_header, write_section};
