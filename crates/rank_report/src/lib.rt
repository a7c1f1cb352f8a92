//! What people read: the report of a document, and that of a list.
#![tactic(auto)]

mod json_report;
mod json_values;
mod laws;
mod lines;
mod list_report;
mod report;

pub use json_report::{ending_json, report_json, section_json};
pub use laws::a_gap_is_told_with_its_bound;
pub use list_report::{push_list_ending, push_list_section};
pub use report::{ending_text, push_ending, push_section, report_text, section_text};
