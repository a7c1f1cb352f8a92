//! A run over a desk: the steps that it is made of, how far it came in their order, and how it ended.
#![tactic(auto)]

mod profile_text;
mod reading;
mod reject;
mod status;
mod steps;
mod text_steps;

pub use profile_text::take_profile;
pub use reading::read_all;
pub use reject::{RejectPart, RejectPlace};
pub use status::{Status, fault_text};
pub use steps::{GREATEST_DOCUMENT, GREATEST_TEXT, finish_slot, read_text, write_slot};
pub use text_steps::{DocumentSlot, read_spectra, write_report};
