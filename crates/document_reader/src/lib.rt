//! Documents read back from their bytes: the one whose spelling these are, else the first refusal.
#![tactic(auto)]

mod laws;
mod reader;
mod reading;

pub use laws::bytes_read_one_way;
pub use reading::read_document;
