//! The outside of a run: what it asks of files and the standard output, and what it is told of them.
#![tactic(auto)]

mod by_slot;
mod count;
mod desk;
mod failing;
mod faults;
mod file_identity;
mod memory;
mod real;
mod stage;
mod whole;

pub use desk::{Desk, DeskFault, Slot};
pub use failing::{CallKind, Failing};
pub use memory::MemoryDesk;
pub use real::RealDesk;
pub use whole::{ReadWhole, read_whole, write_whole};
