//! Reads texts in the Mascot generic format, in pieces of any size.
#![tactic(auto)]

mod block;
mod bytes;
mod cutter;
mod fault;
mod judge;
mod laws;
mod line;
mod reader;
mod setting;
mod spectrum;

pub use fault::{FeedFault, MgfFault, MgfKind};
pub use laws::{
    a_kind_has_one_number_and_one_word, a_longer_text_keeps_its_spectra, a_text_is_read_one_way,
};
pub use reader::{GREATEST_FED, Reader};
pub use spectrum::{Charge, Charges, Peak, Peaks, Sign, Spectrum, Title};
