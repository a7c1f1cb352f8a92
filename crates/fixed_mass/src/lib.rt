//! Decimal numerals as whole numbers of units, and back: masses and m/z in units of 10^-7, intensities in units of
//! 10^-6.
#![tactic(auto)]

mod fixed_text;
mod numeral;
mod powers;
mod units;

pub use fixed_text::{FixedText, print_units};
pub use units::{NumeralFault, read_digits, read_units};
