//! Coarse masses: each atom's mass in thousands of units, and what the coarse sum of a formula in a mass range may be.
#![tactic(auto)]

mod bounds;

pub use bounds::{COARSE_UNIT, coarse, range};
