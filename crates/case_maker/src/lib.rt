//! Texts to try the program on, made of a number: spectra whose formulas and peaks are drawn one after another.
#![tactic(auto)]

mod drawn;
mod generator;
mod laws;
mod text;

pub use laws::a_drawn_formula_is_light;
pub use text::make;
