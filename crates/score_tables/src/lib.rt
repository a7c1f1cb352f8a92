//! The tables that scores are read from, and the scores of peaks, errors and losses.
#![tactic(auto)]

mod default;
mod laws;
mod scores;
mod table;

pub use default::{
    DEFAULT_NEGATIVE, DEFAULT_RADICAL, DEFAULT_SIZE, default_error, default_implausible,
    default_intensity, default_named,
};
pub use laws::{
    default_losses_are_named, default_tables_are_right, losses_score_as_given,
    some_losses_score_so, sorted_tables_are_right,
};
pub use scores::Scores;
