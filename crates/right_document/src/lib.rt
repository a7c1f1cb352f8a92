//! What is right for a text: the settings of a run, the outline of a spectrum, its candidates, and which sections and
//! documents are right.
#![tactic(auto)]

mod candidate_list;
mod ending;
mod laws;
mod outline;
mod settings;

pub use candidate_list::{candidates, ion_error};
pub use ending::ending_of;
pub use laws::a_spectrum_has_one_outline;
pub use outline::read_outline;
pub use settings::{
    RunSettings, SolveSettings, candidate_rules_of, fragment_rules_of, run_settings, solve_settings,
};
