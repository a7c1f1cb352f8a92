//! A profile, and the default one.
ghost use Rattle.std.specs.Prelude.{◌≡◌, IfOk};
ghost use Rattle.profile.specs.Profile.{default_profile_value, default_limits};

use element_table::Limits;
use score_tables::{Scores, default_tables_are_right, sorted_tables_are_right};
use std::alloc::{AllocError, Global};
use std::marker::Model;
use valence_filter::Rule;

/// Half the width of a window, in parts per million of the m/z, where no text gives another.
pub(crate) const DEFAULT_PPM: u32 = 10;

/// Its least value where no text gives another, in units of 10^-7 Da.
pub(crate) const DEFAULT_ABS: u32 = 10_000;

/// The greatest number of selected peaks where no text gives another.
pub(crate) const DEFAULT_PEAKS: u32 = 12;

/// The budget of splits where no text gives another.
pub(crate) const DEFAULT_BUDGET: u32 = 200;

/// Some rules, in their order.
#[derive(Debug, Drop)]
pub struct Rules {
    items: Vec<Rule>,
}

impl Model for Rules {
    ghost use Rattle.std.specs.Prelude.{List};
    ghost use Rattle.element_table.specs.Rule as spec;

    ghost Value = { List spec.Rule };

    ghost view = { λ rules. rules.items.items };
}

impl Rules {
    /// The list of these rules.
    pub fn of(items: Vec<Rule>) -> Rules
        ensures { result ≡ items.items }
    {
        Rules { items }
    }

    /// The rules.
    pub fn items(&self) -> &[Rule]
        ensures { result.now ≡ self.now }
    {
        &self.items
    }
}

/// What a run is done with: half the width of a window in parts per million of the m/z, 0 to 100, and its least value
/// in units of 10^-7 Da, 0 to 2,000,000; the greatest number of selected peaks, 1 to 12; the budget of splits, 0 to
/// 10,000; the greatest count of each element, one of them positive; the rules of the profile text that every listed
/// formula has to pass, and those that candidates alone have to pass.
#[derive(Debug, Drop)]
pub struct Profile {
    pub ppm: u32,
    pub abs: u32,
    pub peaks: u32,
    pub budget: u32,
    pub limits: Limits,
    pub rules: Rules,
    pub neutral_rules: Rules,
    pub scores: Scores,
}

impl Model for Profile {
    ghost use Rattle.profile.specs.Profile.{ProfileValue, IsProfile};

    ghost Value = { ProfileValue };

    ghost view = { λ profile. record {
      ppm = profile.ppm;
      abs = profile.abs;
      peaks = profile.peaks;
      budget = profile.budget;
      limits = profile.limits;
      rules = profile.rules;
      neutral_rules = profile.neutral_rules;
      scores = profile.scores;
    } };

    ghost invariant = { λ profile. IsProfile (record {
      ppm = profile.ppm;
      abs = profile.abs;
      peaks = profile.peaks;
      budget = profile.budget;
      limits = profile.limits;
      rules = profile.rules;
      neutral_rules = profile.neutral_rules;
      scores = profile.scores;
    }) };
}

/// The limits of the default profile: C 100, H 200, N 20, O 40, P 3 and S 3.
pub(crate) fn default_limits() -> Limits
    ensures { result ≡ default_limits }
{
    Limits::new([200, 100, 20, 40, 3, 3, 0, 0, 0, 0, 0, 0, 0, 0, 0, 0])
}

/// The profile that counts where no text gives another: 10 parts per million and 10,000 units, 12 peaks, a budget of
/// 200, the limits C 100, H 200, N 20, O 40, P 3 and S 3, and no rules.
pub fn default_profile(alloc: Global) -> Result<Profile, AllocError>
    ensures { IfOk result (λ profile. profile ≡ default_profile_value) }
{
    default_tables_are_right();
    sorted_tables_are_right();
    Ok(Profile {
        ppm: DEFAULT_PPM,
        abs: DEFAULT_ABS,
        peaks: DEFAULT_PEAKS,
        budget: DEFAULT_BUDGET,
        limits: default_limits(),
        rules: Rules::of(Vec::new(alloc)),
        neutral_rules: Rules::of(Vec::new(alloc)),
        scores: Scores::default_tables(alloc)?,
    })
}
