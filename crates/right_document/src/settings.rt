//! What lists and trees are made under.
ghost use Rattle.std.specs.Prelude.{◌≡◌, ◌≤◌, ◌∷◌, IfOk};
ghost use Rattle.element_table.specs.Rule.{neutral_rule_of};
ghost use Rattle.profile.specs.Profile.{greatest_peaks};
ghost use Rattle.right_document.specs.RunSettings.{run_settings_of};
ghost use Rattle.right_document.specs.SolveSettings.{solve_settings_of};
ghost use Rattle.right_document.specs.SettingsOf.{settings_value_of, solve_settings_value_of};

use adducts::{Adduct, Choice};
use element_table::Limits;
use profile::Profile;
use score_tables::Scores;
use std::alloc::{AllocError, Global};
use valence_filter::{Rule, Sieve, fragment_rule, neutral_rule};

/// What lists are made under: the adduct, the width of windows and the number of selected peaks; the greatest count of
/// each element; and the rules of a fragment.
#[derive(Drop)]
pub struct RunSettings {
    pub choice: Choice,
    pub limits: Limits,
    pub sieve: Sieve,
}

/// What trees are found and checked under: what lists are made under, the rules that a candidate has to pass, the
/// tables of scores, and the budget of splits.
#[derive(Drop)]
pub struct SolveSettings<'a> {
    pub listing: RunSettings,
    pub candidate_rules: Vec<Rule>,
    pub scores: &'a Scores,
    pub budget: u32,
}

/// What lists are made under by a profile, for ions of an adduct.
pub fn run_settings(profile: &Profile, adduct: Adduct, sieve: Sieve) -> RunSettings
    requires { sieve.rules.items ≡ (run_settings_of profile.now adduct).rules }
    ensures value { settings_value_of result ≡ run_settings_of profile.now adduct }
{
    RunSettings {
        choice: choice_of(profile, adduct),
        limits: profile.limits,
        sieve,
    }
}

/// What trees are found under by a profile, for ions of an adduct.
pub fn solve_settings(
    profile: &Profile,
    adduct: Adduct,
    sieve: Sieve,
    candidate_rules: Vec<Rule>,
) -> SolveSettings<'_>
    requires fragments { sieve.rules.items ≡ (run_settings_of profile.now adduct).rules }
    requires candidates { candidate_rules.items ≡ neutral_rule_of ∷ profile.now.neutral_rules }
    ensures value { solve_settings_value_of result ≡ solve_settings_of profile.now adduct }
    ensures peaks { result.listing.choice.peaks ≤ greatest_peaks }
{
    SolveSettings {
        listing: run_settings(profile, adduct, sieve),
        candidate_rules,
        scores: &profile.scores,
        budget: profile.budget,
    }
}

/// The choice that a profile makes for an adduct.
fn choice_of(profile: &Profile, adduct: Adduct) -> Choice
    ensures { result ≡ (run_settings_of profile.now adduct).choice }
{
    Choice {
        adduct,
        ppm: profile.ppm,
        abs: profile.abs,
        peaks: profile.peaks,
    }
}

/// The rules of a fragment of an adduct's ions under a profile.
pub fn fragment_rules_of(
    alloc: Global,
    profile: &Profile,
    adduct: &Adduct,
) -> Result<Vec<Rule>, AllocError>
    ensures { IfOk result (λ rules. rules.items ≡ (run_settings_of profile.now adduct.now).rules) }
{
    let mut rules = Vec::new(alloc);
    rules.push(fragment_rule(adduct.bound))?;
    rules.extend_from_slice(profile.rules.items())?;
    Ok(rules)
}

/// The sieve of the rules of a fragment of an adduct's ions under a profile: `sieve_of!(alloc, profile, &adduct)`.
/// Where there is no memory for it, the function that has this line ends with the error that stands for that. It is a
/// macro, since no function may hand out the boxed closure that a sieve keeps.
#[macro_export]
macro_rules! sieve_of {
    ($alloc:expr, $profile:expr, $adduct:expr) => {{
        let rules = $crate::fragment_rules_of($alloc, $profile, $adduct)?;
        let kept = std::vec::Vec::from_slice($alloc, &rules)?;
        let test = std::boxed::Box::new(
            $alloc,
            move |formula: &element_table::Formula| valence_filter::all_hold(&kept, formula),
        );
        let Ok(test) = test else {
            return Err(std::alloc::AllocError.into());
        };
        valence_filter::Sieve::new(rules, test)
    }};
}

/// The rules of a candidate under a profile.
pub fn candidate_rules_of(alloc: Global, profile: &Profile) -> Result<Vec<Rule>, AllocError>
    ensures { IfOk result (λ rules. rules.items ≡ neutral_rule_of ∷ profile.now.neutral_rules) }
{
    let mut rules = Vec::new(alloc);
    rules.push(neutral_rule())?;
    rules.extend_from_slice(profile.neutral_rules.items())?;
    Ok(rules)
}
