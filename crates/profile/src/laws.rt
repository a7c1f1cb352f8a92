//! Laws of the definitions, which a check of this crate proves.
ghost use Rattle.std.specs.Prelude.{◌≡◌, ℕ, List, [], Ok};
ghost use Rattle.profile.specs.Profile.{IsProfile, ProfileValue, default_profile_value};
ghost use Rattle.profile.specs.ProfileOf.{profile_of};

use element_table::a_read_formula_is_one;
use score_tables::{default_tables_are_right, sorted_tables_are_right};

/// A text that says nothing gives the default profile.
pub fn an_empty_text_gives_the_default()
    ensures { profile_of [] ≡ Ok default_profile_value }
{}

/// The numbers of every profile that a text gives are in their ranges, its limits are counts of a formula, one of them
/// at least is positive, its rules are rules, 32 at most, and its scores are tables of scores.
pub fn what_is_read_is_in_range()
    ensures { (bytes : List ℕ) (profile : ProfileValue) → profile_of bytes ≡ Ok profile → IsProfile profile }
{
    a_read_formula_is_one();
    default_tables_are_right();
    sorted_tables_are_right();
}
