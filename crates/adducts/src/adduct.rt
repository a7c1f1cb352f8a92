//! The adduct table.
ghost use Rattle.std.specs.Prelude.{◌≡◌, ◌≤◌, ◌^◌, ◌-ℤ◌, if◌then◌else◌, pos};
ghost use Rattle.element_table.specs.Formula.{empty_formula};
ghost use Rattle.adducts.specs.Table.{adduct_named, ammonia};

use element_table::Formula;
use std::marker::Model;

/// The adducts: the name, whether the charge is positive, the m/z of an ion less the mass of its formula in units of
/// 10^-7 Da, whether ammonia is added to the molecule, and the least number of twice the rings and double bonds that a
/// listed formula has.
const ADDUCTS: [(&str, bool, i64, bool, i32); 6] = [
    ("[M+H]+", true, 10_072_764, false, -1),
    ("[M+NH4]+", true, 10_072_764, true, -3),
    ("[M+Na]+", true, 229_892_207, false, -1),
    ("[M+K]+", true, 389_631_579, false, -1),
    ("[M-H]-", false, -10_072_764, false, -1),
    ("[M+Cl]-", false, 349_694_013, false, -1),
];

/// What an ion carries beside its molecule: whether its charge is positive, its m/z less the mass of its formula in
/// units of 10^-7 Da and within 10^9 of 0, what is added to the molecule's formula, and the least number of twice the
/// rings and double bonds that a listed formula has, within 1,000 of 0.
#[derive(Clone, Copy, Debug, PartialEq, Eq)]
pub struct Adduct {
    pub plus: bool,
    pub shift: i64,
    pub extra: Formula,
    pub bound: i32,
}

impl Model for Adduct {
    ghost use Rattle.element_table.specs.Rule.{IsNearZero};
    ghost use Rattle.adducts.specs.Adduct.{AdductValue, greatest_bound, greatest_shift};

    ghost Value = { AdductValue };

    ghost view = { λ adduct.
        record { plus = adduct.plus; shift = adduct.shift; extra = adduct.extra; bound = adduct.bound } };

    ghost invariant = { λ adduct.
        (IsNearZero greatest_shift adduct.shift) × (IsNearZero greatest_bound adduct.bound) };

    ghost inverse = { λ adduct.
        record { plus = adduct.plus; shift = adduct.shift; extra = adduct.extra; bound = adduct.bound } };
}

/// The adduct of a name. `None` exactly where the table does not have the name.
pub fn by_name(name: &str) -> Option<Adduct>
    ensures { result ≡ adduct_named name.now }
{
    for (known, plus, shift, adds_ammonia, bound) in ADDUCTS {
        if known == name {
            return Some(Adduct {
                plus,
                shift,
                extra: extra(adds_ammonia),
                bound,
            });
        }
    }
    None
}

/// What is added to a molecule: ammonia, or nothing.
fn extra(adds_ammonia: bool) -> Formula
    ensures { result ≡ (if adds_ammonia then ammonia else empty_formula) }
{
    if adds_ammonia {
        Formula::empty().with(0, 3).with(2, 1)
    } else {
        Formula::empty()
    }
}

/// The neutral mass of an ion of this m/z, in units of 10^-7 Da.
pub fn neutral(adduct: &Adduct, mz: u64) -> i64
    requires { mz ≤ 10 ^ 18 }
    ensures { result ≡ pos mz -ℤ adduct.now.shift }
{
    mz as i64 - adduct.shift
}
