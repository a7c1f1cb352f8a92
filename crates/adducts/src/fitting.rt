//! Whether a spectrum can be used.
ghost use Rattle.std.specs.Prelude.{◌≡◌, ◌≤◌, ◌^◌, ◌-ℤ◌, ◌≤ℤ◌, ℕ, pos};
ghost use Rattle.adducts.specs.Charges.{agrees, charges_fit, is_carried};
ghost use Rattle.adducts.specs.Fit.{fit_of, greatest_neutral_mass};

use crate::adduct::neutral;
use crate::choice::Choice;
use crate::outcome::Fit;
use mgf_reader::{Charge, Sign, Spectrum};

/// The greatest neutral mass that is looked at: 2,000 Da, in units of 10^-7 Da.
pub const GREATEST_NEUTRAL_MASS: i64 = 20_000_000_000;

/// Whether a spectrum can be used under a choice. Of several reasons against it the first is told.
pub fn fit(spectrum: &Spectrum, choice: &Choice) -> Fit
    ensures fit { result ≡ fit_of spectrum.now choice.now }
    ensures measured { (mz : ℕ) → result ≡ Fit.Usable mz → mz ≤ 10 ^ 18 }
    ensures light { (mz : ℕ) → result ≡ Fit.Usable mz → (pos mz -ℤ choice.now.adduct.shift) ≤ℤ greatest_neutral_mass }
{
    let Some(mz) = spectrum.precursor else {
        return Fit::NoPrecursor;
    };
    if !have_one_that_fits(spectrum.charges.items(), choice.adduct.plus) {
        return Fit::Charge;
    }
    let centre = neutral(&choice.adduct, mz);
    if centre < 1 || centre > GREATEST_NEUTRAL_MASS {
        return Fit::Range(mz);
    }
    Fit::Usable(mz)
}

/// Whether no charge is named, or one of them is one with the adduct's sign or with no sign.
fn have_one_that_fits(charges: &[Charge], plus: bool) -> bool
    ensures { result ≡ charges_fit plus charges.now }
{
    charges.is_empty() || charges.iter().any(|charge| is_single(charge, plus))
}

/// Whether a charge is one with the adduct's sign or with no sign.
fn is_single(charge: &Charge, plus: bool) -> bool
    ensures { result ≡ is_carried plus charge.now }
{
    charge.value == 1 && has_sign(charge.sign, plus)
}

/// Whether a sign is the adduct's, or none was written.
fn has_sign(sign: Sign, plus: bool) -> bool
    ensures { result ≡ agrees plus sign }
{
    match sign {
        Sign::Plus => plus,
        Sign::Minus => !plus,
        Sign::Unsigned => true,
    }
}
