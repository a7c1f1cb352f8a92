//! What a parameter line sets, and what a peak line says.
ghost use Rattle.std.specs.Prelude.{◌≡◌, Some, None, IfOk, IfErr, IfSome, reverse};
ghost use Rattle.mgf_reader.specs.Bytes.{fields_of};
ghost use Rattle.mgf_reader.specs.Parameter.{charge_from_end, charge_of, charges_of, parameter_fault};
ghost use Rattle.mgf_reader.specs.Parameter.{precursor_units, sign_of, signed};
ghost use Rattle.mgf_reader.specs.PeakLine.{intensity_of, peak_of};
ghost use Rattle.mgf_reader.specs.declared.fault.MgfKind.TheVariants.{BadCharge};
ghost use Rattle.mgf_reader.specs.inside.Line.{Says, kind_of};

use crate::bytes::{ByteClass, first_field};
use crate::spectrum::{Charge, Peak, Sign};
use fixed_mass::{read_digits, read_units};
use std::alloc::Global;

/// The scale of m/z: units of 10^-7.
const MZ_SCALE: u8 = 7;

/// The scale of intensities: units of 10^-6.
const INTENSITY_SCALE: u8 = 6;

/// The intensity of a peak line that gives none: 1.
const DEFAULT_INTENSITY: u64 = 1_000_000;

/// How many digits a charge may have.
const GREATEST_CHARGE_DIGITS: usize = 3;

/// What a parameter line sets.
#[derive(Drop)]
pub enum Setting<'a> {
    /// The title.
    Title(&'a [u8]),
    /// The m/z of the precursor in units of 10^-7.
    Precursor(u64),
    /// The charges, none of them of value 0.
    Charges(Vec<Charge>),
    /// A key that does not count, or an empty value of one that does.
    Nothing,
}

/// Why a parameter line is refused.
#[derive(Clone, Copy, Debug, PartialEq, Eq)]
pub enum SettingFault {
    /// The numeral of `PEPMASS` is refused.
    BadPrecursor,
    /// An item of `CHARGE` is refused.
    BadCharge,
    /// There was no memory.
    OutOfMemory,
}

/// What a parameter line sets.
pub fn read_setting<'a>(
    alloc: Global,
    key: &[u8],
    value: &'a [u8],
) -> Result<Setting<'a>, SettingFault>
    ensures right { IfOk result (λ setting.
        (parameter_fault key.now value.now ≡ None) × Says key.now value.now setting) }
    ensures refused { IfErr result (λ fault.
        IfSome (kind_of fault) (λ kind. parameter_fault key.now value.now ≡ Some kind)) }
{
    if key.eq_ignore_ascii_case(b"TITLE") {
        return Ok(Setting::Title(value));
    }
    if value.is_empty() {
        return Ok(Setting::Nothing);
    }
    if key.eq_ignore_ascii_case(b"PEPMASS") {
        let units = read_precursor(value).ok_or(SettingFault::BadPrecursor)?;
        return Ok(Setting::Precursor(units));
    }
    if key.eq_ignore_ascii_case(b"CHARGE") {
        return Ok(Setting::Charges(read_charges(alloc, value)?));
    }
    Ok(Setting::Nothing)
}

/// The m/z of a precursor: the first field of its value. None where its numeral is refused.
fn read_precursor(value: &[u8]) -> Option<u64>
    ensures { result ≡ precursor_units value.now }
{
    let (field, _) = first_field(ByteClass::Blank, value)?;
    read_units(field, MZ_SCALE).ok()
}

/// The charges of a value, in its order, but for those of value 0.
fn read_charges(alloc: Global, value: &[u8]) -> Result<Vec<Charge>, SettingFault>
    ensures right { IfOk result (λ charges. charges_of value.now ≡ Some charges.items) }
    ensures refused { IfErr result (λ fault.
        IfSome (kind_of fault) (λ kind. (kind ≡ BadCharge) × (charges_of value.now ≡ None))) }
{
    let mut charges = Vec::new(alloc);
    let mut left = value;
    while let Some((item, rest)) = first_field(ByteClass::Gap, left) {
        left = rest;
        if item.eq_ignore_ascii_case(b"and") {
            continue;
        }
        let Some(charge) = read_charge(item) else {
            return Err(SettingFault::BadCharge);
        };
        if charge.value > 0 && charges.push(charge).is_err() {
            return Err(SettingFault::OutOfMemory);
        }
    }
    Ok(charges)
}

/// One item of a list of charges: one to three digits, with at most one sign directly before or behind them.
fn read_charge(item: &[u8]) -> Option<Charge>
    ensures { result ≡ charge_of item.now }
{
    let [first, rest @ ..] = item else {
        return None;
    };
    match sign_of(*first) {
        Some(sign) => signed(rest, sign),
        None => read_from_end(item),
    }
}

/// A charge whose sign, where it has one, stands behind its digits.
fn read_from_end(item: &[u8]) -> Option<Charge>
    ensures { result ≡ charge_from_end (reverse item.now) }
{
    let [before @ .., last] = item else {
        return None;
    };
    match sign_of(*last) {
        Some(sign) => signed(before, sign),
        None => signed(item, Sign::Unsigned),
    }
}

/// The sign that a byte is, where it is one.
fn sign_of(byte: u8) -> Option<Sign>
    ensures { result ≡ sign_of byte }
{
    match byte {
        b'+' => Some(Sign::Plus),
        b'-' => Some(Sign::Minus),
        _ => None,
    }
}

/// A charge of one to three digits and a sign.
fn signed(digits: &[u8], sign: Sign) -> Option<Charge>
    ensures { result ≡ signed digits.now sign }
{
    if digits.len() > GREATEST_CHARGE_DIGITS {
        return None;
    }
    let value = read_digits(digits)?;
    Some(Charge {
        value: value as u16,
        sign,
    })
}

/// The peak of a peak line of this number; none where a numeral of it is refused.
pub fn read_peak(bytes: &[u8], line: u32) -> Option<Peak>
    ensures { result ≡ peak_of line (fields_of bytes.now) }
{
    let (field, rest) = first_field(ByteClass::Blank, bytes)?;
    let mz = read_units(field, MZ_SCALE).ok()?;
    let intensity = read_intensity(rest)?;
    Some(Peak {
        mz,
        intensity,
        line,
    })
}

/// The intensity behind the m/z of a peak line: its next field, or 1 where there is none.
fn read_intensity(bytes: &[u8]) -> Option<u64>
    ensures { result ≡ intensity_of (fields_of bytes.now) }
{
    match first_field(ByteClass::Blank, bytes) {
        Some((field, _)) => read_units(field, INTENSITY_SCALE).ok(),
        None => Some(DEFAULT_INTENSITY),
    }
}
