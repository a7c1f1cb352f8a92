//! The selected peaks of a spectrum.
ghost use Rattle.std.specs.Prelude.{◌≡◌, ◌≤◌, ◌^◌, ℕ, [], IfOk};
ghost use Rattle.std.specs.List.{All, filter};
ghost use Rattle.std.specs.List.Sorted.{IsPermutation, IsSorted};
ghost use Rattle.adducts.specs.inside.Choosing.{chosen_from, interval_of};
ghost use Rattle.adducts.specs.inside.Choosing as choosing;
ghost use Rattle.adducts.specs.Fit.{IsUsable, fit_of};
ghost use Rattle.adducts.specs.declared.outcome.Fit.TheVariants.{Usable};
ghost use Rattle.adducts.specs.Selected.{LiesBelow, Selected, StandApart, has_intensity, rank_cmp};

use crate::choice::{Choice, half_width};
use mgf_reader::{Peak, Spectrum};
use std::alloc::{AllocError, Global};
use std::cmp::Reverse;

/// The numbers from one to another, both of them among these.
#[derive(Clone, Copy)]
struct Interval {
    low: u64,
    high: u64,
}

/// The selected peaks of a spectrum that can be used, by falling m/z. Peaks without intensity are left out. The others
/// are looked at by falling intensity, where that is the same by rising m/z, then by rising line: each is selected
/// whose interval lies wholly below the precursor's and shares no number with that of a peak selected before, until
/// there are as many as the choice allows.
pub fn select_peaks(
    alloc: Global,
    spectrum: &Spectrum,
    choice: &Choice,
) -> Result<Vec<Peak>, AllocError>
    requires { IsUsable (fit_of spectrum.now choice.now) }
    ensures selected { (mz : ℕ) → fit_of spectrum.now choice.now ≡ Usable mz
        → IfOk result (λ selected. Selected choice.now mz spectrum.now.peaks selected.items) }
    ensures stand_apart { (mz : ℕ) → fit_of spectrum.now choice.now ≡ Usable mz
        → IfOk result (λ selected. StandApart choice.now mz spectrum.now.peaks selected.items) }
    ensures below { (mz : ℕ) → fit_of spectrum.now choice.now ≡ Usable mz
        → IfOk result (λ selected. All (λ peak. LiesBelow choice.now peak.mz mz) selected.items) }
{
    let Some(precursor) = spectrum.precursor else {
        unreachable!();
    };
    let ranked = ranked_peaks(alloc, spectrum.peaks.items())?;
    let mut selected = choose(alloc, &ranked, choice, precursor)?;
    selected.sort_unstable_by_key(|peak| Reverse(peak.mz));
    Ok(selected)
}

/// The peaks that have an intensity, the greatest intensity first, then the least m/z, then the first line.
fn ranked_peaks(alloc: Global, peaks: &[Peak]) -> Result<Vec<Peak>, AllocError>
    ensures same_peaks { IfOk result (λ ranked. IsPermutation (filter has_intensity peaks.now) ranked.items) }
    ensures in_order { IfOk result (λ ranked. IsSorted rank_cmp ranked.items) }
{
    let mut ranked = Vec::from_slice(alloc, peaks)?;
    ranked.retain(|peak| peak.intensity > 0);
    ranked.sort_unstable_by_key(|peak| (Reverse(peak.intensity), peak.mz, peak.line));
    Ok(ranked)
}

/// The ranked peaks that are selected, in their order.
fn choose(
    alloc: Global,
    ranked: &[Peak],
    choice: &Choice,
    precursor: u64,
) -> Result<Vec<Peak>, AllocError>
    requires { precursor ≤ 10 ^ 18 }
    ensures { IfOk result (λ chosen. chosen.items ≡ chosen_from choice.now precursor [] ranked.now) }
{
    let top = interval_at(choice, precursor);
    let mut chosen = Vec::new(alloc);
    let mut taken = Vec::new(alloc);
    for peak in ranked {
        let interval = interval_at(choice, peak.mz);
        if chosen.len() < choice.peaks as usize && is_free(interval, top, &taken) {
            chosen.push(*peak)?;
            taken.push(interval)?;
        }
    }
    Ok(chosen)
}

/// Whether an interval lies wholly below the precursor's and shares no number with those that are taken.
fn is_free(interval: Interval, precursor: Interval, taken: &[Interval]) -> bool
    ensures { result ≡ choosing.is_free interval precursor taken.now }
{
    interval.high < precursor.low && taken.iter().all(|other| are_apart(interval, *other))
}

/// Whether two intervals share no number.
fn are_apart(one: Interval, other: Interval) -> bool
    ensures { result ≡ choosing.is_apart one other }
{
    one.high < other.low || other.high < one.low
}

/// The interval of an m/z: the numbers at most half a window's width away from it.
fn interval_at(choice: &Choice, mz: u64) -> Interval
    requires { mz ≤ 10 ^ 18 }
    ensures { result ≡ interval_of choice.now mz }
{
    let half = half_width(choice, mz);
    Interval {
        low: mz.saturating_sub(half),
        high: mz + half,
    }
}
