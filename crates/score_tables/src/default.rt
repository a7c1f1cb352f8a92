//! The tables that count where a profile gives no others.
ghost use Rattle.std.specs.Prelude.{◌≡◌, ◌++◌, IfOk, map, replicate};
ghost use Rattle.score_tables.specs.Default.{default_tables};

use element_table::Formula;
use std::alloc::{AllocError, Global};

/// How many H, C, N, O, P, S, F and Cl a loss has, and its score.
type Loss = ([u8; 8], i16);

/// The scores of peaks: from so many thousandths of the greatest intensity on.
const DEFAULT_INTENSITY: [(u16, i16); 5] = [(500, 30), (200, 24), (50, 16), (10, 8), (0, 2)];

/// The scores of errors: up to so many thousandths of half the width of a window.
const DEFAULT_ERROR: [(u16, i16); 4] = [(200, 10), (500, 6), (800, 2), (1_000, -4)];

/// The scores of losses that are known to be common.
const DEFAULT_NAMED: [Loss; 22] = [
    // H2O, CO, CO2, H3N
    ([2, 0, 0, 1, 0, 0, 0, 0], 12),
    ([0, 1, 0, 1, 0, 0, 0, 0], 10),
    ([0, 1, 0, 2, 0, 0, 0, 0], 10),
    ([3, 0, 1, 0, 0, 0, 0, 0], 10),
    // CHN, CH2O, CH4O, CH2O2
    ([1, 1, 1, 0, 0, 0, 0, 0], 8),
    ([2, 1, 0, 1, 0, 0, 0, 0], 8),
    ([4, 1, 0, 1, 0, 0, 0, 0], 8),
    ([2, 1, 0, 2, 0, 0, 0, 0], 8),
    // C2H2, C2H4, C2H2O, C2H4O2
    ([2, 2, 0, 0, 0, 0, 0, 0], 4),
    ([4, 2, 0, 0, 0, 0, 0, 0], 6),
    ([2, 2, 0, 1, 0, 0, 0, 0], 8),
    ([4, 2, 0, 2, 0, 0, 0, 0], 6),
    // C3H6, C4H8, HCl, HF
    ([6, 3, 0, 0, 0, 0, 0, 0], 4),
    ([8, 4, 0, 0, 0, 0, 0, 0], 4),
    ([1, 0, 0, 0, 0, 0, 0, 1], 8),
    ([1, 0, 0, 0, 0, 0, 1, 0], 8),
    // H2S, O2S, O3S
    ([2, 0, 0, 0, 0, 1, 0, 0], 6),
    ([0, 0, 0, 2, 0, 1, 0, 0], 6),
    ([0, 0, 0, 3, 0, 1, 0, 0], 6),
    // HO3P, H3O4P, CH3
    ([1, 0, 0, 3, 1, 0, 0, 0], 8),
    ([3, 0, 0, 4, 1, 0, 0, 0], 8),
    ([3, 1, 0, 0, 0, 0, 0, 0], 0),
];

/// What is added for losses that hardly occur.
const DEFAULT_IMPLAUSIBLE: [Loss; 6] = [
    // C, C2, N, O, O2, N2
    ([0, 1, 0, 0, 0, 0, 0, 0], -30),
    ([0, 2, 0, 0, 0, 0, 0, 0], -30),
    ([0, 0, 1, 0, 0, 0, 0, 0], -30),
    ([0, 0, 0, 1, 0, 0, 0, 0], -20),
    ([0, 0, 0, 2, 0, 0, 0, 0], -20),
    ([0, 0, 2, 0, 0, 0, 0, 0], -10),
];

/// What is added for a radical: a loss of which twice the number of rings and double bonds is odd.
pub const DEFAULT_RADICAL: i16 = -12;

/// What is added for a loss of which that number is below 0.
pub const DEFAULT_NEGATIVE: i16 = -40;

/// The mass for which a loss costs one, in units of 10^-7 Da.
pub const DEFAULT_SIZE: u32 = 200_000_000;

/// The default scores of peaks: from so many thousandths of the greatest intensity on.
pub fn default_intensity(alloc: Global) -> Result<Vec<(u16, i16)>, AllocError>
    ensures { IfOk result (λ pairs. pairs.items ≡ default_tables.intensity) }
{
    Vec::from_slice(alloc, &DEFAULT_INTENSITY)
}

/// The default scores of errors: up to so many thousandths of half the width of a window.
pub fn default_error(alloc: Global) -> Result<Vec<(u16, i16)>, AllocError>
    ensures { IfOk result (λ pairs. pairs.items ≡ default_tables.error) }
{
    Vec::from_slice(alloc, &DEFAULT_ERROR)
}

/// The default scores of named losses.
pub fn default_named(alloc: Global) -> Result<Vec<(Formula, i16)>, AllocError>
    ensures { IfOk result (λ losses. losses.items ≡ default_tables.named) }
{
    losses_of(alloc, &DEFAULT_NAMED)
}

/// The default scores of losses that hardly occur.
pub fn default_implausible(alloc: Global) -> Result<Vec<(Formula, i16)>, AllocError>
    ensures { IfOk result (λ losses. losses.items ≡ default_tables.implausible) }
{
    losses_of(alloc, &DEFAULT_IMPLAUSIBLE)
}

/// The table of some losses.
fn losses_of(alloc: Global, losses: &[Loss]) -> Result<Vec<(Formula, i16)>, AllocError>
    ensures { IfOk result (λ table. table.items ≡ map (λ loss. (loss.0 ++ replicate 8 0, loss.1)) losses.now) }
{
    losses
        .iter()
        .map(|(counts, score)| (formula_of(counts), *score))
        .collect(alloc)
}

/// The formula of so many H, C, N, O, P, S, F and Cl.
fn formula_of(counts: &[u8; 8]) -> Formula
    ensures { result ≡ counts.now ++ replicate 8 0 }
{
    let [h, c, n, o, p, s, f, cl] = *counts;
    Formula::empty()
        .with(0, u16::from(h))
        .with(1, u16::from(c))
        .with(2, u16::from(n))
        .with(3, u16::from(o))
        .with(4, u16::from(p))
        .with(5, u16::from(s))
        .with(6, u16::from(f))
        .with(7, u16::from(cl))
}
