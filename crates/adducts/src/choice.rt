//! The choice of an adduct and of the width of windows.
ghost use Rattle.std.specs.Prelude.{◌≡◌, ◌≤◌, ◌^◌};
ghost use Rattle.element_table.specs.Window.{greatest_half_width, half_width_of, window_of};

use crate::adduct::{Adduct, neutral};
use element_table::Window;

/// Half the width of a window is at most 0.2 Da.
const GREATEST_HALF_WIDTH: u128 = 2_000_000;

/// What a spectrum is read with: the adduct, half the width of a window in parts per million of the m/z and its least
/// value in units of 10^-7 Da, and the greatest number of selected peaks.
#[derive(Clone, Copy, Debug, PartialEq, Eq)]
pub struct Choice {
    pub adduct: Adduct,
    pub ppm: u32,
    pub abs: u32,
    pub peaks: u32,
}

/// Half the width of the window at an m/z, in units of 10^-7 Da.
pub fn half_width(choice: &Choice, mz: u64) -> u64
    requires { mz ≤ 10 ^ 18 }
    ensures width { result ≡ half_width_of choice.now.ppm choice.now.abs mz }
    ensures capped { result ≤ greatest_half_width }
{
    let parts = u128::from(mz) * u128::from(choice.ppm) / 1_000_000;
    parts.max(u128::from(choice.abs)).min(GREATEST_HALF_WIDTH) as u64
}

/// The window of the formulas that an ion of this m/z may have.
pub fn window(choice: &Choice, mz: u64) -> Window
    requires { mz ≤ 10 ^ 18 }
    ensures { result ≡ window_of choice.now.adduct.shift choice.now.ppm choice.now.abs mz }
{
    Window {
        centre: neutral(&choice.adduct, mz),
        half: half_width(choice, mz),
    }
}
