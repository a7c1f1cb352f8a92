//! What comes of asking whether a spectrum can be used.

/// Whether a spectrum can be used under a choice: the first reason against it, or the m/z of its precursor in units of
/// 10^-7.
#[derive(Clone, Copy, Debug, PartialEq, Eq)]
pub enum Fit {
    /// It has no precursor.
    NoPrecursor,
    /// It names charges, and none of them is one with the adduct's sign or no sign.
    Charge,
    /// The neutral mass of the precursor of this m/z is not between 1 and 20,000,000,000 units of 10^-7 Da.
    Range(u64),
    Usable(u64),
}
