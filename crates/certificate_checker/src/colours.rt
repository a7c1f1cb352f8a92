//! Which of the colours behind one matter for a vertex's numbers: in most graphs few do, and only these are walked
//! over.
ghost use Rattle.std.specs.Prelude.{◌≡◌, ◌≤◌, ◌<◌, ◌+◌, ◌*◌, ◌%◌, ◌≤ℤ◌, IsTrue, length};
ghost use Rattle.std.specs.Int.{IsPowerOfTwo};
ghost use Rattle.certificate_checker.specs.inside.Enough.{AddsNothing, AddsNothingFrom, AreGainsBelow};
ghost use Rattle.certificate_checker.specs.inside.Enough.{AreNumbersBelow, AreTelling, AreUseful};
ghost use Rattle.certificate_checker.specs.inside.Enough.{RaisesNothing, RaisesNothingFrom};

/// The colours behind one that matter, each kind as the place of its set.
#[derive(Clone, Copy)]
pub(crate) struct Colours {
    /// Those that a head may need.
    pub(crate) useful: usize,
    /// Those that make any difference.
    pub(crate) telling: usize,
}

/// The colours that matter, by a vertex's numbers for the sets of the colours behind one and by what the edges from it
/// into that colour gain.
pub(crate) fn colours_of(own: &[i64], gains: &[i64]) -> Colours
    requires room { length own.now ≡ length gains.now }
    requires sets { IsPowerOfTwo (length own.now) }
    requires numbers { AreNumbersBelow own.now (length own.now) }
    requires gains { AreGainsBelow gains.now (length own.now) }
    ensures useful { AreUseful own.now gains.now (length own.now) result.useful }
    ensures telling { AreTelling own.now gains.now (length own.now) result.telling }
{
    let mut useful = 0;
    let mut telling = 0;
    let mut colour = 1;
    while colour < own.len() {
        if !adds_nothing(own, gains, colour) {
            useful += colour;
            telling += colour;
        } else if !raises_nothing(own, colour) {
            telling += colour;
        }
        colour *= 2;
    }
    Colours { useful, telling }
}

/// Whether a colour, given by the set of it alone, adds nothing wherever it is in a set: no more is gained with it than
/// without it, and the number for a set without it is no greater. The sets that have it stand in blocks; the loops over
/// these stay in registers where they stand alone.
#[inline(never)]
fn adds_nothing(own: &[i64], gains: &[i64], colour: usize) -> bool
    requires room { length own.now ≡ length gains.now }
    requires blocks { (0 < colour) × (length own.now % (2 * colour) ≡ 0) }
    requires numbers { AreNumbersBelow own.now (length own.now) }
    requires gains { AreGainsBelow gains.now (length own.now) }
    ensures { IsTrue result → AddsNothing own.now gains.now (length own.now) colour }
{
    let mut base = colour;
    while base < own.len() {
        if !adds_nothing_from(own, gains, colour, base) {
            return false;
        }
        base += 2 * colour;
    }
    true
}

/// Whether a colour adds nothing to the sets from one on, as many as stand in a block.
#[inline(always)]
fn adds_nothing_from(own: &[i64], gains: &[i64], colour: usize, base: usize) -> bool
    requires room { length own.now ≡ length gains.now }
    requires block { (colour ≤ base) × (base + colour ≤ length own.now) }
    requires numbers { AreNumbersBelow own.now (length own.now) }
    requires gains { AreGainsBelow gains.now (length own.now) }
    ensures { IsTrue result → AddsNothingFrom own.now gains.now base (base + colour) colour }
{
    for place in base..base + colour {
        if !is_no_gain(
            gains[place],
            gains[place - colour],
            own[place],
            own[place - colour],
        ) {
            return false;
        }
    }
    true
}

/// Whether what is gained with a colour is no more than without it, and a number without it no greater than with it.
#[inline(always)]
fn is_no_gain(gain: i64, gain_without: i64, number: i64, number_without: i64) -> bool
    ensures { IsTrue result → (gain ≤ℤ gain_without) × (number_without ≤ℤ number) }
{
    gain <= gain_without && number_without <= number
}

/// Whether no number for a set with a colour, given by the set of it alone, is greater than the one for the set
/// without.
#[inline(never)]
fn raises_nothing(numbers: &[i64], colour: usize) -> bool
    requires blocks { (0 < colour) × (length numbers.now % (2 * colour) ≡ 0) }
    requires numbers { AreNumbersBelow numbers.now (length numbers.now) }
    ensures { IsTrue result → RaisesNothing numbers.now (length numbers.now) colour }
{
    let mut base = colour;
    while base < numbers.len() {
        if !raises_nothing_from(numbers, colour, base) {
            return false;
        }
        base += 2 * colour;
    }
    true
}

/// Whether no number for a set from one on, as many as stand in a block, is greater than the one without the colour.
#[inline(always)]
fn raises_nothing_from(numbers: &[i64], colour: usize, base: usize) -> bool
    requires block { (colour ≤ base) × (base + colour ≤ length numbers.now) }
    requires numbers { AreNumbersBelow numbers.now (length numbers.now) }
    ensures { IsTrue result → RaisesNothingFrom numbers.now base (base + colour) colour }
{
    for place in base..base + colour {
        if numbers[place] > numbers[place - colour] {
            return false;
        }
    }
    true
}
