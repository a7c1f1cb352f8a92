//! What a number of a table is to be at least, by a walk over the parts of a set of colours that a head may need.
ghost use Rattle.std.specs.Prelude.{◌<◌, length};
ghost use Rattle.certificate_checker.specs.inside.Enough.{AreGainsBelow, AreNumbersBelow, AreUseful};
ghost use Rattle.tree_certificate.specs.Enough.{IsRaised};
ghost use Rattle.certificate_checker.specs.inside.Enough.{IsGain, IsLeastEnough, IsNumber};

/// The least number that is enough for a set, by a walk over all its parts that a head may need, the greatest first.
pub(crate) fn least_enough(own: &[i64], gains: &[i64], useful: usize, set: usize) -> i64
    requires room { (set < length own.now) × (set < length gains.now) }
    requires numbers { AreNumbersBelow own.now (length own.now) }
    requires gains { AreGainsBelow gains.now (length own.now) }
    requires useful { AreUseful own.now gains.now (length own.now) useful }
    ensures { IsLeastEnough own.now gains.now set result }
{
    let whole = own[set];
    let mut most = raised(whole, gains[0], whole);
    let parts = set & useful;
    let mut part = parts;
    while part > 0 {
        most = raised(most, gains[part], own[set - part]);
        part = (part - 1) & parts;
    }
    most
}

/// The greater of a number and the sum of two others.
#[inline(always)]
fn raised(most: i64, gain: i64, rest: i64) -> i64
    requires gain { IsGain gain }
    requires rest { IsNumber rest }
    ensures { IsRaised result most gain rest }
{
    let sum = gain + rest;
    if sum > most { sum } else { most }
}
