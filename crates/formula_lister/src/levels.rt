//! How the counts of two elements go together. An atom of the one is taken as so many of the other as weigh more than
//! it does, by a defect. Counts of both then have a level, the number of atoms of the other alone, and their mass is
//! that of the level without the defects.
ghost use Rattle.std.specs.Prelude.{◌≤◌, ◌<◌, ◌*◌, ◌+◌, ◌-◌, ◌≡◌, ◌^◌, ℕ};
ghost use Rattle.element_table.specs.Elements.{heaviest_atom};
ghost use Rattle.element_table.specs.Window.{greatest_half_width};
ghost use Rattle.formula_lister.specs.inside.Elements.{ArePaired};
ghost use Rattle.formula_lister.specs.inside.Levels.{Fits, IsLevel, IsPair};

use crate::chosen::Bounds;
use crate::divisor::Divisor;
use crate::element::Element;

/// What an element is in atoms of another.
#[derive(Clone, Copy)]
pub(crate) struct Levels {
    /// The least number of atoms of the other that weigh more than an atom of the element.
    pub per: u64,
    /// By how much they do, in units of 10^-7 Da.
    pub defect: Divisor,
    /// How many defects an atom of the other holds.
    pub jump: u64,
    /// What it holds beside them.
    pub spare: u64,
}

impl Levels {
    /// An element in atoms of another, by the masses of both.
    pub fn of(mass: u64, other: u64) -> Levels
        requires light { mass ≤ heaviest_atom }
        requires heavy { 2 * greatest_half_width < other }
        requires other_light { other ≤ heaviest_atom }
        ensures { ArePaired mass other result }
    {
        let per = mass / other + 1;
        let defect = per * other - mass;
        Levels {
            per,
            defect: Divisor::of(defect),
            jump: other / defect,
            spare: other % defect,
        }
    }
}

/// A count of an element, and a level: so much is over of the greatest mass beside both, less than an atom of the other.
#[derive(Clone, Copy)]
pub(crate) struct Rest {
    pub count: u64,
    pub level: u64,
    pub over: u64,
}

impl Rest {
    /// The rest at the first count that may reach the window, beside the mass that is chosen.
    #[inline]
    pub fn first(bounds: &Bounds, chosen: u64, next: &Element, last: &Element) -> Rest
        requires pair { IsPair next.now last.now }
        requires light { chosen ≤ bounds.now.most }
        ensures level { IsLevel bounds.now.most chosen next.now last.now result }
        ensures none { (count atoms : ℕ) → Fits bounds.now.least bounds.now.most chosen next.now last.now count atoms
            → result.count ≤ count }
    {
        let level = first_level(bounds.least.saturating_sub(chosen), next, last);
        let weight = level * last.mass;
        let rest = bounds.most - chosen;
        let count = next.levels.defect.rounded_up(weight.saturating_sub(rest));
        Rest {
            count,
            level,
            over: rest + count * next.levels.defect.number - weight,
        }
    }

    /// The rest at the next count that may reach the window. All counts between leave over more than the window is wide.
    #[inline]
    pub fn next(&self, next: &Element, last: &Element, width: u64) -> Rest
        requires pair { IsPair next.now last.now }
        requires over { self.now.over < last.now.mass }
        requires narrow { width ≤ 2 * greatest_half_width }
        requires few { self.now.count ≤ 2 ^ 32 }
        requires low { self.now.level ≤ 2 ^ 62 }
        ensures same { result.level * last.now.mass + result.over + self.now.count * next.now.levels.defect.number
            ≡ self.now.level * last.now.mass + self.now.over + result.count * next.now.levels.defect.number }
        ensures over { result.over < last.now.mass }
        ensures further { self.now.count < result.count }
        ensures none { (count level over : ℕ) → over ≤ width → self.now.count < count
            → level * last.now.mass + over + self.now.count * next.now.levels.defect.number
            ≡ self.now.level * last.now.mass + self.now.over + count * next.now.levels.defect.number
            → result.count ≤ count }
    {
        let levels = &next.levels;
        let defect = levels.defect.number;
        let over = self.over + defect;
        if self.over < defect && width < over {
            Rest {
                count: self.count + levels.jump + borrowed(self.over, levels.spare),
                level: self.level + 1,
                over: left_over(self.over, levels.spare, defect),
            }
        } else if over < last.mass {
            Rest {
                count: self.count + 1,
                level: self.level,
                over,
            }
        } else {
            Rest {
                count: self.count + 1,
                level: self.level + 1,
                over: over - last.mass,
            }
        }
    }
}

/// The least level of counts that may have a mass, the atoms of the last element being within their limit.
#[inline]
fn first_level(least: u64, next: &Element, last: &Element) -> u64
    requires pair { IsPair next.now last.now }
    requires light { least ≤ 10 ^ 11 }
    ensures enough { least ≤ result * last.now.mass }
    ensures few { result ≤ 10 ^ 9 }
    ensures none { (count atoms : ℕ) → atoms ≤ last.now.limit
        → least ≤ count * next.now.mass + atoms * last.now.mass
        → result ≤ next.now.levels.per * count + atoms }
{
    if least <= next.after {
        last.divisor.rounded_up(least)
    } else {
        let atoms = next.levels.per * (least - next.after);
        last.limit + next.divisor.rounded_up(atoms)
    }
}

/// One, if a part is greater than what it is taken from.
#[inline]
fn borrowed(over: u64, part: u64) -> u64
    ensures one { over < part → result ≡ 1 }
    ensures none { part ≤ over → result ≡ 0 }
    ensures few { result ≤ 1 }
{
    if over < part { 1 } else { 0 }
}

/// What a mass leaves over its parts of one size, less a smaller part.
#[inline]
fn left_over(over: u64, part: u64, size: u64) -> u64
    requires light { size < 2 ^ 32 }
    requires over { over < size }
    requires part { part < size }
    ensures enough { part ≤ over → result + part ≡ over }
    ensures borrowed { over < part → result + part ≡ over + size }
{
    // Where less is left over than the part, the first difference wraps round and is the greater one.
    over.wrapping_sub(part).min(over + (size - part))
}
