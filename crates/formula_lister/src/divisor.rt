//! Division by a number that is divided by many times: by a product in place of a division, which takes longer.
ghost use Rattle.std.specs.Prelude.{◌≡◌, ◌≤◌, ◌<◌, ◌+◌, ◌*◌, ◌^◌};
ghost use Rattle.formula_lister.specs.inside.Dividing.{IsInverse};

/// A number to divide by, with how often it is in 2^64 - 1.
#[derive(Clone, Copy)]
pub(crate) struct Divisor {
    pub number: u64,
    inverse: u64,
    ghost right: { IsInverse number inverse },
}

impl Divisor {
    /// The divisor of a positive number.
    pub fn of(number: u64) -> Divisor
        requires { 0 < number }
        ensures { result.number ≡ number }
    {
        Divisor {
            number,
            inverse: u64::MAX / number,
        }
    }

    /// How often the number is in another.
    #[inline]
    pub fn quotient(&self, dividend: u64) -> u64
        ensures not_more { result * self.now.number ≤ dividend }
        ensures not_less { dividend < result * self.now.number + self.now.number }
    {
        // The product of the shares is too small by one at most.
        let share = u128::from(dividend) * u128::from(self.inverse) / (1 << 64);
        let least = share as u64;
        if dividend - least * self.number < self.number {
            least
        } else {
            least + 1
        }
    }

    /// How many of the number are no less than another.
    #[inline]
    pub fn rounded_up(&self, dividend: u64) -> u64
        requires small { self.now.number < 2 ^ 32 }
        requires light { dividend < 2 ^ 63 }
        ensures not_less { dividend ≤ result * self.now.number }
        ensures not_more { result * self.now.number < dividend + self.now.number }
    {
        self.quotient(dividend + (self.number - 1))
    }
}
