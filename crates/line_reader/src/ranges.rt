//! The ranges of the numbers of a line.
ghost use Rattle.std.specs.Prelude.{◌≡◌, ◌≤◌, ◌&&◌, IsTrue, nat_le, unsigned_abs};
ghost use Rattle.std.specs.List.{All, list_all};
ghost use Rattle.tree_certificate.specs.Number.{is_near};

/// Whether a number is in its range.
#[inline]
pub fn is_within(number: u64, least: u64, most: u64) -> bool
    ensures test { result ≡ (nat_le least number && nat_le number most) }
    ensures within { IsTrue result → number ≤ most }
{
    least <= number && number <= most
}

/// Whether a number is at most so far from 0.
#[inline]
pub fn is_signed_within(number: i64, most: u64) -> bool
    ensures test { result ≡ is_near most number }
    ensures within { IsTrue result → unsigned_abs number ≤ most }
{
    number.unsigned_abs() <= most
}

/// Whether numbers are at most so far from 0.
pub fn are_signed_within(numbers: &[i64], most: u64) -> bool
    ensures { result ≡ list_all (is_near most) numbers.now }
{
    numbers.iter().all(|number| is_signed_within(*number, most))
}

/// Whether natural numbers are at most so great.
pub fn are_within(numbers: &[u64], most: u64) -> bool
    ensures test { result ≡ list_all (λ number. nat_le number most) numbers.now }
    ensures within { IsTrue result → All (λ number. number ≤ most) numbers.now }
{
    numbers.iter().all(|number| *number <= most)
}
