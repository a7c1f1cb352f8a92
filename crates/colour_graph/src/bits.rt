//! Sets kept as bits, 64 in a word.
ghost use Rattle.std.specs.Prelude.{◌≡◌, ◌<◌, ◌*◌, ◌==◌, ◌||◌, ◌&&◌, not, ℕ, length};
ghost use Rattle.colour_graph.specs.inside.Bits as bits;

/// Whether the bit of a place is set.
pub(crate) fn is_marked(words: &[u64], place: usize) -> bool
    requires { place < 64 * length words.now }
    ensures { result ≡ bits.is_marked words.now place }
{
    (words[place / 64] >> (place % 64)) & 1 == 1
}

/// Sets the bit of a place.
pub(crate) fn mark(words: &mut [u64], place: usize)
    requires { place < 64 * length words.old }
    ensures { (other : ℕ) → bits.is_marked words.new other ≡ (other == place || bits.is_marked words.old other) }
{
    words[place / 64] |= 1 << (place % 64);
}

/// Clears the bit of a place.
pub(crate) fn unmark(words: &mut [u64], place: usize)
    requires { place < 64 * length words.old }
    ensures { (other : ℕ) → bits.is_marked words.new other ≡ (not (other == place) && bits.is_marked words.old other) }
{
    words[place / 64] &= !(1 << (place % 64));
}
