//! Numbers of texts.
ghost use Rattle.std.specs.Prelude.{◌≤ℤ◌, negsuc, pos};

use std::alloc::{AllocError, Global};

/// The number of a word, and 0 where it is none.
pub fn number(word: &str) -> i64 {
    word.trim().parse().unwrap_or(0)
}

/// The number of a vertex, a colour or an edge, and 0 where it is none.
pub fn place(word: &str) -> u16 {
    word.trim().parse().unwrap_or(0)
}

/// The score of a word, and 0 where it is none.
pub fn score(word: &str) -> i32
    ensures not_below { negsuc 99999 ≤ℤ result }
    ensures not_above { result ≤ℤ pos 100000 }
{
    let score: i32 = word.trim().parse().unwrap_or(0);
    score.clamp(-100_000, 100_000)
}

/// The numbers of words.
pub fn numbers(alloc: Global, text: &str) -> Result<Vec<i64>, AllocError> {
    let mut numbers = Vec::new(alloc);
    for word in text.split_whitespace() {
        numbers.push(number(word))?;
    }
    Ok(numbers)
}
