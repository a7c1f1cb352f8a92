//! Runs words over a desk in memory, a line each. Below each line stands how the run ended and what it left.
#![tactic(auto)]

mod desks;
mod texts;

use desks::{Case, begun_none, tell};
use fragment_run::run;
use std::alloc::{AllocError, Global};
use std::io;

fn main(rt: HostRuntime) -> io::Result<()> {
    for line in rt.lines(rt.alloc()) {
        let line = line?;
        println!(rt; "{line}")?;
        if let Some((settings, words)) = line.as_str().split_once(" | ") {
            answer(&rt, &Case::of(settings), words)?;
        }
    }
    Ok(())
}

/// Runs words over the desk of a case, and tells what came of it.
fn answer(rt: &HostRuntime, case: &Case, words: &str) -> io::Result<()> {
    let words = words_of(rt.alloc(), words)?;
    let mut desk = begun_none(rt.alloc(), case)?;
    let status = run(rt.alloc(), &words, &mut desk);
    tell(rt, &status, &desk)
}

/// The words of a line, with a space between.
fn words_of(alloc: Global, line: &str) -> Result<Vec<String>, AllocError> {
    let mut words = Vec::new(alloc);
    for word in line.split(' ') {
        words.push(String::from_str(alloc, word)?)?;
    }
    Ok(words)
}
