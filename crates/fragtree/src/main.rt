//! The program: takes the words from the system, runs them over its files and its standard output, tells on standard
//! error how the run ended, and ends with the status's code.
#![tactic(auto)]

use frag_io::RealDesk;
use fragment_run::{Status, fault_text, run};
use std::alloc::AllocError;
use std::env::Env;
use std::io::ErrorKind;
use std::process::ExitCode;
use std::{env, io, str};

/// The code where the words cannot be had from the system.
const NO_WORDS: u8 = 16;

fn main(rt: HostRuntime) -> ExitCode {
    match words(&rt) {
        Ok(words) => {
            let status = run(rt.alloc(), &words, &mut RealDesk::new(&rt));
            tell(&rt, &status);
            ExitCode::from(status.code())
        }
        Err(error) if error.kind() == ErrorKind::OutOfMemory => {
            tell(&rt, &Status::Memory);
            ExitCode::from(Status::Memory.code())
        }
        Err(_) => {
            let _ = rt.eprintln("words: cannot be had");
            ExitCode::from(NO_WORDS)
        }
    }
}

/// The words after the program's name.
fn words(rt: &(impl Env + AllocGlobal)) -> io::Result<Vec<String>> {
    let mut words = env::args(rt)?;
    let _name = words.next();
    Ok(words.collect(rt.alloc())?)
}

/// Prints the line of a status on standard error. Where there is no memory for it, nothing is printed.
fn tell(rt: &(impl Eprint + AllocGlobal), status: &Status) {
    if let Ok(line) = fault_text(rt.alloc(), status) {
        if let Ok(text) = str::from_utf8(&line) {
            let _ = rt.eprint(text);
        }
    }
}
