//! Answers cases, a line each: the kind of a case stands before its first bar. Below each line stands what is answered.
#![tactic(auto)]

mod desk_cases;
mod mgf_cases;
mod profile_cases;

use std::io;

fn main(rt: HostRuntime) -> io::Result<()> {
    for line in rt.lines(rt.alloc()) {
        let case = line?;
        println!(rt; "{case}")?;
        answer(&rt, case.as_str())?;
    }
    Ok(())
}

/// Prints what is answered to a case. A line without a bar is a remark.
fn answer(rt: &HostRuntime, case: &str) -> io::Result<()> {
    match case.split_once('|') {
        Some((kind, rest)) => answer_kind(rt, kind, rest),
        None => Ok(()),
    }
}

fn answer_kind(rt: &HostRuntime, kind: &str, case: &str) -> io::Result<()> {
    match kind {
        "mgf" => mgf_cases::answer(rt, case),
        "kind" => mgf_cases::answer_kind(rt, case),
        "copy" => desk_cases::answer(rt, case),
        "profile" => profile_cases::answer(rt, case),
        _ => println!(rt; "  no such kind"),
    }
}
