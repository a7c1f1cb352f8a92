//! Profile texts, and what is read from them.
use profile::{Profile, ProfileError, read_profile};
use std::io;

/// Reads a profile text, and prints the part of the profile that stands before the first bar.
pub fn answer(rt: &HostRuntime, case: &str) -> io::Result<()> {
    let (part, text) = case.split_once('|').unwrap_or((case, ""));
    let text = text.replace(rt.alloc(), "\\n", "\n")?;
    let read = read_profile(rt.alloc(), text.as_bytes());
    tell(rt, part, &read)
}

fn tell(rt: &HostRuntime, part: &str, read: &Result<Profile, ProfileError>) -> io::Result<()> {
    match read {
        Ok(profile) => tell_part(rt, part, profile),
        Err(error) => println!(rt; "  {error:?}"),
    }
}

fn tell_part(rt: &HostRuntime, part: &str, profile: &Profile) -> io::Result<()> {
    match part {
        "limits" => println!(rt; "  {:?}", profile.limits),
        "rules" => println!(rt; "  {:?}\n  {:?}", profile.rules, profile.neutral_rules),
        "scores" => println!(rt; "  {:?}", profile.scores),
        _ => {
            println!(rt;
                "  {} {} {} {}",
                profile.ppm, profile.abs, profile.peaks, profile.budget
            )
        }
    }
}
