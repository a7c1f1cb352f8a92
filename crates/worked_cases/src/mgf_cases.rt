//! Texts in pieces, and what a reader answers to them; and the kinds of refusal.
ghost use Rattle.std.specs.Prelude.{◌≡◌, false};

use mgf_reader::{MgfKind, Reader, Spectrum};
use std::alloc::{AllocError, Global};
use std::io;

/// How many bytes a line may have.
const GREATEST_LINE: usize = 65_536;

/// Feeds pieces, which bars part, to a reader, and ends the text. Prints what each call answers, and the spectra that
/// wait behind it.
pub fn answer(rt: &HostRuntime, pieces: &str) -> io::Result<()> {
    let mut reader = Reader::new(rt.alloc())?;
    read(rt, &mut reader, pieces)
}

fn read(rt: &HostRuntime, reader: &mut Reader, pieces: &str) -> io::Result<()>
    requires { reader.old.ended ≡ false }
{
    feed_all(rt, reader, pieces)?;
    end(rt, reader)?;
    hand_out(rt, reader)
}

fn end(rt: &HostRuntime, reader: &mut Reader) -> io::Result<()>
    requires { reader.old.ended ≡ false }
{
    let ended = reader.end();
    println!(rt; "  {ended:?}")
}

fn feed_all(rt: &HostRuntime, reader: &mut Reader, pieces: &str) -> io::Result<()>
    requires { reader.old.ended ≡ false }
    ensures { reader.new.ended ≡ false }
{
    for piece in pieces.split('|') {
        let text = text_of(rt.alloc(), piece)?;
        feed(rt, reader, text.as_bytes())?;
    }
    Ok(())
}

/// The text of a piece, in which `\n` stands for a line feed, and `\k` for as many marks of a comment as a line may have.
fn text_of(alloc: Global, piece: &str) -> Result<String, AllocError> {
    let text = piece.replace(alloc, "\\n", "\n")?;
    let long = "#".repeat(alloc, GREATEST_LINE)?;
    text.replace(alloc, "\\k", long.as_str())
}

fn feed(rt: &HostRuntime, reader: &mut Reader, piece: &[u8]) -> io::Result<()>
    requires { reader.old.ended ≡ false }
    ensures { reader.new.ended ≡ false }
{
    if piece.len() >= reader.room() {
        return println!(rt; "  no room");
    }
    let answer = reader.feed(piece);
    println!(rt; "  {answer:?}")?;
    hand_out(rt, reader)
}

fn hand_out(rt: &HostRuntime, reader: &mut Reader) -> io::Result<()>
    ensures { reader.new.ended ≡ reader.old.ended }
{
    while let Some(spectrum) = reader.next() {
        tell(rt, &spectrum)?;
    }
    Ok(())
}

fn tell(rt: &HostRuntime, spectrum: &Spectrum) -> io::Result<()> {
    println!(rt; "  {spectrum:?}")
}

/// Prints the kind of a number, its number, its word, and the kind of that word.
pub fn answer_kind(rt: &HostRuntime, number: &str) -> io::Result<()> {
    match MgfKind::of_number(number.parse().unwrap_or(0)) {
        Some(kind) => {
            let word = kind.text();
            let of_word = MgfKind::of_text(word.as_bytes());
            println!(rt; "  {kind:?} {} {word} {of_word:?}", kind.number())
        }
        None => println!(rt; "  None"),
    }
}
