//! How far a slot of a desk in memory has come, and which file it is read from.
ghost use Rattle.std.specs.Prelude.{◌≡◌, Some, None, MatchOption, IsSome, IfSome, position, true, false, drop};
ghost use Rattle.frag_io.specs.Slot.{is_read, IsRead, IsWritten};
ghost use Rattle.frag_io.specs.Files.{is_named, bytes_under};
ghost use Rattle.frag_io.specs.inside.Stage.{is_begun, is_finished, rest_of, left_at};

use crate::Slot;

/// How far a slot has come.
#[derive(Clone, Copy)]
pub(crate) enum Stage {
    /// It was not begun.
    Fresh,
    /// It was begun under the name of a file.
    Reading(Source),
    /// It was begun, and can be written.
    Writing,
    /// It was written, and finished.
    Finished,
}

/// A file by its place, and how many of its bytes were read.
#[derive(Clone, Copy)]
pub(crate) struct Source {
    pub(crate) place: usize,
    pub(crate) done: usize,
}

/// The place of the first file of a name.
fn place_of(files: &[(String, Vec<u8>)], name: &str) -> Option<usize>
    ensures { result ≡ position (is_named name.now) files.now }
{
    files.iter().position(|file| file.0.as_str() == name)
}

/// The first file of a name, of which nothing was read.
fn source_of(files: &[(String, Vec<u8>)], name: &str) -> Option<Source>
    ensures { MatchOption result (bytes_under files.now name.now ≡ None)
        (λ source. bytes_under files.now name.now ≡ Some (rest_of files.now source)) }
{
    let place = place_of(files, name)?;
    Some(Source { place, done: 0 })
}

/// What of a file was not read yet.
pub(crate) fn rest(files: &[(String, Vec<u8>)], source: Source) -> &[u8]
    ensures { result.now ≡ rest_of files.now source }
{
    match files.get(source.place) {
        Some(file) => behind(&file.1, source.done),
        None => &[],
    }
}

/// What stands behind so many bytes.
fn behind(bytes: &[u8], count: usize) -> &[u8]
    ensures { result.now ≡ drop count bytes.now }
{
    if count <= bytes.len() {
        &bytes[count..]
    } else {
        &[]
    }
}

/// How a slot begins under a name: a read slot with the first file of that name, if there is one.
pub(crate) fn first_stage(files: &[(String, Vec<u8>)], slot: Slot, name: &str) -> Option<Stage>
    ensures read { IsRead slot → MatchOption result (bytes_under files.now name.now ≡ None)
        (λ stage. bytes_under files.now name.now ≡ Some (left_at files.now stage)) }
    ensures written { IsWritten slot → IsSome result }
    ensures begun { IfSome result (λ stage. (is_begun stage ≡ true) × (is_finished stage ≡ false)) }
{
    if is_read(slot) {
        let source = source_of(files, name)?;
        Some(Stage::Reading(source))
    } else {
        Some(Stage::Writing)
    }
}

/// Whether a slot is read.
fn is_read(slot: Slot) -> bool
    ensures { result ≡ is_read slot }
{
    matches!(slot, Slot::Spectra | Slot::Profile | Slot::CertIn)
}
