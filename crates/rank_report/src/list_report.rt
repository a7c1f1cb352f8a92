//! The report of a list: sections and an ending in the lines of a document.
ghost use Rattle.std.specs.Prelude.{◌≡◌, ◌++◌, OnOk};
ghost use Rattle.tree_document.specs.Document.{text_of};
ghost use Rattle.tree_document.specs.Outline.{outline_of};
ghost use Rattle.rank_report.specs.ListReport.{list_ending_text, list_section_text, outline_lines};

use document_writer::{push_done, push_lists, push_skip, push_spectrum, write_ending};
use std::alloc::AllocError;
use tree_document::{Ending, Outline};

/// Appends the section of a spectrum: the line of its `BEGIN IONS` and its title, and its outline.
pub fn push_list_section(
    text: &mut Vec<u8>,
    line: u32,
    title: &[u8],
    outline: &Outline,
) -> Result<(), AllocError>
    ensures { OnOk result (text.new.items
        ≡ text.old.items ++ list_section_text line title.now (outline_of outline.now)) }
{
    push_spectrum(text, line, title)?;
    push_outline(text, outline)?;
    push_done(text)?;
    Ok(())
}

/// Appends the outline of a spectrum.
fn push_outline(text: &mut Vec<u8>, outline: &Outline) -> Result<(), AllocError>
    ensures { OnOk result (text.new.items ≡ text.old.items ++ text_of (outline_lines (outline_of outline.now))) }
{
    match outline {
        Outline::Skipped(reason) => push_skip(text, reason),
        Outline::Listed(lists) => push_lists(text, lists),
    }
}

/// Appends the line that ends a report.
pub fn push_list_ending(text: &mut Vec<u8>, ending: &Ending) -> Result<(), AllocError>
    ensures { OnOk result (text.new.items ≡ text.old.items ++ list_ending_text ending.now) }
{
    let line = write_ending(*text.allocator(), ending)?;
    text.extend_from_slice(&line)?;
    Ok(())
}
