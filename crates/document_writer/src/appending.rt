//! Parts of a document appended to a text, as other texts have them too: whole, or not at all.
ghost use Rattle.std.specs.Prelude.{◌≡◌, ◌++◌, [], ◌∷◌, OnErr, OnOk, length};
ghost use Rattle.std.specs.List.{flat_map};
ghost use Rattle.tree_document.specs.Document.{list_lines, text_of};
ghost use Rattle.tree_document.specs.Line.{done_line, lists_line, skip_line, spectrum_line};

use crate::writer::{push_counted_lists, push_reason, push_spectrum_line};
use element_table::FormulaList;
use std::alloc::AllocError;
use tree_document::Skip;

/// Appends the line of a spectrum: the line of its `BEGIN IONS` and its title.
pub fn push_spectrum(text: &mut Vec<u8>, line: u32, title: &[u8]) -> Result<(), AllocError>
    ensures appended { OnOk result (text.new.items ≡ text.old.items ++ text_of (spectrum_line line title.now ∷ [])) }
    ensures unchanged { OnErr result (text.new.items ≡ text.old.items) }
{
    let mut more = Vec::new(*text.allocator());
    push_spectrum_line(&mut more, line, title)?;
    text.extend_from_slice(&more)?;
    Ok(())
}

/// Appends the line that counts some lists, and their lines.
pub fn push_lists(text: &mut Vec<u8>, lists: &[FormulaList]) -> Result<(), AllocError>
    ensures appended { OnOk result (text.new.items ≡ text.old.items
        ++ text_of (lists_line (length lists.now) ∷ flat_map list_lines lists.now)) }
    ensures unchanged { OnErr result (text.new.items ≡ text.old.items) }
{
    let mut more = Vec::new(*text.allocator());
    push_counted_lists(&mut more, lists)?;
    text.extend_from_slice(&more)?;
    Ok(())
}

/// Appends the line that says why a spectrum was skipped.
pub fn push_skip(text: &mut Vec<u8>, reason: &Skip) -> Result<(), AllocError>
    ensures appended { OnOk result (text.new.items ≡ text.old.items ++ text_of (skip_line reason.now ∷ [])) }
    ensures unchanged { OnErr result (text.new.items ≡ text.old.items) }
{
    let mut more = Vec::new(*text.allocator());
    push_reason(&mut more, reason)?;
    text.extend_from_slice(&more)?;
    Ok(())
}

/// Appends the line that ends a section.
pub fn push_done(text: &mut Vec<u8>) -> Result<(), AllocError>
    ensures appended { OnOk result (text.new.items ≡ text.old.items ++ text_of (done_line ∷ [])) }
    ensures unchanged { OnErr result (text.new.items ≡ text.old.items) }
{
    text.extend_from_slice(b"done\n")?;
    Ok(())
}
