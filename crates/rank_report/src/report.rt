//! The report of a document, as a text for people.
ghost use Rattle.std.specs.Prelude.{◌≡◌, ◌++◌, IfOk, OnOk};
ghost use Rattle.std.specs.List.{flat_map};
ghost use Rattle.rank_report.specs.Report.{body_text, ending_text_of, report_text_of, section_text_of};
ghost use Rattle.tree_document.specs.declared.document.Ending.TheVariants.{Refused};

use crate::lines::{push_entries, push_kind, push_number, push_peaks, push_skip};
use std::alloc::{AllocError, Global};
use tree_document::{Body, Document, Ending, MgfEnd, Section, push_escaped};

/// The report of a section: its spectrum, its lists, and its entries by rank with the rows of their trees.
pub fn section_text(alloc: Global, section: &Section) -> Result<Vec<u8>, AllocError>
    ensures { IfOk result (λ text. text.items ≡ section_text_of section.now) }
{
    let mut text = Vec::new(alloc);
    push_section(&mut text, section)?;
    Ok(text)
}

/// The report of an ending.
pub fn ending_text(alloc: Global, ending: &Ending) -> Result<Vec<u8>, AllocError>
    ensures { IfOk result (λ text. text.items ≡ ending_text_of ending.now) }
{
    let mut text = Vec::new(alloc);
    push_ending(&mut text, ending)?;
    Ok(text)
}

/// The report of a document: those of its sections, one after another, and that of its ending.
pub fn report_text(alloc: Global, document: &Document) -> Result<Vec<u8>, AllocError>
    ensures { IfOk result (λ text. text.items ≡ report_text_of document.now) }
{
    let mut text = Vec::new(alloc);
    push_sections(&mut text, document.sections.items())?;
    push_ending(&mut text, &document.ending)?;
    Ok(text)
}

/// Appends the reports of sections, one after another.
fn push_sections(text: &mut Vec<u8>, sections: &[Section]) -> Result<(), AllocError>
    ensures { OnOk result (text.new.items ≡ text.old.items ++ flat_map section_text_of sections.now) }
{
    for section in sections {
        push_section(text, section)?;
    }
    Ok(())
}

/// Appends the report of a section.
pub fn push_section(text: &mut Vec<u8>, section: &Section) -> Result<(), AllocError>
    ensures { OnOk result (text.new.items ≡ text.old.items ++ section_text_of section.now) }
{
    push_number(text, b"spectrum at line ", u64::from(section.line))?;
    text.extend_from_slice(b": ")?;
    push_escaped(text, section.title.items())?;
    text.push(b'\n')?;
    push_body(text, &section.body)?;
    Ok(())
}

/// Appends what stands of a spectrum.
fn push_body(text: &mut Vec<u8>, body: &Body) -> Result<(), AllocError>
    ensures { OnOk result (text.new.items ≡ text.old.items ++ body_text body.now) }
{
    match body {
        Body::Skipped(reason) => push_skip(text, reason)?,
        Body::Solved(solved) => {
            push_peaks(text, solved.lists.items())?;
            push_entries(text, solved.entries.items())?;
        }
    }
    Ok(())
}

/// Appends the report of an ending.
pub fn push_ending(text: &mut Vec<u8>, ending: &Ending) -> Result<(), AllocError>
    ensures { OnOk result (text.new.items ≡ text.old.items ++ ending_text_of ending.now) }
{
    match ending {
        Ending::Clean => text.extend_from_slice(b"end: clean\n")?,
        Ending::Refused(fault) => push_refused(text, *fault)?,
    }
    Ok(())
}

/// Appends the report of an ending that a line was refused at.
fn push_refused(text: &mut Vec<u8>, fault: MgfEnd) -> Result<(), AllocError>
    ensures { OnOk result (text.new.items ≡ text.old.items ++ ending_text_of (Refused fault)) }
{
    push_number(text, b"end: refused at line ", u64::from(fault.line))?;
    push_kind(text, fault.kind)?;
    text.push(b'\n')?;
    Ok(())
}
