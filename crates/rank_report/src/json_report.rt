//! The report of a document as JSON: one compact object a line.
ghost use Rattle.std.specs.Prelude.{◌≡◌, ◌++◌, IfOk, OnOk, codes, false};
ghost use Rattle.std.specs.List.{flat_map};
ghost use Rattle.rank_report.specs.JsonReport.{ending_json_of, report_json_of, section_json_of};
ghost use Rattle.serde_json.specs.View.{view};
ghost use Rattle.serde_json.specs.Written.{compact_text, has_float};
ghost use Rattle.tree_document.specs.declared.document.Ending.TheVariants.{Refused};

use crate::json_values::{refused_value, section_value};
use serde_json::Value;
use std::alloc::{AllocError, Global};
use tree_document::{Document, Ending, MgfEnd, Section};

/// The JSON line of a section: m/z in units of 10^-7 Da, the title spelled as in a document.
pub fn section_json(alloc: Global, section: &Section) -> Result<Vec<u8>, AllocError>
    ensures { IfOk result (λ text. text.items ≡ section_json_of section.now) }
{
    let value = section_value(alloc, section)?;
    line_of(alloc, &value)
}

/// The JSON line of an ending.
pub fn ending_json(alloc: Global, ending: &Ending) -> Result<Vec<u8>, AllocError>
    ensures { IfOk result (λ text. text.items ≡ ending_json_of ending.now) }
{
    match ending {
        Ending::Clean => clean_json(alloc),
        Ending::Refused(fault) => refused_json(alloc, *fault),
    }
}

/// The JSON lines of a document: those of its sections, one after another, and that of its ending.
pub fn report_json(alloc: Global, document: &Document) -> Result<Vec<u8>, AllocError>
    ensures { IfOk result (λ text. text.items ≡ report_json_of document.now) }
{
    let mut text = Vec::new(alloc);
    push_section_lines(&mut text, document.sections.items())?;
    let ending = ending_json(alloc, &document.ending)?;
    text.extend_from_slice(&ending)?;
    Ok(text)
}

/// Appends the JSON lines of sections, one after another.
fn push_section_lines(text: &mut Vec<u8>, sections: &[Section]) -> Result<(), AllocError>
    ensures { OnOk result (text.new.items ≡ text.old.items ++ flat_map section_json_of sections.now) }
{
    for section in sections {
        let line = section_json(*text.allocator(), section)?;
        text.extend_from_slice(&line)?;
    }
    Ok(())
}

/// The JSON line of an ending that no line was refused at.
fn clean_json(alloc: Global) -> Result<Vec<u8>, AllocError>
    ensures { IfOk result (λ text. text.items ≡ codes "{\"end\":\"clean\"}\n") }
{
    let value = serde_json::json!(in alloc; {"end": "clean"})?;
    line_of(alloc, &value)
}

/// The JSON line of an ending that a line was refused at.
fn refused_json(alloc: Global, fault: MgfEnd) -> Result<Vec<u8>, AllocError>
    ensures { IfOk result (λ text. text.items ≡ ending_json_of (Refused fault)) }
{
    let value = refused_value(alloc, fault)?;
    line_of(alloc, &value)
}

/// The line of a value that holds no float.
fn line_of(alloc: Global, value: &Value) -> Result<Vec<u8>, AllocError>
    ensures { IfOk result (λ text. has_float (view value.now) ≡ false
        → text.items ≡ compact_text (view value.now) ++ codes "\n") }
{
    let mut text = value.to_vec(alloc)?;
    text.push(b'\n')?;
    Ok(text)
}
