//! The document of a text and its report.
ghost use Rattle.std.specs.Prelude.{◌≡◌, ◌≤◌, ◌++◌, ◌∷◌, [], ℕ, List, IfOk, OnOk, length};
ghost use Rattle.std.specs.List.{flat_map};
ghost use Rattle.frag_io.specs.declared.desk.Slot.TheVariants.{Spectra};
ghost use Rattle.profile.specs.Profile.{greatest_peaks};
ghost use Rattle.rank_report.specs.Report.{ending_text_of, section_text_of};
ghost use Rattle.tree_document.specs.Document.{IsGoodLine, ending_line, section_lines, text_of};
ghost use Rattle.tree_document.specs.declared.document.Section.{Section};
ghost use Rattle.run_plan.specs.Limits.{greatest_text_of};
ghost use Rattle.mgf_reader.specs.Grammar.{Reads};
ghost use Rattle.right_document.specs.Ending as spec;
ghost use Rattle.right_document.specs.OneEach.{OneEach};
ghost use Rattle.solve_command.specs.inside.Made.{IsMade, IsMadeSection};
ghost use Rattle.right_document.specs.SettingsOf.{solve_settings_value_of};

use crate::section::section_of;
use document_writer::{parts_make_the_spelling, write_ending, write_header, write_section};
use mgf_reader::{MgfFault, Reader, Spectrum};
use rank_report::{push_ending, push_section};
use right_document::{SolveSettings, ending_of};
use run_plan::read_all;
use std::alloc::{AllocError, Global};

/// What is made of a text: the bytes of its document and of its report, and the line that refused it, where there is
/// one.
#[derive(Drop)]
pub struct Solution {
    pub document: Vec<u8>,
    pub report: Vec<u8>,
    pub fault: Option<MgfFault>,
}

/// The document of a text and its report, and the line that refused the text, where there is one.
pub fn solve_text(
    alloc: Global,
    text: &[u8],
    settings: &SolveSettings,
) -> Result<Solution, AllocError>
    requires short { length text.now ≤ greatest_text_of Spectra }
    requires peaks { settings.now.listing.choice.peaks ≤ greatest_peaks }
    ensures { IfOk result (λ made. IsMade (solve_settings_value_of settings.now) text.now made.fault
        made.document.items made.report.items) }
{
    let mut reader = Reader::new(alloc)?;
    let fault = read_all(&mut reader, text)?;
    solve_spectra(alloc, &mut reader, fault, settings)
}

/// What is made of the spectra that wait, where their text is read with this fault.
fn solve_spectra(
    alloc: Global,
    reader: &mut Reader,
    fault: Option<MgfFault>,
    settings: &SolveSettings,
) -> Result<Solution, AllocError>
    requires peaks { settings.now.listing.choice.peaks ≤ greatest_peaks }
    ensures { IfOk result (λ made. (text : List ℕ) → Reads text reader.old.waiting fault
        → IsMade (solve_settings_value_of settings.now) text made.fault made.document.items made.report.items) }
{
    parts_make_the_spelling();
    let mut document = Vec::new(alloc);
    document.extend_from_slice(write_header())?;
    let mut report = Vec::new(alloc);
    push_sections(alloc, &mut document, &mut report, reader, settings)?;
    push_endings(alloc, &mut document, &mut report, fault)?;
    Ok(Solution {
        document,
        report,
        fault,
    })
}

/// Appends the ending of a text with this fault to a document and to its report.
fn push_endings(
    alloc: Global,
    document: &mut Vec<u8>,
    report: &mut Vec<u8>,
    fault: Option<MgfFault>,
) -> Result<(), AllocError>
    ensures document { OnOk result
        (document.new.items ≡ document.old.items ++ text_of (ending_line (spec.ending_of fault) ∷ [])) }
    ensures report { OnOk result (report.new.items ≡ report.old.items ++ ending_text_of (spec.ending_of fault)) }
    ensures good { OnOk result (IsGoodLine (ending_line (spec.ending_of fault))) }
{
    let ending = ending_of(fault);
    let end_line = write_ending(alloc, &ending)?;
    document.extend_from_slice(&end_line)?;
    push_ending(report, &ending)?;
    Ok(())
}

/// Appends the sections of the spectra that wait to a document and to its report. What is found for one spectrum is
/// dropped before the next is solved.
fn push_sections(
    alloc: Global,
    document: &mut Vec<u8>,
    report: &mut Vec<u8>,
    reader: &mut Reader,
    settings: &SolveSettings,
) -> Result<(), AllocError>
    requires peaks { settings.now.listing.choice.peaks ≤ greatest_peaks }
    ensures { OnOk result ((sections : List Section)
        × OneEach (IsMadeSection (solve_settings_value_of settings.now)) reader.old.waiting sections
        × (document.new.items ≡ document.old.items ++ flat_map (λ section. text_of (section_lines section)) sections)
        × (report.new.items ≡ report.old.items ++ flat_map section_text_of sections)) }
{
    while let Some(spectrum) = reader.next() {
        push_spectrum(alloc, document, report, spectrum, settings)?;
    }
    Ok(())
}

/// Appends the section of a spectrum to a document and to its report.
fn push_spectrum(
    alloc: Global,
    document: &mut Vec<u8>,
    report: &mut Vec<u8>,
    spectrum: Spectrum,
    settings: &SolveSettings,
) -> Result<(), AllocError>
    requires peaks { settings.now.listing.choice.peaks ≤ greatest_peaks }
    ensures { OnOk result ((section : Section)
        × IsMadeSection (solve_settings_value_of settings.now) spectrum section
        × (document.new.items ≡ document.old.items ++ text_of (section_lines section))
        × (report.new.items ≡ report.old.items ++ section_text_of section)) }
{
    let section = section_of(alloc, spectrum, settings)?;
    let lines = write_section(alloc, &section)?;
    document.extend_from_slice(&lines)?;
    push_section(report, &section)?;
    Ok(())
}
