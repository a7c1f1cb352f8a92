//! The report of a text: a section for each of its spectra, and an ending.
ghost use Rattle.std.specs.Prelude.{◌≡◌, ◌≤◌, ◌++◌, List, length, IfOk, OnOk};
ghost use Rattle.std.specs.List.{flat_map};
ghost use Rattle.frag_io.specs.declared.desk.Slot.TheVariants.{Spectra};
ghost use Rattle.run_plan.specs.Limits.{greatest_text_of};
ghost use Rattle.right_document.specs.SettingsOf.{settings_value_of};
ghost use Rattle.list_command.specs.ReportForm.{section_text};
ghost use Rattle.right_document.specs.OneEach.{OneEach};
ghost use Rattle.right_document.specs.Outlined.{IsOutlined, Outlined};
ghost use Rattle.list_command.specs.Sections.{IsReport};

use crate::section::push_section;
use mgf_reader::{MgfFault, Reader};
use rank_report::push_list_ending;
use right_document::{RunSettings, ending_of};
use run_plan::read_all;
use std::alloc::{AllocError, Global};

/// The report of a text, and the line that refused it, where there is one.
pub fn report_of(
    alloc: Global,
    text: &[u8],
    settings: &RunSettings,
) -> Result<(Vec<u8>, Option<MgfFault>), AllocError>
    requires short { length text.now ≤ greatest_text_of Spectra }
    ensures { IfOk result (λ made. IsReport (settings_value_of settings.now) text.now made.1 made.0.items) }
{
    let mut reader = Reader::new(alloc)?;
    let fault = read_all(&mut reader, text)?;
    let mut report = Vec::new(alloc);
    push_sections(alloc, &mut report, &mut reader, settings)?;
    push_list_ending(&mut report, &ending_of(fault))?;
    Ok((report, fault))
}

/// Appends the sections of the spectra that wait.
fn push_sections(
    alloc: Global,
    report: &mut Vec<u8>,
    reader: &mut Reader,
    settings: &RunSettings,
) -> Result<(), AllocError>
    ensures { OnOk result ((sections : List Outlined)
        × OneEach (IsOutlined (settings_value_of settings.now)) reader.old.waiting sections
        × (report.new.items ≡ report.old.items ++ flat_map section_text sections)) }
{
    while let Some(spectrum) = reader.next() {
        push_section(alloc, report, &spectrum, settings)?;
    }
    Ok(())
}
