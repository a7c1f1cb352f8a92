//! The section of a spectrum in the report of a list.
ghost use Rattle.std.specs.Prelude.{◌≡◌, ◌++◌, OnOk};
ghost use Rattle.right_document.specs.SettingsOf.{settings_value_of};
ghost use Rattle.list_command.specs.ReportForm.{section_text};
ghost use Rattle.right_document.specs.Outlined.{IsOutlined, Outlined};

use mgf_reader::Spectrum;
use rank_report::push_list_section;
use right_document::{RunSettings, read_outline};
use std::alloc::{AllocError, Global};

/// Appends the section of a spectrum.
pub fn push_section(
    alloc: Global,
    text: &mut Vec<u8>,
    spectrum: &Spectrum,
    settings: &RunSettings,
) -> Result<(), AllocError>
    ensures { OnOk result ((section : Outlined) × IsOutlined (settings_value_of settings.now) spectrum.now section
        × (text.new.items ≡ text.old.items ++ section_text section)) }
{
    let outline = read_outline(alloc, spectrum, settings)?;
    push_list_section(text, spectrum.line, spectrum.title.items(), &outline)?;
    Ok(())
}
