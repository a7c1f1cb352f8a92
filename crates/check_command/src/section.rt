//! Where a section of a document differs first from the right ones of its spectrum.
ghost use Rattle.std.specs.Prelude.{◌≡◌, ◌≢◌, ◌<◌, ◌+◌, ◌⊎◌, IfOk, MatchBool};
ghost use Rattle.loss_graph.specs.Lists.{greatest_lists};
ghost use Rattle.tree_document.specs.Document.{IsSmallCert, OfBody};
ghost use Rattle.check_command.specs.inside.CheckAnswers.{IsBodyAnswer, IsSectionAnswer};
ghost use Rattle.tree_document.specs.Outline.{outline_of};
ghost use Rattle.right_document.specs.Outlines.{HasOwnLists};
ghost use Rattle.right_document.specs.SettingsOf.{solve_settings_value_of};

use crate::entries::solved_place;
use mgf_reader::Spectrum;
use right_document::{SolveSettings, read_outline};
use run_plan::RejectPart;
use std::alloc::{AllocError, Global};
use tree_document::{Body, Outline, Section};

/// The first part of a section that differs from the right ones of a spectrum, if one does.
pub fn section_place(
    alloc: Global,
    spectrum: &Spectrum,
    section: &Section,
    settings: &SolveSettings,
) -> Result<Option<RejectPart>, AllocError>
    requires peaks { settings.now.listing.choice.peaks + 1 < greatest_lists }
    requires small { OfBody IsSmallCert section.now.body }
    ensures { IfOk result (IsSectionAnswer (solve_settings_value_of settings.now) spectrum.now section.now) }
{
    let outline = read_outline(alloc, spectrum, &settings.listing)?;
    if !has_line_and_title(section, spectrum) {
        return Ok(Some(RejectPart::Spectrum));
    }
    body_place(alloc, &outline, &section.body, settings)
}

/// Whether a section has the line and the title of a spectrum.
fn has_line_and_title(section: &Section, spectrum: &Spectrum) -> bool
    ensures { MatchBool result
        ((section.now.line ≡ spectrum.now.line) × (section.now.title ≡ spectrum.now.title))
        ((section.now.line ≢ spectrum.now.line) ⊎ (section.now.title ≢ spectrum.now.title)) }
{
    section.line == spectrum.line && section.title.items() == spectrum.title.items()
}

/// The first part of what stands of a spectrum that differs from the right ones for an outline, if one does.
fn body_place(
    alloc: Global,
    outline: &Outline,
    body: &Body,
    settings: &SolveSettings,
) -> Result<Option<RejectPart>, AllocError>
    requires peaks { settings.now.listing.choice.peaks + 1 < greatest_lists }
    requires lists { HasOwnLists settings.now.listing.choice (outline_of outline.now) }
    requires small { OfBody IsSmallCert body.now }
    ensures { IfOk result (IsBodyAnswer (solve_settings_value_of settings.now) (outline_of outline.now) body.now) }
{
    match (outline, body) {
        (Outline::Skipped(reason), Body::Skipped(told)) if told == reason => Ok(None),
        (Outline::Listed(lists), Body::Solved(solved)) => {
            solved_place(alloc, lists, solved, settings)
        }
        _ => Ok(Some(RejectPart::Skipped)),
    }
}
