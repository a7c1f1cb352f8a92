//! Whether the bytes of a document spell one that is right for a text, and where not.
ghost use Rattle.std.specs.Prelude.{◌≡◌, ◌≤◌, ◌<◌, ◌+◌, ℕ, List, IfOk, length};
ghost use Rattle.frag_io.specs.declared.desk.Slot.TheVariants.{CertIn, Spectra};
ghost use Rattle.std.specs.List.{AllByRecursion};
ghost use Rattle.loss_graph.specs.Lists.{greatest_lists};
ghost use Rattle.mgf_reader.specs.Grammar.{Reads};
ghost use Rattle.mgf_reader.specs.Spectrum.{SpectrumValue};
ghost use Rattle.tree_document.specs.Document.{EachCert, IsSmallCert, OfBody};
ghost use Rattle.run_plan.specs.Limits.{greatest_text_of};
ghost use Rattle.check_command.specs.CheckOutcome.{IsOutcome};
ghost use Rattle.check_command.specs.inside.CheckAnswers.{AreSectionsAnswer};
ghost use Rattle.check_command.specs.inside.Checked.{IsComparison, check_outcome};
ghost use Rattle.right_document.specs.SolveSettings.{SolveSettingsValue};
ghost use Rattle.right_document.specs.SettingsOf.{solve_settings_value_of};

use crate::section::section_place;
use document_reader::read_document;
use mgf_reader::{MgfFault, Reader};
use right_document::{SolveSettings, ending_of};
use run_plan::{RejectPart, RejectPlace, read_all};
use std::alloc::{AllocError, Global};
use tree_document::{CertFault, Document, DocumentError, Section};

/// What a check finds of the bytes of a document: that they are refused, or where the document differs first from the
/// right ones of the text, or that it is right, how many sections it has, and the line that refused the text, where
/// there is one.
#[derive(Drop)]
pub enum Checked {
    Refused(CertFault),
    Rejected(RejectPlace),
    Accepted(usize, Option<MgfFault>),
}

/// What a check finds of the bytes of a document for a text.
pub fn check_text(
    alloc: Global,
    text: &[u8],
    bytes: &[u8],
    settings: &SolveSettings,
) -> Result<Checked, AllocError>
    requires short { length text.now ≤ greatest_text_of Spectra }
    requires document { length bytes.now ≤ greatest_text_of CertIn }
    requires peaks { settings.now.listing.choice.peaks + 1 < greatest_lists }
    ensures { IfOk result (λ checked.
        IsOutcome (solve_settings_value_of settings.now) text.now bytes.now (check_outcome checked)) }
{
    match read_document(alloc, bytes) {
        Ok(document) => compare(alloc, text, &document, settings),
        Err(DocumentError::Refused(fault)) => Ok(Checked::Refused(fault)),
        Err(DocumentError::OutOfMemory) => Err(AllocError),
    }
}

/// Compares a document with the right ones of a text.
fn compare(
    alloc: Global,
    text: &[u8],
    document: &Document,
    settings: &SolveSettings,
) -> Result<Checked, AllocError>
    requires short { length text.now ≤ greatest_text_of Spectra }
    requires few { length document.now.sections ≤ greatest_text_of CertIn }
    requires peaks { settings.now.listing.choice.peaks + 1 < greatest_lists }
    requires small { EachCert IsSmallCert document.now }
    ensures { IfOk result (IsComparison (solve_settings_value_of settings.now) text.now document.now) }
{
    let mut reader = Reader::new(alloc)?;
    let fault = read_all(&mut reader, text)?;
    let place = first_wrong_section(alloc, &mut reader, document.sections.items(), settings)?;
    Ok(comparison(document, fault, place))
}

/// What a check finds of a document, by the first of its sections that is not right, where there is one, and by the
/// fault of the text.
fn comparison(document: &Document, fault: Option<MgfFault>, wrong: Option<RejectPlace>) -> Checked
    requires few { length document.now.sections ≤ greatest_text_of CertIn }
    ensures { (settings : SolveSettingsValue) (text : List ℕ) (spectra : List SpectrumValue)
        → Reads text spectra fault → AreSectionsAnswer settings spectra document.now.sections wrong
        → IsComparison settings text document.now result }
{
    let sections = document.sections.items();
    if let Some(place) = wrong {
        return Checked::Rejected(place);
    }
    if document.ending != ending_of(fault) {
        return Checked::Rejected(RejectPlace {
            section: sections.len() as u32 + 1,
            part: RejectPart::Ending,
        });
    }
    Checked::Accepted(sections.len(), fault)
}

/// The first section that is not right for the spectra that wait, or that one side alone has.
fn first_wrong_section(
    alloc: Global,
    reader: &mut Reader,
    sections: &[Section],
    settings: &SolveSettings,
) -> Result<Option<RejectPlace>, AllocError>
    requires few { length sections.now ≤ greatest_text_of CertIn }
    requires peaks { settings.now.listing.choice.peaks + 1 < greatest_lists }
    requires small { AllByRecursion (λ section. OfBody IsSmallCert section.body) sections.now }
    ensures { IfOk result (AreSectionsAnswer (solve_settings_value_of settings.now) reader.old.waiting sections.now) }
{
    let mut number = 0;
    while let Some(spectrum) = reader.next() {
        let part = match sections.get(number) {
            Some(section) => section_place(alloc, &spectrum, section, settings)?,
            None => Some(RejectPart::Missing),
        };
        number += 1;
        if let Some(part) = part {
            return Ok(Some(RejectPlace {
                section: number as u32,
                part,
            }));
        }
    }
    if number < sections.len() {
        return Ok(Some(RejectPlace {
            section: number as u32 + 1,
            part: RejectPart::Extra,
        }));
    }
    Ok(None)
}
