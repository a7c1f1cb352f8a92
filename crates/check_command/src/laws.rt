//! Laws of the definitions, which a check of this crate proves.
ghost use Rattle.std.specs.Prelude.{◌≡◌, ℕ, List, Option, length};
ghost use Rattle.mgf_reader.specs.Grammar.{Reads};
ghost use Rattle.mgf_reader.specs.Spectrum.{SpectrumValue};
ghost use Rattle.mgf_reader.specs.declared.fault.MgfFault.{MgfFault};
ghost use Rattle.tree_document.specs.Document.{IsGood, spelling_of};
ghost use Rattle.tree_document.specs.declared.document.Document.{Document};
ghost use Rattle.right_document.specs.RightDocument.{DocumentIsRight};
ghost use Rattle.right_document.specs.SolveSettings.{SolveSettingsValue};
ghost use Rattle.check_command.specs.CheckPlaces.{IsDocumentPlace};
ghost use Rattle.check_command.specs.CheckOutcome.{CheckOutcome, IsOutcome, accepted};
ghost use Rattle.run_plan.specs.declared.reject.RejectPart.{RejectPart};

use document_reader::bytes_read_one_way;
use mgf_reader::a_text_is_read_one_way;
use right_document::a_spectrum_has_one_outline;

/// A document that differs somewhere from the right ones of a text, in its sections or in its ending, is not right for
/// the text. So a check tells such a place only of documents that are not right.
pub fn a_rejected_document_is_not_right()
    ensures { (settings : SolveSettingsValue) (text : List ℕ) (spectra : List SpectrumValue)
        (fault another : Option MgfFault) (document : Document) (number : ℕ) (part : RejectPart)
        → Reads text spectra fault → IsDocumentPlace settings spectra fault document number part
        → ¬ (DocumentIsRight settings text another document) }
{
    a_text_is_read_one_way();
    a_spectrum_has_one_outline();
}

/// What a check accepts it neither refuses nor rejects, and it counts its sections and reads its text in one way.
pub fn what_is_accepted_is_nothing_else()
    ensures { (settings : SolveSettingsValue) (text bytes : List ℕ) (count : ℕ) (fault : Option MgfFault)
        (other : CheckOutcome) → IsOutcome settings text bytes (accepted count fault)
        → IsOutcome settings text bytes other → other ≡ accepted count fault }
{
    bytes_read_one_way();
    a_text_is_read_one_way();
    a_rejected_document_is_not_right();
}

/// The spelling of a good document that is right for a text is accepted for the text.
pub fn a_right_document_is_accepted()
    ensures { (settings : SolveSettingsValue) (text : List ℕ) (fault : Option MgfFault) (document : Document)
        → IsGood document → DocumentIsRight settings text fault document
        → IsOutcome settings text (spelling_of document) (accepted (length document.sections) fault) }
{
    bytes_read_one_way();
}
