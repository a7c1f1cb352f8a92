//! Laws of the definitions, which a check of this crate proves.
ghost use Rattle.std.specs.Prelude.{◌≡◌};
ghost use Rattle.mgf_reader.specs.Spectrum.{SpectrumValue};
ghost use Rattle.right_document.specs.Outlined.{IsOutlined, Outlined};
ghost use Rattle.right_document.specs.RunSettings.{RunSettingsValue};

use adducts::there_is_one_selection;

/// A spectrum has one outline: one reason why it is skipped, or one list of formulas for its precursor and for each
/// selected peak. Its candidates, their errors and their graphs are functions of these lists, so only the trees and
/// certificates of a right section are free.
pub fn a_spectrum_has_one_outline()
    ensures { (settings : RunSettingsValue) (spectrum : SpectrumValue) (one other : Outlined)
        → IsOutlined settings spectrum one → IsOutlined settings spectrum other → one ≡ other }
{
    there_is_one_selection();
}
