//! Laws of the definitions, which a check of this crate proves.
ghost use Rattle.std.specs.Prelude.{◌≡◌, ℕ, List};
ghost use Rattle.mgf_reader.specs.Spectrum.{PeakValue};
ghost use Rattle.adducts.specs.Selected.{Selected, StandApart};
ghost use Rattle.adducts.specs.declared.choice.Choice.{Choice as Chosen};

/// A spectrum has only one list of selected peaks.
pub fn there_is_one_selection()
    ensures { (choice : Chosen) (precursor : ℕ) (peaks one other : List PeakValue)
        → Selected choice precursor peaks one → Selected choice precursor peaks other → one ≡ other }
{}

/// Selected peaks fall strictly by m/z, their intervals share no number with one another and lie wholly below the
/// precursor's, each has an intensity and is one of the spectrum's, and there are no more than were chosen.
pub fn selected_peaks_stand_apart()
    ensures { (choice : Chosen) (precursor : ℕ) (peaks selected : List PeakValue)
        → Selected choice precursor peaks selected → StandApart choice precursor peaks selected }
{}
