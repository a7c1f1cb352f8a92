//! Laws of the definitions, which a check of this crate proves.
ghost use Rattle.std.specs.Prelude.{◌≡◌, ◌++◌, ℕ, List, Option, Some};
ghost use Rattle.mgf_reader.specs.Grammar.{Reads, SoFar};
ghost use Rattle.mgf_reader.specs.Spectrum.{SpectrumValue};
ghost use Rattle.mgf_reader.specs.Stands.{Broken};
ghost use Rattle.mgf_reader.specs.Fault.{kind_number, kind_of_number, kind_of_text, kind_text};
ghost use Rattle.mgf_reader.specs.declared.fault.MgfFault.{MgfFault};
ghost use Rattle.mgf_reader.specs.declared.fault.MgfKind.{MgfKind};

/// A text is read in one way only: two readings of it have the same spectra and the same fault, whether it is at its
/// end or may still go on.
pub fn a_text_is_read_one_way()
    ensures whole { (text : List ℕ) (spectra other : List SpectrumValue) (fault another : Option MgfFault)
        → Reads text spectra fault → Reads text other another → (spectra ≡ other) × (fault ≡ another) }
    ensures so_far { (text : List ℕ) (spectra other : List SpectrumValue) (fault another : Option MgfFault)
        → SoFar text spectra fault → SoFar text other another → (spectra ≡ other) × (fault ≡ another) }
{}

/// A text keeps what it has, however it goes on: its spectra come first in every longer text, and a line that refused
/// it refuses that too.
pub fn a_longer_text_keeps_its_spectra()
    ensures so_far { (text more : List ℕ) (spectra : List SpectrumValue) (fault : Option MgfFault)
        → SoFar text spectra fault → Broken (SoFar (text ++ more)) spectra }
    ensures whole { (text more : List ℕ) (spectra : List SpectrumValue) (fault : Option MgfFault)
        → SoFar text spectra fault → Broken (Reads (text ++ more)) spectra }
    ensures fault { (text more : List ℕ) (spectra : List SpectrumValue) (fault : MgfFault)
        → SoFar text spectra (Some fault)
        → SoFar (text ++ more) spectra (Some fault) × Reads (text ++ more) spectra (Some fault) }
{}

/// A kind has one number and one word, and no other kind has them: the kind of its number and the kind of its word are
/// the kind itself, and a number or a word that has a kind is that kind's.
pub fn a_kind_has_one_number_and_one_word()
    ensures number { (kind : MgfKind) → kind_of_number (kind_number kind) ≡ Some kind }
    ensures text { (kind : MgfKind) → kind_of_text (kind_text kind) ≡ Some kind }
    ensures numbered { (number : ℕ) (kind : MgfKind) → kind_of_number number ≡ Some kind → kind_number kind ≡ number }
    ensures spelled { (text : List ℕ) (kind : MgfKind) → kind_of_text text ≡ Some kind → kind_text kind ≡ text }
{}
