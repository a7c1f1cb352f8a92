//! Why a text is refused, and at which line.
ghost use Rattle.std.specs.Prelude.{◌≡◌};

/// What is wrong with the line that refuses a text.
#[derive(Clone, Copy, Debug, PartialEq, Eq)]
pub enum MgfKind {
    /// A begin line in a block.
    NestedBegin,
    /// An end line outside a block.
    StrayEnd,
    /// The text ends in a block; the line is that of the block's begin.
    OpenBlock,
    /// A peak line outside a block.
    PeakOutside,
    /// A numeral of a peak is refused.
    BadPeak,
    /// The numeral of `PEPMASS` is refused.
    BadPrecursor,
    /// An item of `CHARGE` is refused.
    BadCharge,
    /// A line has none of the forms.
    NoForm,
    /// A line has more than 65,536 bytes.
    LineTooLong,
    /// A block has more than 100,000 peaks.
    TooManyPeaks,
}

/// The kinds in the order of their numbers.
const KINDS: [MgfKind; 10] = [
    MgfKind::NestedBegin,
    MgfKind::StrayEnd,
    MgfKind::OpenBlock,
    MgfKind::PeakOutside,
    MgfKind::BadPeak,
    MgfKind::BadPrecursor,
    MgfKind::BadCharge,
    MgfKind::NoForm,
    MgfKind::LineTooLong,
    MgfKind::TooManyPeaks,
];

impl MgfKind {
    ghost use Rattle.mgf_reader.specs.Fault.{kind_number, kind_of_number, kind_of_text, kind_text};

    /// Its number, from 1 to 10.
    pub fn number(&self) -> u8
        ensures { result ≡ kind_number self.now }
    {
        match self {
            MgfKind::NestedBegin => 1,
            MgfKind::StrayEnd => 2,
            MgfKind::OpenBlock => 3,
            MgfKind::PeakOutside => 4,
            MgfKind::BadPeak => 5,
            MgfKind::BadPrecursor => 6,
            MgfKind::BadCharge => 7,
            MgfKind::NoForm => 8,
            MgfKind::LineTooLong => 9,
            MgfKind::TooManyPeaks => 10,
        }
    }

    /// The word that names it in reports and documents.
    pub fn text(&self) -> &'static str
        ensures { result.now ≡ kind_text self.now }
    {
        match self {
            MgfKind::NestedBegin => "nested-begin",
            MgfKind::StrayEnd => "stray-end",
            MgfKind::OpenBlock => "open-block",
            MgfKind::PeakOutside => "peak-outside",
            MgfKind::BadPeak => "bad-peak",
            MgfKind::BadPrecursor => "bad-precursor",
            MgfKind::BadCharge => "bad-charge",
            MgfKind::NoForm => "no-form",
            MgfKind::LineTooLong => "line-too-long",
            MgfKind::TooManyPeaks => "too-many-peaks",
        }
    }

    /// The kind of a number. `None` where no kind has it.
    pub fn of_number(number: u8) -> Option<MgfKind>
        ensures { result ≡ kind_of_number number }
    {
        for kind in KINDS {
            if kind.number() == number {
                return Some(kind);
            }
        }
        None
    }

    /// The kind of a word. `None` where no kind has it.
    pub fn of_text(text: &[u8]) -> Option<MgfKind>
        ensures { result ≡ kind_of_text text.now }
    {
        for kind in KINDS {
            if kind.text().as_bytes() == text {
                return Some(kind);
            }
        }
        None
    }
}

/// The first line that is refused, from 1, and why.
#[derive(Clone, Copy, Debug, PartialEq, Eq)]
pub struct MgfFault {
    pub line: u32,
    pub kind: MgfKind,
}

/// Why a reader takes nothing in any more.
#[derive(Clone, Copy, Debug, PartialEq, Eq)]
pub enum FeedFault {
    /// The text is refused.
    Mgf(MgfFault),
    /// There was no memory.
    OutOfMemory,
}
