// Why a pair of files is no edition.
ghost use Rattle.std.specs.Prelude.{◌≡◌};
ghost use Rattle.dict_index.specs.Refusals.{refusal_number, refusal_name, edition_refusal_text};

use std::alloc::{AllocError, AllocFailed};
use thiserror::Error;

/// The test of an edition that failed.
#[derive(Clone, Copy, Debug, PartialEq, Eq)]
pub enum EditionRefusal {
    /// The index is not UTF-8.
    IndexNotUtf8,
    /// A line hasn't two or three tabs.
    Columns,
    /// An offset or a length is no number of dictd's.
    Number,
    /// The offset and the length together are greater than the text's length.
    Interval,
    /// The headword isn't 1 to 255 octets, or has a control character, or its key is empty.
    Headword,
    /// The interval is not UTF-8, or has a control character other than LF and tab.
    BodyText,
    /// A line of the interval has more than 1,021 octets.
    BodyLine,
    /// The headword is reserved, and not one of those that are known.
    Reserved,
    /// The headword's key is a known reserved one, and an earlier line has that key.
    ReservedTwice,
    /// There is no entry for the title, or no line remains in it.
    NoTitle,
    /// The title isn't 1 to 200 octets, or has a control character.
    BadTitle,
    /// There are more than 262,144 lines.
    TooManyEntries,
    /// The text is longer than 67,108,864 octets.
    TextTooLong,
    /// An index that isn't empty doesn't end by LF.
    LastLine,
    /// The fourth column is there, and isn't 1 to 255 octets, or has a control character.
    Shown,
}

impl EditionRefusal {
    // What users see of the refusal: its number, 1 to 15, and its name.
    fn text(self) -> (u8, &'static str)
        ensures number { result.0 ≡ (edition_refusal_text self).number }
        ensures name { result.1.now ≡ (edition_refusal_text self).name }
    {
        match self {
            EditionRefusal::IndexNotUtf8 => (1, "IndexNotUtf8"),
            EditionRefusal::Columns => (2, "Columns"),
            EditionRefusal::Number => (3, "Number"),
            EditionRefusal::Interval => (4, "Interval"),
            EditionRefusal::Headword => (5, "Headword"),
            EditionRefusal::BodyText => (6, "BodyText"),
            EditionRefusal::BodyLine => (7, "BodyLine"),
            EditionRefusal::Reserved => (8, "Reserved"),
            EditionRefusal::ReservedTwice => (9, "ReservedTwice"),
            EditionRefusal::NoTitle => (10, "NoTitle"),
            EditionRefusal::BadTitle => (11, "BadTitle"),
            EditionRefusal::TooManyEntries => (12, "TooManyEntries"),
            EditionRefusal::TextTooLong => (13, "TextTooLong"),
            EditionRefusal::LastLine => (14, "LastLine"),
            EditionRefusal::Shown => (15, "Shown"),
        }
    }

    /// The refusal's number, as users see it: 1 to 15.
    pub fn number(self) -> u8
        ensures { result ≡ refusal_number self }
    {
        self.text().0
    }

    /// The refusal's name, as users see it.
    pub fn name(self) -> &'static str
        ensures { result.now ≡ refusal_name self }
    {
        self.text().1
    }
}

/// Why no edition was read.
#[derive(Clone, Copy, Debug, PartialEq, Eq, Error)]
pub enum IndexFault {
    /// A test failed, at the line with this number, from 1, where it is a test of a line.
    #[error("the files are refused")]
    Refused {
        refusal: EditionRefusal,
        line: Option<usize>,
    },
    /// A growth was refused.
    #[error("out of memory")]
    Memory,
}

impl From<AllocError> for IndexFault {
    ghost use Rattle.dict_index.specs.declared.fault.IndexFault.TheVariants.{Memory};

    ghost from_gives = { λ _ fault. fault ≡ Memory };

    fn from(_: AllocError) -> Self {
        IndexFault::Memory
    }
}

impl<T: Drop> From<AllocFailed<T>> for IndexFault {
    ghost use Rattle.dict_index.specs.declared.fault.IndexFault.TheVariants.{Memory};

    ghost from_gives = { λ _ fault. fault ≡ Memory };

    fn from(_: AllocFailed<T>) -> Self {
        IndexFault::Memory
    }
}
