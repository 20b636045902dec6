// What the columns of a line of an index say.
ghost use Rattle.std.specs.Prelude.{◌≡◌, ◌<◌, ◌^◌, ℕ, MatchOption};
ghost use Rattle.dict_text.specs.Number.{Spells};
ghost use Rattle.dict_index.specs.Line.{Line, IsLine};
ghost use Rattle.dict_reading.specs.Columns.{AreSaidBy};

use dict_index::{Columns, columns_of};
use dict_text::read_number;

/// What a line says: its headword, the interval that two of its columns spell, and the fourth column where it has one.
#[derive(Clone, Copy)]
pub(crate) struct Said<'a> {
    pub headword: &'a [u8],
    pub offset: u64,
    pub size: u64,
    pub fourth: Option<&'a [u8]>,
}

// What the columns say, where two of them spell numbers.
fn said_by(columns: Columns<'_>) -> Option<Said<'_>>
    ensures headword { MatchOption result ((m n : ℕ) → Spells columns.entry.offset.now m → Spells columns.entry.size.now n → ⊥)
        (λ said. (said.headword ≡ columns.entry.headword) × (said.fourth ≡ columns.entry.shown) × Spells columns.entry.offset.now said.offset × Spells columns.entry.size.now said.size) }
    ensures small { MatchOption result (Unit {0}) (λ said. (said.offset < 64 ^ 6) × (said.size < 64 ^ 6)) }
{
    let Ok(offset) = read_number(columns.offset) else {
        return None;
    };
    let Ok(size) = read_number(columns.size) else {
        return None;
    };
    Some(Said {
        headword: columns.headword,
        offset,
        size,
        fourth: columns.shown,
    })
}

// What a line says, if it says something.
pub(crate) fn said_in(line: &[u8]) -> Option<Said<'_>>
    ensures said { MatchOption result ((said : Line) → ¬ IsLine line.now said) (λ said. AreSaidBy line.now said) }
    ensures small { MatchOption result (Unit {0}) (λ said. (said.offset < 64 ^ 6) × (said.size < 64 ^ 6)) }
{
    let Some(columns) = columns_of(line) else {
        return None;
    };
    said_by(columns)
}
