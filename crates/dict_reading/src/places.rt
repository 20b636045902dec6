// Where an index says what its lines say.
ghost use Rattle.std.specs.Prelude.{◌≡◌, ◌+◌, ◌≤◌, ◌<◌, ◌^◌, ◌++◌, ℕ, List, length, drop, unwrap_or};
ghost use Rattle.dict_index.specs.Views.{octets_of};
ghost use Rattle.dict_reading.specs.Columns.{AreSaidBy, line_said};
ghost use Rattle.dict_reading.specs.Places.{line_in, octets_at, LiesBelow};

use crate::columns::Said;

/// Where a line says its headword and what is shown, in octets of the index; and the interval that it says, in octets of
/// the text.
#[derive(Clone, Copy, Debug, PartialEq, Eq)]
pub struct EntryPlace {
    pub headword_start: usize,
    pub headword_size: usize,
    pub shown_start: usize,
    pub shown_size: usize,
    pub offset: usize,
    pub size: usize,
}

// Where the line that begins at this place of an index says what is shown, and how many octets it has.
fn shown_place(start: usize, line: &[u8], said: Said<'_>) -> (usize, usize)
    requires room { start + length line.now < 2 ^ 64 }
    requires said { AreSaidBy line.now said }
    ensures says { (index behind : List ℕ) → drop start index ≡ line.now ++ behind → octets_at index result.0 result.1 ≡ unwrap_or (octets_of said.entry.fourth) said.entry.headword.now }
    ensures below { result.0 + result.1 ≤ start + length line.now }
{
    let Some(shown) = said.fourth else {
        return (start, said.headword.len());
    };
    (start + (line.len() - shown.len()), shown.len())
}

// Where the line that begins at this place of an index says this.
pub(crate) fn place_of(start: usize, line: &[u8], said: Said<'_>) -> EntryPlace
    requires room { start + length line.now < 2 ^ 64 }
    requires said { AreSaidBy line.now said }
    requires small { (said.offset < 64 ^ 6) × (said.size < 64 ^ 6) }
    ensures says { (index behind : List ℕ) → drop start index ≡ line.now ++ behind → line_in index result ≡ line_said said.entry }
    ensures below { LiesBelow (start + length line.now) result }
{
    let (shown_start, shown_size) = shown_place(start, line, said);
    EntryPlace {
        headword_start: start,
        headword_size: said.headword.len(),
        shown_start,
        shown_size,
        offset: said.offset as usize,
        size: said.size as usize,
    }
}
