// A stored line, read.
ghost use Rattle.std.specs.Prelude.{◌≡◌, ◌≢◌, ◌++◌, ◌∷◌, ℕ, List, MatchOption};
ghost use Rattle.std.specs.Str.{IsUtf8};
ghost use Rattle.dict_index.specs.Cuts.{HasNo};
ghost use Rattle.dict_index.specs.Line.{Line};
ghost use Rattle.dict_index.specs.Views.{octets_of};
ghost use Rattle.store_rows.specs.Stored.{IsStorable, fourth_column, stored_line};
ghost use Rattle.store_rows.specs.Views.{columns_line};

use crate::columns::{columns_of, cut_at};
use dict_text::read_number;

/// What a stored line says.
#[derive(Clone, Copy)]
pub struct StoredColumns<'a> {
    /// The headword.
    pub headword: &'a str,
    /// Where the body starts in the text, in octets.
    pub offset: u64,
    /// How many octets the body has.
    pub size: u64,
    /// The headword that is shown.
    pub shown: &'a str,
}

// What is shown: the headword where there is no fourth column, and else that column, if it is another text.
fn shown_of<'a>(headword: &'a str, fourth: Option<&'a [u8]>) -> Option<&'a str>
    ensures { MatchOption result ((shown : List ℕ) → IsUtf8 shown → octets_of fourth.entry ≢ fourth_column headword.now shown)
        (λ shown. IsUtf8 shown.now × (octets_of fourth.entry ≡ fourth_column headword.now shown.now)) }
{
    let Some(column) = fourth else {
        return Some(headword);
    };
    let Ok(shown) = str::from_utf8(column) else {
        return None;
    };
    if shown == headword {
        return None;
    }
    Some(shown)
}

// What a line says, without its LF, if it is a stored one.
fn said_of(line: &[u8]) -> Option<StoredColumns<'_>>
    requires { HasNo 10 line.now }
    ensures { MatchOption result ((said : Line) → IsStorable said → line.now ≢ stored_line said)
        (λ columns. IsStorable (columns_line columns) × (line.now ≡ stored_line (columns_line columns))) }
{
    let Some(columns) = columns_of(line) else {
        return None;
    };
    let Ok(offset) = read_number(columns.offset) else {
        return None;
    };
    let Ok(size) = read_number(columns.size) else {
        return None;
    };
    let Ok(headword) = str::from_utf8(columns.headword) else {
        return None;
    };
    let Some(shown) = shown_of(headword, columns.shown) else {
        return None;
    };
    Some(StoredColumns {
        headword,
        offset,
        size,
        shown,
    })
}

// What the first line says, if it is a stored one, and what stands behind its LF.
fn first_line(octets: &[u8]) -> Option<(StoredColumns<'_>, &[u8])>
    ensures { MatchOption result ((said : Line) (rest : List ℕ) → IsStorable said → octets.now ≢ stored_line said ++ 10 ∷ rest)
        (λ read. IsStorable (columns_line read.0) × (octets.now ≡ stored_line (columns_line read.0) ++ 10 ∷ read.1.now)) }
{
    let Some((line, rest)) = cut_at(b'\n', octets) else {
        return None;
    };
    let Some(columns) = said_of(line) else {
        return None;
    };
    Some((columns, rest))
}

/// What the first line of some octets says, and what stands behind its LF, if they begin with a stored line and its LF: of
/// what was written, what was written.
pub fn read_line(octets: &[u8]) -> Option<(StoredColumns<'_>, &[u8])>
    ensures read { MatchOption result ((said : Line) (rest : List ℕ) → IsStorable said → octets.now ≢ stored_line said ++ 10 ∷ rest)
        (λ read. IsStorable (columns_line read.0) × (octets.now ≡ stored_line (columns_line read.0) ++ 10 ∷ read.1.now)) }
    ensures same { (said : Line) (rest : List ℕ) → IsStorable said → octets.now ≡ stored_line said ++ 10 ∷ rest →
        MatchOption result ⊥ (λ read. (columns_line read.0 ≡ said) × (read.1.now ≡ rest)) }
{
    first_line(octets)
}
