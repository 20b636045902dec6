// What a line of an index makes of a text.
use dict_match::Key;

/// A headword with its key, the headword that is shown, the entry's text, and where the text stands in its file. The
/// headwords and the text borrow from the two files; the key has memory of its own.
#[derive(Debug, Drop)]
pub struct Entry<'a> {
    /// The headword, as the index has it.
    pub headword: &'a str,
    /// The headword's key, by which searches find it.
    pub key: Key,
    /// The headword that is shown: the fourth column of the line, or the headword where it has none.
    pub shown: &'a str,
    /// The text.
    pub body: &'a str,
    /// How many octets of the file stand before the text.
    pub offset: usize,
    /// How many octets the text has.
    pub size: usize,
}
