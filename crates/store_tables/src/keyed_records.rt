//! The records of entries with what is derived of their headwords, as schemas 2 to 4 have them. The type of the octets is `&[u8]` where a record is written, `Vec<u8>` where it was read.

/// A headword of an edition, where its body stands in the edition's text, its key, the key's octets in reverse order, and the headword that replies show.
#[derive(Debug, PartialEq, Eq, Drop)]
pub struct KeyedEntry<T, B> {
    pub edition: i64,
    pub ord: i64,
    pub headword: T,
    pub start: i64,
    pub length: i64,
    pub key: B,
    pub reversed: B,
    pub shown: T,
}

/// An entry as schemas 2 and 3 had it. It is only read, and its keys tell nothing.
#[derive(Debug, PartialEq, Eq, Drop)]
pub struct OldEntry<T, B> {
    pub edition: i64,
    pub ord: i64,
    pub headword: T,
    pub start: i64,
    pub length: i64,
    pub key: B,
    pub reversed: B,
}
