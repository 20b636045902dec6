// The lines of an index, written of the entries of an older version.
ghost use Rattle.std.specs.Prelude.{◌≡◌, ◌++◌, ◌∷◌, [], map, IfOk, IfErr, OnOk, MatchBool};
ghost use Rattle.store_tables.specs.KeyedRecords.{owned_old_entry, owned_keyed_entry, plain_entry};
ghost use Rattle.store_tables.specs.Records.{EntryRecord as TheEntry};
ghost use Rattle.store_tables.specs.Typed.{owned_entry};
ghost use Rattle.store_sql.specs.Keyed.{entry_without_keys};
ghost use Rattle.dict_index.specs.Cuts.{HasNo};
ghost use Rattle.store_rows.specs.Stored.{IsColumn, stored_line};
ghost use Rattle.store_holdings.specs.Files.{index_octets};
ghost use Rattle.store_migration.specs.MigrationParts.{FailsToWriteIndex};
ghost use Rattle.store_migration.specs.Steps.{HasLine, HasSixDigits};
ghost use Rattle.store_migration.specs.Written.{line_to_write, said_of};

use std::alloc::Global;
use store_rows::write_line;
use store_sql::records::ReadError;
use store_tables::{EntryRecord, KeyedEntry, OldEntry, StoredRow};

/// The first number that has no six digits in base 64.
const MOST: i64 = 68_719_476_736;

/// What the line of an entry is to say.
#[derive(Clone, Copy)]
pub(crate) struct LineToWrite<'a> {
    pub(crate) headword: &'a str,
    pub(crate) start: i64,
    pub(crate) length: i64,
    pub(crate) shown: &'a str,
}

/// A record that an entry was read as.
pub(crate) trait IndexedRecord {
    // The entry.
    ghost entry: { Self → TheEntry };

    /// What its line is to say.
    fn said(&self) -> LineToWrite<'_>
        ensures { said_of (entry self.now) result ≡ entry self.now };
}

impl IndexedRecord for StoredRow<EntryRecord<String>> {
    ghost entry = { λ stored. owned_entry stored.value };

    fn said(&self) -> LineToWrite<'_> {
        LineToWrite {
            headword: &self.value.headword,
            start: self.value.start,
            length: self.value.length,
            shown: &self.value.headword,
        }
    }
}

impl IndexedRecord for StoredRow<OldEntry<String, Vec<u8>>> {
    ghost entry = { λ stored. plain_entry (owned_old_entry stored.value) };

    fn said(&self) -> LineToWrite<'_> {
        LineToWrite {
            headword: &self.value.headword,
            start: self.value.start,
            length: self.value.length,
            shown: &self.value.headword,
        }
    }
}

impl IndexedRecord for StoredRow<KeyedEntry<String, Vec<u8>>> {
    ghost entry = { λ stored. entry_without_keys (owned_keyed_entry stored.value) };

    fn said(&self) -> LineToWrite<'_> {
        LineToWrite {
            headword: &self.value.headword,
            start: self.value.start,
            length: self.value.length,
            shown: &self.value.shown,
        }
    }
}

// Whether the octet stands nowhere among these.
fn has_no(octet: u8, octets: &[u8]) -> bool
    ensures { MatchBool result (HasNo octet octets.now) (¬ HasNo octet octets.now) }
{
    !octets.contains(&octet)
}

// Whether a text can stand in a column of a line.
fn is_column(text: &str) -> bool
    ensures { MatchBool result (IsColumn text.now) (¬ IsColumn text.now) }
{
    let octets = text.as_bytes();
    has_no(b'\t', octets) && has_no(b'\n', octets)
}

// Whether a number has at most six digits in base 64.
fn is_short(number: i64) -> bool
    ensures { MatchBool result (HasSixDigits number) (¬ HasSixDigits number) }
{
    number >= 0 && number < MOST
}

// Whether a line can say this.
fn has_line(said: &LineToWrite<'_>) -> bool
    ensures { (e : TheEntry) → MatchBool result (HasLine (said_of e said.now)) (¬ HasLine (said_of e said.now)) }
{
    is_column(said.headword)
        && is_column(said.shown)
        && is_short(said.start)
        && is_short(said.length)
}

// Appends the line that says this, and its LF. `NoRecord` tells that no line does.
fn put_line(said: &LineToWrite<'_>, to: &mut Vec<u8>) -> Result<(), ReadError>
    ensures put { OnOk result (to.new.items ≡ to.old.items ++ (stored_line (line_to_write said.now) ++ 10 ∷ [])) }
    ensures has { OnOk result ((e : TheEntry) → HasLine (said_of e said.now)) }
    ensures failed { (e : TheEntry) → IfErr result (FailsToWriteIndex (said_of e said.now ∷ [])) }
{
    if !has_line(said) {
        return Err(ReadError::NoRecord);
    }
    write_line(
        said.headword,
        said.start as u64,
        said.length as u64,
        said.shown,
        to,
    )?;
    Ok(())
}

// The octets of the index of these entries. `NoRecord` tells that one of them has no line.
fn lines_of<E: IndexedRecord>(alloc: Global, entries: &[E]) -> Result<Vec<u8>, ReadError>
    ensures written { IfOk result (λ octets. octets.items ≡ index_octets (map E.entry entries.now)) }
    ensures failed { IfErr result (FailsToWriteIndex (map E.entry entries.now)) }
{
    let mut octets = Vec::new(alloc);
    'each: for entry in entries {
        let said = entry.said();
        put_line(&said, &mut octets)?;
    }
    Ok(octets)
}

/// The octets of the index of these entries, which are let go of then. `NoRecord` tells that one of them has no line.
pub(crate) fn lines_of_all<E: IndexedRecord + Drop>(
    alloc: Global,
    entries: Vec<E>,
) -> Result<Vec<u8>, ReadError>
    ensures written { IfOk result (λ octets. octets.items ≡ index_octets (map E.entry entries.items)) }
    ensures failed { IfErr result (FailsToWriteIndex (map E.entry entries.items)) }
{
    let octets = lines_of(alloc, &entries);
    drop(entries);
    octets
}
