// The entries of an edition, as they are taken.
ghost use Rattle.std.specs.Prelude.{◌≡◌, ◌∷◌, [], IfErr, OnOk, string_bytes};
ghost use Rattle.store_tables.specs.KeyedRecords.{owned_keyed_entry, owned_old_entry, plain_entry};
ghost use Rattle.store_tables.specs.Records.{shown_as};
ghost use Rattle.store_tables.specs.Typed.{owned_entry};
ghost use Rattle.store_sql.specs.Keyed.{entry_without_keys};
ghost use Rattle.store_rows.specs.Views.{columns_line};
ghost use Rattle.store_scans.specs.Entries.{AreNotTaken, AreNoLines};
ghost use Rattle.store_scans.specs.IndexingReader.{takes_plain, refuses_plain, takes_old, refuses_old, takes_shown, refuses_shown};
ghost use Rattle.store_scans.specs.TakerLaws.{no_plain, no_old, no_shown};

use crate::indexing::EditionIndex;
use crate::scan::Taker;
use std::alloc::Global;
use store_rows::{Reader, RowsFault, StoredColumns};
use store_tables::{EntryRecord, KeyedEntry, OldEntry, StoredRow};

/// A reader of the records of the tables, beside the index of the entries that it has taken.
#[derive(Drop)]
pub struct IndexingReader {
    pub reader: Reader,
    /// Of one edition where it was begun anew before it.
    pub index: EditionIndex,
}

/// An entry of schema 4 without what was derived of it, and what is shown of it.
fn without_keys(row: KeyedEntry<String, Vec<u8>>) -> (EntryRecord<String>, String)
    ensures { shown_as (owned_entry result.0) (string_bytes result.1) ≡ entry_without_keys (owned_keyed_entry row) }
{
    let KeyedEntry {
        edition,
        ord,
        headword,
        start,
        length,
        shown,
        ..
    } = row;
    let entry = EntryRecord {
        edition,
        ord,
        headword,
        start,
        length,
    };
    (entry, shown)
}

/// An entry of schemas 2 and 3 without what was derived of it.
fn without_old_keys(row: OldEntry<String, Vec<u8>>) -> EntryRecord<String>
    ensures { owned_entry result ≡ plain_entry (owned_old_entry row) }
{
    let OldEntry {
        edition,
        ord,
        headword,
        start,
        length,
        ..
    } = row;
    EntryRecord {
        edition,
        ord,
        headword,
        start,
        length,
    }
}

impl IndexingReader {
    ghost use Rattle.store_scans.specs.IndexingReader.{AreTakenAndIndexed, AreLinesAdded};

    /// Takes an entry of the edition that was taken last, of which this is shown, and adds it to the index.
    fn entry(
        &mut self,
        alloc: Global,
        row: &EntryRecord<String>,
        shown: &str,
    ) -> Result<(), RowsFault>
        ensures added { OnOk result (AreTakenAndIndexed self.old self.new (shown_as (owned_entry row.now) shown.now ∷ [])) }
        ensures damaged { IfErr result (λ fault. fault ≡ RowsFault.Damaged → AreNotTaken self.old.reader (shown_as (owned_entry row.now) shown.now ∷ [])) }
    {
        self.reader.entry(alloc, row, shown)?;
        self.index.add(row, shown)
    }

    /// Takes the next line of the index of that edition, and adds its entry to the index in memory.
    pub(crate) fn line(&mut self, alloc: Global, line: &StoredColumns<'_>) -> Result<(), RowsFault>
        ensures added { OnOk result (AreLinesAdded self.old self.new (columns_line line.now ∷ [])) }
        ensures damaged { IfErr result (λ fault. fault ≡ RowsFault.Damaged → AreNoLines self.old.reader (columns_line line.now ∷ [])) }
    {
        self.reader
            .line(alloc, line.headword, line.offset, line.size, line.shown)?;
        self.index.add_line(line)
    }
}

/// The entries of the edition that was taken last, as schema 1 has them.
impl Taker<StoredRow<EntryRecord<String>>> for IndexingReader {
    ghost takes = { takes_plain };

    ghost refuses = { refuses_plain };

    fn take(
        &mut self,
        alloc: Global,
        next: StoredRow<EntryRecord<String>>,
    ) -> Result<(), RowsFault> {
        self.entry(alloc, &next.value, next.value.headword.as_str())
    }

    ghost none = { no_plain };
}

/// The entries of schema 4 of the edition that was taken last. Their keys are as they were stored, and aren't looked at.
impl Taker<StoredRow<KeyedEntry<String, Vec<u8>>>> for IndexingReader {
    ghost takes = { takes_shown };

    ghost refuses = { refuses_shown };

    fn take(
        &mut self,
        alloc: Global,
        next: StoredRow<KeyedEntry<String, Vec<u8>>>,
    ) -> Result<(), RowsFault> {
        let (entry, shown) = without_keys(next.value);
        self.entry(alloc, &entry, shown.as_str())
    }

    ghost none = { no_shown };
}

/// The entries of schemas 2 and 3 of the edition that was taken last. Their keys are as they were stored, and aren't looked at.
impl Taker<StoredRow<OldEntry<String, Vec<u8>>>> for IndexingReader {
    ghost takes = { takes_old };

    ghost refuses = { refuses_old };

    fn take(
        &mut self,
        alloc: Global,
        next: StoredRow<OldEntry<String, Vec<u8>>>,
    ) -> Result<(), RowsFault> {
        let entry = without_old_keys(next.value);
        self.entry(alloc, &entry, entry.headword.as_str())
    }

    ghost none = { no_old };
}
