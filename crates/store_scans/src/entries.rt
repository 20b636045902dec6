// The entries of one edition, read row by row, as each layout files them.
ghost use Rattle.std.specs.Prelude.{◌≡◌, ◌++◌, List, map, IfErr, OnOk};
ghost use Rattle.sqlite.specs.State.{HasCleanDisk, IsLive};
ghost use Rattle.sqlite.specs.Held.{state};
ghost use Rattle.store_tables.specs.Tables.{entry};
ghost use Rattle.store_tables.specs.Keyed.{entry_with_keys as keyed_entry, old_entry};
ghost use Rattle.store_sql.specs.PartTable.{part};
ghost use Rattle.store_tables.specs.Records.{EntryRecord as AnEntry};
ghost use Rattle.store_tables.specs.Effects.{Has, WhileOpen};
ghost use Rattle.store_rows.specs.Versions.{Plain, Keyed, Shown, Parted};
ghost use Rattle.store_scans.specs.Reading.{Same, OnlyReads, IsExcusedReading};
ghost use Rattle.store_scans.specs.Entries.{TakesEntries, HasWrongEntries};
ghost use Rattle.store_scans.specs.Indexing.{indexed_of};

use crate::fault::{ReadingFault, fault_of_rows, fault_of_store};
use crate::files::{INDEX_FILE, read_file};
use crate::index::read_index;
use crate::indexing_reader::IndexingReader;
use crate::scan::take_all;
use sqlite::{Alter, Connection};
use std::alloc::Global;
use store_older_sql::{read_old_rows_of, read_shown_rows_of};
use store_sql::stream::read_entries_of;
use store_tables::{EntryRecord, KeyedEntry, OldEntry, StoredRow};

/// Takes the entries of the edition that was taken last, which has this number, from tables without keys, and adds them to the index.
pub fn read_plain_entries<S: Alter>(
    alloc: Global,
    conn: &mut Connection<S>,
    number: i64,
    reader: &mut IndexingReader,
) -> Result<(), ReadingFault>
    requires { WhileOpen (state S.Store conn.old) (Has entry) }
    ensures reads { OnlyReads (state S.Store conn.old) (state S.Store conn.new) }
    ensures failed { HasCleanDisk (state S.Store conn.new) → IfErr result (IsExcusedReading (state S.Store conn.old) (state S.Store conn.new)) }
    ensures same { HasCleanDisk (state S.Store conn.new) → OnOk result (Same (state S.Store conn.old) (state S.Store conn.new)) }
    ensures whole { HasCleanDisk (state S.Store conn.new) → OnOk result ((all : List AnEntry) × TakesEntries Plain (state S.Store conn.old).now number reader.old.reader reader.new.reader all × (reader.new.index ≡ reader.old.index ++ map indexed_of all)) }
    ensures damaged { HasCleanDisk (state S.Store conn.new) → IfErr result (λ fault. fault ≡ ReadingFault.Damaged → HasWrongEntries Plain (state S.Store conn.old).now number reader.old.reader) }
{
    let mut rows = match read_entries_of(conn, number) {
        Ok(rows) => rows,
        Err(error) => return Err(fault_of_store(error)),
    };
    take_all::<S, StoredRow<EntryRecord<String>>, IndexingReader>(alloc, &mut rows, reader)
}

/// Takes the entries of the edition that was taken last, which has this number, from the tables of schemas 2 and 3, and adds
/// them to the index. Of each row five columns are looked at.
pub fn read_old_entries<S: Alter>(
    alloc: Global,
    conn: &mut Connection<S>,
    number: i64,
    reader: &mut IndexingReader,
) -> Result<(), ReadingFault>
    requires { WhileOpen (state S.Store conn.old) (Has old_entry) }
    ensures reads { OnlyReads (state S.Store conn.old) (state S.Store conn.new) }
    ensures failed { HasCleanDisk (state S.Store conn.new) → IfErr result (IsExcusedReading (state S.Store conn.old) (state S.Store conn.new)) }
    ensures same { HasCleanDisk (state S.Store conn.new) → OnOk result (Same (state S.Store conn.old) (state S.Store conn.new)) }
    ensures whole { HasCleanDisk (state S.Store conn.new) → OnOk result ((all : List AnEntry) × TakesEntries Keyed (state S.Store conn.old).now number reader.old.reader reader.new.reader all × (reader.new.index ≡ reader.old.index ++ map indexed_of all)) }
    ensures damaged { HasCleanDisk (state S.Store conn.new) → IfErr result (λ fault. fault ≡ ReadingFault.Damaged → HasWrongEntries Keyed (state S.Store conn.old).now number reader.old.reader) }
{
    is_live(conn);
    let mut rows = match read_old_rows_of(conn, number) {
        Ok(rows) => rows,
        Err(error) => return Err(fault_of_store(error)),
    };
    take_all::<S, StoredRow<OldEntry<String, Vec<u8>>>, IndexingReader>(alloc, &mut rows, reader)
}

/// Takes the entries of the edition that was taken last, which has this number, from the tables of schema 4, and adds them to the
/// index. Of each row six columns are looked at.
pub fn read_shown_entries<S: Alter>(
    alloc: Global,
    conn: &mut Connection<S>,
    number: i64,
    reader: &mut IndexingReader,
) -> Result<(), ReadingFault>
    requires { WhileOpen (state S.Store conn.old) (Has keyed_entry) }
    ensures reads { OnlyReads (state S.Store conn.old) (state S.Store conn.new) }
    ensures failed { HasCleanDisk (state S.Store conn.new) → IfErr result (IsExcusedReading (state S.Store conn.old) (state S.Store conn.new)) }
    ensures same { HasCleanDisk (state S.Store conn.new) → OnOk result (Same (state S.Store conn.old) (state S.Store conn.new)) }
    ensures whole { HasCleanDisk (state S.Store conn.new) → OnOk result ((all : List AnEntry) × TakesEntries Shown (state S.Store conn.old).now number reader.old.reader reader.new.reader all × (reader.new.index ≡ reader.old.index ++ map indexed_of all)) }
    ensures damaged { HasCleanDisk (state S.Store conn.new) → IfErr result (λ fault. fault ≡ ReadingFault.Damaged → HasWrongEntries Shown (state S.Store conn.old).now number reader.old.reader) }
{
    is_live(conn);
    let mut rows = match read_shown_rows_of(conn, number) {
        Ok(rows) => rows,
        Err(error) => return Err(fault_of_store(error)),
    };
    take_all::<S, StoredRow<KeyedEntry<String, Vec<u8>>>, IndexingReader>(alloc, &mut rows, reader)
}

/// Takes the entries of the edition that was taken last, which has this number, from the parts of its index, and adds them to the
/// index in memory.
pub fn read_filed_entries<S: Alter>(
    alloc: Global,
    conn: &mut Connection<S>,
    number: i64,
    reader: &mut IndexingReader,
) -> Result<(), ReadingFault>
    requires { WhileOpen (state S.Store conn.old) (Has part) }
    ensures reads { OnlyReads (state S.Store conn.old) (state S.Store conn.new) }
    ensures failed { HasCleanDisk (state S.Store conn.new) → IfErr result (IsExcusedReading (state S.Store conn.old) (state S.Store conn.new)) }
    ensures same { HasCleanDisk (state S.Store conn.new) → OnOk result (Same (state S.Store conn.old) (state S.Store conn.new)) }
    ensures whole { HasCleanDisk (state S.Store conn.new) → OnOk result ((all : List AnEntry) × TakesEntries Parted (state S.Store conn.old).now number reader.old.reader reader.new.reader all × (reader.new.index ≡ reader.old.index ++ map indexed_of all)) }
    ensures damaged { HasCleanDisk (state S.Store conn.new) → IfErr result (λ fault. fault ≡ ReadingFault.Damaged → HasWrongEntries Parted (state S.Store conn.old).now number reader.old.reader) }
{
    let octets = read_file(alloc, conn, number, INDEX_FILE)?;
    match read_index(alloc, number, &octets, reader) {
        Ok(()) => Ok(()),
        Err(fault) => Err(fault_of_rows(fault)),
    }
}

/// What an open connection shows is a database: its rows obey its schema. It does nothing; its clause is the law.
pub(crate) fn is_live<S: Alter>(conn: &Connection<S>)
    ensures { IsLive (state S.Store conn.now) }
{
    conn.schema();
}
