// The records of all tables, and the catalogue that they stand for.
ghost use Rattle.std.specs.Prelude.{◌≡◌, map, codes, [], ◌∷◌, IfOk, IfErr, OnOk};
ghost use Rattle.sqlite.specs.State.{HasCleanDisk};
ghost use Rattle.sqlite.specs.Held.{state};
ghost use Rattle.store_tables.specs.Effects.{WhileOpen};
ghost use Rattle.store_sql.specs.Encodings.{stored_mark};
ghost use Rattle.store_sql.specs.Reads.{IsListing};
ghost use Rattle.store_rows.specs.Tables.{Tables};
ghost use Rattle.store_rows.specs.Taken.{HasTaken, items_in};
ghost use Rattle.store_rows.specs.Versions.{layout_of as layout_at};
ghost use Rattle.dict_catalogue.specs.Items.{edition_numbers};
ghost use Rattle.dict_catalogue.specs.Views.{summary_shown};
ghost use Rattle.store_scans.specs.Reading.{Same, OnlyReads, IsExcusedReading};
ghost use Rattle.store_opening.specs.Indexed.{HaveRowsIndexed};
ghost use Rattle.store_opening.specs.Opens.{HasVersionTables, KeepsNone, HoldsNoneAs, HasBegun, AllGoOnFrom, HasNamed, HasReplies, HasAll, HasSummary};

use crate::editions::read_numbered_editions;
use crate::strays::test_strays;
use dict_catalogue::Summary;
use sqlite::{Alter, Connection};
use std::alloc::Global;
use store_holdings::Indexes;
use store_rows::Reader;
use store_scans::{
    EditionIndex, IndexingReader, ReadingFault, fault_of_read, fault_of_rows, read_replies,
    test_ids,
};
use store_sql::read::{items, members};
use store_tables::{Mark, StoredRow};

/// Begins with the mark, which is of this version, the items and the members.
fn begin<S: Alter>(
    alloc: Global,
    conn: &mut Connection<S>,
    version: u64,
    marks: &[StoredRow<Mark<String>>],
) -> Result<Reader, ReadingFault>
    requires { WhileOpen (state S.Store conn.old) (HasVersionTables version) }
    ensures reads { OnlyReads (state S.Store conn.old) (state S.Store conn.new) }
    ensures failed { HasCleanDisk (state S.Store conn.new) → IfErr result (IsExcusedReading (state S.Store conn.old) (state S.Store conn.new)) }
    ensures same { HasCleanDisk (state S.Store conn.new) → OnOk result (Same (state S.Store conn.old) (state S.Store conn.new)) }
    ensures begun { HasCleanDisk (state S.Store conn.new) → IfOk result (λ reader. IsListing (codes "mark") (1 ∷ []) (state S.Store conn.old).now (map stored_mark marks.now) → (front : Tables) × HasTaken version reader front × HasBegun version (state S.Store conn.old).now front) }
    ensures damaged { HasCleanDisk (state S.Store conn.new) → IfErr result (λ fault. fault ≡ ReadingFault.Damaged → IsListing (codes "mark") (1 ∷ []) (state S.Store conn.old).now (map stored_mark marks.now) → HoldsNoneAs version (state S.Store conn.old).now) }
{
    let items = match items(alloc, conn) {
        Ok(items) => items,
        Err(error) => return Err(fault_of_read(error)),
    };
    let members = match members(alloc, conn) {
        Ok(members) => members,
        Err(error) => {
            drop(items);
            return Err(fault_of_read(error));
        }
    };
    let begun = Reader::begin(alloc, version, marks, &items, &members);
    drop(items);
    drop(members);
    match begun {
        Ok(reader) => Ok(reader),
        Err(fault) => Err(fault_of_rows(fault)),
    }
}

/// Takes the editions that the items name with their entries, and puts an index of each under its number.
fn read_named<S: Alter>(
    alloc: Global,
    conn: &mut Connection<S>,
    version: u64,
    reader: &mut IndexingReader,
    indexes: &mut Indexes,
) -> Result<(), ReadingFault>
    requires { WhileOpen (state S.Store conn.old) (HasVersionTables version) }
    ensures reads { OnlyReads (state S.Store conn.old) (state S.Store conn.new) }
    ensures failed { HasCleanDisk (state S.Store conn.new) → IfErr result (IsExcusedReading (state S.Store conn.old) (state S.Store conn.new)) }
    ensures same { HasCleanDisk (state S.Store conn.new) → OnOk result (Same (state S.Store conn.old) (state S.Store conn.new)) }
    ensures indexed { HasCleanDisk (state S.Store conn.new) → OnOk result (HaveRowsIndexed (layout_at version) (state S.Store conn.old).now (edition_numbers (items_in reader.old.reader)) indexes.new) }
    ensures named { HasCleanDisk (state S.Store conn.new) → OnOk result ((front : Tables) → HasTaken version reader.old.reader front → HasBegun version (state S.Store conn.old).now front → (after : Tables) × HasTaken version reader.new.reader after × HasNamed version (state S.Store conn.old).now reader.old.reader front after) }
    ensures damaged { HasCleanDisk (state S.Store conn.new) → IfErr result (λ fault. fault ≡ ReadingFault.Damaged → (front : Tables) → HasTaken version reader.old.reader front → HasBegun version (state S.Store conn.old).now front → HoldsNoneAs version (state S.Store conn.old).now) }
{
    let numbers = match reader.reader.numbers(alloc) {
        Ok(numbers) => numbers,
        Err(fault) => return Err(fault_of_rows(fault)),
    };
    read_numbered_editions(alloc, conn, version, &numbers, reader, indexes)
}

/// Takes all kept replies, no two of which have one id.
fn read_kept<S: Alter>(
    alloc: Global,
    conn: &mut Connection<S>,
    version: u64,
    reader: &mut Reader,
) -> Result<(), ReadingFault>
    requires { WhileOpen (state S.Store conn.old) (HasVersionTables version) }
    ensures reads { OnlyReads (state S.Store conn.old) (state S.Store conn.new) }
    ensures failed { HasCleanDisk (state S.Store conn.new) → IfErr result (IsExcusedReading (state S.Store conn.old) (state S.Store conn.new)) }
    ensures same { HasCleanDisk (state S.Store conn.new) → OnOk result (Same (state S.Store conn.old) (state S.Store conn.new)) }
    ensures replies { HasCleanDisk (state S.Store conn.new) → OnOk result ((taken : Tables) → HasTaken version reader.old taken → (after : Tables) × HasTaken version reader.new after × HasReplies (state S.Store conn.old).now taken after) }
    ensures damaged { HasCleanDisk (state S.Store conn.new) → IfErr result (λ fault. fault ≡ ReadingFault.Damaged → (taken : Tables) → HasTaken version reader.old taken → AllGoOnFrom version (state S.Store conn.old).now taken → taken.kept ≡ [] → KeepsNone version (state S.Store conn.old).now taken.members) }
{
    read_replies(alloc, conn, reader)?;
    test_ids(alloc, conn)
}

/// Takes the editions, the entries and the kept replies: all that are there. An index of each edition is put under its number, and the
/// numbers of orphans are put into `orphans`.
fn read_all<S: Alter>(
    alloc: Global,
    conn: &mut Connection<S>,
    version: u64,
    reader: &mut IndexingReader,
    indexes: &mut Indexes,
    orphans: &mut Vec<u64>,
) -> Result<(), ReadingFault>
    requires { WhileOpen (state S.Store conn.old) (HasVersionTables version) }
    ensures reads { OnlyReads (state S.Store conn.old) (state S.Store conn.new) }
    ensures failed { HasCleanDisk (state S.Store conn.new) → IfErr result (IsExcusedReading (state S.Store conn.old) (state S.Store conn.new)) }
    ensures same { HasCleanDisk (state S.Store conn.new) → OnOk result (Same (state S.Store conn.old) (state S.Store conn.new)) }
    ensures indexed { HasCleanDisk (state S.Store conn.new) → OnOk result (HaveRowsIndexed (layout_at version) (state S.Store conn.old).now (edition_numbers (items_in reader.old.reader)) indexes.new) }
    ensures all { HasCleanDisk (state S.Store conn.new) → OnOk result ((front : Tables) → HasTaken version reader.old.reader front → HasBegun version (state S.Store conn.old).now front → (after : Tables) × HasTaken version reader.new.reader after × HasAll version (state S.Store conn.old).now reader.old.reader front after) }
    ensures damaged { HasCleanDisk (state S.Store conn.new) → IfErr result (λ fault. fault ≡ ReadingFault.Damaged → (front : Tables) → HasTaken version reader.old.reader front → HasBegun version (state S.Store conn.old).now front → HoldsNoneAs version (state S.Store conn.old).now) }
{
    test_strays(alloc, conn, version, &reader.reader, orphans)?;
    read_named(alloc, conn, version, reader, indexes)?;
    read_kept(alloc, conn, version, &mut reader.reader)
}

/// The summary of the catalogue that the records of all tables stand for, where these are those of the mark, which is of this version;
/// indexes of its editions; and the numbers of orphans.
pub(crate) fn read_records<S: Alter>(
    alloc: Global,
    conn: &mut Connection<S>,
    version: u64,
    marks: &[StoredRow<Mark<String>>],
) -> Result<(Summary, Indexes, Vec<u64>), ReadingFault>
    requires { WhileOpen (state S.Store conn.old) (HasVersionTables version) }
    ensures reads { OnlyReads (state S.Store conn.old) (state S.Store conn.new) }
    ensures failed { HasCleanDisk (state S.Store conn.new) → IfErr result (IsExcusedReading (state S.Store conn.old) (state S.Store conn.new)) }
    ensures same { HasCleanDisk (state S.Store conn.new) → OnOk result (Same (state S.Store conn.old) (state S.Store conn.new)) }
    ensures stands { HasCleanDisk (state S.Store conn.new) → IfOk result (λ read. IsListing (codes "mark") (1 ∷ []) (state S.Store conn.old).now (map stored_mark marks.now) → HasSummary version (state S.Store conn.old).now (summary_shown read.0)) }
    ensures indexed { HasCleanDisk (state S.Store conn.new) → IfOk result (λ read. IsListing (codes "mark") (1 ∷ []) (state S.Store conn.old).now (map stored_mark marks.now) → HaveRowsIndexed (layout_at version) (state S.Store conn.old).now (edition_numbers (summary_shown read.0).items) read.1) }
    ensures damaged { HasCleanDisk (state S.Store conn.new) → IfErr result (λ fault. fault ≡ ReadingFault.Damaged → IsListing (codes "mark") (1 ∷ []) (state S.Store conn.old).now (map stored_mark marks.now) → HoldsNoneAs version (state S.Store conn.old).now) }
{
    let reader = begin(alloc, conn, version, marks)?;
    let mut reader = IndexingReader {
        reader,
        index: EditionIndex::new(alloc),
    };
    let mut indexes = Indexes::new(alloc);
    let mut orphans = Vec::new(alloc);
    if let Err(fault) = read_all(
        alloc,
        conn,
        version,
        &mut reader,
        &mut indexes,
        &mut orphans,
    ) {
        drop(reader);
        drop(indexes);
        drop(orphans);
        return Err(fault);
    }
    let IndexingReader { reader, index } = reader;
    drop(index);
    match reader.finish() {
        Ok(summary) => Ok((summary, indexes, orphans)),
        Err(fault) => {
            drop(indexes);
            drop(orphans);
            Err(fault_of_rows(fault))
        }
    }
}
