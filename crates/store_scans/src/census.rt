// The rows of tables whose rows are those of editions: no two under one rowid, and none of an edition that isn't there, but for parts
// where there may be such.
ghost use Rattle.std.specs.Prelude.{◌≡◌, ◌⊎◌, ◌++◌, ◌∷◌, [], true, false, ℤ, List, codes, IfErr, OnOk};
ghost use Rattle.sqlite.specs.State.{HasCleanDisk};
ghost use Rattle.sqlite.specs.Held.{state};
ghost use Rattle.sqlite.specs.Order.{column};
ghost use Rattle.sqlite.specs.declared.types.Value.TheVariants.{Int};
ghost use Rattle.store_tables.specs.Tables.{entry};
ghost use Rattle.store_tables.specs.Keyed.{entry_with_keys as keyed_entry, old_entry};
ghost use Rattle.store_tables.specs.Effects.{Has, WhileOpen};
ghost use Rattle.store_sql.specs.PartRecords.{stored_part};
ghost use Rattle.store_rows.specs.Apart.{HasTakenRowids};
ghost use Rattle.store_rows.specs.Order.{InOrder, is_of};
ghost use Rattle.store_rows.specs.Tables.{same_number};
ghost use Rattle.store_rows.specs.Versions.{Plain, Keyed, Shown};
ghost use Rattle.store_sql.specs.Readings.{IsReadable, contents, table_name_of};
ghost use Rattle.store_scans.specs.Reading.{Same, OnlyReads, IsExcusedReading};
ghost use Rattle.store_scans.specs.Census.{AreNumberedApart, is_in_file, may_stand, reading_of, TakesCensus, refuses_census, TakesPartCensus, refuses_part_census};
ghost use Rattle.store_scans.specs.TakerLaws.{no_census, no_part_census};

use crate::entries::is_live;
use crate::fault::{ReadingFault, fault_of_store};
use crate::files::{INDEX_FILE, TEXT_FILE};
use crate::scan::{Taker, take_all};
use sqlite::{Alter, Connection};
use std::alloc::Global;
use store_older_sql::{read_old_by_rowid, read_shown_by_rowid};
use store_rows::{RowidReader, RowsFault, number_in};
use store_sql::header_records::StoredHeader;
use store_sql::part_records::StoredPart;
use store_sql::records::{EditionNumber, Record};
use store_sql::stream::read_by_rowid;
use store_tables::{EntryRecord, KeyedEntry, OldEntry, StoreTable, StoredRow};

/// A table of the entries of editions, as schema 1 has it, as schemas 2 and 3 do, and as the fourth does.
#[derive(Clone, Copy, Debug, PartialEq, Eq)]
pub enum EditionTable {
    PlainEntry,
    OldEntry,
    ShownEntry,
}

/// A record of an edition, whose number its row has in the first column behind the rowid.
pub(crate) trait OfEdition: Record {
    /// The number.
    fn edition(&self) -> i64
        ensures { column (Self.stored self.now) 1 ≡ Int result };
}

impl OfEdition for StoredRow<EntryRecord<String>> {
    fn edition(&self) -> i64 {
        self.value.edition
    }
}

impl OfEdition for StoredRow<OldEntry<String, Vec<u8>>> {
    fn edition(&self) -> i64 {
        self.value.edition
    }
}

impl OfEdition for StoredRow<KeyedEntry<String, Vec<u8>>> {
    fn edition(&self) -> i64 {
        self.value.edition
    }
}

impl OfEdition for StoredRow<EditionNumber> {
    fn edition(&self) -> i64 {
        self.value.number
    }
}

impl OfEdition for StoredHeader {
    fn edition(&self) -> i64 {
        self.value.number
    }
}

/// What takes the rows of a table in the order of their rowids, beside the numbers of the editions that there are.
#[derive(Drop)]
pub(crate) struct Census<'a> {
    pub(crate) numbers: &'a [i64],
    pub(crate) rowids: RowidReader,
}

fn is_same(one: i64, other: i64) -> bool
    ensures { result ≡ same_number one other }
{
    one == other
}

fn is_one_of(numbers: &[i64], found: i64) -> bool
    ensures { result ≡ is_of numbers.now found }
{
    for number in numbers {
        if is_same(found, *number) {
            return true;
        }
    }
    false
}

impl Census<'_> {
    /// Takes the rowid and the edition's number of the next row.
    fn row(&mut self, rowid: i64, edition: i64) -> Result<(), RowsFault>
        ensures numbers { self.new.numbers ≡ self.old.numbers }
        ensures known { OnOk result (is_of self.old.numbers.now edition ≡ true) }
        ensures taken { OnOk result ((taken : List ℤ) → HasTakenRowids self.old.rowids taken → HasTakenRowids self.new.rowids (taken ++ rowid ∷ [])) }
        ensures damaged { IfErr result (λ fault. fault ≡ RowsFault.Damaged → ((taken : List ℤ) → HasTakenRowids self.old.rowids taken → InOrder (λ a b. a ≡ b → ⊥) (taken ++ rowid ∷ []) → ⊥) ⊎ (is_of self.old.numbers.now edition ≡ false)) }
    {
        if !is_one_of(self.numbers, edition) {
            return Err(RowsFault::Damaged);
        }
        self.rowids.rowid(rowid)
    }
}

impl<R: OfEdition + Drop> Taker<R> for Census<'_> {
    ghost takes = { TakesCensus R.stored };

    ghost refuses = { refuses_census R.stored };

    fn take(&mut self, _: Global, next: R) -> Result<(), RowsFault> {
        self.row(next.rowid(), next.edition())
    }

    ghost none = { no_census R.stored };
}

/// What takes the parts in the order of their rowids, beside the numbers of the editions that there are. Where there may be orphans,
/// parts of any other number pass too, and their numbers are noted.
#[derive(Drop)]
pub(crate) struct PartCensus<'a> {
    pub(crate) numbers: &'a [i64],
    pub(crate) may_have_orphans: bool,
    pub(crate) rowids: RowidReader,
    pub(crate) orphans: Vec<u64>,
}

fn is_in_file(part: &StoredPart) -> bool
    ensures { result ≡ is_in_file (stored_part part.now) }
{
    is_same(part.part.file, INDEX_FILE) || is_same(part.part.file, TEXT_FILE)
}

/// Whether the number is the last of these.
fn is_last(numbers: &[u64], number: u64) -> bool {
    match numbers.last() {
        Some(last) => *last == number,
        None => false,
    }
}

/// Notes the number of an orphan: once where others of it follow, and not at all where it is no number of an edition.
fn note(orphans: &mut Vec<u64>, number: i64) -> Result<(), RowsFault>
    ensures { IfErr result (λ fault. fault ≡ RowsFault.Memory) }
{
    let Some(number) = number_in(&number) else {
        return Ok(());
    };
    if is_last(orphans, number) {
        return Ok(());
    }
    match orphans.push(number) {
        Ok(()) => Ok(()),
        Err(_) => Err(RowsFault::Memory),
    }
}

/// Tests that the part is one of the index or of the text of an edition that has one of these numbers, or, where there may be
/// orphans, one of another number, which is noted then.
fn test_part(
    numbers: &[i64],
    may_have_orphans: bool,
    orphans: &mut Vec<u64>,
    part: &StoredPart,
) -> Result<(), RowsFault>
    ensures passes { OnOk result (may_stand may_have_orphans numbers.now (stored_part part.now) ≡ true) }
    ensures damaged { IfErr result (λ fault. fault ≡ RowsFault.Damaged → may_stand may_have_orphans numbers.now (stored_part part.now) ≡ false) }
{
    if is_one_of(numbers, part.part.edition) {
        if is_in_file(part) {
            return Ok(());
        }
        return Err(RowsFault::Damaged);
    }
    if !may_have_orphans {
        return Err(RowsFault::Damaged);
    }
    note(orphans, part.part.edition)
}

impl Taker<StoredPart> for PartCensus<'_> {
    ghost takes = { TakesPartCensus };

    ghost refuses = { refuses_part_census };

    fn take(&mut self, _: Global, next: StoredPart) -> Result<(), RowsFault> {
        test_part(
            self.numbers,
            self.may_have_orphans,
            &mut self.orphans,
            &next,
        )?;
        self.rowids.rowid(next.rowid)
    }

    ghost none = { no_part_census };
}

/// Tests the entries of schema 1.
fn test_plain_rows<S: Alter>(
    alloc: Global,
    conn: &mut Connection<S>,
    numbers: &[i64],
) -> Result<(), ReadingFault>
    requires { WhileOpen (state S.Store conn.old) (Has entry) }
    ensures reads { OnlyReads (state S.Store conn.old) (state S.Store conn.new) }
    ensures failed { HasCleanDisk (state S.Store conn.new) → IfErr result (IsExcusedReading (state S.Store conn.old) (state S.Store conn.new)) }
    ensures same { HasCleanDisk (state S.Store conn.new) → OnOk result (Same (state S.Store conn.old) (state S.Store conn.new)) }
    ensures whole { HasCleanDisk (state S.Store conn.new) → OnOk result (AreNumberedApart numbers.now (codes "entry") (state S.Store conn.old).now) }
    ensures damaged { HasCleanDisk (state S.Store conn.new) → IfErr result (λ fault. fault ≡ ReadingFault.Damaged → IsReadable (contents Plain) (state S.Store conn.old).now → AreNumberedApart numbers.now (codes "entry") (state S.Store conn.old).now → ⊥) }
{
    let mut rows = match read_by_rowid(conn, StoreTable::Entry) {
        Ok(rows) => rows,
        Err(error) => return Err(fault_of_store(error)),
    };
    let mut census = Census {
        numbers,
        rowids: RowidReader::new(),
    };
    take_all::<S, StoredRow<EntryRecord<String>>, Census<'_>>(alloc, &mut rows, &mut census)
}

/// Tests the entries of schemas 2 and 3.
fn test_old_rows<S: Alter>(
    alloc: Global,
    conn: &mut Connection<S>,
    numbers: &[i64],
) -> Result<(), ReadingFault>
    requires { WhileOpen (state S.Store conn.old) (Has old_entry) }
    ensures reads { OnlyReads (state S.Store conn.old) (state S.Store conn.new) }
    ensures failed { HasCleanDisk (state S.Store conn.new) → IfErr result (IsExcusedReading (state S.Store conn.old) (state S.Store conn.new)) }
    ensures same { HasCleanDisk (state S.Store conn.new) → OnOk result (Same (state S.Store conn.old) (state S.Store conn.new)) }
    ensures whole { HasCleanDisk (state S.Store conn.new) → OnOk result (AreNumberedApart numbers.now (codes "entry") (state S.Store conn.old).now) }
    ensures damaged { HasCleanDisk (state S.Store conn.new) → IfErr result (λ fault. fault ≡ ReadingFault.Damaged → IsReadable (contents Keyed) (state S.Store conn.old).now → AreNumberedApart numbers.now (codes "entry") (state S.Store conn.old).now → ⊥) }
{
    is_live(conn);
    let mut rows = match read_old_by_rowid(conn) {
        Ok(rows) => rows,
        Err(error) => return Err(fault_of_store(error)),
    };
    let mut census = Census {
        numbers,
        rowids: RowidReader::new(),
    };
    take_all::<S, StoredRow<OldEntry<String, Vec<u8>>>, Census<'_>>(alloc, &mut rows, &mut census)
}

/// Tests the entries of schema 4.
fn test_shown_rows<S: Alter>(
    alloc: Global,
    conn: &mut Connection<S>,
    numbers: &[i64],
) -> Result<(), ReadingFault>
    requires { WhileOpen (state S.Store conn.old) (Has keyed_entry) }
    ensures reads { OnlyReads (state S.Store conn.old) (state S.Store conn.new) }
    ensures failed { HasCleanDisk (state S.Store conn.new) → IfErr result (IsExcusedReading (state S.Store conn.old) (state S.Store conn.new)) }
    ensures same { HasCleanDisk (state S.Store conn.new) → OnOk result (Same (state S.Store conn.old) (state S.Store conn.new)) }
    ensures whole { HasCleanDisk (state S.Store conn.new) → OnOk result (AreNumberedApart numbers.now (codes "entry") (state S.Store conn.old).now) }
    ensures damaged { HasCleanDisk (state S.Store conn.new) → IfErr result (λ fault. fault ≡ ReadingFault.Damaged → IsReadable (contents Shown) (state S.Store conn.old).now → AreNumberedApart numbers.now (codes "entry") (state S.Store conn.old).now → ⊥) }
{
    is_live(conn);
    let mut rows = match read_shown_by_rowid(conn) {
        Ok(rows) => rows,
        Err(error) => return Err(fault_of_store(error)),
    };
    let mut census = Census {
        numbers,
        rowids: RowidReader::new(),
    };
    take_all::<S, StoredRow<KeyedEntry<String, Vec<u8>>>, Census<'_>>(alloc, &mut rows, &mut census)
}

/// Tests that no two rows of the table have one rowid, and that each is of an edition that has one of these numbers. One
/// scan does both, and holds one row.
///
/// `Damaged` tells that it isn't so, or that a row is of another kind than a record.
pub fn test_rows<S: Alter>(
    alloc: Global,
    conn: &mut Connection<S>,
    table: EditionTable,
    numbers: &[i64],
) -> Result<(), ReadingFault>
    requires { WhileOpen (state S.Store conn.old) (Has (reading_of table).table) }
    ensures reads { OnlyReads (state S.Store conn.old) (state S.Store conn.new) }
    ensures failed { HasCleanDisk (state S.Store conn.new) → IfErr result (IsExcusedReading (state S.Store conn.old) (state S.Store conn.new)) }
    ensures same { HasCleanDisk (state S.Store conn.new) → OnOk result (Same (state S.Store conn.old) (state S.Store conn.new)) }
    ensures whole { HasCleanDisk (state S.Store conn.new) → OnOk result (AreNumberedApart numbers.now (table_name_of (reading_of table)) (state S.Store conn.old).now) }
    ensures damaged { HasCleanDisk (state S.Store conn.new) → IfErr result (λ fault. fault ≡ ReadingFault.Damaged → IsReadable (reading_of table) (state S.Store conn.old).now → AreNumberedApart numbers.now (table_name_of (reading_of table)) (state S.Store conn.old).now → ⊥) }
{
    match table {
        EditionTable::PlainEntry => test_plain_rows(alloc, conn, numbers),
        EditionTable::OldEntry => test_old_rows(alloc, conn, numbers),
        EditionTable::ShownEntry => test_shown_rows(alloc, conn, numbers),
    }
}
