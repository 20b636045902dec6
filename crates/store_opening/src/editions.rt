// The editions that the items name, each with its entries.
ghost use Rattle.std.specs.Prelude.{◌≡◌, ◌++◌, ℕ, pos, List, [], map, IfErr, OnOk};
ghost use Rattle.sqlite.specs.State.{HasCleanDisk};
ghost use Rattle.sqlite.specs.Held.{state};
ghost use Rattle.store_tables.specs.Records.{EntryRecord};
ghost use Rattle.store_tables.specs.Effects.{WhileOpen};
ghost use Rattle.store_rows.specs.Tables.{Tables, entries_of};
ghost use Rattle.store_rows.specs.Taken.{HasTaken};
ghost use Rattle.store_rows.specs.Versions.{layout_of as layout_at};
ghost use Rattle.store_scans.specs.Reading.{Same, OnlyReads, IsExcusedReading};
ghost use Rattle.store_scans.specs.Entries.{HasEntries, HasWrongEntries, TakesEntries};
ghost use Rattle.store_scans.specs.Indexing.{indexed_of};
ghost use Rattle.store_opening.specs.Indexed.{HasPut, HaveRowsIndexed};
ghost use Rattle.store_opening.specs.Layouts.{layout_in};
ghost use Rattle.store_opening.specs.Opens.{KeepsNone, HasVersionTables, HasTablesOf, CanReadOne, HasReadOne, CanRead, HasReadEditions};

use crate::layout::{TableLayout, layout_of};
use crate::texts::read_edition;
use sqlite::{Alter, Connection};
use std::alloc::Global;
use std::mem::replace;
use store_holdings::Indexes;
use store_rows::number_in;
use store_scans::{
    EditionIndex, IndexingReader, ReadingFault, fault_of_rows, read_filed_entries,
    read_old_entries, read_plain_entries, read_shown_entries,
};

/// Takes the entries of the edition that was taken last, which has this number, and adds them to the index.
fn read_entries<S: Alter>(
    alloc: Global,
    conn: &mut Connection<S>,
    layout: TableLayout,
    number: i64,
    reader: &mut IndexingReader,
) -> Result<(), ReadingFault>
    requires { WhileOpen (state S.Store conn.old) (HasTablesOf (layout_in layout)) }
    ensures reads { OnlyReads (state S.Store conn.old) (state S.Store conn.new) }
    ensures failed { HasCleanDisk (state S.Store conn.new) → IfErr result (IsExcusedReading (state S.Store conn.old) (state S.Store conn.new)) }
    ensures same { HasCleanDisk (state S.Store conn.new) → OnOk result (Same (state S.Store conn.old) (state S.Store conn.new)) }
    ensures whole { HasCleanDisk (state S.Store conn.new) → OnOk result ((es : List EntryRecord) × TakesEntries (layout_in layout) (state S.Store conn.old).now number reader.old.reader reader.new.reader es × (reader.new.index ≡ reader.old.index ++ map indexed_of es)) }
    ensures damaged { HasCleanDisk (state S.Store conn.new) → IfErr result (λ fault. fault ≡ ReadingFault.Damaged → HasWrongEntries (layout_in layout) (state S.Store conn.old).now number reader.old.reader) }
{
    match layout {
        TableLayout::Plain => read_plain_entries(alloc, conn, number, reader),
        TableLayout::Keyed => read_old_entries(alloc, conn, number, reader),
        TableLayout::Shown => read_shown_entries(alloc, conn, number, reader),
        TableLayout::Parted => read_filed_entries(alloc, conn, number, reader),
    }
}

/// Takes the edition of this number, with its entries, and makes the index of it.
fn read_number<S: Alter>(
    alloc: Global,
    conn: &mut Connection<S>,
    version: u64,
    number: i64,
    reader: &mut IndexingReader,
) -> Result<(), ReadingFault>
    requires { WhileOpen (state S.Store conn.old) (HasVersionTables version) }
    ensures reads { OnlyReads (state S.Store conn.old) (state S.Store conn.new) }
    ensures failed { HasCleanDisk (state S.Store conn.new) → IfErr result (IsExcusedReading (state S.Store conn.old) (state S.Store conn.new)) }
    ensures same { HasCleanDisk (state S.Store conn.new) → OnOk result (Same (state S.Store conn.old) (state S.Store conn.new)) }
    ensures whole { HasCleanDisk (state S.Store conn.new) → OnOk result ((taken : Tables) → HasTaken version reader.old.reader taken → entries_of number taken.entries ≡ [] → (after : Tables) × HasTaken version reader.new.reader after × HasReadOne (layout_at version) (state S.Store conn.old).now number taken after) }
    ensures indexed { HasCleanDisk (state S.Store conn.new) → OnOk result ((given : List EntryRecord) × HasEntries (layout_at version) (state S.Store conn.old).now number given × (reader.new.index ≡ map indexed_of given)) }
    ensures damaged { HasCleanDisk (state S.Store conn.new) → IfErr result (λ fault. fault ≡ ReadingFault.Damaged → (taken : Tables) → HasTaken version reader.old.reader taken → CanReadOne version (state S.Store conn.old).now taken number → KeepsNone version (state S.Store conn.old).now taken.members) }
{
    reader.reader.let_go();
    drop(replace(&mut reader.index, EditionIndex::new(alloc)));
    let edition = read_edition(alloc, conn, layout_of(version), number)?;
    if let Err(fault) = reader.reader.edition(edition) {
        return Err(fault_of_rows(fault));
    }
    read_entries(alloc, conn, layout_of(version), number, reader)
}

/// Puts the index of the entries that were taken under the number of their edition, unmade, and begins another one.
fn put_index(
    alloc: Global,
    number: i64,
    index: &mut EditionIndex,
    indexes: &mut Indexes,
) -> Result<(), ReadingFault>
    ensures put { OnOk result ((n : ℕ) → number ≡ pos n → HasPut n index.old indexes.old indexes.new) }
    ensures only { IfErr result (λ fault. fault ≡ ReadingFault.Memory) }
{
    let taken = replace(index, EditionIndex::new(alloc));
    let Some(number) = number_in(&number) else {
        drop(taken);
        return Ok(());
    };
    match indexes.put_unmade(number, taken.making()) {
        Ok(()) => Ok(()),
        Err(_) => Err(ReadingFault::Memory),
    }
}

/// Takes the editions of these numbers, each with its entries, and puts an index of each under its number.
pub(crate) fn read_numbered_editions<S: Alter>(
    alloc: Global,
    conn: &mut Connection<S>,
    version: u64,
    numbers: &[i64],
    reader: &mut IndexingReader,
    indexes: &mut Indexes,
) -> Result<(), ReadingFault>
    requires { WhileOpen (state S.Store conn.old) (HasVersionTables version) }
    ensures reads { OnlyReads (state S.Store conn.old) (state S.Store conn.new) }
    ensures failed { HasCleanDisk (state S.Store conn.new) → IfErr result (IsExcusedReading (state S.Store conn.old) (state S.Store conn.new)) }
    ensures same { HasCleanDisk (state S.Store conn.new) → OnOk result (Same (state S.Store conn.old) (state S.Store conn.new)) }
    ensures whole { HasCleanDisk (state S.Store conn.new) → OnOk result ((front : Tables) → CanRead version (state S.Store conn.old).now reader.old.reader numbers.now front → (after : Tables) × HasTaken version reader.new.reader after × HasReadEditions version (state S.Store conn.old).now numbers.now front after) }
    ensures indexed { HasCleanDisk (state S.Store conn.new) → OnOk result ((ns : List ℕ) → numbers.now ≡ map pos ns → HaveRowsIndexed (layout_at version) (state S.Store conn.old).now ns indexes.new) }
    ensures damaged { HasCleanDisk (state S.Store conn.new) → IfErr result (λ fault. fault ≡ ReadingFault.Damaged → (front : Tables) → CanRead version (state S.Store conn.old).now reader.old.reader numbers.now front → KeepsNone version (state S.Store conn.old).now front.members) }
{
    for number in numbers {
        read_number(alloc, conn, version, *number, reader)?;
        put_index(alloc, *number, &mut reader.index, indexes)?;
    }
    Ok(())
}
