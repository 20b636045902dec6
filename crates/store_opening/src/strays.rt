// Rows of editions that no item names, and of their rowids.
ghost use Rattle.std.specs.Prelude.{◌≡◌, IfErr, OnOk};
ghost use Rattle.sqlite.specs.State.{HasCleanDisk};
ghost use Rattle.sqlite.specs.Held.{state};
ghost use Rattle.store_tables.specs.Effects.{WhileOpen};
ghost use Rattle.store_rows.specs.Tables.{Tables};
ghost use Rattle.store_rows.specs.Taken.{HasTaken};
ghost use Rattle.store_rows.specs.Versions.{layout_of as layout_at};
ghost use Rattle.store_sql.specs.Readings.{IsReadable, editions, contents, table_name_of};
ghost use Rattle.store_scans.specs.Reading.{Same, OnlyReads, IsExcusedReading};
ghost use Rattle.store_scans.specs.Census.{AreKnownApart, AreNumberedApart, may_be_in_contents};
ghost use Rattle.store_opening.specs.Layouts.{layout_in};
ghost use Rattle.store_opening.specs.Opens.{HasVersionTables, HasTablesOf, KeepsNone, AllGoOnFrom, AreAllKnown, ArePartRows, AreReadableEditions, may_have_orphans, numbers_in};

use crate::layout::{TableLayout, layout_of, may_have_orphans};
use sqlite::{Alter, Connection};
use std::alloc::Global;
use store_rows::Reader;
use store_scans::{
    EditionTable, ReadingFault, fault_of_rows, test_editions, test_headers, test_parts, test_rows,
};

/// Tests that no two editions have one rowid, and that each has one of these numbers.
fn test_records<S: Alter>(
    alloc: Global,
    conn: &mut Connection<S>,
    layout: TableLayout,
    numbers: &[i64],
) -> Result<(), ReadingFault>
    requires { WhileOpen (state S.Store conn.old) (HasTablesOf (layout_in layout)) }
    ensures reads { OnlyReads (state S.Store conn.old) (state S.Store conn.new) }
    ensures failed { HasCleanDisk (state S.Store conn.new) → IfErr result (IsExcusedReading (state S.Store conn.old) (state S.Store conn.new)) }
    ensures same { HasCleanDisk (state S.Store conn.new) → OnOk result (Same (state S.Store conn.old) (state S.Store conn.new)) }
    ensures known { HasCleanDisk (state S.Store conn.new) → OnOk result (AreNumberedApart numbers.now (table_name_of (editions (layout_in layout))) (state S.Store conn.old).now) }
    ensures damaged { HasCleanDisk (state S.Store conn.new) → IfErr result (λ fault. fault ≡ ReadingFault.Damaged → IsReadable (editions (layout_in layout)) (state S.Store conn.old).now → AreNumberedApart numbers.now (table_name_of (editions (layout_in layout))) (state S.Store conn.old).now → ⊥) }
{
    match layout {
        TableLayout::Plain => test_editions(alloc, conn, numbers),
        TableLayout::Keyed => test_editions(alloc, conn, numbers),
        TableLayout::Shown => test_editions(alloc, conn, numbers),
        TableLayout::Parted => test_headers(alloc, conn, numbers),
    }
}

/// The same of what is kept of their entries, but for orphans where there may be any: their numbers are put into `orphans`.
fn test_contents<S: Alter>(
    alloc: Global,
    conn: &mut Connection<S>,
    layout: TableLayout,
    may_have_orphans: bool,
    numbers: &[i64],
    orphans: &mut Vec<u64>,
) -> Result<(), ReadingFault>
    requires { WhileOpen (state S.Store conn.old) (HasTablesOf (layout_in layout)) }
    ensures reads { OnlyReads (state S.Store conn.old) (state S.Store conn.new) }
    ensures failed { HasCleanDisk (state S.Store conn.new) → IfErr result (IsExcusedReading (state S.Store conn.old) (state S.Store conn.new)) }
    ensures same { HasCleanDisk (state S.Store conn.new) → OnOk result (Same (state S.Store conn.old) (state S.Store conn.new)) }
    ensures known { HasCleanDisk (state S.Store conn.new) → OnOk result (AreKnownApart (may_be_in_contents may_have_orphans (layout_in layout) numbers.now) (table_name_of (contents (layout_in layout))) (state S.Store conn.old).now) }
    ensures parts { HasCleanDisk (state S.Store conn.new) → OnOk result (ArePartRows (layout_in layout) (state S.Store conn.old).now) }
    ensures damaged { HasCleanDisk (state S.Store conn.new) → IfErr result (λ fault. fault ≡ ReadingFault.Damaged → IsReadable (contents (layout_in layout)) (state S.Store conn.old).now → AreKnownApart (may_be_in_contents may_have_orphans (layout_in layout) numbers.now) (table_name_of (contents (layout_in layout))) (state S.Store conn.old).now → ⊥) }
{
    match layout {
        TableLayout::Plain => test_rows(alloc, conn, EditionTable::PlainEntry, numbers),
        TableLayout::Keyed => test_rows(alloc, conn, EditionTable::OldEntry, numbers),
        TableLayout::Shown => test_rows(alloc, conn, EditionTable::ShownEntry, numbers),
        TableLayout::Parted => test_parts(alloc, conn, numbers, may_have_orphans, orphans),
    }
}

/// The same of both.
fn test_numbers<S: Alter>(
    alloc: Global,
    conn: &mut Connection<S>,
    layout: TableLayout,
    may_have_orphans: bool,
    numbers: &[i64],
    orphans: &mut Vec<u64>,
) -> Result<(), ReadingFault>
    requires { WhileOpen (state S.Store conn.old) (HasTablesOf (layout_in layout)) }
    ensures reads { OnlyReads (state S.Store conn.old) (state S.Store conn.new) }
    ensures failed { HasCleanDisk (state S.Store conn.new) → IfErr result (IsExcusedReading (state S.Store conn.old) (state S.Store conn.new)) }
    ensures same { HasCleanDisk (state S.Store conn.new) → OnOk result (Same (state S.Store conn.old) (state S.Store conn.new)) }
    ensures known { HasCleanDisk (state S.Store conn.new) → OnOk result (AreAllKnown (layout_in layout) may_have_orphans (state S.Store conn.old).now numbers.now) }
    ensures parts { HasCleanDisk (state S.Store conn.new) → OnOk result (ArePartRows (layout_in layout) (state S.Store conn.old).now) }
    ensures damaged { HasCleanDisk (state S.Store conn.new) → IfErr result (λ fault. fault ≡ ReadingFault.Damaged → AreReadableEditions (layout_in layout) (state S.Store conn.old).now → AreAllKnown (layout_in layout) may_have_orphans (state S.Store conn.old).now numbers.now → ⊥) }
{
    test_records(alloc, conn, layout, numbers)?;
    test_contents(alloc, conn, layout, may_have_orphans, numbers, orphans)
}

/// Tests that no edition is there that no item names, nor anything of the entries of such an edition, but for orphans where there may
/// be any, whose numbers are put into `orphans`; and that neither of editions nor of what is kept of their entries two rows have one
/// rowid.
pub(crate) fn test_strays<S: Alter>(
    alloc: Global,
    conn: &mut Connection<S>,
    version: u64,
    reader: &Reader,
    orphans: &mut Vec<u64>,
) -> Result<(), ReadingFault>
    requires { WhileOpen (state S.Store conn.old) (HasVersionTables version) }
    ensures reads { OnlyReads (state S.Store conn.old) (state S.Store conn.new) }
    ensures failed { HasCleanDisk (state S.Store conn.new) → IfErr result (IsExcusedReading (state S.Store conn.old) (state S.Store conn.new)) }
    ensures same { HasCleanDisk (state S.Store conn.new) → OnOk result (Same (state S.Store conn.old) (state S.Store conn.new)) }
    ensures known { HasCleanDisk (state S.Store conn.new) → OnOk result (AreAllKnown (layout_at version) (may_have_orphans version) (state S.Store conn.old).now (numbers_in reader.now)) }
    ensures parts { HasCleanDisk (state S.Store conn.new) → OnOk result (ArePartRows (layout_at version) (state S.Store conn.old).now) }
    ensures damaged { HasCleanDisk (state S.Store conn.new) → IfErr result (λ fault. fault ≡ ReadingFault.Damaged → (taken : Tables) → HasTaken version reader.now taken → AllGoOnFrom version (state S.Store conn.old).now taken → KeepsNone version (state S.Store conn.old).now taken.members) }
{
    let numbers = match reader.numbers(alloc) {
        Ok(numbers) => numbers,
        Err(fault) => return Err(fault_of_rows(fault)),
    };
    test_numbers(
        alloc,
        conn,
        layout_of(version),
        may_have_orphans(version),
        &numbers,
        orphans,
    )
}
