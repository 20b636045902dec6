// The tables of which no part is read apart from the others, each read row by row.
ghost use Rattle.std.specs.Prelude.{◌≡◌, ◌⊎◌, IfErr, OnOk};
ghost use Rattle.sqlite.specs.State.{HasCleanDisk};
ghost use Rattle.sqlite.specs.Held.{state};
ghost use Rattle.store_tables.specs.Tables.{kept, table_of};
ghost use Rattle.store_tables.specs.Effects.{Has, HasApartRowids, WhileOpen, rows_of};
ghost use Rattle.store_sql.specs.Columns.{kept_columns};
ghost use Rattle.store_sql.specs.Encodings.{stored_kept};
ghost use Rattle.store_sql.specs.Streams.Scan.{AllKept, KeptById, ByRowid};
ghost use Rattle.store_scans.specs.Cursors.Cursor.{InStore};
ghost use Rattle.store_scans.specs.Reading.{Same, OnlyReads, IsExcusedReading};
ghost use Rattle.store_scans.specs.Scans.{TakesAll, HasNoRecordIn, IsWrong};
ghost use Rattle.store_scans.specs.Takers.{takes_replies, refuses_replies, HasIdsApart, HasIdTwice};

use crate::fault::{ReadingFault, fault_of_store};
use crate::scan::take_all;
use sqlite::{Alter, Connection};
use std::alloc::Global;
use store_rows::{IdReader, Reader, RowidReader};
use store_sql::records::Record;
use store_sql::stream::{read_by_rowid, read_kept_by_id, read_kept_replies};
use store_tables::{KeptRecord, StoreTable, StoredRow};

/// Takes the kept replies, in the order of their numbers.
pub fn read_replies<S: Alter>(
    alloc: Global,
    conn: &mut Connection<S>,
    reader: &mut Reader,
) -> Result<(), ReadingFault>
    requires { WhileOpen (state S.Store conn.old) (Has kept) }
    ensures reads { OnlyReads (state S.Store conn.old) (state S.Store conn.new) }
    ensures failed { HasCleanDisk (state S.Store conn.new) → IfErr result (IsExcusedReading (state S.Store conn.old) (state S.Store conn.new)) }
    ensures same { HasCleanDisk (state S.Store conn.new) → OnOk result (Same (state S.Store conn.old) (state S.Store conn.new)) }
    ensures whole { HasCleanDisk (state S.Store conn.new) → OnOk result (TakesAll stored_kept takes_replies (InStore AllKept) (state S.Store conn.old).now reader.old reader.new) }
    ensures damaged { HasCleanDisk (state S.Store conn.new) → IfErr result (λ fault. fault ≡ ReadingFault.Damaged → IsWrong stored_kept kept_columns refuses_replies (InStore AllKept) (state S.Store conn.old).now reader.old) }
{
    let mut rows = match read_kept_replies(conn) {
        Ok(rows) => rows,
        Err(error) => return Err(fault_of_store(error)),
    };
    take_all::<S, StoredRow<KeptRecord<String>>, Reader>(alloc, &mut rows, reader)
}

/// Tests that no two kept replies have one id.
pub fn test_ids<S: Alter>(alloc: Global, conn: &mut Connection<S>) -> Result<(), ReadingFault>
    requires { WhileOpen (state S.Store conn.old) (Has kept) }
    ensures reads { OnlyReads (state S.Store conn.old) (state S.Store conn.new) }
    ensures failed { HasCleanDisk (state S.Store conn.new) → IfErr result (IsExcusedReading (state S.Store conn.old) (state S.Store conn.new)) }
    ensures same { HasCleanDisk (state S.Store conn.new) → OnOk result (Same (state S.Store conn.old) (state S.Store conn.new)) }
    ensures whole { HasCleanDisk (state S.Store conn.new) → OnOk result (HasIdsApart (state S.Store conn.old).now) }
    ensures damaged { HasCleanDisk (state S.Store conn.new) → IfErr result (λ fault. fault ≡ ReadingFault.Damaged → HasNoRecordIn stored_kept kept_columns (InStore KeptById) (state S.Store conn.old).now ⊎ HasIdTwice (state S.Store conn.old).now) }
{
    let mut rows = match read_kept_by_id(conn) {
        Ok(rows) => rows,
        Err(error) => return Err(fault_of_store(error)),
    };
    take_all::<S, StoredRow<KeptRecord<String>>, IdReader>(alloc, &mut rows, &mut IdReader::new())
}

/// Tests that no two rows of a table have one rowid.
pub fn test_rowids<S: Alter, R: Record + Drop>(
    alloc: Global,
    conn: &mut Connection<S>,
    table: StoreTable,
) -> Result<(), ReadingFault>
    requires { WhileOpen (state S.Store conn.old) (Has (table_of table)) }
    ensures reads { OnlyReads (state S.Store conn.old) (state S.Store conn.new) }
    ensures failed { HasCleanDisk (state S.Store conn.new) → IfErr result (IsExcusedReading (state S.Store conn.old) (state S.Store conn.new)) }
    ensures same { HasCleanDisk (state S.Store conn.new) → OnOk result (Same (state S.Store conn.old) (state S.Store conn.new)) }
    ensures whole { HasCleanDisk (state S.Store conn.new) → OnOk result (HasApartRowids (rows_of (table_of table 0).name (state S.Store conn.old).now)) }
    ensures damaged { HasCleanDisk (state S.Store conn.new) → IfErr result (λ fault. fault ≡ ReadingFault.Damaged → HasNoRecordIn R.Record.stored R.Record.columns (InStore (ByRowid table)) (state S.Store conn.old).now ⊎ (HasApartRowids (rows_of (table_of table 0).name (state S.Store conn.old).now) → ⊥)) }
{
    let mut rows = match read_by_rowid(conn, table) {
        Ok(rows) => rows,
        Err(error) => return Err(fault_of_store(error)),
    };
    take_all::<S, R, RowidReader>(alloc, &mut rows, &mut RowidReader::new())
}
