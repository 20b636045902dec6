// The rowids of the tables that have a row for each record alone.
ghost use Rattle.std.specs.Prelude.{◌≡◌, IfErr, OnOk};
ghost use Rattle.sqlite.specs.State.{HasCleanDisk};
ghost use Rattle.sqlite.specs.Held.{state};
ghost use Rattle.store_tables.specs.Effects.{WhileOpen};
ghost use Rattle.store_rows.specs.Versions.{layout_of};
ghost use Rattle.store_scans.specs.Reading.{Same, OnlyReads, IsExcusedReading};
ghost use Rattle.store_opening.specs.Opens.{HasVersionTables, HasReadableRows, HasOthersApart, IsApartFirst};

use sqlite::{Alter, Connection};
use std::alloc::Global;
use store_scans::{ReadingFault, test_rowids};
use store_tables::{ItemRecord, KeptRecord, Mark, Member, StoreTable, StoredRow};

/// Tests that no two rows of a small table have one rowid.
fn test_small<S: Alter>(
    alloc: Global,
    conn: &mut Connection<S>,
    version: u64,
) -> Result<(), ReadingFault>
    requires { WhileOpen (state S.Store conn.old) (HasVersionTables version) }
    ensures reads { OnlyReads (state S.Store conn.old) (state S.Store conn.new) }
    ensures failed { HasCleanDisk (state S.Store conn.new) → IfErr result (IsExcusedReading (state S.Store conn.old) (state S.Store conn.new)) }
    ensures same { HasCleanDisk (state S.Store conn.new) → OnOk result (Same (state S.Store conn.old) (state S.Store conn.new)) }
    ensures apart { HasCleanDisk (state S.Store conn.new) → OnOk result (IsApartFirst (state S.Store conn.old).now) }
    ensures damaged { HasCleanDisk (state S.Store conn.new) → IfErr result (λ fault. fault ≡ ReadingFault.Damaged → HasReadableRows (layout_of version) (state S.Store conn.old).now → IsApartFirst (state S.Store conn.old).now → ⊥) }
{
    test_rowids::<S, StoredRow<Mark<String>>>(alloc, conn, StoreTable::Mark)?;
    test_rowids::<S, StoredRow<ItemRecord<String>>>(alloc, conn, StoreTable::Item)?;
    test_rowids::<S, StoredRow<Member<String>>>(alloc, conn, StoreTable::Member)
}

/// Tests that no two rows of a table have one rowid, but for editions and what is kept of their entries.
pub(crate) fn test_other_rowids<S: Alter>(
    alloc: Global,
    conn: &mut Connection<S>,
    version: u64,
) -> Result<(), ReadingFault>
    requires { WhileOpen (state S.Store conn.old) (HasVersionTables version) }
    ensures reads { OnlyReads (state S.Store conn.old) (state S.Store conn.new) }
    ensures failed { HasCleanDisk (state S.Store conn.new) → IfErr result (IsExcusedReading (state S.Store conn.old) (state S.Store conn.new)) }
    ensures same { HasCleanDisk (state S.Store conn.new) → OnOk result (Same (state S.Store conn.old) (state S.Store conn.new)) }
    ensures apart { HasCleanDisk (state S.Store conn.new) → OnOk result (HasOthersApart (state S.Store conn.old).now) }
    ensures damaged { HasCleanDisk (state S.Store conn.new) → IfErr result (λ fault. fault ≡ ReadingFault.Damaged → HasReadableRows (layout_of version) (state S.Store conn.old).now → HasOthersApart (state S.Store conn.old).now → ⊥) }
{
    test_small(alloc, conn, version)?;
    test_rowids::<S, StoredRow<KeptRecord<String>>>(alloc, conn, StoreTable::Kept)
}
