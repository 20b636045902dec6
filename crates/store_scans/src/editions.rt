// The rows of editions and of their files: no two under one rowid, and none of an edition that isn't there.
ghost use Rattle.std.specs.Prelude.{◌≡◌, codes, IfErr, OnOk};
ghost use Rattle.sqlite.specs.State.{HasCleanDisk};
ghost use Rattle.sqlite.specs.Held.{state};
ghost use Rattle.store_tables.specs.Tables.{edition};
ghost use Rattle.store_sql.specs.HeaderTable.{header};
ghost use Rattle.store_sql.specs.PartTable.{part};
ghost use Rattle.store_tables.specs.Effects.{Has, WhileOpen};
ghost use Rattle.store_rows.specs.Versions.{Parted};
ghost use Rattle.store_sql.specs.Readings.{IsReadable, whole_editions, editions, contents};
ghost use Rattle.store_scans.specs.Reading.{Same, OnlyReads, IsExcusedReading};
ghost use Rattle.store_sql.specs.PartRecords.{part_columns, stored_part};
ghost use Rattle.store_scans.specs.Census.{AreKnownApart, AreNumberedApart, HasPartRows, TakesPartCensus, may_stand, refuses_part_census};
ghost use Rattle.store_scans.specs.Cursors.Cursor.{PartsByRowid};
ghost use Rattle.store_scans.specs.Scans.{TakesAll, IsWrong};

use crate::census::{Census, PartCensus};
use crate::fault::{ReadingFault, fault_of_store};
use crate::scan::take_all;
use sqlite::{Alter, Connection};
use std::alloc::Global;
use std::mem::replace;
use store_rows::RowidReader;
use store_sql::header_records::StoredHeader;
use store_sql::header_scan::read_headers_by_rowid;
use store_sql::part_records::StoredPart;
use store_sql::part_scan::read_parts_by_rowid;
use store_sql::records::EditionNumber;
use store_sql::stream::read_edition_numbers;
use store_tables::StoredRow;

/// Tests that no two editions have one rowid, and that each has one of these numbers. Their texts aren't read.
///
/// `Damaged` tells that it isn't so, or that a row is of another kind than a record.
pub fn test_editions<S: Alter>(
    alloc: Global,
    conn: &mut Connection<S>,
    numbers: &[i64],
) -> Result<(), ReadingFault>
    requires { WhileOpen (state S.Store conn.old) (Has edition) }
    ensures reads { OnlyReads (state S.Store conn.old) (state S.Store conn.new) }
    ensures failed { HasCleanDisk (state S.Store conn.new) → IfErr result (IsExcusedReading (state S.Store conn.old) (state S.Store conn.new)) }
    ensures same { HasCleanDisk (state S.Store conn.new) → OnOk result (Same (state S.Store conn.old) (state S.Store conn.new)) }
    ensures whole { HasCleanDisk (state S.Store conn.new) → OnOk result (AreNumberedApart numbers.now (codes "edition") (state S.Store conn.old).now) }
    ensures damaged { HasCleanDisk (state S.Store conn.new) → IfErr result (λ fault. fault ≡ ReadingFault.Damaged → IsReadable whole_editions (state S.Store conn.old).now → AreNumberedApart numbers.now (codes "edition") (state S.Store conn.old).now → ⊥) }
{
    let mut rows = match read_edition_numbers(conn) {
        Ok(rows) => rows,
        Err(error) => return Err(fault_of_store(error)),
    };
    let mut census = Census {
        numbers,
        rowids: RowidReader::new(),
    };
    take_all::<S, StoredRow<EditionNumber>, Census<'_>>(alloc, &mut rows, &mut census)
}

/// The same of editions whose texts stand in parts.
pub fn test_headers<S: Alter>(
    alloc: Global,
    conn: &mut Connection<S>,
    numbers: &[i64],
) -> Result<(), ReadingFault>
    requires { WhileOpen (state S.Store conn.old) (Has header) }
    ensures reads { OnlyReads (state S.Store conn.old) (state S.Store conn.new) }
    ensures failed { HasCleanDisk (state S.Store conn.new) → IfErr result (IsExcusedReading (state S.Store conn.old) (state S.Store conn.new)) }
    ensures same { HasCleanDisk (state S.Store conn.new) → OnOk result (Same (state S.Store conn.old) (state S.Store conn.new)) }
    ensures whole { HasCleanDisk (state S.Store conn.new) → OnOk result (AreNumberedApart numbers.now (codes "edition") (state S.Store conn.old).now) }
    ensures damaged { HasCleanDisk (state S.Store conn.new) → IfErr result (λ fault. fault ≡ ReadingFault.Damaged → IsReadable (editions Parted) (state S.Store conn.old).now → AreNumberedApart numbers.now (codes "edition") (state S.Store conn.old).now → ⊥) }
{
    let mut rows = match read_headers_by_rowid(conn) {
        Ok(rows) => rows,
        Err(error) => return Err(fault_of_store(error)),
    };
    let mut census = Census {
        numbers,
        rowids: RowidReader::new(),
    };
    take_all::<S, StoredHeader, Census<'_>>(alloc, &mut rows, &mut census)
}

// Takes all parts.
fn take_parts<S: Alter>(
    alloc: Global,
    conn: &mut Connection<S>,
    census: &mut PartCensus<'_>,
) -> Result<(), ReadingFault>
    requires { WhileOpen (state S.Store conn.old) (Has part) }
    ensures reads { OnlyReads (state S.Store conn.old) (state S.Store conn.new) }
    ensures failed { HasCleanDisk (state S.Store conn.new) → IfErr result (IsExcusedReading (state S.Store conn.old) (state S.Store conn.new)) }
    ensures same { HasCleanDisk (state S.Store conn.new) → OnOk result (Same (state S.Store conn.old) (state S.Store conn.new)) }
    ensures whole { HasCleanDisk (state S.Store conn.new) → OnOk result (TakesAll stored_part TakesPartCensus PartsByRowid (state S.Store conn.old).now census.old census.new) }
    ensures damaged { HasCleanDisk (state S.Store conn.new) → IfErr result (λ fault. fault ≡ ReadingFault.Damaged → IsWrong stored_part part_columns refuses_part_census PartsByRowid (state S.Store conn.old).now census.old) }
{
    let mut rows = match read_parts_by_rowid(conn) {
        Ok(rows) => rows,
        Err(error) => return Err(fault_of_store(error)),
    };
    take_all::<S, StoredPart, PartCensus<'_>>(alloc, &mut rows, census)
}

/// Tests that no two parts have one rowid, and that each is one of the index or of the text of an edition that has one of these
/// numbers; where there may be orphans, that each of these numbers is. One scan does both, and holds one part. `orphans` is then the
/// numbers of the others, in the order of their rowids, each once where parts of one number follow one another. Such as no edition can
/// have are left out.
///
/// `Damaged` tells that it isn't so, or that a row is of another kind than a part.
pub fn test_parts<S: Alter>(
    alloc: Global,
    conn: &mut Connection<S>,
    numbers: &[i64],
    may_have_orphans: bool,
    orphans: &mut Vec<u64>,
) -> Result<(), ReadingFault>
    requires { WhileOpen (state S.Store conn.old) (Has part) }
    ensures reads { OnlyReads (state S.Store conn.old) (state S.Store conn.new) }
    ensures failed { HasCleanDisk (state S.Store conn.new) → IfErr result (IsExcusedReading (state S.Store conn.old) (state S.Store conn.new)) }
    ensures same { HasCleanDisk (state S.Store conn.new) → OnOk result (Same (state S.Store conn.old) (state S.Store conn.new)) }
    ensures whole { HasCleanDisk (state S.Store conn.new) → OnOk result (AreKnownApart (may_stand may_have_orphans numbers.now) (codes "dictcat_part") (state S.Store conn.old).now) }
    ensures parts { HasCleanDisk (state S.Store conn.new) → OnOk result (HasPartRows (state S.Store conn.old).now) }
    ensures damaged { HasCleanDisk (state S.Store conn.new) → IfErr result (λ fault. fault ≡ ReadingFault.Damaged → IsReadable (contents Parted) (state S.Store conn.old).now → AreKnownApart (may_stand may_have_orphans numbers.now) (codes "dictcat_part") (state S.Store conn.old).now → ⊥) }
{
    let mut census = PartCensus {
        numbers,
        may_have_orphans,
        rowids: RowidReader::new(),
        orphans: Vec::new(alloc),
    };
    take_parts(alloc, conn, &mut census)?;
    drop(replace(orphans, census.orphans));
    Ok(())
}
