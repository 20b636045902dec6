//! One part of a file.

ghost use Rattle.std.specs.Prelude.{◌≡◌, false, [], ◌∷◌, filter, map, codes, IfOk, IfErr};
ghost use Rattle.sqlite.specs.State.{HasCleanDisk, Survives};
ghost use Rattle.sqlite.specs.Held.{state};
ghost use Rattle.store_tables.specs.Effects.{Has, WhileOpen, rows_of, FailsToRead};
ghost use Rattle.store_sql.specs.Reads.{Selects, FailsToList};
ghost use Rattle.store_sql.specs.ChosenParts.{is_numbered};
ghost use Rattle.store_sql.specs.PartRecords.{part_columns, stored_part};
ghost use Rattle.store_sql.specs.PartTable.{part};

use crate::part_records::StoredPart;
use crate::read::records_of;
use crate::records::ReadError;
use sqlite::{Alter, Connection, Error, Row, params};
use std::alloc::Global;

fn part_rows<S: Alter>(
    conn: &mut Connection<S>,
    edition: i64,
    file: i64,
    number: i64,
) -> Result<Vec<Row>, Error>
    requires { WhileOpen (state S.Store conn.old) (Has part) }
    ensures selected { HasCleanDisk (state S.Store conn.new) → IfOk result (λ rows. Selects (codes "dictcat_part") (is_numbered edition file number) (3 ∷ []) (state S.Store conn.old) (state S.Store conn.new) rows.items) }
    ensures failed { HasCleanDisk (state S.Store conn.new) → IfErr result (FailsToRead (state S.Store conn.old) (state S.Store conn.new)) }
    ensures mode { conn.old.in_transaction ≡ false → conn.new.in_transaction ≡ false }
    ensures survives { Survives (state S.Store conn.old) (state S.Store conn.new) (λ _. ⊥) }
{
    conn.query_all(
        "SELECT rowid, * FROM dictcat_part WHERE edition = ?1 AND file = ?2 AND number = ?3 ORDER BY 4",
        params![edition, file, number],
    )
}

/// The parts of this number of this file of the edition; the key allows one at most. The others aren't read.
///
/// `NoRecord` tells that one of them is none; another error is the store's, or tells that the limit on steps was met, or that memory was refused.
pub fn parts_numbered<S: Alter>(
    alloc: Global,
    conn: &mut Connection<S>,
    edition: i64,
    file: i64,
    number: i64,
) -> Result<Vec<StoredPart>, ReadError>
    requires { WhileOpen (state S.Store conn.old) (Has part) }
    ensures selected { HasCleanDisk (state S.Store conn.new) → IfOk result (λ all. Selects (codes "dictcat_part") (is_numbered edition file number) (3 ∷ []) (state S.Store conn.old) (state S.Store conn.new) (map stored_part all.items)) }
    ensures failed { HasCleanDisk (state S.Store conn.new) → IfErr result (FailsToList part_columns (filter (is_numbered edition file number) (rows_of (codes "dictcat_part") (state S.Store conn.old).now)) (state S.Store conn.old) (state S.Store conn.new)) }
    ensures mode { conn.old.in_transaction ≡ false → conn.new.in_transaction ≡ false }
    ensures survives { Survives (state S.Store conn.old) (state S.Store conn.new) (λ _. ⊥) }
{
    let rows = part_rows(conn, edition, file, number)?;
    records_of(alloc, &rows)
}
