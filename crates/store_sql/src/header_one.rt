//! The header of one edition.

ghost use Rattle.std.specs.Prelude.{◌≡◌, false, [], ◌∷◌, filter, map, codes, IfOk, IfErr};
ghost use Rattle.sqlite.specs.State.{HasCleanDisk, Survives};
ghost use Rattle.sqlite.specs.Held.{state};
ghost use Rattle.store_tables.specs.Effects.{Has, WhileOpen, equals_number, rows_of, FailsToRead};
ghost use Rattle.store_sql.specs.Reads.{Selects, FailsToList};
ghost use Rattle.store_sql.specs.HeaderRecords.{header_columns, stored_header};
ghost use Rattle.store_sql.specs.HeaderTable.{header};

use crate::header_records::StoredHeader;
use crate::read::records_of;
use crate::records::ReadError;
use sqlite::{Alter, Connection, Error, Row, params};
use std::alloc::Global;

fn header_rows<S: Alter>(conn: &mut Connection<S>, number: i64) -> Result<Vec<Row>, Error>
    requires { WhileOpen (state S.Store conn.old) (Has header) }
    ensures selected { HasCleanDisk (state S.Store conn.new) → IfOk result (λ rows. Selects (codes "edition") (equals_number 1 number) (1 ∷ []) (state S.Store conn.old) (state S.Store conn.new) rows.items) }
    ensures failed { HasCleanDisk (state S.Store conn.new) → IfErr result (FailsToRead (state S.Store conn.old) (state S.Store conn.new)) }
    ensures mode { conn.old.in_transaction ≡ false → conn.new.in_transaction ≡ false }
    ensures survives { Survives (state S.Store conn.old) (state S.Store conn.new) (λ _. ⊥) }
{
    conn.query_all(
        "SELECT rowid, * FROM edition WHERE number = ?1 ORDER BY 2",
        params![number],
    )
}

/// The headers of this number; the key allows one at most. The others aren't read.
///
/// `NoRecord` tells that one of them is none; another error is the store's, or tells that the limit on steps was met, or that memory was refused.
pub fn headers_numbered<S: Alter>(
    alloc: Global,
    conn: &mut Connection<S>,
    number: i64,
) -> Result<Vec<StoredHeader>, ReadError>
    requires { WhileOpen (state S.Store conn.old) (Has header) }
    ensures selected { HasCleanDisk (state S.Store conn.new) → IfOk result (λ all. Selects (codes "edition") (equals_number 1 number) (1 ∷ []) (state S.Store conn.old) (state S.Store conn.new) (map stored_header all.items)) }
    ensures failed { HasCleanDisk (state S.Store conn.new) → IfErr result (FailsToList header_columns (filter (equals_number 1 number) (rows_of (codes "edition") (state S.Store conn.old).now)) (state S.Store conn.old) (state S.Store conn.new)) }
    ensures mode { conn.old.in_transaction ≡ false → conn.new.in_transaction ≡ false }
    ensures survives { Survives (state S.Store conn.old) (state S.Store conn.new) (λ _. ⊥) }
{
    let rows = header_rows(conn, number)?;
    records_of(alloc, &rows)
}
