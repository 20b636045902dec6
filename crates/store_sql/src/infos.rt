//! What an edition says of its database, read alone.

ghost use Rattle.std.specs.Prelude.{◌≡◌, false, map, IsPermutation, IfOk, IfErr, string_bytes};
ghost use Rattle.sqlite.specs.declared.types.Value.TheVariants.{Text as Words};
ghost use Rattle.sqlite.specs.Order.{column};
ghost use Rattle.sqlite.specs.State.{HasCleanDisk, IsUnchanged, Survives};
ghost use Rattle.sqlite.specs.Held.{state};
ghost use Rattle.store_tables.specs.Effects.{Has, WhileOpen, FailsToRead};
ghost use Rattle.store_sql.specs.Reads.{FailsToList, FailsToDecode, FailsToDecodeAll};
ghost use Rattle.store_sql.specs.Infos.{informed, info_columns, headers_with, Informs};
ghost use Rattle.store_sql.specs.HeaderTable.{header};

use crate::records::ReadError;
use sqlite::{Alter, Connection, Error, ErrorCode, Row, params};
use std::alloc::Global;

fn info_rows<S: Alter>(conn: &mut Connection<S>, number: i64) -> Result<Vec<Row>, Error>
    requires { WhileOpen (state S.Store conn.old) (Has header) }
    ensures selected { HasCleanDisk (state S.Store conn.new) → IfOk result (λ rows. IsPermutation (map informed (headers_with number (state S.Store conn.old).now)) rows.items × IsUnchanged (state S.Store conn.old) (state S.Store conn.new)) }
    ensures failed { HasCleanDisk (state S.Store conn.new) → IfErr result (FailsToRead (state S.Store conn.old) (state S.Store conn.new)) }
    ensures mode { conn.old.in_transaction ≡ false → conn.new.in_transaction ≡ false }
    ensures survives { Survives (state S.Store conn.old) (state S.Store conn.new) (λ _. ⊥) }
{
    conn.query_all(
        "SELECT info, number FROM edition WHERE number = ?1",
        params![number],
    )
}

// The text that stands first in a row.
fn info_in(row: &Row) -> Result<String, ReadError>
    ensures read { IfOk result (λ info. column row.now 0 ≡ Words (string_bytes info)) }
    ensures refused { IfErr result (FailsToDecode info_columns row.now) }
{
    match row.get(0) {
        Ok(info) => Ok(info),
        Err(Error::SqliteFailure(ErrorCode::OutOfMemory)) => Err(ReadError::Store(
            Error::SqliteFailure(ErrorCode::OutOfMemory),
        )),
        Err(_) => Err(ReadError::NoRecord),
    }
}

fn infos_in(alloc: Global, rows: &[Row]) -> Result<Vec<String>, ReadError>
    ensures read { IfOk result (λ all. map (λ r. column r 0) rows.now ≡ map (λ info. Words (string_bytes info)) all.items) }
    ensures refused { IfErr result (FailsToDecodeAll info_columns rows.now) }
{
    let mut all = Vec::new(alloc);
    for row in rows {
        let info = info_in(row)?;
        all.push(info)?;
    }
    Ok(all)
}

/// What the headers of this number say of their databases; the key allows one header at most.
///
/// `NoRecord` tells that one of them has no text in UTF-8 there; another error is the store's, or tells that the limit on steps was met, or that memory was refused.
pub fn infos_numbered<S: Alter>(
    alloc: Global,
    conn: &mut Connection<S>,
    number: i64,
) -> Result<Vec<String>, ReadError>
    requires { WhileOpen (state S.Store conn.old) (Has header) }
    ensures selected { HasCleanDisk (state S.Store conn.new) → IfOk result (λ all. Informs number (state S.Store conn.old) (state S.Store conn.new) (map string_bytes all.items)) }
    ensures failed { HasCleanDisk (state S.Store conn.new) → IfErr result (FailsToList info_columns (map informed (headers_with number (state S.Store conn.old).now)) (state S.Store conn.old) (state S.Store conn.new)) }
    ensures mode { conn.old.in_transaction ≡ false → conn.new.in_transaction ≡ false }
    ensures survives { Survives (state S.Store conn.old) (state S.Store conn.new) (λ _. ⊥) }
{
    let rows = info_rows(conn, number)?;
    infos_in(alloc, &rows)
}
