//! The records of a small table, or those that a condition names, as lists in the order of the key.

ghost use Rattle.std.specs.Prelude.{◌≡◌, false, [], ◌∷◌, filter, map, codes, IfOk, IfErr};
ghost use Rattle.sqlite.specs.State.{HasCleanDisk, Survives};
ghost use Rattle.sqlite.specs.Held.{state};
ghost use Rattle.store_tables.specs.Tables.{item, member, edition as edition_table, kept};
ghost use Rattle.store_sql.specs.Encodings.{stored_item, stored_member, stored_edition, stored_kept};
ghost use Rattle.store_sql.specs.Columns.{item_columns, member_columns, edition_columns, kept_columns};
ghost use Rattle.store_tables.specs.Effects.{Has, WhileOpen, equals_number, equals_text, rows_of, FailsToRead};
ghost use Rattle.store_sql.specs.Reads.{Lists, Selects, FailsToList, FailsToDecodeAll};

use crate::records::{ReadError, Record};
use sqlite::{Alter, Connection, Error, Row, params};
use std::alloc::Global;
use store_tables::{EditionRecord, ItemRecord, KeptRecord, Member, StoredRow};

/// The record of each row, in turn. `NoRecord` tells that one of them is none, another error that memory was refused.
pub fn records_of<R: Record + Drop>(alloc: Global, rows: &[Row]) -> Result<Vec<R>, ReadError>
    ensures read { IfOk result (λ all. map R.Record.stored all.items ≡ rows.now) }
    ensures refused { IfErr result (FailsToDecodeAll R.Record.columns rows.now) }
{
    let mut all = Vec::new(alloc);
    for row in rows {
        let record = R::from_row(row)?;
        all.push(record)?;
    }
    Ok(all)
}

fn item_rows<S: Alter>(conn: &mut Connection<S>) -> Result<Vec<Row>, Error>
    requires { WhileOpen (state S.Store conn.old) (Has item) }
    ensures listed { HasCleanDisk (state S.Store conn.new) → IfOk result (λ rows. Lists (codes "item") (1 ∷ []) (state S.Store conn.old) (state S.Store conn.new) rows.items) }
    ensures failed { HasCleanDisk (state S.Store conn.new) → IfErr result (FailsToRead (state S.Store conn.old) (state S.Store conn.new)) }
    ensures mode { conn.old.in_transaction ≡ false → conn.new.in_transaction ≡ false }
    ensures survives { Survives (state S.Store conn.old) (state S.Store conn.new) (λ _. ⊥) }
{
    conn.query_all("SELECT rowid, * FROM item ORDER BY 2", &[])
}

/// All items of the list of databases, in the order of their places.
pub fn items<S: Alter>(
    alloc: Global,
    conn: &mut Connection<S>,
) -> Result<Vec<StoredRow<ItemRecord<String>>>, ReadError>
    requires { WhileOpen (state S.Store conn.old) (Has item) }
    ensures listed { HasCleanDisk (state S.Store conn.new) → IfOk result (λ all. Lists (codes "item") (1 ∷ []) (state S.Store conn.old) (state S.Store conn.new) (map stored_item all.items)) }
    ensures failed { HasCleanDisk (state S.Store conn.new) → IfErr result (FailsToList item_columns (rows_of (codes "item") (state S.Store conn.old).now) (state S.Store conn.old) (state S.Store conn.new)) }
    ensures mode { conn.old.in_transaction ≡ false → conn.new.in_transaction ≡ false }
    ensures survives { Survives (state S.Store conn.old) (state S.Store conn.new) (λ _. ⊥) }
{
    let rows = item_rows(conn)?;
    records_of(alloc, &rows)
}

fn member_rows<S: Alter>(conn: &mut Connection<S>) -> Result<Vec<Row>, Error>
    requires { WhileOpen (state S.Store conn.old) (Has member) }
    ensures listed { HasCleanDisk (state S.Store conn.new) → IfOk result (λ rows. Lists (codes "member") (1 ∷ 2 ∷ []) (state S.Store conn.old) (state S.Store conn.new) rows.items) }
    ensures failed { HasCleanDisk (state S.Store conn.new) → IfErr result (FailsToRead (state S.Store conn.old) (state S.Store conn.new)) }
    ensures mode { conn.old.in_transaction ≡ false → conn.new.in_transaction ≡ false }
    ensures survives { Survives (state S.Store conn.old) (state S.Store conn.new) (λ _. ⊥) }
{
    conn.query_all("SELECT rowid, * FROM member ORDER BY 2, 3", &[])
}

/// All members of virtual items, by owner and then in their order.
pub fn members<S: Alter>(
    alloc: Global,
    conn: &mut Connection<S>,
) -> Result<Vec<StoredRow<Member<String>>>, ReadError>
    requires { WhileOpen (state S.Store conn.old) (Has member) }
    ensures listed { HasCleanDisk (state S.Store conn.new) → IfOk result (λ all. Lists (codes "member") (1 ∷ 2 ∷ []) (state S.Store conn.old) (state S.Store conn.new) (map stored_member all.items)) }
    ensures failed { HasCleanDisk (state S.Store conn.new) → IfErr result (FailsToList member_columns (rows_of (codes "member") (state S.Store conn.old).now) (state S.Store conn.old) (state S.Store conn.new)) }
    ensures mode { conn.old.in_transaction ≡ false → conn.new.in_transaction ≡ false }
    ensures survives { Survives (state S.Store conn.old) (state S.Store conn.new) (λ _. ⊥) }
{
    let rows = member_rows(conn)?;
    records_of(alloc, &rows)
}

fn one_edition_rows<S: Alter>(conn: &mut Connection<S>, number: i64) -> Result<Vec<Row>, Error>
    requires { WhileOpen (state S.Store conn.old) (Has edition_table) }
    ensures selected { HasCleanDisk (state S.Store conn.new) → IfOk result (λ rows. Selects (codes "edition") (equals_number 1 number) (1 ∷ []) (state S.Store conn.old) (state S.Store conn.new) rows.items) }
    ensures failed { HasCleanDisk (state S.Store conn.new) → IfErr result (FailsToRead (state S.Store conn.old) (state S.Store conn.new)) }
    ensures mode { conn.old.in_transaction ≡ false → conn.new.in_transaction ≡ false }
    ensures survives { Survives (state S.Store conn.old) (state S.Store conn.new) (λ _. ⊥) }
{
    conn.query_all(
        "SELECT rowid, * FROM edition WHERE number = ?1 ORDER BY 2",
        params![number],
    )
}

/// The editions of this number; the key allows one at most.
pub fn editions_numbered<S: Alter>(
    alloc: Global,
    conn: &mut Connection<S>,
    number: i64,
) -> Result<Vec<StoredRow<EditionRecord<String, Vec<u8>>>>, ReadError>
    requires { WhileOpen (state S.Store conn.old) (Has edition_table) }
    ensures selected { HasCleanDisk (state S.Store conn.new) → IfOk result (λ all. Selects (codes "edition") (equals_number 1 number) (1 ∷ []) (state S.Store conn.old) (state S.Store conn.new) (map stored_edition all.items)) }
    ensures failed { HasCleanDisk (state S.Store conn.new) → IfErr result (FailsToList edition_columns (filter (equals_number 1 number) (rows_of (codes "edition") (state S.Store conn.old).now)) (state S.Store conn.old) (state S.Store conn.new)) }
    ensures mode { conn.old.in_transaction ≡ false → conn.new.in_transaction ≡ false }
    ensures survives { Survives (state S.Store conn.old) (state S.Store conn.new) (λ _. ⊥) }
{
    let rows = one_edition_rows(conn, number)?;
    records_of(alloc, &rows)
}

fn one_kept_rows<S: Alter>(conn: &mut Connection<S>, id: &str) -> Result<Vec<Row>, Error>
    requires { WhileOpen (state S.Store conn.old) (Has kept) }
    ensures selected { HasCleanDisk (state S.Store conn.new) → IfOk result (λ rows. Selects (codes "kept") (equals_text 1 id.now) (2 ∷ []) (state S.Store conn.old) (state S.Store conn.new) rows.items) }
    ensures failed { HasCleanDisk (state S.Store conn.new) → IfErr result (FailsToRead (state S.Store conn.old) (state S.Store conn.new)) }
    ensures mode { conn.old.in_transaction ≡ false → conn.new.in_transaction ≡ false }
    ensures survives { Survives (state S.Store conn.old) (state S.Store conn.new) (λ _. ⊥) }
{
    conn.query_all(
        "SELECT rowid, * FROM kept WHERE id = ?1 ORDER BY 3",
        params![id],
    )
}

/// The replies that are kept for this id; the key allows one at most.
pub fn kept_replies_of<S: Alter>(
    alloc: Global,
    conn: &mut Connection<S>,
    id: &str,
) -> Result<Vec<StoredRow<KeptRecord<String>>>, ReadError>
    requires { WhileOpen (state S.Store conn.old) (Has kept) }
    ensures selected { HasCleanDisk (state S.Store conn.new) → IfOk result (λ all. Selects (codes "kept") (equals_text 1 id.now) (2 ∷ []) (state S.Store conn.old) (state S.Store conn.new) (map stored_kept all.items)) }
    ensures failed { HasCleanDisk (state S.Store conn.new) → IfErr result (FailsToList kept_columns (filter (equals_text 1 id.now) (rows_of (codes "kept") (state S.Store conn.old).now)) (state S.Store conn.old) (state S.Store conn.new)) }
    ensures mode { conn.old.in_transaction ≡ false → conn.new.in_transaction ≡ false }
    ensures survives { Survives (state S.Store conn.old) (state S.Store conn.new) (λ _. ⊥) }
{
    let rows = one_kept_rows(conn, id)?;
    records_of(alloc, &rows)
}
