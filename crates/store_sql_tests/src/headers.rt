//! The table of headers is made, headers are put in and read, and one is taken out.

ghost use Rattle.sqlite.specs.State.{HasCleanDisk};
ghost use Rattle.sqlite.specs.Held.{state};
ghost use Rattle.store_tables.specs.Effects.{HasApartRowids, WhileOpen, rows_of};
ghost use Rattle.store_sql.specs.Deletes.{HasToRemove};
ghost use Rattle.store_sql.specs.HeaderTable.{header};

use crate::checks::{holds, same_text};
use crate::rest::rest;
use crate::texts::{told, told_read};
use sqlite::{Alter, Connection};
use std::alloc::Global;
use std::process::Abort;
use store_sql::header_found::has_header_table;
use store_sql::header_one::headers_numbered;
use store_sql::header_records::StoredHeader;
use store_sql::header_scan::read_headers_by_rowid;
use store_sql::header_statements::{create_header_table, delete_header, insert_header};
use store_sql::infos::infos_numbered;
use store_tables::commit::commit;
use store_tables::transaction::OpenTransaction;
use store_tables::{HeaderRecord, StoreTable, has_table, is_name_used, lacks_counting_table};

const FIRST: &str =
    "StoredHeader { rowid: 1, value: HeaderRecord { number: 1, owner: \"gem\", title: \"Gems\", info: \"\" } }";

const SECOND: &str =
    "StoredHeader { rowid: 4, value: HeaderRecord { number: 4, owner: \"ore\", title: \"\", info: \"of\\nores\" } }";

// Makes the table where its name is free.
fn make<S: Alter>(rt: &impl Abort, conn: &mut Connection<S>)
    ensures { HasCleanDisk (state S.Store conn.new) → HasApartRowids (rows_of (header 0).name (state S.Store conn.new).now) }
{
    let schema = conn.schema();
    holds(rt, !is_name_used(schema, b"edition"), "edition");
    holds(rt, !lacks_counting_table(schema), "counting");
    holds(rt, conn.is_autocommit(), "autocommit");
    let mut tx = conn.transaction();
    create_header_table(&mut tx).expect(rt, "a table");
    commit(tx).expect(rt, "a commit");
}

fn put<S: Alter, T: OpenTransaction<S>>(
    rt: &impl Abort,
    tx: &mut T,
    number: i64,
    owner: &str,
    title: &str,
    info: &str,
)
    requires { WhileOpen (state S.Store (T.held tx.old)) (HasToRemove header) }
    ensures { WhileOpen (state S.Store (T.held tx.new)) (HasToRemove header) }
{
    let row = HeaderRecord {
        number,
        owner,
        title,
        info,
    };
    insert_header(tx, &row).expect(rt, "a header");
}

// Puts three headers in, and takes one out.
fn put_and_take<S: Alter, T: OpenTransaction<S>>(rt: &impl Abort, tx: &mut T) -> usize
    requires { WhileOpen (state S.Store (T.held tx.old)) (HasToRemove header) }
{
    put(rt, tx, 4, "ore", "", "of\nores");
    put(rt, tx, 2, "gem", "Gems", "gone");
    put(rt, tx, 1, "gem", "Gems", "");
    delete_header(tx, 2).expect(rt, "a change")
}

fn change<S: Alter>(rt: &impl Abort, conn: &mut Connection<S>) -> usize
    requires { HasCleanDisk (state S.Store conn.old) → HasApartRowids (rows_of (header 0).name (state S.Store conn.old).now) }
{
    holds(rt, has_header_table(conn.schema()), "headers");
    holds(rt, conn.is_autocommit(), "autocommit");
    let mut tx = conn.transaction();
    let taken = put_and_take(rt, &mut tx);
    commit(tx).expect(rt, "a commit");
    taken
}

fn all<S: Alter>(rt: &impl Abort, alloc: Global, conn: &mut Connection<S>) -> String {
    holds(rt, has_header_table(conn.schema()), "headers");
    let mut rows = read_headers_by_rowid(conn).expect(rt, "rows");
    let all: Vec<StoredHeader> = rest(rt, alloc, &mut rows);
    drop(rows);
    told(rt, alloc, all)
}

fn one<S: Alter>(rt: &impl Abort, alloc: Global, conn: &mut Connection<S>, number: i64) -> String {
    holds(rt, has_header_table(conn.schema()), "headers");
    told_read(rt, alloc, headers_numbered(alloc, conn, number))
}

fn info<S: Alter>(rt: &impl Abort, alloc: Global, conn: &mut Connection<S>, number: i64) -> String {
    holds(rt, has_header_table(conn.schema()), "headers");
    told_read(rt, alloc, infos_numbered(alloc, conn, number))
}

// All headers by their rowids.
fn look<S: Alter>(rt: &impl Abort, alloc: Global, conn: &mut Connection<S>) {
    let wanted = format!(in alloc; "[{FIRST}, {SECOND}]").expect(rt, "memory");
    let found = all(rt, alloc, conn);
    same_text(rt, &found, &wanted);
}

// One header, and its info alone.
fn look_at<S: Alter>(rt: &impl Abort, alloc: Global, conn: &mut Connection<S>) {
    let wanted = format!(in alloc; "[{SECOND}]").expect(rt, "memory");
    let found = one(rt, alloc, conn, 4);
    same_text(rt, &found, &wanted);
    let found = info(rt, alloc, conn, 4);
    same_text(rt, &found, "[\"of\\nores\"]");
    let found = info(rt, alloc, conn, 2);
    same_text(rt, &found, "[]");
}

/// The table is made, changed and looked at.
pub(crate) fn run<S: Alter>(rt: &impl Abort, alloc: Global, conn: &mut Connection<S>) {
    make(rt, conn);
    holds(
        rt,
        !has_table(conn.schema(), StoreTable::Edition),
        "edition",
    );
    let taken = change(rt, conn);
    holds(rt, taken == 1, "taken");
    look(rt, alloc, conn);
    look_at(rt, alloc, conn);
}
