//! The tables are made, rows are put in, and a table is dropped, each time in a transaction of its own.

ghost use Rattle.store_tables.specs.Tables.{table_of};
ghost use Rattle.sqlite.specs.Held.{state};
ghost use Rattle.store_tables.specs.Effects.{Has, WhileOpen};

use crate::checks::holds;
use sqlite::{Alter, Connection, Error};
use sqlite_schema::schema::Schema;
use std::process::Abort;
use store_older_sql::drop_table;
use store_sql::insert::{insert_item, insert_kept, insert_mark, insert_member};
use store_tables::commit::commit;
use store_tables::create::create_table;
use store_tables::transaction::OpenTransaction;
use store_tables::{
    ItemRecord, KeptRecord, Mark, Member, StoreTable, has_table, is_name_used, lacks_counting_table,
};

static TABLES: [StoreTable; 6] = [
    StoreTable::Mark,
    StoreTable::Item,
    StoreTable::Member,
    StoreTable::Edition,
    StoreTable::Entry,
    StoreTable::Kept,
];

// What a row of a table has: texts, numbers, and the number of an edition.
#[derive(Clone, Copy)]
struct Row(StoreTable, [&'static str; 3], [i64; 2], Option<i64>);

// They are put in by this order.
static ROWS: [Row; 10] = [
    Row(StoreTable::Mark, ["dictcat", "", ""], [2, 8], None),
    Row(StoreTable::Item, ["all", "It's \"all\"", ""], [1, 1], None),
    Row(
        StoreTable::Item,
        ["gem", "", ""],
        [0, 0],
        Some(9_223_372_036_854_775_807),
    ),
    Row(StoreTable::Member, ["b", "gem", ""], [0, 0], None),
    Row(StoreTable::Member, ["a", "ore", ""], [1, 0], None),
    Row(StoreTable::Member, ["a", "gem", ""], [0, 0], None),
    Row(
        StoreTable::Kept,
        ["r2", "install", "gem"],
        [2, 0],
        Some(9_223_372_036_854_775_807),
    ),
    Row(StoreTable::Kept, ["it's", "install", "gem"], [1, 0], None),
    Row(StoreTable::Kept, ["r3", "retire", "gem"], [3, 0], None),
    Row(StoreTable::Kept, ["r4", "retire", "ore"], [4, 0], None),
];

// Makes the table where its name is free.
fn make<S: Alter>(rt: &impl Abort, conn: &mut Connection<S>, table: StoreTable) {
    let schema = conn.schema();
    holds(
        rt,
        !is_name_used(schema, table.name().as_bytes()),
        table.name(),
    );
    holds(rt, !lacks_counting_table(schema), "counting");
    holds(rt, conn.is_autocommit(), "autocommit");
    let mut tx = conn.transaction();
    create_table(&mut tx, table).expect(rt, "a table");
    commit(tx).expect(rt, "a commit");
}

/// Makes all tables, where their names are free.
pub(crate) fn make_all<S: Alter>(rt: &impl Abort, conn: &mut Connection<S>) {
    for table in &TABLES {
        make(rt, conn, *table);
    }
}

/// The names of all tables are in use.
pub(crate) fn are_made(rt: &impl Abort, schema: &Schema) {
    for table in &TABLES {
        holds(
            rt,
            is_name_used(schema, table.name().as_bytes()),
            table.name(),
        );
    }
}

// Inserts a row into its table, if it is one of those that have a statement for it.
fn add<S: Alter, T: OpenTransaction<S>>(
    tx: &mut T,
    table: StoreTable,
    row: &Row,
) -> Result<usize, Error>
    requires { WhileOpen (state S.Store (T.held tx.old)) (Has (table_of table)) }
{
    let [first, second, third] = row.1;
    let [number, other] = row.2;
    match table {
        StoreTable::Mark => insert_mark(
            tx,
            &Mark {
                id: 1,
                magic: first,
                version: number,
                installs: other,
            },
        ),
        StoreTable::Item => insert_item(
            tx,
            &ItemRecord {
                place: number,
                name: first,
                kind: other,
                title: if other == 0 { None } else { Some(second) },
                current: row.3,
                former: None,
            },
        ),
        StoreTable::Member => insert_member(
            tx,
            &Member {
                owner: first,
                ord: number,
                name: second,
            },
        ),
        StoreTable::Kept => insert_kept(
            tx,
            &KeptRecord {
                id: first,
                number,
                verb: second,
                name: third,
                edition: row.3,
            },
        ),
        StoreTable::Edition | StoreTable::Entry => Err(Error::InvalidQuery),
    }
}

// Inserts a row, or drops the table where there is none.
fn act<S: Alter, T: OpenTransaction<S>>(
    tx: &mut T,
    table: StoreTable,
    row: Option<&Row>,
) -> Result<usize, Error>
    requires { WhileOpen (state S.Store (T.held tx.old)) (Has (table_of table)) }
{
    match row {
        Some(row) => add(tx, table, row),
        None => drop_table(tx, table),
    }
}

fn change<S: Alter>(
    rt: &impl Abort,
    conn: &mut Connection<S>,
    table: StoreTable,
    row: Option<&Row>,
) {
    holds(rt, has_table(conn.schema(), table), table.name());
    holds(rt, conn.is_autocommit(), "autocommit");
    let mut tx = conn.transaction();
    act(&mut tx, table, row).expect(rt, "a change");
    commit(tx).expect(rt, "a commit");
}

/// Puts all rows in.
pub(crate) fn put_all<S: Alter>(rt: &impl Abort, conn: &mut Connection<S>) {
    for row in &ROWS {
        change(rt, conn, row.0, Some(row));
    }
}

/// Drops the table of kept replies.
pub(crate) fn drop_kept<S: Alter>(rt: &impl Abort, conn: &mut Connection<S>) {
    change(rt, conn, StoreTable::Kept, None);
}
