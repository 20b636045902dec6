//! The tables of schema 4 that have what is derived of headwords: recognised and dropped, the entries read row by row.

use crate::checks::{holds, same_text};
use crate::rest::told_rest;
use crate::texts::{compare_numbers, raw};
use sqlite::{Alter, Connection, Error, Rows};
use std::alloc::Global;
use std::process::Abort;
use store_older_sql::{drop_keyed_table, has_keyed_table, read_shown_by_rowid, read_shown_rows_of};
use store_tables::commit::commit;
use store_tables::{KeyedEntry, KeyedTable, StoredRow, is_name_used};

// What `.dump` of stock `sqlite3` writes of these tables, with an index over the entries and a table of another's.
const STORED: &str =
    "CREATE TABLE entry (edition INTEGER NOT NULL, ord INTEGER NOT NULL, headword TEXT NOT NULL, start INTEGER NOT NULL, length INTEGER NOT NULL, key BLOB NOT NULL, rkey BLOB NOT NULL, shown TEXT NOT NULL, PRIMARY KEY (edition, ord)) STRICT; \
     INSERT INTO entry VALUES(2,0,'b',0,1,X'62',X'62','B'); \
     INSERT INTO entry VALUES(1,1,'''A''',0,9223372036854775807,X'61',X'61',''); \
     INSERT INTO entry VALUES(1,0,'',1,0,X'',X'',' '); \
     CREATE INDEX dictcat_entry_key ON entry (edition, key); \
     CREATE TABLE word (edition INTEGER NOT NULL, word BLOB NOT NULL, ord INTEGER NOT NULL, PRIMARY KEY (edition, word, ord)) STRICT; \
     INSERT INTO word VALUES(1,X'F48FBFBF',0); \
     INSERT INTO word VALUES(1,X'',3); \
     CREATE TABLE gram (edition INTEGER NOT NULL, gram BLOB NOT NULL, ord INTEGER NOT NULL, PRIMARY KEY (edition, gram, ord)) STRICT; \
     INSERT INTO gram VALUES(2,X'6F7061',0); \
     INSERT INTO gram VALUES(1,X'6F7061',9223372036854775807); \
     CREATE TABLE last (b INTEGER PRIMARY KEY, c BLOB) STRICT; \
     INSERT INTO last VALUES(1,X''),(2,NULL)";

const ENTRIES: &str =
    "[StoredRow { rowid: 1, value: KeyedEntry { edition: 2, ord: 0, headword: \"b\", start: 0, length: 1, key: [98], reversed: [98], shown: \"B\" } }, \
     StoredRow { rowid: 2, value: KeyedEntry { edition: 1, ord: 1, headword: \"'A'\", start: 0, length: 9223372036854775807, key: [97], reversed: [97], shown: \"\" } }, \
     StoredRow { rowid: 3, value: KeyedEntry { edition: 1, ord: 0, headword: \"\", start: 1, length: 0, key: [], reversed: [], shown: \" \" } }]";

const OF_FIRST: &str =
    "[StoredRow { rowid: 3, value: KeyedEntry { edition: 1, ord: 0, headword: \"\", start: 1, length: 0, key: [], reversed: [], shown: \" \" } }, \
     StoredRow { rowid: 2, value: KeyedEntry { edition: 1, ord: 1, headword: \"'A'\", start: 0, length: 9223372036854775807, key: [97], reversed: [97], shown: \"\" } }]";

// An edition if its entries alone are read, and what comes: those in the order of their places, others in that of their rowids.
static READS: [(Option<i64>, &str); 3] = [(None, ENTRIES), (Some(1), OF_FIRST), (Some(3), "[]")];

// Begins to read entries.
fn begin<'a, S: Alter>(
    rt: &impl Abort,
    conn: &'a mut Connection<S>,
    edition: Option<i64>,
) -> Result<Rows<'a, S>, Error> {
    holds(
        rt,
        has_keyed_table(conn.schema(), KeyedTable::Entry),
        "entry",
    );
    match edition {
        Some(number) => read_shown_rows_of(conn, number),
        None => read_shown_by_rowid(conn),
    }
}

fn read<S: Alter>(
    rt: &impl Abort,
    alloc: Global,
    conn: &mut Connection<S>,
    edition: Option<i64>,
) -> String {
    let mut rows = begin(rt, conn, edition).expect(rt, "rows");
    let told = told_rest::<S, StoredRow<KeyedEntry<String, Vec<u8>>>>(rt, alloc, &mut rows);
    drop(rows);
    told
}

fn drop_table<S: Alter>(rt: &impl Abort, conn: &mut Connection<S>, table: KeyedTable) {
    holds(rt, has_keyed_table(conn.schema(), table), table.name());
    holds(rt, conn.is_autocommit(), "autocommit");
    let mut tx = conn.transaction();
    drop_keyed_table(&mut tx, table).expect(rt, "a change");
    commit(tx).expect(rt, "a commit");
}

// Drops each table, whose name is free then.
fn drop_all<S: Alter>(rt: &impl Abort, conn: &mut Connection<S>) {
    for table in &[KeyedTable::Gram, KeyedTable::Entry, KeyedTable::Word] {
        drop_table(rt, conn, *table);
        holds(
            rt,
            !is_name_used(conn.schema(), table.name().as_bytes()),
            table.name(),
        );
    }
}

/// What is read of the entries. Each table goes with its indexes, and leaves the others.
pub(crate) fn run<S: Alter>(rt: &impl Abort, alloc: Global, conn: &mut Connection<S>) {
    raw(rt, conn, STORED);
    for (edition, expected) in &READS {
        let text = read(rt, alloc, conn, *edition);
        same_text(rt, text.as_str(), *expected);
    }
    drop_all(rt, conn);
    holds(
        rt,
        !is_name_used(conn.schema(), b"dictcat_entry_key"),
        "the index",
    );
    compare_numbers(rt, conn, &[("SELECT count(*) FROM last", 2)]);
}
