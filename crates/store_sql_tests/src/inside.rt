//! The table `entry` as it is without keys, read inside a transaction.

use crate::checks::{holds, same_text};
use crate::texts::{raw, told_read};
use sqlite::{Alter, Connection};
use std::alloc::Global;
use std::process::Abort;
use store_older_sql::{entries_inside, has_keyed_table};
use store_tables::{KeyedTable, StoreTable, has_table};

const FOUND: &str =
    "[StoredRow { rowid: 3, value: EntryRecord { edition: 1, ord: 0, headword: \"\", start: 7, length: 0 } }, \
     StoredRow { rowid: 4, value: EntryRecord { edition: 1, ord: 1, headword: \"gem\", start: 7, length: 9 } }, \
     StoredRow { rowid: 1, value: EntryRecord { edition: 1, ord: 2, headword: \"opal\", start: 0, length: 7 } }]";

static READS: [(i64, &str); 2] = [(1, FOUND), (3, "[]")];

fn told_of<S: Alter>(
    rt: &impl Abort,
    alloc: Global,
    conn: &mut Connection<S>,
    edition: i64,
) -> String {
    holds(rt, has_table(conn.schema(), StoreTable::Entry), "entry");
    holds(rt, conn.is_autocommit(), "autocommit");
    let mut tx = conn.transaction();
    let found = told_read(rt, alloc, entries_inside(alloc, &mut tx, edition));
    drop(tx);
    found
}

/// The entries of an edition come in the order of their places.
pub(crate) fn run<S: Alter>(rt: &impl Abort, alloc: Global, conn: &mut Connection<S>) {
    raw(
        rt,
        conn,
        "CREATE TABLE entry (edition INTEGER NOT NULL, ord INTEGER NOT NULL, headword TEXT NOT NULL, start INTEGER NOT NULL, length INTEGER NOT NULL, PRIMARY KEY (edition, ord)) STRICT; INSERT INTO entry VALUES (1, 2, 'opal', 0, 7), (2, 0, 'ore', 0, 1), (1, 0, '', 7, 0), (1, 1, 'gem', 7, 9)",
    );
    holds(
        rt,
        !has_keyed_table(conn.schema(), KeyedTable::Entry),
        "entry",
    );
    for (edition, expected) in &READS {
        let text = told_of(rt, alloc, conn, *edition);
        same_text(rt, text.as_str(), *expected);
    }
}
