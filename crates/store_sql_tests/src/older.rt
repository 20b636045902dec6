//! The tables `edition` and `entry` of schema 4, read inside a transaction, and the first of them dropped.

use crate::checks::{holds, same_text};
use crate::texts::{raw, told_read};
use sqlite::{Alter, Connection};
use std::alloc::Global;
use std::process::Abort;
use store_older_sql::{drop_old_edition, editions_inside, has_keyed_table, shown_entries_inside};
use store_tables::commit::commit;
use store_tables::{KeyedTable, StoreTable, has_table, is_name_used};

const EDITIONS: &str =
    "[StoredRow { rowid: 2, value: EditionRecord { number: 2, owner: \"gem\", title: \"Gems\", info: \"\", body: [111, 114, 101] } }]";

const ENTRIES: &str =
    "[StoredRow { rowid: 2, value: KeyedEntry { edition: 2, ord: 0, headword: \"gem\", start: 0, length: 3, key: [], reversed: [103], shown: \"Gem\" } }, \
     StoredRow { rowid: 1, value: KeyedEntry { edition: 2, ord: 1, headword: \"ore\", start: 3, length: 0, key: [111], reversed: [], shown: \"ore\" } }]";

fn editions_of<S: Alter>(
    rt: &impl Abort,
    alloc: Global,
    conn: &mut Connection<S>,
    number: i64,
) -> String {
    holds(rt, has_table(conn.schema(), StoreTable::Edition), "edition");
    holds(rt, conn.is_autocommit(), "autocommit");
    let mut tx = conn.transaction();
    told_read(rt, alloc, editions_inside(alloc, &mut tx, number))
}

fn entries_of<S: Alter>(
    rt: &impl Abort,
    alloc: Global,
    conn: &mut Connection<S>,
    edition: i64,
) -> String {
    holds(
        rt,
        has_keyed_table(conn.schema(), KeyedTable::Entry),
        "entry",
    );
    holds(rt, conn.is_autocommit(), "autocommit");
    let mut tx = conn.transaction();
    told_read(rt, alloc, shown_entries_inside(alloc, &mut tx, edition))
}

fn drop_editions<S: Alter>(rt: &impl Abort, conn: &mut Connection<S>) {
    holds(rt, has_table(conn.schema(), StoreTable::Edition), "edition");
    holds(rt, conn.is_autocommit(), "autocommit");
    let mut tx = conn.transaction();
    drop_old_edition(&mut tx).expect(rt, "a change");
    commit(tx).expect(rt, "a commit");
}

/// An edition comes with its text, and its entries in the order of their places, whatever their keys are. Where the table of editions went its name is free.
pub(crate) fn run<S: Alter>(rt: &impl Abort, alloc: Global, conn: &mut Connection<S>) {
    raw(
        rt,
        conn,
        "CREATE TABLE edition (number INTEGER NOT NULL PRIMARY KEY, owner TEXT NOT NULL, title TEXT NOT NULL, info TEXT NOT NULL, body BLOB NOT NULL) STRICT; INSERT INTO edition VALUES (2, 'gem', 'Gems', '', x'6f7265'), (1, '', '', '', x'')",
    );
    raw(
        rt,
        conn,
        "CREATE TABLE entry (edition INTEGER NOT NULL, ord INTEGER NOT NULL, headword TEXT NOT NULL, start INTEGER NOT NULL, length INTEGER NOT NULL, key BLOB NOT NULL, rkey BLOB NOT NULL, shown TEXT NOT NULL, PRIMARY KEY (edition, ord)) STRICT; INSERT INTO entry VALUES (2, 1, 'ore', 3, 0, x'6f', x'', 'ore'), (2, 0, 'gem', 0, 3, x'', x'67', 'Gem'), (1, 0, 'opal', 0, 7, x'', x'', 'opal')",
    );
    let editions = editions_of(rt, alloc, conn, 2);
    same_text(rt, editions.as_str(), EDITIONS);
    let entries = entries_of(rt, alloc, conn, 2);
    same_text(rt, entries.as_str(), ENTRIES);
    drop_editions(rt, conn);
    holds(rt, !is_name_used(conn.schema(), b"edition"), "edition");
}
