//! The statements of each table on their happy path, with other tables before and after them.

use crate::checks::holds;
use crate::texts::{compare_numbers, raw};
use rows::{are_made, drop_kept, make_all, put_all};
use sqlite::{Alter, Connection};
use std::alloc::Global;
use std::process::Abort;
use store_tables::{StoreTable, has_table, is_name_used};

mod reads;
mod rows;

/// Makes the tables, fills them and reads them. Their names aren't free a second time.
pub(crate) fn fill<S: Alter>(rt: &impl Abort, alloc: Global, conn: &mut Connection<S>) {
    raw(
        rt,
        conn,
        "CREATE TABLE first (a TEXT NOT NULL UNIQUE REFERENCES first (a)) STRICT; INSERT INTO first VALUES ('it''s')",
    );
    make_all(rt, conn);
    are_made(rt, conn.schema());
    raw(
        rt,
        conn,
        "CREATE TABLE last (b INTEGER PRIMARY KEY, c BLOB) STRICT; INSERT INTO last VALUES (1, x''), (2, NULL)",
    );
    put_all(rt, conn);
    raw(
        rt,
        conn,
        "INSERT INTO mark VALUES (2, '', 9223372036854775807, -1); \
         INSERT INTO edition VALUES (3, 'owner', 'title', '', x''), (2, 'owner', 'title', 'it''s \"quoted\"\u{1}\t\n', x'00ff2722'); \
         INSERT INTO entry VALUES (2, 0, '''ore''', 0, 9223372036854775807), (1, 1, 'opal', 1, 9223372036854775807), (1, 0, '', 0, 9223372036854775807); \
         INSERT INTO entry (rowid, edition, ord, headword, start, length) VALUES (9223372036854775807, 3, 0, 'zinc', 0, 0)",
    );
    reads::look(rt, alloc, conn);
}

// The rows of the other tables, and of two of the store's.
static COUNTS: [(&str, i64); 4] = [
    ("SELECT count(*) FROM first", 1),
    ("SELECT count(*) FROM last", 2),
    ("SELECT count(*) FROM member", 3),
    ("SELECT count(*) FROM entry", 4),
];

/// The other tables stand where one is dropped, and a table that is not the product's is not taken for it.
pub(crate) fn drop_and_look<S: Alter>(rt: &impl Abort, conn: &mut Connection<S>) {
    drop_kept(rt, conn);
    holds(rt, !is_name_used(conn.schema(), b"kept"), "kept");
    compare_numbers(rt, conn, &COUNTS);
    raw(
        rt,
        conn,
        "CREATE TABLE kept (id TEXT NOT NULL PRIMARY KEY, number INTEGER NOT NULL UNIQUE) STRICT",
    );
    holds(rt, !has_table(conn.schema(), StoreTable::Kept), "kept");
}
