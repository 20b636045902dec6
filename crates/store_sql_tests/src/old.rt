//! The entries of schemas 2 and 3, read row by row.

use crate::checks::{holds, same_text};
use crate::rest::told_rest;
use crate::texts::raw;
use sqlite::{Alter, Connection, Error, Rows};
use std::alloc::Global;
use std::process::Abort;
use store_older_sql::{has_old_entry, read_old_by_rowid, read_old_rows_of};
use store_tables::{OldEntry, StoredRow};

// What `.dump` of stock `sqlite3` writes of this table.
const STORED: &str =
    "CREATE TABLE entry (edition INTEGER NOT NULL, ord INTEGER NOT NULL, headword TEXT NOT NULL, start INTEGER NOT NULL, length INTEGER NOT NULL, key BLOB NOT NULL, rkey BLOB NOT NULL, PRIMARY KEY (edition, ord)) STRICT; \
     INSERT INTO entry VALUES(1,0,'opal',0,2,X'6f70616c',X'6c61706f'); \
     INSERT INTO entry VALUES(2,0,'Été',0,2,X'c38974c3a9',X'a9c37489c3'); \
     INSERT INTO entry VALUES(2,1,'Fire Opal',2,2,X'66697265206f70616c',X'6c61706f2065726966')";

const OPAL: &str =
    "[StoredRow { rowid: 1, value: OldEntry { edition: 1, ord: 0, headword: \"opal\", start: 0, length: 2, key: [111, 112, 97, 108], reversed: [108, 97, 112, 111] } }]";

const ALL: &str =
    "[StoredRow { rowid: 1, value: OldEntry { edition: 1, ord: 0, headword: \"opal\", start: 0, length: 2, key: [111, 112, 97, 108], reversed: [108, 97, 112, 111] } }, \
     StoredRow { rowid: 2, value: OldEntry { edition: 2, ord: 0, headword: \"Été\", start: 0, length: 2, key: [195, 137, 116, 195, 169], reversed: [169, 195, 116, 137, 195] } }, \
     StoredRow { rowid: 3, value: OldEntry { edition: 2, ord: 1, headword: \"Fire Opal\", start: 2, length: 2, key: [102, 105, 114, 101, 32, 111, 112, 97, 108], reversed: [108, 97, 112, 111, 32, 101, 114, 105, 102] } }]";

// An edition if its entries alone are read, and what comes.
static READS: [(Option<i64>, &str); 3] = [(Some(0), "[]"), (Some(1), OPAL), (None, ALL)];

// Begins to read entries.
fn begin<'a, S: Alter>(
    rt: &impl Abort,
    conn: &'a mut Connection<S>,
    edition: Option<i64>,
) -> Result<Rows<'a, S>, Error> {
    holds(rt, has_old_entry(conn.schema()), "entry");
    match edition {
        Some(number) => read_old_rows_of(conn, number),
        None => read_old_by_rowid(conn),
    }
}

fn read<S: Alter>(
    rt: &impl Abort,
    alloc: Global,
    conn: &mut Connection<S>,
    edition: Option<i64>,
) -> String {
    let mut rows = begin(rt, conn, edition).expect(rt, "rows");
    let told = told_rest::<S, StoredRow<OldEntry<String, Vec<u8>>>>(rt, alloc, &mut rows);
    drop(rows);
    told
}

/// What is read of the table, which is made first.
pub(crate) fn run<S: Alter>(rt: &impl Abort, alloc: Global, conn: &mut Connection<S>) {
    raw(rt, conn, STORED);
    for (edition, expected) in &READS {
        let text = read(rt, alloc, conn, *edition);
        same_text(rt, text.as_str(), *expected);
    }
}
