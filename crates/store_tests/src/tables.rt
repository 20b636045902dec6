//! The rows of the tables of a database.

use crate::checks::holds;
use sqlite::{Alter, Connection};
use std::alloc::Global;
use std::process::Abort;

/// Each selection gives its number.
pub(crate) fn same_numbers<S: Alter>(
    rt: &impl Abort,
    conn: &mut Connection<S>,
    wanted: &[(&str, i64)],
) {
    for (text, count) in wanted {
        let row = conn.query_row(*text, &[]).expect(rt, "a row");
        let found: i64 = row.get(0).expect(rt, "a number");
        holds(rt, found == *count, *text);
    }
}

// All rows of the tables, those of older schemas among them.
static TABLES: [&str; 10] = [
    "SELECT rowid, * FROM mark ORDER BY 1",
    "SELECT rowid, * FROM item ORDER BY 1",
    "SELECT rowid, * FROM member ORDER BY 1",
    "SELECT rowid, * FROM edition ORDER BY 1",
    "SELECT rowid, * FROM dictcat_part ORDER BY 1",
    "SELECT rowid, * FROM entry ORDER BY 1",
    "SELECT rowid, * FROM word ORDER BY 1",
    "SELECT rowid, * FROM gram ORDER BY 1",
    "SELECT rowid, * FROM kept ORDER BY 1",
    "SELECT rowid, * FROM extra ORDER BY 1",
];

/// The rows of all tables that are there, as text.
pub(crate) fn dumped<S: Alter>(rt: &impl Abort, alloc: Global, conn: &mut Connection<S>) -> String {
    let mut text = String::new(alloc);
    for table in &TABLES {
        if let Ok(rows) = conn.query_all(table, &[]) {
            let shown = format!(in alloc; "{rows:?}").expect(rt, "memory");
            text.push_str(shown.as_str()).expect(rt, "memory");
        }
        text.push(';').expect(rt, "memory");
    }
    text
}
