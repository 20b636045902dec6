// What tests of statements share: texts of a test's own, and records as text. No part of the product.
use crate::checks::holds;
use sqlite::{Alter, Connection};
use std::alloc::Global;
use std::fmt::Debug;
use std::process::Abort;
use store_sql::records::ReadError;

// Runs a text of a test's own.
pub(crate) fn raw<S: Alter>(rt: &impl Abort, conn: &mut Connection<S>, text: &str) {
    conn.execute_batch(text).expect(rt, "a statement");
}

// The number that such a text answers.
fn number<S: Alter>(rt: &impl Abort, conn: &mut Connection<S>, text: &str) -> i64 {
    let row = conn.query_row(text, &[]).expect(rt, "a row");
    row.get(0).expect(rt, "a number")
}

// Each text of a test's own answers its number.
pub(crate) fn compare_numbers<S: Alter>(
    rt: &impl Abort,
    conn: &mut Connection<S>,
    rows: &[(&'static str, i64)],
) {
    for (text, expected) in rows {
        holds(rt, number(rt, conn, *text) == *expected, *text);
    }
}

// Records as text.
pub(crate) fn told<R: Debug + Drop>(rt: &impl Abort, alloc: Global, all: Vec<R>) -> String {
    let records = all.as_slice();
    format!(in alloc; "{records:?}").expect(rt, "memory")
}

// Records that were read, as text.
pub(crate) fn told_read<R: Debug + Drop>(
    rt: &impl Abort,
    alloc: Global,
    found: Result<Vec<R>, ReadError>,
) -> String {
    told(rt, alloc, found.expect(rt, "records"))
}
