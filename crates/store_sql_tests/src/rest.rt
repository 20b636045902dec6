//! All records that a reading has still to give.

use crate::texts::told;
use sqlite::{Alter, Rows};
use std::alloc::Global;
use std::fmt::Debug;
use std::process::Abort;
use store_sql::records::Record;
use store_sql::stream::next_record;

/// The records that are still to come.
pub(crate) fn rest<S: Alter, R: Record + Drop>(
    rt: &impl Abort,
    alloc: Global,
    rows: &mut Rows<'_, S>,
) -> Vec<R> {
    let mut all = Vec::new(alloc);
    'rows: for _ in 0..1000 {
        match next_record(rows).expect(rt, "a record") {
            Some(record) => all.push(record).expect(rt, "memory"),
            None => return all,
        }
    }
    all
}

/// Their text.
pub(crate) fn told_rest<S: Alter, R: Record + Debug + Drop>(
    rt: &impl Abort,
    alloc: Global,
    rows: &mut Rows<'_, S>,
) -> String {
    let all: Vec<R> = rest(rt, alloc, rows);
    told(rt, alloc, all)
}
