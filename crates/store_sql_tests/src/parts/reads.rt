//! What is read of parts: all, in the order of their rowids, those of a file, and one.

use crate::checks::{holds, same_text};
use crate::rest::rest;
use crate::texts::{told, told_read};
use sqlite::{Alter, Connection, Error, Rows};
use std::alloc::Global;
use std::process::Abort;
use store_sql::part_found::has_part_table;
use store_sql::part_one::parts_numbered;
use store_sql::part_records::StoredPart;
use store_sql::part_scan::{read_parts_by_rowid, read_parts_of};

// What is read.
#[derive(Clone, Copy)]
enum Wanted {
    ByRowid,
    Of(i64, i64),
    One(i64, i64, i64),
}

static READS: [(Wanted, &str); 5] = [
    (
        Wanted::ByRowid,
        "[StoredPart { rowid: 1, part: Part { edition: 2, file: 1, number: 0, octets: [116] } }, \
         StoredPart { rowid: 3, part: Part { edition: 1, file: 1, number: 0, octets: [97] } }, \
         StoredPart { rowid: 4, part: Part { edition: 1, file: 0, number: 0, octets: [105] } }]",
    ),
    (
        Wanted::Of(1, 1),
        "[StoredPart { rowid: 3, part: Part { edition: 1, file: 1, number: 0, octets: [97] } }]",
    ),
    (Wanted::Of(3, 0), "[]"),
    (
        Wanted::One(1, 0, 0),
        "[StoredPart { rowid: 4, part: Part { edition: 1, file: 0, number: 0, octets: [105] } }]",
    ),
    (Wanted::One(1, 1, 1), "[]"),
];

// Begins to read more than one.
fn begin<'a, S: Alter>(
    rt: &impl Abort,
    conn: &'a mut Connection<S>,
    file: Option<(i64, i64)>,
) -> Result<Rows<'a, S>, Error> {
    holds(rt, has_part_table(conn.schema()), "parts");
    match file {
        Some((edition, number)) => read_parts_of(conn, edition, number),
        None => read_parts_by_rowid(conn),
    }
}

fn some<S: Alter>(
    rt: &impl Abort,
    alloc: Global,
    conn: &mut Connection<S>,
    file: Option<(i64, i64)>,
) -> String {
    let mut rows = begin(rt, conn, file).expect(rt, "rows");
    let all: Vec<StoredPart> = rest(rt, alloc, &mut rows);
    drop(rows);
    told(rt, alloc, all)
}

fn one<S: Alter>(
    rt: &impl Abort,
    alloc: Global,
    conn: &mut Connection<S>,
    edition: i64,
    file: i64,
    number: i64,
) -> String {
    holds(rt, has_part_table(conn.schema()), "parts");
    told_read(
        rt,
        alloc,
        parts_numbered(alloc, conn, edition, file, number),
    )
}

// What is wanted, as text.
fn found<S: Alter>(
    rt: &impl Abort,
    alloc: Global,
    conn: &mut Connection<S>,
    wanted: Wanted,
) -> String {
    match wanted {
        Wanted::ByRowid => some(rt, alloc, conn, None),
        Wanted::Of(edition, file) => some(rt, alloc, conn, Some((edition, file))),
        Wanted::One(edition, file, number) => one(rt, alloc, conn, edition, file, number),
    }
}

/// Each reading gives what it is to give.
pub(crate) fn look<S: Alter>(rt: &impl Abort, alloc: Global, conn: &mut Connection<S>) {
    for (wanted, text) in &READS {
        let all = found(rt, alloc, conn, *wanted);
        same_text(rt, &all, *text);
    }
}
