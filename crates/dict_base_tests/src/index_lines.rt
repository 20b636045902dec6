//! Lines of an index as they are stored, worked by hand.

use crate::checks::holds;
use store_rows::{read_line, write_line};

struct Row {
    headword: &'static str,
    offset: u64,
    size: u64,
    shown: &'static str,
    line: &'static [u8],
}

static ROWS: [Row; 5] = [
    Row {
        headword: "gem",
        offset: 0,
        size: 64,
        shown: "gem",
        line: b"gem\tA\tBA\n",
    },
    Row {
        headword: "gem",
        offset: 25,
        size: 4_096,
        shown: "Gem",
        line: b"gem\tZ\tBAA\tGem\n",
    },
    Row {
        headword: "",
        offset: 63,
        size: 68_719_476_735,
        shown: "",
        line: b"\t/\t//////\n",
    },
    Row {
        headword: "a",
        offset: 1,
        size: 2,
        shown: "",
        line: b"a\tB\tC\t\n",
    },
    Row {
        headword: "\u{e9}t\u{e9}",
        offset: 67_108_864,
        size: 1,
        shown: "\u{c9}t\u{e9}",
        line: b"\xc3\xa9t\xc3\xa9\tEAAAA\tB\t\xc3\x89t\xc3\xa9\n",
    },
];

// Whether octets begin with a row's line, behind which these follow.
fn reads(octets: &[u8], row: &Row, behind: &[u8]) -> bool {
    match read_line(octets) {
        Some((columns, rest)) => {
            columns.headword == row.headword
                && columns.offset == row.offset
                && columns.size == row.size
                && columns.shown == row.shown
                && rest == behind
        }
        None => false,
    }
}

#[test]
fn reads_what_was_written(rt: HostRuntime) {
    let mut lines = Vec::new(rt.alloc());
    write_line("gem", 0, 64, "gem", &mut lines).expect(&rt, "memory");
    let is_first = lines.as_slice() == ROWS[0].line;
    write_line("gem", 25, 4_096, "Gem", &mut lines).expect(&rt, "memory");
    let are_two = reads(&lines, &ROWS[0], ROWS[1].line);
    drop(lines);
    holds(&rt, is_first, "a line");
    holds(&rt, are_two, "two lines");
}

static NO_LINES: [&[u8]; 13] = [
    b"",
    b"\n",
    b"gem\n",
    b"gem\tA\n",
    b"gem\tA\tBA",
    b"gem\tA\tBA\tGem\t\n",
    b"gem\tA\tBA\tgem\n",
    b"gem\tAB\tBA\n",
    b"gem\tA\tBAAAAAA\n",
    b"gem\tA\t\n",
    b"gem\tA\t=\n",
    b"\xff\tA\tBA\n",
    b"gem\tA\tBA\t\xff\n",
];

#[test]
fn reads_lines_and_nothing_else(rt: HostRuntime) {
    for row in &ROWS {
        holds(&rt, reads(row.line, row, b""), row.shown);
    }
    for octets in &NO_LINES {
        holds(&rt, read_line(octets).is_none(), "no line");
    }
}
