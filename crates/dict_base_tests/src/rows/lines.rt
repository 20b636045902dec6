//! Editions whose entries are read as the lines of an index.

use super::readings::{begin, read_replies};
use super::records::{EditionRow, GEM, ORE, Rows, WHOLE, edition, empty, put_all, says};
use crate::checks::{holds, same};
use dict_catalogue::Summary;
use std::alloc::Global;
use std::process::Abort;
use store_rows::{Reader, RowsFault};

/// The headword of a line, the interval of the text that is its body, and what is shown.
#[derive(Clone, Copy)]
struct LineRow(&'static str, u64, u64, &'static str);

static ORE_LINES: [LineRow; 1] = [LineRow("iron", 23, 11, "Iron")];

static GEM_LINES: [LineRow; 3] = [
    LineRow("opal", 25, 15, "opal"),
    LineRow("Fire Opal", 25, 15, "fire opal"),
    LineRow("dot", 40, 5, "dot"),
];

/// An interval past the text, a reserved headword, and nothing that is shown.
static DAMAGED: [LineRow; 3] = [
    LineRow("iron", 23, 12, "iron"),
    LineRow("00-database-url", 23, 11, "iron"),
    LineRow("iron", 23, 11, ""),
];

fn read_lines(
    rt: &impl Abort,
    alloc: Global,
    reader: &mut Reader,
    row: EditionRow<'_>,
    lines: &[LineRow],
) -> Result<(), RowsFault> {
    reader.edition(edition(rt, alloc, row).edition.value)?;
    for line in lines {
        reader.line(alloc, line.0, line.1, line.2, line.3)?;
    }
    Ok(())
}

fn read_whole(rt: &impl Abort, alloc: Global, rows: &Rows) -> Summary {
    let mut reader = begin(alloc, rows).expect(rt, "a reader");
    let read = read_lines(rt, alloc, &mut reader, ORE, &ORE_LINES);
    read.expect(rt, "the lines of ore");
    let read = read_lines(rt, alloc, &mut reader, GEM, &GEM_LINES);
    read.expect(rt, "the lines of gem");
    read_replies(&mut reader, rows).expect(rt, "the replies");
    reader.finish().expect(rt, "a catalogue")
}

fn look_at_lines(rt: &impl Abort, alloc: Global, rows: &mut Rows) {
    put_all(rt, alloc, rows, &WHOLE);
    let summary = read_whole(rt, alloc, rows);
    same(rt, &summary.items.len(), &3);
    holds(rt, says(summary.items.get(1), "gem", "Gems"), "gem");
    drop(summary);
    for line in &DAMAGED {
        let mut reader = begin(alloc, rows).expect(rt, "a reader");
        let read = read_lines(rt, alloc, &mut reader, ORE, &[*line]);
        drop(reader);
        holds(rt, read.err() == Some(RowsFault::Damaged), line.0);
    }
}

#[test]
fn lines_of_a_catalogue_and_of_none(rt: HostRuntime) {
    let mut rows = empty(rt.alloc());
    look_at_lines(&rt, rt.alloc(), &mut rows);
    drop(rows);
}
