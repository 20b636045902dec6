//! An edition that is read in slices.

use crate::checks::{holds, same};
use dict_index::{EditionRefusal, IndexFault};
use dict_reading::{EditionReader, ReadLine, Reading, SLICE_LINES};
use std::alloc::Global;
use std::process::Abort;

static INDEX: &[u8] =
    b"00-database-short\tA\tZ\nopal\tZ\tP\nFire Opal\tZ\tP\tFire opal\ndot\to\tF\n";

static TEXT: &[u8] = b"00-database-short\n  Gems\nopal\n  a stone\n.dot\n";

// The short line, so many entries, and a last line.
fn many_lines(rt: &impl Abort, alloc: Global, count: usize, last: &[u8]) -> Vec<u8> {
    let mut index = Vec::from_slice(alloc, b"00-database-short\tA\tZ\n").expect(rt, "memory");
    for _ in 0..count {
        index
            .extend_from_slice(b"opal\tZ\tP\n")
            .expect(rt, "memory");
    }
    index.extend_from_slice(last).expect(rt, "memory");
    index
}

fn says(line: &ReadLine<'_>, headword: &str, shown: &str, offset: usize, size: usize) -> bool {
    line.headword == headword && line.shown == shown && line.offset == offset && line.size == size
}

// What the small database says.
fn is_small(rt: &impl Abort, edition: &Reading<'_>) {
    holds(rt, edition.title() == "Gems", "title");
    holds(rt, edition.info().is_empty(), "info");
    holds(rt, edition.text() == TEXT, "text");
    holds(rt, edition.len() == 3, "entries");
    let is_second = match edition.line(1) {
        Some(line) => says(&line, "Fire Opal", "Fire opal", 25, 15),
        None => false,
    };
    holds(rt, is_second, "the second line");
    holds(rt, edition.line(3).is_none(), "three lines");
}

#[test]
fn reads_a_small_database(rt: HostRuntime) {
    let mut reader = EditionReader::begin(rt.alloc(), INDEX, TEXT).expect(&rt, "a reader");
    reader.take_all(INDEX, TEXT).expect(&rt, "all lines");
    is_small(&rt, &reader.end(INDEX, TEXT).expect(&rt, "an edition"));
}

// What two slices of lines answer, how many lines the first has, and whether all are read.
fn two_slices(
    rt: &impl Abort,
    alloc: Global,
    index: &[u8],
) -> (
    Result<bool, IndexFault>,
    usize,
    Result<bool, IndexFault>,
    bool,
) {
    let mut reader = EditionReader::begin(alloc, index, TEXT).expect(rt, "a reader");
    let first = reader.take(index, TEXT);
    let count = reader.line_count();
    let second = reader.take(index, TEXT);
    (first, count, second, reader.is_at_end(index))
}

fn told_by_all(rt: &impl Abort, alloc: Global, index: &[u8]) -> Result<(), IndexFault> {
    let mut reader = EditionReader::begin(alloc, index, TEXT).expect(rt, "a reader");
    reader.take_all(index, TEXT)
}

// Whether all lines are read, and no edition comes of them.
fn lacks_a_title(rt: &impl Abort, alloc: Global, index: &[u8]) -> bool {
    let mut reader = EditionReader::begin(alloc, index, TEXT).expect(rt, "a reader");
    reader.take_all(index, TEXT).expect(rt, "all lines");
    reader.end(index, TEXT).is_err()
}

#[test]
fn reads_in_two_slices_and_tells_what_is_amiss(rt: HostRuntime) {
    let index = many_lines(&rt, rt.alloc(), SLICE_LINES, b"");
    let told = two_slices(&rt, rt.alloc(), &index);
    drop(index);
    same(&rt, &told, &(Ok(true), SLICE_LINES, Ok(false), true));
    let index = many_lines(&rt, rt.alloc(), SLICE_LINES, b"00-database-short\tA\tZ\n");
    let told = told_by_all(&rt, rt.alloc(), &index);
    drop(index);
    let twice = IndexFault::Refused {
        refusal: EditionRefusal::ReservedTwice,
        line: Some(SLICE_LINES + 2),
    };
    same(&rt, &told, &Err(twice));
    let is_so = lacks_a_title(&rt, rt.alloc(), b"opal\tZ\tP\n");
    holds(&rt, is_so, "no title");
}
