//! Texts and indexes that end before, at and behind the end of a part: what is stored is what was installed, and a body over several parts is handed out whole.

use crate::checks::{holds, same_text};
use crate::steps::{Step, over_memory};
use crate::taken::{Counted, found, taken_between};
use dict_catalogue::Command;
use dict_desk::{Keeper, Lookup};
use dict_index::{Edition, read_edition};
use dict_match::Strategy;
use std::alloc::{AllocError, Global};
use std::process::Abort;

/// How many octets stand behind the title, the index, how many parts the text has, and its entries: a headword, where its body begins, and how long it is.
/// The first is looked up first, and lies in each part.
#[derive(Clone, Copy)]
pub(crate) struct Case(
    u32,
    &'static str,
    u32,
    &'static [(&'static str, usize, usize)],
);

const TITLE: &str = "00-database-short\n  Lines\n";

const TITLE_LENGTH: i64 = 26;

static CASES: [Case; 10] = [
    Case(
        0,
        "00-database-short\tA\ta\nall\tA\ta\n",
        1,
        &[("all", 0, 26)],
    ),
    Case(
        1,
        "00-database-short\tA\ta\nall\tA\tb\nlast\ta\tB\n",
        1,
        &[("all", 0, 27), ("last", 26, 1)],
    ),
    Case(
        16358,
        "00-database-short\tA\ta\nall\tA\tEAA\nlast\tD//\tB\n",
        1,
        &[("all", 0, 16384), ("last", 16383, 1)],
    ),
    Case(
        16359,
        "00-database-short\tA\ta\nall\tA\tEAB\nlast\tEAA\tB\nover\tD/8\tF\n",
        2,
        &[("all", 0, 16385), ("last", 16384, 1), ("over", 16380, 5)],
    ),
    Case(
        16383,
        "00-database-short\tA\ta\nall\tA\tEAZ\nlast\tEAY\tB\nover\tD/8\tJ\n",
        2,
        &[("all", 0, 16409), ("last", 16408, 1), ("over", 16380, 9)],
    ),
    Case(
        16384,
        "00-database-short\tA\ta\nall\tA\tEAa\nlast\tEAZ\tB\nover\tD/8\tJ\n",
        2,
        &[("all", 0, 16410), ("last", 16409, 1), ("over", 16380, 9)],
    ),
    Case(
        16385,
        "00-database-short\tA\ta\nall\tA\tEAb\nlast\tEAa\tB\nover\tD/8\tJ\n",
        2,
        &[("all", 0, 16411), ("last", 16410, 1), ("over", 16380, 9)],
    ),
    Case(
        32768,
        "00-database-short\tA\ta\nall\tA\tIAa\nlast\tIAZ\tB\nover\tD/8\tJ\nsecond\tEAA\tEAA\n",
        3,
        &[
            ("all", 0, 32794),
            ("last", 32793, 1),
            ("over", 16380, 9),
            ("second", 16384, 16384),
        ],
    ),
    Case(
        32742,
        "00-database-short\tA\ta\nall\tA\tIAA\nlast\tH//\tB\nover\tD/8\tJ\nsecond\tEAA\tEAA\n",
        2,
        &[
            ("all", 0, 32768),
            ("last", 32767, 1),
            ("over", 16380, 9),
            ("second", 16384, 16384),
        ],
    ),
    Case(
        70000,
        "00-database-short\tA\ta\nall\tA\tRGK\nlast\tRGJ\tB\nover\tD/8\tJ\nsecond\tEAA\tEAA\n",
        5,
        &[
            ("all", 0, 70026),
            ("last", 70025, 1),
            ("over", 16380, 9),
            ("second", 16384, 16384),
        ],
    ),
];

// The octet at a place behind the title: lines of 64.
fn letter(place: u32, size: u32) -> char {
    if place % 64 == 63 || place.wrapping_add(1) == size {
        '\n'
    } else {
        b'a'.wrapping_add((place % 26) as u8) as char
    }
}

fn text_of(rt: &impl Abort, alloc: Global, size: u32) -> String {
    let mut text = String::new(alloc);
    text.push_str(TITLE).expect(rt, "memory");
    for place in 0..size {
        text.push(letter(place, size)).expect(rt, "memory");
    }
    text
}

fn install_edition<K: Keeper>(rt: &impl Abort, desk: &mut K, name: &str, edition: &Edition) {
    let command = Command::Install { name, edition };
    let _kept = desk.apply(name, &command).expect(rt, "a reply");
}

/// Installs an edition of these two files.
pub(crate) fn install<K: Keeper>(
    rt: &impl Abort,
    alloc: Global,
    desk: &mut K,
    name: &str,
    index: &str,
    text: &[u8],
) {
    let edition = read_edition(alloc, index.as_bytes(), text).expect(rt, "an edition");
    install_edition(rt, desk, name, &edition);
}

// What is handed out for an entry is its headword and its body.
fn answer_of(alloc: Global, headword: &str, body: &str) -> Result<String, AllocError> {
    format!(in alloc; "{headword}={body}/")
}

// Each entry is handed out, and so many rows are handed over for all.
fn look<L: Lookup + Counted>(
    rt: &impl Abort,
    alloc: Global,
    desk: &mut L,
    case: &Case,
    text: &str,
    rows: u64,
) {
    let before = desk.taken();
    for (headword, start, length) in case.3 {
        let answer = found(rt, alloc, desk, 1, Strategy::Exact, *headword, usize::MAX);
        let body = text.get(*start..start.wrapping_add(*length)).unwrap_or("");
        let wanted = answer_of(alloc, *headword, body).expect(rt, "memory");
        same_text(rt, answer.text.as_str(), wanted.as_str(), case.1);
    }
    let taken = taken_between(before, desk.taken());
    holds(rt, taken.unwrap_or(rows) == rows, case.1);
}

/// The text, which is installed first or was before, is handed out so. The first lookup of a desk reads each part once, and
/// another of the same reads none.
pub(crate) fn look_around<K: Keeper + Counted>(
    rt: &impl Abort,
    alloc: Global,
    desk: &mut K,
    case: &Case,
    is_first: bool,
) {
    let text = text_of(rt, alloc, case.0);
    let text = text.as_str();
    if is_first {
        install(rt, alloc, desk, "lines", case.1, text.as_bytes());
    }
    let entries = case.3.len() as u64;
    let all = entries.saturating_add(u64::from(case.2));
    look(rt, alloc, desk, case, text, all);
    look(rt, alloc, desk, case, text, entries);
}

// The text is installed, and handed out so by this desk and by one that is opened behind it.
fn goes_around(rt: &impl Abort, alloc: Global, case: Case) {
    let steps = [
        Step::Around(case, true),
        Step::Around(case, false),
        Step::Number(
            "SELECT count(*) FROM dictcat_part WHERE edition = 1 AND file = 1",
            i64::from(case.2),
        ),
        Step::Number(
            "SELECT sum(length(octets)) FROM dictcat_part WHERE edition = 1 AND file = 1",
            i64::from(case.0).saturating_add(TITLE_LENGTH),
        ),
    ];
    over_memory(rt, alloc, &steps);
}

#[test]
fn texts_go_around_parts(rt: HostRuntime) {
    let alloc = rt.alloc();
    for case in &CASES {
        goes_around(&rt, alloc, *case);
    }
}

/// The first letters of all headwords, how many lines an index has, of how many octets each, how many parts, and the headword of a line, which is the last, or
/// lies over the end of a part.
#[derive(Clone, Copy)]
pub(crate) struct Lines(&'static str, u32, i64, i64, &'static str);

static LINES: [Lines; 5] = [
    Lines("headwo", 1_023, 16, 1, "headwo01022"),
    Lines("headwo", 1_024, 16, 1, "headwo01023"),
    Lines("headwo", 1_025, 16, 2, "headwo01024"),
    Lines("headwo", 2_048, 16, 2, "headwo02047"),
    Lines("headw", 1_100, 15, 2, "headw01092"),
];

fn index_of(rt: &impl Abort, alloc: Global, lines: Lines) -> String {
    let letters = lines.0;
    let mut index = String::new(alloc);
    index
        .push_str("00-database-short\tA\ta\n")
        .expect(rt, "memory");
    for number in 0..lines.1 {
        let line = format!(in alloc; "{letters}{number:05}\tA\ta\n").expect(rt, "memory");
        index.push_str(line.as_str()).expect(rt, "memory");
    }
    index
}

/// The index is installed, or a desk that is opened behind it finds the last line.
pub(crate) fn look_for_the_last<K: Keeper>(
    rt: &impl Abort,
    alloc: Global,
    desk: &mut K,
    lines: Lines,
    is_first: bool,
) {
    if is_first {
        let index = index_of(rt, alloc, lines);
        install(rt, alloc, desk, "lines", index.as_str(), TITLE.as_bytes());
    } else {
        let answer = found(rt, alloc, desk, 1, Strategy::Exact, lines.4, usize::MAX);
        let wanted = answer_of(alloc, lines.4, TITLE).expect(rt, "memory");
        same_text(rt, answer.text.as_str(), wanted.as_str(), lines.4);
    }
}

fn index_goes_around(rt: &impl Abort, alloc: Global, lines: Lines) {
    let steps = [
        Step::Lines(lines, true),
        Step::Lines(lines, false),
        Step::Number(
            "SELECT count(*) FROM dictcat_part WHERE edition = 1 AND file = 0",
            lines.3,
        ),
        Step::Number(
            "SELECT sum(length(octets)) FROM dictcat_part WHERE edition = 1 AND file = 0",
            i64::from(lines.1).saturating_mul(lines.2),
        ),
    ];
    over_memory(rt, alloc, &steps);
}

#[test]
fn indexes_go_around_parts(rt: HostRuntime) {
    let alloc = rt.alloc();
    for lines in &LINES {
        index_goes_around(&rt, alloc, *lines);
    }
}
