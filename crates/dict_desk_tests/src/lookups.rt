// Lookups in a catalogue in memory.
use super::files::{EDGE, Files, GEM, ORE, STONES, TELL, install, install_files};
use super::rows::{Sought, counts, hand_out};
use crate::checks::{holds, same, same_text_of};
use dict_desk::PlainDesk;
use dict_index::read_edition;
use dict_match::Strategy;
use std::alloc::Global;
use std::process::Abort;

/// The edition's number, the strategy, the query, the entries found, and the headwords found.
#[derive(Clone, Copy)]
struct Row(u64, Strategy, &'static str, &'static str, &'static str);

// How many rows there are, as each ends by a semicolon.
fn row_count(text: &str) -> u64 {
    let mut count = 0u64;
    for byte in text.as_bytes() {
        if *byte == b';' && count < u64::MAX {
            count += 1;
        }
    }
    count
}

// These rows are handed out of an edition, of which so many are taken at most.
fn check_out(
    rt: &impl Abort,
    alloc: Global,
    desk: &mut PlainDesk,
    (number, sought): (u64, Sought),
    (strategy, query): (Strategy, &str),
    (most, wanted): (usize, &str),
) {
    let rows = hand_out(rt, alloc, desk, number, sought, strategy, query, most);
    same_text_of(rt, rows.as_str(), wanted, query);
}

fn check(rt: &impl Abort, alloc: Global, desk: &mut PlainDesk, row: Row) {
    let Row(number, strategy, query, found, heads) = row;
    let by = (strategy, query);
    check_out(rt, alloc, desk, (number, Sought::Found), by, (9, found));
    check_out(rt, alloc, desk, (number, Sought::Heads), by, (9, heads));
    let (entries, words) = counts(rt, alloc, desk, number, strategy, query);
    holds(rt, entries == row_count(found), query);
    holds(rt, words == row_count(heads), query);
}

static ROWS: [Row; 26] = [
    Row(
        1,
        Strategy::Exact,
        "OPAL",
        "opal=opal\n  a stone\n;.",
        "opal=;.",
    ),
    Row(1, Strategy::Exact, "dot", "dot=.dot\n;.", "dot=;."),
    Row(1, Strategy::Exact, "opa", ".", "."),
    Row(
        1,
        Strategy::Suffix,
        "opal",
        "opal=opal\n  a stone\n;Fire Opal=opal\n  a stone\n;.",
        "opal=;Fire Opal=;.",
    ),
    Row(
        1,
        Strategy::Prefix,
        "fire",
        "Fire Opal=opal\n  a stone\n;.",
        "Fire Opal=;.",
    ),
    Row(
        1,
        Strategy::First,
        "opal",
        "opal=opal\n  a stone\n;.",
        "opal=;.",
    ),
    Row(
        1,
        Strategy::Last,
        "opal",
        "opal=opal\n  a stone\n;Fire Opal=opal\n  a stone\n;.",
        "opal=;Fire Opal=;.",
    ),
    Row(
        1,
        Strategy::Word,
        "fire",
        "Fire Opal=opal\n  a stone\n;.",
        "Fire Opal=;.",
    ),
    Row(
        1,
        Strategy::Substring,
        "e o",
        "Fire Opal=opal\n  a stone\n;.",
        "Fire Opal=;.",
    ),
    Row(1, Strategy::Prefix, "", ".", "."),
    Row(1, Strategy::Substring, "00", ".", "."),
    Row(
        2,
        Strategy::Substring,
        "o",
        "iron=iron\n  ore\n;.",
        "iron=;.",
    ),
    Row(2, Strategy::Word, "opal", ".", "."),
    Row(
        3,
        Strategy::Prefix,
        "a",
        "a=x\n;a\u{10ffff}=x\n;.",
        "a=;a\u{10ffff}=;.",
    ),
    Row(3, Strategy::Suffix, "\u{10ffff}", ".", "."),
    Row(4, Strategy::Substring, "a", ".", "."),
    Row(
        5,
        Strategy::Exact,
        "pearl",
        "pearl=x\n;pearl=y\n;.",
        "pearl=;.",
    ),
    Row(
        5,
        Strategy::Prefix,
        "p",
        "pearl=x\n;pearl=y\n;.",
        "pearl=;.",
    ),
    Row(
        5,
        Strategy::Suffix,
        "l",
        "pearl=x\n;opal=x\n;pearl=y\n;.",
        "pearl=;opal=;.",
    ),
    Row(
        5,
        Strategy::Substring,
        "a",
        "pearl=x\n;opal=x\n;pearl=y\n;agate=x\n;.",
        "pearl=;opal=;agate=;.",
    ),
    Row(5, Strategy::Word, "opal", "opal=x\n;.", "opal=;."),
    Row(5, Strategy::First, "agate", "agate=x\n;.", "agate=;."),
    Row(
        5,
        Strategy::Last,
        "pearl",
        "pearl=x\n;pearl=y\n;.",
        "pearl=;.",
    ),
    Row(6, Strategy::Exact, "opal", ".", "."),
    Row(0, Strategy::Exact, "opal", ".", "."),
    Row(u64::MAX, Strategy::Exact, "opal", ".", "."),
];

/// An edition's number and what is sought in it, by a letter; at most how many rows are taken, and these.
type Stop = (u64, Sought, usize, &'static str);

// What editions say of themselves.
static INFOS: [Stop; 3] = [
    (4, Sought::Info, 9, "=.a\n\nb\n;."),
    (1, Sought::Info, 9, "=;."),
    (1, Sought::Info, 1, "=;!"),
];

fn check_stops(rt: &impl Abort, alloc: Global, desk: &mut PlainDesk, stops: &[Stop]) {
    for (number, sought, most, wanted) in stops {
        let by = (Strategy::Substring, "a");
        check_out(rt, alloc, desk, (*number, *sought), by, (*most, wanted));
    }
}

static FIVE: [Files; 5] = [GEM, ORE, EDGE, TELL, STONES];

fn install_five(rt: &impl Abort, alloc: Global, desk: &mut PlainDesk) {
    for files in &FIVE {
        install_files(rt, alloc, desk, files.0, files.0, *files);
    }
}

fn run(rt: &impl Abort, alloc: Global, desk: &mut PlainDesk) {
    install_five(rt, alloc, desk);
    for row in &ROWS {
        check(rt, alloc, desk, *row);
    }
    check_stops(rt, alloc, desk, &INFOS);
}

#[test]
fn all_strategies(rt: HostRuntime) {
    let mut desk = PlainDesk::new(rt.alloc());
    run(&rt, rt.alloc(), &mut desk);
}

// What is sought in `stones`.
static STOPS: [Stop; 9] = [
    (1, Sought::Found, 1, "pearl=x\n;!"),
    (1, Sought::Found, 2, "pearl=x\n;opal=x\n;!"),
    (1, Sought::Found, 3, "pearl=x\n;opal=x\n;pearl=y\n;!"),
    (
        1,
        Sought::Found,
        4,
        "pearl=x\n;opal=x\n;pearl=y\n;agate=x\n;!",
    ),
    (
        1,
        Sought::Found,
        5,
        "pearl=x\n;opal=x\n;pearl=y\n;agate=x\n;.",
    ),
    (1, Sought::Heads, 1, "pearl=;!"),
    (1, Sought::Heads, 2, "pearl=;opal=;!"),
    (1, Sought::Heads, 3, "pearl=;opal=;agate=;!"),
    (1, Sought::Heads, 4, "pearl=;opal=;agate=;."),
];

#[test]
fn a_sink_stops_at_each_row(rt: HostRuntime) {
    let mut desk = PlainDesk::new(rt.alloc());
    install_files(&rt, rt.alloc(), &mut desk, "a", "stones", STONES);
    check_stops(&rt, rt.alloc(), &mut desk, &STOPS);
}

// How many entries end by the word opal in the first edition, and none in the second.
fn check_opals(rt: &impl Abort, alloc: Global, desk: &mut PlainDesk, opals: u64) {
    let (first, _) = counts(rt, alloc, desk, 1, Strategy::Last, "opal");
    same(rt, &first, &opals);
    let (second, _) = counts(rt, alloc, desk, 2, Strategy::Last, "opal");
    same(rt, &second, &0);
}

fn come_and_go(rt: &impl Abort, alloc: Global, desk: &mut PlainDesk) {
    install_files(rt, alloc, desk, "a", "gem", GEM);
    check_opals(rt, alloc, desk, 2);
    install_files(rt, alloc, desk, "b", "gem", ORE);
    check_opals(rt, alloc, desk, 2);
    install_files(rt, alloc, desk, "c", "gem", ORE);
    check_opals(rt, alloc, desk, 0);
}

#[test]
fn editions_come_and_go(rt: HostRuntime) {
    let mut desk = PlainDesk::new(rt.alloc());
    come_and_go(&rt, rt.alloc(), &mut desk);
}

// An index of 1,000 entries: `word 0` to `word 249`, four times over.
fn thousand(rt: &impl Abort, alloc: Global) -> String {
    let mut index = String::from_str(alloc, "00-database-short\tA\tb\n").expect(rt, "memory");
    for n in 0..1000u64 {
        let word = n % 250;
        let line = format!(in alloc; "word {word}\tb\tC\n").expect(rt, "memory");
        index.push_str(line.as_str()).expect(rt, "memory");
    }
    index
}

fn install_thousand(rt: &impl Abort, alloc: Global, desk: &mut PlainDesk) {
    let index = thousand(rt, alloc);
    let edition = read_edition(alloc, index.as_bytes(), STONES.2).expect(rt, "an edition");
    install(rt, desk, "a", "stones", &edition);
}

/// A strategy, a query, how many entries it finds, and how many headwords.
#[derive(Clone, Copy)]
struct Many(Strategy, &'static str, u64, u64);

static THOUSAND: [Many; 11] = [
    Many(Strategy::Prefix, "word", 1000, 250),
    Many(Strategy::Exact, "Word 7", 4, 1),
    Many(Strategy::Exact, "7", 0, 0),
    Many(Strategy::Prefix, "word 24", 44, 11),
    Many(Strategy::Suffix, "7", 100, 25),
    Many(Strategy::Substring, "d 24", 44, 11),
    Many(Strategy::Word, "7", 4, 1),
    Many(Strategy::First, "word", 1000, 250),
    Many(Strategy::First, "word 249", 4, 1),
    Many(Strategy::Last, "249", 4, 1),
    Many(Strategy::Last, "250", 0, 0),
];

fn check_many(rt: &impl Abort, alloc: Global, desk: &mut PlainDesk, row: Many) {
    let Many(strategy, query, entries, heads) = row;
    let (found, words) = counts(rt, alloc, desk, 1, strategy, query);
    holds(rt, found == entries, query);
    holds(rt, words == heads, query);
    let rows = hand_out(rt, alloc, desk, 1, Sought::Found, strategy, query, 2000);
    holds(rt, row_count(rows.as_str()) == entries, query);
    let rows = hand_out(rt, alloc, desk, 1, Sought::Heads, strategy, query, 2000);
    holds(rt, row_count(rows.as_str()) == heads, query);
}

fn run_thousand(rt: &impl Abort, alloc: Global, desk: &mut PlainDesk) {
    install_thousand(rt, alloc, desk);
    for row in &THOUSAND {
        check_many(rt, alloc, desk, *row);
    }
}

#[test]
fn a_thousand_entries(rt: HostRuntime) {
    let mut desk = PlainDesk::new(rt.alloc());
    run_thousand(&rt, rt.alloc(), &mut desk);
}
