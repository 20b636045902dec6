//! Each lookup looks at the entries that its strategy selects of an edition, whatever was asked before, also by a count of the same question; and at no others.

use crate::looking::{Case, Question, look};
use crate::steps::{Step, over_memory};
use crate::taken::Counted;
use dict_desk::Keeper;
use dict_match::Strategy;
use std::alloc::Global;
use std::process::Abort;
use store_fixtures::{Asked, Editions, Source, accept_all};

static BEFORE: [(&str, Asked); 2] = [
    ("a", Asked::Install("gem", Source::More)),
    ("b", Asked::Install("ore", Source::Alike)),
];

// The number of an edition and a question; what is answered, and how many entries are looked at for it. The first that hands out entries of an edition
// reads its text, which is kept from then on.
static CASES: [Case; 23] = [
    // What is handed out is looked at, and so again.
    Case(
        1,
        Question::Heads(9),
        Strategy::Suffix,
        "opal",
        "opal=/Opal, fire=/ All",
        3,
    ),
    Case(
        1,
        Question::Heads(9),
        Strategy::Suffix,
        "opal",
        "opal=/Opal, fire=/ All",
        3,
    ),
    // Behind a count too, and where a sink stops.
    Case(1, Question::Headwords, Strategy::Suffix, "opal", "2", 3),
    Case(
        1,
        Question::Heads(9),
        Strategy::Suffix,
        "opal",
        "opal=/Opal, fire=/ All",
        3,
    ),
    Case(
        1,
        Question::Heads(2),
        Strategy::Suffix,
        "opal",
        "opal=/Opal, fire=/ Stopped",
        3,
    ),
    Case(
        1,
        Question::Heads(1),
        Strategy::Suffix,
        "opal",
        "opal=/ Stopped",
        3,
    ),
    Case(1, Question::Headwords, Strategy::Suffix, "opal", "2", 3),
    // Another edition has its own.
    Case(
        2,
        Question::Heads(9),
        Strategy::Suffix,
        "opal",
        "Opal=/ All",
        2,
    ),
    Case(2, Question::Headwords, Strategy::Suffix, "opal", "1", 2),
    Case(1, Question::Entries, Strategy::Suffix, "opal", "3", 3),
    Case(2, Question::Entries, Strategy::Suffix, "opal", "2", 2),
    // The text is read once.
    Case(
        2,
        Question::Found(usize::MAX),
        Strategy::Suffix,
        "opal",
        "Opal=opal\n  a stone\n/Opal=opal\n  a stone\n/ All",
        3,
    ),
    Case(
        2,
        Question::Found(usize::MAX),
        Strategy::Suffix,
        "opal",
        "Opal=opal\n  a stone\n/Opal=opal\n  a stone\n/ All",
        2,
    ),
    Case(2, Question::Entries, Strategy::Suffix, "opal", "2", 2),
    // Another query or strategy selects others.
    Case(
        1,
        Question::Heads(9),
        Strategy::Prefix,
        "opal",
        "opal=/opal fire=/ All",
        3,
    ),
    Case(
        1,
        Question::Heads(9),
        Strategy::Suffix,
        "fire",
        "opal fire=/ All",
        1,
    ),
    Case(1, Question::Headwords, Strategy::Prefix, "opal", "2", 3),
    // One that finds nothing, and one of no edition.
    Case(2, Question::Headwords, Strategy::Exact, "iron", "0", 0),
    Case(2, Question::Heads(9), Strategy::Exact, "iron", " All", 0),
    Case(3, Question::Headwords, Strategy::Exact, "dot", "0", 0),
    Case(3, Question::Heads(9), Strategy::Exact, "dot", " All", 0),
    Case(
        3,
        Question::Found(usize::MAX),
        Strategy::Exact,
        "dot",
        " All",
        0,
    ),
    Case(2, Question::Headwords, Strategy::Exact, "dot", "1", 1),
];

static BETWEEN: [(&str, Asked); 1] = [("c", Asked::Install("ore", Source::Gems))];

// The edition that came has its own, and the one that it follows has what it had.
static BEHIND: [Case; 4] = [
    Case(
        3,
        Question::Heads(9),
        Strategy::Exact,
        "dot",
        "dot=/ All",
        1,
    ),
    Case(3, Question::Headwords, Strategy::Exact, "dot", "1", 1),
    Case(
        2,
        Question::Heads(9),
        Strategy::Exact,
        "dot",
        "dot=/ All",
        1,
    ),
    Case(2, Question::Headwords, Strategy::Exact, "dot", "1", 1),
];

static GONE: [(&str, Asked); 1] = [("d", Asked::Install("ore", Source::Ores))];

// Of an edition that is gone nothing is told.
static AFTER: [Case; 4] = [
    Case(2, Question::Heads(9), Strategy::Exact, "dot", " All", 0),
    Case(2, Question::Entries, Strategy::Exact, "dot", "0", 0),
    Case(
        4,
        Question::Heads(9),
        Strategy::Exact,
        "iron",
        "iron=/ All",
        1,
    ),
    Case(3, Question::Entries, Strategy::Exact, "dot", "1", 1),
];

/// Commands, and between them what is asked.
pub(crate) fn look_around<K: Keeper + Counted>(
    rt: &impl Abort,
    alloc: Global,
    desk: &mut K,
    editions: &Editions,
) {
    accept_all(desk, editions, &BEFORE).expect(rt, "commands");
    look(rt, alloc, desk, &CASES);
    accept_all(desk, editions, &BETWEEN).expect(rt, "commands");
    look(rt, alloc, desk, &BEHIND);
    accept_all(desk, editions, &GONE).expect(rt, "commands");
    look(rt, alloc, desk, &AFTER);
}

// Over tables and over lists.
#[test]
fn each_lookup_looks_at_what_it_selects(rt: HostRuntime) {
    over_memory(&rt, rt.alloc(), &[Step::Select]);
}
