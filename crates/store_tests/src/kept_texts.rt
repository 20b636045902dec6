//! A part of an edition's text is read once, while the desk is open: by the first lookup that hands out an entry whose body lies in it.

use crate::checks::{holds, same_text};
use crate::steps::{Step, over_memory};
use crate::taken::{Counted, found, taken_between};
use dict_desk::{Keeper, Lookup};
use dict_match::Strategy;
use std::alloc::Global;
use std::process::Abort;
use store_fixtures::{Asked, Editions, Source, accept_all};

/// Commands, and behind them lookups: the number of an edition, a headword, what is handed out, and how many rows the statements
/// hand over for it: one of the part where it is read, and one for each entry that is looked at.
#[derive(Clone, Copy)]
struct Case(
    &'static [(&'static str, Asked)],
    &'static [(u64, &'static str, &'static str, u64)],
);

static CASES: [Case; 7] = [
    Case(
        &[
            ("a", Asked::Install("gem", Source::Gems)),
            ("b", Asked::Install("ore", Source::Ores)),
        ],
        &[
            (1, "opal", "opal=opal\n  a stone\n/", 2),
            (1, "opal", "opal=opal\n  a stone\n/", 1),
            (1, "dot", "dot=.dot\n/", 1),
            (2, "iron", "iron=iron\n  ore\n/", 2),
            (2, "iron", "iron=iron\n  ore\n/", 1),
        ],
    ),
    // A command of one database leaves the texts of the others.
    Case(
        &[("c", Asked::Install("ore", Source::Words))],
        &[
            (1, "opal", "opal=opal\n  a stone\n/", 1),
            (3, "été", "ÉTÉ=saison\n/", 2),
            (3, "été", "ÉTÉ=saison\n/", 1),
            (2, "iron", "iron=iron\n  ore\n/", 1),
        ],
    ),
    // The former edition keeps its text, and the new one has its own.
    Case(
        &[("d", Asked::Install("gem", Source::More))],
        &[
            (1, "opal", "opal=opal\n  a stone\n/", 1),
            (4, "opal", "opal=0!/opal=6!/", 3),
            (4, "opal", "opal=0!/opal=6!/", 2),
        ],
    ),
    Case(
        &[("e", Asked::Rollback("gem"))],
        &[
            (4, "opal", "opal=0!/opal=6!/", 2),
            (1, "opal", "opal=opal\n  a stone\n/", 1),
        ],
    ),
    // The edition that is gone is told of no more: the first of `ore`.
    Case(
        &[("f", Asked::Install("ore", Source::Ores))],
        &[
            (2, "iron", "", 0),
            (5, "iron", "iron=iron\n  ore\n/", 2),
            (3, "été", "ÉTÉ=saison\n/", 1),
        ],
    ),
    Case(
        &[("g", Asked::Retire("gem"))],
        &[(1, "opal", "", 0), (4, "opal", "", 0)],
    ),
    // A name that is given again gets a number that wasn't.
    Case(
        &[("h", Asked::Install("gem", Source::Alike))],
        &[
            (6, "dot", "dot=.dot\n/", 2),
            (1, "opal", "", 0),
            (3, "été", "ÉTÉ=saison\n/", 1),
        ],
    ),
];

fn look<L: Lookup + Counted>(
    rt: &impl Abort,
    alloc: Global,
    desk: &mut L,
    asked: &[(u64, &str, &str, u64)],
) {
    for (number, headword, wanted, rows) in asked {
        let before = desk.taken();
        let answer = found(
            rt,
            alloc,
            desk,
            *number,
            Strategy::Exact,
            *headword,
            usize::MAX,
        );
        same_text(rt, answer.text.as_str(), *wanted, *headword);
        let taken = taken_between(before, desk.taken());
        holds(rt, taken.unwrap_or(*rows) == *rows, *headword);
    }
}

/// Commands, and lookups behind each.
pub(crate) fn look_between<K: Keeper + Counted>(
    rt: &impl Abort,
    alloc: Global,
    desk: &mut K,
    editions: &Editions,
) {
    for case in &CASES {
        accept_all(desk, editions, case.0).expect(rt, "commands");
        look(rt, alloc, desk, case.1);
    }
}

// What the last two editions answer to a desk that is opened again: it begins with no texts.
static ANEW: [(u64, &str, &str, u64); 3] = [
    (6, "dot", "dot=.dot\n/", 2),
    (6, "dot", "dot=.dot\n/", 1),
    (5, "iron", "iron=iron\n  ore\n/", 2),
];

/// Lookups of a desk that has no texts yet.
pub(crate) fn look_anew<L: Lookup + Counted>(rt: &impl Abort, alloc: Global, desk: &mut L) {
    look(rt, alloc, desk, &ANEW);
}

#[test]
fn texts_are_read_once(rt: HostRuntime) {
    over_memory(&rt, rt.alloc(), &[Step::Texts, Step::TextsAnew]);
}
