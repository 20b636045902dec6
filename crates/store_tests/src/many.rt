//! Lookups in an edition of 65,535 entries: no more entries are looked at, and rows read, than are due.

use crate::borders::install;
use crate::checks::holds;
use crate::taken::{Counted, found, taken_between};
use dict_desk::Keeper;
use dict_fixtures::GEM_TEXT;
use dict_match::Strategy;
use std::alloc::Global;
use std::process::Abort;

// Headwords from `w00001` on, all of one body.
fn index_of_many(rt: &impl Abort, alloc: Global) -> String {
    let mut index = String::new(alloc);
    index
        .push_str("00-database-short\tA\tZ\n")
        .expect(rt, "memory");
    for number in 1..65_536u32 {
        let line = format!(in alloc; "w{number:05}\tZ\tP\n").expect(rt, "memory");
        index.push_str(line.as_str()).expect(rt, "memory");
    }
    index
}

/// By a strategy, a text and a sink that takes so many rows: how many it is handed, and how many entries are looked at, and rows read, at most.
#[derive(Clone, Copy)]
struct Case(Strategy, &'static str, usize, usize, u64);

// The first reads the text of the edition, which is kept from then on. Behind a sink that stops at its first row, the next lookup is answered as before.
static CASES: [Case; 6] = [
    Case(Strategy::Exact, "w00777", 100, 1, 2),
    Case(Strategy::Prefix, "w0077", 100, 10, 10),
    Case(Strategy::Suffix, "5535", 100, 7, 7),
    Case(Strategy::Substring, "5553", 100, 16, 16),
    Case(Strategy::Prefix, "w", 1, 1, 1),
    Case(Strategy::Exact, "w00777", 100, 1, 1),
];

/// Installs the edition, as the first of its catalogue, and looks it up.
pub(crate) fn look<K: Keeper + Counted>(rt: &impl Abort, alloc: Global, desk: &mut K) {
    let index = index_of_many(rt, alloc);
    install(rt, alloc, desk, "many", index.as_str(), GEM_TEXT);
    for case in &CASES {
        let before = desk.taken();
        let rows = found(rt, alloc, desk, 1, case.0, case.1, case.2);
        let handed = case.2.saturating_sub(rows.left);
        let taken = taken_between(before, desk.taken()).unwrap_or(case.4);
        let is_so = handed == case.3 && handed as u64 <= taken && taken <= case.4;
        holds(rt, is_so, case.1);
    }
}
