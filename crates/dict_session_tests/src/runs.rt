//! What is done over a new catalogue in memory, which one function owns.
use crate::faults::{fill_writers, tear};
use crate::files::{EDGE, ETE, Files, GEM, ORE, STONES, fill};
use crate::folding;
use crate::limits::{DONE, EDGE_ROWS, UNKNOWN, retire_all, send_client};
use crate::sessions::{
    ALL_ROWS, BOTH_ROWS, EMPTY_ROWS, Row, STONES_ROWS, answer_rows, break_off, greet,
};
use dict_desk::{Keeper, Lookup, PlainDesk};
use std::alloc::Global;
use std::process::Abort;

/// What is done.
#[derive(Clone, Copy)]
enum Run {
    /// What clients send is answered so.
    Rows(&'static [Row]),
    BreakOff,
    Greet,
    Retire,
    Tear,
    FillWriters,
    /// A line of CLIENT with so many letters comes to this.
    Client(usize, &'static str),
}

/// The databases in their order, whether `all` is behind them, and what is done.
#[derive(Clone, Copy)]
struct Case<'a>(&'a [Files], bool, Run);

static CASES: [Case<'static>; 9] = [
    Case(&[ORE, GEM], true, Run::Retire),
    Case(&[STONES], false, Run::BreakOff),
    Case(&[], false, Run::Greet),
    Case(&[], false, Run::Tear),
    Case(&[], false, Run::FillWriters),
    Case(&[], false, Run::Client(1015, DONE)),
    Case(&[], false, Run::Client(1016, UNKNOWN)),
    Case(&[], false, Run::Client(6135, UNKNOWN)),
    Case(&[], false, Run::Client(6136, UNKNOWN)),
];

// What changes nothing.
fn run_plain<D: Lookup>(rt: &impl Abort, alloc: Global, desk: &mut D, run: Run) {
    match run {
        Run::Rows(rows) => answer_rows(rt, alloc, desk, rows),
        Run::BreakOff => break_off(rt, alloc, desk),
        Run::Greet => greet(rt, alloc, desk),
        Run::Retire => {}
        Run::Tear => tear(rt, alloc, desk),
        Run::FillWriters => fill_writers(rt, alloc, desk),
        Run::Client(letters, wanted) => send_client(rt, alloc, desk, letters, wanted),
    }
}

fn run_one<K: Keeper>(rt: &impl Abort, alloc: Global, desk: &mut K, run: Run) {
    match run {
        Run::Retire => retire_all(rt, alloc, desk),
        _ => run_plain(rt, alloc, desk, run),
    }
}

fn fill_and_run<K: Keeper>(rt: &impl Abort, alloc: Global, desk: &mut K, case: &Case) {
    fill(rt, alloc, desk, case.0, case.1);
    run_one(rt, alloc, desk, case.2);
}

fn run_anew(rt: &impl Abort, alloc: Global, case: &Case) {
    let mut desk = PlainDesk::new(alloc);
    fill_and_run(rt, alloc, &mut desk, case);
    drop(desk);
}

#[test]
fn sessions_over_catalogues(rt: HostRuntime) {
    for (databases, has_all, rows) in [
        ([STONES].as_slice(), false, STONES_ROWS.as_slice()),
        ([ORE, GEM].as_slice(), true, ALL_ROWS.as_slice()),
        ([].as_slice(), false, EMPTY_ROWS.as_slice()),
        ([STONES, GEM].as_slice(), false, BOTH_ROWS.as_slice()),
        ([ETE].as_slice(), false, folding::ROWS.as_slice()),
        ([EDGE].as_slice(), false, EDGE_ROWS.as_slice()),
    ] {
        let case = Case(databases, has_all, Run::Rows(rows));
        run_anew(&rt, rt.alloc(), &case);
    }
    for case in &CASES {
        run_anew(&rt, rt.alloc(), case);
    }
}
