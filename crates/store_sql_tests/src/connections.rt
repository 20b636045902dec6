//! The runs, each over memory. What is run stands in functions over any store; over two files the tests of the store run the statements.

use crate::{headers, inside, keyed, old, older, parts, plain};
use sqlite::{Alter, Connection};
use std::alloc::Global;
use std::process::Abort;

/// What is done over a connection.
#[derive(Clone, Copy)]
enum Run {
    Fill,
    DropAndLook,
    Inside,
    Older,
    Keyed,
    Old,
    Headers,
    Parts,
}

fn run_one<S: Alter>(rt: &impl Abort, alloc: Global, conn: &mut Connection<S>, run: Run) {
    match run {
        Run::Fill => plain::fill(rt, alloc, conn),
        Run::DropAndLook => plain::drop_and_look(rt, conn),
        Run::Inside => inside::run(rt, alloc, conn),
        Run::Older => older::run(rt, alloc, conn),
        Run::Keyed => keyed::run(rt, alloc, conn),
        Run::Old => old::run(rt, alloc, conn),
        Run::Headers => headers::run(rt, alloc, conn),
        Run::Parts => parts::run(rt, alloc, conn),
    }
}

// One after another.
fn run_all<S: Alter>(rt: &impl Abort, alloc: Global, conn: &mut Connection<S>, runs: &[Run]) {
    for one in runs {
        run_one(rt, alloc, conn, *one);
    }
}

fn over_memory(rt: &impl Abort, alloc: Global, runs: &[Run]) {
    let mut conn = Connection::open_in_memory(alloc).expect(rt, "a connection");
    run_all(rt, alloc, &mut conn, runs);
    drop(conn);
}

// What is run in turn over one connection, each over one of its own.
static IN_MEMORY: [&[Run]; 7] = [
    &[Run::Fill, Run::DropAndLook],
    &[Run::Inside],
    &[Run::Older],
    &[Run::Keyed],
    &[Run::Old],
    &[Run::Headers],
    &[Run::Parts],
];

#[test]
fn statements_in_memory(rt: HostRuntime) {
    for runs in &IN_MEMORY {
        over_memory(&rt, rt.alloc(), *runs);
    }
}
