//! An install that is prepared over two files: over disks that fail meanwhile, and over a stop.
use crate::anew::{Anew, Done, Work, opened_anew};
use crate::checks::{holds, same_text};
use crate::files::Octets;
use crate::stops::made;
use std::alloc::Global;
use std::process::Abort;
use store_fixtures::{Asked, Editions, Source, read_editions};

// The database has two editions, of which the first goes once a third is installed.
static BEGUN: [(&str, Asked); 2] = [
    ("a", Asked::Install("gem", Source::Gems)),
    ("b", Asked::Install("gem", Source::More)),
];

const BEFORE: &str = "gem Gems 2/1; ";

const AFTER: &str = "gem Gems 3/2; ";

// What was done, and what is listed behind the stop; nothing where there is no desk.
fn listed_behind(
    rt: &impl Abort,
    alloc: Global,
    editions: &Editions,
    octets: &Octets,
    call: u64,
    work: Work,
) -> Option<(Done, String)> {
    match opened_anew(rt, alloc, octets, call, editions, work) {
        Anew::Opened(done, seen) => Some((done, seen.items)),
        _ => None,
    }
}

// Over disks that don't fail all parts are prepared, and this is listed behind the stop.
fn is_listed(rt: &impl Abort, alloc: Global, work: Work, wanted: &str) {
    let editions = read_editions(alloc).expect(rt, "editions");
    let octets = made(rt, alloc, &editions, &BEGUN);
    let listed = listed_behind(rt, alloc, &editions, &octets, u64::MAX, work);
    let (done, text) = listed.expect(rt, "a desk");
    holds(rt, done.is_prepared, "an end");
    let is_install = work == Work::PrepareAndInstall;
    holds(rt, done.is_applied == is_install, "the command");
    same_text(rt, text.as_str(), wanted, "a stop");
}

#[test]
fn what_is_prepared_is_lost_by_a_stop(rt: HostRuntime) {
    is_listed(&rt, rt.alloc(), Work::Prepare, BEFORE);
}

#[test]
fn what_was_prepared_is_committed_with_its_command(rt: HostRuntime) {
    is_listed(&rt, rt.alloc(), Work::PrepareAndInstall, AFTER);
}

// At so many calls of the log it fails, each in a run of its own: those of the opening are the first of them.
const CALLS: u64 = 128;

// One run with a failure at this call: the catalogue is the one before the command, or where it was answered the one after it.
fn fails_at(rt: &impl Abort, alloc: Global, editions: &Editions, octets: &Octets, call: u64) {
    let work = Work::PrepareAndInstall;
    if let Some((done, text)) = listed_behind(rt, alloc, editions, octets, call, work) {
        let is_after = text.as_str() == AFTER;
        let is_before = text.as_str() == BEFORE && !done.is_applied;
        holds(rt, is_after || is_before, text.as_str());
    }
}

#[test]
fn disks_fail_while_an_install_is_prepared(rt: HostRuntime) {
    let alloc = rt.alloc();
    let editions = read_editions(alloc).expect(&rt, "editions");
    let octets = made(&rt, alloc, &editions, &BEGUN);
    for call in 1..CALLS {
        fails_at(&rt, alloc, &editions, &octets, call);
    }
}
