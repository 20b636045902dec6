//! Desks over files in memory that are opened anew.
use crate::anew::{Anew, Seen, Work, opened_anew};
use crate::checks::holds;
use crate::files::Octets;
use crate::stops::made;
use std::alloc::Global;
use std::process::Abort;
use store_fixtures::{Asked, Editions, Source, read_editions};

// One command: gem is installed.
static GEM: [(&str, Asked); 1] = [("gem", Asked::Install("gem", Source::Gems))];

/// What comes of files that are opened again.
#[derive(Clone, Copy, PartialEq, Eq)]
enum Met {
    /// The failure came before there was a desk.
    NoDesk,
    /// The files were opened again, and the catalogue before the failure is shown.
    Reopened,
    /// They were not, since a sync had failed.
    Spent,
    /// No failure.
    Nothing,
    /// Anything else.
    Other,
}

// What a desk that was opened again is found to be.
fn met_by(seen: &Seen) -> Met {
    if seen.installs == 1 && !seen.is_closed {
        Met::Reopened
    } else {
        Met::Other
    }
}

// What comes of files of these octets where the log fails at this call: over a new catalogue after a stop; or over the one that is
// there, where it matters if its command failed.
fn met_at(
    rt: &impl Abort,
    alloc: Global,
    editions: &Editions,
    octets: &Octets,
    call: u64,
    work: Work,
) -> Met {
    let is_new = work == Work::Install;
    let (done, met) = match opened_anew(rt, alloc, octets, call, editions, work) {
        Anew::NoDesk => return Met::NoDesk,
        Anew::Opened(done, seen) => (done, met_by(&seen)),
        Anew::Spent(done) => (done, Met::Spent),
        Anew::Unopened(done) => (done, Met::Other),
    };
    if done.is_applied == is_new {
        met
    } else if is_new {
        Met::Other
    } else {
        Met::Nothing
    }
}

/// How often files were opened again, and how often a sync had failed.
#[derive(Clone, Copy)]
struct Count {
    reopened: u64,
    spent: u64,
}

// Fails at each call, until there is no failure.
fn fail_at_each(rt: &impl Abort, alloc: Global, editions: &Editions, octets: &Octets) -> Count {
    let mut count = Count {
        reopened: 0,
        spent: 0,
    };
    for call in 0..5_000u64 {
        match met_at(rt, alloc, editions, octets, call, Work::Retire) {
            Met::NoDesk => {}
            Met::Reopened => count.reopened = count.reopened.saturating_add(1),
            Met::Spent => count.spent = count.spent.saturating_add(1),
            Met::Nothing => return count,
            Met::Other => panic!(rt; "other files were opened"),
        }
    }
    count
}

fn is_reopened_when_new(rt: &impl Abort, alloc: Global, editions: &Editions) -> bool {
    let nothing = Octets {
        log: Vec::new(alloc),
        db: Vec::new(alloc),
    };
    met_at(rt, alloc, editions, &nothing, u64::MAX, Work::Install) == Met::Reopened
}

// Two new files after a stop, and those that have the database after a failure of each call of the log.
#[test]
fn files_are_opened_again(rt: HostRuntime) {
    let alloc = rt.alloc();
    let editions = read_editions(alloc).expect(&rt, "editions");
    let is_so = is_reopened_when_new(&rt, alloc, &editions);
    holds(&rt, is_so, "two new files");
    let octets = made(&rt, alloc, &editions, &GEM);
    let count = fail_at_each(&rt, alloc, &editions, &octets);
    holds(&rt, count.reopened > 0, "reopened");
    holds(&rt, count.spent > 0, "spent");
}
