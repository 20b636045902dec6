//! Commands over disks that stop or fail: reopened, each command is there whole or not at all, and none is lost.
//!
//! A run begins with the opening of two files that hold a catalogue. One of them fails at one of its calls, or from it on.

use crate::checks::{holds, same_text};
use crate::files::{Octets, closed, crashed, desk_over, opened};
use dict_catalogue::{Command, CommandRefusal, Kept};
use dict_desk::{Fault, Keeper, Lookup, PlainDesk, What};
use dict_match::{Strategy, key_of};
use sqlite::{Alter, Connection, Files};
use sqlite_disk::Crash;
use std::alloc::Global;
use std::process::Abort;
use store_desk::{Desk, apply_to_file};
use store_fixtures::{
    Asked, Editions, Failing, Older, Rows, Source, accept_all, batched, failing_disk, older_files,
    read_editions, requests, shown, told, told_outcome,
};

pub(crate) type Steps = &'static [(&'static str, Asked)];

/// What is done before, and what is done over a disk that fails.
#[derive(Clone, Copy)]
struct Case(Steps, Steps);

static CASES: [Case; 7] = [
    // An edition is installed over another.
    Case(
        &[("a", Asked::Install("gem", Source::Gems))],
        &[("b", Asked::Install("gem", Source::Ores))],
    ),
    // An older edition goes.
    Case(
        &[
            ("a", Asked::Install("gem", Source::Alike)),
            ("b", Asked::Install("gem", Source::Ores)),
        ],
        &[("c", Asked::Install("gem", Source::Gems))],
    ),
    Case(
        &[
            ("a", Asked::Install("gem", Source::Gems)),
            ("b", Asked::Install("gem", Source::Ores)),
        ],
        &[("c", Asked::Rollback("gem"))],
    ),
    Case(
        &[
            ("a", Asked::Install("gem", Source::Gems)),
            ("b", Asked::Install("gem", Source::Ores)),
        ],
        &[("c", Asked::Retire("gem"))],
    ),
    Case(
        &[
            ("a", Asked::Install("ore", Source::Ores)),
            ("b", Asked::Install("gem", Source::Gems)),
        ],
        &[("c", Asked::Put("all", "All", &["ore", "gem"]))],
    ),
    Case(
        &[
            ("a", Asked::Install("ore", Source::Ores)),
            ("b", Asked::Install("gem", Source::Gems)),
            ("c", Asked::Put("all", "All", &["ore", "gem"])),
        ],
        &[("d", Asked::Place("all", 0))],
    ),
    // One is refused, and one comes again.
    Case(
        &[],
        &[
            ("a", Asked::Install("gem", Source::Gems)),
            ("b", Asked::Rollback("gem")),
            ("a", Asked::Retire("gem")),
            ("b", Asked::Retire("gem")),
        ],
    ),
];

// How a file of an older schema came about. Over it a reply that was kept is asked for again, and the list is retired.
const MIGRATED: Case = Case(
    &[
        ("r1", Asked::Install("ore", Source::Ores)),
        ("r2", Asked::Install("gem", Source::Gems)),
        ("r3", Asked::Put("all", "All", &["ore", "gem"])),
    ],
    &[("r1", Asked::Retire("gem")), ("r4", Asked::Retire("all"))],
);

/// Two files, the commands that are done over them, their answers, and what is shown before them and after each.
#[derive(Clone, Copy)]
struct Sweep<'a> {
    is_new: bool,
    log: &'a [u8],
    db: &'a [u8],
    requests: &'a [(&'a str, Command<'a>)],
    answers: &'a [String],
    states: &'a [String],
}

/// Which of the two files fails, and whether it goes on after it.
#[derive(Clone, Copy)]
struct Mode {
    in_log: bool,
    goes_on: bool,
}

/// What is done over two files.
#[derive(Clone, Copy)]
enum Work<'a> {
    // Commands make a new catalogue.
    Make(&'a Editions, Steps),
    // Statements write a file of an older schema.
    Write(&'a Older),
    // Commands are done over a desk that is opened first.
    Run(&'a Sweep<'a>),
    // After a run that ended so, and a crash of the machine, the catalogue stands as it has to, and is sound.
    Look(&'a Sweep<'a>, Ended),
}

/// How a run ended: whether there was a desk, how many commands were answered, and the failure.
#[derive(Clone, Copy)]
struct Ended {
    is_open: bool,
    stand: usize,
    fault: Option<Fault>,
}

// Whether the outcomes are those.
fn are_answered(
    rt: &impl Abort,
    alloc: Global,
    outcomes: &[Result<Kept, CommandRefusal>],
    wanted: &[String],
) -> bool {
    for (outcome, wanted) in outcomes.iter().zip(wanted.iter()) {
        let text = told_outcome(alloc, outcome).expect(rt, "memory");
        if text.as_str() != wanted.as_str() {
            return false;
        }
    }
    outcomes.len() == wanted.len()
}

// Each call of a closed desk answers so.
fn answers_nothing<K: Keeper>(rt: &impl Abort, alloc: Global, desk: &mut K) -> bool {
    let query = key_of(alloc, "o").expect(rt, "a key");
    let mut rows = Rows::new(alloc, 9);
    let retire = Command::Retire { name: "gem" };
    desk.find(1, Strategy::Suffix, &query, What::Entries, &mut rows) == Err(Fault::Closed)
        && desk.find(1, Strategy::Suffix, &query, What::Headwords, &mut rows) == Err(Fault::Closed)
        && desk.count(1, Strategy::Suffix, &query, What::Entries) == Err(Fault::Closed)
        && desk.info(1, &mut rows) == Err(Fault::Closed)
        && matches!(desk.summary(), Err(Fault::Closed))
        && matches!(desk.kept("a"), Err(Fault::Closed))
        && matches!(desk.apply("z", &retire), Err(Fault::Closed))
}

// Does the commands.
fn done<S: Alter + Drop>(
    rt: &impl Abort,
    alloc: Global,
    desk: &mut Desk<S>,
    sweep: &Sweep<'_>,
) -> Ended {
    match apply_to_file(alloc, desk, sweep.requests) {
        Ok(outcomes) => {
            let is_so = are_answered(rt, alloc, &outcomes, sweep.answers);
            holds(rt, is_so, "the answers");
            Ended {
                is_open: true,
                stand: outcomes.len(),
                fault: None,
            }
        }
        Err(halted) => {
            holds(
                rt,
                desk.is_closed() && desk.audit() == Err(Fault::Closed),
                "a closed desk",
            );
            Ended {
                is_open: true,
                stand: halted.stand,
                fault: Some(halted.fault),
            }
        }
    }
}

fn is_shown(states: &[String], at: usize, text: &str) -> bool {
    match states.get(at) {
        Some(state) => state.as_str() == text,
        None => false,
    }
}

// What is shown is what was answered, and after a failed command perhaps what it does. The commands that were not answered,
// and at least the last, are answered then as if they were done for the first time.
fn stands<K: Keeper>(
    rt: &impl Abort,
    alloc: Global,
    desk: &mut K,
    sweep: &Sweep<'_>,
    ended: Ended,
) {
    let now = shown(alloc, desk).expect(rt, "a catalogue");
    let next = ended.stand.saturating_add(1);
    let may_be_next = ended.is_open && ended.fault.is_some();
    let is_this = is_shown(sweep.states, ended.stand, now.as_str());
    let is_next = may_be_next && is_shown(sweep.states, next, now.as_str());
    holds(rt, is_this || is_next, now.as_str());
    let first = ended.stand.min(sweep.requests.len().saturating_sub(1));
    for (request, wanted) in sweep.requests.iter().zip(sweep.answers.iter()).skip(first) {
        let answer = told(alloc, &desk.apply(request.0, &request.1)).expect(rt, "memory");
        same_text(rt, answer.as_str(), wanted.as_str(), request.0);
    }
    let last = shown(alloc, desk).expect(rt, "a catalogue");
    let is_last = is_shown(sweep.states, sweep.requests.len(), last.as_str());
    holds(rt, is_last, last.as_str());
}

// The desk of a database that is found, or of one that is made where none may be there.
fn found_again<S: Alter + Drop>(
    alloc: Global,
    conn: Connection<S>,
    may_be_unmade: bool,
) -> Result<Desk<S>, (Connection<S>, Fault)> {
    match desk_over(alloc, conn, false) {
        Ok(desk) => Ok(desk),
        Err((conn, fault)) => {
            if may_be_unmade && fault == Fault::NotACatalogue {
                desk_over(alloc, conn, true)
            } else {
                Err((conn, fault))
            }
        }
    }
}

// The desk over which the work is done.
fn desk_for<S: Alter + Drop>(
    alloc: Global,
    conn: Connection<S>,
    work: &Work<'_>,
) -> Result<Desk<S>, (Connection<S>, Fault)> {
    match work {
        Work::Make(_, _) | Work::Write(_) => desk_over(alloc, conn, true),
        Work::Run(sweep) => desk_over(alloc, conn, sweep.is_new),
        Work::Look(sweep, ended) => found_again(alloc, conn, sweep.is_new && !ended.is_open),
    }
}

// What is done over any desk; after a run, what its desk answers that is closed.
fn kept_by<K: Keeper>(rt: &impl Abort, alloc: Global, desk: &mut K, work: &Work<'_>, ended: Ended) {
    match work {
        Work::Make(editions, asked) => {
            accept_all(desk, editions, asked).expect(rt, "accepted commands");
        }
        Work::Look(sweep, before) => stands(rt, alloc, desk, sweep, *before),
        Work::Run(_) if ended.fault.is_some() => {
            let is_so = answers_nothing(rt, alloc, desk);
            holds(rt, is_so, "each call of a closed desk");
        }
        _ => {}
    }
}

// Does it.
fn work_on<S: Alter + Drop>(
    rt: &impl Abort,
    alloc: Global,
    desk: &mut Desk<S>,
    work: &Work<'_>,
) -> Ended {
    let ended = match work {
        Work::Run(sweep) => done(rt, alloc, desk, sweep),
        _ => Ended {
            is_open: true,
            stand: 0,
            fault: None,
        },
    };
    kept_by(rt, alloc, desk, work, ended);
    if matches!(work, Work::Look(_, _)) {
        holds(rt, desk.audit().is_ok(), "a sound desk");
    }
    ended
}

// How the work ended, where there is no desk for it.
fn without_a_desk(rt: &impl Abort, work: &Work<'_>, fault: Fault) -> Ended {
    holds(rt, matches!(work, Work::Run(_)), "a catalogue");
    Ended {
        is_open: false,
        stand: 0,
        fault: Some(fault),
    }
}

// Writes a file.
fn written<S: Alter>(rt: &impl Abort, conn: &mut Connection<S>, texts: &Older) -> Ended {
    batched(conn, texts.as_slice()).expect(rt, "an older file");
    Ended {
        is_open: false,
        stand: 0,
        fault: None,
    }
}

fn work_over<S: Alter + Drop>(
    rt: &impl Abort,
    alloc: Global,
    conn: Connection<S>,
    work: &Work<'_>,
) -> (Connection<S>, Ended) {
    if let Work::Write(texts) = work {
        let mut conn = conn;
        let ended = written(rt, &mut conn, *texts);
        return (conn, ended);
    }
    match desk_for(alloc, conn, work) {
        Ok(desk) => {
            let mut desk = desk;
            let ended = work_on(rt, alloc, &mut desk, work);
            (desk.into_connection(), ended)
        }
        Err((conn, fault)) => (conn, without_a_desk(rt, work, fault)),
    }
}

// Opens two files, does the work, and leaves them.
fn over_files<D: Crash + Drop>(
    rt: &impl Abort,
    alloc: Global,
    files: Files<D>,
    work: &Work<'_>,
) -> (Files<D>, Ended) {
    let files = match work {
        Work::Look(_, _) => crashed(files),
        _ => files,
    };
    match opened(alloc, files) {
        Ok(conn) => {
            let (conn, ended) = work_over(rt, alloc, conn, work);
            let is_whole = matches!(work, Work::Make(_, _) | Work::Write(_));
            (closed(conn, is_whole), ended)
        }
        Err(files) => (files, without_a_desk(rt, work, Fault::Disk)),
    }
}

// The same over files of which one may fail.
fn over_failing(
    rt: &impl Abort,
    alloc: Global,
    files: Files<Failing>,
    work: &Work<'_>,
) -> (Files<Failing>, Ended) {
    over_files(rt, alloc, files, work)
}

// What two files of these octets have after this work.
fn made_by(rt: &impl Abort, alloc: Global, log: &[u8], db: &[u8], work: &Work<'_>) -> Octets {
    let files = Files {
        log: failing_disk(alloc, log, u64::MAX, true).expect(rt, "a log"),
        db: failing_disk(alloc, db, u64::MAX, true).expect(rt, "a file"),
    };
    let (files, _) = over_failing(rt, alloc, files, work);
    let log = files.log.inner.inner().bytes().to_vec(alloc);
    let db = files.db.inner.inner().bytes().to_vec(alloc);
    drop(files);
    Octets {
        log: log.expect(rt, "memory"),
        db: db.expect(rt, "memory"),
    }
}

/// What two files have after these commands over a new catalogue.
pub(crate) fn made(rt: &impl Abort, alloc: Global, editions: &Editions, asked: Steps) -> Octets {
    made_by(rt, alloc, &[], &[], &Work::Make(editions, asked))
}

// Whether the files are the same after they were opened.
fn stay_when_opened(rt: &impl Abort, alloc: Global, octets: &Octets) -> bool {
    let log = octets.log.as_slice();
    let db = octets.db.as_slice();
    let sweep = Sweep {
        is_new: false,
        log,
        db,
        requests: &[],
        answers: &[],
        states: &[],
    };
    let after = made_by(rt, alloc, log, db, &Work::Run(&sweep));
    after.log.as_slice() == log && after.db.as_slice() == db
}

// One run with a failure at this call of one file, and how it ended, where there was a failure. Without one no command fails.
fn fails_at(
    rt: &impl Abort,
    alloc: Global,
    sweep: &Sweep<'_>,
    mode: Mode,
    call: u64,
) -> Option<Ended> {
    let (log_call, db_call) = if mode.in_log {
        (call, u64::MAX)
    } else {
        (u64::MAX, call)
    };
    let files = Files {
        log: failing_disk(alloc, sweep.log, log_call, mode.goes_on).expect(rt, "a log"),
        db: failing_disk(alloc, sweep.db, db_call, mode.goes_on).expect(rt, "a file"),
    };
    let (files, ended) = over_failing(rt, alloc, files, &Work::Run(sweep));
    let has_failed = files.log.calls > log_call || files.db.calls > db_call;
    match ended.fault {
        Some(fault) => holds(rt, has_failed && fault == Fault::Disk, "a failed call"),
        None => holds(rt, ended.is_open, "a desk"),
    }
    let (files, _) = over_failing(rt, alloc, files, &Work::Look(sweep, ended));
    drop(files);
    if has_failed { Some(ended) } else { None }
}

// A failure at each call of one file, until there is none. Some of those of the log are in the middle of a command.
fn sweep_all(rt: &impl Abort, alloc: Global, sweep: &Sweep<'_>, mode: Mode) {
    let mut halted = sweep.requests.is_empty() || !mode.in_log;
    for call in 0..5_000u64 {
        let Some(ended) = fails_at(rt, alloc, sweep, mode, call) else {
            holds(rt, halted, "a failure");
            return;
        };
        halted = halted || (ended.is_open && ended.fault.is_some());
    }
    panic!(rt; "each run failed")
}

/// The answers of commands, and what is shown before them and after each.
#[derive(Drop)]
struct Expected {
    answers: Vec<String>,
    states: Vec<String>,
}

// What a desk in memory answers and shows.
fn answers_of<K: Keeper>(
    rt: &impl Abort,
    alloc: Global,
    desk: &mut K,
    requests: &[(&str, Command)],
) -> Expected {
    let mut answers = Vec::new(alloc);
    let mut states = Vec::new(alloc);
    let first = shown(alloc, desk).expect(rt, "a catalogue");
    states.push(first).expect(rt, "memory");
    for request in requests {
        let answer = told(alloc, &desk.apply(request.0, &request.1)).expect(rt, "memory");
        answers.push(answer).expect(rt, "memory");
        let state = shown(alloc, desk).expect(rt, "a catalogue");
        states.push(state).expect(rt, "memory");
    }
    Expected { answers, states }
}

// The same over the catalogue that these commands make.
fn answers_over(
    rt: &impl Abort,
    alloc: Global,
    editions: &Editions,
    before: Steps,
    requests: &[(&str, Command)],
) -> Expected {
    let mut plain = PlainDesk::new(alloc);
    accept_all(&mut plain, editions, before).expect(rt, "accepted commands");
    answers_of(rt, alloc, &mut plain, requests)
}

// The commands of a case over the two files that those before them make, or over no files at all.
fn sweep_over(
    rt: &impl Abort,
    alloc: Global,
    editions: &Editions,
    case: Case,
    octets: &Octets,
    mode: Mode,
) {
    let requests = requests(alloc, editions, case.1).expect(rt, "memory");
    let expected = answers_over(rt, alloc, editions, case.0, &requests);
    let sweep = Sweep {
        is_new: octets.db.is_empty(),
        log: octets.log.as_slice(),
        db: octets.db.as_slice(),
        requests: requests.as_slice(),
        answers: expected.answers.as_slice(),
        states: expected.states.as_slice(),
    };
    sweep_all(rt, alloc, &sweep, mode);
}

fn sweep_cases(rt: &impl Abort, alloc: Global, mode: Mode) {
    let editions = read_editions(alloc).expect(rt, "editions");
    let nothing = Octets {
        log: Vec::new(alloc),
        db: Vec::new(alloc),
    };
    sweep_over(rt, alloc, &editions, Case(&[], &[]), &nothing, mode);
    for case in &CASES {
        let octets = made(rt, alloc, &editions, case.0);
        sweep_over(rt, alloc, &editions, *case, &octets, mode);
    }
}

// Files of older schemas, of which the tables of the known one are made first.
fn sweep_migrations(rt: &impl Abort, alloc: Global, mode: Mode) {
    let editions = read_editions(alloc).expect(rt, "editions");
    for texts in older_files() {
        let octets = made_by(rt, alloc, &[], &[], &Work::Write(texts));
        sweep_over(rt, alloc, &editions, MIGRATED, &octets, mode);
    }
}

// A stop of one file, and of the other, and a failure of each after which it goes on.
static MODES: [Mode; 4] = [
    Mode {
        in_log: true,
        goes_on: false,
    },
    Mode {
        in_log: false,
        goes_on: false,
    },
    Mode {
        in_log: true,
        goes_on: true,
    },
    Mode {
        in_log: false,
        goes_on: true,
    },
];

#[test]
fn a_stop_or_a_failure_of_each_call(rt: HostRuntime) {
    for mode in &MODES {
        sweep_cases(&rt, rt.alloc(), *mode);
    }
}

#[test]
fn a_stop_or_a_failure_of_each_call_of_a_migration(rt: HostRuntime) {
    for mode in &MODES {
        sweep_migrations(&rt, rt.alloc(), *mode);
    }
}

#[test]
fn an_opening_writes_to_older_files_alone(rt: HostRuntime) {
    let alloc = rt.alloc();
    let editions = read_editions(alloc).expect(&rt, "editions");
    let known = made(&rt, alloc, &editions, MIGRATED.0);
    let is_same = stay_when_opened(&rt, alloc, &known);
    holds(&rt, is_same, "the known schema");
    for texts in older_files() {
        let older = made_by(&rt, alloc, &[], &[], &Work::Write(texts));
        let is_same = stay_when_opened(&rt, alloc, &older);
        holds(&rt, !is_same, "an older schema");
    }
}
