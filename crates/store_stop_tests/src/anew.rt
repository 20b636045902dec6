//! Desks over two files that are opened anew, behind what was done or prepared over them. What is done over a desk stands in
//! functions over any store: only two of them are handed one of files.
use crate::disks::let_go;
use crate::files::{Octets, desk_over, opened, options};
use dict_desk::{Answered, Fault, Keeper, Lookup, Preparer};
use sqlite::{Alter, Connection, FileStore, Files};
use sqlite_disk::{Crash, Disk};
use std::alloc::Global;
use std::process::Abort;
use store_desk::{Desk, Unopened};
use store_fixtures::{Asked, Editions, Source, failing_disk, listed};

/// What is done over a desk before its files are opened anew.
#[derive(Clone, Copy, PartialEq, Eq)]
pub(crate) enum Work {
    /// gem is installed, in a new catalogue. The files are opened behind a stop, and then once more.
    Install,
    /// gem is retired. The files are opened again.
    Retire,
    /// The next edition of gem is prepared. The files are opened behind a stop.
    Prepare,
    /// The same, and its command is done.
    PrepareAndInstall,
}

/// Whether what was to be prepared was, and whether the command was done.
#[derive(Clone, Copy)]
pub(crate) struct Done {
    pub(crate) is_prepared: bool,
    pub(crate) is_applied: bool,
}

/// What the desk shows that was opened anew.
#[derive(Drop)]
pub(crate) struct Seen {
    pub(crate) items: String,
    pub(crate) installs: u64,
    pub(crate) is_closed: bool,
}

/// What comes of files that are opened anew.
#[derive(Drop)]
pub(crate) enum Anew {
    /// There was no desk before.
    NoDesk,
    /// They were opened.
    Opened(Done, Seen),
    /// They were not, since a sync had failed.
    Spent(Done),
    /// They were not for anything else.
    Unopened(Done),
}

// There are fewer parts.
const MAX_PARTS: usize = 100_000;

// Whether all parts were prepared, and nothing failed.
fn prepare_parts<S: Alter + Drop>(desk: &mut Desk<S>) -> bool {
    for _ in 0..MAX_PARTS {
        match desk.prepare() {
            Ok(true) => {}
            Ok(false) => return true,
            Err(_) => return false,
        }
    }
    false
}

// Notes the next edition of gem by its files. Whether that was done.
fn expect_next<S: Alter + Drop>(desk: &mut Desk<S>) -> bool {
    match Source::Alike.files() {
        Some((index, text)) => desk.expect_install("gem", index, text).is_ok(),
        None => false,
    }
}

// The next edition of gem comes: whether it was installed. It is answered by what was prepared of its files, or else applied.
fn come_next<S: Alter + Drop>(desk: &mut Desk<S>, editions: &Editions, id: &str) -> bool {
    let Some((index, text)) = Source::Alike.files() else {
        return false;
    };
    match desk.answer_prepared(id, "gem", index, text) {
        Ok(Some(Answered::Done(outcome))) => outcome.is_ok(),
        Ok(Some(Answered::Refused { .. })) => false,
        Ok(None) => {
            let command = Asked::Install("gem", Source::Alike).command(editions);
            desk.apply(id, &command).is_ok()
        }
        Err(_) => false,
    }
}

// Does it over a desk.
fn do_work<S: Alter + Drop>(desk: &mut Desk<S>, editions: &Editions, work: Work) -> Done {
    let (id, asked) = match work {
        Work::Install => ("r", Asked::Install("gem", Source::Gems)),
        Work::Retire => ("r", Asked::Retire("gem")),
        Work::Prepare | Work::PrepareAndInstall => ("c", Asked::Install("gem", Source::Alike)),
    };
    let prepares = work == Work::Prepare || work == Work::PrepareAndInstall;
    let is_expected = prepares && expect_next(desk);
    let is_whole = prepares && prepare_parts(desk);
    let is_applied = match work {
        Work::Prepare => false,
        Work::PrepareAndInstall => come_next(desk, editions, id),
        Work::Install | Work::Retire => desk.apply(id, &asked.command(editions)).is_ok(),
    };
    Done {
        is_prepared: is_expected && is_whole,
        is_applied,
    }
}

// The desk over which it was done, if there is one.
fn begun<S: Alter + Drop>(
    alloc: Global,
    conn: Connection<S>,
    editions: &Editions,
    work: Work,
) -> Option<(Desk<S>, Done)> {
    match desk_over(alloc, conn, work == Work::Install) {
        Ok(desk) => {
            let mut desk = desk;
            let done = do_work(&mut desk, editions, work);
            Some((desk, done))
        }
        Err(_) => None,
    }
}

fn look_at<S: Alter + Drop>(alloc: Global, desk: &Desk<S>) -> Result<Seen, Fault> {
    let summary = desk.summary()?;
    Ok(Seen {
        items: listed(alloc, summary)?,
        installs: summary.installs,
        is_closed: desk.is_closed(),
    })
}

// What a desk shows that was opened anew.
fn shown_by<S: Alter + Drop>(alloc: Global, desk: Desk<S>, done: Done) -> Anew {
    match look_at(alloc, &desk) {
        Ok(seen) => Anew::Opened(done, seen),
        Err(_) => Anew::Unopened(done),
    }
}

// Opens the same files again. Where it can't, whether a sync had failed.
fn reopened<D: Disk + Drop>(desk: Desk<FileStore<D>>) -> Result<Desk<FileStore<D>>, bool> {
    match desk.reopen(options()) {
        Ok(desk) => Ok(desk),
        Err((left, fault)) => {
            let is_spent = matches!(left, Unopened::Spent(_)) && fault == Fault::Disk;
            let_go(left);
            Err(is_spent)
        }
    }
}

// Opens what a stop leaves of the files.
fn restarted<D: Crash + Drop>(desk: Desk<FileStore<D>>) -> Result<Desk<FileStore<D>>, bool> {
    match desk.restart(options()) {
        Ok(desk) => Ok(desk),
        Err((left, _)) => {
            let_go(left);
            Err(false)
        }
    }
}

// Opens the files as it is due behind this work.
fn opened_behind<D: Crash + Drop>(
    desk: Desk<FileStore<D>>,
    work: Work,
) -> Result<Desk<FileStore<D>>, bool> {
    match work {
        Work::Retire => reopened(desk),
        Work::Install => reopened(restarted(desk)?),
        Work::Prepare | Work::PrepareAndInstall => restarted(desk),
    }
}

// Does it over a database, and opens its files anew.
fn over_database<D: Crash + Drop>(
    alloc: Global,
    conn: Connection<FileStore<D>>,
    editions: &Editions,
    work: Work,
) -> Anew {
    match begun(alloc, conn, editions, work) {
        Some((desk, done)) => match opened_behind(desk, work) {
            Ok(desk) => shown_by(alloc, desk, done),
            Err(true) => Anew::Spent(done),
            Err(false) => Anew::Unopened(done),
        },
        None => Anew::NoDesk,
    }
}

// Does it over two files, and opens them anew.
fn over_files<D: Crash + Drop>(
    alloc: Global,
    files: Files<D>,
    editions: &Editions,
    work: Work,
) -> Anew {
    match opened(alloc, files) {
        Ok(conn) => over_database(alloc, conn, editions, work),
        Err(_) => Anew::NoDesk,
    }
}

/// What comes of it over a log and a file of these octets, where the log fails at this call.
pub(crate) fn opened_anew(
    rt: &impl Abort,
    alloc: Global,
    octets: &Octets,
    call: u64,
    editions: &Editions,
    work: Work,
) -> Anew {
    let files = Files {
        log: failing_disk(alloc, octets.log.as_slice(), call, true).expect(rt, "a log"),
        db: failing_disk(alloc, octets.db.as_slice(), u64::MAX, true).expect(rt, "a file"),
    };
    over_files(alloc, files, editions, work)
}
