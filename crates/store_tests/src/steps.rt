//! What is done in one database, step after step, and over lists beside it: both answer and show the same.

use crate::checks::{holds, same_reply, same_text};
use crate::tables::{dumped, same_numbers};
use crate::taken::Counted;
use crate::{borders, full, kept_texts, looked_at, looking, many, spoken};
use dict_desk::{Fault, Keeper, Lookup, PlainDesk, Preparer};
use sqlite::{Alter, Connection};
use std::alloc::Global;
use std::process::Abort;
use store_desk::Desk;
use store_fixtures::{Asked, Editions, batched, listed, read_editions, shown};

/// An id, a command, its answer, and the items after it.
#[derive(Clone, Copy)]
pub(crate) struct Row(
    pub(crate) &'static str,
    pub(crate) Asked,
    pub(crate) &'static str,
    pub(crate) &'static str,
);

#[derive(Clone, Copy)]
pub(crate) enum Step {
    /// Statements of others.
    Batch(&'static str),
    /// Each selection gives its number.
    Numbers(&'static [(&'static str, i64)]),
    /// The commands that made the tables which are there, over the lists alone.
    Made(&'static [Row]),
    /// A store is made, and commands are answered so.
    Make(&'static [Row]),
    /// The store is opened, and commands are answered so.
    Open(&'static [Row]),
    /// The store is opened, and what commands left to be done later is done.
    Settle,
    /// The same as `Open`, and no row changes.
    Keep(&'static [Row]),
    /// No store is made, or the one that is there isn't opened, by this fault, after what is named. No row changes.
    Refuse(bool, Fault, &'static str),
    /// Lookups.
    Look,
    /// Items, up to the last that there may be.
    Fill,
    /// Lookups in an edition with as many entries as a file of the first limits may have.
    Many,
    /// A store is made, and lookups between commands look at what they select.
    Select,
    /// A store is made, and lookups between commands read each text once.
    Texts,
    /// The store is opened, and reads texts anew.
    TextsAnew,
    /// A text that goes around parts is installed in a store that is made, or the store is opened; and it is handed out.
    Around(borders::Case, bool),
    /// The same of an index.
    Lines(borders::Lines, bool),
    /// This selection gives this number.
    Number(&'static str, i64),
    /// A session with this input writes this, behind the banner.
    Speak(&'static str, &'static str),
    /// A session whose client takes so many octets and no more, for each count.
    Cut,
}

/// The desk of a database that is made, or of one that is found. Where a transaction is open, the connection is handed back as it is.
pub(crate) fn desk_over<S: Alter + Drop>(
    alloc: Global,
    conn: Connection<S>,
    is_new: bool,
) -> Result<Desk<S>, (Connection<S>, Fault)> {
    if !conn.is_autocommit() {
        return Err((conn, Fault::Closed));
    }
    if is_new {
        Desk::create(alloc, conn)
    } else {
        Desk::adopt(alloc, conn, false)
    }
}

/// The items that a desk lists.
pub(crate) fn items_of<L: Lookup>(rt: &impl Abort, alloc: Global, desk: &mut L) -> String {
    let summary = desk.summary().expect(rt, "a summary");
    listed(alloc, summary).expect(rt, "memory")
}

/// The commands are answered so.
pub(crate) fn play<K: Keeper>(
    rt: &impl Abort,
    alloc: Global,
    desk: &mut K,
    editions: &Editions,
    rows: &[Row],
) {
    for Row(id, asked, wanted, after) in rows {
        let answer = desk.apply(id, &asked.command(editions));
        same_reply(rt, alloc, answer, *wanted, id);
        let items = items_of(rt, alloc, desk);
        same_text(rt, items.as_str(), *after, id);
    }
}

// Does what commands left to be done later.
fn settle<K: Preparer>(rt: &impl Abort, desk: &mut K) {
    for _ in 0..64 {
        if !desk.prepare().expect(rt, "a part") {
            break;
        }
    }
}

// What a step does over a desk, and what the desk shows then.
fn act<K: Preparer + Counted>(
    rt: &impl Abort,
    alloc: Global,
    desk: &mut K,
    editions: &Editions,
    step: &Step,
) -> String {
    match step {
        Step::Made(rows) | Step::Make(rows) | Step::Open(rows) | Step::Keep(rows) => {
            play(rt, alloc, desk, editions, *rows)
        }
        Step::Settle => settle(rt, desk),
        Step::Look => looking::look(rt, alloc, desk, &looking::CASES),
        Step::Fill => full::fill(rt, alloc, desk, editions),
        Step::Many => many::look(rt, alloc, desk),
        Step::Cut => spoken::cut(rt, alloc, desk),
        Step::Select => looked_at::look_around(rt, alloc, desk, editions),
        Step::Texts => kept_texts::look_between(rt, alloc, desk, editions),
        Step::TextsAnew => kept_texts::look_anew(rt, alloc, desk),
        Step::Around(case, is_first) => borders::look_around(rt, alloc, desk, case, *is_first),
        Step::Lines(lines, is_first) => {
            borders::look_for_the_last(rt, alloc, desk, *lines, *is_first)
        }
        _ => {}
    }
    shown(alloc, desk).expect(rt, "a catalogue")
}

fn name_of(step: &Step) -> &'static str {
    match step {
        Step::Refuse(_, _, name) => *name,
        _ => "a catalogue that is opened",
    }
}

// Whether a store is made for a step.
fn is_made(step: &Step) -> bool {
    matches!(
        step,
        Step::Make(_)
            | Step::Refuse(true, _, _)
            | Step::Select
            | Step::Texts
            | Step::Around(_, true)
            | Step::Lines(_, true)
    )
}

// A step over the desk of tables, which shows what the lists do then, and is sound.
fn on_desk<S: Alter + Drop>(
    rt: &impl Abort,
    alloc: Global,
    desk: &mut Desk<S>,
    editions: &Editions,
    step: &Step,
    wanted: &str,
) {
    holds(rt, !matches!(step, Step::Refuse(_, _, _)), name_of(step));
    let found = act(rt, alloc, desk, editions, step);
    same_text(rt, found.as_str(), wanted, "both desks");
    holds(rt, desk.audit().is_ok(), "a sound desk");
}

// A step over the desk of the database, or the fault by which there is none is the one that is due.
fn over_desk<S: Alter + Drop>(
    rt: &impl Abort,
    alloc: Global,
    conn: Connection<S>,
    editions: &Editions,
    step: &Step,
    wanted: &str,
) -> Connection<S> {
    match desk_over(alloc, conn, is_made(step)) {
        Ok(desk) => {
            let mut desk = desk;
            on_desk(rt, alloc, &mut desk, editions, step, wanted);
            desk.into_connection()
        }
        Err((conn, fault)) => {
            let is_due = matches!(step, Step::Refuse(_, due, _) if *due == fault);
            holds(rt, is_due, name_of(step));
            conn
        }
    }
}

// The same; no row changes.
fn beside_all_rows<S: Alter + Drop>(
    rt: &impl Abort,
    alloc: Global,
    conn: Connection<S>,
    editions: &Editions,
    step: &Step,
    wanted: &str,
) -> Connection<S> {
    let mut conn = conn;
    let before = dumped(rt, alloc, &mut conn);
    let mut conn = over_desk(rt, alloc, conn, editions, step, wanted);
    let after = dumped(rt, alloc, &mut conn);
    holds(rt, before.as_str() == after.as_str(), "all rows");
    conn
}

// A step over the tables alone.
fn over_tables<S: Alter>(rt: &impl Abort, conn: &mut Connection<S>, step: &Step) {
    match step {
        Step::Batch(text) => batched(conn, &[*text]).expect(rt, "statements"),
        Step::Numbers(wanted) => same_numbers(rt, conn, *wanted),
        Step::Number(text, count) => same_numbers(rt, conn, &[(*text, *count)]),
        _ => {}
    }
}

fn done<S: Alter + Drop>(
    rt: &impl Abort,
    alloc: Global,
    conn: Connection<S>,
    editions: &Editions,
    step: &Step,
    wanted: &str,
) -> Connection<S> {
    match step {
        Step::Batch(_) | Step::Numbers(_) | Step::Number(_, _) | Step::Made(_) => {
            let mut conn = conn;
            over_tables(rt, &mut conn, step);
            conn
        }
        Step::Speak(input, output) => spoken::speak(rt, alloc, conn, *input, *output),
        Step::Keep(_) | Step::Refuse(_, _, _) => {
            beside_all_rows(rt, alloc, conn, editions, step, wanted)
        }
        _ => over_desk(rt, alloc, conn, editions, step, wanted),
    }
}

// Each step is begun with the connection that the last one left.
fn run<S: Alter + Drop>(rt: &impl Abort, alloc: Global, conn: Connection<S>, steps: &[Step]) {
    let editions = read_editions(alloc).expect(rt, "editions");
    let mut plain = PlainDesk::new(alloc);
    let mut conn = conn;
    for step in steps {
        let wanted = act(rt, alloc, &mut plain, &editions, step);
        conn = done(rt, alloc, conn, &editions, step, wanted.as_str());
    }
}

/// Does the steps in a new database.
pub(crate) fn over_memory(rt: &impl Abort, alloc: Global, steps: &[Step]) {
    let conn = Connection::open_in_memory(alloc).expect(rt, "a database");
    run(rt, alloc, conn, steps);
}
