//! A change that is prepared part by part: what is shown meanwhile, and what comes of it.

use crate::checks::{holds, same_reply, same_text};
use crate::steps::{desk_over, items_of};
use crate::taken::found;
use dict_catalogue::{Command, Kept};
use dict_desk::{Answered, Fault, Keeper, Lookup, PlainDesk, Preparer};
use dict_index::{Edition, EditionRefusal, read_edition};
use dict_match::Strategy;
use sqlite::{Alter, Connection};
use std::alloc::{AllocError, Global};
use std::process::Abort;
use store_desk::Desk;
use store_fixtures::{Asked, Editions, Source, accept_all, read_editions, shown};

// There are fewer parts.
const MAX_PARTS: usize = 100_000;

// The database `gem` has two editions, of which the first goes once a third is installed.
static BEGUN: [(&str, Asked); 3] = [
    ("a", Asked::Install("gem", Source::Gems)),
    ("b", Asked::Install("ore", Source::Ores)),
    ("c", Asked::Install("gem", Source::More)),
];

// The edition that comes, with so long a text that it is filed by more than one part: a part takes 524,288 octets.
const LONG_INDEX: &[u8] = b"00-database-short\tA\tE\nopal\tE\tC\n";

// Files with this index are no edition.
const UNTITLED_INDEX: &[u8] = b"opal\tE\tC\n";

const NAME: &str = "gem";

const LONG_OCTETS: usize = 4_300_000;

fn long_text(alloc: Global) -> Result<Vec<u8>, AllocError> {
    Vec::from_elem(alloc, b'x', LONG_OCTETS)
}

// As long a text, of which the last octet is another one.
fn other_text(rt: &impl Abort, alloc: Global) -> Vec<u8> {
    let mut text = Vec::from_elem(alloc, b'x', LONG_OCTETS - 1).expect(rt, "memory");
    text.push(b'y').expect(rt, "memory");
    text
}

/// The files by which an install comes.
#[derive(Clone, Copy)]
enum Files {
    /// Those of the edition that comes.
    These,
    /// Its index, and another text.
    OtherText,
    /// Its text, and an index without a title.
    Untitled,
}

const BEFORE: &str = "gem Gems 3/1; ore Ores 2; opal=0!/opal=6!/iron=iron\n  ore\n/";

const AFTER: &str = "gem xxxx 4/3; ore Ores 2; opal=0!/opal=6!/iron=iron\n  ore\n/";

/// What is done over a desk, or looked at. Where no command is named it is the one that installs the edition that comes.
#[derive(Clone, Copy)]
enum Act {
    /// The desk is told of a command.
    Expect(Asked),
    /// It is told of an install under a name by its files.
    ExpectFiles(&'static str, Files),
    /// So many parts are prepared at most, and whether that was all.
    Parts(usize, bool),
    /// One part is prepared, and whether there is more.
    Part(bool),
    /// A command is answered so.
    Apply(&'static str, Option<Asked>, &'static str),
    /// The install that comes is answered so under an id: by what was prepared of its files, or else as a command.
    Come(&'static str, bool, &'static str),
    /// Files without a title are refused.
    Refuse,
    /// Whether a reply is kept under this id.
    Kept(&'static str, bool),
    /// This is shown of the editions that sessions ask.
    Shows(&'static str),
    /// These are the items.
    Lists(&'static str),
    /// This is found in an edition.
    Finds(u64, &'static str),
    /// All is shown that lists show: before the command that comes, or behind it.
    All(bool),
    /// The desk is sound.
    Audit,
}

/// The command that comes, its text and another one, the editions of others, and what lists show before it, and behind it.
#[derive(Clone, Copy)]
struct Coming<'a> {
    next: Command<'a>,
    text: &'a [u8],
    other: &'a [u8],
    editions: &'a Editions,
    before: &'a str,
    behind: &'a str,
}

// So many entries are looked up at most.
const MOST: usize = 9;

// What is shown of the editions that sessions ask.
fn current<L: Lookup>(rt: &impl Abort, alloc: Global, desk: &mut L) -> String {
    let mut text = items_of(rt, alloc, desk);
    let opal = found(rt, alloc, desk, 3, Strategy::Exact, "opal", MOST);
    text.push_str(opal.text.as_str()).expect(rt, "memory");
    let iron = found(rt, alloc, desk, 2, Strategy::Exact, "iron", MOST);
    text.push_str(iron.text.as_str()).expect(rt, "memory");
    text
}

// Prepares what is expected up to its end, or so many parts of it. Whether that was the end.
fn prepare_parts<P: Preparer>(rt: &impl Abort, alloc: Global, desk: &mut P, most: usize) -> bool {
    for part in 0..most {
        if !desk.prepare().expect(rt, "a part") {
            return true;
        }
        if part % 256 == 0 {
            same_text(rt, current(rt, alloc, desk).as_str(), BEFORE, "a part");
        }
    }
    false
}

fn command_of<'a>(coming: &Coming<'a>, asked: Option<Asked>) -> Command<'a> {
    match asked {
        Some(asked) => asked.command(coming.editions),
        None => coming.next,
    }
}

fn files_of<'a>(coming: &Coming<'a>, files: Files) -> (&'a [u8], &'a [u8]) {
    match files {
        Files::These => (LONG_INDEX, coming.text),
        Files::OtherText => (LONG_INDEX, coming.other),
        Files::Untitled => (UNTITLED_INDEX, coming.text),
    }
}

// The desk is told of a command.
fn note<P: Preparer>(rt: &impl Abort, desk: &mut P, command: &Command) {
    desk.expect(command).expect(rt, "a note");
}

// It is told of an install by its files.
fn note_files<P: Preparer>(
    rt: &impl Abort,
    desk: &mut P,
    coming: &Coming<'_>,
    name: &str,
    files: Files,
) {
    let (index, text) = files_of(coming, files);
    desk.expect_install(name, index, text).expect(rt, "a note");
}

// The install comes, by its files where they are prepared, and else as a command.
fn come<P: Preparer>(
    rt: &impl Abort,
    desk: &mut P,
    coming: &Coming<'_>,
    id: &str,
    is_prepared: bool,
) -> Result<Kept, Fault> {
    let answered = desk
        .answer_prepared(id, NAME, LONG_INDEX, coming.text)
        .expect(rt, "an answer");
    match answered {
        Some(Answered::Done(answer)) => {
            holds(rt, is_prepared, "what was prepared");
            answer
        }
        Some(Answered::Refused { refusal, .. }) => panic!(rt; "refused: {refusal:?}"),
        None => {
            holds(rt, !is_prepared, "what wasn't prepared");
            desk.apply(id, &coming.next)
        }
    }
}

// Files without a title come, and are refused for just that.
fn refuse<P: Preparer>(rt: &impl Abort, desk: &mut P, coming: &Coming<'_>) {
    let answered = desk
        .answer_prepared("d", NAME, UNTITLED_INDEX, coming.text)
        .expect(rt, "an answer");
    let Some(Answered::Refused { refusal, line }) = answered else {
        panic!(rt; "not refused");
    };
    holds(rt, refusal == EditionRefusal::NoTitle, "no title");
    holds(rt, line.is_none(), "no line");
}

// What is told of a desk that is looked at.
fn told_by<P: Preparer>(rt: &impl Abort, alloc: Global, desk: &mut P, act: Act) -> String {
    match act {
        Act::Shows(_) => current(rt, alloc, desk),
        Act::Lists(_) => items_of(rt, alloc, desk),
        Act::Finds(number, _) => found(rt, alloc, desk, number, Strategy::Exact, "opal", MOST).text,
        _ => shown(alloc, desk).expect(rt, "a catalogue"),
    }
}

// What is done over a desk comes out as it is wanted.
fn act_on<P: Preparer>(
    rt: &impl Abort,
    alloc: Global,
    desk: &mut P,
    coming: &Coming<'_>,
    act: Act,
) {
    match act {
        Act::Expect(asked) => note(rt, desk, &asked.command(coming.editions)),
        Act::ExpectFiles(name, files) => note_files(rt, desk, coming, name, files),
        Act::Parts(most, is_end) => {
            let found = prepare_parts(rt, alloc, desk, most);
            holds(rt, found == is_end, "an end");
        }
        Act::Part(is_more) => holds(rt, desk.prepare().expect(rt, "a part") == is_more, "a part"),
        Act::Apply(id, asked, wanted) => {
            let answer = desk.apply(id, &command_of(coming, asked));
            same_reply(rt, alloc, answer, wanted, "the reply");
        }
        Act::Come(id, is_prepared, wanted) => {
            let answer = come(rt, desk, coming, id, is_prepared);
            same_reply(rt, alloc, answer, wanted, "the reply");
        }
        Act::Refuse => refuse(rt, desk, coming),
        Act::Kept(id, is_kept) => {
            let kept = desk.kept(id).expect(rt, "replies");
            holds(rt, kept.is_some() == is_kept, id);
        }
        Act::Shows(wanted) | Act::Lists(wanted) | Act::Finds(_, wanted) => {
            same_text(rt, told_by(rt, alloc, desk, act).as_str(), wanted, "a look");
        }
        Act::All(is_behind) => {
            let wanted = if is_behind {
                coming.behind
            } else {
                coming.before
            };
            same_text(rt, told_by(rt, alloc, desk, act).as_str(), wanted, "all");
        }
        Act::Audit => {}
    }
}

// The same one after another, over a new catalogue behind the commands by which it begins.
fn act_all<S: Alter + Drop>(
    rt: &impl Abort,
    alloc: Global,
    desk: &mut Desk<S>,
    is_new: bool,
    coming: &Coming<'_>,
    acts: &[Act],
) {
    if is_new {
        accept_all(desk, coming.editions, &BEGUN).expect(rt, "commands");
    }
    for act in acts {
        if matches!(act, Act::Audit) {
            holds(rt, desk.audit().is_ok(), "a sound desk");
        }
        act_on(rt, alloc, desk, coming, *act);
    }
}

// Over the desk of a database.
fn over_desk<S: Alter + Drop>(
    rt: &impl Abort,
    alloc: Global,
    conn: Connection<S>,
    is_new: bool,
    coming: &Coming<'_>,
    acts: &[Act],
) -> Connection<S> {
    match desk_over(alloc, conn, is_new) {
        Ok(desk) => {
            let mut desk = desk;
            act_all(rt, alloc, &mut desk, is_new, coming, acts);
            desk.into_connection()
        }
        Err((_conn, fault)) => panic!(rt; "no desk: {fault:?}"),
    }
}

// Each of these is done over a desk of its own, of which the first makes the catalogue. No transaction is left open.
fn over_each<S: Alter + Drop>(
    rt: &impl Abort,
    alloc: Global,
    conn: Connection<S>,
    coming: &Coming<'_>,
    desks: &[&[Act]],
) {
    let mut conn = conn;
    let mut is_new = true;
    for acts in desks {
        conn = over_desk(rt, alloc, conn, is_new, coming, *acts);
        holds(rt, conn.is_autocommit(), "no transaction");
        is_new = false;
    }
}

fn over_memory(rt: &impl Abort, alloc: Global, coming: &Coming<'_>, desks: &[&[Act]]) {
    let conn = Connection::open_in_memory(alloc).expect(rt, "a database");
    over_each(rt, alloc, conn, coming, desks);
}

// What is shown before the command that comes, and behind it.
fn shown_around<K: Keeper>(
    rt: &impl Abort,
    alloc: Global,
    desk: &mut K,
    editions: &Editions,
    next: &Command,
) -> (String, String) {
    accept_all(desk, editions, &BEGUN).expect(rt, "commands");
    let before = shown(alloc, desk).expect(rt, "a catalogue");
    let _kept = desk.apply("d", next).expect(rt, "a reply");
    let behind = shown(alloc, desk).expect(rt, "a catalogue");
    (before, behind)
}

fn run_with(
    rt: &impl Abort,
    alloc: Global,
    editions: &Editions,
    edition: &Edition,
    text: &[u8],
    runs: &[&[&[Act]]],
) {
    let next = Command::Install {
        name: NAME,
        edition,
    };
    let (before, behind) = shown_around(rt, alloc, &mut PlainDesk::new(alloc), editions, &next);
    let other = other_text(rt, alloc);
    let coming = Coming {
        next,
        text,
        other: other.as_slice(),
        editions,
        before: before.as_str(),
        behind: behind.as_str(),
    };
    for desks in runs {
        over_memory(rt, alloc, &coming, *desks);
    }
}

fn run_over(rt: &impl Abort, alloc: Global, editions: &Editions, text: &[u8], runs: &[&[&[Act]]]) {
    let edition = read_edition(alloc, LONG_INDEX, text).expect(rt, "an edition");
    run_with(rt, alloc, editions, &edition, text, runs);
}

// The edition that comes has the long text.
fn over_a_long_text(rt: &impl Abort, alloc: Global, runs: &[&[&[Act]]]) {
    let editions = read_editions(alloc).expect(rt, "editions");
    let text = long_text(alloc).expect(rt, "memory");
    run_over(rt, alloc, &editions, text.as_slice(), runs);
}

// The install that comes is noted by its files.
const EXPECT: Act = Act::ExpectFiles(NAME, Files::These);

// It comes, and was prepared, or not.
const PREPARED_ONE: Act = Act::Come("d", true, "4 Install gem Some(4)");

const NEXT: Act = Act::Come("d", false, "4 Install gem Some(4)");

const WHOLE: Act = Act::Parts(MAX_PARTS, true);

// The files are read, and some parts are filed.
const SOME: Act = Act::Parts(5, false);

const UNPREPARED: &[&[Act]] = &[&[NEXT, Act::Shows(AFTER), Act::Audit, Act::All(true)]];

const PART_BY_PART: &[&[Act]] = &[&[
    EXPECT,
    WHOLE,
    Act::Part(false),
    Act::Shows(BEFORE),
    PREPARED_ONE,
    Act::Shows(AFTER),
    Act::Audit,
    Act::All(true),
]];

static PREPARED: [&[&[Act]]; 2] = [UNPREPARED, PART_BY_PART];

#[test]
fn an_install_is_prepared_part_by_part(rt: HostRuntime) {
    over_a_long_text(&rt, rt.alloc(), &PREPARED);
}

// All editions are asked, the former ones too, and what was prepared goes on.
static ASKED: [&[&[Act]]; 1] = [&[&[
    Act::All(false),
    EXPECT,
    SOME,
    Act::All(false),
    Act::Part(true),
    WHOLE,
    PREPARED_ONE,
    Act::Shows(AFTER),
    Act::Audit,
    Act::All(true),
]]];

#[test]
fn a_former_edition_is_asked_meanwhile(rt: HostRuntime) {
    over_a_long_text(&rt, rt.alloc(), &ASKED);
}

// Of the edition that didn't come nothing is found, and the one that stays answers.
static ANOTHER: [&[&[Act]]; 1] = [&[&[
    EXPECT,
    WHOLE,
    Act::Apply("x", Some(Asked::Retire("ore")), "4 Retire ore None"),
    Act::Lists("gem Gems 3/1; "),
    Act::Finds(3, "opal=0!/opal=6!/"),
    Act::Finds(4, ""),
    Act::Audit,
]]];

#[test]
fn another_command_comes_between(rt: HostRuntime) {
    over_a_long_text(&rt, rt.alloc(), &ANOTHER);
}

static IDS: [&[&[Act]]; 1] = [&[&[
    EXPECT,
    WHOLE,
    Act::Kept("a", true),
    Act::Kept("d", false),
    Act::Apply("", None, "31"),
    Act::Apply("a", None, "1 Install gem Some(1)"),
    Act::Shows(BEFORE),
    NEXT,
    Act::Shows(AFTER),
    Act::Audit,
]]];

#[test]
fn a_kept_id_and_an_unlawful_one_come_between(rt: HostRuntime) {
    over_a_long_text(&rt, rt.alloc(), &IDS);
}

static OPENED_AGAIN: [&[&[Act]]; 1] = [&[
    &[EXPECT, SOME],
    &[Act::Shows(BEFORE), NEXT, Act::Shows(AFTER), Act::Audit],
]];

#[test]
fn a_desk_is_opened_again_meanwhile(rt: HostRuntime) {
    over_a_long_text(&rt, rt.alloc(), &OPENED_AGAIN);
}

// Of each of these three commands nothing is prepared.
static OTHERS: [&[&[Act]]; 1] = [&[&[
    EXPECT,
    Act::Part(true),
    Act::Expect(Asked::Retire("ore")),
    Act::Part(false),
    Act::Shows(BEFORE),
    EXPECT,
    Act::Part(true),
    Act::Expect(Asked::Rollback("gem")),
    Act::Part(false),
    Act::Shows(BEFORE),
    EXPECT,
    Act::Part(true),
    Act::Expect(Asked::Install("", Source::Gems)),
    Act::Part(false),
    Act::Shows(BEFORE),
]]];

#[test]
fn nothing_is_prepared_of_other_commands(rt: HostRuntime) {
    over_a_long_text(&rt, rt.alloc(), &OTHERS);
}

// What an install left in the log that wasn't prepared is copied first, in a part of its own, behind which all is as it was: once, whatever comes
// next. Then the parts of the edition that went are taken out. One that was prepared leaves no long log.
static COPIED: [&[&[Act]]; 2] = [
    &[&[
        EXPECT,
        WHOLE,
        PREPARED_ONE,
        Act::Expect(Asked::Rollback("gem")),
        Act::Part(true),
        Act::All(true),
        Act::Audit,
        Act::Part(false),
        Act::Apply("e", Some(Asked::Rollback("gem")), "5 Rollback gem Some(3)"),
        Act::Shows("gem Gems 3/4; ore Ores 2; opal=0!/opal=6!/iron=iron\n  ore\n/"),
        Act::Audit,
    ]],
    &[&[
        NEXT,
        Act::Expect(Asked::Retire("ore")),
        Act::Part(true),
        EXPECT,
        Act::Part(true),
        Act::All(true),
        Act::Expect(Asked::Retire("ore")),
        Act::Part(false),
        Act::Audit,
    ]],
];

#[test]
fn the_log_is_copied_before_the_next_command(rt: HostRuntime) {
    over_a_long_text(&rt, rt.alloc(), &COPIED);
}

// What was filed of an install that doesn't come is taken out, before the next one is filed or the next command comes: of a front of its text
// by two commits, of the whole by three. Where an install that wasn't prepared takes its number, nothing of it is left.
static LET_GO: [&[&[Act]]; 4] = [
    &[&[
        EXPECT,
        SOME,
        Act::Expect(Asked::Retire("ore")),
        Act::Part(true),
        Act::Part(true),
        Act::Part(false),
        Act::All(false),
        Act::Audit,
    ]],
    &[&[
        EXPECT,
        WHOLE,
        Act::Expect(Asked::Retire("ore")),
        Act::Part(true),
        Act::Part(true),
        Act::Part(true),
        Act::Part(false),
        Act::All(false),
        Act::Audit,
    ]],
    &[&[
        EXPECT,
        SOME,
        EXPECT,
        WHOLE,
        PREPARED_ONE,
        Act::Shows(AFTER),
        Act::Audit,
        Act::All(true),
    ]],
    &[
        &[EXPECT, SOME],
        &[
            EXPECT,
            Act::Part(true),
            Act::Part(true),
            Act::All(false),
            WHOLE,
            PREPARED_ONE,
            Act::Shows(AFTER),
            Act::Audit,
            Act::All(true),
        ],
    ],
];

#[test]
fn what_is_let_go_of_is_taken_out(rt: HostRuntime) {
    over_a_long_text(&rt, rt.alloc(), &LET_GO);
}

static TAKEN_OVER: [&[&[Act]]; 1] = [&[&[
    EXPECT,
    SOME,
    Act::Apply(
        "d",
        Some(Asked::Install("gem", Source::Gems)),
        "4 Install gem Some(4)",
    ),
    Act::Finds(4, "opal=opal\n  a stone\n/"),
    Act::Audit,
    Act::Expect(Asked::Retire("ore")),
    Act::Part(true),
    Act::Part(false),
    Act::Audit,
]]];

#[test]
fn another_install_takes_the_number_of_what_was_filed(rt: HostRuntime) {
    over_a_long_text(&rt, rt.alloc(), &TAKEN_OVER);
}

// Files of which one differs in an octet, or which come under another name, aren't answered by what was prepared.
static OTHER_FILES: [&[&[Act]]; 1] = [&[&[
    Act::ExpectFiles(NAME, Files::OtherText),
    WHOLE,
    NEXT,
    Act::Shows(AFTER),
    Act::ExpectFiles("ore", Files::These),
    Act::Part(true),
    Act::Come("e", false, "5 Install gem Some(5)"),
    Act::Audit,
]]];

#[test]
fn other_files_come(rt: HostRuntime) {
    over_a_long_text(&rt, rt.alloc(), &OTHER_FILES);
}

// Files that are no edition are refused by the first test that they don't pass, and nothing is filed.
static REFUSED: [&[&[Act]]; 1] = [&[&[
    Act::ExpectFiles(NAME, Files::Untitled),
    WHOLE,
    Act::Kept("d", false),
    Act::Refuse,
    Act::Shows(BEFORE),
    Act::Audit,
    Act::All(false),
]]];

#[test]
fn files_are_refused(rt: HostRuntime) {
    over_a_long_text(&rt, rt.alloc(), &REFUSED);
}
