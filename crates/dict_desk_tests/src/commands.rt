// Commands on a catalogue in memory, and what it shows after them.
use super::asked::{Asked, listed, push_kept, push_refusal};
use super::files::{GEM, install, read};
use crate::checks::{same, same_text, same_text_of};
use dict_catalogue::{Command, Kept};
use dict_desk::{Fault, Keeper, Lookup, PlainDesk};
use dict_index::Edition;
use std::alloc::Global;
use std::process::Abort;

/// An id, a command, its answer, and the items after it.
#[derive(Clone, Copy)]
struct Row(&'static str, Asked, &'static str, &'static str);

/// The answer: the reply's number, verb, name and edition, or the fault.
fn push_answer(rt: &impl Abort, alloc: Global, text: &mut String, answer: &Result<Kept, Fault>) {
    match answer {
        Ok(kept) => push_kept(rt, alloc, text, kept),
        Err(fault) => push_refusal(rt, alloc, text, fault.number(), fault.name()),
    }
}

/// What the desk answers to a command.
fn answered(
    rt: &impl Abort,
    alloc: Global,
    desk: &mut PlainDesk,
    id: &str,
    command: &Command<'_>,
) -> String {
    let mut text = String::new(alloc);
    let answer = desk.apply(id, command);
    push_answer(rt, alloc, &mut text, &answer);
    text
}

fn check(rt: &impl Abort, alloc: Global, desk: &mut PlainDesk, gem: &Edition<'static>, row: Row) {
    let Row(id, asked, answer, after) = row;
    let answered = answered(rt, alloc, desk, id, &asked.command(gem));
    same_text(rt, answered.as_str(), answer);
    let items = listed(rt, alloc, desk.summary().expect(rt, "a summary"));
    same_text(rt, items.as_str(), after);
}

/// Applies the commands one after another.
fn run(rt: &impl Abort, alloc: Global, desk: &mut PlainDesk, gem: &Edition<'static>, rows: &[Row]) {
    for row in rows {
        check(rt, alloc, desk, gem, *row);
    }
}

/// The same over a new desk.
fn run_anew(rt: &impl Abort, alloc: Global, rows: &[Row]) {
    let gem = read(rt, alloc, GEM);
    let mut desk = PlainDesk::new(alloc);
    run(rt, alloc, &mut desk, &gem, rows);
}

static SWAPPED: [Row; 7] = [
    Row(
        "r1",
        Asked::Install("gem"),
        "1 Install gem #1",
        "gem Gems 1; ",
    ),
    Row("r0", Asked::Rollback("gem"), "23 NoFormer", "gem Gems 1; "),
    Row(
        "r2",
        Asked::Install("gem"),
        "2 Install gem #2",
        "gem Gems 2/1; ",
    ),
    Row(
        "r3",
        Asked::Rollback("gem"),
        "3 Rollback gem #1",
        "gem Gems 1/2; ",
    ),
    Row(
        "r4",
        Asked::Rollback("gem"),
        "4 Rollback gem #2",
        "gem Gems 2/1; ",
    ),
    Row(
        "r5",
        Asked::Install("gem"),
        "5 Install gem #3",
        "gem Gems 3/2; ",
    ),
    Row(
        "r1",
        Asked::Retire("gem"),
        "1 Install gem #1",
        "gem Gems 3/2; ",
    ),
];

static ONCE: [Row; 5] = [
    Row(
        "r1",
        Asked::Install("gem"),
        "1 Install gem #1",
        "gem Gems 1; ",
    ),
    Row(
        "r1",
        Asked::Install("ore"),
        "1 Install gem #1",
        "gem Gems 1; ",
    ),
    Row("r5", Asked::Rollback("gem"), "23 NoFormer", "gem Gems 1; "),
    Row("r5", Asked::Retire("gem"), "2 Retire gem", ""),
    Row("r5", Asked::Rollback("gem"), "2 Retire gem", ""),
];

static PLACED: [Row; 12] = [
    Row(
        "a",
        Asked::Install("ore"),
        "1 Install ore #1",
        "ore Gems 1; ",
    ),
    Row(
        "b",
        Asked::Install("gem"),
        "2 Install gem #2",
        "ore Gems 1; gem Gems 2; ",
    ),
    Row(
        "c",
        Asked::Put("all", "All", &["ore", "gem"]),
        "3 Virtual all",
        "ore Gems 1; gem Gems 2; all All +ore +gem; ",
    ),
    Row(
        "d",
        Asked::Retire("gem"),
        "24 Listed",
        "ore Gems 1; gem Gems 2; all All +ore +gem; ",
    ),
    Row(
        "e",
        Asked::Put("all", "Gems alone", &["gem"]),
        "4 Virtual all",
        "ore Gems 1; gem Gems 2; all Gems alone +gem; ",
    ),
    Row(
        "f",
        Asked::Place("all", 0),
        "5 Place all",
        "all Gems alone +gem; ore Gems 1; gem Gems 2; ",
    ),
    Row(
        "g",
        Asked::Place("gem", 1),
        "6 Place gem",
        "all Gems alone +gem; gem Gems 2; ore Gems 1; ",
    ),
    Row(
        "h",
        Asked::Retire("all"),
        "7 Retire all",
        "gem Gems 2; ore Gems 1; ",
    ),
    Row("i", Asked::Retire("gem"), "8 Retire gem", "ore Gems 1; "),
    Row(
        "j",
        Asked::Install("gem"),
        "9 Install gem #3",
        "ore Gems 1; gem Gems 3; ",
    ),
    Row("k", Asked::Retire("ore"), "10 Retire ore", "gem Gems 3; "),
    Row("l", Asked::Retire("gem"), "11 Retire gem", ""),
];

const GEM_AND_ALL: &str = "gem Gems 1; all All +gem; ";

static REFUSED: [Row; 17] = [
    Row(
        "a",
        Asked::Install("gem"),
        "1 Install gem #1",
        "gem Gems 1; ",
    ),
    Row(
        "b",
        Asked::Put("all", "All", &["gem"]),
        "2 Virtual all",
        "gem Gems 1; all All +gem; ",
    ),
    Row(
        "not lawful",
        Asked::Rollback("Gem"),
        "31 BadRequestId",
        GEM_AND_ALL,
    ),
    Row("", Asked::Rollback("gem"), "31 BadRequestId", GEM_AND_ALL),
    Row("x", Asked::Rollback("Gem"), "20 BadName", GEM_AND_ALL),
    Row("x", Asked::Rollback("ore"), "21 Unknown", GEM_AND_ALL),
    Row("x", Asked::Install("all"), "22 IsVirtual", GEM_AND_ALL),
    Row("x", Asked::Rollback("gem"), "23 NoFormer", GEM_AND_ALL),
    Row("x", Asked::Retire("gem"), "24 Listed", GEM_AND_ALL),
    Row(
        "x",
        Asked::Put("new", "New", &["all"]),
        "26 BadMember",
        GEM_AND_ALL,
    ),
    Row(
        "x",
        Asked::Put("new", "New", &["gem", "gem"]),
        "27 MemberTwice",
        GEM_AND_ALL,
    ),
    Row(
        "x",
        Asked::Put("new", "New", &[]),
        "28 MemberCount",
        GEM_AND_ALL,
    ),
    Row(
        "x",
        Asked::Put("new", " New", &["gem"]),
        "29 BadTitle",
        GEM_AND_ALL,
    ),
    Row("x", Asked::Place("gem", 2), "30 BadPlace", GEM_AND_ALL),
    Row(
        "x",
        Asked::Put("gem", "New", &["gem"]),
        "32 IsRegular",
        GEM_AND_ALL,
    ),
    Row("a", Asked::Rollback("Gem"), "1 Install gem #1", GEM_AND_ALL),
    Row(
        "x",
        Asked::Place("gem", 1),
        "3 Place gem",
        "all All +gem; gem Gems 1; ",
    ),
];

#[test]
fn commands_over_a_new_desk(rt: HostRuntime) {
    for rows in [SWAPPED.as_slice(), PLACED.as_slice(), REFUSED.as_slice()] {
        run_anew(&rt, rt.alloc(), rows);
    }
}

/// Ids, and the replies that are kept under them after the rows of `ONCE`.
static KEPT: [(&str, &str); 4] = [
    ("r1", "1 Install gem #1"),
    ("r5", "2 Retire gem"),
    ("r2", "none"),
    ("", "none"),
];

/// The reply that is kept under an id.
fn kept_under(rt: &impl Abort, alloc: Global, desk: &mut PlainDesk, id: &str) -> String {
    let mut text = String::new(alloc);
    match desk.kept(id).expect(rt, "what is kept") {
        Some(kept) => push_kept(rt, alloc, &mut text, &kept),
        None => text.push_str("none").expect(rt, "memory"),
    }
    text
}

fn check_kept(rt: &impl Abort, alloc: Global, desk: &mut PlainDesk) {
    for (id, reply) in &KEPT {
        let kept = kept_under(rt, alloc, desk, id);
        same_text_of(rt, kept.as_str(), *reply, id);
    }
}

#[test]
fn an_id_acts_once(rt: HostRuntime) {
    let alloc = rt.alloc();
    let gem = read(&rt, alloc, GEM);
    let mut desk = PlainDesk::new(alloc);
    run(&rt, alloc, &mut desk, &gem, &ONCE);
    check_kept(&rt, alloc, &mut desk);
}

/// Installs `gem0` to `gem63`.
fn fill(rt: &impl Abort, alloc: Global, desk: &mut PlainDesk, gem: &Edition<'static>) {
    for n in 0..64u64 {
        let name = format!(in alloc; "gem{n}").expect(rt, "memory");
        install(rt, desk, name.as_str(), name.as_str(), gem);
    }
    let summary = desk.summary().expect(rt, "a summary");
    same(rt, &summary.items.len(), &64);
}

/// Commands over 64 items, and their answers.
static PAST_64: [(Asked, &str); 2] = [
    (Asked::Install("more"), "25 CatalogueFull"),
    (Asked::Install("gem63"), "65 Install gem63 #65"),
];

fn check_answer(
    rt: &impl Abort,
    alloc: Global,
    desk: &mut PlainDesk,
    gem: &Edition<'static>,
    row: (Asked, &'static str),
) {
    let (asked, answer) = row;
    let answered = answered(rt, alloc, desk, "more", &asked.command(gem));
    same_text(rt, answered.as_str(), answer);
}

#[test]
fn sixty_four_items(rt: HostRuntime) {
    let alloc = rt.alloc();
    let gem = read(&rt, alloc, GEM);
    let mut desk = PlainDesk::new(alloc);
    fill(&rt, alloc, &mut desk, &gem);
    check_answer(&rt, alloc, &mut desk, &gem, PAST_64[0]);
    check_answer(&rt, alloc, &mut desk, &gem, PAST_64[1]);
}
