// What is planned for commands, one after another.
use super::asked::{Asked, listed, push_gone, push_kept, push_refusal};
use super::files::{GEM, read};
use crate::checks::{same, same_text};
use dict_catalogue::{Command, CommandRefusal, PlanFault, PlannedChange, Summary, Verb, plan};
use dict_index::Edition;
use std::alloc::Global;
use std::mem::swap;
use std::process::Abort;

/// A command, its answer, and the items after it.
#[derive(Clone, Copy)]
struct Row(Asked, &'static str, &'static str);

/// The answer: the reply, and the editions that go; or the refusal.
fn push_answer(
    rt: &impl Abort,
    alloc: Global,
    text: &mut String,
    planned: &Result<PlannedChange, PlanFault>,
) {
    match planned {
        Ok(change) => {
            push_kept(rt, alloc, text, &change.kept);
            push_gone(rt, alloc, text, change.gone.as_slice());
        }
        Err(PlanFault::Refused(refusal)) => {
            push_refusal(rt, alloc, text, refusal.number(), refusal.name());
        }
        Err(PlanFault::Memory) => panic!(rt; "no memory"),
    }
}

/// Plans a command, puts the answer, and goes on to the summary after it.
fn step(
    rt: &impl Abort,
    alloc: Global,
    text: &mut String,
    summary: &mut Summary,
    command: &Command<'_>,
) {
    let mut planned = plan(alloc, summary, command);
    push_answer(rt, alloc, text, &planned);
    if let Ok(change) = &mut planned {
        swap(summary, &mut change.summary);
    }
}

fn check(rt: &impl Abort, alloc: Global, summary: &mut Summary, gem: &Edition<'static>, row: Row) {
    let Row(asked, answer, after) = row;
    let mut text = String::new(alloc);
    step(rt, alloc, &mut text, summary, &asked.command(gem));
    same_text(rt, text.as_str(), answer);
    let items = listed(rt, alloc, summary);
    same_text(rt, items.as_str(), after);
}

/// Plans the commands one after another from this summary on.
fn run(
    rt: &impl Abort,
    alloc: Global,
    summary: &mut Summary,
    gem: &Edition<'static>,
    rows: &[Row],
) {
    for row in rows {
        check(rt, alloc, summary, gem, *row);
    }
}

/// The same from the empty summary on, by two tables: how many installs were accepted then, and how many commands.
fn run_both(rt: &impl Abort, alloc: Global, first: &[Row], rows: &[Row]) -> (u64, u64) {
    let gem = read(rt, alloc, GEM);
    let mut summary = Summary::new(alloc);
    run(rt, alloc, &mut summary, &gem, first);
    run(rt, alloc, &mut summary, &gem, rows);
    (summary.installs, summary.accepted)
}

static ONE: [Row; 15] = [
    Row(Asked::Rollback("gem"), "21 Unknown", ""),
    Row(Asked::Retire("gem"), "21 Unknown", ""),
    Row(Asked::Install("gem"), "1 Install gem #1", "gem Gems 1; "),
    Row(Asked::Rollback("gem"), "23 NoFormer", "gem Gems 1; "),
    Row(Asked::Install("gem"), "2 Install gem #2", "gem Gems 2/1; "),
    Row(
        Asked::Rollback("gem"),
        "3 Rollback gem #1",
        "gem Gems 1/2; ",
    ),
    Row(
        Asked::Rollback("gem"),
        "4 Rollback gem #2",
        "gem Gems 2/1; ",
    ),
    Row(
        Asked::Install("gem"),
        "5 Install gem #3 -1",
        "gem Gems 3/2; ",
    ),
    Row(
        Asked::Rollback("gem"),
        "6 Rollback gem #2",
        "gem Gems 2/3; ",
    ),
    Row(
        Asked::Install("gem"),
        "7 Install gem #4 -3",
        "gem Gems 4/2; ",
    ),
    Row(Asked::Install("Gem"), "20 BadName", "gem Gems 4/2; "),
    Row(Asked::Retire("gem"), "8 Retire gem -4 -2", ""),
    Row(Asked::Install("gem"), "9 Install gem #5", "gem Gems 5; "),
    Row(Asked::Retire("gem"), "10 Retire gem -5", ""),
    Row(Asked::Retire("gem"), "21 Unknown", ""),
];

const THREE: &str = "ore Gems 1; gem Gems 2; all All +ore +gem; ";

// `ore`, `gem` and the virtual `all` of both.
static MADE: [Row; 3] = [
    Row(Asked::Install("ore"), "1 Install ore #1", "ore Gems 1; "),
    Row(
        Asked::Install("gem"),
        "2 Install gem #2",
        "ore Gems 1; gem Gems 2; ",
    ),
    Row(
        Asked::Put("all", "All", &["ore", "gem"]),
        "3 Virtual all",
        THREE,
    ),
];

static OF_THREE: [Row; 11] = [
    Row(Asked::Install("all"), "22 IsVirtual", THREE),
    Row(Asked::Rollback("all"), "22 IsVirtual", THREE),
    Row(Asked::Retire("gem"), "24 Listed", THREE),
    Row(
        Asked::Install("ore"),
        "4 Install ore #3",
        "ore Gems 3/1; gem Gems 2; all All +ore +gem; ",
    ),
    Row(
        Asked::Rollback("ore"),
        "5 Rollback ore #1",
        "ore Gems 1/3; gem Gems 2; all All +ore +gem; ",
    ),
    Row(
        Asked::Install("ruby"),
        "6 Install ruby #4",
        "ore Gems 1/3; gem Gems 2; all All +ore +gem; ruby Gems 4; ",
    ),
    Row(
        Asked::Put("all", "Both", &["gem"]),
        "7 Virtual all",
        "ore Gems 1/3; gem Gems 2; all Both +gem; ruby Gems 4; ",
    ),
    Row(
        Asked::Retire("ore"),
        "8 Retire ore -1 -3",
        "gem Gems 2; all Both +gem; ruby Gems 4; ",
    ),
    Row(
        Asked::Retire("all"),
        "9 Retire all",
        "gem Gems 2; ruby Gems 4; ",
    ),
    Row(Asked::Retire("gem"), "10 Retire gem -2", "ruby Gems 4; "),
    Row(Asked::Retire("ruby"), "11 Retire ruby -4", ""),
];

static PLACES: [Row; 9] = [
    Row(Asked::Place("gem", 3), "30 BadPlace", THREE),
    Row(Asked::Place("gem", 4_294_967_295), "30 BadPlace", THREE),
    Row(Asked::Place("zz", 3), "21 Unknown", THREE),
    Row(Asked::Place("Zz", 9), "20 BadName", THREE),
    Row(
        Asked::Place("gem", 0),
        "4 Place gem",
        "gem Gems 2; ore Gems 1; all All +ore +gem; ",
    ),
    Row(
        Asked::Place("gem", 2),
        "5 Place gem",
        "ore Gems 1; all All +ore +gem; gem Gems 2; ",
    ),
    Row(
        Asked::Place("all", 0),
        "6 Place all",
        "all All +ore +gem; ore Gems 1; gem Gems 2; ",
    ),
    Row(
        Asked::Place("ore", 1),
        "7 Place ore",
        "all All +ore +gem; ore Gems 1; gem Gems 2; ",
    ),
    Row(
        Asked::Place("all", 1),
        "8 Place all",
        "ore Gems 1; all All +ore +gem; gem Gems 2; ",
    ),
];

const MANY: &[&str] = &["zz"; 65];

static REFUSED: [Row; 17] = [
    Row(Asked::Put("gem", "Gem", &["ore"]), "32 IsRegular", THREE),
    Row(Asked::Put("gem", " Gem", &[]), "32 IsRegular", THREE),
    Row(Asked::Put("1", " Gem", &[]), "20 BadName", THREE),
    Row(Asked::Put("all", " All", &["ore"]), "29 BadTitle", THREE),
    Row(Asked::Put("all", "All\t", &[]), "29 BadTitle", THREE),
    Row(Asked::Put("all", "", &["ore"]), "29 BadTitle", THREE),
    Row(Asked::Put("all", "A\nll", &["ore"]), "29 BadTitle", THREE),
    Row(Asked::Put("all", "All", &[]), "28 MemberCount", THREE),
    Row(Asked::Put("all", "All", MANY), "28 MemberCount", THREE),
    Row(
        Asked::Put("all", "All", &["gem", "gem"]),
        "27 MemberTwice",
        THREE,
    ),
    Row(
        Asked::Put("all", "All", &["gem", "ore", "gem", "zz"]),
        "27 MemberTwice",
        THREE,
    ),
    Row(
        Asked::Put("all", "All", &["zz", "zz"]),
        "26 BadMember",
        THREE,
    ),
    Row(
        Asked::Put("all", "All", &["zz", "gem", "gem"]),
        "26 BadMember",
        THREE,
    ),
    Row(Asked::Put("mix", "Mix", &["all"]), "26 BadMember", THREE),
    Row(
        Asked::Put("mix", "Mix", &["ore", "mix"]),
        "26 BadMember",
        THREE,
    ),
    Row(Asked::Put("mix", "Mix", &[""]), "26 BadMember", THREE),
    Row(
        Asked::Put("mix", "Mix", &["gem"]),
        "4 Virtual mix",
        "ore Gems 1; gem Gems 2; all All +ore +gem; mix Mix +gem; ",
    ),
];

#[test]
fn commands_one_after_another(rt: HostRuntime) {
    for (first, rows, accepted) in [
        ([].as_slice(), ONE.as_slice(), (5, 10)),
        (MADE.as_slice(), OF_THREE.as_slice(), (4, 11)),
        (MADE.as_slice(), PLACES.as_slice(), (2, 8)),
        (MADE.as_slice(), REFUSED.as_slice(), (2, 4)),
    ] {
        same(&rt, &run_both(&rt, rt.alloc(), first, rows), &accepted);
    }
}

const LATE: &str = "ore Gems 1; gem Gems 2; all All +gem; ";

static LAST: [Row; 9] = [
    Row(
        Asked::Put("all", "All", &["gem"]),
        "9223372036854775807 Virtual all",
        LATE,
    ),
    Row(Asked::Install("gem"), "25 CatalogueFull", LATE),
    Row(Asked::Rollback("gem"), "23 NoFormer", LATE),
    Row(Asked::Retire("ore"), "25 CatalogueFull", LATE),
    Row(Asked::Retire("gem"), "24 Listed", LATE),
    Row(Asked::Place("gem", 0), "25 CatalogueFull", LATE),
    Row(Asked::Place("gem", 3), "30 BadPlace", LATE),
    Row(Asked::Put("all", "All", &["ore"]), "25 CatalogueFull", LATE),
    Row(Asked::Put("all", "All", &["zz"]), "26 BadMember", LATE),
];

/// Goes through the rows over the items of this summary, with one command left.
fn run_late(rt: &impl Abort, alloc: Global, summary: &mut Summary, gem: &Edition<'static>) {
    run(rt, alloc, summary, gem, &MADE);
    let mut late = Summary {
        items: Vec::new(alloc),
        installs: 2,
        accepted: 9_223_372_036_854_775_806,
    };
    swap(&mut late.items, &mut summary.items);
    run(rt, alloc, &mut late, gem, &LAST);
}

// A command over 64 items, its answer, and how many items there are after it.
static FULL: [(Asked, &str, usize); 11] = [
    (Asked::Install("ore"), "25 CatalogueFull", 64),
    (Asked::Install("v62"), "22 IsVirtual", 64),
    (Asked::Install("gem"), "66 Install gem #3 -1", 64),
    (Asked::Put("mix", "Mix", &["gem"]), "25 CatalogueFull", 64),
    (
        Asked::Put("mix", "Mix", &["gem", "gem"]),
        "27 MemberTwice",
        64,
    ),
    (Asked::Put("v62", "Mix", &["gem"]), "66 Virtual v62", 64),
    (Asked::Rollback("gem"), "66 Rollback gem #1", 64),
    (Asked::Retire("gem"), "24 Listed", 64),
    (Asked::Retire("v0"), "66 Retire v0", 63),
    (Asked::Place("v0", 63), "66 Place v0", 64),
    (Asked::Place("v0", 64), "30 BadPlace", 64),
];

/// Makes `gem` with a former edition, and 63 virtual items.
fn fill(rt: &impl Abort, alloc: Global, summary: &mut Summary, gem: &Edition<'static>) {
    let mut text = String::new(alloc);
    let install = Asked::Install("gem").command(gem);
    step(rt, alloc, &mut text, summary, &install);
    step(rt, alloc, &mut text, summary, &install);
    for n in 0u8..63 {
        let name = format!(in alloc; "v{n}").expect(rt, "memory");
        let command = Command::PutVirtual {
            name: name.as_str(),
            title: "V",
            members: &["gem"],
        };
        step(rt, alloc, &mut text, summary, &command);
    }
}

/// What is answered to a command, and how many items there are after the change, or 64 where there is none.
fn told_full(
    rt: &impl Abort,
    alloc: Global,
    summary: &Summary,
    command: &Command<'_>,
) -> (String, usize) {
    let mut text = String::new(alloc);
    let planned = plan(alloc, summary, command);
    push_answer(rt, alloc, &mut text, &planned);
    let count = match &planned {
        Ok(change) => change.summary.items.len(),
        Err(_) => 64,
    };
    (text, count)
}

fn check_full(
    rt: &impl Abort,
    alloc: Global,
    summary: &Summary,
    gem: &Edition<'static>,
    row: (Asked, &'static str, usize),
) {
    let (asked, answer, count) = row;
    let (text, found) = told_full(rt, alloc, summary, &asked.command(gem));
    same_text(rt, text.as_str(), answer);
    same(rt, &found, &count);
}

fn run_full(rt: &impl Abort, alloc: Global, summary: &mut Summary, gem: &Edition<'static>) {
    fill(rt, alloc, summary, gem);
    for row in &FULL {
        check_full(rt, alloc, summary, gem, *row);
    }
}

#[test]
fn where_the_catalogue_is_full(rt: HostRuntime) {
    let gem = read(&rt, rt.alloc(), GEM);
    let mut late = Summary::new(rt.alloc());
    run_late(&rt, rt.alloc(), &mut late, &gem);
    let mut full = Summary::new(rt.alloc());
    run_full(&rt, rt.alloc(), &mut full, &gem);
}

static REFUSALS: [(CommandRefusal, u8, &str); 13] = [
    (CommandRefusal::BadName, 20, "BadName"),
    (CommandRefusal::Unknown, 21, "Unknown"),
    (CommandRefusal::IsVirtual, 22, "IsVirtual"),
    (CommandRefusal::NoFormer, 23, "NoFormer"),
    (CommandRefusal::Listed, 24, "Listed"),
    (CommandRefusal::CatalogueFull, 25, "CatalogueFull"),
    (CommandRefusal::BadMember, 26, "BadMember"),
    (CommandRefusal::MemberTwice, 27, "MemberTwice"),
    (CommandRefusal::MemberCount, 28, "MemberCount"),
    (CommandRefusal::BadTitle, 29, "BadTitle"),
    (CommandRefusal::BadPlace, 30, "BadPlace"),
    (CommandRefusal::BadRequestId, 31, "BadRequestId"),
    (CommandRefusal::IsRegular, 32, "IsRegular"),
];

#[test]
fn refusals_by_number_and_name(rt: HostRuntime) {
    for (refusal, number, name) in &REFUSALS {
        same(&rt, &refusal.number(), number);
        same_text(&rt, refusal.name(), *name);
    }
}

#[test]
fn what_a_command_is_about(rt: HostRuntime) {
    let command = Command::Place {
        name: "gem",
        place: 2,
    };
    same_text(&rt, command.target(), "gem");
    same(&rt, &command.verb(), &Verb::Place);
    command.is_lawful();
}
