//! The same commands over lists and over a database.

use crate::steps::{Row, Step, over_memory};
use std::alloc::Global;
use std::process::Abort;
use store_fixtures::{Asked, Source};

// Commands by which several catalogues begin.
const GEM: Row = Row(
    "a",
    Asked::Install("gem", Source::Gems),
    "1 Install gem Some(1)",
    "gem Gems 1; ",
);

const ORES_OVER_GEM: Row = Row(
    "b",
    Asked::Install("gem", Source::Ores),
    "2 Install gem Some(2)",
    "gem Ores 2/1; ",
);

const GEM_AGAIN: Row = Row(
    "c",
    Asked::Rollback("gem"),
    "3 Rollback gem Some(1)",
    "gem Gems 1/2; ",
);

const ORE: Row = Row(
    "a",
    Asked::Install("ore", Source::Ores),
    "1 Install ore Some(1)",
    "ore Ores 1; ",
);

const GEM_BEHIND_ORE: Row = Row(
    "b",
    Asked::Install("gem", Source::Gems),
    "2 Install gem Some(2)",
    "ore Ores 1; gem Gems 2; ",
);

const LIST: Row = Row(
    "c",
    Asked::Put("all", "All", &["ore", "gem"]),
    "3 Virtual all None",
    UNCHANGED,
);

const UNCHANGED: &str = "ore Ores 1; gem Gems 2; all All +ore +gem; ";

const SWAPPED: &[Row] = &[
    GEM,
    Row("x", Asked::Rollback("gem"), "23", "gem Gems 1; "),
    Row(
        "b",
        Asked::Install("gem", Source::More),
        "2 Install gem Some(2)",
        "gem Gems 2/1; ",
    ),
    GEM_AGAIN,
    Row(
        "d",
        Asked::Rollback("gem"),
        "4 Rollback gem Some(2)",
        "gem Gems 2/1; ",
    ),
    Row(
        "e",
        Asked::Install("gem", Source::Ores),
        "5 Install gem Some(3)",
        "gem Ores 3/2; ",
    ),
    Row(
        "a",
        Asked::Retire("gem"),
        "1 Install gem Some(1)",
        "gem Ores 3/2; ",
    ),
    Row(
        "f",
        Asked::Rollback("gem"),
        "6 Rollback gem Some(2)",
        "gem Gems 2/3; ",
    ),
    Row(
        "g",
        Asked::Install("gem", Source::Alike),
        "7 Install gem Some(4)",
        "gem Gems 4/2; ",
    ),
];

const ONCE: &[Row] = &[
    GEM,
    Row(
        "a",
        Asked::Install("ore", Source::Ores),
        "1 Install gem Some(1)",
        "gem Gems 1; ",
    ),
    Row("e", Asked::Rollback("gem"), "23", "gem Gems 1; "),
    Row("e", Asked::Retire("gem"), "2 Retire gem None", ""),
    Row("e", Asked::Rollback("gem"), "2 Retire gem None", ""),
];

const ORDERED: &[Row] = &[
    ORE,
    GEM_BEHIND_ORE,
    LIST,
    Row(
        "d",
        Asked::Retire("gem"),
        "24",
        "ore Ores 1; gem Gems 2; all All +ore +gem; ",
    ),
    Row(
        "d",
        Asked::Place("gem", 0),
        "4 Place gem None",
        "gem Gems 2; ore Ores 1; all All +ore +gem; ",
    ),
    Row(
        "e",
        Asked::Put("all", "Gems alone", &["gem"]),
        "5 Virtual all None",
        "gem Gems 2; ore Ores 1; all Gems alone +gem; ",
    ),
    Row(
        "f",
        Asked::Retire("all"),
        "6 Retire all None",
        "gem Gems 2; ore Ores 1; ",
    ),
    Row(
        "g",
        Asked::Retire("gem"),
        "7 Retire gem None",
        "ore Ores 1; ",
    ),
    Row("h", Asked::Retire("ore"), "8 Retire ore None", ""),
];

const KEPT: &[Row] = &[
    GEM,
    ORES_OVER_GEM,
    GEM_AGAIN,
    Row(
        "d",
        Asked::Put("all", "All", &["gem"]),
        "4 Virtual all None",
        "gem Gems 1/2; all All +gem; ",
    ),
    Row(
        "e",
        Asked::Place("all", 0),
        "5 Place all None",
        "all All +gem; gem Gems 1/2; ",
    ),
    Row(
        "f",
        Asked::Retire("all"),
        "6 Retire all None",
        "gem Gems 1/2; ",
    ),
];

/// Two databases, and a list of both.
pub(crate) const CATALOGUE: &[Row] = &[ORE, GEM_BEHIND_ORE, LIST];

// Commands that are refused, and ids that are kept.
const NOTHING: &[Row] = &[
    Row("x", Asked::Install("Gem", Source::Gems), "20", UNCHANGED),
    Row("x", Asked::Install("all", Source::Gems), "22", UNCHANGED),
    Row("x", Asked::Rollback("Gem"), "20", UNCHANGED),
    Row("x", Asked::Rollback("tin"), "21", UNCHANGED),
    Row("x", Asked::Rollback("all"), "22", UNCHANGED),
    Row("x", Asked::Rollback("gem"), "23", UNCHANGED),
    Row("x", Asked::Retire("Gem"), "20", UNCHANGED),
    Row("x", Asked::Retire("tin"), "21", UNCHANGED),
    Row("x", Asked::Retire("gem"), "24", UNCHANGED),
    Row("x", Asked::Put("Gem", "Gem", &["gem"]), "20", UNCHANGED),
    Row("x", Asked::Put("gem", "Gem", &["gem"]), "32", UNCHANGED),
    Row("x", Asked::Put("all", " All", &["gem"]), "29", UNCHANGED),
    Row("x", Asked::Put("all", "All", &[]), "28", UNCHANGED),
    Row("x", Asked::Put("all", "All", &["zz"; 65]), "28", UNCHANGED),
    Row("x", Asked::Put("mix", "Mix", &["all"]), "26", UNCHANGED),
    Row(
        "x",
        Asked::Put("all", "All", &["gem", "gem"]),
        "27",
        UNCHANGED,
    ),
    Row("x", Asked::Place("tin", 0), "21", UNCHANGED),
    Row("x", Asked::Place("gem", 3), "30", UNCHANGED),
    Row("no id", Asked::Retire("all"), "31", UNCHANGED),
    Row(
        "a",
        Asked::Retire("all"),
        "1 Install ore Some(1)",
        UNCHANGED,
    ),
    Row(
        "b",
        Asked::Retire("all"),
        "2 Install gem Some(2)",
        UNCHANGED,
    ),
    Row("c", Asked::Retire("all"), "3 Virtual all None", UNCHANGED),
];

const ONE: &[Row] = &[GEM];

// What a new catalogue has.
const NEW: &[(&str, i64)] = &[
    (
        "SELECT count(*) FROM mark WHERE id = 1 AND magic = 'dictcat' AND version = 6 AND installs = 0",
        1,
    ),
    ("SELECT count(*) FROM mark", 1),
    ("SELECT count(*) FROM item", 0),
    ("SELECT count(*) FROM member", 0),
    ("SELECT count(*) FROM edition", 0),
    ("SELECT count(*) FROM dictcat_part", 0),
    ("SELECT count(*) FROM kept", 0),
];

// An edition goes at the third install. Its parts stay behind, and are taken out later.
const INSTALLED: &[Row] = &[
    GEM,
    ORES_OVER_GEM,
    GEM_AGAIN,
    Row(
        "d",
        Asked::Install("gem", Source::More),
        "4 Install gem Some(3)",
        "gem Gems 3/1; ",
    ),
];

const LEFT: &[(&str, i64)] = &[
    ("SELECT count(*) FROM edition", 2),
    ("SELECT count(*) FROM dictcat_part", 6),
];

const ROWS: &[(&str, i64)] = &[
    ("SELECT installs FROM mark", 3),
    ("SELECT current FROM item", 3),
    ("SELECT former FROM item", 1),
    ("SELECT count(*) FROM edition", 2),
    ("SELECT count(*) FROM dictcat_part", 4),
    (
        "SELECT count(*) FROM dictcat_part WHERE edition = 1 AND file = 0 AND number = 0 AND octets = x'6f70616c095a09500a46697265204f70616c095a09500a646f74096f09460a'",
        1,
    ),
    (
        "SELECT count(*) FROM dictcat_part WHERE edition = 3 AND file = 0 AND number = 0 AND octets = x'6f70616c095a09430a46697265204f70616c09620943094f70616c2c20666972650a6f70616c2066697265096409430ac38974c3a9096609430a61626364096809430a62636420616263096a09430a6f70616c096c09430a53747261c39f65096e09430a61f0b18d8a097009430a632b2b097209430a2b202b097409430a61097609430a'",
        1,
    ),
    (
        "SELECT length(octets) FROM dictcat_part WHERE edition = 3 AND file = 1 AND number = 0",
        59,
    ),
    ("SELECT count(*) FROM kept", 4),
];

const FOUR: &[Row] = &[
    ORE,
    GEM_BEHIND_ORE,
    Row(
        "c",
        Asked::Install("more", Source::More),
        "3 Install more Some(3)",
        "ore Ores 1; gem Gems 2; more Gems 3; ",
    ),
    Row(
        "d",
        Asked::Install("alike", Source::Alike),
        "4 Install alike Some(4)",
        "ore Ores 1; gem Gems 2; more Gems 3; alike Gems 4; ",
    ),
];

const WORDS: &[Row] = &[Row(
    "a",
    Asked::Install("ete", Source::Words),
    "1 Install ete Some(1)",
    "ete Mots 1; ",
)];

// What is done in new databases, each run in one of its own.
static COMMANDS: [&[Step]; 5] = [
    // It is opened again after its commands.
    &[Step::Make(SWAPPED), Step::Open(&[]), Step::Keep(&[])],
    &[Step::Make(ONCE), Step::Open(&[]), Step::Keep(&[])],
    &[Step::Make(ORDERED), Step::Open(&[]), Step::Keep(&[])],
    &[Step::Make(KEPT), Step::Open(&[]), Step::Keep(&[])],
    &[Step::Make(CATALOGUE), Step::Keep(NOTHING)],
];

static TABLES: [&[Step]; 3] = [
    &[Step::Make(ONE), Step::Fill],
    &[
        Step::Make(&[]),
        Step::Numbers(NEW),
        Step::Open(INSTALLED),
        Step::Numbers(LEFT),
        Step::Settle,
        Step::Numbers(ROWS),
    ],
    &[Step::Make(FOUR), Step::Look, Step::Look],
];

static SESSIONS: [&[Step]; 3] = [
    &[
        Step::Make(ONE),
        Step::Speak(
            "DEFINE gem OPAL\r\nQUIT\r\n",
            "150 1 definitions retrieved\r\n151 \"opal\" gem \"Gems\"\r\nopal\r\n  a stone\r\n.\r\n250 ok\r\n221 closing connection\r\nquit",
        ),
        Step::Speak(
            "SHOW DB\r\n",
            "110 1 databases present\r\ngem \"Gems\"\r\n.\r\n250 ok\r\ninput end",
        ),
        Step::Cut,
    ],
    &[
        Step::Make(WORDS),
        Step::Speak(
            "DEFINE ete été\r\nMATCH ete suffix é\r\n",
            "150 1 definitions retrieved\r\n151 \"ÉTÉ\" ete \"Mots\"\r\nsaison\r\n.\r\n250 ok\r\n152 1 matches found\r\nete \"ÉTÉ\"\r\n.\r\n250 ok\r\ninput end",
        ),
        Step::Open(&[]),
        Step::Open(&[]),
    ],
    &[
        Step::Speak("SHOW DB\r\n", "no catalogue"),
        Step::Make(ONE),
        Step::Open(&[]),
        Step::Open(&[]),
    ],
];

// Does the steps of each run in a new database of its own.
fn over_each(rt: &impl Abort, alloc: Global, runs: &[&[Step]]) {
    for steps in runs {
        over_memory(rt, alloc, *steps);
    }
}

#[test]
fn commands_one_after_another(rt: HostRuntime) {
    over_each(&rt, rt.alloc(), &COMMANDS);
}

#[test]
fn tables_and_lookups(rt: HostRuntime) {
    over_each(&rt, rt.alloc(), &TABLES);
}

#[test]
fn sessions_over_a_database(rt: HostRuntime) {
    over_each(&rt, rt.alloc(), &SESSIONS);
}

static MANY: [Step; 2] = [Step::Make(&[]), Step::Many];

#[test]
fn lookups_in_many_entries(rt: HostRuntime) {
    over_memory(&rt, rt.alloc(), &MANY);
}
