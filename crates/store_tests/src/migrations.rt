//! Files that stock `sqlite3` wrote are opened, those of schemas 1 to 5 by making the tables of schema 6: they have the same catalogue.
use crate::steps::{Row, Step, over_memory};
use std::alloc::Global;
use std::process::Abort;
use store_fixtures::{Asked, CAPITALS, Older, PARTED, SHOWN, Source, older_files};

const LISTED: &str = "ore Ores 1; gem Gems 2; all All +ore +gem; ";

// The commands by which such a file came about.
const MADE: &[Row] = &[
    Row(
        "r1",
        Asked::Install("ore", Source::Ores),
        "1 Install ore Some(1)",
        "ore Ores 1; ",
    ),
    Row(
        "r2",
        Asked::Install("gem", Source::Gems),
        "2 Install gem Some(2)",
        "ore Ores 1; gem Gems 2; ",
    ),
    Row(
        "r3",
        Asked::Put("all", "All", &["ore", "gem"]),
        "3 Virtual all None",
        LISTED,
    ),
];

// Replies that were kept stay so, and what comes next is the next.
const REPEATED: &[Row] = &[
    Row("r1", Asked::Retire("all"), "1 Install ore Some(1)", LISTED),
    Row("r2", Asked::Retire("all"), "2 Install gem Some(2)", LISTED),
    Row("r3", Asked::Retire("all"), "3 Virtual all None", LISTED),
    Row("x", Asked::Rollback("gem"), "23", LISTED),
    Row(
        "r4",
        Asked::Install("gem", Source::More),
        "4 Install gem Some(3)",
        "ore Ores 1; gem Gems 3/2; all All +ore +gem; ",
    ),
];

// What a migration leaves of others, and makes.
const LEFT: &[(&str, i64)] = &[
    ("SELECT version FROM mark", 6),
    ("SELECT installs FROM mark", 2),
    ("SELECT count(*) FROM mark", 1),
    ("SELECT count(*) FROM edition", 2),
    ("SELECT count(*) FROM dictcat_part", 4),
    ("SELECT count(*) FROM dictcat_part WHERE number = 0", 4),
    (
        "SELECT count(*) FROM dictcat_part WHERE edition = 1 AND file = 0 AND octets = x'69726f6e0958094c0a'",
        1,
    ),
    (
        "SELECT count(*) FROM dictcat_part WHERE edition = 2 AND file = 0 AND octets = x'6f70616c095a09500a46697265204f70616c095a09500a646f74096f09460a'",
        1,
    ),
    (
        "SELECT count(*) FROM dictcat_part WHERE edition = 1 AND file = 1 AND octets = x'30302d64617461626173652d73686f72740a4f7265730a69726f6e0a20206f72650a'",
        1,
    ),
    (
        "SELECT count(*) FROM sqlite_schema WHERE name IN ('entry', 'word', 'gram', 'by_headword')",
        0,
    ),
    ("SELECT count(*) FROM kept", 3),
    (
        "SELECT count(*) FROM sqlite_schema WHERE name LIKE 'dictcat_%'",
        1,
    ),
    (
        "SELECT count(*) FROM sqlite_schema WHERE name IN ('last', 'others')",
        2,
    ),
    ("SELECT count(*) FROM extra WHERE a = 'its own'", 1),
];

const OTHERS: &str =
    "CREATE TABLE extra (a TEXT NOT NULL UNIQUE) STRICT; INSERT INTO extra VALUES ('its own'); CREATE VIEW last AS SELECT a FROM extra";

// Of an index over the old table nothing is left, and one over another stays.
const INDEXES: &str =
    "CREATE INDEX by_headword ON entry (headword); CREATE INDEX others ON item (kind)";

// In the first file, an index that goes with the old table has a name that was the product's. In the others, what an older
// version has derived is made wrong, which nobody looks at.
static CHANGED: [&str; 4] = [
    "CREATE INDEX dictcat_entry_key ON entry (headword)",
    "UPDATE entry SET key = x'00', rkey = x'ff'; DELETE FROM gram; INSERT INTO word VALUES (9, x'61', 0), (1, x'61', 7)",
    "UPDATE entry SET key = x'00', rkey = x'ff'; DELETE FROM gram; INSERT INTO word VALUES (9, x'61', 0), (1, x'61', 7)",
    "UPDATE entry SET key = x'00', rkey = x'ff'; DELETE FROM gram; INSERT INTO word VALUES (9, x'61', 0), (1, x'61', 7)",
];

const LOOKED_UP: &str =
    "DEFINE ! opal\r\nDEFINE all opal\r\nDEFINE * opal\r\nMATCH ! substring o\r\nMATCH * substring o\r\nSHOW DB\r\nSHOW INFO all\r\nSHOW INFO gem\r\n";

const ANSWERED: &str =
    "150 1 definitions retrieved\r\n151 \"opal\" gem \"Gems\"\r\nopal\r\n  a stone\r\n.\r\n250 ok\r\n\
     150 1 definitions retrieved\r\n151 \"opal\" gem \"Gems\"\r\nopal\r\n  a stone\r\n.\r\n250 ok\r\n\
     150 1 definitions retrieved\r\n151 \"opal\" gem \"Gems\"\r\nopal\r\n  a stone\r\n.\r\n250 ok\r\n\
     152 1 matches found\r\nore \"iron\"\r\n.\r\n250 ok\r\n\
     152 4 matches found\r\nore \"iron\"\r\ngem \"opal\"\r\ngem \"Fire Opal\"\r\ngem \"dot\"\r\n.\r\n250 ok\r\n\
     110 3 databases present\r\nore \"Ores\"\r\ngem \"Gems\"\r\nall \"All\"\r\n.\r\n250 ok\r\n\
     112 database information\r\nore \"Ores\"\r\ngem \"Gems\"\r\n.\r\n250 ok\r\n\
     112 database information\r\n.\r\n250 ok\r\ninput end";

const ETE: &[Row] = &[Row(
    "r1",
    Asked::Install("ete", Source::Words),
    "1 Install ete Some(1)",
    "ete Mots 1; ",
)];

// A headword in capitals stays as it is.
const ETE_LEFT: &[(&str, i64)] = &[
    ("SELECT version FROM mark", 6),
    ("SELECT count(*) FROM dictcat_part", 2),
    (
        "SELECT count(*) FROM dictcat_part WHERE file = 0 AND octets = x'c38954c389095a09480a'",
        1,
    ),
];

static CAPITAL: [Step; 5] = [
    Step::Batch(CAPITALS),
    Step::Made(ETE),
    Step::Speak(
        "DEFINE ete été\r\n",
        "150 1 definitions retrieved\r\n151 \"ÉTÉ\" ete \"Mots\"\r\nsaison\r\n.\r\n250 ok\r\ninput end",
    ),
    Step::Numbers(ETE_LEFT),
    Step::Keep(&[]),
];

const GEMS_TWICE: &[Row] = &[
    Row(
        "r1",
        Asked::Install("gem", Source::Gems),
        "1 Install gem Some(1)",
        "gem Gems 1; ",
    ),
    Row(
        "r2",
        Asked::Install("gem", Source::More),
        "2 Install gem Some(2)",
        "gem Gems 2/1; ",
    ),
];

// What is shown of an entry of schema 4 comes along, and so does the former edition.
const SHOWN_LEFT: &[(&str, i64)] = &[
    ("SELECT version FROM mark", 6),
    ("SELECT count(*) FROM edition", 2),
    ("SELECT count(*) FROM dictcat_part", 4),
    (
        "SELECT count(*) FROM dictcat_part WHERE edition = 2 AND file = 0 AND octets = x'6f70616c094109430a46697265204f70616c09430943094f70616c2c20666972650a6f70616c2066697265094509430ac38974c3a9094709430a61626364094909430a62636420616263094b09430a6f70616c094d09430a53747261c39f65094f09430a61f0b18d8a095109430a632b2b095309430a2b202b095509430a61095709430a'",
        1,
    ),
];

static FOURTH: [Step; 6] = [
    Step::Batch(SHOWN),
    Step::Batch(
        "UPDATE entry SET key = x'00', rkey = x'ff'; DELETE FROM gram; INSERT INTO word VALUES (9, x'61', 0)",
    ),
    Step::Made(GEMS_TWICE),
    Step::Open(&[]),
    Step::Numbers(SHOWN_LEFT),
    Step::Keep(&[]),
];

// Of a file of schema 5 the mark alone is written anew.
static FIFTH: [Step; 5] = [
    Step::Batch(PARTED),
    Step::Made(GEMS_TWICE),
    Step::Open(&[]),
    Step::Numbers(SHOWN_LEFT),
    Step::Keep(&[]),
];

// Parts of no edition: of one that went, of the one that comes next, and of files and numbers that no edition has.
const ORPHANS: &str = "UPDATE mark SET version = 6; \
     INSERT INTO dictcat_part VALUES (3, 1, 0, x'61'), (3, 1, 300, x'62'), (3, 7, 0, x''), (9, 0, 0, x'ff'), (-4, 0, 0, x'61')";

const MORE: &[Row] = &[Row(
    "r3",
    Asked::Install("gem", Source::More),
    "3 Install gem Some(3)",
    "gem Gems 3/2; ",
)];

// What is there of an edition that is installed where others' parts stood, and of the one that went.
const REPLACED: &[(&str, i64)] = &[
    ("SELECT count(*) FROM edition", 2),
    ("SELECT count(*) FROM dictcat_part WHERE edition = 3", 2),
    ("SELECT count(*) FROM dictcat_part WHERE edition = 1", 2),
    ("SELECT count(*) FROM dictcat_part WHERE edition = 9", 1),
];

const SETTLED: &[(&str, i64)] = &[
    ("SELECT count(*) FROM dictcat_part WHERE edition > 0", 4),
    ("SELECT count(*) FROM dictcat_part WHERE edition = 1", 0),
    ("SELECT count(*) FROM dictcat_part WHERE edition = 9", 0),
];

// Parts of no edition are let be as the file is opened; an edition that is installed comes in place of those of its number, and the others
// are taken out behind commands.
static BESIDE: [Step; 9] = [
    Step::Batch(PARTED),
    Step::Batch(ORPHANS),
    Step::Made(GEMS_TWICE),
    Step::Keep(&[]),
    Step::Open(MORE),
    Step::Numbers(REPLACED),
    Step::Settle,
    Step::Numbers(SETTLED),
    Step::Keep(&[]),
];

// What is done over a file of an older schema, which these texts make, and this one changes.
fn steps_over(texts: &Older, changed: &'static str) -> [Step; 12] {
    [
        Step::Batch(OTHERS),
        Step::Batch(texts[0]),
        Step::Batch(texts[1]),
        Step::Batch(texts[2]),
        Step::Batch(INDEXES),
        Step::Batch(changed),
        Step::Made(MADE),
        Step::Speak(LOOKED_UP, ANSWERED),
        Step::Numbers(LEFT),
        Step::Keep(&[]),
        Step::Open(REPEATED),
        Step::Keep(&[]),
    ]
}

// Each is changed so.
fn over_each(rt: &impl Abort, alloc: Global) {
    for (texts, changed) in older_files().iter().zip(CHANGED.iter()) {
        over_memory(rt, alloc, &steps_over(texts, *changed));
    }
}

#[test]
fn files_of_others(rt: HostRuntime) {
    over_each(&rt, rt.alloc());
    for steps in [&CAPITAL[..], &FOURTH[..], &FIFTH[..], &BESIDE[..]] {
        over_memory(&rt, rt.alloc(), steps);
    }
}
