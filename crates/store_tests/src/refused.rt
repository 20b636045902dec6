//! Databases in which no store is made, and files that aren't opened: nothing of them changes.
use crate::commands::CATALOGUE;
use crate::steps::{Row, Step, over_memory};
use dict_desk::Fault;
use std::alloc::Global;
use std::process::Abort;
use store_fixtures::{Asked, PLAIN, SHARED};

// Each of these takes a name, or refers to one, that a store needs.
const IN_USE: &[(&str, Fault)] = &[
    ("CREATE TABLE kept (a TEXT) STRICT", Fault::NotACatalogue),
    ("CREATE TABLE Entry (a TEXT) STRICT", Fault::NotACatalogue),
    ("CREATE TABLE Word (a TEXT) STRICT", Fault::NotACatalogue),
    (
        "CREATE TABLE dictcat_more (a TEXT) STRICT",
        Fault::NotACatalogue,
    ),
    (
        "CREATE TABLE others (a TEXT) STRICT; CREATE INDEX entry ON others (a)",
        Fault::NotACatalogue,
    ),
    (
        "CREATE TABLE others (a TEXT REFERENCES item (name)) STRICT",
        Fault::NotACatalogue,
    ),
    (
        "CREATE TABLE others (a TEXT REFERENCES dictcat_part (a)) STRICT",
        Fault::NotACatalogue,
    ),
];

// Each of these makes a file that is refused.
const STATEMENTS: &[(&str, Fault)] = &[
    // Its items and lists.
    ("UPDATE item SET place = 9 WHERE place = 2", Fault::Damaged),
    ("UPDATE item SET kind = 2 WHERE place = 0", Fault::Damaged),
    (
        "UPDATE item SET current = 2 WHERE place = 0",
        Fault::Damaged,
    ),
    ("UPDATE item SET former = 3 WHERE place = 0", Fault::Damaged),
    (
        "UPDATE member SET name = 'tin' WHERE name = 'gem'",
        Fault::Damaged,
    ),
    (
        "UPDATE member SET ord = 7 WHERE name = 'gem'",
        Fault::Damaged,
    ),
    ("DELETE FROM member WHERE ord = 0", Fault::Damaged),
    (
        "INSERT INTO member VALUES ('gem', 0, 'gem')",
        Fault::Damaged,
    ),
    // Its editions.
    ("DELETE FROM edition WHERE number = 1", Fault::Damaged),
    (
        "INSERT INTO edition VALUES (3, 'gem', 'Gems', '')",
        Fault::Damaged,
    ),
    (
        "UPDATE edition SET owner = 'tin' WHERE number = 2",
        Fault::Damaged,
    ),
    (
        "UPDATE edition SET owner = 'all' WHERE number = 2",
        Fault::Damaged,
    ),
    (
        "UPDATE edition SET title = ' Gems' WHERE number = 2",
        Fault::Damaged,
    ),
    // The lines of an index: the last without its end, none, two and five columns, numbers that are spelled otherwise, negative or past 64^6,
    // a reserved headword and none, a body past the text, and one from the midst of a line.
    (
        "UPDATE dictcat_part SET octets = x'6f70616c095a09500a46697265204f70616c095a09500a646f74096f0946' WHERE edition = 2 AND file = 0",
        Fault::Damaged,
    ),
    (
        "UPDATE dictcat_part SET octets = x'0a6f70616c095a09500a46697265204f70616c095a09500a646f74096f09460a' WHERE edition = 2 AND file = 0",
        Fault::Damaged,
    ),
    (
        "UPDATE dictcat_part SET octets = x'6f70616c095a0a46697265204f70616c095a09500a646f74096f09460a' WHERE edition = 2 AND file = 0",
        Fault::Damaged,
    ),
    (
        "UPDATE dictcat_part SET octets = x'6f70616c095a0950094f70616c090a46697265204f70616c095a09500a646f74096f09460a' WHERE edition = 2 AND file = 0",
        Fault::Damaged,
    ),
    (
        "UPDATE dictcat_part SET octets = x'6f70616c09415a09500a46697265204f70616c095a09500a646f74096f09460a' WHERE edition = 2 AND file = 0",
        Fault::Damaged,
    ),
    (
        "UPDATE dictcat_part SET octets = x'6f70616c095a0941500a46697265204f70616c095a09500a646f74096f09460a' WHERE edition = 2 AND file = 0",
        Fault::Damaged,
    ),
    (
        "UPDATE dictcat_part SET octets = x'6f70616c095a090a46697265204f70616c095a09500a646f74096f09460a' WHERE edition = 2 AND file = 0",
        Fault::Damaged,
    ),
    (
        "UPDATE dictcat_part SET octets = x'6f70616c092d5a09500a46697265204f70616c095a09500a646f74096f09460a' WHERE edition = 2 AND file = 0",
        Fault::Damaged,
    ),
    (
        "UPDATE dictcat_part SET octets = x'6f70616c09414141414141415a09500a46697265204f70616c095a09500a646f74096f09460a' WHERE edition = 2 AND file = 0",
        Fault::Damaged,
    ),
    (
        "UPDATE dictcat_part SET octets = x'30302d64617461626173652d696e666f095a09500a46697265204f70616c095a09500a646f74096f09460a' WHERE edition = 2 AND file = 0",
        Fault::Damaged,
    ),
    (
        "UPDATE dictcat_part SET octets = x'095a09500a46697265204f70616c095a09500a646f74096f09460a' WHERE edition = 2 AND file = 0",
        Fault::Damaged,
    ),
    (
        "UPDATE dictcat_part SET octets = x'6f70616c095a094241410a46697265204f70616c095a09500a646f74096f09460a' WHERE edition = 2 AND file = 0",
        Fault::Damaged,
    ),
    (
        "UPDATE dictcat_part SET octets = x'6f7061ff095a09500a46697265204f70616c095a09500a646f74096f09460a' WHERE edition = 2 AND file = 0",
        Fault::Damaged,
    ),
    // What is shown: the headword, nothing, and too long a text.
    (
        "UPDATE dictcat_part SET octets = x'6f70616c095a0950096f70616c0a46697265204f70616c095a09500a646f74096f09460a' WHERE edition = 2 AND file = 0",
        Fault::Damaged,
    ),
    (
        "UPDATE dictcat_part SET octets = x'6f70616c095a0950090a46697265204f70616c095a09500a646f74096f09460a' WHERE edition = 2 AND file = 0",
        Fault::Damaged,
    ),
    (
        "UPDATE dictcat_part SET octets = x'6f70616c095a095009787878787878787878787878787878787878787878787878787878787878787878787878787878787878787878787878787878787878787878787878787878787878787878787878787878787878787878787878787878787878787878787878787878787878787878787878787878787878787878787878787878787878787878787878787878787878787878787878787878787878787878787878787878787878787878787878787878787878787878787878787878787878787878787878787878787878787878787878787878787878787878787878787878787878787878787878787878787878787878787878787878787878787878787878787878780a46697265204f70616c095a09500a646f74096f09460a' WHERE edition = 2 AND file = 0",
        Fault::Damaged,
    ),
    // The parts: one missing, empty, of a number that isn't the next, of a third file, in schema 5 of no edition; a text whose body is none.
    (
        "DELETE FROM dictcat_part WHERE edition = 2 AND file = 1",
        Fault::Damaged,
    ),
    (
        "UPDATE dictcat_part SET octets = x'' WHERE edition = 2 AND file = 1",
        Fault::Damaged,
    ),
    (
        "UPDATE dictcat_part SET octets = x'' WHERE edition = 2 AND file = 0",
        Fault::Damaged,
    ),
    (
        "UPDATE dictcat_part SET number = 1 WHERE edition = 2 AND file = 1",
        Fault::Damaged,
    ),
    (
        "UPDATE dictcat_part SET number = -1 WHERE edition = 2 AND file = 0",
        Fault::Damaged,
    ),
    (
        "INSERT INTO dictcat_part VALUES (2, 1, 1, x'61')",
        Fault::Damaged,
    ),
    (
        "INSERT INTO dictcat_part VALUES (2, 0, 1, x'61')",
        Fault::Damaged,
    ),
    (
        "INSERT INTO dictcat_part VALUES (2, 2, 0, x'61')",
        Fault::Damaged,
    ),
    (
        "INSERT INTO dictcat_part VALUES (2, -1, 0, x'61')",
        Fault::Damaged,
    ),
    (
        "UPDATE mark SET version = 5; INSERT INTO dictcat_part VALUES (9, 0, 0, x'61')",
        Fault::Damaged,
    ),
    (
        "UPDATE dictcat_part SET octets = x'30302d64617461626173652d73686f72740a202047656d730a6f70616c0a202061207374ff6e650a2e646f740a' WHERE edition = 2 AND file = 1",
        Fault::Damaged,
    ),
    // The replies that are kept, and the mark.
    (
        "UPDATE kept SET number = 9 WHERE number = 2",
        Fault::Damaged,
    ),
    (
        "UPDATE kept SET verb = 'bring' WHERE number = 2",
        Fault::Damaged,
    ),
    ("UPDATE mark SET installs = 3", Fault::Damaged),
    // The tables and their indexes.
    ("DROP TABLE kept", Fault::Damaged),
    ("DROP TABLE dictcat_part", Fault::Damaged),
    (
        "CREATE UNIQUE INDEX more ON edition (title)",
        Fault::Damaged,
    ),
    (
        "DROP TABLE dictcat_part; CREATE TABLE dictcat_part (edition INTEGER NOT NULL, file INTEGER NOT NULL, number INTEGER NOT NULL, octets BLOB NOT NULL) STRICT",
        Fault::Damaged,
    ),
    (
        "CREATE TABLE others (a TEXT REFERENCES dictcat_part (a)) STRICT",
        Fault::Damaged,
    ),
    (
        "DROP TABLE member; CREATE TABLE member (owner TEXT NOT NULL, ord INTEGER NOT NULL, name TEXT NOT NULL, PRIMARY KEY (owner, ord)) STRICT; INSERT INTO member VALUES ('all', 0, 'ore'), ('all', 1, 'gem')",
        Fault::Damaged,
    ),
    // Whose tables they are.
    ("UPDATE mark SET version = 1", Fault::Damaged),
    ("UPDATE mark SET version = 2", Fault::Damaged),
    ("UPDATE mark SET version = 3", Fault::Damaged),
    ("UPDATE mark SET version = 4", Fault::Damaged),
    ("UPDATE mark SET version = 7", Fault::NewerSchema),
    ("UPDATE mark SET version = 9", Fault::NewerSchema),
    ("UPDATE mark SET version = 0", Fault::NotACatalogue),
    ("UPDATE mark SET version = -4", Fault::NotACatalogue),
    ("UPDATE mark SET magic = 'dictcaz'", Fault::NotACatalogue),
    ("UPDATE mark SET id = 2", Fault::NotACatalogue),
    ("DELETE FROM mark", Fault::NotACatalogue),
    (
        "INSERT INTO mark VALUES (2, 'dictcat', 6, 2)",
        Fault::NotACatalogue,
    ),
    ("DROP TABLE mark", Fault::NotACatalogue),
];

// Each of these, in a file of schema 1, takes a name that the new table needs, or refers to it; or a table is gone.
const OLDER: &[(&str, Fault)] = &[
    ("CREATE TABLE dictcat_part (a TEXT) STRICT", Fault::Damaged),
    ("CREATE VIEW dictcat_part AS SELECT 1", Fault::Damaged),
    (
        "CREATE TABLE others (a TEXT) STRICT; CREATE INDEX DICTCAT_PART ON others (a)",
        Fault::Damaged,
    ),
    (
        "CREATE TABLE others (a TEXT REFERENCES dictcat_part (a)) STRICT",
        Fault::Damaged,
    ),
    ("DROP TABLE entry", Fault::Damaged),
];

// A file of schema 1.
const FIRST: &[Step] = &[
    Step::Batch(SHARED),
    Step::Batch(PLAIN),
    Step::Batch("INSERT INTO mark VALUES (1, 'dictcat', 1, 2)"),
];

/// After these steps and each of these statements no store is made, or the one that is there isn't opened, by this fault.
pub(crate) fn refuse_each(
    rt: &impl Abort,
    alloc: Global,
    first: &[Step],
    is_new: bool,
    rows: &[(&'static str, Fault)],
) {
    for (statement, fault) in rows {
        let mut steps = first.to_vec(alloc).expect(rt, "memory");
        steps.push(Step::Batch(*statement)).expect(rt, "memory");
        steps
            .push(Step::Refuse(is_new, *fault, *statement))
            .expect(rt, "memory");
        over_memory(rt, alloc, steps.as_slice());
    }
}

// The list of both is retired.
const RETIRED: &[Row] = &[Row(
    "d",
    Asked::Retire("all"),
    "4 Retire all None",
    "ore Ores 1; gem Gems 2; ",
)];

// The tables and the indexes of others, and their rows.
const OTHERS: &[(&str, i64)] = &[
    ("SELECT count(*) FROM extra WHERE a = 'its own'", 1),
    (
        "SELECT count(*) FROM sqlite_schema WHERE name = 'others'",
        1,
    ),
];

static BESIDE: [Step; 6] = [
    Step::Batch("CREATE TABLE extra (a TEXT) STRICT; INSERT INTO extra VALUES ('its own')"),
    Step::Make(CATALOGUE),
    Step::Batch("CREATE INDEX others ON edition (title)"),
    Step::Keep(&[]),
    Step::Open(RETIRED),
    Step::Numbers(OTHERS),
];

// Where there is no store none is opened, and over one none is made.
static TWICE: [Step; 3] = [
    Step::Refuse(false, Fault::NotACatalogue, "no catalogue"),
    Step::Make(&[]),
    Step::Refuse(true, Fault::NotACatalogue, "a catalogue"),
];

#[test]
fn nothing_changes(rt: HostRuntime) {
    let alloc = rt.alloc();
    over_memory(&rt, alloc, &TWICE);
    over_memory(&rt, alloc, &BESIDE);
    refuse_each(&rt, alloc, &[], true, IN_USE);
    refuse_each(&rt, alloc, &[Step::Make(CATALOGUE)], false, STATEMENTS);
    refuse_each(&rt, alloc, FIRST, false, OLDER);
}
