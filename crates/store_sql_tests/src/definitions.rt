//! Which tables are recognised, and told from others, and which names are in use.

use crate::checks::{holds, same_text};
use crate::texts::raw;
use sqlite::{Alter, Connection};
use sqlite_schema::schema::Schema;
use std::alloc::Global;
use std::process::Abort;
use store_older_sql::{has_keyed_table, has_old_entry};
use store_tables::{
    KeyedTable, StoreTable, has_room, has_table, is_name_used, is_own_index_name_used,
    is_own_name_referred, is_own_name_used, lacks_counting_table,
};

const MARK: &str =
    "CREATE TABLE mark (id INTEGER NOT NULL PRIMARY KEY, magic TEXT NOT NULL, version INTEGER NOT NULL, installs INTEGER NOT NULL) STRICT";

const ITEM: &str =
    "CREATE TABLE item (place INTEGER NOT NULL PRIMARY KEY, name TEXT NOT NULL UNIQUE, kind INTEGER NOT NULL, title TEXT, current INTEGER, former INTEGER) STRICT";

const MEMBER: &str =
    "CREATE TABLE member (owner TEXT NOT NULL, ord INTEGER NOT NULL, name TEXT NOT NULL, PRIMARY KEY (owner, ord), UNIQUE (owner, name)) STRICT";

const EDITION: &str =
    "CREATE TABLE edition (number INTEGER NOT NULL PRIMARY KEY, owner TEXT NOT NULL, title TEXT NOT NULL, info TEXT NOT NULL, body BLOB NOT NULL) STRICT";

const ENTRY: &str =
    "CREATE TABLE entry (edition INTEGER NOT NULL, ord INTEGER NOT NULL, headword TEXT NOT NULL, start INTEGER NOT NULL, length INTEGER NOT NULL, PRIMARY KEY (edition, ord)) STRICT";

const KEPT: &str =
    "CREATE TABLE kept (id TEXT NOT NULL PRIMARY KEY, number INTEGER NOT NULL UNIQUE, verb TEXT NOT NULL, name TEXT NOT NULL, edition INTEGER) STRICT";

// The entries of schemas 2 and 3, and of schema 4.
const OLD: &str =
    "CREATE TABLE entry (edition INTEGER NOT NULL, ord INTEGER NOT NULL, headword TEXT NOT NULL, start INTEGER NOT NULL, length INTEGER NOT NULL, key BLOB NOT NULL, rkey BLOB NOT NULL, PRIMARY KEY (edition, ord)) STRICT";

const SHOWN: &str =
    "CREATE TABLE entry (edition INTEGER NOT NULL, ord INTEGER NOT NULL, headword TEXT NOT NULL, start INTEGER NOT NULL, length INTEGER NOT NULL, key BLOB NOT NULL, rkey BLOB NOT NULL, shown TEXT NOT NULL, PRIMARY KEY (edition, ord)) STRICT";

const WORD: &str =
    "CREATE TABLE word (edition INTEGER NOT NULL, word BLOB NOT NULL, ord INTEGER NOT NULL, PRIMARY KEY (edition, word, ord)) STRICT";

const GRAM: &str =
    "CREATE TABLE gram (edition INTEGER NOT NULL, gram BLOB NOT NULL, ord INTEGER NOT NULL, PRIMARY KEY (edition, gram, ord)) STRICT";

const KEY: &str = "CREATE INDEX dictcat_entry_key ON entry (edition, key)";

const REVERSED: &str = "CREATE INDEX dictcat_entry_rkey ON entry (edition, rkey)";

// Other tables and views of six names.
const OTHER_TABLES: &str =
    "CREATE TABLE mark (a TEXT); CREATE TABLE item (a TEXT); CREATE TABLE member (a TEXT); CREATE TABLE edition (a TEXT); CREATE TABLE entry (a TEXT); CREATE TABLE kept (a TEXT)";

const VIEWS: &str =
    "CREATE VIEW mark AS SELECT 1; CREATE VIEW item AS SELECT 1; CREATE VIEW member AS SELECT 1; CREATE VIEW edition AS SELECT 1; CREATE VIEW entry AS SELECT 1; CREATE VIEW kept AS SELECT 1";

// Statements by which a schema has a table, an index and a view.
const NAMED: &str =
    "CREATE TABLE ore (a TEXT); CREATE INDEX gem ON ore (a); CREATE VIEW opal AS SELECT a FROM ore";

// Runs the statements in turn, and gives the schema that is there then.
fn schema_after<S: Alter>(
    rt: &impl Abort,
    alloc: Global,
    conn: &mut Connection<S>,
    statements: &[&str],
) -> Schema {
    for statement in statements {
        raw(rt, conn, *statement);
    }
    conn.schema().copy(alloc).expect(rt, "memory")
}

// The schema after these statements.
fn schema_of(rt: &impl Abort, alloc: Global, statements: &[&str]) -> Schema {
    let mut conn = Connection::open_in_memory(alloc).expect(rt, "a connection");
    let schema = schema_after(rt, alloc, &mut conn, statements);
    drop(conn);
    schema
}

// Which tables it has, in this order.
fn had(schema: &Schema) -> [(bool, &'static str); 10] {
    [
        (has_table(schema, StoreTable::Mark), "mark"),
        (has_table(schema, StoreTable::Item), "item"),
        (has_table(schema, StoreTable::Member), "member"),
        (has_table(schema, StoreTable::Edition), "edition"),
        (has_table(schema, StoreTable::Entry), "entry"),
        (has_table(schema, StoreTable::Kept), "kept"),
        (has_old_entry(schema), "old"),
        (has_keyed_table(schema, KeyedTable::Entry), "shown"),
        (has_keyed_table(schema, KeyedTable::Word), "word"),
        (has_keyed_table(schema, KeyedTable::Gram), "gram"),
    ]
}

// Their names.
fn names(rt: &impl Abort, alloc: Global, had: &[(bool, &'static str)]) -> String {
    let mut text = String::new(alloc);
    for (is_had, name) in had {
        if *is_had {
            if !text.is_empty() {
                text.push(' ').expect(rt, "memory");
            }
            text.push_str(*name).expect(rt, "memory");
        }
    }
    text
}

// The names of what is had after these statements.
fn told(rt: &impl Abort, alloc: Global, statements: &[&str]) -> String {
    let schema = schema_of(rt, alloc, statements);
    let told = names(rt, alloc, had(&schema).as_slice());
    drop(schema);
    told
}

// Statements, and what is had then.
static HAD: [(&[&str], &str); 21] = [
    (
        &[MARK, ITEM, MEMBER, EDITION, ENTRY, KEPT],
        "mark item member edition entry kept",
    ),
    (
        &[
            MARK, ITEM, MEMBER, EDITION, OLD, WORD, GRAM, KEPT, KEY, REVERSED,
        ],
        "mark item member edition kept old word gram",
    ),
    (
        &[
            MARK, ITEM, MEMBER, EDITION, SHOWN, WORD, GRAM, KEPT, KEY, REVERSED,
        ],
        "mark item member edition kept shown word gram",
    ),
    (&[], ""),
    (&[OTHER_TABLES], ""),
    (&[VIEWS], ""),
    // Indexes over them, one that is unique, tables that refer to them, and views.
    (
        &[
            SHOWN,
            "CREATE INDEX dictcat_entry_key ON entry (edition, rkey)",
        ],
        "shown",
    ),
    (
        &[
            SHOWN,
            "CREATE UNIQUE INDEX dictcat_entry_rkey ON entry (edition, rkey)",
        ],
        "",
    ),
    (&[OLD, "CREATE INDEX by_key ON entry (edition, key)"], "old"),
    (&[WORD, "CREATE UNIQUE INDEX once ON word (word)"], ""),
    (
        &[
            SHOWN,
            "CREATE TABLE other (a INTEGER, b INTEGER, FOREIGN KEY (a, b) REFERENCES entry (edition, ord))",
        ],
        "",
    ),
    (
        &[GRAM, "CREATE TABLE other (a BLOB REFERENCES gram (gram))"],
        "",
    ),
    (&["CREATE VIEW word AS SELECT 1", GRAM], "gram"),
    (&[ITEM, "CREATE TABLE ore (a TEXT UNIQUE) STRICT"], "item"),
    (&[ITEM, "CREATE INDEX by_kind ON item (kind)"], "item"),
    (
        &[ITEM, "CREATE UNIQUE INDEX by_name ON item (name)"],
        "item",
    ),
    (
        &[
            ITEM,
            "CREATE TABLE ore (kind INTEGER) STRICT; CREATE UNIQUE INDEX by_kind ON ore (kind)",
        ],
        "item",
    ),
    (
        &[
            ITEM,
            "CREATE TABLE ore (a TEXT UNIQUE, b TEXT REFERENCES ore (a)) STRICT",
        ],
        "item",
    ),
    (&[ITEM, "CREATE UNIQUE INDEX by_kind ON item (kind)"], ""),
    (
        &[
            ITEM,
            "CREATE UNIQUE INDEX by_name ON item (name COLLATE NOCASE)",
        ],
        "",
    ),
    (
        &[
            ITEM,
            "CREATE TABLE ore (a TEXT REFERENCES item (name)) STRICT",
        ],
        "",
    ),
];

// A statement, a part of it, what stands in its place, and what is had then.
static CHANGED: [(&str, &str, &str, &str); 53] = [
    (MARK, "TABLE mark", "TABLE marks", ""),
    (MARK, "TABLE mark", "TABLE MARK", ""),
    (MARK, "magic TEXT", "magic BLOB", ""),
    (MARK, "installs INTEGER NOT NULL", "installs INTEGER", ""),
    (
        MARK,
        "magic TEXT NOT NULL",
        "magic TEXT NOT NULL UNIQUE",
        "",
    ),
    (MARK, ") STRICT", ")", ""),
    (ITEM, "former INTEGER", "former TEXT", ""),
    (ITEM, "kind INTEGER NOT NULL", "kind INTEGER", ""),
    (ITEM, "name TEXT NOT NULL UNIQUE", "name TEXT NOT NULL", ""),
    (ITEM, "former INTEGER)", "former INTEGER UNIQUE)", ""),
    (ITEM, "title TEXT", "title TEXT DEFAULT 'gems'", ""),
    (ITEM, "name TEXT", "name TEXT COLLATE NOCASE", ""),
    (MEMBER, "ord INTEGER", "ord TEXT", ""),
    (MEMBER, "name TEXT NOT NULL", "name TEXT", ""),
    (MEMBER, ", UNIQUE (owner, name)", "", ""),
    (MEMBER, "UNIQUE (owner, name)", "UNIQUE (name, owner)", ""),
    (MEMBER, ") STRICT", ", CHECK (ord >= 0)) STRICT", ""),
    (EDITION, "body BLOB", "body TEXT", ""),
    (EDITION, "info TEXT NOT NULL", "info TEXT", ""),
    (
        EDITION,
        "owner TEXT NOT NULL",
        "owner TEXT NOT NULL UNIQUE",
        "",
    ),
    (
        EDITION,
        "INTEGER NOT NULL PRIMARY KEY",
        "INTEGER NOT NULL PRIMARY KEY AUTOINCREMENT",
        "",
    ),
    (
        EDITION,
        "title TEXT NOT NULL, info TEXT NOT NULL",
        "info TEXT NOT NULL, title TEXT NOT NULL",
        "",
    ),
    (ENTRY, "headword TEXT", "headword BLOB", ""),
    (ENTRY, "length INTEGER NOT NULL", "length INTEGER", ""),
    (ENTRY, "(edition, ord)", "(ord, edition)", ""),
    (
        ENTRY,
        "(edition, ord))",
        "(edition, ord), UNIQUE (start))",
        "",
    ),
    (
        ENTRY,
        "edition INTEGER NOT NULL",
        "edition INTEGER NOT NULL REFERENCES edition (number)",
        "",
    ),
    (KEPT, "edition INTEGER", "edition TEXT", ""),
    (KEPT, "verb TEXT NOT NULL", "verb TEXT", ""),
    (
        KEPT,
        "number INTEGER NOT NULL UNIQUE",
        "number INTEGER NOT NULL",
        "",
    ),
    (KEPT, "edition INTEGER)", "edition INTEGER UNIQUE)", ""),
    (KEPT, "edition INTEGER)", "edition INTEGER, more TEXT)", ""),
    (SHOWN, "TABLE entry", "TABLE Entry", ""),
    (OLD, "rkey BLOB", "RKEY BLOB", ""),
    (
        SHOWN,
        "shown TEXT NOT NULL",
        "shown TEXT NOT NULL, extra TEXT",
        "",
    ),
    (OLD, ", rkey BLOB NOT NULL", "", ""),
    (SHOWN, " key BLOB", " keys BLOB", ""),
    (WORD, ", word", ", words", ""),
    (SHOWN, "shown TEXT", "shown BLOB", ""),
    (OLD, " key BLOB", " key TEXT", ""),
    (GRAM, "gram BLOB", "gram TEXT", ""),
    (SHOWN, "rkey BLOB NOT NULL", "rkey BLOB", ""),
    (SHOWN, ") STRICT", ")", ""),
    (SHOWN, "(edition, ord)", "(ord, edition)", ""),
    (OLD, "(edition, ord)", "(edition, ord, key)", ""),
    (WORD, ", PRIMARY KEY (edition, word, ord)", "", ""),
    (GRAM, "(edition, gram, ord)", "(edition, ord, gram)", ""),
    (
        SHOWN,
        "(edition, ord))",
        "(edition, ord), UNIQUE (edition, key))",
        "",
    ),
    (WORD, "PRIMARY KEY", "UNIQUE", ""),
    (
        OLD,
        "start INTEGER NOT NULL",
        "start INTEGER NOT NULL DEFAULT 0",
        "",
    ),
    (
        SHOWN,
        "length INTEGER NOT NULL",
        "length INTEGER NOT NULL CHECK (length >= 0)",
        "",
    ),
    (
        SHOWN,
        "headword TEXT NOT NULL",
        "headword TEXT NOT NULL COLLATE NOCASE",
        "",
    ),
    (WORD, "ord INTEGER NOT NULL", "ord INTEGER", "word"),
];

// What is had after statements is what each of these says.
fn compare_had(rt: &impl Abort, alloc: Global, rows: &[(&'static [&'static str], &'static str)]) {
    for (statements, expected) in rows {
        let found = told(rt, alloc, *statements);
        same_text(rt, found.as_str(), *expected);
    }
}

// The same where a part of a statement is another.
fn compare_changed(
    rt: &impl Abort,
    alloc: Global,
    rows: &[(&'static str, &'static str, &'static str, &'static str)],
) {
    for (statement, part, other, expected) in rows {
        let changed = statement.replace(alloc, *part, *other).expect(rt, "memory");
        let found = told(rt, alloc, &[changed.as_str()]);
        same_text(rt, found.as_str(), *expected);
    }
}

#[test]
fn recognised(rt: HostRuntime) {
    compare_had(&rt, rt.alloc(), &HAD);
    compare_changed(&rt, rt.alloc(), &CHANGED);
}

// What is asked of a schema.
#[derive(Clone, Copy)]
enum Asked {
    OwnName,
    OwnNameReferred,
    OwnIndexName,
    Waiting,
    Room,
    Name(&'static str),
    // Whether the first table is found alone, and not where another has its tree.
    TreeShared,
    // Whether the counter is there and isn't waited for, and once it is gone the other way round.
    CounterGone,
}

// Gives the last table the tree of the first that is made.
fn share_tree(rt: &impl Abort, schema: &mut Schema) {
    let first = schema.tables.get(0).expect(rt, "a table").tree;
    let mut last = schema.tables.pop().expect(rt, "a table");
    last.tree = first;
    schema.tables.push(last).expect(rt, "memory");
}

// Whether the table is found, and whether it is found still when another has its tree.
fn found_beside(rt: &impl Abort, schema: &mut Schema) -> [bool; 2] {
    let alone = has_table(schema, StoreTable::Mark);
    share_tree(rt, schema);
    [alone, has_table(schema, StoreTable::Mark)]
}

// Whether the counter's name is in use and whether the schema waits for it, and both once the counter is gone.
fn seen_counter(schema: &mut Schema) -> [bool; 4] {
    let is_used = is_name_used(schema, b"sqlite_sequence");
    let waits = lacks_counting_table(schema);
    drop(schema.tables.pop());
    [
        is_used,
        waits,
        is_name_used(schema, b"sqlite_sequence"),
        lacks_counting_table(schema),
    ]
}

fn answer(rt: &impl Abort, schema: &mut Schema, asked: Asked) -> bool {
    match asked {
        Asked::OwnName => is_own_name_used(schema),
        Asked::OwnNameReferred => is_own_name_referred(schema),
        Asked::OwnIndexName => is_own_index_name_used(schema),
        Asked::Waiting => lacks_counting_table(schema),
        Asked::Room => has_room(schema),
        Asked::Name(name) => is_name_used(schema, name.as_bytes()),
        Asked::TreeShared => found_beside(rt, schema) == [true, false],
        Asked::CounterGone => seen_counter(schema) == [true, false, false, true],
    }
}

// What is answered after these statements.
fn ask(rt: &impl Abort, alloc: Global, statements: &[&str], asked: Asked) -> bool {
    let mut schema = schema_of(rt, alloc, statements);
    let answer = answer(rt, &mut schema, asked);
    drop(schema);
    answer
}

// What is asked, the statements that come first, and those after which the answer is yes, and no.
static ANSWERS: [(Asked, &str, &[&str], &[&str]); 15] = [
    (
        Asked::OwnName,
        "",
        &[
            "CREATE TABLE mark (a TEXT)",
            "CREATE TABLE Item (a TEXT)",
            "CREATE VIEW member AS SELECT 1",
            "CREATE TABLE ore (a TEXT); CREATE INDEX edition ON ore (a)",
            "CREATE TABLE entry (a TEXT)",
            "CREATE TABLE kept (a TEXT)",
            "CREATE TABLE word (a TEXT)",
            "CREATE VIEW GRAM AS SELECT 1",
            "CREATE TABLE dictcat_ (a TEXT)",
            "CREATE TABLE ore (a TEXT); CREATE INDEX DictCat_a ON ore (a)",
            "CREATE VIEW dictcat_view AS SELECT 1",
        ],
        &[
            "",
            "CREATE TABLE ore (mark TEXT, dictcat_a TEXT)",
            "CREATE TABLE dictcat (a TEXT); CREATE TABLE marks (a TEXT); CREATE TABLE my_dictcat_ (a TEXT)",
        ],
    ),
    (
        Asked::OwnNameReferred,
        "",
        &[
            "CREATE TABLE ore (a TEXT REFERENCES mark (magic))",
            "CREATE TABLE ore (a TEXT REFERENCES MEMBER (name))",
            "CREATE TABLE ore (a TEXT REFERENCES edition (owner))",
            "CREATE TABLE ore (a TEXT REFERENCES entry (headword))",
            "CREATE TABLE ore (a TEXT REFERENCES kept (id))",
            "CREATE TABLE ore (a TEXT REFERENCES gram (a))",
        ],
        &[
            "",
            "CREATE TABLE item (a TEXT UNIQUE)",
            "CREATE TABLE ore (item TEXT)",
        ],
    ),
    (
        Asked::OwnIndexName,
        "",
        &[
            "CREATE TABLE item (a TEXT UNIQUE)",
            "CREATE TABLE kept (a TEXT UNIQUE)",
        ],
        &[
            "CREATE TABLE ore (a TEXT UNIQUE)",
            "CREATE TABLE item (a TEXT)",
        ],
    ),
    (Asked::Waiting, "", &[], &[MARK]),
    (
        Asked::Room,
        "",
        &[
            "",
            "CREATE TABLE ore (a TEXT UNIQUE)",
            "CREATE TABLE ore (a TEXT UNIQUE, b TEXT REFERENCES ore (a))",
            "CREATE TABLE ore (a TEXT REFERENCES items (name))",
            "CREATE TABLE ore (a INTEGER PRIMARY KEY AUTOINCREMENT)",
        ],
        &[
            "CREATE TABLE ore (a TEXT REFERENCES Item (name))",
            "CREATE TABLE ore (a INTEGER REFERENCES word)",
            "CREATE TABLE kept (a TEXT)",
            "CREATE VIEW gram AS SELECT 1",
        ],
    ),
    (
        Asked::TreeShared,
        MARK,
        &["CREATE TABLE ore (a TEXT) STRICT"],
        &[],
    ),
    (
        Asked::CounterGone,
        "",
        &["CREATE TABLE ore (a INTEGER PRIMARY KEY AUTOINCREMENT)"],
        &[],
    ),
    (Asked::Name("ore"), "", &[NAMED], &[]),
    (Asked::Name("ORE"), "", &[NAMED], &[]),
    (Asked::Name("Gem"), "", &[NAMED], &[]),
    (Asked::Name("opal"), "", &[NAMED], &[]),
    (Asked::Name("or"), "", &[], &[NAMED]),
    (Asked::Name("ores"), "", &[], &[NAMED]),
    (Asked::Name("a"), "", &[], &[NAMED]),
    (Asked::Name(""), "", &[], &[NAMED]),
];

fn compare(
    rt: &impl Abort,
    alloc: Global,
    asked: Asked,
    first: &str,
    others: &[&str],
    expected: bool,
) {
    for more in others {
        holds(rt, ask(rt, alloc, &[first, *more], asked) == expected, more);
    }
}

#[test]
fn answers_of_a_schema(rt: HostRuntime) {
    let alloc = rt.alloc();
    for (asked, first, yes, no) in &ANSWERS {
        compare(&rt, alloc, *asked, *first, *yes, true);
        compare(&rt, alloc, *asked, *first, *no, false);
    }
}
