//! The records of a catalogue with the databases `ore` and `gem` and the virtual database `all`.

use super::readings::summary_of;
use crate::checks::push;
use dict_catalogue::{Item as CatalogueItem, Summary};
use std::alloc::Global;
use std::process::Abort;
use store_rows::RowsFault;
use store_tables::{EditionRecord, EntryRecord, ItemRecord, KeptRecord, Mark, Member, StoredRow};

/// The magic, the version and the count of installs of a mark.
#[derive(Clone, Copy)]
pub(crate) struct MarkRow(pub &'static str, pub i64, pub i64);

/// An item.
#[derive(Clone, Copy)]
pub(crate) enum ItemRow<'a> {
    /// The place, the name, the current edition and the former one of a database.
    Regular(i64, &'a str, i64, Option<i64>),
    /// The place, the name, the kind and the title of another item.
    Listed(i64, &'a str, i64, &'a str),
}

/// The owner, the place and the name of a member.
#[derive(Clone, Copy)]
pub(crate) struct MemberRow<'a>(pub &'a str, pub i64, pub &'a str);

/// The place and the headword of an entry, and the interval that it cuts out of the text.
#[derive(Clone, Copy)]
pub(crate) struct EntryRow(pub i64, pub &'static str, pub i64, pub i64);

/// The number, the owner, the title, the text and the entries of an edition.
#[derive(Clone, Copy)]
pub(crate) struct EditionRow<'a>(
    pub i64,
    pub &'a str,
    pub &'a str,
    pub &'a [u8],
    pub &'a [EntryRow],
);

/// The id, the number, the verb, the name and the edition of a reply that is kept.
#[derive(Clone, Copy)]
pub(crate) struct KeptRow<'a>(
    pub &'a str,
    pub i64,
    pub &'a str,
    pub &'a str,
    pub Option<i64>,
);

/// The records of a catalogue that stand in the place of those of one table.
#[derive(Clone, Copy)]
pub(crate) enum Change<'a> {
    Marks(&'a [MarkRow]),
    Items(&'a [ItemRow<'a>]),
    Members(&'a [MemberRow<'a>]),
    Editions(&'a [EditionRow<'a>]),
    Kept(&'a [KeptRow<'a>]),
}

/// The text of the edition of `ore`.
pub(crate) const ORES: &[u8] = b"00-database-short\nOres\niron\n  ore\n";

/// The edition of `ore`.
pub(crate) const ORE: EditionRow<'static> = EditionRow(
    1,
    "ore",
    "Ores",
    ORES,
    &[EntryRow(0, "iron", 23, 11)],
);

/// The edition of `gem`.
pub(crate) const GEM: EditionRow<'static> = EditionRow(
    2,
    "gem",
    "Gems",
    b"00-database-short\n  Gems\nopal\n  a stone\n.dot\n",
    &[
        EntryRow(0, "opal", 25, 15),
        EntryRow(1, "Fire Opal", 25, 15),
        EntryRow(2, "dot", 40, 5),
    ],
);

/// The records of the whole catalogue.
pub(crate) static WHOLE: [Change<'static>; 5] = [
    Change::Marks(&[MarkRow("dictcat", 1, 2)]),
    Change::Items(&[
        ItemRow::Regular(0, "ore", 1, None),
        ItemRow::Regular(1, "gem", 2, None),
        ItemRow::Listed(2, "all", 1, "All"),
    ]),
    Change::Members(&[MemberRow("all", 0, "ore"), MemberRow("all", 1, "gem")]),
    Change::Editions(&[ORE, GEM]),
    Change::Kept(&[
        KeptRow("r1", 1, "install", "ore", Some(1)),
        KeptRow("r2", 2, "install", "gem", Some(2)),
        KeptRow("r3", 3, "virtual", "all", None),
    ]),
];

/// The record of an edition, with those of its entries in the order of their places.
#[derive(Drop)]
pub(crate) struct EditionRows {
    pub edition: StoredRow<EditionRecord<String, Vec<u8>>>,
    pub entries: Vec<StoredRow<EntryRecord<String>>>,
}

/// The records of all tables.
#[derive(Drop)]
pub(crate) struct Rows {
    pub marks: Vec<StoredRow<Mark<String>>>,
    pub items: Vec<StoredRow<ItemRecord<String>>>,
    pub members: Vec<StoredRow<Member<String>>>,
    pub editions: Vec<EditionRows>,
    pub kept: Vec<StoredRow<KeptRecord<String>>>,
}

/// A text of its own.
pub(crate) fn owned(rt: &impl Abort, alloc: Global, text: &str) -> String {
    String::from_str(alloc, text).expect(rt, "memory")
}

pub(crate) fn mark(rt: &impl Abort, alloc: Global, row: MarkRow) -> StoredRow<Mark<String>> {
    let value = Mark {
        id: 1,
        magic: owned(rt, alloc, row.0),
        version: row.1,
        installs: row.2,
    };
    StoredRow { rowid: 1, value }
}

pub(crate) fn item(
    rt: &impl Abort,
    alloc: Global,
    row: ItemRow<'_>,
) -> StoredRow<ItemRecord<String>> {
    match row {
        ItemRow::Regular(place, name, current, former) => {
            let value = ItemRecord {
                place,
                name: owned(rt, alloc, name),
                kind: 0,
                title: None,
                current: Some(current),
                former,
            };
            StoredRow {
                rowid: place,
                value,
            }
        }
        ItemRow::Listed(place, name, kind, title) => {
            let value = ItemRecord {
                place,
                name: owned(rt, alloc, name),
                kind,
                title: Some(owned(rt, alloc, title)),
                current: None,
                former: None,
            };
            StoredRow {
                rowid: place,
                value,
            }
        }
    }
}

pub(crate) fn member(
    rt: &impl Abort,
    alloc: Global,
    row: MemberRow<'_>,
) -> StoredRow<Member<String>> {
    let value = Member {
        owner: owned(rt, alloc, row.0),
        ord: row.1,
        name: owned(rt, alloc, row.2),
    };
    StoredRow {
        rowid: row.1,
        value,
    }
}

fn entry(
    rt: &impl Abort,
    alloc: Global,
    edition: i64,
    row: EntryRow,
) -> StoredRow<EntryRecord<String>> {
    let value = EntryRecord {
        edition,
        ord: row.0,
        headword: owned(rt, alloc, row.1),
        start: row.2,
        length: row.3,
    };
    StoredRow {
        rowid: row.0,
        value,
    }
}

fn edition_record(
    rt: &impl Abort,
    alloc: Global,
    row: EditionRow<'_>,
) -> StoredRow<EditionRecord<String, Vec<u8>>> {
    let value = EditionRecord {
        number: row.0,
        owner: owned(rt, alloc, row.1),
        title: owned(rt, alloc, row.2),
        info: owned(rt, alloc, ""),
        body: Vec::from_slice(alloc, row.3).expect(rt, "memory"),
    };
    StoredRow {
        rowid: row.0,
        value,
    }
}

pub(crate) fn edition(rt: &impl Abort, alloc: Global, row: EditionRow<'_>) -> EditionRows {
    let mut entries = Vec::new(alloc);
    for one in row.4 {
        push(rt, &mut entries, entry(rt, alloc, row.0, *one));
    }
    EditionRows {
        edition: edition_record(rt, alloc, row),
        entries,
    }
}

pub(crate) fn kept(
    rt: &impl Abort,
    alloc: Global,
    row: KeptRow<'_>,
) -> StoredRow<KeptRecord<String>> {
    let value = KeptRecord {
        id: owned(rt, alloc, row.0),
        number: row.1,
        verb: owned(rt, alloc, row.2),
        name: owned(rt, alloc, row.3),
        edition: row.4,
    };
    StoredRow {
        rowid: row.1,
        value,
    }
}

/// No record of any table.
pub(crate) fn empty(alloc: Global) -> Rows {
    Rows {
        marks: Vec::new(alloc),
        items: Vec::new(alloc),
        members: Vec::new(alloc),
        editions: Vec::new(alloc),
        kept: Vec::new(alloc),
    }
}

/// Puts these records in the place of those of one table.
pub(crate) fn put(rt: &impl Abort, alloc: Global, rows: &mut Rows, change: Change<'_>) {
    match change {
        Change::Marks(marks) => {
            rows.marks.clear();
            for row in marks {
                push(rt, &mut rows.marks, mark(rt, alloc, *row));
            }
        }
        Change::Items(items) => {
            rows.items.clear();
            for row in items {
                push(rt, &mut rows.items, item(rt, alloc, *row));
            }
        }
        Change::Members(members) => {
            rows.members.clear();
            for row in members {
                push(rt, &mut rows.members, member(rt, alloc, *row));
            }
        }
        Change::Editions(editions) => {
            rows.editions.clear();
            for row in editions {
                push(rt, &mut rows.editions, edition(rt, alloc, *row));
            }
        }
        Change::Kept(replies) => {
            rows.kept.clear();
            for row in replies {
                push(rt, &mut rows.kept, kept(rt, alloc, *row));
            }
        }
    }
}

/// Puts these records, in turn.
pub(crate) fn put_all(rt: &impl Abort, alloc: Global, rows: &mut Rows, changes: &[Change<'_>]) {
    for change in changes {
        put(rt, alloc, rows, *change);
    }
}

/// The catalogue for which the records stand after these changes and then these.
pub(crate) fn summary_after(
    rt: &impl Abort,
    alloc: Global,
    changes: &[Change<'_>],
    more: &[Change<'_>],
) -> Result<Summary, RowsFault> {
    let mut rows = empty(alloc);
    put_all(rt, alloc, &mut rows, changes);
    put_all(rt, alloc, &mut rows, more);
    let read = summary_of(rt, alloc, &rows);
    drop(rows);
    read
}

/// Whether the records of the catalogue stand for none with this change.
pub(crate) fn is_damaged_with(rt: &impl Abort, alloc: Global, change: Change<'_>) -> bool {
    summary_after(rt, alloc, &WHOLE, &[change]).err() == Some(RowsFault::Damaged)
}

/// Whether an item is there, and has this name and this title.
pub(crate) fn says(item: Option<&CatalogueItem>, name: &str, title: &str) -> bool {
    match item {
        Some(item) => item.name() == name && item.title() == title,
        None => false,
    }
}
