//! Catalogues at the limits, and records with numbers and octets that no catalogue has.

use super::readings::summary_of;
use super::records::{
    Change, EditionRow, EntryRow, GEM, ItemRow, KeptRow, MarkRow, MemberRow, Rows, WHOLE, edition,
    empty, is_damaged_with, item, kept, member, put, put_all, says, summary_after,
};
use crate::checks::{holds, push, same};
use std::alloc::Global;
use std::process::Abort;
use store_rows::RowsFault;

const MOST: i64 = 9_223_372_036_854_775_807;

const LEAST: i64 = -9_223_372_036_854_775_808;

const IRON: &[u8] = b"iron\n  ore\n";

/// Adds the database at a place, with one edition.
fn add_one(rt: &impl Abort, alloc: Global, rows: &mut Rows, place: u32, name: &str) {
    let place = i64::from(place);
    let number = place + 1;
    let regular = ItemRow::Regular(place, name, number, None);
    push(rt, &mut rows.items, item(rt, alloc, regular));
    let entries = [EntryRow(0, "iron", 0, 11)];
    let one = EditionRow(number, name, "Ores", IRON, &entries);
    push(rt, &mut rows.editions, edition(rt, alloc, one));
    let reply = KeptRow(name, number, "install", name, Some(number));
    push(rt, &mut rows.kept, kept(rt, alloc, reply));
}

/// Adds the database at a place, or lists it as a member there of the virtual one.
fn add(rt: &impl Abort, alloc: Global, rows: &mut Rows, place: u32, is_member: bool) {
    let name = format!(in alloc; "d{place}").expect(rt, "memory");
    if is_member {
        let row = MemberRow("all", i64::from(place), name.as_str());
        push(rt, &mut rows.members, member(rt, alloc, row));
    } else {
        add_one(rt, alloc, rows, place, name.as_str());
    }
    drop(name);
}

/// Adds so many databases, each with one edition.
fn add_many(rt: &impl Abort, alloc: Global, rows: &mut Rows, count: u32) {
    let marks = [MarkRow("dictcat", 1, i64::from(count))];
    put(rt, alloc, rows, Change::Marks(&marks));
    for place in 0..count {
        add(rt, alloc, rows, place, false);
    }
}

/// Adds a virtual database behind so many others, which lists these, and the first one once more where it is asked.
fn add_all(rt: &impl Abort, alloc: Global, rows: &mut Rows, count: u32, again: bool) {
    let place = i64::from(count);
    let all = ItemRow::Listed(place, "all", 1, "All");
    push(rt, &mut rows.items, item(rt, alloc, all));
    for ord in 0..count {
        add(rt, alloc, rows, ord, true);
    }
    if again {
        let row = MemberRow("all", place, "d0");
        push(rt, &mut rows.members, member(rt, alloc, row));
    }
    let reply = KeptRow("all", place + 1, "virtual", "all", None);
    push(rt, &mut rows.kept, kept(rt, alloc, reply));
}

// How many databases there are; of how many a virtual database is, and whether it has one of them twice; and how many items are read, where they are.
static SIZES: [(u32, Option<(u32, bool)>, Option<usize>); 5] = [
    (64, None, Some(64)),
    (65, None, None),
    (63, Some((63, false)), Some(64)),
    (63, Some((63, true)), None),
    (64, Some((64, false)), None),
];

fn look_at_a_size(
    rt: &impl Abort,
    alloc: Global,
    rows: &mut Rows,
    (count, all, wanted): (u32, Option<(u32, bool)>, Option<usize>),
) {
    add_many(rt, alloc, rows, count);
    if let Some((members, again)) = all {
        add_all(rt, alloc, rows, members, again);
    }
    match wanted {
        None => {
            let fault = summary_of(rt, alloc, rows).err();
            same(rt, &fault, &Some(RowsFault::Damaged));
        }
        Some(items) => {
            let summary = summary_of(rt, alloc, rows).expect(rt, "a catalogue");
            same(rt, &summary.items.len(), &items);
            let (name, title) = if all.is_some() {
                ("all", "All")
            } else {
                ("d63", "Ores")
            };
            holds(rt, says(summary.items.last(), name, title), name);
            drop(summary);
        }
    }
}

#[test]
fn sizes_at_the_limit(rt: HostRuntime) {
    for size in &SIZES {
        let mut rows = empty(rt.alloc());
        look_at_a_size(&rt, rt.alloc(), &mut rows, *size);
        drop(rows);
    }
}

/// Puts the records of the catalogue with an edition of `ore` of this number, whose one entry cuts this interval out of this text.
fn put_cut(
    rt: &impl Abort,
    alloc: Global,
    rows: &mut Rows,
    number: i64,
    body: &[u8],
    (start, length): (i64, i64),
) {
    put_all(rt, alloc, rows, &WHOLE);
    rows.editions.clear();
    let entries = [EntryRow(0, "iron", start, length)];
    let ore = EditionRow(number, "ore", "Ores", body, &entries);
    push(rt, &mut rows.editions, edition(rt, alloc, ore));
    push(rt, &mut rows.editions, edition(rt, alloc, GEM));
}

/// Whether no catalogue has such an edition.
fn is_damaged_cut(
    rt: &impl Abort,
    alloc: Global,
    number: i64,
    body: &[u8],
    cut: (i64, i64),
) -> bool {
    let mut rows = empty(alloc);
    put_cut(rt, alloc, &mut rows, number, body, cut);
    let fault = summary_of(rt, alloc, &rows).err();
    drop(rows);
    fault == Some(RowsFault::Damaged)
}

/// Whether no catalogue has this mark.
fn is_damaged_mark(rt: &impl Abort, alloc: Global, version: i64, installs: i64) -> bool {
    is_damaged_with(
        rt,
        alloc,
        Change::Marks(&[MarkRow("dictcat", version, installs)]),
    )
}

static ENDS: [i64; 3] = [LEAST, -1, MOST];

#[test]
fn numbers_at_both_ends(rt: HostRuntime) {
    let alloc = rt.alloc();
    for number in &ENDS {
        let is_so = is_damaged_mark(&rt, alloc, 1, *number);
        holds(&rt, is_so, "installs");
        let is_so = is_damaged_mark(&rt, alloc, *number, 2);
        holds(&rt, is_so, "version");
        let is_so = is_damaged_cut(&rt, alloc, 1, IRON, (*number, 11));
        holds(&rt, is_so, "start");
        let is_so = is_damaged_cut(&rt, alloc, 1, IRON, (0, *number));
        holds(&rt, is_so, "length");
        let is_so = is_damaged_cut(&rt, alloc, 1, IRON, (*number, *number));
        holds(&rt, is_so, "start and length");
        let is_so = is_damaged_cut(&rt, alloc, *number, IRON, (0, 11));
        holds(&rt, is_so, "number");
    }
}

const NO_TEXT: &[u8] = b"\xff\xfeiron\n  ore\n\xff";

/// An edition of `ore` of octets that are no text, of which its one entry is.
static NO_TEXTS: [EditionRow<'static>; 2] = [
    EditionRow(1, "ore", "Ores", NO_TEXT, &[EntryRow(0, "iron", 2, 11)]),
    GEM,
];

#[test]
fn octets_that_are_no_text(rt: HostRuntime) {
    let alloc = rt.alloc();
    let read = summary_after(&rt, alloc, &WHOLE, &[Change::Editions(&NO_TEXTS)]);
    let summary = read.expect(&rt, "a catalogue");
    same(&rt, &summary.items.len(), &3);
    holds(&rt, says(summary.items.get(0), "ore", "Ores"), "ore");
    drop(summary);
    let is_so = is_damaged_cut(&rt, alloc, 1, NO_TEXT, (1, 12));
    holds(&rt, is_so, "from 1");
    let is_so = is_damaged_cut(&rt, alloc, 1, NO_TEXT, (2, 12));
    holds(&rt, is_so, "from 2");
}
