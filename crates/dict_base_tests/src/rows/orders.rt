//! What comes in order, and the records that the parts of a catalogue are written as.

use super::readings::{begin, read_replies};
use super::records::{EditionRow, GEM, ORE, Rows, WHOLE, edition, empty, owned, put_all};
use crate::checks::{holds, same};
use dict_catalogue::{Item, Kept, StoredTitle, Verb};
use std::alloc::Global;
use std::process::Abort;
use store_rows::{
    IdReader, Reader, RowidReader, RowsFault, item_row, kept_row, mark_row, member_row,
};

#[test]
fn ids_and_rowids_that_come_twice(rt: HostRuntime) {
    let mut ids = IdReader::new();
    ids.id(owned(&rt, rt.alloc(), "r1")).expect(&rt, "an id");
    ids.id(owned(&rt, rt.alloc(), "r2")).expect(&rt, "an id");
    let again = ids.id(owned(&rt, rt.alloc(), "r2"));
    same(&rt, &again.err(), &Some(RowsFault::Damaged));
    drop(ids);
    let mut rowids = RowidReader::new();
    rowids.rowid(-5).expect(&rt, "a rowid");
    rowids.rowid(0).expect(&rt, "a rowid");
    let last = rowids.rowid(9_223_372_036_854_775_807);
    last.expect(&rt, "a rowid");
    let again = rowids.rowid(9_223_372_036_854_775_807);
    same(&rt, &again.err(), &Some(RowsFault::Damaged));
}

/// Hands an edition and its entries to the reader, which lets go of the one before.
fn read_group(rt: &impl Abort, alloc: Global, reader: &mut Reader, row: EditionRow<'_>) {
    reader.let_go();
    let group = edition(rt, alloc, row);
    let read = reader.edition(group.edition.value);
    read.expect(rt, "an edition");
    for entry in &group.entries {
        let read = reader.entry(alloc, &entry.value, &entry.value.headword);
        read.expect(rt, "an entry");
    }
}

// An edition's text is let go of before the next.
fn text_is_let_go(rt: &impl Abort, alloc: Global, rows: &Rows) {
    let mut reader = begin(alloc, rows).expect(rt, "a reader");
    let numbers = reader.numbers(alloc).expect(rt, "the numbers");
    holds(rt, numbers.as_slice() == [1, 2].as_slice(), "numbers");
    drop(numbers);
    read_group(rt, alloc, &mut reader, ORE);
    read_group(rt, alloc, &mut reader, GEM);
    read_replies(&mut reader, rows).expect(rt, "the replies");
    let summary = reader.finish().expect(rt, "a catalogue");
    same(rt, &summary.items.len(), &3);
    drop(summary);
}

// Whether these are the mark and a member.
fn has_mark_and_member(rows: &Rows) -> bool {
    match (rows.marks.get(0), rows.members.get(1)) {
        (Some(mark), Some(member)) => {
            mark_row(1, 2) == mark.value.lend()
                && member_row("all", 1, "gem") == member.value.lend()
        }
        _ => false,
    }
}

fn look_at_kept(rt: &impl Abort, alloc: Global, rows: &Rows) {
    let reply = Kept {
        number: 2,
        verb: Verb::Install,
        name: owned(rt, alloc, "gem"),
        edition: Some(2),
    };
    let is_so = match rows.kept.get(1) {
        Some(row) => kept_row("r2", &reply) == row.value.lend(),
        None => false,
    };
    drop(reply);
    holds(rt, is_so, "a reply");
}

fn look_at_the_item(rt: &impl Abort, alloc: Global, rows: &Rows) {
    let title = owned(rt, alloc, "Gems");
    let name = owned(rt, alloc, "gem");
    let item = Item::Regular {
        name,
        current: StoredTitle { number: 2, title },
        former: None,
    };
    let is_so = match rows.items.get(1) {
        Some(row) => item_row(1, &item) == row.value.lend(),
        None => false,
    };
    drop(item);
    holds(rt, is_so, "an item");
}

fn look_at_all(rt: &impl Abort, alloc: Global, rows: &mut Rows) {
    put_all(rt, alloc, rows, &WHOLE);
    same(rt, &rows.marks.len(), &1);
    same(rt, &rows.items.len(), &3);
    same(rt, &rows.members.len(), &2);
    same(rt, &rows.kept.len(), &3);
    holds(rt, has_mark_and_member(rows), "a mark and a member");
    look_at_kept(rt, alloc, rows);
    look_at_the_item(rt, alloc, rows);
    text_is_let_go(rt, alloc, rows);
}

#[test]
fn rows_written_and_text_let_go(rt: HostRuntime) {
    let mut rows = empty(rt.alloc());
    look_at_all(&rt, rt.alloc(), &mut rows);
    drop(rows);
}
