//! One record changed at a time.

use super::records::{
    Change, EditionRow, EntryRow, GEM, ItemRow, KeptRow, MarkRow, MemberRow, ORES, WHOLE,
    is_damaged_with, says, summary_after,
};
use crate::checks::{holds, same};
use dict_catalogue::Summary;
use std::process::Abort;

fn look_at_the_whole(rt: &impl Abort, summary: &Summary) {
    same(rt, &summary.items.len(), &3);
    holds(rt, says(summary.items.get(0), "ore", "Ores"), "ore");
    holds(rt, says(summary.items.get(1), "gem", "Gems"), "gem");
    holds(rt, says(summary.items.get(2), "all", "All"), "all");
    same(rt, &summary.installs, &2);
    same(rt, &summary.accepted, &3);
}

#[test]
fn whole_and_empty_catalogues(rt: HostRuntime) {
    let read = summary_after(&rt, rt.alloc(), &WHOLE, &[]);
    let summary = read.expect(&rt, "a catalogue");
    look_at_the_whole(&rt, &summary);
    drop(summary);
    let mark = Change::Marks(&[MarkRow("dictcat", 1, 0)]);
    let read = summary_after(&rt, rt.alloc(), &[mark], &[]);
    let summary = read.expect(&rt, "a catalogue");
    same(&rt, &summary.items.len(), &0);
    drop(summary);
}

static DAMAGED: [Change<'static>; 23] = [
    // a count of installs, a version and a magic of no such catalogue, two marks, and none
    Change::Marks(&[MarkRow("dictcat", 1, 3)]),
    Change::Marks(&[MarkRow("dictcat", 2, 2)]),
    Change::Marks(&[MarkRow("dictcaz", 1, 2)]),
    Change::Marks(&[MarkRow("dictcat", 1, 2), MarkRow("dictcat", 1, 2)]),
    Change::Marks(&[]),
    // places with a gap, a name twice, a former edition that is not there, a kind that is none
    Change::Items(&[
        ItemRow::Regular(0, "ore", 1, None),
        ItemRow::Regular(2, "gem", 2, None),
        ItemRow::Listed(3, "all", 1, "All"),
    ]),
    Change::Items(&[
        ItemRow::Regular(0, "gem", 1, None),
        ItemRow::Regular(1, "gem", 2, None),
        ItemRow::Listed(2, "all", 1, "All"),
    ]),
    Change::Items(&[
        ItemRow::Regular(0, "ore", 1, Some(3)),
        ItemRow::Regular(1, "gem", 2, None),
        ItemRow::Listed(2, "all", 1, "All"),
    ]),
    Change::Items(&[
        ItemRow::Regular(0, "ore", 1, None),
        ItemRow::Regular(1, "gem", 2, None),
        ItemRow::Listed(2, "all", 2, "All"),
    ]),
    // places with a gap, an owner among its members, a database as an owner, no members
    Change::Members(&[MemberRow("all", 0, "ore"), MemberRow("all", 2, "gem")]),
    Change::Members(&[MemberRow("all", 0, "ore"), MemberRow("all", 1, "all")]),
    Change::Members(&[MemberRow("all", 0, "ore"), MemberRow("ore", 0, "gem")]),
    Change::Members(&[]),
    // of another owner, of another number, missing, and entries of a place, a length and a headword that an edition has not
    Change::Editions(&[
        EditionRow(1, "gem", "Ores", ORES, &[EntryRow(0, "iron", 23, 11)]),
        GEM,
    ]),
    Change::Editions(&[
        EditionRow(3, "ore", "Ores", ORES, &[EntryRow(0, "iron", 23, 11)]),
        GEM,
    ]),
    Change::Editions(&[GEM]),
    Change::Editions(&[
        EditionRow(1, "ore", "Ores", ORES, &[EntryRow(1, "iron", 23, 11)]),
        GEM,
    ]),
    Change::Editions(&[
        EditionRow(1, "ore", "Ores", ORES, &[EntryRow(0, "iron", 23, 12)]),
        GEM,
    ]),
    Change::Editions(&[
        EditionRow(1, "ore", "Ores", ORES, &[EntryRow(0, "iron", 23, -1)]),
        GEM,
    ]),
    Change::Editions(&[
        EditionRow(
            1,
            "ore",
            "Ores",
            ORES,
            &[EntryRow(0, "00-database-url", 23, 11)],
        ),
        GEM,
    ]),
    // numbers that begin at 0 or have a gap, an install without its edition
    Change::Kept(&[
        KeptRow("r1", 0, "install", "ore", Some(1)),
        KeptRow("r2", 2, "install", "gem", Some(2)),
    ]),
    Change::Kept(&[
        KeptRow("r1", 1, "install", "ore", Some(1)),
        KeptRow("r2", 3, "install", "gem", Some(2)),
    ]),
    Change::Kept(&[
        KeptRow("r1", 1, "install", "ore", Some(1)),
        KeptRow("r2", 2, "install", "gem", None),
    ]),
];

#[test]
fn changes_that_leave_no_catalogue(rt: HostRuntime) {
    for change in &DAMAGED {
        holds(&rt, is_damaged_with(&rt, rt.alloc(), *change), "a change");
    }
}
