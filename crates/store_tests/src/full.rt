//! A catalogue that is full.

use crate::checks::same_reply;
use dict_catalogue::Command;
use dict_desk::Keeper;
use std::alloc::Global;
use std::process::Abort;
use store_fixtures::{Asked, Editions, Source};

// 63 lists of one database.
fn put_lists<K: Keeper>(rt: &impl Abort, alloc: Global, desk: &mut K) {
    for place in 1..64u64 {
        let name = format!(in alloc; "all{place}").expect(rt, "memory");
        let put = Command::PutVirtual {
            name: name.as_str(),
            title: "All",
            members: &["gem"],
        };
        let _kept = desk.apply(name.as_str(), &put).expect(rt, "a reply");
    }
}

// A new name finds no place, and one that is there does.
static FULL: [(&str, Asked, &str); 3] = [
    ("x", Asked::Install("ore", Source::Ores), "25"),
    ("x", Asked::Put("more", "More", &["gem"]), "25"),
    (
        "x",
        Asked::Put("all9", "Gems", &["gem"]),
        "65 Virtual all9 None",
    ),
];

/// Fills a catalogue of the one database `gem` up.
pub(crate) fn fill<K: Keeper>(rt: &impl Abort, alloc: Global, desk: &mut K, editions: &Editions) {
    put_lists(rt, alloc, desk);
    for (id, asked, wanted) in &FULL {
        let answer = desk.apply(*id, &asked.command(editions));
        same_reply(rt, alloc, answer, *wanted, id);
    }
}
