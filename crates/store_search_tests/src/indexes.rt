//! Indexes under numbers.
ghost use Rattle.std.specs.Prelude.{◌≤◌, length};

use crate::checks::holds;
use std::alloc::Global;
use std::process::Abort;
use store_holdings::Indexes;
use store_search::IndexBuilder;

fn builder_of(rt: &impl Abort, alloc: Global, shown: &str) -> IndexBuilder
    ensures { length result ≤ 1 }
{
    let mut builder = IndexBuilder::new(alloc);
    builder.push(shown, shown, 0, 1).expect(rt, "memory");
    assert!(rt; builder.len() <= 1, "one line");
    builder
}

// Whether this is shown under a number, or nothing stands there.
fn is_shown(rt: &impl Abort, indexes: &mut Indexes, number: u64, shown: &str) -> bool {
    let Some(index) = indexes.take(number).expect(rt, "memory") else {
        return shown == "none";
    };
    let is_so = index.entry(0).shown == shown;
    indexes.put_back(number, index);
    is_so
}

// Puts an index that is made, or one that isn't yet.
fn put(
    rt: &impl Abort,
    alloc: Global,
    indexes: &mut Indexes,
    number: u64,
    shown: &str,
    is_made: bool,
) {
    let builder = builder_of(rt, alloc, shown);
    if is_made {
        let index = builder.finish().expect(rt, "an index");
        indexes.put(number, index).expect(rt, "memory");
    } else {
        let making = builder.making();
        indexes.put_unmade(number, making).expect(rt, "memory");
    }
}

static PUT: [(u64, &str, bool); 4] = [
    (1, "iron", true),
    (2, "opal", true),
    (3, "ruby", false),
    (2, "fire opal", false),
];

// Indexes are put under numbers, in place of those that were there, made when they are asked for, and let go of.
fn stand_under_numbers(rt: &impl Abort, alloc: Global, indexes: &mut Indexes) {
    holds(rt, is_shown(rt, indexes, 1, "none"), "none put");
    for (number, shown, is_made) in &PUT {
        put(rt, alloc, indexes, *number, *shown, *is_made);
    }
    holds(rt, is_shown(rt, indexes, 2, "fire opal"), "the second one");
    holds(rt, is_shown(rt, indexes, 2, "fire opal"), "put back");
    indexes.let_go(1);
    holds(rt, is_shown(rt, indexes, 1, "none"), "let go of");
    indexes.make(3).expect(rt, "memory");
    indexes.let_go(2);
    holds(rt, is_shown(rt, indexes, 2, "none"), "let go of too");
    holds(rt, is_shown(rt, indexes, 3, "ruby"), "kept");
}

#[test]
fn indexes_stand_under_numbers(rt: HostRuntime) {
    let mut indexes = Indexes::new(rt.alloc());
    stand_under_numbers(&rt, rt.alloc(), &mut indexes);
    drop(indexes);
}
