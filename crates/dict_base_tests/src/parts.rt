//! Parts of files of lengths at the borders: split and joined.

use crate::checks::holds;
use std::alloc::Global;
use std::process::Abort;
use store_rows::{Joiner, PART_SIZE, Refused, part};

fn file(rt: &impl Abort, alloc: Global, length: usize) -> Vec<u8> {
    let mut octets = Vec::new(alloc);
    for place in 0..length {
        octets.push((place % 251) as u8).expect(rt, "memory");
    }
    octets
}

static LENGTHS: [usize; 7] = [0, 1, 16_383, 16_384, 16_385, 32_768, 81_921];

// Splits a file and joins it again.
fn splits_and_joins(rt: &impl Abort, octets: &[u8], joiner: &mut Joiner) {
    for number in 0..7_usize {
        let Some(next) = part(octets, number) else {
            holds(
                rt,
                number == octets.len().div_ceil(PART_SIZE),
                "how many parts",
            );
            holds(rt, joiner.as_bytes() == octets, "what was joined");
            return;
        };
        let early = joiner.push(number as u64 + 1, next);
        holds(rt, early == Err(Refused::Wrong), "a part too early");
        let taken = joiner.push(number as u64, next);
        holds(rt, taken == Ok(()), "the next part");
        let again = joiner.push(number as u64, next);
        holds(rt, again == Err(Refused::Wrong), "a part again");
    }
    holds(rt, false, "no more parts");
}

fn goes_around(rt: &impl Abort, alloc: Global, length: usize) {
    let octets = file(rt, alloc, length);
    let mut joiner = Joiner::new(alloc);
    splits_and_joins(rt, &octets, &mut joiner);
    let joined = joiner.into_bytes();
    holds(rt, joined == octets, "the octets");
    drop(joined);
    drop(octets);
}

#[test]
fn parts_join_to_the_file(rt: HostRuntime) {
    for length in &LENGTHS {
        goes_around(&rt, rt.alloc(), *length);
    }
}

// What comes first to a joiner, one after another, and whether it is taken.
fn joins_in_order(rt: &impl Abort, octets: &[u8], joiner: &mut Joiner) {
    let empty = joiner.push(0, &[]);
    holds(rt, empty == Err(Refused::Wrong), "an empty part");
    let long = joiner.push(0, octets);
    holds(rt, long == Err(Refused::Wrong), "too long a part");
    let short = joiner.push(0, b"short");
    holds(rt, short == Ok(()), "a short part");
    let behind = joiner.push(1, b"behind");
    holds(rt, behind == Err(Refused::Wrong), "a part behind the last");
    holds(rt, joiner.as_bytes() == b"short".as_slice(), "the octets");
}

#[test]
fn refuses_what_is_no_next_part(rt: HostRuntime) {
    let octets = file(&rt, rt.alloc(), PART_SIZE + 1);
    let mut joiner = Joiner::new(rt.alloc());
    joins_in_order(&rt, &octets, &mut joiner);
    drop(joiner);
    drop(octets);
}
