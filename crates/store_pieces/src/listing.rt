//! The runs of three octets of keys, which are listed in slices.
ghost use Rattle.std.specs.Prelude.{◌≡◌, IfOk, IfSome, length};
ghost use Rattle.std.specs.List.Sorted.{IsPermutation, IsSorted};
ghost use Rattle.store_derived.specs.KeptGrams.{kept_grams};
ghost use Rattle.store_pieces.specs.Listing.{AreListed, AreRunsTaken, AreSorted, AreRunsCompared, AreGroupedOf};
ghost use Rattle.store_pieces.specs.Pieces.{occurrences_from};
ghost use Rattle.store_pieces.specs.PlacedPieces.{grams_placed, gram_cmp};

use crate::pieces::{Pieces, pieces_of, put};
use crate::placed::{PlacedGram, add_grams, are_in_order, compare_grams, each_once, put_in_order};
use std::alloc::{AllocError, Global};
use std::cmp::Ordering;
use store_derived::{PlaceLists, Texts};
use store_places::{Compares, Merging};

/// The runs of so many keys are taken in a slice.
const KEYS: u32 = 32_768;

/// So many runs are compared with the one before them in a slice.
const NEIGHBOURS: usize = 131_072;

/// So many runs are grouped in a slice.
const RUNS: usize = 131_072;

/// The runs of three octets that stand in the keys before a place.
#[derive(Drop)]
pub struct TakenRuns {
    pub runs: Vec<PlacedGram>,
    pub place: u32,
}

/// The runs of all keys in the order that the sorting gave them. So many first ones were compared, and are in order.
#[derive(Drop)]
pub struct ComparedRuns {
    pub runs: Vec<PlacedGram>,
    pub compared: usize,
}

/// The runs of three octets in order, each once, of which those before a place are grouped.
#[derive(Drop)]
pub struct GroupedRuns {
    pub placed: Vec<PlacedGram>,
    pub at: usize,
    pub texts: Texts,
    pub lists: PlaceLists,
}

/// What is made of the list of the runs of three octets of keys.
#[derive(Drop)]
pub enum Listing {
    Taken(TakenRuns),
    Sorted(Merging<PlacedGram>),
    Compared(ComparedRuns),
    Grouped(GroupedRuns),
    Made(Pieces),
}

/// The order of the runs.
#[derive(Clone, Copy)]
struct ByRank;

impl Compares<PlacedGram> for ByRank {
    fn compare(&self, one: &PlacedGram, other: &PlacedGram) -> Ordering {
        compare_grams(one, other)
    }
}

/// Whether the whole list is made.
pub fn is_listed(listing: &Option<Listing>) -> bool {
    match listing {
        Some(Listing::Made(_)) => true,
        _ => false,
    }
}

/// Makes the next slice of the runs of these keys. The only error is refused memory.
pub fn list_more(
    alloc: Global,
    keys: &Texts,
    count: u32,
    begun: Option<Listing>,
) -> Result<Listing, AllocError>
    requires count { count ≡ length keys.now }
    requires begun { IfSome begun (AreListed keys.now) }
    ensures { IfOk result (AreListed keys.now) }
{
    match begun {
        None => Ok(Listing::Taken(TakenRuns {
            runs: Vec::new(alloc),
            place: 0,
        })),
        Some(Listing::Taken(taken)) => take_more(alloc, keys, count, taken),
        Some(Listing::Sorted(merging)) => sort_more(keys, merging),
        Some(Listing::Compared(compared)) => compare_more(alloc, keys, compared),
        Some(Listing::Grouped(grouped)) => group_more(alloc, keys, grouped),
        Some(Listing::Made(pieces)) => Ok(Listing::Made(pieces)),
    }
}

/// Takes the runs of the next keys, if there are some; else they are to be sorted.
fn take_more(
    alloc: Global,
    keys: &Texts,
    count: u32,
    taken: TakenRuns,
) -> Result<Listing, AllocError>
    requires count { count ≡ length keys.now }
    requires taken { AreRunsTaken keys.now taken }
    ensures { IfOk result (AreListed keys.now) }
{
    let TakenRuns { mut runs, place } = taken;
    if place >= count {
        return Ok(Listing::Sorted(Merging::of(alloc, runs)?));
    }
    let to = count.min(place.saturating_add(KEYS));
    for at in place..to {
        add_grams(&mut runs, keys.get(at as usize), at)?;
    }
    Ok(Listing::Taken(TakenRuns { runs, place: to }))
}

/// Sorts the next of the runs; once all are, they are to be compared.
fn sort_more(keys: &Texts, merging: Merging<PlacedGram>) -> Result<Listing, AllocError>
    requires { AreSorted keys.now merging }
    ensures { IfOk result (AreListed keys.now) }
{
    let mut merging = merging;
    if merging.step(&ByRank)? {
        return Ok(Listing::Sorted(merging));
    }
    Ok(Listing::Compared(ComparedRuns {
        runs: merging.end()?,
        compared: 0,
    }))
}

/// Compares the next of the runs; where one isn't in order, which no proof rules out, all are brought into order at once.
fn compare_more(alloc: Global, keys: &Texts, begun: ComparedRuns) -> Result<Listing, AllocError>
    requires { AreRunsCompared keys.now begun }
    ensures { IfOk result (AreListed keys.now) }
{
    let ComparedRuns { mut runs, compared } = begun;
    let to = runs.len().min(compared.saturating_add(NEIGHBOURS));
    if !are_in_order(runs.as_slice(), compared, to) {
        put_in_order(&mut runs);
        return begin_grouping(alloc, keys, runs);
    }
    if to == runs.len() {
        return begin_grouping(alloc, keys, runs);
    }
    Ok(Listing::Compared(ComparedRuns { runs, compared: to }))
}

/// Each of the runs is left once, and they are to be grouped.
fn begin_grouping(alloc: Global, keys: &Texts, runs: Vec<PlacedGram>) -> Result<Listing, AllocError>
    requires each { IsPermutation (occurrences_from kept_grams 0 keys.now) (grams_placed runs.items) }
    requires rising { IsSorted gram_cmp runs.items }
    ensures { IfOk result (AreListed keys.now) }
{
    let placed = each_once(keys, runs);
    let lists = PlaceLists::with_capacity(alloc, placed.len())?;
    Ok(Listing::Grouped(GroupedRuns {
        placed,
        at: 0,
        texts: Texts::new(alloc),
        lists,
    }))
}

/// Groups the next of the runs, if there are some; else the pieces are made.
fn group_more(alloc: Global, keys: &Texts, grouped: GroupedRuns) -> Result<Listing, AllocError>
    requires { AreGroupedOf keys.now grouped }
    ensures { IfOk result (AreListed keys.now) }
{
    let GroupedRuns {
        placed,
        at,
        mut texts,
        mut lists,
    } = grouped;
    if at >= placed.len() {
        return Ok(Listing::Made(pieces_of(alloc, texts, lists)?));
    }
    let to = placed.len().min(at.saturating_add(RUNS));
    for k in at..to {
        let one = placed[k];
        put(&mut texts, &mut lists, one.gram.as_slice(), one.place)?;
    }
    Ok(Listing::Grouped(GroupedRuns {
        placed,
        at: to,
        texts,
        lists,
    }))
}
