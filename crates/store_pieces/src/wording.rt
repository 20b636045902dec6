//! The words of keys, which are listed in slices.
ghost use Rattle.std.specs.Prelude.{◌≡◌, ◌++◌, IfOk, IfSome, OnOk, length, map, slice_index_or};
ghost use Rattle.std.specs.List.{zip};
ghost use Rattle.std.specs.Ordering.{is_eq};
ghost use Rattle.dict_match.specs.Words.{words_between_blanks};
ghost use Rattle.store_places.specs.Orders.{IsOrderOf};
ghost use Rattle.store_pieces.specs.Pieces.{placed_at, occurrences_from, AreOccurrences};
ghost use Rattle.store_pieces.specs.Wording.{AreWorded, AreWordsTaken, AreWordsSorted, AreWordsGrouped, words_with_places, row_cmp};

use crate::pieces::{Pieces, pieces_of, put, words_of};
use dict_match::words;
use std::alloc::{AllocError, Global};
use store_derived::{PlaceLists, Texts};
use store_places::{Places, Sorting, place_next};

/// The words of so many keys are taken in a slice.
const KEYS: u32 = 32_768;

/// So many words are grouped in a slice.
const SLICE: usize = 131_072;

/// So many words are sorted in slices; more of them at once.
const MOST: usize = u32::MAX as usize;

/// Those that stand in the keys before a place, and the place of the key of each.
#[derive(Drop)]
pub struct TakenWords {
    pub found: Texts,
    pub places: Vec<u32>,
    pub place: u32,
}

/// Those of all keys, and what is made of their order.
#[derive(Drop)]
pub struct SortedWords {
    pub found: Texts,
    pub places: Vec<u32>,
    pub sorting: Places,
}

/// The same in order, each once for each key, of which those before a place are grouped.
#[derive(Drop)]
pub struct GroupedWords {
    pub found: Texts,
    pub places: Vec<u32>,
    pub order: Vec<u32>,
    pub at: usize,
    pub texts: Texts,
    pub lists: PlaceLists,
}

/// What is made of the words.
#[derive(Drop)]
pub enum Wording {
    Taken(TakenWords),
    Sorted(SortedWords),
    Grouped(GroupedWords),
    Made(Pieces),
}

/// Whether all of it is made.
pub fn is_worded(wording: &Option<Wording>) -> bool {
    match wording {
        Some(Wording::Made(_)) => true,
        _ => false,
    }
}

/// Makes the next slice of the words of these keys. The only error is refused memory.
pub fn word_more(
    alloc: Global,
    keys: &Texts,
    count: u32,
    begun: Option<Wording>,
) -> Result<Wording, AllocError>
    requires count { count ≡ length keys.now }
    requires begun { IfSome begun (AreWorded keys.now) }
    ensures { IfOk result (AreWorded keys.now) }
{
    match begun {
        None => Ok(Wording::Taken(TakenWords {
            found: Texts::new(alloc),
            places: Vec::new(alloc),
            place: 0,
        })),
        Some(Wording::Taken(taken)) => take_more(alloc, keys, count, taken),
        Some(Wording::Sorted(sorted)) => sort_more(alloc, keys, sorted),
        Some(Wording::Grouped(grouped)) => group_more(alloc, keys, grouped),
        Some(Wording::Made(pieces)) => Ok(Wording::Made(pieces)),
    }
}

/// Takes the words of the next keys, if there are some; else they are to be sorted.
fn take_more(
    alloc: Global,
    keys: &Texts,
    count: u32,
    taken: TakenWords,
) -> Result<Wording, AllocError>
    requires count { count ≡ length keys.now }
    requires taken { AreWordsTaken keys.now taken }
    ensures { IfOk result (AreWorded keys.now) }
{
    let TakenWords {
        mut found,
        mut places,
        place,
    } = taken;
    if place >= count {
        return begin_sorting(alloc, keys, count, found, places);
    }
    let to = count.min(place.saturating_add(KEYS));
    for at in place..to {
        put_words(&mut found, &mut places, keys.get(at as usize), at)?;
    }
    Ok(Wording::Taken(TakenWords {
        found,
        places,
        place: to,
    }))
}

/// Puts the words of the key at a place behind the others, each as often as it stands there.
fn put_words(
    found: &mut Texts,
    places: &mut Vec<u32>,
    key: &[u8],
    place: u32,
) -> Result<(), AllocError>
    requires { length found.old ≡ length places.old.items }
    ensures same { OnOk result (length found.new ≡ length places.new.items) }
    ensures put { OnOk result (zip found.new places.new.items ≡ zip found.old places.old.items ++ map (placed_at place) (words_between_blanks key.now)) }
{
    for word in words(key) {
        found.push(word)?;
        places.push(place)?;
    }
    Ok(())
}

/// The words are to be sorted; or all is made of them, where they are too many.
fn begin_sorting(
    alloc: Global,
    keys: &Texts,
    count: u32,
    found: Texts,
    places: Vec<u32>,
) -> Result<Wording, AllocError>
    requires count { count ≡ length keys.now }
    requires same { length found ≡ length places.items }
    requires all { zip found places.items ≡ occurrences_from words_between_blanks 0 keys.now }
    ensures { IfOk result (AreWorded keys.now) }
{
    if found.len() > MOST {
        return Ok(Wording::Made(words_of(alloc, keys, count)?));
    }
    let sorting = Sorting::of(alloc, &found, found.len() as u32)?;
    Ok(Wording::Sorted(SortedWords {
        found,
        places,
        sorting: Places::Sorted(sorting),
    }))
}

/// Sorts the next of the words; once all are in order, they are to be grouped.
fn sort_more(alloc: Global, keys: &Texts, sorted: SortedWords) -> Result<Wording, AllocError>
    requires { AreWordsSorted keys.now sorted }
    ensures { IfOk result (AreWorded keys.now) }
{
    let SortedWords {
        found,
        places,
        sorting,
    } = sorted;
    match place_next(&found, sorting)? {
        Places::Made(order) => begin_grouping(alloc, keys, found, places, order),
        sorting => Ok(Wording::Sorted(SortedWords {
            found,
            places,
            sorting,
        })),
    }
}

/// Each of the words is left once for each key, and they are to be grouped.
fn begin_grouping(
    alloc: Global,
    keys: &Texts,
    found: Texts,
    places: Vec<u32>,
    order: Vec<u32>,
) -> Result<Wording, AllocError>
    requires same { length found ≡ length places.items }
    requires all { zip found places.items ≡ occurrences_from words_between_blanks 0 keys.now }
    requires order { IsOrderOf found order.items }
    ensures { IfOk result (AreWorded keys.now) }
{
    let order = each_once(keys, &found, places.as_slice(), order);
    let lists = PlaceLists::with_capacity(alloc, order.len())?;
    Ok(Wording::Grouped(GroupedWords {
        found,
        places,
        order,
        at: 0,
        texts: Texts::new(alloc),
        lists,
    }))
}

/// Words in order, each once for each key.
fn each_once(keys: &Texts, found: &Texts, places: &[u32], order: Vec<u32>) -> Vec<u32>
    requires same { length found.now ≡ length places.now }
    requires all { zip found.now places.now ≡ occurrences_from words_between_blanks 0 keys.now }
    requires order { IsOrderOf found.now order.items }
    ensures { AreOccurrences words_between_blanks keys.now (words_with_places found.now places.now result.items) }
{
    let mut once = order;
    once.dedup_by(|one, other| is_same(found, places, *one, *other));
    once
}

/// Whether both are the same word of the same key.
fn is_same(found: &Texts, places: &[u32], one: u32, other: u32) -> bool
    ensures { result ≡ is_eq (row_cmp found.now places.now one other) }
{
    // Places are compared quicker than words.
    if place_at(places, one) != place_at(places, other) {
        return false;
    }
    found.get(one as usize) == found.get(other as usize)
}

/// The place of the key of a word.
fn place_at(places: &[u32], at: u32) -> u32
    ensures { result ≡ slice_index_or places.now at 0 }
{
    match places.get(at as usize) {
        Some(place) => *place,
        None => 0,
    }
}

/// Groups the next of the words, if there are some; else the pieces are made.
fn group_more(alloc: Global, keys: &Texts, grouped: GroupedWords) -> Result<Wording, AllocError>
    requires { AreWordsGrouped keys.now grouped }
    ensures { IfOk result (AreWorded keys.now) }
{
    let GroupedWords {
        found,
        places,
        order,
        at,
        mut texts,
        mut lists,
    } = grouped;
    if at >= order.len() {
        return Ok(Wording::Made(pieces_of(alloc, texts, lists)?));
    }
    let to = order.len().min(at.saturating_add(SLICE));
    for k in at..to {
        let one = order[k];
        let place = place_at(places.as_slice(), one);
        put(&mut texts, &mut lists, found.get(one as usize), place)?;
    }
    Ok(Wording::Grouped(GroupedWords {
        found,
        places,
        order,
        at: to,
        texts,
        lists,
    }))
}
