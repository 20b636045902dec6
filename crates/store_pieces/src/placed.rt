//! All words of keys, and their runs of three octets that an index holds, each with the place of its key.
ghost use Rattle.std.specs.Prelude.{◌≡◌, ◌≤◌, ◌+◌, ◌-◌, ◌<◌, ◌++◌, IfOk, OnOk, true, length, map, take};
ghost use Rattle.std.specs.List.Sorted.{IsPermutation, IsSorted};
ghost use Rattle.dict_match.specs.Words.{words_between_blanks};
ghost use Rattle.store_derived.specs.KeptGrams.{kept_grams};
ghost use Rattle.store_pieces.specs.Pieces.{placed_at, occurrences_from, AreOccurrences};
ghost use Rattle.store_pieces.specs.PlacedPieces.{words_placed, grams_placed, gram_cmp, gram_rank, FitsRank};

use dict_match::words;
use std::alloc::{AllocError, Global};
use std::cmp::Ordering;
use store_derived::{Texts, is_kept};

/// A word of the key at a place.
#[derive(Clone, Copy, Debug, PartialEq, Eq, PartialOrd, Ord)]
pub(crate) struct PlacedWord<'a> {
    pub word: &'a [u8],
    pub place: u32,
}

/// A run of three octets of the key at a place.
#[derive(Clone, Copy, Debug, PartialEq, Eq)]
pub struct PlacedGram {
    pub gram: [u8; 3],
    pub place: u32,
}

impl PlacedGram {
    /// A number in the order of the runs, and of the places where runs are the same: one comparison in place of four.
    fn rank(&self) -> u64
        ensures value { result ≡ gram_rank self.now }
        ensures fits { FitsRank self.now }
    {
        let [first, second, third] = self.gram;
        let gram = (first as u64 * 256 + second as u64) * 256 + third as u64;
        gram * 4_294_967_296 + self.place as u64
    }
}

/// By the runs, and by the places where runs are the same.
pub(crate) fn compare_grams(one: &PlacedGram, other: &PlacedGram) -> Ordering
    ensures { result ≡ gram_cmp one.now other.now }
{
    one.rank().cmp(&other.rank())
}

/// Puts the words of the key at a place behind the list, each as often as it stands there.
fn add_words<'a>(
    list: &mut Vec<PlacedWord<'a>>,
    key: &'a [u8],
    place: u32,
) -> Result<(), AllocError>
    ensures { OnOk result (words_placed list.new.items ≡ words_placed list.old.items ++ map (placed_at place) (words_between_blanks key.now)) }
{
    for word in words(key) {
        list.push(PlacedWord { word, place })?;
    }
    Ok(())
}

/// Puts the runs of three octets of the key at a place that an index holds behind the list, each as often as it stands there.
pub(crate) fn add_grams(
    list: &mut Vec<PlacedGram>,
    key: &[u8],
    place: u32,
) -> Result<(), AllocError>
    ensures { OnOk result (grams_placed list.new.items ≡ grams_placed list.old.items ++ map (placed_at place) (kept_grams key.now)) }
{
    for end in 3..key.len() + 1 {
        let gram = [key[end - 3], key[end - 2], key[end - 1]];
        if is_kept(gram.as_slice()) {
            list.push(PlacedGram { gram, place })?;
        }
    }
    Ok(())
}

/// Each word of each key, with the place of its key, in the order of the words and then of the places, once. The only
/// error is refused memory.
pub(crate) fn sorted_words<'a>(
    alloc: Global,
    keys: &'a Texts,
    count: u32,
) -> Result<Vec<PlacedWord<'a>>, AllocError>
    requires { count ≡ length keys.now }
    ensures { IfOk result (λ list. AreOccurrences words_between_blanks keys.now (words_placed list.items)) }
{
    let mut list = Vec::new(alloc);
    for place in 0..count {
        add_words(&mut list, keys.get(place as usize), place)?;
    }
    list.sort_unstable();
    list.dedup();
    Ok(list)
}

/// The same of each run of three octets that an index holds.
pub(crate) fn sorted_grams(
    alloc: Global,
    keys: &Texts,
    count: u32,
) -> Result<Vec<PlacedGram>, AllocError>
    requires { count ≡ length keys.now }
    ensures { IfOk result (λ list. AreOccurrences kept_grams keys.now (grams_placed list.items)) }
{
    let mut runs = Vec::new(alloc);
    for place in 0..count {
        add_grams(&mut runs, keys.get(place as usize), place)?;
    }
    runs.sort_unstable_by(|one, other| compare_grams(one, other));
    runs.dedup();
    Ok(runs)
}

/// Whether the runs between two of them are in order, each behind the one before it.
pub(crate) fn are_in_order(runs: &[PlacedGram], from: usize, to: usize) -> bool
    requires { to ≤ length runs.now }
    ensures { result ≡ true → IsSorted gram_cmp (take from runs.now) → IsSorted gram_cmp (take to runs.now) }
{
    for at in from..to {
        if at > 0 && compare_grams(&runs[at], &runs[at - 1]).is_lt() {
            return false;
        }
    }
    true
}

/// Brings runs of three octets into order.
pub(crate) fn put_in_order(runs: &mut Vec<PlacedGram>)
    ensures same { IsPermutation runs.old.items runs.new.items }
    ensures rising { IsSorted gram_cmp runs.new.items }
{
    runs.sort_unstable_by(|one, other| compare_grams(one, other));
}

/// Runs of three octets that are in order, each once.
pub(crate) fn each_once(keys: &Texts, runs: Vec<PlacedGram>) -> Vec<PlacedGram>
    requires each { IsPermutation (occurrences_from kept_grams 0 keys.now) (grams_placed runs.items) }
    requires rising { IsSorted gram_cmp runs.items }
    ensures { AreOccurrences kept_grams keys.now (grams_placed result.items) }
{
    let mut placed = runs;
    placed.dedup();
    placed
}
