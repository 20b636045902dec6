//! Places in the order of their texts, and those whose text lies between two others.
ghost use Rattle.std.specs.Prelude.{◌≡◌, ◌<◌, ◌≤◌, ℕ, true, false, length, map, filter, reverse, take, IfOk, IsPermutation, slice_index_or};
ghost use Rattle.std.specs.List.{range_with_len};
ghost use Rattle.std.specs.List.Sorted.{IsSorted};
ghost use Rattle.std.specs.Ordering.{is_le};
ghost use Rattle.store_derived.specs.Derived.{octets_cmp};
ghost use Rattle.store_places.specs.Places.{key_at, places_where};
ghost use Rattle.store_places.specs.Orders.{place_cmp, is_between, IsOrderOf};

use crate::heads::{all_heads, count_before};
use std::alloc::{AllocError, Global};
use std::cmp::Ordering;
use store_derived::Texts;

/// The places of all texts, in the order of the texts' octets, and of the places where these are the same.
pub fn sorted_places(alloc: Global, texts: &Texts, count: u32) -> Result<Vec<u32>, AllocError>
    requires { count ≡ length texts.now }
    ensures { IfOk result (λ places. IsOrderOf texts.now places.items) }
{
    let heads = all_heads(alloc, texts)?;
    let mut places = first_places(alloc, count)?;
    put_in_order(texts, heads.as_slice(), &mut places);
    Ok(places)
}

/// Brings all places into that order. The heads are to be those of the texts.
pub(crate) fn put_in_order(texts: &Texts, heads: &[u64], places: &mut Vec<u32>)
    requires { IsPermutation (range_with_len 0 (length texts.now)) places.old.items }
    ensures { IsOrderOf texts.now places.new.items }
{
    // Numbers are compared quicker than texts. The second sort looks at each place once where the first has them in order, as it
    // always has: so no proof rests on heads.
    places.sort_unstable_by(|a, b| compare_heads(heads, texts, *a, *b));
    places.sort_unstable_by(|a, b| compare(texts, *a, *b));
}

/// The places below `count`.
pub fn first_places(alloc: Global, count: u32) -> Result<Vec<u32>, AllocError>
    ensures { IfOk result (λ places. places.items ≡ range_with_len 0 count) }
{
    (0..count).collect(alloc)
}

/// By the heads of the texts, and as `compare` does where these are the same.
pub(crate) fn compare_heads(heads: &[u64], texts: &Texts, a: u32, b: u32) -> Ordering {
    let one = head_at(heads, a);
    let other = head_at(heads, b);
    if one == other {
        return compare(texts, a, b);
    }
    one.cmp(&other)
}

fn head_at(heads: &[u64], place: u32) -> u64 {
    match heads.get(place as usize) {
        Some(head) => *head,
        None => 0,
    }
}

fn compare(texts: &Texts, a: u32, b: u32) -> Ordering
    ensures { result ≡ place_cmp texts.now a b }
{
    let one = texts.get(a as usize);
    let other = texts.get(b as usize);
    one.cmp(other).then(a.cmp(&b))
}

/// Whether the places between two of them are in that order, each behind the one before it.
pub(crate) fn are_in_order(texts: &Texts, places: &[u32], from: usize, to: usize) -> bool
    requires { to ≤ length places.now }
    ensures { result ≡ true → IsSorted (place_cmp texts.now) (take from places.now) → IsSorted (place_cmp texts.now) (take to places.now) }
{
    for at in from..to {
        if at > 0 && compare(texts, places[at], places[at - 1]).is_lt() {
            return false;
        }
    }
    true
}

/// The texts, each with its octets in reverse order.
pub fn reversed_texts(alloc: Global, texts: &Texts) -> Result<Texts, AllocError>
    ensures { IfOk result (λ turned. turned ≡ map reverse texts.now) }
{
    let mut all = Texts::new(alloc);
    for at in 0..texts.len() {
        let turned = reversed(alloc, texts.get(at))?;
        all.push(turned.as_slice())?;
    }
    Ok(all)
}

pub(crate) fn reversed(alloc: Global, octets: &[u8]) -> Result<Vec<u8>, AllocError>
    ensures { IfOk result (λ turned. turned.items ≡ reverse octets.now) }
{
    octets.iter().rev().copied().collect(alloc)
}

/// The places whose text lies between both ends, which are taken in, rising. The heads are to be those of the texts in the
/// order of the places.
pub fn places_between(
    alloc: Global,
    texts: &Texts,
    sorted: &[u32],
    heads: &[u64],
    low: &[u8],
    high: &[u8],
) -> Result<Vec<u32>, AllocError>
    requires { IsOrderOf texts.now sorted.now }
    ensures { IfOk result (λ places. places.items ≡ places_where (is_between low.now high.now) texts.now) }
{
    let run = run_between(texts, sorted, heads, low, high);
    let mut places = Vec::from_slice(alloc, run)?;
    places.sort_unstable();
    Ok(places)
}

/// Those of the sorted places whose text lies between both ends.
fn run_between<'a>(
    texts: &Texts,
    sorted: &'a [u32],
    heads: &[u64],
    low: &[u8],
    high: &[u8],
) -> &'a [u32]
    requires { IsOrderOf texts.now sorted.now }
    ensures { result.now ≡ filter (λ place. is_between low.now high.now (key_at texts.now place)) sorted.now }
{
    let from = count_before(texts, sorted, heads, low);
    let (_, rest) = sorted.split_at(from);
    let (near, _) = rest.split_at(reach(texts, rest, high));
    let count = near.partition_point(|place| is_up_to(texts, *place, high));
    let (run, _) = near.split_at(count);
    run
}

/// How many of the places have to be looked at for those whose text is up to the end, where these come first: most
/// often these are few. The one behind them, where there is one, is past the end.
fn reach(texts: &Texts, places: &[u32], high: &[u8]) -> usize
    ensures bound { result ≤ length places.now }
    ensures past { (d : ℕ) → result < length places.now → is_le (octets_cmp (key_at texts.now (slice_index_or places.now result d)) high.now) ≡ false }
{
    for count in [1, 4, 16, 64, 256] {
        if count < places.len() && !is_up_to(texts, places[count], high) {
            return count;
        }
    }
    places.len()
}

fn is_up_to(texts: &Texts, place: u32, high: &[u8]) -> bool
    ensures { result ≡ is_le (octets_cmp (key_at texts.now place) high.now) }
{
    texts.get(place as usize).cmp(high).is_le()
}
