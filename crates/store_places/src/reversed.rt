//! Places in the order of their texts as these are read from behind.
ghost use Rattle.std.specs.Prelude.{◌≡◌, ◌<◌, ◌≤◌, ℕ, false, length, map, filter, reverse, IfOk, slice_index_or};
ghost use Rattle.std.specs.Ordering.{is_lt, is_le};
ghost use Rattle.store_derived.specs.Derived.{octets_cmp};
ghost use Rattle.store_places.specs.Places.{key_at, places_where};
ghost use Rattle.store_places.specs.Orders.{is_between, IsOrderOf};

use std::alloc::{AllocError, Global};
use std::cmp::Ordering;
use store_derived::Texts;

/// The places whose text, read from behind, lies between both ends, which are taken in, rising.
pub fn places_between_reversed(
    alloc: Global,
    texts: &Texts,
    sorted: &[u32],
    low: &[u8],
    high: &[u8],
) -> Result<Vec<u32>, AllocError>
    requires { IsOrderOf (map reverse texts.now) sorted.now }
    ensures { IfOk result (λ places. places.items ≡ places_where (λ key. is_between low.now high.now (reverse key)) texts.now) }
{
    let run = run_between_reversed(texts, sorted, low, high);
    let mut places = Vec::from_slice(alloc, run)?;
    places.sort_unstable();
    Ok(places)
}

/// Those of the sorted places whose text, read from behind, lies between both ends.
fn run_between_reversed<'a>(texts: &Texts, sorted: &'a [u32], low: &[u8], high: &[u8]) -> &'a [u32]
    requires { IsOrderOf (map reverse texts.now) sorted.now }
    ensures { result.now ≡ filter (λ place. is_between low.now high.now (key_at (map reverse texts.now) place)) sorted.now }
{
    let from = sorted.partition_point(|place| is_before(texts, *place, low));
    let (_, rest) = sorted.split_at(from);
    let (near, _) = rest.split_at(reach_reversed(texts, rest, high));
    let count = near.partition_point(|place| is_up_to(texts, *place, high));
    let (run, _) = near.split_at(count);
    run
}

/// How many of the places have to be looked at for those whose text, read from behind, is up to the end, where these come first: most
/// often these are few. The one behind them, where there is one, is past the end.
fn reach_reversed(texts: &Texts, places: &[u32], high: &[u8]) -> usize
    ensures bound { result ≤ length places.now }
    ensures past { (d : ℕ) → result < length places.now → is_le (octets_cmp (key_at (map reverse texts.now) (slice_index_or places.now result d)) high.now) ≡ false }
{
    for count in [1, 4, 16, 64, 256] {
        if count < places.len() && !is_up_to(texts, places[count], high) {
            return count;
        }
    }
    places.len()
}

fn is_before(texts: &Texts, place: u32, low: &[u8]) -> bool
    ensures { result ≡ is_lt (octets_cmp (key_at (map reverse texts.now) place) low.now) }
{
    compare_reversed(texts.get(place as usize), low).is_lt()
}

fn is_up_to(texts: &Texts, place: u32, high: &[u8]) -> bool
    ensures { result ≡ is_le (octets_cmp (key_at (map reverse texts.now) place) high.now) }
{
    compare_reversed(texts.get(place as usize), high).is_le()
}

/// How a text, read from behind, compares with another, octet by octet.
fn compare_reversed(text: &[u8], other: &[u8]) -> Ordering
    ensures { result ≡ octets_cmp (reverse text.now) other.now }
{
    let mut rest = text;
    for octet in other {
        let Some((last, front)) = rest.split_last() else {
            return Ordering::Less;
        };
        if *last != *octet {
            return last.cmp(octet);
        }
        rest = front;
    }
    if rest.is_empty() {
        Ordering::Equal
    } else {
        Ordering::Greater
    }
}
