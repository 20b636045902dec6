//! What two lists of places have in common.
ghost use Rattle.std.specs.Prelude.{◌≡◌, ◌<◌, ◌≤◌, ◌&&◌, ℕ, Bool, false, List, IfOk, length, filter, slice_index_or};
ghost use Rattle.std.specs.List.Sorted.{IsStrictlyIncreasing};
ghost use Rattle.store_places.specs.Places.{places_where};
ghost use Rattle.store_pieces.specs.Common.{is_below, is_place_from, begins_by};

use std::alloc::{AllocError, Global};

/// The places that both lists have, rising. In the second one it is looked on from where the former one was found: so the
/// first is to be the shorter one. The only error is refused memory.
pub fn common_places(alloc: Global, fewer: &[u32], more: &[u32]) -> Result<Vec<u32>, AllocError>
    ensures { IfOk result (λ both. (p q : List ℕ → Bool) (keys : List (List ℕ)) → fewer.now ≡ places_where p keys → more.now ≡ places_where q keys → both.items ≡ places_where (λ key. p key && q key) keys) }
{
    let mut both = Vec::with_capacity(alloc, fewer.len())?;
    let mut rest = more;
    for place in fewer {
        rest = from_place(rest, *place);
        if begins_with(rest, *place) {
            both.push(*place)?;
        }
    }
    Ok(both)
}

/// Of places that rise those from this one on.
fn from_place(places: &[u32], place: u32) -> &[u32]
    ensures { IsStrictlyIncreasing places.now → result.now ≡ filter (is_place_from place) places.now }
{
    let (near, _) = places.split_at(reach(places, place));
    let below = near.partition_point(|other| *other < place);
    let (_, rest) = places.split_at(below);
    rest
}

/// How many of the places have to be looked at for those below this one, where these come first: most often these are
/// few. The one behind them, where there is one, isn't below it.
fn reach(places: &[u32], place: u32) -> usize
    ensures bound { result ≤ length places.now }
    ensures past { (d : ℕ) → result < length places.now → is_below place (slice_index_or places.now result d) ≡ false }
{
    for count in [2, 16, 128, 1024] {
        if count < places.len() && places[count] >= place {
            return count;
        }
    }
    places.len()
}

/// Whether the first of the places is this one.
fn begins_with(places: &[u32], place: u32) -> bool
    ensures { result ≡ begins_by place places.now }
{
    match places.first() {
        Some(first) => *first == place,
        None => false,
    }
}
