//! The first octets of sorted texts, as numbers: they tell near where a text stands, in less memory than the texts take.
ghost use Rattle.std.specs.Prelude.{◌≡◌, ◌<◌, ◌≤◌, ◌-◌, ℕ, true, false, length, slice_index_or};
ghost use Rattle.std.specs.Ordering.{is_lt};
ghost use Rattle.std.specs.List.Sorted.{IsPartitionPoint};
ghost use Rattle.store_derived.specs.Derived.{octets_cmp};
ghost use Rattle.store_places.specs.Places.{key_at};
ghost use Rattle.store_places.specs.Orders.{IsOrderOf};

use std::alloc::{AllocError, Global};
use store_derived::Texts;

/// The first of so many sorted texts has its head in a list, and then each one so many behind it.
const STEP: usize = 16;

/// The heads of some of the texts at these places: of the first one, and of each sixteenth behind it. The only error is refused
/// memory.
pub fn heads_of(alloc: Global, texts: &Texts, places: &[u32]) -> Result<Vec<u64>, AllocError> {
    let mut heads = Vec::with_capacity(alloc, places.len().div_ceil(STEP))?;
    for run in places.chunks(STEP) {
        if let Some(place) = run.first() {
            heads.push(head_of(texts.get(*place as usize)))?;
        }
    }
    Ok(heads)
}

/// The number that the first eight octets of a text make; those that it lacks are 0.
fn head_of(text: &[u8]) -> u64 {
    u64::from_be_bytes([
        octet_at(text, 0),
        octet_at(text, 1),
        octet_at(text, 2),
        octet_at(text, 3),
        octet_at(text, 4),
        octet_at(text, 5),
        octet_at(text, 6),
        octet_at(text, 7),
    ])
}

fn octet_at(text: &[u8], at: usize) -> u8 {
    match text.get(at) {
        Some(octet) => *octet,
        None => 0,
    }
}

/// The head of each text. The only error is refused memory.
pub(crate) fn all_heads(alloc: Global, texts: &Texts) -> Result<Vec<u64>, AllocError> {
    let mut heads = Vec::with_capacity(alloc, texts.len())?;
    for at in 0..texts.len() {
        heads.push(head_of(texts.get(at)))?;
    }
    Ok(heads)
}

/// The heads of some of the texts, which rise: of the first one, and of each sixteenth behind it. No proof rests on them. The
/// only error is refused memory.
pub fn sampled_heads(alloc: Global, texts: &Texts) -> Result<Vec<u64>, AllocError> {
    let count = texts.len().div_ceil(STEP);
    let mut heads = Vec::with_capacity(alloc, count)?;
    for at in 0..count {
        heads.push(head_of(texts.get(at * STEP)))?;
    }
    Ok(heads)
}

/// Two places of texts that rise, between which a text most often is, by the heads of some of them. No proof rests on that.
pub fn likely_places(heads: &[u64], text: &[u8]) -> (usize, usize) {
    let (first, last) = likely(heads, text);
    (
        first.saturating_sub(1).saturating_mul(STEP),
        last.saturating_mul(STEP),
    )
}

/// How many of the sorted places have a text before the end. Whatever the heads are, that is found; where they are those
/// of the texts, with fewer looks at these.
pub(crate) fn count_before(texts: &Texts, sorted: &[u32], heads: &[u64], low: &[u8]) -> usize
    requires { IsOrderOf texts.now sorted.now }
    ensures bound { result ≤ length sorted.now }
    ensures point { IsPartitionPoint (λ place. is_lt (octets_cmp (key_at texts.now place) low.now) ≡ true) (λ place. is_lt (octets_cmp (key_at texts.now place) low.now) ≡ false) sorted.now result }
{
    let (first, last) = likely_run(heads, low, sorted.len());
    if !is_within(texts, sorted, first, last, low) {
        return sorted.partition_point(|place| is_before(texts, *place, low));
    }
    let (near, _) = sorted.split_at(last);
    let (_, rest) = near.split_at(first);
    first + rest.partition_point(|place| is_before(texts, *place, low))
}

/// Where among so many sorted texts the first one that is not before this one most often is, by the heads of some of them: from
/// where on, and up to where.
fn likely_run(heads: &[u64], text: &[u8], count: usize) -> (usize, usize)
    ensures { result.0 ≤ result.1 }
{
    let (first, last) = likely(heads, text);
    let to = last.saturating_mul(STEP).min(count);
    if first == 0 {
        return (0, to);
    }
    let from = (first - 1).saturating_mul(STEP).saturating_add(1);
    (from.min(to), to)
}

/// Where the heads have that of the text: from where on, and up to where.
fn likely(heads: &[u64], text: &[u8]) -> (usize, usize)
    ensures { result.0 ≤ result.1 }
{
    let head = head_of(text);
    let first = heads.partition_point(|other| *other < head);
    let (_, rest) = heads.split_at(first);
    (first, first + count_up_to(rest, head))
}

/// How many of the heads are up to this one, where these come first: most often these are few.
fn count_up_to(heads: &[u64], head: u64) -> usize
    ensures { result ≤ length heads.now }
{
    for count in [1, 4, 16, 64, 256] {
        if count < heads.len() && heads[count] > head {
            let (near, _) = heads.split_at(count);
            return near.partition_point(|other| *other <= head);
        }
    }
    heads.partition_point(|other| *other <= head)
}

/// Whether the place of the first text that is not before the end is one of these, or the one behind them.
fn is_within(texts: &Texts, sorted: &[u32], first: usize, last: usize, low: &[u8]) -> bool
    requires { first ≤ last }
    ensures bound { result ≡ true → last ≤ length sorted.now }
    ensures front { result ≡ true → (d : ℕ) → 0 < first → is_lt (octets_cmp (key_at texts.now (slice_index_or sorted.now (first - 1) d)) low.now) ≡ true }
    ensures behind { result ≡ true → (d : ℕ) → last < length sorted.now → is_lt (octets_cmp (key_at texts.now (slice_index_or sorted.now last d)) low.now) ≡ false }
{
    if last > sorted.len() {
        return false;
    }
    if first > 0 && !is_before(texts, sorted[first - 1], low) {
        return false;
    }
    last == sorted.len() || !is_before(texts, sorted[last], low)
}

fn is_before(texts: &Texts, place: u32, low: &[u8]) -> bool
    ensures { result ≡ is_lt (octets_cmp (key_at texts.now place) low.now) }
{
    texts.get(place as usize).cmp(low).is_lt()
}
