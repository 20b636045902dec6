//! Places that are brought into the order of their texts in slices.
ghost use Rattle.std.specs.Prelude.{◌≡◌, IfOk, IfSome, length, map, reverse, take};
ghost use Rattle.store_places.specs.Sorting.{ArePlacesOf, AreComparedOf, MakesOrderOf};

use crate::heads::all_heads;
use crate::merging::{Compares, Merging};
use crate::order::{are_in_order, compare_heads, first_places, put_in_order, reversed};
use std::alloc::{AllocError, Global};
use std::cmp::Ordering;
use store_derived::Texts;

/// So many places are compared with the one before them in a slice.
const NEIGHBOURS: usize = 32_768;

/// So many texts are turned in a slice.
const TEXTS: usize = 65_536;

/// The order of places by the heads of their texts, and by the texts where these are the same.
#[derive(Clone, Copy)]
struct ByHeads<'a> {
    heads: &'a [u64],
    texts: &'a Texts,
}

impl Compares<u32> for ByHeads<'_> {
    fn compare(&self, one: &u32, other: &u32) -> Ordering {
        compare_heads(self.heads, self.texts, *one, *other)
    }
}

/// The places of texts, which are being sorted.
#[derive(Drop)]
pub struct Sorting {
    pub heads: Vec<u64>,
    pub places: Merging<u32>,
}

impl Sorting {
    /// Nothing is sorted yet. The only error is refused memory.
    pub fn of(alloc: Global, texts: &Texts, count: u32) -> Result<Sorting, AllocError>
        requires { count ≡ length texts.now }
        ensures { IfOk result (λ sorting. ArePlacesOf texts.now sorting.places) }
    {
        let heads = all_heads(alloc, texts)?;
        let first = first_places(alloc, count)?;
        let places = Merging::of(alloc, first)?;
        Ok(Sorting { heads, places })
    }

    /// Sorts the next slice. Whether there is more to sort. The only error is refused memory.
    pub(crate) fn step(&mut self, texts: &Texts) -> Result<bool, AllocError>
        requires { ArePlacesOf texts.now self.old.places }
        ensures { ArePlacesOf texts.now self.new.places }
    {
        let order = ByHeads {
            heads: self.heads.as_slice(),
            texts,
        };
        self.places.step(&order)
    }
}

/// All places in the order that the sorting gave them. So many first ones were compared by their texts, and are in order.
#[derive(Drop)]
pub struct ComparedPlaces {
    pub heads: Vec<u64>,
    pub places: Vec<u32>,
    pub compared: usize,
}

/// What is made of the order of places.
#[derive(Drop)]
pub enum Places {
    Sorted(Sorting),
    Compared(ComparedPlaces),
    Made(Vec<u32>),
}

/// Whether the whole order is made.
pub fn are_made(places: &Option<Places>) -> bool {
    match places {
        Some(Places::Made(_)) => true,
        _ => false,
    }
}

/// Makes the next slice of the order of the texts' places. The only error is refused memory.
pub fn place_more(
    alloc: Global,
    texts: &Texts,
    count: u32,
    begun: Option<Places>,
) -> Result<Places, AllocError>
    requires count { count ≡ length texts.now }
    requires begun { IfSome begun (MakesOrderOf texts.now) }
    ensures { IfOk result (MakesOrderOf texts.now) }
{
    match begun {
        None => Ok(Places::Sorted(Sorting::of(alloc, texts, count)?)),
        Some(places) => place_next(texts, places),
    }
}

/// Makes the next slice of an order that is begun; one that is made stays so. The only error is refused memory.
pub fn place_next(texts: &Texts, begun: Places) -> Result<Places, AllocError>
    requires { MakesOrderOf texts.now begun }
    ensures { IfOk result (MakesOrderOf texts.now) }
{
    match begun {
        Places::Sorted(sorting) => sort_more(texts, sorting),
        Places::Compared(compared) => Ok(compare_more(texts, compared)),
        Places::Made(places) => Ok(Places::Made(places)),
    }
}

/// Sorts the next of them; once all are, they are to be compared.
fn sort_more(texts: &Texts, sorting: Sorting) -> Result<Places, AllocError>
    requires { ArePlacesOf texts.now sorting.places }
    ensures { IfOk result (MakesOrderOf texts.now) }
{
    let mut sorting = sorting;
    if sorting.step(texts)? {
        return Ok(Places::Sorted(sorting));
    }
    let Sorting { heads, places } = sorting;
    Ok(Places::Compared(ComparedPlaces {
        heads,
        places: places.end()?,
        compared: 0,
    }))
}

/// Compares the next of them; where one isn't in order, which no proof rules out, all are brought into order at once.
fn compare_more(texts: &Texts, begun: ComparedPlaces) -> Places
    requires { AreComparedOf texts.now begun }
    ensures { MakesOrderOf texts.now result }
{
    let ComparedPlaces {
        heads,
        mut places,
        compared,
    } = begun;
    let to = places.len().min(compared.saturating_add(NEIGHBOURS));
    if !are_in_order(texts, places.as_slice(), compared, to) {
        put_in_order(texts, heads.as_slice(), &mut places);
        return Places::Made(places);
    }
    if to == places.len() {
        return Places::Made(places);
    }
    Places::Compared(ComparedPlaces {
        heads,
        places,
        compared: to,
    })
}

/// Puts the next of the texts behind those that are put with their octets in reverse order. The only error is refused memory.
pub fn turn_more(alloc: Global, texts: &Texts, turned: &mut Texts) -> Result<(), AllocError>
    requires { turned.old ≡ map reverse (take (length turned.old) texts.now) }
    ensures { turned.new ≡ map reverse (take (length turned.new) texts.now) }
{
    let from = turned.len();
    let to = texts.len().min(from.saturating_add(TEXTS));
    for at in from..to {
        let one = reversed(alloc, texts.get(at))?;
        turned.push(one.as_slice())?;
    }
    Ok(())
}
