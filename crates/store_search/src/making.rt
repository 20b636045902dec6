//! The making of an index by steps.
ghost use Rattle.std.specs.Prelude.{◌≡◌, ◌≢◌, ◌<◌, ◌≤◌, ◌^◌, false, IfOk, IfSome, IsTrue, OnErr, length, map, reverse};
ghost use Rattle.std.specs.List.{All, AllByRecursion};
ghost use Rattle.std.specs.Str.{IsUtf8};
ghost use Rattle.dict_index.specs.Views.{line_of, HasItsKey};
ghost use Rattle.store_derived.specs.KeptGrams.{kept_grams};
ghost use Rattle.dict_match.specs.Words.{words_between_blanks};
ghost use Rattle.store_search.specs.Entries.{entry_of, keys_of};
ghost use Rattle.store_places.specs.Orders.{IsOrderOf};
ghost use Rattle.store_pieces.specs.Listing.{AreListed};
ghost use Rattle.store_pieces.specs.Pieces.{ArePlaced};
ghost use Rattle.store_places.specs.Sorting.{MakesOrderOf};
ghost use Rattle.store_pieces.specs.Wording.{AreWorded};

use crate::entries::Entries;
use crate::index::{Index, Orders, PieceLists, index_with, reversed_places};
use crate::same::are_entries;
use dict_index::Entry;
use std::alloc::{AllocError, Global};
use std::marker::Model;
use std::mem::{self, drop};
use store_derived::Texts;
use store_pieces::{
    Listing, Pieces, Wording, grams_of, is_listed, is_worded, list_more, word_more, words_of,
};
use store_places::{Places, are_made, heads_of, place_more, sorted_places, turn_more};

/// So many steps are made at most: far more than the largest edition takes.
const STEPS: u32 = 65_536;

/// An index that is made part by part, so that what else waits has its turn between two of them. Contracts see the list of its
/// entries, whatever is made of it, and how many steps are left at most.
pub struct IndexMaking {
    alloc: Global,
    entries: Entries,
    left: u32,
    by_key: Option<Places>,
    /// The first keys, each with its octets in reverse order.
    turned: Texts,
    by_reversed_key: Option<Places>,
    words: Option<Wording>,
    grams: Option<Listing>,
}

// It is written out, so that what owns one doesn't prove again how each part is dropped.
impl Drop for IndexMaking {
    fn drop(self) {
        let IndexMaking {
            alloc: _,
            entries: _,
            left: _,
            by_key: _,
            turned: _,
            by_reversed_key: _,
            words: _,
            grams: _,
        } = self;
    }
}

impl Model for IndexMaking {
    ghost use Rattle.store_search.specs.Making.{Begun, AreIndexPartsOf};

    ghost Value = { Begun };

    ghost view = { λ making. record { entries = making.entries; left = making.left } };

    ghost invariant = { λ making. AreIndexPartsOf making.entries making.by_key making.turned making.by_reversed_key making.words making.grams };
}

/// The places in the order of the keys: those that were made, or made now.
fn key_places(
    alloc: Global,
    entries: &Entries,
    made: Option<Places>,
) -> Result<Vec<u32>, AllocError>
    requires few { length entries.now < 2 ^ 32 }
    requires made { IfSome made (MakesOrderOf (keys_of entries.now)) }
    ensures { IfOk result (λ places. IsOrderOf (keys_of entries.now) places.items) }
{
    match made {
        Some(Places::Made(places)) => Ok(places),
        other => {
            drop(other);
            sorted_places(alloc, entries.keys(), entries.len() as u32)
        }
    }
}

/// The same in the order of the keys as these are read from behind.
fn reversed_key_places(
    alloc: Global,
    entries: &Entries,
    made: Option<Places>,
) -> Result<Vec<u32>, AllocError>
    requires few { length entries.now < 2 ^ 32 }
    requires made { IfSome made (MakesOrderOf (map reverse (keys_of entries.now))) }
    ensures { IfOk result (λ places. IsOrderOf (map reverse (keys_of entries.now)) places.items) }
{
    match made {
        Some(Places::Made(places)) => Ok(places),
        other => {
            drop(other);
            reversed_places(alloc, entries, entries.len() as u32)
        }
    }
}

/// The words: those that were made, or made now.
fn key_words(alloc: Global, entries: &Entries, made: Option<Wording>) -> Result<Pieces, AllocError>
    requires few { length entries.now < 2 ^ 32 }
    requires made { IfSome made (AreWorded (keys_of entries.now)) }
    ensures { IfOk result (λ pieces. ArePlaced words_between_blanks (keys_of entries.now) pieces.texts pieces.lists) }
{
    match made {
        Some(Wording::Made(words)) => Ok(words),
        other => {
            drop(other);
            words_of(alloc, entries.keys(), entries.len() as u32)
        }
    }
}

/// The runs of three octets: those that were made, or made now.
fn key_grams(alloc: Global, entries: &Entries, made: Option<Listing>) -> Result<Pieces, AllocError>
    requires few { length entries.now < 2 ^ 32 }
    requires made { IfSome made (AreListed (keys_of entries.now)) }
    ensures { IfOk result (λ pieces. ArePlaced kept_grams (keys_of entries.now) pieces.texts pieces.lists) }
{
    match made {
        Some(Listing::Made(grams)) => Ok(grams),
        other => {
            drop(other);
            grams_of(alloc, entries.keys(), entries.len() as u32)
        }
    }
}

impl IndexMaking {
    /// Nothing is made but the list of these entries.
    pub(crate) fn of(alloc: Global, entries: Entries) -> IndexMaking
        requires { length entries < 2 ^ 32 }
        ensures same { result.entries ≡ entries }
        ensures few { result.left ≤ 2 ^ 16 }
    {
        IndexMaking {
            alloc,
            entries,
            left: STEPS,
            by_key: None,
            turned: Texts::new(alloc),
            by_reversed_key: None,
            words: None,
            grams: None,
        }
    }

    /// Whether its entries are those of an edition: the keys, what is shown, and the intervals, one by one. Nothing is made.
    pub fn is_of(&self, entries: &[Entry]) -> bool
        requires { AllByRecursion HasItsKey entries.now }
        ensures same { IsTrue result → self.now.entries ≡ map entry_of (map line_of entries.now) }
        ensures other { result ≡ false → self.now.entries ≢ map entry_of (map line_of entries.now) }
    {
        are_entries(&self.entries, entries)
    }

    /// Makes the next slice of what is missing: of the order of the keys, of that of the keys from behind, of the words, of the
    /// runs of three octets. Whether one was made; so it isn't for ever. The only error is refused memory; then what was made is
    /// as it was, but for the part in hand, which begins anew.
    pub fn step(&mut self) -> Result<bool, AllocError>
        ensures same { self.new.entries ≡ self.old.entries }
        ensures fewer { IfOk result (λ more. IsTrue more → self.new.left < self.old.left) }
    {
        if self.left == 0 {
            return Ok(false);
        }
        self.left -= 1;
        self.make_next()
    }

    fn make_next(&mut self) -> Result<bool, AllocError>
        ensures { self.new ≡ self.old }
    {
        if !are_made(&self.by_key) {
            self.order_keys()
        } else if !are_made(&self.by_reversed_key) {
            self.order_reversed_keys()
        } else if !is_worded(&self.words) {
            self.list_words()
        } else if !is_listed(&self.grams) {
            self.list_grams()
        } else {
            Ok(false)
        }
    }

    fn order_keys(&mut self) -> Result<bool, AllocError>
        ensures { self.new ≡ self.old }
    {
        let count = self.entries.len() as u32;
        let begun = self.by_key.take();
        let placed = place_more(self.alloc, self.entries.keys(), count, begun)?;
        drop(mem::replace(&mut self.by_key, Some(placed)));
        Ok(true)
    }

    /// All keys are turned first.
    fn order_reversed_keys(&mut self) -> Result<bool, AllocError>
        ensures { self.new ≡ self.old }
    {
        if self.turned.len() < self.entries.len() {
            turn_more(self.alloc, self.entries.keys(), &mut self.turned)?;
            return Ok(true);
        }
        let count = self.entries.len() as u32;
        let begun = self.by_reversed_key.take();
        let placed = place_more(self.alloc, &self.turned, count, begun)?;
        drop(mem::replace(&mut self.by_reversed_key, Some(placed)));
        Ok(true)
    }

    fn list_words(&mut self) -> Result<bool, AllocError>
        ensures { self.new ≡ self.old }
    {
        let count = self.entries.len() as u32;
        let begun = self.words.take();
        let listed = word_more(self.alloc, self.entries.keys(), count, begun)?;
        drop(mem::replace(&mut self.words, Some(listed)));
        Ok(true)
    }

    fn list_grams(&mut self) -> Result<bool, AllocError>
        ensures { self.new ≡ self.old }
    {
        let count = self.entries.len() as u32;
        let begun = self.grams.take();
        let listed = list_more(self.alloc, self.entries.keys(), count, begun)?;
        drop(mem::replace(&mut self.grams, Some(listed)));
        Ok(true)
    }

    /// The places in both orders: those that were made, or made now. Of what was made none is left.
    fn take_orders(&mut self) -> Result<Orders, AllocError>
        ensures same { self.new ≡ self.old }
        ensures keys { IfOk result (λ orders. IsOrderOf (keys_of self.old.entries) orders.by_key.items) }
        ensures reversed { IfOk result (λ orders. IsOrderOf (map reverse (keys_of self.old.entries)) orders.by_reversed_key.items) }
    {
        let by_key = key_places(self.alloc, &self.entries, self.by_key.take())?;
        let key_heads = heads_of(self.alloc, self.entries.keys(), by_key.as_slice())?;
        let made = self.by_reversed_key.take();
        let by_reversed_key = reversed_key_places(self.alloc, &self.entries, made)?;
        Ok(Orders {
            by_key,
            key_heads,
            by_reversed_key,
        })
    }

    /// The words and the runs of three octets: those that were made, or made now. Of what was made none is left.
    fn take_lists(&mut self) -> Result<PieceLists, AllocError>
        ensures same { self.new ≡ self.old }
        ensures words { IfOk result (λ lists. ArePlaced words_between_blanks (keys_of self.old.entries) lists.words.texts lists.words.lists) }
        ensures trigrams { IfOk result (λ lists. ArePlaced kept_grams (keys_of self.old.entries) lists.grams.texts lists.grams.lists) }
    {
        let words = key_words(self.alloc, &self.entries, self.words.take())?;
        match key_grams(self.alloc, &self.entries, self.grams.take()) {
            Ok(grams) => Ok(PieceLists { words, grams }),
            Err(fault) => {
                drop(words);
                Err(fault)
            }
        }
    }

    /// Both, of which the lists are made once the orders are.
    fn take_parts(&mut self) -> Result<(Orders, PieceLists), AllocError>
        ensures same { self.new ≡ self.old }
        ensures keys { IfOk result (λ parts. IsOrderOf (keys_of self.old.entries) parts.0.by_key.items) }
        ensures reversed { IfOk result (λ parts. IsOrderOf (map reverse (keys_of self.old.entries)) parts.0.by_reversed_key.items) }
        ensures words { IfOk result (λ parts. ArePlaced words_between_blanks (keys_of self.old.entries) parts.1.words.texts parts.1.words.lists) }
        ensures trigrams { IfOk result (λ parts. ArePlaced kept_grams (keys_of self.old.entries) parts.1.grams.texts parts.1.grams.lists) }
    {
        let orders = self.take_orders()?;
        match self.take_lists() {
            Ok(lists) => Ok((orders, lists)),
            Err(fault) => {
                drop(orders);
                Err(fault)
            }
        }
    }

    /// The entries; none is left.
    fn take_entries(&mut self) -> Entries
        ensures same { result ≡ self.old.entries }
        ensures few { length result < 2 ^ 32 }
        ensures text { All IsUtf8 (keys_of result) }
    {
        // That the keys are UTF-8 is known of them alone.
        let _known = self.entries.keys();
        drop(self.by_key.take());
        drop(self.by_reversed_key.take());
        drop(self.words.take());
        drop(self.grams.take());
        self.turned = Texts::new(self.alloc);
        mem::replace(&mut self.entries, Entries::new(self.alloc))
    }

    /// The index of the entries, none of which is left then; what is missing of it is made. The only error is refused memory; then
    /// the entries stay.
    pub fn finish(&mut self) -> Result<Index, AllocError>
        ensures index { IfOk result (λ index. index ≡ self.old.entries) }
        ensures refused { OnErr result (self.new.entries ≡ self.old.entries) }
    {
        let (orders, lists) = self.take_parts()?;
        let entries = self.take_entries();
        Ok(index_with(entries, orders, lists))
    }

    /// The index of the entries; what is missing of it is made. The only error is refused memory; then nothing of it is left.
    pub fn end(self) -> Result<Index, AllocError>
        ensures { IfOk result (λ index. index ≡ self.entries) }
    {
        let mut making = self;
        let made = making.finish();
        drop(making);
        made
    }
}
