//! The index of an edition, and what it is asked.
ghost use Rattle.std.specs.Prelude.{◌≡◌, ◌≤◌, ◌&&◌, true, All, IfOk, length, map, filter, reverse};
ghost use Rattle.std.specs.Str.{IsUtf8, bytes_eq};
ghost use Rattle.dict_match.specs.Matching.{is_hit};
ghost use Rattle.dict_match.specs.declared.strategy.Strategy.TheVariants.{Substring};
ghost use Rattle.store_derived.specs.Search.{rows_selected, rows_for};
ghost use Rattle.store_search.specs.Entries.{entry_at, entries_at, keys_of, indexed_shown};
ghost use Rattle.store_places.specs.Places.{key_at, places_where};
ghost use Rattle.store_search.specs.Indexes.{IsIndexed};
ghost use Rattle.store_places.specs.Orders.{IsOrderOf};
ghost use Rattle.store_search.specs.Selected.{AreSelected};
ghost use Rattle.store_pieces.specs.Selected.{is_selected, has_gram, has_word, finds_all};
ghost use Rattle.store_search.specs.Found.{found_places, found_entries, found_headwords, count_selected};

use crate::entries::Entries;
use crate::found::{Counted, Found};
use crate::shown::first_shown;
use dict_match::Strategy;
use std::alloc::{AllocError, Global};
use std::marker::Model;
use store_derived::{Selection, is_kept, select};
use store_pieces::{Pieces, common_places, keep_hits, keep_with_gram};
use store_places::{
    first_places, places_between, places_between_reversed, reversed_texts, sorted_places,
};

/// So many places are tested without a look for those that have a rarer run of three octets.
const FEW: usize = 64;

/// What lookups ask of an edition: its entries, in their order, and the places of their keys in several orders. Contracts
/// see it as the list of its entries.
pub struct Index {
    entries: Entries,
    by_key: Vec<u32>,
    /// The first octets of some of the keys in that order: they tell near where one stands.
    key_heads: Vec<u64>,
    by_reversed_key: Vec<u32>,
    words: Pieces,
    /// Runs of three octets, but for those that `is_kept` leaves out.
    grams: Pieces,
}

// It is written out, so that what owns one doesn't prove again how each part is dropped.
impl Drop for Index {
    fn drop(self) {
        let Index {
            entries: _,
            by_key: _,
            key_heads: _,
            by_reversed_key: _,
            words: _,
            grams: _,
        } = self;
    }
}

impl Model for Index {
    ghost use Rattle.std.specs.Prelude.{List};
    ghost use Rattle.store_search.specs.Entries.{Indexed};

    ghost Value = { List Indexed };

    ghost use Rattle.store_search.specs.Indexes.{IsIndexed};

    ghost view = { λ index. index.entries };

    ghost invariant = { λ index. IsIndexed index.entries index.by_key.items index.by_reversed_key.items index.words index.grams };
}

/// The entry at a place: what is shown of it, and where its text begins in that of its edition and how long it is, in
/// octets.
#[derive(Clone, Copy, Debug)]
pub struct IndexedEntry<'a> {
    pub shown: &'a str,
    pub start: usize,
    pub size: usize,
}

/// The places of entries in the orders of their keys, and the first octets of some keys.
#[derive(Drop)]
pub(crate) struct Orders {
    pub(crate) by_key: Vec<u32>,
    pub(crate) key_heads: Vec<u64>,
    pub(crate) by_reversed_key: Vec<u32>,
}

/// The words of keys, and their runs of three octets, with their places.
#[derive(Drop)]
pub(crate) struct PieceLists {
    pub(crate) words: Pieces,
    pub(crate) grams: Pieces,
}

/// The index that holds this beside its entries.
pub(crate) fn index_with(entries: Entries, orders: Orders, lists: PieceLists) -> Index
    requires { IsIndexed entries orders.by_key.items orders.by_reversed_key.items lists.words lists.grams }
    ensures { result ≡ entries }
{
    Index {
        entries,
        by_key: orders.by_key,
        key_heads: orders.key_heads,
        by_reversed_key: orders.by_reversed_key,
        words: lists.words,
        grams: lists.grams,
    }
}

/// The places of all entries, in the order of their keys as these are read from behind.
pub(crate) fn reversed_places(
    alloc: Global,
    entries: &Entries,
    count: u32,
) -> Result<Vec<u32>, AllocError>
    requires { count ≡ length entries.now }
    ensures { IfOk result (λ places. IsOrderOf (map reverse (keys_of entries.now)) places.items) }
{
    let turned = reversed_texts(alloc, entries.keys())?;
    sorted_places(alloc, &turned, count)
}

impl Index {
    /// How many entries it has.
    pub fn len(&self) -> usize
        ensures { result ≡ length self.now }
    {
        self.entries.len()
    }

    /// The entry at a place, counted from 0; an empty one where there is none. No memory is taken.
    pub fn entry(&self, place: u32) -> IndexedEntry<'_>
        ensures shown { result.shown.now ≡ (entry_at self.now place).shown }
        ensures start { result.start ≡ (entry_at self.now place).start }
        ensures size { result.size ≡ (entry_at self.now place).size }
    {
        let at = place as usize;
        let span = self.entries.span(at);
        IndexedEntry {
            shown: self.entries.shown(at),
            start: span.start,
            size: span.size,
        }
    }

    /// The places of the entries that a selection has, each once, rising. The only error is refused memory.
    pub fn candidates(&self, alloc: Global, selection: &Selection) -> Result<Vec<u32>, AllocError>
        ensures value { IfOk result (λ places. places.items ≡ places_where (is_selected (rows_selected selection.now)) (keys_of self.now)) }
        ensures selected { IfOk result (λ places. AreSelected (rows_selected selection.now) self.now places.items) }
    {
        self.selected_places(alloc, selection)
    }

    fn selected_places(&self, alloc: Global, selection: &Selection) -> Result<Vec<u32>, AllocError>
        ensures { IfOk result (λ places. places.items ≡ places_where (is_selected (rows_selected selection.now)) (keys_of self.now)) }
    {
        match selection {
            Selection::Nothing => Ok(Vec::new(alloc)),
            Selection::All => self.all_places(alloc),
            Selection::Key(key) => self.with_key(alloc, key.as_slice()),
            Selection::Keys(low, high) => places_between(
                alloc,
                self.entries.keys(),
                self.by_key.as_slice(),
                self.key_heads.as_slice(),
                low.as_slice(),
                high.as_slice(),
            ),
            Selection::ReversedKeys(low, high) => places_between_reversed(
                alloc,
                self.entries.keys(),
                self.by_reversed_key.as_slice(),
                low.as_slice(),
                high.as_slice(),
            ),
            Selection::Grams(first, last) => self.with_grams(alloc, first, last),
            Selection::Word(word) => self.with_word(alloc, word.as_slice()),
        }
    }

    fn all_places(&self, alloc: Global) -> Result<Vec<u32>, AllocError>
        ensures { IfOk result (λ places. places.items ≡ places_where (λ key. true) (keys_of self.now)) }
    {
        first_places(alloc, self.entries.len() as u32)
    }

    /// The places of the entries with this key.
    fn with_key(&self, alloc: Global, key: &[u8]) -> Result<Vec<u32>, AllocError>
        ensures { IfOk result (λ places. places.items ≡ places_where (λ other. bytes_eq other key.now) (keys_of self.now)) }
    {
        places_between(
            alloc,
            self.entries.keys(),
            self.by_key.as_slice(),
            self.key_heads.as_slice(),
            key,
            key,
        )
    }

    /// The places of the entries whose keys have this word.
    fn with_word(&self, alloc: Global, word: &[u8]) -> Result<Vec<u32>, AllocError>
        ensures { IfOk result (λ places. places.items ≡ places_where (has_word word.now) (keys_of self.now)) }
    {
        Vec::from_slice(alloc, self.words.places(word))
    }

    /// The places of the entries whose keys have both runs of three octets.
    fn with_grams(
        &self,
        alloc: Global,
        first: &[u8; 3],
        last: &[u8; 3],
    ) -> Result<Vec<u32>, AllocError>
        ensures { IfOk result (λ places. places.items ≡ places_where (λ key. has_gram first.now key && has_gram last.now key) (keys_of self.now)) }
    {
        if !is_kept(first.as_slice()) {
            return self.with_tested(alloc, last, first);
        }
        if !is_kept(last.as_slice()) {
            return self.with_tested(alloc, first, last);
        }
        let one = self.grams.places(first.as_slice());
        let other = self.grams.places(last.as_slice());
        if one.len() <= other.len() {
            common_places(alloc, one, other)
        } else {
            common_places(alloc, other, one)
        }
    }

    /// The places of the entries whose keys have both runs of three octets: those of the first one, tested for the other.
    fn with_tested(
        &self,
        alloc: Global,
        listed: &[u8; 3],
        tested: &[u8; 3],
    ) -> Result<Vec<u32>, AllocError>
        ensures { IfOk result (λ places. places.items ≡ places_where (λ key. has_gram listed.now key && has_gram tested.now key) (keys_of self.now)) }
    {
        let mut places = self.with_gram(alloc, listed)?;
        keep_with_gram(self.entries.keys(), &mut places, tested);
        Ok(places)
    }

    /// The places of the entries whose keys have a run of three octets: of one that the index doesn't hold by a test of all.
    fn with_gram(&self, alloc: Global, gram: &[u8; 3]) -> Result<Vec<u32>, AllocError>
        ensures { IfOk result (λ places. places.items ≡ places_where (has_gram gram.now) (keys_of self.now)) }
    {
        if is_kept(gram.as_slice()) {
            return Vec::from_slice(alloc, self.grams.places(gram.as_slice()));
        }
        let mut places = self.all_places(alloc)?;
        keep_with_gram(self.entries.keys(), &mut places, gram);
        Ok(places)
    }

    /// Of the places that a query looks at those that have to be tested: of a substring's, where they are many, those
    /// that have its rarest run of three octets too. The only error is refused memory.
    fn places_to_test(
        &self,
        alloc: Global,
        selected: Vec<u32>,
        strategy: Strategy,
        query: &[u8],
    ) -> Result<Vec<u32>, AllocError>
        requires text { All IsUtf8 (keys_of self.now) }
        requires selected { selected.items ≡ places_where (is_selected (rows_for strategy query.now)) (keys_of self.now) }
        ensures untested { IfOk result (λ places. finds_all strategy query.now ≡ true → places.items ≡ places_where (is_hit strategy query.now) (keys_of self.now)) }
        ensures tested { IfOk result (λ places. filter (λ place. is_hit strategy query.now (key_at (keys_of self.now) place)) places.items ≡ places_where (is_hit strategy query.now) (keys_of self.now)) }
    {
        match strategy {
            Strategy::Substring => self.with_rarest(alloc, selected, query),
            _ => Ok(selected),
        }
    }

    /// Of the places that a substring looks at, where they are many, those that have its rarest run of three octets too;
    /// none of those found is missing. The only error is refused memory.
    fn with_rarest(
        &self,
        alloc: Global,
        selected: Vec<u32>,
        query: &[u8],
    ) -> Result<Vec<u32>, AllocError>
        requires text { All IsUtf8 (keys_of self.now) }
        requires selected { selected.items ≡ places_where (is_selected (rows_for Substring query.now)) (keys_of self.now) }
        ensures { IfOk result (λ places. filter (λ place. is_hit Substring query.now (key_at (keys_of self.now) place)) places.items ≡ places_where (is_hit Substring query.now) (keys_of self.now)) }
    {
        if selected.len() <= FEW {
            return Ok(selected);
        }
        let rarest = self.grams.rarest(query, selected.as_slice());
        if rarest.len() >= selected.len() {
            return Ok(selected);
        }
        common_places(alloc, rarest, selected.as_slice())
    }

    /// The entries that a query's key finds by a strategy. The only error is refused memory.
    pub fn find(&self, alloc: Global, strategy: Strategy, query: &[u8]) -> Result<Found, AllocError>
        ensures places { IfOk result (λ found. found.places.items ≡ found_places strategy query.now self.now) }
        ensures entries { IfOk result (λ found. entries_at self.now found.places.items ≡ found_entries strategy query.now self.now) }
        ensures looked_at { IfOk result (λ found. found.looked_at ≡ count_selected strategy query.now self.now) }
        ensures fewer { IfOk result (λ found. length (found_entries strategy query.now self.now) ≤ found.looked_at) }
    {
        let keys = self.entries.keys();
        let selection = select(alloc, strategy, query)?;
        let selected = self.candidates(alloc, &selection)?;
        let looked_at = selected.len();
        let mut places = self.places_to_test(alloc, selected, strategy, query)?;
        keep_hits(keys, &mut places, strategy, query);
        Ok(Found { places, looked_at })
    }

    /// Of the headwords shown of the entries found, each once, in the order in which they first stand among these: the
    /// place of an entry that shows it. The only error is refused memory.
    pub fn find_headwords(
        &self,
        alloc: Global,
        strategy: Strategy,
        query: &[u8],
    ) -> Result<Found, AllocError>
        ensures shown { IfOk result (λ found. map indexed_shown (entries_at self.now found.places.items) ≡ found_headwords strategy query.now self.now) }
        ensures looked_at { IfOk result (λ found. found.looked_at ≡ count_selected strategy query.now self.now) }
        ensures fewer { IfOk result (λ found. length (found_entries strategy query.now self.now) ≤ found.looked_at) }
    {
        let found = self.find(alloc, strategy, query)?;
        let places = first_shown(alloc, &self.entries, found.places.as_slice())?;
        Ok(Found {
            places,
            looked_at: found.looked_at,
        })
    }

    /// How many entries a query's key finds by a strategy. The only error is refused memory.
    pub fn count_entries(
        &self,
        alloc: Global,
        strategy: Strategy,
        query: &[u8],
    ) -> Result<Counted, AllocError>
        ensures count { IfOk result (λ counted. counted.count ≡ length (found_entries strategy query.now self.now)) }
        ensures looked_at { IfOk result (λ counted. counted.looked_at ≡ count_selected strategy query.now self.now) }
        ensures fewer { IfOk result (λ counted. length (found_entries strategy query.now self.now) ≤ counted.looked_at) }
    {
        let found = self.find(alloc, strategy, query)?;
        Ok(Counted {
            count: found.places.len(),
            looked_at: found.looked_at,
        })
    }

    /// How many headwords are shown of them, each once. The only error is refused memory.
    pub fn count_headwords(
        &self,
        alloc: Global,
        strategy: Strategy,
        query: &[u8],
    ) -> Result<Counted, AllocError>
        ensures count { IfOk result (λ counted. counted.count ≡ length (found_headwords strategy query.now self.now)) }
        ensures looked_at { IfOk result (λ counted. counted.looked_at ≡ count_selected strategy query.now self.now) }
        ensures fewer { IfOk result (λ counted. length (found_entries strategy query.now self.now) ≤ counted.looked_at) }
    {
        let found = self.find_headwords(alloc, strategy, query)?;
        Ok(Counted {
            count: found.places.len(),
            looked_at: found.looked_at,
        })
    }
}
