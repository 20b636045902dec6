//! The pieces of keys, each once with the places of the keys that have it.
ghost use Rattle.std.specs.Prelude.{◌≡◌, ◌<◌, ◌≤◌, ◌⊎◌, ◌++◌, ◌∷◌, [], ℕ, List, IfOk, OnOk, MatchOption, length, slice_index_or, if◌then◌else◌};
ghost use Rattle.std.specs.List.{Contains};
ghost use Rattle.std.specs.List.Sorted.{IsStrictlySortedBy};
ghost use Rattle.dict_match.specs.Words.{words_between_blanks};
ghost use Rattle.store_derived.specs.Derived.{octets_cmp};
ghost use Rattle.store_places.specs.Places.{places_where};
ghost use Rattle.store_pieces.specs.Selected.{has_piece};
ghost use Rattle.store_derived.specs.KeptGrams.{kept_grams};
ghost use Rattle.store_pieces.specs.Pieces.{pairs_of, ends_with_piece, AreOccurrences, ArePlaced};
ghost use Rattle.store_pieces.specs.Common.{HasAllWith};
ghost use Rattle.store_pieces.specs.PlacedPieces.{words_placed, grams_placed};

use crate::placed::{PlacedGram, PlacedWord, sorted_grams, sorted_words};
use std::alloc::{AllocError, Global};
use std::cmp::Ordering;
use store_derived::{PlaceLists, Texts, is_kept};
use store_places::{likely_places, sampled_heads};

/// Pieces that rise, and for each the places of the keys that have it.
#[derive(Drop)]
pub struct Pieces {
    pub texts: Texts,
    pub lists: PlaceLists,
    /// The first octets of some of the pieces: they tell near where one stands.
    heads: Vec<u64>,
}

/// The words of these keys. The only error is refused memory.
pub fn words_of(alloc: Global, keys: &Texts, count: u32) -> Result<Pieces, AllocError>
    requires { count ≡ length keys.now }
    ensures { IfOk result (λ pieces. ArePlaced words_between_blanks keys.now pieces.texts pieces.lists) }
{
    let placed = sorted_words(alloc, keys, count)?;
    let mut texts = Texts::new(alloc);
    let mut lists = PlaceLists::with_capacity(alloc, placed.len())?;
    group_words(&mut texts, &mut lists, placed.as_slice())?;
    pieces_of(alloc, texts, lists)
}

/// The runs of three octets of these keys that an index holds. The only error is refused memory.
pub fn grams_of(alloc: Global, keys: &Texts, count: u32) -> Result<Pieces, AllocError>
    requires { count ≡ length keys.now }
    ensures { IfOk result (λ pieces. ArePlaced kept_grams keys.now pieces.texts pieces.lists) }
{
    let placed = sorted_grams(alloc, keys, count)?;
    let mut texts = Texts::new(alloc);
    let mut lists = PlaceLists::with_capacity(alloc, placed.len())?;
    group_grams(&mut texts, &mut lists, placed.as_slice())?;
    pieces_of(alloc, texts, lists)
}

/// Pieces with their lists. The only error is refused memory.
pub(crate) fn pieces_of(
    alloc: Global,
    texts: Texts,
    lists: PlaceLists,
) -> Result<Pieces, AllocError>
    ensures { IfOk result (λ pieces. (pieces_in : List ℕ → List (List ℕ)) (keys : List (List ℕ)) → ArePlaced pieces_in keys texts lists → ArePlaced pieces_in keys pieces.texts pieces.lists) }
{
    let heads = sampled_heads(alloc, &texts)?;
    Ok(Pieces::packed(texts, lists, heads))
}

/// Groups words that are in order, each with the places that stand beside it.
fn group_words(
    texts: &mut Texts,
    lists: &mut PlaceLists,
    placed: &[PlacedWord],
) -> Result<(), AllocError>
    requires texts { texts.old ≡ [] }
    requires lists { lists.old ≡ [] }
    ensures { OnOk result ((keys : List (List ℕ)) → AreOccurrences words_between_blanks keys (words_placed placed.now) → ArePlaced words_between_blanks keys texts.new lists.new) }
{
    for one in placed {
        put(texts, lists, one.word, one.place)?;
    }
    Ok(())
}

/// Groups runs of three octets that are in order, each with the places that stand beside it.
fn group_grams(
    texts: &mut Texts,
    lists: &mut PlaceLists,
    placed: &[PlacedGram],
) -> Result<(), AllocError>
    requires texts { texts.old ≡ [] }
    requires lists { lists.old ≡ [] }
    ensures { OnOk result ((keys : List (List ℕ)) → AreOccurrences kept_grams keys (grams_placed placed.now) → ArePlaced kept_grams keys texts.new lists.new) }
{
    for one in placed {
        put(texts, lists, one.gram.as_slice(), one.place)?;
    }
    Ok(())
}

/// Puts a place behind those of a piece that is the last one, or comes behind it.
pub(crate) fn put(
    texts: &mut Texts,
    lists: &mut PlaceLists,
    piece: &[u8],
    place: u32,
) -> Result<(), AllocError>
    requires { length texts.old ≡ length lists.old }
    ensures pairs { OnOk result (pairs_of texts.new lists.new ≡ pairs_of texts.old lists.old ++ (piece.now, place) ∷ []) }
    ensures texts { OnOk result (texts.new ≡ (if ends_with_piece texts.old piece.now then texts.old else texts.old ++ piece.now ∷ [])) }
    ensures same { OnOk result (length texts.new ≡ length lists.new) }
{
    if is_last(texts, piece) {
        return lists.push_last(place);
    }
    texts.push(piece)?;
    lists.push_new(place)
}

/// Whether the piece is the last of the texts.
fn is_last(texts: &Texts, piece: &[u8]) -> bool
    ensures { result ≡ ends_with_piece texts.now piece.now }
{
    let count = texts.len();
    count > 0 && texts.get(count - 1) == piece
}

impl Pieces {
    /// Pieces with their lists. No memory is kept for more of them.
    fn packed(mut texts: Texts, mut lists: PlaceLists, heads: Vec<u64>) -> Pieces
        ensures texts { result.texts ≡ texts }
        ensures lists { result.lists ≡ lists }
    {
        texts.shrink();
        lists.shrink();
        Pieces {
            texts,
            lists,
            heads,
        }
    }

    /// The places of the keys that have the piece, rising.
    pub fn places(&self, piece: &[u8]) -> &[u32]
        requires { IsStrictlySortedBy octets_cmp self.now.texts }
        ensures { (pieces_in : List ℕ → List (List ℕ)) (keys : List (List ℕ)) → ArePlaced pieces_in keys self.now.texts self.now.lists → result.now ≡ places_where (has_piece pieces_in piece.now) keys }
    {
        match place_of(&self.texts, self.heads.as_slice(), piece) {
            Some(at) => self.lists.get(at),
            None => &[],
        }
    }
}

impl Pieces {
    /// The shortest of these places and of the lists of those of a query's runs of three octets that an
    /// index holds, where these pieces are runs.
    pub fn rarest<'a>(&'a self, query: &[u8], places: &'a [u32]) -> &'a [u32]
        requires { IsStrictlySortedBy octets_cmp self.now.texts }
        ensures { (keys : List (List ℕ)) → ArePlaced kept_grams keys self.now.texts self.now.lists → (result.now ≡ places.now) ⊎ HasAllWith query.now keys result.now }
    {
        let mut rarest = places;
        for end in 3..query.len() + 1 {
            let gram = &query[end - 3..end];
            if is_kept(gram) {
                rarest = shorter(self.places(gram), rarest);
            }
        }
        rarest
    }
}

/// The one of two lists that has fewer places.
fn shorter<'a>(one: &'a [u32], other: &'a [u32]) -> &'a [u32]
    ensures { (result.now ≡ one.now) ⊎ (result.now ≡ other.now) }
{
    if one.len() < other.len() { one } else { other }
}

/// Where a text stands among those that rise, if it does. Whatever the heads are, that is found; where they are those of
/// some of the texts, with fewer looks at these.
fn place_of(texts: &Texts, heads: &[u64], wanted: &[u8]) -> Option<usize>
    requires { IsStrictlySortedBy octets_cmp texts.now }
    ensures { MatchOption result (Contains texts.now wanted.now → ⊥) (λ at. (at < length texts.now) × (slice_index_or texts.now at [] ≡ wanted.now)) }
{
    let (first, last) = likely_places(heads, wanted);
    let mut low = 0;
    let mut high = texts.len();
    let mut guess = first;
    while low < high {
        let middle = middle_of(low, high, guess);
        guess = guess_behind(guess, first, last);
        match texts.get(middle).cmp(wanted) {
            Ordering::Less => low = middle + 1,
            Ordering::Equal => return Some(middle),
            Ordering::Greater => high = middle,
        }
    }
    None
}

/// A place to look at next: the guess if it lies within, else the middle.
fn middle_of(low: usize, high: usize, guess: usize) -> usize
    requires { low < high }
    ensures low { low ≤ result }
    ensures high { result < high }
{
    if low <= guess && guess < high {
        return guess;
    }
    low + (high - low) / 2
}

/// What is guessed next: the last place behind the first one, and then none.
fn guess_behind(guess: usize, first: usize, last: usize) -> usize {
    if guess == first { last } else { usize::MAX }
}
