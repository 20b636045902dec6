//! Which of some entries are left: those that a query finds, and those whose keys have a run of three octets.
ghost use Rattle.std.specs.Prelude.{◌≡◌, ◌==◌, true, filter, length};
ghost use Rattle.dict_match.specs.Matching.{is_hit};
ghost use Rattle.dict_match.specs.Words.{words_between_blanks};
ghost use Rattle.store_places.specs.Places.{key_at, places_where};
ghost use Rattle.store_pieces.specs.Selected.{has_gram, finds_all};

use crate::grams::has_gram;
use dict_match::{Strategy, matches, words};
use store_derived::{Texts, is_tested};

/// Keeps those of the places whose key a query finds, where none of those that it finds is missing.
pub fn keep_hits(keys: &Texts, places: &mut Vec<u32>, strategy: Strategy, query: &[u8])
    requires untested { finds_all strategy query.now ≡ true → places.old.items ≡ places_where (is_hit strategy query.now) keys.now }
    requires tested { filter (λ place. is_hit strategy query.now (key_at keys.now place)) places.old.items ≡ places_where (is_hit strategy query.now) keys.now }
    ensures { places.new.items ≡ places_where (is_hit strategy query.now) keys.now }
{
    if finds_all(strategy, query) {
        return;
    }
    places.retain(|place| is_hit_at(keys, *place, strategy, query));
}

/// Whether a query finds all that it looks at, so that no test has to follow.
fn finds_all(strategy: Strategy, query: &[u8]) -> bool
    ensures { result ≡ finds_all strategy query.now }
{
    match strategy {
        Strategy::Word => is_one_word(query),
        _ => !is_tested(strategy),
    }
}

fn is_one_word(query: &[u8]) -> bool
    ensures { result ≡ (length (words_between_blanks query.now) == 1) }
{
    let mut rest = words(query);
    match rest.next() {
        Some(_) => rest.next().is_none(),
        None => false,
    }
}

/// Whether the query finds the key at a place.
fn is_hit_at(keys: &Texts, place: u32, strategy: Strategy, query: &[u8]) -> bool
    ensures { result ≡ is_hit strategy query.now (key_at keys.now place) }
{
    matches(strategy, query, keys.get(place as usize))
}

/// Keeps those of the places whose key has a run of three octets.
pub fn keep_with_gram(keys: &Texts, places: &mut Vec<u32>, gram: &[u8; 3])
    ensures { places.new.items ≡ filter (λ place. has_gram gram.now (key_at keys.now place)) places.old.items }
{
    places.retain(|place| has_gram_at(keys, *place, gram));
}

/// Whether the key at a place has a run of three octets.
fn has_gram_at(keys: &Texts, place: u32, gram: &[u8; 3]) -> bool
    ensures { result ≡ has_gram gram.now (key_at keys.now place) }
{
    has_gram(gram, keys.get(place as usize))
}
