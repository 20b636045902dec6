//! Which keys a query finds.

ghost use Rattle.std.specs.Prelude.{◌≡◌, ◌↔◌, ◌<◌, length, drop, IsTrue};
ghost use Rattle.dict_match.specs.Words.{words_between_blanks};
ghost use Rattle.dict_match.specs.Matching.{Hits, Fits, is_hit, StandsIn, HasWords, BeginsWithWords, EndsWithWords};

use crate::strategy::Strategy;
use crate::word::{split_word, words};
use memchr::{memchr, memmem};

/// Whether a query finds an entry by a strategy, given the keys of both. An empty query finds nothing.
/// No memory is taken.
pub fn matches(strategy: Strategy, query: &[u8], key: &[u8]) -> bool
    ensures hits { IsTrue result ↔ Hits strategy query.now key.now }
    ensures decided { result ≡ is_hit strategy query.now key.now }
{
    !query.is_empty() && fits(strategy, query, key)
}

/// Whether a key is as the strategy wants it, for a query that isn't empty.
fn fits(strategy: Strategy, query: &[u8], key: &[u8]) -> bool
    requires { 0 < length query.now }
    ensures { IsTrue result ↔ Fits strategy query.now key.now }
{
    match strategy {
        Strategy::Exact => key == query,
        Strategy::Prefix => key.starts_with(query),
        Strategy::Suffix => key.ends_with(query),
        Strategy::Substring => contains(key, query),
        Strategy::Word => has_words(key, query),
        Strategy::First => begins_with_words(key, query),
        Strategy::Last => ends_with_words(key, query),
    }
}

/// Whether `query`, which isn't empty, stands in `key`. Most keys are told by a search for its first byte,
/// which is quicker than to begin a search for the whole.
fn contains(key: &[u8], query: &[u8]) -> bool
    requires { 0 < length query.now }
    ensures { IsTrue result ↔ StandsIn query.now key.now }
{
    let Some(at) = memchr(query[0], key) else {
        return false;
    };
    let (_, rest) = key.split_at(at);
    query.len() <= rest.len() && memmem::find(rest, query).is_some()
}

/// Whether the words of `query` are the first words of `key`.
fn begins_with_words(key: &[u8], query: &[u8]) -> bool
    ensures { IsTrue result ↔ BeginsWithWords (words_between_blanks key.now) (words_between_blanks query.now) }
{
    let mut rest = words(key);
    for word in words(query) {
        let Some(found) = rest.next() else {
            return false;
        };
        if found != word {
            return false;
        }
    }
    true
}

/// Whether the words of `query` are a run among the words of `key`.
fn has_words(key: &[u8], query: &[u8]) -> bool
    ensures { IsTrue result ↔ HasWords (words_between_blanks key.now) (words_between_blanks query.now) }
{
    let mut rest = key;
    while !begins_with_words(rest, query) {
        match split_word(rest) {
            Some((_, others)) => rest = others,
            None => return false,
        }
    }
    true
}

/// Whether the words of `query` are the last words of `key`.
fn ends_with_words(key: &[u8], query: &[u8]) -> bool
    ensures { IsTrue result ↔ EndsWithWords (words_between_blanks key.now) (words_between_blanks query.now) }
{
    let here = count_words(key);
    let wanted = count_words(query);
    wanted <= here && begins_with_words(without_words(key, here - wanted), query)
}

/// How many words `bytes` has.
fn count_words(bytes: &[u8]) -> usize
    ensures { result ≡ length (words_between_blanks bytes.now) }
{
    words(bytes).count()
}

/// What stands after the first `count` words of `key`.
fn without_words(key: &[u8], count: usize) -> &[u8]
    ensures { words_between_blanks result.now ≡ drop count (words_between_blanks key.now) }
{
    let mut rest = key;
    for _ in 0..count {
        match split_word(rest) {
            Some((_, others)) => rest = others,
            None => return rest,
        }
    }
    rest
}
