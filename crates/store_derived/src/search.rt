//! Which entries a query looks at.

ghost use Rattle.std.specs.Prelude.{◌≡◌, IfOk, reverse};
ghost use Rattle.store_derived.specs.Search.{rows_selected, rows_for, is_tested, with_last, by_first, by_grams};
ghost use Rattle.store_derived.specs.KeptGrams.{is_kept_gram};
ghost use Rattle.dict_match.specs.Words.{words_between_blanks};

use dict_match::{Strategy, words};
use std::alloc::{AllocError, Global};

/// The entries of an edition that a query looks at, by what the tables have of each. All ends are taken in.
#[derive(Debug, PartialEq, Eq, Drop)]
pub enum Selection {
    Nothing,
    All,
    /// Those of this key.
    Key(Vec<u8>),
    /// Those whose key is from the first on, up to the second.
    Keys(Vec<u8>, Vec<u8>),
    /// Those whose key, read in reverse order, is from the first on, up to the second.
    ReversedKeys(Vec<u8>, Vec<u8>),
    /// Those whose key has both grams, which may be equal.
    Grams([u8; 3], [u8; 3]),
    /// Those whose key has this word.
    Word(Vec<u8>),
}

/// Which entries of an edition a query of this key by a strategy looks at: all that it finds are among them. The only error is want of memory.
pub fn select(alloc: Global, strategy: Strategy, query: &[u8]) -> Result<Selection, AllocError>
    ensures { IfOk result (λ selection. rows_selected selection ≡ rows_for strategy query.now) }
{
    if query.is_empty() {
        return Ok(Selection::Nothing);
    }
    match strategy {
        Strategy::Exact => Ok(Selection::Key(Vec::from_slice(alloc, query)?)),
        Strategy::Prefix => Ok(Selection::Keys(
            Vec::from_slice(alloc, query)?,
            with_last(alloc, query)?,
        )),
        Strategy::Suffix => {
            let low = reversed(alloc, query)?;
            let high = with_last(alloc, low.as_slice())?;
            Ok(Selection::ReversedKeys(low, high))
        }
        Strategy::Substring => Ok(by_grams(query)),
        Strategy::Word | Strategy::First | Strategy::Last => by_first_word(alloc, query),
    }
}

/// Whether what is selected has to be tested by `dict_match::matches`, entry by entry.
pub fn is_tested(strategy: Strategy) -> bool
    ensures { result ≡ is_tested strategy }
{
    !matches!(
        strategy,
        Strategy::Exact | Strategy::Prefix | Strategy::Suffix
    )
}

/// The octets in reverse order.
fn reversed(alloc: Global, octets: &[u8]) -> Result<Vec<u8>, AllocError>
    ensures { IfOk result (λ v. v.items ≡ reverse octets.now) }
{
    octets.iter().rev().copied().collect(alloc)
}

/// The octets, and 255 behind them.
fn with_last(alloc: Global, octets: &[u8]) -> Result<Vec<u8>, AllocError>
    ensures { IfOk result (λ v. v.items ≡ with_last octets.now) }
{
    let mut list = Vec::from_slice(alloc, octets)?;
    list.push(255)?;
    Ok(list)
}

/// The least octet by which a character of several octets begins (RFC 3629, section 3).
const FIRST_OF_SEVERAL: u8 = 0xC0;

/// Whether a run of three octets is looked for: not where its last octet begins a character of several octets, since such a
/// run tells hardly more than its first two.
pub fn is_kept(gram: &[u8]) -> bool
    ensures { result ≡ is_kept_gram gram.now }
{
    match gram.get(2) {
        Some(octet) => *octet < FIRST_OF_SEVERAL,
        None => true,
    }
}

/// By the first and the last of the query's runs of three octets that are looked for, where there is one.
fn by_grams(query: &[u8]) -> Selection
    ensures { rows_selected result ≡ by_grams query.now }
{
    let mut first = None;
    let mut last = [0; 3];
    for end in 3..query.len() + 1 {
        let gram = [query[end - 3], query[end - 2], query[end - 1]];
        if is_kept(gram.as_slice()) {
            first = first.or(Some(gram));
            last = gram;
        }
    }
    match first {
        Some(gram) => Selection::Grams(gram, last),
        None => Selection::All,
    }
}

/// By the first word, where there is one.
fn by_first_word(alloc: Global, query: &[u8]) -> Result<Selection, AllocError>
    ensures { IfOk result (λ selection. rows_selected selection ≡ by_first (words_between_blanks query.now)) }
{
    match words(query).next() {
        Some(word) => Ok(Selection::Word(Vec::from_slice(alloc, word)?)),
        None => Ok(Selection::All),
    }
}
