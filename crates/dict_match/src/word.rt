//! The words of a key: its longest runs of bytes other than space and tab.

ghost use Rattle.std.specs.Prelude.{◌≡◌, ◌∷◌, ◌≤◌, [], length, MatchOption, List, ℕ};
ghost use Rattle.std.specs.Iterator.{YieldsFirstRef, item_count};
ghost use Rattle.dict_match.specs.Words.{words_between_blanks};

use dict_text::without_leading_blanks;
use memchr::memchr2;
use std::marker::Model;

/// The words of a key that are left. Contracts see it as their list.
#[derive(Drop)]
pub struct WordIterator<'a> {
    rest: &'a [u8],
}

impl<'a> Model for WordIterator<'a> {
    ghost Value = { List (List ℕ) };

    ghost view = { λ words. words_between_blanks words.rest.now };
}

/// The words of `bytes`, each a part of it, in order: the longest runs of bytes other than space and tab.
/// No memory is taken.
pub fn words(bytes: &[u8]) -> WordIterator<'_>
    ensures value { result ≡ words_between_blanks bytes.now }
    ensures len { length result ≤ length bytes.now }
{
    WordIterator { rest: bytes }
}

impl<'a> Iterator for WordIterator<'a> {
    type Item = &'a [u8];

    ghost next_gives = { YieldsFirstRef (λ words. words) };

    ghost remaining = { item_count (λ (words : List (List ℕ)). words) };

    fn next(&mut self) -> Option<&'a [u8]> {
        let (word, rest) = split_word(self.rest)?;
        self.rest = rest;
        Some(word)
    }
}

/// The first word of `bytes`, and what stands after it; nothing where there is no word.
pub(crate) fn split_word(bytes: &[u8]) -> Option<(&[u8], &[u8])>
    ensures { MatchOption result (words_between_blanks bytes.now ≡ []) (λ parts. words_between_blanks bytes.now ≡ parts.0.now ∷ words_between_blanks parts.1.now) }
{
    let start = without_leading_blanks(bytes);
    if start.is_empty() {
        return None;
    }
    let end = memchr2(b' ', b'\t', start).unwrap_or(start.len());
    Some(start.split_at(end))
}
