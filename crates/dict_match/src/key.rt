// Keys, by both versions of folding.
ghost use Rattle.std.specs.Prelude.{◌≡◌, List, ℕ, Bool, IfOk};
ghost use Rattle.std.specs.Str.{chars, encode_utf8_all};
ghost use Rattle.std.specs.String.{string_bytes};
ghost use Rattle.caseless.specs.Caseless.{default_case_fold};
ghost use Rattle.dict_match.specs.Key.{folded_by, key_by, in_ascii_lower_case, is_kept_of_ascii, is_kept_first, is_kept, is_number, key_of, reserved_key_of};
ghost use Rattle.ucd_category.specs.GeneralCategory.{general_category};

use crate::joined::Joined;
use caseless::Caseless;
use dict_text::{is_blank, without_blanks_at_ends};
use std::alloc::{AllocError, Global};
use std::marker::Model;
use ucd_category::GeneralCategory;
use ucd_derived::is_alphabetic;

/// The key of a headword or a query. Two texts with one key are the same word to a search by `exact`.
#[derive(Debug, Drop)]
pub struct Key {
    bytes: Vec<u8>,
}

impl Model for Key {
    ghost use Rattle.std.specs.Prelude.{List, ℕ};

    ghost Value = { List ℕ };

    ghost view = { λ key. key.bytes.items };
}

impl Key {
    /// The key's bytes, which are UTF-8.
    pub fn as_bytes(&self) -> &[u8]
        ensures { result.now ≡ self.now }
    {
        self.bytes.as_slice()
    }
}

impl Clone for Key {
    ghost use Rattle.std.specs.Prelude.{◌≡◌};

    ghost is_clone = { λ key copy. copy ≡ key };

    fn clone(&self) -> Result<Self, AllocError> {
        let bytes = Vec::from_slice(self.bytes.allocator().clone()?, self.as_bytes())?;
        Ok(Key { bytes })
    }
}

/// The key of `text`: its full case folding, of which ASCII letters and digits, blanks, and letters and numbers past
/// ASCII are kept; a run of blanks becomes one space, and a space at either end is left out. If nothing is left, the
/// key is the text without blanks at its ends. The only error is want of memory.
#[tactic(auto, unfolding(crate::specs::Key::key_of))]
pub fn key_of(alloc: Global, text: &str) -> Result<Key, AllocError>
    ensures { IfOk result (λ key. key ≡ key_of text.now) }
{
    if text.is_ascii() {
        return reserved_key_of(alloc, text);
    }
    key_from(alloc, text, fold_case(alloc, text)?)
}

/// The key of `text` by the first version, which lowers ASCII letters alone and keeps whatever is past ASCII.
#[tactic(auto, unfolding(crate::specs::Key::reserved_key_of))]
pub fn reserved_key_of(alloc: Global, text: &str) -> Result<Key, AllocError>
    ensures { IfOk result (λ key. key ≡ reserved_key_of text.now) }
{
    key_from(alloc, text, lower_ascii(alloc, text)?)
}

/// The key of `text`, of which `folded` is left by either version.
fn key_from(alloc: Global, text: &str, folded: String) -> Result<Key, AllocError>
    ensures { (normal : List ℕ → List ℕ) (kept : ℕ → Bool) → string_bytes folded ≡ encode_utf8_all (folded_by normal kept (chars text.now)) → IfOk result (λ key. key ≡ key_by normal kept text.now) }
{
    let bytes = if folded.is_empty() {
        Vec::from_slice(alloc, without_blanks_at_ends(text.as_bytes()))?
    } else {
        folded.into_bytes()
    };
    Ok(Key { bytes })
}

/// The words of what the second version keeps of `text`, joined by one space.
fn fold_case(alloc: Global, text: &str) -> Result<String, AllocError>
    ensures { IfOk result (λ folded. string_bytes folded ≡ encode_utf8_all (folded_by default_case_fold is_kept (chars text.now))) }
{
    let mut joined = Joined::with_capacity(alloc, text.len())?;
    for c in text.chars().default_case_fold() {
        if is_kept(c) {
            joined.push(c)?;
        }
    }
    Ok(joined.written)
}

/// The words of what the first version keeps of `text`, joined by one space.
fn lower_ascii(alloc: Global, text: &str) -> Result<String, AllocError>
    ensures { IfOk result (λ folded. string_bytes folded ≡ encode_utf8_all (folded_by in_ascii_lower_case is_kept_first (chars text.now))) }
{
    let mut joined = Joined::with_capacity(alloc, text.len())?;
    for c in text.chars() {
        let lower = c.to_ascii_lowercase();
        if is_kept_first(lower) {
            joined.push(lower)?;
        }
    }
    Ok(joined.written)
}

/// Whether a character is a letter or a digit of ASCII, or a blank.
#[inline]
fn is_kept_of_ascii(c: char) -> bool
    ensures { result ≡ is_kept_of_ascii c }
{
    c.is_ascii_alphanumeric() || is_blank(c)
}

/// Whether the first version keeps a character.
#[inline]
fn is_kept_first(c: char) -> bool
    ensures { result ≡ is_kept_first c }
{
    !c.is_ascii() || is_kept_of_ascii(c)
}

/// Whether the second version keeps a character.
#[inline]
fn is_kept(c: char) -> bool
    ensures { result ≡ is_kept c }
{
    if c.is_ascii() {
        is_kept_of_ascii(c)
    } else {
        is_alphabetic(c) || is_number(c)
    }
}

/// Whether a character is a number: of the category Nd, Nl or No.
fn is_number(c: char) -> bool
    ensures { result ≡ is_number (general_category c) }
{
    matches!(
        GeneralCategory::for_char(c),
        GeneralCategory::DecimalNumber
            | GeneralCategory::LetterNumber
            | GeneralCategory::OtherNumber
    )
}
