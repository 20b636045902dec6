// The texts, and how many octets they have.
ghost use Rattle.std.specs.Prelude.{◌≡◌, ◌≤◌, ◌+◌, [], length, take, option_map, OnOk, OnErr, IfOk, IfSome, IsSome};
ghost use Rattle.std.specs.Map.{lookup, remove_entry};
ghost use Rattle.lru.specs.LruCache.{lru_cache};
ghost use Rattle.store_holdings.specs.KeptTexts.{most_kept_octets, most_texts, same_key, octets_of_texts, texts_of, kept_texts, fitting, put_first, with_text};

use lru::LruCache;
use std::alloc::{AllocError, Global};
use std::marker::Model;
use std::num::NonZeroUsize;

/// How many octets the texts that are kept have at most, all together.
pub const MAX_OCTETS: usize = 268_435_456;

/// How many texts are kept at most: as many whole parts, of 16,384 octets, have `MAX_OCTETS`.
pub const MAX_TEXTS: usize = 16_384;

/// The number of an edition, and that of a part of its text.
pub type PartKey = (u64, u64);

/// Parts of texts, each by the number of its edition and its own number, those that were used last first. No memory is taken before the first is put.
pub struct TextParts {
    alloc: Global,
    kept: Option<LruCache<PartKey, Vec<u8>>>,
    pub(crate) octets: usize,
}

// It is written out, so that what owns one doesn't prove again how each part is dropped.
impl Drop for TextParts {
    fn drop(self) {
        let TextParts {
            alloc: _,
            kept: _,
            octets: _,
        } = self;
    }
}

impl Model for TextParts {
    ghost use Rattle.std.specs.Prelude.{ℕ, List};
    ghost use Rattle.store_holdings.specs.KeptTexts.{PartNumbers, kept_texts, TextsAreCounted};

    ghost Value = { List (PartNumbers × List ℕ) };

    ghost view = { λ t. kept_texts t.kept };

    ghost invariant = { λ t. TextsAreCounted t.kept t.octets };
}

// A cache of no texts.
fn cache(alloc: Global) -> Result<LruCache<PartKey, Vec<u8>>, AllocError>
    ensures { IfOk result (λ kept. kept ≡ lru_cache [] most_texts) }
{
    let Some(most) = NonZeroUsize::new(MAX_TEXTS) else {
        return Err(AllocError);
    };
    LruCache::sparse(alloc, most)
}

// A cache is there from then on.
fn make(alloc: Global, kept: &mut Option<LruCache<PartKey, Vec<u8>>>) -> Result<(), AllocError>
    requires { IfSome kept.old (λ cache. cache.cap ≡ most_texts) }
    ensures some { OnOk result (IsSome kept.new) }
    ensures cap { IfSome kept.new (λ cache. cache.cap ≡ most_texts) }
    ensures same { kept_texts kept.new ≡ kept_texts kept.old }
{
    if kept.is_none() {
        *kept = Some(cache(alloc)?);
    }
    Ok(())
}

// Takes out the text under a key.
fn take_from(
    kept: &mut LruCache<PartKey, Vec<u8>>,
    octets: &mut usize,
    key: PartKey,
) -> Option<Vec<u8>>
    requires { octets.old ≡ octets_of_texts (texts_of kept.old.entries) }
    ensures text { option_map (λ text. text.items) result ≡ lookup (same_key key) (texts_of kept.old.entries) }
    ensures rest { texts_of kept.new.entries ≡ remove_entry (same_key key) (texts_of kept.old.entries) }
    ensures cap { kept.new.cap ≡ kept.old.cap }
    ensures counted { octets.new ≡ octets_of_texts (texts_of kept.new.entries) }
    ensures fewer { octets.new ≤ octets.old }
{
    match kept.pop(&key) {
        Some(taken) => {
            *octets -= taken.len();
            Some(taken)
        }
        None => None,
    }
}

// Puts a text first, in place of the one under its key, or where there are too many, of the last.
fn put_new(
    kept: &mut LruCache<PartKey, Vec<u8>>,
    octets: &mut usize,
    key: PartKey,
    text: Vec<u8>,
) -> Result<(), AllocError>
    requires cap { kept.old.cap ≡ most_texts }
    requires counted { octets.old ≡ octets_of_texts (texts_of kept.old.entries) }
    requires few { octets.old ≤ most_kept_octets }
    requires short { length text.items ≤ most_kept_octets }
    ensures cap { kept.new.cap ≡ most_texts }
    ensures put { OnOk result (texts_of kept.new.entries ≡ put_first key text.items (texts_of kept.old.entries)) }
    ensures same { OnErr result (kept.new ≡ kept.old) }
    ensures counted { octets.new ≡ octets_of_texts (texts_of kept.new.entries) }
    ensures sum { octets.new ≤ most_kept_octets + most_kept_octets }
{
    let _count = kept.len();
    let size = text.len();
    match kept.push(key, text) {
        Ok(Some((_, former))) => *octets = *octets + size - former.len(),
        Ok(None) => *octets += size,
        Err(_) => return Err(AllocError),
    }
    Ok(())
}

// Lets go of the texts that were used least recently, until those that are left have no more octets than this.
pub(crate) fn let_go(kept: &mut LruCache<PartKey, Vec<u8>>, octets: &mut usize, most: usize)
    requires counted { octets.old ≡ octets_of_texts (texts_of kept.old.entries) }
    ensures cap { kept.new.cap ≡ kept.old.cap }
    ensures fits { texts_of kept.new.entries ≡ fitting most (texts_of kept.old.entries) }
    ensures counted { octets.new ≡ octets_of_texts (texts_of kept.new.entries) }
{
    while *octets > most {
        let Some((_, text)) = kept.pop_lru() else {
            return;
        };
        *octets -= text.len();
    }
}

impl TextParts {
    /// No texts.
    pub fn new(alloc: Global) -> TextParts
        ensures { result ≡ [] }
    {
        TextParts {
            alloc,
            kept: None,
            octets: 0,
        }
    }

    /// Takes out the text under a key, if one is kept.
    pub fn take(&mut self, key: PartKey) -> Option<Vec<u8>>
        ensures text { option_map (λ text. text.items) result ≡ lookup (same_key key) self.old }
        ensures rest { self.new ≡ remove_entry (same_key key) self.old }
    {
        let Some(kept) = &mut self.kept else {
            return None;
        };
        take_from(kept, &mut self.octets, key)
    }

    /// Keeps a text under a key, first, in place of the one that was kept under it. Those that were used least recently go
    /// until there are `MAX_TEXTS` at most, and all together have no more octets than `MAX_OCTETS`. A text that is longer
    /// than that isn't kept.
    ///
    /// The error is that a growth was refused: the text isn't kept, and all is as it was.
    pub fn put(&mut self, key: PartKey, text: Vec<u8>) -> Result<(), AllocError>
        ensures put { OnOk result (self.new ≡ with_text key text.items self.old) }
        ensures refused { OnErr result (self.new ≡ self.old) }
    {
        if text.len() > MAX_OCTETS {
            return Ok(());
        }
        make(self.alloc, &mut self.kept)?;
        let Some(kept) = &mut self.kept else {
            return Ok(());
        };
        put_new(kept, &mut self.octets, key, text)?;
        let_go(kept, &mut self.octets, MAX_OCTETS);
        Ok(())
    }

    /// Lets go of all texts.
    pub fn forget_all(&mut self)
        ensures { self.new ≡ [] }
    {
        self.kept = None;
        self.octets = 0;
    }
}
