// The limits of an edition and of its parts, whatever files they come from.
ghost use Rattle.std.specs.Prelude.{◌≡◌, ◌↔◌, IfOk, IsTrue, MatchOption};
ghost use Rattle.dict_match.specs.Key.{key_of};
ghost use Rattle.dict_index.specs.WellFormed.{IsEditionText, IsEntryHeadword, IsEntryShown};

use crate::gather::is_reserved_key;
use crate::line::{has_short_lines, headword_key, is_showable, searched_key, text_of};
use dict_match::Key;
use std::alloc::{AllocError, Global};

/// The most lines of an index.
pub const MAX_LINES: usize = 262_144;

/// The most octets of a text.
pub const MAX_TEXT: usize = 67_108_864;

/// Whether the octets may be an edition's info or an entry's body: UTF-8 without control characters but LF and tab,
/// and no line of more than 1,021 octets.
pub fn is_edition_text(octets: &[u8]) -> bool
    ensures { IsTrue result ↔ IsEditionText octets.now }
{
    text_of(octets).is_some() && has_short_lines(octets)
}

/// Whether a text may be shown in place of a headword: 1 to 255 octets, no control character.
pub fn is_shown(text: &str) -> bool
    ensures { IsTrue result ↔ IsEntryShown text.now }
{
    is_showable(text.as_bytes())
}

/// The key of a text, if the text may be the headword of an entry: 1 to 255 octets, no control character, and a key by
/// the first version of folding that is neither empty nor reserved. What is told is the key that searches look at. The
/// only error is want of memory.
pub fn entry_key(alloc: Global, headword: &str) -> Result<Option<Key>, AllocError>
    ensures { IfOk result (λ found. MatchOption found (¬ IsEntryHeadword headword.now) (λ key. IsEntryHeadword headword.now × (key ≡ key_of headword.now))) }
{
    let Some(reserved) = headword_key(alloc, headword)? else {
        return Ok(None);
    };
    if is_reserved_key(reserved.as_bytes()) {
        return Ok(None);
    }
    Ok(Some(searched_key(alloc, headword, reserved)?))
}
