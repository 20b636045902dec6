// What one line of an index says, over a text.
ghost use Rattle.std.specs.Prelude.{◌≡◌, ℕ, ◌+◌, ◌<◌, ◌≤◌, ◌^◌, length, take, drop, MatchOption, MatchBool, IfSome, unwrap_or, IfOk, IfErr, OnOk, List};
ghost use Rattle.std.specs.Str.{IsUtf8};
ghost use Rattle.dict_text.specs.Number.{Spells};
ghost use Rattle.dict_match.specs.Key.{key_of, reserved_key_of};
ghost use Rattle.dict_index.specs.Line.{IsLine};
ghost use Rattle.dict_index.specs.Views.{line_of, HasBodyIn, HasReservedKey, octets_of};
ghost use Rattle.dict_index.specs.Refusals.{said_tests};
ghost use Rattle.dict_index.specs.Refused.{PassesEach, IsLineFault};
ghost use Rattle.dict_index.specs.Tests.{IsHeadword, IsShown, IsText, IsTextOctet, HasShortLines};

use crate::columns::{Columns, columns_of};
use crate::entry::Entry;
use crate::fault::EditionRefusal;
use bstr::ByteSlice;
use dict_match::{Key, key_of, reserved_key_of};
use dict_text::{has_control, is_control_octet, read_number, text_lines};
use std::alloc::{AllocError, Global};

const MAX_HEADWORD: usize = 255;

const MAX_SHOWN: usize = 255;

const MAX_TEXT_LINE: usize = 1021;

// The offset and the size that the columns spell.
pub(crate) fn interval_of(columns: Columns<'_>) -> Option<(u64, u64)>
    ensures spelled { MatchOption result ((m n : ℕ) → Spells columns.entry.offset.now m → Spells columns.entry.size.now n → ⊥)
        (λ interval. Spells columns.entry.offset.now interval.0 × Spells columns.entry.size.now interval.1) }
    ensures small { MatchOption result (Unit {0}) (λ interval. (interval.0 < 64 ^ 6) × (interval.1 < 64 ^ 6)) }
{
    let Ok(offset) = read_number(columns.offset) else {
        return None;
    };
    let Ok(size) = read_number(columns.size) else {
        return None;
    };
    Some((offset, size))
}

/// What an interval cuts out of a text, if it lies within it.
pub fn cut_out(text: &[u8], offset: u64, size: u64) -> Option<&[u8]>
    ensures { MatchOption result (length text.now < offset + size)
        (λ body. (offset + size ≤ length text.now) × (body.now ≡ take size (drop offset text.now))) }
{
    let most = text.len() as u64;
    if offset > most || size > most - offset {
        return None;
    }
    Some(&text[offset as usize..(offset + size) as usize])
}

// The key by which a headword is reserved, if the text may be a headword.
pub(crate) fn headword_key(alloc: Global, headword: &str) -> Result<Option<Key>, AllocError>
    ensures { IfOk result (λ found. MatchOption found (¬ IsHeadword headword.now) (λ key. IsHeadword headword.now × (key ≡ reserved_key_of headword.now))) }
{
    if headword.is_empty() || headword.len() > MAX_HEADWORD || has_control(headword.as_bytes()) {
        return Ok(None);
    }
    let key = reserved_key_of(alloc, headword)?;
    if key.as_bytes().is_empty() {
        return Ok(None);
    }
    Ok(Some(key))
}

// The key that searches look at, of a headword with this key by the first version of folding: in ASCII it is that one.
pub(crate) fn searched_key(alloc: Global, headword: &str, reserved: Key) -> Result<Key, AllocError>
    requires { reserved ≡ reserved_key_of headword.now }
    ensures { IfOk result (λ key. key ≡ key_of headword.now) }
{
    if headword.is_ascii() {
        return Ok(reserved);
    }
    key_of(alloc, headword)
}

// Whether octets may be shown as a headword.
pub(crate) fn is_showable(octets: &[u8]) -> bool
    ensures { MatchBool result (IsShown octets.now) (¬ IsShown octets.now) }
{
    !octets.is_empty() && octets.len() <= MAX_SHOWN && !has_control(octets)
}

// What is shown: the fourth column where there is one, if it may be, and else the headword.
fn shown_of<'a>(headword: &'a str, fourth: Option<&'a [u8]>) -> Option<&'a str>
    requires { IfSome (octets_of fourth) IsUtf8 }
    ensures { MatchOption result (¬ IfSome (octets_of fourth.entry) IsShown)
        (λ shown. IfSome (octets_of fourth.entry) IsShown × (shown.now ≡ unwrap_or (octets_of fourth.entry) headword.now)) }
{
    let Some(column) = fourth else {
        return Some(headword);
    };
    if !is_showable(column) {
        return None;
    }
    Some(as_text(column))
}

// Whether an octet is none of a control character, or LF, or tab.
fn is_text_octet(octet: u8) -> bool
    ensures { MatchBool result (IsTextOctet octet) (¬ IsTextOctet octet) }
{
    octet == b'\n' || octet == b'\t' || !is_control_octet(octet)
}

// The octets as text, if they are text with no control character but LF and tab.
pub(crate) fn text_of(octets: &[u8]) -> Option<&str>
    ensures { MatchOption result (¬ IsText octets.now) (λ text. IsText octets.now × (text.now ≡ octets.now)) }
{
    for octet in octets {
        if !is_text_octet(*octet) {
            return None;
        }
    }
    match octets.to_str() {
        Ok(text) => Some(text),
        Err(_) => None,
    }
}

// Whether no line of the text is too long for a reply.
pub(crate) fn has_short_lines(text: &[u8]) -> bool
    ensures { MatchBool result (HasShortLines text.now) (¬ HasShortLines text.now) }
{
    let mut lines = text_lines(text);
    while let Some(line) = lines.next() {
        if line.len() > MAX_TEXT_LINE {
            return false;
        }
    }
    true
}

// The octets of a text, as text.
pub(crate) fn as_text(octets: &[u8]) -> &str
    requires { IsUtf8 octets.now }
    ensures { result.now ≡ octets.now }
{
    match octets.to_str() {
        Ok(text) => text,
        Err(_) => unreachable!(),
    }
}

/// Why a line is no entry.
#[derive(Clone, Copy, Debug, PartialEq, Eq)]
pub(crate) enum EntryLineFault {
    Refused(EditionRefusal),
    Memory,
}

// What a line says, where it passes the tests up to that of its body's lines.
pub(crate) fn read_line<'a>(
    alloc: Global,
    line: &'a [u8],
    text: &'a [u8],
) -> Result<Entry<'a>, EntryLineFault>
    requires { IsUtf8 line.now }
    ensures said { IfOk result (λ entry. IsLine line.now (line_of entry)) }
    ensures body { IfOk result (HasBodyIn text.now) }
    ensures key { IfOk result HasReservedKey }
    ensures text { IfOk result (λ entry. IsUtf8 entry.headword.now) }
    ensures passes { OnOk result ((before : List (List ℕ)) → PassesEach said_tests text.now before line.now) }
    ensures refused { IfErr result (λ fault. IsLineFault fault text.now line.now) }
{
    let Some(columns) = columns_of(line) else {
        return Err(EntryLineFault::Refused(EditionRefusal::Columns));
    };
    let Some((offset, size)) = interval_of(columns) else {
        return Err(EntryLineFault::Refused(EditionRefusal::Number));
    };
    let Some(body) = cut_out(text, offset, size) else {
        return Err(EntryLineFault::Refused(EditionRefusal::Interval));
    };
    let headword = as_text(columns.headword);
    let key = match headword_key(alloc, headword) {
        Ok(Some(key)) => key,
        Ok(None) => return Err(EntryLineFault::Refused(EditionRefusal::Headword)),
        Err(_) => return Err(EntryLineFault::Memory),
    };
    let Some(shown) = shown_of(headword, columns.shown) else {
        return Err(EntryLineFault::Refused(EditionRefusal::Shown));
    };
    let Some(body) = text_of(body) else {
        return Err(EntryLineFault::Refused(EditionRefusal::BodyText));
    };
    if !has_short_lines(body.as_bytes()) {
        return Err(EntryLineFault::Refused(EditionRefusal::BodyLine));
    }
    Ok(Entry {
        headword,
        key,
        shown,
        body,
        offset: offset as usize,
        size: size as usize,
    })
}
