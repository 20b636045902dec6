// The title and the info that a database's reserved texts tell.
ghost use Rattle.std.specs.Prelude.{◌≡◌, IfOk, IfErr, MatchBool, Some, None, slice_get};
ghost use Rattle.std.specs.BTreeMap.{get_by_text};
ghost use Rattle.dict_index.specs.Refused.{IsTitleFault};
ghost use Rattle.dict_index.specs.Views.{octets_of};
ghost use Rattle.std.specs.Option.{option_map};
ghost use Rattle.std.specs.Str.{bytes_eq};
ghost use Rattle.dict_text.specs.Lines.{text_lines};
ghost use Rattle.dict_text.specs.Blanks.{without_blanks_at_ends};
ghost use Rattle.dict_match.specs.Key.{reserved_key_of};
ghost use Rattle.dict_index.specs.Reserved.{without_key_line, short_key, info_key, title_from, info_from};
ghost use Rattle.dict_index.specs.Tests.{IsTitle};

use crate::columns::cut_at;
use crate::fault::{EditionRefusal, IndexFault};
use crate::line::as_text;
use dict_match::reserved_key_of;
use dict_text::{MAX_TITLE, has_control, without_blanks_at_ends};
use std::alloc::{AllocError, Global};
use std::collections::BTreeMap;

// Whether a line has the key.
fn has_key(alloc: Global, line: &str, key: &[u8]) -> Result<bool, AllocError>
    ensures { IfOk result (λ has. has ≡ bytes_eq (reserved_key_of line.now) key.now) }
{
    let line_key = reserved_key_of(alloc, line)?;
    Ok(line_key.as_bytes() == key)
}

/// The text without its first line, where that line has the key.
pub fn without_key_line<'a>(alloc: Global, text: &'a str, key: &[u8]) -> Result<&'a str, AllocError>
    ensures { IfOk result (λ rest. rest.now ≡ without_key_line key.now text.now) }
{
    let Some((first, rest)) = cut_at(b'\n', text.as_bytes()) else {
        return if has_key(alloc, text, key)? {
            Ok("")
        } else {
            Ok(text)
        };
    };
    if has_key(alloc, as_text(first), key)? {
        Ok(as_text(rest))
    } else {
        Ok(text)
    }
}

// The first line of a text.
fn first_line(text: &str) -> Option<&str>
    ensures { option_map (λ line. line.now) result ≡ slice_get (text_lines text.now) 0 }
{
    if text.is_empty() {
        return None;
    }
    match cut_at(b'\n', text.as_bytes()) {
        Some((first, _behind)) => Some(as_text(first)),
        None => Some(text),
    }
}

/// The first line that remains of the short text, without blanks at its ends.
pub fn title_of<'a>(alloc: Global, short: &'a str) -> Result<Option<&'a str>, AllocError>
    ensures { IfOk result (λ title. option_map (λ line. line.now) title
        ≡ option_map without_blanks_at_ends (slice_get (text_lines (without_key_line short_key short.now)) 0)) }
{
    let rest = without_key_line(alloc, short, b"00databaseshort")?;
    let Some(line) = first_line(rest) else {
        return Ok(None);
    };
    Ok(Some(as_text(without_blanks_at_ends(line.as_bytes()))))
}

/// Whether a text may be a title.
pub fn is_title(title: &str) -> bool
    ensures { MatchBool result (IsTitle title.now) (¬ IsTitle title.now) }
{
    !title.is_empty() && title.len() <= MAX_TITLE && !has_control(title.as_bytes())
}

// The text under a reserved key.
fn text_at<'a>(reserved: &BTreeMap<String, &'a str>, key: &str) -> Option<&'a str>
    ensures { result ≡ get_by_text reserved.now key.now }
{
    reserved.get(key).copied()
}

// The title and the info that the texts under the reserved keys tell.
pub(crate) fn title_and_info<'a>(
    alloc: Global,
    reserved: &BTreeMap<String, &'a str>,
) -> Result<(&'a str, &'a str), IndexFault>
    ensures title { IfOk result (λ told. title_from (octets_of (get_by_text reserved.now short_key)) ≡ Some told.0.now) }
    ensures good { IfOk result (λ told. IsTitle told.0.now) }
    ensures info { IfOk result (λ told. told.1.now ≡ info_from (octets_of (get_by_text reserved.now info_key))) }
    ensures refused { IfErr result (λ fault. IsTitleFault fault (title_from (octets_of (get_by_text reserved.now short_key)))) }
{
    let Some(short) = text_at(reserved, "00databaseshort") else {
        return Err(refused(EditionRefusal::NoTitle));
    };
    let title = match title_of(alloc, short) {
        Ok(Some(title)) => title,
        Ok(None) => return Err(refused(EditionRefusal::NoTitle)),
        Err(_) => return Err(IndexFault::Memory),
    };
    if !is_title(title) {
        return Err(refused(EditionRefusal::BadTitle));
    }
    let Some(info) = text_at(reserved, "00databaseinfo") else {
        return Ok((title, ""));
    };
    match without_key_line(alloc, info, b"00databaseinfo") {
        Ok(info) => Ok((title, info)),
        Err(_) => Err(IndexFault::Memory),
    }
}

/// A refusal without a line.
pub fn refused(refusal: EditionRefusal) -> IndexFault
    ensures { result ≡ IndexFault.Refused refusal None }
{
    IndexFault::Refused {
        refusal,
        line: None,
    }
}
