// The tests of the files as a whole, which are made before those of the lines.
ghost use Rattle.std.specs.Prelude.{◌≤◌, MatchOption, MatchBool, length};
ghost use Rattle.dict_text.specs.Lines.{text_lines};
ghost use Rattle.dict_index.specs.Limits.{most_lines};
ghost use Rattle.dict_index.specs.Tests.{EndsByLineFeed};
ghost use Rattle.dict_index.specs.Refused.{FailsWhole, PassWholes};

use crate::fault::EditionRefusal;
use crate::limits::{MAX_LINES, MAX_TEXT};
use bstr::ByteSlice;
use dict_text::text_lines;

/// The first test of the whole files that fails.
pub fn whole_refusal(index: &[u8], text: &[u8]) -> Option<EditionRefusal>
    ensures { MatchOption result (PassWholes index.now text.now) (λ refusal. FailsWhole refusal index.now text.now) }
{
    if text.len() > MAX_TEXT {
        return Some(EditionRefusal::TextTooLong);
    }
    if !index.is_utf8() {
        return Some(EditionRefusal::IndexNotUtf8);
    }
    if !ends_by_line_feed(index) {
        return Some(EditionRefusal::LastLine);
    }
    if !has_few_lines(index) {
        return Some(EditionRefusal::TooManyEntries);
    }
    None
}

// Whether an index is empty or ends by LF.
fn ends_by_line_feed(index: &[u8]) -> bool
    ensures { MatchBool result (EndsByLineFeed index.now) (¬ EndsByLineFeed index.now) }
{
    match index.last() {
        None => true,
        Some(last) => *last == b'\n',
    }
}

// Whether an index has no more lines than it may.
fn has_few_lines(index: &[u8]) -> bool
    ensures { MatchBool result (length (text_lines index.now) ≤ most_lines) (¬ (length (text_lines index.now) ≤ most_lines)) }
{
    let mut lines = text_lines(index);
    let mut number = 0usize;
    while let Some(_line) = lines.next() {
        if number == MAX_LINES {
            return false;
        }
        number += 1;
    }
    true
}
