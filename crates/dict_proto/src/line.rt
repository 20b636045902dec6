// How a line is read.
ghost use Rattle.std.specs.Prelude.{◌≡◌, ◌||◌, true, false, not, MatchOption, length, ◌==◌};
ghost use Rattle.std.specs.List.{list_all};
ghost use Rattle.std.specs.Str.{chars};
ghost use Rattle.dict_text.specs.Characters.{is_control};
ghost use Rattle.dict_proto.specs.Meaning.{meaning, is_readable};
ghost use Rattle.dict_proto.specs.Told.{Tells};

use crate::parameters::parse_words;
use crate::request::{LineFault, Request};
use crate::words::can_be_cut;
use dict_text::is_control;
use std::alloc::Global;

/// The most octets of a command line, its CR LF counted.
pub const MAX_LINE_OCTETS: usize = 6144;

/// The most characters of a command line, its CR LF counted (RFC 2229, section 2.3).
const MAX_LINE_CHARACTERS: usize = 1024;

/// What a line, without its CR LF, asks for (RFC 2229, section 3). Command words and the second word of SHOW are
/// compared without regard to ASCII case, and all other words are handed on byte for byte, each without its quoting
/// (section 2.2). The faults, in this order: `NotRecognized` for a line that is too long, not UTF-8 or has a control
/// character other than the tab; `IllegalParameters` where it can't be cut into words; `NotRecognized` for no word or
/// an unknown command; `NotImplemented` for OPTION, AUTH and SASLAUTH; `IllegalParameters` for another number of
/// parameters, or an unknown second word of SHOW. `Memory` comes where room for a word was refused, and for no
/// other reason, and only for a DEFINE, a MATCH or a SHOW INFO with the right number of words.
pub fn parse_line(alloc: Global, line: &[u8]) -> Result<Request, LineFault>
    ensures { Tells result (meaning line.now) }
{
    let Some(text) = readable_text(line) else {
        return Err(LineFault::NotRecognized);
    };
    let octets = text.as_bytes();
    if can_be_cut(octets) {
        parse_words(alloc, octets)
    } else {
        Err(LineFault::IllegalParameters)
    }
}

// The line as a text, if it passes the tests that every command line has to.
fn readable_text(line: &[u8]) -> Option<&str>
    ensures { MatchOption result (is_readable line.now ≡ false)
        (λ text. (text.now ≡ line.now) × (is_readable line.now ≡ true)) }
{
    if line.len() > MAX_LINE_OCTETS - 2 {
        return None;
    }
    let Ok(text) = str::from_utf8(line) else {
        return None;
    };
    if character_count(text) > MAX_LINE_CHARACTERS - 2 {
        return None;
    }
    if has_only_text_characters(text) {
        Some(text)
    } else {
        None
    }
}

fn character_count(text: &str) -> usize
    ensures { result ≡ length (chars text.now) }
{
    text.chars().count()
}

// Whether the text has no control character other than tabs.
fn has_only_text_characters(text: &str) -> bool
    ensures { result ≡ list_all (λ c. (c == 9) || not (is_control c)) (chars text.now) }
{
    text.chars().all(|c| c == '\t' || !is_control(c))
}
