// The lines of a text of a dictd file.
ghost use Rattle.std.specs.Prelude.{◌≡◌, ℕ, List};
ghost use Rattle.std.specs.Iterator.{YieldsFirstRef, item_count};
ghost use Rattle.dict_text.specs.Lines.{text_lines};

use memchr::memchr;
use std::marker::Model;

/// The lines of a text that are left, each without its LF. Contracts see it as their list.
#[derive(Drop)]
pub struct TextLines<'a> {
    rest: &'a [u8],
}

impl<'a> Model for TextLines<'a> {
    ghost Value = { List (List ℕ) };

    ghost view = { λ s. text_lines s.rest.now };
}

/// Cuts a text at LF: an empty piece after a last LF is no line, and the empty text has no lines.
/// The lines borrow from the text, and no memory is taken.
pub fn text_lines(text: &[u8]) -> TextLines<'_>
    ensures { result ≡ text_lines text.now }
{
    TextLines { rest: text }
}

impl<'a> Iterator for TextLines<'a> {
    type Item = &'a [u8];

    ghost next_gives = { YieldsFirstRef (λ lines. lines) };

    ghost remaining = { item_count (λ (lines : List (List ℕ)). lines) };

    fn next(&mut self) -> Option<&'a [u8]> {
        if self.rest.is_empty() {
            return None;
        }
        match memchr(b'\n', self.rest) {
            Some(end) => {
                let line = &self.rest[..end];
                self.rest = &self.rest[end + 1..];
                Some(line)
            }
            None => {
                let line = self.rest;
                self.rest = &self.rest[line.len()..];
                Some(line)
            }
        }
    }
}
