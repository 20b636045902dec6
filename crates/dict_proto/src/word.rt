// A word of a line.
ghost use Rattle.std.specs.Prelude.{◌≡◌, IfOk};
ghost use Rattle.std.specs.Str.{IsUtf8};
ghost use Rattle.std.specs.String.{string_bytes};
ghost use Rattle.dict_proto.specs.Meaning.{is_word_named};

use crate::place::Place;
use std::alloc::{AllocError, Global};

// A word as the line spells it, with its quoting.
#[derive(Drop)]
pub(crate) struct Word<'a> {
    spelling: &'a [u8],
}

impl<'a> Word<'a> {
    ghost use Rattle.dict_proto.specs.Content.{content_of};

    pub(crate) fn new(spelling: &'a [u8]) -> Word<'a>
        ensures { result.spelling.now ≡ spelling.now }
    {
        Word { spelling }
    }

    // Whether the word is this name, without regard to ASCII case.
    pub(crate) fn is_named(&self, name: &str) -> bool
        ensures { result ≡ is_word_named (content_of self.now) name.now }
    {
        let mut place = Place::Within;
        let mut left = name.as_bytes();
        for octet in self.spelling {
            if place.is_content(*octet) {
                match left.split_first() {
                    Some((first, rest)) if octet.eq_ignore_ascii_case(first) => left = rest,
                    _ => return false,
                }
            }
            place = place.after(*octet);
        }
        left.is_empty()
    }

    // The word without its quoting. Its room is taken once.
    pub(crate) fn content(&self, alloc: Global) -> Result<String, AllocError>
        requires { IsUtf8 (content_of self.now) }
        ensures { IfOk result (λ content. string_bytes content ≡ content_of self.now) }
    {
        let mut content = Vec::with_capacity(alloc, self.spelling.len())?;
        let mut place = Place::Within;
        for octet in self.spelling {
            if place.is_content(*octet) {
                content.push_reserved(*octet);
            }
            place = place.after(*octet);
        }
        Ok(String::from_utf8(content).unwrap())
    }
}
