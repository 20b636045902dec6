// How the words of a line are found.
ghost use Rattle.std.specs.Prelude.{◌≡◌, ◌≢◌, ◌∷◌, [], Some, true, false, not, is_some, MatchOption};
ghost use Rattle.std.specs.List.{position};
ghost use Rattle.std.specs.Option.{option_map, ForSome};
ghost use Rattle.std.specs.Str.{IsUtf8};
ghost use Rattle.dict_text.specs.Characters.{is_blank};
ghost use Rattle.dict_proto.specs.LineWords.{line_words, words_from, within};
ghost use Rattle.dict_proto.specs.Content.{content_of};
ghost use Rattle.dict_proto.specs.Places.{AreUtf8Words};

use crate::place::Place;
use crate::word::Word;
use dict_text::is_blank_octet;

// Whether the line can be cut into words.
pub(crate) fn can_be_cut(line: &[u8]) -> bool
    ensures { result ≡ is_some (line_words line.now) }
{
    let mut place = Place::Between;
    for octet in line {
        place = place.after(*octet);
    }
    matches!(place, Place::Between | Place::Within)
}

// Whether the line has a word.
pub(crate) fn has_word(line: &[u8]) -> bool
    ensures none { result ≡ false → line_words line.now ≡ Some [] }
    ensures some { result ≡ true → ForSome (line_words line.now) (λ words. words ≢ []) }
{
    first_word_octet(line).is_some()
}

// The first word of a line that can be cut into words, and what follows it.
pub(crate) fn next_word(line: &[u8]) -> Option<(Word, &[u8])>
    requires texts { AreUtf8Words (line_words line.now) }
    ensures { MatchOption result (line_words line.now ≡ Some [])
        (λ x. (line_words line.now ≡ option_map (λ words. content_of x.0 ∷ words) (line_words x.1.now))
        × IsUtf8 (content_of x.0) × AreUtf8Words (line_words x.1.now)) }
{
    let start = first_word_octet(line)?;
    Some(first_word(&line[start..]))
}

// The word at the front of a text, and what follows the word.
fn first_word(text: &[u8]) -> (Word, &[u8])
    requires cut { is_some (words_from within text.now) ≡ true }
    ensures { words_from within text.now ≡ option_map (λ words. content_of result.0 ∷ words) (line_words result.1.now) }
{
    let mut place = Place::Within;
    for i in 0..text.len() {
        let octet = text[i];
        if place.ends_word(octet) {
            return (Word::new(&text[..i]), &text[i..]);
        }
        place = place.after(octet);
    }
    (Word::new(text), &[])
}

// Where the first word begins.
fn first_word_octet(line: &[u8]) -> Option<usize>
    ensures { result ≡ position (λ octet. not (is_blank octet)) line.now }
{
    line.iter().position(|octet| !is_blank_octet(*octet))
}
