// The places of a line, octet by octet.
ghost use Rattle.std.specs.Prelude.{◌≡◌, if◌then◌else◌};
ghost use Rattle.dict_text.specs.Characters.{is_control};
ghost use Rattle.dict_proto.specs.Words.{is_quoting, is_quote_sign};
ghost use Rattle.dict_proto.specs.LineWords.{next_place, place_after, in_string, stuck};
ghost use Rattle.dict_proto.specs.Places.{place_of, is_content, ends_word};

use dict_text::{is_blank_octet, is_control_octet};

// Where in a line an octet stands.
#[derive(Clone, Copy, Debug, PartialEq, Eq)]
pub(crate) enum Place {
    // Between two words.
    Between,
    // In a word, outside of strings.
    Within,
    // In a string that ends at this quote sign.
    InString(u8),
    // After a backslash outside of strings.
    Escaped,
    // After a backslash in a string that ends at this quote sign.
    EscapedIn(u8),
    // After what no word can have.
    Stuck,
}

impl Place {
    // The place after an octet.
    pub(crate) fn after(self, octet: u8) -> Place
        ensures { place_of result ≡ next_place (place_of self) octet }
    {
        match self {
            Place::Between | Place::Within => Place::after_unquoted(octet),
            Place::InString(quote) => Place::after_in_string(quote, octet),
            Place::Escaped => Place::after_pair(octet, Place::Within),
            Place::EscapedIn(quote) => Place::after_pair(octet, Place::InString(quote)),
            Place::Stuck => Place::Stuck,
        }
    }

    fn after_unquoted(octet: u8) -> Place
        ensures { place_of result ≡ place_after octet }
    {
        if is_blank_octet(octet) {
            Place::Between
        } else if is_control_octet(octet) {
            Place::Stuck
        } else if is_quote_sign(octet) {
            Place::InString(octet)
        } else if octet == b'\\' {
            Place::Escaped
        } else {
            Place::Within
        }
    }

    fn after_in_string(quote: u8, octet: u8) -> Place
        ensures { place_of result ≡ next_place (in_string quote) octet }
    {
        if is_control_octet(octet) {
            Place::Stuck
        } else if octet == quote {
            Place::Within
        } else if octet == b'\\' {
            Place::EscapedIn(quote)
        } else {
            Place::InString(quote)
        }
    }

    // The place after the second octet of a quoted pair, where the place around the pair is this one.
    fn after_pair(octet: u8, around: Place) -> Place
        ensures { place_of result ≡ (if is_control octet then stuck else place_of around) }
    {
        if is_control_octet(octet) {
            Place::Stuck
        } else {
            around
        }
    }

    // Whether a word ends before an octet.
    pub(crate) fn ends_word(self, octet: u8) -> bool
        ensures { result ≡ ends_word (place_of self) octet }
    {
        match self {
            Place::Within => is_blank_octet(octet),
            _ => false,
        }
    }

    // Whether an octet of a word is one of its content, and not of its quoting.
    pub(crate) fn is_content(self, octet: u8) -> bool
        ensures { result ≡ is_content (place_of self) octet }
    {
        match self {
            Place::Between | Place::Within => !is_quoting(octet),
            Place::InString(quote) => octet != quote && octet != b'\\',
            Place::Escaped | Place::EscapedIn(_) => true,
            Place::Stuck => false,
        }
    }
}

fn is_quote_sign(octet: u8) -> bool
    ensures { result ≡ is_quote_sign octet }
{
    octet == b'"' || octet == b'\''
}

fn is_quoting(octet: u8) -> bool
    ensures { result ≡ is_quoting octet }
{
    is_quote_sign(octet) || octet == b'\\'
}
