// What a name, a title and a request id may be.
ghost use Rattle.std.specs.Prelude.{◌≡◌};
ghost use Rattle.std.specs.List.{list_all};
ghost use Rattle.dict_text.specs.Characters.{is_blank};
ghost use Rattle.dict_text.specs.Names.{is_name, is_request_id, is_title, is_small_letter, is_capital_letter, is_digit, is_name_octet, is_request_octet, has_size, first_passes, last_passes};

use crate::characters::{has_control, is_blank_octet};

/// The most characters of a name.
const MAX_NAME: usize = 32;

/// The most characters of a request's id.
const MAX_REQUEST_ID: usize = 64;

/// The most octets of a title.
pub const MAX_TITLE: usize = 200;

/// Whether the text may be the name of a database: 1 to 32 of `a-z 0-9 _ -`, beginning with `a-z`.
#[tactic(auto, unfolding(crate::specs::Names::is_name))]
pub fn is_name(text: &str) -> bool
    ensures { result ≡ is_name text.now }
{
    let octets = text.as_bytes();
    has_size(octets, MAX_NAME) && are_name_octets(octets) && begins_with_small_letter(octets)
}

/// Whether the text may be the id of a request: 1 to 64 of `A-Z a-z 0-9 -`.
#[tactic(auto, unfolding(crate::specs::Names::is_request_id))]
pub fn is_request_id(text: &str) -> bool
    ensures { result ≡ is_request_id text.now }
{
    let octets = text.as_bytes();
    has_size(octets, MAX_REQUEST_ID) && are_request_octets(octets)
}

/// Whether the text may be the title of a database, an edition's or a virtual one's: 1 to 200 octets, no control character, and no blank at
/// an end.
#[tactic(auto, unfolding(crate::specs::Names::is_title))]
pub fn is_title(text: &str) -> bool
    ensures { result ≡ is_title text.now }
{
    let octets = text.as_bytes();
    has_size(octets, MAX_TITLE)
        && !has_control(octets)
        && !begins_with_blank(octets)
        && !ends_with_blank(octets)
}

fn has_size(octets: &[u8], most: usize) -> bool
    ensures { result ≡ has_size most octets.now }
{
    1 <= octets.len() && octets.len() <= most
}

fn is_small_letter(octet: u8) -> bool
    ensures { result ≡ is_small_letter octet }
{
    b'a' <= octet && octet <= b'z'
}

fn is_capital_letter(octet: u8) -> bool
    ensures { result ≡ is_capital_letter octet }
{
    b'A' <= octet && octet <= b'Z'
}

fn is_digit(octet: u8) -> bool
    ensures { result ≡ is_digit octet }
{
    b'0' <= octet && octet <= b'9'
}

fn is_name_octet(octet: u8) -> bool
    ensures { result ≡ is_name_octet octet }
{
    is_small_letter(octet) || is_digit(octet) || octet == b'_' || octet == b'-'
}

fn is_request_octet(octet: u8) -> bool
    ensures { result ≡ is_request_octet octet }
{
    is_capital_letter(octet) || is_small_letter(octet) || is_digit(octet) || octet == b'-'
}

fn are_name_octets(octets: &[u8]) -> bool
    ensures { result ≡ list_all is_name_octet octets.now }
{
    octets.iter().all(|octet| is_name_octet(*octet))
}

fn are_request_octets(octets: &[u8]) -> bool
    ensures { result ≡ list_all is_request_octet octets.now }
{
    octets.iter().all(|octet| is_request_octet(*octet))
}

fn begins_with_small_letter(octets: &[u8]) -> bool
    ensures { result ≡ first_passes is_small_letter octets.now }
{
    match octets.first() {
        Some(octet) => is_small_letter(*octet),
        None => false,
    }
}

fn begins_with_blank(octets: &[u8]) -> bool
    ensures { result ≡ first_passes is_blank octets.now }
{
    match octets.first() {
        Some(octet) => is_blank_octet(*octet),
        None => false,
    }
}

fn ends_with_blank(octets: &[u8]) -> bool
    ensures { result ≡ last_passes is_blank octets.now }
{
    match octets.last() {
        Some(octet) => is_blank_octet(*octet),
        None => false,
    }
}
