// The reply to a command as it is put to a sink, which takes no memory.
ghost use Rattle.std.specs.Prelude.{◌≡◌, ◌<◌, ◌≤◌, ◌++◌, codes, decimal, length, take, MatchOption, IfSome};
ghost use Rattle.std.specs.Char.{digit_char};
ghost use Rattle.std.specs.List.{position};
ghost use Rattle.json.specs.Print.{escape, escape_byte, escape_letter, quoted};
ghost use Rattle.dict_proto.specs.Streams.{Puts};
ghost use Rattle.dict_catalogue.specs.Views.{kept_shown};
ghost use Rattle.http_service.specs.Texts.{kept_text, number_or_null_text, needs_escape};

use crate::replies::verb_text;
use dict_catalogue::Kept;
use dict_proto::{Sink, SinkFault, put_all};
use itoa::Buffer;

/// Puts the JSON of the reply to an accepted command: its number, what it did, its name, and the current edition after
/// an install or a rollback. It takes no memory, and is Ok wherever the sink did not fail; where it failed, a front of
/// this was put.
pub fn put_kept<K: Sink>(sink: &mut K, kept: &Kept) -> Result<(), SinkFault>
    ensures { Puts result (K.stream sink.old) (K.stream sink.new) (kept_text (kept_shown kept.now)) }
{
    put_edition(sink, kept.edition)?;
    put_name(sink, kept.name.as_str())?;
    put_number(sink, kept.number)?;
    let verb = verb_text(kept.verb);
    put_all(sink, &[b",\"verb\":\"", verb.as_bytes(), b"\"}"])
}

// Puts the edition's number, or that there is none.
fn put_edition<K: Sink>(sink: &mut K, edition: Option<u64>) -> Result<(), SinkFault>
    ensures { Puts result (K.stream sink.old) (K.stream sink.new) (codes "{\"edition\":" ++ number_or_null_text edition) }
{
    match edition {
        Some(number) => {
            let mut buffer = Buffer::new();
            let digits = buffer.format(number);
            put_all(sink, &[b"{\"edition\":", digits.as_bytes()])
        }
        None => sink.put(b"{\"edition\":null"),
    }
}

// Puts the name.
fn put_name<K: Sink>(sink: &mut K, name: &str) -> Result<(), SinkFault>
    ensures { Puts result (K.stream sink.old) (K.stream sink.new) (codes ",\"name\":" ++ quoted name.now) }
{
    sink.put(b",\"name\":\"")?;
    put_escaped(sink, name.as_bytes())?;
    sink.put(b"\"")
}

// Puts the command's number.
fn put_number<K: Sink>(sink: &mut K, number: u64) -> Result<(), SinkFault>
    ensures { Puts result (K.stream sink.old) (K.stream sink.new) (codes ",\"number\":" ++ decimal number) }
{
    let mut buffer = Buffer::new();
    let digits = buffer.format(number);
    put_all(sink, &[b",\"number\":", digits.as_bytes()])
}

// Puts octets as a string's inside has them.
fn put_escaped<K: Sink>(sink: &mut K, octets: &[u8]) -> Result<(), SinkFault>
    ensures { Puts result (K.stream sink.old) (K.stream sink.new) (escape octets.now) }
{
    let mut rest = octets;
    while let Some((front, octet, back)) = cut_to_escape(rest) {
        let (text, len) = escape_of(octet);
        put_all(sink, &[front, &text[..len]])?;
        rest = back;
    }
    sink.put(rest)
}

// The octets before the first that needs an escape, that octet, and those after it.
fn cut_to_escape(octets: &[u8]) -> Option<(&[u8], u8, &[u8])>
    ensures octets { MatchOption result (escape octets.now ≡ octets.now)
        (λ x. escape octets.now ≡ x.0.now ++ (escape_byte x.1 ++ escape x.2.now)) }
    ensures shorter { IfSome result (λ x. length x.2.now < length octets.now) }
{
    let i = first_to_escape(octets)?;
    Some((&octets[..i], octets[i], &octets[i + 1..]))
}

fn first_to_escape(octets: &[u8]) -> Option<usize>
    ensures place { result ≡ position needs_escape octets.now }
    ensures within { IfSome result (λ i. i < length octets.now) }
{
    octets
        .iter()
        .position(|octet| *octet == b'"' || *octet == b'\\' || *octet < 32)
}

// What stands in a string for an octet.
fn escape_of(octet: u8) -> ([u8; 6], usize)
    ensures value { take result.1 result.0 ≡ escape_byte octet }
    ensures bound { result.1 ≤ 6 }
{
    let letter = escape_letter(octet);
    if letter > 0 {
        return ([b'\\', letter, 0, 0, 0, 0], 2);
    }
    if octet < 32 {
        return (
            [
                b'\\',
                b'u',
                b'0',
                b'0',
                hex_digit(octet / 16),
                hex_digit(octet % 16),
            ],
            6,
        );
    }
    ([octet, 0, 0, 0, 0, 0], 1)
}

// The letter of an octet's short escape, or 0 where it has none.
fn escape_letter(octet: u8) -> u8
    ensures { result ≡ escape_letter octet }
{
    match octet {
        b'"' | b'\\' => octet,
        8 => b'b',
        12 => b'f',
        b'\n' => b'n',
        b'\r' => b'r',
        b'\t' => b't',
        _ => 0,
    }
}

fn hex_digit(digit: u8) -> u8
    requires { digit < 16 }
    ensures { result ≡ digit_char digit }
{
    if digit < 10 {
        b'0' + digit
    } else {
        b'a' - 10 + digit
    }
}
