// Texts between quote signs.
ghost use Rattle.std.specs.Prelude.{◌≡◌, ◌<◌, ◌∷◌, ◌++◌, length, MatchOption, IfSome};
ghost use Rattle.std.specs.List.{flat_map, position};
ghost use Rattle.dict_proto.specs.Streams.{Puts};
ghost use Rattle.dict_proto.specs.Gathering.{Gathers};
ghost use Rattle.dict_proto.specs.Text.{escaped, needs_backslash, quoted};

use crate::gathered::GatheredOctets;
use crate::sink::{Sink, SinkFault};

const QUOTE: &[u8] = b"\"";

const BACKSLASH: &[u8] = b"\\";

/// Puts a text between quote signs, with a backslash before each quote sign and each backslash in it (RFC 2229,
/// section 2.2). It takes no memory, and is Ok wherever the sink did not fail; where it failed, a front of this was
/// put.
pub fn put_quoted<K: Sink>(sink: &mut K, text: &str) -> Result<(), SinkFault>
    ensures { Puts result (K.stream sink.old) (K.stream sink.new) (quoted text.now) }
{
    let mut gathered = GatheredOctets::new();
    add_quoted(&mut gathered, sink, text)?;
    gathered.put(sink)
}

/// Adds a text between quote signs, in the same way.
pub fn add_quoted<K: Sink>(
    gathered: &mut GatheredOctets,
    sink: &mut K,
    text: &str,
) -> Result<(), SinkFault>
    ensures { Gathers result (K.stream sink.old) (K.stream sink.new) gathered.old.octets.items
        gathered.new.octets.items (quoted text.now) }
{
    gathered.add(sink, QUOTE)?;
    let mut rest = text.as_bytes();
    while let Some((front, octet, back)) = cut_to_escape(rest) {
        gathered.add_all(sink, &[front, BACKSLASH, &[octet]])?;
        rest = back;
    }
    gathered.add_all(sink, &[rest, QUOTE])
}

// The octets before the first that needs a backslash, that octet, and those after it.
fn cut_to_escape(octets: &[u8]) -> Option<(&[u8], u8, &[u8])>
    ensures octets { MatchOption result (flat_map escaped octets.now ≡ octets.now)
        (λ x. flat_map escaped octets.now ≡ x.0.now ++ (92 ∷ x.1 ∷ flat_map escaped x.2.now)) }
    ensures shorter { IfSome result (λ x. length x.2.now < length octets.now) }
{
    let i = first_to_escape(octets)?;
    Some((&octets[..i], octets[i], &octets[i + 1..]))
}

fn first_to_escape(octets: &[u8]) -> Option<usize>
    ensures place { result ≡ position needs_backslash octets.now }
    ensures within { IfSome result (λ i. i < length octets.now) }
{
    octets
        .iter()
        .position(|octet| *octet == b'"' || *octet == b'\\')
}
