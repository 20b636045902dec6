// The parts of a reply line.
ghost use Rattle.std.specs.List.{flat_map};
ghost use Rattle.dict_proto.specs.Streams.{Puts};
ghost use Rattle.dict_proto.specs.Gathering.{Gathers};
ghost use Rattle.dict_proto.specs.ReplyParts.{part_octets};

use crate::gathered::GatheredOctets;
use crate::quoted::add_quoted;
use crate::sink::{Sink, SinkFault};
use itoa::Buffer;

/// A part of a reply line.
#[derive(Clone, Copy)]
pub enum ReplyPart<'a> {
    /// These octets.
    Octets(&'a [u8]),
    /// A number in decimal digits.
    Number(u64),
    /// A text between quote signs.
    Quoted(&'a str),
}

/// Puts the parts, one after the other.
pub fn put_parts<K: Sink>(sink: &mut K, parts: &[ReplyPart]) -> Result<(), SinkFault>
    ensures { Puts result (K.stream sink.old) (K.stream sink.new) (flat_map part_octets parts.now) }
{
    let mut gathered = GatheredOctets::new();
    add_parts(&mut gathered, sink, parts)?;
    gathered.put(sink)
}

fn add_parts<K: Sink>(
    gathered: &mut GatheredOctets,
    sink: &mut K,
    parts: &[ReplyPart],
) -> Result<(), SinkFault>
    ensures { Gathers result (K.stream sink.old) (K.stream sink.new) gathered.old.octets.items
        gathered.new.octets.items (flat_map part_octets parts.now) }
{
    for part in parts {
        add_part(gathered, sink, *part)?;
    }
    Ok(())
}

fn add_part<K: Sink>(
    gathered: &mut GatheredOctets,
    sink: &mut K,
    part: ReplyPart,
) -> Result<(), SinkFault>
    ensures { Gathers result (K.stream sink.old) (K.stream sink.new) gathered.old.octets.items
        gathered.new.octets.items (part_octets part.entry) }
{
    match part {
        ReplyPart::Octets(octets) => gathered.add(sink, octets),
        ReplyPart::Number(n) => {
            let mut buffer = Buffer::new();
            gathered.add(sink, buffer.format(n).as_bytes())
        }
        ReplyPart::Quoted(text) => add_quoted(gathered, sink, text),
    }
}
