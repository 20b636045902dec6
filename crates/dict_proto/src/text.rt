// Texts, line by line.
ghost use Rattle.std.specs.Prelude.{◌≡◌, ◌∷◌, [], slice_index, ◌==◌, if◌then◌else◌};
ghost use Rattle.std.specs.List.{flat_map};
ghost use Rattle.dict_text.specs.Lines.{text_lines};
ghost use Rattle.dict_proto.specs.Streams.{Puts};
ghost use Rattle.dict_proto.specs.Gathering.{Gathers};
ghost use Rattle.dict_proto.specs.Text.{block, sent_line};

use crate::gathered::GatheredOctets;
use crate::sink::{Sink, SinkFault};
use dict_text::text_lines;

const PERIOD: &[u8] = b".";

const LINE_END: &[u8] = b"\r\n";

/// What is put before a text line that begins so: a period where it begins with one, and else nothing.
pub fn stuffing(line: &[u8]) -> &[u8]
    ensures { result.now ≡ if slice_index line.now 0 == 46 then 46 ∷ [] else [] }
{
    if !line.is_empty() && line[0] == b'.' {
        PERIOD
    } else {
        b""
    }
}

/// Puts a text: each of its lines, and then a line of one period.
pub fn put_text<K: Sink>(sink: &mut K, text: &[u8]) -> Result<(), SinkFault>
    ensures { Puts result (K.stream sink.old) (K.stream sink.new) (block (text_lines text.now)) }
{
    let mut gathered = GatheredOctets::new();
    add_text(&mut gathered, sink, text)?;
    gathered.put(sink)
}

// Adds a text.
fn add_text<K: Sink>(
    gathered: &mut GatheredOctets,
    sink: &mut K,
    text: &[u8],
) -> Result<(), SinkFault>
    ensures { Gathers result (K.stream sink.old) (K.stream sink.new) gathered.old.octets.items
        gathered.new.octets.items (block (text_lines text.now)) }
{
    add_lines(gathered, sink, text)?;
    gathered.add(sink, b".\r\n")
}

// Adds the lines of a text.
fn add_lines<K: Sink>(
    gathered: &mut GatheredOctets,
    sink: &mut K,
    text: &[u8],
) -> Result<(), SinkFault>
    ensures { Gathers result (K.stream sink.old) (K.stream sink.new) gathered.old.octets.items
        gathered.new.octets.items (flat_map sent_line (text_lines text.now)) }
{
    for line in text_lines(text) {
        add_line(gathered, sink, line)?;
    }
    Ok(())
}

// Adds one line of a text, its front period doubled.
fn add_line<K: Sink>(
    gathered: &mut GatheredOctets,
    sink: &mut K,
    line: &[u8],
) -> Result<(), SinkFault>
    ensures { Gathers result (K.stream sink.old) (K.stream sink.new) gathered.old.octets.items
        gathered.new.octets.items (sent_line line.now) }
{
    gathered.add_all(sink, &[stuffing(line), line, LINE_END])
}
