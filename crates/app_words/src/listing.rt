// The list of a catalogue's items.
ghost use Rattle.std.specs.Prelude.{◌++◌, codes, decimal, map};
ghost use Rattle.std.specs.List.{flat_map};
ghost use Rattle.dict_proto.specs.Streams.{Puts};
ghost use Rattle.dict_catalogue.specs.Items.{regular, virtual};
ghost use Rattle.dict_catalogue.specs.Views.{item_shown, texts_shown};
ghost use Rattle.dict_proto.specs.Text.{quoted};
ghost use Rattle.app_words.specs.Listing.{behind_comma, listed_item_line, kind_text, listing_text, names_with_commas};

use dict_catalogue::{Item, StoredTitle};
use dict_proto::{Sink, SinkFault, put_all, put_quoted};
use itoa::Buffer;

/// Puts a line for each item, in order: its place from 0, its name, `regular` with the numbers of its current and its
/// former edition (`-` where there is none) or `virtual` with its members, and its title between quote signs. It takes no
/// memory.
pub fn put_list<K: Sink>(sink: &mut K, items: &[Item]) -> Result<(), SinkFault>
    ensures { Puts result (K.stream sink.old) (K.stream sink.new) (listing_text (map item_shown items.now)) }
{
    let mut place = 0;
    for item in items {
        put_item(sink, place, item)?;
        place += 1;
    }
    Ok(())
}

// Puts the line of the item at a place.
fn put_item<K: Sink>(sink: &mut K, place: usize, item: &Item) -> Result<(), SinkFault>
    ensures { Puts result (K.stream sink.old) (K.stream sink.new) (listed_item_line place (item_shown item.now)) }
{
    put_place(sink, place)?;
    put_kind(sink, item)?;
    put_title(sink, item.title())
}

// Puts a place, and a space.
fn put_place<K: Sink>(sink: &mut K, place: usize) -> Result<(), SinkFault>
    ensures { Puts result (K.stream sink.old) (K.stream sink.new) (decimal place ++ codes " ") }
{
    let mut buffer = Buffer::new();
    let digits = buffer.format(place);
    put_all(sink, &[digits.as_bytes(), b" "])
}

// Puts a title between quote signs, and the line's end.
fn put_title<K: Sink>(sink: &mut K, title: &str) -> Result<(), SinkFault>
    ensures { Puts result (K.stream sink.old) (K.stream sink.new) (quoted title.now ++ codes "\n") }
{
    put_quoted(sink, title)?;
    sink.put(b"\n")
}

// Puts the name and the kind of an item, with its editions or its members.
fn put_kind<K: Sink>(sink: &mut K, item: &Item) -> Result<(), SinkFault>
    ensures { Puts result (K.stream sink.old) (K.stream sink.new) (kind_text (item_shown item.now)) }
{
    match item {
        Item::Regular {
            name,
            current,
            former,
        } => match former {
            Some(former) => put_editions(sink, name.as_str(), current.number, former.number),
            None => put_edition(sink, name.as_str(), current.number),
        },
        Item::Virtual { name, members, .. } => {
            put_virtual(sink, name.as_str())?;
            put_members(sink, members.as_slice())
        }
    }
}

// Puts what is told of a virtual database but for its members.
fn put_virtual<K: Sink>(sink: &mut K, name: &str) -> Result<(), SinkFault>
    ensures { Puts result (K.stream sink.old) (K.stream sink.new) (name.now ++ codes " virtual ") }
{
    put_all(sink, &[name.as_bytes(), b" virtual "])
}

// Puts what is told of a database with one edition.
fn put_edition<K: Sink>(sink: &mut K, name: &str, current: u64) -> Result<(), SinkFault>
    ensures { Puts result (K.stream sink.old) (K.stream sink.new) (name.now ++ (codes " regular " ++ (decimal current ++ codes " - "))) }
{
    let mut buffer = Buffer::new();
    put_all(
        sink,
        &[
            name.as_bytes(),
            b" regular ",
            buffer.format(current).as_bytes(),
            b" - ",
        ],
    )
}

// Puts what is told of a database with two editions.
fn put_editions<K: Sink>(
    sink: &mut K,
    name: &str,
    current: u64,
    former: u64,
) -> Result<(), SinkFault>
    ensures { Puts result (K.stream sink.old) (K.stream sink.new) (name.now ++ (codes " regular " ++ (decimal current ++ (codes " " ++ (decimal former ++ codes " "))))) }
{
    let mut current_buffer = Buffer::new();
    let mut former_buffer = Buffer::new();
    put_all(
        sink,
        &[
            name.as_bytes(),
            b" regular ",
            current_buffer.format(current).as_bytes(),
            b" ",
            former_buffer.format(former).as_bytes(),
            b" ",
        ],
    )
}

// Puts names with a comma between two, and a space.
fn put_members<K: Sink>(sink: &mut K, members: &[String]) -> Result<(), SinkFault>
    ensures { Puts result (K.stream sink.old) (K.stream sink.new) (names_with_commas (texts_shown members.now) ++ codes " ") }
{
    match members.split_first() {
        Some((first, further)) => put_some(sink, first.as_str(), further),
        None => sink.put(b" "),
    }
}

// Puts a name, further ones, each behind a comma, and a space.
fn put_some<K: Sink>(sink: &mut K, first: &str, further: &[String]) -> Result<(), SinkFault>
    ensures { Puts result (K.stream sink.old) (K.stream sink.new) ((first.now ++ flat_map behind_comma (texts_shown further.now)) ++ codes " ") }
{
    sink.put(first.as_bytes())?;
    put_further(sink, further)?;
    sink.put(b" ")
}

// Puts each name behind a comma.
fn put_further<K: Sink>(sink: &mut K, names: &[String]) -> Result<(), SinkFault>
    ensures { Puts result (K.stream sink.old) (K.stream sink.new) (flat_map behind_comma (texts_shown names.now)) }
{
    for name in names {
        put_behind_comma(sink, name.as_str())?;
    }
    Ok(())
}

// Puts a name behind a comma.
fn put_behind_comma<K: Sink>(sink: &mut K, name: &str) -> Result<(), SinkFault>
    ensures { Puts result (K.stream sink.old) (K.stream sink.new) (behind_comma name.now) }
{
    sink.put(b",")?;
    sink.put(name.as_bytes())
}
