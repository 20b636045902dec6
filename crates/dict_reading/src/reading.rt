// An edition as it was read.
ghost use Rattle.std.specs.Prelude.{◌≡◌, ◌+◌, ◌≤◌, length, slice_get};
ghost use Rattle.std.specs.Option.{option_map};
ghost use Rattle.std.specs.Str.{IsUtf8};
ghost use Rattle.dict_index.specs.Edition.{edition_of};
ghost use Rattle.dict_index.specs.WellFormed.{IsWellFormedEdition};
ghost use Rattle.dict_reading.specs.Places.{line_in, octets_at, LiesBelow};
ghost use Rattle.dict_reading.specs.Views.{line_read};

use crate::gathered::as_text;
use crate::places::EntryPlace;
use std::marker::Model;

/// What an entry's line says.
#[derive(Clone, Copy, Debug)]
pub struct ReadLine<'a> {
    /// The headword.
    pub headword: &'a str,
    /// The headword that is shown: the fourth column of the line, or the headword where it has none.
    pub shown: &'a str,
    /// How many octets of the text stand before the entry's text.
    pub offset: usize,
    /// How many octets the entry's text has.
    pub size: usize,
}

// So many octets of an index from a place on, as text.
fn text_at(index: &[u8], start: usize, size: usize) -> &str
    requires within { start + size ≤ length index.now }
    requires utf8 { IsUtf8 (octets_at index.now start size) }
    ensures { result.now ≡ octets_at index.now start size }
{
    as_text(&index[start..start + size])
}

// What an index says at a place.
fn line_at(index: &[u8], place: EntryPlace) -> ReadLine<'_>
    requires below { LiesBelow (length index.now) place }
    requires headword { IsUtf8 (line_in index.now place).headword }
    requires shown { IsUtf8 (line_in index.now place).shown }
    ensures { line_read result ≡ line_in index.now place }
{
    ReadLine {
        headword: text_at(index, place.headword_start, place.headword_size),
        shown: text_at(index, place.shown_start, place.shown_size),
        offset: place.offset,
        size: place.size,
    }
}

/// A whole edition, over the two files that it was read from: its title, its info, and the lines that make its entries, in order.
/// There is no way to make one but to read it.
#[derive(Drop)]
pub struct Reading<'a> {
    pub(crate) title: &'a str,
    pub(crate) info: &'a str,
    pub(crate) index: &'a [u8],
    pub(crate) text: &'a [u8],
    pub(crate) places: &'a [EntryPlace],
}

impl<'a> Model for Reading<'a> {
    ghost use Rattle.std.specs.Prelude.{length, map};
    ghost use Rattle.std.specs.List.{AllByRecursion};
    ghost use Rattle.dict_index.specs.Edition.{ReadEdition};
    ghost use Rattle.dict_index.specs.Meaning.{IsReadEdition};
    ghost use Rattle.dict_reading.specs.Places.{line_in, LiesBelow};

    ghost Value = { ReadEdition };

    ghost view = { λ r. record { title = r.title.now; info = r.info.now; text = r.text.now; lines = map (line_in r.index.now) r.places.now } };

    ghost invariant = { λ r. AllByRecursion (LiesBelow (length r.index.now)) r.places.now
        × IsReadEdition r.index.now r.text.now (record { title = r.title.now; info = r.info.now; text = r.text.now; lines = map (line_in r.index.now) r.places.now }) };
}

impl<'a> Reading<'a> {
    /// The first line that remains of the short text once its key line is dropped, without blanks at its ends.
    pub fn title(&self) -> &'a str
        ensures { result.now ≡ self.now.title }
    {
        self.title
    }

    /// What the database says of itself.
    pub fn info(&self) -> &'a str
        ensures { result.now ≡ self.now.info }
    {
        self.info
    }

    /// The whole file that the texts were cut out of.
    pub fn text(&self) -> &'a [u8]
        ensures { result.now ≡ self.now.text }
    {
        self.text
    }

    /// How many entries it has.
    pub fn len(&self) -> usize
        ensures { result ≡ length self.now.lines }
    {
        self.places.len()
    }

    /// What the line of the entry at a place says, counted from 0, where there is one.
    pub fn line(&self, place: usize) -> Option<ReadLine<'a>>
        ensures { option_map line_read result ≡ slice_get self.now.lines place }
    {
        let Some(place) = self.places.get(place) else {
            return None;
        };
        Some(line_at(self.index, *place))
    }

    /// The edition keeps the limits of editions.
    ///
    /// It does nothing. Its clause is what holds of every edition, for the layers that keep editions.
    pub fn is_well_formed(&self)
        ensures { IsWellFormedEdition (edition_of self.now) }
    {
        let _ = &self.places;
    }
}
