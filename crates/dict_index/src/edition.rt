// An edition as it was read.
ghost use Rattle.std.specs.Prelude.{◌≡◌, ◌≤◌, length, map};
ghost use Rattle.std.specs.List.{AllByRecursion};
ghost use Rattle.dict_index.specs.Limits.{most_octets};
ghost use Rattle.dict_index.specs.Edition.{edition_of};
ghost use Rattle.dict_index.specs.WellFormed.{IsWellFormedEdition};
ghost use Rattle.dict_index.specs.Views.{line_of, HasBodyIn, HasItsKey, LiesIn};

use crate::entry::Entry;
use std::marker::Model;

/// A whole edition: its title, its info and its entries in the order of the index. All borrow from the two
/// files. There is no way to make one but to read it.
#[derive(Drop)]
pub struct Edition<'a> {
    pub(crate) title: &'a str,
    pub(crate) info: &'a str,
    pub(crate) text: &'a [u8],
    pub(crate) entries: Vec<Entry<'a>>,
}

impl<'a> Model for Edition<'a> {
    ghost use Rattle.std.specs.Prelude.{map};
    ghost use Rattle.std.specs.List.{AllByRecursion};
    ghost use Rattle.dict_index.specs.Edition.{ReadEdition};
    ghost use Rattle.dict_index.specs.Meaning.{IsRead};
    ghost use Rattle.dict_index.specs.Views.{line_of, HasBodyIn, HasItsKey};

    ghost Value = { ReadEdition };

    ghost view = { λ e. record { title = e.title.now; info = e.info.now; text = e.text.now; lines = map line_of e.entries.items } };

    ghost invariant = { λ e. AllByRecursion (HasBodyIn e.text.now) e.entries.items × AllByRecursion HasItsKey e.entries.items
        × IsRead (record { title = e.title.now; info = e.info.now; text = e.text.now; lines = map line_of e.entries.items }) };
}

impl<'a> Edition<'a> {
    /// The first line that remains of the short text once its key line is dropped, without blanks at its ends.
    pub fn title(&self) -> &'a str
        ensures { result.now ≡ self.now.title }
    {
        self.title
    }

    /// What the database says of itself.
    pub fn info(&self) -> &'a str
        ensures { result.now ≡ self.now.info }
    {
        self.info
    }

    /// The whole file that the texts were cut out of, of at most 67,108,864 octets.
    pub fn text(&self) -> &'a [u8]
        ensures value { result.now ≡ self.now.text }
        ensures few { length result.now ≤ most_octets }
    {
        self.text
    }

    /// The entries, in the order of the index, each with the key of its headword and with its interval in the text.
    pub fn entries(&self) -> &[Entry<'a>]
        ensures lines { map line_of result.now ≡ self.now.lines }
        ensures bodies { AllByRecursion (HasBodyIn self.now.text) result.now }
        ensures keys { AllByRecursion HasItsKey result.now }
        ensures within { AllByRecursion (LiesIn self.now.text) result.now }
    {
        self.entries.as_slice()
    }

    /// The edition keeps the limits of editions.
    ///
    /// It does nothing. Its clause is what holds of every edition, for the layers that keep editions.
    pub fn is_well_formed(&self)
        ensures { IsWellFormedEdition (edition_of self.now) }
    {
        let _ = &self.entries;
    }
}
