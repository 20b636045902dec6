// A reader of the records of the tables, one after another.
ghost use Rattle.std.specs.Prelude.{◌≡◌, ◌≤◌, ◌<◌, ◌+◌, ◌⊎◌, ℕ, pos, IfOk, IfErr, OnOk, OnErr, IfSome, IsSome, map};
ghost use Rattle.dict_index.specs.Limits.{most_entries};
ghost use Rattle.store_tables.specs.Records.{shown_as};
ghost use Rattle.store_tables.specs.Typed.{owned_edition, owned_entry, owned_kept};
ghost use Rattle.store_rows.specs.Tables.{Tables};
ghost use Rattle.store_rows.specs.Given.{marks_given, items_given, members_given, OnDamage, IsEntry, IsNoEntry, IsLawfulLine, line_with};
ghost use Rattle.dict_catalogue.specs.Steps.{Catalogue, summary_of};
ghost use Rattle.dict_catalogue.specs.Views.{summary_shown};
ghost use Rattle.store_rows.specs.Stands.{Stands};

use crate::entries::{test_entry, test_line};
use crate::fault::RowsFault;
use crate::items::{items_of, number_of};
use crate::lawful::has_lawful_items;
use crate::marks::{are_owned, installs_of};
use crate::replies::{is_install, reply_of};
use crate::titles::{are_titled, place_of, title_at};
use crate::written::signed_numbers;
use dict_catalogue::{Item, MAX_ACCEPTED, Summary, edition_numbers};
use dict_index::{MAX_LINES, is_edition_text};
use dict_text::is_title;
use std::alloc::Global;
use store_tables::{
    EditionRecord, EntryRecord, ItemRecord as ItemRow, KeptRecord, Mark, Member, StoredRow,
};

/// The most entries of an edition: one line of an index at least is that of its title.
const MAX_ENTRIES: u64 = MAX_LINES as u64 - 1;

/// No text has so many octets: the numbers of an index end below it, at 64 ^ 6.
const TEXT_END: u64 = 68_719_476_736;

/// The edition whose entries are read: its number, its text, and how many of its entries were read.
#[derive(Drop)]
pub(crate) struct InHand {
    pub number: u64,
    pub text: Vec<u8>,
    pub entries: u64,
    ghost few: { entries ≤ most_entries },
}

/// Goes on with an edition of this number and this text.
fn take_in_hand(edition: &mut Option<InHand>, number: u64, text: Vec<u8>)
    ensures { IfSome edition.new (λ hand. (hand.number ≡ number) × (hand.text.items ≡ text.items) × (hand.entries ≡ 0)) × IsSome edition.new }
{
    *edition = Some(InHand {
        number,
        text,
        entries: 0,
    });
}

/// Adds an entry to the edition.
fn add_entry(
    alloc: Global,
    hand: &mut InHand,
    row: &EntryRecord<String>,
    shown: &str,
) -> Result<(), RowsFault>
    ensures is { OnOk result (IsEntry hand.old.number hand.old.entries hand.old.text.items (shown_as (owned_entry row.now) shown.now) × (hand.old.entries < most_entries)) }
    ensures added { OnOk result (hand.new.entries ≡ hand.old.entries + 1) }
    ensures damaged { IfErr result (λ fault. OnDamage fault (IsNoEntry hand.old.number hand.old.entries hand.old.text.items (shown_as (owned_entry row.now) shown.now) ⊎ (most_entries ≤ hand.old.entries))) }
    ensures same { (hand.new.number ≡ hand.old.number) × (hand.new.text.items ≡ hand.old.text.items) }
    ensures unchanged { OnErr result (hand.new.entries ≡ hand.old.entries) }
{
    if hand.entries >= MAX_ENTRIES {
        return Err(RowsFault::Damaged);
    }
    test_entry(alloc, hand.number, hand.entries, &hand.text, row, shown)?;
    hand.entries += 1;
    Ok(())
}

/// Adds the next line to the edition.
fn add_line(
    alloc: Global,
    hand: &mut InHand,
    headword: &str,
    offset: u64,
    size: u64,
    shown: &str,
) -> Result<(), RowsFault>
    ensures is { OnOk result (IsLawfulLine hand.old.text.items (line_with headword.now offset size shown.now) × (hand.old.entries < most_entries)) }
    ensures added { OnOk result (hand.new.entries ≡ hand.old.entries + 1) }
    ensures damaged { IfErr result (λ fault. OnDamage fault ((IsLawfulLine hand.old.text.items (line_with headword.now offset size shown.now) → ⊥) ⊎ (most_entries ≤ hand.old.entries))) }
    ensures same { (hand.new.number ≡ hand.old.number) × (hand.new.text.items ≡ hand.old.text.items) }
    ensures unchanged { OnErr result (hand.new.entries ≡ hand.old.entries) }
{
    if hand.entries >= MAX_ENTRIES {
        return Err(RowsFault::Damaged);
    }
    test_line(alloc, &hand.text, headword, offset, size, shown)?;
    hand.entries += 1;
    Ok(())
}

/// A reader of the records of the tables. It holds the items with the titles of the editions that were read, the text
/// of one edition, and counts.
#[derive(Drop)]
pub struct Reader {
    /// The items; an edition that wasn't read yet has the empty title, which no edition has.
    pub(crate) items: Vec<Item>,
    /// How many installs the mark tells.
    pub(crate) installs: u64,
    pub(crate) edition: Option<InHand>,
    /// How many kept replies were read, and how many of them are of installs.
    pub(crate) accepted: u64,
    pub(crate) installed: u64,
    ghost installs_few: { installs ≤ 9223372036854775807 },
    ghost accepted_few: { accepted ≤ 9223372036854775807 },
    ghost installed_within: { installed ≤ accepted },
}

impl Reader {
    ghost use Rattle.std.specs.Prelude.{None};
    ghost use Rattle.store_rows.specs.Taken.{HasTaken, HasLetGo, StandsForNone, items_in, begun, with_edition, with_entry, with_kept, IsOfLast, HasIdsOnce, next_entry};
    ghost use Rattle.dict_catalogue.specs.Items.{edition_numbers};

    /// Begins with the mark, the items in the order of their places, and the members in the order of theirs: all of them.
    ///
    /// `Damaged` tells that no catalogue stands for tables with these.
    pub fn begin(
        alloc: Global,
        version: u64,
        marks: &[StoredRow<Mark<String>>],
        items: &[StoredRow<ItemRow<String>>],
        members: &[StoredRow<Member<String>>],
    ) -> Result<Reader, RowsFault>
        ensures taken { IfOk result (λ reader. HasTaken version reader (begun (marks_given marks.now) (items_given items.now) (members_given members.now))) }
        ensures damaged { IfErr result (λ fault. OnDamage fault (StandsForNone version (begun (marks_given marks.now) (items_given items.now) (members_given members.now)))) }
    {
        let installs = installs_of(version, marks)?;
        let items = items_of(alloc, items, members)?;
        if !has_lawful_items(alloc, installs, &items)? || !are_owned(&items, members) {
            return Err(RowsFault::Damaged);
        }
        Ok(Reader {
            items,
            installs,
            edition: None,
            accepted: 0,
            installed: 0,
        })
    }

    /// The numbers of the editions of the items, in their order. `Damaged` never comes where records were taken.
    pub fn numbers(&self, alloc: Global) -> Result<Vec<i64>, RowsFault>
        ensures numbers { IfOk result (λ numbers. numbers.items ≡ map pos (edition_numbers (items_in self.now))) }
        ensures damaged { IfErr result (λ fault. OnDamage fault ((version : ℕ) (taken : Tables) → HasTaken version self.now taken → ⊥)) }
    {
        let numbers = edition_numbers(alloc, &self.items)?;
        let Some(signed) = signed_numbers(alloc, &numbers)? else {
            return Err(RowsFault::Damaged);
        };
        Ok(signed)
    }

    /// Lets the text go of the edition that was taken last, all of whose entries were taken, so that it isn't held while the
    /// record of the next one is read.
    pub fn let_go(&mut self)
        ensures gone { self.new ≡ record self.old { edition = None } }
        ensures taken { (version : ℕ) (taken : Tables) → HasTaken version self.old taken → HasLetGo version self.new taken }
    {
        self.edition = None;
    }

    /// Takes the record of an edition, whose entries come next. The editions come in any order.
    ///
    /// `Damaged`, the only fault, tells that no catalogue stands for tables that go on so.
    pub fn edition(&mut self, row: EditionRecord<String, Vec<u8>>) -> Result<(), RowsFault>
        ensures taken { OnOk result ((version : ℕ) (taken : Tables) → HasLetGo version self.old taken → HasTaken version self.new (with_edition taken (owned_edition row))) }
        ensures damaged { OnErr result ((version : ℕ) (taken : Tables) → HasLetGo version self.old taken → StandsForNone version (with_edition taken (owned_edition row))) }
        ensures only { IfErr result (λ fault. fault ≡ RowsFault.Damaged) }
    {
        let number = number_of(&row.number)?;
        let Some(place) = place_of(&self.items, row.owner.as_str(), number) else {
            return Err(RowsFault::Damaged);
        };
        if !is_title(row.title.as_str()) {
            return Err(RowsFault::Damaged);
        }
        if !is_edition_text(row.info.as_bytes()) {
            return Err(RowsFault::Damaged);
        }
        if row.body.len() as u64 >= TEXT_END {
            return Err(RowsFault::Damaged);
        }
        let EditionRecord { title, body, .. } = row;
        title_at(&mut self.items, place, number, title);
        take_in_hand(&mut self.edition, number, body);
        Ok(())
    }

    /// Takes the record of an entry of the edition that was taken last, of which this is shown, in the order of their places.
    ///
    /// `Damaged` tells that no catalogue stands for tables that go on so, where it is an entry of that edition.
    pub fn entry(
        &mut self,
        alloc: Global,
        row: &EntryRecord<String>,
        shown: &str,
    ) -> Result<(), RowsFault>
        ensures taken { OnOk result ((version : ℕ) (taken : Tables) → HasTaken version self.old taken → HasTaken version self.new (with_entry taken (shown_as (owned_entry row.now) shown.now))) }
        ensures damaged { IfErr result (λ fault. OnDamage fault ((version : ℕ) (taken : Tables) → HasTaken version self.old taken → IsOfLast taken (shown_as (owned_entry row.now) shown.now) → StandsForNone version (with_entry taken (shown_as (owned_entry row.now) shown.now)))) }
    {
        let Some(hand) = &mut self.edition else {
            return Err(RowsFault::Damaged);
        };
        add_entry(alloc, hand, row, shown)
    }

    /// Takes the next line of the index of the edition that was taken last: the headword, the interval of the text, in octets, that
    /// is its body, and what is shown.
    ///
    /// `Damaged` tells that no catalogue stands for tables that go on so.
    pub fn line(
        &mut self,
        alloc: Global,
        headword: &str,
        offset: u64,
        size: u64,
        shown: &str,
    ) -> Result<(), RowsFault>
        ensures taken { OnOk result ((version : ℕ) (taken : Tables) (number : ℕ) → HasTaken version self.old taken → IsOfLast taken (next_entry taken number (line_with headword.now offset size shown.now)) →
            HasTaken version self.new (with_entry taken (next_entry taken number (line_with headword.now offset size shown.now)))) }
        ensures damaged { IfErr result (λ fault. OnDamage fault ((version : ℕ) (taken : Tables) (number : ℕ) → HasTaken version self.old taken → IsOfLast taken (next_entry taken number (line_with headword.now offset size shown.now)) →
            StandsForNone version (with_entry taken (next_entry taken number (line_with headword.now offset size shown.now))))) }
    {
        let Some(hand) = &mut self.edition else {
            return Err(RowsFault::Damaged);
        };
        add_line(alloc, hand, headword, offset, size, shown)
    }

    /// Takes the record of a kept reply, in the order of their numbers, behind all editions.
    ///
    /// `Damaged`, the only fault, tells that no catalogue stands for tables that go on so.
    pub fn kept(&mut self, row: &KeptRecord<String>) -> Result<(), RowsFault>
        ensures taken { OnOk result ((version : ℕ) (taken : Tables) → HasTaken version self.old taken → HasTaken version self.new (with_kept taken (owned_kept row.now))) }
        ensures damaged { OnErr result ((version : ℕ) (taken : Tables) → HasTaken version self.old taken → StandsForNone version (with_kept taken (owned_kept row.now))) }
    {
        if self.accepted >= MAX_ACCEPTED {
            return Err(RowsFault::Damaged);
        }
        let verb = reply_of(self.accepted + 1, row)?;
        self.accepted += 1;
        if is_install(verb) {
            self.installed += 1;
        }
        Ok(())
    }

    /// The summary of the catalogue for which the records stand that were taken, where no two of the kept replies have
    /// one id. `Damaged`, the only fault, tells that they stand for none.
    pub fn finish(self) -> Result<Summary, RowsFault>
        ensures stands { IfOk result (λ summary. (version : ℕ) (taken : Tables) → HasTaken version self taken → HasIdsOnce taken → (M : Catalogue) × Stands version taken M × (summary_of M ≡ summary_shown summary)) }
        ensures damaged { OnErr result ((version : ℕ) (taken : Tables) → HasTaken version self taken → (M : Catalogue) → Stands version taken M → ⊥) }
    {
        if self.installed != self.installs || !are_titled(&self.items) {
            return Err(RowsFault::Damaged);
        }
        let Reader {
            items,
            installs,
            accepted,
            ..
        } = self;
        Ok(Summary {
            items,
            installs,
            accepted,
        })
    }
}
