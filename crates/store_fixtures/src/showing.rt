//! What a desk shows.

ghost use Rattle.std.specs.Prelude.{◌≡◌, ◌++◌, [], List, Option, IfOk, OnOk, decimal, string_bytes};
ghost use Rattle.dict_catalogue.specs.Steps.{Catalogue};
ghost use Rattle.dict_catalogue.specs.Views.{item_shown, summary_shown, texts_shown};
ghost use Rattle.store_fixtures.specs.Listed.{content_text, item_listed, items_text, members_text};

use crate::asked::told_reply;
use dict_catalogue::{Item, Summary, edition_numbers};
use dict_desk::{Demand, Fault, Keeper, Lookup, Row, RowSink, What};
use dict_match::{Strategy, key_of};
use std::alloc::{AllocError, Global};

/// Collects rows, and stops at the last of so many.
#[derive(Drop)]
pub struct Rows {
    /// What was collected.
    pub text: String,
    /// How many more it takes.
    pub left: usize,
}

impl Rows {
    /// None yet, and at most so many.
    pub fn new(alloc: Global, most: usize) -> Rows
        ensures { (string_bytes result.text ≡ []) × (result.left ≡ most) }
    {
        Rows {
            text: String::new(alloc),
            left: most,
        }
    }
}

impl RowSink for Rows {
    ghost takes = { λ _ _ _. Unit {0} };

    ghost stops = { λ _ _ _. Unit {0} };

    fn take(&mut self, row: Row) -> Demand {
        self.left = self.left.saturating_sub(1);
        if push_row(&mut self.text, row.shown, row.text).is_err() || self.left == 0 {
            Demand::Stop
        } else {
            Demand::More
        }
    }

    ghost none = { λ s. tt };

    ghost joined = { λ a b c rows more h k. tt };

    ghost stopped = { λ a b c rows more rest h k. tt };
}

fn push_row(text: &mut String, shown: &str, body: &[u8]) -> Result<(), AllocError> {
    text.push_str(shown)?;
    text.push('=')?;
    text.push_str(str::from_utf8(body).unwrap_or("not UTF-8"))?;
    text.push('/')
}

fn push_number(
    alloc: Global,
    text: &mut String,
    before: &str,
    number: u64,
) -> Result<(), AllocError>
    ensures { OnOk result (string_bytes text.new ≡ string_bytes text.old ++ (before.now ++ decimal number)) }
{
    text.push_str(before)?;
    text.push_str(format!(in alloc; "{number}")?.as_str())
}

fn push_members(text: &mut String, members: &[String]) -> Result<(), AllocError>
    ensures { OnOk result (string_bytes text.new ≡ string_bytes text.old ++ members_text (texts_shown members.now)) }
{
    for member in members {
        text.push_str(" +")?;
        text.push_str(member.as_str())?;
    }
    Ok(())
}

// The numbers of an item's editions, or its members.
fn push_content(alloc: Global, text: &mut String, item: &Item) -> Result<(), AllocError>
    ensures { OnOk result (string_bytes text.new ≡ string_bytes text.old ++ content_text (item_shown item.now)) }
{
    match item {
        Item::Regular {
            current,
            former: None,
            ..
        } => push_number(alloc, text, " ", current.number),
        Item::Regular {
            current,
            former: Some(former),
            ..
        } => {
            push_number(alloc, text, " ", current.number)?;
            push_number(alloc, text, "/", former.number)
        }
        Item::Virtual { members, .. } => push_members(text, members),
    }
}

fn push_item(alloc: Global, text: &mut String, item: &Item) -> Result<(), AllocError>
    ensures { OnOk result (string_bytes text.new ≡ string_bytes text.old ++ item_listed (item_shown item.now)) }
{
    text.push_str(item.name())?;
    text.push_str(" ")?;
    text.push_str(item.title())?;
    push_content(alloc, text, item)?;
    text.push_str("; ")
}

/// The items in order: name, title, and the numbers of the editions or the members.
pub fn listed(alloc: Global, summary: &Summary) -> Result<String, AllocError>
    ensures { IfOk result (λ text. string_bytes text ≡ items_text (summary_shown summary.now).items) }
{
    let mut text = String::new(alloc);
    for item in &summary.items {
        push_item(alloc, &mut text, item)?;
    }
    Ok(text)
}

// Of each edition of a catalogue its info, and its entries that have an `o` or an `é` in their headwords.
fn push_editions<L: Lookup>(alloc: Global, rows: &mut Rows, desk: &mut L) -> Result<(), Fault>
    ensures trust { L.is_trusted desk.new → L.is_trusted desk.old }
    ensures beside { (beside : L.Beside) → L.keeps_beside desk.old beside → L.keeps_beside desk.new beside }
    ensures shows { L.is_trusted desk.new → (M : Catalogue) → L.shows desk.old M → L.shows desk.new M }
    ensures leaves { (ms : List (Option Catalogue)) → L.leaves_one_of desk.old ms → L.leaves_one_of desk.new ms }
{
    let numbers = edition_numbers(alloc, &desk.summary()?.items)?;
    for number in &numbers {
        desk.info(*number, rows)?;
        desk.find(
            *number,
            Strategy::Substring,
            &key_of(alloc, "o")?,
            What::Entries,
            rows,
        )?;
        desk.find(
            *number,
            Strategy::Prefix,
            &key_of(alloc, "é")?,
            What::Entries,
            rows,
        )?;
    }
    Ok(())
}

// The replies that are kept under some ids.
fn push_kept<K: Keeper>(alloc: Global, text: &mut String, desk: &mut K) -> Result<(), Fault>
    ensures trust { K.is_trusted desk.new → K.is_trusted desk.old }
    ensures beside { (beside : K.Beside) → K.keeps_beside desk.old beside → K.keeps_beside desk.new beside }
    ensures shows { K.is_trusted desk.new → (M : Catalogue) → K.shows desk.old M → K.shows desk.new M }
    ensures leaves { (ms : List (Option Catalogue)) → K.leaves_one_of desk.old ms → K.leaves_one_of desk.new ms }
{
    for id in ["a", "b", "c", "d", "e", "f", "r1", "r2", "r3", "r4"] {
        if let Some(kept) = desk.kept(id)? {
            text.push_str(told_reply(alloc, &kept)?.as_str())?;
            text.push(';')?;
        }
    }
    Ok(())
}

/// The whole catalogue: the items, all editions, how many installs and commands were accepted, and the replies that are kept
/// under some ids. It stays as it is.
pub fn shown<K: Keeper>(alloc: Global, desk: &mut K) -> Result<String, Fault>
    ensures trust { K.is_trusted desk.new → K.is_trusted desk.old }
    ensures beside { (beside : K.Beside) → K.keeps_beside desk.old beside → K.keeps_beside desk.new beside }
    ensures shows { K.is_trusted desk.new → (M : Catalogue) → K.shows desk.old M → K.shows desk.new M }
    ensures leaves { (ms : List (Option Catalogue)) → K.leaves_one_of desk.old ms → K.leaves_one_of desk.new ms }
{
    let mut rows = Rows::new(alloc, usize::MAX);
    rows.text
        .push_str(listed(alloc, desk.summary()?)?.as_str())?;
    push_editions(alloc, &mut rows, desk)?;
    let installs = desk.summary()?.installs;
    let accepted = desk.summary()?.accepted;
    rows.text
        .push_str(format!(in alloc; "{installs} of {accepted};")?.as_str())?;
    push_kept(alloc, &mut rows.text, desk)?;
    Ok(rows.text)
}
