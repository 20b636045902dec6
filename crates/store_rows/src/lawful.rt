// Whether the items of a catalogue are lawful, whatever is known of their editions.
ghost use Rattle.std.specs.Prelude.{◌≡◌, ◌&&◌, IfOk, map};
ghost use Rattle.std.specs.List.{list_all};
ghost use Rattle.std.specs.Str.{is_utf8};
ghost use Rattle.dict_text.specs.Names.{is_title};
ghost use Rattle.dict_catalogue.specs.Items.{names_regular};
ghost use Rattle.dict_catalogue.specs.Views.{item_shown, texts_shown};
ghost use Rattle.store_rows.specs.Tests.{has_once, has_numbers_once, has_names_once, is_lawful_item, has_known_members, is_from_one_to, has_lawful_items};

use dict_catalogue::{
    Item, MAX_ITEMS, MAX_MEMBERS, edition_numbers, is_among, is_known, names_regular,
};
use dict_text::{is_name, is_title};
use std::alloc::{AllocError, Global};

/// Whether no text stands in the list twice.
fn has_once(texts: &[String]) -> bool
    ensures { result ≡ has_once (texts_shown texts.now) }
{
    for (index, text) in texts.iter().enumerate() {
        if is_among(&texts[index + 1..], text.as_str()) {
            return false;
        }
    }
    true
}

/// Whether no two items have one name.
fn has_names_once(items: &[Item]) -> bool
    ensures { result ≡ has_names_once (map item_shown items.now) }
{
    for (index, item) in items.iter().enumerate() {
        if is_known(&items[index + 1..], item.name()) {
            return false;
        }
    }
    true
}

/// Whether no number stands in the list twice.
fn has_numbers_once(numbers: &[u64]) -> bool
    ensures { result ≡ has_numbers_once numbers.now }
{
    for (index, number) in numbers.iter().enumerate() {
        if numbers[index + 1..].contains(number) {
            return false;
        }
    }
    true
}

/// Whether each number is from 1 to the count of installs.
fn are_from_one_to(installs: u64, numbers: &[u64]) -> bool
    ensures { result ≡ list_all (is_from_one_to installs) numbers.now }
{
    for number in numbers {
        if !(1 <= *number && *number <= installs) {
            return false;
        }
    }
    true
}

/// Whether a text is a lawful title. UTF-8 it is, as each text.
fn is_text_title(title: &str) -> bool
    ensures { result ≡ (is_utf8 title.now && is_title title.now) }
{
    is_title(title)
}

/// Whether an item has a lawful name and, where it is virtual, a lawful title and 1 to 64 members, each once.
fn is_lawful_item(item: &Item) -> bool
    ensures { result ≡ is_lawful_item (item_shown item.now) }
{
    match item {
        Item::Regular { name, .. } => is_name(name.as_str()),
        Item::Virtual {
            name,
            title,
            members,
        } => {
            is_name(name.as_str())
                && is_text_title(title.as_str())
                && (1 <= members.len() && members.len() <= MAX_MEMBERS)
                && has_once(members)
        }
    }
}

fn are_lawful(items: &[Item]) -> bool
    ensures { result ≡ list_all is_lawful_item (map item_shown items.now) }
{
    for item in items {
        if !is_lawful_item(item) {
            return false;
        }
    }
    true
}

/// Whether each member of an item is the name of a regular item.
fn has_known_members(items: &[Item], item: &Item) -> bool
    ensures { result ≡ has_known_members (map item_shown items.now) (item_shown item.now) }
{
    match item {
        Item::Regular { .. } => true,
        Item::Virtual { members, .. } => are_regular(items, members),
    }
}

fn are_regular(items: &[Item], names: &[String]) -> bool
    ensures { result ≡ list_all (names_regular (map item_shown items.now)) (texts_shown names.now) }
{
    for name in names {
        if !names_regular(items, name.as_str()) {
            return false;
        }
    }
    true
}

fn have_known_members(items: &[Item]) -> bool
    ensures { result ≡ list_all (has_known_members (map item_shown items.now)) (map item_shown items.now) }
{
    for item in items {
        if !has_known_members(items, item) {
            return false;
        }
    }
    true
}

/// Whether items are lawful where so many installs were accepted, whatever is known of their editions.
pub(crate) fn has_lawful_items(
    alloc: Global,
    installs: u64,
    items: &[Item],
) -> Result<bool, AllocError>
    ensures { IfOk result (λ lawful. lawful ≡ has_lawful_items installs (map item_shown items.now)) }
{
    let numbers = edition_numbers(alloc, items)?;
    Ok(
        items.len() <= MAX_ITEMS
            && are_lawful(items)
            && has_names_once(items)
            && have_known_members(items)
            && (are_from_one_to(installs, &numbers) && has_numbers_once(&numbers)),
    )
}
