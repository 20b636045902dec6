// What the items of a summary say of a name.
ghost use Rattle.std.specs.Prelude.{◌≡◌, map};
ghost use Rattle.dict_catalogue.specs.Items.{is_regular, is_virtual, has_former, is_named, is_among, lists, is_known, names_regular, names_virtual, names_former, is_listed, current_of, current_number};
ghost use Rattle.dict_catalogue.specs.Views.{item_shown, texts_shown};

use crate::summary::Item;

/// Whether the item has this name.
pub fn is_named(item: &Item, name: &str) -> bool
    ensures { result ≡ is_named name.now (item_shown item.now) }
{
    item.name() == name
}

fn is_regular(item: &Item) -> bool
    ensures { result ≡ is_regular (item_shown item.now) }
{
    matches!(item, Item::Regular { .. })
}

fn is_virtual(item: &Item) -> bool
    ensures { result ≡ is_virtual (item_shown item.now) }
{
    matches!(item, Item::Virtual { .. })
}

fn has_former(item: &Item) -> bool
    ensures { result ≡ has_former (item_shown item.now) }
{
    match item {
        Item::Regular { former, .. } => former.is_some(),
        Item::Virtual { .. } => false,
    }
}

/// Whether the item lists the name as a member.
fn lists(item: &Item, name: &str) -> bool
    ensures { result ≡ lists name.now (item_shown item.now) }
{
    match item {
        Item::Regular { .. } => false,
        Item::Virtual { members, .. } => is_among(members, name),
    }
}

/// Whether the name is one of the names.
pub fn is_among(names: &[String], name: &str) -> bool
    ensures { result ≡ is_among (texts_shown names.now) name.now }
{
    for one in names {
        if one.as_str() == name {
            return true;
        }
    }
    false
}

/// Whether some item has the name.
pub fn is_known(items: &[Item], name: &str) -> bool
    ensures { result ≡ is_known (map item_shown items.now) name.now }
{
    for item in items {
        if is_named(item, name) {
            return true;
        }
    }
    false
}

/// Whether some regular item has the name.
pub fn names_regular(items: &[Item], name: &str) -> bool
    ensures { result ≡ names_regular (map item_shown items.now) name.now }
{
    for item in items {
        if is_named(item, name) && is_regular(item) {
            return true;
        }
    }
    false
}

/// Whether some virtual item has the name.
pub fn names_virtual(items: &[Item], name: &str) -> bool
    ensures { result ≡ names_virtual (map item_shown items.now) name.now }
{
    for item in items {
        if is_named(item, name) && is_virtual(item) {
            return true;
        }
    }
    false
}

/// Whether an item with the name has a former edition.
pub fn names_former(items: &[Item], name: &str) -> bool
    ensures { result ≡ names_former (map item_shown items.now) name.now }
{
    for item in items {
        if is_named(item, name) && has_former(item) {
            return true;
        }
    }
    false
}

/// Whether a virtual item lists the name.
pub fn is_listed(items: &[Item], name: &str) -> bool
    ensures { result ≡ is_listed (map item_shown items.now) name.now }
{
    for item in items {
        if lists(item, name) {
            return true;
        }
    }
    false
}

/// The number of the current edition, where the item is regular.
fn current_of(item: &Item) -> Option<u64>
    ensures { result ≡ current_of (item_shown item.now) }
{
    match item {
        Item::Regular { current, .. } => Some(current.number),
        Item::Virtual { .. } => None,
    }
}

/// The number of the current edition of the first item with the name.
pub fn current_number(items: &[Item], name: &str) -> Option<u64>
    ensures { result ≡ current_number (map item_shown items.now) name.now }
{
    for item in items {
        if is_named(item, name) {
            return current_of(item);
        }
    }
    None
}
