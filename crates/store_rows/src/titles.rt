// Where the title of an edition goes that was read.
ghost use Rattle.std.specs.Prelude.{◌≡◌, ◌<◌, ◌++◌, ◌∷◌, ℕ, List, false, true, length, map, take, drop, MatchOption, string_bytes};
ghost use Rattle.std.specs.List.{list_all, list_any};
ghost use Rattle.dict_catalogue.specs.Items.{Item as AnItem};
ghost use Rattle.dict_catalogue.specs.Views.{item_shown, stored_shown};
ghost use Rattle.store_rows.specs.Titles.{is_awaited, awaits, item_titled, is_titled};

use dict_catalogue::{Item, StoredTitle};

fn is_awaited(number: u64, stored: &StoredTitle) -> bool
    ensures { result ≡ is_awaited number (stored_shown stored.now) }
{
    stored.number == number && stored.title.is_empty()
}

/// Whether the item has this name, and an edition of this number that wasn't read yet.
fn awaits(owner: &str, number: u64, item: &Item) -> bool
    ensures { result ≡ awaits owner.now number (item_shown item.now) }
{
    match item {
        Item::Regular {
            name,
            current,
            former: None,
        } => name.as_str() == owner && is_awaited(number, current),
        Item::Regular {
            name,
            current,
            former: Some(former),
        } => {
            name.as_str() == owner && (is_awaited(number, current) || is_awaited(number, former))
        }
        Item::Virtual { .. } => false,
    }
}

/// The place of the item of this name that awaits the edition of this number, if there is one.
pub(crate) fn place_of(items: &[Item], owner: &str, number: u64) -> Option<usize>
    ensures none { MatchOption result (list_any (awaits owner.now number) (map item_shown items.now) ≡ false) (λ place. place < length items.now) }
    ensures found { MatchOption result (Unit {0}) (λ place. list_any (awaits owner.now number) (map item_shown (take 1 (drop place items.now))) ≡ true) }
{
    for (place, item) in items.iter().enumerate() {
        if awaits(owner, number, item) {
            return Some(place);
        }
    }
    None
}

/// Gives its edition of this number the title.
pub(crate) fn give_title(item: &mut Item, number: u64, title: String)
    ensures { item_shown item.new ≡ item_titled number (string_bytes title) (item_shown item.old) }
{
    if let Item::Regular {
        current,
        former,
        ..
    } = item
    {
        if current.number == number {
            current.title = title;
        } else if let Some(former) = former {
            former.title = title;
        }
    }
}

/// Gives the item at a place the title of its edition of this number.
pub(crate) fn title_at(items: &mut Vec<Item>, place: usize, number: u64, title: String)
    requires { place < length items.old.items }
    ensures { (front : List (AnItem (List ℕ))) (item : AnItem (List ℕ)) (behind : List (AnItem (List ℕ))) → map item_shown items.old.items ≡ front ++ item ∷ behind → length front ≡ place →
        map item_shown items.new.items ≡ front ++ item_titled number (string_bytes title) item ∷ behind }
{
    give_title(&mut items[place], number, title);
}

fn is_titled(item: &Item) -> bool
    ensures { result ≡ is_titled (item_shown item.now) }
{
    match item {
        Item::Regular {
            current,
            former: None,
            ..
        } => !current.title.is_empty(),
        Item::Regular {
            current,
            former: Some(former),
            ..
        } => !current.title.is_empty() && !former.title.is_empty(),
        Item::Virtual { .. } => true,
    }
}

/// Whether each edition of the items has a title.
pub(crate) fn are_titled(items: &[Item]) -> bool
    ensures { result ≡ list_all is_titled (map item_shown items.now) }
{
    for item in items {
        if !is_titled(item) {
            return false;
        }
    }
    true
}
