// Which databases a word asks.
ghost use Rattle.std.specs.Prelude.{◌≡◌, ◌≤◌, ◌<◌, [], ◌∷◌, ◌++◌, length, map, slice_get};
ghost use Rattle.std.specs.List.{flat_map};
ghost use Rattle.dict_catalogue.specs.Items.{is_regular};
ghost use Rattle.dict_catalogue.specs.Views.{item_shown, texts_shown};
ghost use Rattle.dict_session.specs.Places.{places_from, is_regular_named, places_named, places_by, places_under, asked_in, HoldsPlaces, HoldsUnder, HoldsAsked, IsHeading};

use arrayvec::{ArrayString, ArrayVec};
use dict_catalogue::Item;
use dict_text::MAX_TITLE;

/// The most databases that a word asks: a catalogue has at most 64 items, and a virtual one at most 64 members.
const MAX_PLACES: usize = 64;

/// The most octets of a database's name.
const MAX_NAME: usize = 32;

/// The places among a catalogue's items of the databases that are asked, in their order: all of them, or the first in
/// which an entry is found.
#[derive(Drop)]
pub(crate) struct Asked {
    pub places: ArrayVec<usize, MAX_PLACES>,
    pub is_first: bool,
}

/// A database's name and title, and its current edition's number, kept while the desk is asked.
#[derive(Drop)]
pub(crate) struct Heading {
    pub number: u64,
    pub name: ArrayString<MAX_NAME>,
    pub title: ArrayString<MAX_TITLE>,
}

// Which databases the word asks: the star and the exclamation mark all, a name its item.
pub(crate) fn asked_places(items: &[Item], word: &str) -> Option<Asked>
    ensures { HoldsAsked result (asked_in (map item_shown items.now) word.now) }
{
    if word == "*" {
        return Some(Asked {
            places: regular_places(items),
            is_first: false,
        });
    }
    if word == "!" {
        return Some(Asked {
            places: regular_places(items),
            is_first: true,
        });
    }
    match places_under(items, word) {
        Some(places) => Some(Asked {
            places,
            is_first: false,
        }),
        None => None,
    }
}

// Adds a place, if there is room for it.
pub(crate) fn add_place(places: &mut ArrayVec<usize, MAX_PLACES>, place: usize)
    ensures { length places.old.items < 64 → places.new.items ≡ places.old.items ++ place ∷ [] }
{
    let _ = places.try_push(place);
}

fn is_regular(item: &Item) -> bool
    ensures { result ≡ is_regular (item_shown item.now) }
{
    matches!(item, Item::Regular { .. })
}

// The places of the regular items.
fn regular_places(items: &[Item]) -> ArrayVec<usize, MAX_PLACES>
    ensures { HoldsPlaces result.items (places_from is_regular 0 (map item_shown items.now)) }
{
    let mut places = ArrayVec::new();
    for place in 0..items.len() {
        if is_regular(&items[place]) {
            add_place(&mut places, place);
        }
    }
    places
}

// Whether the item is regular and has this name.
pub(crate) fn is_regular_named(item: &Item, name: &str) -> bool
    ensures { result ≡ is_regular_named name.now (item_shown item.now) }
{
    item.name() == name && is_regular(item)
}

// Adds the places of the regular items of this name.
fn add_named(places: &mut ArrayVec<usize, MAX_PLACES>, items: &[Item], name: &str)
    ensures { HoldsPlaces places.new.items (places.old.items ++ places_named (map item_shown items.now) name.now) }
{
    for place in 0..items.len() {
        if is_regular_named(&items[place], name) {
            add_place(places, place);
        }
    }
}

// The places of the regular items of these names.
fn member_places(items: &[Item], members: &[String]) -> ArrayVec<usize, MAX_PLACES>
    ensures { HoldsPlaces result.items (flat_map (places_named (map item_shown items.now)) (texts_shown members.now)) }
{
    let mut places = ArrayVec::new();
    for member in members {
        add_named(&mut places, items, member.as_str());
    }
    places
}

pub(crate) fn one_place(place: usize) -> ArrayVec<usize, MAX_PLACES>
    ensures { result.items ≡ place ∷ [] }
{
    let mut places = ArrayVec::new();
    add_place(&mut places, place);
    places
}

// The places that the item asks, which stands at this one.
fn places_by(items: &[Item], place: usize, item: &Item) -> ArrayVec<usize, MAX_PLACES>
    ensures { HoldsPlaces result.items (places_by (map item_shown items.now) place (item_shown item.now)) }
{
    match item {
        Item::Regular { .. } => one_place(place),
        Item::Virtual { members, .. } => member_places(items, members),
    }
}

// The places that the first item of this name asks.
fn places_under(items: &[Item], name: &str) -> Option<ArrayVec<usize, MAX_PLACES>>
    ensures { HoldsUnder result (places_under (map item_shown items.now) name.now 0 (map item_shown items.now)) }
{
    for place in 0..items.len() {
        let item = &items[place];
        if item.name() == name {
            return Some(places_by(items, place, item));
        }
    }
    None
}

// The heading of the database at a place, if one stands there. Where a name or a title is too long to be lawful, it is
// left out.
pub(crate) fn heading_at(items: &[Item], place: usize) -> Option<Heading>
    ensures { IsHeading result (slice_get (map item_shown items.now) place) }
{
    match items.get(place) {
        Some(Item::Regular { name, current, .. }) => Some(Heading {
            number: current.number,
            name: name_kept(name.as_str()),
            title: title_kept(current.title.as_str()),
        }),
        Some(Item::Virtual { .. }) => None,
        None => None,
    }
}

fn name_kept(name: &str) -> ArrayString<MAX_NAME>
    ensures { length name.now ≤ 32 → result.bytes ≡ name.now }
{
    ArrayString::from(name).unwrap_or(ArrayString::new())
}

fn title_kept(title: &str) -> ArrayString<MAX_TITLE>
    ensures { length title.now ≤ 200 → result.bytes ≡ title.now }
{
    ArrayString::from(title).unwrap_or(ArrayString::new())
}
