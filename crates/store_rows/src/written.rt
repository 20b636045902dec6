// The records that the parts of a catalogue are written as.
ghost use Rattle.std.specs.Prelude.{◌≡◌, ◌≤◌, IfSome, IfOk, MatchOption, map, pos};
ghost use Rattle.std.specs.List.{AllByRecursion};
ghost use Rattle.store_tables.specs.Typed.{lent_mark, lent_item, lent_member, lent_kept};
ghost use Rattle.dict_catalogue.specs.Items.{numbers_of};
ghost use Rattle.dict_catalogue.specs.Views.{item_shown, kept_shown};
ghost use Rattle.store_rows.specs.Written.{mark_record, item_record, member_record, kept_record, verb_name};

use dict_catalogue::{Item, Kept as Reply, Verb};
use std::alloc::{AllocError, Global};
use store_tables::{ItemRecord as ItemRow, KeptRecord, Mark, Member};

/// The version of the tables that is written, and the greatest that is opened.
pub const KNOWN_VERSION: u64 = 6;

/// The greatest number that a column holds.
const MAX_NUMBER: u64 = 9_223_372_036_854_775_807;

/// The same numbers as a column holds them; `None` where one is greater than any that it holds.
pub fn signed_numbers(alloc: Global, numbers: &[u64]) -> Result<Option<Vec<i64>>, AllocError>
    ensures { IfOk result (λ told. MatchOption told (AllByRecursion (λ number. number ≤ 9223372036854775807) numbers.now → ⊥) (λ signed. signed.items ≡ map pos numbers.now)) }
{
    let mut signed = Vec::new(alloc);
    for number in numbers {
        if *number > MAX_NUMBER {
            return Ok(None);
        }
        signed.push(*number as i64)?;
    }
    Ok(Some(signed))
}

/// The mark of a file of this version, with the count of installs.
pub fn mark_row(version: u64, installs: u64) -> Mark<&'static str>
    requires version { version ≤ 9223372036854775807 }
    requires installs { installs ≤ 9223372036854775807 }
    ensures { lent_mark result ≡ mark_record version installs }
{
    Mark {
        id: 1,
        magic: "dictcat",
        version: version as i64,
        installs: installs as i64,
    }
}

/// The record of an item at its place.
pub fn item_row(place: u64, item: &Item) -> ItemRow<&str>
    requires place { place ≤ 9223372036854775807 }
    requires numbers { AllByRecursion (λ number. number ≤ 9223372036854775807) (numbers_of (item_shown item.now)) }
    ensures { lent_item result ≡ item_record place (item_shown item.now) }
{
    let place = place as i64;
    match item {
        Item::Regular {
            name,
            current,
            former: None,
        } => ItemRow {
            place,
            name,
            kind: 0,
            title: None,
            current: Some(current.number as i64),
            former: None,
        },
        Item::Regular {
            name,
            current,
            former: Some(former),
        } => ItemRow {
            place,
            name,
            kind: 0,
            title: None,
            current: Some(current.number as i64),
            former: Some(former.number as i64),
        },
        Item::Virtual { name, title, .. } => ItemRow {
            place,
            name,
            kind: 1,
            title: Some(title),
            current: None,
            former: None,
        },
    }
}

/// The record of a member of this owner at its place.
pub fn member_row<'a>(owner: &'a str, ord: u64, name: &'a str) -> Member<&'a str>
    requires { ord ≤ 9223372036854775807 }
    ensures { lent_member result ≡ member_record owner.now ord name.now }
{
    let place = ord as i64;
    Member {
        owner,
        ord: place,
        name,
    }
}

/// The word for what a command did.
fn verb_word(verb: Verb) -> &'static str
    ensures { result.now ≡ verb_name verb }
{
    match verb {
        Verb::Install => "install",
        Verb::Rollback => "rollback",
        Verb::Retire => "retire",
        Verb::Virtual => "virtual",
        Verb::Place => "place",
    }
}

/// The record of a reply that is kept for this id.
pub fn kept_row<'a>(id: &'a str, reply: &'a Reply) -> KeptRecord<&'a str>
    requires number { reply.now.number ≤ 9223372036854775807 }
    requires edition { IfSome reply.now.edition (λ number. number ≤ 9223372036854775807) }
    ensures { lent_kept result ≡ kept_record (record { id = id.now; reply = kept_shown reply.now }) }
{
    KeptRecord {
        id,
        number: reply.number as i64,
        verb: verb_word(reply.verb),
        name: &reply.name,
        edition: match reply.edition {
            Some(number) => Some(number as i64),
            None => None,
        },
    }
}
