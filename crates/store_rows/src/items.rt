// The items that the records of two tables tell, with no title of an edition yet.
ghost use Rattle.std.specs.Prelude.{◌≡◌, ◌≢◌, ◌≤◌, ◌↔◌, ◌++◌, ◌∷◌, [], ℕ, pos, List, Option, IfOk, IfErr, IfSome, IfNone, OnOk, IsTrue, map, option_map, string_bytes, length};
ghost use Rattle.store_tables.specs.Typed.{owned_item};
ghost use Rattle.dict_catalogue.specs.Items.{members_of};
ghost use Rattle.dict_catalogue.specs.Views.{item_shown, stored_shown, texts_shown};
ghost use Rattle.store_rows.specs.Tables.{members_of_owner};
ghost use Rattle.store_rows.specs.Written.{numbered, item_record, member_record};
ghost use Rattle.store_rows.specs.Given.{items_given, members_given, OnDamage, IsUnread, IsItemRead, AreRead, IsNotRegular, IsNotVirtual, IsNoItem, AreNoItems};

use crate::fault::RowsFault;
use dict_catalogue::{Item, StoredTitle};
use std::alloc::Global;
use store_tables::{ItemRecord as ItemRow, Member, StoredRow};

/// The number that stands in a column, where it isn't below 0.
pub fn number_in(found: &i64) -> Option<u64>
    ensures number { IfSome result (λ number. found.now ≡ pos number) }
    ensures most { IfSome result (λ number. number ≤ 9223372036854775807) }
    ensures below { IfNone result ((number : ℕ) → found.now ≢ pos number) }
{
    if *found < 0 {
        return None;
    }
    Some(*found as u64)
}

/// The number that stands in a column, which is never below 0.
pub(crate) fn number_of(found: &i64) -> Result<u64, RowsFault>
    ensures number { IfOk result (λ number. found.now ≡ pos number) }
    ensures most { IfOk result (λ number. number ≤ 9223372036854775807) }
    ensures below { IfErr result (λ fault. OnDamage fault ((number : ℕ) → found.now ≢ pos number)) }
    ensures only { IfErr result (λ fault. fault ≡ RowsFault.Damaged) }
{
    match number_in(found) {
        Some(number) => Ok(number),
        None => Err(RowsFault::Damaged),
    }
}

/// Whether the number stands in the column.
pub(crate) fn is_number(number: u64, found: &i64) -> bool
    ensures same { IsTrue result ↔ (found.now ≡ pos number) }
{
    *found >= 0 && *found as u64 == number
}

/// The number that stands in a column, if one does.
pub(crate) fn number_if(found: &Option<i64>) -> Result<Option<u64>, RowsFault>
    ensures number { IfOk result (λ number. found.now ≡ option_map pos number) }
    ensures below { IfErr result (λ fault. OnDamage fault ((number : Option ℕ) → found.now ≢ option_map pos number)) }
    ensures only { IfErr result (λ fault. fault ≡ RowsFault.Damaged) }
{
    match found {
        Some(found) => Ok(Some(number_of(found)?)),
        None => Ok(None),
    }
}

/// Adds the member's name, if its place is the next one.
fn add_member(
    alloc: Global,
    members: &mut Vec<String>,
    row: &Member<String>,
) -> Result<(), RowsFault>
    ensures place { OnOk result (row.now.ord ≡ pos (length (texts_shown members.old.items))) }
    ensures name { OnOk result (texts_shown members.new.items ≡ texts_shown members.old.items ++ string_bytes row.now.name ∷ []) }
    ensures damaged { IfErr result (λ fault. OnDamage fault (row.now.ord ≢ pos (length (texts_shown members.old.items)))) }
{
    if !is_number(members.len() as u64, &row.ord) {
        return Err(RowsFault::Damaged);
    }
    members.push(String::from_str(alloc, row.name.as_str())?)?;
    Ok(())
}

/// The names of the members of this owner, whose places count from 0.
fn members_of(
    alloc: Global,
    rows: &[StoredRow<Member<String>>],
    owner: &str,
) -> Result<Vec<String>, RowsFault>
    ensures members { IfOk result (λ members. members_of_owner owner.now (members_given rows.now) ≡ numbered (member_record owner.now) 0 (texts_shown members.items)) }
    ensures damaged { IfErr result (λ fault. OnDamage fault ((names : List (List ℕ)) → members_of_owner owner.now (members_given rows.now) ≢ numbered (member_record owner.now) 0 names)) }
{
    let mut members = Vec::new(alloc);
    for row in rows {
        if row.value.owner.as_str() == owner {
            add_member(alloc, &mut members, &row.value)?;
        }
    }
    Ok(members)
}

/// The regular item that a record tells, whose editions have no title yet.
fn regular_of(alloc: Global, place: u64, row: &ItemRow<String>) -> Result<Item, RowsFault>
    ensures is { IfOk result (λ item. owned_item row.now ≡ item_record place (item_shown item)) }
    ensures alone { IfOk result (λ item. members_of (item_shown item) ≡ []) }
    ensures unread { IfOk result (λ item. IsUnread (item_shown item)) }
    ensures damaged { IfErr result (λ fault. OnDamage fault (IsNotRegular place (owned_item row.now))) }
{
    if !is_number(place, &row.place) || !is_number(0, &row.kind) || row.title.is_some() {
        return Err(RowsFault::Damaged);
    }
    let Some(current) = &row.current else {
        return Err(RowsFault::Damaged);
    };
    let current = number_of(current)?;
    let former = number_if(&row.former)?;
    Ok(Item::Regular {
        name: String::from_str(alloc, row.name.as_str())?,
        current: without_title(alloc, current),
        former: without_title_yet(alloc, former),
    })
}

/// An edition whose record wasn't read yet: its title is empty, as no edition's is.
fn without_title(alloc: Global, number: u64) -> StoredTitle
    ensures { stored_shown result ≡ record { number = number; content = [] } }
{
    StoredTitle {
        number,
        title: String::new(alloc),
    }
}

fn without_title_yet(alloc: Global, number: Option<u64>) -> Option<StoredTitle>
    ensures { option_map stored_shown result ≡ option_map (λ n. record { number = n; content = [] }) number }
{
    match number {
        Some(number) => Some(without_title(alloc, number)),
        None => None,
    }
}

/// The virtual item that a record tells, with these members.
fn virtual_of(
    alloc: Global,
    place: u64,
    row: &ItemRow<String>,
    members: Vec<String>,
) -> Result<Item, RowsFault>
    ensures is { IfOk result (λ item. owned_item row.now ≡ item_record place (item_shown item)) }
    ensures held { IfOk result (λ item. members_of (item_shown item) ≡ texts_shown members.items) }
    ensures unread { IfOk result (λ item. IsUnread (item_shown item)) }
    ensures damaged { IfErr result (λ fault. OnDamage fault (IsNotVirtual place (owned_item row.now))) }
{
    if !is_number(place, &row.place)
        || !is_number(1, &row.kind)
        || row.current.is_some()
        || row.former.is_some()
    {
        return Err(RowsFault::Damaged);
    }
    let Some(title) = &row.title else {
        return Err(RowsFault::Damaged);
    };
    Ok(Item::Virtual {
        name: String::from_str(alloc, row.name.as_str())?,
        title: String::from_str(alloc, title.as_str())?,
        members,
    })
}

/// The item that a record and the records of its members tell, whose editions have no title yet.
fn item_of(
    alloc: Global,
    place: u64,
    row: &ItemRow<String>,
    members: &[StoredRow<Member<String>>],
) -> Result<Item, RowsFault>
    ensures read { IfOk result (λ item. IsItemRead place (owned_item row.now) (members_given members.now) (item_shown item)) }
    ensures damaged { IfErr result (λ fault. OnDamage fault (IsNoItem place (owned_item row.now) (members_given members.now))) }
{
    let members = members_of(alloc, members, row.name.as_str())?;
    if !is_number(0, &row.kind) {
        return virtual_of(alloc, place, row, members);
    }
    if !members.is_empty() {
        return Err(RowsFault::Damaged);
    }
    regular_of(alloc, place, row)
}

/// The items that the records tell, whose editions have no title yet.
pub(crate) fn items_of(
    alloc: Global,
    rows: &[StoredRow<ItemRow<String>>],
    members: &[StoredRow<Member<String>>],
) -> Result<Vec<Item>, RowsFault>
    ensures read { IfOk result (λ items. AreRead 0 (items_given rows.now) (members_given members.now) (map item_shown items.items)) }
    ensures damaged { IfErr result (λ fault. OnDamage fault (AreNoItems (items_given rows.now) (members_given members.now))) }
{
    let mut items = Vec::new(alloc);
    for (place, row) in rows.iter().enumerate() {
        items.push(item_of(alloc, place as u64, &row.value, members)?)?;
    }
    Ok(items)
}
