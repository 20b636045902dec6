// What a command does to the items.
ghost use Rattle.std.specs.Prelude.{◌≡◌, ◌++◌, ◌∷◌, [], IfOk, map, filter};
ghost use Rattle.dict_catalogue.specs.Items.{regular, virtual, is_named};
ghost use Rattle.dict_catalogue.specs.Effects.{changed, changed_in_place, others_than, moved, items_after};
ghost use Rattle.dict_catalogue.specs.Effects.{installed, swapped, put_anew};
ghost use Rattle.dict_catalogue.specs.Views.{item_shown, names_shown, command_shown};

use crate::commands::Command;
use crate::copies::{copied_item, copied_items, copied_stored, owned_texts};
use crate::lookups::{is_known, is_named};
use crate::summary::{Item, StoredTitle};
use std::alloc::{AllocError, Global};

/// The items after the command. The number is that of an installed edition.
pub fn items_after(
    alloc: Global,
    items: &[Item],
    command: &Command,
    number: u64,
) -> Result<Vec<Item>, AllocError>
    ensures { IfOk result (λ after. map item_shown after.items ≡ items_after number (command_shown command.now) (map item_shown items.now)) }
{
    match command {
        Command::Install { name, edition } => {
            if is_known(items, name) {
                changed_in_place(alloc, items, command, number)
            } else {
                with_last(
                    alloc,
                    items,
                    new_item(alloc, name, edition.title(), number)?,
                )
            }
        }
        Command::Rollback { .. } => changed_in_place(alloc, items, command, number),
        Command::Retire { name } => others_than(alloc, items, name),
        Command::PutVirtual {
            name,
            title,
            members,
        } => {
            if is_known(items, name) {
                changed_in_place(alloc, items, command, number)
            } else {
                with_last(alloc, items, virtual_item(alloc, name, title, members)?)
            }
        }
        Command::Place { name, place } => moved(alloc, items, name, *place),
    }
}

/// A database with its first edition.
fn new_item(alloc: Global, name: &str, title: &str, number: u64) -> Result<Item, AllocError>
    ensures { IfOk result (λ item. item_shown item ≡ regular name.now (record { number = number; content = title.now }) None) }
{
    Ok(Item::Regular {
        name: String::from_str(alloc, name)?,
        current: StoredTitle {
            number,
            title: String::from_str(alloc, title)?,
        },
        former: None,
    })
}

fn virtual_item(
    alloc: Global,
    name: &str,
    title: &str,
    members: &[&str],
) -> Result<Item, AllocError>
    ensures { IfOk result (λ item. item_shown item ≡ virtual name.now title.now (names_shown members.now)) }
{
    Ok(Item::Virtual {
        name: String::from_str(alloc, name)?,
        title: String::from_str(alloc, title)?,
        members: owned_texts(alloc, members)?,
    })
}

/// The item after an install: the edition is current, and the current one is former.
fn installed(alloc: Global, item: &Item, title: &str, number: u64) -> Result<Item, AllocError>
    ensures { IfOk result (λ after. item_shown after ≡ installed (record { number = number; content = title.now }) (item_shown item.now)) }
{
    match item {
        Item::Regular { name, current, .. } => Ok(Item::Regular {
            name: String::from_str(alloc, name.as_str())?,
            current: StoredTitle {
                number,
                title: String::from_str(alloc, title)?,
            },
            former: Some(copied_stored(alloc, current)?),
        }),
        Item::Virtual { .. } => copied_item(alloc, item),
    }
}

/// The item after a rollback: current and former edition are swapped.
fn swapped(alloc: Global, item: &Item) -> Result<Item, AllocError>
    ensures { IfOk result (λ after. item_shown after ≡ swapped (item_shown item.now)) }
{
    match item {
        Item::Regular {
            name,
            current,
            former: Some(former),
        } => Ok(Item::Regular {
            name: String::from_str(alloc, name.as_str())?,
            current: copied_stored(alloc, former)?,
            former: Some(copied_stored(alloc, current)?),
        }),
        _ => copied_item(alloc, item),
    }
}

/// The item after a virtual one is put in its place.
fn put_anew(
    alloc: Global,
    item: &Item,
    name: &str,
    title: &str,
    members: &[&str],
) -> Result<Item, AllocError>
    ensures { IfOk result (λ after. item_shown after ≡ put_anew name.now title.now (names_shown members.now) (item_shown item.now)) }
{
    match item {
        Item::Regular { .. } => copied_item(alloc, item),
        Item::Virtual { .. } => virtual_item(alloc, name, title, members),
    }
}

/// What the command makes of the item that it names.
fn changed(alloc: Global, item: &Item, command: &Command, number: u64) -> Result<Item, AllocError>
    ensures { IfOk result (λ after. item_shown after ≡ changed number (command_shown command.now) (item_shown item.now)) }
{
    match command {
        Command::Install { edition, .. } => installed(alloc, item, edition.title(), number),
        Command::Rollback { .. } => swapped(alloc, item),
        Command::PutVirtual {
            name,
            title,
            members,
        } => put_anew(alloc, item, name, title, members),
        Command::Retire { .. } | Command::Place { .. } => copied_item(alloc, item),
    }
}

/// Each item in its place, and the named one changed.
fn changed_in_place(
    alloc: Global,
    items: &[Item],
    command: &Command,
    number: u64,
) -> Result<Vec<Item>, AllocError>
    ensures { IfOk result (λ after. map item_shown after.items ≡ changed_in_place number (command_shown command.now) (map item_shown items.now)) }
{
    let mut after = Vec::new(alloc);
    for item in items {
        let next = if is_named(item, command.target()) {
            changed(alloc, item, command, number)?
        } else {
            copied_item(alloc, item)?
        };
        after.push(next)?;
    }
    Ok(after)
}

/// All items, and a last one.
fn with_last(alloc: Global, items: &[Item], last: Item) -> Result<Vec<Item>, AllocError>
    ensures { IfOk result (λ after. map item_shown after.items ≡ map item_shown items.now ++ item_shown last ∷ []) }
{
    let mut after = copied_items(alloc, items)?;
    after.push(last)?;
    Ok(after)
}

/// The items without the one of this name.
fn others_than(alloc: Global, items: &[Item], name: &str) -> Result<Vec<Item>, AllocError>
    ensures { IfOk result (λ others. map item_shown others.items ≡ others_than name.now (map item_shown items.now)) }
{
    let mut others = Vec::new(alloc);
    for item in items {
        if !is_named(item, name) {
            others.push(copied_item(alloc, item)?)?;
        }
    }
    Ok(others)
}

/// The item of this name, alone.
fn items_named(alloc: Global, items: &[Item], name: &str) -> Result<Vec<Item>, AllocError>
    ensures { IfOk result (λ named. map item_shown named.items ≡ filter (is_named name.now) (map item_shown items.now)) }
{
    let mut named = Vec::new(alloc);
    for item in items {
        if is_named(item, name) {
            named.push(copied_item(alloc, item)?)?;
        }
    }
    Ok(named)
}

/// The item of this name at a place, the others in their order.
fn moved(alloc: Global, items: &[Item], name: &str, place: u64) -> Result<Vec<Item>, AllocError>
    ensures { IfOk result (λ after. map item_shown after.items ≡ moved name.now place (map item_shown items.now)) }
{
    let mut after = others_than(alloc, items, name)?;
    let at = (place as usize).min(after.len());
    let mut later = after.split_off(at)?;
    let mut named = items_named(alloc, items, name)?;
    after.append(&mut named)?;
    after.append(&mut later)?;
    Ok(after)
}
