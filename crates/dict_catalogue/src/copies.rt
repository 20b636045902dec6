// Copies of the parts of a summary.
ghost use Rattle.std.specs.Prelude.{◌≡◌, IfOk, map, option_map};
ghost use Rattle.dict_catalogue.specs.Views.{item_shown, stored_shown, texts_shown, names_shown};

use crate::summary::{Item, StoredTitle};
use std::alloc::{AllocError, Global};

/// Texts of the summary's own.
pub fn owned_texts(alloc: Global, texts: &[&str]) -> Result<Vec<String>, AllocError>
    ensures { IfOk result (λ owned. texts_shown owned.items ≡ names_shown texts.now) }
{
    let mut owned = Vec::new(alloc);
    for text in texts {
        owned.push(String::from_str(alloc, text)?)?;
    }
    Ok(owned)
}

fn copied_texts(alloc: Global, texts: &[String]) -> Result<Vec<String>, AllocError>
    ensures { IfOk result (λ copies. texts_shown copies.items ≡ texts_shown texts.now) }
{
    let mut copies = Vec::new(alloc);
    for text in texts {
        copies.push(String::from_str(alloc, text.as_str())?)?;
    }
    Ok(copies)
}

/// A copy of an edition's number and title.
pub fn copied_stored(alloc: Global, stored: &StoredTitle) -> Result<StoredTitle, AllocError>
    ensures { IfOk result (λ copy. stored_shown copy ≡ stored_shown stored.now) }
{
    let title = String::from_str(alloc, stored.title.as_str())?;
    Ok(StoredTitle {
        number: stored.number,
        title,
    })
}

fn copied_former(
    alloc: Global,
    former: &Option<StoredTitle>,
) -> Result<Option<StoredTitle>, AllocError>
    ensures { IfOk result (λ copy. option_map stored_shown copy ≡ option_map stored_shown former.now) }
{
    match former {
        Some(stored) => Ok(Some(copied_stored(alloc, stored)?)),
        None => Ok(None),
    }
}

/// A copy of an item.
pub fn copied_item(alloc: Global, item: &Item) -> Result<Item, AllocError>
    ensures { IfOk result (λ copy. item_shown copy ≡ item_shown item.now) }
{
    match item {
        Item::Regular {
            name,
            current,
            former,
        } => Ok(Item::Regular {
            name: String::from_str(alloc, name.as_str())?,
            current: copied_stored(alloc, current)?,
            former: copied_former(alloc, former)?,
        }),
        Item::Virtual {
            name,
            title,
            members,
        } => Ok(Item::Virtual {
            name: String::from_str(alloc, name.as_str())?,
            title: String::from_str(alloc, title.as_str())?,
            members: copied_texts(alloc, members)?,
        }),
    }
}

/// Copies of all items.
pub fn copied_items(alloc: Global, items: &[Item]) -> Result<Vec<Item>, AllocError>
    ensures { IfOk result (λ copies. map item_shown copies.items ≡ map item_shown items.now) }
{
    let mut copies = Vec::new(alloc);
    for item in items {
        copies.push(copied_item(alloc, item)?)?;
    }
    Ok(copies)
}
