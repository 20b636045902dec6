// What the bodies of requests say.
ghost use Rattle.std.specs.Prelude.{◌<◌, ℕ, List, map, IfOk, MatchOption};
ghost use Rattle.serde_json.specs.Data.{Data, Items};
ghost use Rattle.serde_json.specs.View.{view, items_view};
ghost use Rattle.dict_catalogue.specs.Views.{names_shown};
ghost use Rattle.http_service.specs.Bodies.{IsJson, IsPlaceValue, IsPlace, IsVirtualValue, HasMembers, AreTexts};

use serde_json::Value;
use std::alloc::{AllocError, Global};

/// What the body of a virtual database says. It borrows from the body's value.
#[derive(Debug, Drop)]
pub struct VirtualBody<'v> {
    pub title: &'v str,
    pub members: Vec<&'v str>,
}

/// The value that the octets say as JSON, if they do.
pub fn read_json(alloc: Global, octets: &[u8]) -> Result<Option<Value>, AllocError>
    ensures { IfOk result (λ read. MatchOption read ((value : Data) → ¬ IsJson octets.now value) (λ value. IsJson octets.now (view value))) }
{
    match Value::from_slice(alloc, octets) {
        Ok(value) => Ok(Some(value)),
        Err(error) => {
            if error.is_memory() {
                return Err(AllocError);
            }
            Ok(None)
        }
    }
}

// The place that a value says, where it has that form.
fn place_of(value: &Value) -> Option<u32>
    ensures { MatchOption result ((n : ℕ) → ¬ IsPlaceValue (view value.now) n) (λ n. IsPlaceValue (view value.now) n) }
{
    if value.as_object()?.len() != 1 {
        return None;
    }
    let number = value.get("place").and_then(Value::as_u64)?;
    if number > u64::from(u32::MAX) {
        return None;
    }
    Some(number as u32)
}

/// The place that a body says: an object with the one key `place`, a whole number from 0 to 4,294,967,295.
pub fn read_place(alloc: Global, body: &[u8]) -> Result<Option<u32>, AllocError>
    ensures { IfOk result (λ read. MatchOption read ((n : ℕ) → ¬ IsPlace body.now n) (λ n. IsPlace body.now n)) }
{
    match read_json(alloc, body)? {
        Some(value) => Ok(place_of(&value)),
        None => Ok(None),
    }
}

// The texts of an array, where each of its items is one.
fn texts_of<'v>(alloc: Global, items: &'v [Value]) -> Result<Option<Vec<&'v str>>, AllocError>
    ensures { IfOk result (λ read. MatchOption read ((texts : List (List ℕ)) → ¬ AreTexts (map view items.now) texts) (λ texts. AreTexts (map view items.now) (names_shown texts.items))) }
{
    let mut texts = Vec::with_capacity(alloc, items.len())?;
    for item in items {
        let Some(text) = item.as_str() else {
            return Ok(None);
        };
        texts.push(text)?;
    }
    Ok(Some(texts))
}

/// The title and the members that a value says: an object with the two keys `members`, a list of texts, and `title`,
/// a text.
pub fn read_virtual<'v>(
    alloc: Global,
    value: &'v Value,
) -> Result<Option<VirtualBody<'v>>, AllocError>
    ensures { IfOk result (λ read. MatchOption read
        ((title : List ℕ) (members : List (List ℕ)) → ¬ IsVirtualValue (view value.now) title members)
        (λ form. IsVirtualValue (view value.now) form.title.now (names_shown form.members.items))) }
{
    let Some((items, title)) = virtual_of(value) else {
        return Ok(None);
    };
    match texts_of(alloc, items)? {
        Some(members) => Ok(Some(VirtualBody { title, members })),
        None => Ok(None),
    }
}

// The items and the title of a value of that form, whatever the items are.
fn virtual_of(value: &Value) -> Option<(&[Value], &str)>
    ensures { MatchOption result ((items : Items) (title : List ℕ) → ¬ HasMembers (view value.now) items title)
        (λ form. HasMembers (view value.now) (items_view form.0.now) form.1.now) }
{
    if value.as_object()?.len() != 2 {
        return None;
    }
    let members = value.get("members").and_then(Value::as_array)?.as_slice();
    let title = value.get("title").and_then(Value::as_str)?;
    Some((members, title))
}
