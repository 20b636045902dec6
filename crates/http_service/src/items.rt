// The list of a catalogue's items.
ghost use Rattle.std.specs.Prelude.{◌≡◌, IfOk, map, string_bytes};
ghost use Rattle.serde_json.specs.View.{view};
ghost use Rattle.serde_json.specs.Data.{array};
ghost use Rattle.serde_json.specs.View.{items_of};
ghost use Rattle.dict_catalogue.specs.Views.{item_shown, summary_shown, texts_shown};
ghost use Rattle.http_service.specs.Texts.{list_text};
ghost use Rattle.http_service.specs.Values.{item_value, texts_value};

use dict_catalogue::{Item, Summary};
use serde_json::{Value, json};
use std::alloc::{AllocError, Global};

// The names as an array.
fn names_value(alloc: Global, names: &[String]) -> Result<Value, AllocError>
    ensures { IfOk result (λ value. view value ≡ texts_value (texts_shown names.now)) }
{
    let mut values = Vec::new(alloc);
    for name in names {
        let value = Value::try_from_str(alloc, name.as_str())?;
        values.push(value)?;
    }
    Ok(Value::Array(values))
}

fn item_value(alloc: Global, item: &Item) -> Result<Value, AllocError>
    ensures { IfOk result (λ value. view value ≡ item_value (item_shown item.now)) }
{
    match item {
        Item::Regular {
            name,
            current,
            former,
        } => {
            let former = former.as_ref().map(|former| former.number);
            json!(in alloc; {
                "current": current.number,
                "former": former,
                "kind": "regular",
                "name": name,
                "title": &current.title
            })
        }
        Item::Virtual {
            name,
            title,
            members,
        } => {
            let members = names_value(alloc, members)?;
            json!(in alloc; {"kind": "virtual", "members": members, "name": name, "title": title})
        }
    }
}

fn items_value(alloc: Global, items: &[Item]) -> Result<Value, AllocError>
    ensures { IfOk result (λ value. view value ≡ array (items_of (map (λ item. item_value (item_shown item)) items.now))) }
{
    let mut values = Vec::new(alloc);
    for item in items {
        let value = item_value(alloc, item)?;
        values.push(value)?;
    }
    Ok(Value::Array(values))
}

/// The JSON of a catalogue's items, in order: of a database its name, title, current and former edition, and of a
/// virtual one its name, title and members.
pub fn list_json(alloc: Global, summary: &Summary) -> Result<String, AllocError>
    ensures { IfOk result (λ text. string_bytes text ≡ list_text (summary_shown summary.now).items) }
{
    let value = items_value(alloc, &summary.items)?;
    value.to_string(alloc)
}
