// The kept replies.
ghost use Rattle.std.specs.Prelude.{◌≡◌, ℕ, List, Some, IfOk, OnOk, OnErr, if◌then◌else◌};
ghost use Rattle.std.specs.Str.{bytes_eq};
ghost use Rattle.std.specs.BTreeMap.{get_by_text};
ghost use Rattle.dict_catalogue.specs.Views.{kept_shown};
ghost use Rattle.dict_desk.specs.Plain.{filed_shown};

use dict_catalogue::Kept;
use std::alloc::{AllocError, Global};
use std::collections::BTreeMap;

/// A reply, filed under the id of its request.
#[derive(Drop)]
pub(crate) struct Filed {
    pub id: String,
    pub reply: Kept,
}

// A copy of a reply.
pub(crate) fn copied(alloc: Global, reply: &Kept) -> Result<Kept, AllocError>
    ensures { IfOk result (λ copy. kept_shown copy ≡ kept_shown reply.now) }
{
    Ok(Kept {
        number: reply.number,
        verb: reply.verb,
        name: String::from_str(alloc, reply.name.as_str())?,
        edition: reply.edition,
    })
}

// The reply, filed under the id.
pub(crate) fn file_under(alloc: Global, id: &str, reply: &Kept) -> Result<Filed, AllocError>
    ensures { IfOk result (λ filed. filed_shown filed ≡ record { id = id.now; reply = kept_shown reply.now }) }
{
    Ok(Filed {
        id: String::from_str(alloc, id)?,
        reply: copied(alloc, reply)?,
    })
}

// Notes the place of a reply under its id.
pub(crate) fn note_place(
    alloc: Global,
    places: &mut BTreeMap<String, usize>,
    id: &str,
    place: usize,
) -> Result<(), AllocError>
    ensures noted { OnOk result ((text : List ℕ) → get_by_text places.new text ≡ (if bytes_eq id.now text then Some place else get_by_text places.old text)) }
    ensures same { OnErr result ((text : List ℕ) → get_by_text places.new text ≡ get_by_text places.old text) }
{
    let key = String::from_str(alloc, id)?;
    places.insert(key, place)?;
    Ok(())
}
