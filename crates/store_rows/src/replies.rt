// The record of a kept reply.
ghost use Rattle.std.specs.Prelude.{◌≡◌, ◌≢◌, IfOk, IfSome, IfNone, OnErr};
ghost use Rattle.dict_catalogue.specs.WellFormed.{is_install, tells_edition};
ghost use Rattle.dict_catalogue.specs.declared.reply.Verb.{Verb as AVerb};
ghost use Rattle.store_tables.specs.Typed.{owned_kept};
ghost use Rattle.store_rows.specs.Written.{verb_name};
ghost use Rattle.store_rows.specs.Given.{IsReply, IsNoReply};

use crate::fault::RowsFault;
use crate::items::{is_number, number_if};
use dict_catalogue::Verb;
use dict_text::{is_name, is_request_id};
use store_tables::KeptRecord;

/// What a command did, by the word for it, where it is one.
pub fn verb_in(word: &str) -> Option<Verb>
    ensures told { IfSome result (λ verb. word.now ≡ verb_name verb) }
    ensures none { IfNone result ((verb : AVerb) → word.now ≢ verb_name verb) }
{
    match word {
        "install" => Some(Verb::Install),
        "rollback" => Some(Verb::Rollback),
        "retire" => Some(Verb::Retire),
        "virtual" => Some(Verb::Virtual),
        "place" => Some(Verb::Place),
        _ => None,
    }
}

/// What a command did, by the word for it.
fn verb_of(word: &str) -> Result<Verb, RowsFault>
    ensures told { IfOk result (λ verb. word.now ≡ verb_name verb) }
    ensures damaged { OnErr result ((verb : _) → word.now ≢ verb_name verb) }
{
    match verb_in(word) {
        Some(verb) => Ok(verb),
        None => Err(RowsFault::Damaged),
    }
}

/// Whether the command installed an edition.
pub(crate) fn is_install(verb: Verb) -> bool
    ensures { result ≡ is_install verb }
{
    matches!(verb, Verb::Install)
}

/// Whether the reply to a command that did this tells an edition.
fn tells_edition(verb: Verb) -> bool
    ensures { result ≡ tells_edition verb }
{
    matches!(verb, Verb::Install | Verb::Rollback)
}

/// What the command did whose reply is kept in this record under this number. Else the record is `Damaged`.
pub(crate) fn reply_of(number: u64, row: &KeptRecord<String>) -> Result<Verb, RowsFault>
    ensures told { IfOk result (λ verb. IsReply number verb (owned_kept row.now)) }
    ensures damaged { OnErr result (IsNoReply number (owned_kept row.now)) }
{
    let verb = verb_of(row.verb.as_str())?;
    if !is_number(number, &row.number) {
        return Err(RowsFault::Damaged);
    }
    if !is_request_id(row.id.as_str()) || !is_name(row.name.as_str()) {
        return Err(RowsFault::Damaged);
    }
    let edition = number_if(&row.edition)?;
    if edition.is_some() != tells_edition(verb) {
        return Err(RowsFault::Damaged);
    }
    Ok(verb)
}
