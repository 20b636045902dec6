// What is answered to a command.
ghost use Rattle.std.specs.Prelude.{◌≡◌, IfOk, string_bytes};
ghost use Rattle.serde_json.specs.View.{view};
ghost use Rattle.http_service.specs.Texts.{verb_text, refused_command_text, refused_edition_text};
ghost use Rattle.http_service.specs.Values.{refused_command_value, refused_edition_value};

use dict_catalogue::{CommandRefusal, Verb};
use dict_index::EditionRefusal;
use serde_json::{Value, json};
use std::alloc::{AllocError, Global};

// The verb, as replies have it.
pub(crate) fn verb_text(verb: Verb) -> &'static str
    ensures { result.now ≡ verb_text verb }
{
    match verb {
        Verb::Install => "install",
        Verb::Rollback => "rollback",
        Verb::Retire => "retire",
        Verb::Virtual => "virtual",
        Verb::Place => "place",
    }
}

fn refused_command_value(alloc: Global, refusal: CommandRefusal) -> Result<Value, AllocError>
    ensures { IfOk result (λ value. view value ≡ refused_command_value refusal) }
{
    json!(in alloc; {"reason": refusal.name(), "refusal": refusal.number()})
}

/// The JSON of a command that is refused: the refusal's name and number.
pub fn refused_command_json(alloc: Global, refusal: CommandRefusal) -> Result<String, AllocError>
    ensures { IfOk result (λ text. string_bytes text ≡ refused_command_text refusal) }
{
    let value = refused_command_value(alloc, refusal)?;
    value.to_string(alloc)
}

fn refused_edition_value(
    alloc: Global,
    refusal: EditionRefusal,
    line: Option<usize>,
) -> Result<Value, AllocError>
    ensures { IfOk result (λ value. view value ≡ refused_edition_value refusal line) }
{
    json!(in alloc; {"fault": refusal.number(), "line": line, "reason": refusal.name()})
}

/// The JSON of an edition that is refused: the refusal's number, the number of its line where it has one, and its
/// name.
pub fn refused_edition_json(
    alloc: Global,
    refusal: EditionRefusal,
    line: Option<usize>,
) -> Result<String, AllocError>
    ensures { IfOk result (λ text. string_bytes text ≡ refused_edition_text refusal line) }
{
    let value = refused_edition_value(alloc, refusal, line)?;
    value.to_string(alloc)
}
