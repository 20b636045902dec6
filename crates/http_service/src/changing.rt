// What a request that changes does.
ghost use Rattle.std.specs.Prelude.{◌≡◌, ◌≢◌, true, List, None};
ghost use Rattle.dict_index.specs.Edition.{edition_of};
ghost use Rattle.dict_catalogue.specs.Commands.{install};
ghost use Rattle.dict_catalogue.specs.Steps.{Catalogue, kept_under};
ghost use Rattle.dict_catalogue.specs.Views.{kept_shown, command_meant};
ghost use Rattle.http_request.specs.declared.statuses.Status.TheVariants as statuses;
ghost use Rattle.http_service.specs.Texts.{kept_text, refused_command_text, refused_edition_text};
ghost use Rattle.http_service.specs.Answers.{answer_octets, with_body, unavailable_text};
ghost use Rattle.http_service.specs.Settling.{applied, SettlesNew, SettlesChange};
ghost use Rattle.http_service.specs.Responding.{IsAnswer, RespondsOrFails, Responds};
ghost use Rattle.http_service.specs.Outcomes.{IsAnswerOf, IsAnswerTo, SettlesFiles};
ghost use Rattle.http_service.specs.declared.actions.Action.TheVariants as actions;

use crate::actions::Action;
use crate::answers::{Answer, bad_request, made, unavailable};
use crate::bodies::{read_json, read_place, read_virtual};
use crate::parts::parts_of;
use crate::putting::put_kept;
use crate::replies::{refused_command_json, refused_edition_json};
use dict_catalogue::{Command, CommandRefusal, Kept};
use dict_desk::{Answered, Fault, Keeper, Preparer};
use dict_index::{Edition, EditionRefusal, IndexFault, read_edition};
use dict_proto::OverWrite;
use http_request::Status;
use std::alloc::Global;

// The answer with this status and body, or the one for want of memory.
pub fn with_text(alloc: Global, status: Status, body: &[u8]) -> Answer
    ensures { IsAnswer (answer_octets result) (with_body status body.now) }
{
    match made(alloc, status, body) {
        Ok(answer) => answer,
        Err(_) => unavailable(),
    }
}

// The answer to a command that is accepted or was.
fn kept_answer(alloc: Global, kept: &Kept) -> Answer
    ensures { IsAnswer (answer_octets result) (with_body statuses.Ok (kept_text (kept_shown kept.now))) }
{
    let mut body = OverWrite::new(Vec::new(alloc));
    match put_kept(&mut body, kept) {
        Ok(()) => with_text(alloc, Status::Ok, body.into_inner().as_slice()),
        Err(_) => unavailable(),
    }
}

// The answer to a command that is refused.
fn refused_command(alloc: Global, refusal: CommandRefusal) -> Answer
    ensures { IsAnswer (answer_octets result) (with_body statuses.Conflict (refused_command_text refusal)) }
{
    match refused_command_json(alloc, refusal) {
        Ok(body) => with_text(alloc, Status::Conflict, body.as_bytes()),
        Err(_) => unavailable(),
    }
}

// The answer to an edition that is refused.
fn refused_edition(alloc: Global, refusal: EditionRefusal, line: Option<usize>) -> Answer
    ensures { IsAnswer (answer_octets result) (with_body statuses.UnprocessableContent (refused_edition_text refusal line)) }
{
    match refused_edition_json(alloc, refusal, line) {
        Ok(body) => with_text(alloc, Status::UnprocessableContent, body.as_bytes()),
        Err(_) => unavailable(),
    }
}

// The answer to a command that a keeper answered so.
fn command_answer(alloc: Global, outcome: Result<Kept, Fault>) -> Answer
    ensures { IsAnswerTo outcome (answer_octets result) }
{
    match outcome {
        Ok(kept) => kept_answer(alloc, &kept),
        Err(Fault::Refused(refusal)) => refused_command(alloc, refusal),
        Err(_) => unavailable(),
    }
}

// The answer to an install that a keeper answered so by what it had prepared.
fn prepared_answer(alloc: Global, answered: Answered) -> Answer
    ensures { IsAnswerOf answered (answer_octets result) }
{
    match answered {
        Answered::Done(outcome) => command_answer(alloc, outcome),
        Answered::Refused { refusal, line } => refused_edition(alloc, refusal, line),
    }
}

// Applies a command under a new id.
fn apply<K: Keeper>(alloc: Global, desk: &mut K, id: &str, command: &Command) -> Answer
    ensures ends { K.is_trusted desk.new → (M : Catalogue) → K.shows desk.old M → kept_under M.kept id.now ≡ None → RespondsOrFails (K.is_closed desk.new) (K.shows desk.new) (K.leaves_one_of desk.old) (K.leaves_one_of desk.new) M (applied M id.now (command_meant command.now)) (answer_octets result) }
    ensures trust { K.is_trusted desk.new → K.is_trusted desk.old }
    ensures beside { (beside : K.Beside) → K.keeps_beside desk.old beside → K.keeps_beside desk.new beside }
    ensures closed { K.is_closed desk.old ≡ true → K.is_closed desk.new ≡ true }
{
    command_answer(alloc, desk.apply(id, command))
}

// Installs an edition.
fn install_edition<K: Keeper>(
    alloc: Global,
    desk: &mut K,
    id: &str,
    name: &str,
    edition: &Edition,
) -> Answer
    ensures ends { K.is_trusted desk.new → (M : Catalogue) → K.shows desk.old M → kept_under M.kept id.now ≡ None → RespondsOrFails (K.is_closed desk.new) (K.shows desk.new) (K.leaves_one_of desk.old) (K.leaves_one_of desk.new) M (applied M id.now (install name.now (edition_of edition.now))) (answer_octets result) }
    ensures trust { K.is_trusted desk.new → K.is_trusted desk.old }
    ensures beside { (beside : K.Beside) → K.keeps_beside desk.old beside → K.keeps_beside desk.new beside }
    ensures closed { K.is_closed desk.old ≡ true → K.is_closed desk.new ≡ true }
{
    apply(alloc, desk, id, &Command::Install { name, edition })
}

// Reads two files, and installs the edition that they say.
fn install_read<K: Keeper>(
    alloc: Global,
    desk: &mut K,
    id: &str,
    name: &str,
    index: &[u8],
    text: &[u8],
) -> Answer
    ensures responds { K.is_trusted desk.new → (M : Catalogue) → K.shows desk.old M → kept_under M.kept id.now ≡ None → Responds (K.is_closed desk.new) (K.shows desk.new) (K.leaves_one_of desk.old) (K.leaves_one_of desk.new) M (SettlesFiles M id.now name.now index.now text.now) (answer_octets result) }
    ensures trust { K.is_trusted desk.new → K.is_trusted desk.old }
    ensures beside { (beside : K.Beside) → K.keeps_beside desk.old beside → K.keeps_beside desk.new beside }
    ensures closed { K.is_closed desk.old ≡ true → K.is_closed desk.new ≡ true }
{
    match read_edition(alloc, index, text) {
        Ok(edition) => install_edition(alloc, desk, id, name, &edition),
        Err(IndexFault::Refused { refusal, line }) => refused_edition(alloc, refusal, line),
        Err(IndexFault::Memory) => unavailable(),
    }
}

// Installs the edition that two files say: by what was prepared of them, or, where nothing was, by reading them.
fn install_files<K: Preparer>(
    alloc: Global,
    desk: &mut K,
    id: &str,
    name: &str,
    index: &[u8],
    text: &[u8],
) -> Answer
    ensures responds { K.is_trusted desk.new → (M : Catalogue) → K.shows desk.old M → kept_under M.kept id.now ≡ None → Responds (K.is_closed desk.new) (K.shows desk.new) (K.leaves_one_of desk.old) (K.leaves_one_of desk.new) M (SettlesFiles M id.now name.now index.now text.now) (answer_octets result) }
    ensures trust { K.is_trusted desk.new → K.is_trusted desk.old }
    ensures beside { (beside : K.Beside) → K.keeps_beside desk.old beside → K.keeps_beside desk.new beside }
    ensures closed { K.is_closed desk.old ≡ true → K.is_closed desk.new ≡ true }
{
    match desk.answer_prepared(id, name, index, text) {
        Ok(Some(answered)) => prepared_answer(alloc, answered),
        Ok(None) => install_read(alloc, desk, id, name, index, text),
        Err(_) => unavailable(),
    }
}

// Installs the edition that a body has.
fn install<K: Preparer>(alloc: Global, desk: &mut K, id: &str, name: &str, body: &[u8]) -> Answer
    ensures responds { K.is_trusted desk.new → (M : Catalogue) → K.shows desk.old M → kept_under M.kept id.now ≡ None → Responds (K.is_closed desk.new) (K.shows desk.new) (K.leaves_one_of desk.old) (K.leaves_one_of desk.new) M (SettlesNew M id.now actions.Install name.now body.now) (answer_octets result) }
    ensures trust { K.is_trusted desk.new → K.is_trusted desk.old }
    ensures beside { (beside : K.Beside) → K.keeps_beside desk.old beside → K.keeps_beside desk.new beside }
    ensures closed { K.is_closed desk.old ≡ true → K.is_closed desk.new ≡ true }
{
    match parts_of(body) {
        Some((index, text)) => install_files(alloc, desk, id, name, index, text),
        None => bad_request(),
    }
}

// Puts an item at the place that a body says.
fn place<K: Keeper>(alloc: Global, desk: &mut K, id: &str, name: &str, body: &[u8]) -> Answer
    ensures responds { K.is_trusted desk.new → (M : Catalogue) → K.shows desk.old M → kept_under M.kept id.now ≡ None → Responds (K.is_closed desk.new) (K.shows desk.new) (K.leaves_one_of desk.old) (K.leaves_one_of desk.new) M (SettlesNew M id.now actions.Place name.now body.now) (answer_octets result) }
    ensures trust { K.is_trusted desk.new → K.is_trusted desk.old }
    ensures beside { (beside : K.Beside) → K.keeps_beside desk.old beside → K.keeps_beside desk.new beside }
    ensures closed { K.is_closed desk.old ≡ true → K.is_closed desk.new ≡ true }
{
    match read_place(alloc, body) {
        Ok(Some(place)) => apply(
            alloc,
            desk,
            id,
            &Command::Place {
                name,
                place: u64::from(place),
            },
        ),
        Ok(None) => bad_request(),
        Err(_) => unavailable(),
    }
}

// Puts the virtual item that a body says.
fn put_virtual<K: Keeper>(alloc: Global, desk: &mut K, id: &str, name: &str, body: &[u8]) -> Answer
    ensures responds { K.is_trusted desk.new → (M : Catalogue) → K.shows desk.old M → kept_under M.kept id.now ≡ None → Responds (K.is_closed desk.new) (K.shows desk.new) (K.leaves_one_of desk.old) (K.leaves_one_of desk.new) M (SettlesNew M id.now actions.PutVirtual name.now body.now) (answer_octets result) }
    ensures trust { K.is_trusted desk.new → K.is_trusted desk.old }
    ensures beside { (beside : K.Beside) → K.keeps_beside desk.old beside → K.keeps_beside desk.new beside }
    ensures closed { K.is_closed desk.old ≡ true → K.is_closed desk.new ≡ true }
{
    let value = match read_json(alloc, body) {
        Ok(Some(value)) => value,
        Ok(None) => return bad_request(),
        Err(_) => return unavailable(),
    };
    match read_virtual(alloc, &value) {
        Ok(Some(form)) => apply(
            alloc,
            desk,
            id,
            &Command::PutVirtual {
                name,
                title: form.title,
                members: form.members.as_slice(),
            },
        ),
        Ok(None) => bad_request(),
        Err(_) => unavailable(),
    }
}

// Does what a request asks for under a new id.
fn change_anew<K: Preparer>(
    alloc: Global,
    desk: &mut K,
    action: Action,
    id: &str,
    name: &str,
    body: &[u8],
) -> Answer
    requires { action ≢ actions.List }
    ensures responds { K.is_trusted desk.new → (M : Catalogue) → K.shows desk.old M → kept_under M.kept id.now ≡ None → Responds (K.is_closed desk.new) (K.shows desk.new) (K.leaves_one_of desk.old) (K.leaves_one_of desk.new) M (SettlesNew M id.now action name.now body.now) (answer_octets result) }
    ensures trust { K.is_trusted desk.new → K.is_trusted desk.old }
    ensures beside { (beside : K.Beside) → K.keeps_beside desk.old beside → K.keeps_beside desk.new beside }
    ensures closed { K.is_closed desk.old ≡ true → K.is_closed desk.new ≡ true }
{
    match action {
        Action::List => unreachable!(),
        Action::Install => install(alloc, desk, id, name, body),
        Action::Retire => apply(alloc, desk, id, &Command::Retire { name }),
        Action::Rollback => apply(alloc, desk, id, &Command::Rollback { name }),
        Action::Place => place(alloc, desk, id, name, body),
        Action::PutVirtual => put_virtual(alloc, desk, id, name, body),
    }
}

// Does what a request asks for under its id: a kept one answers its reply again.
pub fn change<K: Preparer>(
    alloc: Global,
    desk: &mut K,
    action: Action,
    id: &str,
    name: &str,
    body: &[u8],
) -> Answer
    requires { action ≢ actions.List }
    ensures responds { K.is_trusted desk.new → (M : Catalogue) → K.shows desk.old M → Responds (K.is_closed desk.new) (K.shows desk.new) (K.leaves_one_of desk.old) (K.leaves_one_of desk.new) M (SettlesChange M id.now action name.now body.now) (answer_octets result) }
    ensures shut { K.is_closed desk.old ≡ true → answer_octets result ≡ unavailable_text }
    ensures trust { K.is_trusted desk.new → K.is_trusted desk.old }
    ensures beside { (beside : K.Beside) → K.keeps_beside desk.old beside → K.keeps_beside desk.new beside }
    ensures closed { K.is_closed desk.old ≡ true → K.is_closed desk.new ≡ true }
{
    match desk.kept(id) {
        Ok(Some(kept)) => kept_answer(alloc, &kept),
        Ok(None) => change_anew(alloc, desk, action, id, name, body),
        Err(_) => unavailable(),
    }
}
