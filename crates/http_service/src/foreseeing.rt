// Changes that a request asks for, before it is answered.
ghost use Rattle.std.specs.Prelude.{◌≡◌, ℕ, List, Option, None, true};
ghost use Rattle.dict_text.specs.Names.{is_request_id};
ghost use Rattle.dict_catalogue.specs.Steps.{Catalogue, kept_under};
ghost use Rattle.dict_catalogue.specs.Views.{command_meant};
ghost use Rattle.dict_desk.specs.Expected.{of_command};
ghost use Rattle.http_request.specs.Fields.{AreValues};
ghost use Rattle.http_service.specs.declared.actions.Action.TheVariants as actions;
ghost use Rattle.http_service.specs.Foreseeing.{FindsNoReply, IsToldAnew, IsToldOver, AsksAnewBy, AsksBy, SaysChange, SaysInstall};

use crate::actions::{Action, one_id};
use crate::bodies::{read_json, read_place, read_virtual};
use crate::parts::parts_of;
use dict_catalogue::Command;
use dict_desk::{Keeper, Preparer};
use dict_text::is_request_id;
use http_request::Values;
use std::alloc::Global;

// Whether a command under this id may act: the id is lawful, and no reply is kept under it.
fn may_act<K: Keeper>(desk: &mut K, id: &str) -> bool
    ensures lawful { result ≡ true → is_request_id id.now ≡ true }
    ensures finds { result ≡ true → FindsNoReply K.shows K.leaves_one_of K.keeps_beside K.is_trusted K.has_failed K.is_closed desk.old desk.new }
    ensures anew { result ≡ true → K.is_trusted desk.new → (M : Catalogue) → K.shows desk.old M → kept_under M.kept id.now ≡ None }
    ensures trust { K.is_trusted desk.new → K.is_trusted desk.old }
    ensures beside { (beside : K.Beside) → K.keeps_beside desk.old beside → K.keeps_beside desk.new beside }
    ensures closed { K.is_closed desk.old ≡ true → K.is_closed desk.new ≡ true }
    ensures shows { K.is_trusted desk.new → (M : Catalogue) → K.shows desk.old M → K.shows desk.new M }
    ensures leaves { (ms : List (Option Catalogue)) → K.leaves_one_of desk.old ms → K.leaves_one_of desk.new ms }
{
    if !is_request_id(id) {
        return false;
    }
    match desk.kept(id) {
        Ok(kept) => kept.is_none(),
        Err(_) => false,
    }
}

// Tells the desk of an install by its files, where a body has them. Whether it took note.
fn expect_files<K: Preparer>(desk: &mut K, name: &str, body: &[u8]) -> bool
    ensures foreseen { result ≡ true → IsToldOver K.expects (SaysInstall name.now body.now) desk.old desk.new }
    ensures took { result ≡ true → K.has_failed desk.new ≡ K.has_failed desk.old }
    ensures trust { K.is_trusted desk.new → K.is_trusted desk.old }
    ensures beside { (beside : K.Beside) → K.keeps_beside desk.old beside → K.keeps_beside desk.new beside }
    ensures closed { K.is_closed desk.old ≡ true → K.is_closed desk.new ≡ true }
    ensures shows { K.is_trusted desk.new → (M : Catalogue) → K.shows desk.old M → K.shows desk.new M }
    ensures leaves { (ms : List (Option Catalogue)) → K.leaves_one_of desk.old ms → K.leaves_one_of desk.new ms }
{
    match parts_of(body) {
        Some((index, text)) => desk.expect_install(name, index, text).is_ok(),
        None => false,
    }
}

// Tells the desk of a command. Whether it took note.
fn expect_command<K: Preparer>(desk: &mut K, command: &Command) -> bool
    ensures foreseen { result ≡ true → IsToldOver K.expects (λ asked. asked ≡ of_command (command_meant command.now)) desk.old desk.new }
    ensures took { result ≡ true → K.has_failed desk.new ≡ K.has_failed desk.old }
    ensures trust { K.is_trusted desk.new → K.is_trusted desk.old }
    ensures beside { (beside : K.Beside) → K.keeps_beside desk.old beside → K.keeps_beside desk.new beside }
    ensures closed { K.is_closed desk.old ≡ true → K.is_closed desk.new ≡ true }
    ensures shows { K.is_trusted desk.new → (M : Catalogue) → K.shows desk.old M → K.shows desk.new M }
    ensures leaves { (ms : List (Option Catalogue)) → K.leaves_one_of desk.old ms → K.leaves_one_of desk.new ms }
{
    desk.expect(command).is_ok()
}

// Tells the desk that an item is put at the place that a body says. Whether it took note.
fn expect_place<K: Preparer>(alloc: Global, desk: &mut K, name: &str, body: &[u8]) -> bool
    ensures foreseen { result ≡ true → IsToldOver K.expects (SaysChange actions.Place name.now body.now) desk.old desk.new }
    ensures took { result ≡ true → K.has_failed desk.new ≡ K.has_failed desk.old }
    ensures trust { K.is_trusted desk.new → K.is_trusted desk.old }
    ensures beside { (beside : K.Beside) → K.keeps_beside desk.old beside → K.keeps_beside desk.new beside }
    ensures closed { K.is_closed desk.old ≡ true → K.is_closed desk.new ≡ true }
    ensures shows { K.is_trusted desk.new → (M : Catalogue) → K.shows desk.old M → K.shows desk.new M }
    ensures leaves { (ms : List (Option Catalogue)) → K.leaves_one_of desk.old ms → K.leaves_one_of desk.new ms }
{
    match read_place(alloc, body) {
        Ok(Some(place)) => expect_command(
            desk,
            &Command::Place {
                name,
                place: u64::from(place),
            },
        ),
        Ok(None) | Err(_) => false,
    }
}

// Tells the desk that the virtual item that a body says is put. Whether it took note.
fn expect_virtual<K: Preparer>(alloc: Global, desk: &mut K, name: &str, body: &[u8]) -> bool
    ensures foreseen { result ≡ true → IsToldOver K.expects (SaysChange actions.PutVirtual name.now body.now) desk.old desk.new }
    ensures took { result ≡ true → K.has_failed desk.new ≡ K.has_failed desk.old }
    ensures trust { K.is_trusted desk.new → K.is_trusted desk.old }
    ensures beside { (beside : K.Beside) → K.keeps_beside desk.old beside → K.keeps_beside desk.new beside }
    ensures closed { K.is_closed desk.old ≡ true → K.is_closed desk.new ≡ true }
    ensures shows { K.is_trusted desk.new → (M : Catalogue) → K.shows desk.old M → K.shows desk.new M }
    ensures leaves { (ms : List (Option Catalogue)) → K.leaves_one_of desk.old ms → K.leaves_one_of desk.new ms }
{
    let Ok(Some(value)) = read_json(alloc, body) else {
        return false;
    };
    match read_virtual(alloc, &value) {
        Ok(Some(form)) => expect_command(
            desk,
            &Command::PutVirtual {
                name,
                title: form.title,
                members: form.members.as_slice(),
            },
        ),
        Ok(None) | Err(_) => false,
    }
}

// Tells the desk of what an action asks for. Whether it took note.
fn expect_change<K: Preparer>(
    alloc: Global,
    desk: &mut K,
    action: Action,
    name: &str,
    body: &[u8],
) -> bool
    ensures foreseen { result ≡ true → IsToldOver K.expects (SaysChange action name.now body.now) desk.old desk.new }
    ensures took { result ≡ true → K.has_failed desk.new ≡ K.has_failed desk.old }
    ensures trust { K.is_trusted desk.new → K.is_trusted desk.old }
    ensures beside { (beside : K.Beside) → K.keeps_beside desk.old beside → K.keeps_beside desk.new beside }
    ensures closed { K.is_closed desk.old ≡ true → K.is_closed desk.new ≡ true }
    ensures shows { K.is_trusted desk.new → (M : Catalogue) → K.shows desk.old M → K.shows desk.new M }
    ensures leaves { (ms : List (Option Catalogue)) → K.leaves_one_of desk.old ms → K.leaves_one_of desk.new ms }
{
    match action {
        Action::Install => expect_files(desk, name, body),
        Action::Retire => expect_command(desk, &Command::Retire { name }),
        Action::Rollback => expect_command(desk, &Command::Rollback { name }),
        Action::Place => expect_place(alloc, desk, name, body),
        Action::PutVirtual => expect_virtual(alloc, desk, name, body),
        Action::List => false,
    }
}

// Tells the desk of what an action asks for, where it may act. The body is looked at only then, and its files aren't read.
pub fn foresee_change<K: Preparer>(
    alloc: Global,
    desk: &mut K,
    action: Action,
    ids: Values<'_>,
    name: &str,
    body: &[u8],
) -> bool
    ensures foreseen { result ≡ true → (values : List (List ℕ)) → AreValues ids.entry values → IsToldOver (IsToldAnew K.shows K.leaves_one_of K.keeps_beside K.is_trusted K.has_failed K.is_closed K.expects) (AsksBy action values name.now body.now) desk.old desk.new }
    ensures anew { result ≡ true → K.is_trusted desk.new → (M : Catalogue) → K.shows desk.old M → (values : List (List ℕ)) → AreValues ids.entry values → IsToldOver (IsToldAnew K.shows K.leaves_one_of K.keeps_beside K.is_trusted K.has_failed K.is_closed K.expects) (AsksAnewBy M action values name.now body.now) desk.old desk.new }
    ensures trust { K.is_trusted desk.new → K.is_trusted desk.old }
    ensures beside { (beside : K.Beside) → K.keeps_beside desk.old beside → K.keeps_beside desk.new beside }
    ensures closed { K.is_closed desk.old ≡ true → K.is_closed desk.new ≡ true }
    ensures shows { K.is_trusted desk.new → (M : Catalogue) → K.shows desk.old M → K.shows desk.new M }
    ensures leaves { (ms : List (Option Catalogue)) → K.leaves_one_of desk.old ms → K.leaves_one_of desk.new ms }
{
    let Some(id) = one_id(ids) else {
        return false;
    };
    if !may_act(desk, id) {
        return false;
    }
    expect_change(alloc, desk, action, name, body)
}

// A request of so many octets whose body is JSON isn't foreseen, since that is read once more.
const MANY: usize = 65_536;

// Whether a request of so many octets that asks for this is foreseen.
pub fn is_foreseen(action: Action, octets: usize) -> bool {
    match action {
        Action::Install | Action::Retire | Action::Rollback => true,
        Action::Place | Action::PutVirtual => octets < MANY,
        Action::List => false,
    }
}
