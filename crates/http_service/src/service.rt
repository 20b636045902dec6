// The service of editors' requests.
ghost use Rattle.std.specs.Prelude.{◌≡◌, ◌⊎◌, ℕ, List, Option, false, true};
ghost use Rattle.dict_catalogue.specs.Steps.{Catalogue, summary_of};
ghost use Rattle.http_request.specs.Fields.{AreValues};
ghost use Rattle.http_request.specs.Heads.{Needs};
ghost use Rattle.http_request.specs.Paths.{IsPath};
ghost use Rattle.http_request.specs.declared.route_kinds.Route.{Route as PathRoute};
ghost use Rattle.http_request.specs.Requests.{EditorRequest as WholeRequest, TellsRequest};
ghost use Rattle.http_request.specs.declared.kinds.Need.TheVariants as needs;
ghost use Rattle.http_request.specs.declared.statuses.Status.TheVariants as statuses;
ghost use Rattle.http_service.specs.Actions.{action_of, changes};
ghost use Rattle.http_service.specs.Texts.{list_text};
ghost use Rattle.http_service.specs.Answers.{answer_octets, plain, with_body, response_text, unavailable_text};
ghost use Rattle.http_service.specs.Foreseeing.{IsToldAnew, IsToldOver, AsksAnewForChange, AsksForChange, AsksForCommand};
ghost use Rattle.http_service.specs.declared.actions.Action.TheVariants as actions;
ghost use Rattle.http_service.specs.Settling.{Settles, SettlesRequest, SettlesAction};
ghost use Rattle.http_service.specs.Responding.{IsAnswer, Responds, Withholds};

use crate::actions::{Action, action_of, changes, one_id};
use crate::answers::{Answer, bad_request, method_not_allowed, not_found, too_large, unavailable};
use crate::changing::{change, with_text};
use crate::foreseeing::{foresee_change, is_foreseen};
use crate::items::list_json;
use dict_desk::{Keeper, Preparer};
use http_request::{EditorRequest, RequestReading, Routes, Status, Values, read_request};
use std::alloc::{AllocError, Global};

/// Answers editors' requests.
#[derive(Drop)]
pub struct Service {
    routes: Routes,
}

// The answer to octets that are refused before they are a request.
fn refused(status: Status) -> Answer
    requires { (status ≡ statuses.BadRequest) ⊎ (status ≡ statuses.ContentTooLarge) }
    ensures { answer_octets result ≡ response_text (plain status) }
{
    if status == Status::ContentTooLarge {
        too_large()
    } else {
        bad_request()
    }
}

// The list of the catalogue's items.
fn list<K: Keeper>(alloc: Global, desk: &K) -> Answer
    ensures lists { (M : Catalogue) → K.shows desk.now M → IsAnswer (answer_octets result) (with_body statuses.Ok (list_text (summary_of M).items)) }
    ensures shut { K.is_closed desk.now ≡ true → answer_octets result ≡ unavailable_text }
{
    match desk.summary() {
        Ok(summary) => match list_json(alloc, summary) {
            Ok(body) => with_text(alloc, Status::Ok, body.as_bytes()),
            Err(_) => unavailable(),
        },
        Err(_) => unavailable(),
    }
}

// Does what a request asks for.
fn act<K: Preparer>(
    alloc: Global,
    desk: &mut K,
    action: Action,
    ids: Values<'_>,
    name: &str,
    body: &[u8],
) -> Answer
    ensures responds { K.is_trusted desk.new → (M : Catalogue) (asked : WholeRequest) → K.shows desk.old M → AreValues ids.entry asked.ids → body.now ≡ asked.body → Responds (K.is_closed desk.new) (K.shows desk.new) (K.leaves_one_of desk.old) (K.leaves_one_of desk.new) M (SettlesAction M asked action name.now) (answer_octets result) }
    ensures shut { (M : Catalogue) (asked : WholeRequest) → AreValues ids.entry asked.ids → Withholds (K.is_closed desk.old) (SettlesAction M asked action name.now) (answer_octets result) }
    ensures quiet { action ≡ actions.List → desk.new ≡ desk.old }
    ensures trust { K.is_trusted desk.new → K.is_trusted desk.old }
    ensures beside { (beside : K.Beside) → K.keeps_beside desk.old beside → K.keeps_beside desk.new beside }
    ensures closed { K.is_closed desk.old ≡ true → K.is_closed desk.new ≡ true }
{
    if action == Action::List {
        return list(alloc, desk);
    }
    let Some(id) = one_id(ids) else {
        return bad_request();
    };
    change(alloc, desk, action, id, name, body)
}

impl Service {
    /// The service, with its routes. Want of memory is the only error.
    pub fn new(alloc: Global) -> Result<Self, AllocError> {
        let routes = Routes::new(alloc)?;
        Ok(Service { routes })
    }

    // Answers a request.
    fn respond_to<K: Preparer>(
        &self,
        alloc: Global,
        request: EditorRequest<'_>,
        desk: &mut K,
    ) -> Answer
        ensures responds { K.is_trusted desk.new → (M : Catalogue) (asked : WholeRequest) → K.shows desk.old M → TellsRequest request.entry asked → Responds (K.is_closed desk.new) (K.shows desk.new) (K.leaves_one_of desk.old) (K.leaves_one_of desk.new) M (SettlesRequest M asked) (answer_octets result) }
        ensures shut { (M : Catalogue) (asked : WholeRequest) → TellsRequest request.entry asked → Withholds (K.is_closed desk.old) (SettlesRequest M asked) (answer_octets result) }
        ensures quiet { ((route : PathRoute) (name : List ℕ) → IsPath request.entry.target.now route name → changes (action_of route request.entry.method.now) ≡ false) → desk.new ≡ desk.old }
        ensures trust { K.is_trusted desk.new → K.is_trusted desk.old }
        ensures beside { (beside : K.Beside) → K.keeps_beside desk.old beside → K.keeps_beside desk.new beside }
        ensures closed { K.is_closed desk.old ≡ true → K.is_closed desk.new ≡ true }
    {
        let Some(found) = self.routes.find(request.target) else {
            return not_found();
        };
        let Some(action) = action_of(found.route, request.method) else {
            return method_not_allowed(found.route);
        };
        act(alloc, desk, action, request.ids, found.name, request.body)
    }

    /// Answers the request that stands whole at the front of the octets, or octets that are refused, and does what
    /// it asks for. Octets of which more is needed have no answer.
    ///
    /// After an answer other than 503 the catalogue is the one that the answer tells of. After 503 it is the one before,
    /// or the one after the whole command, and the request may be sent again under its id. Where a stop may leave the other of the
    /// two, the desk is closed; and a closed desk tells no more of a catalogue. A request that asks for no command leaves the desk as it
    /// is.
    pub fn respond<K: Preparer>(&self, alloc: Global, octets: &[u8], desk: &mut K) -> Answer
        requires whole { ¬ Needs octets.now needs.More }
        ensures responds { K.is_trusted desk.new → (M : Catalogue) → K.shows desk.old M → Responds (K.is_closed desk.new) (K.shows desk.new) (K.leaves_one_of desk.old) (K.leaves_one_of desk.new) M (Settles M octets.now) (answer_octets result) }
        ensures shut { (M : Catalogue) → Withholds (K.is_closed desk.old) (Settles M octets.now) (answer_octets result) }
        ensures quiet { ¬ AsksForCommand octets.now → desk.new ≡ desk.old }
        ensures trust { K.is_trusted desk.new → K.is_trusted desk.old }
        ensures beside { (beside : K.Beside) → K.keeps_beside desk.old beside → K.keeps_beside desk.new beside }
        ensures closed { K.is_closed desk.old ≡ true → K.is_closed desk.new ≡ true }
    {
        match read_request(octets) {
            RequestReading::More(_) => unreachable!(),
            RequestReading::Whole(request) => self.respond_to(alloc, request, desk),
            RequestReading::Refused(status) => refused(status),
        }
    }

    /// Whether a whole request stands at the front of the octets whose route and method change the catalogue, whatever is answered. It
    /// takes no memory.
    pub fn asks_change(&self, octets: &[u8]) -> bool
        ensures yes { result ≡ true → AsksForCommand octets.now }
        ensures no { result ≡ false → ¬ AsksForCommand octets.now }
    {
        let RequestReading::Whole(request) = read_request(octets) else {
            return false;
        };
        let Some(found) = self.routes.find(request.target) else {
            return false;
        };
        changes(action_of(found.route, request.method))
    }

    /// Tells the desk of the change that a whole request at the front of the octets asks for, so that it may prepare it before the
    /// request is answered. Nothing that is shown changes.
    ///
    /// It is told of an install by its name and its two files, of which none is read, and of another change by its command; only of one
    /// that may act, under one lawful id that isn't kept; and of no request of 65,536 octets and more whose body is JSON. It lets go of what it
    /// noted before.
    /// Whether it was told of one, and took note. Where memory is wanting, or the desk fails, it didn't, and the request may be answered as
    /// ever.
    pub fn foresee<K: Preparer>(&self, alloc: Global, octets: &[u8], desk: &mut K) -> bool
        ensures foreseen { result ≡ true → IsToldOver (IsToldAnew K.shows K.leaves_one_of K.keeps_beside K.is_trusted K.has_failed K.is_closed K.expects) (AsksForChange octets.now) desk.old desk.new }
        ensures anew { result ≡ true → K.is_trusted desk.new → (M : Catalogue) → K.shows desk.old M → IsToldOver (IsToldAnew K.shows K.leaves_one_of K.keeps_beside K.is_trusted K.has_failed K.is_closed K.expects) (AsksAnewForChange M octets.now) desk.old desk.new }
        ensures trust { K.is_trusted desk.new → K.is_trusted desk.old }
        ensures beside { (beside : K.Beside) → K.keeps_beside desk.old beside → K.keeps_beside desk.new beside }
        ensures closed { K.is_closed desk.old ≡ true → K.is_closed desk.new ≡ true }
        ensures shows { K.is_trusted desk.new → (M : Catalogue) → K.shows desk.old M → K.shows desk.new M }
        ensures leaves { (ms : List (Option Catalogue)) → K.leaves_one_of desk.old ms → K.leaves_one_of desk.new ms }
    {
        let RequestReading::Whole(request) = read_request(octets) else {
            return false;
        };
        let Some(found) = self.routes.find(request.target) else {
            return false;
        };
        let Some(action) = action_of(found.route, request.method) else {
            return false;
        };
        if !is_foreseen(action, octets.len()) {
            return false;
        }
        foresee_change(alloc, desk, action, request.ids, found.name, request.body)
    }
}
