// What a route does by a method, and the id of a request.
ghost use Rattle.std.specs.Prelude.{◌≡◌, ℕ, List, MatchOption, Some, None, if◌then◌else◌};
ghost use Rattle.std.specs.Str.{bytes_eq};
ghost use Rattle.http_request.specs.Fields.{AreValues};
ghost use Rattle.http_service.specs.Actions.{action_of, changes, IsId};

use http_request::{Route, Values};
use std::str;

/// What a request asks for.
#[derive(Clone, Copy, Debug, PartialEq, Eq)]
pub enum Action {
    List,
    Install,
    Retire,
    Rollback,
    Place,
    PutVirtual,
}

// What the route does by the method.
pub fn action_of(route: Route, method: &[u8]) -> Option<Action>
    ensures { result ≡ action_of route method.now }
{
    match route {
        Route::Databases => only(method, b"GET", Action::List),
        Route::Database => {
            if method == b"PUT".as_slice() {
                Some(Action::Install)
            } else {
                only(method, b"DELETE", Action::Retire)
            }
        }
        Route::Rollback => only(method, b"POST", Action::Rollback),
        Route::Place => only(method, b"POST", Action::Place),
        Route::Virtual => only(method, b"PUT", Action::PutVirtual),
    }
}

// The action, where the method is this one.
fn only(method: &[u8], name: &[u8], action: Action) -> Option<Action>
    ensures { result ≡ (if bytes_eq method.now name.now then Some action else None) }
{
    if method == name { Some(action) } else { None }
}

// Whether it changes the catalogue: each does but the list, where there is one.
pub fn changes(action: Option<Action>) -> bool
    ensures { result ≡ changes action }
{
    match action {
        None | Some(Action::List) => false,
        Some(
            Action::Install
            | Action::Retire
            | Action::Rollback
            | Action::Place
            | Action::PutVirtual,
        ) => true,
    }
}

// The one id, where it is a text.
pub fn one_id<'r>(ids: Values<'r>) -> Option<&'r str>
    ensures { (values : List (List ℕ)) → AreValues ids.entry values → MatchOption result ((id : List ℕ) → ¬ IsId values id) (λ id. IsId values id.now) }
{
    let Values::One(id) = ids else {
        return None;
    };
    match str::from_utf8(id) {
        Ok(id) => Some(id),
        Err(_) => None,
    }
}
