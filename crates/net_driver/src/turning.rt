// What is done to each connection of a list.
ghost use Rattle.std.specs.Prelude.{◌≡◌, ◌<◌, ◌==◌, ◌&&◌, ◌∷◌, ℕ, [], Some, false, All, max, nat_le, nat_lt, slice_index_or, vec_len, vec_capacity, true, if◌then◌else◌};
ghost use Rattle.std.specs.List.{AllPairs};
ghost use Rattle.dict_session.specs.Desks.{condition};
ghost use Rattle.http_service.specs.Foreseeing.{IsToldAnew};
ghost use Rattle.net_connection.specs.Leading.{HasLedOn};
ghost use Rattle.net_driver.specs.Turning.{DepartAll, KeepsAllBut, KeepsOnlyOpenOf, MarkAll, TurnAll, first_of, first_since, is_other};
ghost use Rattle.net_connection.specs.Handing.{held_for};
ghost use Rattle.net_connection.specs.Turns.{HasNothingToDo};
ghost use Rattle.net_driver.specs.Rounds.{room_of};

use dict_desk::Preparer;
use net_connection::{Connection, Opening, PIECE};
use net_hub::Hub;
use net_outlet::Transport;

/// A turn of each open connection, in order. A command of an editor's waits behind the one that comes first: of those that are held back
/// as the turns begin the one that has been so for the most turns, and where there is none the first that is since. Whether anything
/// happened, or a turn is to be had again at once.
pub fn turn_all<T: Transport, K: Preparer, O: Opening>(
    opening: &O,
    all: &mut Vec<Connection<T>>,
    hub: &mut Hub,
    desk: &mut K,
    room: &mut [u8; PIECE],
) -> bool
    requires { AllPairs (λ a b. a.id < b.id) all.old.items }
    ensures led { HasLedOn (K.is_trusted desk.new) (K.shows desk.old) (K.leaves_one_of desk.old) (K.shows desk.new) (K.leaves_one_of desk.new) hub.old hub.new
        (λ events. TurnAll (condition K.has_failed K.is_closed) (IsToldAnew K.shows K.leaves_one_of K.keeps_beside K.is_trusted K.has_failed K.is_closed K.expects) K.prepares T.taken T.coming T.made O.refuses hub.old desk.old desk.new all.old.items all.new.items result events
        × KeepsOnlyOpenOf hub.old hub.new all.old.items all.new.items) }
    ensures trust { K.is_trusted desk.new → K.is_trusted desk.old }
    ensures beside { (beside : K.Beside) → K.keeps_beside desk.old beside → K.keeps_beside desk.new beside }
    ensures others { KeepsAllBut all.old.items hub.old hub.new }
    ensures closed { K.is_closed desk.old ≡ true → K.is_closed desk.new ≡ true }
    ensures idle { result ≡ false → All HasNothingToDo all.new.items }
    ensures ids { (k : ℕ) (d : _) → k < vec_len all.old → (slice_index_or all.new.items k d).id ≡ (slice_index_or all.old.items k d).id }
    ensures len { vec_len all.new ≡ vec_len all.old }
    ensures capacity { vec_capacity all.new ≡ vec_capacity all.old }
{
    let mut has_moved = false;
    let mut first = first_of(all.as_slice());
    for one in all.iter_mut() {
        let is_behind = is_other(first, one.id());
        if one.turn(opening, hub, desk, room, is_behind) {
            has_moved = true;
        }
        first = first_since(first, one);
    }
    has_moved
}

// The id of the connection whose command comes first: octets of it are held back, for no fewer turns than of another, and it stands
// before those of which they are for as many.
fn first_of<T: Transport>(all: &[Connection<T>]) -> Option<u64>
    ensures { result ≡ first_of all.now }
{
    let mut first = (None, 0);
    for place in 0..all.len() {
        first = before(&all[all.len() - place - 1], first);
    }
    first.0
}

// The same where this one stands before those of which that is the first, and for how many turns octets are held back at most.
fn before<T: Transport>(one: &Connection<T>, first: (Option<u64>, u64)) -> (Option<u64>, u64)
    ensures first { result.0 ≡ (if nat_lt 0 (held_for one.now) && nat_le first.1 (held_for one.now) then Some one.now.id else first.0) }
    ensures longest { result.1 ≡ max (held_for one.now) first.1 }
{
    let turns = one.turns_held();
    if turns < first.1 {
        return first;
    }
    if turns == 0 {
        return first;
    }
    (Some(one.id()), turns)
}

// The id of the connection whose command comes first since the turn of this one.
fn first_since<T: Transport>(first: Option<u64>, one: &Connection<T>) -> Option<u64>
    ensures { result ≡ first_since first (one.now ∷ []) }
{
    match first {
        Some(id) => Some(id),
        None => {
            if one.turns_held() > 0 {
                Some(one.id())
            } else {
                None
            }
        }
    }
}

// Whether it is another than this one.
fn is_other(first: Option<u64>, id: u64) -> bool
    ensures { result ≡ is_other first id }
{
    match first {
        Some(first) => first != id,
        None => false,
    }
}

/// A turn of each connection that is no longer open, in order. Whether anything happened.
pub fn depart_all<T: Transport>(all: &mut Vec<Connection<T>>, room: &mut [u8; PIECE]) -> bool
    ensures departs { DepartAll T.taken T.coming T.made all.old.items all.new.items result }
    ensures len { vec_len all.new ≡ vec_len all.old }
    ensures capacity { vec_capacity all.new ≡ vec_capacity all.old }
{
    let mut has_moved = false;
    for one in all.iter_mut() {
        if one.linger(room) {
            has_moved = true;
        }
    }
    has_moved
}

/// Notes that a reading of the connection of this id may give something.
pub fn mark_one<T: Transport>(all: &mut Vec<Connection<T>>, id: u64)
    ensures marks { MarkAll (λ one. one == id) all.old.items all.new.items }
    ensures len { vec_len all.new ≡ vec_len all.old }
    ensures capacity { vec_capacity all.new ≡ vec_capacity all.old }
{
    for one in all.iter_mut() {
        one.mark_if(id);
    }
}

/// Whether these connections have room for no more than so many octets together.
pub(crate) fn have_bounded_room<T: Transport>(all: &[Connection<T>], most: usize) -> bool
    ensures { result ≡ nat_le (room_of all.now) most }
{
    let mut left = most;
    for one in all {
        let room = one.kept_room();
        if room > left {
            return false;
        }
        left -= room;
    }
    true
}
