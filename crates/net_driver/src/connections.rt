// The connections of a driver.
ghost use Rattle.std.specs.Prelude.{◌≡◌, ◌≢◌, ◌⊎◌, ◌≤◌, ◌<◌, ◌+◌, [], false, All, IfOk, nat_lt, vec_len, vec_capacity, slice_index_or};
ghost use Rattle.std.specs.List.{AllPairs};
ghost use Rattle.net_connection.specs.Stages.{is_open};

use crate::turning::{depart_all, have_bounded_room, mark_one, turn_all};
use dict_desk::Preparer;
use net_connection::{Connection, Opening, PIECE};
use net_hub::{Hub, Kind, MAX_OPEN};
use net_outlet::Transport;
use std::alloc::{AllocError, Global};

/// The most connections that are no longer open and still held, since octets wait for them or all that comes is not
/// read yet.
pub const MAX_DEPARTING: usize = 128;

/// The most octets for which these have room together. The oldest is let go where they have room for more.
pub const MAX_DEPARTING_ROOM: usize = 33_554_432;

/// The connections of a driver, in the order of their ids. Its room is taken when it is made, and never grows.
pub struct Connections<T: Transport> {
    alloc: Global,
    opened: Vec<Connection<T>>,
    departing: Vec<Connection<T>>,
    // The last id that was given.
    last: u64,
    ghost few_open: { vec_len opened ≤ 64 },
    ghost few_departing: { vec_len departing ≤ 128 },
    ghost room_open: { 64 ≤ vec_capacity opened },
    ghost room_departing: { 128 ≤ vec_capacity departing },
    ghost rising: { AllPairs (λ a b. a.id < b.id) opened.items },
    ghost given_open: { All (λ one. one.id ≤ last) opened.items },
    ghost given_departing: { All (λ one. one.id ≤ last) departing.items },
    ghost closed: { All (λ one. is_open one.stage ≡ false) departing.items },
    ghost apart: { All (λ b. All (λ a. a.id ≢ b.id) opened.items) departing.items },
}

// It is written out, so that what owns one doesn't prove again how each part is dropped.
impl<T: Transport> Drop for Connections<T> {
    fn drop(self) {
        let Connections {
            alloc: _,
            opened: _,
            departing: _,
            last: _,
        } = self;
    }
}

impl<T: Transport> Connections<T> {
    ghost use Rattle.dict_session.specs.Desks.{condition};
    ghost use Rattle.http_service.specs.Foreseeing.{IsToldAnew};
    ghost use Rattle.net_connection.specs.Leading.{HasLedOn};
    ghost use Rattle.std.specs.Prelude.{◌++◌, ◌∷◌, ◌==◌, ◌||◌, ◌^◌, true, MatchOption, filter};
    ghost use Rattle.std.specs.List.{remove};
    ghost use Rattle.net_driver.specs.Rounds.{Admits, Moves, TurnEach, connections_fitting, latest};
    ghost use Rattle.net_connection.specs.Telling.{KeepsOthers};
    ghost use Rattle.net_connection.specs.Stages.{is_departing};
    ghost use Rattle.net_connection.specs.Turns.{HasNothingToDo};
    ghost use Rattle.net_driver.specs.Turning.{KeepsAllBut, KeepsOnlyOpenOf, MarkAll};
    ghost use Rattle.net_connection.specs.Ordering.{AreOfTurns};
    ghost use Rattle.net_driver.specs.Ordering.{ComeById};

    /// No connection was there yet.
    pub fn new(alloc: Global) -> Result<Self, AllocError>
        ensures opened { IfOk result (λ all. all.opened.items ≡ []) }
        ensures departing { IfOk result (λ all. all.departing.items ≡ []) }
        ensures last { IfOk result (λ all. all.last ≡ 0) }
    {
        Ok(Connections {
            alloc,
            opened: Vec::with_capacity(alloc, MAX_OPEN)?,
            departing: Vec::with_capacity(alloc, MAX_DEPARTING)?,
            last: 0,
        })
    }

    /// How many are open.
    pub fn open_count(&self) -> usize
        ensures value { result ≡ vec_len self.now.opened }
        ensures most { result ≤ 64 }
    {
        self.opened.len()
    }

    /// How many are held and no longer open.
    pub fn departing_count(&self) -> usize
        ensures value { result ≡ vec_len self.now.departing }
        ensures most { result ≤ 128 }
    {
        self.departing.len()
    }

    /// The last id that was given, 0 where none was.
    pub fn last_id(&self) -> u64
        ensures { result ≡ self.now.last }
    {
        self.last
    }

    /// Whether an id was given since this one was the last.
    pub fn has_given(&self, last: u64) -> bool
        ensures { result ≡ nat_lt last self.now.last }
    {
        self.last > last
    }

    /// The id of the next connection. `None` where 64 are open, or each id was given.
    pub fn next_id(&self) -> Option<u64>
        ensures { MatchOption result ((64 ≤ vec_len self.now.opened) ⊎ (2 ^ 64 ≤ self.now.last + 1)) (λ id. (id ≡ self.now.last + 1) × (vec_len self.now.opened < 64)) }
    {
        if self.opened.len() >= MAX_OPEN {
            return None;
        }
        self.last.checked_add(1)
    }

    /// Opens a connection, or drops its transport where there is no place for it or the hub refuses it. Its id is then
    /// that of the next one.
    pub fn admit<K: Preparer, O: Opening>(
        &mut self,
        opening: &O,
        transport: T,
        kind: Kind,
        hub: &mut Hub,
        desk: &mut K,
    )
        ensures led { HasLedOn (K.is_trusted desk.new) (K.shows desk.old) (K.leaves_one_of desk.old) (K.shows desk.new) (K.leaves_one_of desk.new) hub.old hub.new
            (λ events. Moves self.old self.new events × Admits O.refuses transport kind hub.old hub.new self.old self.new events) }
        ensures trust { K.is_trusted desk.new → K.is_trusted desk.old }
        ensures beside { (beside : K.Beside) → K.keeps_beside desk.old beside → K.keeps_beside desk.new beside }
        ensures others { KeepsOthers (self.old.last + 1) hub.old hub.new }
        ensures unasked { desk.new ≡ desk.old }
    {
        let Some(id) = self.next_id() else {
            return;
        };
        if let Some(one) = Connection::open(opening, self.alloc, id, kind, transport, hub, desk) {
            self.last = id;
            self.opened.push_reserved(one);
        }
    }

    /// A turn of each connection: those that are no longer open, and then the open ones in the order of their ids. Those
    /// that are over are dropped. Whether anything happened.
    pub fn turn<K: Preparer, O: Opening>(
        &mut self,
        opening: &O,
        hub: &mut Hub,
        desk: &mut K,
    ) -> bool
        ensures led { HasLedOn (K.is_trusted desk.new) (K.shows desk.old) (K.leaves_one_of desk.old) (K.shows desk.new) (K.leaves_one_of desk.new) hub.old hub.new
            (λ events. Moves self.old self.new events × AreOfTurns events × ComeById events × TurnEach (condition K.has_failed K.is_closed) (IsToldAnew K.shows K.leaves_one_of K.keeps_beside K.is_trusted K.has_failed K.is_closed K.expects) K.prepares T.taken T.coming T.made O.refuses hub.old desk.old desk.new self.old self.new result events
            × KeepsOnlyOpenOf hub.old hub.new self.old.opened.items self.new.opened.items) }
        ensures trust { K.is_trusted desk.new → K.is_trusted desk.old }
        ensures beside { (beside : K.Beside) → K.keeps_beside desk.old beside → K.keeps_beside desk.new beside }
        ensures others { KeepsAllBut self.old.opened.items hub.old hub.new }
        ensures closed { K.is_closed desk.old ≡ true → K.is_closed desk.new ≡ true }
        ensures idle { result ≡ false → All HasNothingToDo self.new.opened.items }
    {
        let mut room = [0u8; PIECE];
        let departed = depart_all(&mut self.departing, &mut room);
        self.departing.retain(|one| one.stage().is_held());
        let turned = turn_all(opening, &mut self.opened, hub, desk, &mut room);
        self.settle();
        departed || turned
    }

    /// Notes that a reading of the connection of this id may give something, where it is held.
    pub fn mark_readable(&mut self, id: u64)
        ensures opened { MarkAll (λ one. one == id) self.old.opened.items self.new.opened.items }
        ensures departing { MarkAll (λ one. one == id) self.old.departing.items self.new.departing.items }
        ensures last { self.new.last ≡ self.old.last }
    {
        mark_one(&mut self.opened, id);
        mark_one(&mut self.departing, id);
    }

    // Parts those that are no longer open from those that are, and lets the oldest of them go where they have room for too many octets.
    fn settle(&mut self)
        ensures opened { self.new.opened.items ≡ filter (λ one. is_open one.stage) self.old.opened.items }
        ensures departing { self.new.departing.items ≡ connections_fitting 33554432 (latest 128 (self.old.departing.items ++ filter (λ one. is_departing one.stage) self.old.opened.items)) }
        ensures last { self.new.last ≡ self.old.last }
    {
        self.part();
        self.bound();
    }

    // Lets the oldest connection go that is no longer open, as often as these have room for too many octets together.
    fn bound(&mut self)
        ensures departing { self.new.departing.items ≡ connections_fitting 33554432 self.old.departing.items }
        ensures opened { self.new.opened ≡ self.old.opened }
        ensures last { self.new.last ≡ self.old.last }
    {
        while !have_bounded_room(self.departing.as_slice(), MAX_DEPARTING_ROOM) {
            self.departing.remove(0);
        }
    }

    // Parts those that are no longer open from those that are.
    fn part(&mut self)
        ensures opened { self.new.opened.items ≡ filter (λ one. is_open one.stage) self.old.opened.items }
        ensures departing { self.new.departing.items ≡ latest 128 (self.old.departing.items ++ filter (λ one. is_departing one.stage) self.old.opened.items) }
        ensures last { self.new.last ≡ self.old.last }
    {
        let mut place = 0;
        while place < self.opened.len() {
            if self.opened[place].stage().is_open() {
                place += 1;
            } else {
                self.close(place);
            }
        }
    }

    // Takes the connection at this place out of the open ones, and holds it where something is still to be sent or read.
    fn close(&mut self, place: usize)
        requires { place < vec_len self.old.opened }
        ensures opened { self.new.opened.items ≡ remove self.old.opened.items place }
        ensures departing { (d : _) → self.new.departing.items ≡ latest 128 (self.old.departing.items ++ filter (λ one. is_departing one.stage) (slice_index_or self.old.opened.items place d ∷ [])) }
        ensures len { vec_len self.new.opened + 1 ≡ vec_len self.old.opened }
        ensures last { self.new.last ≡ self.old.last }
    {
        let one = self.opened.remove(place);
        if one.stage().is_departing() {
            self.keep(one);
        }
    }

    // Holds a connection that is no longer open, in place of the oldest one where all places are held.
    fn keep(&mut self, one: Connection<T>)
        requires closed { is_open one.stage ≡ false }
        requires given { one.id ≤ self.old.last }
        requires apart { All (λ other. other.id ≢ one.id) self.old.opened.items }
        ensures opened { self.new.opened ≡ self.old.opened }
        ensures departing { self.new.departing.items ≡ latest 128 (self.old.departing.items ++ one ∷ []) }
        ensures last { self.new.last ≡ self.old.last }
    {
        self.make_room();
        self.departing.push_reserved(one);
    }

    // Where all places are held, lets go the oldest connection that is no longer open.
    fn make_room(&mut self)
        ensures room { vec_len self.new.departing < 128 }
        ensures opened { self.new.opened ≡ self.old.opened }
        ensures departing { self.new.departing.items ≡ latest 127 self.old.departing.items }
        ensures last { self.new.last ≡ self.old.last }
    {
        if self.departing.len() >= MAX_DEPARTING {
            self.departing.remove(0);
        }
    }
}
