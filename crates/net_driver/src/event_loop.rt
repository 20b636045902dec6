// Rounds over sockets.
ghost use Rattle.std.specs.Prelude.{◌≡◌, ◌==◌, ◌||◌, ◌≤◌, ◌<◌, ◌+◌, IfOk, MatchResult, [], false};
ghost use Rattle.std.specs.Duration.{as_nanos};
ghost use Rattle.std.specs.IoError.{error_kind};
ghost use Rattle.net_driver.specs.Looking.{tells};
ghost use Rattle.net_driver.specs.Turning.{KeepsOnlyOpenOf, MarkAll};

use crate::connections::Connections;
use crate::listening::{Listening, listening_by};
use crate::sockets::Sockets;
use dict_desk::Preparer;
use net_hub::{Hub, Kind};
use net_outlet::Transport;
use std::alloc::{AllocError, Global};
use std::io::{self, ErrorKind};
use std::time::Duration;

// How many connections a round takes at most from a listening socket. Newcomers wait for few rounds, and those that are open for few newcomers: these may come without end.
const MAX_ACCEPTED: usize = 16;

/// Sockets, the connections that came by them, and the hub that they are told to.
pub struct EventLoop<'h, T: Transport, S: Sockets<T>> {
    sockets: S,
    dict_listening: Listening,
    http_listening: Listening,
    connections: Connections<T>,
    hub: Hub<'h>,
    // How many rounds were made, those that failed left out.
    rounds: u64,
    // The kind of the error by which the sockets couldn't be looked at, where the last look failed.
    failure: Option<ErrorKind>,
}

// It is written out, so that what owns one doesn't prove again how each part is dropped.
impl<'h, T: Transport, S: Sockets<T>> Drop for EventLoop<'h, T, S> {
    fn drop(self) {
        let EventLoop {
            sockets: _,
            dict_listening: _,
            http_listening: _,
            connections: _,
            hub: _,
            rounds: _,
            failure: _,
        } = self;
    }
}

impl<'h, T: Transport, S: Sockets<T>> EventLoop<'h, T, S> {
    ghost use Rattle.dict_session.specs.Desks.{condition};
    ghost use Rattle.http_service.specs.Foreseeing.{IsToldAnew};
    ghost use Rattle.std.specs.Prelude.{true};
    ghost use Rattle.net_hub.specs.Runs.{IsAt, beginning};
    ghost use Rattle.net_connection.specs.Leading.{HasLedOn};
    ghost use Rattle.net_driver.specs.Rounds.{Moves};
    ghost use Rattle.net_driver.specs.Ordering.{AreOfRound};
    ghost use Rattle.net_driver.specs.Serving.{IsRoundCounted};
    ghost use Rattle.net_driver.specs.Listening.{is_ready};
    ghost use Rattle.net_driver.specs.Looking.{IsIdle, IsKept, Looks, listening_of, other_kind};
    ghost use Rattle.net_driver.specs.Accepting.{HasAccepted, HasAsked, HasTakenConnection};
    ghost use Rattle.net_connection.specs.Telling.{KeepsOthers};
    ghost use Rattle.net_driver.specs.EventLoops.{GoesRound};

    /// No connection came by these sockets yet, the first one's id is 1, and no round was made. Replies name the server by
    /// `host`, of 1 to 253 of `A-Z a-z 0-9 . -`.
    pub fn new(alloc: Global, sockets: S, host: &'h str) -> Result<Self, AllocError>
        ensures sockets { IfOk result (λ event_loop. event_loop.sockets ≡ sockets) }
        ensures opened { IfOk result (λ event_loop. event_loop.connections.opened.items ≡ []) }
        ensures departing { IfOk result (λ event_loop. event_loop.connections.departing.items ≡ []) }
        ensures last { IfOk result (λ event_loop. event_loop.connections.last ≡ 0) }
        ensures beginning { IfOk result (λ event_loop. IsAt event_loop.hub (beginning host.now)) }
        ensures rounds { IfOk result (λ event_loop. event_loop.rounds ≡ 0) }
        ensures failure { IfOk result (λ event_loop. event_loop.failure ≡ None) }
    {
        Ok(EventLoop {
            sockets,
            dict_listening: Listening::Ready,
            http_listening: Listening::Ready,
            connections: Connections::new(alloc)?,
            hub: Hub::new(alloc, host)?,
            rounds: 0,
            failure: None,
        })
    }

    /// How many connections are open.
    pub fn open_count(&self) -> usize
        ensures { result ≤ 64 }
    {
        self.connections.open_count()
    }

    /// How many connections are held that are no longer open.
    pub fn departing_count(&self) -> usize
        ensures { result ≤ 128 }
    {
        self.connections.departing_count()
    }

    /// How many rounds were made, those that failed left out. After 18,446,744,073,709,551,615 it stays there.
    pub fn rounds(&self) -> u64
        ensures { result ≡ self.now.rounds }
    {
        self.rounds
    }

    /// One round: the sockets are looked at, the connections that wait are taken from that for readers, at most 16, and then from
    /// that for editors, at most 16, and then each connection has a turn, the open ones in the order of their ids: what waits is
    /// sent, and the next piece of what was read goes to the hub, of a reader one line; where none is left, one read of at most
    /// 65,536 octets is made before. A piece that completes an install is held back while the desk prepares that, by a part in each
    /// round, and a piece that makes another command whole until it comes first: they come in the order in which they were whole.
    /// Whether anything happened; where nothing did, `wait` may come before the next round.
    pub fn round<K: Preparer>(&mut self, desk: &mut K) -> io::Result<bool>
        ensures led { HasLedOn (K.is_trusted desk.new) (K.shows desk.old) (K.leaves_one_of desk.old) (K.shows desk.new) (K.leaves_one_of desk.new) self.old.hub self.new.hub
            (λ events. Moves self.old.connections self.new.connections events × AreOfRound events × GoesRound (condition K.has_failed K.is_closed) (IsToldAnew K.shows K.leaves_one_of K.keeps_beside K.is_trusted K.has_failed K.is_closed K.expects) K.prepares T.taken T.coming T.made S.refuses S.asked S.told result desk.old desk.new self.old self.new events
            × KeepsOnlyOpenOf self.old.hub self.new.hub self.old.connections.opened.items self.new.connections.opened.items) }
        ensures trust { K.is_trusted desk.new → K.is_trusted desk.old }
        ensures beside { (beside : K.Beside) → K.keeps_beside desk.old beside → K.keeps_beside desk.new beside }
        ensures closed { K.is_closed desk.old ≡ true → K.is_closed desk.new ≡ true }
        ensures rounds { IsRoundCounted result self.old.rounds self.new.rounds }
        ensures grown { self.old.rounds ≤ self.new.rounds }
        ensures idle { IfOk result (λ has_moved. has_moved ≡ false → IsIdle self.new) }
        ensures failure { MatchResult result (λ _. self.new.failure ≡ None) (λ error. self.new.failure ≡ Some (error_kind error)) }
    {
        match self.poll(Duration::ZERO) {
            Ok(()) => {}
            Err(error) => return Err(error),
        }
        let last = self.connections.last_id();
        let by_dict = self.accept_all(Kind::Dict, desk);
        let by_http = self.accept_all(Kind::Http, desk);
        let turned = self.connections.turn(&self.sockets, &mut self.hub, desk);
        self.rounds = self.rounds.saturating_add(1);
        let is_more = self.connections.has_given(last);
        Ok(has_any(is_more, by_dict, by_http, turned))
    }

    /// Waits until a socket is ready, or as long as this.
    pub fn wait(&mut self, most: Duration) -> io::Result<()>
        ensures { Looks S.asked (as_nanos most) (S.told self.new.sockets) result self.old self.new }
    {
        self.poll(most)
    }

    // Notes which sockets are ready, and waits for one as long as this.
    fn poll(&mut self, most: Duration) -> io::Result<()>
        ensures { Looks S.asked (as_nanos most) (S.told self.new.sockets) result self.old self.new }
    {
        let looked = self.sockets.poll(most);
        mark_told(&self.sockets, &mut self.connections);
        if tells_listening::<T, S>(&self.sockets) {
            self.dict_listening = Listening::Ready;
            self.http_listening = Listening::Ready;
        }
        self.failure = failure_of(&looked);
        looked
    }

    // Takes the connections that wait at a listening socket, in the order in which it hands them out, at most 16. Whether one may
    // wait there still.
    fn accept_all<K: Preparer>(&mut self, kind: Kind, desk: &mut K) -> bool
        ensures led { HasLedOn (K.is_trusted desk.new) (K.shows desk.old) (K.leaves_one_of desk.old) (K.shows desk.new) (K.leaves_one_of desk.new) self.old.hub self.new.hub
            (λ events. Moves self.old.connections self.new.connections events × HasAccepted S.refuses S.asked kind self.old self.new events) }
        ensures trust { K.is_trusted desk.new → K.is_trusted desk.old }
        ensures beside { (beside : K.Beside) → K.keeps_beside desk.old beside → K.keeps_beside desk.new beside }
        ensures unasked { desk.new ≡ desk.old }
        ensures kept { IsKept self.old self.new }
        ensures asked { result ≡ is_ready (listening_of kind self.new) }
        ensures other { listening_of (other_kind kind) self.new ≡ listening_of (other_kind kind) self.old }
    {
        if !self.listening(kind).may_accept() {
            return false;
        }
        for _ in 0..MAX_ACCEPTED {
            if !self.accept(kind, desk) {
                return false;
            }
        }
        true
    }

    // Asks a listening socket for a connection, and takes it. Whether one came, or the call is to be made again.
    fn accept<K: Preparer>(&mut self, kind: Kind, desk: &mut K) -> bool
        ensures led { HasLedOn (K.is_trusted desk.new) (K.shows desk.old) (K.leaves_one_of desk.old) (K.shows desk.new) (K.leaves_one_of desk.new) self.old.hub self.new.hub
            (λ events. Moves self.old.connections self.new.connections events × HasAsked S.refuses S.asked kind self.old self.new events) }
        ensures trust { K.is_trusted desk.new → K.is_trusted desk.old }
        ensures beside { (beside : K.Beside) → K.keeps_beside desk.old beside → K.keeps_beside desk.new beside }
        ensures others { KeepsOthers (self.old.connections.last + 1) self.old.hub self.new.hub }
        ensures unasked { desk.new ≡ desk.old }
        ensures kept { IsKept self.old self.new }
        ensures asked { result ≡ is_ready (listening_of kind self.new) }
        ensures other { listening_of (other_kind kind) self.new ≡ listening_of (other_kind kind) self.old }
    {
        match self.sockets.accept(kind) {
            Ok(transport) => {
                self.note(kind, Listening::Ready);
                self.admit(transport, kind, desk);
                true
            }
            Err(error) => {
                let listening = listening_by(error.kind());
                self.note(kind, listening);
                listening == Listening::Ready
            }
        }
    }

    // Whether a connection waits at a listening socket.
    fn listening(&self, kind: Kind) -> Listening
        ensures { result ≡ listening_of kind self.now }
    {
        match kind {
            Kind::Dict => self.dict_listening,
            Kind::Http => self.http_listening,
        }
    }

    // Notes whether a connection waits at a listening socket.
    fn note(&mut self, kind: Kind, listening: Listening)
        ensures kept { IsKept self.old self.new }
        ensures noted { listening_of kind self.new ≡ listening }
        ensures other { listening_of (other_kind kind) self.new ≡ listening_of (other_kind kind) self.old }
        ensures connections { self.new.connections ≡ self.old.connections }
        ensures hub { self.new.hub ≡ self.old.hub }
        ensures sockets { self.new.sockets ≡ self.old.sockets }
    {
        match kind {
            Kind::Dict => self.dict_listening = listening,
            Kind::Http => self.http_listening = listening,
        }
    }

    // Opens the connection, or closes its socket where there is no place for it.
    fn admit<K: Preparer>(&mut self, transport: T, kind: Kind, desk: &mut K)
        ensures led { HasLedOn (K.is_trusted desk.new) (K.shows desk.old) (K.leaves_one_of desk.old) (K.shows desk.new) (K.leaves_one_of desk.new) self.old.hub self.new.hub
            (λ events. Moves self.old.connections self.new.connections events × HasTakenConnection S.refuses S.asked transport kind self.old self.new events) }
        ensures trust { K.is_trusted desk.new → K.is_trusted desk.old }
        ensures beside { (beside : K.Beside) → K.keeps_beside desk.old beside → K.keeps_beside desk.new beside }
        ensures others { KeepsOthers (self.old.connections.last + 1) self.old.hub self.new.hub }
        ensures unasked { desk.new ≡ desk.old }
        ensures kept { IsKept self.old self.new }
        ensures dict { self.new.dict_listening ≡ self.old.dict_listening }
        ensures http { self.new.http_listening ≡ self.old.http_listening }
    {
        match self.connections.next_id() {
            Some(id) => {
                let mut transport = transport;
                if self.sockets.watch(&mut transport, id).is_ok() {
                    self.connections
                        .admit(&self.sockets, transport, kind, &mut self.hub, desk);
                }
            }
            None => {}
        }
    }
}

// The kind of the error by which a look failed.
fn failure_of(looked: &io::Result<()>) -> Option<ErrorKind>
    ensures { MatchResult looked.now (λ _. result ≡ None) (λ error. result ≡ Some (error_kind error)) }
{
    match looked {
        Ok(()) => None,
        Err(error) => Some(error.kind()),
    }
}

// Marks the connections of which the last look told.
fn mark_told<T: Transport, S: Sockets<T>>(sockets: &S, connections: &mut Connections<T>)
    ensures opened { MarkAll (tells (S.told sockets.now)) connections.old.opened.items connections.new.opened.items }
    ensures departing { MarkAll (tells (S.told sockets.now)) connections.old.departing.items connections.new.departing.items }
    ensures last { connections.new.last ≡ connections.old.last }
{
    for place in 0..sockets.told_count() {
        connections.mark_readable(sockets.told_at(place));
    }
}

// Whether the last look told of a listening socket.
fn tells_listening<T: Transport, S: Sockets<T>>(sockets: &S) -> bool
    ensures { result ≡ tells (S.told sockets.now) 0 }
{
    for place in 0..sockets.told_count() {
        if sockets.told_at(place) == 0 {
            return true;
        }
    }
    false
}

// Whether one of these is so.
fn has_any(first: bool, second: bool, third: bool, fourth: bool) -> bool
    ensures { result ≡ (first || (second || (third || fourth))) }
{
    first || second || third || fourth
}
