// What the system's sockets are asked.
ghost use Rattle.std.specs.Prelude.{◌≡◌, ◌<◌, ℕ, List, Option, Result, [], ◌∷◌, length, slice_index_or, map, None, is_ok, ⊤};
ghost use Rattle.std.specs.Duration.{as_nanos};
ghost use Rattle.mio.specs.Event.{event_token};
ghost use Rattle.mio.specs.Events.{items};
ghost use Rattle.net_driver.specs.Asking.{Asking, Asks, looks, accepts, watches};

use dict_desk::Preparer;
use dict_proto::Sink;
use mio::net::TcpListener;
use mio::{Events, Poll, Token};
use net_connection::{Opening, PIECE, greet_by_hub, hand_by_hub};
use net_hub::{Hub, HubFault, Kind, Out};
use net_outlet::{Queue, Socket, Transport};
use std::alloc::{AllocError, Global};
use std::io;
use std::time::Duration;

/// Two listening sockets, for readers and for editors, and a look at which sockets are ready; and what a connection takes that came
/// by them.
pub trait Sockets<T: Transport>: Drop + Opening {
    /// What was asked of them so far, in order, and what came of it, where it is known.
    ghost asked: { Self → Option (List (Asking T)) };

    /// Of which sockets the last look told: 0 for the listening ones, and the id of a connection for its own.
    ghost told: { Self → List ℕ };

    /// Looks which sockets are ready, and waits for one as long as this.
    fn poll(&mut self, most: Duration) -> io::Result<()>
        ensures asked { Asks (asked self.old) (asked self.new) (looks (as_nanos most) (told self.new) (is_ok result) ∷ []) };

    /// Of how many sockets the last look told.
    fn told_count(&self) -> usize
        ensures { result ≡ length (told self.now) };

    /// Of which socket the last look told at this place.
    fn told_at(&self, place: usize) -> u64
        requires { place < length (told self.now) }
        ensures { (d : ℕ) → result ≡ slice_index_or (told self.now) place d };

    /// Takes a connection that waits at the listening socket for this kind. It doesn't wait for one.
    fn accept(&mut self, kind: Kind) -> io::Result<T>
        ensures asked { Asks (asked self.old) (asked self.new) (accepts kind result ∷ []) };

    /// Has looks tell of the socket of a connection, by its id.
    fn watch(&mut self, transport: &mut T, id: u64) -> io::Result<()>
        ensures asked { Asks (asked self.old) (asked self.new) (watches id (is_ok result) ∷ []) }
        ensures transport { transport.new ≡ transport.old };
}

// The token of both listening sockets. That of a connection is its id.
pub(crate) const LISTENING: Token = Token(0);

/// The system's own, as `mio` has them.
#[derive(Drop)]
pub struct SystemSockets {
    dict: TcpListener,
    http: TcpListener,
    poll: Poll,
    events: Events,
}

impl SystemSockets {
    /// These listening sockets, of which the poll tells, and room for what it tells.
    pub(crate) fn new(dict: TcpListener, http: TcpListener, poll: Poll, events: Events) -> Self
        ensures dict { result.dict ≡ dict }
        ensures http { result.http ≡ http }
    {
        SystemSockets {
            dict,
            http,
            poll,
            events,
        }
    }
}

// Which growths are refused isn't known.
impl Opening for SystemSockets {
    ghost refuses = { λ _ _ _ _. ⊤ };

    fn room(
        &self,
        alloc: Global,
        _hub: &Hub,
        _id: u64,
        _kind: Kind,
    ) -> Result<Vec<u8>, AllocError> {
        Vec::with_capacity(alloc, PIECE)
    }

    fn greet<K: Preparer>(
        &self,
        hub: &mut Hub,
        desk: &mut K,
        id: u64,
        kind: Kind,
        queue: &mut Queue,
    ) -> Result<Out, HubFault> {
        greet_by_hub(hub, desk, id, kind, queue)
    }

    fn hand<K: Preparer, S: Sink>(
        &self,
        hub: &mut Hub,
        desk: &mut K,
        id: u64,
        _kind: Kind,
        piece: &[u8],
        sink: &mut S,
    ) -> Result<Out, HubFault> {
        hand_by_hub(hub, desk, id, piece, sink)
    }
}

// Of what the system is asked nothing is known.
impl Sockets<Socket> for SystemSockets {
    ghost asked = { λ _. None };

    ghost told = { λ sockets. map (λ event. (event_token event).0) (items sockets.events) };

    fn poll(&mut self, most: Duration) -> io::Result<()> {
        self.poll.poll(&mut self.events, Some(most))
    }

    fn told_count(&self) -> usize {
        self.events.iter().as_slice().len()
    }

    fn told_at(&self, place: usize) -> u64 {
        let told = self.events.iter().as_slice();
        told[place].token().0 as u64
    }

    fn accept(&mut self, kind: Kind) -> io::Result<Socket> {
        let (stream, _) = match kind {
            Kind::Dict => self.dict.accept()?,
            Kind::Http => self.http.accept()?,
        };
        Ok(Socket::new(stream))
    }

    fn watch(&mut self, transport: &mut Socket, id: u64) -> io::Result<()> {
        transport.watch(&self.poll, Token(id as usize))
    }
}
