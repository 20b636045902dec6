// What carries a connection's octets.
ghost use Rattle.std.specs.Prelude.{◌≡◌, ℕ, List, Option, [], ◌∷◌, None, is_ok, length};
ghost use Rattle.std.specs.Io.{ReadsAtMost, WritesAtMost};
ghost use Rattle.std.specs.Io.KnownBytes.{Keeps, ReadConsumes, WriteAppends};
ghost use Rattle.net_outlet.specs.OutletCalls.{Call, MakesCalls, sends, receives, ends, sent_by, received_by};

use mio::net::TcpStream;
use mio::{Interest, Poll, Token};
use std::io::{Error, ErrorKind, Read, Result, Write};
use std::net::Shutdown;

/// Carries octets to a peer and from it. No call waits: one that would is an error of the kind `WouldBlock`.
pub trait Transport: Drop {
    /// The octets that it took for the peer, where they are known.
    ghost taken: { Self → Option (List ℕ) };

    /// The octets of the peer that it will give from here on, where they are known.
    ghost coming: { Self → Option (List ℕ) };

    /// The calls that were made of it so far, where they are known.
    ghost made: { Self → Option (List Call) };

    /// A transport to nobody, to stand in the place of this one while it is lent out.
    fn absent(&self) -> Self;

    /// Takes a front of the octets, and tells how many.
    fn send(&mut self, octets: &[u8]) -> Result<usize>
        ensures bound { WritesAtMost result octets.now }
        ensures taken { WriteAppends (taken self.old) (taken self.new) result octets.now }
        ensures coming { Keeps (coming self.old) (coming self.new) }
        ensures made { MakesCalls (made self.old) (made self.new) (sends (length octets.now) (sent_by result) ∷ []) };

    /// Puts the peer's next octets at the front of the room, and tells how many. Where there is room, 0 means their end.
    fn receive(&mut self, room: &mut [u8]) -> Result<usize>
        ensures bound { ReadsAtMost result room.new }
        ensures taken { Keeps (taken self.old) (taken self.new) }
        ensures coming { ReadConsumes (coming self.old) (coming self.new) result room.new }
        ensures made { MakesCalls (made self.old) (made self.new) (receives (length room.new) (received_by result) ∷ []) };

    /// Tells the peer that nothing more is sent.
    fn end_sending(&mut self) -> Result<()>
        ensures taken { Keeps (taken self.old) (taken self.new) }
        ensures coming { Keeps (coming self.old) (coming self.new) }
        ensures made { MakesCalls (made self.old) (made self.new) (ends (is_ok result) ∷ []) };
}

/// A socket, or none.
#[derive(Drop)]
pub struct Socket {
    stream: Option<TcpStream>,
}

impl Socket {
    /// This socket.
    pub fn new(stream: TcpStream) -> Self
        ensures { result.stream ≡ Some stream }
    {
        Socket {
            stream: Some(stream),
        }
    }

    /// Has the poll tell of this socket under a token, and the socket send at once what it is given.
    pub fn watch(&mut self, poll: &Poll, token: Token) -> Result<()>
        ensures { self.new ≡ self.old }
    {
        match &mut self.stream {
            Some(stream) => register(poll, stream, token),
            None => Err(Error::from(ErrorKind::NotConnected)),
        }
    }
}

// Has a poll tell of a socket, which sends at once what it is given.
fn register(poll: &Poll, stream: &mut TcpStream, token: Token) -> Result<()>
    ensures { stream.new ≡ stream.old }
{
    stream.set_nodelay(true)?;
    let interests = Interest::READABLE | Interest::WRITABLE;
    poll.registry().register(stream, token, interests)
}

// Of a socket no octet is known.
impl Transport for Socket {
    ghost taken = { λ _. None };

    ghost coming = { λ _. None };

    ghost made = { λ _. None };

    fn absent(&self) -> Self {
        Socket { stream: None }
    }

    fn send(&mut self, octets: &[u8]) -> Result<usize> {
        match &mut self.stream {
            Some(stream) => stream.write(octets),
            None => Err(Error::from(ErrorKind::NotConnected)),
        }
    }

    fn receive(&mut self, room: &mut [u8]) -> Result<usize> {
        match &mut self.stream {
            Some(stream) => stream.read(room),
            None => Err(Error::from(ErrorKind::NotConnected)),
        }
    }

    fn end_sending(&mut self) -> Result<()> {
        match &self.stream {
            Some(stream) => stream.shutdown(Shutdown::Write),
            None => Err(Error::from(ErrorKind::NotConnected)),
        }
    }
}
