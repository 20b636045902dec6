// Whether a connection waits at a listening socket.
ghost use Rattle.std.specs.Prelude.{◌≡◌};

use std::io::ErrorKind;

/// Whether a connection waits at a listening socket, as its last call and what the poll told of it have it.
#[derive(Clone, Copy, Debug, PartialEq, Eq)]
pub enum Listening {
    /// One may wait.
    Ready,
    /// None does, and the poll tells of the next.
    Quiet,
    /// The call failed, as for want of descriptors. The poll doesn't tell of those that wait already, so each round asks again.
    Failed,
}

impl Listening {
    ghost use Rattle.net_driver.specs.Listening.{may_accept};

    /// Whether the socket is to be asked.
    pub fn may_accept(self) -> bool
        ensures { result ≡ may_accept self }
    {
        match self {
            Listening::Ready | Listening::Failed => true,
            Listening::Quiet => false,
        }
    }
}

ghost use Rattle.net_driver.specs.Listening.{listening_by};

/// What a call tells that failed by an error of this kind.
pub fn listening_by(kind: ErrorKind) -> Listening
    ensures { result ≡ listening_by kind }
{
    match kind {
        ErrorKind::WouldBlock => Listening::Quiet,
        ErrorKind::Interrupted | ErrorKind::ConnectionAborted => Listening::Ready,
        _ => Listening::Failed,
    }
}
