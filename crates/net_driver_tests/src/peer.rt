// Peers of connections, in memory.
ghost use Rattle.std.specs.Prelude.{Some, None};

use net_outlet::Transport;
use std::alloc::Global;
use std::io::{Error, ErrorKind, Result as IoResult};

/// What a peer does behind the last of its pieces.
#[derive(Clone, Copy)]
pub(crate) enum Behind {
    /// It ends its side.
    End,
    /// It sends nothing more for now.
    Wait,
    /// It sends the last one again.
    Repeat,
}

/// What a peer sends, and what it takes.
#[derive(Clone, Copy)]
pub(crate) struct Script {
    /// What it sends, a piece a reading.
    pub(crate) pieces: &'static [&'static [u8]],
    pub(crate) behind: Behind,
    /// How many octets it takes before it takes none.
    pub(crate) takes: usize,
    /// How many of them by one call.
    pub(crate) at_once: usize,
    /// How many it takes after a call by which it took none.
    pub(crate) again: usize,
    /// Whether such a call fails. Else the octets are to wait.
    pub(crate) is_gone: bool,
}

/// A peer that sends nothing, and takes all.
pub(crate) const SILENT: Script = Script {
    pieces: &[],
    behind: Behind::Wait,
    takes: usize::MAX,
    at_once: usize::MAX,
    again: 0,
    is_gone: false,
};

/// A peer in memory.
#[derive(Drop)]
pub(crate) struct Peer {
    alloc: Global,
    script: Script,
    // How many more octets it takes.
    left: usize,
    /// What it took.
    pub(crate) taken: Vec<u8>,
    /// How many of its pieces were read.
    pub(crate) read: usize,
    /// How often it was asked to take octets.
    pub(crate) calls: u32,
    /// The fewest octets that such a call handed over.
    pub(crate) fewest: usize,
}

impl Peer {
    /// One that does this.
    pub(crate) fn new(alloc: Global, script: Script) -> Peer {
        Peer {
            alloc,
            script,
            left: script.takes,
            taken: Vec::new(alloc),
            read: 0,
            calls: 0,
            fewest: usize::MAX,
        }
    }

    // What comes of a call by which it takes none.
    fn refusal(&self) -> Error {
        if self.script.is_gone {
            Error::from(ErrorKind::BrokenPipe)
        } else {
            Error::from(ErrorKind::WouldBlock)
        }
    }
}

impl Transport for Peer {
    ghost taken = { λ it. Some it.taken.items };

    ghost coming = { λ _. None };

    ghost made = { λ _. None };

    fn absent(&self) -> Self {
        Peer::new(self.alloc, SILENT)
    }

    fn send(&mut self, octets: &[u8]) -> IoResult<usize> {
        self.calls = self.calls.saturating_add(1);
        self.fewest = self.fewest.min(octets.len());
        let count = octets.len().min(self.left).min(self.script.at_once);
        if count == 0 {
            self.left = self.script.again;
            return Err(self.refusal());
        }
        self.taken.extend_from_slice(&octets[..count])?;
        self.left -= count;
        Ok(count)
    }

    fn receive(&mut self, room: &mut [u8]) -> IoResult<usize> {
        let Some(piece) = self.script.pieces.get(self.read) else {
            return match self.script.behind {
                Behind::End => Ok(0),
                _ => Err(Error::from(ErrorKind::WouldBlock)),
            };
        };
        let count = piece.len().min(room.len());
        room[..count].copy_from_slice(&piece[..count]);
        if !matches!(self.script.behind, Behind::Repeat) {
            self.read = self.read.saturating_add(1);
        }
        Ok(count)
    }

    fn end_sending(&mut self) -> IoResult<()> {
        Ok(())
    }
}
