// Peers in memory that wait at the listening socket for readers.
ghost use Rattle.std.specs.Prelude.{None, ⊤};

use crate::peer::{Peer, SILENT, Script};
use dict_desk::Preparer;
use dict_proto::Sink;
use net_connection::{Opening, PIECE, greet_by_hub, hand_by_hub};
use net_driver::Sockets;
use net_hub::{Hub, HubFault, Kind, Out};
use net_outlet::Queue;
use std::alloc::{AllocError, Global};
use std::io::{Error, ErrorKind, Result as IoResult};
use std::time::Duration;

/// So many peers are accepted, then so many calls find no descriptor, and then so many more are accepted. No look tells of them.
#[derive(Drop)]
pub(crate) struct Crowd {
    alloc: Global,
    told: Vec<u64>,
    script: Script,
    found: u32,
    missed: u32,
    more: u32,
}

impl Crowd {
    /// Of peers that do this.
    pub(crate) fn new(alloc: Global, script: Script, found: u32, missed: u32, more: u32) -> Crowd {
        Crowd {
            alloc,
            told: Vec::new(alloc),
            script,
            found,
            missed,
            more,
        }
    }

    /// Nobody.
    pub(crate) fn empty(alloc: Global) -> Crowd {
        Crowd::new(alloc, SILENT, 0, 0, 0)
    }
}

// Room of the allocator's.
impl Opening for Crowd {
    ghost refuses = { λ _ _ _ _. ⊤ };

    fn room(
        &self,
        alloc: Global,
        _hub: &Hub,
        _id: u64,
        _kind: Kind,
    ) -> Result<Vec<u8>, AllocError> {
        Vec::with_capacity(alloc, PIECE)
    }

    fn greet<K: Preparer>(
        &self,
        hub: &mut Hub,
        desk: &mut K,
        id: u64,
        kind: Kind,
        queue: &mut Queue,
    ) -> Result<Out, HubFault> {
        greet_by_hub(hub, desk, id, kind, queue)
    }

    fn hand<K: Preparer, S: Sink>(
        &self,
        hub: &mut Hub,
        desk: &mut K,
        id: u64,
        _kind: Kind,
        piece: &[u8],
        sink: &mut S,
    ) -> Result<Out, HubFault> {
        hand_by_hub(hub, desk, id, piece, sink)
    }
}

impl Sockets<Peer> for Crowd {
    ghost asked = { λ _. None };

    ghost told = { λ crowd. crowd.told.items };

    fn poll(&mut self, _most: Duration) -> IoResult<()> {
        Ok(())
    }

    fn told_count(&self) -> usize {
        self.told.len()
    }

    fn told_at(&self, place: usize) -> u64 {
        self.told[place]
    }

    fn accept(&mut self, kind: Kind) -> IoResult<Peer> {
        if kind == Kind::Http {
            return Err(Error::from(ErrorKind::WouldBlock));
        }
        if self.found > 0 {
            self.found -= 1;
            return Ok(Peer::new(self.alloc, self.script));
        }
        if self.missed > 0 {
            self.missed -= 1;
            return Err(Error::from(ErrorKind::Other));
        }
        if self.more > 0 {
            self.more -= 1;
            return Ok(Peer::new(self.alloc, self.script));
        }
        Err(Error::from(ErrorKind::WouldBlock))
    }

    fn watch(&mut self, _transport: &mut Peer, _id: u64) -> IoResult<()> {
        Ok(())
    }
}
