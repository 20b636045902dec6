// One end of a connection.
use crate::checks::holds;
use std::alloc::Global;
use std::io::{ErrorKind, Read, Result as IoResult, Write};
use std::net::{Shutdown, SocketAddr, TcpStream};
use std::process::Abort;

// A line of an index, of 128 octets: a headword of 123 octets, and the interval of the text of `opal` in `gem`.
static LINE: &[u8] =
    b"xxxxxxxxxxxxxxxxxxxxxxxxxxxxxxxxxxxxxxxxxxxxxxxxxxxxxxxxxxxxxxxxxxxxxxxxxxxxxxxxxxxxxxxxxxxxxxxxxxxxxxxxxxxxxxxxxxxxxxxxxxx\tZ\tP\n";

/// One end of a connection, and what came to it.
#[derive(Drop)]
pub(crate) struct Client {
    stream: TcpStream,
    alloc: Global,
    got: Vec<u8>,
    /// Whether the end of what is sent to it was read.
    pub(crate) has_ended: bool,
}

// A connection that waits for nothing.
fn connect(rt: &impl Abort, net: &HostRuntime, address: SocketAddr) -> TcpStream {
    let stream = TcpStream::connect(net, address).expect(rt, "a connection");
    stream.set_nonblocking(true).expect(rt, "no wait");
    stream.set_nodelay(true).expect(rt, "no delay");
    stream
}

impl Client {
    pub(crate) fn new(
        rt: &impl Abort,
        net: &HostRuntime,
        alloc: Global,
        address: SocketAddr,
    ) -> Client {
        Client {
            stream: connect(rt, net, address),
            alloc,
            got: Vec::new(alloc),
            has_ended: false,
        }
    }

    /// Sends octets, all of them. Those for a connection that is closed are lost.
    pub(crate) fn send(&mut self, rt: &impl Abort, octets: &[u8]) {
        let is_sent = match self.stream.write(octets) {
            Ok(count) => count == octets.len(),
            Err(error) => is_lost(error.kind()),
        };
        holds(rt, is_sent, "not all was sent");
    }

    /// Sends 32 lines of an index, 4,096 octets.
    pub(crate) fn fill_index(&mut self, rt: &impl Abort) {
        for _ in 0..32u32 {
            self.send(rt, LINE);
        }
    }

    /// Asks for the status so often, by octets that are sent at once.
    pub(crate) fn ask_often(&mut self, rt: &impl Abort, count: u32) {
        let mut octets = Vec::new(self.alloc);
        for _ in 0..count {
            octets.extend_from_slice(b"STATUS\r\n").expect(rt, "memory");
        }
        self.send(rt, octets.as_slice());
    }

    /// Sends nothing more.
    pub(crate) fn end(&mut self, rt: &impl Abort) {
        self.stream.shutdown(Shutdown::Write).expect(rt, "an end");
    }

    // Reads what has come, at most so often. A reset counts as an end.
    fn read_on(&mut self) -> IoResult<()> {
        let mut room = [0u8; 4_096];
        for _ in 0..10_000u32 {
            match self.stream.read(&mut room) {
                Ok(0) => {
                    self.has_ended = true;
                    return Ok(());
                }
                Ok(count) => self.got.extend_from_slice(&room[..count])?,
                Err(error) if error.kind() == ErrorKind::WouldBlock => return Ok(()),
                Err(error) if is_lost(error.kind()) => {
                    self.has_ended = true;
                    return Ok(());
                }
                Err(error) => return Err(error),
            }
        }
        Ok(())
    }

    /// Reads what has come, and tells how many octets came in all.
    pub(crate) fn read(&mut self, rt: &impl Abort) -> usize {
        self.read_on().expect(rt, "octets");
        self.got.len()
    }

    /// These octets alone have come since the last such call.
    pub(crate) fn got(&mut self, rt: &impl Abort, want: &[u8]) {
        self.read_on().expect(rt, "octets");
        let is_so = self.got.as_slice() == want;
        self.got.clear();
        holds(rt, is_so, "other octets came");
    }
}

// The other end is gone.
fn is_lost(kind: ErrorKind) -> bool {
    kind == ErrorKind::ConnectionReset || kind == ErrorKind::BrokenPipe
}
