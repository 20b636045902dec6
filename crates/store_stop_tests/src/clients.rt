//! One end of a connection over loopback.
use crate::serving_checks::holds;
use std::alloc::Global;
use std::io::{ErrorKind, Read, Write};
use std::net::{Net, SocketAddr, TcpStream};
use std::process::Abort;

/// A client, and what came to it since the last look.
#[derive(Drop)]
pub(crate) struct Client {
    stream: TcpStream,
    got: Vec<u8>,
}

impl Client {
    pub(crate) fn new<N: Net<Stream = TcpStream> + Abort>(
        rt: &N,
        alloc: Global,
        address: SocketAddr,
    ) -> Client {
        let stream = TcpStream::connect(rt, address).expect(rt, "a connection");
        stream.set_nonblocking(true).expect(rt, "a connection");
        Client {
            stream,
            got: Vec::new(alloc),
        }
    }

    /// Sends octets, all at once.
    pub(crate) fn send(&mut self, rt: &impl Abort, octets: &[u8]) {
        let count = self.stream.write(octets).expect(rt, "a connection");
        holds(rt, count == octets.len(), "the octets sent");
    }

    /// These octets alone have come.
    pub(crate) fn poll(&mut self, rt: &impl Abort, want: &[u8]) {
        let mut room = [0u8; 512];
        match self.stream.read(&mut room) {
            Ok(count) => {
                let octets = &room[..count];
                self.got.extend_from_slice(octets).expect(rt, "memory");
            }
            Err(error) => assert!(rt; error.kind() == ErrorKind::WouldBlock, "{error:?}"),
        }
        holds(rt, self.got.as_slice() == want, "the octets that came");
        self.got.clear();
    }
}
