// How often a reply asks its writer.
use crate::checks::holds;
use dict_proto::{OverWrite, Reply, write_reply};
use std::io::{Result as IoResult, Write};
use std::process::Abort;

// A writer that counts its calls.
#[derive(Drop)]
struct Counting {
    calls: usize,
}

impl Write for Counting {
    fn write(&mut self, buf: &[u8]) -> IoResult<usize> {
        self.calls = self.calls.saturating_add(1);
        Ok(buf.len())
    }

    fn flush(&mut self) -> IoResult<()> {
        Ok(())
    }
}

// How often a writer is called for a reply.
fn calls_for(rt: &impl Abort, reply: &Reply) -> usize {
    let mut sink = OverWrite::new(Counting { calls: 0 });
    write_reply(&mut sink, reply).expect(rt, "a reply");
    sink.into_inner().calls
}

static CALLS: [(Reply<'static>, usize); 6] = [
    (
        Reply::Banner {
            host: "localhost",
            connection: 1,
        },
        1,
    ),
    (Reply::MatchCount(12), 1),
    (
        Reply::ListLine {
            name: "gem",
            text: "Opal, \"fire\"",
        },
        1,
    ),
    (
        Reply::Definition {
            headword: "a\"b",
            name: "gem",
            title: "Gems",
            body: b"x\n.y\n",
        },
        2,
    ),
    (Reply::InfoText(b"x\n.y\n"), 1),
    (Reply::Help, 1),
];

// A line is written by one call, and so is a short text.
#[test]
fn a_writer_is_called_once_a_line(rt: HostRuntime) {
    for (reply, calls) in &CALLS {
        holds(&rt, calls_for(&rt, reply) == *calls, "calls");
    }
}
