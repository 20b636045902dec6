//! Sources and sinks over readers and writers.

use crate::checks::same;
use dict_proto::{LimitedSink, OverRead, OverWrite, Sink, SinkFault, Source, SourceFault, put_all};
use std::io::{Error, ErrorKind, Read, Result as IoResult, Write};

// A writer that takes one octet a call, and is interrupted once after some.
#[derive(Drop)]
struct OneAtATime {
    calls_left: usize,
}

impl Write for OneAtATime {
    fn write(&mut self, buf: &[u8]) -> IoResult<usize> {
        if self.calls_left == 0 {
            return Err(Error::from(ErrorKind::Interrupted));
        }
        self.calls_left -= 1;
        Ok(buf.len().min(1))
    }

    fn flush(&mut self) -> IoResult<()> {
        Ok(())
    }
}

// A reader that is interrupted at each call.
#[derive(Drop)]
struct Interrupted;

impl Read for Interrupted {
    fn read(&mut self, _buf: &mut [u8]) -> IoResult<usize> {
        Err(Error::from(ErrorKind::Interrupted))
    }
}

#[test]
fn sinks_over_writers(rt: HostRuntime) {
    let mut patient = OverWrite::new(OneAtATime { calls_left: 8 });
    same(&rt, &patient.put(b"250 ok\r\n"), &Ok(()));
    same(&rt, &patient.into_inner().calls_left, &0);
    let mut hasty = OverWrite::new(OneAtATime { calls_left: 7 });
    same(&rt, &hasty.put(b"250 ok\r\n"), &Err(SinkFault));
    let mut room = [0u8; 5];
    let mut sink = OverWrite::new(room.as_mut_slice());
    same(&rt, &sink.put(b"250 ok\r\n"), &Err(SinkFault));
    same(&rt, &sink.into_inner().len(), &0);
    same(&rt, &room.as_slice(), &b"250 o".as_slice());
}

// What is put in turn into a sink with room for three octets, whether it is taken, and what the sink has then.
static PUT: [(&[u8], bool, &[u8]); 4] = [
    (b"ab", true, b"ab"),
    (b"", true, b"ab"),
    (b"cd", false, b"abc"),
    (b"e", false, b"abc"),
];

#[test]
fn a_sink_of_limited_room(rt: HostRuntime) {
    let mut sink = LimitedSink::new(rt.alloc(), 3).expect(&rt, "a sink");
    for (octets, is_taken, taken) in &PUT {
        let wanted = if *is_taken { Ok(()) } else { Err(SinkFault) };
        same(&rt, &sink.put(octets), &wanted);
        same(&rt, &sink.taken(), taken);
    }
    drop(sink);
}

#[test]
fn sources_over_readers(rt: HostRuntime) {
    let mut source = OverRead::new(b"abcde".as_slice());
    let mut room = [0u8; 3];
    same(&rt, &source.take(&mut room), &Ok(3));
    same(&rt, &room.as_slice(), &b"abc".as_slice());
    same(&rt, &source.take(&mut room), &Ok(2));
    same(&rt, &room.get(..2), &Some(b"de".as_slice()));
    same(&rt, &source.take(&mut room), &Ok(0));
    let mut source = OverRead::new(Interrupted);
    same(&rt, &source.take(&mut room), &Err(SourceFault));
}

#[test]
fn parts_in_order(rt: HostRuntime) {
    let mut sink = OverWrite::new(Vec::new(rt.alloc()));
    let put = put_all(&mut sink, &[b"a", b"", b"bc"]);
    let octets = sink.into_inner();
    let is_so = octets.as_slice() == b"abc".as_slice();
    drop(octets);
    same(&rt, &put, &Ok(()));
    same(&rt, &is_so, &true);
}
