// What takes octets.
ghost use Rattle.std.specs.Prelude.{◌≡◌, ◌-◌, ◌^◌, [], IsErr};
ghost use Rattle.std.specs.List.{flat_map};
ghost use Rattle.std.specs.Io.KnownBytes.{Appends};
ghost use Rattle.dict_proto.specs.Streams.{Stream, Puts};

use std::io::Write;

/// A call of a sink failed. A front of the octets was taken.
#[derive(Clone, Copy, Debug, PartialEq, Eq)]
pub struct SinkFault;

/// What takes octets, in order: a connection's output.
pub trait Sink {
    /// The octets that it took so far, where they are known, and how many of its calls failed.
    ghost stream: { Self → Stream };

    /// Takes all of the octets, or a front of them where it fails. After 18,446,744,073,709,551,615 failures
    /// each further call fails and takes none.
    fn put(&mut self, bytes: &[u8]) -> Result<(), SinkFault>
        ensures put { Puts result (stream self.old) (stream self.new) bytes.now }
        ensures worn_out { (stream self.old).failures ≡ 2 ^ 64 - 1
            → IsErr result × Appends (stream self.old).octets (stream self.new).octets [] };
}

/// A sink over a writer. It hands on each octet before the call ends and keeps none back; an interrupted call
/// of the writer and one that writes nothing are faults.
#[derive(Drop)]
pub struct OverWrite<W: Write> {
    writer: W,
    failures: u64,
}

impl<W: Write> OverWrite<W> {
    /// A sink after what the writer has already, with no failed call.
    pub fn new(writer: W) -> Self
        ensures { ⟦<OverWrite<W> as Sink>⟧.stream result ≡ record { octets = W.contents writer; failures = 0 } }
    {
        OverWrite {
            writer,
            failures: 0,
        }
    }

    /// The writer, with all that was put.
    pub fn into_inner(self) -> W
        ensures { W.contents result ≡ W.contents self.writer }
    {
        let OverWrite {
            writer,
            failures: _,
        } = self;
        writer
    }
}

impl<W: Write> Sink for OverWrite<W> {
    ghost stream = { λ s. record { octets = W.contents s.writer; failures = s.failures } };

    fn put(&mut self, bytes: &[u8]) -> Result<(), SinkFault> {
        if self.failures == u64::MAX {
            return Err(SinkFault);
        }
        let mut rest = bytes;
        while !rest.is_empty() {
            match self.writer.write(rest) {
                Ok(n) if n > 0 => rest = &rest[n..],
                _ => {
                    self.failures += 1;
                    return Err(SinkFault);
                }
            }
        }
        Ok(())
    }
}

/// Puts the parts, one after the other.
pub fn put_all<K: Sink>(sink: &mut K, parts: &[&[u8]]) -> Result<(), SinkFault>
    ensures { Puts result (K.stream sink.old) (K.stream sink.new) (flat_map (λ part. part.now) parts.now) }
{
    for part in parts {
        sink.put(part)?;
    }
    Ok(())
}
