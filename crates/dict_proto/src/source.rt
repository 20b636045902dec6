// What gives octets.
ghost use Rattle.std.specs.Prelude.{◌≡◌, ◌≤◌, ◌<◌, ◌-◌, ◌^◌, IfOk, IsErr, length};
ghost use Rattle.std.specs.Io.KnownBytes.{IsAtEnd};
ghost use Rattle.dict_proto.specs.Streams.{Stream, Gives};

use std::io::Read;

/// A call of a source failed. Nothing was taken from it.
#[derive(Clone, Copy, Debug, PartialEq, Eq)]
pub struct SourceFault;

/// What gives octets, in order: a connection's input.
pub trait Source {
    /// The octets that it will give from here on, where they are known, and how many of its calls failed.
    ghost stream: { Self → Stream };

    /// Puts octets at the front of the room, and tells how many. Where there is room, 0 means the end of the
    /// octets. A fault takes none; after 18,446,744,073,709,551,615 of them each further call is one.
    fn take(&mut self, room: &mut [u8]) -> Result<usize, SourceFault>
        ensures given { Gives result (stream self.old) (stream self.new) room.new }
        ensures count { IfOk result (λ n. n ≤ length room.new) }
        ensures end { IfOk result (λ n. n ≡ 0 → 0 < length room.new → IsAtEnd (stream self.new).octets) }
        ensures worn_out { (stream self.old).failures ≡ 2 ^ 64 - 1 → IsErr result };
}

/// A source over a reader. It asks the reader once a call and keeps nothing back, and an interrupted call is a
/// fault.
#[derive(Drop)]
pub struct OverRead<R: Read> {
    reader: R,
    failures: u64,
}

impl<R: Read> OverRead<R> {
    /// A source of what the reader has left, with no failed call.
    pub fn new(reader: R) -> Self
        ensures { ⟦<OverRead<R> as Source>⟧.stream result ≡ record { octets = R.remaining reader; failures = 0 } }
    {
        OverRead {
            reader,
            failures: 0,
        }
    }
}

impl<R: Read> Source for OverRead<R> {
    ghost stream = { λ s. record { octets = R.remaining s.reader; failures = s.failures } };

    fn take(&mut self, room: &mut [u8]) -> Result<usize, SourceFault> {
        if self.failures == u64::MAX {
            return Err(SourceFault);
        }
        match self.reader.read(room) {
            Ok(n) => Ok(n),
            Err(_) => {
                self.failures += 1;
                Err(SourceFault)
            }
        }
    }
}
