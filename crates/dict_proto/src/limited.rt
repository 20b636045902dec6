// A sink in memory with a bound.
ghost use Rattle.std.specs.Prelude.{◌≡◌, ◌≢◌, ◌≤◌, ◌+◌, ◌-◌, ◌^◌, [], length, IsOk, IsErr, OnOk, IfOk, vec_len, vec_capacity};
ghost use Rattle.std.specs.Io.KnownBytes.{Appends};
ghost use Rattle.dict_proto.specs.Streams.{Puts};

use crate::sink::{Sink, SinkFault};
use std::alloc::{AllocError, Global};

/// A sink in memory that takes a given number of octets, and fails from then on. It takes no memory after it
/// was made.
#[derive(Drop)]
pub struct LimitedSink {
    taken: Vec<u8>,
    room: usize,
    failures: u64,
    ghost reserved: { vec_len taken + room ≤ vec_capacity taken },
}

impl LimitedSink {
    /// A sink with room for so many octets, which has taken none.
    pub fn new(alloc: Global, room: usize) -> Result<Self, AllocError>
        ensures octets { IfOk result (λ s. s.taken.items ≡ []) }
        ensures room { IfOk result (λ s. s.room ≡ room) }
        ensures failures { IfOk result (λ s. s.failures ≡ 0) }
    {
        let taken = Vec::with_capacity(alloc, room)?;
        Ok(LimitedSink {
            taken,
            room,
            failures: 0,
        })
    }

    /// The octets that it took.
    pub fn taken(&self) -> &[u8]
        ensures { result.now ≡ self.now.taken.items }
    {
        self.taken.as_slice()
    }
}

impl Sink for LimitedSink {
    ghost use Rattle.dict_proto.specs.Limited.{stream_of};

    ghost stream = { stream_of };

    // It fails only where there is no room for all, or its count of failures is at an end.
    fn put(&mut self, bytes: &[u8]) -> Result<(), SinkFault>
        ensures put { Puts result (stream_of self.old) (stream_of self.new) bytes.now }
        ensures worn_out { self.old.failures ≡ 2 ^ 64 - 1
            → IsErr result × Appends (stream_of self.old).octets (stream_of self.new).octets [] }
        ensures fits { length bytes.now ≤ self.old.room → self.old.failures ≢ 2 ^ 64 - 1 → IsOk result }
        ensures room { OnOk result (self.new.room + length bytes.now ≡ self.old.room) }
    {
        if self.failures == u64::MAX {
            return Err(SinkFault);
        }
        let n = bytes.len().min(self.room);
        match self.taken.extend_from_slice(&bytes[..n]) {
            Ok(()) if n == bytes.len() => {
                self.room -= n;
                Ok(())
            }
            Ok(()) => {
                self.room -= n;
                self.failures += 1;
                Err(SinkFault)
            }
            // The room was reserved when the sink was made.
            Err(_) => unreachable!(),
        }
    }
}
