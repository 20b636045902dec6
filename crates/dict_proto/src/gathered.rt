// Octets that are gathered before they are put.
ghost use Rattle.std.specs.Prelude.{◌≡◌, [], OnOk};
ghost use Rattle.std.specs.List.{flat_map};
ghost use Rattle.dict_proto.specs.Streams.{Puts};
ghost use Rattle.dict_proto.specs.Gathering.{Gathers};

use crate::sink::{Sink, SinkFault};
use arrayvec::ArrayVec;

/// The most octets that are gathered before they are put.
const ROOM: usize = 1024;

/// Octets on their way to a sink, so that it takes a line by one call. It takes no memory.
#[derive(Drop)]
pub struct GatheredOctets {
    octets: ArrayVec<u8, ROOM>,
}

impl GatheredOctets {
    pub fn new() -> Self
        ensures { result.octets.items ≡ [] }
    {
        GatheredOctets {
            octets: ArrayVec::new(),
        }
    }

    /// Adds these octets. Where there is no room for them, those that are held are put, and so are these where they
    /// still find none. After a fault what is held is of no use.
    pub fn add<K: Sink>(&mut self, sink: &mut K, octets: &[u8]) -> Result<(), SinkFault>
        ensures { Gathers result (K.stream sink.old) (K.stream sink.new) self.old.octets.items
            self.new.octets.items octets.now }
    {
        if self.octets.try_extend_from_slice(octets).is_ok() {
            return Ok(());
        }
        self.put(sink)?;
        if self.octets.try_extend_from_slice(octets).is_ok() {
            return Ok(());
        }
        sink.put(octets)
    }

    /// Puts what is held.
    pub fn put<K: Sink>(&mut self, sink: &mut K) -> Result<(), SinkFault>
        ensures put { Puts result (K.stream sink.old) (K.stream sink.new) self.old.octets.items }
        ensures none_left { OnOk result (self.new.octets.items ≡ []) }
    {
        sink.put(self.octets.as_slice())?;
        self.octets.clear();
        Ok(())
    }

    /// Adds the parts, one after the other.
    pub fn add_all<K: Sink>(&mut self, sink: &mut K, parts: &[&[u8]]) -> Result<(), SinkFault>
        ensures { Gathers result (K.stream sink.old) (K.stream sink.new) self.old.octets.items
            self.new.octets.items (flat_map (λ part. part.now) parts.now) }
    {
        for part in parts {
            self.add(sink, part)?;
        }
        Ok(())
    }
}
