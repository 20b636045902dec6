// The octets that a peer has still to take.
ghost use Rattle.std.specs.Prelude.{◌≡◌, ◌+◌, ◌≤◌, ◌==◌, [], length, vec_len};
ghost use Rattle.std.specs.Io.KnownBytes.{Keeps};

use crate::trail::Trail;
use crate::transport::Transport;
use dict_proto::{Sink, SinkFault};
use std::alloc::Global;
use std::{io, mem};

/// The most octets that wait for one peer.
pub const MAX_WAITING: usize = 1_048_576;

// A queue that is empty keeps room for this many octets.
const KEPT_ROOM: usize = 16_384;

/// The octets that were put for a peer and that its transport has not taken, in order: at most `MAX_WAITING`. Its room is
/// that of as many octets at most.
#[derive(Drop)]
pub struct Queue {
    alloc: Global,
    octets: Vec<u8>,
    // How many of them were sent.
    sent: usize,
    failures: u64,
    // Those that found no room since memory was short.
    refused: Trail,
    ghost in_front: { sent ≤ vec_len octets },
    ghost within: { vec_len octets ≤ 1048576 },
}

impl Queue {
    ghost use Rattle.std.specs.Prelude.{◌∷◌, ◌<◌, ◌⊎◌, ◌++◌, ◌-◌, ◌^◌, IsErr, MatchResult, drop, OnErr, OnOk, vec_capacity, min};
    ghost use Rattle.net_outlet.specs.OutletCalls.{MakesCalls, sends, sent_by};
    ghost use Rattle.net_outlet.specs.Queues.{waiting, FindNoRoom, Sends};

    /// A queue in which nothing waits and no call failed.
    pub fn new(alloc: Global) -> Self
        ensures waits { waiting result ≡ [] }
        ensures failures { result.failures ≡ 0 }
        ensures refused { result.refused.octets ≡ [] }
    {
        Queue {
            alloc,
            octets: Vec::new(alloc),
            sent: 0,
            failures: 0,
            refused: Trail::new(),
        }
    }

    /// Takes out all that it holds.
    pub fn take(&mut self) -> Queue
        ensures { result ≡ self.old }
    {
        let none = Queue::new(self.alloc);
        mem::replace(self, none)
    }

    /// How many octets wait.
    pub fn len(&self) -> usize
        ensures count { result ≡ length (waiting self.now) }
        ensures most { result ≤ 1048576 }
    {
        self.octets.len() - self.sent
    }

    /// How many more octets may wait.
    pub fn room(&self) -> usize
        ensures { result + length (waiting self.now) ≡ 1048576 }
    {
        MAX_WAITING - self.len()
    }

    /// For how many octets it has room.
    pub fn capacity(&self) -> usize
        ensures { result ≡ vec_capacity self.now.octets }
    {
        self.octets.capacity()
    }

    /// Whether no octet waits.
    pub fn is_empty(&self) -> bool
        ensures { result ≡ (length (waiting self.now) == 0) }
    {
        self.len() == 0
    }

    /// How many calls of `put` failed.
    pub fn failures(&self) -> u64
        ensures { result ≡ self.now.failures }
    {
        self.failures
    }

    /// Notes that a call failed. After 18,446,744,073,709,551,615 the count stays there.
    pub fn note_failure(&mut self)
        ensures octets { self.new.octets ≡ self.old.octets }
        ensures sent { self.new.sent ≡ self.old.sent }
        ensures failures { self.new.failures ≡ min (self.old.failures + 1) (2 ^ 64 - 1) }
        ensures refused { self.new.refused ≡ self.old.refused }
    {
        self.failures = self.failures.saturating_add(1);
    }

    /// Hands all that waits to the transport, by one call of it, and tells how many octets it took.
    pub fn send<T: Transport>(&mut self, transport: &mut T) -> io::Result<usize>
        ensures sends { Sends result self.old self.new (T.taken transport.old) (T.taken transport.new) }
        ensures failures { self.new.failures ≡ self.old.failures }
        ensures refused { self.new.refused ≡ self.old.refused }
        ensures coming { Keeps (T.coming transport.old) (T.coming transport.new) }
        ensures made { MakesCalls (T.made transport.old) (T.made transport.new) (sends (length (waiting self.old)) (sent_by result) ∷ []) }
    {
        let count = transport.send(self.as_slice())?;
        self.pass(count);
        Ok(count)
    }

    /// Lets so many octets go that were sent.
    pub fn pass(&mut self, count: usize)
        requires { count ≤ length (waiting self.old) }
        ensures waits { waiting self.new ≡ drop count (waiting self.old) }
        ensures failures { self.new.failures ≡ self.old.failures }
        ensures refused { self.new.refused ≡ self.old.refused }
    {
        self.sent += count;
        self.let_go();
    }

    /// The octets that wait.
    pub fn as_slice(&self) -> &[u8]
        ensures { result.now ≡ waiting self.now }
    {
        self.octets.as_slice().split_at(self.sent).1
    }

    /// Has all of the octets wait, or where more than `MAX_WAITING` would or memory is short none of them.
    pub fn append(&mut self, bytes: &[u8]) -> Result<(), SinkFault>
        ensures all { OnOk result (waiting self.new ≡ waiting self.old ++ bytes.now) }
        ensures none { OnErr result (waiting self.new ≡ waiting self.old) }
        ensures bound { 1048576 < length (waiting self.old) + length bytes.now → IsErr result }
        ensures refuses { OnErr result ((1048576 < length (waiting self.old) + length bytes.now) ⊎ (vec_capacity self.old.octets < vec_len self.old.octets + length bytes.now)) }
        ensures memory { OnErr result ((1048576 < length (waiting self.old) + length bytes.now) ⊎ (vec_capacity self.new.octets < 1048576)) }
        ensures failures { self.new.failures ≡ self.old.failures }
        ensures room { MatchResult result (λ _. self.new.refused ≡ self.old.refused) (λ _. FindNoRoom self.old self.new bytes.now) }
    {
        if bytes.len() > self.room() {
            return Err(SinkFault);
        }
        if bytes.len() > MAX_WAITING - self.octets.len() {
            self.compact();
        }
        self.reserve(bytes)?;
        match self.octets.extend_from_slice(bytes) {
            Ok(()) => Ok(()),
            Err(_) => Err(SinkFault),
        }
    }

    // Takes room for these octets too. It is doubled, up to that of `MAX_WAITING`.
    fn reserve(&mut self, bytes: &[u8]) -> Result<(), SinkFault>
        requires { vec_len self.old.octets + length bytes.now ≤ 1048576 }
        ensures octets { self.new.octets.items ≡ self.old.octets.items }
        ensures sent { self.new.sent ≡ self.old.sent }
        ensures holds { OnOk result (vec_len self.new.octets + length bytes.now ≤ vec_capacity self.new.octets) }
        ensures refuses { OnErr result (vec_capacity self.old.octets < vec_len self.old.octets + length bytes.now) }
        ensures capacity { OnErr result (vec_capacity self.new.octets ≡ vec_capacity self.old.octets) }
        ensures failures { self.new.failures ≡ self.old.failures }
        ensures room { MatchResult result (λ _. self.new.refused ≡ self.old.refused) (λ _. self.new.refused.octets ≡ self.old.refused.octets ++ bytes.now) }
    {
        let count = bytes.len();
        if count <= self.octets.capacity() - self.octets.len() {
            return Ok(());
        }
        let doubled = self.octets.len().min(MAX_WAITING - self.octets.len());
        match self.octets.reserve_exact(count.max(doubled)) {
            Ok(()) => Ok(()),
            Err(_) => {
                self.refused.note(bytes);
                Err(SinkFault)
            }
        }
    }

    // Moves what waits to the front of the room.
    fn compact(&mut self)
        ensures waits { waiting self.new ≡ waiting self.old }
        ensures sent { self.new.sent ≡ 0 }
        ensures len { vec_len self.new.octets ≤ vec_len self.old.octets }
        ensures capacity { vec_capacity self.new.octets ≡ vec_capacity self.old.octets }
        ensures failures { self.new.failures ≡ self.old.failures }
        ensures refused { self.new.refused ≡ self.old.refused }
    {
        let count = self.len();
        self.octets.rotate_left(self.sent);
        self.sent = 0;
        self.octets.truncate(count);
    }

    // Where all is sent, the octets are let go, and large room with them.
    fn let_go(&mut self)
        ensures waits { waiting self.new ≡ waiting self.old }
        ensures failures { self.new.failures ≡ self.old.failures }
        ensures refused { self.new.refused ≡ self.old.refused }
    {
        if self.sent < self.octets.len() {
            return;
        }
        if self.octets.capacity() > KEPT_ROOM {
            self.octets = Vec::new(self.alloc);
        }
        self.octets.clear();
        self.sent = 0;
    }
}

impl Sink for Queue {
    ghost use Rattle.std.specs.Prelude.{◌<◌, ◌⊎◌, ◌^◌, ◌-◌, IsErr, MatchResult, OnErr, vec_capacity};
    ghost use Rattle.std.specs.Io.KnownBytes.{Appends};
    ghost use Rattle.dict_proto.specs.Streams.{Puts};
    ghost use Rattle.net_outlet.specs.Queues.{FindNoRoom, TakesOctets, queue_stream, waiting};

    ghost stream = { queue_stream };

    /// All of the octets wait then, or where it fails none of them: more than `MAX_WAITING` would wait, memory is short,
    /// or it failed too often before.
    fn put(&mut self, bytes: &[u8]) -> Result<(), SinkFault>
        ensures put { Puts result (queue_stream self.old) (queue_stream self.new) bytes.now }
        ensures worn_out { (queue_stream self.old).failures ≡ 2 ^ 64 - 1
            → IsErr result × Appends (queue_stream self.old).octets (queue_stream self.new).octets [] }
        ensures takes { TakesOctets result self.old self.new bytes.now }
        ensures bound { 1048576 < length (waiting self.old) + length bytes.now → IsErr result }
        ensures refuses { OnErr result ((self.old.failures ≡ 2 ^ 64 - 1) ⊎ ((1048576 < length (waiting self.old) + length bytes.now)
            ⊎ (vec_capacity self.old.octets < vec_len self.old.octets + length bytes.now))) }
        ensures room { MatchResult result (λ _. self.new.refused ≡ self.old.refused)
            (λ _. ((self.old.failures ≡ 2 ^ 64 - 1) × (self.new.refused ≡ self.old.refused)) ⊎ FindNoRoom self.old self.new bytes.now) }
    {
        if self.failures == u64::MAX {
            return Err(SinkFault);
        }
        match self.append(bytes) {
            Ok(()) => Ok(()),
            Err(fault) => {
                self.failures += 1;
                Err(fault)
            }
        }
    }
}
