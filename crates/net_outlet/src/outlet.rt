// What an event puts, and what its connection's transport takes of it at once.
ghost use Rattle.std.specs.Prelude.{◌≡◌, ◌+◌, ◌<◌, ◌≤◌, ℕ, List, Option, [], None, length, true, false};
ghost use Rattle.net_outlet.specs.OutletCalls.{Call};
ghost use Rattle.net_outlet.specs.Outlets.{Follow, HasTakenOctets, IsStuck, MakesSendings, gives_up, leave_tries, tries_after};
ghost use Rattle.net_outlet.specs.Queues.{QueueCounts, counts_of, waiting};

use crate::calls::{Sent, sent_by};
use crate::queue::Queue;
use crate::trail::Trail;
use crate::transport::Transport;
use dict_proto::{Sink, SinkFault};
use std::marker::{Brand, PhantomData};
use std::thread::yield_now;

// How often within one event a transport is asked in vain to take what waits, and then once more each time. A call takes a
// microsecond or less.
const MAX_TRIES: u16 = 4_096;

// After how many of them another thread may run.
const PAUSED_TRIES: u16 = 64;

// Lets another thread run, after some of the tries of which so many are left.
fn pause(tries: u16) {
    if tries % PAUSED_TRIES == 0 {
        yield_now();
    }
}

// Whether an event gives up after a sending that came to this, where so many more might have been made in vain.
fn gives_up(tries: u16, sent: Sent) -> bool
    ensures { result ≡ gives_up tries sent }
{
    match sent {
        Sent::Some => false,
        Sent::Failed => true,
        Sent::Nothing | Sent::Interrupted => tries == 0,
    }
}

// How many more may be made in vain after it.
fn tries_after(tries: u16, sent: Sent) -> u16
    ensures { result ≡ tries_after tries sent }
{
    match sent {
        Sent::Some => tries,
        Sent::Nothing | Sent::Interrupted | Sent::Failed => tries.saturating_sub(1),
    }
}

/// What is known of a transport as an event begins.
pub trait Beginning {
    /// The octets that it took for the peer so far.
    ghost taken: { Option (List ℕ) };

    /// The octets of the peer that it will give.
    ghost coming: { Option (List ℕ) };

    /// The calls that were made of it.
    ghost made: { Option (List Call) };

    /// How many calls of `put` failed before, and how many octets found no room.
    ghost counts: { QueueCounts };
}

impl Beginning for Brand {
    ghost taken = { None };

    ghost coming = { None };

    ghost made = { None };

    ghost counts = { record { failures = 0; refused = 0 } };
}

/// Where one event puts its octets: they wait in a queue, and where it is full the transport is asked to take them, some
/// thousand times where it takes none, unless it fails. Once a call of `put` failed, each later one of the event does.
#[derive(Drop)]
pub struct Outlet<T: Transport, B: Beginning> {
    queue: Queue,
    transport: T,
    // What the transport took since the event began.
    taken: Trail,
    // How often more it may be asked in vain before the event gives up.
    tries: u16,
    // A call of `put` failed since the event began.
    has_failed: bool,
    of: PhantomData<B>,
    ghost takes: { HasTakenOctets B.taken (T.taken transport) taken.octets },
    ghost keeps: { HasTakenOctets B.coming (T.coming transport) [] },
    ghost makes: { MakesSendings B.made (T.made transport) },
    ghost asks: { has_failed ≡ false → Follow (leave_tries tries) B.made (T.made transport) },
    ghost stuck: { has_failed ≡ true → IsStuck B.made (T.made transport) B.counts.refused queue },
    ghost counts: { has_failed ≡ false → queue.failures ≡ B.counts.failures },
    ghost room: { has_failed ≡ false → length queue.refused.octets ≡ B.counts.refused },
    ghost lazy: { length taken.octets + length (waiting queue) < 1048576 → (taken.octets ≡ []) × (T.made transport ≡ B.made) },
}

impl<T: Transport, B: Beginning> Outlet<T, B> {
    ghost use Rattle.std.specs.Prelude.{◌++◌, ◌∷◌, ◌⊎◌, ◌^◌, ◌-◌, MatchResult, OnOk, OnErr, not};
    ghost use Rattle.net_outlet.specs.OutletCalls.{MakesCalls, is_vain, sends};
    ghost use Rattle.net_outlet.specs.Outlets.{carried, PutsSome};

    /// An event begins.
    pub fn new(queue: Queue, transport: T) -> Self
        requires taken { B.taken ≡ T.taken transport }
        requires coming { B.coming ≡ T.coming transport }
        requires made { B.made ≡ T.made transport }
        requires counts { B.counts ≡ counts_of queue }
        ensures queue { result.queue ≡ queue }
        ensures transport { result.transport ≡ transport }
        ensures taken { result.taken.octets ≡ [] }
    {
        Outlet {
            queue,
            transport,
            taken: Trail::new(),
            tries: MAX_TRIES,
            has_failed: false,
            of: PhantomData,
        }
    }

    /// The event is over, and was answered so: the answer, and what is given back.
    pub fn over<A>(self, answer: A) -> (A, Queue, T)
        ensures answer { result.0 ≡ answer }
        ensures queue { result.1 ≡ self.queue }
        ensures transport { result.2 ≡ self.transport }
    {
        let Outlet {
            queue,
            transport,
            taken: _,
            tries: _,
            has_failed: _,
            of: _,
        } = self;
        (answer, queue, transport)
    }

    // Has all of the octets wait, or be taken at once, or where no more may wait a front of them.
    fn put_all(&mut self, bytes: &[u8]) -> Result<(), SinkFault>
        requires { self.old.has_failed ≡ false }
        ensures all { OnOk result (carried self.new.taken self.new.queue ≡ carried self.old.taken self.old.queue ++ bytes.now) }
        ensures some { OnErr result (PutsSome bytes.now self.old.taken self.old.queue self.new.taken self.new.queue) }
        ensures stuck { OnErr result (IsStuck B.made (T.made self.new.transport) B.counts.refused self.new.queue) }
        ensures well { OnOk result (self.new.has_failed ≡ false) }
        ensures failures { self.new.queue.failures ≡ self.old.queue.failures }
    {
        let mut rest = bytes;
        while rest.len() > self.queue.room() {
            let (now, later) = rest.split_at(self.queue.room());
            self.append(now)?;
            rest = later;
            if !self.send() {
                return Err(SinkFault);
            }
        }
        self.append(rest)
    }

    // Has all of the octets wait. Where memory is short none of them does, and the event puts no more.
    fn append(&mut self, bytes: &[u8]) -> Result<(), SinkFault>
        requires fits { length (waiting self.old.queue) + length bytes.now ≤ 1048576 }
        requires well { self.old.has_failed ≡ false }
        ensures all { OnOk result (waiting self.new.queue ≡ waiting self.old.queue ++ bytes.now) }
        ensures none { OnErr result (waiting self.new.queue ≡ waiting self.old.queue) }
        ensures taken { self.new.taken ≡ self.old.taken }
        ensures failed { MatchResult result (λ _. self.new.has_failed ≡ false) (λ _. self.new.has_failed ≡ true) }
        ensures failures { self.new.queue.failures ≡ self.old.queue.failures }
    {
        match self.queue.append(bytes) {
            Ok(()) => Ok(()),
            Err(fault) => {
                self.has_failed = true;
                Err(fault)
            }
        }
    }

    // Asks the transport to take what waits, and where it takes none again, as often as it may be asked in vain within an event: a
    // peer that reads at once is given the time to. One that failed isn't asked again. Whether it took any.
    fn send(&mut self) -> bool
        requires full { length (waiting self.old.queue) ≡ 1048576 }
        requires well { self.old.has_failed ≡ false }
        ensures carried { carried self.new.taken self.new.queue ≡ carried self.old.taken self.old.queue }
        ensures took { result ≡ true → length (waiting self.new.queue) < 1048576 }
        ensures none { result ≡ false → waiting self.new.queue ≡ waiting self.old.queue }
        ensures failed { self.new.has_failed ≡ not result }
        ensures failures { self.new.queue.failures ≡ self.old.queue.failures }
    {
        while self.tries > 0 {
            match self.send_once() {
                Sent::Some => return true,
                Sent::Failed => return false,
                Sent::Nothing | Sent::Interrupted => {}
            }
            pause(self.tries);
        }
        let last = self.send_once();
        !last.is_vain()
    }

    // Asks the transport once to take what waits, and notes whether the event gives up.
    fn send_once(&mut self) -> Sent
        requires full { length (waiting self.old.queue) ≡ 1048576 }
        requires well { self.old.has_failed ≡ false }
        ensures tries { self.new.tries ≡ tries_after self.old.tries result }
        ensures carried { carried self.new.taken self.new.queue ≡ carried self.old.taken self.old.queue }
        ensures took { is_vain result ≡ false → length (waiting self.new.queue) < 1048576 }
        ensures none { is_vain result ≡ true → waiting self.new.queue ≡ waiting self.old.queue }
        ensures failed { self.new.has_failed ≡ gives_up self.old.tries result }
        ensures refused { self.new.queue.refused ≡ self.old.queue.refused }
        ensures made { MakesCalls (T.made self.old.transport) (T.made self.new.transport) (sends 1048576 result ∷ []) }
        ensures failures { self.new.queue.failures ≡ self.old.queue.failures }
    {
        let octets = self.queue.as_slice();
        let outcome = self.transport.send(octets);
        let sent = sent_by(&outcome);
        self.has_failed = gives_up(self.tries, sent);
        self.tries = tries_after(self.tries, sent);
        if let Ok(count) = outcome {
            self.taken.note(octets.split_at(count).0);
            self.queue.pass(count);
        }
        sent
    }
}

impl<T: Transport, B: Beginning> Sink for Outlet<T, B> {
    ghost use Rattle.std.specs.Prelude.{◌^◌, ◌-◌, ◌⊎◌, IsErr, OnErr};
    ghost use Rattle.std.specs.Io.KnownBytes.{Appends};
    ghost use Rattle.dict_proto.specs.Streams.{Puts};
    ghost use Rattle.net_outlet.specs.Outlets.{PutsSome, stream_through};

    ghost stream = { λ outlet. stream_through outlet.taken outlet.queue };

    /// All of the octets wait then, or were taken at once. Where it fails a front of them was put: no more may wait, and the
    /// transport was asked last and took none; or memory is short; or it failed before in this event, or too often.
    fn put(&mut self, bytes: &[u8]) -> Result<(), SinkFault>
        ensures put { Puts result (stream_through self.old.taken self.old.queue) (stream_through self.new.taken self.new.queue) bytes.now }
        ensures worn_out { self.old.queue.failures ≡ 2 ^ 64 - 1
            → IsErr result × Appends (stream_through self.old.taken self.old.queue).octets (stream_through self.new.taken self.new.queue).octets [] }
        ensures some { OnErr result ((self.old.queue.failures ≡ 2 ^ 64 - 1) ⊎ PutsSome bytes.now self.old.taken self.old.queue self.new.taken self.new.queue) }
        ensures stuck { OnErr result ((self.old.queue.failures ≡ 2 ^ 64 - 1) ⊎ IsStuck B.made (T.made self.new.transport) B.counts.refused self.new.queue) }
        ensures again { self.old.has_failed ≡ true
            → IsErr result × Appends (stream_through self.old.taken self.old.queue).octets (stream_through self.new.taken self.new.queue).octets [] }
    {
        if self.queue.failures() == u64::MAX {
            return Err(SinkFault);
        }
        if self.has_failed {
            self.queue.note_failure();
            return Err(SinkFault);
        }
        match self.put_all(bytes) {
            Ok(()) => Ok(()),
            Err(fault) => {
                self.has_failed = true;
                self.queue.note_failure();
                Err(fault)
            }
        }
    }
}
