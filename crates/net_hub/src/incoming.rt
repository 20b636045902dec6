// The editors' half of a hub: one request a connection.
ghost use Rattle.std.specs.Prelude.{◌≡◌, ◌+◌, ◌++◌, ◌≤◌, [], false, true, length, List, Option, IfErr, IfOk, OnErr, vec_len, vec_capacity};
ghost use Rattle.dict_catalogue.specs.Steps.{Catalogue};
ghost use Rattle.http_service.specs.Foreseeing.{IsToldAnew, IsToldOver, AsksAnewForChange, AsksForChange, AsksForCommand};
ghost use Rattle.net_hub.specs.Asking.{Awaits, AnswersRequest, PutsUnavailable, IsAwaitedIn};
ghost use Rattle.net_hub.specs.declared.incoming.Out.TheVariants as outs;
ghost use Rattle.std.specs.Prelude.{Ok};
ghost use Rattle.net_hub.specs.declared.fault.HubFault.TheVariants.{Memory};

use crate::fault::HubFault;
use dict_desk::Preparer;
use dict_proto::Sink;
use http_request::{RequestReading, read_request};
use http_service::Service;
use std::alloc::{AllocError, Global};

/// The most octets of a piece of which it is told whether it makes a command whole. Room for so many is kept.
pub const MAX_ASKED: usize = 65_536;

/// What becomes of a connection after an event.
#[derive(Clone, Copy, Debug, PartialEq, Eq)]
pub enum Out {
    /// It stays open.
    More,
    /// It is closed once all that was put is sent, and is no longer open.
    Close,
}

/// The octets of an editor's request that have come. Once its head is whole it is known how many are awaited. There is room for 65,536
/// more.
#[derive(Drop)]
pub struct Incoming {
    octets: Vec<u8>,
    // How many octets head and body have, where the head was seen to be whole, and 0 before.
    awaited: usize,
    ghost room: { vec_len octets + 65536 ≤ vec_capacity octets },
}

impl Incoming {
    /// Nothing has come. Want of memory is the only error.
    pub fn new(alloc: Global) -> Result<Self, AllocError>
        ensures octets { IfOk result (λ incoming. incoming.octets.items ≡ []) }
        ensures awaited { IfOk result (λ incoming. IsAwaitedIn incoming.octets.items incoming.awaited) }
    {
        Ok(Incoming {
            octets: Vec::with_capacity(alloc, MAX_ASKED)?,
            awaited: 0,
        })
    }

    /// Takes the next piece of a request that an editor sends. While more octets are needed they are held; else the request,
    /// or what can't become one, is answered, and the connection closes, whatever stands behind it. Where a growth is
    /// refused nothing has changed.
    pub fn take<K: Preparer, S: Sink>(
        &mut self,
        service: &Service,
        alloc: Global,
        piece: &[u8],
        desk: &mut K,
        sink: &mut S,
    ) -> Result<Out, HubFault>
        ensures awaits { result ≡ Ok outs.More → IsAwaitedIn self.old.octets.items self.old.awaited → Awaits (self.old.octets.items ++ piece.now) self.new.octets.items (S.stream sink.old) (S.stream sink.new) }
        ensures awaited { IsAwaitedIn self.old.octets.items self.old.awaited → IsAwaitedIn self.new.octets.items self.new.awaited }
        ensures unasked { result ≡ Ok outs.More → desk.new ≡ desk.old }
        ensures answers { result ≡ Ok outs.Close → K.is_trusted desk.new → (M : Catalogue) → K.shows desk.old M
            → AnswersRequest (K.is_closed desk.new) (K.shows desk.new) (K.leaves_one_of desk.old) (K.leaves_one_of desk.new) M (self.old.octets.items ++ piece.now) (S.stream sink.old) (S.stream sink.new) }
        ensures shut { result ≡ Ok outs.Close → (M : Catalogue) → PutsUnavailable (K.is_closed desk.old) M (self.old.octets.items ++ piece.now) (S.stream sink.old) (S.stream sink.new) }
        ensures quiet { ¬ AsksForCommand (self.old.octets.items ++ piece.now) → desk.new ≡ desk.old }
        ensures trust { K.is_trusted desk.new → K.is_trusted desk.old }
        ensures beside { (beside : K.Beside) → K.keeps_beside desk.old beside → K.keeps_beside desk.new beside }
        ensures closed { K.is_closed desk.old ≡ true → K.is_closed desk.new ≡ true }
        ensures memory { IfErr result (λ fault. fault ≡ Memory) }
        ensures held { OnErr result (self.new.octets.items ≡ self.old.octets.items) }
        ensures desk { OnErr result (desk.new ≡ desk.old) }
        ensures sink { OnErr result (sink.new ≡ sink.old) }
    {
        if self
            .octets
            .reserve(piece.len().saturating_add(MAX_ASKED))
            .is_err()
        {
            return Err(HubFault::Memory);
        }
        if self.octets.extend_from_slice(piece).is_err() {
            return Err(HubFault::Memory);
        }
        if self.octets.len() < self.awaited {
            return Ok(Out::More);
        }
        if let RequestReading::More(awaited) = read_request(&self.octets) {
            self.awaited = awaited;
            return Ok(Out::More);
        }
        let answer = service.respond(alloc, &self.octets, desk);
        let _ = answer.put(sink);
        Ok(Out::Close)
    }

    /// Whether this piece, behind the octets that have come, makes a request whole that changes, and the desk was
    /// told of it and took note. The piece isn't held. Where memory is wanting the desk is told nothing.
    pub fn foresee<K: Preparer>(
        &mut self,
        service: &Service,
        alloc: Global,
        piece: &[u8],
        desk: &mut K,
    ) -> bool
        ensures octets { self.new.octets.items ≡ self.old.octets.items }
        ensures awaited { self.new.awaited ≡ self.old.awaited }
        ensures foreseen { result ≡ true → IsToldOver (IsToldAnew K.shows K.leaves_one_of K.keeps_beside K.is_trusted K.has_failed K.is_closed K.expects) (AsksForChange (self.old.octets.items ++ piece.now)) desk.old desk.new }
        ensures anew { result ≡ true → K.is_trusted desk.new → (M : Catalogue) → K.shows desk.old M → IsToldOver (IsToldAnew K.shows K.leaves_one_of K.keeps_beside K.is_trusted K.has_failed K.is_closed K.expects) (AsksAnewForChange M (self.old.octets.items ++ piece.now)) desk.old desk.new }
        ensures trust { K.is_trusted desk.new → K.is_trusted desk.old }
        ensures beside { (beside : K.Beside) → K.keeps_beside desk.old beside → K.keeps_beside desk.new beside }
        ensures closed { K.is_closed desk.old ≡ true → K.is_closed desk.new ≡ true }
        ensures shows { K.is_trusted desk.new → (M : Catalogue) → K.shows desk.old M → K.shows desk.new M }
        ensures leaves { (ms : List (Option Catalogue)) → K.leaves_one_of desk.old ms → K.leaves_one_of desk.new ms }
    {
        let held = self.octets.len();
        let count = held.saturating_add(piece.len());
        if count < self.awaited {
            return false;
        }
        let grown = self.octets.extend_from_slice(piece);
        if grown.is_err() {
            return false;
        }
        let is_foreseen = service.foresee(alloc, &self.octets, desk);
        self.octets.truncate(held);
        is_foreseen
    }

    /// Whether this piece, behind the octets that have come, makes a request whole that changes the catalogue. The piece isn't held.
    pub fn asks_change(&mut self, service: &Service, piece: &[u8]) -> bool
        requires { length piece.now ≤ 65536 }
        ensures octets { self.new.octets.items ≡ self.old.octets.items }
        ensures awaited { self.new.awaited ≡ self.old.awaited }
        ensures yes { result ≡ true → AsksForCommand (self.old.octets.items ++ piece.now) }
        ensures no { result ≡ false → ¬ AsksForCommand (self.old.octets.items ++ piece.now) }
    {
        let held = self.octets.len();
        let _ = self.octets.extend_from_slice(piece);
        let asks_change = service.asks_change(&self.octets);
        self.octets.truncate(held);
        asks_change
    }
}
