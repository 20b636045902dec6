// What the hub keeps of one connection.
ghost use Rattle.std.specs.Prelude.{◌≡◌, ◌++◌, ◌≤◌, ℕ, false, true, length, List, Option, Ok, IfOk, IfErr, OnErr};
ghost use Rattle.dict_catalogue.specs.Steps.{Catalogue};
ghost use Rattle.dict_session.specs.Desks.{condition};
ghost use Rattle.net_hub.specs.Holding.{Holding, just_opened, left_by};
ghost use Rattle.http_service.specs.Foreseeing.{IsToldAnew, AsksAnewForChange, AsksForChange};
ghost use Rattle.net_hub.specs.Foreseen.{IsForeseen, MakesCommand};
ghost use Rattle.net_hub.specs.Given.{Greets, Gets, GetsThrough, LookNothingUp};
ghost use Rattle.net_hub.specs.declared.kind.Kind.TheVariants.{Http};
ghost use Rattle.net_hub.specs.declared.incoming.Out.TheVariants as outs;
ghost use Rattle.net_hub.specs.declared.fault.HubFault.TheVariants.{Memory};

use crate::fault::HubFault;
use crate::incoming::{Incoming, Out};
use crate::kind::Kind;
use dict_desk::Preparer;
use dict_proto::Sink;
use dict_session::{Session, Step};
use http_service::Service;
use std::alloc::{AllocError, Global};

/// A reader's session, or the octets of an editor's request that have come.
#[derive(Drop)]
pub enum Exchange<'h> {
    Reader(Session<'h>),
    Editor(Incoming),
}

// A session that has ended closes its connection.
fn out_of(step: Step) -> Out
    ensures more { result ≡ outs.More → step ≡ Step.More }
    ensures close { step ≡ Step.More → result ≡ outs.More }
{
    match step {
        Step::More => Out::More,
        _ => Out::Close,
    }
}

impl<'h> Exchange<'h> {
    ghost use Rattle.net_hub.specs.Lines.{HoldsExchange, HoldsIfOpen};

    /// A connection of this id on which nothing has come.
    pub fn new(
        alloc: Global,
        host: &'h str,
        id: u64,
        kind: Kind,
    ) -> Result<Exchange<'h>, AllocError>
        ensures { IfOk result (λ line. HoldsExchange host.now id line (just_opened kind)) }
    {
        match kind {
            Kind::Dict => Ok(Exchange::Reader(Session::new(alloc, host, id)?)),
            Kind::Http => Ok(Exchange::Editor(Incoming::new(alloc)?)),
        }
    }

    /// Greets a reader.
    pub fn greet<S: Sink>(&mut self, sink: &mut S) -> Out
        ensures greets { (host : List ℕ) (id : ℕ) (held : Holding) → HoldsExchange host id self.old held
            → Greets host id held.kind result (S.stream sink.old) (S.stream sink.new) }
        ensures holds { (host : List ℕ) (id : ℕ) (held : Holding) → HoldsExchange host id self.old held → result ≡ outs.More → HoldsExchange host id self.new held }
    {
        match self {
            Exchange::Reader(session) => out_of(session.greet(sink)),
            Exchange::Editor(_) => Out::More,
        }
    }

    /// Takes the next piece of what came, and answers what it makes whole. Where a growth is refused nothing has changed.
    pub fn take<K: Preparer, S: Sink>(
        &mut self,
        service: &Service,
        alloc: Global,
        piece: &[u8],
        desk: &mut K,
        sink: &mut S,
    ) -> Result<Out, HubFault>
        ensures gets { K.is_trusted desk.new → (M : Catalogue) → K.shows desk.old M → (host : List ℕ) (id : ℕ) (held : Holding) → HoldsExchange host id self.old held
            → IfOk result (λ out. Gets host (condition K.has_failed K.is_closed desk.new) (K.shows desk.new) (K.leaves_one_of desk.old) (K.leaves_one_of desk.new) M held.kind (held.octets ++ piece.now) out (S.stream sink.old) (S.stream sink.new)) }
        ensures through { K.is_trusted desk.new → (M : Catalogue) → K.shows desk.old M → (host : List ℕ) (id : ℕ) (held : Holding) → HoldsExchange host id self.old held
            → IfOk result (λ out. GetsThrough host M (K.is_closed desk.old) (condition K.has_failed K.is_closed desk.new) held.kind (held.octets ++ piece.now) out (S.stream sink.old) (S.stream sink.new)) }
        ensures quiet { K.is_trusted desk.new → (M : Catalogue) → K.shows desk.old M → (host : List ℕ) (id : ℕ) (held : Holding) → HoldsExchange host id self.old held
            → LookNothingUp M held.kind (held.octets ++ piece.now) → desk.new ≡ desk.old }
        ensures left { K.is_trusted desk.new → (M : Catalogue) → K.shows desk.old M → (host : List ℕ) (id : ℕ) (held : Holding) → HoldsExchange host id self.old held
            → IfOk result (λ out. HoldsIfOpen host id self.new (left_by held.kind (held.octets ++ piece.now) out)) }
        ensures trust { K.is_trusted desk.new → K.is_trusted desk.old }
        ensures beside { (beside : K.Beside) → K.keeps_beside desk.old beside → K.keeps_beside desk.new beside }
        ensures closed { K.is_closed desk.old ≡ true → K.is_closed desk.new ≡ true }
        ensures memory { IfErr result (λ fault. fault ≡ Memory) }
        ensures editor { (host : List ℕ) (id : ℕ) (held : Holding) → HoldsExchange host id self.old held → IfErr result (λ fault. held.kind ≡ Http) }
        ensures held { OnErr result ((host : List ℕ) (id : ℕ) (held : Holding) → HoldsExchange host id self.old held → HoldsExchange host id self.new held) }
        ensures desk { OnErr result (desk.new ≡ desk.old) }
        ensures sink { OnErr result (sink.new ≡ sink.old) }
    {
        match self {
            Exchange::Reader(session) => Ok(out_of(session.feed(alloc, piece, desk, sink))),
            Exchange::Editor(incoming) => incoming.take(service, alloc, piece, desk, sink),
        }
    }

    /// Whether this piece makes an editor's request whole that changes, and the desk was told of it. Nothing of
    /// what is held changes.
    pub fn foresee<K: Preparer>(
        &mut self,
        service: &Service,
        alloc: Global,
        piece: &[u8],
        desk: &mut K,
    ) -> bool
        ensures holds { (host : List ℕ) (id : ℕ) (held : Holding) → HoldsExchange host id self.old held → HoldsExchange host id self.new held }
        ensures foreseen { result ≡ true → (host : List ℕ) (id : ℕ) (held : Holding) → HoldsExchange host id self.old held → IsForeseen (IsToldAnew K.shows K.leaves_one_of K.keeps_beside K.is_trusted K.has_failed K.is_closed K.expects) AsksForChange held piece.now desk.old desk.new }
        ensures anew { result ≡ true → K.is_trusted desk.new → (M : Catalogue) → K.shows desk.old M → (host : List ℕ) (id : ℕ) (held : Holding) → HoldsExchange host id self.old held → IsForeseen (IsToldAnew K.shows K.leaves_one_of K.keeps_beside K.is_trusted K.has_failed K.is_closed K.expects) (AsksAnewForChange M) held piece.now desk.old desk.new }
        ensures trust { K.is_trusted desk.new → K.is_trusted desk.old }
        ensures beside { (beside : K.Beside) → K.keeps_beside desk.old beside → K.keeps_beside desk.new beside }
        ensures closed { K.is_closed desk.old ≡ true → K.is_closed desk.new ≡ true }
        ensures shows { K.is_trusted desk.new → (M : Catalogue) → K.shows desk.old M → K.shows desk.new M }
        ensures leaves { (ms : List (Option Catalogue)) → K.leaves_one_of desk.old ms → K.leaves_one_of desk.new ms }
    {
        match self {
            Exchange::Reader(_) => false,
            Exchange::Editor(incoming) => incoming.foresee(service, alloc, piece, desk),
        }
    }

    /// Whether this piece makes an editor's request whole that changes the catalogue. Nothing of what is held changes.
    pub fn asks_change(&mut self, service: &Service, piece: &[u8]) -> bool
        requires { length piece.now ≤ 65536 }
        ensures holds { (host : List ℕ) (id : ℕ) (held : Holding) → HoldsExchange host id self.old held → HoldsExchange host id self.new held }
        ensures yes { result ≡ true → (host : List ℕ) (id : ℕ) (held : Holding) → HoldsExchange host id self.old held → MakesCommand held piece.now }
        ensures no { result ≡ false → (host : List ℕ) (id : ℕ) (held : Holding) → HoldsExchange host id self.old held → ¬ MakesCommand held piece.now }
    {
        match self {
            Exchange::Reader(..) => false,
            Exchange::Editor(incoming) => incoming.asks_change(service, piece),
        }
    }
}
