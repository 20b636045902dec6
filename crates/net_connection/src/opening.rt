// What takes memory where a connection is opened, and where octets come on it.
ghost use Rattle.std.specs.Prelude.{◌≡◌, ◌≤◌, ℕ, List, [], Option, None, Some, IfErr, IfOk, OnErr, true, MatchResult, vec_capacity};
ghost use Rattle.dict_catalogue.specs.Steps.{Catalogue};
ghost use Rattle.dict_session.specs.Desks.{condition};
ghost use Rattle.dict_proto.specs.Streams.{change};
ghost use Rattle.net_hub.specs.Events.{came, IsQuiet};
ghost use Rattle.net_hub.specs.Holding.{Holding};
ghost use Rattle.net_hub.specs.Hubs.{HasHolding};
ghost use Rattle.net_hub.specs.Runs.{State, Standing, Accepted, IsAt, Leads, LeadsOn};
ghost use Rattle.net_connection.specs.Causes.{AreCaused};
ghost use Rattle.net_connection.specs.Leading.{HasLedOn};
ghost use Rattle.net_connection.specs.Opening.{IsCause, IsToldOpening};
ghost use Rattle.net_connection.specs.Telling.{KeepsEach, KeepsOthers, MayRefuse};
ghost use Rattle.net_hub.specs.declared.fault.HubFault.{HubFault};
ghost use Rattle.net_hub.specs.declared.hub.Hub.{Hub};
ghost use Rattle.net_hub.specs.declared.kind.Kind.{Kind};

use dict_desk::Preparer;
use dict_proto::Sink;
use net_hub::{Event, Hub, HubFault, Kind, Out};
use net_outlet::Queue;
use std::alloc::{AllocError, Global};

/// What takes memory where a connection is opened, and where octets come on it: room for what is read of it, its place in the
/// hub, and room there for what an editor sends.
pub trait Opening {
    /// For this cause no connection of this id and kind was opened in the hub, as it was, or octets of it were refused: by the
    /// hub's fault, or where there is none since the room was refused.
    ghost refuses: { Hub → ℕ → Kind → Option HubFault → Type 0 };

    /// Room for what is read of a connection that is to be opened in this hub, by this id and of this kind.
    fn room(&self, alloc: Global, hub: &Hub, id: u64, kind: Kind) -> Result<Vec<u8>, AllocError>
        ensures { MatchResult result (λ octets. (octets.items ≡ []) × (65536 ≤ vec_capacity octets)) (λ _. refuses hub.now id kind None) };

    /// Tells the hub of a connection, whose greeting waits in its queue then.
    fn greet<K: Preparer>(
        &self,
        hub: &mut Hub,
        desk: &mut K,
        id: u64,
        kind: Kind,
        queue: &mut Queue,
    ) -> Result<Out, HubFault>
        ensures led { HasLedOn (K.is_trusted desk.new) (K.shows desk.old) (K.leaves_one_of desk.old) (K.shows desk.new) (K.leaves_one_of desk.new) hub.old hub.new
            (λ events. IsToldOpening id kind hub.new result queue.old queue.new events × AreCaused (condition K.has_failed K.is_closed desk.new) queue.old queue.new events) }
        ensures trust { K.is_trusted desk.new → K.is_trusted desk.old }
        ensures beside { (beside : K.Beside) → K.keeps_beside desk.old beside → K.keeps_beside desk.new beside }
        ensures others { KeepsOthers id hub.old hub.new }
        ensures unasked { desk.new ≡ desk.old }
        ensures cause { IfErr result (λ fault. IsCause hub.old id (Some fault) × KeepsEach hub.old hub.new) }
        ensures refused { IfErr result (λ fault. refuses hub.old id kind (Some fault)) };

    /// Hands octets that came on a connection to the hub.
    fn hand<K: Preparer, S: Sink>(
        &self,
        hub: &mut Hub,
        desk: &mut K,
        id: u64,
        kind: Kind,
        piece: &[u8],
        sink: &mut S,
    ) -> Result<Out, HubFault>
        ensures leads { K.is_trusted desk.new → (origin : State) (start : Standing) (events : List Accepted) (state : State) (stands : Standing) → Leads origin start events state stands
            → IsAt hub.old state → K.shows desk.old stands.catalogue → K.leaves_one_of desk.old stands.leaves
            → IfOk result (λ out. LeadsOn (K.shows desk.new) (K.leaves_one_of desk.new) origin start events state stands (came id piece.now) out (condition K.has_failed K.is_closed desk.new) (change S.stream sink.old sink.new) hub.new) }
        ensures trust { K.is_trusted desk.new → K.is_trusted desk.old }
        ensures beside { (beside : K.Beside) → K.keeps_beside desk.old beside → K.keeps_beside desk.new beside }
        ensures closed { K.is_closed desk.old ≡ true → K.is_closed desk.new ≡ true }
        ensures others { KeepsOthers id hub.old hub.new }
        ensures quiet { K.is_trusted desk.new → (M : Catalogue) → K.shows desk.old M → (held : Option Holding) → HasHolding hub.old id held → IsQuiet M held (came id piece.now) → desk.new ≡ desk.old }
        ensures state { OnErr result ((state : State) → IsAt hub.old state → IsAt hub.new state) }
        ensures desk { OnErr result (desk.new ≡ desk.old) }
        ensures sink { OnErr result (sink.new ≡ sink.old) }
        ensures cause { IfErr result (MayRefuse hub.old id) }
        ensures refused { IfErr result (λ fault. refuses hub.old id kind (Some fault)) };
}

/// Tells a hub of a connection, whose greeting waits in its queue then.
pub fn greet_by_hub<K: Preparer>(
    hub: &mut Hub,
    desk: &mut K,
    id: u64,
    kind: Kind,
    queue: &mut Queue,
) -> Result<Out, HubFault>
    ensures led { HasLedOn (K.is_trusted desk.new) (K.shows desk.old) (K.leaves_one_of desk.old) (K.shows desk.new) (K.leaves_one_of desk.new) hub.old hub.new
        (λ events. IsToldOpening id kind hub.new result queue.old queue.new events × AreCaused (condition K.has_failed K.is_closed desk.new) queue.old queue.new events) }
    ensures trust { K.is_trusted desk.new → K.is_trusted desk.old }
    ensures beside { (beside : K.Beside) → K.keeps_beside desk.old beside → K.keeps_beside desk.new beside }
    ensures others { KeepsOthers id hub.old hub.new }
    ensures unasked { desk.new ≡ desk.old }
    ensures cause { IfErr result (λ fault. IsCause hub.old id (Some fault) × KeepsEach hub.old hub.new) }
{
    match hub.event(desk, Event::Opened(id, kind), queue) {
        Ok(out) => Ok(out),
        Err(fault) => Err(fault),
    }
}

/// Hands octets that came on a connection to a hub.
pub fn hand_by_hub<K: Preparer, S: Sink>(
    hub: &mut Hub,
    desk: &mut K,
    id: u64,
    piece: &[u8],
    sink: &mut S,
) -> Result<Out, HubFault>
    ensures leads { K.is_trusted desk.new → (origin : State) (start : Standing) (events : List Accepted) (state : State) (stands : Standing) → Leads origin start events state stands
        → IsAt hub.old state → K.shows desk.old stands.catalogue → K.leaves_one_of desk.old stands.leaves
        → IfOk result (λ out. LeadsOn (K.shows desk.new) (K.leaves_one_of desk.new) origin start events state stands (came id piece.now) out (condition K.has_failed K.is_closed desk.new) (change S.stream sink.old sink.new) hub.new) }
    ensures trust { K.is_trusted desk.new → K.is_trusted desk.old }
    ensures beside { (beside : K.Beside) → K.keeps_beside desk.old beside → K.keeps_beside desk.new beside }
    ensures closed { K.is_closed desk.old ≡ true → K.is_closed desk.new ≡ true }
    ensures others { KeepsOthers id hub.old hub.new }
    ensures quiet { K.is_trusted desk.new → (M : Catalogue) → K.shows desk.old M → (held : Option Holding) → HasHolding hub.old id held → IsQuiet M held (came id piece.now) → desk.new ≡ desk.old }
    ensures state { OnErr result ((state : State) → IsAt hub.old state → IsAt hub.new state) }
    ensures desk { OnErr result (desk.new ≡ desk.old) }
    ensures sink { OnErr result (sink.new ≡ sink.old) }
    ensures cause { IfErr result (MayRefuse hub.old id) }
{
    hub.event(desk, Event::Bytes(id, piece), sink)
}
