// The open connections of readers and editors.
ghost use Rattle.std.specs.Prelude.{◌≡◌, ◌≢◌, ◌-◌, ◌++◌, ◌<◌, ◌≤◌, ℕ, length, List, Option, [], ◌∷◌, true, false, None, Some, Ok, Err, IfOk, IfErr, OnOk, OnErr, vec_len, vec_capacity, remove};
ghost use Rattle.dict_catalogue.specs.Steps.{Catalogue};
ghost use Rattle.dict_session.specs.Desks.{condition};
ghost use Rattle.net_hub.specs.Books.{IsRefusal, opening};
ghost use Rattle.net_hub.specs.Holding.{Holding, left_by};
ghost use Rattle.http_service.specs.Foreseeing.{IsToldAnew, AsksAnewForChange, AsksForChange};
ghost use Rattle.net_hub.specs.Foreseen.{AreForeseen, MakeCommand};
ghost use Rattle.net_hub.specs.Given.{Greets, Gets, GetsThrough, LookNothingUp};
ghost use Rattle.net_hub.specs.declared.kind.Kind.{Kind};
ghost use Rattle.net_hub.specs.declared.kind.Kind.TheVariants.{Http};
ghost use Rattle.net_hub.specs.declared.incoming.Out.TheVariants as outs;
ghost use Rattle.net_hub.specs.declared.fault.HubFault.{HubFault};
ghost use Rattle.net_hub.specs.declared.fault.HubFault.TheVariants.{UnknownConnection, Memory};

use crate::connection_table::ConnectionTable;
use crate::exchange::Exchange;
use crate::fault::HubFault;
use crate::incoming::Out;
use crate::kind::Kind;
use dict_desk::Preparer;
use dict_proto::Sink;
use http_service::Service;
use std::alloc::{AllocError, Global};

/// Something that happened on a connection.
#[derive(Clone, Copy)]
pub enum Event<'p> {
    /// It was opened.
    Opened(u64, Kind),
    /// These octets came.
    Bytes(u64, &'p [u8]),
    /// The other end sends no more.
    Ended(u64),
}

/// The open connections, in the order of their ids.
pub struct Hub<'h> {
    alloc: Global,
    host: &'h str,
    service: Service,
    book: ConnectionTable,
    lines: Vec<Exchange<'h>>,
    ghost even: { vec_len lines ≡ vec_len book.ids },
}

// It is written out, so that what owns one doesn't prove again how each part is dropped.
impl<'h> Drop for Hub<'h> {
    fn drop(self) {
        let Hub {
            alloc: _,
            host: _,
            service: _,
            book: _,
            lines: _,
        } = self;
    }
}

impl<'h> Hub<'h> {
    ghost use Rattle.net_hub.specs.Hubs.{HasHolding, host_of, greatest_of, connection_count};
    ghost use Rattle.net_hub.specs.Events.{opened, happening, id_of, admitted, asks_desk, takes_memory, count_after, greatest_after, held_after, Serves, ServesThrough, IsQuiet};
    ghost use Rattle.net_hub.specs.Runs.{State, Standing, Accepted, IsAt, Leads, LeadsOn, beginning};
    ghost use Rattle.dict_proto.specs.Streams.{change};

    /// No connection is open, and no id was given.
    pub fn new(alloc: Global, host: &'h str) -> Result<Hub<'h>, AllocError>
        ensures none { IfOk result (λ hub. (id : ℕ) → HasHolding hub id None) }
        ensures greatest { IfOk result (λ hub. greatest_of hub ≡ None) }
        ensures host { IfOk result (λ hub. host_of hub ≡ host.now) }
        ensures beginning { IfOk result (λ hub. IsAt hub (beginning host.now)) }
    {
        Ok(Hub {
            alloc,
            host,
            service: Service::new(alloc)?,
            book: ConnectionTable::new(alloc)?,
            lines: Vec::new(alloc),
        })
    }

    /// Takes an event. Only its own connection is served, at the catalogue that the desk shows now; a reader's is closed by
    /// a QUIT or where the sink or the desk failed, an editor's by its answer. So where a list of accepted events has led
    /// to this hub and this desk, that list with this event leads to what both are then. An event that is refused changes
    /// nothing and puts nothing. The sink is the connection's own.
    pub fn event<K: Preparer, S: Sink>(
        &mut self,
        desk: &mut K,
        event: Event,
        sink: &mut S,
    ) -> Result<Out, HubFault>
        ensures refused { (held : Option Holding) → HasHolding self.old (id_of (happening event.entry)) held → (fault : HubFault)
            → admitted held (greatest_of self.old) (connection_count self.old) (happening event.entry) ≡ Err fault → result ≡ Err fault }
        ensures memory { (held : Option Holding) → HasHolding self.old (id_of (happening event.entry)) held
            → admitted held (greatest_of self.old) (connection_count self.old) (happening event.entry) ≡ Ok tt → IfErr result (λ fault. (fault ≡ Memory) × (takes_memory held (happening event.entry) ≡ true)) }
        ensures opening { (id : ℕ) (kind : Kind) → happening event.entry ≡ opened id kind → IfErr result (λ fault. IsRefusal (opening id (greatest_of self.old) (connection_count self.old)) fault) }
        ensures serves { K.is_trusted desk.new → (M : Catalogue) → K.shows desk.old M → (held : Option Holding) → HasHolding self.old (id_of (happening event.entry)) held
            → IfOk result (λ out. Serves (host_of self.old) (condition K.has_failed K.is_closed desk.new) (K.shows desk.new) (K.leaves_one_of desk.old) (K.leaves_one_of desk.new) M held (happening event.entry) out (S.stream sink.old) (S.stream sink.new)) }
        ensures through { K.is_trusted desk.new → (M : Catalogue) → K.shows desk.old M → (held : Option Holding) → HasHolding self.old (id_of (happening event.entry)) held
            → IfOk result (λ out. ServesThrough (host_of self.old) M (K.is_closed desk.old) (condition K.has_failed K.is_closed desk.new) held (happening event.entry) out (S.stream sink.old) (S.stream sink.new)) }
        ensures quiet { K.is_trusted desk.new → (M : Catalogue) → K.shows desk.old M → (held : Option Holding) → HasHolding self.old (id_of (happening event.entry)) held
            → IsQuiet M held (happening event.entry) → desk.new ≡ desk.old }
        ensures own { K.is_trusted desk.new → (M : Catalogue) → K.shows desk.old M → (held : Option Holding) → HasHolding self.old (id_of (happening event.entry)) held
            → IfOk result (λ out. HasHolding self.new (id_of (happening event.entry)) (held_after held (happening event.entry) out)) }
        ensures others { (other : ℕ) (held : Option Holding) → other ≢ id_of (happening event.entry) → HasHolding self.old other held → HasHolding self.new other held }
        ensures greatest { OnOk result (greatest_of self.new ≡ greatest_after (greatest_of self.old) (happening event.entry)) }
        ensures count { (held : Option Holding) → HasHolding self.old (id_of (happening event.entry)) held
            → IfOk result (λ out. connection_count self.new ≡ count_after (connection_count self.old) held (held_after held (happening event.entry) out)) }
        ensures host { host_of self.new ≡ host_of self.old }
        ensures trust { K.is_trusted desk.new → K.is_trusted desk.old }
        ensures beside { (beside : K.Beside) → K.keeps_beside desk.old beside → K.keeps_beside desk.new beside }
        ensures closed { K.is_closed desk.old ≡ true → K.is_closed desk.new ≡ true }
        ensures kept { OnErr result ((other : ℕ) (held : Option Holding) → HasHolding self.old other held → HasHolding self.new other held) }
        ensures given { OnErr result (greatest_of self.new ≡ greatest_of self.old) }
        ensures number { OnErr result (connection_count self.new ≡ connection_count self.old) }
        ensures desk { OnErr result (desk.new ≡ desk.old) }
        ensures sink { OnErr result (sink.new ≡ sink.old) }
        ensures unasked { asks_desk (happening event.entry) ≡ false → desk.new ≡ desk.old }
        ensures leads { K.is_trusted desk.new → (origin : State) (start : Standing) (events : List Accepted) (state : State) (stands : Standing) → Leads origin start events state stands
            → IsAt self.old state → K.shows desk.old stands.catalogue → K.leaves_one_of desk.old stands.leaves
            → IfOk result (λ out. LeadsOn (K.shows desk.new) (K.leaves_one_of desk.new) origin start events state stands (happening event.entry) out (condition K.has_failed K.is_closed desk.new) (change S.stream sink.old sink.new) self.new) }
        ensures state { OnErr result ((state : State) → IsAt self.old state → IsAt self.new state) }
    {
        match event {
            Event::Opened(id, kind) => self.opened(id, kind, sink),
            Event::Bytes(id, piece) => self.bytes(id, piece, desk, sink),
            Event::Ended(id) => self.ended(id),
        }
    }

    /// Whether these octets, the next that come on a connection, make a request whole that changes, and the desk was told of
    /// it and took note, so that it may prepare it before the event.
    ///
    /// It is no event: nothing of the hub changes, nor what the desk shows, and nothing is put. Whatever is answered here,
    /// the event of these octets gives what it would have given. The desk is told of each change, but where its body is JSON of
    /// 65,536 octets and more.
    pub fn foresee<K: Preparer>(&mut self, desk: &mut K, id: u64, piece: &[u8]) -> bool
        ensures foreseen { result ≡ true → (held : Option Holding) → HasHolding self.old id held → AreForeseen (IsToldAnew K.shows K.leaves_one_of K.keeps_beside K.is_trusted K.has_failed K.is_closed K.expects) AsksForChange held piece.now desk.old desk.new }
        ensures anew { result ≡ true → K.is_trusted desk.new → (M : Catalogue) → K.shows desk.old M → (held : Option Holding) → HasHolding self.old id held → AreForeseen (IsToldAnew K.shows K.leaves_one_of K.keeps_beside K.is_trusted K.has_failed K.is_closed K.expects) (AsksAnewForChange M) held piece.now desk.old desk.new }
        ensures kept { (other : ℕ) (held : Option Holding) → HasHolding self.old other held → HasHolding self.new other held }
        ensures state { (state : State) → IsAt self.old state → IsAt self.new state }
        ensures given { greatest_of self.new ≡ greatest_of self.old }
        ensures count { connection_count self.new ≡ connection_count self.old }
        ensures host { host_of self.new ≡ host_of self.old }
        ensures trust { K.is_trusted desk.new → K.is_trusted desk.old }
        ensures beside { (beside : K.Beside) → K.keeps_beside desk.old beside → K.keeps_beside desk.new beside }
        ensures closed { K.is_closed desk.old ≡ true → K.is_closed desk.new ≡ true }
        ensures shows { K.is_trusted desk.new → (M : Catalogue) → K.shows desk.old M → K.shows desk.new M }
        ensures leaves { (ms : List (Option Catalogue)) → K.leaves_one_of desk.old ms → K.leaves_one_of desk.new ms }
    {
        let Some(place) = self.book.place_of(id) else {
            return false;
        };
        self.lines[place].foresee(&self.service, self.alloc, piece, desk)
    }

    /// Whether these octets, the next that come on a connection, make a command whole: a request that changes the catalogue, whatever
    /// is answered. It is no event: nothing of the hub changes. At most 65,536 octets are asked about.
    pub fn asks_change(&mut self, id: u64, piece: &[u8]) -> bool
        requires { length piece.now ≤ 65536 }
        ensures yes { result ≡ true → (held : Option Holding) → HasHolding self.old id held → MakeCommand held piece.now }
        ensures no { result ≡ false → (held : Option Holding) → HasHolding self.old id held → ¬ MakeCommand held piece.now }
        ensures kept { (other : ℕ) (held : Option Holding) → HasHolding self.old other held → HasHolding self.new other held }
        ensures state { (state : State) → IsAt self.old state → IsAt self.new state }
        ensures given { greatest_of self.new ≡ greatest_of self.old }
        ensures count { connection_count self.new ≡ connection_count self.old }
        ensures host { host_of self.new ≡ host_of self.old }
    {
        let Some(place) = self.book.place_of(id) else {
            return false;
        };
        self.lines[place].asks_change(&self.service, piece)
    }

    // Opens a connection, and greets a reader.
    fn opened<S: Sink>(&mut self, id: u64, kind: Kind, sink: &mut S) -> Result<Out, HubFault>
        ensures tests { (fault : HubFault) → opening id (greatest_of self.old) (connection_count self.old) ≡ Err fault → result ≡ Err fault }
        ensures memory { opening id (greatest_of self.old) (connection_count self.old) ≡ Ok tt → IfErr result (λ fault. fault ≡ Memory) }
        ensures own { IfOk result (λ out. HasHolding self.new id (left_by kind [] out)) }
        ensures greets { IfOk result (λ out. Greets (host_of self.old) id kind out (S.stream sink.old) (S.stream sink.new)) }
        ensures greatest { OnOk result (greatest_of self.new ≡ Some id) }
        ensures count { IfOk result (λ out. connection_count self.new ≡ count_after (connection_count self.old) None (left_by kind [] out)) }
        ensures others { OnOk result ((other : ℕ) (held : Option Holding) → other ≢ id → HasHolding self.old other held → HasHolding self.new other held) }
        ensures host { host_of self.new ≡ host_of self.old }
        ensures kept { OnErr result ((other : ℕ) (held : Option Holding) → HasHolding self.old other held → HasHolding self.new other held) }
        ensures given { OnErr result (greatest_of self.new ≡ greatest_of self.old) }
        ensures number { OnErr result (connection_count self.new ≡ connection_count self.old) }
        ensures sink { OnErr result (sink.new ≡ sink.old) }
    {
        self.book.admits(id)?;
        if self.lines.reserve(1).is_err() {
            return Err(HubFault::Memory);
        }
        let Ok(mut line) = Exchange::new(self.alloc, self.host, id, kind) else {
            return Err(HubFault::Memory);
        };
        let out = line.greet(sink);
        self.keep(id, line, out);
        Ok(out)
    }

    // Keeps a connection that was greeted, or only its id.
    fn keep(&mut self, id: u64, line: Exchange<'h>, out: Out)
        requires admitted { opening id (greatest_of self.old) (connection_count self.old) ≡ Ok tt }
        requires room { vec_len self.old.lines < vec_capacity self.old.lines }
        ensures more { out ≡ outs.More → (self.new.book.ids.items ≡ self.old.book.ids.items ++ id ∷ []) × (self.new.lines.items ≡ self.old.lines.items ++ line.entry ∷ []) }
        ensures close { out ≡ outs.Close → (self.new.book.ids.items ≡ self.old.book.ids.items) × (self.new.lines.items ≡ self.old.lines.items) }
        ensures greatest { greatest_of self.new ≡ Some id }
        ensures host { host_of self.new ≡ host_of self.old }
    {
        match out {
            Out::More => {
                let _ = self.book.open(id);
                self.lines.push_reserved(line);
            }
            Out::Close => self.book.skip(id),
        }
    }

    // Closes the connection at a place, whatever has come on it.
    fn close(&mut self, place: usize)
        requires { place < vec_len self.old.book.ids }
        ensures ids { self.new.book.ids.items ≡ remove self.old.book.ids.items place }
        ensures greatest { greatest_of self.new ≡ greatest_of self.old }
        ensures lines { self.new.lines.items ≡ remove self.old.lines.items place }
        ensures host { host_of self.new ≡ host_of self.old }
    {
        self.book.close(place);
        self.lines.remove(place);
    }

    // Octets came on a connection.
    fn bytes<K: Preparer, S: Sink>(
        &mut self,
        id: u64,
        piece: &[u8],
        desk: &mut K,
        sink: &mut S,
    ) -> Result<Out, HubFault>
        ensures unknown { HasHolding self.old id None → result ≡ Err UnknownConnection }
        ensures memory { (held : Holding) → HasHolding self.old id (Some held) → IfErr result (λ fault. (fault ≡ Memory) × (held.kind ≡ Http)) }
        ensures gets { K.is_trusted desk.new → (M : Catalogue) → K.shows desk.old M → (held : Holding) → HasHolding self.old id (Some held)
            → IfOk result (λ out. Gets (host_of self.old) (condition K.has_failed K.is_closed desk.new) (K.shows desk.new) (K.leaves_one_of desk.old) (K.leaves_one_of desk.new) M held.kind (held.octets ++ piece.now) out (S.stream sink.old) (S.stream sink.new)) }
        ensures through { K.is_trusted desk.new → (M : Catalogue) → K.shows desk.old M → (held : Holding) → HasHolding self.old id (Some held)
            → IfOk result (λ out. GetsThrough (host_of self.old) M (K.is_closed desk.old) (condition K.has_failed K.is_closed desk.new) held.kind (held.octets ++ piece.now) out (S.stream sink.old) (S.stream sink.new)) }
        ensures quiet { K.is_trusted desk.new → (M : Catalogue) → K.shows desk.old M → (held : Holding) → HasHolding self.old id (Some held)
            → LookNothingUp M held.kind (held.octets ++ piece.now) → desk.new ≡ desk.old }
        ensures own { K.is_trusted desk.new → (M : Catalogue) → K.shows desk.old M → (held : Holding) → HasHolding self.old id (Some held)
            → IfOk result (λ out. HasHolding self.new id (left_by held.kind (held.octets ++ piece.now) out)) }
        ensures count { (held : Holding) → HasHolding self.old id (Some held) → IfOk result (λ out. connection_count self.new ≡ count_after (connection_count self.old) (Some held) (left_by held.kind (held.octets ++ piece.now) out)) }
        ensures others { (other : ℕ) (held : Option Holding) → other ≢ id → HasHolding self.old other held → HasHolding self.new other held }
        ensures greatest { greatest_of self.new ≡ greatest_of self.old }
        ensures host { host_of self.new ≡ host_of self.old }
        ensures trust { K.is_trusted desk.new → K.is_trusted desk.old }
        ensures beside { (beside : K.Beside) → K.keeps_beside desk.old beside → K.keeps_beside desk.new beside }
        ensures closed { K.is_closed desk.old ≡ true → K.is_closed desk.new ≡ true }
        ensures kept { OnErr result ((held : Option Holding) → HasHolding self.old id held → HasHolding self.new id held) }
        ensures number { OnErr result (connection_count self.new ≡ connection_count self.old) }
        ensures desk { OnErr result (desk.new ≡ desk.old) }
        ensures sink { OnErr result (sink.new ≡ sink.old) }
    {
        let Some(place) = self.book.place_of(id) else {
            return Err(HubFault::UnknownConnection);
        };
        match self.lines[place].take(&self.service, self.alloc, piece, desk, sink)? {
            Out::More => Ok(Out::More),
            Out::Close => {
                self.close(place);
                Ok(Out::Close)
            }
        }
    }

    // The other end sends no more. What has come of an unfinished line or request is let go, and changes nothing.
    fn ended(&mut self, id: u64) -> Result<Out, HubFault>
        ensures unknown { HasHolding self.old id None → result ≡ Err UnknownConnection }
        ensures known { (held : Holding) → HasHolding self.old id (Some held) → (result ≡ Ok outs.More) × HasHolding self.new id None }
        ensures count { OnOk result (connection_count self.new ≡ connection_count self.old - 1) }
        ensures others { (other : ℕ) (held : Option Holding) → other ≢ id → HasHolding self.old other held → HasHolding self.new other held }
        ensures greatest { greatest_of self.new ≡ greatest_of self.old }
        ensures host { host_of self.new ≡ host_of self.old }
        ensures kept { OnErr result ((held : Option Holding) → HasHolding self.old id held → HasHolding self.new id held) }
        ensures number { OnErr result (connection_count self.new ≡ connection_count self.old) }
    {
        let Some(place) = self.book.place_of(id) else {
            return Err(HubFault::UnknownConnection);
        };
        self.close(place);
        Ok(Out::More)
    }
}
