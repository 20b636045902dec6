// One connection.
ghost use Rattle.std.specs.Prelude.{◌≡◌, ◌≤◌, ◌<◌, ◌==◌, ◌||◌, List, [], ◌∷◌, Option, take, length, vec_capacity, IfSome, MatchOption, true, false, ⊤, None, Ok};
ghost use Rattle.std.specs.Io.KnownBytes.{Consumes, Keeps};
ghost use Rattle.dict_session.specs.Desks.{condition};
ghost use Rattle.net_connection.specs.Leading.{HasLedOn};
ghost use Rattle.net_hub.specs.Events.{came, ended, is_of_editor};
ghost use Rattle.net_hub.specs.Runs.{IsAt, State};
ghost use Rattle.dict_catalogue.specs.Steps.{Catalogue};
ghost use Rattle.net_outlet.specs.OutletCalls.{MakesCalls, receives, count_received};
ghost use Rattle.net_connection.specs.Stages.{is_open, parted, stage_of_new};

use crate::delivering::{deliver, deliver_through};
use crate::held::{Held, PIECE};
use crate::opening::Opening;
use crate::stage::{Stage, answered, drained, has_departed, parted, stage_of_new, told};
use dict_desk::Preparer;
use net_hub::{Event, Hub, Kind};
use net_outlet::{Queue, Received, Sent, Transport, has_moved, received_by, sent_by};
use std::alloc::Global;

// The most octets that are dropped of a connection once all is sent: the largest body of a request and 1 MiB.
const MAX_DROPPED: usize = 84_934_656;

/// One connection: its id, what was read and isn't handed to the hub yet, the octets that wait for its peer, and what
/// carries them.
#[derive(Drop)]
pub struct Connection<T: Transport> {
    id: u64,
    stage: Stage,
    held: Held,
    queue: Queue,
    // How many octets were dropped since all was sent.
    dropped: usize,
    // Whether a reading may give something.
    may_receive: bool,
    transport: T,
}

impl<T: Transport> Connection<T> {
    ghost use Rattle.net_outlet.specs.Queues.{waiting, is_clear};
    ghost use Rattle.std.specs.Prelude.{◌+◌, ◌-◌, ◌^◌, min};
    ghost use Rattle.http_service.specs.Foreseeing.{IsToldAnew};
    ghost use Rattle.net_connection.specs.Handing.{held_for, held_in, is_held_back};
    ghost use Rattle.net_connection.specs.Causes.{AreCausedBy, IsRefused};
    ghost use Rattle.net_hub.specs.Hubs.{HasHolding};
    ghost use Rattle.net_connection.specs.Leaving.{KeepsOnlyOpen};
    ghost use Rattle.net_connection.specs.Foreseen.{AreCommand, AreToldOf, HoldsBack, HoldsStill, IsNoCommand, KeepsOrder};
    ghost use Rattle.net_connection.specs.Opening.{IsConnectionUnopened};
    ghost use Rattle.net_connection.specs.Pieces.{behind_piece};
    ghost use Rattle.net_connection.specs.Quiet.{StaysForReader};
    ghost use Rattle.net_connection.specs.Telling.{KeepsEach, KeepsOthers};
    ghost use Rattle.net_connection.specs.Turns.{Departs, Drains, TellsClosedPeer, HandsToHub, HandsOver, HasNothingToDo, IsOpened, LeadsByAnswer, LeadsByEnd, LeadsByPiece, ReadsOnce, SendsOnce, Turns, marked};
    ghost use Rattle.net_connection.specs.Ordering.{IsOnly};

    /// Tells the hub of a new connection. `None` where the hub refused it, or there is no memory for what is read.
    pub fn open<K: Preparer, O: Opening>(
        opening: &O,
        alloc: Global,
        id: u64,
        kind: Kind,
        transport: T,
        hub: &mut Hub,
        desk: &mut K,
    ) -> Option<Connection<T>>
        ensures led { HasLedOn (K.is_trusted desk.new) (K.shows desk.old) (K.leaves_one_of desk.old) (K.shows desk.new) (K.leaves_one_of desk.new) hub.old hub.new
            (λ events. MatchOption result (events ≡ []) (λ one. IsOpened id kind hub.new one events)) }
        ensures trust { K.is_trusted desk.new → K.is_trusted desk.old }
        ensures beside { (beside : K.Beside) → K.keeps_beside desk.old beside → K.keeps_beside desk.new beside }
        ensures others { KeepsOthers id hub.old hub.new }
        ensures unasked { desk.new ≡ desk.old }
        ensures unopened { MatchOption result (IsConnectionUnopened O.refuses hub.old id kind × KeepsEach hub.old hub.new) (λ _. ⊤) }
        ensures id { IfSome result (λ one. one.id ≡ id) }
        ensures transport { IfSome result (λ one. one.transport ≡ transport) }
        ensures may_receive { IfSome result (λ one. one.may_receive ≡ true) }
        ensures kind { IfSome result (λ one. one.held.kind ≡ kind) }
        ensures held { IfSome result (λ one. held_in one.held ≡ []) }
        ensures dropped { IfSome result (λ one. one.dropped ≡ 0) }
    {
        let Ok(octets) = opening.room(alloc, hub, id, kind) else {
            return None;
        };
        let held = Held::new(kind, octets);
        let mut queue = Queue::new(alloc);
        match opening.greet(hub, desk, id, kind, &mut queue) {
            Ok(out) => Some(Connection {
                id,
                stage: stage_of_new(out),
                held,
                queue,
                dropped: 0,
                may_receive: true,
                transport,
            }),
            Err(_) => None,
        }
    }

    /// Its id.
    pub fn id(&self) -> u64
        ensures { result ≡ self.now.id }
    {
        self.id
    }

    /// How far it has come.
    pub fn stage(&self) -> Stage
        ensures { result ≡ self.now.stage }
    {
        self.stage
    }

    /// How many octets wait for its peer.
    pub fn waiting_count(&self) -> usize
        ensures count { result ≡ length (waiting self.now.queue) }
        ensures most { result ≤ 1048576 }
    {
        self.queue.len()
    }

    /// For how many octets it has room that wait for its peer.
    pub fn kept_room(&self) -> usize
        ensures { result ≡ vec_capacity self.now.queue.octets }
    {
        self.queue.capacity()
    }

    /// What carries its octets.
    pub fn transport(&self) -> &T
        ensures { result.now ≡ self.now.transport }
    {
        &self.transport
    }

    /// Notes that a reading may give something, where this is its id.
    pub fn mark_if(&mut self, id: u64)
        ensures { self.new ≡ marked (self.old.id == id) self.old }
    {
        if self.id == id {
            self.may_receive = true;
        }
    }

    /// For how many turns octets are held back by now that it sent as an editor's: 0 where none are, or it isn't open.
    pub fn turns_held(&self) -> u64
        ensures { result ≡ held_for self.now }
    {
        if self.stage.is_open() {
            self.held.turns_held()
        } else {
            0
        }
    }

    /// A turn of an open connection: sends what waits, and hands the next piece of what was read to the hub, of a reader a
    /// line. Where all of it was handed, it reads once into the room first; and where nothing more comes, the hub is told
    /// so. Whether anything happened, or a turn is to be had again at once.
    ///
    /// An editor's piece is held back where it makes a command whole and another connection's comes first (`is_behind`). Where none
    /// does, and it completes an install, the desk prepares that first, a part in each turn, and the piece is held back meanwhile, for
    /// 1,000,000 such turns at most.
    pub fn turn<K: Preparer, O: Opening>(
        &mut self,
        opening: &O,
        hub: &mut Hub,
        desk: &mut K,
        room: &mut [u8; PIECE],
        is_behind: bool,
    ) -> bool
        ensures led { HasLedOn (K.is_trusted desk.new) (K.shows desk.old) (K.leaves_one_of desk.old) (K.shows desk.new) (K.leaves_one_of desk.new) hub.old hub.new
            (λ events. Turns T.taken T.coming T.made (IsRefused O.refuses hub.old) self.old self.new result events × AreCausedBy (condition K.has_failed K.is_closed desk.new) self.old self.new events × StaysForReader self.old.held.kind hub.old desk.old desk.new events
            × KeepsOrder is_behind self.old.held.kind hub.old events × KeepsOnlyOpen hub.old hub.new self.old self.new) }
        ensures prepared { HoldsBack (IsToldAnew K.shows K.leaves_one_of K.keeps_beside K.is_trusted K.has_failed K.is_closed K.expects) K.prepares is_behind hub.old desk.old desk.new self.old self.new }
        ensures trust { K.is_trusted desk.new → K.is_trusted desk.old }
        ensures beside { (beside : K.Beside) → K.keeps_beside desk.old beside → K.keeps_beside desk.new beside }
        ensures closed { K.is_closed desk.old ≡ true → K.is_closed desk.new ≡ true }
        ensures others { KeepsOthers self.old.id hub.old hub.new }
        ensures id { self.new.id ≡ self.old.id }
        ensures dropped { self.new.dropped ≡ self.old.dropped }
        ensures idle { result ≡ false → HasNothingToDo self.new }
    {
        let sent = self.send();
        if sent.has_failed() {
            self.end(hub, desk);
            return true;
        }
        if !self.held.is_empty() {
            self.hand_on(opening, hub, desk, is_behind);
            return true;
        }
        let received = self.read(opening, hub, desk, room, is_behind);
        has_moved(sent, received)
    }

    /// A turn of a connection that is no longer open: sends what waits; once nothing does, it is over where the peer
    /// ended its side, and else the peer is told so, and what comes is read into the room and dropped. Whether anything
    /// happened.
    pub fn linger(&mut self, room: &mut [u8; PIECE]) -> bool
        ensures { Departs T.taken T.coming T.made self.old self.new result }
    {
        let sent = self.send();
        if sent.has_failed() {
            self.stage = Stage::Over;
            return true;
        }
        let has_finished = self.finish();
        let has_dropped = self.drop_received(room);
        has_departed(sent, has_finished, has_dropped)
    }

    // Sends what waits, by one call of the transport.
    fn send(&mut self) -> Sent
        ensures { SendsOnce T.taken T.coming T.made self.old self.new result }
    {
        if self.queue.is_empty() {
            return Sent::Nothing;
        }
        sent_by(&self.queue.send(&mut self.transport))
    }

    // Reads once.
    fn receive(&mut self, room: &mut [u8; PIECE]) -> Received
        ensures count { count_received result ≤ length room.new }
        ensures gives { Consumes (T.coming self.old.transport) (T.coming self.new.transport) (take (count_received result) room.new) }
        ensures taken { Keeps (T.taken self.old.transport) (T.taken self.new.transport) }
        ensures same { self.new ≡ record self.old { transport = self.new.transport } }
        ensures made { MakesCalls (T.made self.old.transport) (T.made self.new.transport) (receives 65536 result ∷ []) }
    {
        received_by(&self.transport.receive(room))
    }

    // Reads once where that may give something, and hands the first piece of what came to the hub, unless it is held back, or
    // that nothing more comes.
    fn read<K: Preparer, O: Opening>(
        &mut self,
        opening: &O,
        hub: &mut Hub,
        desk: &mut K,
        room: &mut [u8; PIECE],
        is_behind: bool,
    ) -> Received
        requires { held_in self.old.held ≡ [] }
        ensures led { HasLedOn (K.is_trusted desk.new) (K.shows desk.old) (K.leaves_one_of desk.old) (K.shows desk.new) (K.leaves_one_of desk.new) hub.old hub.new
            (λ events. ReadsOnce T.taken T.coming T.made (IsRefused O.refuses hub.old) self.old self.new result events × AreCausedBy (condition K.has_failed K.is_closed desk.new) self.old self.new events × StaysForReader self.old.held.kind hub.old desk.old desk.new events
            × KeepsOrder is_behind self.old.held.kind hub.old events × KeepsOnlyOpen hub.old hub.new self.old self.new) }
        ensures prepared { is_open self.new.stage ≡ true → is_held_back self.new.held ≡ true → HoldsStill (IsToldAnew K.shows K.leaves_one_of K.keeps_beside K.is_trusted K.has_failed K.is_closed K.expects) K.prepares is_behind false 0 0 hub.old desk.old desk.new self.old.id self.new.held }
        ensures trust { K.is_trusted desk.new → K.is_trusted desk.old }
        ensures beside { (beside : K.Beside) → K.keeps_beside desk.old beside → K.keeps_beside desk.new beside }
        ensures closed { K.is_closed desk.old ≡ true → K.is_closed desk.new ≡ true }
        ensures others { KeepsOthers self.old.id hub.old hub.new }
        ensures id { self.new.id ≡ self.old.id }
        ensures dropped { self.new.dropped ≡ self.old.dropped }
        ensures idle { result ≡ Received.Nothing → HasNothingToDo self.new }
    {
        if !self.may_receive {
            return Received::Nothing;
        }
        let received = self.receive(room);
        match received {
            Received::Octets(count) => {
                self.held.fill(&room[..count]);
                self.hand_on(opening, hub, desk, is_behind);
                received
            }
            Received::End => {
                self.end_input(hub, desk);
                received
            }
            Received::Failed => {
                self.end(hub, desk);
                received
            }
            Received::Interrupted => received,
            Received::Nothing => {
                self.may_receive = false;
                received
            }
        }
    }

    // Hands the next piece to the hub, unless it is held back: an editor's, where it makes a command whole and another connection's
    // comes first, or where what it completes is prepared.
    fn hand_on<K: Preparer, O: Opening>(
        &mut self,
        opening: &O,
        hub: &mut Hub,
        desk: &mut K,
        is_behind: bool,
    )
        ensures led { HasLedOn (K.is_trusted desk.new) (K.shows desk.old) (K.leaves_one_of desk.old) (K.shows desk.new) (K.leaves_one_of desk.new) hub.old hub.new
            (λ events. HandsOver T.taken T.coming T.made (held_in self.old.held) self.old self.new events
            × LeadsByPiece (IsRefused O.refuses hub.old) (held_in self.old.held) self.old self.new events
            × AreCausedBy (condition K.has_failed K.is_closed desk.new) self.old self.new events × StaysForReader self.old.held.kind hub.old desk.old desk.new events
            × KeepsOrder is_behind self.old.held.kind hub.old events × KeepsOnlyOpen hub.old hub.new self.old self.new) }
        ensures kind { self.new.held.kind ≡ self.old.held.kind }
        ensures back { is_open self.new.stage ≡ true → is_held_back self.new.held ≡ true → HoldsStill (IsToldAnew K.shows K.leaves_one_of K.keeps_beside K.is_trusted K.has_failed K.is_closed K.expects) K.prepares is_behind self.old.held.is_foreseen self.old.held.turns_left self.old.held.waited hub.old desk.old desk.new self.old.id self.new.held }
        ensures trust { K.is_trusted desk.new → K.is_trusted desk.old }
        ensures beside { (beside : K.Beside) → K.keeps_beside desk.old beside → K.keeps_beside desk.new beside }
        ensures closed { K.is_closed desk.old ≡ true → K.is_closed desk.new ≡ true }
        ensures others { KeepsOthers self.old.id hub.old hub.new }
        ensures id { self.new.id ≡ self.old.id }
        ensures dropped { self.new.dropped ≡ self.old.dropped }
    {
        if !is_behind {
            self.foresee(hub, desk);
            self.hand_prepared(opening, hub, desk);
            return;
        }
        if self.asks_change(hub) {
            self.held.wait();
            return;
        }
        self.hand(opening, hub, desk);
    }

    // Whether an editor's octets make a command whole.
    fn asks_change(&self, hub: &mut Hub) -> bool
        ensures yes { result ≡ true → (is_of_editor self.now.held.kind ≡ true) × AreCommand hub.old self.now.id (held_in self.now.held) }
        ensures no { result ≡ false → is_of_editor self.now.held.kind ≡ true → IsNoCommand hub.old (came self.now.id (held_in self.now.held)) }
        ensures state { (state : State) → IsAt hub.old state → IsAt hub.new state }
        ensures kept { KeepsEach hub.old hub.new }
    {
        if !self.held.is_of_editor() {
            return false;
        }
        hub.asks_change(self.id, self.held.next_piece())
    }

    // Where the hub foresees that the octets of an editor complete an install, they may be held back. It is asked once.
    fn foresee<K: Preparer>(&mut self, hub: &mut Hub, desk: &mut K)
        ensures trust { K.is_trusted desk.new → K.is_trusted desk.old }
        ensures beside { (beside : K.Beside) → K.keeps_beside desk.old beside → K.keeps_beside desk.new beside }
        ensures closed { K.is_closed desk.old ≡ true → K.is_closed desk.new ≡ true }
        ensures shows { K.is_trusted desk.new → (M : Catalogue) → K.shows desk.old M → K.shows desk.new M }
        ensures leaves { (ms : List (Option Catalogue)) → K.leaves_one_of desk.old ms → K.leaves_one_of desk.new ms }
        ensures state { (state : State) → IsAt hub.old state → IsAt hub.new state }
        ensures kept { KeepsEach hub.old hub.new }
        ensures reader { is_of_editor self.old.held.kind ≡ false → desk.new ≡ desk.old }
        ensures same { self.new ≡ record self.old { held = self.new.held } }
        ensures octets { held_in self.new.held ≡ held_in self.old.held }
        ensures kind { self.new.held.kind ≡ self.old.held.kind }
        ensures waited { self.new.held.waited ≡ self.old.held.waited }
        ensures before { self.old.held.is_foreseen ≡ true → (self.new.held ≡ self.old.held) × (desk.new ≡ desk.old) }
        ensures told { self.old.held.is_foreseen ≡ false → self.new.held.is_foreseen ≡ true → (self.new.held.turns_left ≡ 1_000_000) × AreToldOf (IsToldAnew K.shows K.leaves_one_of K.keeps_beside K.is_trusted K.has_failed K.is_closed K.expects) hub.old self.old.id (held_in self.new.held) desk.old desk.new }
    {
        if !self.held.is_of_editor() || self.held.is_foreseen() {
            return;
        }
        if hub.foresee(desk, self.id, self.held.next_piece()) {
            self.held.hold_back();
        }
    }

    // Hands the next piece to the hub, unless it is held back for this turn. Once it is handed, the desk lets go of what it prepared
    // for it.
    fn hand_prepared<K: Preparer, O: Opening>(&mut self, opening: &O, hub: &mut Hub, desk: &mut K)
        ensures led { HasLedOn (K.is_trusted desk.new) (K.shows desk.old) (K.leaves_one_of desk.old) (K.shows desk.new) (K.leaves_one_of desk.new) hub.old hub.new
            (λ events. HandsOver T.taken T.coming T.made (held_in self.old.held) self.old self.new events
            × LeadsByPiece (IsRefused O.refuses hub.old) (held_in self.old.held) self.old self.new events
            × AreCausedBy (condition K.has_failed K.is_closed desk.new) self.old self.new events × StaysForReader self.old.held.kind hub.old desk.old desk.new events
            × KeepsOnlyOpen hub.old hub.new self.old self.new) }
        ensures kind { self.new.held.kind ≡ self.old.held.kind }
        ensures back { is_open self.new.stage ≡ true → is_held_back self.new.held ≡ true → (self.old.held.is_foreseen ≡ true) × (self.new.held.is_foreseen ≡ true) × (self.new.held.turns_left < self.old.held.turns_left)
            × (self.new.held.waited ≡ min (self.old.held.waited + 1) (2 ^ 64 - 1)) × (held_in self.new.held ≡ held_in self.old.held) × K.prepares desk.old (Ok true) desk.new }
        ensures trust { K.is_trusted desk.new → K.is_trusted desk.old }
        ensures beside { (beside : K.Beside) → K.keeps_beside desk.old beside → K.keeps_beside desk.new beside }
        ensures closed { K.is_closed desk.old ≡ true → K.is_closed desk.new ≡ true }
        ensures others { KeepsOthers self.old.id hub.old hub.new }
        ensures id { self.new.id ≡ self.old.id }
        ensures dropped { self.new.dropped ≡ self.old.dropped }
    {
        if self.prepare(desk) {
            return;
        }
        self.hand(opening, hub, desk);
        self.let_go(desk);
    }

    // Has the desk prepare a part of what the octets complete, where they may be held back. Whether they are, for this turn:
    // a failure ends the preparing, and they go to the hub as they would have gone without.
    fn prepare<K: Preparer>(&mut self, desk: &mut K) -> bool
        ensures trust { K.is_trusted desk.new → K.is_trusted desk.old }
        ensures beside { (beside : K.Beside) → K.keeps_beside desk.old beside → K.keeps_beside desk.new beside }
        ensures closed { K.is_closed desk.old ≡ true → K.is_closed desk.new ≡ true }
        ensures shows { K.is_trusted desk.new → (M : Catalogue) → K.shows desk.old M → K.shows desk.new M }
        ensures leaves { (ms : List (Option Catalogue)) → K.leaves_one_of desk.old ms → K.leaves_one_of desk.new ms }
        ensures reader { is_of_editor self.old.held.kind ≡ false → desk.new ≡ desk.old }
        ensures same { self.new ≡ record self.old { held = self.new.held } }
        ensures octets { held_in self.new.held ≡ held_in self.old.held }
        ensures kind { self.new.held.kind ≡ self.old.held.kind }
        ensures fewer { result ≡ true → (is_of_editor self.old.held.kind ≡ true) × (self.old.held.is_foreseen ≡ true) × (self.new.held.is_foreseen ≡ true) × (self.new.held.turns_left < self.old.held.turns_left) }
        ensures waited { result ≡ true → self.new.held.waited ≡ min (self.old.held.waited + 1) (2 ^ 64 - 1) }
        ensures prepared { result ≡ true → K.prepares desk.old (Ok true) desk.new }
    {
        if !self.held.begin_turn() {
            return false;
        }
        match desk.prepare() {
            Ok(more) => more,
            Err(_) => false,
        }
    }

    // Has the desk let go of what it prepared of these octets, where it was told of them: they may have been answered without it. A
    // failure is told by what is asked of the desk next.
    fn let_go<K: Preparer>(&self, desk: &mut K)
        ensures trust { K.is_trusted desk.new → K.is_trusted desk.old }
        ensures beside { (beside : K.Beside) → K.keeps_beside desk.old beside → K.keeps_beside desk.new beside }
        ensures closed { K.is_closed desk.old ≡ true → K.is_closed desk.new ≡ true }
        ensures shows { K.is_trusted desk.new → (M : Catalogue) → K.shows desk.old M → K.shows desk.new M }
        ensures leaves { (ms : List (Option Catalogue)) → K.leaves_one_of desk.old ms → K.leaves_one_of desk.new ms }
        ensures reader { is_of_editor self.now.held.kind ≡ false → desk.new ≡ desk.old }
    {
        if self.held.is_of_editor() && self.held.is_foreseen() {
            let _ = desk.forget();
        }
    }

    // Hands the next piece to the hub. Where the hub closes the connection, what waits is still sent; and where it refuses
    // the octets, nothing is.
    fn hand<K: Preparer, O: Opening>(&mut self, opening: &O, hub: &mut Hub, desk: &mut K)
        ensures led { HasLedOn (K.is_trusted desk.new) (K.shows desk.old) (K.leaves_one_of desk.old) (K.shows desk.new) (K.leaves_one_of desk.new) hub.old hub.new
            (λ events. HandsOver T.taken T.coming T.made (held_in self.old.held) self.old self.new events × LeadsByAnswer (IsRefused O.refuses hub.old) (held_in self.old.held) self.old self.new events
            × AreCausedBy (condition K.has_failed K.is_closed desk.new) self.old self.new events × StaysForReader self.old.held.kind hub.old desk.old desk.new events
            × KeepsOnlyOpen hub.old hub.new self.old self.new) }
        ensures kind { self.new.held.kind ≡ self.old.held.kind }
        ensures whole { is_open self.new.stage ≡ true → held_in self.new.held ≡ behind_piece self.old.held.kind (held_in self.old.held) }
        ensures trust { K.is_trusted desk.new → K.is_trusted desk.old }
        ensures beside { (beside : K.Beside) → K.keeps_beside desk.old beside → K.keeps_beside desk.new beside }
        ensures closed { K.is_closed desk.old ≡ true → K.is_closed desk.new ≡ true }
        ensures others { KeepsOthers self.old.id hub.old hub.new }
        ensures id { self.new.id ≡ self.old.id }
        ensures dropped { self.new.dropped ≡ self.old.dropped }
    {
        let kind = self.held.kind();
        let piece = self.held.next_piece();
        let count = piece.len();
        let queue = &mut self.queue;
        let transport = &mut self.transport;
        match deliver_through(opening, hub, desk, self.id, kind, piece, queue, transport) {
            Ok(out) => {
                self.held.pass(count);
                self.stage = answered(out, self.stage);
            }
            Err(_) => self.end(hub, desk),
        }
    }

    // The peer ended its side. What waits is still sent.
    fn end_input<K: Preparer>(&mut self, hub: &mut Hub, desk: &mut K)
        ensures led { HasLedOn (K.is_trusted desk.new) (K.shows desk.old) (K.leaves_one_of desk.old) (K.shows desk.new) (K.leaves_one_of desk.new) hub.old hub.new
            (λ events. HandsToHub [] self.old self.new events × LeadsByEnd (parted (is_clear self.new.queue)) self.old self.new events
            × AreCausedBy (condition K.has_failed K.is_closed desk.new) self.old self.new events × HasHolding hub.new self.old.id None) }
        ensures held { self.new.held ≡ self.old.held }
        ensures trust { K.is_trusted desk.new → K.is_trusted desk.old }
        ensures beside { (beside : K.Beside) → K.keeps_beside desk.old beside → K.keeps_beside desk.new beside }
        ensures closed { K.is_closed desk.old ≡ true → K.is_closed desk.new ≡ true }
        ensures unasked { desk.new ≡ desk.old }
        ensures others { KeepsOthers self.old.id hub.old hub.new }
        ensures id { self.new.id ≡ self.old.id }
        ensures dropped { self.new.dropped ≡ self.old.dropped }
    {
        self.end(hub, desk);
        self.stage = parted(self.queue.is_empty());
    }

    // Nothing more comes, and nothing more is sent.
    fn end<K: Preparer>(&mut self, hub: &mut Hub, desk: &mut K)
        ensures led { HasLedOn (K.is_trusted desk.new) (K.shows desk.old) (K.leaves_one_of desk.old) (K.shows desk.new) (K.leaves_one_of desk.new) hub.old hub.new
            (λ events. HandsToHub [] self.old self.new events × IsOnly (ended self.old.id) events × AreCausedBy (condition K.has_failed K.is_closed desk.new) self.old self.new events
            × HasHolding hub.new self.old.id None) }
        ensures trust { K.is_trusted desk.new → K.is_trusted desk.old }
        ensures beside { (beside : K.Beside) → K.keeps_beside desk.old beside → K.keeps_beside desk.new beside }
        ensures closed { K.is_closed desk.old ≡ true → K.is_closed desk.new ≡ true }
        ensures unasked { desk.new ≡ desk.old }
        ensures others { KeepsOthers self.old.id hub.old hub.new }
        ensures id { self.new.id ≡ self.old.id }
        ensures dropped { self.new.dropped ≡ self.old.dropped }
        ensures over { self.new.stage ≡ Stage.Over }
        ensures held { self.new.held ≡ self.old.held }
    {
        let _ = deliver(hub, desk, Event::Ended(self.id), &mut self.queue);
        self.stage = Stage::Over;
    }

    // Once nothing waits: it is over where the peer ended its side, and else the peer is told that nothing more is sent.
    fn finish(&mut self) -> bool
        ensures { TellsClosedPeer T.taken T.coming T.made self.old self.new result }
    {
        if !self.queue.is_empty() {
            return false;
        }
        match self.stage {
            Stage::Closing => {
                let is_told = self.transport.end_sending().is_ok();
                self.stage = told(is_told);
                true
            }
            Stage::Parting => {
                self.stage = Stage::Over;
                true
            }
            Stage::Open | Stage::Draining | Stage::Over => false,
        }
    }

    // Once the peer was told that nothing more is sent, reads once and drops what came.
    fn drop_received(&mut self, room: &mut [u8; PIECE]) -> bool
        ensures { Drains T.taken T.coming T.made self.old self.new result }
    {
        if !self.stage.is_dropped(self.may_receive) {
            return false;
        }
        let received = self.receive(room);
        self.stage = drained(MAX_DROPPED.saturating_sub(self.dropped), received);
        self.dropped = self.dropped.saturating_add(received.count());
        self.may_receive = received != Received::Nothing;
        self.may_receive
    }
}
