// One event for the hub.
ghost use Rattle.std.specs.Prelude.{◌≡◌, true, false, IfErr, Some};
ghost use Rattle.dict_session.specs.Desks.{condition};
ghost use Rattle.net_hub.specs.Events.{asks_desk, came, happening, id_of};
ghost use Rattle.net_outlet.specs.Queues.{counts_of};
ghost use Rattle.net_connection.specs.Causes.{AreCaused};
ghost use Rattle.net_connection.specs.Leading.{HasLedOn};
ghost use Rattle.net_connection.specs.Leaving.{HasLost};
ghost use Rattle.net_connection.specs.Quiet.{StaysIfQuiet};
ghost use Rattle.net_connection.specs.Telling.{IsTold, IsToldThrough, KeepsOthers, MayRefuse, answer_of};

use crate::opening::Opening;
use dict_desk::Preparer;
use net_hub::{Event, Hub, HubFault, Kind, Out};
use net_outlet::{Beginning, Outlet, Queue, Transport};
use std::marker::Brand;
use std::mem;

/// Hands an event to the hub, whose octets wait in the queue of its connection then. `None` where the hub refused it.
pub fn deliver<K: Preparer>(
    hub: &mut Hub,
    desk: &mut K,
    event: Event,
    queue: &mut Queue,
) -> Option<Out>
    ensures led { HasLedOn (K.is_trusted desk.new) (K.shows desk.old) (K.leaves_one_of desk.old) (K.shows desk.new) (K.leaves_one_of desk.new) hub.old hub.new
        (λ events. IsTold (happening event.entry) result queue.old queue.new events × AreCaused (condition K.has_failed K.is_closed desk.new) queue.old queue.new events
        × HasLost (happening event.entry) hub.new) }
    ensures trust { K.is_trusted desk.new → K.is_trusted desk.old }
    ensures beside { (beside : K.Beside) → K.keeps_beside desk.old beside → K.keeps_beside desk.new beside }
    ensures closed { K.is_closed desk.old ≡ true → K.is_closed desk.new ≡ true }
    ensures others { KeepsOthers (id_of (happening event.entry)) hub.old hub.new }
    ensures unasked { asks_desk (happening event.entry) ≡ false → desk.new ≡ desk.old }
{
    match hub.event(desk, event, queue) {
        Ok(out) => Some(out),
        Err(_) => None,
    }
}

/// Hands octets to the hub that came on a connection, where the transport is asked to take what waits as often as the queue is full.
/// The fault is the hub's.
pub fn deliver_through<T: Transport, K: Preparer, O: Opening>(
    opening: &O,
    hub: &mut Hub,
    desk: &mut K,
    id: u64,
    kind: Kind,
    piece: &[u8],
    queue: &mut Queue,
    transport: &mut T,
) -> Result<Out, HubFault>
    ensures led { HasLedOn (K.is_trusted desk.new) (K.shows desk.old) (K.leaves_one_of desk.old) (K.shows desk.new) (K.leaves_one_of desk.new) hub.old hub.new
        (λ events. IsToldThrough T.taken T.coming T.made (came id piece.now) (answer_of result) queue.old queue.new transport.old transport.new events
        × AreCaused (condition K.has_failed K.is_closed desk.new) queue.old queue.new events × StaysIfQuiet hub.old desk.old desk.new events) }
    ensures trust { K.is_trusted desk.new → K.is_trusted desk.old }
    ensures beside { (beside : K.Beside) → K.keeps_beside desk.old beside → K.keeps_beside desk.new beside }
    ensures closed { K.is_closed desk.old ≡ true → K.is_closed desk.new ≡ true }
    ensures others { KeepsOthers id hub.old hub.new }
    ensures cause { IfErr result (MayRefuse hub.old id) }
    ensures refused { IfErr result (λ fault. O.refuses hub.old id kind (Some fault)) }
{
    let absent = transport.absent();
    let lent = mem::replace(transport, absent);
    let (answer, waiting, returned) = deliver_from::<T, K, O, Brand>(
        opening,
        hub,
        desk,
        id,
        kind,
        piece,
        queue.take(),
        lent,
    );
    *queue = waiting;
    *transport = returned;
    answer
}

// Hands octets to the hub, and gives back the queue and the transport of their connection.
fn deliver_from<T: Transport, K: Preparer, O: Opening, B: Beginning>(
    opening: &O,
    hub: &mut Hub,
    desk: &mut K,
    id: u64,
    kind: Kind,
    piece: &[u8],
    queue: Queue,
    transport: T,
) -> (Result<Out, HubFault>, Queue, T)
    requires taken { B.taken ≡ T.taken transport }
    requires coming { B.coming ≡ T.coming transport }
    requires made { B.made ≡ T.made transport }
    requires counts { B.counts ≡ counts_of queue }
    ensures led { HasLedOn (K.is_trusted desk.new) (K.shows desk.old) (K.leaves_one_of desk.old) (K.shows desk.new) (K.leaves_one_of desk.new) hub.old hub.new
        (λ events. IsToldThrough T.taken T.coming T.made (came id piece.now) (answer_of result.0) queue result.1 transport result.2 events
        × AreCaused (condition K.has_failed K.is_closed desk.new) queue result.1 events × StaysIfQuiet hub.old desk.old desk.new events) }
    ensures trust { K.is_trusted desk.new → K.is_trusted desk.old }
    ensures beside { (beside : K.Beside) → K.keeps_beside desk.old beside → K.keeps_beside desk.new beside }
    ensures closed { K.is_closed desk.old ≡ true → K.is_closed desk.new ≡ true }
    ensures others { KeepsOthers id hub.old hub.new }
    ensures cause { IfErr result.0 (MayRefuse hub.old id) }
    ensures refused { IfErr result.0 (λ fault. O.refuses hub.old id kind (Some fault)) }
{
    let mut outlet = Outlet::<T, B>::new(queue, transport);
    match opening.hand(hub, desk, id, kind, piece, &mut outlet) {
        Ok(out) => outlet.over(Ok(out)),
        Err(fault) => outlet.over(Err(fault)),
    }
}
