// Many connections at once, octet by octet, each beside the same session or request alone.
use super::files::{HOST, PUT, gem_desk, same_out, send};
use super::runs::{Run, over_memory};
use crate::checks::same;
use dict_desk::{PlainDesk, Preparer};
use dict_proto::LimitedSink;
use dict_session::Session;
use http_service::{Need, Service, need};
use net_hub::{Event, Hub, HubFault, Kind};
use std::alloc::Global;
use std::process::Abort;

static READERS: [&[u8]; 4] = [
    b"DEFINE gem opal\r\nQUIT\r\n",
    b"MATCH * suffix opal\r\nSHOW DB\r\nQUIT\r\nSTATUS\r\n",
    b"define ! \"fire opal\"\r\nx\r\rr\n\r\nDEFINE none x\r\nQUIT\r\n",
    b"STATUS\r\nHELP\r\nSHOW SERVER\r\nQUIT\r\nQUIT\r\n",
];

static EDITORS: [&[u8]; 4] = [
    b"GET /databases HTTP/1.1\r\n\r\n",
    b"DELETE /databases/none HTTP/1.1\r\nRequest-Id: r9\r\n\r\nDELETE /databases/gem HTTP/1.1\r\nRequest-Id: r8\r\n\r\n",
    PUT,
    b"GET /x y\r\n\r\n",
];

// What a connection of this id sends, none of which changes the catalogue.
fn sent(id: u64) -> &'static [u8] {
    let which = (id / 2 % 4) as usize;
    if id % 2 == 0 {
        EDITORS[which]
    } else {
        READERS[which]
    }
}

fn kind_of(id: u64) -> Kind {
    if id % 2 == 0 { Kind::Http } else { Kind::Dict }
}

// A session of this number that is sent all at once.
fn reader_alone(
    rt: &impl Abort,
    alloc: Global,
    desk: &mut PlainDesk,
    id: u64,
    sink: &mut LimitedSink,
) {
    let mut session = Session::new(alloc, HOST, id).expect(rt, "memory");
    session.greet(sink);
    session.feed(alloc, sent(id), desk, sink);
}

// The answer to a request that is sent all at once.
fn editor_alone(
    rt: &impl Abort,
    alloc: Global,
    desk: &mut PlainDesk,
    id: u64,
    sink: &mut LimitedSink,
) {
    let octets = sent(id);
    if let Need::More = need(octets) {
        return;
    }
    let service = Service::new(alloc).expect(rt, "memory");
    let _ = service.respond(alloc, octets, desk).put(sink);
}

fn alone(rt: &impl Abort, alloc: Global, desk: &mut PlainDesk, id: u64, sink: &mut LimitedSink) {
    match kind_of(id) {
        Kind::Dict => reader_alone(rt, alloc, desk, id, sink),
        Kind::Http => editor_alone(rt, alloc, desk, id, sink),
    }
}

// Whether that is what came to a sink.
fn comes_alone(
    rt: &impl Abort,
    alloc: Global,
    desk: &mut PlainDesk,
    id: u64,
    taken: &[u8],
) -> bool {
    let mut sink = LimitedSink::new(alloc, 10_000).expect(rt, "memory");
    alone(rt, alloc, desk, id, &mut sink);
    sink.taken() == taken
}

// The same over a desk of its own.
fn is_as_alone(rt: &impl Abort, alloc: Global, id: u64, taken: &[u8]) -> bool {
    let mut desk = gem_desk(rt, alloc);
    comes_alone(rt, alloc, &mut desk, id, taken)
}

// Opens 64 connections, each with a sink of its own.
fn open_all<K: Preparer>(
    rt: &impl Abort,
    alloc: Global,
    hub: &mut Hub,
    desk: &mut K,
    sinks: &mut Vec<LimitedSink>,
) {
    for id in 1..65u64 {
        let mut sink = LimitedSink::new(alloc, 10_000).expect(rt, "memory");
        send(hub, desk, Event::Opened(id, kind_of(id)), &mut sink).expect(rt, "a connection");
        sinks.push(sink).expect(rt, "memory");
    }
}

// Sends each connection its octet of this place. What comes on one that is closed is refused.
fn send_each<K: Preparer>(hub: &mut Hub, desk: &mut K, sinks: &mut [LimitedSink], place: usize) {
    for (id, sink) in (1..65u64).zip(sinks.iter_mut()) {
        if let Some(octet) = sent(id).get(place) {
            let piece = [*octet];
            let _ = send(hub, desk, Event::Bytes(id, &piece), sink);
        }
    }
}

// Each is answered as it would be alone, and is closed.
fn end_each<K: Preparer>(
    rt: &impl Abort,
    alloc: Global,
    hub: &mut Hub,
    desk: &mut K,
    sinks: &mut [LimitedSink],
) {
    for (id, sink) in (1..65u64).zip(sinks.iter_mut()) {
        same(rt, &is_as_alone(rt, alloc, id, sink.taken()), &true);
        let end = send(hub, desk, Event::Ended(id), sink);
        same_out(rt, &end, &Err(HubFault::UnknownConnection));
    }
}

fn send_and_end<K: Preparer>(
    rt: &impl Abort,
    alloc: Global,
    hub: &mut Hub,
    desk: &mut K,
    sinks: &mut [LimitedSink],
) {
    for place in 0..300 {
        send_each(hub, desk, sinks, place);
    }
    end_each(rt, alloc, hub, desk, sinks);
}

/// All are opened, sent their octets in turn, and ended.
pub(crate) fn serve_all<K: Preparer>(rt: &impl Abort, alloc: Global, hub: &mut Hub, desk: &mut K) {
    let mut sinks = Vec::new(alloc);
    open_all(rt, alloc, hub, desk, &mut sinks);
    send_and_end(rt, alloc, hub, desk, &mut sinks);
}

#[test]
fn many_connections_octet_by_octet(rt: HostRuntime) {
    over_memory(&rt, rt.alloc(), true, Run::Together);
}
