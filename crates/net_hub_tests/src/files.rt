// A catalogue in memory, and what a hub puts over it.
use crate::checks::{same, same_text};
use dict_desk::{PlainDesk, Preparer};
use dict_proto::LimitedSink;
use net_hub::{Event, Hub, HubFault, Kind, Out};
use std::alloc::Global;
use std::process::Abort;

pub(crate) const HOST: &str = "gems.test";

pub(crate) const PUT: &[u8] =
    b"PUT /databases/gem HTTP/1.1\r\nRequest-Id: r1\r\nContent-Length: 101\r\n\r\n53\n00-database-short\tA\tZ\nopal\tZ\tP\nFire Opal\tZ\tP\ndot\to\tF\n00-database-short\n  Gems\nopal\n  a stone\n.dot\n";

pub(crate) const DELETE: &[u8] = b"DELETE /databases/gem HTTP/1.1\r\nRequest-Id: r2\r\n\r\n";

/// The end of a connection, and the answer to that.
pub(crate) const DELETED_TOLD: &str =
    "Ok(Close) HTTP/1.1 200 OK\r\nContent-Type: application/json\r\nContent-Length: 56\r\nConnection: close\r\n\r\n{\"edition\":null,\"name\":\"gem\",\"number\":2,\"verb\":\"retire\"}";

/// What becomes of a connection after an event.
pub(crate) fn send<K: Preparer>(
    hub: &mut Hub,
    desk: &mut K,
    event: Event,
    sink: &mut LimitedSink,
) -> Result<Out, HubFault> {
    hub.event(desk, event, sink)
}

/// It is what is wanted.
pub(crate) fn same_out(
    rt: &impl Abort,
    found: &Result<Out, HubFault>,
    wanted: &Result<Out, HubFault>,
) {
    same(rt, found, wanted);
}

fn put<K: Preparer>(rt: &impl Abort, hub: &mut Hub, desk: &mut K, sink: &mut LimitedSink) {
    send(hub, desk, Event::Opened(1, Kind::Http), sink).expect(rt, "a connection");
    send(hub, desk, Event::Bytes(1, PUT), sink).expect(rt, "an answer");
}

/// Installs `gem`.
pub(crate) fn install<K: Preparer>(rt: &impl Abort, alloc: Global, desk: &mut K) {
    let mut sink = LimitedSink::new(alloc, 1000).expect(rt, "memory");
    let mut hub = Hub::new(alloc, HOST).expect(rt, "memory");
    put(rt, &mut hub, desk, &mut sink);
}

/// A desk over which `gem` was installed.
pub(crate) fn gem_desk(rt: &impl Abort, alloc: Global) -> PlainDesk {
    let mut desk = PlainDesk::new(alloc);
    install(rt, alloc, &mut desk);
    desk
}

/// What becomes of a connection after an event, and what is put for it.
pub(crate) fn told<K: Preparer>(
    rt: &impl Abort,
    alloc: Global,
    hub: &mut Hub,
    desk: &mut K,
    event: Event,
) -> String {
    let mut sink = LimitedSink::new(alloc, 10_000).expect(rt, "memory");
    let out = send(hub, desk, event, &mut sink);
    let text = str::from_utf8(sink.taken()).unwrap_or("not UTF-8");
    format!(in alloc; "{out:?} {text}").expect(rt, "memory")
}

/// An event, and what is told of it.
pub(crate) type Row = (Event<'static>, &'static str);

/// These events, one after the other.
pub(crate) fn play<K: Preparer>(
    rt: &impl Abort,
    alloc: Global,
    hub: &mut Hub,
    desk: &mut K,
    rows: &[Row],
) {
    for (event, wanted) in rows {
        same_text(rt, told(rt, alloc, hub, desk, *event).as_str(), *wanted);
    }
}
