//! Which connections are open, and what an editor's octets are answered piece by piece.
use super::files::{PUT, Row, play, same_out, send};
use super::runs::{Run, over_memory};
use crate::checks::{same, same_text};
use dict_desk::Preparer;
use dict_proto::LimitedSink;
use net_hub::{Event, Hub, HubFault, Kind, Out};
use std::alloc::Global;
use std::process::Abort;

// Opens an editor's connection.
fn open<K: Preparer>(
    hub: &mut Hub,
    desk: &mut K,
    sink: &mut LimitedSink,
    id: u64,
) -> Result<Out, HubFault> {
    send(hub, desk, Event::Opened(id, Kind::Http), sink)
}

fn end<K: Preparer>(
    hub: &mut Hub,
    desk: &mut K,
    sink: &mut LimitedSink,
    id: u64,
) -> Result<Out, HubFault> {
    send(hub, desk, Event::Ended(id), sink)
}

// Opens a connection twice and ends it.
fn open_twice<K: Preparer>(
    rt: &impl Abort,
    hub: &mut Hub,
    desk: &mut K,
    sink: &mut LimitedSink,
    id: u64,
) {
    same_out(rt, &open(hub, desk, sink, id), &Ok(Out::More));
    same_out(
        rt,
        &open(hub, desk, sink, id),
        &Err(HubFault::UnknownConnection),
    );
    same_out(rt, &end(hub, desk, sink, id), &Ok(Out::More));
}

// What becomes of connections that are opened, or ended, in this order: the last of those that were opened before, 64 at
// once, one more, and another once one of them ended.
static AT_ONCE: [(bool, u64, u64, Result<Out, HubFault>); 7] = [
    (true, 4_095, 4_096, Err(HubFault::UnknownConnection)),
    (true, 4_096, 4_160, Ok(Out::More)),
    (true, 4_160, 4_161, Err(HubFault::TooMany)),
    (true, 4_159, 4_160, Err(HubFault::UnknownConnection)),
    (false, 4_100, 4_101, Ok(Out::More)),
    (false, 4_100, 4_101, Err(HubFault::UnknownConnection)),
    (true, 4_160, 4_161, Ok(Out::More)),
];

fn open_or_end<K: Preparer>(
    hub: &mut Hub,
    desk: &mut K,
    sink: &mut LimitedSink,
    is_opened: bool,
    id: u64,
) -> Result<Out, HubFault> {
    if is_opened {
        open(hub, desk, sink, id)
    } else {
        end(hub, desk, sink, id)
    }
}

fn at_once<K: Preparer>(rt: &impl Abort, hub: &mut Hub, desk: &mut K, sink: &mut LimitedSink) {
    for (is_opened, first, behind, wanted) in &AT_ONCE {
        for id in *first..*behind {
            same_out(rt, &open_or_end(hub, desk, sink, *is_opened, id), wanted);
        }
    }
}

/// Each of 4,096 connections is opened and ended, then 64 are open at once.
pub(crate) fn open_and_close<K: Preparer>(
    rt: &impl Abort,
    alloc: Global,
    hub: &mut Hub,
    desk: &mut K,
) {
    let mut sink = LimitedSink::new(alloc, 1000).expect(rt, "memory");
    for id in 0..4_096u64 {
        open_twice(rt, hub, desk, &mut sink, id);
    }
    at_once(rt, hub, desk, &mut sink);
}

#[test]
fn connections_open_and_close(rt: HostRuntime) {
    over_memory(&rt, rt.alloc(), false, Run::OpenAndClose);
}

#[test]
fn fault_numbers(rt: HostRuntime) {
    same(&rt, &HubFault::UnknownConnection.number(), &50);
    same(&rt, &HubFault::TooMany.number(), &51);
    same(&rt, &HubFault::Memory.number(), &52);
}

const INSTALLED: &str =
    "HTTP/1.1 200 OK\r\nContent-Type: application/json\r\nContent-Length: 54\r\nConnection: close\r\n\r\n{\"edition\":1,\"name\":\"gem\",\"number\":1,\"verb\":\"install\"}";

// The pieces, until one is answered: how many there were.
fn take_pieces<K: Preparer>(
    rt: &impl Abort,
    hub: &mut Hub,
    desk: &mut K,
    sink: &mut LimitedSink,
    pieces: &[&[u8]],
) -> usize {
    send(hub, desk, Event::Opened(1, Kind::Http), sink).expect(rt, "a connection");
    for (count, piece) in pieces.iter().enumerate() {
        match send(hub, desk, Event::Bytes(1, piece), sink).expect(rt, "a piece") {
            Out::More => {}
            Out::Close => return count.saturating_add(1),
        }
    }
    0
}

// Their count, and what was put into a sink with this room.
fn told_pieces<K: Preparer>(
    rt: &impl Abort,
    alloc: Global,
    hub: &mut Hub,
    desk: &mut K,
    pieces: &[&[u8]],
    room: usize,
) -> String {
    let mut sink = LimitedSink::new(alloc, room).expect(rt, "memory");
    let count = take_pieces(rt, hub, desk, &mut sink, pieces);
    let text = str::from_utf8(sink.taken()).unwrap_or("not UTF-8");
    format!(in alloc; "{count} {text}").expect(rt, "memory")
}

// What is told of an install whose octets come one by one.
fn told_octets<K: Preparer>(rt: &impl Abort, alloc: Global, hub: &mut Hub, desk: &mut K) -> String {
    let mut pieces = Vec::new(alloc);
    for octet in PUT.chunks(1) {
        pieces.push(octet).expect(rt, "memory");
    }
    told_pieces(rt, alloc, hub, desk, &pieces, 1000)
}

/// It is installed once the last of them came.
pub(crate) fn single_octets<K: Preparer>(
    rt: &impl Abort,
    alloc: Global,
    hub: &mut Hub,
    desk: &mut K,
) {
    let told = told_octets(rt, alloc, hub, desk);
    let count = PUT.len();
    let wanted = format!(in alloc; "{count} {INSTALLED}").expect(rt, "memory");
    same_text(rt, told.as_str(), wanted.as_str());
}

#[test]
fn a_request_octet_by_octet(rt: HostRuntime) {
    over_memory(&rt, rt.alloc(), false, Run::SingleOctets);
}

/// What stands behind a request is no second one, and an answer that isn't taken closes too.
pub(crate) fn one_piece<K: Preparer>(rt: &impl Abort, alloc: Global, hub: &mut Hub, desk: &mut K) {
    let piece =
        b"DELETE /databases/gem HTTP/1.1\r\n\r\nDELETE /databases/gem HTTP/1.1\r\n\r\n".as_slice();
    let told = told_pieces(rt, alloc, hub, desk, &[piece], 3);
    same_text(rt, told.as_str(), "1 HTT");
}

#[test]
fn one_request_a_connection(rt: HostRuntime) {
    over_memory(&rt, rt.alloc(), false, Run::OnePiece);
}

const INSTALLED_TOLD: &str =
    "Ok(Close) HTTP/1.1 200 OK\r\nContent-Type: application/json\r\nContent-Length: 54\r\nConnection: close\r\n\r\n{\"edition\":1,\"name\":\"gem\",\"number\":1,\"verb\":\"install\"}";

const FIRST: &str = "Ok(More) 220 gems.test dictcat ready <1@gems.test>\r\n";

const UNKNOWN: &str = "Err(UnknownConnection) ";

// A database is installed between two pieces of a reader's line.
static BETWEEN_TWO_PIECES: [Row; 6] = [
    (Event::Opened(1, Kind::Dict), FIRST),
    (Event::Opened(2, Kind::Http), "Ok(More) "),
    (Event::Bytes(1, b"DEFINE gem op"), "Ok(More) "),
    (Event::Bytes(2, PUT), INSTALLED_TOLD),
    (
        Event::Bytes(1, b"al\r\nQUIT\r\n"),
        "Ok(Close) 150 1 definitions retrieved\r\n151 \"opal\" gem \"Gems\"\r\nopal\r\n  a stone\r\n.\r\n250 ok\r\n221 closing connection\r\n",
    ),
    (Event::Ended(1), UNKNOWN),
];

// The same with the whole line before the install.
static BEFORE_AN_INSTALL: [Row; 5] = [
    (Event::Opened(1, Kind::Dict), FIRST),
    (Event::Opened(2, Kind::Http), "Ok(More) "),
    (
        Event::Bytes(1, b"DEFINE gem opal\r\n"),
        "Ok(More) 550 invalid database\r\n",
    ),
    (Event::Bytes(2, PUT), INSTALLED_TOLD),
    (
        Event::Bytes(1, b"DEFINE gem opal\r\nQUIT\r\n"),
        "Ok(Close) 150 1 definitions retrieved\r\n151 \"opal\" gem \"Gems\"\r\nopal\r\n  a stone\r\n.\r\n250 ok\r\n221 closing connection\r\n",
    ),
];

#[test]
fn installs_beside_a_line(rt: HostRuntime) {
    over_memory(&rt, rt.alloc(), false, Run::Rows(&BETWEEN_TWO_PIECES));
}

#[test]
fn a_line_before_an_install(rt: HostRuntime) {
    over_memory(&rt, rt.alloc(), false, Run::Rows(&BEFORE_AN_INSTALL));
}

// Opens connections of both kinds in turn, with the ids from 1.
fn open_many<K: Preparer>(rt: &impl Abort, alloc: Global, hub: &mut Hub, desk: &mut K) {
    let mut sink = LimitedSink::new(alloc, 10_000).expect(rt, "memory");
    for id in 1..65u64 {
        let kind = if id % 2 == 0 { Kind::Http } else { Kind::Dict };
        let out = send(hub, desk, Event::Opened(id, kind), &mut sink);
        same_out(rt, &out, &Ok(Out::More));
    }
}

// The end of an unfinished request installs nothing, and more than 64 connections are refused.
static WITH_MANY: [Row; 7] = [
    (Event::Opened(64, Kind::Http), UNKNOWN),
    (Event::Opened(65, Kind::Http), "Err(TooMany) "),
    (
        Event::Bytes(
            2,
            b"PUT /databases/gem HTTP/1.1\r\nRequest-Id: r1\r\nContent-Length: 101\r\n\r\n53\n00-database-short\tA\tZ\nopal\tZ\tP\nFire Opal\tZ\tP\ndot\to\tF\n00-database-short\n  Gems\nopal\n  a stone\n.dot",
        ),
        "Ok(More) ",
    ),
    (Event::Ended(2), "Ok(More) "),
    (Event::Bytes(2, b"\n"), UNKNOWN),
    (
        Event::Bytes(1, b"STATUS\r\n"),
        "Ok(More) 210 0 databases\r\n",
    ),
    (
        Event::Opened(65, Kind::Dict),
        "Ok(More) 220 gems.test dictcat ready <65@gems.test>\r\n",
    ),
];

/// They come, one ends and another comes.
pub(crate) fn come_and_go<K: Preparer>(
    rt: &impl Abort,
    alloc: Global,
    hub: &mut Hub,
    desk: &mut K,
) {
    open_many(rt, alloc, hub, desk);
    play(rt, alloc, hub, desk, &WITH_MANY);
}

#[test]
fn connections_come_and_go(rt: HostRuntime) {
    over_memory(&rt, rt.alloc(), false, Run::ComeAndGo);
}
