// Desks that fail at one of their calls, and sinks that fail at one of their octets.

use super::files::{DELETE, DELETED_TOLD, Row, play, send, told};
use super::runs::{Run, over_failing, over_memory};
use crate::checks::same;
use dict_desk::Preparer;
use dict_proto::LimitedSink;
use net_hub::{Event, Hub, Kind};
use std::alloc::Global;
use std::process::Abort;

const FOUND: &str =
    "150 1 definitions retrieved\r\n151 \"opal\" gem \"Gems\"\r\nopal\r\n  a stone\r\n.\r\n250 ok\r\n";

const FOUND_TOLD: &str =
    "Ok(More) 150 1 definitions retrieved\r\n151 \"opal\" gem \"Gems\"\r\nopal\r\n  a stone\r\n.\r\n250 ok\r\n";

const NOT_NOW: &str = "Ok(More) 420 server temporarily unavailable\r\n";

const UNAVAILABLE: &str =
    "Ok(Close) HTTP/1.1 503 Service Unavailable\r\nContent-Type: application/json\r\nContent-Length: 23\r\nConnection: close\r\n\r\n{\"error\":\"unavailable\"}";

// After how many calls the desk fails, and what is told of a reader, of an editor, and of another who sends the same
// request.
static ROWS: [(u64, &str, &str, &str); 6] = [
    (0, NOT_NOW, DELETED_TOLD, DELETED_TOLD),
    (
        1,
        "Ok(Close) 150 1 definitions retrieved\r\n",
        DELETED_TOLD,
        DELETED_TOLD,
    ),
    (2, FOUND_TOLD, UNAVAILABLE, DELETED_TOLD),
    (3, FOUND_TOLD, UNAVAILABLE, DELETED_TOLD),
    (4, FOUND_TOLD, DELETED_TOLD, UNAVAILABLE),
    (5, FOUND_TOLD, DELETED_TOLD, DELETED_TOLD),
];

static A_READER_AND_TWO_EDITORS: [Row; 3] = [
    (
        Event::Opened(1, Kind::Dict),
        "Ok(More) 220 gems.test dictcat ready <1@gems.test>\r\n",
    ),
    (Event::Opened(2, Kind::Http), "Ok(More) "),
    (Event::Opened(3, Kind::Http), "Ok(More) "),
];

/// A reader's line and an editor's request, which comes twice, are answered as a row has it.
pub(crate) fn meet_no_memory<K: Preparer>(
    rt: &impl Abort,
    alloc: Global,
    hub: &mut Hub,
    desk: &mut K,
    wanted: (&'static str, &'static str, &'static str),
) {
    play(rt, alloc, hub, desk, &A_READER_AND_TWO_EDITORS);
    let rows = [
        (Event::Bytes(1, b"DEFINE gem opal\r\n"), wanted.0),
        (Event::Bytes(2, DELETE), wanted.1),
        (Event::Bytes(3, DELETE), wanted.2),
    ];
    play(rt, alloc, hub, desk, &rows);
}

// For memory: one answer is lost, and what comes after it is answered as ever.
#[test]
fn a_call_finds_no_memory(rt: HostRuntime) {
    for (calls, reader, editor, other) in &ROWS {
        let run = Run::NoMemory(*reader, *editor, *other);
        over_failing(&rt, rt.alloc(), *calls, false, run);
    }
}

// All that wants the desk after a reader's line is answered 420 or 503, and other lines as ever.
static UNAVAILABLE_AFTER: [Row; 2] = [
    (Event::Bytes(3, DELETE), UNAVAILABLE),
    (
        Event::Bytes(2, b"STATUS\r\nCLIENT x\r\nQUIT\r\n"),
        "Ok(Close) 420 server temporarily unavailable\r\n250 ok\r\n221 closing connection\r\n",
    ),
];

static TWO_READERS_AND_AN_EDITOR: [Row; 3] = [
    (
        Event::Opened(1, Kind::Dict),
        "Ok(More) 220 gems.test dictcat ready <1@gems.test>\r\n",
    ),
    (
        Event::Opened(2, Kind::Dict),
        "Ok(More) 220 gems.test dictcat ready <2@gems.test>\r\n",
    ),
    (Event::Opened(3, Kind::Http), "Ok(More) "),
];

/// All is unavailable after a reader's line.
pub(crate) fn meet_no_store<K: Preparer>(
    rt: &impl Abort,
    alloc: Global,
    hub: &mut Hub,
    desk: &mut K,
) {
    play(rt, alloc, hub, desk, &TWO_READERS_AND_AN_EDITOR);
    told(
        rt,
        alloc,
        hub,
        desk,
        Event::Bytes(1, b"DEFINE gem opal\r\n"),
    );
    play(rt, alloc, hub, desk, &UNAVAILABLE_AFTER);
}

// As a store fails.
#[test]
fn a_call_finds_no_store(rt: HostRuntime) {
    for calls in 0..4u64 {
        over_failing(&rt, rt.alloc(), calls, true, Run::NoStore);
    }
}

// What is told of a reader whose sink has this room, of its next line, and what the sink took.
fn told_within<K: Preparer>(
    rt: &impl Abort,
    alloc: Global,
    hub: &mut Hub,
    desk: &mut K,
    id: u64,
    room: usize,
) -> String {
    let mut sink = LimitedSink::new(alloc, room).expect(rt, "memory");
    let out = send(
        hub,
        desk,
        Event::Bytes(id, b"DEFINE gem opal\r\n"),
        &mut sink,
    );
    let next = send(hub, desk, Event::Bytes(id, b"STATUS\r\n"), &mut sink);
    let text = str::from_utf8(sink.taken()).unwrap_or("not UTF-8");
    format!(in alloc; "{out:?} {next:?} {text}").expect(rt, "memory")
}

static ONE_OPENED: [Row; 1] = [(
    Event::Opened(0, Kind::Dict),
    "Ok(More) 220 gems.test dictcat ready <0@gems.test>\r\n",
)];

static ONE_ANSWERED: [Row; 1] = [(Event::Bytes(0, b"DEFINE gem opal\r\n"), FOUND_TOLD)];

fn check_room<K: Preparer>(
    rt: &impl Abort,
    alloc: Global,
    hub: &mut Hub,
    desk: &mut K,
    room: usize,
) {
    let id = (room as u64).saturating_add(1);
    told(rt, alloc, hub, desk, Event::Opened(id, Kind::Dict));
    let answer = told_within(rt, alloc, hub, desk, id, room);
    let taken = answer.strip_prefix("Ok(Close) Err(UnknownConnection) ");
    same(rt, &taken, &FOUND.get(..room));
}

/// A sink that fails within an answer closes its connection alone.
pub(crate) fn meet_no_room<K: Preparer>(
    rt: &impl Abort,
    alloc: Global,
    hub: &mut Hub,
    desk: &mut K,
) {
    play(rt, alloc, hub, desk, &ONE_OPENED);
    for room in 0..FOUND.len() {
        check_room(rt, alloc, hub, desk, room);
    }
    play(rt, alloc, hub, desk, &ONE_ANSWERED);
}

#[test]
fn a_sink_fails_at_each_octet(rt: HostRuntime) {
    over_memory(&rt, rt.alloc(), true, Run::NoRoom);
}
