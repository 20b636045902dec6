// Desks that fail at one of their calls.

use crate::answers::told;
use crate::checks::same_text_of;
use crate::table::{INSTALL, Row, request_of, run};
use dict_desk::{PlainDesk, Preparer};
use dict_fixtures::FailingDesk;
use std::alloc::Global;
use std::process::Abort;

const UNAVAILABLE: &str =
    "HTTP/1.1 503 Service Unavailable\r\nContent-Type: application/json\r\nContent-Length: 23\r\nConnection: close\r\n\r\n{\"error\":\"unavailable\"}";

static ROWS: [Row; 5] = [
    INSTALL,
    Row(
        "POST /databases/gem/rollback",
        "Request-Id: r2\r\n",
        "",
        "409 Conflict",
        "{\"reason\":\"NoFormer\",\"refusal\":23}",
    ),
    Row(
        "POST /databases/gem/place",
        "Request-Id: r3\r\n",
        "{\"place\":0}",
        "200 OK",
        "{\"edition\":null,\"name\":\"gem\",\"number\":2,\"verb\":\"place\"}",
    ),
    Row(
        "PUT /virtual/all",
        "Request-Id: r4\r\n",
        "{\"members\":[\"gem\"],\"title\":\"All\"}",
        "200 OK",
        "{\"edition\":null,\"name\":\"all\",\"number\":3,\"verb\":\"virtual\"}",
    ),
    Row(
        "DELETE /databases/all",
        "Request-Id: r5\r\n",
        "",
        "200 OK",
        "{\"edition\":null,\"name\":\"all\",\"number\":4,\"verb\":\"retire\"}",
    ),
];

// This request is answered 503.
fn is_unavailable<K: Preparer>(rt: &impl Abort, alloc: Global, desk: &mut K, request: &str) {
    let answer = told(rt, alloc, desk, request.as_bytes());
    same_text_of(rt, answer.as_str(), UNAVAILABLE, request);
}

// The requests of these rows are answered 503.
fn are_unavailable<K: Preparer>(rt: &impl Abort, alloc: Global, desk: &mut K, rows: &[Row]) {
    for row in rows {
        let request = request_of(rt, alloc, *row);
        is_unavailable(rt, alloc, desk, &request);
    }
}

// Which row's request meets a failure behind so many calls: each makes two, and the install, which comes first, three.
fn which(calls: u64) -> usize {
    (calls.saturating_sub(1) / 2) as usize
}

// The request that finds no memory is answered 503, and sent again it is answered as ever.
fn meet_no_memory(rt: &impl Abort, alloc: Global, desk: &mut FailingDesk, which: usize) {
    let (before, after) = ROWS.split_at(which.min(ROWS.len()));
    run(rt, alloc, desk, before);
    are_unavailable(rt, alloc, desk, after.get(..1).unwrap_or(&[]));
    run(rt, alloc, desk, after);
}

#[test]
fn a_call_finds_no_memory(rt: HostRuntime) {
    for calls in 0..11u64 {
        let mut desk = FailingDesk::new(PlainDesk::new(rt.alloc()), calls, false);
        meet_no_memory(&rt, rt.alloc(), &mut desk, which(calls));
    }
}

// As a store fails: the request and all after it are answered 503, the list too.
fn meet_no_store(rt: &impl Abort, alloc: Global, desk: &mut FailingDesk, which: usize) {
    let (before, after) = ROWS.split_at(which.min(ROWS.len()));
    run(rt, alloc, desk, before);
    are_unavailable(rt, alloc, desk, after);
    is_unavailable(rt, alloc, desk, "GET /databases HTTP/1.1\r\n\r\n");
}

#[test]
fn a_call_finds_no_store(rt: HostRuntime) {
    for calls in 0..11u64 {
        let mut desk = FailingDesk::new(PlainDesk::new(rt.alloc()), calls, true);
        meet_no_store(&rt, rt.alloc(), &mut desk, which(calls));
    }
}
