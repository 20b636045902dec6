// Requests over a desk in memory, answered octet for octet.

use crate::checks::{holds, same, same_text, same_text_of};
use dict_desk::{PlainDesk, Preparer};
use dict_proto::{LimitedSink, Sink};
use http_service::{Answer, Need, Service, Status, need};
use memchr::memmem;
use std::alloc::Global;
use std::process::Abort;

const NOT_FOUND: &str =
    "HTTP/1.1 404 Not Found\r\nContent-Type: application/json\r\nContent-Length: 21\r\nConnection: close\r\n\r\n{\"error\":\"not found\"}";

const BAD_REQUEST: &str =
    "HTTP/1.1 400 Bad Request\r\nContent-Type: application/json\r\nContent-Length: 23\r\nConnection: close\r\n\r\n{\"error\":\"bad request\"}";

const TOO_LARGE: &str =
    "HTTP/1.1 413 Content Too Large\r\nContent-Type: application/json\r\nContent-Length: 21\r\nConnection: close\r\n\r\n{\"error\":\"too large\"}";

const NOT_ALLOWED: &str =
    "HTTP/1.1 405 Method Not Allowed\r\nContent-Type: application/json\r\nContent-Length: 30\r\nAllow: PUT, DELETE\r\nConnection: close\r\n\r\n{\"error\":\"method not allowed\"}";

const EMPTY_LIST: &str =
    "HTTP/1.1 200 OK\r\nContent-Type: application/json\r\nContent-Length: 2\r\nConnection: close\r\n\r\n[]";

const UNKNOWN: &str =
    "HTTP/1.1 409 Conflict\r\nContent-Type: application/json\r\nContent-Length: 33\r\nConnection: close\r\n\r\n{\"reason\":\"Unknown\",\"refusal\":21}";

const INSTALLED: &str =
    "HTTP/1.1 200 OK\r\nContent-Type: application/json\r\nContent-Length: 54\r\nConnection: close\r\n\r\n{\"edition\":1,\"name\":\"gem\",\"number\":1,\"verb\":\"install\"}";

const ONE: &str =
    "HTTP/1.1 200 OK\r\nContent-Type: application/json\r\nContent-Length: 74\r\nConnection: close\r\n\r\n[{\"current\":1,\"former\":null,\"kind\":\"regular\",\"name\":\"gem\",\"title\":\"Gems\"}]";

const ALL: &str =
    "HTTP/1.1 200 OK\r\nContent-Type: application/json\r\nContent-Length: 57\r\nConnection: close\r\n\r\n{\"edition\":null,\"name\":\"all\",\"number\":2,\"verb\":\"virtual\"}";

const MOVED: &str =
    "HTTP/1.1 200 OK\r\nContent-Type: application/json\r\nContent-Length: 55\r\nConnection: close\r\n\r\n{\"edition\":null,\"name\":\"all\",\"number\":3,\"verb\":\"place\"}";

const NO_FORMER: &str =
    "HTTP/1.1 409 Conflict\r\nContent-Type: application/json\r\nContent-Length: 34\r\nConnection: close\r\n\r\n{\"reason\":\"NoFormer\",\"refusal\":23}";

// All of these.
static WHOLE: [&str; 11] = [
    NOT_FOUND,
    BAD_REQUEST,
    TOO_LARGE,
    NOT_ALLOWED,
    EMPTY_LIST,
    UNKNOWN,
    INSTALLED,
    ONE,
    ALL,
    MOVED,
    NO_FORMER,
];

// Whether the answer's `Content-Length` is the length of its body.
fn is_framed(rt: &impl Abort, alloc: Global, answer: &[u8]) -> bool {
    let Some(end) = memmem::find(answer, b"\r\n\r\n") else {
        return false;
    };
    let len = answer.len().saturating_sub(end).saturating_sub(4);
    let line = format!(in alloc; "\r\nContent-Length: {len}\r\n").expect(rt, "memory");
    memmem::find(answer, line.as_bytes()).is_some()
}

#[test]
fn lengths_of_bodies(rt: HostRuntime) {
    for answer in &WHOLE {
        holds(&rt, is_framed(&rt, rt.alloc(), answer.as_bytes()), answer);
    }
}

/// What a request is answered that is whole or refused.
pub(crate) fn told<K: Preparer>(
    rt: &impl Abort,
    alloc: Global,
    desk: &mut K,
    request: &[u8],
) -> String {
    if let Need::More = need(request) {
        return String::from_str(alloc, "more is needed").expect(rt, "memory");
    }
    let service = Service::new(alloc).expect(rt, "a service");
    let answer = service.respond(alloc, request, desk);
    let text = str::from_utf8(answer.octets()).unwrap_or("not UTF-8");
    String::from_str(alloc, text).expect(rt, "memory")
}

/// The octets of an answer with this status and this body.
pub(crate) fn response(rt: &impl Abort, alloc: Global, status: &str, body: &str) -> String {
    let len = body.len();
    format!(in alloc;
        "HTTP/1.1 {status}\r\nContent-Type: application/json\r\nContent-Length: {len}\r\nConnection: close\r\n\r\n{body}"
    ).expect(rt, "memory")
}

static REFUSED: [(&str, &str); 8] = [
    ("GET /databases HTTP/1.1\r\n\r\n", EMPTY_LIST),
    ("GET /database HTTP/1.1\r\n\r\n", NOT_FOUND),
    ("GET /databases/gem HTTP/1.1\r\n\r\n", NOT_ALLOWED),
    ("DELETE /databases/gem HTTP/1.1\r\n\r\n", BAD_REQUEST),
    ("GET /databases HTTP/9\r\n\r\n", BAD_REQUEST),
    (
        "PUT /databases/gem HTTP/1.1\r\nContent-Length: 83886081\r\n\r\n",
        TOO_LARGE,
    ),
    (
        "PUT /databases/gem HTTP/1.1\r\nRequest-Id: a\r\nContent-Length: 3\r\n\r\n00\n",
        BAD_REQUEST,
    ),
    (
        "POST /databases/gem/place HTTP/1.1\r\nRequest-Id: a\r\nContent-Length: 2\r\n\r\n{}",
        BAD_REQUEST,
    ),
];

static DONE: [(&str, &str); 7] = [
    (
        "DELETE /databases/gem HTTP/1.1\r\nRequest-Id: r0\r\nContent-Length: 0\r\n\r\n",
        UNKNOWN,
    ),
    (
        "PUT /databases/gem HTTP/1.1\r\nRequest-Id: r1\r\nContent-Length: 101\r\n\r\n53\n00-database-short\tA\tZ\nopal\tZ\tP\nFire Opal\tZ\tP\ndot\to\tF\n00-database-short\n  Gems\nopal\n  a stone\n.dot\n",
        INSTALLED,
    ),
    (
        "PUT /databases/gem HTTP/1.1\r\nRequest-Id: r1\r\nContent-Length: 10\r\n\r\nno edition",
        INSTALLED,
    ),
    ("GET /databases HTTP/1.1\r\n\r\n", ONE),
    (
        "POST /databases/gem/rollback HTTP/1.1\r\nRequest-Id: r2\r\nContent-Length: 0\r\n\r\n",
        NO_FORMER,
    ),
    (
        "PUT /virtual/all HTTP/1.1\r\nRequest-Id: r3\r\nContent-Length: 33\r\n\r\n{\"members\":[\"gem\"],\"title\":\"All\"}",
        ALL,
    ),
    (
        "POST /databases/all/place HTTP/1.1\r\nRequest-Id: r4\r\nContent-Length: 11\r\n\r\n{\"place\":0}",
        MOVED,
    ),
];

// Sends requests one after the other.
fn send<K: Preparer>(rt: &impl Abort, alloc: Global, desk: &mut K, rows: &[(&str, &str)]) {
    for (request, answer) in rows {
        same_text_of(
            rt,
            told(rt, alloc, desk, request.as_bytes()).as_str(),
            *answer,
            request,
        );
    }
}

#[test]
fn refusals(rt: HostRuntime) {
    let mut desk = PlainDesk::new(rt.alloc());
    send(&rt, rt.alloc(), &mut desk, &REFUSED);
}

#[test]
fn commands(rt: HostRuntime) {
    let mut desk = PlainDesk::new(rt.alloc());
    send(&rt, rt.alloc(), &mut desk, &DONE);
}

#[test]
fn needs(rt: HostRuntime) {
    same(
        &rt,
        &need(b"GET /databases HTTP/1.1\r\n\r\n"),
        &Need::Whole(27),
    );
    same(
        &rt,
        &need(b"GET /databases HTTP/9\r\n\r\n"),
        &Need::Refused(Status::BadRequest),
    );
}

// What comes of two answers and more in a sink with room for five octets.
fn told_put(rt: &impl Abort, alloc: Global) -> String {
    let text = String::from_str(alloc, "def").expect(rt, "memory");
    let made = Answer::Made(text.into_bytes());
    let mut sink = LimitedSink::new(alloc, 5).expect(rt, "a sink");
    let first = Answer::Fixed("abc").put(&mut sink).is_ok();
    let second = made.put(&mut sink).is_ok();
    let third = sink.put(b"g").is_ok();
    let taken = str::from_utf8(sink.taken()).unwrap_or("not UTF-8");
    format!(in alloc; "{first} {second} {third} {taken}").expect(rt, "memory")
}

#[test]
fn an_answer_is_put(rt: HostRuntime) {
    same_text(
        &rt,
        told_put(&rt, rt.alloc()).as_str(),
        "true false false abcde",
    );
    same(&rt, &Answer::Fixed("a").octets(), &b"a".as_slice());
}
