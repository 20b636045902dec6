//! What heads are taken, and what is needed at each front of a request.
use crate::checks::{same, same_text};
use http_request::{Need, RequestReading, Status, Values, need, read_request};
use std::alloc::Global;
use std::process::Abort;

const BAD: Need = Need::Refused(Status::BadRequest);

const LARGE: Need = Need::Refused(Status::ContentTooLarge);

static HEADS: [(&[u8], Need); 30] = [
    (
        b"GET /databases HTTP/1.1\r\nHost: a\r\n\r\nmore",
        Need::Whole(36),
    ),
    (b"GET /a HTTP/1.0\r\n\r\n", Need::Whole(19)),
    (b"GET /a HTTP/1.1\n\nmore", Need::Whole(17)),
    (b"\r\n\nGET /a HTTP/1.1\n\n", Need::Whole(20)),
    (b"GET /a HTTP/1.1\r\nHost: a\r\n\r", Need::More),
    (b"", Need::More),
    (b"\r\n\r\n\r\n", Need::More),
    (b"GET /a HTTP/2.0\r\n", Need::More),
    (b"GET /a HTTP/2.0\r\n\r\n", BAD),
    (b"GET /\xff HTTP/1.1\r\n\r\n", BAD),
    (b"GET /\xc3\xa9 HTTP/1.1\r\n\r\n", Need::Whole(20)),
    (b"GET /a HTTP/1.1\r\nHost : a\r\n\r\n", BAD),
    (b"GET /a HTTP/1.1\r\nA: b\r\n c\r\n\r\n", BAD),
    (b"GET /a HTTP/1.1\r\nA: \xff\r\n\r\n", Need::Whole(25)),
    (
        b"PUT /a HTTP/1.1\r\ncoNTENT-length: \t 2 \r\n\r\nab",
        Need::Whole(43),
    ),
    (
        b"PUT /a HTTP/1.1\r\nContent-Length: 2\r\n\r\nabc",
        Need::Whole(40),
    ),
    (b"PUT /a HTTP/1.1\r\nContent-Length: 2\r\n\r\na", Need::More),
    (b"PUT /a HTTP/1.1\r\nContent-Length: +2\r\n\r\na", BAD),
    (b"PUT /a HTTP/1.1\r\nContent-Length:\r\n\r\na", BAD),
    (b"PUT /a HTTP/1.1\r\nContent-Length: 1 1\r\n\r\na", BAD),
    (b"PUT /a HTTP/1.1\r\nContent-Length: 0x1\r\n\r\na", BAD),
    (
        b"PUT /a HTTP/1.1\r\nContent-Length: 83886080\r\n\r\na",
        Need::More,
    ),
    (
        b"PUT /a HTTP/1.1\r\nContent-Length: 83886081\r\n\r\na",
        LARGE,
    ),
    (
        b"PUT /a HTTP/1.1\r\nContent-Length: 9999999999\r\n\r\na",
        LARGE,
    ),
    (
        b"PUT /a HTTP/1.1\r\nContent-Length: 00000000001\r\n\r\na",
        BAD,
    ),
    (
        b"PUT /a HTTP/1.1\r\nContent-Length: 0000000001\r\n\r\na",
        Need::Whole(48),
    ),
    (
        b"PUT /a HTTP/1.1\r\nContent-Length: 1\r\nContent-Length: 1\r\n\r\na",
        BAD,
    ),
    (
        b"PUT /a HTTP/1.1\r\nContent-Length: 1\r\ncontent-length: 1\r\n\r\na",
        BAD,
    ),
    (b"PUT /a HTTP/1.1\r\nTRANSFER-ENCODING:\r\n\r\n", BAD),
    (
        b"PUT /a HTTP/1.1\r\nTransfer-Encoding: identity\r\nContent-Length: 99999999\r\n\r\n",
        BAD,
    ),
];

#[test]
fn heads_and_lengths(rt: HostRuntime) {
    for (octets, wanted) in &HEADS {
        same(&rt, &need(octets), wanted);
    }
}

#[test]
fn fronts(rt: HostRuntime) {
    let put =
        b"PUT /virtual/all HTTP/1.1\r\nRequest-Id: r2\r\nContent-Length: 33\r\n\r\n{\"members\":[\"gem\"],\"title\":\"All\"}";
    for n in 0..put.len() {
        same(&rt, &need(&put[..n]), &Need::More);
    }
    same(&rt, &need(put), &Need::Whole(put.len()));
}

#[test]
fn whatever_follows(rt: HostRuntime) {
    let put = b"POST /databases/gem/rollback HTTP/1.1\r\nRequest-Id: r2\r\n\r\n";
    for octet in 0..=255 {
        let mut longer = put.to_vec(rt.alloc()).expect(&rt, "memory");
        longer.push(octet).expect(&rt, "memory");
        same(&rt, &need(&longer), &Need::Whole(put.len()));
    }
}

// A front, so many of a text, and an end.
fn filled(
    rt: &impl Abort,
    alloc: Global,
    front: &str,
    text: &str,
    count: usize,
    end: &str,
) -> String {
    let mut head = String::from_str(alloc, front).expect(rt, "memory");
    for _ in 0..count {
        head.push_str(text).expect(rt, "memory");
    }
    head.push_str(end).expect(rt, "memory");
    head
}

// How many octets that is, and what it needs.
fn told_filled(
    rt: &impl Abort,
    alloc: Global,
    front: &str,
    text: &str,
    count: usize,
    end: &str,
) -> String {
    let head = filled(rt, alloc, front, text, count, end);
    let (len, needed) = (head.len(), need(head.as_bytes()));
    format!(in alloc; "{len} {needed:?}").expect(rt, "memory")
}

// A head has at most 8,192 octets and 32 headers.
static LIMITS: [(&str, &str, usize, &str, &str); 10] = [
    (
        "GET /a HTTP/1.1\r\nA: ",
        "a",
        8167,
        "\r\n\r\n",
        "8191 Whole(8191)",
    ),
    (
        "GET /a HTTP/1.1\r\nA: ",
        "a",
        8168,
        "\r\n\r\n",
        "8192 Whole(8192)",
    ),
    (
        "GET /a HTTP/1.1\r\nA: ",
        "a",
        8169,
        "\r\n\r\n",
        "8193 Refused(BadRequest)",
    ),
    ("GET /a HTTP/1.1\r\nA: ", "a", 8169, "\r\n", "8191 More"),
    (
        "GET /a HTTP/1.1\r\nA: ",
        "a",
        8169,
        "\r\n\r",
        "8192 Refused(BadRequest)",
    ),
    ("GET /", "a", 8186, "", "8191 More"),
    ("GET /", "a", 8187, "", "8192 Refused(BadRequest)"),
    (
        "GET /a HTTP/1.1\r\n",
        "A: b\r\n",
        32,
        "\r\n",
        "211 Whole(211)",
    ),
    ("GET /a HTTP/1.1\r\n", "A: b\r\n", 33, "", "215 More"),
    (
        "GET /a HTTP/1.1\r\n",
        "A: b\r\n",
        33,
        "\r\n",
        "217 Refused(BadRequest)",
    ),
];

#[test]
fn lengths_and_counts(rt: HostRuntime) {
    for (front, text, count, end, wanted) in &LIMITS {
        same_text(
            &rt,
            told_filled(&rt, rt.alloc(), front, text, *count, end).as_str(),
            *wanted,
        );
    }
}

// A request's method, target, ids and body.
fn told(rt: &impl Abort, alloc: Global, octets: &[u8]) -> String {
    let RequestReading::Whole(request) = read_request(octets) else {
        return String::from_str(alloc, "not whole").expect(rt, "memory");
    };
    let ids = match request.ids {
        Values::Absent => "none",
        Values::One(id) => str::from_utf8(id).unwrap_or("not UTF-8"),
        Values::Several => "several",
    };
    let method = str::from_utf8(request.method).unwrap_or("not UTF-8");
    let body = str::from_utf8(request.body).unwrap_or("not UTF-8");
    let target = request.target;
    format!(in alloc; "{method},{target},{ids},{body}").expect(rt, "memory")
}

static REQUESTS: [(&[u8], &str); 3] = [
    (
        b"PUT /databases/%67em?a=\xc3\xa9 HTTP/1.1\r\nrequest-ID: \tr 1 \r\nContent-Length: 2\r\n\r\nabc",
        "PUT,/databases/%67em?a=é,r 1,ab",
    ),
    (
        b"PUT /a HTTP/1.1\r\nRequest-Id: r1\r\nRequest-Id: r2\r\n\r\n",
        "PUT,/a,several,",
    ),
    (
        b"PUT /a HTTP/1.1\r\nRequest-Ids: r1\r\n\r\n",
        "PUT,/a,none,",
    ),
];

#[test]
fn requests(rt: HostRuntime) {
    for (octets, wanted) in &REQUESTS {
        same_text(&rt, told(&rt, rt.alloc(), octets).as_str(), *wanted);
    }
}
