// The octets that `curl` 7.88.1 sends for the commands in `docs/FORMATS.md`, taken down at a socket.
use crate::table::ask;
use dict_desk::PlainDesk;
use std::alloc::Global;
use std::process::Abort;

/// The octets of a request, and the status and the body of its answer.
#[derive(Clone, Copy)]
struct Sent(&'static str, &'static str, &'static str);

static SENT: [Sent; 7] = [
    Sent(
        "PUT /databases/gem HTTP/1.1\r\nHost: 127.0.0.1:8402\r\nUser-Agent: curl/7.88.1\r\nAccept: */*\r\nRequest-Id: r1\r\nContent-Length: 101\r\nContent-Type: application/x-www-form-urlencoded\r\n\r\n53\n00-database-short\tA\tZ\nopal\tZ\tP\nFire Opal\tZ\tP\ndot\to\tF\n00-database-short\n  Gems\nopal\n  a stone\n.dot\n",
        "200 OK",
        "{\"edition\":1,\"name\":\"gem\",\"number\":1,\"verb\":\"install\"}",
    ),
    Sent(
        "GET /databases HTTP/1.1\r\nHost: 127.0.0.1:8402\r\nUser-Agent: curl/7.88.1\r\nAccept: */*\r\n\r\n",
        "200 OK",
        "[{\"current\":1,\"former\":null,\"kind\":\"regular\",\"name\":\"gem\",\"title\":\"Gems\"}]",
    ),
    Sent(
        "POST /databases/gem/rollback HTTP/1.1\r\nHost: 127.0.0.1:8402\r\nUser-Agent: curl/7.88.1\r\nAccept: */*\r\nRequest-Id: r2\r\n\r\n",
        "409 Conflict",
        "{\"reason\":\"NoFormer\",\"refusal\":23}",
    ),
    Sent(
        "POST /databases/gem/place HTTP/1.1\r\nHost: 127.0.0.1:8402\r\nUser-Agent: curl/7.88.1\r\nAccept: */*\r\nRequest-Id: r3\r\nContent-Length: 11\r\nContent-Type: application/x-www-form-urlencoded\r\n\r\n{\"place\":0}",
        "200 OK",
        "{\"edition\":null,\"name\":\"gem\",\"number\":2,\"verb\":\"place\"}",
    ),
    Sent(
        "PUT /virtual/all HTTP/1.1\r\nHost: 127.0.0.1:8402\r\nUser-Agent: curl/7.88.1\r\nAccept: */*\r\nRequest-Id: r4\r\nContent-Length: 33\r\nContent-Type: application/x-www-form-urlencoded\r\n\r\n{\"members\":[\"gem\"],\"title\":\"All\"}",
        "200 OK",
        "{\"edition\":null,\"name\":\"all\",\"number\":3,\"verb\":\"virtual\"}",
    ),
    Sent(
        "DELETE /databases/all HTTP/1.1\r\nHost: 127.0.0.1:8402\r\nUser-Agent: curl/7.88.1\r\nAccept: */*\r\nRequest-Id: r5\r\n\r\n",
        "200 OK",
        "{\"edition\":null,\"name\":\"all\",\"number\":4,\"verb\":\"retire\"}",
    ),
    Sent(
        "DELETE /databases/all HTTP/1.1\r\nHost: 127.0.0.1:8402\r\nUser-Agent: curl/7.88.1\r\nAccept: */*\r\nRequest-Id: r5\r\n\r\n",
        "200 OK",
        "{\"edition\":null,\"name\":\"all\",\"number\":4,\"verb\":\"retire\"}",
    ),
];

// Sends them one after the other.
fn send(rt: &impl Abort, alloc: Global, desk: &mut PlainDesk) {
    for Sent(request, status, body) in &SENT {
        ask(rt, alloc, desk, request, (*status, *body));
    }
}

#[test]
fn requests_of_curl(rt: HostRuntime) {
    let mut desk = PlainDesk::new(rt.alloc());
    send(&rt, rt.alloc(), &mut desk);
}
