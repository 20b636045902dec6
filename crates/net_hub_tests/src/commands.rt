// Octets of which a hub tells whether they make a command whole.
use super::files::{DELETE, HOST, PUT, gem_desk, told};
use crate::checks::same_text;
use dict_desk::PlainDesk;
use net_hub::{Event, Hub, Kind};
use std::alloc::Global;
use std::process::Abort;

const LIST: &[u8] = b"GET /databases HTTP/1.1\r\n\r\n";

const VIRTUAL: &[u8] =
    b"PUT /virtual/all HTTP/1.1\r\nRequest-Id: v1\r\nContent-Length: 33\r\n\r\n{\"members\":[\"gem\"],\"title\":\"All\"}";

// Requests, in pieces of so many octets, and whether each piece makes a command whole. A command is one by its route and its method
// alone: the last but one has no id.
static CASES: [(&[u8], usize, &str); 12] = [
    (PUT, 4_096, "true "),
    (PUT, 60, "false false true "),
    (DELETE, 4_096, "true "),
    (DELETE, 20, "false false true "),
    (VIRTUAL, 50, "false true "),
    (
        b"POST /databases/gem/rollback HTTP/1.1\r\nRequest-Id: b1\r\n\r\n",
        4_096,
        "true ",
    ),
    (LIST, 4_096, "false "),
    (LIST, 10, "false false false "),
    (b"HEAD /databases HTTP/1.1\r\n\r\n", 4_096, "false "),
    (b"PUT /databases HTTP/1.1\r\n\r\n", 4_096, "false "),
    (b"DELETE /databases/gem HTTP/1.1\r\n\r\n", 4_096, "true "),
    (b"DELETE /databases/gem\r\n\r\n", 4_096, "false "),
];

// Whether each piece of so many octets does, before it comes.
fn asked(
    rt: &impl Abort,
    alloc: Global,
    hub: &mut Hub,
    desk: &mut PlainDesk,
    octets: &[u8],
    size: usize,
) -> String {
    let mut words = String::new(alloc);
    for piece in octets.chunks(size.min(4_096).max(1)) {
        let word = if hub.asks_change(1, piece) {
            "true "
        } else {
            "false "
        };
        words.push_str(word).expect(rt, "memory");
        told(rt, alloc, hub, desk, Event::Bytes(1, piece));
    }
    words
}

fn asked_anew(rt: &impl Abort, alloc: Global, octets: &[u8], size: usize) -> String {
    let mut desk = gem_desk(rt, alloc);
    let mut hub = Hub::new(alloc, HOST).expect(rt, "memory");
    told(rt, alloc, &mut hub, &mut desk, Event::Opened(1, Kind::Http));
    asked(rt, alloc, &mut hub, &mut desk, octets, size)
}

#[test]
fn commands_are_told(rt: HostRuntime) {
    for (octets, size, wanted) in &CASES {
        let words = asked_anew(&rt, rt.alloc(), *octets, *size);
        same_text(&rt, words.as_str(), *wanted);
    }
}

// Those of a reader don't, nor those of no connection.
#[test]
fn other_octets_are_no_command(rt: HostRuntime) {
    let mut desk = gem_desk(&rt, rt.alloc());
    let mut hub = Hub::new(rt.alloc(), HOST).expect(&rt, "memory");
    told(
        &rt,
        rt.alloc(),
        &mut hub,
        &mut desk,
        Event::Opened(1, Kind::Dict),
    );
    for octets in [DELETE, b"QUIT\r\n", DELETE] {
        let words = asked(&rt, rt.alloc(), &mut hub, &mut desk, octets, 4_096);
        same_text(&rt, words.as_str(), "false ");
    }
}
