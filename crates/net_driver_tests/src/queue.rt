// What waits for a peer.
use crate::checks::holds;
use crate::peer::{Peer, SILENT, Script};
use dict_proto::Sink;
use net_outlet::{MAX_WAITING, Queue};
use std::process::Abort;

// It hands on what waits in order: so many octets at each call of a transport that takes at most five.
fn send_by_fives(rt: &impl Abort, queue: &mut Queue, peer: &mut Peer) {
    queue.put(b"first").expect(rt, "room");
    queue.put(b"second").expect(rt, "room");
    let first = queue.send(peer).expect(rt, "a count");
    let second = queue.send(peer).expect(rt, "a count");
    let third = queue.send(peer).expect(rt, "a count");
    holds(rt, (first, second, third) == (5, 5, 1), "other counts");
    holds(rt, queue.is_empty(), "octets wait");
    let is_so = peer.taken.as_slice() == b"firstsecond".as_slice();
    holds(rt, is_so, "other octets");
}

#[test]
fn octets_in_order(rt: HostRuntime) {
    let script = Script {
        at_once: 5,
        ..SILENT
    };
    let mut queue = Queue::new(rt.alloc());
    let mut peer = Peer::new(rt.alloc(), script);
    send_by_fives(&rt, &mut queue, &mut peer);
    drop(peer);
    drop(queue);
}

// It takes up to its limit and nothing more.
fn fill(rt: &impl Abort, queue: &mut Queue) {
    let block = [0u8; 4_096];
    for _ in 0..256u32 {
        queue.put(&block).expect(rt, "room");
    }
    holds(rt, queue.put(b"x").is_err(), "it takes more");
    holds(rt, queue.len() == MAX_WAITING, "another limit");
    holds(rt, queue.failures() == 1, "other failures");
}

#[test]
fn a_full_queue(rt: HostRuntime) {
    let mut queue = Queue::new(rt.alloc());
    fill(&rt, &mut queue);
    drop(queue);
}
