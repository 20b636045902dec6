// Rounds over a crowd of peers in memory.
use crate::checks::holds;
use crate::crowd::Crowd;
use crate::peer::{Behind, Peer, SILENT, Script};
use dict_fixtures::{PartsDesk, install_long};
use net_driver::EventLoop;
use std::alloc::Global;
use std::process::Abort;

// In how many rounds something happened, and how many connections are open then, and held besides.
#[derive(Clone, Copy)]
struct After(u32, usize, usize);

// So many rounds. In how many of them something happened.
fn rounds(
    rt: &impl Abort,
    event_loop: &mut EventLoop<'_, Peer, Crowd>,
    desk: &mut PartsDesk,
    count: u32,
) -> u32 {
    let mut busy = 0u32;
    for _ in 0..count {
        if event_loop.round(desk).expect(rt, "a round") {
            busy = busy.saturating_add(1);
        }
    }
    busy
}

// What comes of so many rounds.
fn make_rounds(
    rt: &impl Abort,
    event_loop: &mut EventLoop<'_, Peer, Crowd>,
    desk: &mut PartsDesk,
    count: u32,
) -> After {
    let busy = rounds(rt, event_loop, desk, count);
    After(busy, event_loop.open_count(), event_loop.departing_count())
}

// The same over a crowd.
fn come_of(
    rt: &impl Abort,
    alloc: Global,
    desk: &mut PartsDesk,
    crowd: Crowd,
    count: u32,
) -> After {
    let mut event_loop = EventLoop::new(alloc, crowd, "localhost").expect(rt, "memory");
    let after = make_rounds(rt, &mut event_loop, desk, count);
    drop(event_loop);
    after
}

// Asks for the status by each reading, and takes what it is sent.
const BUSY: Script = Script {
    pieces: &[b"STATUS\r\n"],
    behind: Behind::Repeat,
    ..SILENT
};

// Readers wait at their listening socket. After so many rounds so many are open, and in each round something happened. A call
// that finds no descriptor is the last of its round, and each round asks again.
static OPEN: [(u32, usize); 4] = [(1, 1), (5, 1), (6, 17), (7, 33)];

fn want_descriptors(rt: &impl Abort, alloc: Global, count: u32, open: usize) {
    let mut desk = PartsDesk::new(alloc, 0);
    let crowd = Crowd::new(alloc, BUSY, 1, 5, u32::MAX);
    let after = come_of(rt, alloc, &mut desk, crowd, count);
    drop(desk);
    holds(rt, after.0 == count && after.1 == open, "others are open");
}

// Descriptors run out while one reader is busy, and come back.
#[test]
fn descriptors_come_back(rt: HostRuntime) {
    for (count, open) in &OPEN {
        want_descriptors(&rt, rt.alloc(), *count, *open);
    }
}

// Asks once for an entry of 2.7 million octets, and takes none of what it is sent.
const DEAF: Script = Script {
    pieces: &[b"DEFINE gem opal\r\n"],
    takes: 0,
    ..SILENT
};

fn wait_for_many(rt: &impl Abort, alloc: Global, desk: &mut PartsDesk) {
    install_long(alloc, desk).expect(rt, "an edition");
    let crowd = Crowd::new(alloc, DEAF, 40, 0, 0);
    let after = come_of(rt, alloc, desk, crowd, 400);
    holds(rt, after.1 == 0 && after.2 == 32, "others are held");
}

// Of 40 that are closed with 1 MiB each, the last 32 are held, whose room is as much as may be held together.
#[test]
fn much_waits_for_few(rt: HostRuntime) {
    let mut desk = PartsDesk::new(rt.alloc(), 0);
    wait_for_many(&rt, rt.alloc(), &mut desk);
    drop(desk);
}
