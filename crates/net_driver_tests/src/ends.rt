// Peers that don't read, and peers that end their side early.
use crate::checks::holds;
use crate::serving::{FILLER, Part, Play, Step, start};
use std::process::Abort;

const FIRST: &[u8] = b"220 localhost dictcat ready <1@localhost>\r\n";

// A line whose answer has 33,855 octets.
const ASK: &[u8] = b"DEFINE gem opal\r\n";

const ANSWER: usize = 33_855;

/// What is done by a client that asks and doesn't read.
#[derive(Clone, Copy)]
pub(crate) enum Drowning {
    /// Client 1 asks and reads nothing until its connection is lost.
    Unread,
    /// Client 2 asks a little less often.
    Less,
    /// Client 2 reads to the end, and got each answer, more than 1 MiB.
    Whole,
}

// A client asks so often, or until fewer than so many connections are open. How often it asked.
fn ask(rt: &impl Abort, play: &mut Play, who: usize, most: usize, open: usize) -> usize {
    for asked in 0..most {
        if play.driver.event_loop.open_count() < open {
            return asked;
        }
        play.client(rt, who).send(rt, ASK);
        play.settle(rt);
    }
    most
}

// Client 2 reads to the end. How many octets came.
fn read_to_the_end(rt: &impl Abort, play: &mut Play) -> usize {
    for _ in 0..10_000u32 {
        let came = play.client(rt, 2).read(rt);
        if play.client(rt, 2).has_ended {
            return came;
        }
        play.settle(rt);
    }
    panic!(rt; "no end came")
}

fn is_lost(rt: &impl Abort, play: &mut Play) {
    play.asked = ask(rt, play, 1, 10_000, 2);
    holds(rt, play.asked < 10_000, "it isn't lost");
}

fn is_whole(rt: &impl Abort, play: &mut Play) {
    let came = read_to_the_end(rt, play);
    holds(rt, came > 1_048_576, "no more than 1 MiB");
    let want = play.asked.saturating_mul(ANSWER);
    holds(rt, came == want, "not every answer");
}

/// It is done.
pub(crate) fn drown(rt: &impl Abort, play: &mut Play, drowning: Drowning) {
    match drowning {
        Drowning::Unread => is_lost(rt, play),
        Drowning::Less => play.asked = ask(rt, play, 2, play.asked.saturating_sub(16), 0),
        Drowning::Whole => is_whole(rt, play),
    }
}

// A peer that never reads is asked nothing more, and what waits for it is held; the others are answered meanwhile. One that
// asks a little less, for more than 1 MiB, and then ends its side gets every answer.
const NEVER_READS: &[Step] = &[
    Step::ShortText,
    Step::Reader,
    Step::Got(0, FIRST),
    Step::Reader,
    Step::Drown(Drowning::Unread),
    Step::Held(1, 1),
    Step::Send(0, b"STATUS\r\n"),
    Step::Got(0, b"210 1 databases\r\n"),
    Step::Reader,
    Step::Got(2, b"220 localhost dictcat ready <3@localhost>\r\n"),
    Step::Drown(Drowning::Less),
    Step::End(2),
    Step::Held(1, 2),
    Step::Drown(Drowning::Whole),
];

static NEVER: [(u32, &[Part]); 1] = [(0, &[Part::Settled(1, NEVER_READS)])];

#[test]
fn a_peer_that_never_reads(rt: HostRuntime) {
    start(&rt, &rt, &NEVER);
}

// A client that ends its side behind its last line gets the answer.
const AN_END_BEHIND_THE_LAST_LINE: &[Step] = &[
    Step::Reader,
    Step::Got(0, FIRST),
    Step::Send(0, b"STATUS\r\nSTATUS\r\nunfinished"),
    Step::End(0),
    Step::Got(0, b"210 0 databases\r\n210 0 databases\r\n"),
    Step::HasEnded(0),
    Step::Held(0, 0),
];

// An editor that sends on behind a request gets its answer whole, and a clean end.
const OCTETS_BEHIND_A_REQUEST: &[Step] = &[
    Step::Editor,
    Step::Send(0, b"GET /databases HTTP/1.1\r\n\r\n"),
    Step::Send(0, FILLER),
    Step::Send(0, FILLER),
    Step::Got(
        0,
        b"HTTP/1.1 200 OK\r\nContent-Type: application/json\r\nContent-Length: 2\r\nConnection: close\r\n\r\n[]",
    ),
    Step::HasEnded(0),
    Step::Held(0, 1),
    Step::End(0),
    Step::Held(0, 0),
];

static ENDS: [(u32, &[Part]); 2] = [
    (0, &[Part::Settled(1, AN_END_BEHIND_THE_LAST_LINE)]),
    (0, &[Part::Settled(1, OCTETS_BEHIND_A_REQUEST)]),
];

#[test]
fn octets_and_an_end(rt: HostRuntime) {
    start(&rt, &rt, &ENDS);
}
