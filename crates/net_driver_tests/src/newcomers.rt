// Many that wait at the listening sockets as a round begins, and one reader's many commands beside another's one.
use crate::serving::{Part, Play, Step, start};
use std::process::Abort;

// A reader is greeted by the id of its place.
fn is_greeted(rt: &impl Abort, play: &mut Play, place: usize) {
    let id = place.saturating_add(1);
    let greeting = format!(in play.alloc;
        "220 localhost dictcat ready <{id}@localhost>\r\n"
    ).expect(rt, "memory");
    play.client(rt, place).got(rt, greeting.as_bytes());
}

/// Each reader from this place up to that one is greeted by the id of its place.
pub(crate) fn are_greeted(rt: &impl Abort, play: &mut Play, from: usize, to: usize) {
    for place in from..to {
        is_greeted(rt, play, place);
    }
}

// Of 20 readers 16 are taken in one round and 4 in the next, in the order in which they came.
const TWENTY: &[Part] = &[
    Part::Bare(1, &[Step::Settle]),
    Part::Bare(20, &[Step::Reader]),
    Part::Bare(
        1,
        &[
            Step::Round,
            Step::Held(16, 0),
            Step::Greeted(0, 16),
            Step::Round,
            Step::Held(20, 0),
            Step::Greeted(16, 20),
        ],
    ),
];

// Three editors and then three readers come: all are taken in one round, the readers before the editors.
const OF_BOTH: &[Part] = &[
    Part::Bare(1, &[Step::Settle]),
    Part::Bare(3, &[Step::Editor]),
    Part::Bare(3, &[Step::Reader]),
    Part::Bare(
        1,
        &[
            Step::Round,
            Step::Got(3, b"220 localhost dictcat ready <1@localhost>\r\n"),
            Step::Got(5, b"220 localhost dictcat ready <3@localhost>\r\n"),
            Step::Held(6, 0),
        ],
    ),
];

static NEWCOMERS: [(u32, &[Part]); 2] = [(0, TWENTY), (0, OF_BOTH)];

#[test]
fn newcomers_in_order(rt: HostRuntime) {
    start(&rt, &rt, &NEWCOMERS);
}

const TWO_READERS: &[Step] = &[
    Step::Reader,
    Step::Got(0, b"220 localhost dictcat ready <1@localhost>\r\n"),
    Step::Reader,
    Step::Got(1, b"220 localhost dictcat ready <2@localhost>\r\n"),
];

// Of 290 requests in one piece two are answered after three rounds, and so is that of the second reader. In the end all are.
const BESIDE_MANY: &[Step] = &[
    Step::AskOften(0, 290),
    Step::Send(1, b"STATUS\r\n"),
    Step::Serve(3),
    Step::GotCount(0, 34),
    Step::GotCount(1, 17),
    Step::Settle,
    Step::GotCount(0, 4_930),
];

static FAIR: [(u32, &[Part]); 1] = [(
    0,
    &[Part::Settled(1, TWO_READERS), Part::Bare(1, BESIDE_MANY)],
)];

#[test]
fn many_commands_at_once(rt: HostRuntime) {
    start(&rt, &rt, &FAIR);
}
