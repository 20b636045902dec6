// As many connections as there may be, and more.
use crate::serving::{Part, Step, start};

// 64 are open at once, and the next is closed at once. After one has left, there is a place again, and its id wasn't given.
const THE_SIXTY_FIFTH: &[Part] = &[
    Part::Settled(64, &[Step::Editor]),
    Part::Settled(
        1,
        &[
            Step::Held(64, 0),
            Step::Reader,
            Step::Got(64, b""),
            Step::HasEnded(64),
            Step::Leave,
            Step::Leave,
            Step::Held(63, 0),
            Step::Reader,
            Step::Got(63, b"220 localhost dictcat ready <65@localhost>\r\n"),
        ],
    ),
];

// Connections that were answered and never end their side: 128 of them are held, and each further one takes the place of
// the oldest.
const ANSWERED: &[Part] = &[
    Part::Settled(150, &[Step::Reader, Step::LastSends(b"QUIT\r\n")]),
    Part::Settled(1, &[Step::Held(0, 128)]),
];

// Peers that go without reading what was sent to them are held no longer.
const GONE: &[Part] = &[
    Part::Settled(200, &[Step::Reader, Step::Leave, Step::Editor, Step::Leave]),
    Part::Settled(1, &[Step::Held(0, 0)]),
];

static LIMITS: [(u32, &[Part]); 3] = [(0, THE_SIXTY_FIFTH), (0, ANSWERED), (0, GONE)];

#[test]
fn as_many_as_there_may_be(rt: HostRuntime) {
    start(&rt, &rt, &LIMITS);
}
