// An install that is prepared between rounds: the octets that complete it are held back meanwhile, and commands of others.
use crate::serving::{FILLER, Part, Play, Step, start};
use dict_fixtures::{HEAD, PartsDesk};
use std::process::Abort;

/// How far a desk has come with an install.
#[derive(Clone, Copy)]
pub(crate) enum Progress {
    /// It was told of it.
    Told,
    /// Parts are left.
    Left,
    /// All parts are prepared.
    Prepared,
    /// It was told of one, and it was applied.
    Applied,
    /// It was told of two, and they were applied as they were prepared.
    BothApplied,
}

/// Whether it has come so far.
pub(crate) fn is_at(desk: &PartsDesk, progress: Progress) -> bool {
    match progress {
        Progress::Told => desk.expected > 0,
        Progress::Left => desk.left > 0,
        Progress::Prepared => desk.expected > 0 && desk.left == 0,
        Progress::Applied => desk.expected == 1 && desk.applied == 1,
        Progress::BothApplied => { desk.expected == 2 && desk.applied == 2 && desk.answered == 2 }
    }
}

/// Rounds until it has.
pub(crate) fn round_until(rt: &impl Abort, play: &mut Play, progress: Progress) {
    for _ in 0..100u32 {
        if is_at(&play.desk, progress) {
            return;
        }
        play.round(rt);
    }
    panic!(rt; "the desk comes no further");
}

const STATUS: &[u8] = b"STATUS\r\n";

const LIST: &[u8] = b"GET /databases HTTP/1.1\r\n\r\n";

const EMPTY: &[u8] = b"210 0 databases\r\n";

const ONE: &[u8] = b"210 1 databases\r\n";

const INSTALLED: &[u8] =
    b"HTTP/1.1 200 OK\r\nContent-Type: application/json\r\nContent-Length: 54\r\nConnection: close\r\n\r\n{\"edition\":1,\"name\":\"gem\",\"number\":1,\"verb\":\"install\"}";

const NO_ITEM: &[u8] =
    b"HTTP/1.1 200 OK\r\nContent-Type: application/json\r\nContent-Length: 2\r\nConnection: close\r\n\r\n[]";

// An install of another name, without the last 65,536 octets of its text.
const ORE: &[u8] =
    b"PUT /databases/ore HTTP/1.1\r\nRequest-Id: r2\r\nContent-Length: 65637\r\n\r\n53\n00-database-short\tA\tZ\nopal\tZ\tP\nFire Opal\tZ\tP\ndot\to\tF\n00-database-short\n  Gems\nopal\n  a stone\n.dot\n";

const ORE_INSTALLED: &[u8] =
    b"HTTP/1.1 200 OK\r\nContent-Type: application/json\r\nContent-Length: 54\r\nConnection: close\r\n\r\n{\"edition\":2,\"name\":\"ore\",\"number\":2,\"verb\":\"install\"}";

const FIRST_VIRTUAL: &[u8] =
    b"PUT /virtual/one HTTP/1.1\r\nRequest-Id: v1\r\nContent-Length: 33\r\n\r\n{\"members\":[\"gem\"],\"title\":\"One\"}";

const SECOND_VIRTUAL: &[u8] =
    b"PUT /virtual/two HTTP/1.1\r\nRequest-Id: v2\r\nContent-Length: 33\r\n\r\n{\"members\":[\"gem\"],\"title\":\"Two\"}";

const FIRST_IS_TWO: &[u8] =
    b"HTTP/1.1 200 OK\r\nContent-Type: application/json\r\nContent-Length: 57\r\nConnection: close\r\n\r\n{\"edition\":null,\"name\":\"one\",\"number\":2,\"verb\":\"virtual\"}";

const SECOND_IS_THREE: &[u8] =
    b"HTTP/1.1 200 OK\r\nContent-Type: application/json\r\nContent-Length: 57\r\nConnection: close\r\n\r\n{\"edition\":null,\"name\":\"two\",\"number\":3,\"verb\":\"virtual\"}";

// A reader has come, an editor whose request wants 4,096 octets to be whole, and another editor.
const TWO_CLIENTS: Part = Part::Settled(
    1,
    &[
        Step::Reader,
        Step::Got(0, b"220 localhost dictcat ready <1@localhost>\r\n"),
        Step::Editor,
        Step::Send(1, HEAD),
    ],
);

const PIECES: Part = Part::Settled(15, &[Step::Send(1, FILLER)]);

const ANOTHER_EDITOR: Part = Part::Settled(1, &[Step::Editor, Step::Got(1, b"")]);

// The request is made whole, and the reader and the other editor ask: all parts but those of the last round are prepared.
const ALL_ASK: Part = Part::Bare(
    1,
    &[
        Step::Send(0, STATUS),
        Step::Send(1, FILLER),
        Step::Send(2, LIST),
        Step::Until(Progress::Prepared),
    ],
);

// The reader asks for the status, and there is one database.
const ONE_IS_INSTALLED: Part = Part::Bare(
    1,
    &[
        Step::Send(0, STATUS),
        Step::Settle,
        Step::Got(0, ONE),
        Step::IsAt(Progress::Applied),
    ],
);

// The reader and the other editor are answered before the install.
const BETWEEN: &[Part] = &[
    TWO_CLIENTS,
    PIECES,
    ANOTHER_EDITOR,
    ALL_ASK,
    Part::Bare(
        1,
        &[
            Step::Got(0, EMPTY),
            Step::Got(1, b""),
            Step::Got(2, NO_ITEM),
            Step::HasEnded(2),
            Step::Settle,
            Step::Got(1, INSTALLED),
        ],
    ),
    ONE_IS_INSTALLED,
];

// The other editor and then the one whose install is prepared are gone before it is done.
const LEAVING: &[Part] = &[
    TWO_CLIENTS,
    PIECES,
    ANOTHER_EDITOR,
    ALL_ASK,
    Part::Bare(
        1,
        &[Step::Leave, Step::Leave, Step::Settle, Step::Got(0, EMPTY)],
    ),
    ONE_IS_INSTALLED,
];

// Two editors and then a reader come while an install is prepared: all are let in, and answered before the install.
const COMING: &[Part] = &[
    TWO_CLIENTS,
    PIECES,
    ANOTHER_EDITOR,
    Part::Bare(
        1,
        &[
            Step::Send(1, FILLER),
            Step::Until(Progress::Told),
            Step::Editor,
            Step::Send(3, LIST),
            Step::Editor,
            Step::Send(4, LIST),
            Step::Reader,
        ],
    ),
    Part::Bare(100, &[Step::Round]),
    Part::Bare(
        1,
        &[
            Step::Got(5, b"220 localhost dictcat ready <4@localhost>\r\n"),
            Step::Got(3, NO_ITEM),
            Step::Got(4, NO_ITEM),
            Step::Held(4, 2),
            Step::IsAt(Progress::Left),
            Step::Settle,
            Step::Got(1, INSTALLED),
            Step::IsAt(Progress::Applied),
        ],
    ),
];

// Commands of two editors wait for the install. The one that was whole first comes first, though its connection came last.
const WAITING: &[Part] = &[
    TWO_CLIENTS,
    PIECES,
    ANOTHER_EDITOR,
    Part::Bare(
        1,
        &[
            Step::Send(1, FILLER),
            Step::Until(Progress::Told),
            Step::Editor,
            Step::Send(3, FIRST_VIRTUAL),
        ],
    ),
    Part::Bare(20, &[Step::Round]),
    Part::Bare(1, &[Step::Send(2, SECOND_VIRTUAL)]),
    Part::Bare(20, &[Step::Round]),
    Part::Bare(
        1,
        &[
            Step::IsAt(Progress::Left),
            Step::Got(1, b""),
            Step::Got(2, b""),
            Step::Got(3, b""),
            Step::Settle,
            Step::Got(1, INSTALLED),
            Step::Got(3, FIRST_IS_TWO),
            Step::Got(2, SECOND_IS_THREE),
        ],
    ),
];

// The install of another editor is read while the first is prepared, waits for it, and is prepared then.
const TWO_INSTALLS: &[Part] = &[
    TWO_CLIENTS,
    PIECES,
    ANOTHER_EDITOR,
    Part::Bare(
        1,
        &[
            Step::Send(1, FILLER),
            Step::Until(Progress::Told),
            Step::Send(2, ORE),
        ],
    ),
    Part::Bare(16, &[Step::Round, Step::Send(2, FILLER)]),
    Part::Bare(20, &[Step::Round]),
    Part::Bare(
        1,
        &[
            Step::IsAt(Progress::Left),
            Step::Got(1, b""),
            Step::Got(2, b""),
            Step::Settle,
            Step::Got(1, INSTALLED),
            Step::Got(2, ORE_INSTALLED),
            Step::IsAt(Progress::BothApplied),
        ],
    ),
];

// By how many parts the desk prepares the install.
static PREPARED: [(u32, &[Part]); 5] = [
    (3, BETWEEN),
    (3, LEAVING),
    (300, COMING),
    (300, WAITING),
    (300, TWO_INSTALLS),
];

#[test]
fn others_while_an_install_is_prepared(rt: HostRuntime) {
    start(&rt, &rt, &PREPARED);
}
