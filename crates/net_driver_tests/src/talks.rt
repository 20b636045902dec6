// Readers and editors at one driver.
use crate::serving::{FILLER, Part, Step, start};

const FIRST: &[u8] = b"220 localhost dictcat ready <1@localhost>\r\n";

const SECOND: &[u8] = b"220 localhost dictcat ready <2@localhost>\r\n";

const PUT: &[u8] =
    b"PUT /databases/gem HTTP/1.1\r\nRequest-Id: r1\r\nContent-Length: 101\r\n\r\n53\n00-database-short\tA\tZ\nopal\tZ\tP\nFire Opal\tZ\tP\ndot\to\tF\n00-database-short\n  Gems\nopal\n  a stone\n.dot\n";

const INSTALLED: &[u8] =
    b"HTTP/1.1 200 OK\r\nContent-Type: application/json\r\nContent-Length: 54\r\nConnection: close\r\n\r\n{\"edition\":1,\"name\":\"gem\",\"number\":1,\"verb\":\"install\"}";

const FOUND: &[u8] =
    b"150 1 definitions retrieved\r\n151 \"opal\" gem \"Gems\"\r\nopal\r\n  a stone\r\n.\r\n250 ok\r\n";

const UNKNOWN: &[u8] = b"550 invalid database\r\n";

// An install between two pieces of a reader's line.
const BETWEEN_TWO_PIECES: &[Step] = &[
    Step::Reader,
    Step::Got(0, FIRST),
    Step::Editor,
    Step::Got(1, b""),
    Step::Send(0, b"DEFINE gem op"),
    Step::Got(0, b""),
    Step::Send(1, PUT),
    Step::Got(0, b""),
    Step::Got(1, INSTALLED),
    Step::HasEnded(1),
    Step::Held(1, 1),
    Step::Send(0, b"al\r\n"),
    Step::Got(0, FOUND),
    Step::Send(0, b"QUIT\r\nSTATUS\r\n"),
    Step::Got(0, b"221 closing connection\r\n"),
    Step::HasEnded(0),
    Step::Leave,
    Step::Leave,
    Step::Held(0, 0),
];

// The same with the whole line before the install. Both kinds of connections are counted by one row of ids.
const BEFORE_AN_INSTALL: &[Step] = &[
    Step::Editor,
    Step::Reader,
    Step::Got(1, SECOND),
    Step::Send(1, b"DEFINE gem opal\r\n"),
    Step::Got(1, UNKNOWN),
    Step::Send(0, PUT),
    Step::Got(0, INSTALLED),
    Step::Send(1, b"DEFINE gem opal\r\n"),
    Step::Got(1, FOUND),
    Step::Send(1, b"STATUS\r\n"),
    Step::Got(1, b"210 1 databases\r\n"),
];

static BESIDE_A_SESSION: [(u32, &[Part]); 2] = [
    (0, &[Part::Settled(1, BETWEEN_TWO_PIECES)]),
    (0, &[Part::Settled(1, BEFORE_AN_INSTALL)]),
];

#[test]
fn an_install_and_a_session(rt: HostRuntime) {
    start(&rt, &rt, &BESIDE_A_SESSION);
}

const ASK: Step = Step::Send(1, b"STATUS\r\n");

const ANSWER: Step = Step::Got(1, b"210 0 databases\r\n");

const NONE: Step = Step::Got(0, b"");

// A line that comes by an octet a round is answered once it is whole, and another connection meanwhile.
const AN_OCTET_A_ROUND: &[Step] = &[
    Step::Reader,
    Step::Reader,
    Step::Got(0, FIRST),
    Step::Got(1, SECOND),
    Step::Send(0, b"S"),
    ASK,
    ANSWER,
    Step::Send(0, b"T"),
    ASK,
    ANSWER,
    Step::Send(0, b"A"),
    ASK,
    ANSWER,
    Step::Send(0, b"T"),
    ASK,
    ANSWER,
    Step::Send(0, b"U"),
    ASK,
    ANSWER,
    Step::Send(0, b"S"),
    ASK,
    ANSWER,
    Step::Send(0, b"\r"),
    ASK,
    ANSWER,
    NONE,
    Step::Send(0, b"\nSTAT"),
    Step::Got(0, b"210 0 databases\r\n"),
    Step::Held(2, 0),
];

static OCTET_BY_OCTET: [(u32, &[Part]); 1] = [(0, &[Part::Settled(1, AN_OCTET_A_ROUND)])];

#[test]
fn an_octet_a_round(rt: HostRuntime) {
    start(&rt, &rt, &OCTET_BY_OCTET);
}

// An edition of 6,283,370 octets, of an index of 16,356 lines and a text of almost 4 MiB, comes in pieces of 4,096, and a
// reader asks between them.
const BEFORE_THE_PIECES: &[Step] = &[
    Step::Reader,
    Step::Got(0, FIRST),
    Step::Editor,
    Step::Send(
        1,
        b"PUT /databases/gem HTTP/1.1\r\nRequest-Id: r1\r\nContent-Length: 6283370\r\n\r\n2093109\n00-database-short\tA\tZ\nopal\tZ\tP\nFire Opal\tZ\tP\ndot\to\tF\n",
    ),
];

const A_PIECE_OF_THE_INDEX: &[Step] = &[
    Step::Send(0, b"DEFINE gem opal\r\n"),
    Step::Got(0, UNKNOWN),
    Step::FillIndex(1),
];

const BETWEEN_THE_PIECES: &[Step] = &[
    Step::Send(1, b"00-database-short\n  Gems\nopal\n  a stone\n.dot\n"),
    Step::Got(1, b""),
];

const A_PIECE_OF_THE_TEXT: &[Step] = &[
    Step::Send(0, b"DEFINE gem opal\r\n"),
    Step::Got(0, UNKNOWN),
    Step::Send(1, FILLER),
];

const AFTER_THE_PIECES: &[Step] = &[
    Step::Got(1, INSTALLED),
    Step::Send(0, b"DEFINE gem opal\r\n"),
    Step::Got(0, FOUND),
];

const PIECE_BY_PIECE: &[Part] = &[
    Part::Settled(1, BEFORE_THE_PIECES),
    Part::Settled(511, A_PIECE_OF_THE_INDEX),
    Part::Settled(1, BETWEEN_THE_PIECES),
    Part::Settled(1_023, A_PIECE_OF_THE_TEXT),
    Part::Settled(1, AFTER_THE_PIECES),
];

static IN_PIECES: [(u32, &[Part]); 1] = [(0, PIECE_BY_PIECE)];

#[test]
fn an_install_in_pieces(rt: HostRuntime) {
    start(&rt, &rt, &IN_PIECES);
}

// Where nothing comes, nothing happens in a round, and a wait ends.
const A_WAIT_IN_VAIN: &[Step] = &[Step::Settle, Step::Wait(10)];

const COMES: &[Step] = &[Step::Reader, Step::Got(0, FIRST)];

// A wait ends once a line has come.
const A_WAIT_FOR_A_LINE: &[Step] = &[
    Step::Send(0, b"STATUS\r\n"),
    Step::Wait(10_000),
    Step::Got(0, b""),
    Step::Settle,
    Step::Got(0, b"210 0 databases\r\n"),
];

const WAITS: &[Part] = &[
    Part::Bare(1, A_WAIT_IN_VAIN),
    Part::Settled(1, COMES),
    Part::Bare(1, A_WAIT_FOR_A_LINE),
];

// So many rounds, one after another, are counted.
const THREE: &[Step] = &[
    Step::Send(0, b"STATUS\r\n"),
    Step::Paced(3),
    Step::Got(0, b"210 0 databases\r\n"),
];

const THREE_ROUNDS: &[Part] = &[Part::Settled(1, COMES), Part::Bare(1, THREE)];

static ROUNDS: [(u32, &[Part]); 2] = [(0, WAITS), (0, THREE_ROUNDS)];

#[test]
fn rounds_and_waits(rt: HostRuntime) {
    start(&rt, &rt, &ROUNDS);
}
