// For how many turns an editor's octets are held back: while the desk prepares what they complete, and while another editor's command
// comes first.
use crate::peer::{Behind, SILENT, Script};
use crate::turns::{READER, Step, Talk, make_turns};
use dict_fixtures::HEAD;
use net_connection::Stage;
use net_hub::Kind;

const FILLER: &[u8] = &[b'x'; 4_096];

// The whole request, a piece a reading.
const REQUEST: Script = Script {
    pieces: &[
        HEAD, FILLER, FILLER, FILLER, FILLER, FILLER, FILLER, FILLER, FILLER, FILLER, FILLER,
        FILLER, FILLER, FILLER, FILLER, FILLER, FILLER,
    ],
    behind: Behind::End,
    takes: 1_000,
    is_gone: true,
    ..SILENT
};

// An editor's connection to the peer that sends it.
const SENDER: Talk = Talk {
    kind: Kind::Http,
    script: REQUEST,
    ..READER
};

// The desk lets go of nothing before it is told of the install, but behind the one piece that was held back.
const LETS_GO: &[Step] = &[
    Step::Turns(19),
    Step::Forgotten(0),
    Step::Turns(1),
    Step::Forgotten(1),
];

// By three parts in three turns; and at most 1,000,000 turns. Nothing is read meanwhile.
const NOT_AT_ALL: &[Step] = &[
    Step::Turns(16),
    Step::HeldBack(0, 10),
    Step::Is(Stage::Closing),
    Step::Taken(0),
    Step::Read(17),
];

const THREE_TURNS: &[Step] = &[
    Step::Turns(16),
    Step::HeldBack(3, 10),
    Step::Is(Stage::Closing),
    Step::Taken(0),
    Step::Read(17),
];

const AT_MOST: &[Step] = &[
    Step::Turns(16),
    Step::HeldBack(1_000_000, 2_000_000),
    Step::Is(Stage::Closing),
    Step::Taken(0),
    Step::Read(17),
];

// While another one's command comes first, a piece that makes no request whole is handed on, a list is answered, and a command waits: it
// is handed on, once, as it comes first.
const IS_READ_ON: &[Step] = &[
    Step::Meanwhile,
    Step::Meanwhile,
    Step::Is(Stage::Open),
    Step::Taken(0),
    Step::Read(2),
];

const IS_ANSWERED: &[Step] = &[Step::Meanwhile, Step::Is(Stage::Closing), Step::Read(1)];

const WAITS: &[Step] = &[
    Step::Meanwhile,
    Step::Meanwhile,
    Step::Meanwhile,
    Step::Is(Stage::Open),
    Step::Taken(0),
    Step::Read(1),
    Step::Turns(1),
    Step::Is(Stage::Closing),
    Step::Read(1),
];

const IS_READ: &[Step] = &[
    Step::Meanwhile,
    Step::Is(Stage::Open),
    Step::Taken(43),
    Step::Read(1),
];

// An install that waits for another command is prepared behind that, and read no further meanwhile.
const WAITS_AND_IS_PREPARED: &[Step] = &[
    Step::Turns(16),
    Step::Meanwhile,
    Step::Meanwhile,
    Step::Read(17),
    Step::HeldBack(3, 10),
    Step::Is(Stage::Closing),
    Step::Read(17),
];

const LIST: Script = Script {
    pieces: &[b"GET /databases HTTP/1.1\r\n\r\n"],
    ..SILENT
};

const RETIRE: Script = Script {
    pieces: &[b"DELETE /databases/gem HTTP/1.1\r\nRequest-Id: r1\r\n\r\n"],
    ..SILENT
};

static HELD_BACK: [Talk; 9] = [
    Talk {
        name: "what is let go of",
        parts: 3,
        steps: LETS_GO,
        ..SENDER
    },
    Talk {
        name: "an install in no part",
        parts: 0,
        steps: NOT_AT_ALL,
        ..SENDER
    },
    Talk {
        name: "an install in three parts",
        parts: 3,
        steps: THREE_TURNS,
        ..SENDER
    },
    Talk {
        name: "an install in too many parts",
        parts: u32::MAX,
        steps: AT_MOST,
        ..SENDER
    },
    Talk {
        name: "an editor meanwhile",
        parts: 3,
        steps: IS_READ_ON,
        ..SENDER
    },
    Talk {
        name: "a list meanwhile",
        script: LIST,
        steps: IS_ANSWERED,
        ..SENDER
    },
    Talk {
        name: "a command meanwhile",
        script: RETIRE,
        steps: WAITS,
        ..SENDER
    },
    Talk {
        name: "an install meanwhile",
        parts: 3,
        steps: WAITS_AND_IS_PREPARED,
        ..SENDER
    },
    Talk {
        name: "a reader meanwhile",
        kind: Kind::Dict,
        parts: 3,
        steps: IS_READ,
        ..SENDER
    },
];

#[test]
fn turns_in_which_it_is_held_back(rt: HostRuntime) {
    make_turns(&rt, rt.alloc(), &HELD_BACK);
}
