// Answers that are longer than what may wait, for peers that take them at once, slowly or never.
use crate::peer::{SILENT, Script};
use crate::turns::{READER, Step, Talk, make_turns};
use net_connection::Stage;
use net_outlet::MAX_WAITING;

// How many octets the peer is due: a greeting, the answer to STATUS, and that to DEFINE.
const GREETING: usize = 43;

const STATUS: usize = 17;

const DEFINITION: usize = 2_703_423;

const WHOLE: usize = GREETING + STATUS + DEFINITION;

// A reader's connection over a desk with a long text.
const LONG: Talk = Talk {
    has_text: true,
    ..READER
};

// A peer that sends both, and takes at most 65,536 octets a call.
const BOTH: Script = Script {
    pieces: &[b"STATUS\r\nDEFINE gem opal\r\n"],
    at_once: 65_536,
    ..SILENT
};

// One that takes all at once gets the answer whole, by calls that hand over 1 MiB each but the first two, which hand over the
// greeting and the answer to STATUS.
const ALL: &[Step] = &[
    Step::Turns(20),
    Step::Is(Stage::Open),
    Step::Taken(WHOLE),
    Step::Waiting(0),
];

// One that takes k octets and then none: once 1 MiB waits, in the turn of its second line, the connection is closing, and the
// octets that it took and those that wait are the first ones, the answer to its STATUS among them. Where it takes the greeting,
// the answer to STATUS is handed over by itself, and no other call handed over fewer octets.
const NONE: &[Step] = &[
    Step::Turns(2),
    Step::Is(Stage::Closing),
    Step::Taken(0),
    Step::Waiting(MAX_WAITING),
    Step::Fewest(GREETING),
];

const ONE: &[Step] = &[
    Step::Turns(2),
    Step::Is(Stage::Closing),
    Step::Taken(1),
    Step::Waiting(MAX_WAITING),
    Step::Fewest(GREETING),
];

const THE_GREETING: &[Step] = &[
    Step::Turns(2),
    Step::Is(Stage::Closing),
    Step::Taken(44),
    Step::Waiting(MAX_WAITING),
    Step::Fewest(STATUS),
];

const A_PART: &[Step] = &[
    Step::Turns(2),
    Step::Is(Stage::Closing),
    Step::Taken(1_048_576),
    Step::Waiting(MAX_WAITING),
    Step::Fewest(STATUS),
];

// One that takes all but 1 MiB, which waits: the connection stays open.
const ALL_BUT_WHAT_MAY_WAIT: &[Step] = &[
    Step::Turns(2),
    Step::Is(Stage::Open),
    Step::Waiting(MAX_WAITING),
];

// One that takes 65,536 octets at a time, and then none until it is asked again, gets the answer whole: it is asked again within
// the event.
const SLOWLY: &[Step] = &[
    Step::Turns(60),
    Step::Is(Stage::Open),
    Step::Taken(WHOLE),
    Step::Begins(
        b"220 localhost dictcat ready <7@localhost>\r\n210 1 databases\r\n150 1 definitions retrieved\r\n",
    ),
];

// One that is gone behind the greeting, within an answer of 2.7 million octets: it is asked once more, as 1 MiB waits, and the
// connection is closed; and once in the next turn, and it is over.
const GONE: Script = Script {
    pieces: &[b"DEFINE gem opal\r\n"],
    takes: GREETING,
    is_gone: true,
    ..SILENT
};

const ASKED_THREE_TIMES: &[Step] = &[
    Step::Turns(1),
    Step::Is(Stage::Closing),
    Step::Calls(2),
    Step::Turns(1),
    Step::Is(Stage::Over),
    Step::Calls(3),
];

static ANSWERS: [Talk; 8] = [
    Talk {
        name: "a peer that takes all",
        script: BOTH,
        steps: ALL,
        ..LONG
    },
    Talk {
        name: "a peer that takes nothing",
        script: Script { takes: 0, ..BOTH },
        steps: NONE,
        ..LONG
    },
    Talk {
        name: "a peer that takes an octet",
        script: Script { takes: 1, ..BOTH },
        steps: ONE,
        ..LONG
    },
    Talk {
        name: "a peer that takes the greeting",
        script: Script { takes: 44, ..BOTH },
        steps: THE_GREETING,
        ..LONG
    },
    Talk {
        name: "a peer that takes 1 MiB",
        script: Script {
            takes: 1_048_576,
            ..BOTH
        },
        steps: A_PART,
        ..LONG
    },
    Talk {
        name: "a peer for which as much waits as may",
        script: Script {
            takes: WHOLE - MAX_WAITING,
            ..BOTH
        },
        steps: ALL_BUT_WHAT_MAY_WAIT,
        ..LONG
    },
    Talk {
        name: "a slow peer",
        script: Script {
            takes: 65_536,
            again: 65_536,
            ..BOTH
        },
        steps: SLOWLY,
        ..LONG
    },
    Talk {
        name: "a peer that is gone",
        script: GONE,
        steps: ASKED_THREE_TIMES,
        ..LONG
    },
];

#[test]
fn long_answers(rt: HostRuntime) {
    make_turns(&rt, rt.alloc(), &ANSWERS);
}
