// A reader's octets go to the hub line by line, and nothing of it is read meanwhile.
use crate::peer::{Behind, SILENT, Script};
use crate::turns::{READER, Step, Talk, make_turns};
use net_connection::Stage;

// A peer that ends its side behind what it sends, takes 1,000 octets, and then is gone.
const ENDING: Script = Script {
    behind: Behind::End,
    takes: 1_000,
    is_gone: true,
    ..SILENT
};

// A greeting has 43 octets, the answer to STATUS 17, and that to QUIT 24. What comes without an end of a line is handed at
// once, and so is the rest of a line before the next piece is read.
const CUT_ANYHOW: &[&[u8]] = &[b"STATUS\r", b"\nSTATUS\r\nSTA", b"TUS\r\n"];

const EACH_IS_ANSWERED: &[Step] = &[
    Step::To(Stage::Open, 43, 1),
    Step::To(Stage::Open, 43, 2),
    Step::To(Stage::Open, 60, 2),
    Step::To(Stage::Open, 77, 2),
    Step::To(Stage::Open, 77, 3),
    Step::To(Stage::Over, 94, 3),
];

// The end is read once all that came before it is handed.
const AN_END_BEHIND: &[&[u8]] = &[b"STATUS\r\nSTATUS\r\nunfinished"];

const THE_END_COMES_LAST: &[Step] = &[
    Step::To(Stage::Open, 43, 1),
    Step::To(Stage::Open, 60, 1),
    Step::To(Stage::Open, 77, 1),
    Step::To(Stage::Over, 77, 1),
];

// What is held behind a QUIT is dropped, and so is what comes then.
const A_QUIT_BETWEEN: &[&[u8]] = &[b"STATUS\r\nQUIT\r\nSTATUS\r\n", b"STATUS\r\n"];

const NO_ANSWER_BEHIND: &[Step] = &[
    Step::To(Stage::Open, 43, 1),
    Step::To(Stage::Closing, 60, 1),
    Step::To(Stage::Draining, 84, 2),
    Step::To(Stage::Over, 84, 2),
];

// What is held where a sending fails is dropped.
const TWO_LINES: &[&[u8]] = &[b"STATUS\r\nSTATUS\r\n"];

const THE_SECOND_IS_DROPPED: &[Step] = &[
    Step::To(Stage::Open, 43, 1),
    Step::To(Stage::Over, 43, 1),
];

// A peer that takes ten octets a turn and ended its side gets its answer whole, and is over then. The greeting has 43 octets,
// and the answer 17.
const BY_TENS: &[Step] = &[
    Step::To(Stage::Open, 10, 1),
    Step::To(Stage::Parting, 20, 1),
    Step::To(Stage::Parting, 30, 1),
    Step::To(Stage::Parting, 40, 1),
    Step::To(Stage::Parting, 50, 1),
    Step::To(Stage::Over, 60, 1),
];

// A connection that the hub closed is over once the peer ends its side, and what came until then is dropped.
const BY_EIGHTS: &[&[u8]] = &[b"QUIT\r\nS\r", b"\nSTATUS\r", b"\n"];

const DRAINED: &[Step] = &[
    Step::To(Stage::Closing, 43, 1),
    Step::To(Stage::Draining, 67, 2),
    Step::To(Stage::Draining, 67, 3),
    Step::To(Stage::Over, 67, 3),
];

static BY_LINES: [Talk; 6] = [
    Talk {
        name: "lines that are cut anyhow",
        script: Script {
            pieces: CUT_ANYHOW,
            ..ENDING
        },
        steps: EACH_IS_ANSWERED,
        ..READER
    },
    Talk {
        name: "an end behind lines",
        script: Script {
            pieces: AN_END_BEHIND,
            ..ENDING
        },
        steps: THE_END_COMES_LAST,
        ..READER
    },
    Talk {
        name: "a QUIT between lines",
        script: Script {
            pieces: A_QUIT_BETWEEN,
            ..ENDING
        },
        steps: NO_ANSWER_BEHIND,
        ..READER
    },
    Talk {
        name: "a line behind a failure",
        script: Script {
            pieces: TWO_LINES,
            takes: 43,
            ..ENDING
        },
        steps: THE_SECOND_IS_DROPPED,
        ..READER
    },
    Talk {
        name: "a peer that takes ten octets a turn",
        script: Script {
            pieces: &[b"STATUS\r\n"],
            at_once: 10,
            ..ENDING
        },
        steps: BY_TENS,
        ..READER
    },
    Talk {
        name: "octets behind a QUIT",
        script: Script {
            pieces: BY_EIGHTS,
            at_once: 100,
            ..ENDING
        },
        steps: DRAINED,
        ..READER
    },
];

#[test]
fn line_by_line(rt: HostRuntime) {
    make_turns(&rt, rt.alloc(), &BY_LINES);
}
