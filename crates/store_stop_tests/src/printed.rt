//! The lines of faults.
use crate::serving_checks::{holds, same};
use app_words::{ProgramFault, StoreFault};
use dict_catalogue::CommandRefusal;
use dict_index::EditionRefusal;
use dict_proto::LimitedSink;
use std::alloc::Global;
use std::process::Abort;

static FAULTS: [(ProgramFault<'static>, &str, u8); 14] = [
    (
        ProgramFault::Line {
            refusal: EditionRefusal::ReservedTwice,
            line: 65536,
        },
        "refused 9 ReservedTwice line 65536\n",
        1,
    ),
    (
        ProgramFault::Line {
            refusal: EditionRefusal::Shown,
            line: 2,
        },
        "refused 15 Shown line 2\n",
        1,
    ),
    (
        ProgramFault::Edition(EditionRefusal::TextTooLong),
        "refused 13 TextTooLong\n",
        1,
    ),
    (
        ProgramFault::Refused(CommandRefusal::BadName),
        "refused 20 BadName\n",
        1,
    ),
    (ProgramFault::Store(StoreFault::Disk), "fault 41 Disk\n", 3),
    (
        ProgramFault::Store(StoreFault::NotACatalogue),
        "fault 43 NotACatalogue\n",
        3,
    ),
    (
        ProgramFault::Store(StoreFault::Damaged),
        "fault 44 Damaged\n",
        3,
    ),
    (
        ProgramFault::Store(StoreFault::NewerSchema),
        "fault 45 NewerSchema\n",
        3,
    ),
    (ProgramFault::CannotRead("a b"), "cannot read a b\n", 3),
    (ProgramFault::SessionEnded, "session ended by a fault\n", 3),
    (ProgramFault::CannotWrite, "cannot write output\n", 3),
    (
        ProgramFault::CannotBind("localhost:1"),
        "cannot bind localhost:1\n",
        3,
    ),
    (ProgramFault::CannotWait, "cannot wait for connections\n", 3),
    (ProgramFault::Memory, "fault 40 Memory\n", 4),
];

// Whether this is a fault's line, and its text by `Display` with the line's end.
fn is_told(rt: &impl Abort, alloc: Global, fault: &ProgramFault<'static>, line: &str) -> bool {
    let text = format!(in alloc; "{fault}\n").expect(rt, "memory");
    let mut sink = LimitedSink::new(alloc, 100).expect(rt, "memory");
    fault.put_line(&mut sink).expect(rt, "a line");
    text.as_str() == line && sink.taken() == line.as_bytes()
}

#[test]
fn each_fault_has_a_line_and_a_status(rt: HostRuntime) {
    for (fault, text, status) in &FAULTS {
        holds(&rt, is_told(&rt, rt.alloc(), fault, text), text);
        same(&rt, &fault.status(), status);
    }
}
