// Sessions at the limits: lines of the greatest lengths, keys with the last character, catalogues that become empty.
use crate::checks::{holds, same_text};
use crate::files::apply;
use crate::sessions::{Row, answer_rows, run_as};
use dict_catalogue::Command;
use dict_desk::{Fault, Keeper, Lookup};
use std::alloc::Global;
use std::process::Abort;

fn push_rest(rt: &impl Abort, line: &mut String, letters: usize) {
    for _ in 0..letters {
        line.push('x').expect(rt, "memory");
    }
    line.push_str("\r\nSTATUS\r\n").expect(rt, "memory");
}

// A line of CLIENT with so many letters, and a STATUS.
fn client_line(rt: &impl Abort, alloc: Global, letters: usize) -> String {
    let mut line = String::from_str(alloc, "CLIENT ").expect(rt, "memory");
    push_rest(rt, &mut line, letters);
    line
}

/// A run of that comes to this.
pub(crate) fn send_client<D: Lookup>(
    rt: &impl Abort,
    alloc: Global,
    desk: &mut D,
    letters: usize,
    wanted: &str,
) {
    let line = client_line(rt, alloc, letters);
    run_as(rt, alloc, desk, &line, wanted);
    drop(line);
}

/// The end of a run with a line of a lawful length.
pub(crate) const DONE: &str =
    "Ok(InputEnd) 220 gems.test dictcat ready <7@gems.test>\r\n250 ok\r\n210 0 databases\r\n";

/// The end of a run with a longer line.
pub(crate) const UNKNOWN: &str =
    "Ok(InputEnd) 220 gems.test dictcat ready <7@gems.test>\r\n500 command not recognized\r\n210 0 databases\r\n";

/// Keys with the last character.
pub(crate) static EDGE_ROWS: [Row; 2] = [
    (
        "MATCH edge prefix a\r\n",
        false,
        "152 2 matches found\r\nedge \"a\"\r\nedge \"a\u{10ffff}\"\r\n.\r\n250 ok\r\n",
    ),
    (
        "MATCH edge suffix \u{10ffff}\r\n",
        false,
        "552 no match\r\n",
    ),
];

static NONE_ROWS: [Row; 2] = [
    ("SHOW DB\r\n", false, "554 no databases present\r\n"),
    ("DEFINE * opal\r\n", false, "552 no match\r\n"),
];

// Whether a database can't be retired that another lists.
fn is_listed<K: Keeper>(desk: &mut K, id: &str, name: &str) -> bool {
    let fault = desk.apply(id, &Command::Retire { name }).err();
    matches!(fault, Some(Fault::Refused(refusal)) if refusal.number() == 24)
}

/// Retires all, that which lists others before them.
pub(crate) fn retire_all<K: Keeper>(rt: &impl Abort, alloc: Global, desk: &mut K) {
    holds(rt, is_listed(desk, "r1", "gem"), "gem");
    for (id, name) in [("r2", "all"), ("r3", "gem"), ("r4", "ore")] {
        apply(rt, desk, id, &Command::Retire { name });
    }
    answer_rows(rt, alloc, desk, &NONE_ROWS);
}
