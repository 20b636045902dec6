// Desks, readers and writers that fail.

use crate::checks::{holds, same_text};
use crate::files::{Files, GEM, STONES, fill};
use crate::sessions::{told_feed, told_of_run, told_run};
use dict_desk::{Lookup, PlainDesk};
use dict_fixtures::FailingDesk;
use dict_proto::OverRead;
use std::alloc::Global;
use std::io::{Error, ErrorKind, Read, Result as IoResult};
use std::process::Abort;

// A line, after how many of its calls the desk fails, and what the session comes to and is answered. Each database asked is
// counted, and only those of which something was counted are asked again.
type Row = (&'static str, u64, &'static str);

static ROWS: [Row; 15] = [
    (
        "DEFINE * opal\r\n",
        0,
        "More 420 server temporarily unavailable\r\n210 2 databases\r\n",
    ),
    (
        "DEFINE * opal\r\n",
        1,
        "More 420 server temporarily unavailable\r\n210 2 databases\r\n",
    ),
    (
        "DEFINE * opal\r\n",
        2,
        "Broken 150 2 definitions retrieved\r\n",
    ),
    (
        "DEFINE * opal\r\n",
        3,
        "Broken 150 2 definitions retrieved\r\n151 \"opal\" stones \"Stones\"\r\nx\r\n.\r\n",
    ),
    (
        "DEFINE * opal\r\n",
        4,
        "More 150 2 definitions retrieved\r\n151 \"opal\" stones \"Stones\"\r\nx\r\n.\r\n151 \"opal\" gem \"Gems\"\r\nopal\r\n  a stone\r\n.\r\n250 ok\r\n210 2 databases\r\n",
    ),
    (
        "DEFINE * fire\\ opal\r\n",
        2,
        "Broken 150 1 definitions retrieved\r\n",
    ),
    (
        "DEFINE * fire\\ opal\r\n",
        3,
        "More 150 1 definitions retrieved\r\n151 \"Fire Opal\" gem \"Gems\"\r\nopal\r\n  a stone\r\n.\r\n250 ok\r\n210 2 databases\r\n",
    ),
    (
        "MATCH * exact opal\r\n",
        0,
        "More 420 server temporarily unavailable\r\n210 2 databases\r\n",
    ),
    (
        "MATCH * exact opal\r\n",
        2,
        "Broken 152 2 matches found\r\n",
    ),
    (
        "MATCH * exact opal\r\n",
        3,
        "Broken 152 2 matches found\r\nstones \"opal\"\r\n",
    ),
    (
        "MATCH * exact opal\r\n",
        4,
        "More 152 2 matches found\r\nstones \"opal\"\r\ngem \"opal\"\r\n.\r\n250 ok\r\n210 2 databases\r\n",
    ),
    (
        "MATCH ! suffix fire\\ opal\r\n",
        1,
        "More 420 server temporarily unavailable\r\n210 2 databases\r\n",
    ),
    (
        "MATCH ! suffix fire\\ opal\r\n",
        2,
        "Broken 152 1 matches found\r\n",
    ),
    (
        "SHOW INFO stones\r\n",
        0,
        "More 420 server temporarily unavailable\r\n210 2 databases\r\n",
    ),
    (
        "SHOW INFO stones\r\n",
        1,
        "More 112 database information\r\n..x\r\ny\r\n.\r\n250 ok\r\n210 2 databases\r\n",
    ),
];

/// What is done over a catalogue that fails.
#[derive(Clone, Copy)]
enum Failing {
    /// A line and a STATUS are fed.
    Fed(&'static str),
    /// This input is run.
    Run(&'static str),
}

fn tell<D: Lookup>(rt: &impl Abort, alloc: Global, desk: &mut D, failing: Failing) -> String {
    match failing {
        Failing::Fed(line) => {
            let pieces = (line.as_bytes(), b"STATUS\r\n".as_slice(), b"".as_slice());
            told_feed(rt, alloc, desk, pieces, 1000)
        }
        Failing::Run(input) => told_run(rt, alloc, desk, input, 1000),
    }
}

// A catalogue of these databases.
fn desk_of(rt: &impl Abort, alloc: Global, databases: &[Files]) -> PlainDesk {
    let mut desk = PlainDesk::new(alloc);
    fill(rt, alloc, &mut desk, databases, false);
    desk
}

// What is done comes to, over a catalogue of these databases that fails after so many calls.
fn told_failing(
    rt: &impl Abort,
    alloc: Global,
    databases: &[Files],
    calls_left: u64,
    failing: Failing,
) -> String {
    let plain = desk_of(rt, alloc, databases);
    let mut desk = FailingDesk::new(plain, calls_left, false);
    let told = tell(rt, alloc, &mut desk, failing);
    drop(desk);
    told
}

const FAILED_RUN: &str =
    "Err(Broken) 220 gems.test dictcat ready <7@gems.test>\r\n150 1 definitions retrieved\r\n";

fn fail(
    rt: &impl Abort,
    alloc: Global,
    databases: &[Files],
    calls_left: u64,
    failing: Failing,
    wanted: &str,
) {
    let told = told_failing(rt, alloc, databases, calls_left, failing);
    same_text(rt, told.as_str(), wanted);
    drop(told);
}

#[test]
fn a_desk_fails_at_each_of_its_calls(rt: HostRuntime) {
    for (line, calls_left, wanted) in &ROWS {
        let failing = Failing::Fed(line);
        fail(
            &rt,
            rt.alloc(),
            &[STONES, GEM],
            *calls_left,
            failing,
            wanted,
        );
    }
    let failing = Failing::Run("DEFINE gem opal\r\nSTATUS\r\n");
    fail(&rt, rt.alloc(), &[GEM], 1, failing, FAILED_RUN);
}

// A reader that fails once its octets are given.
#[derive(Drop)]
struct Torn<'a> {
    octets: &'a [u8],
}

impl<'a> Read for Torn<'a> {
    fn read(&mut self, room: &mut [u8]) -> IoResult<usize> {
        if self.octets.is_empty() {
            return Err(Error::from(ErrorKind::Interrupted));
        }
        self.octets.read(room)
    }
}

// What a run comes to whose reader fails.
fn told_torn<D: Lookup>(rt: &impl Abort, alloc: Global, desk: &mut D) -> String {
    let mut reader = OverRead::new(Torn {
        octets: b"STATUS\r\nSTATUS\r",
    });
    told_of_run(rt, alloc, &mut reader, desk, 1000)
}

/// A reader fails after an answer.
pub(crate) fn tear<D: Lookup>(rt: &impl Abort, alloc: Global, desk: &mut D) {
    let want = "Err(Read) 220 gems.test dictcat ready <7@gems.test>\r\n210 0 databases\r\n";
    let told = told_torn(rt, alloc, desk);
    same_text(rt, told.as_str(), want);
    drop(told);
}

const WHOLE: &str =
    "220 gems.test dictcat ready <7@gems.test>\r\n210 0 databases\r\n221 closing connection\r\n";

/// A writer with each room that is too small ends a run, and has its front.
pub(crate) fn fill_writers<D: Lookup>(rt: &impl Abort, alloc: Global, desk: &mut D) {
    for room in 0..WHOLE.len() {
        let told = told_run(rt, alloc, desk, "STATUS\r\nQUIT\r\n", room);
        let is_so = told.strip_prefix("Err(Write) ") == WHOLE.get(..room);
        drop(told);
        holds(rt, is_so, "a full writer");
    }
}
