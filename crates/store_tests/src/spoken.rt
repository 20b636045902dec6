//! Sessions over a database.
use crate::checks::{holds, same_text};
use dict_desk::{Fault, Lookup};
use dict_proto::{LimitedSink, OverRead};
use dict_session::{Session, SessionEnd, Step};
use sqlite::{Alter, Connection};
use std::alloc::Global;
use std::process::Abort;
use store_desk::session_over;

const BANNER: &str = "220 dict.example.org dictcat ready <7@dict.example.org>\r\n";

// A session with this input; the connection, and how it ended.
fn spoken<S: Alter + Drop>(
    alloc: Global,
    conn: Connection<S>,
    input: &str,
    writer: &mut LimitedSink,
) -> (Connection<S>, &'static str) {
    if !conn.is_autocommit() {
        return (conn, "in a transaction");
    }
    let mut reader = OverRead::new(input.as_bytes());
    match session_over(alloc, conn, &mut reader, writer, "dict.example.org", 7) {
        Ok((desk, Ok(SessionEnd::Quit))) => (desk.into_connection(), "quit"),
        Ok((desk, Ok(SessionEnd::InputEnd))) => (desk.into_connection(), "input end"),
        Ok((desk, Err(_))) => (desk.into_connection(), "a failure"),
        Err((conn, Fault::NotACatalogue)) => (conn, "no catalogue"),
        Err((conn, _)) => (conn, "another fault"),
    }
}

// Whether the session wrote this behind its banner, or nothing, and ended so.
fn is_told(writer: &LimitedSink, end: &str, wanted: &str) -> bool {
    let text = str::from_utf8(writer.taken()).unwrap_or("not UTF-8");
    let text = text.strip_prefix(BANNER).unwrap_or(text);
    wanted.strip_prefix(text) == Some(end)
}

/// A session with this input writes this behind its banner, and how it ended. The connection is handed back.
pub(crate) fn speak<S: Alter + Drop>(
    rt: &impl Abort,
    alloc: Global,
    conn: Connection<S>,
    input: &str,
    wanted: &str,
) -> Connection<S> {
    let mut writer = LimitedSink::new(alloc, 10_000).expect(rt, "memory");
    let (conn, end) = spoken(alloc, conn, input, &mut writer);
    holds(rt, is_told(&writer, end, wanted), input);
    conn
}

const DEFINED: &str =
    "150 1 definitions retrieved\r\n151 \"opal\" gem \"Gems\"\r\nopal\r\n  a stone\r\n.\r\n250 ok\r\n";

// What a session comes to that is sent one line, and what it writes into a sink with this room.
fn told_with_room<L: Lookup>(rt: &impl Abort, alloc: Global, desk: &mut L, room: usize) -> String {
    let mut sink = LimitedSink::new(alloc, room).expect(rt, "memory");
    let mut session = Session::new(alloc, "dict.example.org", 7).expect(rt, "memory");
    let step = session.feed(alloc, b"DEFINE gem OPAL\r\n", desk, &mut sink);
    let taken = str::from_utf8(sink.taken()).unwrap_or("not UTF-8");
    format!(in alloc; "{step:?} {taken}").expect(rt, "memory")
}

/// A client that takes fewer octets than the answer has is sent its first ones; and one that takes all, all.
pub(crate) fn cut<L: Lookup>(rt: &impl Abort, alloc: Global, desk: &mut L) {
    for room in 0..=80usize {
        let step = if room < 80 { Step::Broken } else { Step::More };
        let front = DEFINED.get(..room).unwrap_or("no front");
        let wanted = format!(in alloc; "{step:?} {front}").expect(rt, "memory");
        let found = told_with_room(rt, alloc, desk, room);
        same_text(rt, found.as_str(), wanted.as_str(), "a client");
    }
}
