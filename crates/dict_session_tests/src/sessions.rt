// Sessions over catalogues in memory.
use crate::checks::{holds, same_text};
use dict_desk::Lookup;
use dict_proto::{LimitedSink, OverRead, Source};
use dict_session::{
    Session, Step, broken_is_a_front, is_host, one_cut, run, session_lines_are_short,
    spoken_answers, spoken_or_unavailable,
};
use std::alloc::Global;
use std::process::Abort;

/// What a client sends, whether a QUIT in it is answered, and the answers.
pub(crate) type Row = (&'static str, bool, &'static str);

const PEARLS: &str =
    "150 2 definitions retrieved\r\n151 \"pearl\" stones \"Stones\"\r\nx\r\n.\r\n151 \"pearl\" stones \"Stones\"\r\ny\r\n.\r\n250 ok\r\n";

const ONE_PEARL: &str = "152 1 matches found\r\nstones \"pearl\"\r\n.\r\n250 ok\r\n";

const ALL_STONES: &str =
    "152 3 matches found\r\nstones \"pearl\"\r\nstones \"opal\"\r\nstones \"agate\"\r\n.\r\n250 ok\r\n";

const STRATEGIES: &str =
    "111 7 strategies available\r\nexact \"Equal keys\"\r\nprefix \"Key begins with the query\"\r\nsuffix \"Key ends with the query\"\r\nsubstring \"Key contains the query\"\r\nword \"Words of the query stand together in the key\"\r\nfirst \"Key begins with the words of the query\"\r\nlast \"Key ends with the words of the query\"\r\n.\r\n250 ok\r\n";

const HELP: &str =
    "113 help text\r\nDEFINE database word\r\nMATCH database strategy word\r\nSHOW DB\r\nSHOW STRAT\r\nSHOW INFO database\r\nSHOW SERVER\r\nCLIENT text\r\nSTATUS\r\nHELP\r\nQUIT\r\n.\r\n250 ok\r\n";

/// Over `stones` alone.
pub(crate) static STONES_ROWS: [Row; 22] = [
    ("", false, ""),
    ("DEFINE stones Pearl\r\n", false, PEARLS),
    ("MATCH stones exact Pearl\r\n", false, ONE_PEARL),
    ("MATCH stones . pe\r\n", false, ONE_PEARL),
    ("MATCH stones substring a\r\n", false, ALL_STONES),
    (
        "MATCH nosuch nosuch x\r\n",
        false,
        "550 invalid database\r\n",
    ),
    (
        "MATCH stones nosuch x\r\n",
        false,
        "551 invalid strategy\r\n",
    ),
    ("MATCH stones word p\r\n", false, "552 no match\r\n"),
    ("MATCH stones word\r\n", false, "501 illegal parameters\r\n"),
    ("\"DEFINE\" 'stones' \"Pe\"ar\\l\r\n", false, PEARLS),
    ("match \"stones\" 'exact' 'Pearl'\r\n", false, ONE_PEARL),
    ("CLIENT \"a b\" c\r\n", false, "250 ok\r\n"),
    (
        "DEFINE stones \"Pearl\r\n",
        false,
        "501 illegal parameters\r\n",
    ),
    ("OPTION MIME\r\n", false, "502 command not implemented\r\n"),
    ("NOSUCH\r\n", false, "500 command not recognized\r\n"),
    ("SHOW 'strat'\r\n", false, STRATEGIES),
    (
        "SHOW INFO stones\r\n",
        false,
        "112 database information\r\n..x\r\ny\r\n.\r\n250 ok\r\n",
    ),
    ("HELP\r\n", false, HELP),
    (
        "QUIT now\r\nCLIENT\r\n",
        false,
        "501 illegal parameters\r\n250 ok\r\n",
    ),
    ("'quit'\r\nCLIENT\r\n", true, "221 closing connection\r\n"),
    (
        "STATUS\r\nQUIT\r\nSTATUS\r\n",
        true,
        "210 1 databases\r\n221 closing connection\r\n",
    ),
    (
        "STATUS\r\nSHOW SERVER\r\n",
        false,
        "210 1 databases\r\n114 server information\r\ndictcat on gems.test\r\ndatabases 1\r\n.\r\n250 ok\r\n",
    ),
];

const OPAL: &str =
    "150 1 definitions retrieved\r\n151 \"opal\" gem \"Gems\"\r\nopal\r\n  a stone\r\n.\r\n250 ok\r\n";

/// Over `ore`, `gem` and `all`, which lists both.
pub(crate) static ALL_ROWS: [Row; 16] = [
    ("DEFINE ! opal\r\n", false, OPAL),
    ("DEFINE all opal\r\n", false, OPAL),
    ("DEFINE * opal\r\n", false, OPAL),
    ("DEFINE \"*\" opal\r\n", false, OPAL),
    (
        "DEFINE * dot\r\n",
        false,
        "150 1 definitions retrieved\r\n151 \"dot\" gem \"Gems\"\r\n..dot\r\n.\r\n250 ok\r\n",
    ),
    (
        "MATCH ! substring o\r\n",
        false,
        "152 1 matches found\r\nore \"iron\"\r\n.\r\n250 ok\r\n",
    ),
    (
        "MATCH ! suffix opal\r\n",
        false,
        "152 2 matches found\r\ngem \"opal\"\r\ngem \"Fire Opal\"\r\n.\r\n250 ok\r\n",
    ),
    (
        "MATCH * substring o\r\n",
        false,
        "152 4 matches found\r\nore \"iron\"\r\ngem \"opal\"\r\ngem \"Fire Opal\"\r\ngem \"dot\"\r\n.\r\n250 ok\r\n",
    ),
    ("MATCH ! exact ruby\r\n", false, "552 no match\r\n"),
    ("DEFINE GEM opal\r\n", false, "550 invalid database\r\n"),
    ("MATCH * nosuch x\r\n", false, "551 invalid strategy\r\n"),
    (
        "SHOW DB\r\n",
        false,
        "110 3 databases present\r\nore \"Ores\"\r\ngem \"Gems\"\r\nall \"All\"\r\n.\r\n250 ok\r\n",
    ),
    (
        "SHOW INFO all\r\n",
        false,
        "112 database information\r\nore \"Ores\"\r\ngem \"Gems\"\r\n.\r\n250 ok\r\n",
    ),
    (
        "SHOW INFO gem\r\n",
        false,
        "112 database information\r\n.\r\n250 ok\r\n",
    ),
    (
        "SHOW INFO *\r\nSHOW INFO !\r\n",
        false,
        "550 invalid database\r\n550 invalid database\r\n",
    ),
    ("STATUS\r\n", false, "210 3 databases\r\n"),
];

/// Over no database.
pub(crate) static EMPTY_ROWS: [Row; 5] = [
    ("SHOW DB\r\n", false, "554 no databases present\r\n"),
    ("DEFINE * opal\r\n", false, "552 no match\r\n"),
    ("MATCH ! . opal\r\n", false, "552 no match\r\n"),
    ("DEFINE gem opal\r\n", false, "550 invalid database\r\n"),
    ("STATUS\r\n", false, "210 0 databases\r\n"),
];

/// What came to a sink, as text.
pub(crate) fn text_of(sink: &LimitedSink) -> &str {
    str::from_utf8(sink.taken()).unwrap_or("not UTF-8")
}

// How a run ends, and all that it writes into this sink.
fn told_into<S: Source, D: Lookup>(
    rt: &impl Abort,
    alloc: Global,
    reader: &mut S,
    desk: &mut D,
    writer: &mut LimitedSink,
) -> String {
    let end = run(alloc, reader, writer, desk, "gems.test", 7);
    let written = text_of(writer);
    format!(in alloc; "{end:?} {written}").expect(rt, "memory")
}

/// How a run ends, and all that it writes into a sink with this room.
pub(crate) fn told_of_run<S: Source, D: Lookup>(
    rt: &impl Abort,
    alloc: Global,
    reader: &mut S,
    desk: &mut D,
    room: usize,
) -> String {
    let mut writer = LimitedSink::new(alloc, room).expect(rt, "a sink");
    let told = told_into(rt, alloc, reader, desk, &mut writer);
    drop(writer);
    told
}

/// The same of a run of this input.
pub(crate) fn told_run<D: Lookup>(
    rt: &impl Abort,
    alloc: Global,
    desk: &mut D,
    input: &str,
    room: usize,
) -> String {
    let mut reader = OverRead::new(input.as_bytes());
    told_of_run(rt, alloc, &mut reader, desk, room)
}

/// A run of this input comes to this.
pub(crate) fn run_as<D: Lookup>(
    rt: &impl Abort,
    alloc: Global,
    desk: &mut D,
    input: &str,
    wanted: &str,
) {
    let told = told_run(rt, alloc, desk, input, 1000);
    same_text(rt, told.as_str(), wanted);
    drop(told);
}

// Runs the rows whole.
fn run_rows<D: Lookup>(rt: &impl Abort, alloc: Global, desk: &mut D, rows: &[Row]) {
    for (input, is_over, answers) in rows {
        let end = if *is_over { "Quit" } else { "InputEnd" };
        let want = format!(in alloc;
            "Ok({end}) 220 gems.test dictcat ready <7@gems.test>\r\n{answers}"
        ).expect(rt, "memory");
        run_as(rt, alloc, desk, input, want.as_str());
        drop(want);
    }
}

fn feed_piece<D: Lookup>(
    alloc: Global,
    session: &mut Session,
    desk: &mut D,
    piece: &[u8],
    sink: &mut LimitedSink,
) -> Step {
    session.feed(alloc, piece, desk, sink)
}

// Feeds two pieces, and then other octets one by one.
fn feed<D: Lookup>(
    alloc: Global,
    session: &mut Session,
    desk: &mut D,
    pieces: (&[u8], &[u8], &[u8]),
    sink: &mut LimitedSink,
) -> Step {
    feed_piece(alloc, session, desk, pieces.0, sink);
    let mut step = feed_piece(alloc, session, desk, pieces.1, sink);
    for octet in pieces.2 {
        step = feed_piece(alloc, session, desk, &[*octet], sink);
    }
    step
}

fn feed_new<D: Lookup>(
    rt: &impl Abort,
    alloc: Global,
    desk: &mut D,
    pieces: (&[u8], &[u8], &[u8]),
    sink: &mut LimitedSink,
) -> Step {
    let mut session = Session::new(alloc, "gems.test", 7).expect(rt, "a session");
    let step = feed(alloc, &mut session, desk, pieces, sink);
    drop(session);
    step
}

fn told_feed_into<D: Lookup>(
    rt: &impl Abort,
    alloc: Global,
    desk: &mut D,
    pieces: (&[u8], &[u8], &[u8]),
    sink: &mut LimitedSink,
) -> String {
    let step = feed_new(rt, alloc, desk, pieces, sink);
    let written = text_of(sink);
    format!(in alloc; "{step:?} {written}").expect(rt, "memory")
}

/// What a new session comes to by two pieces and then other octets one by one, and what it writes into a sink with this
/// room; after a QUIT or a fault of the sink each octet comes to the same.
pub(crate) fn told_feed<D: Lookup>(
    rt: &impl Abort,
    alloc: Global,
    desk: &mut D,
    pieces: (&[u8], &[u8], &[u8]),
    room: usize,
) -> String {
    let mut sink = LimitedSink::new(alloc, room).expect(rt, "a sink");
    let told = told_feed_into(rt, alloc, desk, pieces, &mut sink);
    drop(sink);
    told
}

fn feed_as<D: Lookup>(
    rt: &impl Abort,
    alloc: Global,
    desk: &mut D,
    pieces: (&[u8], &[u8], &[u8]),
    want: &str,
) {
    let told = told_feed(rt, alloc, desk, pieces, 1000);
    same_text(rt, told.as_str(), want);
    drop(told);
}

// Feeds a row octet by octet, and cut in two at each place.
fn feed_pieces<D: Lookup>(rt: &impl Abort, alloc: Global, desk: &mut D, input: &[u8], want: &str) {
    feed_as(rt, alloc, desk, (b"", b"", input), want);
    for place in 0..=input.len() {
        let (first, second) = input.split_at(place);
        feed_as(rt, alloc, desk, (first, second, b""), want);
    }
}

// Feeds the rows octet by octet, and cut in two at each place.
fn feed_rows<D: Lookup>(rt: &impl Abort, alloc: Global, desk: &mut D, rows: &[Row]) {
    for (input, is_over, answers) in rows {
        let step = if *is_over { "Quit" } else { "More" };
        let want = format!(in alloc; "{step} {answers}").expect(rt, "memory");
        feed_pieces(rt, alloc, desk, input.as_bytes(), want.as_str());
        drop(want);
    }
}

/// Runs the rows whole, and feeds them octet by octet and cut in two at each place.
pub(crate) fn answer_rows<D: Lookup>(rt: &impl Abort, alloc: Global, desk: &mut D, rows: &[Row]) {
    run_rows(rt, alloc, desk, rows);
    feed_rows(rt, alloc, desk, rows);
}

/// Over `stones` and `gem`.
pub(crate) static BOTH_ROWS: [Row; 2] = [
    (
        "DEFINE * opal\r\n",
        false,
        "150 2 definitions retrieved\r\n151 \"opal\" stones \"Stones\"\r\nx\r\n.\r\n151 \"opal\" gem \"Gems\"\r\nopal\r\n  a stone\r\n.\r\n250 ok\r\n",
    ),
    (
        "MATCH * exact opal\r\n",
        false,
        "152 2 matches found\r\nstones \"opal\"\r\ngem \"opal\"\r\n.\r\n250 ok\r\n",
    ),
];

/// A full sink breaks a list off.
pub(crate) fn break_off<D: Lookup>(rt: &impl Abort, alloc: Global, desk: &mut D) {
    for room in 0..ALL_STONES.len() {
        let pieces = (
            b"MATCH stones substring a\r".as_slice(),
            b"\n".as_slice(),
            b"STATUS\r\n".as_slice(),
        );
        let told = told_feed(rt, alloc, desk, pieces, room);
        let is_so = told.strip_prefix("Broken ") == ALL_STONES.get(..room);
        drop(told);
        holds(rt, is_so, "a full sink");
    }
}

// What a session comes to by its greeting into one sink, and what comes to another by a second greeting and a line.
fn told_both<D: Lookup>(
    rt: &impl Abort,
    alloc: Global,
    session: &mut Session,
    desk: &mut D,
    full: &mut LimitedSink,
    other: &mut LimitedSink,
) -> String {
    let first = session.greet(full);
    let second = session.greet(other);
    let third = feed_piece(alloc, session, desk, b"STATUS\r\n", other);
    let (written, more) = (text_of(full), text_of(other));
    let told = format!(in alloc; "{first:?} {written} {second:?} {third:?} {more}");
    told.expect(rt, "memory")
}

fn told_greeting<D: Lookup>(
    rt: &impl Abort,
    alloc: Global,
    desk: &mut D,
    full: &mut LimitedSink,
    other: &mut LimitedSink,
) -> String {
    let mut session = Session::new(alloc, "gems.test", 7).expect(rt, "a session");
    let told = told_both(rt, alloc, &mut session, desk, full, other);
    drop(session);
    told
}

fn greet_into<D: Lookup>(
    rt: &impl Abort,
    alloc: Global,
    desk: &mut D,
    full: &mut LimitedSink,
) -> String {
    let mut other = LimitedSink::new(alloc, 1000).expect(rt, "a sink");
    let told = told_greeting(rt, alloc, desk, full, &mut other);
    drop(other);
    told
}

fn told_greet<D: Lookup>(rt: &impl Abort, alloc: Global, desk: &mut D) -> String {
    let mut full = LimitedSink::new(alloc, 3).expect(rt, "a sink");
    let told = greet_into(rt, alloc, desk, &mut full);
    drop(full);
    told
}

/// A full sink breaks the greeting off: it has room for three octets.
pub(crate) fn greet<D: Lookup>(rt: &impl Abort, alloc: Global, desk: &mut D) {
    let told = told_greet(rt, alloc, desk);
    same_text(rt, told.as_str(), "Broken 220 Broken Broken ");
    drop(told);
}

#[test]
fn names_of_hosts(rt: HostRuntime) {
    holds(&rt, is_host("localhost") && is_host("Gems-1.test"), "hosts");
    holds(&rt, !is_host("") && !is_host("gems_1"), "no hosts");
    holds(&rt, !is_host("gems test"), "no host");
    one_cut();
    spoken_answers();
    spoken_or_unavailable();
    broken_is_a_front();
    session_lines_are_short();
}
