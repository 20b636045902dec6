//! Sessions of `plain`, over databases that were read, cut in any way.
use crate::checks::{holds, same_text};
use app_commands::run_plain;
use app_words::ProgramFault;
use dict_desk::PlainDesk;
use dict_fixtures::{GEM_INDEX, GEM_TEXT};
use dict_proto::{LimitedSink, OverRead};
use std::alloc::Global;
use std::io::{Error, ErrorKind, Read, Result as IoResult};
use std::process::Abort;

/// A database's name, its index and its text.
type Database = (&'static str, &'static [u8], &'static [u8]);

const GEM: Database = ("gem", GEM_INDEX, GEM_TEXT);

// One headword begins another; the longer ends with the last character of all, U+10FFFF, which is no letter.
const EDGE: Database = (
    "edge",
    b"00-database-short\tA\tZ\na\tZ\tC\na\xf4\x8f\xbf\xbf\tZ\tC\nb\tZ\tC\n",
    b"00-database-short\n  Gems\nx\n",
);

// A headword in capitals, two of which are past ASCII.
const ETE: Database = (
    "ete",
    b"00-database-short\tA\tZ\n\xc3\x89T\xc3\x89\tZ\tH\n",
    b"00-database-short\n  Mots\nsaison\n",
);

// A headword of which folding leaves nothing.
const PLUS: Database = (
    "gem2",
    b"00-database-short\tA\tZ\n+\tZ\tF\n",
    b"00-database-short\n  Gems\nplus\n",
);

const BANNER: &str = "220 localhost dictcat ready <1@localhost>\r\n";

const OPAL: &str =
    "150 1 definitions retrieved\r\n151 \"opal\" gem \"Gems\"\r\nopal\r\n  a stone\r\n.\r\n250 ok\r\n";

const NOT_RECOGNIZED: &str = "500 command not recognized\r\n";

const ILLEGAL_PARAMETERS: &str = "501 illegal parameters\r\n";

const NO_MATCH: &str = "552 no match\r\n";

const OPAL_MATCH: &str = "152 1 matches found\r\ngem \"opal\"\r\n.\r\n250 ok\r\n";

const FIRE_MATCH: &str = "152 1 matches found\r\ngem \"Fire Opal\"\r\n.\r\n250 ok\r\n";

const OPAL_MATCHES: &str =
    "152 2 matches found\r\ngem \"opal\"\r\ngem \"Fire Opal\"\r\n.\r\n250 ok\r\n";

/// Gives octets, the first time so many and then pieces of another size, and then ends or fails.
#[derive(Drop)]
struct Pieces<'a> {
    rest: &'a [u8],
    size: usize,
    next_size: usize,
    fails: bool,
}

impl Read for Pieces<'_> {
    fn read(&mut self, room: &mut [u8]) -> IoResult<usize> {
        if self.rest.is_empty() && self.fails {
            return Err(Error::from(ErrorKind::ConnectionReset));
        }
        let size = self.size.min(self.rest.len()).min(room.len());
        let (piece, rest) = self.rest.split_at(size);
        room[..size].copy_from_slice(piece);
        self.rest = rest;
        self.size = self.next_size;
        Ok(size)
    }
}

// Runs a session over the database that an index and a text make.
fn run_over(
    alloc: Global,
    name: &str,
    index: Vec<u8>,
    text: Vec<u8>,
    pieces: Pieces<'_>,
    writer: &mut LimitedSink,
) -> Result<(), ProgramFault<'static>> {
    run_plain(
        alloc,
        &mut PlainDesk::new(alloc),
        name,
        index,
        text,
        &mut OverRead::new(pieces),
        writer,
    )
}

// The same over a database. The fault that it ends by, if it does.
fn end_over(
    rt: &impl Abort,
    alloc: Global,
    database: Database,
    pieces: Pieces<'_>,
    writer: &mut LimitedSink,
) -> String {
    let (name, index, text) = database;
    let index = Vec::from_slice(alloc, index).expect(rt, "memory");
    let text = Vec::from_slice(alloc, text).expect(rt, "memory");
    match run_over(alloc, name, index, text, pieces, writer) {
        Ok(()) => String::new(alloc),
        Err(fault) => format!(in alloc; "!{fault}").expect(rt, "memory"),
    }
}

// What a sink took, as text.
fn taken(rt: &impl Abort, alloc: Global, sink: &LimitedSink) -> String {
    let octets = sink.taken().to_vec(alloc).expect(rt, "memory");
    String::from_utf8(octets).expect(rt, "a text")
}

// What a session over a database writes to a sink with this room, and behind it a fault that it ends by.
fn session(
    rt: &impl Abort,
    alloc: Global,
    database: Database,
    pieces: Pieces<'_>,
    room: usize,
) -> String {
    let mut writer = LimitedSink::new(alloc, room).expect(rt, "a sink");
    let end = end_over(rt, alloc, database, pieces, &mut writer);
    let mut written = taken(rt, alloc, &writer);
    drop(writer);
    written.push_str(end.as_str()).expect(rt, "memory");
    drop(end);
    written
}

// Whether a session with this input, cut so, writes its greeting and this answer.
fn is_answered(
    rt: &impl Abort,
    alloc: Global,
    database: Database,
    pieces: Pieces<'_>,
    answer: &str,
) -> bool {
    let written = session(rt, alloc, database, pieces, 1000);
    let is_so = written.as_str().strip_prefix(BANNER) == Some(answer);
    drop(written);
    is_so
}

// The size of the first piece with which an input is answered otherwise, if there is one, where the next have this size.
fn cut_where(
    rt: &impl Abort,
    alloc: Global,
    database: Database,
    input: &str,
    next_size: usize,
    answer: &str,
) -> Option<usize> {
    for size in 1..=input.len().max(1) {
        let pieces = Pieces {
            rest: input.as_bytes(),
            size,
            next_size,
            fails: false,
        };
        if !is_answered(rt, alloc, database, pieces, answer) {
            return Some(size);
        }
    }
    None
}

// The same where the next have one octet, and where they have all that are left.
fn cut_anywhere(
    rt: &impl Abort,
    alloc: Global,
    database: Database,
    input: &str,
    answer: &str,
) -> Option<usize> {
    match cut_where(rt, alloc, database, input, 1, answer) {
        None => cut_where(rt, alloc, database, input, 1000, answer),
        found => found,
    }
}

static ANSWERS: [(Database, &str, &str); 37] = [
    (GEM, "", ""),
    (GEM, "DEFINE gem opal", ""),
    (GEM, "DEFINE gem OPAL\r\n", OPAL),
    (
        GEM,
        "DEFINE gem dot\r\n",
        "150 1 definitions retrieved\r\n151 \"dot\" gem \"Gems\"\r\n..dot\r\n.\r\n250 ok\r\n",
    ),
    (GEM, "DEFINE nosuch opal\r\n", "550 invalid database\r\n"),
    (GEM, "DEFINE gem ruby\r\n", NO_MATCH),
    (GEM, "STATUS\r\n", "210 1 databases\r\n"),
    (
        GEM,
        "show db\r\n",
        "110 1 databases present\r\ngem \"Gems\"\r\n.\r\n250 ok\r\n",
    ),
    (
        GEM,
        "SHOW SERVER\r\n",
        "114 server information\r\ndictcat on localhost\r\ndatabases 1\r\n.\r\n250 ok\r\n",
    ),
    (GEM, "SASLRESP x\r\n", NOT_RECOGNIZED),
    (GEM, "DEFINE gem\r\n", ILLEGAL_PARAMETERS),
    (GEM, "DEFINE gem \"opal\r\n", ILLEGAL_PARAMETERS),
    (GEM, "DEFINE gem \"opal\"\r\n", OPAL),
    (GEM, "\"define\" 'gem' o\\pal\r\n", OPAL),
    (GEM, "CLIENT \"curl 7.88\"\r\n", "250 ok\r\n"),
    (GEM, "option mime\r\n", "502 command not implemented\r\n"),
    (
        GEM,
        "QUIT\r\nDEFINE gem opal\r\n",
        "221 closing connection\r\n",
    ),
    (GEM, "MATCH gem suffix opal\r\n", OPAL_MATCHES),
    (GEM, "match gem substring OPAL\r\n", OPAL_MATCHES),
    (GEM, "MATCH gem . fire\r\n", FIRE_MATCH),
    (GEM, "MATCH gem prefix fire\r\n", FIRE_MATCH),
    (GEM, "MATCH gem exact opal\r\n", OPAL_MATCH),
    (GEM, "MATCH gem first opal\r\n", OPAL_MATCH),
    (GEM, "MATCH gem word fire\r\n", FIRE_MATCH),
    (GEM, "MATCH gem last opal\r\n", OPAL_MATCHES),
    (
        GEM,
        "MATCH gem substring o\r\n",
        "152 3 matches found\r\ngem \"opal\"\r\ngem \"Fire Opal\"\r\ngem \"dot\"\r\n.\r\n250 ok\r\n",
    ),
    (
        EDGE,
        "MATCH edge prefix a\r\n",
        "152 2 matches found\r\nedge \"a\"\r\nedge \"a\u{10FFFF}\"\r\n.\r\n250 ok\r\n",
    ),
    (
        ETE,
        "MATCH ete suffix é\r\n",
        "152 1 matches found\r\nete \"ÉTÉ\"\r\n.\r\n250 ok\r\n",
    ),
    (
        ETE,
        "DEFINE ete été\r\n",
        "150 1 definitions retrieved\r\n151 \"ÉTÉ\" ete \"Mots\"\r\nsaison\r\n.\r\n250 ok\r\n",
    ),
    (
        EDGE,
        "MATCH edge . b\r\n",
        "152 1 matches found\r\nedge \"b\"\r\n.\r\n250 ok\r\n",
    ),
    (GEM, "MATCH nosuch nosuch x\r\n", "550 invalid database\r\n"),
    (GEM, "MATCH gem nosuch x\r\n", "551 invalid strategy\r\n"),
    (GEM, "MATCH gem PREFIX opal\r\n", "551 invalid strategy\r\n"),
    (GEM, "MATCH gem exact x\r\n", NO_MATCH),
    (GEM, "MATCH gem prefix 00\r\n", NO_MATCH),
    (
        PLUS,
        "DEFINE gem2 +\r\n",
        "150 1 definitions retrieved\r\n151 \"+\" gem2 \"Gems\"\r\nplus\r\n.\r\n250 ok\r\n",
    ),
    (PLUS, "DEFINE gem2 -\r\n", NO_MATCH),
];

fn answers_in_any_pieces(rt: &impl Abort, alloc: Global) {
    for (database, input, answer) in &ANSWERS {
        let found = cut_anywhere(rt, alloc, *database, *input, *answer);
        holds(rt, found.is_none(), input);
    }
}

// The reader fails after QUIT, and in the middle of a line.
static FAILING: [(&str, &str); 2] = [
    (
        "DEFINE gem opal\r\nQUIT\r\n",
        "150 1 definitions retrieved\r\n151 \"opal\" gem \"Gems\"\r\nopal\r\n  a stone\r\n.\r\n250 ok\r\n221 closing connection\r\n",
    ),
    (
        "DEFINE gem opal\r\nQUI",
        "150 1 definitions retrieved\r\n151 \"opal\" gem \"Gems\"\r\nopal\r\n  a stone\r\n.\r\n250 ok\r\n!session ended by a fault",
    ),
];

fn a_line_is_answered_before_the_next_piece_is_read(rt: &impl Abort, alloc: Global) {
    for (input, answer) in &FAILING {
        let pieces = Pieces {
            rest: input.as_bytes(),
            size: 17,
            next_size: 6,
            fails: true,
        };
        holds(rt, is_answered(rt, alloc, GEM, pieces, *answer), input);
    }
}

const WHOLE: &str =
    "220 localhost dictcat ready <1@localhost>\r\n150 1 definitions retrieved\r\n151 \"opal\" gem \"Gems\"\r\nopal\r\n  a stone\r\n.\r\n250 ok\r\n221 closing connection\r\n";

// What a session of two lines writes to a sink with this room.
fn into_room(rt: &impl Abort, alloc: Global, room: usize) -> String {
    let pieces = Pieces {
        rest: b"DEFINE gem opal\r\nQUIT\r\n",
        size: 1000,
        next_size: 1000,
        fails: false,
    };
    session(rt, alloc, GEM, pieces, room)
}

fn a_full_sink_ends_the_session(rt: &impl Abort, alloc: Global) {
    for room in 0..WHOLE.len() {
        let written = into_room(rt, alloc, room);
        let begun = written.as_str().strip_suffix("!session ended by a fault");
        let is_so = begun.is_some() && begun == WHOLE.get(..room);
        drop(written);
        holds(rt, is_so, "a front");
    }
    let written = into_room(rt, alloc, WHOLE.len());
    same_text(rt, written.as_str(), WHOLE);
    drop(written);
}

#[test]
fn plain_sessions_are_held(rt: HostRuntime) {
    answers_in_any_pieces(&rt, rt.alloc());
    a_line_is_answered_before_the_next_piece_is_read(&rt, rt.alloc());
    a_full_sink_ends_the_session(&rt, rt.alloc());
}
