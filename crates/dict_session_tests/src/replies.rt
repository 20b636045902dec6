//! The octets of each reply.
use crate::checks::holds;
use dict_proto::{
    LimitedSink, OverWrite, Reply, Sink, list_is_a_block, put_all, put_quoted,
    reply_lines_are_short, write_reply,
};
use std::alloc::Global;
use std::process::Abort;

// What a reply puts.
fn octets_of(rt: &impl Abort, alloc: Global, reply: &Reply) -> Vec<u8> {
    let mut sink = OverWrite::new(Vec::new(alloc));
    write_reply(&mut sink, reply).expect(rt, "a reply");
    sink.into_inner()
}

// Whether a reply puts this text.
fn puts(rt: &impl Abort, alloc: Global, reply: &Reply, text: &str) -> bool {
    let octets = octets_of(rt, alloc, reply);
    let is_so = octets.as_slice() == text.as_bytes();
    drop(octets);
    is_so
}

fn put_rows(rt: &impl Abort, alloc: Global, rows: &[(Reply, &str)]) {
    for (reply, text) in rows {
        holds(rt, puts(rt, alloc, reply, text), text);
    }
}

static NUMBERS: [(Reply<'static>, &str); 11] = [
    (
        Reply::Banner {
            host: "localhost",
            connection: 1,
        },
        "220 localhost dictcat ready <1@localhost>\r\n",
    ),
    (Reply::DefinitionCount(1), "150 1 definitions retrieved\r\n"),
    (
        Reply::DefinitionCount(18_446_744_073_709_551_615),
        "150 18446744073709551615 definitions retrieved\r\n",
    ),
    (Reply::MatchCount(1), "152 1 matches found\r\n"),
    (
        Reply::MatchCount(18_446_744_073_709_551_615),
        "152 18446744073709551615 matches found\r\n",
    ),
    (Reply::DatabaseCount(2), "110 2 databases present\r\n"),
    (Reply::DatabaseCount(1), "110 1 databases present\r\n"),
    (Reply::StrategyCount(7), "111 7 strategies available\r\n"),
    (Reply::Status(0), "210 0 databases\r\n"),
    (Reply::Status(64), "210 64 databases\r\n"),
    (
        Reply::ServerInformation {
            host: "localhost",
            count: 2,
        },
        "114 server information\r\ndictcat on localhost\r\ndatabases 2\r\n.\r\n",
    ),
];

static FIXED: [(Reply<'static>, &str); 13] = [
    (Reply::Done, "250 ok\r\n"),
    (Reply::Closing, "221 closing connection\r\n"),
    (Reply::Unavailable, "420 server temporarily unavailable\r\n"),
    (Reply::NotRecognized, "500 command not recognized\r\n"),
    (Reply::IllegalParameters, "501 illegal parameters\r\n"),
    (Reply::NotImplemented, "502 command not implemented\r\n"),
    (Reply::InvalidDatabase, "550 invalid database\r\n"),
    (Reply::InvalidStrategy, "551 invalid strategy\r\n"),
    (Reply::ListEnd, ".\r\n"),
    (Reply::NoMatch, "552 no match\r\n"),
    (Reply::NoDatabases, "554 no databases present\r\n"),
    (Reply::InfoHeading, "112 database information\r\n"),
    (
        Reply::Help,
        "113 help text\r\nDEFINE database word\r\nMATCH database strategy word\r\nSHOW DB\r\nSHOW STRAT\r\nSHOW INFO database\r\nSHOW SERVER\r\nCLIENT text\r\nSTATUS\r\nHELP\r\nQUIT\r\n.\r\n",
    ),
];

static LINES: [(Reply<'static>, &str); 6] = [
    (
        Reply::ListLine {
            name: "gem",
            text: "Opal, fire",
        },
        "gem \"Opal, fire\"\r\n",
    ),
    (
        Reply::ListLine {
            name: "gem",
            text: "a\"b\\c",
        },
        "gem \"a\\\"b\\\\c\"\r\n",
    ),
    (
        Reply::ListLine {
            name: "ete",
            text: "été",
        },
        "ete \"été\"\r\n",
    ),
    (
        Reply::ListLine {
            name: ".",
            text: ".x",
        },
        ".. \".x\"\r\n",
    ),
    (
        Reply::ListLine {
            name: "..a",
            text: "",
        },
        "...a \"\"\r\n",
    ),
    (
        Reply::ListLine {
            name: "",
            text: ".",
        },
        " \".\"\r\n",
    ),
];

// A period is doubled at the beginning of each line.
static DEFINITIONS: [(Reply<'static>, &str); 5] = [
    (
        Reply::Definition {
            headword: "Fire Opal",
            name: "gem",
            title: "Gems",
            body: b"opal\n  a stone\n",
        },
        "151 \"Fire Opal\" gem \"Gems\"\r\nopal\r\n  a stone\r\n.\r\n",
    ),
    (
        Reply::Definition {
            headword: "a\"b\\c",
            name: "x",
            title: "\"",
            body: b"",
        },
        "151 \"a\\\"b\\\\c\" x \"\\\"\"\r\n.\r\n",
    ),
    (
        Reply::Definition {
            headword: "a",
            name: "b",
            title: "c",
            body: b"x\n.y\n.\n..z\na.b",
        },
        "151 \"a\" b \"c\"\r\nx\r\n..y\r\n..\r\n...z\r\na.b\r\n.\r\n",
    ),
    (
        Reply::Definition {
            headword: "a",
            name: "b",
            title: "c",
            body: b".dot\n",
        },
        "151 \"a\" b \"c\"\r\n..dot\r\n.\r\n",
    ),
    (
        Reply::Definition {
            headword: "a",
            name: "b",
            title: "c",
            body: b"\n",
        },
        "151 \"a\" b \"c\"\r\n\r\n.\r\n",
    ),
];

static INFOS: [(Reply<'static>, &str); 3] = [
    (Reply::InfoText(b""), ".\r\n"),
    (Reply::InfoText(b"Gems\n"), "Gems\r\n.\r\n"),
    (
        Reply::InfoText(b".one\n\n..\n\xc3\xa9t\xc3\xa9s"),
        "..one\r\n\r\n...\r\nétés\r\n.\r\n",
    ),
];

#[test]
fn replies_and_texts(rt: HostRuntime) {
    reply_lines_are_short();
    list_is_a_block();
    for rows in [
        NUMBERS.as_slice(),
        FIXED.as_slice(),
        LINES.as_slice(),
        DEFINITIONS.as_slice(),
        INFOS.as_slice(),
    ] {
        put_rows(&rt, rt.alloc(), rows);
    }
}

// A text of so many letters, and two lines more.
fn push_long(rt: &impl Abort, text: &mut String, letters: usize, more: &str) {
    for _ in 0..letters {
        text.push('x').expect(rt, "memory");
    }
    text.push_str(more).expect(rt, "memory");
}

fn long_text(rt: &impl Abort, alloc: Global, letters: usize, more: &str) -> String {
    let mut text = String::new(alloc);
    push_long(rt, &mut text, letters, more);
    text
}

fn puts_text(rt: &impl Abort, alloc: Global, letters: usize, text: &str) -> bool {
    let body = long_text(rt, alloc, letters, "\n.y\n");
    let is_so = puts(rt, alloc, &Reply::InfoText(body.as_bytes()), text);
    drop(body);
    is_so
}

fn puts_long(rt: &impl Abort, alloc: Global, letters: usize) -> bool {
    let text = long_text(rt, alloc, letters, "\r\n..y\r\n.\r\n");
    let is_so = puts_text(rt, alloc, letters, text.as_str());
    drop(text);
    is_so
}

// Lines about as long as what is gathered at once, and longer.
#[test]
fn long_texts(rt: HostRuntime) {
    for letters in [1017, 1018, 1019, 1020, 1021, 1022, 1023, 1024, 1025, 3000] {
        holds(&rt, puts_long(&rt, rt.alloc(), letters), "a long text");
    }
}

fn quote(rt: &impl Abort, sink: &mut OverWrite<Vec<u8>>) {
    put_quoted(sink, "Gems").expect(rt, "a quote");
    put_all(sink, &[b" ", b"-", b" "]).expect(rt, "memory");
    put_quoted(sink, "say \"a\\b\"").expect(rt, "a quote");
    sink.put(b"\r\n").expect(rt, "memory");
}

#[test]
fn quotes(rt: HostRuntime) {
    let mut sink = OverWrite::new(Vec::new(rt.alloc()));
    quote(&rt, &mut sink);
    let octets = sink.into_inner();
    let is_so = octets.as_slice() == b"\"Gems\" - \"say \\\"a\\\\b\\\"\"\r\n".as_slice();
    drop(octets);
    holds(&rt, is_so, "quotes");
}

static WHOLE: [(Reply<'static>, &str); 4] = [
    (
        Reply::ListLine {
            name: ".gem",
            text: "a\"b",
        },
        "..gem \"a\\\"b\"\r\n",
    ),
    (
        Reply::Definition {
            headword: "a\"b",
            name: "gem",
            title: "Gems",
            body: b"x\n.y\n",
        },
        "151 \"a\\\"b\" gem \"Gems\"\r\nx\r\n..y\r\n.\r\n",
    ),
    (Reply::InfoText(b".gem\nx"), "..gem\r\nx\r\n.\r\n"),
    (
        Reply::ServerInformation {
            host: "a",
            count: 10,
        },
        "114 server information\r\ndictcat on a\r\ndatabases 10\r\n.\r\n",
    ),
];

// Whether a sink with this room takes as much of a reply as it has room for, and the reply says whether it took all.
fn is_put_within(rt: &impl Abort, alloc: Global, reply: &Reply, text: &str, room: usize) -> bool {
    let mut sink = LimitedSink::new(alloc, room).expect(rt, "a sink");
    let is_ok = write_reply(&mut sink, reply).is_ok();
    let front = text.get(..room).unwrap_or(text);
    let is_so = is_ok == (room >= text.len()) && sink.taken() == front.as_bytes();
    drop(sink);
    is_so
}

// A sink with room for k octets takes the first k, and the reply is Ok only with room for all.
#[test]
fn a_sink_with_little_room(rt: HostRuntime) {
    for (reply, text) in &WHOLE {
        for room in 0..text.len() + 2 {
            let is_so = is_put_within(&rt, rt.alloc(), reply, text, room);
            holds(&rt, is_so, text);
        }
    }
}
