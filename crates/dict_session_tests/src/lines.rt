//! What the lines of clients ask for.
use crate::checks::{same_text, same_text_of};
use dict_proto::{LineFault, Request, one_reading, parse_line, worked_lines, worked_meanings};
use std::alloc::{AllocError, Global};
use std::process::Abort;

// What a request asks for, as text: its words stand between bars.
fn told_request(alloc: Global, request: &Request) -> Result<String, AllocError> {
    match request {
        Request::Define { database, word } => format!(in alloc; "Define|{database}|{word}|"),
        Request::Match {
            database,
            strategy,
            word,
        } => format!(in alloc; "Match|{database}|{strategy}|{word}|"),
        Request::ShowInfo { database } => format!(in alloc; "ShowInfo|{database}|"),
        plain => format!(in alloc; "{plain:?}"),
    }
}

fn told_reading(alloc: Global, read: &Result<Request, LineFault>) -> Result<String, AllocError> {
    match read {
        Ok(request) => told_request(alloc, request),
        Err(fault) => format!(in alloc; "{fault:?}"),
    }
}

// What a line asks for, or why it asks for nothing.
fn told(rt: &impl Abort, alloc: Global, line: &[u8]) -> String {
    let read = parse_line(alloc, line);
    let told = told_reading(alloc, &read).expect(rt, "memory");
    drop(read);
    told
}

fn ask(rt: &impl Abort, alloc: Global, rows: &[(&str, &str)]) {
    for (line, wanted) in rows {
        let told = told(rt, alloc, line.as_bytes());
        same_text_of(rt, told.as_str(), *wanted, line);
        drop(told);
    }
}

// These lines ask for nothing, for this cause.
fn refuse(rt: &impl Abort, alloc: Global, lines: &[&[u8]], cause: &str) {
    for line in lines {
        let told = told(rt, alloc, line);
        same_text(rt, told.as_str(), cause);
        drop(told);
    }
}

static DEFINITIONS: [(&str, &str); 23] = [
    ("DEFINE gem opal", "Define|gem|opal|"),
    ("define gem OPAL", "Define|gem|OPAL|"),
    (" dEfInE\tGEM  opal \t", "Define|GEM|opal|"),
    ("DEFINE x été", "Define|x|été|"),
    ("DEFINE \u{a0} \u{2028}", "Define|\u{a0}|\u{2028}|"),
    ("DEFINE a \u{10ffff}", "Define|a|\u{10ffff}|"),
    ("DEFINE \u{80} \u{9f}", "Define|\u{80}|\u{9f}|"),
    ("DEFINE * .", "Define|*|.|"),
    ("DEFINE define define", "Define|define|define|"),
    ("DEFINE gem \"fire opal\"", "Define|gem|fire opal|"),
    ("DEFINE gem 'fire  opal'", "Define|gem|fire  opal|"),
    ("DEFINE gem fire\\ opal", "Define|gem|fire opal|"),
    ("DEFINE gem o\"pa\"'l'", "Define|gem|opal|"),
    ("DEFINE gem \\opal", "Define|gem|opal|"),
    ("DEFINE 'gem' \"o\\\"pal\"", "Define|gem|o\"pal|"),
    ("DEFINE \"it's\" 'say \"a\"'", "Define|it's|say \"a\"|"),
    ("DEFINE 'it\\'s' \"a\\\\b\"", "Define|it's|a\\b|"),
    ("DEFINE \\'gem\\\" \\\\", "Define|'gem\"|\\|"),
    ("DEFINE gem \"\"", "Define|gem||"),
    ("DEFINE '' ''\"\"", "Define|||"),
    ("\"DEFINE\" \"*\" été", "Define|*|été|"),
    ("D'EF'\\I\"NE\" gem opal", "Define|gem|opal|"),
    ("DEFINE gem 'é'\\é\"é\"", "Define|gem|ééé|"),
];

static MATCHES: [(&str, &str); 8] = [
    ("MATCH gem prefix fire", "Match|gem|prefix|fire|"),
    ("match gem PREFIX Fire", "Match|gem|PREFIX|Fire|"),
    ("\tmAtCh  * \t.\topal  ", "Match|*|.|opal|"),
    ("MATCH ! suffix été", "Match|!|suffix|été|"),
    (
        "MATCH \u{a0} \u{2028} \u{10ffff}",
        "Match|\u{a0}|\u{2028}|\u{10ffff}|",
    ),
    ("MATCH match match match", "Match|match|match|match|"),
    (
        "MATCH \"gem\" 'prefix' \"fire opal\"",
        "Match|gem|prefix|fire opal|",
    ),
    ("mat'CH' \"\" '' \\.", "Match|||.|"),
];

static OTHERS: [(&str, &str); 24] = [
    ("SHOW DB", "ShowDatabases"),
    ("show  databases ", "ShowDatabases"),
    ("sHoW 'dB'", "ShowDatabases"),
    ("SHOW STRAT", "ShowStrategies"),
    ("Show\tStrategies", "ShowStrategies"),
    ("\"SHOW\" s\"trat\"", "ShowStrategies"),
    ("show  server", "ShowServer"),
    ("SHOW \\SERVER", "ShowServer"),
    ("CLIENT", "Client"),
    ("client curl", "Client"),
    (" cLiEnT \"a b\" 'c' d e f g ", "Client"),
    ("STATUS", "Status"),
    ("ST'AT'US", "Status"),
    ("\tstatus\t", "Status"),
    ("HELP", "Help"),
    ("hElP", "Help"),
    ("QUIT", "Quit"),
    (" quit ", "Quit"),
    ("\"QUIT\"", "Quit"),
    ("SHOW INFO gem", "ShowInfo|gem|"),
    ("show info GEM", "ShowInfo|GEM|"),
    ("sHoW iN'fO' \"a b\"", "ShowInfo|a b|"),
    ("SHOW INFO *", "ShowInfo|*|"),
    ("SHOW INFO \"\"", "ShowInfo||"),
];

static ILLEGAL: [&[u8]; 31] = [
    b"DEFINE",
    b"DEFINE gem",
    b"DEFINE gem fire opal",
    b"DEFINE gem prefix fire opal",
    b"DEFINE gem\"opal\"",
    b"DEFINE gem opal\\",
    b"DEFINE gem \"opal",
    b"DEFINE gem 'opal\"",
    b"DEFINE gem \"a\tb\"",
    b"DEFINE gem a\\\tb",
    b"MATCH",
    b"MATCH gem",
    b"MATCH gem prefix",
    b"MATCH gem prefix fire opal",
    b"SHOW",
    b"SHOW \"\"",
    b"SHOW X",
    b"SHOW DATABASE",
    b"SHOW DB x",
    b"SHOW STRAT \"\"",
    b"SHOW SERVER x",
    b"SHOW INFO",
    b"SHOW INFO a b",
    b"STATUS now",
    b"HELP me",
    b"QUIT x",
    b"QUIT \"\"",
    b"CLIENT \"a",
    b"NOTHING \"a",
    b"\\",
    b"OPTION 'mime",
];

static LEFT_OUT: [&[u8]; 7] = [
    b"OPTION",
    b"option mime",
    b"OPTION a b c d e",
    b"AUTH user secret",
    b"\"auth\"",
    b"SASLAUTH",
    b"SaslAuth 'a' b",
];

static UNKNOWN: [&[u8]; 21] = [
    b"",
    b" \t ",
    b"\"\"",
    b"SASLRESP x",
    b"MATCHES gem prefix fire",
    b"DEF gem opal",
    b"QUITE",
    b"\"QUIT \"",
    b"DEFIN\xc3\x89 a b",
    b"\xc5\xbfhow db",
    b"DEFINE gem op\nal",
    b"DEFINE gem op\ral",
    b"\nQUIT",
    b"DEFINE gem \"op\0al",
    b"DEFINE gem op\x1fal",
    b"DEFINE gem op\x7fal",
    b"DEFINE gem op\xff",
    b"DEFINE gem op\xc3",
    b"DEFINE gem \xed\xa0\x80",
    b"DEFINE gem \xc0\x80",
    b"DEFINE gem \xf4\x90\x80\x80",
];

#[test]
fn what_lines_ask_for(rt: HostRuntime) {
    one_reading();
    worked_lines();
    worked_meanings();
    ask(&rt, rt.alloc(), &DEFINITIONS);
    ask(&rt, rt.alloc(), &MATCHES);
    ask(&rt, rt.alloc(), &OTHERS);
}

#[test]
fn lines_that_ask_for_nothing(rt: HostRuntime) {
    refuse(&rt, rt.alloc(), &ILLEGAL, "IllegalParameters");
    refuse(&rt, rt.alloc(), &LEFT_OUT, "NotImplemented");
    refuse(&rt, rt.alloc(), &UNKNOWN, "NotRecognized");
}

fn told_len(alloc: Global, line: &str) -> Result<String, AllocError> {
    let len = line.len();
    match parse_line(alloc, line.as_bytes()).err() {
        None => format!(in alloc; "{len}"),
        Some(fault) => format!(in alloc; "{len} {fault:?}"),
    }
}

fn told_filled(
    rt: &impl Abort,
    alloc: Global,
    line: &mut String,
    text: &str,
    count: usize,
) -> String {
    for _ in 0..count {
        line.push_str(text).expect(rt, "memory");
    }
    told_len(alloc, line.as_str()).expect(rt, "memory")
}

// How many octets a front is with so many of a text behind it, and why that is no line, if it is none.
fn told_long(rt: &impl Abort, alloc: Global, front: &str, text: &str, count: usize) -> String {
    let mut line = String::from_str(alloc, front).expect(rt, "memory");
    let told = told_filled(rt, alloc, &mut line, text, count);
    drop(line);
    told
}

// With its CR LF a line has at most 1,024 characters, which are counted and not octets, and 6,144 octets.
static LONG: [(&str, &str, usize, &str); 6] = [
    ("CLIENT ", "x", 1015, "1022"),
    ("CLIENT ", "x", 1016, "1023 NotRecognized"),
    ("CLIENT ", "x", 6135, "6142 NotRecognized"),
    ("CLIENT ", "x", 6136, "6143 NotRecognized"),
    ("DEFINE gem ", "\u{10ffff}", 1011, "4055"),
    ("DEFINE gem ", "\u{10ffff}", 1012, "4059 NotRecognized"),
];

#[test]
fn long_lines(rt: HostRuntime) {
    for (front, text, count, wanted) in &LONG {
        let told = told_long(&rt, rt.alloc(), front, text, *count);
        same_text(&rt, told.as_str(), *wanted);
        drop(told);
    }
}
