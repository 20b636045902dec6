// Pairs of files that are read, and that are refused.
use super::files::GEM;
use crate::checks::{holds, same, same_text, same_text_of};
use bstr::ByteSlice;
use dict_index::{
    Edition, EditionRefusal, Entry, IndexFault, entry_key, is_edition_text, is_shown, read_edition,
};
use std::alloc::Global;
use std::process::Abort;

/// A refusal's name and its line, or 0 where it has none; and no name where an edition is read.
#[derive(Clone, Copy)]
struct Told(&'static str, usize);

const READ: Told = Told("", 0);

fn told_of(rt: &impl Abort, alloc: Global, index: &[u8], text: &[u8]) -> Told {
    match read_edition(alloc, index, text) {
        Ok(_edition) => READ,
        Err(IndexFault::Refused { refusal, line }) => Told(refusal.name(), line.unwrap_or(0)),
        Err(IndexFault::Memory) => panic!(rt; "no memory"),
    }
}

// Reads the files, which have to be refused so.
fn check(rt: &impl Abort, alloc: Global, index: &[u8], text: &[u8], told: Told) {
    let Told(name, line) = told_of(rt, alloc, index, text);
    same_text(rt, name, told.0);
    same(rt, &line, &told.1);
}

// So many pieces, one behind the other, between a front and an end.
fn repeated(
    rt: &impl Abort,
    alloc: Global,
    front: &[u8],
    piece: &[u8],
    count: usize,
    end: &[u8],
) -> Vec<u8> {
    let mut octets = front.to_vec(alloc).expect(rt, "memory");
    for _ in 0..count {
        octets.extend_from_slice(piece).expect(rt, "memory");
    }
    octets.extend_from_slice(end).expect(rt, "memory");
    octets
}

// The octets as text, or the empty text where they are none.
fn as_text(octets: &[u8]) -> &str {
    octets.to_str().unwrap_or("")
}

// Puts an entry as its headword, what is shown where that is another text, its key, offset, size and text.
fn push_entry(rt: &impl Abort, alloc: Global, text: &mut String, entry: &Entry<'_>) {
    text.push_str(entry.headword).expect(rt, "memory");
    if entry.shown != entry.headword {
        text.push_str(" as ").expect(rt, "memory");
        text.push_str(entry.shown).expect(rt, "memory");
    }
    text.push_str("=").expect(rt, "memory");
    text.push_str(as_text(entry.key.as_bytes()))
        .expect(rt, "memory");
    let span = format!(in alloc; " {} {} ", entry.offset, entry.size).expect(rt, "memory");
    text.push_str(span.as_str()).expect(rt, "memory");
    text.push_str(entry.body).expect(rt, "memory");
}

fn entries_in(rt: &impl Abort, alloc: Global, entries: &[Entry<'_>]) -> String {
    let mut text = String::new(alloc);
    for entry in entries {
        push_entry(rt, alloc, &mut text, entry);
    }
    text
}

// An index, a text, and the title, what the database says of itself, and the entries.
#[derive(Clone, Copy)]
struct Case(
    &'static [u8],
    &'static [u8],
    &'static str,
    &'static str,
    &'static str,
);

static CASES: [Case; 11] = [
    Case(
        b"00-database-short\tA\tZ\nopal\tZ\tP\nFire Opal\tZ\tP\ndot\to\tF\n",
        b"00-database-short\n  Gems\nopal\n  a stone\n.dot\n",
        "Gems",
        "",
        "opal=opal 25 15 opal\n  a stone\nFire Opal=fire opal 25 15 opal\n  a stone\ndot=dot 40 5 .dot\n",
    ),
    Case(
        b"00-database-short\tA\tX\niron\tX\tL\n",
        b"00-database-short\nOres\niron\n  ore\n",
        "Ores",
        "",
        "iron=iron 23 11 iron\n  ore\n",
    ),
    Case(
        b"00-database-short\tA\tZ\n+\tZ\tF\n",
        b"00-database-short\n  Gems\nplus\n",
        "Gems",
        "",
        "+=+ 25 5 plus\n",
    ),
    Case(
        b"00-database-short\tA\tZ\na\tZ\tC\na\xf4\x8f\xbf\xbf\tZ\tC\nb\tZ\tC\n",
        b"00-database-short\n  Gems\nx\n",
        "Gems",
        "",
        "a=a 25 2 x\na\u{10ffff}=a 25 2 x\nb=b 25 2 x\n",
    ),
    Case(
        b"00-database-short\tA\tZ\n\xc3\x89T\xc3\x89\tZ\tC\n00-databa\xc5\xbfe-short\tZ\tC\n",
        b"00-database-short\n  Mots\nx\n",
        "Mots",
        "",
        "ÉTÉ=été 25 2 x\n00-databa\u{17f}e-short=00databaseshort 25 2 x\n",
    ),
    Case(
        b"00-database-short\tA\tX\n00-database-info\tX\tX\n",
        b"00-database-short\nGems\n00-database-info\n.a\n\nb\n",
        "Gems",
        ".a\n\nb\n",
        "",
    ),
    // One key line alone is dropped, of the short text its own; any spelling of the key will do.
    Case(
        b"00-Database-SHORT\tA\tR\n00databaseinfo\tR\ti\n",
        b"00-database-info\n00-database-info\n00databaseinfo\nx\n",
        "00-database-info",
        "00databaseinfo\nx\n",
        "",
    ),
    Case(b"00databaseshort\tA\tI\n", b" \tGems\t \nx", "Gems", "", ""),
    // A fourth column is what is shown, and the key is the headword's.
    Case(
        b"00-database-short\tA\tZ\nopal\tZ\tP\nFire Opal\tZ\tP\tOpal, fire\ndot\to\tF\n",
        b"00-database-short\n  Gems\nopal\n  a stone\n.dot\n",
        "Gems",
        "",
        "opal=opal 25 15 opal\n  a stone\nFire Opal as Opal, fire=fire opal 25 15 opal\n  a stone\ndot=dot 40 5 .dot\n",
    ),
    Case(
        b"00-database-short\tA\tZ\nopal\tZ\tP\tOpal\nfire opal\tZ\tP\tOpal\ndot\to\tF\t00-database-short\n",
        b"00-database-short\n  Gems\nopal\n  a stone\n.dot\n",
        "Gems",
        "",
        "opal as Opal=opal 25 15 opal\n  a stone\nfire opal as Opal=fire opal 25 15 opal\n  a stone\ndot as 00-database-short=dot 40 5 .dot\n",
    ),
    // Of a reserved line it is nothing.
    Case(
        b"00-database-short\tA\tX\tMetals\n00-database-info\tX\tX\t00-database-short\n00-database-url\tA\tA\topal\n",
        b"00-database-short\nGems\n00-database-info\n.a\n\nb\n",
        "Gems",
        ".a\n\nb\n",
        "",
    ),
];

fn check_edition(rt: &impl Abort, alloc: Global, edition: &Edition<'static>, case: &Case) {
    let Case(_, text, title, info, entries) = case;
    edition.is_well_formed();
    same_text(rt, edition.title(), *title);
    same_text_of(rt, edition.info(), *info, title);
    holds(rt, edition.text() == *text, title);
    let read = entries_in(rt, alloc, edition.entries());
    same_text_of(rt, read.as_str(), *entries, title);
}

fn read_case(rt: &impl Abort, alloc: Global, case: &Case) {
    let edition = read_edition(alloc, case.0, case.1).expect(rt, "an edition");
    check_edition(rt, alloc, &edition, case);
}

#[test]
fn reads_editions(rt: HostRuntime) {
    for case in &CASES {
        read_case(&rt, rt.alloc(), case);
    }
}

static REFUSALS: [(EditionRefusal, u8, &str); 15] = [
    (EditionRefusal::IndexNotUtf8, 1, "IndexNotUtf8"),
    (EditionRefusal::Columns, 2, "Columns"),
    (EditionRefusal::Number, 3, "Number"),
    (EditionRefusal::Interval, 4, "Interval"),
    (EditionRefusal::Headword, 5, "Headword"),
    (EditionRefusal::BodyText, 6, "BodyText"),
    (EditionRefusal::BodyLine, 7, "BodyLine"),
    (EditionRefusal::Reserved, 8, "Reserved"),
    (EditionRefusal::ReservedTwice, 9, "ReservedTwice"),
    (EditionRefusal::NoTitle, 10, "NoTitle"),
    (EditionRefusal::BadTitle, 11, "BadTitle"),
    (EditionRefusal::TooManyEntries, 12, "TooManyEntries"),
    (EditionRefusal::TextTooLong, 13, "TextTooLong"),
    (EditionRefusal::LastLine, 14, "LastLine"),
    (EditionRefusal::Shown, 15, "Shown"),
];

#[test]
fn numbers_and_names(rt: HostRuntime) {
    for (refusal, number, name) in &REFUSALS {
        same(&rt, &refusal.number(), number);
        same_text(&rt, refusal.name(), *name);
    }
}

// Headwords, and their keys, or the empty text where they have none.
static HEADWORDS: [(&str, &str); 14] = [
    ("Fire Opal", "fire opal"),
    ("+", "+"),
    ("00-data", "00data"),
    ("", ""),
    (" \u{a0}", "\u{a0}"),
    (" ", ""),
    ("a\tb", ""),
    ("00-database-short", ""),
    ("00 Database", "00 database"),
    ("00databaseurl", ""),
    ("ÉTÉ", "été"),
    ("don\u{2019}t", "dont"),
    ("\u{2014}", "\u{2014}"),
    // by the first version its key is `00databaſe-short` without the sign, which is not reserved
    ("00-databa\u{17f}e-short", "00databaseshort"),
];

fn check_headword(rt: &impl Abort, alloc: Global, headword: &str, key: &str) {
    match entry_key(alloc, headword).expect(rt, "memory") {
        Some(found) => same_text_of(rt, as_text(found.as_bytes()), key, headword),
        None => same_text_of(rt, "", key, headword),
    }
}

static SHOWN: [(&str, bool); 8] = [
    ("Opal, fire", true),
    ("", false),
    (" ", true),
    ("a\tb", false),
    ("a\nb", false),
    ("a\u{7f}", false),
    ("\u{80}\u{10ffff}", true),
    ("00-database-short", true),
];

static TEXTS: [(&[u8], bool); 6] = [
    (b"", true),
    (b"\n\ta\n\n", true),
    (b"\xc2\x80\xf4\x8f\xbf\xbf", true),
    (b"a\rb", false),
    (b"a\x7f", false),
    (b"a\x80", false),
];

#[test]
fn what_is_lawful(rt: HostRuntime) {
    for (headword, key) in &HEADWORDS {
        check_headword(&rt, rt.alloc(), headword, key);
    }
    for (text, is_lawful) in &SHOWN {
        same(&rt, &is_shown(text), is_lawful);
    }
    for (text, is_lawful) in &TEXTS {
        same(&rt, &is_edition_text(text), is_lawful);
    }
}

/// What letters may be.
#[derive(Clone, Copy)]
enum Place {
    Headword,
    Shown,
    /// A line of a text, with others before and behind it.
    Line,
}

// Whether so many letters are lawful there.
fn may_be(rt: &impl Abort, alloc: Global, place: Place, count: usize) -> bool {
    let letters = repeated(rt, alloc, b"", b"a", count, b"");
    match place {
        Place::Headword => entry_key(alloc, as_text(&letters))
            .expect(rt, "memory")
            .is_some(),
        Place::Shown => is_shown(as_text(&letters)),
        Place::Line => is_edition_text(&repeated(rt, alloc, b"x\n", &letters, 1, b"\ny")),
    }
}

// How many are lawful at most.
static MOST: [(Place, usize, &str); 3] = [
    (Place::Headword, 255, "a headword"),
    (Place::Shown, 255, "what is shown"),
    (Place::Line, 1021, "a line"),
];

#[test]
fn lengths_keep_their_limits(rt: HostRuntime) {
    for (place, most, name) in &MOST {
        holds(&rt, may_be(&rt, rt.alloc(), *place, *most), name);
        let is_longer = may_be(&rt, rt.alloc(), *place, most.saturating_add(1));
        holds(&rt, !is_longer, name);
    }
}

// Where two faults are in the files, that of the earlier test is told.
static WHOLE: [(&[u8], &[u8], &str); 13] = [
    (b"", b"", "NoTitle"),
    (b"opal\tA\tA\n", b"", "NoTitle"),
    (b"00databaseshort\tA\tA\n", b"", "NoTitle"),
    (b"00databaseshort\tA\tQ\n", b"00databaseshort\n", "NoTitle"),
    (b"00databaseshort\tA\tP\n", b"00databaseshort", "NoTitle"),
    (b"00databaseshort\tA\tB\n", b"\n", "BadTitle"),
    (b"00databaseshort\tA\tD\n", b" \t\nx", "BadTitle"),
    (b"00databaseshort\tA\tD\n", b"a\tb", "BadTitle"),
    (b"00databaseshort\tA\tD\n", b"a b", ""),
    (b"opal\tA\tA", b"", "LastLine"),
    (b"\xff\tA\tA\n", b"", "IndexNotUtf8"),
    (b"\xff", b"", "IndexNotUtf8"),
    (b"opal", b"", "LastLine"),
];

#[test]
fn refuses_files_as_a_whole(rt: HostRuntime) {
    for (index, text, name) in &WHOLE {
        check(&rt, rt.alloc(), index, text, Told(name, 0));
    }
}

// Behind the text of `gem`: a line that a text may not have, and a line of 1,022 octets.
fn with_bad_end(rt: &impl Abort, alloc: Global, line: &[u8]) -> Vec<u8> {
    let front = repeated(rt, alloc, GEM.2, b"", 0, line);
    repeated(rt, alloc, &front, b"x", 1_022, b"")
}

// Where two faults are in a line, that of the earlier test is told.
static LINES: [(&[u8], &str); 26] = [
    (b"opal\tZ\n", "Columns"),
    (b"opal\tZ\tP\ta\tb\n", "Columns"),
    (b"\tAA\t//////\t\t\n", "Columns"),
    (b"opal\tZ\tP\t\n", "Shown"),
    (b"opal\tZ\tP\ta\x7f\n", "Shown"),
    (b"opal\tZ\tP\ta\r\n", "Shown"),
    (b"opal\tt\tB\t\n", "Shown"),
    (b"00-database-flags\tA\tZ\t\n", "Shown"),
    (b"00-database-short\tA\tZ\t\n", "Shown"),
    (b"opal\tZ\tAP\t\n", "Number"),
    (b"opal\tZ\t//\t\n", "Interval"),
    (b" \tZ\tP\t\n", "Headword"),
    (b"\n", "Columns"),
    (b"opal\tZ\tAP\n", "Number"),
    (b"opal\tZ\tP\r\n", "Number"),
    (b"opal\tZ\t//\n", "Interval"),
    (b"\tZ\tP\n", "Headword"),
    (b" \tZ\tP\n", "Headword"),
    (b"o\x7fal\tZ\tP\n", "Headword"),
    (b"opal\tt\tB\n", "BodyText"),
    (b"opal\tu\tB\n", "BodyText"),
    (b"opal\tw\tP+\n", "BodyLine"),
    (b"00-database-flags\tA\tZ\n", "Reserved"),
    (b"opal\tAA\n", "Columns"),
    (b"\tAA\t//////\n", "Number"),
    (b"00-database-flags\tw\tP+\n", "BodyLine"),
];

static GOOD: [&[u8]; 2] = [b"00-database-short\tA\tZ\n", b"dot\to\tF\n"];

// The good lines, with another one at this place.
fn index_with(rt: &impl Abort, alloc: Global, line: &[u8], place: usize) -> Vec<u8> {
    let mut index: Vec<u8> = Vec::new(alloc);
    for (k, other) in GOOD.iter().enumerate() {
        if k == place {
            index.extend_from_slice(line).expect(rt, "memory");
        }
        index.extend_from_slice(other).expect(rt, "memory");
    }
    if place == 2 {
        index.extend_from_slice(line).expect(rt, "memory");
    }
    index
}

fn check_line(rt: &impl Abort, alloc: Global, text: &[u8], line: &[u8], name: &'static str) {
    for place in 0..3usize {
        let index = index_with(rt, alloc, line, place);
        check(rt, alloc, &index, text, Told(name, place + 1));
    }
}

#[test]
fn refuses_a_line_wherever_it_stands(rt: HostRuntime) {
    let text = with_bad_end(&rt, rt.alloc(), b"\xc3\x01\n");
    for (line, name) in &LINES {
        check_line(&rt, rt.alloc(), &text, line, name);
    }
}

// Lines behind that of the title, and what is told of them.
static FIRST: [(&[u8], Told); 21] = [
    (
        b"opal\tZ\tP\nFire Opal\tZ\tP\ndot\to\t//\n",
        Told("Interval", 4),
    ),
    (b"Fire Opal\tZ\tP\tOpal, fire\n", READ),
    (b"opal\tZ\tP\t\n", Told("Shown", 2)),
    (b"opal\tZ\tP\ta\tb\n", Told("Columns", 2)),
    (b"00-database-alphabet\tA\tZ\ta\n", READ),
    (b"00-database-alphabet\tA\tZ\t\n", Told("Shown", 2)),
    (b"\tZ\tQQQQQQQ\n", Told("Number", 2)),
    (b"\tZ\t//\n", Told("Interval", 2)),
    (b"\tt\tB\n", Told("Headword", 2)),
    (b"opal\tt\tQA\n", Told("BodyText", 2)),
    (b"opal\tv\tP9\n", READ),
    (b"opal\tv\tP+\n", Told("BodyLine", 2)),
    (b"opal\tv\tP+\nopal\n", Told("BodyLine", 2)),
    (b"00-database-short\tv\tP+\n", Told("BodyLine", 2)),
    (b"00-database-short\tA\tZ\n", Told("ReservedTwice", 2)),
    (
        b"opal\tZ\tP\n00databaseSHORT\tA\tA\ndot\n",
        Told("ReservedTwice", 3),
    ),
    (
        b"opal\tZ\tP\n00databaseurl\tA\tA\n00databaseurl\tA\tA\n",
        Told("ReservedTwice", 4),
    ),
    (b"opal\tZ\tP\n00-database-alphabet\tA\tZ\n", READ),
    (
        b"00-database-url\tA\tZ\n00-database-utf8\tA\tZ\n00-database-info\tA\tZ\n",
        READ,
    ),
    (
        b"00-database-dictfmt-1.2\tA\tA\n00-database-dictfmt-3\tA\tA\n",
        READ,
    ),
    (b"00-database\tA\tA\n", Told("Reserved", 2)),
];

#[test]
fn tells_the_first_fault(rt: HostRuntime) {
    let text = with_bad_end(&rt, rt.alloc(), b"\x01\n");
    for (lines, told) in &FIRST {
        let index = repeated(&rt, rt.alloc(), GOOD[0], lines, 1, b"");
        check(&rt, rt.alloc(), &index, &text, *told);
    }
}

fn told_of_index(len: usize) -> Told {
    match len {
        22 | 31 | 45 | 53 => READ,
        0 => Told("NoTitle", 0),
        _ => Told("LastLine", 0),
    }
}

fn told_of_text(len: usize) -> Told {
    if len < 25 {
        Told("Interval", 1)
    } else if len < 40 {
        Told("Interval", 2)
    } else if len < 45 {
        Told("Interval", 4)
    } else {
        READ
    }
}

#[test]
fn refuses_files_that_are_cut_short(rt: HostRuntime) {
    for k in 0..=GEM.1.len() {
        let (front, _) = GEM.1.split_at(k);
        check(&rt, rt.alloc(), front, GEM.2, told_of_index(k));
    }
    for k in 0..=GEM.2.len() {
        let (front, _) = GEM.2.split_at(k);
        check(&rt, rt.alloc(), GEM.1, front, told_of_text(k));
    }
    let text = b"00-database-short\nOres\n\xc3\xa9\n";
    let cut = b"00-database-short\tA\tX\niron\tX\tB\n";
    let whole = b"00-database-short\tA\tX\niron\tX\tC\n";
    check(&rt, rt.alloc(), cut, text, Told("BodyText", 2));
    check(&rt, rt.alloc(), whole, text, READ);
}

const SHORT: &[u8] = b"00-database-short\tA\tZ\n";

const DOT: &[u8] = b"dot\to\tF\n";

const OPAL: &[u8] = b"00-database-short\tA\tZ\nopal\tZ\tP\t";

// The front, so many pieces and the end of an index over the text of `gem`, and what is told. A fourth column is in the second
// or the third line.
static LIMITS: [(&[u8], &[u8], usize, &[u8], Told); 8] = [
    (
        SHORT,
        b"opal\tZ\tP\nFire Opal\tZ\tP\tOpal, fire\n",
        1,
        DOT,
        READ,
    ),
    (
        SHORT,
        b"opal\tZ\tP\t\nFire Opal\tZ\tP\n",
        1,
        DOT,
        Told("Shown", 2),
    ),
    (
        SHORT,
        b"opal\tZ\tP\ta\tb\nFire Opal\tZ\tP\n",
        1,
        DOT,
        Told("Columns", 2),
    ),
    (
        SHORT,
        b"opal\tZ\tZ\t\nFire Opal\tZ\tP\n",
        1,
        DOT,
        Told("Interval", 2),
    ),
    (SHORT, b"h", 255, b"\tZ\tP\n", READ),
    (SHORT, b"h", 256, b"\tZ\tP\n", Told("Headword", 2)),
    (OPAL, b"h", 255, b"\n", READ),
    (OPAL, b"h", 256, b"\n", Told("Shown", 2)),
];

#[test]
fn keeps_to_columns_and_limits(rt: HostRuntime) {
    for (front, piece, count, end, told) in &LIMITS {
        let index = repeated(&rt, rt.alloc(), front, piece, *count, end);
        check(&rt, rt.alloc(), &index, GEM.2, *told);
    }
    let title = repeated(&rt, rt.alloc(), b"00-database-short\n", b"x", 201, b"");
    check(&rt, rt.alloc(), b"00databaseshort\tA\tDa\n", &title, READ);
    check(
        &rt,
        rt.alloc(),
        b"00databaseshort\tA\tDb\n",
        &title,
        Told("BadTitle", 0),
    );
}

const LINE: &[u8] = b"a\tA\tA\n";

// The title, and 262,143 lines more.
fn most_lines(rt: &impl Abort, alloc: Global) -> Vec<u8> {
    let block = repeated(rt, alloc, b"", LINE, 512, b"");
    let others = repeated(rt, alloc, b"", LINE, 511, b"");
    repeated(rt, alloc, SHORT, &block, 511, &others)
}

#[test]
fn keeps_to_the_limit_of_lines(rt: HostRuntime) {
    let mut index = most_lines(&rt, rt.alloc());
    check(&rt, rt.alloc(), &index, GEM.2, READ);
    index.extend_from_slice(LINE).expect(&rt, "memory");
    check(&rt, rt.alloc(), &index, GEM.2, Told("TooManyEntries", 0));
    index.extend_from_slice(b"a").expect(&rt, "memory");
    check(&rt, rt.alloc(), &index, GEM.2, Told("LastLine", 0));
}

#[test]
fn keeps_to_the_limit_of_a_text(rt: HostRuntime) {
    let mut text: Vec<u8> = Vec::new(rt.alloc());
    text.resize(67_108_864, b'x').expect(&rt, "memory");
    check(&rt, rt.alloc(), b"", &text, Told("NoTitle", 0));
    text.push(b'x').expect(&rt, "memory");
    check(&rt, rt.alloc(), b"", &text, Told("TextTooLong", 0));
    check(&rt, rt.alloc(), b"\xff", &text, Told("TextTooLong", 0));
}
