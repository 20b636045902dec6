//! What bodies are taken, and what is written.
use crate::checks::{same_text, same_text_of};
use dict_catalogue::{CommandRefusal, Item, Kept, StoredTitle, Summary, Verb};
use dict_index::EditionRefusal;
use dict_proto::OverWrite;
use http_service::{
    list_json, put_kept, read_json, read_place, read_virtual, refused_command_json,
    refused_edition_json,
};
use std::alloc::Global;
use std::process::Abort;

// The place that a body says.
fn told_place(rt: &impl Abort, alloc: Global, body: &[u8]) -> String {
    let place = read_place(alloc, body).expect(rt, "memory");
    format!(in alloc; "{place:?}").expect(rt, "memory")
}

fn say_place(rt: &impl Abort, alloc: Global, body: &[u8], place: &str) {
    same_text(rt, told_place(rt, alloc, body).as_str(), place);
}

static PLACES: [(&str, &str); 5] = [
    ("{\"place\":0}", "Some(0)"),
    (" { \"place\" : 4294967295 }\n", "Some(4294967295)"),
    ("{\"pl\\u0061ce\":7}", "Some(7)"),
    ("{\"place\":1,\"place\":2}", "Some(2)"),
    ("{\"place\":\"a\",\"place\":2}", "Some(2)"),
];

static NO_PLACES: [&[u8]; 24] = [
    b"{\"place\":4294967296}",
    b"{\"place\":18446744073709551616}",
    b"{\"place\":1,\"other\":2}",
    b"{\"places\":1}",
    b"{\"Place\":1}",
    b"{\"place\":1.0}",
    b"{\"place\":1e0}",
    b"{\"place\":-0}",
    b"{\"place\":-1}",
    b"{\"place\":01}",
    b"{\"place\":\"1\"}",
    b"{\"place\":null}",
    b"{\"place\":1}x",
    b"{\"place\":1}{}",
    b"\xef\xbb\xbf{\"place\":1}",
    b"{\"place\":1,\"\xff\":1}",
    b"{\"place\":1,}",
    b"{\"place\":0,\"x\":1}",
    b"",
    b" ",
    b"0",
    b"[0]",
    b"{}",
    b"{\"place\":0",
];

#[test]
fn places(rt: HostRuntime) {
    for (body, place) in &PLACES {
        say_place(&rt, rt.alloc(), body.as_bytes(), place);
    }
    for body in &NO_PLACES {
        say_place(&rt, rt.alloc(), body, "None");
    }
}

// The title and the members that a body says, a comma behind each.
fn told_virtual(rt: &impl Abort, alloc: Global, body: &[u8]) -> String {
    let mut told = String::new(alloc);
    let Some(value) = read_json(alloc, body).expect(rt, "memory") else {
        return told;
    };
    let Some(form) = read_virtual(alloc, &value).expect(rt, "memory") else {
        return told;
    };
    told.push_str(form.title).expect(rt, "memory");
    told.push(':').expect(rt, "memory");
    for member in form.members.iter() {
        told.push_str(member).expect(rt, "memory");
        told.push(',').expect(rt, "memory");
    }
    told
}

fn say_virtual(rt: &impl Abort, alloc: Global, body: &str, wanted: &str) {
    let told = told_virtual(rt, alloc, body.as_bytes());
    same_text_of(rt, told.as_str(), wanted, body);
}

static VIRTUAL: [(&str, &str); 5] = [
    ("{\"members\":[\"a\",\"b\"],\"title\":\"T\"}", "T:a,b,"),
    ("{\"title\":\"T\",\"members\":[\"a\"]}", "T:a,"),
    ("{\"members\":[],\"title\":\"\"}", ":"),
    ("{\"members\":[\"a\",\"a\"],\"title\":\"T\"}", "T:a,a,"),
    (
        "{\"members\":1,\"title\":\"T\",\"members\":[\"\\u00e9\"]}",
        "T:é,",
    ),
];

static NO_VIRTUAL: [&str; 12] = [
    "{\"members\":[\"a\"]}",
    "{\"title\":\"T\"}",
    "{\"members\":[\"a\"],\"title\":\"T\",\"x\":0}",
    "{\"members\":[\"a\",1],\"title\":\"T\"}",
    "{\"members\":[\"a\",null],\"title\":\"T\"}",
    "{\"members\":[[\"a\"]],\"title\":\"T\"}",
    "{\"members\":\"a\",\"title\":\"T\"}",
    "{\"members\":{\"0\":\"a\"},\"title\":\"T\"}",
    "{\"members\":[\"a\"],\"title\":1}",
    "{\"members\":[\"a\"],\"titles\":\"T\"}",
    "{\"members\":[\"\\ud800\"],\"title\":\"T\"}",
    "[\"members\",\"title\"]",
];

#[test]
fn virtual_bodies(rt: HostRuntime) {
    for (body, told) in &VIRTUAL {
        say_virtual(&rt, rt.alloc(), body, told);
    }
    for body in &NO_VIRTUAL {
        say_virtual(&rt, rt.alloc(), body, "");
    }
}

static KEPT: [(u64, Verb, Option<u64>, &str); 5] = [
    (
        1,
        Verb::Install,
        Some(1),
        "{\"edition\":1,\"name\":\"gem\",\"number\":1,\"verb\":\"install\"}",
    ),
    (
        18_446_744_073_709_551_615,
        Verb::Rollback,
        None,
        "{\"edition\":null,\"name\":\"gem\",\"number\":18446744073709551615,\"verb\":\"rollback\"}",
    ),
    (
        2,
        Verb::Retire,
        None,
        "{\"edition\":null,\"name\":\"gem\",\"number\":2,\"verb\":\"retire\"}",
    ),
    (
        3,
        Verb::Virtual,
        None,
        "{\"edition\":null,\"name\":\"gem\",\"number\":3,\"verb\":\"virtual\"}",
    ),
    (
        4,
        Verb::Place,
        None,
        "{\"edition\":null,\"name\":\"gem\",\"number\":4,\"verb\":\"place\"}",
    ),
];

// A `String` of this text.
fn owned(rt: &impl Abort, alloc: Global, text: &str) -> String {
    String::from_str(alloc, text).expect(rt, "memory")
}

fn told_kept(
    rt: &impl Abort,
    alloc: Global,
    number: u64,
    verb: Verb,
    edition: Option<u64>,
) -> String {
    let name = owned(rt, alloc, "gem");
    let kept = Kept {
        number,
        verb,
        name,
        edition,
    };
    let mut sink = OverWrite::new(Vec::new(alloc));
    put_kept(&mut sink, &kept).expect(rt, "a reply");
    String::from_utf8(sink.into_inner()).expect(rt, "UTF-8")
}

#[test]
fn replies(rt: HostRuntime) {
    for (number, verb, edition, json) in &KEPT {
        same_text(
            &rt,
            told_kept(&rt, rt.alloc(), *number, *verb, *edition).as_str(),
            *json,
        );
    }
}

// A refusal of an edition, its line, if it has one, and what is written.
static EDITIONS: [(EditionRefusal, Option<usize>, &str); 3] = [
    (
        EditionRefusal::Interval,
        Some(4),
        "{\"fault\":4,\"line\":4,\"reason\":\"Interval\"}",
    ),
    (
        EditionRefusal::LastLine,
        None,
        "{\"fault\":14,\"line\":null,\"reason\":\"LastLine\"}",
    ),
    (
        EditionRefusal::Shown,
        Some(2),
        "{\"fault\":15,\"line\":2,\"reason\":\"Shown\"}",
    ),
];

#[test]
fn refusals(rt: HostRuntime) {
    let json = refused_command_json(rt.alloc(), CommandRefusal::NoFormer).expect(&rt, "memory");
    same_text(
        &rt,
        json.as_str(),
        "{\"reason\":\"NoFormer\",\"refusal\":23}",
    );
    for (refusal, line, wanted) in &EDITIONS {
        let json = refused_edition_json(rt.alloc(), *refusal, *line).expect(&rt, "memory");
        same_text(&rt, json.as_str(), *wanted);
    }
}

fn stored(rt: &impl Abort, alloc: Global, number: u64, title: &str) -> StoredTitle {
    StoredTitle {
        number,
        title: owned(rt, alloc, title),
    }
}

// A database with a former edition, if it has one.
fn regular(
    rt: &impl Abort,
    alloc: Global,
    name: &str,
    current: StoredTitle,
    former: Option<StoredTitle>,
) -> Item {
    Item::Regular {
        name: owned(rt, alloc, name),
        current,
        former,
    }
}

// A database that lists `ore` and `gem`.
fn group(rt: &impl Abort, alloc: Global) -> Item {
    let mut members = Vec::new(alloc);
    members.push(owned(rt, alloc, "ore")).expect(rt, "memory");
    members.push(owned(rt, alloc, "gem")).expect(rt, "memory");
    Item::Virtual {
        name: owned(rt, alloc, "all"),
        title: owned(rt, alloc, "All"),
        members,
    }
}

// A database that has no former edition.
fn gems(rt: &impl Abort, alloc: Global) -> Item {
    let current = stored(rt, alloc, 1, "Gems");
    regular(rt, alloc, "gem", current, None)
}

// One that has.
fn ores(rt: &impl Abort, alloc: Global) -> Item {
    let current = stored(rt, alloc, 3, "A \"\\\u{7f}é");
    let former = stored(rt, alloc, 2, "Ores");
    regular(rt, alloc, "ore", current, Some(former))
}

fn push_all(rt: &impl Abort, alloc: Global, summary: &mut Summary) {
    summary.items.push(gems(rt, alloc)).expect(rt, "memory");
    summary.items.push(ores(rt, alloc)).expect(rt, "memory");
    summary.items.push(group(rt, alloc)).expect(rt, "memory");
}

// The list of the three, or of none.
fn told_list(rt: &impl Abort, alloc: Global, is_filled: bool) -> String {
    let mut summary = Summary::new(alloc);
    if is_filled {
        push_all(rt, alloc, &mut summary);
    }
    list_json(alloc, &summary).expect(rt, "memory")
}

#[test]
fn lists(rt: HostRuntime) {
    same_text(&rt, told_list(&rt, rt.alloc(), false).as_str(), "[]");
    let wanted =
        "[{\"current\":1,\"former\":null,\"kind\":\"regular\",\"name\":\"gem\",\"title\":\"Gems\"},\
        {\"current\":3,\"former\":2,\"kind\":\"regular\",\"name\":\"ore\",\"title\":\"A \\\"\\\\\u{7f}é\"},\
        {\"kind\":\"virtual\",\"members\":[\"ore\",\"gem\"],\"name\":\"all\",\"title\":\"All\"}]";
    same_text(&rt, told_list(&rt, rt.alloc(), true).as_str(), wanted);
}
