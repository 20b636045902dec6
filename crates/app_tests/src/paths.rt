//! Paths without a catalogue, and files that become one.
use super::fixtures::{ROOM, Row, compare, remove, run, same_outcome};
use crate::checks::{holds, same};
use dict_desk::Fault;
use sqlite::{FileStore, Start, Unknown};
use sqlite_disk::Disk;
use std::fs;
use std::process::Abort;
use store_desk::{Desk, Unopened};

// The commands over a file but `create`, each with more faults than one.
static EACH: [&[&str]; 9] = [
    &["list", "FILE"],
    &["audit", "FILE"],
    &["session", "FILE"],
    &["install", "FILE", "9", "_", "nosuch", "nosuch"],
    &["rollback", "FILE", "9", "_"],
    &["retire", "FILE", "9", "_"],
    &["virtual", "FILE", "9", "_", "", "zz"],
    &["place", "FILE", "9", "_", "9"],
    &["serve", "FILE", "--dict", "x", "--http", "x"],
];

// What each of them tells of a path, with status 3: nothing is there, a folder, a text, a path below a text, an empty file,
// a database of others.
static PATHS: [(&str, &str); 6] = [
    ("dictcat_nosuch.db", "cannot read dictcat_nosuch.db\n"),
    ("dictcat_folder.db", "cannot read dictcat_folder.db\n"),
    ("dictcat_text.db", "cannot read dictcat_text.db\n"),
    ("dictcat_text.db/x", "cannot read dictcat_text.db/x\n"),
    ("dictcat_empty.db", "fault 43 NotACatalogue\n"),
    ("dictcat_others.db", "fault 43 NotACatalogue\n"),
];

// Each command tells this of a path, with status 3.
fn each_tells(test: &impl Abort, rt: &HostRuntime, file: &str, told: &str) {
    for words in &EACH {
        let found = run(test, rt, file, *words, "", ROOM);
        same_outcome(test, *words, &found, 3, "", told);
    }
}

// The same of each path.
fn each_tells_of_each(test: &impl Abort, rt: &HostRuntime) {
    for (path, told) in &PATHS {
        each_tells(test, rt, path, told);
    }
}

// A SQLite file with a table `t(x)`, whose one row has 7: octets, each with the place up to which zeros follow.
static OTHERS: [(&[u8], usize); 5] = [
    (
        b"SQLite format 3\x00\x02\x00\x01\x01\x00@  \x00\x00\x00\x02\x00\x00\x00\x02",
        43,
    ),
    (
        b"\x01\x00\x00\x00\x04\x00\x00\x00\x00\x00\x00\x00\x00\x00\x00\x00\x01",
        95,
    ),
    (b"\x02\x00.c\x01\r\x00\x00\x00\x01\x01\xdf\x00\x01\xdf", 479),
    (
        b"\x1f\x01\x06\x17\x0f\x0f\x01/tablett\x02CREATE TABLE t(x)\r\x00\x00\x00\x01\x01\xfb\x00\x01\xfb",
        1019,
    ),
    (b"\x03\x01\x02\x01\x07", 1024),
];

fn octets_of_others(test: &impl Abort, rt: &HostRuntime) -> Vec<u8> {
    let mut octets = Vec::new(rt.alloc());
    for (some, end) in &OTHERS {
        octets.extend_from_slice(*some).expect(test, "memory");
        octets.resize(*end, 0).expect(test, "memory");
    }
    octets
}

fn set_up(test: &impl Abort, rt: &HostRuntime) {
    fs::create_dir(rt, "dictcat_folder.db").expect(test, "a folder");
    fs::write(rt, "dictcat_text.db", b"00-database-short\n  Gems\n").expect(test, "a text");
    fs::write(rt, "dictcat_empty.db", b"").expect(test, "an empty file");
    let octets = octets_of_others(test, rt);
    fs::write(rt, "dictcat_others.db", octets.as_slice()).expect(test, "a database");
}

// Whether the rows of others stand in their file as they did.
fn others_stand(test: &impl Abort, rt: &HostRuntime) -> bool {
    let left = fs::read(rt, "dictcat_others.db").expect(test, "a database");
    let made = octets_of_others(test, rt);
    left.as_slice().get(512..1024) == made.as_slice().get(512..1024)
}

static MADE: [Row; 2] = [
    (&["create", "FILE"], "", 0, "", ""),
    (&["audit", "FILE"], "", 0, "sound\n", ""),
];

// What `create` makes a catalogue of.
static MADE_OF: [&str; 2] = ["dictcat_empty.db", "dictcat_others.db"];

// Each of these becomes one.
fn each_is_made(test: &impl Abort, rt: &HostRuntime) {
    for file in &MADE_OF {
        compare(test, rt, file, &MADE);
    }
}

fn clear(test: &impl Abort, rt: &HostRuntime) {
    fs::remove_dir(rt, "dictcat_folder.db").expect(test, "a folder");
    remove(test, rt, "dictcat_text.db");
    remove(test, rt, "dictcat_empty.db");
    remove(test, rt, "dictcat_others.db");
}

pub(crate) fn paths_without_a_catalogue(test: &impl Abort, rt: &HostRuntime) {
    set_up(test, rt);
    each_tells_of_each(test, rt);
    let is_there = fs::exists(rt, "dictcat_nosuch.db").expect(test, "an answer");
    holds(test, !is_there, "nosuch");
    each_is_made(test, rt);
    holds(test, others_stand(test, rt), "others");
    clear(test, rt);
}

// Closes a desk over two files. Whether its log was copied.
fn is_copied<D: Disk + Drop>(desk: Desk<FileStore<D>>) -> bool {
    match desk.close() {
        Ok(_files) => true,
        Err((store, _)) => {
            let _files = store.close();
            false
        }
    }
}

// The files go where no desk was opened, by way of their own type, which is cheaper to prove.
fn let_go<D: Disk + Drop>(left: Unopened<D>) {
    match left {
        Unopened::Spent(_files) => {}
        Unopened::Database(conn) => match conn.close_files() {
            Ok(_files) => {}
            Err((_, store)) => {
                let _files = store.close();
            }
        },
        Unopened::Files(Some(left)) => {
            let _files = left.into_files();
        }
        Unopened::Files(None) => {}
    }
}

// Opens a desk from a path, and closes it: whether its log was copied, or the fault.
fn opened_at<S: Start>(rt: &HostRuntime, path: &str, start: S) -> Result<bool, Fault> {
    match Desk::open_from(rt, path, false, start) {
        Ok(desk) => Ok(is_copied(desk)),
        Err((left, fault)) => {
            let_go(left);
            Err(fault)
        }
    }
}

static INSTALLED: [Row; 2] = [
    (&["create", "FILE"], "", 0, "", ""),
    (
        &["install", "FILE", "gem", "r1", "gem.index", "gem.dict"],
        "",
        0,
        "{\"edition\":1,\"name\":\"gem\",\"number\":1,\"verb\":\"install\"}\n",
        "",
    ),
];

static LISTED: [Row; 1] = [(&["list", "FILE"], "", 0, "0 gem regular 1 - \"Gems\"\n", "")];

pub(crate) fn a_desk_from_a_path(test: &impl Abort, rt: &HostRuntime) {
    let path = "dictcat_desk.db";
    let found = opened_at(rt, path, Unknown);
    same(test, &found, &Err(Fault::NotACatalogue));
    compare(test, rt, path, &INSTALLED);
    let found = opened_at(rt, path, Unknown);
    same(test, &found, &Ok(true));
    compare(test, rt, path, &LISTED);
    remove(test, rt, path);
}
