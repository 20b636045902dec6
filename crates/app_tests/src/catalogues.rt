//! Catalogues in files that are changed, listed, asked and read whole.
use super::fixtures::{Inputs, ROOM, Row, compare, outcome, remove, run, same_outcome};
use super::rows;
use app_words::OverFiles;
use dict_fixtures::{GEM_INDEX, GEM_TEXT};
use std::fs;
use std::process::Abort;

// Each of these commands over a file that isn't there before and after comes out as it says.
fn play(test: &impl Abort, rt: &HostRuntime, file: &str, rows: &[Row]) {
    compare(test, rt, file, rows);
    remove(test, rt, file);
}

// Commands in turn, each run over a file of its own.
fn plays() -> [(&'static str, &'static [Row]); 8] {
    [
        ("dictcat_made.db", &rows::MADE),
        ("dictcat_editions.db", &rows::EDITIONS),
        ("dictcat_kept.db", &rows::KEPT),
        ("dictcat_first.db", &rows::FIRST_FAULTS),
        ("dictcat_order.db", &rows::ORDER),
        ("dictcat_words.db", &rows::WORDS),
        ("dictcat_retired.db", &rows::RETIRED),
        ("dictcat_unserved.db", &rows::UNSERVED),
    ]
}

pub(crate) fn commands_one_after_another(test: &impl Abort, rt: &HostRuntime) {
    for (file, rows) in &plays() {
        play(test, rt, file, *rows);
    }
    compare(test, rt, "", &rows::PLAIN);
}

/// Words, what standard input has, how many octets standard output takes, the status, what it took, and what is told.
type Cut = (
    &'static [&'static str],
    &'static str,
    usize,
    u8,
    &'static str,
    &'static str,
);

// What was accepted stays where its reply can't be written.
static CUT: [Cut; 7] = [
    (&["create", "FILE"], "", 0, 0, "", ""),
    (
        &["install", "FILE", "gem", "r1", "gem.index", "gem.dict"],
        "",
        3,
        3,
        "{\"e",
        "cannot write output\n",
    ),
    (
        &["list", "FILE"],
        "",
        ROOM,
        0,
        "0 gem regular 1 - \"Gems\"\n",
        "",
    ),
    (&["list", "FILE"], "", 3, 3, "0 g", "cannot write output\n"),
    (&["audit", "FILE"], "", 2, 3, "so", "cannot write output\n"),
    (
        &["session", "FILE"],
        "STATUS\r\n",
        10,
        3,
        "220 localh",
        "session ended by a fault\n",
    ),
    (&["--help"], "", 6, 3, "A DICT", "cannot write output\n"),
];

pub(crate) fn outputs_that_are_full(test: &impl Abort, rt: &HostRuntime) {
    let file = "dictcat_cut.db";
    for (words, input, room, status, printed, told) in &CUT {
        let found = run(test, rt, file, *words, *input, *room);
        same_outcome(test, *words, &found, *status, printed, told);
    }
    remove(test, rt, file);
}

// Words over files of the machine; what standard input has, the status and what is printed.
type Asked = (&'static [&'static str], &'static str, u8, &'static str);

static OVER_FILES: [Asked; 4] = [
    (&["dictcat", "create", "dictcat_asked.db"], "", 0, ""),
    (
        &[
            "dictcat",
            "install",
            "dictcat_asked.db",
            "gem",
            "r1",
            "dictcat_asked.index",
            "dictcat_asked.dict",
        ],
        "",
        0,
        "{\"edition\":1,\"name\":\"gem\",\"number\":1,\"verb\":\"install\"}\n",
    ),
    (
        &["dictcat", "session", "dictcat_asked.db"],
        "DEFINE gem OPAL\r\nQUIT\r\n",
        0,
        "220 localhost dictcat ready <1@localhost>\r\n150 1 definitions retrieved\r\n151 \"opal\" gem \"Gems\"\r\nopal\r\n  a stone\r\n.\r\n250 ok\r\n221 closing connection\r\n",
    ),
    (
        &[
            "dictcat",
            "plain",
            "gem",
            "dictcat_asked.index",
            "dictcat_asked.dict",
        ],
        "DEFINE gem OPAL\r\nQUIT\r\n",
        0,
        "220 localhost dictcat ready <1@localhost>\r\n150 1 definitions retrieved\r\n151 \"opal\" gem \"Gems\"\r\nopal\r\n  a stone\r\n.\r\n250 ok\r\n221 closing connection\r\n",
    ),
];

// Each row's words are answered as it says, and nothing is told.
fn compare_over_files(test: &impl Abort, rt: &HostRuntime) {
    for (words, input, status, printed) in &OVER_FILES {
        let files = Inputs::Machine(OverFiles::new(rt));
        let found = outcome(test, rt, *words, &files, *input, ROOM);
        same_outcome(test, *words, &found, *status, printed, "");
    }
}

pub(crate) fn files_of_the_machine_are_read(test: &impl Abort, rt: &HostRuntime) {
    fs::write(rt, "dictcat_asked.index", GEM_INDEX).expect(test, "an index");
    fs::write(rt, "dictcat_asked.dict", GEM_TEXT).expect(test, "a text");
    compare_over_files(test, rt);
    fs::remove_file(rt, "dictcat_asked.index").expect(test, "an index");
    fs::remove_file(rt, "dictcat_asked.dict").expect(test, "a text");
    remove(test, rt, "dictcat_asked.db");
}
