//! Names, ids and titles.

use crate::checks::holds;
use dict_text::{is_name, is_request_id, is_title};

static NAMES: [(&str, bool); 15] = [
    ("a", true),
    ("z09_-", true),
    ("a_b-9", true),
    ("abcdefghijklmnopqrstuvwxyz012345", true),
    ("abcdefghijklmnopqrstuvwxyz0123456", false),
    ("", false),
    ("1a", false),
    ("_a", false),
    ("-a", false),
    ("Gem", false),
    ("gEM", false),
    ("g m", false),
    ("gem.x", false),
    ("gé", false),
    ("*", false),
];

static IDS: [(&str, bool); 9] = [
    ("r1", true),
    ("-", true),
    ("Z-9", true),
    (
        "0123456789012345678901234567890123456789012345678901234567890123",
        true,
    ),
    (
        "01234567890123456789012345678901234567890123456789012345678901234",
        false,
    ),
    ("", false),
    ("r_1", false),
    ("r 1", false),
    ("ü", false),
];

static TITLES: [(&str, bool); 7] = [
    ("All", true),
    ("A b\u{a0}", true),
    ("", false),
    (" A", false),
    ("A ", false),
    ("\tA", false),
    ("A\u{7f}b", false),
];

#[test]
fn names_ids_and_titles(rt: HostRuntime) {
    for (name, lawful) in &NAMES {
        holds(&rt, is_name(name) == *lawful, name);
    }
    for (id, lawful) in &IDS {
        holds(&rt, is_request_id(id) == *lawful, id);
    }
    for (title, lawful) in &TITLES {
        holds(&rt, is_title(title) == *lawful, title);
    }
}
