//! Keys at every edge, and what is selected beside the filter of a whole list.
use crate::checks::{holds, push, same_text};
use dict_match::{Key, Strategy, key_of, matches, words};
use std::alloc::Global;
use std::process::Abort;
use store_derived::{Selection, is_kept, is_tested, select};

/// The key of a headword, and its octets in reverse order.
#[derive(Drop)]
struct Derived {
    key: Key,
    reversed: Vec<u8>,
}

fn derive(rt: &impl Abort, alloc: Global, headword: &str) -> Derived {
    let key = key_of(alloc, headword).expect(rt, "a key");
    let mut reversed = key.as_bytes().to_vec(alloc).expect(rt, "memory");
    reversed.reverse();
    Derived { key, reversed }
}

static EDGES: [&str; 25] = [
    "",
    " ",
    "a",
    "b",
    "ab",
    "ba",
    "aa",
    "abc",
    "abd",
    "aaa",
    "aaaa",
    "abcd",
    "bcd abc",
    "a b",
    "b a b",
    "+ +",
    "+",
    "é",
    "été",
    "ÉTÉ",
    "\u{10ffff}",
    "a\u{10ffff}",
    // a letter of four octets
    "\u{3134a}",
    "a\u{3134a}",
    "a\u{3134a}b",
];

/// Whether the selection has the entry.
fn selects(selection: &Selection, derived: &Derived) -> bool {
    let key = derived.key.as_bytes();
    let reversed = derived.reversed.as_slice();
    match selection {
        Selection::Nothing => false,
        Selection::All => true,
        Selection::Key(query) => key == query.as_slice(),
        Selection::Keys(low, high) => low.as_slice() <= key && key <= high.as_slice(),
        Selection::ReversedKeys(low, high) => {
            low.as_slice() <= reversed && reversed <= high.as_slice()
        }
        Selection::Grams(first, last) => {
            matches(Strategy::Substring, first, key) && matches(Strategy::Substring, last, key)
        }
        Selection::Word(word) => has_word(key, word),
    }
}

fn has_word(key: &[u8], wanted: &[u8]) -> bool {
    for word in words(key) {
        if word == wanted {
            return true;
        }
    }
    false
}

/// Whether the selection, and then the test where there is one, finds the entry.
fn is_found(strategy: Strategy, query: &[u8], selection: &Selection, derived: &Derived) -> bool {
    selects(selection, derived)
        && (!is_tested(strategy) || matches(strategy, query, derived.key.as_bytes()))
}

/// Whether the text is found by its selection in the same headwords of the list as by the strategy.
fn finds_the_same(
    rt: &impl Abort,
    alloc: Global,
    strategy: Strategy,
    text: &str,
    list: &[Derived],
) -> bool {
    let query = key_of(alloc, text).expect(rt, "a key");
    let selection = select(alloc, strategy, query.as_bytes()).expect(rt, "a selection");
    for derived in list {
        let found = is_found(strategy, query.as_bytes(), &selection, derived);
        if found != matches(strategy, query.as_bytes(), derived.key.as_bytes()) {
            return false;
        }
    }
    true
}

/// Each strategy finds the text so.
fn look_up(rt: &impl Abort, alloc: Global, text: &str, list: &[Derived]) {
    for strategy in &Strategy::ALL {
        let is_so = finds_the_same(rt, alloc, *strategy, text, list);
        holds(rt, is_so, strategy.name());
    }
}

static SELECTED: [(Strategy, &[u8], &str); 8] = [
    (
        Strategy::Prefix,
        b"a\xff",
        "Keys([97, 255], [97, 255, 255])",
    ),
    (
        Strategy::Suffix,
        b"ab",
        "ReversedKeys([98, 97], [98, 97, 255])",
    ),
    (
        Strategy::Substring,
        b"abcd",
        "Grams([97, 98, 99], [98, 99, 100])",
    ),
    (
        Strategy::Substring,
        b"\xd0\xb0\xd0\xb1",
        "Grams([176, 208, 177], [176, 208, 177])",
    ),
    (
        Strategy::Substring,
        b"\xd0\xb0\xd0\xb1\xd0\xb2",
        "Grams([176, 208, 177], [177, 208, 178])",
    ),
    // a letter of three octets before one of two
    (Strategy::Substring, b"\xe2\x82\xd0", "All"),
    (Strategy::Substring, b"ab", "All"),
    (Strategy::Exact, b"", "Nothing"),
];

fn told_selection(rt: &impl Abort, alloc: Global, strategy: Strategy, query: &[u8]) -> String {
    let selection = select(alloc, strategy, query).expect(rt, "a selection");
    let told = format!(in alloc; "{selection:?}").expect(rt, "memory");
    drop(selection);
    told
}

// A run of three octets, and whether it is kept: one whose last is the first of a character is left out.
static KEPT: [(&[u8], bool); 3] = [(b"abc", true), (b"ab\xbf", true), (b"ab\xc0", false)];

#[test]
fn ranges_and_runs_at_their_ends(rt: HostRuntime) {
    for (strategy, query, wanted) in &SELECTED {
        let told = told_selection(&rt, rt.alloc(), *strategy, query);
        same_text(&rt, told.as_str(), *wanted);
        drop(told);
    }
    for (run, kept) in &KEPT {
        holds(&rt, is_kept(run) == *kept, "a run");
    }
}

/// The next number of a fixed row of numbers.
fn draw(state: &mut u64) -> u64 {
    *state = state
        .wrapping_mul(6364136223846793005)
        .wrapping_add(1442695040888963407);
    *state >> 33
}

/// Makes the text a headword of one to three short words over few letters, so that many have parts in common.
fn draw_headword(rt: &impl Abort, text: &mut String, state: &mut u64) {
    text.clear();
    for _ in 0..1 + draw(state) % 3 {
        text.push(' ').expect(rt, "memory");
        for _ in 0..1 + draw(state) % 6 {
            let letter = match draw(state) % 6 {
                0 => 'a',
                1 => 'b',
                2 => 'C',
                3 => '-',
                4 => 'é',
                _ => 'e',
            };
            text.push(letter).expect(rt, "memory");
        }
    }
}

/// Over a list of the edges, and then over one with 10,000 headwords more.
fn look_up_all(rt: &impl Abort, alloc: Global, list: &mut Vec<Derived>, text: &mut String) {
    for edge in &EDGES {
        push(rt, list, derive(rt, alloc, edge));
    }
    for edge in &EDGES {
        look_up(rt, alloc, edge, list.as_slice());
    }
    let mut state = 23;
    for _ in 0..10_000 {
        draw_headword(rt, text, &mut state);
        push(rt, list, derive(rt, alloc, text.as_str()));
    }
    for _ in 0..20 {
        draw_headword(rt, text, &mut state);
        look_up(rt, alloc, text.as_str(), list.as_slice());
    }
}

#[test]
fn selections_find_what_the_whole_list_has(rt: HostRuntime) {
    let mut list = Vec::new(rt.alloc());
    let mut text = String::new(rt.alloc());
    look_up_all(&rt, rt.alloc(), &mut list, &mut text);
    drop(text);
    drop(list);
}
