//! Keys, words and strategies, and which queries hit which keys.

use crate::checks::holds;
use dict_match::{Strategy, key_of, matches, reserved_key_of, words};
use std::alloc::Global;
use std::process::Abort;

const ALL_SEVEN: &str = "exact prefix suffix substring word first last";

// Query, key, and the strategies by which the one finds the other; all other strategies do not
static ROWS: [(&str, &str, &str); 68] = [
    // empty texts, and texts of one character
    ("", "", ""),
    ("", "a", ""),
    ("a", "", ""),
    ("a", "a", ALL_SEVEN),
    ("a", "b", ""),
    ("a", "ab", "prefix substring"),
    ("b", "ab", "suffix substring"),
    ("b", "abc", "substring"),
    // overlaps
    ("aa", "aaa", "prefix suffix substring"),
    ("aba", "ababa", "prefix suffix substring"),
    ("bab", "ababa", "substring"),
    ("ab", "aab", "suffix substring"),
    ("aab", "aaab", "suffix substring"),
    ("abcabd", "abcabcabd", "suffix substring"),
    ("oo", "foo", "suffix substring"),
    ("oof", "foo", ""),
    // queries that are longer than the key
    ("aaa", "aa", ""),
    ("fire opal gem", "fire opal", ""),
    ("a b c", "a b", ""),
    ("opals", "opal", ""),
    // several words
    ("fire", "fire opal", "prefix substring word first"),
    ("opal", "fire opal", "suffix substring word last"),
    ("fire opal", "fire opal", ALL_SEVEN),
    ("fire opal", "opal fire", ""),
    ("opal fire", "fire opal fire", "suffix substring word last"),
    ("fire opal", "fire opal fire", "prefix substring word first"),
    (
        "fire",
        "fire opal fire",
        "prefix suffix substring word first last",
    ),
    ("opal", "fire opal fire", "substring word"),
    ("fire gem", "fire opal gem", ""),
    ("opal gem", "fire opal gem", "suffix substring word last"),
    ("b c", "a b c d", "substring word"),
    ("a b", "a b a b", "prefix suffix substring word first last"),
    ("b a", "a b a b", "substring word"),
    ("a a", "a a a", "prefix suffix substring word first last"),
    ("a a b", "a a a b", "suffix substring word last"),
    ("the", "the the", "prefix suffix substring word first last"),
    // runs that are no whole words
    ("e o", "fire opal", "substring"),
    ("fir", "fire opal", "prefix substring"),
    ("pal", "fire opal", "suffix substring"),
    ("ire", "fire opal", "substring"),
    ("fire", "firefly", "prefix substring"),
    ("fly", "firefly", "suffix substring"),
    ("a b", "a bb", "prefix substring"),
    ("a b", "aa b", "suffix substring"),
    ("a b", "aa bb", "substring"),
    ("00", "00databaseshort", "prefix substring"),
    // characters past ASCII
    ("é", "été", "prefix suffix substring"),
    ("t", "été", "substring"),
    ("été", "été", ALL_SEVEN),
    ("été", "un été", "suffix substring word last"),
    ("un", "un été chaud", "prefix substring word first"),
    ("été", "un été chaud", "substring word"),
    ("é", "É", ""),
    ("ÉtÉ", "ÉtÉ", ALL_SEVEN),
    ("火", "火山", "prefix substring"),
    ("山", "火山", "suffix substring"),
    ("山 火", "火 山", ""),
    ("\u{a0}", "a\u{a0}b", "substring"),
    // keys of signs alone, and blanks other than one space between words
    ("+ +", "+ +", ALL_SEVEN),
    ("+", "+ +", "prefix suffix substring word first last"),
    ("a\tb", "a b", "word first last"),
    ("a b", "a\tb", "word first last"),
    (" a", "a", "word first last"),
    ("a ", "a b", "prefix substring word first"),
    (" b", "a b", "suffix substring word last"),
    // a query of blanks alone has no words, and no words stand anywhere
    (" ", "a b", "substring word first last"),
    (" ", "ab", "word first last"),
    ("\t", "", "word first last"),
];

// Whether the query finds the key by these strategies, and by no others.
fn is_found_by(query: &str, key: &str, finders: &str) -> bool {
    for strategy in &Strategy::ALL {
        let is_found = matches(*strategy, query.as_bytes(), key.as_bytes());
        if is_found != finders.contains(strategy.name()) {
            return false;
        }
    }
    true
}

static NAMES: [(Strategy, &str, &str); 7] = [
    (Strategy::Exact, "exact", "Equal keys"),
    (Strategy::Prefix, "prefix", "Key begins with the query"),
    (Strategy::Suffix, "suffix", "Key ends with the query"),
    (Strategy::Substring, "substring", "Key contains the query"),
    (
        Strategy::Word,
        "word",
        "Words of the query stand together in the key",
    ),
    (
        Strategy::First,
        "first",
        "Key begins with the words of the query",
    ),
    (
        Strategy::Last,
        "last",
        "Key ends with the words of the query",
    ),
];

static LISTED: [Strategy; 7] = [
    Strategy::Exact,
    Strategy::Prefix,
    Strategy::Suffix,
    Strategy::Substring,
    Strategy::Word,
    Strategy::First,
    Strategy::Last,
];

static NO_NAMES: [&str; 10] = [
    "", ".", "PREFIX", "Exact", "exac", "exactly", " exact", "re", "soundex", "lev",
];

// Whether this strategy has the name and the title, and is found by its name.
fn is_named(strategy: Strategy, name: &str, title: &str) -> bool {
    Strategy::by_name(name) == Some(strategy)
        && strategy.name() == name
        && strategy.title() == title
}

#[test]
fn hits_and_names(rt: HostRuntime) {
    for (query, key, finders) in &ROWS {
        holds(&rt, is_found_by(query, key, finders), key);
    }
    holds(&rt, Strategy::ALL == LISTED, "all");
    for (strategy, name, title) in &NAMES {
        holds(&rt, is_named(*strategy, name, title), name);
    }
    for name in &NO_NAMES {
        holds(&rt, Strategy::by_name(name).is_none(), name);
    }
}

// A text, its key by the first version of folding, and its key.
static KEYS: [(&str, &str, &str); 55] = [
    ("Fire Opal", "fire opal", "fire opal"),
    (" a - \tB ", "a b", "a b"),
    ("00-database-short", "00databaseshort", "00databaseshort"),
    ("o'clock", "oclock", "oclock"),
    ("+ +", "+ +", "+ +"),
    (" \t+ +\t ", "+ +", "+ +"),
    ("+a", "a", "a"),
    ("a+", "a", "a"),
    ("a+b", "ab", "ab"),
    ("a + b", "a b", "a b"),
    ("\t ", "", ""),
    ("", "", ""),
    ("ÉTÉ", "ÉtÉ", "été"),
    ("  Zürich\t\tHB  ", "zürich hb", "zürich hb"),
    ("ZÜRICH", "zÜrich", "zürich"),
    ("(x)", "x", "x"),
    ("-", "-", "-"),
    ("A1\u{7f}B", "a1b", "a1b"),
    ("The  \"Great\" Bear", "the great bear", "the great bear"),
    ("the great bear", "the great bear", "the great bear"),
    ("Straße", "straße", "strasse"),
    ("STRASSE", "strasse", "strasse"),
    ("\u{1e9e}", "\u{1e9e}", "ss"),
    ("ΣΑΣ", "ΣΑΣ", "σασ"),
    ("σας", "σας", "σασ"),
    ("σασ", "σασ", "σασ"),
    ("don\u{2019}t", "don\u{2019}t", "dont"),
    ("don't", "dont", "dont"),
    ("\u{2014}", "\u{2014}", "\u{2014}"),
    (" \u{2014}\t", "\u{2014}", "\u{2014}"),
    (" \u{2014} É- ", "\u{2014} É", "é"),
    ("\u{2014} +", "\u{2014}", "\u{2014} +"),
    // keys that are longer than their texts, and keys of which marks fall away
    ("\u{149}", "\u{149}", "\u{2bc}n"),
    ("\u{23a}", "\u{23a}", "\u{2c65}"),
    ("\u{fb03}", "\u{fb03}", "ffi"),
    ("\u{390}", "\u{390}", "\u{3b9}"),
    ("\u{130}", "\u{130}", "i"),
    ("I", "i", "i"),
    ("\u{131}", "\u{131}", "\u{131}"),
    // signs and letters past ASCII that fold into it
    ("\u{212a}\u{17f}", "\u{212a}\u{17f}", "ks"),
    ("00-databa\u{17f}e", "00databa\u{17f}e", "00database"),
    // an accent that is a character of its own falls away
    ("e\u{301}", "e\u{301}", "e"),
    ("é", "é", "é"),
    // numbers of the categories Nd, Nl and No
    ("\u{661}", "\u{661}", "\u{661}"),
    ("\u{2167}", "\u{2167}", "\u{2177}"),
    ("\u{bd}", "\u{bd}", "\u{bd}"),
    ("x\u{b2}", "x\u{b2}", "x\u{b2}"),
    // what is no blank and nothing that is kept
    ("a\u{a0}b", "a\u{a0}b", "ab"),
    ("\u{a0}X", "\u{a0}x", "x"),
    ("\u{10ffff}", "\u{10ffff}", "\u{10ffff}"),
    ("A\u{10ffff}", "a\u{10ffff}", "a"),
    // points, an accent, the virama; a script of four octets a letter
    (
        "\u{5d1}\u{5b0}\u{5bc}",
        "\u{5d1}\u{5b0}\u{5bc}",
        "\u{5d1}\u{5b0}\u{5bc}",
    ),
    ("\u{5d1}\u{591}", "\u{5d1}\u{591}", "\u{5d1}"),
    (
        "\u{939}\u{93f}\u{928}\u{94d}\u{926}\u{940}",
        "\u{939}\u{93f}\u{928}\u{94d}\u{926}\u{940}",
        "\u{939}\u{93f}\u{928}\u{926}\u{940}",
    ),
    ("\u{1e921}", "\u{1e921}", "\u{1e943}"),
];

// Whether these are the two keys of a text.
fn has_keys(rt: &impl Abort, alloc: Global, text: &str, reserved: &str, key: &str) -> bool {
    let found = reserved_key_of(alloc, text).expect(rt, "a key of the first version");
    let is_reserved = found.as_bytes() == reserved.as_bytes();
    drop(found);
    let found = key_of(alloc, text).expect(rt, "a key");
    let is_key = found.as_bytes() == key.as_bytes();
    drop(found);
    is_reserved && is_key
}

// A text, and its words.
static WORDS: [(&[u8], &[&[u8]]); 5] = [
    (b" fire\t opal  \xc3\xa9 ", &[b"fire", b"opal", b"\xc3\xa9"]),
    (b"", &[]),
    (b" \t ", &[]),
    (b"a", &[b"a"]),
    (b"a\nb c", &[b"a\nb", b"c"]),
];

// Whether they come one after another, and none behind them, nor when it is asked again.
fn has_words(text: &[u8], wanted: &[&[u8]]) -> bool {
    let mut left = words(text);
    for word in wanted {
        if left.next() != Some(*word) {
            return false;
        }
    }
    left.next().is_none() && left.next().is_none()
}

#[test]
fn keys_and_words(rt: HostRuntime) {
    for (text, reserved, key) in &KEYS {
        holds(&rt, has_keys(&rt, rt.alloc(), text, reserved, key), text);
    }
    for (text, wanted) in &WORDS {
        holds(&rt, has_words(text, wanted), "words");
        holds(&rt, words(text).count() == wanted.len(), "count");
    }
}
