//! What readers ask of a desk.
use crate::checks::{holds, same_text};
use crate::taken::{Counted, taken_between};
use dict_desk::{Lookup, What};
use dict_match::{Key, Strategy, key_of};
use std::alloc::Global;
use std::process::Abort;
use store_fixtures::Rows;

/// What is asked of an edition: the entries that are found, what is shown of them, and how many they are; or one of these, with a sink that takes so many rows.
#[derive(Clone, Copy)]
pub(crate) enum Question {
    All,
    Entries,
    Headwords,
    Found(usize),
    Heads(usize),
    Info(usize),
}

/// The edition's number, the question, a strategy and a text, what is told, and how many entries are looked at for it, and rows read. The first that hands out
/// entries of an edition reads its text, which is kept from then on.
#[derive(Clone, Copy)]
pub(crate) struct Case(
    pub(crate) u64,
    pub(crate) Question,
    pub(crate) Strategy,
    pub(crate) &'static str,
    pub(crate) &'static str,
    pub(crate) u64,
);

/// What the editions `ore`, `gem`, `more` and `alike` answer. The keys of the third are, by place: opal, fire opal, opal fire, été, abcd, bcd abc, opal, strasse, a and a letter of four octets, c, + +, a.
pub(crate) static CASES: [Case; 66] = [
    Case(
        3,
        Question::All,
        Strategy::Exact,
        "OPAL",
        "opal=0!/opal=6!/;opal=/;2 1",
        9,
    ),
    Case(
        3,
        Question::All,
        Strategy::Exact,
        "Opal, fire",
        "opal fire=2!/;opal fire=/;1 1",
        4,
    ),
    Case(3, Question::All, Strategy::Exact, "", ";;0 0", 0),
    Case(
        3,
        Question::All,
        Strategy::Exact,
        "ÉTÉ",
        "Été=3!/;Été=/;1 1",
        4,
    ),
    Case(
        3,
        Question::All,
        Strategy::Exact,
        "strasse",
        "Straße=7!/;Straße=/;1 1",
        4,
    ),
    Case(
        3,
        Question::All,
        Strategy::Exact,
        "+ +",
        "+ +=a!/;+ +=/;1 1",
        4,
    ),
    Case(3, Question::All, Strategy::Exact, "-+", ";;0 0", 0),
    Case(
        3,
        Question::All,
        Strategy::Prefix,
        "o",
        "opal=0!/opal fire=2!/opal=6!/;opal=/opal fire=/;3 2",
        12,
    ),
    Case(
        3,
        Question::All,
        Strategy::Prefix,
        "a",
        "abcd=4!/a\u{3134a}=8!/a=b!/;abcd=/a\u{3134a}=/a=/;3 3",
        12,
    ),
    Case(3, Question::All, Strategy::Prefix, "\u{3134a}", ";;0 0", 0),
    Case(
        3,
        Question::All,
        Strategy::Prefix,
        "STRASS",
        "Straße=7!/;Straße=/;1 1",
        4,
    ),
    Case(3, Question::All, Strategy::Prefix, "", ";;0 0", 0),
    Case(
        3,
        Question::All,
        Strategy::Suffix,
        "opal",
        "opal=0!/Opal, fire=1!/opal=6!/;opal=/Opal, fire=/;3 2",
        12,
    ),
    Case(
        3,
        Question::All,
        Strategy::Suffix,
        "é",
        "Été=3!/;Été=/;1 1",
        4,
    ),
    Case(
        3,
        Question::All,
        Strategy::Suffix,
        "\u{3134a}",
        "a\u{3134a}=8!/;a\u{3134a}=/;1 1",
        4,
    ),
    Case(
        3,
        Question::All,
        Strategy::Suffix,
        "e",
        "opal fire=2!/Straße=7!/;opal fire=/Straße=/;2 2",
        8,
    ),
    Case(
        3,
        Question::All,
        Strategy::Substring,
        "abcd",
        "abcd=4!/;abcd=/;1 1",
        8,
    ),
    Case(
        3,
        Question::All,
        Strategy::Substring,
        "al",
        "opal=0!/Opal, fire=1!/opal fire=2!/opal=6!/;opal=/Opal, fire=/opal fire=/;4 3",
        48,
    ),
    Case(
        3,
        Question::All,
        Strategy::Substring,
        "pal",
        "opal=0!/Opal, fire=1!/opal fire=2!/opal=6!/;opal=/Opal, fire=/opal fire=/;4 3",
        16,
    ),
    Case(
        3,
        Question::All,
        Strategy::Substring,
        "ét",
        "Été=3!/;Été=/;1 1",
        4,
    ),
    Case(3, Question::All, Strategy::Substring, " ", ";;0 0", 0),
    Case(
        3,
        Question::All,
        Strategy::Substring,
        "c",
        "abcd=4!/bcd abc=5!/c++=9!/;abcd=/bcd abc=/c++=/;3 3",
        48,
    ),
    Case(
        3,
        Question::All,
        Strategy::Word,
        "opal fire",
        "opal fire=2!/;opal fire=/;1 1",
        16,
    ),
    Case(
        3,
        Question::All,
        Strategy::Word,
        "fire opal",
        "Opal, fire=1!/;Opal, fire=/;1 1",
        8,
    ),
    Case(
        3,
        Question::All,
        Strategy::Word,
        "fire",
        "Opal, fire=1!/opal fire=2!/;Opal, fire=/opal fire=/;2 2",
        8,
    ),
    Case(3, Question::All, Strategy::Word, "op", ";;0 0", 0),
    Case(
        3,
        Question::All,
        Strategy::First,
        "opal",
        "opal=0!/opal fire=2!/opal=6!/;opal=/opal fire=/;3 2",
        16,
    ),
    Case(
        3,
        Question::All,
        Strategy::Last,
        "opal",
        "opal=0!/Opal, fire=1!/opal=6!/;opal=/Opal, fire=/;3 2",
        16,
    ),
    Case(
        3,
        Question::All,
        Strategy::Last,
        "fire",
        "opal fire=2!/;opal fire=/;1 1",
        8,
    ),
    Case(
        3,
        Question::All,
        Strategy::First,
        "+",
        "+ +=a!/;+ +=/;1 1",
        4,
    ),
    Case(
        3,
        Question::All,
        Strategy::Substring,
        "e opa",
        "Opal, fire=1!/;Opal, fire=/;1 1",
        4,
    ),
    Case(3, Question::All, Strategy::Substring, "opa e o", ";;0 0", 4),
    Case(3, Question::All, Strategy::Word, "opal opal", ";;0 0", 16),
    Case(
        3,
        Question::All,
        Strategy::Last,
        "fire opal",
        "Opal, fire=1!/;Opal, fire=/;1 1",
        8,
    ),
    Case(3, Question::All, Strategy::First, "abc", ";;0 0", 4),
    // A sink that takes so many rows. Of entries by such a strategy those alone are looked at which it was handed; of headwords all that are selected.
    Case(
        3,
        Question::Found(1),
        Strategy::Prefix,
        "o",
        "opal=0!/ Stopped",
        1,
    ),
    Case(
        3,
        Question::Found(2),
        Strategy::Prefix,
        "o",
        "opal=0!/opal fire=2!/ Stopped",
        2,
    ),
    Case(
        3,
        Question::Found(3),
        Strategy::Prefix,
        "o",
        "opal=0!/opal fire=2!/opal=6!/ Stopped",
        3,
    ),
    Case(
        3,
        Question::Found(4),
        Strategy::Prefix,
        "o",
        "opal=0!/opal fire=2!/opal=6!/ All",
        3,
    ),
    Case(
        3,
        Question::Heads(1),
        Strategy::Suffix,
        "opal",
        "opal=/ Stopped",
        3,
    ),
    Case(
        3,
        Question::Heads(2),
        Strategy::Suffix,
        "opal",
        "opal=/Opal, fire=/ Stopped",
        3,
    ),
    Case(
        3,
        Question::Heads(3),
        Strategy::Suffix,
        "opal",
        "opal=/Opal, fire=/ All",
        3,
    ),
    Case(
        3,
        Question::Info(1),
        Strategy::Exact,
        "",
        "=About gems/ Stopped",
        1,
    ),
    Case(
        3,
        Question::Info(2),
        Strategy::Exact,
        "",
        "=About gems/ All",
        1,
    ),
    Case(1, Question::Info(2), Strategy::Exact, "", "=/ All", 1),
    Case(5, Question::Info(2), Strategy::Exact, "", " All", 0),
    Case(0, Question::Found(2), Strategy::Substring, "o", " All", 0),
    Case(
        18_446_744_073_709_551_615,
        Question::Heads(2),
        Strategy::Exact,
        "opal",
        " All",
        0,
    ),
    // The first two editions.
    Case(
        2,
        Question::Found(9),
        Strategy::Suffix,
        "opal",
        "opal=opal\n  a stone\n/Fire Opal=opal\n  a stone\n/ All",
        3,
    ),
    Case(
        2,
        Question::Found(1),
        Strategy::Suffix,
        "opal",
        "opal=opal\n  a stone\n/ Stopped",
        1,
    ),
    Case(
        2,
        Question::Found(9),
        Strategy::Exact,
        "DOT",
        "dot=.dot\n/ All",
        1,
    ),
    Case(
        1,
        Question::Found(9),
        Strategy::Substring,
        "o",
        "iron=iron\n  ore\n/ All",
        2,
    ),
    Case(2, Question::Found(9), Strategy::Prefix, "00", " All", 0),
    Case(
        2,
        Question::Heads(9),
        Strategy::Substring,
        "o",
        "opal=/Fire Opal=/dot=/ All",
        3,
    ),
    Case(
        2,
        Question::Heads(2),
        Strategy::Substring,
        "o",
        "opal=/Fire Opal=/ Stopped",
        3,
    ),
    Case(1, Question::Heads(9), Strategy::First, "opal", " All", 0),
    Case(2, Question::All, Strategy::Word, "opal fire", ";;0 0", 8),
    Case(
        2,
        Question::All,
        Strategy::Word,
        "fire opal",
        "Fire Opal=opal\n  a stone\n/;Fire Opal=/;1 1",
        4,
    ),
    // One text is shown of two headwords, by which they are found.
    Case(
        4,
        Question::All,
        Strategy::Exact,
        "OPAL",
        "Opal=opal\n  a stone\n/;Opal=/;1 1",
        5,
    ),
    Case(
        4,
        Question::All,
        Strategy::Exact,
        "fire opal",
        "Opal=opal\n  a stone\n/;Opal=/;1 1",
        4,
    ),
    Case(
        4,
        Question::All,
        Strategy::Prefix,
        "fire",
        "Opal=opal\n  a stone\n/;Opal=/;1 1",
        4,
    ),
    Case(
        4,
        Question::All,
        Strategy::Suffix,
        "opal",
        "Opal=opal\n  a stone\n/Opal=opal\n  a stone\n/;Opal=/;2 1",
        8,
    ),
    Case(
        4,
        Question::All,
        Strategy::Substring,
        "opal",
        "Opal=opal\n  a stone\n/Opal=opal\n  a stone\n/;Opal=/;2 1",
        8,
    ),
    Case(
        4,
        Question::All,
        Strategy::Word,
        "opal",
        "Opal=opal\n  a stone\n/Opal=opal\n  a stone\n/;Opal=/;2 1",
        8,
    ),
    Case(
        4,
        Question::All,
        Strategy::First,
        "opal",
        "Opal=opal\n  a stone\n/;Opal=/;1 1",
        8,
    ),
    Case(
        4,
        Question::All,
        Strategy::Last,
        "opal",
        "Opal=opal\n  a stone\n/Opal=opal\n  a stone\n/;Opal=/;2 1",
        8,
    ),
];

// What is found, and shown, and how many they are.
fn told_all<L: Lookup>(
    rt: &impl Abort,
    alloc: Global,
    desk: &mut L,
    number: u64,
    strategy: Strategy,
    query: &Key,
) -> String {
    let mut rows = Rows::new(alloc, usize::MAX);
    desk.find(number, strategy, query, What::Entries, &mut rows)
        .expect(rt, "entries");
    rows.text.push(';').expect(rt, "memory");
    desk.find(number, strategy, query, What::Headwords, &mut rows)
        .expect(rt, "headwords");
    let entries = desk
        .count(number, strategy, query, What::Entries)
        .expect(rt, "a count");
    let texts = desk
        .count(number, strategy, query, What::Headwords)
        .expect(rt, "a count");
    let counts = format!(in alloc; ";{entries} {texts}").expect(rt, "memory");
    rows.text.push_str(counts.as_str()).expect(rt, "memory");
    rows.text
}

fn told_count<L: Lookup>(
    rt: &impl Abort,
    alloc: Global,
    desk: &mut L,
    case: &Case,
    query: &Key,
    what: What,
) -> String {
    let count = desk
        .count(case.0, case.2, query, what)
        .expect(rt, "a count");
    format!(in alloc; "{count}").expect(rt, "memory")
}

// The rows that are handed out, and how they end.
fn told_rows<L: Lookup>(
    rt: &impl Abort,
    alloc: Global,
    desk: &mut L,
    case: &Case,
    query: &Key,
    most: usize,
) -> String {
    let mut rows = Rows::new(alloc, most);
    let end = match case.1 {
        Question::Info(_) => desk.info(case.0, &mut rows),
        Question::Heads(_) => desk.find(case.0, case.2, query, What::Headwords, &mut rows),
        _ => desk.find(case.0, case.2, query, What::Entries, &mut rows),
    };
    let end = end.expect(rt, "rows");
    let shown = format!(in alloc; " {end:?}").expect(rt, "memory");
    rows.text.push_str(shown.as_str()).expect(rt, "memory");
    rows.text
}

fn answer<L: Lookup>(rt: &impl Abort, alloc: Global, desk: &mut L, case: &Case) -> String {
    let query = key_of(alloc, case.3).expect(rt, "memory");
    match case.1 {
        Question::All => told_all(rt, alloc, desk, case.0, case.2, &query),
        Question::Entries => told_count(rt, alloc, desk, case, &query, What::Entries),
        Question::Headwords => told_count(rt, alloc, desk, case, &query, What::Headwords),
        Question::Found(most) | Question::Heads(most) | Question::Info(most) => {
            told_rows(rt, alloc, desk, case, &query, most)
        }
    }
}

/// Each is answered so, and no row is handed over that isn't needed.
pub(crate) fn look<L: Lookup + Counted>(
    rt: &impl Abort,
    alloc: Global,
    desk: &mut L,
    cases: &[Case],
) {
    for case in cases {
        let before = desk.taken();
        let found = answer(rt, alloc, desk, case);
        same_text(rt, found.as_str(), case.4, case.3);
        let taken = taken_between(before, desk.taken());
        holds(rt, taken.unwrap_or(case.5) == case.5, case.3);
    }
}
