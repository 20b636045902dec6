//! An index in memory beside the filter of the whole list.
use crate::checks::holds;
use crate::made::{made_headwords, repeated};
use dict_match::{Key, Strategy, key_of, matches};
use std::alloc::Global;
use std::process::Abort;
use store_derived::select;
use store_search::{Index, IndexBuilder, edition_laws, selection_law};

// What a line of an index says: a headword, what is shown, and where the text begins and how long it is.
type Line<'a> = (&'a str, &'a str, usize, usize);

static LINES: [Line<'static>; 10] = [
    ("opal", "opal", 0, 3),
    ("Fire Opal", "Fire Opal", 3, 4),
    ("fire-opal", "Fire Opal", 7, 5),
    ("opal", "Opal", 12, 1),
    ("o", "o", 13, 2),
    ("opals of fire", "opals of fire", 15, 6),
    ("ÉTÉ", "été", 21, 7),
    ("été", "été", 28, 8),
    ("b a b", "b a b", 36, 9),
    ("+", "plus", 45, 10),
];

const ASKED: &str = "
o
a
op
opal
al
fire
fire opal
pal
été
a query that is longer than every key
";

// The headwords of the databases of examples/.
const EXAMPLES: &str = "00-database-short
opal
Fire Opal
dot
iron
00-database-info
00-database-utf8
accent
diacritic
agate
aldine leaf
fleuron
❦
alignment
ampersand
&c
aperture
apex
arm
ascender
asterism
⁂
asterisk
ball terminal
bar
baseline
baseline grid
bastard title
half title
blackletter
Fraktur
textura
bleed
body
bold
bowl
bracket
bullet
•
cap height
caret
‸
cast-off
cedilla
ç
chase
cicero
colophon
composing stick
contrast
counter
crotch
dagger
obelisk
†
decimal tab
descender
diaeresis
tréma
naïve
dingbat
drop cap
ear
ellipsis
…
em
em dash
—
en
en dash
–
esperluette
eszett
ß
figure dash
flush left
folio
font
fount
full stop
period
.
galley
glyph
guillemets
« »
gutter
hair space
hanging punctuation
hyphen
incipit
indent
initial
interpunct
·
interrobang
‽
italic
justification
kerning
leader
leading
ligature
ﬁ
lining figures
long s
ſ
lowercase
minuscule
majuscule
uppercase
manicule
☞
moiré
oldstyle figures
orphan
Œuvre
œ
pica
pilcrow
¶
pixel
point
prime
′
quad
quotation marks
river
roff request
roman
rule
running head
sans serif
grotesque
section sign
§
serif
small caps
solidus
⁄
sort
stem
swash
tilde
ñ
~
tracking
umlaut
ü
Übersatz
versal
widow
x-height
zero-width space
";

const ASKED_OF_EXAMPLES: &str = "
a
in
line
space
00
database
Fire Opal
opal fire
half title
title
em
—
ß
ss
œ
Übersatz
ï
« »
a query that is longer than every key
";

// Runs of letters that the made headwords have, beside whole ones.
const RUNS: &str = "e
e a
th
tio
ea7
α
σσ
λμν
α β
ب
بت
ا ب
क
का
ख ग
א
אב
ש ל
天
天地
日月盈
天 地
a query that is longer than every key
";

// Keys that begin with one another.
const NESTED: &str = "a
ab
abc
abcd
abcde
abcdef
abcdefg
abcdefgh
abcdefghi
abcdefghij
abcdefghijk
abcdefghijkl
";

/// How many lines an edition may have.
const MOST: usize = 262_144;

// Texts, a line for each headword and for each query, and how many the queries find by all strategies: as many as a filter in Python.
static TEXTS: [(&str, &str, usize); 4] = [
    ("o", "o", 7),
    ("", ASKED, 0),
    (EXAMPLES, ASKED_OF_EXAMPLES, 213),
    // 12 by each of five strategies, and by two each key of twelve with all that are longer
    (NESTED, NESTED, 5 * 12 + 2 * 78),
];

// Lines, of which one has its text past what 32 bits count.
static FAR: [Line<'static>; 3] = [
    ("a", "a", 1, 2),
    ("b", "b", 4_294_967_296, 3),
    ("c", "c", 4, 5),
];

fn lines_of<'a>(rt: &impl Abort, alloc: Global, text: &'a str) -> Vec<Line<'a>> {
    let mut lines = Vec::new(alloc);
    for headword in text.lines() {
        lines
            .push((headword, headword, 0, headword.len()))
            .expect(rt, "memory");
    }
    lines
}

fn push_lines(rt: &impl Abort, builder: &mut IndexBuilder, lines: &[Line]) {
    for line in lines {
        builder
            .push(line.0, line.1, line.2, line.3)
            .expect(rt, "memory");
    }
}

fn built(rt: &impl Abort, alloc: Global, lines: &[Line]) -> Index {
    let mut builder = IndexBuilder::new(alloc);
    push_lines(rt, &mut builder, lines);
    assert!(rt; builder.len() <= MOST, "so many lines");
    builder.finish().expect(rt, "an index")
}

fn push_key(rt: &impl Abort, alloc: Global, keys: &mut Vec<Key>, text: &str) {
    let key = key_of(alloc, text).expect(rt, "a key");
    keys.push(key).expect(rt, "memory");
}

fn keys_of(rt: &impl Abort, alloc: Global, lines: &[Line]) -> Vec<Key> {
    let mut keys = Vec::new(alloc);
    for line in lines {
        push_key(rt, alloc, &mut keys, line.0);
    }
    keys
}

// The keys of the queries, a line for each.
fn keys_asked(rt: &impl Abort, alloc: Global, asked: &str) -> Vec<Key> {
    let mut keys = Vec::new(alloc);
    for query in asked.lines() {
        push_key(rt, alloc, &mut keys, query);
    }
    keys
}

// The places of the keys that the query finds: the filter of the whole list.
fn filtered(
    rt: &impl Abort,
    alloc: Global,
    keys: &[Key],
    strategy: Strategy,
    query: &[u8],
) -> Vec<u32> {
    let mut places = Vec::new(alloc);
    let mut place: u32 = 0;
    for key in keys {
        if matches(strategy, query, key.as_bytes()) {
            places.push(place).expect(rt, "memory");
        }
        place = place.wrapping_add(1);
    }
    places
}

fn count_candidates(
    rt: &impl Abort,
    alloc: Global,
    index: &Index,
    strategy: Strategy,
    query: &[u8],
) -> usize {
    let selection = select(alloc, strategy, query).expect(rt, "a selection");
    let candidates = index.candidates(alloc, &selection);
    drop(selection);
    candidates.expect(rt, "candidates").len()
}

// Whether a query finds these places, and is counted and looks at entries as many as it is to.
fn finds(
    rt: &impl Abort,
    alloc: Global,
    index: &Index,
    strategy: Strategy,
    query: &[u8],
    wanted: &[u32],
) -> bool {
    let counted = index
        .count_entries(alloc, strategy, query)
        .expect(rt, "a count");
    let looked_at = count_candidates(rt, alloc, index, strategy, query);
    let found = index.find(alloc, strategy, query).expect(rt, "places");
    found.places.as_slice() == wanted
        && counted.count == wanted.len()
        && looked_at == found.looked_at
}

// One query of some lines, beside the filter: how many it finds.
fn try_one(
    rt: &impl Abort,
    alloc: Global,
    index: &Index,
    keys: &[Key],
    strategy: Strategy,
    query: &[u8],
) -> usize {
    let wanted = filtered(rt, alloc, keys, strategy, query);
    let is_so = finds(rt, alloc, index, strategy, query, wanted.as_slice());
    holds(rt, is_so, strategy.name());
    wanted.len()
}

// Each query by one strategy: how many they find.
fn try_queries(
    rt: &impl Abort,
    alloc: Global,
    index: &Index,
    keys: &[Key],
    strategy: Strategy,
    asked: &[Key],
) -> usize {
    let mut found: usize = 0;
    for query in asked {
        let some = try_one(rt, alloc, index, keys, strategy, query.as_bytes());
        found = found.wrapping_add(some);
    }
    found
}

// Each query by each of the strategies: how many they find.
fn try_strategies(
    rt: &impl Abort,
    alloc: Global,
    index: &Index,
    keys: &[Key],
    strategies: &[Strategy],
    asked: &[Key],
) -> usize {
    let mut found: usize = 0;
    for strategy in strategies {
        let some = try_queries(rt, alloc, index, keys, *strategy, asked);
        found = found.wrapping_add(some);
    }
    found
}

// The same of an index of the lines, and of queries, a line for each.
fn try_lines(
    rt: &impl Abort,
    alloc: Global,
    lines: &[Line],
    strategies: &[Strategy],
    asked: &str,
) -> usize {
    let asked = keys_asked(rt, alloc, asked);
    let keys = keys_of(rt, alloc, lines);
    let index = built(rt, alloc, lines);
    let found = try_strategies(rt, alloc, &index, &keys, strategies, &asked);
    drop(index);
    found
}

// The same of a text, with a line for each headword.
fn try_text(
    rt: &impl Abort,
    alloc: Global,
    text: &str,
    strategies: &[Strategy],
    asked: &str,
) -> usize {
    let lines = lines_of(rt, alloc, text);
    try_lines(rt, alloc, lines.as_slice(), strategies, asked)
}

#[test]
fn queries_find_what_the_filter_finds(rt: HostRuntime) {
    edition_laws();
    selection_law();
    let found = try_lines(&rt, rt.alloc(), &LINES, &Strategy::ALL, ASKED);
    holds(&rt, found > 0, "found");
}

#[test]
fn as_many_are_found_as_are_wanted(rt: HostRuntime) {
    for (text, asked, wanted) in &TEXTS {
        let found = try_text(&rt, rt.alloc(), *text, &Strategy::ALL, *asked);
        holds(&rt, found == *wanted, asked);
    }
}

// How many queries find that are made as the headwords are, with others behind them.
fn try_scripts(rt: &impl Abort, alloc: Global, text: &str) -> usize {
    let mut asked = made_headwords(rt, alloc, 5);
    asked.push_str(RUNS).expect(rt, "memory");
    try_text(rt, alloc, text, &Strategy::ALL, asked.as_str())
}

#[test]
fn headwords_in_six_scripts(rt: HostRuntime) {
    let text = made_headwords(&rt, rt.alloc(), 3_400);
    let found = try_scripts(&rt, rt.alloc(), text.as_str());
    // as many as a filter in Python finds
    holds(&rt, found == 13_167, "found");
}

#[test]
fn equal_keys(rt: HostRuntime) {
    let text = repeated(&rt, rt.alloc(), "opal\n", 262_144);
    let strategies = [Strategy::Exact, Strategy::Prefix, Strategy::Substring];
    let found = try_text(&rt, rt.alloc(), text.as_str(), &strategies, "opal");
    holds(&rt, found == 3 * 262_144, "found");
}

// Whether the entry at a place is of this line.
fn is_of(index: &Index, place: u32, line: &Line) -> bool {
    let entry = index.entry(place);
    entry.shown == line.1 && entry.start == line.2 && entry.size == line.3
}

// The entries are of these lines, and there are no others.
fn look_at_entries(rt: &impl Abort, index: &Index, lines: &[Line]) {
    let mut place: u32 = 0;
    for line in lines {
        holds(rt, is_of(index, place, line), line.0);
        place = place.wrapping_add(1);
    }
    let is_last = index.len() == lines.len() && index.entry(place).shown == "";
    holds(rt, is_last, "the last");
}

fn look_at_headwords(rt: &impl Abort, alloc: Global, index: &Index) {
    let counted = index
        .count_headwords(alloc, Strategy::Suffix, b"opal")
        .expect(rt, "a count");
    holds(rt, counted.count == 3 && counted.looked_at == 4, "opal");
    let found = index
        .find_headwords(alloc, Strategy::Suffix, b"opal")
        .expect(rt, "places");
    let is_so = found.places.as_slice() == [0, 1, 3].as_slice();
    holds(rt, is_so, "opal");
}

#[test]
fn headwords_come_once_and_entries_by_their_places(rt: HostRuntime) {
    let index = built(&rt, rt.alloc(), &LINES);
    look_at_entries(&rt, &index, &LINES);
    look_at_headwords(&rt, rt.alloc(), &index);
    drop(index);
}

#[test]
fn spans_of_any_size_are_kept(rt: HostRuntime) {
    let index = built(&rt, rt.alloc(), &FAR);
    look_at_entries(&rt, &index, &FAR);
    drop(index);
}
