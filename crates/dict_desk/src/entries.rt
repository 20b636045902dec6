// The entries of an edition that is kept in memory.
ghost use Rattle.std.specs.Prelude.{◌≡◌, ◌≤◌, ◌<◌, ◌==◌, ◌+◌, ◌&&◌, not, [], ◌∷◌, Some, IfOk, length, map, filter, take, drop, slice_get, if◌then◌else◌};
ghost use Rattle.std.specs.List.{AllByRecursion};
ghost use Rattle.dict_index.specs.Views.{line_of as line_read, HasItsKey as HasKeyRead};
ghost use Rattle.dict_index.specs.Found.{row, row_of};
ghost use Rattle.dict_desk.specs.PlainEntries.{owned_line_of, entry_cut_from, shown_by, IsKeyedByHeadword, AreLinked, is_hit_of, is_shown, texts_listed, rows_found, rows_listed, LieWithin};

use crate::lookup::End;
use crate::sink::{Demand, Row, RowSink};
use dict_index::Entry;
use dict_match::{Key, Strategy, matches};
use std::alloc::{AllocError, Global};
use std::collections::BTreeMap;

/// What a line of the index says: a headword, what replies show of it, and where its text stands in that of its edition;
/// and the place of the last entry before this one that shows the same text, if there is one.
#[derive(Drop)]
pub(crate) struct SaidEntry {
    pub headword: String,
    pub shown: String,
    pub offset: usize,
    pub size: usize,
    pub earlier: Option<usize>,
}

/// An entry: the key of its headword, and what its line says. The last is apart, so that keys, which are gone through
/// for each query, lie near one another.
#[derive(Drop)]
pub(crate) struct OwnedEntry {
    pub key: Key,
    pub said: Box<SaidEntry>,
}

// The entries, with memory of their own. The last place of each text that was shown is looked up in a map in order.
pub(crate) fn owned_entries(alloc: Global, entries: &[Entry]) -> Result<Vec<OwnedEntry>, AllocError>
    requires { AllByRecursion HasKeyRead entries.now }
    ensures lines { IfOk result (λ owned. map owned_line_of owned.items ≡ map line_read entries.now) }
    ensures keys { IfOk result (λ owned. AllByRecursion IsKeyedByHeadword owned.items) }
    ensures links { IfOk result (λ owned. AreLinked owned.items) }
{
    let mut owned = Vec::with_capacity(alloc, entries.len())?;
    let mut places = BTreeMap::new(alloc);
    for entry in entries {
        let earlier = places.insert(entry.shown, owned.len())?;
        let kept = owned_entry(alloc, entry, earlier)?;
        owned.push(kept)?;
    }
    Ok(owned)
}

// The entry, with memory of its own.
fn owned_entry(
    alloc: Global,
    entry: &Entry,
    earlier: Option<usize>,
) -> Result<OwnedEntry, AllocError>
    requires { HasKeyRead entry.now }
    ensures line { IfOk result (λ owned. owned_line_of owned ≡ line_read entry.now) }
    ensures key { IfOk result IsKeyedByHeadword }
    ensures link { IfOk result (λ owned. owned.said.value.earlier ≡ earlier) }
{
    let headword = String::from_str(alloc, entry.headword)?;
    let shown = String::from_str(alloc, entry.shown)?;
    let said = SaidEntry {
        headword,
        shown,
        offset: entry.offset,
        size: entry.size,
        earlier,
    };
    Ok(OwnedEntry {
        key: entry.key.clone()?,
        said: Box::new(alloc, said)?,
    })
}

// Whether a query finds the entry.
#[inline(always)]
fn finds(strategy: Strategy, query: &[u8], entry: &OwnedEntry) -> bool
    requires { IsKeyedByHeadword entry.now }
    ensures { result ≡ is_hit_of strategy query.now entry.now }
{
    let key = entry.key.as_bytes();
    match strategy {
        // As `matches` has it. Here it costs no call for each entry.
        Strategy::Exact => !query.is_empty() && key == query,
        _ => matches(strategy, query, key),
    }
}

// Whether a query finds one of the entries before this one, which stands at this place, that shows the same text.
fn is_repeated(
    entries: &[OwnedEntry],
    place: usize,
    entry: &OwnedEntry,
    strategy: Strategy,
    query: &[u8],
) -> bool
    requires keys { AllByRecursion IsKeyedByHeadword entries.now }
    requires links { AreLinked entries.now }
    requires here { slice_get entries.now place ≡ Some entry.now }
    ensures { result ≡ is_shown strategy query.now (shown_by entry.now) (take place entries.now) }
{
    let mut last = entry.said.earlier;
    while let Some(earlier) = last {
        let before = &entries[earlier];
        if finds(strategy, query, before) {
            return true;
        }
        last = before.said.earlier;
    }
    false
}

// Whether a query finds the entry at this place, and none before it that shows the same text.
fn lists(entries: &[OwnedEntry], place: usize, strategy: Strategy, query: &[u8]) -> bool
    requires keys { AllByRecursion IsKeyedByHeadword entries.now }
    requires links { AreLinked entries.now }
    requires place { place < length entries.now }
    ensures { (entry : OwnedEntry) → slice_get entries.now place ≡ Some entry → result ≡ (is_hit_of strategy query.now entry && not (is_shown strategy query.now (shown_by entry) (take place entries.now))) }
{
    let entry = &entries[place];
    finds(strategy, query, entry) && !is_repeated(entries, place, entry, strategy, query)
}

/// The places from the first one up to the end.
#[derive(Clone, Copy)]
pub(crate) struct PlaceSpan {
    pub first: usize,
    pub end: usize,
}

/// What a query finds: how many entries, how many headwords are shown of them, and a span in which all these entries
/// lie.
#[derive(Clone, Copy)]
pub(crate) struct EntryHits {
    pub entries: u64,
    pub headwords: u64,
    pub span: PlaceSpan,
}

// One entry more, which lies behind those before it.
fn with(hits: EntryHits, place: usize, is_repeated: bool) -> EntryHits
    requires entries { hits.entries ≤ place }
    requires headwords { hits.headwords ≤ place }
    requires place { place < 9223372036854775808 }
    ensures entries { result.entries ≡ hits.entries + 1 }
    ensures headwords { result.headwords ≡ (if is_repeated then hits.headwords else hits.headwords + 1) }
    ensures first { result.span.first ≡ (if hits.span.end == 0 then place else hits.span.first) }
    ensures end { result.span.end ≡ place + 1 }
{
    let first = if hits.span.end == 0 {
        place
    } else {
        hits.span.first
    };
    let firsts = if is_repeated { 0 } else { 1 };
    EntryHits {
        entries: hits.entries + 1,
        headwords: hits.headwords + firsts,
        span: PlaceSpan {
            first,
            end: place + 1,
        },
    }
}

// What a query finds among the entries.
pub(crate) fn hits_among(entries: &[OwnedEntry], strategy: Strategy, query: &[u8]) -> EntryHits
    requires keys { AllByRecursion IsKeyedByHeadword entries.now }
    requires links { AreLinked entries.now }
    ensures entries { result.entries ≡ length (filter (is_hit_of strategy query.now) entries.now) }
    ensures headwords { result.headwords ≡ length (texts_listed strategy query.now entries.now) }
    ensures within { LieWithin (is_hit_of strategy query.now) entries.now result.span.first result.span.end }
{
    let mut hits = EntryHits {
        entries: 0,
        headwords: 0,
        span: PlaceSpan { first: 0, end: 0 },
    };
    for (place, entry) in entries.iter().enumerate() {
        if finds(strategy, query, entry) {
            let is_repeated = is_repeated(entries, place, entry, strategy, query);
            hits = with(hits, place, is_repeated);
        }
    }
    hits
}

// Hands out the entries that a query finds, each with its text.
pub(crate) fn hand_found<T: RowSink>(
    text: &[u8],
    entries: &[OwnedEntry],
    strategy: Strategy,
    query: &[u8],
    sink: &mut T,
) -> End
    requires { AllByRecursion IsKeyedByHeadword entries.now }
    ensures all { result ≡ End.All → T.takes sink.old (rows_found text.now strategy query.now entries.now) sink.new }
    ensures stopped { result ≡ End.Stopped → T.stops sink.old (rows_found text.now strategy query.now entries.now) sink.new }
{
    for entry in entries {
        if finds(strategy, query, entry) {
            if let Demand::Stop = hand_entry(text, entry, sink) {
                return End::Stopped;
            }
        }
    }
    End::All
}

// Hands out the entry.
fn hand_entry<T: RowSink>(text: &[u8], entry: &OwnedEntry, sink: &mut T) -> Demand
    ensures more { result ≡ Demand.More → T.takes sink.old (row_of (entry_cut_from text.now entry.now) ∷ []) sink.new }
    ensures stop { result ≡ Demand.Stop → T.stops sink.old (row_of (entry_cut_from text.now entry.now) ∷ []) sink.new }
{
    let shown = entry.said.shown.as_str();
    let text = cut(text, entry.said.offset, entry.said.size);
    sink.take(Row { shown, text })
}

// What an interval cuts out of a text, as far as the text goes.
fn cut(text: &[u8], offset: usize, size: usize) -> &[u8]
    ensures { result.now ≡ take size (drop offset text.now) }
{
    let rest = &text[offset.min(text.len())..];
    &rest[..size.min(rest.len())]
}

// Hands out what is shown of the entries that a query finds, all of which lie in the span, each text once.
pub(crate) fn hand_headwords<T: RowSink>(
    entries: &[OwnedEntry],
    span: PlaceSpan,
    strategy: Strategy,
    query: &[u8],
    sink: &mut T,
) -> End
    requires keys { AllByRecursion IsKeyedByHeadword entries.now }
    requires links { AreLinked entries.now }
    requires within { LieWithin (is_hit_of strategy query.now) entries.now span.first span.end }
    ensures all { result ≡ End.All → T.takes sink.old (rows_listed strategy query.now entries.now) sink.new }
    ensures stopped { result ≡ End.Stopped → T.stops sink.old (rows_listed strategy query.now entries.now) sink.new }
{
    for place in span.first..span.end {
        if lists(entries, place, strategy, query) {
            if let Demand::Stop = hand_shown(&entries[place], sink) {
                return End::Stopped;
            }
        }
    }
    End::All
}

// Hands out what is shown of the entry.
fn hand_shown<T: RowSink>(entry: &OwnedEntry, sink: &mut T) -> Demand
    ensures more { result ≡ Demand.More → T.takes sink.old (row (shown_by entry.now) [] ∷ []) sink.new }
    ensures stop { result ≡ Demand.Stop → T.stops sink.old (row (shown_by entry.now) [] ∷ []) sink.new }
{
    let shown = entry.said.shown.as_str();
    sink.take(Row { shown, text: b"" })
}
