// What a query finds in the databases that are asked.
ghost use Rattle.std.specs.Prelude.{◌≡◌, ◌≤◌, ◌<◌, ◌==◌, ◌+◌, ◌^◌, List, [], ◌∷◌, ◌++◌, true, false, length, slice_get, if◌then◌else◌, IsOk, IfOk, OnOk, OnErr};
ghost use Rattle.std.specs.List.{flat_map};
ghost use Rattle.dict_index.specs.Edition.{Edition};
ghost use Rattle.dict_catalogue.specs.Steps.{Catalogue, summary_of};
ghost use Rattle.dict_index.specs.Found.{Row};
ghost use Rattle.dict_desk.specs.Shown.{HasEdition, rows_given};
ghost use Rattle.dict_desk.specs.Handing.{Hands};
ghost use Rattle.dict_proto.specs.Streams.{Puts};
ghost use Rattle.dict_session.specs.Answers.{counted_rows};
ghost use Rattle.dict_session.specs.Desks.{Stays};
ghost use Rattle.dict_session.specs.Ending.{Delivers, PutsAnswer};
ghost use Rattle.dict_session.specs.Places.{IsHeading};
ghost use Rattle.dict_session.specs.Rows.{row_octets, count_octets, end_octets, count_at, octets_at_place, first_counted, answering, counted_octets, found_octets, IsCounted};

use crate::answer::{put_unavailable, put_whole, whole};
use crate::asked::{Asked, Heading, add_place, heading_at, one_place};
use crate::query::Query;
use crate::rows::FoundRows;
use crate::show::put_list_end;
use crate::step::{LineAnswer, PutFault};
use arrayvec::ArrayVec;
use dict_desk::{End, Fault, Lookup, RowSink, What};
use dict_proto::{Reply, Sink, SinkFault, write_reply};

/// The places of the databases that give an answer's rows, each at least one, and how many rows there are.
#[derive(Drop)]
pub(crate) struct CountedRows {
    pub places: ArrayVec<usize, 64>,
    pub count: u64,
}

// No rows, of no place.
fn nothing() -> CountedRows
    ensures places { result.places.items ≡ [] }
    ensures count { result.count ≡ 0 }
{
    CountedRows {
        places: ArrayVec::new(),
        count: 0,
    }
}

impl CountedRows {
    // Adds so many rows that the database at a place gives. One that gives none is not asked again.
    fn add(&mut self, place: usize, count: u64)
        ensures places { length self.old.places.items < 64 → self.new.places.items ≡ self.old.places.items ++ (if count == 0 then [] else place ∷ []) }
        ensures count { self.old.count + count < 2 ^ 64 → self.new.count ≡ self.old.count + count }
    {
        if count > 0 {
            add_place(&mut self.places, place);
            self.count = self.count.saturating_add(count);
        }
    }
}

// The heading of the database at a place.
fn heading_of<L: Lookup>(desk: &L, place: usize) -> Result<Option<Heading>, Fault>
    ensures value { (M : Catalogue) → L.shows desk.now M → IfOk result (λ heading. IsHeading heading (slice_get (summary_of M).items place)) }
    ensures open { L.is_closed desk.now ≡ false → IsOk result }
{
    match desk.summary() {
        Ok(summary) => Ok(heading_at(&summary.items, place)),
        Err(fault) => Err(fault),
    }
}

// How many rows a query gives of the database at a place.
fn count_at<L: Lookup>(desk: &mut L, place: usize, query: &Query) -> Result<u64, Fault>
    ensures value { L.is_trusted desk.new → (M : Catalogue) → L.shows desk.old M → IfOk result (λ count. count ≡ count_at query.now M.items place) }
    ensures desk { Stays L.shows L.leaves_one_of L.keeps_beside L.is_trusted L.is_closed desk.old desk.new }
    ensures open { L.is_closed desk.old ≡ false → OnOk result (L.is_closed desk.new ≡ false) }
{
    match heading_of(desk, place) {
        Ok(Some(heading)) => desk.count(heading.number, query.strategy, &query.key, query.what),
        Ok(None) => Ok(0),
        Err(fault) => Err(fault),
    }
}

// Those of the places that give rows, and how many they give.
fn count_all<L: Lookup>(desk: &mut L, places: &[usize], query: &Query) -> Result<CountedRows, Fault>
    ensures value { L.is_trusted desk.new → (M : Catalogue) → L.shows desk.old M → length places.now ≤ 64 → IfOk result (IsCounted query.now M.items places.now) }
    ensures desk { Stays L.shows L.leaves_one_of L.keeps_beside L.is_trusted L.is_closed desk.old desk.new }
    ensures open { L.is_closed desk.old ≡ false → OnOk result (L.is_closed desk.new ≡ false) }
{
    let mut counted = nothing();
    for place in places {
        match count_at(desk, *place, query) {
            Ok(count) => counted.add(*place, count),
            Err(fault) => return Err(fault),
        }
    }
    Ok(counted)
}

// The first place of whose database a query gives rows, and how many.
fn count_first<L: Lookup>(
    desk: &mut L,
    places: &[usize],
    query: &Query,
) -> Result<CountedRows, Fault>
    ensures value { L.is_trusted desk.new → (M : Catalogue) → L.shows desk.old M → IfOk result (IsCounted query.now M.items (first_counted (count_at query.now M.items) places.now)) }
    ensures desk { Stays L.shows L.leaves_one_of L.keeps_beside L.is_trusted L.is_closed desk.old desk.new }
    ensures open { L.is_closed desk.old ≡ false → OnOk result (L.is_closed desk.new ≡ false) }
{
    for place in places {
        match count_at(desk, *place, query) {
            Ok(0) => {}
            Ok(count) => {
                return Ok(CountedRows {
                    places: one_place(*place),
                    count,
                });
            }
            Err(fault) => return Err(fault),
        }
    }
    Ok(nothing())
}

// Which of the databases asked give rows, and how many.
fn count_asked<L: Lookup>(desk: &mut L, asked: Asked, query: &Query) -> Result<CountedRows, Fault>
    ensures value { L.is_trusted desk.new → (M : Catalogue) → L.shows desk.old M → length asked.places.items ≤ 64 → IfOk result (IsCounted query.now M.items (answering query.now M.items asked.places.items asked.is_first)) }
    ensures desk { Stays L.shows L.leaves_one_of L.keeps_beside L.is_trusted L.is_closed desk.old desk.new }
    ensures open { L.is_closed desk.old ≡ false → OnOk result (L.is_closed desk.new ≡ false) }
{
    let Asked { places, is_first } = asked;
    if is_first {
        return count_first(desk, places.as_slice(), query);
    }
    count_all(desk, places.as_slice(), query)
}

// Hands the rows that a query gives of the edition of this number to a sink.
fn hand_out<L: Lookup, T: RowSink>(
    desk: &mut L,
    number: u64,
    query: &Query,
    sink: &mut T,
) -> Result<End, Fault>
    ensures value { L.is_trusted desk.new → (M : Catalogue) (edition : Edition) → L.shows desk.old M → HasEdition M number edition
        → Hands T.takes T.stops sink.old sink.new (rows_given query.now.what query.now.strategy query.now.key edition) result }
    ensures handed { (rows : List Row) × Hands T.takes T.stops sink.old sink.new rows result }
    ensures desk { Stays L.shows L.leaves_one_of L.keeps_beside L.is_trusted L.is_closed desk.old desk.new }
    ensures open { OnOk result (L.is_closed desk.new ≡ false) }
    ensures failed { OnErr result (L.has_failed desk.new ≡ true) }
{
    desk.find(number, query.strategy, &query.key, query.what, sink)
}

// Puts the rows that a query gives of the edition of this number.
fn deliver<L: Lookup, K: Sink>(
    desk: &mut L,
    number: u64,
    query: &Query,
    rows: &mut FoundRows<K>,
) -> Result<(), PutFault>
    ensures value { L.is_trusted desk.new → (M : Catalogue) (edition : Edition) → L.shows desk.old M → HasEdition M number edition
        → Delivers (L.has_failed desk.new) result (K.stream rows.old.sink.now) (K.stream rows.new.sink.now)
        (flat_map (row_octets rows.old.what rows.old.heading.now.name.bytes rows.old.heading.now.title.bytes) (rows_given query.now.what query.now.strategy query.now.key edition)) }
    ensures same_reference { rows.new.sink.ghost_name ≡ rows.old.sink.ghost_name }
    ensures desk { Stays L.shows L.leaves_one_of L.keeps_beside L.is_trusted L.is_closed desk.old desk.new }
    ensures open { OnOk result (L.is_closed desk.new ≡ false) }
{
    match hand_out(desk, number, query, rows) {
        Ok(End::All) => Ok(()),
        Ok(End::Stopped) => Err(PutFault::Sink),
        Err(_) => Err(PutFault::Desk),
    }
}

// Puts the rows that a query gives of the edition under a heading.
fn put_rows<L: Lookup, K: Sink>(
    desk: &mut L,
    heading: &Heading,
    query: &Query,
    sink: &mut K,
) -> Result<(), PutFault>
    ensures value { L.is_trusted desk.new → (M : Catalogue) (edition : Edition) → L.shows desk.old M → HasEdition M heading.now.number edition
        → Delivers (L.has_failed desk.new) result (K.stream sink.old) (K.stream sink.new)
        (flat_map (row_octets query.now.what heading.now.name.bytes heading.now.title.bytes) (rows_given query.now.what query.now.strategy query.now.key edition)) }
    ensures desk { Stays L.shows L.leaves_one_of L.keeps_beside L.is_trusted L.is_closed desk.old desk.new }
    ensures open { OnOk result (L.is_closed desk.new ≡ false) }
{
    let what = query.what;
    let mut rows = FoundRows {
        sink,
        what,
        heading,
    };
    deliver(desk, heading.number, query, &mut rows)
}

// Puts the rows that it gives of the database at a place.
fn put_at<L: Lookup, K: Sink>(
    desk: &mut L,
    place: usize,
    query: &Query,
    sink: &mut K,
) -> Result<(), PutFault>
    requires { L.is_closed desk.old ≡ false }
    ensures value { L.is_trusted desk.new → (M : Catalogue) → L.shows desk.old M
        → Delivers (L.has_failed desk.new) result (K.stream sink.old) (K.stream sink.new) (octets_at_place query.now M.items place) }
    ensures desk { Stays L.shows L.leaves_one_of L.keeps_beside L.is_trusted L.is_closed desk.old desk.new }
    ensures open { OnOk result (L.is_closed desk.new ≡ false) }
{
    match heading_of(desk, place) {
        Ok(Some(heading)) => put_rows(desk, &heading, query, sink),
        Ok(None) => Ok(()),
        // The desk is open, and answers its summary.
        Err(_) => unreachable!(),
    }
}

// Puts the rows that it gives of those at the places.
fn put_places<L: Lookup, K: Sink>(
    desk: &mut L,
    places: &[usize],
    query: &Query,
    sink: &mut K,
) -> Result<(), PutFault>
    requires { L.is_closed desk.old ≡ false }
    ensures value { L.is_trusted desk.new → (M : Catalogue) → L.shows desk.old M
        → Delivers (L.has_failed desk.new) result (K.stream sink.old) (K.stream sink.new) (flat_map (octets_at_place query.now M.items) places.now) }
    ensures desk { Stays L.shows L.leaves_one_of L.keeps_beside L.is_trusted L.is_closed desk.old desk.new }
{
    for place in places {
        match put_at(desk, *place, query, sink) {
            Ok(()) => {}
            Err(fault) => return Err(fault),
        }
    }
    Ok(())
}

// Puts the line that tells how many rows follow.
fn put_count<K: Sink>(what: What, count: u64, sink: &mut K) -> Result<(), SinkFault>
    ensures { Puts result (K.stream sink.old) (K.stream sink.new) (count_octets what count) }
{
    match what {
        What::Entries => write_reply(sink, &Reply::DefinitionCount(count)),
        What::Headwords => write_reply(sink, &Reply::MatchCount(count)),
    }
}

// Puts what follows the rows.
fn put_end<K: Sink>(what: What, sink: &mut K) -> Result<(), SinkFault>
    ensures { Puts result (K.stream sink.old) (K.stream sink.new) (end_octets what) }
{
    match what {
        What::Entries => write_reply(sink, &Reply::Done),
        What::Headwords => put_list_end(sink),
    }
}

// Puts an answer of so many rows, from these places.
fn put_counted<L: Lookup, K: Sink>(
    desk: &mut L,
    counted: &CountedRows,
    query: &Query,
    sink: &mut K,
) -> Result<LineAnswer, PutFault>
    requires { L.is_closed desk.old ≡ false }
    ensures value { L.is_trusted desk.new → (M : Catalogue) → L.shows desk.old M
        → PutsAnswer (L.has_failed desk.new) result (K.stream sink.old) (K.stream sink.new) (counted_octets query.now M.items counted.now.places.items counted.now.count) (counted_rows query.now.what) true }
    ensures desk { Stays L.shows L.leaves_one_of L.keeps_beside L.is_trusted L.is_closed desk.old desk.new }
{
    match put_count(query.what, counted.count, sink) {
        Ok(()) => {}
        Err(_) => return Err(PutFault::Sink),
    }
    match put_places(desk, counted.places.as_slice(), query, sink) {
        Ok(()) => {}
        Err(fault) => return Err(fault),
    }
    whole(put_end(query.what, sink))
}

// Puts what a query finds in the databases that are asked.
pub(crate) fn put_found<L: Lookup, K: Sink>(
    desk: &mut L,
    asked: Asked,
    query: &Query,
    sink: &mut K,
) -> Result<LineAnswer, PutFault>
    requires { L.is_closed desk.old ≡ false }
    ensures value { L.is_trusted desk.new → (M : Catalogue) → L.shows desk.old M → length asked.places.items ≤ 64
        → PutsAnswer (L.has_failed desk.new) result (K.stream sink.old) (K.stream sink.new) (found_octets query.now M.items (answering query.now M.items asked.places.items asked.is_first)) (counted_rows query.now.what) true }
    ensures desk { Stays L.shows L.leaves_one_of L.keeps_beside L.is_trusted L.is_closed desk.old desk.new }
{
    let Ok(counted) = count_asked(desk, asked, query) else {
        return put_unavailable(sink);
    };
    if counted.count == 0 {
        return put_whole(&Reply::NoMatch, sink);
    }
    put_counted(desk, &counted, query, sink)
}
