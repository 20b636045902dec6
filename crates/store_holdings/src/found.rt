// What is found in an index, handed out.
ghost use Rattle.std.specs.Prelude.{◌≡◌, ◌<◌, ◌^◌, ℕ, List, [], ◌∷◌, map, length, Ok, OnOk, OnErr};
ghost use Rattle.sqlite.specs.State.{HasCleanDisk};
ghost use Rattle.sqlite.specs.Held.{state};
ghost use Rattle.store_tables.specs.Effects.{Has, WhileOpen};
ghost use Rattle.store_sql.specs.PartTable.{part as part_table};
ghost use Rattle.dict_index.specs.Found.{Row as ShownRow};
ghost use Rattle.dict_desk.specs.Handing.{Hands};
ghost use Rattle.store_search.specs.Entries.{entry_at, entries_at, row_in, headword_row, indexed_shown};
ghost use Rattle.store_holdings.specs.Searches.{ReadsStore};
ghost use Rattle.store_holdings.specs.CutTexts.{HasText, IsAtMostRead, FailsToFind, KeepsParts};
ghost use Rattle.store_holdings.specs.Taken.{more_taken};

use crate::parts::body;
use crate::texts::TextParts;
use dict_desk::{Demand, End, Fault, Row, RowSink};
use sqlite::{Alter, Connection};
use std::alloc::Global;
use store_search::Index;

// Hands out the entry at a place, with its text.
fn hand_entry<S: Alter, T: RowSink>(
    alloc: Global,
    conn: &mut Connection<S>,
    texts: &mut TextParts,
    installs: u64,
    number: u64,
    index: &Index,
    place: u32,
    sink: &mut T,
    rows_taken: &mut u64,
) -> Result<Demand, Fault>
    requires { WhileOpen (state S.Store conn.old) (Has part_table) }
    ensures more { HasCleanDisk (state S.Store conn.new) → (text : List ℕ) → length text < 64 ^ 6 → HasText (state S.Store conn.old) number text texts.old → result ≡ Ok Demand.More → T.takes sink.old (row_in text (entry_at index.now place) ∷ []) sink.new }
    ensures stop { HasCleanDisk (state S.Store conn.new) → (text : List ℕ) → length text < 64 ^ 6 → HasText (state S.Store conn.old) number text texts.old → result ≡ Ok Demand.Stop → T.stops sink.old (row_in text (entry_at index.now place) ∷ []) sink.new }
    ensures handed { (row : ShownRow) × (result ≡ Ok Demand.More → T.takes sink.old (row ∷ []) sink.new) × (result ≡ Ok Demand.Stop → T.stops sink.old (row ∷ []) sink.new) }
    ensures none { OnErr result (sink.new ≡ sink.old) }
    ensures counted { OnOk result ((read : ℕ) × (rows_taken.new ≡ more_taken rows_taken.old read)) }
    ensures reads { ReadsStore S.Store (IsAtMostRead S.Store) (FailsToFind S.Store number) conn.old conn.new result }
    ensures keeps { KeepsParts S.Store installs number conn.old conn.new texts.old texts.new }
{
    let entry = index.entry(place);
    match body(
        alloc,
        conn,
        texts,
        installs,
        number,
        entry.start,
        entry.size,
        rows_taken,
    ) {
        Ok(octets) => Ok(sink.take(Row {
            shown: entry.shown,
            text: octets.as_slice(),
        })),
        Err(fault) => Err(fault),
    }
}

// Hands out the entries at these places, each with its text, and counts them. It counts the rows that statements hand over, too.
pub(crate) fn hand_found<S: Alter, T: RowSink>(
    alloc: Global,
    conn: &mut Connection<S>,
    texts: &mut TextParts,
    installs: u64,
    number: u64,
    index: &Index,
    places: &[u32],
    sink: &mut T,
    handed: &mut u64,
    rows_taken: &mut u64,
) -> Result<End, Fault>
    requires { WhileOpen (state S.Store conn.old) (Has part_table) }
    ensures value { HasCleanDisk (state S.Store conn.new) → (text : List ℕ) → length text < 64 ^ 6 → HasText (state S.Store conn.old) number text texts.old → Hands T.takes T.stops sink.old sink.new (map (row_in text) (entries_at index.now places.now)) result }
    ensures handed { (rows : List ShownRow) × Hands T.takes T.stops sink.old sink.new rows result }
    ensures counted { OnOk result ((read : ℕ) × (rows_taken.new ≡ more_taken rows_taken.old read)) }
    ensures reads { ReadsStore S.Store (IsAtMostRead S.Store) (FailsToFind S.Store number) conn.old conn.new result }
    ensures keeps { KeepsParts S.Store installs number conn.old conn.new texts.old texts.new }
{
    let _taken = *rows_taken;
    for place in places {
        *handed = handed.saturating_add(1);
        let demand = hand_entry(
            alloc, conn, texts, installs, number, index, *place, sink, rows_taken,
        )?;
        if let Demand::Stop = demand {
            return Ok(End::Stopped);
        }
    }
    Ok(End::All)
}

// Hands out what is shown of the entry at a place.
fn hand_shown<T: RowSink>(index: &Index, place: u32, sink: &mut T) -> Demand
    ensures more { result ≡ Demand.More → T.takes sink.old (headword_row (indexed_shown (entry_at index.now place)) ∷ []) sink.new }
    ensures stop { result ≡ Demand.Stop → T.stops sink.old (headword_row (indexed_shown (entry_at index.now place)) ∷ []) sink.new }
{
    let entry = index.entry(place);
    sink.take(Row {
        shown: entry.shown,
        text: b"",
    })
}

// Hands out what is shown of the entries at these places.
pub(crate) fn hand_headwords<T: RowSink>(index: &Index, places: &[u32], sink: &mut T) -> End
    ensures all { result ≡ End.All → T.takes sink.old (map headword_row (map indexed_shown (entries_at index.now places.now))) sink.new }
    ensures stopped { result ≡ End.Stopped → T.stops sink.old (map headword_row (map indexed_shown (entries_at index.now places.now))) sink.new }
{
    for place in places {
        if let Demand::Stop = hand_shown(index, *place, sink) {
            return End::Stopped;
        }
    }
    End::All
}
