// An edition that is kept in memory.
ghost use Rattle.std.specs.Prelude.{◌≡◌, ◌≤◌, ◌==◌, not, filter, IfOk, option_map, length, vec_capacity, vec_len};
ghost use Rattle.std.specs.List.{list_any};
ghost use Rattle.dict_desk.specs.Plain.{edition_by_number};
ghost use Rattle.dict_index.specs.Edition.{edition_of};
ghost use Rattle.dict_index.specs.Found.{is_found, found_rows, headword_rows, info_rows};
ghost use Rattle.dict_desk.specs.PlainEntries.{LieWithin};
ghost use Rattle.dict_desk.specs.declared.lookup.What.TheVariants.{Entries, Headwords};
ghost use Rattle.dict_desk.specs.Shown.{rows_given, count_of};

use crate::entries::{
    EntryHits, OwnedEntry, PlaceSpan, hand_found, hand_headwords, hits_among, owned_entries,
};
use crate::lookup::{End, What};
use crate::sink::{Demand, Row, RowSink};
use dict_index::Edition;
use dict_match::Strategy;
use std::alloc::{AllocError, Global};
use std::marker::Model;

/// An edition with its number: one text, and the entries with their keys, each linked to the last one before it that
/// shows the same text.
#[derive(Drop)]
pub(crate) struct PlainEdition {
    number: u64,
    title: String,
    info: String,
    text: Vec<u8>,
    entries: Vec<OwnedEntry>,
}

impl Model for PlainEdition {
    ghost use Rattle.std.specs.Prelude.{map, string_bytes};
    ghost use Rattle.std.specs.List.{AllByRecursion};
    ghost use Rattle.dict_index.specs.Edition.{Edition};
    ghost use Rattle.dict_catalogue.specs.Items.{Stored};
    ghost use Rattle.dict_desk.specs.PlainEntries.{entry_cut_from, IsKeyedByHeadword, AreLinked};

    ghost Value = { Stored Edition };

    ghost view = { λ e. record { number = e.number; content = record { title = string_bytes e.title; info = string_bytes e.info; entries = map (entry_cut_from e.text.items) e.entries.items } } };

    ghost invariant = { λ e. AllByRecursion IsKeyedByHeadword e.entries.items × AreLinked e.entries.items };
}

// The edition of this number.
pub(crate) fn edition_numbered(editions: &[PlainEdition], number: u64) -> Option<&PlainEdition>
    ensures { option_map (λ edition. edition.now) result ≡ edition_by_number number editions.now }
{
    editions.iter().find(|edition| edition.number() == number)
}

// Takes out the editions of these numbers.
pub(crate) fn take_out(editions: &mut Vec<PlainEdition>, gone: &[u64])
    ensures items { editions.new.items ≡ filter (λ stored. not (list_any (λ one. one == stored.number) gone.now)) editions.old.items }
    ensures capacity { vec_capacity editions.new ≡ vec_capacity editions.old }
    ensures len { vec_len editions.new ≤ vec_len editions.old }
{
    editions.retain(|edition| !gone.contains(&edition.number()));
}

impl PlainEdition {
    /// The edition, with memory of its own.
    pub(crate) fn new(alloc: Global, number: u64, edition: &Edition) -> Result<Self, AllocError>
        ensures { IfOk result (λ plain. plain ≡ record { number = number; content = edition_of edition.now }) }
    {
        Ok(PlainEdition {
            number,
            title: String::from_str(alloc, edition.title())?,
            info: String::from_str(alloc, edition.info())?,
            text: Vec::from_slice(alloc, edition.text())?,
            entries: owned_entries(alloc, edition.entries())?,
        })
    }

    pub(crate) fn number(&self) -> u64
        ensures { result ≡ self.now.number }
    {
        self.number
    }

    // What a query finds.
    pub(crate) fn hits(&self, strategy: Strategy, query: &[u8]) -> EntryHits
        ensures entries { result.entries ≡ count_of Entries strategy query.now self.now.content }
        ensures headwords { result.headwords ≡ count_of Headwords strategy query.now self.now.content }
        ensures within { LieWithin (is_found strategy query.now) self.now.content.entries result.span.first result.span.end }
    {
        hits_among(&self.entries, strategy, query)
    }

    // Hands out the entries that a query finds, all of which lie in the span, or the headwords shown of them.
    pub(crate) fn find<T: RowSink>(
        &self,
        span: PlaceSpan,
        strategy: Strategy,
        query: &[u8],
        what: What,
        sink: &mut T,
    ) -> End
        requires { LieWithin (is_found strategy query.now) self.now.content.entries span.first span.end }
        ensures all { result ≡ End.All → T.takes sink.old (rows_given what strategy query.now self.now.content) sink.new }
        ensures stopped { result ≡ End.Stopped → T.stops sink.old (rows_given what strategy query.now self.now.content) sink.new }
    {
        match what {
            What::Entries => self.find_entries(span, strategy, query, sink),
            What::Headwords => self.find_headwords(span, strategy, query, sink),
        }
    }

    // Hands out the entries that a query finds, all of which lie in the span.
    fn find_entries<T: RowSink>(
        &self,
        span: PlaceSpan,
        strategy: Strategy,
        query: &[u8],
        sink: &mut T,
    ) -> End
        requires { LieWithin (is_found strategy query.now) self.now.content.entries span.first span.end }
        ensures all { result ≡ End.All → T.takes sink.old (found_rows strategy query.now self.now.content) sink.new }
        ensures stopped { result ≡ End.Stopped → T.stops sink.old (found_rows strategy query.now self.now.content) sink.new }
    {
        hand_found(
            &self.text,
            &self.entries[span.first..span.end],
            strategy,
            query,
            sink,
        )
    }

    // Hands out the headwords shown of the entries that a query finds, all of which lie in the span.
    fn find_headwords<T: RowSink>(
        &self,
        span: PlaceSpan,
        strategy: Strategy,
        query: &[u8],
        sink: &mut T,
    ) -> End
        requires { LieWithin (is_found strategy query.now) self.now.content.entries span.first span.end }
        ensures all { result ≡ End.All → T.takes sink.old (headword_rows strategy query.now self.now.content) sink.new }
        ensures stopped { result ≡ End.Stopped → T.stops sink.old (headword_rows strategy query.now self.now.content) sink.new }
    {
        hand_headwords(&self.entries, span, strategy, query, sink)
    }

    // The span of all entries.
    pub(crate) fn whole(&self) -> PlaceSpan
        ensures first { result.first ≡ 0 }
        ensures end { result.end ≡ length self.now.content.entries }
    {
        PlaceSpan {
            first: 0,
            end: self.entries.len(),
        }
    }

    // Hands out what the database says of itself.
    pub(crate) fn info<T: RowSink>(&self, sink: &mut T) -> End
        ensures all { result ≡ End.All → T.takes sink.old (info_rows self.now.content) sink.new }
        ensures stopped { result ≡ End.Stopped → T.stops sink.old (info_rows self.now.content) sink.new }
    {
        let row = Row {
            shown: "",
            text: self.info.as_bytes(),
        };
        match sink.take(row) {
            Demand::More => End::All,
            Demand::Stop => End::Stopped,
        }
    }
}
