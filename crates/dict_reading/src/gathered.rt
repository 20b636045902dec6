// What the lines of an index so far say, by where they say it.
ghost use Rattle.std.specs.Prelude.{◌≡◌, ◌+◌, ◌≤◌, ◌<◌, ◌^◌, ◌++◌, ◌∷◌, [], ℕ, List, IfErr, IfOk, IfSome, OnErr, OnOk, length, drop};
ghost use Rattle.std.specs.BTreeMap.{get_by_text};
ghost use Rattle.std.specs.Option.{option_map};
ghost use Rattle.std.specs.Str.{IsUtf8};
ghost use Rattle.dict_index.specs.Cuts.{HasNo};
ghost use Rattle.dict_index.specs.Limits.{most_octets};
ghost use Rattle.dict_index.specs.Line.{Line, IsLine};
ghost use Rattle.dict_index.specs.Views.{octets_of};
ghost use Rattle.dict_index.specs.Refusals.{line_tests};
ghost use Rattle.dict_index.specs.Refused.{PassesEach};
ghost use Rattle.dict_index.specs.Reserved.{is_reserved};
ghost use Rattle.dict_index.specs.Tests.{PassesLine};
ghost use Rattle.dict_index.specs.declared.fault.EditionRefusal.TheVariants.{ReservedTwice};
ghost use Rattle.dict_reading.specs.Lines.{FailsBehind};
ghost use Rattle.dict_reading.specs.Places.{line_in, octets_at, LiesBelow};

use crate::columns::said_in;
use crate::line::{EditionLineFault, test_line};
use crate::places::{EntryPlace, place_of};
use dict_index::{EditionRefusal, cut_out};
use dict_match::reserved_key_of;
use std::alloc::Global;
use std::collections::BTreeMap;
use std::str;

/// Where the lines so far say their entries, and the texts of the known reserved keys.
#[derive(Drop)]
pub(crate) struct GatheredPlaces {
    pub entries: Vec<EntryPlace>,
    pub reserved: BTreeMap<String, EntryPlace>,
}

// Whether a key is reserved.
fn is_reserved_key(key: &[u8]) -> bool
    ensures { result ≡ is_reserved key.now }
{
    key.starts_with(b"00database".as_slice())
}

// The octets of a text, as text.
pub(crate) fn as_text(octets: &[u8]) -> &str
    requires { IsUtf8 octets.now }
    ensures { result.now ≡ octets.now }
{
    match str::from_utf8(octets) {
        Ok(text) => text,
        Err(_) => unreachable!(),
    }
}

impl GatheredPlaces {
    ghost use Rattle.dict_reading.specs.Gathered.{HasGatheredPlaces, HasTextIn, IsTwice};

    /// Nothing yet.
    pub(crate) fn new(alloc: Global) -> Self
        ensures { (index text : List ℕ) → HasGatheredPlaces index text [] result }
    {
        GatheredPlaces {
            entries: Vec::new(alloc),
            reserved: BTreeMap::new(alloc),
        }
    }

    // Adds where a line says its entry, or its text where its key is reserved. The line passes the tests of a first line.
    fn add(
        &mut self,
        alloc: Global,
        headword: &str,
        place: EntryPlace,
    ) -> Result<(), EditionLineFault>
        ensures added { OnOk result ((index text : List ℕ) (lines : List (List ℕ)) (line : List ℕ) → IsLine line (line_in index place) → (line_in index place).headword ≡ headword.now → LiesBelow (length index) place
            → PassesEach line_tests text [] line → HasGatheredPlaces index text lines self.old → HasGatheredPlaces index text (lines ++ line ∷ []) self.new) }
        ensures once { OnOk result ((index text : List ℕ) (lines : List (List ℕ)) (line : List ℕ) → IsLine line (line_in index place) → (line_in index place).headword ≡ headword.now
            → PassesEach line_tests text [] line → HasGatheredPlaces index text lines self.old → PassesLine ReservedTwice text lines line) }
        ensures refused { IfErr result (λ fault. (index text : List ℕ) (lines : List (List ℕ)) (line : List ℕ) → IsLine line (line_in index place) → (line_in index place).headword ≡ headword.now
            → PassesEach line_tests text [] line → HasGatheredPlaces index text lines self.old → IsTwice fault text lines line) }
        ensures kept { OnErr result ((index text : List ℕ) (lines : List (List ℕ)) → HasGatheredPlaces index text lines self.old → HasGatheredPlaces index text lines self.new) }
    {
        let Ok(key) = reserved_key_of(alloc, headword) else {
            return Err(EditionLineFault::Memory);
        };
        if !is_reserved_key(key.as_bytes()) {
            let Ok(()) = self.entries.push(place) else {
                return Err(EditionLineFault::Memory);
            };
            return Ok(());
        }
        let name = as_text(key.as_bytes());
        if self.reserved.contains_key(name) {
            return Err(EditionLineFault::Refused(EditionRefusal::ReservedTwice));
        }
        let Ok(owned) = String::from_str(alloc, name) else {
            return Err(EditionLineFault::Memory);
        };
        let Ok(_) = self.reserved.insert(owned, place) else {
            return Err(EditionLineFault::Memory);
        };
        Ok(())
    }

    // Tests the line that begins at this place of an index, and adds what it says. The line is given with its LF too. It answers how
    // many octets the line's body has.
    pub(crate) fn take(
        &mut self,
        alloc: Global,
        start: usize,
        line: &[u8],
        whole: &[u8],
        text: &[u8],
    ) -> Result<usize, EditionLineFault>
        requires room { start + length line.now < 2 ^ 64 }
        requires whole { whole.now ≡ line.now ++ 10 ∷ [] }
        requires none { HasNo 10 line.now }
        requires utf8 { IsUtf8 whole.now }
        requires short { length text.now ≤ most_octets }
        ensures added { OnOk result ((index behind : List ℕ) (lines : List (List ℕ)) → drop start index ≡ line.now ++ behind → start + length line.now ≤ length index
            → HasGatheredPlaces index text.now lines self.old → HasGatheredPlaces index text.now (lines ++ line.now ∷ []) self.new) }
        ensures passes { OnOk result ((index behind : List ℕ) (lines : List (List ℕ)) → drop start index ≡ line.now ++ behind → HasGatheredPlaces index text.now lines self.old → PassesEach line_tests text.now lines line.now) }
        ensures refused { IfErr result (λ fault. (index behind : List ℕ) (lines : List (List ℕ)) → drop start index ≡ line.now ++ behind → HasGatheredPlaces index text.now lines self.old → FailsBehind fault text.now lines line.now) }
        ensures kept { OnErr result ((index text : List ℕ) (lines : List (List ℕ)) → HasGatheredPlaces index text lines self.old → HasGatheredPlaces index text lines self.new) }
        ensures size { IfOk result (λ size. ((said : Line) → IsLine line.now said → said.size ≡ size) × (size < 64 ^ 6)) }
    {
        if let Err(fault) = test_line(alloc, whole, text) {
            return Err(fault);
        }
        let Some(said) = said_in(line) else {
            unreachable!()
        };
        let headword = as_text(said.headword);
        let place = place_of(start, line, said);
        match self.add(alloc, headword, place) {
            Ok(()) => Ok(said.size as usize),
            Err(fault) => Err(fault),
        }
    }

    /// The text under a key that is reserved, where one of the lines says one.
    pub(crate) fn text_at<'a>(&self, text: &'a [u8], key: &str) -> Option<&'a str>
        requires { (name : List ℕ) → IfSome (get_by_text self.now.reserved name) (HasTextIn text.now) }
        ensures { octets_of result ≡ option_map (λ place. octets_at text.now place.offset place.size) (get_by_text self.now.reserved key.now) }
    {
        let Some(place) = self.reserved.get(key) else {
            return None;
        };
        let Some(octets) = cut_out(text, place.offset as u64, place.size as u64) else {
            unreachable!()
        };
        Some(as_text(octets))
    }
}
