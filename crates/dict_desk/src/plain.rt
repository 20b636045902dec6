// A catalogue in memory.
ghost use Rattle.std.specs.Prelude.{◌≡◌, ◌<◌, ◌++◌, ℕ, List, [], true, false, None, Some, IfSome, IfOk, IfErr, OnOk, OnErr, if◌then◌else◌, length, option_map, vec_len, vec_capacity};
ghost use Rattle.std.specs.BTreeMap.{get_by_text};
ghost use Rattle.std.specs.List.{cons_option};
ghost use Rattle.std.specs.Str.{bytes_eq};
ghost use Rattle.dict_text.specs.Names.{is_request_id};
ghost use Rattle.dict_index.specs.Edition.{Edition};
ghost use Rattle.dict_catalogue.specs.Steps.{empty_catalogue, kept_under, step};
ghost use Rattle.dict_catalogue.specs.Views.{command_meant, kept_shown, IsChangeOf};
ghost use Rattle.dict_desk.specs.Shown.{HasEdition};
ghost use Rattle.dict_desk.specs.Applying.{Applies};
ghost use Rattle.dict_desk.specs.Plain.{filed_shown, newly_installed};
ghost use Rattle.dict_desk.specs.PlainEntries.{LieWithin};
ghost use Rattle.dict_index.specs.Found.{is_found};

use crate::counted::{CountedQuestion, span_of};
use crate::edition::{PlainEdition, edition_numbered, take_out};
use crate::entries::PlaceSpan;
use crate::fault::Fault;
use crate::keeper::Keeper;
use crate::lookup::{End, Lookup, What};
use crate::replies::{Filed, copied, file_under, note_place};
use crate::sink::RowSink;
use dict_catalogue::{Command, CommandRefusal, Kept, PlanFault, PlannedChange, Summary, plan};
use dict_match::{Key, Strategy};
use dict_text::is_request_id;
use std::alloc::{AllocError, Global};
use std::collections::BTreeMap;
use std::marker::Model;

/// A catalogue in memory: its summary, the editions that the summary names, and the kept replies in order, with their
/// places by their ids; and the question that was counted last. Contracts see it as the catalogue, and as whether its
/// last call failed. A stop leaves nothing of it.
pub struct PlainDesk {
    alloc: Global,
    summary: Summary,
    editions: Vec<PlainEdition>,
    replies: Vec<Filed>,
    places: BTreeMap<String, usize>,
    counted: Option<CountedQuestion>,
    has_failed: bool,
}

// It is written out, so that what owns one doesn't prove again how each part is dropped.
impl Drop for PlainDesk {
    fn drop(self) {
        let PlainDesk {
            alloc: _,
            summary: _,
            editions: _,
            replies: _,
            places: _,
            counted: _,
            has_failed: _,
        } = self;
    }
}

impl Model for PlainDesk {
    ghost use Rattle.std.specs.BTreeMap.{get_by_text};
    ghost use Rattle.dict_catalogue.specs.Views.{summary_shown};
    ghost use Rattle.dict_desk.specs.Plain.{PlainState, catalogue_from, AreInStep, HoldsSpan};
    ghost use Rattle.std.specs.Prelude.{IfSome};

    ghost Value = { PlainState };

    ghost view = { λ d. record { catalogue = catalogue_from (summary_shown d.summary) d.editions.items d.replies.items; has_failed = d.has_failed } };

    ghost invariant = { λ d. AreInStep (summary_shown d.summary) d.editions.items d.replies.items (get_by_text d.places) × IfSome d.counted (HoldsSpan d.editions.items) };
}

impl PlainDesk {
    /// A desk that keeps the empty catalogue. No memory is taken.
    pub fn new(alloc: Global) -> Self
        ensures { result ≡ record { catalogue = empty_catalogue; has_failed = false } }
    {
        PlainDesk {
            alloc,
            summary: Summary::new(alloc),
            editions: Vec::new(alloc),
            replies: Vec::new(alloc),
            places: BTreeMap::new(alloc),
            counted: None,
            has_failed: false,
        }
    }

    // The edition of this number.
    fn edition(&self, number: u64) -> Option<&PlainEdition>
        ensures { (edition : Edition) → HasEdition self.now.catalogue number edition → option_map (λ found. found.now) result ≡ Some (record { number = number; content = edition }) }
    {
        edition_numbered(&self.editions, number)
    }

    // The edition of this number, and the span in which all its entries lie that the query finds.
    fn asked(
        &self,
        number: u64,
        strategy: Strategy,
        query: &Key,
    ) -> Option<(&PlainEdition, PlaceSpan)>
        ensures same { (edition : Edition) → HasEdition self.now.catalogue number edition → option_map (λ found. found.0.now) result ≡ Some (record { number = number; content = edition }) }
        ensures within { IfSome result (λ found. LieWithin (is_found strategy query.now) found.0.now.content.entries found.1.first found.1.end) }
    {
        let edition = edition_numbered(&self.editions, number)?;
        let span = span_of(self.counted.as_ref(), edition, strategy, query);
        Some((edition, span))
    }

    // A copy of the reply that is kept under the id.
    fn reply(&self, id: &str) -> Result<Option<Kept>, AllocError>
        ensures { IfOk result (λ reply. option_map kept_shown reply ≡ kept_under self.now.catalogue.kept id.now) }
    {
        match self.places.get(id) {
            Some(place) => {
                let filed = &self.replies[*place];
                Ok(Some(copied(self.alloc, &filed.reply)?))
            }
            None => Ok(None),
        }
    }
}

// The edition that a command installs, under this number.
fn installed(
    alloc: Global,
    command: &Command,
    number: u64,
) -> Result<Option<PlainEdition>, AllocError>
    ensures { IfOk result (λ edition. cons_option edition [] ≡ newly_installed number (command_meant command.now)) }
{
    match command {
        Command::Install { edition, .. } => Ok(Some(PlainEdition::new(alloc, number, edition)?)),
        Command::Rollback { .. }
        | Command::Retire { .. }
        | Command::PutVirtual { .. }
        | Command::Place { .. } => Ok(None),
    }
}

// What a command adds: the edition that it installs, if it installs one, and its reply under the id.
fn coming(
    alloc: Global,
    id: &str,
    command: &Command,
    change: &PlannedChange,
) -> Result<(Option<PlainEdition>, Filed), AllocError>
    ensures edition { IfOk result (λ made. cons_option made.0 [] ≡ newly_installed change.now.summary.installs (command_meant command.now)) }
    ensures filed { IfOk result (λ made. filed_shown made.1 ≡ record { id = id.now; reply = kept_shown change.now.kept }) }
{
    let edition = installed(alloc, command, change.summary.installs)?;
    match file_under(alloc, id, &change.kept) {
        Ok(filed) => Ok((edition, filed)),
        Err(fault) => {
            drop(edition);
            Err(fault)
        }
    }
}

// Makes room for one more edition and one more reply, whose place is noted under the id.
fn make_room(
    alloc: Global,
    editions: &mut Vec<PlainEdition>,
    replies: &mut Vec<Filed>,
    places: &mut BTreeMap<String, usize>,
    id: &str,
) -> Result<(), AllocError>
    ensures editions { editions.new.items ≡ editions.old.items }
    ensures replies { replies.new.items ≡ replies.old.items }
    ensures edition_room { OnOk result (vec_len editions.new < vec_capacity editions.new) }
    ensures reply_room { OnOk result (vec_len replies.new < vec_capacity replies.new) }
    ensures noted { OnOk result ((text : List ℕ) → get_by_text places.new text ≡ (if bytes_eq id.now text then Some (length replies.old.items) else get_by_text places.old text)) }
    ensures same { OnErr result ((text : List ℕ) → get_by_text places.new text ≡ get_by_text places.old text) }
{
    editions.reserve(1)?;
    replies.reserve(1)?;
    let place = replies.len();
    note_place(alloc, places, id, place)
}

// Adds the edition, for which there is room, if there is one.
fn put(editions: &mut Vec<PlainEdition>, edition: Option<PlainEdition>)
    requires { vec_len editions.old < vec_capacity editions.old }
    ensures { editions.new.items ≡ editions.old.items ++ cons_option edition [] }
{
    if let Some(edition) = edition {
        editions.push_reserved(edition);
    }
}

impl PlainDesk {
    ghost use Rattle.dict_desk.specs.Faults.{IsOfLists};

    // Does what the command was planned to do, and keeps its reply. All memory is taken before anything is changed.
    fn accept(
        &mut self,
        id: &str,
        command: &Command,
        change: PlannedChange,
    ) -> Result<Kept, AllocError>
        requires id { is_request_id id.now ≡ true }
        requires unused { kept_under self.old.catalogue.kept id.now ≡ None }
        requires planned { IsChangeOf self.old.catalogue (step self.old.catalogue id.now (command_meant command.now)) change }
        ensures reply { IfOk result (λ kept. kept_shown kept ≡ kept_shown change.kept) }
        ensures after { OnOk result (self.new.catalogue ≡ (step self.old.catalogue id.now (command_meant command.now)).catalogue) }
        ensures same { OnErr result (self.new.catalogue ≡ self.old.catalogue) }
    {
        command.is_lawful();
        self.counted = None;
        let (edition, filed) = match coming(self.alloc, id, command, &change) {
            Ok(coming) => coming,
            Err(fault) => {
                drop(change);
                return Err(fault);
            }
        };
        if let Err(fault) = make_room(
            self.alloc,
            &mut self.editions,
            &mut self.replies,
            &mut self.places,
            id,
        ) {
            drop(edition);
            drop(filed);
            drop(change);
            return Err(fault);
        }
        self.replies.push_reserved(filed);
        take_out(&mut self.editions, change.gone.as_slice());
        put(&mut self.editions, edition);
        let PlannedChange {
            summary,
            gone,
            kept,
        } = change;
        drop(gone);
        self.summary = summary;
        Ok(kept)
    }

    // Applies a command, or refuses it.
    fn applied(&mut self, id: &str, command: &Command) -> Result<Kept, Fault>
        ensures value { Applies (λ M. self.new.catalogue ≡ M) self.old.catalogue (step self.old.catalogue id.now (command_meant command.now)) result }
        ensures kinds { IfErr result IsOfLists }
    {
        if !is_request_id(id) {
            return Err(Fault::Refused(CommandRefusal::BadRequestId));
        }
        if let Some(reply) = self.reply(id)? {
            return Ok(reply);
        }
        match plan(self.alloc, &self.summary, command) {
            Ok(change) => Ok(self.accept(id, command, change)?),
            Err(PlanFault::Refused(refusal)) => Err(Fault::Refused(refusal)),
            Err(PlanFault::Memory) => Err(Fault::Memory),
        }
    }
}

impl Lookup for PlainDesk {
    ghost use Rattle.std.specs.Prelude.{◌≡◌, true, false, refl};
    ghost use Rattle.dict_catalogue.specs.WellFormed.{IsWellFormed};
    ghost use Rattle.dict_desk.specs.Plain.{WantsMemory};

    ghost shows = { λ s M. (M ≡ s.catalogue) × IsWellFormed M };

    ghost leaves_one_of = { λ _ _. Unit {0} };

    ghost Beside = { Unit {0} };

    ghost keeps_beside = { λ _ _. Unit {0} };

    ghost is_trusted = { λ _. Unit {0} };

    ghost looks_at = { λ _ _ _. Unit {0} };

    ghost is_closed = { λ _. false };

    ghost has_failed = { λ s. s.has_failed };

    ghost gives_way = { WantsMemory };

    fn summary(&self) -> Result<&Summary, Fault> {
        Ok(&self.summary)
    }

    fn info<T: RowSink>(&mut self, number: u64, sink: &mut T) -> Result<End, Fault> {
        self.has_failed = false;
        match self.edition(number) {
            Some(edition) => Ok(edition.info(sink)),
            None => Ok(End::All),
        }
    }

    fn count(
        &mut self,
        number: u64,
        strategy: Strategy,
        query: &Key,
        what: What,
    ) -> Result<u64, Fault> {
        self.has_failed = false;
        let Some(edition) = edition_numbered(&self.editions, number) else {
            return Ok(0);
        };
        let hits = edition.hits(strategy, query.as_bytes());
        self.counted = CountedQuestion::note(number, strategy, query, hits.span);
        Ok(match what {
            What::Entries => hits.entries,
            What::Headwords => hits.headwords,
        })
    }

    fn find<T: RowSink>(
        &mut self,
        number: u64,
        strategy: Strategy,
        query: &Key,
        what: What,
        sink: &mut T,
    ) -> Result<End, Fault> {
        self.has_failed = false;
        match self.asked(number, strategy, query) {
            Some((edition, span)) => {
                Ok(edition.find(span, strategy, query.as_bytes(), what, sink))
            }
            None => Ok(End::All),
        }
    }

    ghost well_formed = { λ s M h. h.1 };

    ghost wider = { λ s ms ns h left. left };

    ghost still_open = { λ s h. refl };
}

impl Keeper for PlainDesk {
    ghost use Rattle.dict_catalogue.specs.Steps.{step};
    ghost use Rattle.dict_desk.specs.Applying.{Applies};
    ghost use Rattle.dict_desk.specs.Plain.{WantsMemory};

    ghost applies = { λ old request result new. Applies (λ M. new.catalogue ≡ M) old.catalogue (step old.catalogue request.id request.command) result };

    ghost fails_to_apply = { λ old _ new. WantsMemory old new };

    fn kept(&mut self, id: &str) -> Result<Option<Kept>, Fault> {
        let reply = self.reply(id);
        self.has_failed = reply.is_err();
        Ok(reply?)
    }

    fn apply(&mut self, id: &str, command: &Command) -> Result<Kept, Fault> {
        let answer = self.applied(id, command);
        self.has_failed = match &answer {
            Ok(_) => false,
            Err(fault) => fault.is_failure(),
        };
        answer
    }
}
