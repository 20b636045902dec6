// What a desk prepares of a change that may come.
ghost use Rattle.std.specs.Prelude.{◌≡◌, ◌≢◌, ◌⊎◌, true, false, IsTrue, IfErr, IfSome, None, Ok, OnErr, Option, Some};
ghost use Rattle.sqlite.specs.Disk.{MoreFaults};
ghost use Rattle.sqlite.specs.State.{HasCleanDisk, KeepsCommit, Survives};
ghost use Rattle.sqlite.specs.Held.{state};
ghost use Rattle.store_commands.specs.Committed.{IsOfStore};
ghost use Rattle.dict_catalogue.specs.Views.{summary_shown};
ghost use Rattle.store_commands.specs.Changes.{IsInRange};
ghost use Rattle.store_commands.specs.Answers.{HoldsBy};
ghost use Rattle.store_commands.specs.Filing.{HasNoneFiled, IsDrawnUp};
ghost use Rattle.store_commands.specs.Marking.{Remains};
ghost use Rattle.store_holdings.specs.Committed.{IsCommitted, IsTreesOf};
ghost use Rattle.store_desk.specs.Causes.{FailsToPrepare};
ghost use Rattle.store_desk.specs.Desk.{HasFiled, has_failed, is_closed};
ghost use Rattle.store_commands.specs.Left.{IsLess};
ghost use Rattle.store_desk.specs.Left.{HasForgotten, coming_left, install_left, reading_left, recounted};
ghost use Rattle.store_desk.specs.Prepared.{HasCommittedSame, KeepsDesk, last_behind};

use crate::adopting::is_whole;
use crate::coming::Coming;
use crate::desk::Desk;
use crate::kept::{forget_behind, forget_by};
use crate::last::LastCall;
use crate::laws::committed_may_stay;
use crate::orphans::Orphans;
use crate::withdrawing::let_go;
use dict_catalogue::{Command, Summary};
use dict_desk::{Answered, Fault, Preparer};
use dict_index::one_meaning;
use sqlite::{Alter, Connection};
use std::alloc::Global;
use std::mem;
use store_commands::{Draft, plan_draft};

// What is told where a part wasn't filed: the fault, if there was one.
pub(crate) fn told_of(why: Option<Fault>) -> Result<bool, Fault>
    ensures fault { IfErr result (λ fault. why ≡ Some fault) }
    ensures never { result ≢ Ok true }
{
    match why {
        Some(fault) => Err(fault),
        None => Ok(false),
    }
}

// Files a bounded part of what is to be prepared over this summary, if anything is, and once all is filed makes a part of its index. Whether
// there is more. What can't be filed is let go of.
fn file_next<S: Alter>(
    conn: &mut Connection<S>,
    summary: &Summary,
    filing: &mut Option<Coming>,
    orphans: &mut Orphans,
) -> Result<bool, Fault>
    requires autocommit { conn.old.in_transaction ≡ false }
    requires holds { HoldsBy (summary_shown summary.now) (state S.Store conn.old) }
    requires filed { HasFiled filing.old (state S.Store conn.old) }
    ensures filed { HasFiled filing.new (state S.Store conn.new) }
    ensures fewer { result ≡ Ok true → IsLess (coming_left filing.new) (coming_left filing.old) }
    ensures orphans { result ≡ Ok true → orphans.new ≡ orphans.old }
    ensures made { HasCleanDisk (state S.Store conn.new) → result ≡ Ok true → (conn.new ≡ conn.old) ⊎ IsCommitted (Remains (summary_shown summary.now) (state S.Store conn.old).committed) (state S.Store conn.new) }
    ensures remains { HasCleanDisk (state S.Store conn.new) → IsTrue (state S.Store conn.new).is_open → Remains (summary_shown summary.now) (state S.Store conn.old).committed (state S.Store conn.new).committed }
    ensures settled { HasCleanDisk (state S.Store conn.new) → IsTrue (state S.Store conn.new).is_open → (state S.Store conn.new).now ≡ (state S.Store conn.new).committed }
    ensures lives { HasCleanDisk (state S.Store conn.new) → IsTrue (state S.Store conn.new).is_open → IsTrue (state S.Store conn.old).is_open }
    ensures keeps { HasCleanDisk (state S.Store conn.new) → OnErr result (KeepsCommit (state S.Store conn.old) (state S.Store conn.new)) }
    ensures faulted { HasCleanDisk (state S.Store conn.new) → IfErr result (λ fault. fault ≡ Fault.Disk → MoreFaults (state S.Store conn.old).faults (state S.Store conn.new).faults) }
    ensures kinds { IfErr result IsOfStore }
    ensures ended { conn.new.in_transaction ≡ false }
    ensures crash { Survives (state S.Store conn.old) (state S.Store conn.new) (λ trees. IsTrue (state S.Store conn.old).is_open × IsTreesOf (Remains (summary_shown summary.now) (state S.Store conn.old).committed) trees) }
{
    let Some(planned) = filing else {
        return Ok(false);
    };
    if planned.is_filed() {
        return Ok(planned.make());
    }
    match planned.file(conn, summary) {
        Ok(_) => Ok(true),
        Err(why) => {
            let_go(filing, orphans);
            told_of(why)
        }
    }
}

// What is to be filed of a draft of which all is read, planned over this summary. It is none where a test fails. The draft is used up.
fn plan_next(alloc: Global, summary: &Summary, draft: &mut Option<Draft>) -> Option<Coming>
    requires { IsInRange (summary_shown summary.now) }
    ensures coming { IfSome result (λ coming. IsDrawnUp coming.filing × HasNoneFiled coming.filing) }
    ensures used { draft.new ≡ None }
{
    let Some(whole) = draft.take() else {
        return None;
    };
    let Some(planned) = plan_draft(alloc, summary, whole) else {
        return None;
    };
    Some(Coming::of(alloc, planned))
}

/// What comes of a draft's next step.
#[derive(Clone, Copy)]
enum DraftStep {
    /// There is more to read, or to write.
    More,
    /// All is, and it can be planned.
    Whole,
    /// A test fails, or there is no draft.
    Stays,
    /// Memory was refused, and the draft is let go of.
    Refused,
}

// Reads a bounded part of a draft.
fn step_draft(draft: &mut Option<Draft>) -> DraftStep
    ensures more { result ≡ DraftStep.More → IsLess (reading_left draft.new) (reading_left draft.old) }
    ensures whole { result ≡ DraftStep.Whole → IsLess (reading_left None) (reading_left draft.old) }
{
    let Some(reading) = draft else {
        return DraftStep::Stays;
    };
    match reading.step() {
        Ok(true) => DraftStep::More,
        Ok(false) => {
            if reading.is_refused() {
                DraftStep::Stays
            } else {
                DraftStep::Whole
            }
        }
        Err(_) => {
            drop(draft.take());
            DraftStep::Refused
        }
    }
}

// Reads a bounded part of a draft. Whether there is more to read or, where all is, something to file, which is planned over this summary
// then. A draft of which a test fails stays.
fn read_next(
    alloc: Global,
    summary: &Summary,
    draft: &mut Option<Draft>,
    filing: &mut Option<Coming>,
) -> Result<bool, Fault>
    requires range { IsInRange (summary_shown summary.now) }
    ensures filed { (filing.new ≡ filing.old) ⊎ IfSome filing.new (λ coming. IsDrawnUp coming.filing × HasNoneFiled coming.filing) }
    ensures fewer { result ≡ Ok true → IsLess (install_left draft.new filing.new) (install_left draft.old filing.old) }
    ensures kinds { IfErr result (λ fault. fault ≡ Fault.Memory) }
{
    match step_draft(draft) {
        DraftStep::More => Ok(true),
        DraftStep::Stays => Ok(false),
        DraftStep::Refused => Err(Fault::Memory),
        DraftStep::Whole => {
            drop(mem::replace(filing, plan_next(alloc, summary, draft)));
            Ok(filing.is_some())
        }
    }
}

// Prepares a bounded part of what was noted over this summary: reads it, or files it. Whether there is more.
fn prepare_next<S: Alter>(
    alloc: Global,
    conn: &mut Connection<S>,
    summary: &Summary,
    draft: &mut Option<Draft>,
    filing: &mut Option<Coming>,
    orphans: &mut Orphans,
) -> Result<bool, Fault>
    requires range { IsInRange (summary_shown summary.now) }
    requires autocommit { conn.old.in_transaction ≡ false }
    requires holds { HoldsBy (summary_shown summary.now) (state S.Store conn.old) }
    requires filed { HasFiled filing.old (state S.Store conn.old) }
    ensures filed { HasFiled filing.new (state S.Store conn.new) }
    ensures fewer { result ≡ Ok true → IsLess (install_left draft.new filing.new) (install_left draft.old filing.old) }
    ensures orphans { result ≡ Ok true → orphans.new ≡ orphans.old }
    ensures made { HasCleanDisk (state S.Store conn.new) → result ≡ Ok true → (conn.new ≡ conn.old) ⊎ IsCommitted (Remains (summary_shown summary.now) (state S.Store conn.old).committed) (state S.Store conn.new) }
    ensures remains { HasCleanDisk (state S.Store conn.new) → IsTrue (state S.Store conn.new).is_open → Remains (summary_shown summary.now) (state S.Store conn.old).committed (state S.Store conn.new).committed }
    ensures settled { HasCleanDisk (state S.Store conn.new) → IsTrue (state S.Store conn.new).is_open → (state S.Store conn.new).now ≡ (state S.Store conn.new).committed }
    ensures lives { HasCleanDisk (state S.Store conn.new) → IsTrue (state S.Store conn.new).is_open → IsTrue (state S.Store conn.old).is_open }
    ensures keeps { HasCleanDisk (state S.Store conn.new) → OnErr result (KeepsCommit (state S.Store conn.old) (state S.Store conn.new)) }
    ensures faulted { HasCleanDisk (state S.Store conn.new) → IfErr result (λ fault. fault ≡ Fault.Disk → MoreFaults (state S.Store conn.old).faults (state S.Store conn.new).faults) }
    ensures kinds { IfErr result IsOfStore }
    ensures ended { conn.new.in_transaction ≡ false }
    ensures crash { Survives (state S.Store conn.old) (state S.Store conn.new) (λ trees. IsTrue (state S.Store conn.old).is_open × IsTreesOf (Remains (summary_shown summary.now) (state S.Store conn.old).committed) trees) }
{
    if draft.is_some() {
        return read_next(alloc, summary, draft, filing);
    }
    file_next(conn, summary, filing, orphans)
}

// How the last call ended, where something was prepared behind it with this outcome.
pub(crate) fn last_behind<T>(last: LastCall, outcome: &Result<T, Fault>) -> LastCall
    ensures { result ≡ last_behind last outcome.now }
{
    match outcome {
        Ok(_) => last,
        Err(Fault::Refused(_)) => LastCall::Fine,
        Err(Fault::Disk) => LastCall::Closed,
        Err(_) => LastCall::Failed,
    }
}

impl<S: Alter + Drop> Desk<S> {
    // Prepares a bounded part of what was noted: reads it, or files it. Whether there is more.
    pub(crate) fn prepare_part(&mut self) -> Result<bool, Fault>
        requires { is_closed self.old.last ≡ false }
        ensures prepared { HasCleanDisk (state S.Store self.new.conn) → result ≡ Ok true → (self.new ≡ record self.old { counts = recounted self.old.counts self.new.counts }) ⊎ HasCommittedSame S.Store self.old self.new }
        ensures fewer { result ≡ Ok true → IsLess self.new.counts.left self.old.counts.left }
        ensures keeps { KeepsDesk S.Store self.old self.new result }
        ensures kinds { IfErr result IsOfStore }
    {
        is_whole(&self.conn);
        committed_may_stay(&self.conn);
        let outcome = prepare_next(
            self.alloc,
            &mut self.conn,
            &self.summary,
            &mut self.draft,
            &mut self.filing,
            &mut self.orphans,
        );
        forget_behind(&mut self.texts, &outcome);
        self.last = last_behind(self.last, &outcome);
        outcome
    }
}

/// An install is noted by its files: they are copied, read in slices, and filed in slices, each by a commit under the
/// number that the edition gets, which changes nothing that is held. What is filed is let go of where another command, or a call that hands the
/// connection out, comes first. Before an install is filed, and before every other command, what earlier ones left is tidied up: parts of no edition are
/// taken out.
impl<S: Alter + Drop> Preparer for Desk<S> {
    // No transaction is open, and all that is seen of the desk is as it was, but for what is left to prepare; or it failed, and its connection is.
    ghost expects = { λ old _ desk. (desk.conn.in_transaction ≡ false) × ((desk ≡ record old { counts = recounted old.counts desk.counts }) ⊎ ((has_failed desk.last ≡ true) × (desk.conn ≡ old.conn))) };

    // Where there is more to prepare, less is left than was; and all else that is seen of the desk is as it was, or what an install left in the
    // log was copied, parts of no edition were taken out, or some of the edition that comes were filed, by a commit that changes nothing that is held.
    ghost prepares = { λ old result desk. (result ≡ Ok true → IsLess desk.counts.left old.counts.left)
        × (HasCleanDisk (state S.Store desk.conn) → result ≡ Ok true → (desk ≡ record old { counts = recounted old.counts desk.counts }) ⊎ HasCommittedSame S.Store old desk) };

    // Nothing is left to prepare of what was noted, and nothing of it is filed.
    ghost forgets = { λ _ desk. HasForgotten desk.counts };

    ghost fails_to_prepare = { FailsToPrepare S.Store };

    fn expect(&mut self, _command: &Command) -> Result<(), Fault> {
        self.withdraw()
    }

    fn expect_install(&mut self, name: &str, index: &[u8], text: &[u8]) -> Result<(), Fault> {
        self.withdraw()?;
        match Draft::begin(self.alloc, name, index, text) {
            Ok(draft) => {
                drop(mem::replace(&mut self.draft, Some(draft)));
                Ok(())
            }
            Err(_) => {
                self.last = LastCall::Failed;
                forget_by(&mut self.texts, LastCall::Failed);
                Err(Fault::Memory)
            }
        }
    }

    fn prepare(&mut self) -> Result<bool, Fault> {
        let closed = self.is_closed();
        if closed {
            return Err(Fault::Closed);
        }
        if self.may_copy() {
            return self.copy_log();
        }
        if self.may_tidy() {
            return self.take_orphans_next();
        }
        self.prepare_part()
    }

    fn answer_prepared(
        &mut self,
        id: &str,
        name: &str,
        index: &[u8],
        text: &[u8],
    ) -> Result<Option<Answered>, Fault> {
        if self.is_closed() {
            return Err(Fault::Closed);
        }
        if let Some(told) = self.refusal(name, index, text) {
            return Ok(Some(Answered::Refused {
                refusal: told.0,
                line: told.1,
            }));
        }
        one_meaning();
        if let Some(outcome) = self.finish(id, name, index, text) {
            return Ok(Some(Answered::Done(outcome)));
        }
        self.let_go_of_prepared();
        Ok(None)
    }

    fn forget(&mut self) -> Result<(), Fault> {
        self.withdraw()
    }
}
