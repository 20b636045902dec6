// What editors change of a desk.
ghost use Rattle.std.specs.Prelude.{◌≡◌, false, IsTrue, OnErr};
ghost use Rattle.sqlite.specs.State.{HasCleanDisk};
ghost use Rattle.sqlite.specs.Held.{state};
ghost use Rattle.dict_catalogue.specs.Views.{summary_shown, command_meant};
ghost use Rattle.store_commands.specs.Answers.{HoldsBy, summary_after};
ghost use Rattle.store_commands.specs.Changes.{IsInRange};
ghost use Rattle.store_commands.specs.Installed.{HasInstalled};
ghost use Rattle.store_desk.specs.Applied.{AppliesOver};
ghost use Rattle.store_desk.specs.Desk.{reply_of};

use crate::adopting::is_whole;
use crate::copying::{is_long_behind, octets_installed};
use crate::desk::Desk;
use crate::indexing::{put_coming, settle};
use crate::kept::forget_by;
use crate::last::{LastCall, last_by};
use crate::laws::committed_may_stay;
use crate::tidying::note_gone;
use crate::withdrawing::let_go;
use dict_catalogue::{Command, Kept, Summary};
use dict_desk::{Fault, Keeper};
use sqlite::{Alter, Connection};
use std::alloc::Global;
use std::mem;
use store_commands::{Applied, apply, kept_reply};

// Applies a command over a connection.
fn apply_over<S: Alter>(
    alloc: Global,
    conn: &mut Connection<S>,
    summary: &Summary,
    id: &str,
    command: &Command,
) -> Result<Applied, Fault>
    requires autocommit { conn.old.in_transaction ≡ false }
    requires holds { HoldsBy (summary_shown summary.now) (state S.Store conn.old) }
    requires range { IsInRange (summary_shown summary.now) }
    ensures over { AppliesOver S.Store false (summary_shown summary.now) id.now (command_meant command.now) conn.old conn.new result }
    ensures installed { HasCleanDisk (state S.Store conn.new) → IsTrue (state S.Store conn.new).is_open → HasInstalled command.now result (state S.Store conn.new).committed }
    ensures stays { HasCleanDisk (state S.Store conn.new) → IsTrue (state S.Store conn.new).is_open → OnErr result ((state S.Store conn.new).committed ≡ (state S.Store conn.old).committed) }
{
    apply(alloc, conn, summary, id, command)
}

// The reply that was answered; the summary after it is taken over.
pub(crate) fn take_over(
    summary: &mut Summary,
    outcome: Result<Applied, Fault>,
) -> Result<Kept, Fault>
    ensures reply { result ≡ reply_of outcome }
    ensures after { summary_shown summary.new ≡ summary_after (summary_shown summary.old) outcome }
{
    match outcome {
        Ok(Applied::Repeated(kept)) => Ok(kept),
        Ok(Applied::Done(kept, after)) => {
            drop(mem::replace(summary, after));
            Ok(kept)
        }
        Err(fault) => Err(fault),
    }
}

impl<S: Alter + Drop> Keeper for Desk<S> {
    ghost use Rattle.store_desk.specs.Causes.{FailsToApplyTo, IsAppliedTo};

    ghost applies = { λ old request result new. IsAppliedTo S.Store old request result new };

    ghost fails_to_apply = { FailsToApplyTo S.Store };

    fn kept(&mut self, id: &str) -> Result<Option<Kept>, Fault> {
        if self.last == LastCall::Closed {
            return Err(Fault::Closed);
        }
        let outcome = kept_reply(self.alloc, &mut self.conn, id);
        self.last = last_by(&outcome);
        forget_by(&mut self.texts, self.last);
        outcome
    }

    fn apply(&mut self, id: &str, command: &Command) -> Result<Kept, Fault> {
        if self.last == LastCall::Closed {
            return Err(Fault::Closed);
        }
        let number = self.summary.installs.saturating_add(1);
        let Ok(()) = put_coming(self.alloc, &mut self.indexes, number, command) else {
            self.last = LastCall::Failed;
            forget_by(&mut self.texts, LastCall::Failed);
            return Err(Fault::Memory);
        };
        drop(self.draft.take());
        let_go(&mut self.filing, &mut self.orphans);
        is_whole(&self.conn);
        committed_may_stay(&self.conn);
        let outcome = apply_over(self.alloc, &mut self.conn, &self.summary, id, command);
        self.last = last_by(&outcome);
        forget_by(&mut self.texts, self.last);
        self.is_log_long = is_long_behind(self.is_log_long, octets_installed(command), &outcome);
        settle(&mut self.indexes, &self.summary.items, number, &outcome);
        note_gone(self.alloc, &mut self.orphans, &self.summary.items, &outcome);
        take_over(&mut self.summary, outcome)
    }
}
