// A command on the tables of one database.
ghost use Rattle.std.specs.Prelude.{◌≡◌, ◌⊎◌, ◌≤◌, false, true, None, IsTrue, IfErr, OnErr, OnOk};
ghost use Rattle.sqlite.specs.State.{HasCleanDisk, Survives};
ghost use Rattle.sqlite.specs.Held.{state};
ghost use Rattle.dict_text.specs.Names.{is_request_id};
ghost use Rattle.dict_catalogue.specs.Steps.{Catalogue, summary_of, kept_under, step};
ghost use Rattle.dict_catalogue.specs.Tests.{refusal_of};
ghost use Rattle.dict_catalogue.specs.Views.{summary_shown, command_meant, command_shown};
ghost use Rattle.dict_desk.specs.Faults.{is_failure};
ghost use Rattle.store_holdings.specs.Holds.{Holds, Rests, IsLeftAs};
ghost use Rattle.store_commands.specs.KeptRecords.{SparesTablesOfOthers, KeepsTextRows};
ghost use Rattle.store_commands.specs.Changes.{IsInRange};
ghost use Rattle.store_holdings.specs.Committed.{IsTreesOf};
ghost use Rattle.store_commands.specs.Answers.{HoldsBy, Answers, has_written, summary_after, numbers_after, IsOfApply, IsOfShut, FailsToAct, FailsToApply};
ghost use Rattle.store_commands.specs.Installed.{HasInstalled};
ghost use Rattle.store_rows.specs.Versions.{known};

use crate::applied::Applied;
use crate::committing::commit_change;
use crate::deciding::{decide, lies_within};
use crate::replies::kept_reply;
use dict_catalogue::{Command, CommandRefusal, PlannedChange, Summary};
use dict_desk::Fault;
use dict_text::is_request_id;
use sqlite::{Alter, Connection};
use std::alloc::Global;

// Applies a command under a lawful id that isn't kept.
fn apply_new<S: Alter>(
    alloc: Global,
    conn: &mut Connection<S>,
    summary: &Summary,
    id: &str,
    command: &Command,
) -> Result<Applied, Fault>
    requires id { is_request_id id.now ≡ true }
    requires autocommit { conn.old.in_transaction ≡ false }
    requires holds { HoldsBy (summary_shown summary.now) (state S.Store conn.old) }
    requires range { IsInRange (summary_shown summary.now) }
    ensures value { HasCleanDisk (state S.Store conn.new) → (M : Catalogue) → Rests known (state S.Store conn.old) M → summary_of M ≡ summary_shown summary.now → kept_under M.kept id.now ≡ None
        → Answers (state S.Store conn.new) M id.now (step M id.now (command_meant command.now)) result }
    ensures spares { has_written result ≡ false → Survives (state S.Store conn.old) (state S.Store conn.new) (λ _. ⊥) }
    ensures crash { Survives (state S.Store conn.old) (state S.Store conn.new) (λ trees. (M : Catalogue) → Rests known (state S.Store conn.old) M → summary_of M ≡ summary_shown summary.now → kept_under M.kept id.now ≡ None
        → IsLeftAs known (step M id.now (command_meant command.now)).catalogue trees) }
    ensures lives { HasCleanDisk (state S.Store conn.new) → IsTrue (state S.Store conn.new).is_open → IsTrue (state S.Store conn.old).is_open }
    ensures failed { HasCleanDisk (state S.Store conn.new) → IfErr result (λ fault. is_failure fault ≡ true → ((fault ≡ Fault.Memory) × (conn.new ≡ conn.old) × (refusal_of (summary_shown summary.now) (command_shown command.now) ≡ None)) ⊎ FailsToAct S.Store (summary_shown summary.now) id.now (command_meant command.now) (λ db. (M : Catalogue) → Rests known (state S.Store conn.old) M → summary_of M ≡ summary_shown summary.now → kept_under M.kept id.now ≡ None → Holds known db (step M id.now (command_meant command.now)).catalogue) conn.old conn.new fault) }
    ensures others { HasCleanDisk (state S.Store conn.new) → OnOk result (SparesTablesOfOthers (state S.Store conn.old).now (state S.Store conn.new).now) }
    ensures beside { Survives (state S.Store conn.old) (state S.Store conn.new) (λ trees. IsTrue (state S.Store conn.old).is_open → IsTreesOf (SparesTablesOfOthers (state S.Store conn.old).now) trees) }
    ensures above { HasCleanDisk (state S.Store conn.new) → OnOk result (KeepsTextRows summary.now.installs (numbers_after (summary_shown summary.now) result) (state S.Store conn.old).now (state S.Store conn.new).now) }
    ensures installed { HasCleanDisk (state S.Store conn.new) → HasInstalled command.now result (state S.Store conn.new).now }
    ensures stays { HasCleanDisk (state S.Store conn.new) → IsTrue (state S.Store conn.new).is_open → OnErr result ((state S.Store conn.new).committed ≡ (state S.Store conn.old).committed) }
    ensures refused { IfErr result (λ fault. is_failure fault ≡ false → (state S.Store conn.new).now ≡ (state S.Store conn.old).now) }
    ensures grows { summary.now.installs ≤ (summary_after (summary_shown summary.now) result).installs }
    ensures kinds { IfErr result IsOfApply }
    ensures range { IsInRange (summary_after (summary_shown summary.now) result) }
    ensures autocommit { (state S.Store conn.new).in_transaction ≡ false }
{
    let change = decide(alloc, summary, command)?;
    command.is_lawful();
    lies_within(command);
    if let Err(fault) = commit_change(alloc, conn, id, command, &change) {
        drop(change);
        return Err(fault);
    }
    let PlannedChange {
        summary,
        gone,
        kept,
    } = change;
    drop(gone);
    Ok(Applied::Done(kept, summary))
}

/// Applies a command under the id of its request to the catalogue that a database holds, of which this is the summary:
/// the whole of it by one commit, or nothing.
///
/// An unlawful id is refused; an id that is kept is answered its reply again, and nothing is written, whatever the command;
/// else the command's own tests decide, and then it does its effect, and its reply is kept. All memory for the answer is
/// taken before the commit, which is the last call of the store. The index of an edition that is installed is made before anything is
/// written. Tables that are none of the product's keep their rows, also in what a stop leaves. An edition that is installed gets a
/// number above that of each install before, under which its text stands; one that stays keeps its text as it was.
///
/// `Memory` tells that a growth was refused before the commit: nothing has changed while the store is open. `Disk` tells
/// that a read or a statement failed for another cause, or the commit did, for whatever cause: what a stop leaves is what it
/// could leave before, or the catalogue after the command. A store that is shut already adds nothing to that, and answers no command.
pub fn apply<S: Alter>(
    alloc: Global,
    conn: &mut Connection<S>,
    summary: &Summary,
    id: &str,
    command: &Command,
) -> Result<Applied, Fault>
    requires autocommit { conn.old.in_transaction ≡ false }
    requires holds { HoldsBy (summary_shown summary.now) (state S.Store conn.old) }
    requires range { IsInRange (summary_shown summary.now) }
    ensures value { HasCleanDisk (state S.Store conn.new) → (M : Catalogue) → Rests known (state S.Store conn.old) M → summary_of M ≡ summary_shown summary.now
        → Answers (state S.Store conn.new) M id.now (step M id.now (command_meant command.now)) result }
    ensures spares { has_written result ≡ false → Survives (state S.Store conn.old) (state S.Store conn.new) (λ _. ⊥) }
    ensures crash { Survives (state S.Store conn.old) (state S.Store conn.new) (λ trees. IsTrue (state S.Store conn.old).is_open × ((M : Catalogue) → Rests known (state S.Store conn.old) M → summary_of M ≡ summary_shown summary.now
        → IsLeftAs known (step M id.now (command_meant command.now)).catalogue trees)) }
    ensures shut { HasCleanDisk (state S.Store conn.new) → (state S.Store conn.old).is_open ≡ false → IsOfShut id.now result }
    ensures lives { HasCleanDisk (state S.Store conn.new) → IsTrue (state S.Store conn.new).is_open → IsTrue (state S.Store conn.old).is_open }
    ensures failed { HasCleanDisk (state S.Store conn.new) → IfErr result (λ fault. is_failure fault ≡ true → FailsToApply S.Store (summary_shown summary.now) id.now (command_meant command.now) conn.old conn.new fault) }
    ensures others { HasCleanDisk (state S.Store conn.new) → OnOk result (SparesTablesOfOthers (state S.Store conn.old).now (state S.Store conn.new).now) }
    ensures beside { Survives (state S.Store conn.old) (state S.Store conn.new) (IsTreesOf (SparesTablesOfOthers (state S.Store conn.old).now)) }
    ensures above { HasCleanDisk (state S.Store conn.new) → OnOk result (KeepsTextRows summary.now.installs (numbers_after (summary_shown summary.now) result) (state S.Store conn.old).now (state S.Store conn.new).now) }
    ensures installed { HasCleanDisk (state S.Store conn.new) → HasInstalled command.now result (state S.Store conn.new).now }
    ensures stays { HasCleanDisk (state S.Store conn.new) → IsTrue (state S.Store conn.new).is_open → OnErr result ((state S.Store conn.new).committed ≡ (state S.Store conn.old).committed) }
    ensures refused { HasCleanDisk (state S.Store conn.new) → IfErr result (λ fault. is_failure fault ≡ false → (state S.Store conn.new).now ≡ (state S.Store conn.old).now) }
    ensures grows { summary.now.installs ≤ (summary_after (summary_shown summary.now) result).installs }
    ensures kinds { IfErr result IsOfApply }
    ensures range { IsInRange (summary_after (summary_shown summary.now) result) }
    ensures holds { HoldsBy (summary_after (summary_shown summary.now) result) (state S.Store conn.new) }
    ensures autocommit { (state S.Store conn.new).in_transaction ≡ false }
{
    if !is_request_id(id) {
        return Err(Fault::Refused(CommandRefusal::BadRequestId));
    }
    if let Some(kept) = kept_reply(alloc, conn, id)? {
        return Ok(Applied::Repeated(kept));
    }
    apply_new(alloc, conn, summary, id, command)
}
