// What an install left in the log of its store is copied into the file.
ghost use Rattle.std.specs.Prelude.{◌≡◌, false, true, IsTrue, IfErr, Ok, OnErr};
ghost use Rattle.sqlite.specs.Disk.{MoreFaults};
ghost use Rattle.sqlite.specs.State.{HasCleanDisk, KeepsCommit, Survives};
ghost use Rattle.sqlite.specs.Held.{state};
ghost use Rattle.dict_catalogue.specs.Views.{summary_shown};
ghost use Rattle.store_commands.specs.Answers.{HoldsBy};
ghost use Rattle.store_holdings.specs.Committed.{IsCommitted, IsTreesOf};
ghost use Rattle.store_commands.specs.Committed.{IsOfStore};
ghost use Rattle.store_commands.specs.Marking.{Remains};
ghost use Rattle.store_desk.specs.Desk.{is_closed};
ghost use Rattle.store_commands.specs.Left.{IsLess};
ghost use Rattle.store_desk.specs.Prepared.{HasCommittedSame, KeepsDesk};

use crate::adopting::is_whole;
use crate::desk::Desk;
use crate::kept::forget_behind;
use crate::laws::committed_may_stay;
use crate::preparing::{last_behind, told_of};
use crate::withdrawing::let_go;
use dict_catalogue::{Command, Summary};
use dict_desk::Fault;
use sqlite::{Alter, Connection};
use store_commands::{Applied, write_mark_again};

// An install of so many octets leaves a long log.
const LONG: usize = 4_194_304;

// How many octets the text has of the edition that a command installs.
pub(crate) fn octets_installed(command: &Command) -> usize {
    match command {
        Command::Install { edition, .. } => edition.text().len(),
        Command::Rollback { .. }
        | Command::Retire { .. }
        | Command::PutVirtual { .. }
        | Command::Place { .. } => 0,
    }
}

// Whether the log is long behind a command that installs so many octets, and was answered so. One that acts has it copied before.
pub(crate) fn is_long_behind(
    before: bool,
    octets: usize,
    outcome: &Result<Applied, Fault>,
) -> bool {
    match outcome {
        Ok(Applied::Done(_, _)) => octets >= LONG,
        Ok(Applied::Repeated(_)) | Err(_) => before,
    }
}

// Has the log copied, as `write_mark_again` does. Whether it was: the fault, where one came.
fn copy_over<S: Alter>(conn: &mut Connection<S>, summary: &Summary) -> Result<bool, Fault>
    requires autocommit { conn.old.in_transaction ≡ false }
    requires holds { HoldsBy (summary_shown summary.now) (state S.Store conn.old) }
    ensures made { HasCleanDisk (state S.Store conn.new) → result ≡ Ok true → IsCommitted (Remains (summary_shown summary.now) (state S.Store conn.old).committed) (state S.Store conn.new) }
    ensures remains { HasCleanDisk (state S.Store conn.new) → IsTrue (state S.Store conn.new).is_open → Remains (summary_shown summary.now) (state S.Store conn.old).committed (state S.Store conn.new).committed }
    ensures settled { HasCleanDisk (state S.Store conn.new) → IsTrue (state S.Store conn.new).is_open → (state S.Store conn.new).now ≡ (state S.Store conn.new).committed }
    ensures lives { HasCleanDisk (state S.Store conn.new) → IsTrue (state S.Store conn.new).is_open → IsTrue (state S.Store conn.old).is_open }
    ensures keeps { HasCleanDisk (state S.Store conn.new) → OnErr result (KeepsCommit (state S.Store conn.old) (state S.Store conn.new)) }
    ensures faulted { HasCleanDisk (state S.Store conn.new) → IfErr result (λ fault. fault ≡ Fault.Disk → MoreFaults (state S.Store conn.old).faults (state S.Store conn.new).faults) }
    ensures kinds { IfErr result IsOfStore }
    ensures ended { conn.new.in_transaction ≡ false }
    ensures crash { Survives (state S.Store conn.old) (state S.Store conn.new) (λ trees. IsTrue (state S.Store conn.old).is_open × IsTreesOf (Remains (summary_shown summary.now) (state S.Store conn.old).committed) trees) }
{
    match write_mark_again(conn, summary) {
        Ok(()) => Ok(true),
        Err(why) => told_of(why),
    }
}

impl<S: Alter + Drop> Desk<S> {
    // Whether an install may have left a long log, and nothing is read or filed.
    pub(crate) fn may_copy(&self) -> bool {
        self.is_log_long && self.draft.is_none() && self.filing.is_none()
    }

    // Has the log copied, where it may be long. Whether it was: then there may be more to prepare. Nothing is filed, or it is let go of.
    pub(crate) fn copy_log(&mut self) -> Result<bool, Fault>
        requires { is_closed self.old.last ≡ false }
        ensures committed { HasCleanDisk (state S.Store self.new.conn) → result ≡ Ok true → HasCommittedSame S.Store self.old self.new }
        ensures fewer { result ≡ Ok true → IsLess self.new.counts.left self.old.counts.left }
        ensures keeps { KeepsDesk S.Store self.old self.new result }
        ensures kinds { IfErr result IsOfStore }
    {
        if !self.is_log_long {
            return Ok(false);
        }
        let_go(&mut self.filing, &mut self.orphans);
        is_whole(&self.conn);
        committed_may_stay(&self.conn);
        let outcome = copy_over(&mut self.conn, &self.summary);
        forget_behind(&mut self.texts, &outcome);
        self.last = last_behind(self.last, &outcome);
        self.is_log_long = false;
        outcome
    }
}
