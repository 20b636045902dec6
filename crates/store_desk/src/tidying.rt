// Parts of no edition are taken out of the file.
ghost use Rattle.std.specs.Prelude.{◌≡◌, false, true, IsTrue, IfErr, Ok, OnErr};
ghost use Rattle.sqlite.specs.Disk.{MoreFaults};
ghost use Rattle.sqlite.specs.State.{HasCleanDisk, KeepsCommit, Survives};
ghost use Rattle.sqlite.specs.Held.{state};
ghost use Rattle.dict_catalogue.specs.Views.{summary_shown};
ghost use Rattle.store_commands.specs.Answers.{HoldsBy};
ghost use Rattle.store_holdings.specs.Committed.{IsCommitted, IsTreesOf};
ghost use Rattle.store_commands.specs.Committed.{IsOfStore};
ghost use Rattle.store_commands.specs.Marking.{Remains};
ghost use Rattle.store_desk.specs.Desk.{is_closed};
ghost use Rattle.store_commands.specs.Left.{IsLess};
ghost use Rattle.store_desk.specs.Left.{orphans_left};
ghost use Rattle.store_desk.specs.Prepared.{HasCommittedSame, KeepsDesk};

use crate::adopting::is_whole;
use crate::desk::Desk;
use crate::kept::forget_behind;
use crate::laws::committed_may_stay;
use crate::orphans::Orphans;
use crate::preparing::{last_behind, told_of};
use dict_catalogue::{Item, Summary, edition_numbers};
use dict_desk::Fault;
use sqlite::{Alter, Connection};
use std::alloc::{AllocError, Global};
use store_commands::{Applied, take_orphans};

// Notes the numbers of the editions that were there before and are not after; none is noted any more that an edition has then.
fn note_numbers(
    alloc: Global,
    orphans: &mut Orphans,
    before: &[Item],
    after: &[Item],
) -> Result<(), AllocError> {
    let gone = edition_numbers(alloc, before)?;
    let there = edition_numbers(alloc, after)?;
    orphans.forget(&there);
    for number in &gone {
        if !there.contains(number) {
            orphans.note(*number);
        }
    }
    Ok(())
}

// Notes the numbers of the editions that a command took out, if it was made: parts of them are left. What memory is refused for is left out,
// for the next opening to find.
pub(crate) fn note_gone(
    alloc: Global,
    orphans: &mut Orphans,
    before: &[Item],
    outcome: &Result<Applied, Fault>,
) {
    match outcome {
        Ok(Applied::Done(_, after)) => {
            let _ = note_numbers(alloc, orphans, before, &after.items);
        }
        Ok(Applied::Repeated(_)) | Err(_) => {}
    }
}

// Takes out some parts of no edition, those of the last of these numbers, as `take_orphans` does. Whether something was committed: the fault,
// where one came. A number of which nothing is left is taken off, and one for which it is refused.
fn take_last<S: Alter>(
    conn: &mut Connection<S>,
    summary: &Summary,
    orphans: &mut Orphans,
) -> Result<bool, Fault>
    requires autocommit { conn.old.in_transaction ≡ false }
    requires holds { HoldsBy (summary_shown summary.now) (state S.Store conn.old) }
    ensures fewer { result ≡ Ok true → IsLess (orphans_left orphans.new) (orphans_left orphans.old) }
    ensures made { HasCleanDisk (state S.Store conn.new) → result ≡ Ok true → IsCommitted (Remains (summary_shown summary.now) (state S.Store conn.old).committed) (state S.Store conn.new) }
    ensures remains { HasCleanDisk (state S.Store conn.new) → IsTrue (state S.Store conn.new).is_open → Remains (summary_shown summary.now) (state S.Store conn.old).committed (state S.Store conn.new).committed }
    ensures settled { HasCleanDisk (state S.Store conn.new) → IsTrue (state S.Store conn.new).is_open → (state S.Store conn.new).now ≡ (state S.Store conn.new).committed }
    ensures lives { HasCleanDisk (state S.Store conn.new) → IsTrue (state S.Store conn.new).is_open → IsTrue (state S.Store conn.old).is_open }
    ensures keeps { HasCleanDisk (state S.Store conn.new) → OnErr result (KeepsCommit (state S.Store conn.old) (state S.Store conn.new)) }
    ensures faulted { HasCleanDisk (state S.Store conn.new) → IfErr result (λ fault. fault ≡ Fault.Disk → MoreFaults (state S.Store conn.old).faults (state S.Store conn.new).faults) }
    ensures kinds { IfErr result IsOfStore }
    ensures ended { conn.new.in_transaction ≡ false }
    ensures crash { Survives (state S.Store conn.old) (state S.Store conn.new) (λ trees. IsTrue (state S.Store conn.old).is_open × IsTreesOf (Remains (summary_shown summary.now) (state S.Store conn.old).committed) trees) }
{
    let Some(number) = orphans.last() else {
        return Ok(false);
    };
    match take_orphans(conn, summary, number) {
        Ok(more) => {
            orphans.pass(more);
            Ok(true)
        }
        Err(why) => {
            if why.is_none() {
                orphans.pass(false);
            }
            told_of(why)
        }
    }
}

impl<S: Alter + Drop> Desk<S> {
    // Whether there may be parts of no edition, and nothing is filed.
    pub(crate) fn may_tidy(&self) -> bool {
        !self.orphans.is_empty() && self.filing.is_none()
    }

    // Takes out some parts of no edition, unless parts are filed. Whether something was committed: then there may be more to prepare.
    pub(crate) fn take_orphans_next(&mut self) -> Result<bool, Fault>
        requires { is_closed self.old.last ≡ false }
        ensures committed { HasCleanDisk (state S.Store self.new.conn) → result ≡ Ok true → HasCommittedSame S.Store self.old self.new }
        ensures fewer { result ≡ Ok true → IsLess self.new.counts.left self.old.counts.left }
        ensures keeps { KeepsDesk S.Store self.old self.new result }
        ensures kinds { IfErr result IsOfStore }
    {
        if self.filing.is_some() {
            return Ok(false);
        }
        is_whole(&self.conn);
        committed_may_stay(&self.conn);
        let outcome = take_last(&mut self.conn, &self.summary, &mut self.orphans);
        forget_behind(&mut self.texts, &outcome);
        self.last = last_behind(self.last, &outcome);
        outcome
    }
}
