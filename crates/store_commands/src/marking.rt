// The mark written as it is, so that the store copies its log.
ghost use Rattle.std.specs.Prelude.{◌≡◌, false, IsTrue, Some, IfErr, IfSome, OnErr, OnOk};
ghost use Rattle.sqlite.specs.Disk.{MoreFaults};
ghost use Rattle.sqlite.specs.State.{HasCleanDisk, Survives};
ghost use Rattle.sqlite.specs.Held.{state};
ghost use Rattle.store_tables.specs.Effects.{WhileOpen};
ghost use Rattle.dict_catalogue.specs.Views.{summary_shown};
ghost use Rattle.store_commands.specs.KeptRecords.{TurnsRecords, IsUsable, FitsColumn};
ghost use Rattle.store_commands.specs.Changes.{with_mark};
ghost use Rattle.store_holdings.specs.Committed.{IsCommitted, IsTreesOf};
ghost use Rattle.store_commands.specs.Committed.{IsOfStore, StaysCommitted};
ghost use Rattle.store_commands.specs.Answers.{HoldsBy};
ghost use Rattle.store_commands.specs.Marking.{Remains, FailsToCommitRun, FailsToMark};
ghost use Rattle.store_commands.specs.Statements.{mark_anew};
ghost use Rattle.store_rows.specs.Versions.{known};

use crate::parts::fault_filed;
use crate::small::write_mark;
use dict_catalogue::Summary;
use dict_desk::Fault;
use sqlite::{Alter, Connection};
use store_tables::commit::commit;

// Writes the mark with this count of installs by one commit.
fn commit_mark<S: Alter>(conn: &mut Connection<S>, installs: u64) -> Result<(), Option<Fault>>
    requires autocommit { conn.old.in_transaction ≡ false }
    requires storable { FitsColumn installs }
    requires usable { WhileOpen (state S.Store conn.old) IsUsable }
    ensures made { HasCleanDisk (state S.Store conn.new) → OnOk result (IsCommitted (λ db. IsTrue (state S.Store conn.old).is_open × TurnsRecords (with_mark installs) (state S.Store conn.old).now db) (state S.Store conn.new)) }
    ensures stays { HasCleanDisk (state S.Store conn.new) → OnErr result (StaysCommitted (state S.Store conn.old) (state S.Store conn.new)) }
    ensures lives { HasCleanDisk (state S.Store conn.new) → IsTrue (state S.Store conn.new).is_open → IsTrue (state S.Store conn.old).is_open }
    ensures failed { HasCleanDisk (state S.Store conn.new) → IfErr result (FailsToCommitRun S.Store (mark_anew known installs) conn.old conn.new) }
    ensures faulted { HasCleanDisk (state S.Store conn.new) → IfErr result (λ why. why ≡ Some Fault.Disk → MoreFaults (state S.Store conn.old).faults (state S.Store conn.new).faults) }
    ensures kinds { IfErr result (λ why. IfSome why IsOfStore) }
    ensures autocommit { (state S.Store conn.new).in_transaction ≡ false }
    ensures crash { Survives (state S.Store conn.old) (state S.Store conn.new) (IsTreesOf (λ db. IsTrue (state S.Store conn.old).is_open × TurnsRecords (with_mark installs) (state S.Store conn.old).now db)) }
{
    let mut tx = conn.transaction();
    if let Err(error) = write_mark(&mut tx, installs) {
        return Err(fault_filed(error));
    }
    match commit(tx) {
        Ok(()) => Ok(()),
        Err(error) => Err(fault_filed(error)),
    }
}

/// Writes the mark of a database as it is, by one commit. Each catalogue of this summary that was held is held still, and a stop leaves no
/// other.
///
/// `sqlite` appends to a log what is committed, and copies all of it into the file once it finds the log long, in the next commit. Who wants
/// that copied before a command makes this one.
///
/// At an error what was committed is so still. `Memory` tells that a growth was refused, `Disk` that the disk failed. None tells that a
/// statement was refused, that the store was shut before, or that no column holds the count of installs.
pub fn write_mark_again<S: Alter>(
    conn: &mut Connection<S>,
    summary: &Summary,
) -> Result<(), Option<Fault>>
    requires autocommit { conn.old.in_transaction ≡ false }
    requires holds { HoldsBy (summary_shown summary.now) (state S.Store conn.old) }
    ensures made { HasCleanDisk (state S.Store conn.new) → OnOk result (IsCommitted (Remains (summary_shown summary.now) (state S.Store conn.old).committed) (state S.Store conn.new)) }
    ensures stays { HasCleanDisk (state S.Store conn.new) → OnErr result (StaysCommitted (state S.Store conn.old) (state S.Store conn.new)) }
    ensures lives { HasCleanDisk (state S.Store conn.new) → IsTrue (state S.Store conn.new).is_open → IsTrue (state S.Store conn.old).is_open }
    ensures failed { HasCleanDisk (state S.Store conn.new) → IfErr result (FailsToMark S.Store (summary_shown summary.now).installs conn.old conn.new) }
    ensures faulted { HasCleanDisk (state S.Store conn.new) → IfErr result (λ why. why ≡ Some Fault.Disk → MoreFaults (state S.Store conn.old).faults (state S.Store conn.new).faults) }
    ensures kinds { IfErr result (λ why. IfSome why IsOfStore) }
    ensures autocommit { (state S.Store conn.new).in_transaction ≡ false }
    ensures crash { Survives (state S.Store conn.old) (state S.Store conn.new) (λ trees. IsTrue (state S.Store conn.old).is_open × IsTreesOf (Remains (summary_shown summary.now) (state S.Store conn.old).committed) trees) }
{
    if summary.installs > i64::MAX as u64 {
        return Err(None);
    }
    commit_mark(conn, summary.installs)
}
