// One transaction, and its commit.
ghost use Rattle.std.specs.Prelude.{◌≡◌, false, IsTrue, IfErr, OnErr, OnOk};
ghost use Rattle.sqlite.specs.State.{HasCleanDisk, Survives};
ghost use Rattle.sqlite.specs.Held.{state};
ghost use Rattle.store_tables.specs.Effects.{WhileOpen};
ghost use Rattle.dict_desk.specs.Faults.{is_disk};
ghost use Rattle.store_rows.specs.Versions.{known};
ghost use Rattle.store_holdings.specs.AllTables.{all_after};
ghost use Rattle.store_holdings.specs.Writing.{FailsToEnd};
ghost use Rattle.store_commands.specs.KeptRecords.{TurnsRecords, IsUsable};
ghost use Rattle.store_commands.specs.Changes.{change_by, index_by, IsWritable};
ghost use Rattle.store_commands.specs.Statements.{statements_of};
ghost use Rattle.store_holdings.specs.Committed.{IsCommitted, IsTreesOf};
ghost use Rattle.store_commands.specs.Committed.{StaysCommitted, IsOfStore, FailsToCommit};

use crate::files::installed_index;
use crate::writing::write_all;
use dict_catalogue::{Command, PlannedChange};
use dict_desk::Fault;
use sqlite::{Alter, Connection};
use std::alloc::Global;
use store_holdings::fault_of;
use store_tables::commit::commit;

// Makes what was planned of a command by one commit, where the index of the edition that it installs is these octets.
fn commit_files<S: Alter>(
    conn: &mut Connection<S>,
    id: &str,
    command: &Command,
    change: &PlannedChange,
    index: &[u8],
) -> Result<(), Fault>
    requires autocommit { conn.old.in_transaction ≡ false }
    requires usable { WhileOpen (state S.Store conn.old) IsUsable }
    requires writable { IsWritable change.now }
    requires index { index.now ≡ index_by command.now }
    ensures made { HasCleanDisk (state S.Store conn.new) → OnOk result (IsCommitted (TurnsRecords (all_after known (change_by id.now command.now change.now)) (state S.Store conn.old).now) (state S.Store conn.new)) }
    ensures lives { HasCleanDisk (state S.Store conn.new) → IsTrue (state S.Store conn.new).is_open → IsTrue (state S.Store conn.old).is_open }
    ensures stays { HasCleanDisk (state S.Store conn.new) → OnErr result (StaysCommitted (state S.Store conn.old) (state S.Store conn.new)) }
    ensures adds_none { IfErr result (λ fault. is_disk fault ≡ false → Survives (state S.Store conn.old) (state S.Store conn.new) (λ _. ⊥)) }
    ensures failed { HasCleanDisk (state S.Store conn.new) → IfErr result (FailsToEnd S.Store (statements_of known (change_by id.now command.now change.now)) (TurnsRecords (all_after known (change_by id.now command.now change.now)) (state S.Store conn.old).now) conn.old conn.new) }
    ensures kinds { IfErr result IsOfStore }
    ensures autocommit { (state S.Store conn.new).in_transaction ≡ false }
    ensures crash { Survives (state S.Store conn.old) (state S.Store conn.new) (IsTreesOf (TurnsRecords (all_after known (change_by id.now command.now change.now)) (state S.Store conn.old).now)) }
{
    let mut tx = conn.transaction();
    if let Err(error) = write_all(&mut tx, id, command, change, index) {
        return Err(fault_of(error));
    }
    match commit(tx) {
        Ok(()) => Ok(()),
        Err(_) => Err(Fault::Disk),
    }
}

/// Makes what was planned of a command by one commit, with its reply for the id of its request.
///
/// `Memory` tells that a growth was refused before the commit: all is as it was. `Disk` tells that a statement failed for
/// another cause, or the commit did, for whatever cause: only the next opening knows what it left. While the store is
/// open, it shows what it did before.
pub(crate) fn commit_change<S: Alter>(
    alloc: Global,
    conn: &mut Connection<S>,
    id: &str,
    command: &Command,
    change: &PlannedChange,
) -> Result<(), Fault>
    requires autocommit { conn.old.in_transaction ≡ false }
    requires usable { WhileOpen (state S.Store conn.old) IsUsable }
    requires writable { IsWritable change.now }
    ensures made { HasCleanDisk (state S.Store conn.new) → OnOk result (IsCommitted (TurnsRecords (all_after known (change_by id.now command.now change.now)) (state S.Store conn.old).now) (state S.Store conn.new)) }
    ensures lives { HasCleanDisk (state S.Store conn.new) → IsTrue (state S.Store conn.new).is_open → IsTrue (state S.Store conn.old).is_open }
    ensures stays { HasCleanDisk (state S.Store conn.new) → OnErr result (StaysCommitted (state S.Store conn.old) (state S.Store conn.new)) }
    ensures adds_none { IfErr result (λ fault. is_disk fault ≡ false → Survives (state S.Store conn.old) (state S.Store conn.new) (λ _. ⊥)) }
    ensures failed { HasCleanDisk (state S.Store conn.new) → IfErr result (FailsToCommit S.Store (change_by id.now command.now change.now) (TurnsRecords (all_after known (change_by id.now command.now change.now)) (state S.Store conn.old).now) conn.old conn.new) }
    ensures kinds { IfErr result IsOfStore }
    ensures autocommit { (state S.Store conn.new).in_transaction ≡ false }
    ensures crash { Survives (state S.Store conn.old) (state S.Store conn.new) (IsTreesOf (TurnsRecords (all_after known (change_by id.now command.now change.now)) (state S.Store conn.old).now)) }
{
    let index = installed_index(alloc, command)?;
    commit_files(conn, id, command, change, &index)
}
