// A desk over a database that holds a catalogue.
ghost use Rattle.std.specs.Prelude.{◌≡◌, ◌<◌, ◌↔◌, ◌||◌, ℕ, List, false, true, None, IsTrue, IfOk, IfErr, OnOk, OnErr, Err};
ghost use Rattle.sqlite.specs.State.{HasCleanDisk, IsLive, Survives};
ghost use Rattle.sqlite.specs.Held.{state};
ghost use Rattle.dict_catalogue.specs.Steps.{Catalogue, summary_of};
ghost use Rattle.dict_catalogue.specs.Views.{summary_shown};
ghost use Rattle.store_holdings.specs.Holds.{Holds, IsHeld, IsLeft, Rests};
ghost use Rattle.store_holdings.specs.Writing.{StaysCommitted};
ghost use Rattle.store_migration.specs.Failing.{FailsToMigrate};
ghost use Rattle.store_migration.specs.Migrated.{MayMigrate};
ghost use Rattle.store_commands.specs.Changes.{IsInRange};
ghost use Rattle.dict_desk.specs.Faults.{has_closed_by, has_failed_by, is_disk};
ghost use Rattle.store_opening.specs.Reading.{IsOfOpening, HasFailedToRead};
ghost use Rattle.store_desk.specs.Desk.{Shows, is_closed, has_failed};
ghost use Rattle.store_desk.specs.Opened.{TellsOfDatabase, IsNotHeld, IsNotLeft, HoldsItsTrees};
ghost use Rattle.store_opening.specs.Indexed.{IsHeldIndexed};
ghost use Rattle.store_desk.specs.Indexed.{AreHeldCut};
ghost use Rattle.store_search.specs.Entries.{Indexed};
ghost use Rattle.store_rows.specs.Versions.{known, IsVersion};
ghost use Rattle.store_migration.specs.Moved.{IsRenewedFrom};
ghost use Rattle.store_migration.specs.Spared.{SparesOthers};
ghost use Rattle.store_desk.specs.Adopted.{FailsToOpen, MayCommitBeside, IsAdopted, IsNotAdopted};
ghost use Rattle.store_holdings.specs.Faults.{IsOfStore};

use crate::desk::Desk;
use crate::indexing::index_if;
use crate::kept::forget_by;
use crate::last::{LastCall, last_by};
use dict_catalogue::{Summary, edition_numbers};
use dict_desk::Fault;
use sqlite::{Alter, Connection};
use std::alloc::{AllocError, Global};
use store_commands::{kept_reply, summaries_in_range};
use store_holdings::Indexes;
use store_migration::migrate;
use store_opening::{held_is_marked, one_is_held, read_catalogue};
use store_rows::KNOWN_VERSION;

// Whether each edition has the number of an install that was made, as each edition of a catalogue has.
fn is_in_range(alloc: Global, summary: &Summary) -> Result<bool, AllocError>
    ensures { IfOk result (λ within. IsTrue within ↔ IsInRange (summary_shown summary.now)) }
{
    let numbers = edition_numbers(alloc, &summary.items)?;
    let installs = summary.installs;
    Ok(numbers.iter().all(|number| *number <= installs))
}

// What the trees of a store that is open hold, the store holds; and they are a database.
pub(crate) fn is_whole<S: Alter>(conn: &Connection<S>)
    ensures whole { IsTrue (state S.Store conn.now).is_open → HoldsItsTrees (state S.Store conn.now) }
    ensures live { IsLive (state S.Store conn.now) }
{
    one_is_held();
    let _schema = conn.schema();
}

// Reads a database whole: the version of its tables, the summary of the catalogue that it holds, the indexes of its editions, and the numbers
// under which there are parts of no edition. Nothing is written.
fn read<S: Alter>(
    alloc: Global,
    conn: &mut Connection<S>,
) -> Result<(u64, Summary, Indexes, Vec<u64>), Fault>
    requires { conn.old.in_transaction ≡ false }
    ensures rests { HasCleanDisk (state S.Store conn.new) → IfOk result (λ found. (M : Catalogue) × Rests found.0 (state S.Store conn.new) M × (summary_of M ≡ summary_shown found.1) × IsHeldIndexed found.0 (state S.Store conn.new).committed M found.2) }
    ensures version { IfOk result (λ found. IsVersion found.0) }
    ensures range { IfOk result (λ found. IsInRange (summary_shown found.1)) }
    ensures kinds { IfErr result IsOfOpening }
    ensures failed { HasCleanDisk (state S.Store conn.new) → IfErr result (λ fault. fault ≡ Fault.Disk → HasFailedToRead (state S.Store conn.old) (state S.Store conn.new)) }
    ensures told { HasCleanDisk (state S.Store conn.new) → IfErr result (TellsOfDatabase (state S.Store conn.old).now) }
    ensures not_held { HasCleanDisk (state S.Store conn.new) → IfErr result (IsNotHeld (state S.Store conn.old).now) }
    ensures lives { HasCleanDisk (state S.Store conn.new) → IsTrue (state S.Store conn.new).is_open → IsTrue (state S.Store conn.old).is_open }
    ensures now { HasCleanDisk (state S.Store conn.new) → IsTrue (state S.Store conn.new).is_open → (state S.Store conn.new).now ≡ (state S.Store conn.old).now }
    ensures committed { HasCleanDisk (state S.Store conn.new) → IsTrue (state S.Store conn.new).is_open → (state S.Store conn.new).committed ≡ (state S.Store conn.old).committed }
    ensures autocommit { conn.new.in_transaction ≡ false }
    ensures survives { Survives (state S.Store conn.old) (state S.Store conn.new) (λ _. ⊥) }
{
    held_is_marked();
    summaries_in_range();
    let found = read_catalogue(alloc, conn)?;
    let within = is_in_range(alloc, &found.1)?;
    if !within {
        return Err(Fault::Disk);
    }
    Ok(found)
}

// Makes tables of the known version of those of a database that was read, where they are of an older one: of the same catalogue, by
// one commit.
fn renew<S: Alter>(
    alloc: Global,
    conn: &mut Connection<S>,
    version: u64,
    summary: &Summary,
) -> Result<(), Fault>
    requires autocommit { conn.old.in_transaction ≡ false }
    requires version { IsVersion version }
    requires holds { HasCleanDisk (state S.Store conn.old) → (M : Catalogue) × Rests version (state S.Store conn.old) M × (summary_of M ≡ summary_shown summary.now) }
    ensures rests { HasCleanDisk (state S.Store conn.new) → OnOk result ((M : Catalogue) → Holds version (state S.Store conn.old).committed M → Rests known (state S.Store conn.new) M) }
    ensures cut { HasCleanDisk (state S.Store conn.new) → OnOk result ((M : Catalogue) (indexes : List (ℕ × List Indexed)) → IsHeldIndexed version (state S.Store conn.old).committed M indexes → AreHeldCut (state S.Store conn.new).committed M indexes) }
    ensures others { HasCleanDisk (state S.Store conn.new) → OnOk result (SparesOthers (state S.Store conn.old).committed (state S.Store conn.new).committed) }
    ensures beside { Survives (state S.Store conn.old) (state S.Store conn.new) (MayCommitBeside (state S.Store conn.old)) }
    ensures moved { HasCleanDisk (state S.Store conn.new) → OnOk result (version < known → IsRenewedFrom version (summary_shown summary.now) (state S.Store conn.old).committed (state S.Store conn.new).committed) }
    ensures unwritten { version ≡ known → conn.new ≡ conn.old }
    ensures lives { HasCleanDisk (state S.Store conn.new) → IsTrue (state S.Store conn.new).is_open → IsTrue (state S.Store conn.old).is_open }
    ensures stays { HasCleanDisk (state S.Store conn.new) → OnErr result (StaysCommitted (state S.Store conn.old) (state S.Store conn.new)) }
    ensures failed { HasCleanDisk (state S.Store conn.new) → IfErr result (λ fault. (version < known) × FailsToMigrate S.Store version (summary_shown summary.now) conn.old conn.new fault) }
    ensures kinds { IfErr result IsOfStore }
    ensures autocommit { conn.new.in_transaction ≡ false }
    ensures adds_none { IfErr result (λ fault. is_disk fault ≡ false → Survives (state S.Store conn.old) (state S.Store conn.new) (λ _. ⊥)) }
    ensures crash { Survives (state S.Store conn.old) (state S.Store conn.new) (MayMigrate (state S.Store conn.old)) }
{
    if version < KNOWN_VERSION {
        migrate(alloc, conn, version, summary)
    } else {
        Ok(())
    }
}

// Reads a database whole, whose tables are those of the known version then: the summary of the catalogue that it holds, the indexes of its
// editions, and the numbers under which there are parts of none.
fn read_renewed<S: Alter>(
    alloc: Global,
    conn: &mut Connection<S>,
) -> Result<(Summary, Indexes, Vec<u64>), Fault>
    requires { conn.old.in_transaction ≡ false }
    ensures rests { HasCleanDisk (state S.Store conn.new) → IfOk result (λ found. (M : Catalogue) × Rests known (state S.Store conn.new) M × (summary_of M ≡ summary_shown found.0) × AreHeldCut (state S.Store conn.new).committed M found.1) }
    ensures every { HasCleanDisk (state S.Store conn.new) → IfOk result (λ found. (M : Catalogue) → IsHeld (state S.Store conn.old).committed M → Rests known (state S.Store conn.new) M × (summary_of M ≡ summary_shown found.0) × AreHeldCut (state S.Store conn.new).committed M found.1) }
    ensures same { HasCleanDisk (state S.Store conn.new) → OnOk result ((M : Catalogue) → IsHeld (state S.Store conn.old).committed M ↔ Holds known (state S.Store conn.new).committed M) }
    ensures others { HasCleanDisk (state S.Store conn.new) → OnOk result (SparesOthers (state S.Store conn.old).committed (state S.Store conn.new).committed) }
    ensures beside { Survives (state S.Store conn.old) (state S.Store conn.new) (MayCommitBeside (state S.Store conn.old)) }
    ensures moved { HasCleanDisk (state S.Store conn.new) → OnOk result ((version : ℕ) (M : Catalogue) → version < known → Holds version (state S.Store conn.old).committed M → IsRenewedFrom version (summary_of M) (state S.Store conn.old).committed (state S.Store conn.new).committed) }
    ensures unwritten { HasCleanDisk (state S.Store conn.new) → OnOk result ((M : Catalogue) → Holds known (state S.Store conn.old).committed M → (state S.Store conn.new).committed ≡ (state S.Store conn.old).committed) }
    ensures range { IfOk result (λ found. IsInRange (summary_shown found.0)) }
    ensures kinds { IfErr result IsOfOpening }
    ensures failed { HasCleanDisk (state S.Store conn.new) → IfErr result (λ fault. fault ≡ Fault.Disk → FailsToOpen S.Store conn.old conn.new) }
    ensures told { HasCleanDisk (state S.Store conn.new) → IfErr result (TellsOfDatabase (state S.Store conn.old).now) }
    ensures not_held { HasCleanDisk (state S.Store conn.new) → IfErr result (IsNotHeld (state S.Store conn.old).now) }
    ensures lives { HasCleanDisk (state S.Store conn.new) → IsTrue (state S.Store conn.new).is_open → IsTrue (state S.Store conn.old).is_open }
    ensures stays { HasCleanDisk (state S.Store conn.new) → OnErr result (IsTrue (state S.Store conn.new).is_open → ((state S.Store conn.new).now ≡ (state S.Store conn.old).now) × ((state S.Store conn.new).committed ≡ (state S.Store conn.old).committed)) }
    ensures autocommit { conn.new.in_transaction ≡ false }
    ensures adds_none { IfErr result (λ fault. is_disk fault ≡ false → Survives (state S.Store conn.old) (state S.Store conn.new) (λ _. ⊥)) }
    ensures crash { Survives (state S.Store conn.old) (state S.Store conn.new) (MayMigrate (state S.Store conn.old)) }
{
    one_is_held();
    let (version, summary, indexes, orphans) = read(alloc, conn)?;
    renew(alloc, conn, version, &summary)?;
    Ok((summary, indexes, orphans))
}

// Reads a database whole whose tables are those of the known version. Nothing is written.
fn read_again<S: Alter>(alloc: Global, conn: &mut Connection<S>) -> Result<(), Fault>
    requires autocommit { conn.old.in_transaction ≡ false }
    requires holds { HasCleanDisk (state S.Store conn.old) → IsTrue (state S.Store conn.old).is_open → (M : Catalogue) × Rests known (state S.Store conn.old) M }
    ensures rests { HasCleanDisk (state S.Store conn.new) → OnOk result ((M : Catalogue) × Rests known (state S.Store conn.new) M) }
    ensures kinds { IfErr result IsOfOpening }
    ensures failed { HasCleanDisk (state S.Store conn.new) → IfErr result (λ fault. fault ≡ Fault.Disk → HasFailedToRead (state S.Store conn.old) (state S.Store conn.new)) }
    ensures told { HasCleanDisk (state S.Store conn.new) → IfErr result (TellsOfDatabase (state S.Store conn.old).now) }
    ensures not_held { HasCleanDisk (state S.Store conn.new) → IfErr result (IsNotHeld (state S.Store conn.old).now) }
    ensures lives { HasCleanDisk (state S.Store conn.new) → IsTrue (state S.Store conn.new).is_open → IsTrue (state S.Store conn.old).is_open }
    ensures now { HasCleanDisk (state S.Store conn.new) → IsTrue (state S.Store conn.new).is_open → (state S.Store conn.new).now ≡ (state S.Store conn.old).now }
    ensures committed { HasCleanDisk (state S.Store conn.new) → IsTrue (state S.Store conn.new).is_open → (state S.Store conn.new).committed ≡ (state S.Store conn.old).committed }
    ensures autocommit { conn.new.in_transaction ≡ false }
    ensures survives { Survives (state S.Store conn.old) (state S.Store conn.new) (λ _. ⊥) }
{
    one_is_held();
    match read(alloc, conn) {
        Ok((version, _, _, _)) => {
            if version == KNOWN_VERSION {
                Ok(())
            } else {
                Err(Fault::Disk)
            }
        }
        Err(fault) => Err(fault),
    }
}

// The same, told of what is committed, which an open store shows: first a reply is looked up that isn't kept, by which a store that is shut
// tells that it is.
fn read_committed<S: Alter>(alloc: Global, conn: &mut Connection<S>) -> Result<(), Fault>
    requires autocommit { conn.old.in_transaction ≡ false }
    requires holds { HasCleanDisk (state S.Store conn.old) → IsTrue (state S.Store conn.old).is_open → (M : Catalogue) × Rests known (state S.Store conn.old) M }
    ensures rests { HasCleanDisk (state S.Store conn.new) → OnOk result ((M : Catalogue) × Rests known (state S.Store conn.new) M) }
    ensures kinds { IfErr result IsOfOpening }
    ensures failed { HasCleanDisk (state S.Store conn.new) → IfErr result (λ fault. fault ≡ Fault.Disk → HasFailedToRead (state S.Store conn.old) (state S.Store conn.new)) }
    ensures told { HasCleanDisk (state S.Store conn.new) → IfErr result (TellsOfDatabase (state S.Store conn.old).committed) }
    ensures not_held { HasCleanDisk (state S.Store conn.new) → IfErr result (IsNotHeld (state S.Store conn.old).committed) }
    ensures stays { HasCleanDisk (state S.Store conn.new) → StaysCommitted (state S.Store conn.old) (state S.Store conn.new) }
    ensures autocommit { conn.new.in_transaction ≡ false }
    ensures survives { Survives (state S.Store conn.old) (state S.Store conn.new) (λ _. ⊥) }
{
    let _reply = match kept_reply(alloc, conn, "") {
        Ok(reply) => reply,
        Err(fault) => return Err(fault),
    };
    read_again(alloc, conn)
}

impl<S: Alter + Drop> Desk<S> {
    /// A desk over a database that holds a catalogue, the only one that it holds. It is read whole. A stop leaves the catalogue
    /// that the desk shows, and no other.
    ///
    /// Where it is to be `indexed`, the index of each edition is made as far as there is memory: else the first lookup in an edition makes it, and
    /// waits for it.
    ///
    /// Tables of the known version are not written to. Of tables of an older one those of the known one are made, of the same
    /// catalogue, by one commit: stopped in it, the next opening finds the one or the other.
    ///
    /// At a fault the connection is handed back. `NotACatalogue`: there is no readable mark. `NewerSchema`: the mark's
    /// version is above the one that is known. `Damaged`: the tables hold no catalogue. They are tested in this order, before anything
    /// is written. `Memory`: a growth was refused; nothing is changed. `Disk`: the store failed; where tables were being made, the next
    /// opening tells which are there. The connection's limit on steps is taken away.
    pub fn adopt(
        alloc: Global,
        conn: Connection<S>,
        indexed: bool,
    ) -> Result<Desk<S>, (Connection<S>, Fault)>
        requires { conn.in_transaction ≡ false }
        ensures adopted { IfOk result (IsAdopted S.Store conn) }
        ensures held { IfOk result (λ desk. HasCleanDisk (state S.Store desk.conn) → (M : Catalogue) → IsHeld (state S.Store conn).committed M → Shows S.Store desk M) }
        ensures left { IfOk result (λ desk. HasCleanDisk (state S.Store desk.conn) → (M : Catalogue) → IsLeft M (state S.Store conn).committed.trees → Shows S.Store desk M) }
        ensures ended { IfOk result (λ desk. desk.conn.in_transaction ≡ false) }
        ensures rejected { IfErr result (λ left. IsNotAdopted S.Store conn left.0 left.1) }
        ensures handed { IfErr result (λ left. left.0.in_transaction ≡ false) }
        ensures not_left { IfErr result (λ left. HasCleanDisk (state S.Store left.0) → IsTrue (state S.Store conn).is_open → IsNotLeft (state S.Store conn).now.trees left.1) }
        ensures failed { IfErr result (λ left. HasCleanDisk (state S.Store left.0) → left.1 ≡ Fault.Disk → FailsToOpen S.Store (record conn { step_limit = None }) left.0) }
    {
        let mut conn = conn;
        is_whole(&conn);
        conn.set_step_limit(None);
        match read_renewed(alloc, &mut conn) {
            Ok((summary, mut indexes, orphans)) => {
                is_whole(&conn);
                index_if(indexed, &mut indexes, &summary.items);
                Ok(Desk::over(alloc, conn, summary, indexes, orphans))
            }
            Err(fault) => Err((conn, fault)),
        }
    }

    /// Reads the database whole again, as `adopt` does: what is committed. Nothing is written: no tables are made. What is prepared is
    /// let go of first.
    ///
    /// `Ok`: it holds a catalogue, and the desk goes on. `Damaged`, `NewerSchema` and `NotACatalogue` tell what `adopt` would.
    /// `Memory`: a growth was refused. `Disk`: the store failed, and the desk is closed. `Closed`: it was so before.
    pub fn audit(&mut self) -> Result<(), Fault>
        ensures sound { IfOk result (λ _. HasCleanDisk (state S.Store self.new.conn) → (M : Catalogue) × Rests known (state S.Store self.new.conn) M) }
        ensures told { IfErr result (λ fault. HasCleanDisk (state S.Store self.new.conn) → TellsOfDatabase (state S.Store self.old.conn).committed fault) }
        ensures not_held { IfErr result (λ fault. HasCleanDisk (state S.Store self.new.conn) → IsNotHeld (state S.Store self.old.conn).committed fault) }
        ensures broken { HasCleanDisk (state S.Store self.new.conn) → IfErr result (λ fault. fault ≡ Fault.Disk → HasFailedToRead (state S.Store self.old.conn) (state S.Store self.new.conn)) }
        ensures shows { HasCleanDisk (state S.Store self.new.conn) → (M : Catalogue) → Shows S.Store self.old M → Shows S.Store self.new M }
        ensures spares { Survives (state S.Store self.old.conn) (state S.Store self.new.conn) (λ _. ⊥) }
        ensures same { HasCleanDisk (state S.Store self.new.conn) → IsTrue (state S.Store self.new.conn).is_open → (state S.Store self.new.conn).committed ≡ (state S.Store self.old.conn).committed }
        ensures closes { is_closed self.new.last ≡ (is_closed self.old.last || has_closed_by result) }
        ensures failed { has_failed self.new.last ≡ has_failed_by result }
        ensures closed { is_closed self.old.last ≡ true → result ≡ Err Fault.Closed }
        ensures kinds { is_closed self.old.last ≡ false → IfErr result IsOfOpening }
    {
        self.withdraw()?;
        let outcome = read_committed(self.alloc, &mut self.conn);
        self.last = last_by(&outcome);
        forget_by(&mut self.texts, self.last);
        outcome
    }
}
