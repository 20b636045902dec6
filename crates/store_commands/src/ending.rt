// An install whose edition is filed.
ghost use Rattle.std.specs.Prelude.{◌≡◌, ℕ, List, true, false, None, IsTrue, IfErr, IfNone, IfSome, OnErr, OnOk, string_bytes};
ghost use Rattle.sqlite.specs.Effect.{IsDatabase};
ghost use Rattle.sqlite.specs.State.{HasCleanDisk, IsUnchanged, Survives};
ghost use Rattle.sqlite.specs.Held.{state};
ghost use Rattle.dict_text.specs.Names.{is_request_id};
ghost use Rattle.store_tables.specs.Effects.{WhileOpen};
ghost use Rattle.dict_index.specs.Edition.{ReadEdition, edition_of};
ghost use Rattle.dict_index.specs.Meaning.{IsRead, IsReadEdition};
ghost use Rattle.dict_catalogue.specs.Commands.{install};
ghost use Rattle.dict_catalogue.specs.Steps.{Catalogue, summary_of, kept_under, step};
ghost use Rattle.dict_catalogue.specs.Views.{summary_shown, IsChange};
ghost use Rattle.dict_desk.specs.Faults.{is_disk, is_failure};
ghost use Rattle.store_rows.specs.Stored.{stored_index};
ghost use Rattle.store_rows.specs.Versions.{known};
ghost use Rattle.store_holdings.specs.AllTables.{all_after};
ghost use Rattle.store_holdings.specs.Holds.{Rests};
ghost use Rattle.store_holdings.specs.Writing.{FailsToEnd};
ghost use Rattle.store_commands.specs.KeptRecords.{IsUsable, TurnsRecords};
ghost use Rattle.store_commands.specs.Changes.{change_by, finished, installed_by, IsInRange, IsWritable};
ghost use Rattle.store_commands.specs.Statements.{finishing};
ghost use Rattle.store_holdings.specs.Committed.{IsCommitted, IsTreesOf};
ghost use Rattle.store_commands.specs.Committed.{IsOfStore, StaysCommitted};
ghost use Rattle.store_commands.specs.Answers.{HoldsBy, Answers};
ghost use Rattle.store_commands.specs.Installs.{IsReadInstall, install_read};
ghost use Rattle.store_commands.specs.Installed.{HasInstalled};
ghost use Rattle.store_commands.specs.Writes.{WroteStatements, FailsToWrite, CommitsNothing};
ghost use Rattle.store_commands.specs.Filing.{IsOfEdition, IsFiledSoFar};
ghost use Rattle.store_commands.specs.Finishing.{AwaitsRest, IsFinished, IsAppliedOver, FailsToFinish};

use crate::applied::Applied;
use crate::editions::header_row;
use crate::filing::Filing;
use crate::reads::ReadInstall;
use crate::replies::kept_reply;
use crate::titled::decide_install;
use crate::writing::write_rest;
use dict_catalogue::{PlannedChange, Summary};
use dict_desk::Fault;
use dict_index::one_meaning;
use dict_reading::Reading;
use dict_text::is_request_id;
use sqlite::{Alter, Connection, Error};
use std::alloc::Global;
use store_holdings::fault_of;
use store_tables::commit::commit;
use store_tables::transaction::OpenTransaction;

// Whether the change is under the filing's number.
fn is_planned_so(filing: &Filing, change: &PlannedChange) -> bool
    ensures { IsTrue result → (name : List ℕ) (reading : ReadEdition) → filing.now.index.items ≡ stored_index reading.lines → filing.now.text.items ≡ reading.text
        → IsOfEdition filing.now (installed_by change.now.summary.installs (install_read name reading)) }
{
    filing.number == change.summary.installs
}

// What an install does, where all of its edition is filed, and no reply is kept under the id.
fn read_change<S: Alter>(
    alloc: Global,
    conn: &mut Connection<S>,
    summary: &Summary,
    id: &str,
    whole: &ReadInstall,
    reading: &Reading<'_>,
) -> Option<PlannedChange>
    requires read { IsReadEdition whole.now.came.items whole.now.filing.text.items reading.now }
    requires known { IsReadInstall whole.now }
    requires autocommit { conn.old.in_transaction ≡ false }
    requires filed { IsFiledSoFar whole.now.filing (state S.Store conn.old) }
    requires holds { HoldsBy (summary_shown summary.now) (state S.Store conn.old) }
    requires range { IsInRange (summary_shown summary.now) }
    ensures planned { IfSome result (λ change. IsChange (summary_shown summary.now) (install (string_bytes whole.now.name) reading.now.title) change × IsWritable change × IsInRange (summary_shown change.summary)) }
    ensures autocommit { conn.new.in_transaction ≡ false }
    ensures same { IfSome result (λ _. HasCleanDisk (state S.Store conn.new) → IsUnchanged (state S.Store conn.old) (state S.Store conn.new)) }
    ensures awaits { IfSome result (λ change. HasCleanDisk (state S.Store conn.new) → IsTrue (state S.Store conn.new).is_open → AwaitsRest (change_by id.now (install_read (string_bytes whole.now.name) reading.now) change) (state S.Store conn.new).now) }
    ensures left { HasCleanDisk (state S.Store conn.new) → IfNone result (StaysCommitted (state S.Store conn.old) (state S.Store conn.new)) }
    ensures free { IfSome result (λ _. HasCleanDisk (state S.Store conn.new) → (M : Catalogue) → Rests known (state S.Store conn.new) M → kept_under M.kept id.now ≡ None) }
    ensures survives { Survives (state S.Store conn.old) (state S.Store conn.new) (λ _. ⊥) }
{
    if !whole.filing.is_whole() {
        return None;
    }
    let Some(change) = decide_install(alloc, summary, whole.name.as_str(), reading.title()) else {
        return None;
    };
    if !is_planned_so(&whole.filing, &change) {
        drop(change);
        return None;
    }
    let Ok(None) = kept_reply(alloc, conn, id) else {
        drop(change);
        return None;
    };
    Some(change)
}

// Writes what is left of a planned install behind what was filed.
fn write_read<S: Alter, T: OpenTransaction<S>>(
    tx: &mut T,
    id: &str,
    name: &str,
    reading: &Reading<'_>,
    change: &PlannedChange,
) -> Result<(), Error>
    requires writable { IsWritable change.now }
    requires usable { WhileOpen (state S.Store (T.held tx.old)) IsUsable }
    ensures same_reference { T.reference tx.new ≡ T.reference tx.old }
    ensures wrote { OnOk result (WroteStatements S.Store (finishing known (change_by id.now (install_read name.now reading.now) change.now)) (finished (change_by id.now (install_read name.now reading.now) change.now)) (T.held tx.old) (T.held tx.new)) }
    ensures sound { HasCleanDisk (state S.Store (T.held tx.new)) → OnOk result (IsDatabase (state S.Store (T.held tx.new)).now) }
    ensures inside { HasCleanDisk (state S.Store (T.held tx.new)) → OnOk result ((state S.Store (T.held tx.new)).in_transaction ≡ true) }
    ensures failed { IfErr result (FailsToWrite S.Store (finishing known (change_by id.now (install_read name.now reading.now) change.now)) (T.held tx.old) (T.held tx.new)) }
    ensures spares { CommitsNothing S.Store (T.held tx.old) (T.held tx.new) }
{
    let header = header_row(
        name,
        change.summary.installs,
        reading.title(),
        reading.info(),
    );
    write_rest(tx, id, change, Some(&header))
}

// Makes the rest of a planned install by one commit.
fn commit_read<S: Alter>(
    conn: &mut Connection<S>,
    id: &str,
    name: &str,
    reading: &Reading<'_>,
    change: &PlannedChange,
) -> Result<(), Fault>
    requires writable { IsWritable change.now }
    requires autocommit { conn.old.in_transaction ≡ false }
    requires awaits { HasCleanDisk (state S.Store conn.old) → IsTrue (state S.Store conn.old).is_open → AwaitsRest (change_by id.now (install_read name.now reading.now) change.now) (state S.Store conn.old).now }
    requires usable { WhileOpen (state S.Store conn.old) IsUsable }
    ensures made { HasCleanDisk (state S.Store conn.new) → OnOk result (IsCommitted (TurnsRecords (all_after known (change_by id.now (install_read name.now reading.now) change.now)) (state S.Store conn.old).now) (state S.Store conn.new)) }
    ensures stays { HasCleanDisk (state S.Store conn.new) → OnErr result (StaysCommitted (state S.Store conn.old) (state S.Store conn.new)) }
    ensures lives { HasCleanDisk (state S.Store conn.new) → IsTrue (state S.Store conn.new).is_open → IsTrue (state S.Store conn.old).is_open }
    ensures adds_none { IfErr result (λ fault. is_disk fault ≡ false → Survives (state S.Store conn.old) (state S.Store conn.new) (λ _. ⊥)) }
    ensures failed { HasCleanDisk (state S.Store conn.new) → IfErr result (FailsToEnd S.Store (finishing known (change_by id.now (install_read name.now reading.now) change.now)) (TurnsRecords (all_after known (change_by id.now (install_read name.now reading.now) change.now)) (state S.Store conn.old).now) conn.old conn.new) }
    ensures kinds { IfErr result IsOfStore }
    ensures autocommit { (state S.Store conn.new).in_transaction ≡ false }
    ensures crash { Survives (state S.Store conn.old) (state S.Store conn.new) (λ trees. IsTrue (state S.Store conn.old).is_open × IsTreesOf (TurnsRecords (all_after known (change_by id.now (install_read name.now reading.now) change.now)) (state S.Store conn.old).now) trees) }
{
    let mut tx = conn.transaction();
    if let Err(error) = write_read(&mut tx, id, name, reading, change) {
        return Err(fault_of(error));
    }
    match commit(tx) {
        Ok(()) => Ok(()),
        Err(_) => Err(Fault::Disk),
    }
}

// Makes the rest of an install whose edition was filed, of which this was planned.
fn apply_planned<S: Alter>(
    conn: &mut Connection<S>,
    summary: &Summary,
    id: &str,
    name: &str,
    reading: &Reading<'_>,
    change: PlannedChange,
) -> Result<Applied, Fault>
    requires id { is_request_id id.now ≡ true }
    requires read { IsRead reading.now }
    requires autocommit { conn.old.in_transaction ≡ false }
    requires planned { IsChange (summary_shown summary.now) (install name.now reading.now.title) change × IsWritable change × IsInRange (summary_shown change.summary) }
    requires awaits { HasCleanDisk (state S.Store conn.old) → IsTrue (state S.Store conn.old).is_open → AwaitsRest (change_by id.now (install_read name.now reading.now) change) (state S.Store conn.old).now }
    requires free { HasCleanDisk (state S.Store conn.old) → (M : Catalogue) → Rests known (state S.Store conn.old) M → kept_under M.kept id.now ≡ None }
    requires holds { HoldsBy (summary_shown summary.now) (state S.Store conn.old) }
    requires range { IsInRange (summary_shown summary.now) }
    ensures applied { IsAppliedOver (summary_shown summary.now) id.now (install name.now (edition_of reading.now)) (state S.Store conn.old) (state S.Store conn.new) result }
    ensures failed { HasCleanDisk (state S.Store conn.new) → IfErr result (λ fault. is_failure fault ≡ true → FailsToFinish S.Store (summary_shown summary.now) id.now (install name.now (edition_of reading.now)) conn.old conn.new fault) }
    ensures installed { HasCleanDisk (state S.Store conn.new) → IsTrue (state S.Store conn.new).is_open → HasInstalled (install_read name.now reading.now) result (state S.Store conn.new).committed }
    ensures stays { HasCleanDisk (state S.Store conn.new) → IsTrue (state S.Store conn.new).is_open → OnErr result ((state S.Store conn.new).committed ≡ (state S.Store conn.old).committed) }
{
    if let Err(fault) = commit_read(conn, id, name, reading, &change) {
        drop(change);
        return Err(fault);
    }
    let PlannedChange {
        summary,
        gone,
        kept,
    } = change;
    drop(gone);
    Ok(Applied::Done(kept, summary))
}

// The rest of an install, where its edition is filed, as this reading of it says.
fn apply_reading<S: Alter>(
    alloc: Global,
    conn: &mut Connection<S>,
    summary: &Summary,
    id: &str,
    whole: &ReadInstall,
    reading: &Reading<'_>,
) -> Option<Result<Applied, Fault>>
    requires id { is_request_id id.now ≡ true }
    requires read { IsReadEdition whole.now.came.items whole.now.filing.text.items reading.now }
    requires known { IsReadInstall whole.now }
    requires autocommit { conn.old.in_transaction ≡ false }
    requires filed { IsFiledSoFar whole.now.filing (state S.Store conn.old) }
    requires holds { HoldsBy (summary_shown summary.now) (state S.Store conn.old) }
    requires range { IsInRange (summary_shown summary.now) }
    ensures finished { IfSome result (IsFinished S.Store (summary_shown summary.now) id.now (string_bytes whole.now.name) reading.now conn.old conn.new) }
    ensures left { HasCleanDisk (state S.Store conn.new) → IfNone result (StaysCommitted (state S.Store conn.old) (state S.Store conn.new)) }
    ensures ended { conn.new.in_transaction ≡ false }
    ensures survives { IfNone result (Survives (state S.Store conn.old) (state S.Store conn.new) (λ _. ⊥)) }
{
    let Some(change) = read_change(alloc, conn, summary, id, whole, reading) else {
        return None;
    };
    let name = whole.name.as_str();
    Some(apply_planned(conn, summary, id, name, reading, change))
}

// The same, of whatever the files say.
fn apply_files<S: Alter>(
    alloc: Global,
    conn: &mut Connection<S>,
    summary: &Summary,
    id: &str,
    whole: &ReadInstall,
) -> Option<Result<Applied, Fault>>
    requires known { IsReadInstall whole.now }
    requires autocommit { conn.old.in_transaction ≡ false }
    requires filed { IsFiledSoFar whole.now.filing (state S.Store conn.old) }
    requires holds { HoldsBy (summary_shown summary.now) (state S.Store conn.old) }
    requires range { IsInRange (summary_shown summary.now) }
    ensures finished { IfSome result (λ outcome. (reading : ReadEdition) × IsReadEdition whole.now.came.items whole.now.filing.text.items reading × IsFinished S.Store (summary_shown summary.now) id.now (string_bytes whole.now.name) reading conn.old conn.new outcome) }
    ensures left { HasCleanDisk (state S.Store conn.new) → IfNone result (StaysCommitted (state S.Store conn.old) (state S.Store conn.new)) }
    ensures ended { conn.new.in_transaction ≡ false }
    ensures survives { IfNone result (Survives (state S.Store conn.old) (state S.Store conn.new) (λ _. ⊥)) }
{
    if !is_request_id(id) {
        return None;
    }
    let Some(reading) = whole.reading() else {
        return None;
    };
    apply_reading(alloc, conn, summary, id, whole, &reading)
}

/// Applies an install whose edition was read and filed by the id of the request: the rest of the command is written, and committed. No line is
/// read again, and no part is written.
///
/// The answer is that of `apply` where the one edition that its files say is installed under its name. None, and nothing was written: not all of
/// it is filed; another number is next; the summary refuses the install, a reply is kept under the id, or that is unlawful; or there is no memory,
/// or the store failed at a look. The command may then be applied as if nothing had been filed. No transaction is open then.
pub fn apply_read<S: Alter>(
    alloc: Global,
    conn: &mut Connection<S>,
    summary: &Summary,
    id: &str,
    whole: &ReadInstall,
) -> Option<Result<Applied, Fault>>
    requires known { IsReadInstall whole.now }
    requires autocommit { conn.old.in_transaction ≡ false }
    requires filed { IsFiledSoFar whole.now.filing (state S.Store conn.old) }
    requires holds { HoldsBy (summary_shown summary.now) (state S.Store conn.old) }
    requires range { IsInRange (summary_shown summary.now) }
    ensures finished { IfSome result (λ outcome. (reading : ReadEdition) × IsReadEdition whole.now.came.items whole.now.filing.text.items reading × IsFinished S.Store (summary_shown summary.now) id.now (string_bytes whole.now.name) reading conn.old conn.new outcome) }
    ensures value { HasCleanDisk (state S.Store conn.new) → (M : Catalogue) → Rests known (state S.Store conn.old) M → summary_of M ≡ summary_shown summary.now
        → IfSome result (λ outcome. (reading : ReadEdition) → IsReadEdition whole.now.came.items whole.now.filing.text.items reading → Answers (state S.Store conn.new) M id.now (step M id.now (install (string_bytes whole.now.name) (edition_of reading))) outcome) }
    ensures stays { HasCleanDisk (state S.Store conn.new) → IfNone result (StaysCommitted (state S.Store conn.old) (state S.Store conn.new)) }
    ensures ended { conn.new.in_transaction ≡ false }
    ensures settled { HasCleanDisk (state S.Store conn.new) → IsTrue (state S.Store conn.new).is_open → (state S.Store conn.new).now ≡ (state S.Store conn.new).committed }
    ensures survives { IfNone result (Survives (state S.Store conn.old) (state S.Store conn.new) (λ _. ⊥)) }
{
    one_meaning();
    apply_files(alloc, conn, summary, id, whole)
}
