// A database of an older version becomes one of the next, in one transaction.
ghost use Rattle.std.specs.Prelude.{◌≡◌, ◌≤◌, ◌<◌, true, false, map, pos, Option, Some, IsTrue, IfOk, IfErr, OnOk, OnErr};
ghost use Rattle.sqlite.specs.Effect.{IsDatabase};
ghost use Rattle.sqlite.specs.Held.{state};
ghost use Rattle.sqlite.specs.State.{HasCleanDisk, IsLive, KeepsCommit, Survives};
ghost use Rattle.sqlite.specs.Tree.{Trees};
ghost use Rattle.dict_catalogue.specs.Items.{edition_numbers as numbers_in};
ghost use Rattle.dict_catalogue.specs.Steps.{Catalogue, summary_of};
ghost use Rattle.dict_catalogue.specs.Views.{summary_shown};
ghost use Rattle.dict_desk.specs.Faults.{is_disk};
ghost use Rattle.store_tables.specs.Typed.{owned_header};
ghost use Rattle.store_rows.specs.Versions.{layout_of, known};
ghost use Rattle.store_tables.specs.Effects.{WhileOpen};
ghost use Rattle.store_holdings.specs.Holds.{Holds, IsLeftAs, Rests};
ghost use Rattle.store_holdings.specs.Writing.{StaysCommitted};
ghost use Rattle.store_migration.specs.Migrated.{IsMigrated, MayMigrate};
ghost use Rattle.store_holdings.specs.Committed.{IsCommitted, IsTreesOf};
ghost use Rattle.store_migration.specs.Moved.{AreTakenApart, IsOutcome, IsRenewedFrom};
ghost use Rattle.store_migration.specs.Older.{IsOld, layout_as, layout_before};
ghost use Rattle.store_migration.specs.FailurePlaces.{InApart, InMove, InRenewal};
ghost use Rattle.store_migration.specs.Spared.{SparesOthers};
ghost use Rattle.store_migration.specs.Failing.{MigrationFailsInside, MigrationFailsToEnd, FailsToMigrate, FailsToSign};
ghost use Rattle.store_holdings.specs.Faults.{IsOfStore};

use crate::dropping::drop_old;
use crate::editions::part_editions;
use crate::heading::head_editions;
use crate::marking::renew_mark;
use crate::older::Older;
use dict_catalogue::{Summary, edition_numbers};
use dict_desk::Fault;
use sqlite::{Alter, Connection};
use std::alloc::Global;
use store_holdings::fault_of_read;
use store_rows::signed_numbers;
use store_sql::part_statements::create_part_table;
use store_sql::records::ReadError;
use store_tables::HeaderRecord;
use store_tables::commit::commit;
use store_tables::transaction::OpenTransaction;

/// The greatest number that a column holds.
const MAX_NUMBER: u64 = 9_223_372_036_854_775_807;

/// The older version whose tables are laid out as those of the known one.
const LAID_OUT: u64 = 5;

// Makes the table of parts, puts the files of these editions in, and drops the old tables. It answers the editions' headers.
fn take_apart<S: Alter, T: OpenTransaction<S>>(
    alloc: Global,
    tx: &mut T,
    layout: Older,
    numbers: &[i64],
) -> Result<Vec<HeaderRecord<String>>, ReadError>
    requires { WhileOpen (state S.Store (T.held tx.old)) (IsOld (layout_as layout)) }
    ensures same_reference { T.reference tx.new ≡ T.reference tx.old }
    ensures apart { HasCleanDisk (state S.Store (T.held tx.new)) → IfOk result (λ headers. AreTakenApart layout numbers.now (map owned_header headers.items) (state S.Store (T.held tx.old)).now (state S.Store (T.held tx.new)).now) }
    ensures opened { HasCleanDisk (state S.Store (T.held tx.new)) → OnOk result (IsTrue (state S.Store (T.held tx.old)).is_open) }
    ensures inside { HasCleanDisk (state S.Store (T.held tx.new)) → OnOk result ((state S.Store (T.held tx.new)).in_transaction ≡ true) }
    ensures failed { HasCleanDisk (state S.Store (T.held tx.new)) → IfErr result (MigrationFailsInside S.Store (InApart layout numbers.now) (T.held tx.old) (T.held tx.new)) }
    ensures keeps { HasCleanDisk (state S.Store (T.held tx.new)) → KeepsCommit (state S.Store (T.held tx.old)) (state S.Store (T.held tx.new)) }
    ensures survives { Survives (state S.Store (T.held tx.old)) (state S.Store (T.held tx.new)) (λ _. ⊥) }
{
    create_part_table(tx)?;
    let headers = part_editions(alloc, tx, layout, numbers)?;
    drop_old(tx, layout)?;
    Ok(headers)
}

// All that is done before the commit to tables that an older version laid out.
fn move_tables<S: Alter, T: OpenTransaction<S>>(
    alloc: Global,
    tx: &mut T,
    layout: Older,
    numbers: &[i64],
    installs: u64,
) -> Result<(), ReadError>
    requires installs { installs ≤ 9223372036854775807 }
    requires old { WhileOpen (state S.Store (T.held tx.old)) (IsOld (layout_as layout)) }
    ensures same_reference { T.reference tx.new ≡ T.reference tx.old }
    ensures moved { HasCleanDisk (state S.Store (T.held tx.new)) → OnOk result (IsOutcome (Some layout) numbers.now installs (state S.Store (T.held tx.old)) (state S.Store (T.held tx.new)).now × IsDatabase (state S.Store (T.held tx.new)).now) }
    ensures inside { HasCleanDisk (state S.Store (T.held tx.new)) → OnOk result ((state S.Store (T.held tx.new)).in_transaction ≡ true) }
    ensures failed { HasCleanDisk (state S.Store (T.held tx.new)) → IfErr result (MigrationFailsInside S.Store (InMove layout numbers.now installs) (T.held tx.old) (T.held tx.new)) }
    ensures keeps { HasCleanDisk (state S.Store (T.held tx.new)) → KeepsCommit (state S.Store (T.held tx.old)) (state S.Store (T.held tx.new)) }
    ensures survives { Survives (state S.Store (T.held tx.old)) (state S.Store (T.held tx.new)) (λ _. ⊥) }
{
    let headers = take_apart(alloc, tx, layout, numbers)?;
    head_editions(tx, &headers)?;
    renew_mark(tx, installs)?;
    Ok(())
}

// All that is done before the commit: of tables that are laid out as those of the known version already, the mark alone is written.
fn migrate_inside<S: Alter, T: OpenTransaction<S>>(
    alloc: Global,
    tx: &mut T,
    layout: Option<Older>,
    numbers: &[i64],
    installs: u64,
) -> Result<(), ReadError>
    requires installs { installs ≤ 9223372036854775807 }
    requires old { WhileOpen (state S.Store (T.held tx.old)) (IsOld (layout_before layout)) }
    ensures same_reference { T.reference tx.new ≡ T.reference tx.old }
    ensures moved { HasCleanDisk (state S.Store (T.held tx.new)) → OnOk result (IsOutcome layout numbers.now installs (state S.Store (T.held tx.old)) (state S.Store (T.held tx.new)).now × IsDatabase (state S.Store (T.held tx.new)).now) }
    ensures inside { HasCleanDisk (state S.Store (T.held tx.new)) → OnOk result ((state S.Store (T.held tx.new)).in_transaction ≡ true) }
    ensures failed { HasCleanDisk (state S.Store (T.held tx.new)) → IfErr result (MigrationFailsInside S.Store (InRenewal layout numbers.now installs) (T.held tx.old) (T.held tx.new)) }
    ensures keeps { HasCleanDisk (state S.Store (T.held tx.new)) → KeepsCommit (state S.Store (T.held tx.old)) (state S.Store (T.held tx.new)) }
    ensures survives { Survives (state S.Store (T.held tx.old)) (state S.Store (T.held tx.new)) (λ _. ⊥) }
{
    match layout {
        Some(older) => move_tables(alloc, tx, older, numbers, installs),
        None => Ok(renew_mark(tx, installs)?),
    }
}

// The transaction of a migration, and its commit.
fn migrate_from<S: Alter>(
    alloc: Global,
    conn: &mut Connection<S>,
    layout: Option<Older>,
    numbers: &[i64],
    installs: u64,
) -> Result<(), Fault>
    requires autocommit { conn.old.in_transaction ≡ false }
    requires installs { installs ≤ 9223372036854775807 }
    requires old { WhileOpen (state S.Store conn.old) (IsOld (layout_before layout)) }
    ensures made { HasCleanDisk (state S.Store conn.new) → OnOk result (IsCommitted (IsOutcome layout numbers.now installs (state S.Store conn.old)) (state S.Store conn.new)) }
    ensures stays { HasCleanDisk (state S.Store conn.new) → OnErr result (StaysCommitted (state S.Store conn.old) (state S.Store conn.new)) }
    ensures adds_none { IfErr result (λ fault. is_disk fault ≡ false → Survives (state S.Store conn.old) (state S.Store conn.new) (λ _. ⊥)) }
    ensures failed { HasCleanDisk (state S.Store conn.new) → IfErr result (MigrationFailsToEnd S.Store layout numbers.now installs (IsOutcome layout numbers.now installs (state S.Store conn.old)) conn.old conn.new) }
    ensures kinds { IfErr result IsOfStore }
    ensures autocommit { (state S.Store conn.new).in_transaction ≡ false }
    ensures crash { Survives (state S.Store conn.old) (state S.Store conn.new) (IsTreesOf (IsOutcome layout numbers.now installs (state S.Store conn.old))) }
{
    let mut tx = conn.transaction();
    if let Err(error) = migrate_inside(alloc, &mut tx, layout, numbers, installs) {
        return Err(fault_of_read(error));
    }
    match commit(tx) {
        Ok(()) => Ok(()),
        Err(_) => Err(Fault::Disk),
    }
}

// What an open connection shows and has committed are sound databases. It does nothing.
fn is_live<S: Alter>(conn: &Connection<S>)
    ensures { IsLive (state S.Store conn.now) }
{
    let _schema = conn.schema();
}

// The numbers of a summary's editions, as a column holds them. `NoRecord` tells that no column holds one of them.
fn numbers_of(alloc: Global, summary: &Summary) -> Result<Vec<i64>, ReadError>
    ensures same { IfOk result (λ numbers. numbers.items ≡ map pos (numbers_in (summary_shown summary.now).items)) }
    ensures failed { IfErr result (FailsToSign (numbers_in (summary_shown summary.now).items)) }
{
    let numbers = edition_numbers(alloc, &summary.items)?;
    let Some(signed) = signed_numbers(alloc, &numbers)? else {
        return Err(ReadError::NoRecord);
    };
    Ok(signed)
}

// How the tables of an older version are laid out; none, where it is as those of the known one.
fn older_layout(version: u64) -> Option<Older>
    requires older { (1 ≤ version) × (version < known) }
    ensures { layout_of version ≡ layout_before result }
{
    if version == 1 {
        return Some(Older::Plain);
    }
    if version == 4 {
        return Some(Older::Shown);
    }
    if version == LAID_OUT {
        return None;
    }
    Some(Older::Keyed)
}

/// Makes of the tables of an older version those of the known one, by one commit: of the same catalogue, the index of each edition,
/// with what is shown of each entry, and its text as parts of files. What an older version derived of headwords isn't looked at. It
/// holds one edition at a time. Of version 5, which has these tables, the mark alone is written anew. The tables of others stay as
/// they are.
///
/// `Memory` tells that a growth was refused before the commit: all is as it was. `Disk` tells that a statement failed for
/// another cause, or the commit did, for whatever cause: the next opening finds the catalogue under the older version or under
/// the known one. While the store is open, it shows what it did before.
pub fn migrate<S: Alter>(
    alloc: Global,
    conn: &mut Connection<S>,
    version: u64,
    summary: &Summary,
) -> Result<(), Fault>
    requires autocommit { conn.old.in_transaction ≡ false }
    requires older { (1 ≤ version) × (version < known) }
    requires holds { HasCleanDisk (state S.Store conn.old) → IsTrue (state S.Store conn.old).is_open → (M : Catalogue) × Rests version (state S.Store conn.old) M × (summary_of M ≡ summary_shown summary.now) }
    ensures rests { HasCleanDisk (state S.Store conn.new) → OnOk result ((M : Catalogue) → Holds version (state S.Store conn.old).committed M → Rests known (state S.Store conn.new) M) }
    ensures migrated { HasCleanDisk (state S.Store conn.new) → OnOk result (IsMigrated version (state S.Store conn.old).committed (state S.Store conn.new).committed) }
    // The tables that the older version alone has are gone, those of the known one are made and filled, and nothing else is done; or,
    // where they are laid out as those of the known one, the mark alone is another.
    ensures moved { HasCleanDisk (state S.Store conn.new) → OnOk result (IsRenewedFrom version (summary_shown summary.now) (state S.Store conn.old).committed (state S.Store conn.new).committed) }
    ensures spares { HasCleanDisk (state S.Store conn.new) → OnOk result (SparesOthers (state S.Store conn.old).committed (state S.Store conn.new).committed) }
    ensures beside { Survives (state S.Store conn.old) (state S.Store conn.new) (λ trees. IsTrue (state S.Store conn.old).is_open × IsTreesOf (SparesOthers (state S.Store conn.old).committed) trees) }
    ensures only { HasCleanDisk (state S.Store conn.new) → OnOk result ((M : Catalogue) → Holds version (state S.Store conn.old).committed M → (trees : Trees) → (state S.Store conn.new).may_leave trees → IsLeftAs known M trees) }
    ensures lives { HasCleanDisk (state S.Store conn.new) → IsTrue (state S.Store conn.new).is_open → IsTrue (state S.Store conn.old).is_open }
    ensures stays { HasCleanDisk (state S.Store conn.new) → OnErr result (StaysCommitted (state S.Store conn.old) (state S.Store conn.new)) }
    ensures adds_none { IfErr result (λ fault. is_disk fault ≡ false → Survives (state S.Store conn.old) (state S.Store conn.new) (λ _. ⊥)) }
    ensures failed { HasCleanDisk (state S.Store conn.new) → IfErr result (FailsToMigrate S.Store version (summary_shown summary.now) conn.old conn.new) }
    ensures kinds { IfErr result IsOfStore }
    ensures autocommit { (state S.Store conn.new).in_transaction ≡ false }
    ensures crash { Survives (state S.Store conn.old) (state S.Store conn.new) (MayMigrate (state S.Store conn.old)) }
{
    let numbers = match numbers_of(alloc, summary) {
        Ok(numbers) => numbers,
        Err(error) => return Err(fault_of_read(error)),
    };
    if summary.installs > MAX_NUMBER {
        return Err(Fault::Disk);
    }
    is_live(conn);
    migrate_from(
        alloc,
        conn,
        older_layout(version),
        &numbers,
        summary.installs,
    )
}
