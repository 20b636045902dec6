// The index of an edition of an older version: its entries are read, and their lines are written.
ghost use Rattle.std.specs.Prelude.{◌≡◌, IfOk, IfErr};
ghost use Rattle.sqlite.specs.Held.{state};
ghost use Rattle.sqlite.specs.State.{HasCleanDisk, IsUnchanged, KeepsCommit, Survives};
ghost use Rattle.store_tables.specs.Effects.{Has, WhileOpen};
ghost use Rattle.store_older_sql.specs.Entries.{entry_table_of};
ghost use Rattle.store_migration.specs.Failing.{MigrationFailsInside};
ghost use Rattle.store_migration.specs.Older.{form_of};
ghost use Rattle.store_migration.specs.FailurePlaces.{InIndex};
ghost use Rattle.store_migration.specs.Steps.{AreIndexOctetsOf};

use crate::lines::lines_of_all;
use crate::older::Older;
use sqlite::Alter;
use std::alloc::Global;
use store_older_sql::{entries_inside, old_entries_inside, shown_entries_inside};
use store_sql::records::ReadError;
use store_tables::transaction::OpenTransaction;

// Of version 1.
fn plain_index<S: Alter, T: OpenTransaction<S>>(
    alloc: Global,
    tx: &mut T,
    number: i64,
) -> Result<Vec<u8>, ReadError>
    requires { WhileOpen (state S.Store (T.held tx.old)) (Has (entry_table_of (form_of Older.Plain))) }
    ensures same_reference { T.reference tx.new ≡ T.reference tx.old }
    ensures index { HasCleanDisk (state S.Store (T.held tx.new)) → IfOk result (λ octets. AreIndexOctetsOf Older.Plain number (state S.Store (T.held tx.old)).now octets.items × IsUnchanged (state S.Store (T.held tx.old)) (state S.Store (T.held tx.new))) }
    ensures failed { HasCleanDisk (state S.Store (T.held tx.new)) → IfErr result (MigrationFailsInside S.Store (InIndex Older.Plain number) (T.held tx.old) (T.held tx.new)) }
    ensures keeps { HasCleanDisk (state S.Store (T.held tx.new)) → KeepsCommit (state S.Store (T.held tx.old)) (state S.Store (T.held tx.new)) }
    ensures survives { Survives (state S.Store (T.held tx.old)) (state S.Store (T.held tx.new)) (λ _. ⊥) }
{
    let entries = entries_inside(alloc, tx, number)?;
    let octets = lines_of_all(alloc, entries)?;
    Ok(octets)
}

// Of versions 2 and 3.
fn keyed_index<S: Alter, T: OpenTransaction<S>>(
    alloc: Global,
    tx: &mut T,
    number: i64,
) -> Result<Vec<u8>, ReadError>
    requires { WhileOpen (state S.Store (T.held tx.old)) (Has (entry_table_of (form_of Older.Keyed))) }
    ensures same_reference { T.reference tx.new ≡ T.reference tx.old }
    ensures index { HasCleanDisk (state S.Store (T.held tx.new)) → IfOk result (λ octets. AreIndexOctetsOf Older.Keyed number (state S.Store (T.held tx.old)).now octets.items × IsUnchanged (state S.Store (T.held tx.old)) (state S.Store (T.held tx.new))) }
    ensures failed { HasCleanDisk (state S.Store (T.held tx.new)) → IfErr result (MigrationFailsInside S.Store (InIndex Older.Keyed number) (T.held tx.old) (T.held tx.new)) }
    ensures keeps { HasCleanDisk (state S.Store (T.held tx.new)) → KeepsCommit (state S.Store (T.held tx.old)) (state S.Store (T.held tx.new)) }
    ensures survives { Survives (state S.Store (T.held tx.old)) (state S.Store (T.held tx.new)) (λ _. ⊥) }
{
    let entries = old_entries_inside(alloc, tx, number)?;
    let octets = lines_of_all(alloc, entries)?;
    Ok(octets)
}

// Of version 4: what is shown comes along.
fn shown_index<S: Alter, T: OpenTransaction<S>>(
    alloc: Global,
    tx: &mut T,
    number: i64,
) -> Result<Vec<u8>, ReadError>
    requires { WhileOpen (state S.Store (T.held tx.old)) (Has (entry_table_of (form_of Older.Shown))) }
    ensures same_reference { T.reference tx.new ≡ T.reference tx.old }
    ensures index { HasCleanDisk (state S.Store (T.held tx.new)) → IfOk result (λ octets. AreIndexOctetsOf Older.Shown number (state S.Store (T.held tx.old)).now octets.items × IsUnchanged (state S.Store (T.held tx.old)) (state S.Store (T.held tx.new))) }
    ensures failed { HasCleanDisk (state S.Store (T.held tx.new)) → IfErr result (MigrationFailsInside S.Store (InIndex Older.Shown number) (T.held tx.old) (T.held tx.new)) }
    ensures keeps { HasCleanDisk (state S.Store (T.held tx.new)) → KeepsCommit (state S.Store (T.held tx.old)) (state S.Store (T.held tx.new)) }
    ensures survives { Survives (state S.Store (T.held tx.old)) (state S.Store (T.held tx.new)) (λ _. ⊥) }
{
    let entries = shown_entries_inside(alloc, tx, number)?;
    let octets = lines_of_all(alloc, entries)?;
    Ok(octets)
}

/// The octets of the index of the entries under a number, in their order, each with what is shown of it. What is derived of their
/// headwords isn't looked at. `NoRecord` tells that one of them is no entry or has no line.
pub(crate) fn read_index<S: Alter, T: OpenTransaction<S>>(
    alloc: Global,
    tx: &mut T,
    layout: Older,
    number: i64,
) -> Result<Vec<u8>, ReadError>
    requires { WhileOpen (state S.Store (T.held tx.old)) (Has (entry_table_of (form_of layout))) }
    ensures same_reference { T.reference tx.new ≡ T.reference tx.old }
    ensures index { HasCleanDisk (state S.Store (T.held tx.new)) → IfOk result (λ octets. AreIndexOctetsOf layout number (state S.Store (T.held tx.old)).now octets.items × IsUnchanged (state S.Store (T.held tx.old)) (state S.Store (T.held tx.new))) }
    ensures failed { HasCleanDisk (state S.Store (T.held tx.new)) → IfErr result (MigrationFailsInside S.Store (InIndex layout number) (T.held tx.old) (T.held tx.new)) }
    ensures keeps { HasCleanDisk (state S.Store (T.held tx.new)) → KeepsCommit (state S.Store (T.held tx.old)) (state S.Store (T.held tx.new)) }
    ensures survives { Survives (state S.Store (T.held tx.old)) (state S.Store (T.held tx.new)) (λ _. ⊥) }
{
    match layout {
        Older::Plain => plain_index(alloc, tx, number),
        Older::Keyed => keyed_index(alloc, tx, number),
        Older::Shown => shown_index(alloc, tx, number),
    }
}
