// The end of a migration: the mark is that of the known version.
ghost use Rattle.std.specs.Prelude.{◌≡◌, ◌≤◌, true, IsTrue, IfErr, OnOk};
ghost use Rattle.sqlite.specs.Held.{state};
ghost use Rattle.sqlite.specs.State.{HasCleanDisk, KeepsCommit, Survives};
ghost use Rattle.store_tables.specs.Tables.{mark};
ghost use Rattle.store_sql.specs.Deletes.{HasToRemove};
ghost use Rattle.store_tables.specs.Effects.{WhileOpen};
ghost use Rattle.store_migration.specs.Moved.{IsMarkedAnew};
ghost use Rattle.store_sql.specs.declared.records.ReadError.TheVariants.{Store};
ghost use Rattle.store_migration.specs.FailurePlaces.{InMark};
ghost use Rattle.store_migration.specs.Failing.{MigrationFailsInside};

use sqlite::{Alter, Error};
use store_rows::{KNOWN_VERSION, mark_row};
use store_sql::delete::clear_table;
use store_sql::insert::insert_mark;
use store_tables::StoreTable;
use store_tables::transaction::OpenTransaction;

/// Takes the mark out, and puts that of the known version in, with this count of installs.
pub(crate) fn renew_mark<S: Alter, T: OpenTransaction<S>>(
    tx: &mut T,
    installs: u64,
) -> Result<(), Error>
    requires installs { installs ≤ 9223372036854775807 }
    requires mark { WhileOpen (state S.Store (T.held tx.old)) (HasToRemove mark) }
    ensures same_reference { T.reference tx.new ≡ T.reference tx.old }
    ensures marked { HasCleanDisk (state S.Store (T.held tx.new)) → OnOk result (IsMarkedAnew installs (state S.Store (T.held tx.old)).now (state S.Store (T.held tx.new)).now) }
    ensures opened { HasCleanDisk (state S.Store (T.held tx.new)) → OnOk result (IsTrue (state S.Store (T.held tx.old)).is_open) }
    ensures inside { HasCleanDisk (state S.Store (T.held tx.new)) → OnOk result ((state S.Store (T.held tx.new)).in_transaction ≡ true) }
    ensures failed { HasCleanDisk (state S.Store (T.held tx.new)) → IfErr result (λ e. MigrationFailsInside S.Store (InMark installs) (T.held tx.old) (T.held tx.new) (Store e)) }
    ensures keeps { HasCleanDisk (state S.Store (T.held tx.new)) → KeepsCommit (state S.Store (T.held tx.old)) (state S.Store (T.held tx.new)) }
    ensures survives { Survives (state S.Store (T.held tx.old)) (state S.Store (T.held tx.new)) (λ _. ⊥) }
{
    clear_table(tx, StoreTable::Mark)?;
    let row = mark_row(KNOWN_VERSION, installs);
    insert_mark(tx, &row)?;
    Ok(())
}
