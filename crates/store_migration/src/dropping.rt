// The tables of an older version that the known one has not, or in another form, are dropped.
ghost use Rattle.std.specs.Prelude.{◌≡◌, true, IfErr, OnOk};
ghost use Rattle.std.specs.List.{AllByRecursion};
ghost use Rattle.sqlite.specs.Held.{state};
ghost use Rattle.sqlite.specs.State.{HasCleanDisk, KeepsCommit, Survives};
ghost use Rattle.store_tables.specs.Found.{HasOwn};
ghost use Rattle.store_tables.specs.Effects.{WhileOpen};
ghost use Rattle.store_sql.specs.declared.records.ReadError.TheVariants.{Store};
ghost use Rattle.store_migration.specs.Failing.{MigrationFailsInside};
ghost use Rattle.store_migration.specs.Older.{DroppedInTurn, gone_names, gone_tables, keyed_names, keyed_tables, plain_names, plain_tables};
ghost use Rattle.store_migration.specs.FailurePlaces.{Dropping};

use crate::older::Older;
use sqlite::{Alter, Error};
use store_older_sql::{EntryForm, drop_entry, drop_keyed_table, drop_old_edition};
use store_tables::KeyedTable;
use store_tables::transaction::OpenTransaction;

// Of version 1: the entries and the editions.
fn drop_plain<S: Alter, T: OpenTransaction<S>>(tx: &mut T) -> Result<(), Error>
    requires { WhileOpen (state S.Store (T.held tx.old)) (λ db. AllByRecursion (HasOwn db.schema) plain_tables) }
    ensures same_reference { T.reference tx.new ≡ T.reference tx.old }
    ensures gone { HasCleanDisk (state S.Store (T.held tx.new)) → OnOk result (DroppedInTurn plain_names (state S.Store (T.held tx.old)).now (state S.Store (T.held tx.new)).now) }
    ensures inside { HasCleanDisk (state S.Store (T.held tx.new)) → OnOk result ((state S.Store (T.held tx.new)).in_transaction ≡ true) }
    ensures failed { HasCleanDisk (state S.Store (T.held tx.new)) → IfErr result (λ e. MigrationFailsInside S.Store (Dropping plain_names) (T.held tx.old) (T.held tx.new) (Store e)) }
    ensures keeps { HasCleanDisk (state S.Store (T.held tx.new)) → KeepsCommit (state S.Store (T.held tx.old)) (state S.Store (T.held tx.new)) }
    ensures survives { Survives (state S.Store (T.held tx.old)) (state S.Store (T.held tx.new)) (λ _. ⊥) }
{
    drop_entry(tx, EntryForm::Plain)?;
    drop_old_edition(tx)?;
    Ok(())
}

// Of the later ones: the entries, the words, the grams and the editions.
fn drop_keyed<S: Alter, T: OpenTransaction<S>>(tx: &mut T, form: EntryForm) -> Result<(), Error>
    requires { WhileOpen (state S.Store (T.held tx.old)) (λ db. AllByRecursion (HasOwn db.schema) (keyed_tables form)) }
    ensures same_reference { T.reference tx.new ≡ T.reference tx.old }
    ensures gone { HasCleanDisk (state S.Store (T.held tx.new)) → OnOk result (DroppedInTurn keyed_names (state S.Store (T.held tx.old)).now (state S.Store (T.held tx.new)).now) }
    ensures inside { HasCleanDisk (state S.Store (T.held tx.new)) → OnOk result ((state S.Store (T.held tx.new)).in_transaction ≡ true) }
    ensures failed { HasCleanDisk (state S.Store (T.held tx.new)) → IfErr result (λ e. MigrationFailsInside S.Store (Dropping keyed_names) (T.held tx.old) (T.held tx.new) (Store e)) }
    ensures keeps { HasCleanDisk (state S.Store (T.held tx.new)) → KeepsCommit (state S.Store (T.held tx.old)) (state S.Store (T.held tx.new)) }
    ensures survives { Survives (state S.Store (T.held tx.old)) (state S.Store (T.held tx.new)) (λ _. ⊥) }
{
    drop_entry(tx, form)?;
    drop_keyed_table(tx, KeyedTable::Word)?;
    drop_keyed_table(tx, KeyedTable::Gram)?;
    drop_old_edition(tx)?;
    Ok(())
}

/// Drops the entries, with what was derived of them, and the editions.
pub(crate) fn drop_old<S: Alter, T: OpenTransaction<S>>(
    tx: &mut T,
    layout: Older,
) -> Result<(), Error>
    requires { WhileOpen (state S.Store (T.held tx.old)) (λ db. AllByRecursion (HasOwn db.schema) (gone_tables layout)) }
    ensures same_reference { T.reference tx.new ≡ T.reference tx.old }
    ensures gone { HasCleanDisk (state S.Store (T.held tx.new)) → OnOk result (DroppedInTurn (gone_names layout) (state S.Store (T.held tx.old)).now (state S.Store (T.held tx.new)).now) }
    ensures inside { HasCleanDisk (state S.Store (T.held tx.new)) → OnOk result ((state S.Store (T.held tx.new)).in_transaction ≡ true) }
    ensures failed { HasCleanDisk (state S.Store (T.held tx.new)) → IfErr result (λ e. MigrationFailsInside S.Store (Dropping (gone_names layout)) (T.held tx.old) (T.held tx.new) (Store e)) }
    ensures keeps { HasCleanDisk (state S.Store (T.held tx.new)) → KeepsCommit (state S.Store (T.held tx.old)) (state S.Store (T.held tx.new)) }
    ensures survives { Survives (state S.Store (T.held tx.old)) (state S.Store (T.held tx.new)) (λ _. ⊥) }
{
    match layout {
        Older::Plain => drop_plain(tx),
        Older::Keyed => drop_keyed(tx, EntryForm::Keyed),
        Older::Shown => drop_keyed(tx, EntryForm::Shown),
    }
}
