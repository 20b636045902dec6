//! Rows that are taken out of a table, inside an open transaction.

ghost use Rattle.std.specs.Prelude.{◌≡◌, true, IfErr, IfOk, OnOk};
ghost use Rattle.sqlite.specs.State.{HasCleanDisk, Survives};
ghost use Rattle.sqlite.specs.Held.{state};
ghost use Rattle.store_tables.specs.Tables.{table_of};
ghost use Rattle.store_tables.specs.Effects.{WhileOpen, count_in};
ghost use Rattle.store_sql.specs.Deletes.{HasToRemove, Removes, FailsToRemove, clear_text};

use sqlite::{Alter, Error};
use store_tables::StoreTable;
use store_tables::transaction::OpenTransaction;

fn text_of(table: StoreTable) -> &'static str
    ensures { result.now ≡ clear_text table }
{
    match table {
        StoreTable::Mark => "DELETE FROM mark",
        StoreTable::Item => "DELETE FROM item",
        StoreTable::Member => "DELETE FROM member",
        StoreTable::Edition => "DELETE FROM edition",
        StoreTable::Entry => "DELETE FROM entry",
        StoreTable::Kept => "DELETE FROM kept",
    }
}

/// Takes out all rows of the table. It answers how many these were.
pub fn clear_table<S: Alter, T: OpenTransaction<S>>(
    tx: &mut T,
    table: StoreTable,
) -> Result<usize, Error>
    requires { WhileOpen (state S.Store (T.held tx.old)) (HasToRemove (table_of table)) }
    ensures same_reference { T.reference tx.new ≡ T.reference tx.old }
    ensures removed { HasCleanDisk (state S.Store (T.held tx.new)) → OnOk result (Removes (table_of table 0).name (λ _. true) (state S.Store (T.held tx.old)) (state S.Store (T.held tx.new))) }
    ensures counted { HasCleanDisk (state S.Store (T.held tx.new)) → IfOk result (λ count. count ≡ count_in (table_of table 0).name (λ _. true) (state S.Store (T.held tx.old)).now) }
    ensures failed { HasCleanDisk (state S.Store (T.held tx.new)) → IfErr result (FailsToRemove (table_of table 0).name (λ _. true) (state S.Store (T.held tx.old)) (state S.Store (T.held tx.new))) }
    ensures survives { Survives (state S.Store (T.held tx.old)) (state S.Store (T.held tx.new)) (λ _. ⊥) }
{
    tx.execute(text_of(table), &[])
}
