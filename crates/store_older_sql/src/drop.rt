//! Tables that are dropped, inside an open transaction.

ghost use Rattle.std.specs.Prelude.{◌≡◌, IfErr, OnOk};
ghost use Rattle.sqlite.specs.State.{HasCleanDisk, Survives};
ghost use Rattle.sqlite.specs.Held.{state};
ghost use Rattle.store_tables.specs.Tables.{table_of};
ghost use Rattle.store_tables.specs.Keyed.{keyed_table_of};
ghost use Rattle.store_tables.specs.Effects.{Has, WhileOpen};
ghost use Rattle.store_older_sql.specs.Drops.{Drops, FailsToDrop, drop_text};
ghost use Rattle.store_older_sql.specs.Texts.{keyed_drop_text};

use sqlite::{Alter, Error};
use store_tables::transaction::OpenTransaction;
use store_tables::{KeyedTable, StoreTable};

fn text_of(table: StoreTable) -> &'static str
    ensures { result.now ≡ drop_text table }
{
    match table {
        StoreTable::Mark => "DROP TABLE mark",
        StoreTable::Item => "DROP TABLE item",
        StoreTable::Member => "DROP TABLE member",
        StoreTable::Edition => "DROP TABLE edition",
        StoreTable::Entry => "DROP TABLE entry",
        StoreTable::Kept => "DROP TABLE kept",
    }
}

/// Drops the table with its rows and its indexes. It answers the count that `sqlite` reports.
pub fn drop_table<S: Alter, T: OpenTransaction<S>>(
    tx: &mut T,
    table: StoreTable,
) -> Result<usize, Error>
    requires { WhileOpen (state S.Store (T.held tx.old)) (Has (table_of table)) }
    ensures same_reference { T.reference tx.new ≡ T.reference tx.old }
    ensures dropped { HasCleanDisk (state S.Store (T.held tx.new)) → OnOk result (Drops (table_of table 0).name (state S.Store (T.held tx.old)) (state S.Store (T.held tx.new))) }
    ensures failed { HasCleanDisk (state S.Store (T.held tx.new)) → IfErr result (FailsToDrop (table_of table 0).name (state S.Store (T.held tx.old)) (state S.Store (T.held tx.new))) }
    ensures survives { Survives (state S.Store (T.held tx.old)) (state S.Store (T.held tx.new)) (λ _. ⊥) }
{
    tx.execute(text_of(table), &[])
}

fn keyed_text_of(table: KeyedTable) -> &'static str
    ensures { result.now ≡ keyed_drop_text table }
{
    match table {
        KeyedTable::Entry => "DROP TABLE entry",
        KeyedTable::Word => "DROP TABLE word",
        KeyedTable::Gram => "DROP TABLE gram",
    }
}

/// Drops the table with its rows and its indexes, those by keys among them. It answers the count that `sqlite` reports.
pub fn drop_keyed_table<S: Alter, T: OpenTransaction<S>>(
    tx: &mut T,
    table: KeyedTable,
) -> Result<usize, Error>
    requires { WhileOpen (state S.Store (T.held tx.old)) (Has (keyed_table_of table)) }
    ensures same_reference { T.reference tx.new ≡ T.reference tx.old }
    ensures dropped { HasCleanDisk (state S.Store (T.held tx.new)) → OnOk result (Drops (keyed_table_of table 0).name (state S.Store (T.held tx.old)) (state S.Store (T.held tx.new))) }
    ensures failed { HasCleanDisk (state S.Store (T.held tx.new)) → IfErr result (FailsToDrop (keyed_table_of table 0).name (state S.Store (T.held tx.old)) (state S.Store (T.held tx.new))) }
    ensures survives { Survives (state S.Store (T.held tx.old)) (state S.Store (T.held tx.new)) (λ _. ⊥) }
{
    tx.execute(keyed_text_of(table), &[])
}
