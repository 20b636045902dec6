//! The table `edition` as schemas 1 to 4 have it, with the texts: an edition read, and the table dropped, inside an open transaction.

ghost use Rattle.std.specs.Prelude.{◌≡◌, ◌∷◌, [], filter, map, codes, IfOk, IfErr, OnOk};
ghost use Rattle.sqlite.specs.State.{HasCleanDisk, Survives};
ghost use Rattle.sqlite.specs.Held.{state};
ghost use Rattle.store_tables.specs.Tables.{edition as edition_table};
ghost use Rattle.store_sql.specs.Columns.{edition_columns};
ghost use Rattle.store_older_sql.specs.Drops.{Drops, FailsToDrop};
ghost use Rattle.store_tables.specs.Effects.{Has, WhileOpen, equals_number, rows_of, FailsToRead};
ghost use Rattle.store_sql.specs.Encodings.{stored_edition};
ghost use Rattle.store_sql.specs.Reads.{Selects, FailsToList};

use crate::drop::drop_table;
use sqlite::{Alter, Error, Row, params};
use std::alloc::Global;
use store_sql::read::records_of;
use store_sql::records::ReadError;
use store_tables::transaction::OpenTransaction;
use store_tables::{EditionRecord, StoreTable, StoredRow};

fn edition_rows<S: Alter, T: OpenTransaction<S>>(tx: &mut T, number: i64) -> Result<Vec<Row>, Error>
    requires { WhileOpen (state S.Store (T.held tx.old)) (Has edition_table) }
    ensures same_reference { T.reference tx.new ≡ T.reference tx.old }
    ensures selected { HasCleanDisk (state S.Store (T.held tx.new)) → IfOk result (λ rows. Selects (codes "edition") (equals_number 1 number) (1 ∷ []) (state S.Store (T.held tx.old)) (state S.Store (T.held tx.new)) rows.items) }
    ensures failed { HasCleanDisk (state S.Store (T.held tx.new)) → IfErr result (FailsToRead (state S.Store (T.held tx.old)) (state S.Store (T.held tx.new))) }
    ensures survives { Survives (state S.Store (T.held tx.old)) (state S.Store (T.held tx.new)) (λ _. ⊥) }
{
    tx.query_all(
        "SELECT rowid, * FROM edition WHERE number = ?1 ORDER BY 2",
        params![number],
    )
}

/// The editions of this number with their texts; the key allows one at most.
pub fn editions_inside<S: Alter, T: OpenTransaction<S>>(
    alloc: Global,
    tx: &mut T,
    number: i64,
) -> Result<Vec<StoredRow<EditionRecord<String, Vec<u8>>>>, ReadError>
    requires { WhileOpen (state S.Store (T.held tx.old)) (Has edition_table) }
    ensures same_reference { T.reference tx.new ≡ T.reference tx.old }
    ensures selected { HasCleanDisk (state S.Store (T.held tx.new)) → IfOk result (λ all. Selects (codes "edition") (equals_number 1 number) (1 ∷ []) (state S.Store (T.held tx.old)) (state S.Store (T.held tx.new)) (map stored_edition all.items)) }
    ensures failed { HasCleanDisk (state S.Store (T.held tx.new)) → IfErr result (FailsToList edition_columns (filter (equals_number 1 number) (rows_of (codes "edition") (state S.Store (T.held tx.old)).now)) (state S.Store (T.held tx.old)) (state S.Store (T.held tx.new))) }
    ensures survives { Survives (state S.Store (T.held tx.old)) (state S.Store (T.held tx.new)) (λ _. ⊥) }
{
    let rows = edition_rows(tx, number)?;
    records_of(alloc, &rows)
}

/// Drops the table of editions with their texts. It answers the count that `sqlite` reports.
pub fn drop_old_edition<S: Alter, T: OpenTransaction<S>>(tx: &mut T) -> Result<usize, Error>
    requires { WhileOpen (state S.Store (T.held tx.old)) (Has edition_table) }
    ensures same_reference { T.reference tx.new ≡ T.reference tx.old }
    ensures dropped { HasCleanDisk (state S.Store (T.held tx.new)) → OnOk result (Drops (codes "edition") (state S.Store (T.held tx.old)) (state S.Store (T.held tx.new))) }
    ensures failed { HasCleanDisk (state S.Store (T.held tx.new)) → IfErr result (FailsToDrop (codes "edition") (state S.Store (T.held tx.old)) (state S.Store (T.held tx.new))) }
    ensures survives { Survives (state S.Store (T.held tx.old)) (state S.Store (T.held tx.new)) (λ _. ⊥) }
{
    drop_table(tx, StoreTable::Edition)
}
