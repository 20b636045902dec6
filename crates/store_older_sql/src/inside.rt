//! The entries of an edition of schema 1 as a list, inside an open transaction.

ghost use Rattle.std.specs.Prelude.{◌≡◌, ◌∷◌, [], filter, map, codes, IfOk, IfErr};
ghost use Rattle.sqlite.specs.State.{HasCleanDisk, Survives};
ghost use Rattle.sqlite.specs.Held.{state};
ghost use Rattle.store_tables.specs.Tables.{entry};
ghost use Rattle.store_tables.specs.Effects.{Has, WhileOpen, equals_number, rows_of, FailsToRead};
ghost use Rattle.store_sql.specs.Columns.{entry_columns};
ghost use Rattle.store_sql.specs.Encodings.{stored_entry};
ghost use Rattle.store_sql.specs.Reads.{Selects, FailsToList};

use sqlite::{Alter, Error, Row, params};
use std::alloc::Global;
use store_sql::read::records_of;
use store_sql::records::ReadError;
use store_tables::transaction::OpenTransaction;
use store_tables::{EntryRecord, StoredRow};

fn entry_rows<S: Alter, T: OpenTransaction<S>>(tx: &mut T, edition: i64) -> Result<Vec<Row>, Error>
    requires { WhileOpen (state S.Store (T.held tx.old)) (Has entry) }
    ensures same_reference { T.reference tx.new ≡ T.reference tx.old }
    ensures selected { HasCleanDisk (state S.Store (T.held tx.new)) → IfOk result (λ rows. Selects (codes "entry") (equals_number 1 edition) (2 ∷ []) (state S.Store (T.held tx.old)) (state S.Store (T.held tx.new)) rows.items) }
    ensures failed { HasCleanDisk (state S.Store (T.held tx.new)) → IfErr result (FailsToRead (state S.Store (T.held tx.old)) (state S.Store (T.held tx.new))) }
    ensures survives { Survives (state S.Store (T.held tx.old)) (state S.Store (T.held tx.new)) (λ _. ⊥) }
{
    tx.query_all(
        "SELECT rowid, * FROM entry WHERE edition = ?1 ORDER BY 3",
        params![edition],
    )
}

/// The entries of an edition of schema 1, in their order.
pub fn entries_inside<S: Alter, T: OpenTransaction<S>>(
    alloc: Global,
    tx: &mut T,
    edition: i64,
) -> Result<Vec<StoredRow<EntryRecord<String>>>, ReadError>
    requires { WhileOpen (state S.Store (T.held tx.old)) (Has entry) }
    ensures same_reference { T.reference tx.new ≡ T.reference tx.old }
    ensures selected { HasCleanDisk (state S.Store (T.held tx.new)) → IfOk result (λ all. Selects (codes "entry") (equals_number 1 edition) (2 ∷ []) (state S.Store (T.held tx.old)) (state S.Store (T.held tx.new)) (map stored_entry all.items)) }
    ensures failed { HasCleanDisk (state S.Store (T.held tx.new)) → IfErr result (FailsToList entry_columns (filter (equals_number 1 edition) (rows_of (codes "entry") (state S.Store (T.held tx.old)).now)) (state S.Store (T.held tx.old)) (state S.Store (T.held tx.new))) }
    ensures survives { Survives (state S.Store (T.held tx.old)) (state S.Store (T.held tx.new)) (λ _. ⊥) }
{
    let rows = entry_rows(tx, edition)?;
    records_of(alloc, &rows)
}
