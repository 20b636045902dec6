//! The table of headers made, and its rows put in and taken out, inside an open transaction.

ghost use Rattle.std.specs.Prelude.{◌≡◌, codes, IfErr, IfOk, OnOk};
ghost use Rattle.sqlite.specs.State.{HasCleanDisk, Survives};
ghost use Rattle.sqlite.specs.Held.{state};
ghost use Rattle.store_tables.specs.Typed.{lent_header};
ghost use Rattle.store_tables.specs.Creates.{IsFree, Makes, FailsToMake};
ghost use Rattle.store_sql.specs.Deletes.{HasToRemove, Removes, FailsToRemove};
ghost use Rattle.store_tables.specs.Effects.{Has, WhileOpen, count_in, equals_number};
ghost use Rattle.store_sql.specs.Inserts.{Inserts, FailsToInsert};
ghost use Rattle.store_sql.specs.HeaderRecords.{header_row};
ghost use Rattle.store_sql.specs.HeaderTable.{header};

use sqlite::{Alter, Error, params};
use store_tables::HeaderRecord;
use store_tables::transaction::OpenTransaction;

/// Makes the table of headers; it needs no index. It answers the count that `sqlite` reports.
pub fn create_header_table<S: Alter, T: OpenTransaction<S>>(tx: &mut T) -> Result<usize, Error>
    requires { WhileOpen (state S.Store (T.held tx.old)) (λ db. IsFree db.schema (header 0).name) }
    ensures same_reference { T.reference tx.new ≡ T.reference tx.old }
    ensures made { HasCleanDisk (state S.Store (T.held tx.new)) → OnOk result (Makes (header 0) (state S.Store (T.held tx.old)) (state S.Store (T.held tx.new))) }
    ensures failed { HasCleanDisk (state S.Store (T.held tx.new)) → IfErr result (FailsToMake (header 0) (state S.Store (T.held tx.old)) (state S.Store (T.held tx.new))) }
    ensures survives { Survives (state S.Store (T.held tx.old)) (state S.Store (T.held tx.new)) (λ _. ⊥) }
{
    tx.execute(
        "CREATE TABLE edition (number INTEGER NOT NULL PRIMARY KEY, owner TEXT NOT NULL, title TEXT NOT NULL, info TEXT NOT NULL) STRICT",
        &[],
    )
}

/// Inserts a header. It answers the count of written rows that `sqlite` reports.
pub fn insert_header<S: Alter, T: OpenTransaction<S>>(
    tx: &mut T,
    given: &HeaderRecord<&str>,
) -> Result<usize, Error>
    requires { WhileOpen (state S.Store (T.held tx.old)) (Has header) }
    ensures same_reference { T.reference tx.new ≡ T.reference tx.old }
    ensures added { HasCleanDisk (state S.Store (T.held tx.new)) → OnOk result (Inserts (codes "edition") (header_row (lent_header given.now)) (state S.Store (T.held tx.old)) (state S.Store (T.held tx.new))) }
    ensures failed { HasCleanDisk (state S.Store (T.held tx.new)) → IfErr result (FailsToInsert (codes "edition") (header_row (lent_header given.now)) (state S.Store (T.held tx.old)) (state S.Store (T.held tx.new))) }
    ensures survives { Survives (state S.Store (T.held tx.old)) (state S.Store (T.held tx.new)) (λ _. ⊥) }
{
    let number = given.number;
    tx.execute(
        "INSERT INTO edition (number, owner, title, info) VALUES (?1, ?2, ?3, ?4)",
        params![number, given.owner, given.title, given.info],
    )
}

/// Takes out the header of this number. It answers how many rows these were.
pub fn delete_header<S: Alter, T: OpenTransaction<S>>(
    tx: &mut T,
    number: i64,
) -> Result<usize, Error>
    requires { WhileOpen (state S.Store (T.held tx.old)) (HasToRemove header) }
    ensures same_reference { T.reference tx.new ≡ T.reference tx.old }
    ensures removed { HasCleanDisk (state S.Store (T.held tx.new)) → OnOk result (Removes (codes "edition") (equals_number 1 number) (state S.Store (T.held tx.old)) (state S.Store (T.held tx.new))) }
    ensures counted { HasCleanDisk (state S.Store (T.held tx.new)) → IfOk result (λ count. count ≡ count_in (codes "edition") (equals_number 1 number) (state S.Store (T.held tx.old)).now) }
    ensures failed { HasCleanDisk (state S.Store (T.held tx.new)) → IfErr result (FailsToRemove (codes "edition") (equals_number 1 number) (state S.Store (T.held tx.old)) (state S.Store (T.held tx.new))) }
    ensures survives { Survives (state S.Store (T.held tx.old)) (state S.Store (T.held tx.new)) (λ _. ⊥) }
{
    tx.execute("DELETE FROM edition WHERE number = ?1", params![number])
}
