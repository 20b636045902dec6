//! The table of parts made, and its rows put in and taken out, inside an open transaction.

ghost use Rattle.std.specs.Prelude.{◌≡◌, codes, IfErr, IfOk, OnOk};
ghost use Rattle.sqlite.specs.State.{HasCleanDisk, Survives};
ghost use Rattle.sqlite.specs.Held.{state};
ghost use Rattle.store_tables.specs.Creates.{IsFree, Makes, FailsToMake};
ghost use Rattle.store_sql.specs.Deletes.{HasToRemove, Removes, FailsToRemove};
ghost use Rattle.store_tables.specs.Effects.{Has, WhileOpen, count_in, equals_number};
ghost use Rattle.store_sql.specs.Inserts.{Inserts, FailsToInsert};
ghost use Rattle.store_sql.specs.ChosenParts.{is_part_from};
ghost use Rattle.store_sql.specs.PartRecords.{lent_part, part_row};
ghost use Rattle.store_sql.specs.PartTable.{part};

use crate::part_records::Part;
use sqlite::{Alter, Error, params};
use store_tables::transaction::OpenTransaction;

/// Makes the table of parts with the index of its key. It answers the count that `sqlite` reports.
pub fn create_part_table<S: Alter, T: OpenTransaction<S>>(tx: &mut T) -> Result<usize, Error>
    requires { WhileOpen (state S.Store (T.held tx.old)) (λ db. IsFree db.schema (part 0).name) }
    ensures same_reference { T.reference tx.new ≡ T.reference tx.old }
    ensures made { HasCleanDisk (state S.Store (T.held tx.new)) → OnOk result (Makes (part 0) (state S.Store (T.held tx.old)) (state S.Store (T.held tx.new))) }
    ensures failed { HasCleanDisk (state S.Store (T.held tx.new)) → IfErr result (FailsToMake (part 0) (state S.Store (T.held tx.old)) (state S.Store (T.held tx.new))) }
    ensures survives { Survives (state S.Store (T.held tx.old)) (state S.Store (T.held tx.new)) (λ _. ⊥) }
{
    tx.execute(
        "CREATE TABLE dictcat_part (edition INTEGER NOT NULL, file INTEGER NOT NULL, number INTEGER NOT NULL, octets BLOB NOT NULL, PRIMARY KEY (edition, file, number)) STRICT",
        &[],
    )
}

/// Inserts a part. It answers the count of written rows that `sqlite` reports.
pub fn insert_part<S: Alter, T: OpenTransaction<S>>(
    tx: &mut T,
    given: &Part<&[u8]>,
) -> Result<usize, Error>
    requires { WhileOpen (state S.Store (T.held tx.old)) (Has part) }
    ensures same_reference { T.reference tx.new ≡ T.reference tx.old }
    ensures added { HasCleanDisk (state S.Store (T.held tx.new)) → OnOk result (Inserts (codes "dictcat_part") (part_row (lent_part given.now)) (state S.Store (T.held tx.old)) (state S.Store (T.held tx.new))) }
    ensures failed { HasCleanDisk (state S.Store (T.held tx.new)) → IfErr result (FailsToInsert (codes "dictcat_part") (part_row (lent_part given.now)) (state S.Store (T.held tx.old)) (state S.Store (T.held tx.new))) }
    ensures survives { Survives (state S.Store (T.held tx.old)) (state S.Store (T.held tx.new)) (λ _. ⊥) }
{
    let edition = given.edition;
    let file = given.file;
    let number = given.number;
    tx.execute(
        "INSERT INTO dictcat_part (edition, file, number, octets) VALUES (?1, ?2, ?3, ?4)",
        params![edition, file, number, given.octets],
    )
}

/// Takes out all parts of this edition. It answers how many these were.
pub fn delete_parts<S: Alter, T: OpenTransaction<S>>(
    tx: &mut T,
    edition: i64,
) -> Result<usize, Error>
    requires { WhileOpen (state S.Store (T.held tx.old)) (HasToRemove part) }
    ensures same_reference { T.reference tx.new ≡ T.reference tx.old }
    ensures removed { HasCleanDisk (state S.Store (T.held tx.new)) → OnOk result (Removes (codes "dictcat_part") (equals_number 1 edition) (state S.Store (T.held tx.old)) (state S.Store (T.held tx.new))) }
    ensures counted { HasCleanDisk (state S.Store (T.held tx.new)) → IfOk result (λ count. count ≡ count_in (codes "dictcat_part") (equals_number 1 edition) (state S.Store (T.held tx.old)).now) }
    ensures failed { HasCleanDisk (state S.Store (T.held tx.new)) → IfErr result (FailsToRemove (codes "dictcat_part") (equals_number 1 edition) (state S.Store (T.held tx.old)) (state S.Store (T.held tx.new))) }
    ensures survives { Survives (state S.Store (T.held tx.old)) (state S.Store (T.held tx.new)) (λ _. ⊥) }
{
    tx.execute(
        "DELETE FROM dictcat_part WHERE edition = ?1",
        params![edition],
    )
}

/// Takes out the parts of this file of the edition from this number on. It answers how many these were.
pub fn delete_parts_from<S: Alter, T: OpenTransaction<S>>(
    tx: &mut T,
    edition: i64,
    file: i64,
    number: i64,
) -> Result<usize, Error>
    requires { WhileOpen (state S.Store (T.held tx.old)) (HasToRemove part) }
    ensures same_reference { T.reference tx.new ≡ T.reference tx.old }
    ensures removed { HasCleanDisk (state S.Store (T.held tx.new)) → OnOk result (Removes (codes "dictcat_part") (is_part_from edition file number) (state S.Store (T.held tx.old)) (state S.Store (T.held tx.new))) }
    ensures counted { HasCleanDisk (state S.Store (T.held tx.new)) → IfOk result (λ count. count ≡ count_in (codes "dictcat_part") (is_part_from edition file number) (state S.Store (T.held tx.old)).now) }
    ensures failed { HasCleanDisk (state S.Store (T.held tx.new)) → IfErr result (FailsToRemove (codes "dictcat_part") (is_part_from edition file number) (state S.Store (T.held tx.old)) (state S.Store (T.held tx.new))) }
    ensures survives { Survives (state S.Store (T.held tx.old)) (state S.Store (T.held tx.new)) (λ _. ⊥) }
{
    tx.execute(
        "DELETE FROM dictcat_part WHERE edition = ?1 AND file = ?2 AND number >= ?3",
        params![edition, file, number],
    )
}
