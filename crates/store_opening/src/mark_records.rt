// The records of the mark, to whose table a foreign key may refer.
ghost use Rattle.std.specs.Prelude.{◌≡◌, false, [], ◌∷◌, map, codes, IfOk, IfErr};
ghost use Rattle.sqlite.specs.State.{HasCleanDisk, Survives};
ghost use Rattle.sqlite.specs.Held.{state};
ghost use Rattle.store_sql.specs.Columns.{mark_columns};
ghost use Rattle.store_tables.specs.Effects.{WhileOpen, rows_of, FailsToRead};
ghost use Rattle.store_sql.specs.Encodings.{stored_mark};
ghost use Rattle.store_sql.specs.Reads.{Lists, FailsToList};
ghost use Rattle.store_opening.specs.Marks.{HasMarkTable};

use sqlite::{Alter, Connection, Error, Row};
use std::alloc::Global;
use store_sql::read::records_of;
use store_sql::records::ReadError;
use store_tables::{Mark, StoredRow};

fn mark_rows<S: Alter>(conn: &mut Connection<S>) -> Result<Vec<Row>, Error>
    requires { WhileOpen (state S.Store conn.old) (λ db. HasMarkTable db.schema) }
    ensures listed { HasCleanDisk (state S.Store conn.new) → IfOk result (λ rows. Lists (codes "mark") (1 ∷ []) (state S.Store conn.old) (state S.Store conn.new) rows.items) }
    ensures failed { HasCleanDisk (state S.Store conn.new) → IfErr result (FailsToRead (state S.Store conn.old) (state S.Store conn.new)) }
    ensures mode { conn.old.in_transaction ≡ false → conn.new.in_transaction ≡ false }
    ensures survives { Survives (state S.Store conn.old) (state S.Store conn.new) (λ _. ⊥) }
{
    conn.query_all("SELECT rowid, * FROM mark ORDER BY 2", &[])
}

/// The records of the mark, in the order of their ids, of a table that a foreign key may refer to.
pub(crate) fn marks<S: Alter>(
    alloc: Global,
    conn: &mut Connection<S>,
) -> Result<Vec<StoredRow<Mark<String>>>, ReadError>
    requires { WhileOpen (state S.Store conn.old) (λ db. HasMarkTable db.schema) }
    ensures listed { HasCleanDisk (state S.Store conn.new) → IfOk result (λ all. Lists (codes "mark") (1 ∷ []) (state S.Store conn.old) (state S.Store conn.new) (map stored_mark all.items)) }
    ensures failed { HasCleanDisk (state S.Store conn.new) → IfErr result (FailsToList mark_columns (rows_of (codes "mark") (state S.Store conn.old).now) (state S.Store conn.old) (state S.Store conn.new)) }
    ensures mode { conn.old.in_transaction ≡ false → conn.new.in_transaction ≡ false }
    ensures survives { Survives (state S.Store conn.old) (state S.Store conn.new) (λ _. ⊥) }
{
    let rows = mark_rows(conn)?;
    records_of(alloc, &rows)
}
