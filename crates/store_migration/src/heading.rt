// The table of editions is made again, without texts, and the headers are put in.
ghost use Rattle.std.specs.Prelude.{◌≡◌, codes, map, true, IfErr, OnOk};
ghost use Rattle.sqlite.specs.Held.{state};
ghost use Rattle.sqlite.specs.State.{HasCleanDisk, KeepsCommit, Survives};
ghost use Rattle.store_tables.specs.Typed.{owned_header};
ghost use Rattle.store_sql.specs.HeaderRecords.{header_row};
ghost use Rattle.store_sql.specs.HeaderTable.{header as header_table};
ghost use Rattle.store_tables.specs.Added.{AreAdded};
ghost use Rattle.store_tables.specs.Effects.{Has, WhileOpen};
ghost use Rattle.store_sql.specs.declared.records.ReadError.TheVariants.{Store};
ghost use Rattle.store_migration.specs.Failing.{MigrationFailsInside};
ghost use Rattle.store_migration.specs.Moved.{AreHeaded};
ghost use Rattle.store_migration.specs.FailurePlaces.{InHeads, Putting};
ghost use Rattle.store_migration.specs.Steps.{MayBeHeaded};

use sqlite::{Alter, Error};
use store_sql::header_statements::{create_header_table, insert_header};
use store_tables::HeaderRecord;
use store_tables::transaction::OpenTransaction;

// Puts these headers in, one after the other.
fn put_headers<S: Alter, T: OpenTransaction<S>>(
    tx: &mut T,
    headers: &[HeaderRecord<String>],
) -> Result<(), Error>
    requires { WhileOpen (state S.Store (T.held tx.old)) (Has header_table) }
    ensures same_reference { T.reference tx.new ≡ T.reference tx.old }
    ensures added { HasCleanDisk (state S.Store (T.held tx.new)) → OnOk result (AreAdded (codes "edition") (map header_row (map owned_header headers.now)) (state S.Store (T.held tx.old)).now (state S.Store (T.held tx.new)).now) }
    ensures inside { HasCleanDisk (state S.Store (T.held tx.new)) → OnOk result ((state S.Store (T.held tx.old)).in_transaction ≡ true → (state S.Store (T.held tx.new)).in_transaction ≡ true) }
    ensures failed { HasCleanDisk (state S.Store (T.held tx.new)) → IfErr result (λ e. MigrationFailsInside S.Store (Putting (codes "edition") (map header_row (map owned_header headers.now))) (T.held tx.old) (T.held tx.new) (Store e)) }
    ensures keeps { HasCleanDisk (state S.Store (T.held tx.new)) → KeepsCommit (state S.Store (T.held tx.old)) (state S.Store (T.held tx.new)) }
    ensures survives { Survives (state S.Store (T.held tx.old)) (state S.Store (T.held tx.new)) (λ _. ⊥) }
{
    'each: for header in headers {
        let given = header.lend();
        insert_header(tx, &given)?;
    }
    Ok(())
}

/// Makes the table of editions, without texts, and puts these headers in.
pub(crate) fn head_editions<S: Alter, T: OpenTransaction<S>>(
    tx: &mut T,
    headers: &[HeaderRecord<String>],
) -> Result<(), Error>
    requires { WhileOpen (state S.Store (T.held tx.old)) MayBeHeaded }
    ensures same_reference { T.reference tx.new ≡ T.reference tx.old }
    ensures headed { HasCleanDisk (state S.Store (T.held tx.new)) → OnOk result (AreHeaded (map owned_header headers.now) (state S.Store (T.held tx.old)).now (state S.Store (T.held tx.new)).now) }
    ensures inside { HasCleanDisk (state S.Store (T.held tx.new)) → OnOk result ((state S.Store (T.held tx.new)).in_transaction ≡ true) }
    ensures failed { HasCleanDisk (state S.Store (T.held tx.new)) → IfErr result (λ e. MigrationFailsInside S.Store (InHeads (map owned_header headers.now)) (T.held tx.old) (T.held tx.new) (Store e)) }
    ensures keeps { HasCleanDisk (state S.Store (T.held tx.new)) → KeepsCommit (state S.Store (T.held tx.old)) (state S.Store (T.held tx.new)) }
    ensures survives { Survives (state S.Store (T.held tx.old)) (state S.Store (T.held tx.new)) (λ _. ⊥) }
{
    create_header_table(tx)?;
    put_headers(tx, headers)?;
    Ok(())
}
