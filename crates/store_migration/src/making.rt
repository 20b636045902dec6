// The empty catalogue is made in a database.
ghost use Rattle.std.specs.Prelude.{◌≡◌, ◌≢◌, ◌↔◌, true, false, IsTrue, IfErr, OnOk, OnErr, Err};
ghost use Rattle.sqlite.specs.Effect.{IsDatabase};
ghost use Rattle.sqlite.specs.State.{HasCleanDisk, IsLive, KeepsCommit, Survives};
ghost use Rattle.sqlite.specs.Held.{state};
ghost use Rattle.store_tables.specs.Creates.{AreApart, IsReady, MadeInTurn};
ghost use Rattle.store_tables.specs.Effects.{WhileOpen};
ghost use Rattle.store_sql.specs.Turns.{DoneInTurn, FailedInTurn};
ghost use Rattle.store_sql.specs.Statements as sql;
ghost use Rattle.store_sql.specs.Statements.{make};
ghost use Rattle.store_rows.specs.Versions.{known};
ghost use Rattle.dict_catalogue.specs.Steps.{empty_catalogue};
ghost use Rattle.dict_desk.specs.Faults.{is_disk};
ghost use Rattle.store_holdings.specs.Holds.{Holds, Rests, IsLeftAs, HasPlace};
ghost use Rattle.store_holdings.specs.Writing.{StaysCommitted, IsOfCreation};
ghost use Rattle.store_migration.specs.Making.{creation, CreationFailsToEnd, StepsRunInTurn, StepsFailInTurn};
ghost use Rattle.store_holdings.specs.Committed.{IsTreesOf};
ghost use Rattle.store_migration.specs.Spared.{SparesOthers};

use dict_desk::Fault;
use sqlite::{Alter, Connection, Error};
use store_holdings::{fault_of, has_place};
use store_rows::{KNOWN_VERSION, mark_row};
use store_sql::header_statements::create_header_table;
use store_sql::insert::insert_mark;
use store_sql::part_statements::create_part_table;
use store_tables::StoreTable;
use store_tables::commit::commit;
use store_tables::create::create_table;
use store_tables::transaction::OpenTransaction;

// Makes these tables, one after the other.
fn make_each<S: Alter, T: OpenTransaction<S>>(
    tx: &mut T,
    tables: &[StoreTable],
) -> Result<(), Error>
    requires apart { AreApart tables.now }
    requires ready { WhileOpen (state S.Store (T.held tx.old)) IsReady }
    ensures same_reference { T.reference tx.new ≡ T.reference tx.old }
    ensures made { HasCleanDisk (state S.Store (T.held tx.new)) → OnOk result (MadeInTurn tables.now (state S.Store (T.held tx.old)).now (state S.Store (T.held tx.new)).now) }
    ensures ran { HasCleanDisk (state S.Store (T.held tx.new)) → OnOk result (DoneInTurn S.Store (λ table. sql.Succeeds (make table)) tables.now (T.held tx.old) (T.held tx.new)) }
    ensures failed { HasCleanDisk (state S.Store (T.held tx.new)) → IfErr result (FailedInTurn S.Store (λ table. sql.Succeeds (make table)) (λ table. sql.FailsTo (make table)) tables.now (T.held tx.old) (T.held tx.new)) }
    ensures keeps { HasCleanDisk (state S.Store (T.held tx.new)) → KeepsCommit (state S.Store (T.held tx.old)) (state S.Store (T.held tx.new)) }
    ensures survives { Survives (state S.Store (T.held tx.old)) (state S.Store (T.held tx.new)) (λ _. ⊥) }
{
    'each: for table in tables {
        create_table(tx, *table)?;
    }
    Ok(())
}

// Makes the tables, with the mark of the empty catalogue.
fn make_all<S: Alter, T: OpenTransaction<S>>(tx: &mut T) -> Result<(), Error>
    requires ready { WhileOpen (state S.Store (T.held tx.old)) IsReady }
    requires place { WhileOpen (state S.Store (T.held tx.old)) (λ db. HasPlace db.schema) }
    ensures same_reference { T.reference tx.new ≡ T.reference tx.old }
    ensures made { HasCleanDisk (state S.Store (T.held tx.new)) → OnOk result (Holds known (state S.Store (T.held tx.new)).now empty_catalogue × IsDatabase (state S.Store (T.held tx.new)).now) }
    ensures spares { HasCleanDisk (state S.Store (T.held tx.new)) → OnOk result (SparesOthers (state S.Store (T.held tx.old)).now (state S.Store (T.held tx.new)).now) }
    ensures inside { HasCleanDisk (state S.Store (T.held tx.new)) → OnOk result ((state S.Store (T.held tx.new)).in_transaction ≡ true) }
    ensures ran { HasCleanDisk (state S.Store (T.held tx.new)) → OnOk result (StepsRunInTurn S.Store (creation known) (T.held tx.old) (T.held tx.new)) }
    ensures failed { HasCleanDisk (state S.Store (T.held tx.new)) → IfErr result (StepsFailInTurn S.Store (creation known) (T.held tx.old) (T.held tx.new)) }
    ensures keeps { HasCleanDisk (state S.Store (T.held tx.new)) → KeepsCommit (state S.Store (T.held tx.old)) (state S.Store (T.held tx.new)) }
    ensures survives { Survives (state S.Store (T.held tx.old)) (state S.Store (T.held tx.new)) (λ _. ⊥) }
{
    make_each(
        tx,
        &[
            StoreTable::Mark,
            StoreTable::Item,
            StoreTable::Member,
            StoreTable::Kept,
        ],
    )?;
    create_header_table(tx)?;
    create_part_table(tx)?;
    let mark = mark_row(KNOWN_VERSION, 0);
    insert_mark(tx, &mark)?;
    Ok(())
}

// Makes the tables, with the mark of the empty catalogue, by one commit, in a database that has a place for them.
fn commit_tables<S: Alter>(conn: &mut Connection<S>) -> Result<(), Fault>
    requires autocommit { conn.old.in_transaction ≡ false }
    requires place { HasPlace (state S.Store conn.old).now.schema }
    requires live { IsLive (state S.Store conn.old) }
    ensures rests { HasCleanDisk (state S.Store conn.new) → OnOk result (Rests known (state S.Store conn.new) empty_catalogue) }
    ensures only { HasCleanDisk (state S.Store conn.new) → OnOk result ((trees : _) → (state S.Store conn.new).may_leave trees → IsLeftAs known empty_catalogue trees) }
    ensures spares { HasCleanDisk (state S.Store conn.new) → OnOk result (SparesOthers (state S.Store conn.old).now (state S.Store conn.new).now) }
    ensures lives { HasCleanDisk (state S.Store conn.new) → OnOk result (IsTrue (state S.Store conn.old).is_open) }
    ensures beside { Survives (state S.Store conn.old) (state S.Store conn.new) (IsTreesOf (SparesOthers (state S.Store conn.old).now)) }
    ensures adds_none { IfErr result (λ fault. is_disk fault ≡ false → Survives (state S.Store conn.old) (state S.Store conn.new) (λ _. ⊥)) }
    ensures undone { HasCleanDisk (state S.Store conn.new) → IfErr result (λ fault. is_disk fault ≡ false → IsTrue (state S.Store conn.new).is_open → (state S.Store conn.new).committed ≡ (state S.Store conn.old).committed) }
    ensures stays { HasCleanDisk (state S.Store conn.new) → OnErr result (StaysCommitted (state S.Store conn.old) (state S.Store conn.new)) }
    ensures failed { HasCleanDisk (state S.Store conn.new) → IfErr result (CreationFailsToEnd S.Store (creation known) (λ db. Holds known db empty_catalogue) conn.old conn.new) }
    ensures kinds { IfErr result IsOfCreation }
    ensures placed { IfErr result (λ fault. fault ≢ Fault.NotACatalogue) }
    ensures autocommit { (state S.Store conn.new).in_transaction ≡ false }
    ensures crash { Survives (state S.Store conn.old) (state S.Store conn.new) (IsLeftAs known empty_catalogue) }
{
    let mut tx = conn.transaction();
    if let Err(error) = make_all(&mut tx) {
        return Err(fault_of(error));
    }
    match commit(tx) {
        Ok(()) => Ok(()),
        Err(_) => Err(Fault::Disk),
    }
}

/// Makes the tables of the known version, of the empty catalogue, in a database that has none of them, by one
/// commit.
///
/// `NotACatalogue` tells that there is no place for them: one of their names is in use, or a name that is kept for the product,
/// or a table waits for its counter. The tables of others stay as they are. `Memory` tells that a growth was refused before the commit. After both all is as it was.
/// `Disk` tells that a statement failed for another cause, or that the commit did for any: once the file is opened anew, the
/// tables are there whole or not at all. These are all faults of it.
pub fn create<S: Alter>(conn: &mut Connection<S>) -> Result<(), Fault>
    requires { conn.old.in_transaction ≡ false }
    ensures rests { HasCleanDisk (state S.Store conn.new) → OnOk result (Rests known (state S.Store conn.new) empty_catalogue) }
    ensures only { HasCleanDisk (state S.Store conn.new) → OnOk result ((trees : _) → (state S.Store conn.new).may_leave trees → IsLeftAs known empty_catalogue trees) }
    ensures spares { HasCleanDisk (state S.Store conn.new) → OnOk result (SparesOthers (state S.Store conn.old).now (state S.Store conn.new).now) }
    ensures lives { HasCleanDisk (state S.Store conn.new) → OnOk result (IsTrue (state S.Store conn.old).is_open) }
    ensures beside { Survives (state S.Store conn.old) (state S.Store conn.new) (IsTreesOf (SparesOthers (state S.Store conn.old).now)) }
    ensures place { OnOk result (HasPlace (state S.Store conn.old).now.schema) }
    ensures no_place { (result ≡ Err Fault.NotACatalogue) ↔ (HasPlace (state S.Store conn.old).now.schema → ⊥) }
    ensures unchanged { result ≡ Err Fault.NotACatalogue → conn.new ≡ conn.old }
    ensures adds_none { IfErr result (λ fault. is_disk fault ≡ false → Survives (state S.Store conn.old) (state S.Store conn.new) (λ _. ⊥)) }
    ensures undone { HasCleanDisk (state S.Store conn.new) → IfErr result (λ fault. is_disk fault ≡ false → IsTrue (state S.Store conn.new).is_open → (state S.Store conn.new).committed ≡ (state S.Store conn.old).committed) }
    ensures stays { HasCleanDisk (state S.Store conn.new) → OnErr result (StaysCommitted (state S.Store conn.old) (state S.Store conn.new)) }
    ensures failed { HasCleanDisk (state S.Store conn.new) → IfErr result (λ fault. fault ≢ Fault.NotACatalogue → CreationFailsToEnd S.Store (creation known) (λ db. Holds known db empty_catalogue) conn.old conn.new fault) }
    ensures kinds { IfErr result IsOfCreation }
    ensures autocommit { (state S.Store conn.new).in_transaction ≡ false }
    ensures crash { Survives (state S.Store conn.old) (state S.Store conn.new) (IsLeftAs known empty_catalogue) }
{
    if !has_place(conn.schema()) {
        return Err(Fault::NotACatalogue);
    }
    commit_tables(conn)
}
