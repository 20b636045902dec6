//! The table of parts is made, parts are put in, and some are taken out.

ghost use Rattle.sqlite.specs.State.{HasCleanDisk};
ghost use Rattle.sqlite.specs.Held.{state};
ghost use Rattle.store_tables.specs.Effects.{HasApartRowids, WhileOpen, rows_of};
ghost use Rattle.store_sql.specs.Deletes.{HasToRemove};
ghost use Rattle.store_sql.specs.PartTable.{part};

use crate::checks::holds;
use reads::look;
use sqlite::{Alter, Connection};
use std::alloc::Global;
use std::process::Abort;
use store_sql::part_found::has_part_table;
use store_sql::part_records::Part;
use store_sql::part_statements::{create_part_table, delete_parts, delete_parts_from, insert_part};
use store_tables::commit::commit;
use store_tables::transaction::OpenTransaction;
use store_tables::{is_name_used, lacks_counting_table};

mod reads;

// Makes the table where its name is free.
fn make<S: Alter>(rt: &impl Abort, conn: &mut Connection<S>)
    ensures { HasCleanDisk (state S.Store conn.new) → HasApartRowids (rows_of (part 0).name (state S.Store conn.new).now) }
{
    let schema = conn.schema();
    holds(rt, !is_name_used(schema, b"dictcat_part"), "parts");
    holds(rt, !lacks_counting_table(schema), "counting");
    holds(rt, conn.is_autocommit(), "autocommit");
    let mut tx = conn.transaction();
    create_part_table(&mut tx).expect(rt, "a table");
    commit(tx).expect(rt, "a commit");
}

fn put<S: Alter, T: OpenTransaction<S>>(
    rt: &impl Abort,
    tx: &mut T,
    edition: i64,
    file: i64,
    number: i64,
    octets: &[u8],
)
    requires { WhileOpen (state S.Store (T.held tx.old)) (HasToRemove part) }
    ensures { WhileOpen (state S.Store (T.held tx.new)) (HasToRemove part) }
{
    let row = Part {
        edition,
        file,
        number,
        octets,
    };
    insert_part(tx, &row).expect(rt, "a part");
}

fn put_all<S: Alter, T: OpenTransaction<S>>(rt: &impl Abort, tx: &mut T)
    requires { WhileOpen (state S.Store (T.held tx.old)) (HasToRemove part) }
    ensures { WhileOpen (state S.Store (T.held tx.new)) (HasToRemove part) }
{
    put(rt, tx, 2, 1, 0, b"t");
    put(rt, tx, 1, 1, 1, b"b");
    put(rt, tx, 1, 1, 0, b"a");
    put(rt, tx, 1, 0, 0, b"i");
    put(rt, tx, 1, 1, 2, b"c");
    put(rt, tx, 3, 0, 0, b"x");
}

// Takes out the text of the first edition from its second part on.
fn cut_off<S: Alter, T: OpenTransaction<S>>(rt: &impl Abort, tx: &mut T)
    requires { WhileOpen (state S.Store (T.held tx.old)) (HasToRemove part) }
    ensures { WhileOpen (state S.Store (T.held tx.new)) (HasToRemove part) }
{
    delete_parts_from(tx, 1, 1, 1).expect(rt, "a change");
}

// Puts all in, and takes some out.
fn put_and_take<S: Alter, T: OpenTransaction<S>>(rt: &impl Abort, tx: &mut T) -> usize
    requires { WhileOpen (state S.Store (T.held tx.old)) (HasToRemove part) }
{
    put_all(rt, tx);
    cut_off(rt, tx);
    delete_parts(tx, 3).expect(rt, "a change")
}

fn change<S: Alter>(rt: &impl Abort, conn: &mut Connection<S>) -> usize
    requires { HasCleanDisk (state S.Store conn.old) → HasApartRowids (rows_of (part 0).name (state S.Store conn.old).now) }
{
    holds(rt, has_part_table(conn.schema()), "parts");
    holds(rt, conn.is_autocommit(), "autocommit");
    let mut tx = conn.transaction();
    let taken = put_and_take(rt, &mut tx);
    commit(tx).expect(rt, "a commit");
    taken
}

/// The table is made, changed and looked at.
pub(crate) fn run<S: Alter>(rt: &impl Abort, alloc: Global, conn: &mut Connection<S>) {
    make(rt, conn);
    let taken = change(rt, conn);
    holds(rt, taken == 1, "taken");
    look(rt, alloc, conn);
}
