//! The records of a large table, read one at a time.
//!
//! A caller begins with `read_entries_of` or one of its like, and then calls `next_record` until it gives none.

ghost use Rattle.std.specs.Prelude.{◌≡◌, false, [], List, option_map, IfOk, IfErr, IfNone, IsNone, OnOk};
ghost use Rattle.std.specs.Borrow.{sem, RestsIfErr};
ghost use Rattle.sqlite.specs.Order.{Row as SqlRow};
ghost use Rattle.sqlite.specs.State.{HasCleanDisk, IsUnchanged, Survives};
ghost use Rattle.sqlite.specs.Held.{state};
ghost use Rattle.sqlite.specs.Given.{IsEnded, Advances};
ghost use Rattle.sqlite.specs.contracts.connection.Connection.{the_row};
ghost use Rattle.store_tables.specs.Tables.{edition as edition_table, entry, kept, table_of};
ghost use Rattle.store_sql.specs.Reads.{select_by_rowid};
ghost use Rattle.store_tables.specs.Effects.{Has, WhileOpen};
ghost use Rattle.store_sql.specs.Streams.{Scan, HasGiven, GivesOn, FailsToGive, FailsToMove, IsNotBegun};
ghost use Rattle.store_sql.specs.Streams.Scan.{EntriesOf, AllKept, KeptById, ByRowid, EditionNumbers};

use crate::records::{ReadError, Record};
use sqlite::{Alter, Connection, Error, Rows, params};
use store_tables::StoreTable;

/// Begins to read the entries of this edition, in their order.
///
/// An error is the store's, or tells that the limit on steps was met.
pub fn read_entries_of<S: Alter>(
    conn: &mut Connection<S>,
    edition: i64,
) -> Result<Rows<'_, S>, Error>
    requires { WhileOpen (state S.Store conn.old) (Has entry) }
    ensures* refused { sem 𝓛 (RestsIfErr (the_row S.row S.Store) conn.entry (λ rows. rows.conn.ghost_name) result (IsNotBegun S.Store conn.old result)) }
    ensures same_reference { IfOk result (λ rows. rows.conn.ghost_name ≡ conn.entry.ghost_name) }
    ensures begun { IfOk result (λ rows. HasCleanDisk (state S.Store rows.conn.now) → HasGiven S.Store (EntriesOf edition) rows.conn.now [] × IsUnchanged (state S.Store conn.old) (state S.Store rows.conn.now)) }
    ensures mode { IfOk result (λ rows. conn.old.in_transaction ≡ false → rows.conn.now.in_transaction ≡ false) }
    ensures survives { IfOk result (λ rows. Survives (state S.Store conn.old) (state S.Store rows.conn.now) (λ _. ⊥)) }
{
    conn.query(
        "SELECT rowid, * FROM entry WHERE edition = ?1 ORDER BY 3",
        params![edition],
    )
}

/// Begins to read all kept replies, in the order of their numbers.
///
/// An error is the store's, or tells that the limit on steps was met.
pub fn read_kept_replies<S: Alter>(conn: &mut Connection<S>) -> Result<Rows<'_, S>, Error>
    requires { WhileOpen (state S.Store conn.old) (Has kept) }
    ensures* refused { sem 𝓛 (RestsIfErr (the_row S.row S.Store) conn.entry (λ rows. rows.conn.ghost_name) result (IsNotBegun S.Store conn.old result)) }
    ensures same_reference { IfOk result (λ rows. rows.conn.ghost_name ≡ conn.entry.ghost_name) }
    ensures begun { IfOk result (λ rows. HasCleanDisk (state S.Store rows.conn.now) → HasGiven S.Store AllKept rows.conn.now [] × IsUnchanged (state S.Store conn.old) (state S.Store rows.conn.now)) }
    ensures mode { IfOk result (λ rows. conn.old.in_transaction ≡ false → rows.conn.now.in_transaction ≡ false) }
    ensures survives { IfOk result (λ rows. Survives (state S.Store conn.old) (state S.Store rows.conn.now) (λ _. ⊥)) }
{
    conn.query("SELECT rowid, * FROM kept ORDER BY 3", &[])
}

/// Begins to read all kept replies, in the order of their ids.
///
/// An error is the store's, or tells that the limit on steps was met.
pub fn read_kept_by_id<S: Alter>(conn: &mut Connection<S>) -> Result<Rows<'_, S>, Error>
    requires { WhileOpen (state S.Store conn.old) (Has kept) }
    ensures* refused { sem 𝓛 (RestsIfErr (the_row S.row S.Store) conn.entry (λ rows. rows.conn.ghost_name) result (IsNotBegun S.Store conn.old result)) }
    ensures same_reference { IfOk result (λ rows. rows.conn.ghost_name ≡ conn.entry.ghost_name) }
    ensures begun { IfOk result (λ rows. HasCleanDisk (state S.Store rows.conn.now) → HasGiven S.Store KeptById rows.conn.now [] × IsUnchanged (state S.Store conn.old) (state S.Store rows.conn.now)) }
    ensures mode { IfOk result (λ rows. conn.old.in_transaction ≡ false → rows.conn.now.in_transaction ≡ false) }
    ensures survives { IfOk result (λ rows. Survives (state S.Store conn.old) (state S.Store rows.conn.now) (λ _. ⊥)) }
{
    conn.query("SELECT rowid, * FROM kept ORDER BY 2", &[])
}

fn text_by_rowid(table: StoreTable) -> &'static str
    ensures { result.now ≡ select_by_rowid table }
{
    match table {
        StoreTable::Mark => "SELECT rowid, * FROM mark ORDER BY 1",
        StoreTable::Item => "SELECT rowid, * FROM item ORDER BY 1",
        StoreTable::Member => "SELECT rowid, * FROM member ORDER BY 1",
        StoreTable::Edition => "SELECT rowid, * FROM edition ORDER BY 1",
        StoreTable::Entry => "SELECT rowid, * FROM entry ORDER BY 1",
        StoreTable::Kept => "SELECT rowid, * FROM kept ORDER BY 1",
    }
}

/// Begins to read all rows of a table, in the order of their rowids.
///
/// An error is the store's, or tells that the limit on steps was met.
pub fn read_by_rowid<S: Alter>(
    conn: &mut Connection<S>,
    table: StoreTable,
) -> Result<Rows<'_, S>, Error>
    requires { WhileOpen (state S.Store conn.old) (Has (table_of table)) }
    ensures* refused { sem 𝓛 (RestsIfErr (the_row S.row S.Store) conn.entry (λ rows. rows.conn.ghost_name) result (IsNotBegun S.Store conn.old result)) }
    ensures same_reference { IfOk result (λ rows. rows.conn.ghost_name ≡ conn.entry.ghost_name) }
    ensures begun { IfOk result (λ rows. HasCleanDisk (state S.Store rows.conn.now) → HasGiven S.Store (ByRowid table) rows.conn.now [] × IsUnchanged (state S.Store conn.old) (state S.Store rows.conn.now)) }
    ensures mode { IfOk result (λ rows. conn.old.in_transaction ≡ false → rows.conn.now.in_transaction ≡ false) }
    ensures survives { IfOk result (λ rows. Survives (state S.Store conn.old) (state S.Store rows.conn.now) (λ _. ⊥)) }
{
    conn.query(text_by_rowid(table), &[])
}

/// Begins to read the rowids and the numbers of all editions, without their texts, in the order of the rowids.
///
/// An error is the store's, or tells that the limit on steps was met.
pub fn read_edition_numbers<S: Alter>(conn: &mut Connection<S>) -> Result<Rows<'_, S>, Error>
    requires { WhileOpen (state S.Store conn.old) (Has edition_table) }
    ensures* refused { sem 𝓛 (RestsIfErr (the_row S.row S.Store) conn.entry (λ rows. rows.conn.ghost_name) result (IsNotBegun S.Store conn.old result)) }
    ensures same_reference { IfOk result (λ rows. rows.conn.ghost_name ≡ conn.entry.ghost_name) }
    ensures begun { IfOk result (λ rows. HasCleanDisk (state S.Store rows.conn.now) → HasGiven S.Store EditionNumbers rows.conn.now [] × IsUnchanged (state S.Store conn.old) (state S.Store rows.conn.now)) }
    ensures mode { IfOk result (λ rows. conn.old.in_transaction ≡ false → rows.conn.now.in_transaction ≡ false) }
    ensures survives { IfOk result (λ rows. Survives (state S.Store conn.old) (state S.Store rows.conn.now) (λ _. ⊥)) }
{
    conn.query("SELECT rowid, number FROM edition ORDER BY 1", &[])
}

/// The next record, or none after the last.
///
/// `NoRecord` tells that the next row is none; another error is the store's, or memory was refused for the record. After the store's error nothing more is given; after another the reading goes on behind that row.
pub fn next_record<S: Alter, R: Record>(rows: &mut Rows<'_, S>) -> Result<Option<R>, ReadError>
    ensures same_reference { rows.new.conn.ghost_name ≡ rows.old.conn.ghost_name }
    ensures given { HasCleanDisk (state S.Store rows.new.conn.now) → IfOk result (λ record'. (what : Scan) (given : List SqlRow) → HasGiven S.Store what rows.old.conn.now given → GivesOn S.Store what rows.new.conn.now given (option_map R.Record.stored record')) }
    ensures same { HasCleanDisk (state S.Store rows.new.conn.now) → OnOk result (IsUnchanged (state S.Store rows.old.conn.now) (state S.Store rows.new.conn.now)) }
    ensures failed { HasCleanDisk (state S.Store rows.new.conn.now) → IfErr result (λ e. (what : Scan) (given : List SqlRow) → HasGiven S.Store what rows.old.conn.now given → FailsToGive S.Store R.Record.columns what rows.old.conn.now rows.new.conn.now given e) }
    ensures moved { HasCleanDisk (state S.Store rows.new.conn.now) → IfOk result (λ record'. Advances S.Store rows.old.conn.now rows.new.conn.now (option_map R.Record.stored record')) }
    ensures stopped { HasCleanDisk (state S.Store rows.new.conn.now) → IfErr result (FailsToMove S.Store R.Record.columns rows.old.conn.now rows.new.conn.now) }
    ensures ends { IfOk result (λ record'. IfNone record' (IsEnded rows.new.conn.now)) }
    ensures ended { IsEnded rows.old.conn.now → IfOk result IsNone }
    ensures mode { rows.old.conn.now.in_transaction ≡ false → rows.new.conn.now.in_transaction ≡ false }
    ensures survives { Survives (state S.Store rows.old.conn.now) (state S.Store rows.new.conn.now) (λ _. ⊥) }
{
    rows.advance()?;
    match rows.get() {
        Some(row) => Ok(Some(R::from_row(row)?)),
        None => Ok(None),
    }
}
