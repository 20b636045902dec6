//! The entries of schema 4, read one at a time.
//!
//! A caller begins with `read_shown_by_rowid` or `read_shown_rows_of`, and then calls `next_record` until it gives none.

ghost use Rattle.std.specs.Prelude.{◌≡◌, false, [], IfOk};
ghost use Rattle.std.specs.Borrow.{sem, RestsIfErr};
ghost use Rattle.sqlite.specs.State.{HasCleanDisk, IsUnchanged, Survives};
ghost use Rattle.sqlite.specs.Held.{state};
ghost use Rattle.sqlite.specs.contracts.connection.Connection.{the_row};
ghost use Rattle.store_tables.specs.Effects.{Has, WhileOpen};
ghost use Rattle.store_sql.specs.Streams.{IsNotBegun};
ghost use Rattle.store_tables.specs.Keyed.{entry_with_keys as shown_entry};
ghost use Rattle.store_older_sql.specs.Scans.{HasGivenOlder};
ghost use Rattle.store_older_sql.specs.Scans.OlderScan.{ShownByRowid, ShownOf};

use sqlite::{Alter, Connection, Error, Rows, params};

/// Begins to read all entries of schema 4, in the order of their rowids.
///
/// An error is the store's, or tells that the limit on steps was met.
pub fn read_shown_by_rowid<S: Alter>(conn: &mut Connection<S>) -> Result<Rows<'_, S>, Error>
    requires { WhileOpen (state S.Store conn.old) (Has shown_entry) }
    ensures* refused { sem 𝓛 (RestsIfErr (the_row S.row S.Store) conn.entry (λ rows. rows.conn.ghost_name) result (IsNotBegun S.Store conn.old result)) }
    ensures same_reference { IfOk result (λ rows. rows.conn.ghost_name ≡ conn.entry.ghost_name) }
    ensures begun { IfOk result (λ rows. HasCleanDisk (state S.Store rows.conn.now) → HasGivenOlder S.Store ShownByRowid rows.conn.now [] × IsUnchanged (state S.Store conn.old) (state S.Store rows.conn.now)) }
    ensures mode { IfOk result (λ rows. conn.old.in_transaction ≡ false → rows.conn.now.in_transaction ≡ false) }
    ensures survives { IfOk result (λ rows. Survives (state S.Store conn.old) (state S.Store rows.conn.now) (λ _. ⊥)) }
{
    conn.query("SELECT rowid, * FROM entry ORDER BY 1", &[])
}

/// Begins to read the entries of an edition of schema 4, in their order.
///
/// An error is the store's, or tells that the limit on steps was met.
pub fn read_shown_rows_of<S: Alter>(
    conn: &mut Connection<S>,
    edition: i64,
) -> Result<Rows<'_, S>, Error>
    requires { WhileOpen (state S.Store conn.old) (Has shown_entry) }
    ensures* refused { sem 𝓛 (RestsIfErr (the_row S.row S.Store) conn.entry (λ rows. rows.conn.ghost_name) result (IsNotBegun S.Store conn.old result)) }
    ensures same_reference { IfOk result (λ rows. rows.conn.ghost_name ≡ conn.entry.ghost_name) }
    ensures begun { IfOk result (λ rows. HasCleanDisk (state S.Store rows.conn.now) → HasGivenOlder S.Store (ShownOf edition) rows.conn.now [] × IsUnchanged (state S.Store conn.old) (state S.Store rows.conn.now)) }
    ensures mode { IfOk result (λ rows. conn.old.in_transaction ≡ false → rows.conn.now.in_transaction ≡ false) }
    ensures survives { IfOk result (λ rows. Survives (state S.Store conn.old) (state S.Store rows.conn.now) (λ _. ⊥)) }
{
    conn.query(
        "SELECT rowid, * FROM entry WHERE edition = ?1 ORDER BY 3",
        params![edition],
    )
}
