//! All headers, read one at a time.
//!
//! A caller begins with `read_headers_by_rowid`, and then calls `next_record` until it gives none.

ghost use Rattle.std.specs.Prelude.{◌≡◌, false, [], IfOk};
ghost use Rattle.std.specs.Borrow.{sem, RestsIfErr};
ghost use Rattle.sqlite.specs.State.{HasCleanDisk, IsUnchanged, Survives};
ghost use Rattle.sqlite.specs.Held.{state};
ghost use Rattle.sqlite.specs.contracts.connection.Connection.{the_row};
ghost use Rattle.store_tables.specs.Effects.{Has, WhileOpen};
ghost use Rattle.store_sql.specs.Streams.{IsNotBegun};
ghost use Rattle.store_sql.specs.HeaderTable.{header};
ghost use Rattle.store_sql.specs.HeaderScans.{HasGivenHeaders};

use sqlite::{Alter, Connection, Error, Rows};

/// Begins to read all headers in the order of their rowids.
///
/// An error is the store's, or tells that the limit on steps was met.
pub fn read_headers_by_rowid<S: Alter>(conn: &mut Connection<S>) -> Result<Rows<'_, S>, Error>
    requires { WhileOpen (state S.Store conn.old) (Has header) }
    ensures* refused { sem 𝓛 (RestsIfErr (the_row S.row S.Store) conn.entry (λ rows. rows.conn.ghost_name) result (IsNotBegun S.Store conn.old result)) }
    ensures same_reference { IfOk result (λ rows. rows.conn.ghost_name ≡ conn.entry.ghost_name) }
    ensures begun { IfOk result (λ rows. HasCleanDisk (state S.Store rows.conn.now) → HasGivenHeaders S.Store rows.conn.now [] × IsUnchanged (state S.Store conn.old) (state S.Store rows.conn.now)) }
    ensures mode { IfOk result (λ rows. conn.old.in_transaction ≡ false → rows.conn.now.in_transaction ≡ false) }
    ensures survives { IfOk result (λ rows. Survives (state S.Store conn.old) (state S.Store rows.conn.now) (λ _. ⊥)) }
{
    conn.query("SELECT rowid, * FROM edition ORDER BY 1", &[])
}
