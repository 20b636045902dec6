//! The table `entry` as schemas 2 and 3 have it: recognised, and read row by row.

ghost use Rattle.std.specs.Prelude.{true, ◌≡◌, ◌∷◌, [], codes, IsTrue, ◌↔◌, false, IfOk};
ghost use Rattle.std.specs.Borrow.{sem, RestsIfErr};
ghost use Rattle.sqlite.specs.Kind.TheVariants.{Integer, Blob};
ghost use Rattle.sqlite.specs.State.{HasCleanDisk, IsUnchanged, Survives};
ghost use Rattle.sqlite.specs.Held.{state};
ghost use Rattle.sqlite.specs.contracts.connection.Connection.{the_row};
ghost use Rattle.store_tables.specs.Effects.{Has, WhileOpen};
ghost use Rattle.store_sql.specs.Streams.{IsNotBegun};
ghost use Rattle.store_tables.specs.Found.{HasOwn};
ghost use Rattle.store_tables.specs.Tables.{column_of};
ghost use Rattle.store_tables.specs.Keyed.{old_entry};
ghost use Rattle.store_older_sql.specs.Scans.{HasGivenOlder};
ghost use Rattle.store_older_sql.specs.Scans.OlderScan.{OldByRowid, OldOf};

use sqlite::{Alter, Connection, Error, Rows, params};
use sqlite_schema::schema::{Column, Kind, Schema, Table};
use store_tables::{
    find_table, is_column, is_only_key, is_only_plain_order, is_plain, is_unshared,
};

fn are_interval_columns(columns: &[Column]) -> bool
    ensures { IsTrue result ↔ columns.now ≡ column_of (codes "start") Integer true ∷ column_of (codes "length") Integer true ∷ column_of (codes "key") Blob true ∷ column_of (codes "rkey") Blob true ∷ [] }
{
    match columns {
        [start, length, key, reversed] => {
            is_column(start, b"start", Kind::Integer, true)
                && is_column(length, b"length", Kind::Integer, true)
                && is_column(key, b"key", Kind::Blob, true)
                && is_column(reversed, b"rkey", Kind::Blob, true)
        }
        _ => false,
    }
}

fn are_entry_columns(columns: &[Column]) -> bool
    ensures { IsTrue result ↔ columns.now ≡ (old_entry 0).columns }
{
    match columns {
        [edition, ord, headword, rest @ ..] => {
            is_column(edition, b"edition", Kind::Integer, true)
                && is_column(ord, b"ord", Kind::Integer, true)
                && is_column(headword, b"headword", Kind::Text, true)
                && are_interval_columns(rest)
        }
        _ => false,
    }
}

fn are_entry_keys(t: &Table) -> bool
    ensures { IsTrue result ↔ (t.now.key ≡ (old_entry 0).key) × (t.now.primary ≡ (old_entry 0).primary) × (t.now.uniques ≡ (old_entry 0).uniques) × (t.now.orders ≡ (old_entry 0).orders) }
{
    t.key.is_none()
        && t.primary.as_slice() == [1, 2].as_slice()
        && is_only_key(t.uniques.as_slice(), &[1, 2])
        && is_only_plain_order(t.orders.as_slice())
}

fn is_old_entry(t: &Table) -> bool
    ensures { IsTrue result ↔ t.now ≡ old_entry t.now.tree }
{
    t.name.as_slice() == b"entry".as_slice()
        && are_entry_columns(t.columns.as_slice())
        && are_entry_keys(t)
        && is_plain(t)
}

/// Whether the schema has the entries exactly as schemas 2 and 3 have them, in a tree that no other table shares, with no foreign key that refers to them and no further unique index.
pub fn has_old_entry(schema: &Schema) -> bool
    ensures { IsTrue result ↔ HasOwn schema.now old_entry }
{
    match find_table(schema, b"entry") {
        Some(found) => is_old_entry(found) && is_unshared(schema, found),
        None => false,
    }
}

/// Begins to read all entries of schemas 2 and 3, in the order of their rowids.
///
/// An error is the store's, or tells that the limit on steps was met.
pub fn read_old_by_rowid<S: Alter>(conn: &mut Connection<S>) -> Result<Rows<'_, S>, Error>
    requires { WhileOpen (state S.Store conn.old) (Has old_entry) }
    ensures* refused { sem 𝓛 (RestsIfErr (the_row S.row S.Store) conn.entry (λ rows. rows.conn.ghost_name) result (IsNotBegun S.Store conn.old result)) }
    ensures same_reference { IfOk result (λ rows. rows.conn.ghost_name ≡ conn.entry.ghost_name) }
    ensures begun { IfOk result (λ rows. HasCleanDisk (state S.Store rows.conn.now) → HasGivenOlder S.Store OldByRowid rows.conn.now [] × IsUnchanged (state S.Store conn.old) (state S.Store rows.conn.now)) }
    ensures mode { IfOk result (λ rows. conn.old.in_transaction ≡ false → rows.conn.now.in_transaction ≡ false) }
    ensures survives { IfOk result (λ rows. Survives (state S.Store conn.old) (state S.Store rows.conn.now) (λ _. ⊥)) }
{
    conn.query("SELECT rowid, * FROM entry ORDER BY 1", &[])
}

/// Begins to read the entries of an edition of schemas 2 and 3, in their order.
///
/// An error is the store's, or tells that the limit on steps was met.
pub fn read_old_rows_of<S: Alter>(
    conn: &mut Connection<S>,
    edition: i64,
) -> Result<Rows<'_, S>, Error>
    requires { WhileOpen (state S.Store conn.old) (Has old_entry) }
    ensures* refused { sem 𝓛 (RestsIfErr (the_row S.row S.Store) conn.entry (λ rows. rows.conn.ghost_name) result (IsNotBegun S.Store conn.old result)) }
    ensures same_reference { IfOk result (λ rows. rows.conn.ghost_name ≡ conn.entry.ghost_name) }
    ensures begun { IfOk result (λ rows. HasCleanDisk (state S.Store rows.conn.now) → HasGivenOlder S.Store (OldOf edition) rows.conn.now [] × IsUnchanged (state S.Store conn.old) (state S.Store rows.conn.now)) }
    ensures mode { IfOk result (λ rows. conn.old.in_transaction ≡ false → rows.conn.now.in_transaction ≡ false) }
    ensures survives { IfOk result (λ rows. Survives (state S.Store conn.old) (state S.Store rows.conn.now) (λ _. ⊥)) }
{
    conn.query(
        "SELECT rowid, * FROM entry WHERE edition = ?1 ORDER BY 3",
        params![edition],
    )
}
