//! Whether a schema that is found has the table as it is defined here.

ghost use Rattle.std.specs.Prelude.{true, ◌≡◌, ◌∷◌, [], codes, IsTrue, ◌↔◌};
ghost use Rattle.sqlite.specs.Kind.TheVariants.{Integer, Blob};
ghost use Rattle.store_tables.specs.Found.{HasOwn};
ghost use Rattle.store_tables.specs.Tables.{column_of};
ghost use Rattle.store_sql.specs.PartTable.{part};

use sqlite_schema::schema::{Column, Kind, Schema, Table};
use store_tables::{
    find_table, is_column, is_only_key, is_only_plain_order, is_plain, is_unshared,
};

fn are_last_columns(columns: &[Column]) -> bool
    ensures { IsTrue result ↔ columns.now ≡ column_of (codes "number") Integer true ∷ column_of (codes "octets") Blob true ∷ [] }
{
    match columns {
        [number, octets] => {
            is_column(number, b"number", Kind::Integer, true)
                && is_column(octets, b"octets", Kind::Blob, true)
        }
        _ => false,
    }
}

fn are_part_columns(columns: &[Column]) -> bool
    ensures { IsTrue result ↔ columns.now ≡ (part 0).columns }
{
    match columns {
        [edition, file, rest @ ..] => {
            is_column(edition, b"edition", Kind::Integer, true)
                && is_column(file, b"file", Kind::Integer, true)
                && are_last_columns(rest)
        }
        _ => false,
    }
}

fn are_part_keys(t: &Table) -> bool
    ensures { IsTrue result ↔ (t.now.key ≡ (part 0).key) × (t.now.primary ≡ (part 0).primary) × (t.now.uniques ≡ (part 0).uniques) × (t.now.orders ≡ (part 0).orders) }
{
    t.key.is_none()
        && t.primary.as_slice() == [1, 2, 3].as_slice()
        && is_only_key(t.uniques.as_slice(), &[1, 2, 3])
        && is_only_plain_order(t.orders.as_slice())
}

fn is_part(t: &Table) -> bool
    ensures { IsTrue result ↔ t.now ≡ part t.now.tree }
{
    t.name.as_slice() == b"dictcat_part".as_slice()
        && are_part_columns(t.columns.as_slice())
        && are_part_keys(t)
        && is_plain(t)
}

/// Whether the schema has the table of parts exactly as it is defined here, in a tree that no other table shares, with no foreign key that refers to it and no further unique index.
pub fn has_part_table(schema: &Schema) -> bool
    ensures { IsTrue result ↔ HasOwn schema.now part }
{
    match find_table(schema, b"dictcat_part") {
        Some(found) => is_part(found) && is_unshared(schema, found),
        None => false,
    }
}
