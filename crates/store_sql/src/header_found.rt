//! Whether a schema that is found has the table as it is defined here.

ghost use Rattle.std.specs.Prelude.{◌≡◌, IsTrue, ◌↔◌};
ghost use Rattle.store_tables.specs.Found.{HasOwn};
ghost use Rattle.store_sql.specs.HeaderTable.{header};

use sqlite_schema::schema::{Column, Kind, Schema, Table};
use store_tables::{find_table, is_column, is_plain, is_unshared};

fn are_header_columns(columns: &[Column]) -> bool
    ensures { IsTrue result ↔ columns.now ≡ (header 0).columns }
{
    match columns {
        [number, owner, title, info] => {
            is_column(number, b"number", Kind::Integer, true)
                && is_column(owner, b"owner", Kind::Text, true)
                && is_column(title, b"title", Kind::Text, true)
                && is_column(info, b"info", Kind::Text, true)
        }
        _ => false,
    }
}

fn are_header_keys(t: &Table) -> bool
    ensures { IsTrue result ↔ (t.now.key ≡ (header 0).key) × (t.now.primary ≡ (header 0).primary) × (t.now.uniques ≡ (header 0).uniques) × (t.now.orders ≡ (header 0).orders) }
{
    t.key == Some(0)
        && t.primary.as_slice() == [0].as_slice()
        && t.uniques.is_empty()
        && t.orders.is_empty()
}

fn is_header(t: &Table) -> bool
    ensures { IsTrue result ↔ t.now ≡ header t.now.tree }
{
    t.name.as_slice() == b"edition".as_slice()
        && are_header_columns(t.columns.as_slice())
        && are_header_keys(t)
        && is_plain(t)
}

/// Whether the schema has the table of headers exactly as it is defined here, in a tree that no other table shares, with no foreign key that refers to it and no unique index.
pub fn has_header_table(schema: &Schema) -> bool
    ensures { IsTrue result ↔ HasOwn schema.now header }
{
    match find_table(schema, b"edition") {
        Some(found) => is_header(found) && is_unshared(schema, found),
        None => false,
    }
}
