//! Whether a schema that is found has the tables as they are defined here.

ghost use Rattle.std.specs.Prelude.{true, ◌≡◌, ◌∷◌, [], codes, IsTrue, ◌↔◌};
ghost use Rattle.sqlite.specs.Kind.TheVariants.{Integer, Text, Blob};
ghost use Rattle.store_tables.specs.Found.{HasOwn};
ghost use Rattle.store_tables.specs.Tables.{column_of};
ghost use Rattle.store_tables.specs.Keyed.{entry_with_keys, word, gram, keyed_table_of};

use sqlite_schema::schema::{Column, Kind, Schema, Table};
use store_tables::{
    KeyedTable, find_table, is_column, is_only_key, is_only_plain_order, is_plain, is_unshared,
};

fn are_interval_columns(columns: &[Column]) -> bool
    ensures { IsTrue result ↔ columns.now ≡ column_of (codes "start") Integer true ∷ column_of (codes "length") Integer true ∷ column_of (codes "key") Blob true ∷ column_of (codes "rkey") Blob true ∷ column_of (codes "shown") Text true ∷ [] }
{
    match columns {
        [start, length, key, reversed, shown] => {
            is_column(start, b"start", Kind::Integer, true)
                && is_column(length, b"length", Kind::Integer, true)
                && is_column(key, b"key", Kind::Blob, true)
                && is_column(reversed, b"rkey", Kind::Blob, true)
                && is_column(shown, b"shown", Kind::Text, true)
        }
        _ => false,
    }
}

fn are_entry_columns(columns: &[Column]) -> bool
    ensures { IsTrue result ↔ columns.now ≡ (entry_with_keys 0).columns }
{
    match columns {
        [edition, ord, headword, rest @ ..] => {
            is_column(edition, b"edition", Kind::Integer, true)
                && is_column(ord, b"ord", Kind::Integer, true)
                && is_column(headword, b"headword", Kind::Text, true)
                && are_interval_columns(rest)
        }
        _ => false,
    }
}

fn are_entry_keys(t: &Table) -> bool
    ensures { IsTrue result ↔ (t.now.key ≡ (entry_with_keys 0).key) × (t.now.primary ≡ (entry_with_keys 0).primary) × (t.now.uniques ≡ (entry_with_keys 0).uniques) × (t.now.orders ≡ (entry_with_keys 0).orders) }
{
    t.key.is_none()
        && t.primary.as_slice() == [1, 2].as_slice()
        && is_only_key(t.uniques.as_slice(), &[1, 2])
        && is_only_plain_order(t.orders.as_slice())
}

fn is_entry(t: &Table) -> bool
    ensures { IsTrue result ↔ t.now ≡ entry_with_keys t.now.tree }
{
    t.name.as_slice() == b"entry".as_slice()
        && are_entry_columns(t.columns.as_slice())
        && are_entry_keys(t)
        && is_plain(t)
}

fn are_piece_columns(columns: &[Column], name: &[u8]) -> bool
    ensures { IsTrue result ↔ columns.now ≡ column_of (codes "edition") Integer true ∷ column_of name.now Blob true ∷ column_of (codes "ord") Integer true ∷ [] }
{
    match columns {
        [edition, piece, ord] => {
            is_column(edition, b"edition", Kind::Integer, true)
                && is_column(piece, name, Kind::Blob, true)
                && is_column(ord, b"ord", Kind::Integer, true)
        }
        _ => false,
    }
}

fn are_piece_keys(t: &Table) -> bool
    ensures { IsTrue result ↔ (t.now.key ≡ (word 0).key) × (t.now.primary ≡ (word 0).primary) × (t.now.uniques ≡ (word 0).uniques) × (t.now.orders ≡ (word 0).orders) }
{
    t.key.is_none()
        && t.primary.as_slice() == [1, 2, 3].as_slice()
        && is_only_key(t.uniques.as_slice(), &[1, 2, 3])
        && is_only_plain_order(t.orders.as_slice())
}

fn is_word(t: &Table) -> bool
    ensures { IsTrue result ↔ t.now ≡ word t.now.tree }
{
    t.name.as_slice() == b"word".as_slice()
        && are_piece_columns(t.columns.as_slice(), b"word")
        && are_piece_keys(t)
        && is_plain(t)
}

fn is_gram(t: &Table) -> bool
    ensures { IsTrue result ↔ t.now ≡ gram t.now.tree }
{
    t.name.as_slice() == b"gram".as_slice()
        && are_piece_columns(t.columns.as_slice(), b"gram")
        && are_piece_keys(t)
        && is_plain(t)
}

// Whether a table that is found is this one but for its tree.
fn is_defined_as(found: &Table, table: KeyedTable) -> bool
    ensures { IsTrue result ↔ found.now ≡ keyed_table_of table found.now.tree }
{
    match table {
        KeyedTable::Entry => is_entry(found),
        KeyedTable::Word => is_word(found),
        KeyedTable::Gram => is_gram(found),
    }
}

/// Whether the schema has the table exactly as it is defined here, in a tree that no other table shares, with no foreign key that refers to it and no further unique index.
pub fn has_keyed_table(schema: &Schema, table: KeyedTable) -> bool
    ensures { IsTrue result ↔ HasOwn schema.now (keyed_table_of table) }
{
    match find_table(schema, table.name().as_bytes()) {
        Some(found) => is_defined_as(found, table) && is_unshared(schema, found),
        None => false,
    }
}
