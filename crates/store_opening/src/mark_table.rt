// Whether a schema has the table of the mark, to which a foreign key may refer.
ghost use Rattle.std.specs.Prelude.{◌≡◌, ◌↔◌, ◌==◌, IsTrue, count_by, nat_eq};
ghost use Rattle.std.specs.List.{list_any};
ghost use Rattle.std.specs.Cmp.Lexicographic.{pointwise};
ghost use Rattle.store_tables.specs.Found.{is_further_key};
ghost use Rattle.store_opening.specs.Marks.{HasMarkTable, IsSingle};

use sqlite_schema::schema::{Index, Schema, Table};
use store_tables::{find_table, is_mark};

fn count_in_tree(schema: &Schema, tree: u32) -> usize
    ensures { result ≡ count_by (λ t. t.tree == tree) schema.now.tables }
{
    let tables = schema.tables.as_slice();
    tables.iter().filter(|t| t.tree == tree).count()
}

fn has_key(table: &Table, places: &[usize]) -> bool
    ensures { result ≡ list_any (λ key. pointwise nat_eq key places.now) table.now.uniques }
{
    let keys = table.uniques.as_slice();
    keys.iter().any(|key| key.as_slice() == places)
}

// Whether an index is unique, over this table, and not that of one of its UNIQUE keys.
fn is_further_key(table: &Table, index: &Index) -> bool
    ensures { result ≡ is_further_key table.now index.now }
{
    index.table == table.tree
        && index.is_unique
        && !(index.order.digits == 0 && has_key(table, index.columns.as_slice()))
}

fn has_further_key(schema: &Schema, table: &Table) -> bool
    ensures { result ≡ list_any (is_further_key table.now) schema.now.indexes }
{
    let indexes = schema.indexes.as_slice();
    indexes.iter().any(|index| is_further_key(table, index))
}

// Whether the table shares its tree with none, and has no further unique index.
fn is_single(schema: &Schema, table: &Table) -> bool
    ensures { IsTrue result ↔ IsSingle schema.now table.now }
{
    table.tree < 2_147_483_648
        && count_in_tree(schema, table.tree) == 1
        && !has_further_key(schema, table)
}

/// Whether the schema has the table of the mark exactly as it is defined, in a tree that no other table shares, with no further unique index.
/// A foreign key may refer to it.
pub(crate) fn has_mark_table(schema: &Schema) -> bool
    ensures { IsTrue result ↔ HasMarkTable schema.now }
{
    match find_table(schema, b"mark") {
        Some(found) => is_mark(found) && is_single(schema, found),
        None => false,
    }
}
