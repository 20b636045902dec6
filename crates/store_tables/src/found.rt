//! Whether a schema that is found has the tables as they are defined here.

ghost use Rattle.std.specs.Prelude.{true, false, ◌≡◌, [], ◌∷◌, codes, IsTrue, ◌↔◌, ◌==◌, option_copied, nat_eq, count_by};
ghost use Rattle.std.specs.List.{list_any};
ghost use Rattle.std.specs.Cmp.Lexicographic.{pointwise};
ghost use Rattle.sqlite_schema.specs.declared.schema.Reference.{Reference as SqlReference};
ghost use Rattle.store_tables.specs.Found.{HasOwn, IsAlone, is_further_key, is_in, found_table};
ghost use Rattle.sqlite_value.specs.Keys.{plain};
ghost use Rattle.sqlite.specs.Kind.TheVariants.{Integer};
ghost use Rattle.store_tables.specs.Tables.{mark, item, member, edition as edition_table, entry, kept, column_of, table_of};

use crate::tables::StoreTable;
use sqlite_items::Items;
use sqlite_schema::schema::{Column, Index, Kind, Reference, Schema, Table};
use sqlite_value::keys::{Collation, Order};
use sqlite_value::value::Value;

/// Whether a column is strict, with no default, and has this name and kind.
pub fn is_column(column: &Column, name: &[u8], kind: Kind, not_null: bool) -> bool
    ensures { IsTrue result ↔ column.now ≡ column_of name.now kind not_null }
{
    column.name.as_slice() == name
        && column.kind == kind
        && column.is_strict
        && column.not_null == not_null
        && matches!(column.default, Value::Null)
        && column.collation == Collation::Binary
}

/// Whether no rule of the table is more than its keys.
pub fn is_plain(table: &Table) -> bool
    ensures { IsTrue result ↔ (table.now.checks ≡ []) × (table.now.references ≡ []) × (table.now.computed ≡ []) × (table.now.stamps ≡ record { places = []; terms = []; formats = [] }) × (table.now.is_counted ≡ false) }
{
    table.checks.roots.is_empty()
        && table.references.is_empty()
        && table.computed.is_empty()
        && table.stamps.places.is_empty()
        && table.stamps.terms.roots.is_empty()
        && table.stamps.formats.is_empty()
        && !table.is_counted
}

fn is_key(places: &Items<usize>, key: &[usize]) -> bool
    ensures { IsTrue result ↔ places.now ≡ key.now }
{
    places.as_slice() == key
}

/// Whether the only UNIQUE key, the primary one among them, has these places of columns.
pub fn is_only_key(keys: &[Items<usize>], key: &[usize]) -> bool
    ensures { IsTrue result ↔ keys.now ≡ key.now ∷ [] }
{
    match keys {
        [only] => is_key(only, key),
        _ => false,
    }
}

fn are_two_keys(keys: &[Items<usize>], first: &[usize], second: &[usize]) -> bool
    ensures { IsTrue result ↔ keys.now ≡ first.now ∷ second.now ∷ [] }
{
    match keys {
        [a, b] => is_key(a, first) && is_key(b, second),
        _ => false,
    }
}

/// Whether there is one key, and it is in the plain order.
pub fn is_only_plain_order(orders: &[Order]) -> bool
    ensures { IsTrue result ↔ orders.now ≡ plain ∷ [] }
{
    match orders {
        [only] => only.digits == 0,
        _ => false,
    }
}

fn are_two_plain(orders: &[Order]) -> bool
    ensures { IsTrue result ↔ orders.now ≡ plain ∷ plain ∷ [] }
{
    match orders {
        [a, b] => a.digits == 0 && b.digits == 0,
        _ => false,
    }
}

fn are_count_columns(columns: &[Column]) -> bool
    ensures { IsTrue result ↔ columns.now ≡ column_of (codes "version") Integer true ∷ column_of (codes "installs") Integer true ∷ [] }
{
    match columns {
        [version, installs] => {
            is_column(version, b"version", Kind::Integer, true)
                && is_column(installs, b"installs", Kind::Integer, true)
        }
        _ => false,
    }
}

fn are_mark_columns(columns: &[Column]) -> bool
    ensures { IsTrue result ↔ columns.now ≡ (mark 0).columns }
{
    match columns {
        [id, magic, counts @ ..] => {
            is_column(id, b"id", Kind::Integer, true)
                && is_column(magic, b"magic", Kind::Text, true)
                && are_count_columns(counts)
        }
        _ => false,
    }
}

fn are_mark_keys(t: &Table) -> bool
    ensures { IsTrue result ↔ (t.now.key ≡ (mark 0).key) × (t.now.primary ≡ (mark 0).primary) × (t.now.uniques ≡ (mark 0).uniques) × (t.now.orders ≡ (mark 0).orders) }
{
    t.key == Some(0)
        && t.primary.as_slice() == [0].as_slice()
        && t.uniques.is_empty()
        && t.orders.is_empty()
}

/// Whether a table is that of the mark but for its tree.
pub fn is_mark(t: &Table) -> bool
    ensures { IsTrue result ↔ t.now ≡ mark t.now.tree }
{
    t.name.as_slice() == b"mark".as_slice()
        && are_mark_columns(t.columns.as_slice())
        && are_mark_keys(t)
        && is_plain(t)
}

fn are_item_columns(columns: &[Column]) -> bool
    ensures { IsTrue result ↔ columns.now ≡ (item 0).columns }
{
    match columns {
        [a, b, c, d, e, f] => {
            is_column(a, b"place", Kind::Integer, true)
                && is_column(b, b"name", Kind::Text, true)
                && is_column(c, b"kind", Kind::Integer, true)
                && is_column(d, b"title", Kind::Text, false)
                && is_column(e, b"current", Kind::Integer, false)
                && is_column(f, b"former", Kind::Integer, false)
        }
        _ => false,
    }
}

fn are_item_keys(t: &Table) -> bool
    ensures { IsTrue result ↔ (t.now.key ≡ (item 0).key) × (t.now.primary ≡ (item 0).primary) × (t.now.uniques ≡ (item 0).uniques) × (t.now.orders ≡ (item 0).orders) }
{
    t.key == Some(0)
        && t.primary.as_slice() == [0].as_slice()
        && is_only_key(t.uniques.as_slice(), &[2])
        && is_only_plain_order(t.orders.as_slice())
}

fn is_item(t: &Table) -> bool
    ensures { IsTrue result ↔ t.now ≡ item t.now.tree }
{
    t.name.as_slice() == b"item".as_slice()
        && are_item_columns(t.columns.as_slice())
        && are_item_keys(t)
        && is_plain(t)
}

fn are_member_columns(columns: &[Column]) -> bool
    ensures { IsTrue result ↔ columns.now ≡ (member 0).columns }
{
    match columns {
        [a, b, c] => {
            is_column(a, b"owner", Kind::Text, true)
                && is_column(b, b"ord", Kind::Integer, true)
                && is_column(c, b"name", Kind::Text, true)
        }
        _ => false,
    }
}

fn are_member_keys(t: &Table) -> bool
    ensures { IsTrue result ↔ (t.now.key ≡ (member 0).key) × (t.now.primary ≡ (member 0).primary) × (t.now.uniques ≡ (member 0).uniques) × (t.now.orders ≡ (member 0).orders) }
{
    t.key.is_none()
        && t.primary.as_slice() == [1, 2].as_slice()
        && are_two_keys(t.uniques.as_slice(), &[1, 2], &[1, 3])
        && are_two_plain(t.orders.as_slice())
}

fn is_member(t: &Table) -> bool
    ensures { IsTrue result ↔ t.now ≡ member t.now.tree }
{
    t.name.as_slice() == b"member".as_slice()
        && are_member_columns(t.columns.as_slice())
        && are_member_keys(t)
        && is_plain(t)
}

fn are_edition_columns(columns: &[Column]) -> bool
    ensures { IsTrue result ↔ columns.now ≡ (edition_table 0).columns }
{
    match columns {
        [a, b, c, d, e] => {
            is_column(a, b"number", Kind::Integer, true)
                && is_column(b, b"owner", Kind::Text, true)
                && is_column(c, b"title", Kind::Text, true)
                && is_column(d, b"info", Kind::Text, true)
                && is_column(e, b"body", Kind::Blob, true)
        }
        _ => false,
    }
}

fn are_edition_keys(t: &Table) -> bool
    ensures { IsTrue result ↔ (t.now.key ≡ (edition_table 0).key) × (t.now.primary ≡ (edition_table 0).primary) × (t.now.uniques ≡ (edition_table 0).uniques) × (t.now.orders ≡ (edition_table 0).orders) }
{
    t.key == Some(0)
        && t.primary.as_slice() == [0].as_slice()
        && t.uniques.is_empty()
        && t.orders.is_empty()
}

fn is_edition(t: &Table) -> bool
    ensures { IsTrue result ↔ t.now ≡ edition_table t.now.tree }
{
    t.name.as_slice() == b"edition".as_slice()
        && are_edition_columns(t.columns.as_slice())
        && are_edition_keys(t)
        && is_plain(t)
}

fn are_entry_columns(columns: &[Column]) -> bool
    ensures { IsTrue result ↔ columns.now ≡ (entry 0).columns }
{
    match columns {
        [a, b, c, d, e] => {
            is_column(a, b"edition", Kind::Integer, true)
                && is_column(b, b"ord", Kind::Integer, true)
                && is_column(c, b"headword", Kind::Text, true)
                && is_column(d, b"start", Kind::Integer, true)
                && is_column(e, b"length", Kind::Integer, true)
        }
        _ => false,
    }
}

fn are_entry_keys(t: &Table) -> bool
    ensures { IsTrue result ↔ (t.now.key ≡ (entry 0).key) × (t.now.primary ≡ (entry 0).primary) × (t.now.uniques ≡ (entry 0).uniques) × (t.now.orders ≡ (entry 0).orders) }
{
    t.key.is_none()
        && t.primary.as_slice() == [1, 2].as_slice()
        && is_only_key(t.uniques.as_slice(), &[1, 2])
        && is_only_plain_order(t.orders.as_slice())
}

fn is_entry(t: &Table) -> bool
    ensures { IsTrue result ↔ t.now ≡ entry t.now.tree }
{
    t.name.as_slice() == b"entry".as_slice()
        && are_entry_columns(t.columns.as_slice())
        && are_entry_keys(t)
        && is_plain(t)
}

fn are_kept_columns(columns: &[Column]) -> bool
    ensures { IsTrue result ↔ columns.now ≡ (kept 0).columns }
{
    match columns {
        [a, b, c, d, e] => {
            is_column(a, b"id", Kind::Text, true)
                && is_column(b, b"number", Kind::Integer, true)
                && is_column(c, b"verb", Kind::Text, true)
                && is_column(d, b"name", Kind::Text, true)
                && is_column(e, b"edition", Kind::Integer, false)
        }
        _ => false,
    }
}

fn are_kept_keys(t: &Table) -> bool
    ensures { IsTrue result ↔ (t.now.key ≡ (kept 0).key) × (t.now.primary ≡ (kept 0).primary) × (t.now.uniques ≡ (kept 0).uniques) × (t.now.orders ≡ (kept 0).orders) }
{
    t.key.is_none()
        && t.primary.as_slice() == [1].as_slice()
        && are_two_keys(t.uniques.as_slice(), &[1], &[2])
        && are_two_plain(t.orders.as_slice())
}

fn is_kept(t: &Table) -> bool
    ensures { IsTrue result ↔ t.now ≡ kept t.now.tree }
{
    t.name.as_slice() == b"kept".as_slice()
        && are_kept_columns(t.columns.as_slice())
        && are_kept_keys(t)
        && is_plain(t)
}

/// The table of this name.
pub fn find_table<'a>(schema: &'a Schema, name: &[u8]) -> Option<&'a Table>
    ensures { option_copied result ≡ found_table schema.now name.now }
{
    schema.tables.get(schema.table_named(name)?)
}

// Whether the table that a foreign key names is in this tree.
fn leads_into(schema: &Schema, reference: &Reference, tree: u32) -> bool
    ensures { result ≡ is_in tree (found_table schema.now reference.now.parent) }
{
    match find_table(schema, reference.parent.as_slice()) {
        Some(table) => table.tree == tree,
        None => false,
    }
}

fn is_child_of(schema: &Schema, child: &Table, tree: u32) -> bool
    ensures { result ≡ list_any (λ (ref : SqlReference). is_in tree (found_table schema.now ref.parent)) child.now.references }
{
    let references = child.references.as_slice();
    references.iter().any(|r| leads_into(schema, r, tree))
}

fn is_parent(schema: &Schema, tree: u32) -> bool
    ensures { result ≡ list_any (λ child. list_any (λ (ref : SqlReference). is_in tree (found_table schema.now ref.parent)) child.references) schema.now.tables }
{
    let tables = schema.tables.as_slice();
    tables.iter().any(|child| is_child_of(schema, child, tree))
}

fn count_in_tree(schema: &Schema, tree: u32) -> usize
    ensures { result ≡ count_by (λ t. t.tree == tree) schema.now.tables }
{
    let tables = schema.tables.as_slice();
    tables.iter().filter(|t| t.tree == tree).count()
}

fn has_key(table: &Table, places: &[usize]) -> bool
    ensures { result ≡ list_any (λ key. pointwise nat_eq key places.now) table.now.uniques }
{
    let keys = table.uniques.as_slice();
    keys.iter().any(|key| key.as_slice() == places)
}

// Whether an index is unique, over this table, and not that of one of its UNIQUE keys.
fn is_further_key(table: &Table, index: &Index) -> bool
    ensures { result ≡ is_further_key table.now index.now }
{
    index.table == table.tree
        && index.is_unique
        && !(index.order.digits == 0 && has_key(table, index.columns.as_slice()))
}

fn has_further_key(schema: &Schema, table: &Table) -> bool
    ensures { result ≡ list_any (is_further_key table.now) schema.now.indexes }
{
    let indexes = schema.indexes.as_slice();
    indexes.iter().any(|index| is_further_key(table, index))
}

/// Whether the table shares its tree with none, no foreign key leads into it, and it has no further unique index.
pub fn is_unshared(schema: &Schema, table: &Table) -> bool
    ensures { IsTrue result ↔ IsAlone schema.now table.now }
{
    table.tree < 2_147_483_648
        && count_in_tree(schema, table.tree) == 1
        && !is_parent(schema, table.tree)
        && !has_further_key(schema, table)
}

// Whether a table that is found is this one but for its tree.
fn is_defined_as(found: &Table, table: StoreTable) -> bool
    ensures { IsTrue result ↔ found.now ≡ table_of table found.now.tree }
{
    match table {
        StoreTable::Mark => is_mark(found),
        StoreTable::Item => is_item(found),
        StoreTable::Member => is_member(found),
        StoreTable::Edition => is_edition(found),
        StoreTable::Entry => is_entry(found),
        StoreTable::Kept => is_kept(found),
    }
}

/// Whether the schema has the table exactly as it is defined here, in a tree that no other table shares, with no foreign key that refers to it and no further unique index.
pub fn has_table(schema: &Schema, table: StoreTable) -> bool
    ensures { IsTrue result ↔ HasOwn schema.now (table_of table) }
{
    match find_table(schema, table.name().as_bytes()) {
        Some(found) => is_defined_as(found, table) && is_unshared(schema, found),
        None => false,
    }
}
