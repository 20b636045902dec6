//! Whether a schema that is found leaves the product its names.

ghost use Rattle.std.specs.Prelude.{◌≡◌, false, ◌||◌, is_some};
ghost use Rattle.std.specs.List.{list_any};
ghost use Rattle.sqlite.specs.Rows.{sequence};
ghost use Rattle.sqlite.specs.Change.{is_used};
ghost use Rattle.sqlite.specs.Does.{lacks_sequence};
ghost use Rattle.store_tables.specs.Names.{has_own_prefix, has_prefixed, uses_table_name};

use sqlite_schema::names::same_name;
use sqlite_schema::schema::Schema;

/// Whether a table, an index or a view has the name, letters compared without regard to ASCII case.
pub fn is_name_used(schema: &Schema, name: &[u8]) -> bool
    ensures { result ≡ is_used schema.now name.now }
{
    schema.table_named(name).is_some()
        || schema.index_named(name).is_some()
        || schema.view_named(name).is_some()
}

// Whether a name begins with `dictcat_`.
fn is_prefixed(name: &[u8]) -> bool
    ensures { result ≡ has_own_prefix name.now }
{
    same_name(&name[..name.len().min(8)], b"dictcat_")
}

fn has_prefixed_table(schema: &Schema) -> bool
    ensures { result ≡ list_any (λ t. has_own_prefix t.name) schema.now.tables }
{
    let tables = schema.tables.as_slice();
    tables.iter().any(|t| is_prefixed(t.name.as_slice()))
}

fn has_prefixed_index(schema: &Schema) -> bool
    ensures { result ≡ list_any (λ i. has_own_prefix i.name) schema.now.indexes }
{
    let indexes = schema.indexes.as_slice();
    indexes.iter().any(|i| is_prefixed(i.name.as_slice()))
}

fn has_prefixed_view(schema: &Schema) -> bool
    ensures { result ≡ list_any (λ v. has_own_prefix v.name) schema.now.views }
{
    let views = schema.views.as_slice();
    views.iter().any(|v| is_prefixed(v.name.as_slice()))
}

fn has_prefixed_name(schema: &Schema) -> bool
    ensures { result ≡ has_prefixed schema.now }
{
    has_prefixed_table(schema) || has_prefixed_index(schema) || has_prefixed_view(schema)
}

pub(crate) fn is_table_name_used(schema: &Schema) -> bool
    ensures { result ≡ uses_table_name schema.now }
{
    is_name_used(schema, b"mark")
        || is_name_used(schema, b"item")
        || is_name_used(schema, b"member")
        || is_name_used(schema, b"edition")
        || is_name_used(schema, b"entry")
        || is_name_used(schema, b"kept")
        || is_name_used(schema, b"word")
        || is_name_used(schema, b"gram")
}

/// Whether one of the product's names is in use: those of its tables, `word` and `gram`, and every name that begins with `dictcat_`.
pub fn is_own_name_used(schema: &Schema) -> bool
    ensures { result ≡ (uses_table_name schema.now || has_prefixed schema.now) }
{
    is_table_name_used(schema) || has_prefixed_name(schema)
}

fn has_counted_table(schema: &Schema) -> bool
    ensures { result ≡ list_any (λ t. t.is_counted) schema.now.tables }
{
    let tables = schema.tables.as_slice();
    tables.iter().any(|t| t.is_counted)
}

fn has_counter(schema: &Schema) -> bool
    ensures { result ≡ is_some (sequence schema.now) }
{
    match schema.table_named(b"sqlite_sequence") {
        Some(at) => schema.tables.get(at).is_some(),
        None => false,
    }
}

/// Whether a table with AUTOINCREMENT waits for the table that counts for it, so that the next CREATE TABLE makes that too.
pub fn lacks_counting_table(schema: &Schema) -> bool
    ensures { result ≡ lacks_sequence schema.now }
{
    has_counted_table(schema) && !has_counter(schema)
}
