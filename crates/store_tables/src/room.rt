//! Whether a schema that is found leaves room for the product's tables.

ghost use Rattle.std.specs.Prelude.{◌≡◌, ◌↔◌, IsTrue};
ghost use Rattle.std.specs.List.{list_any};
ghost use Rattle.sqlite_schema.specs.Names.{same_name};
ghost use Rattle.sqlite_schema.specs.declared.schema.Reference.{Reference};
ghost use Rattle.store_tables.specs.Room.{is_referred, refers_to_own, uses_index_name, HasRoom};

use crate::names::{is_name_used, is_table_name_used, lacks_counting_table};
use sqlite_schema::names::same_name;
use sqlite_schema::schema::{Schema, Table};

// Whether a foreign key of this table names a table so.
fn refers_to(child: &Table, name: &[u8]) -> bool
    ensures { result ≡ list_any (λ (ref : Reference). same_name name.now ref.parent) child.now.references }
{
    let references = child.references.as_slice();
    references
        .iter()
        .any(|r| same_name(name, r.parent.as_slice()))
}

/// Whether a foreign key names a table so, be it there or not, letters compared without regard to ASCII case.
pub fn is_name_referred(schema: &Schema, name: &[u8]) -> bool
    ensures { result ≡ is_referred schema.now name.now }
{
    let tables = schema.tables.as_slice();
    tables.iter().any(|child| refers_to(child, name))
}

/// Whether a foreign key names a table of the product, or `word` or `gram`: such a key would bind the table once it is made.
pub fn is_own_name_referred(schema: &Schema) -> bool
    ensures { result ≡ refers_to_own schema.now }
{
    is_name_referred(schema, b"mark")
        || is_name_referred(schema, b"item")
        || is_name_referred(schema, b"member")
        || is_name_referred(schema, b"edition")
        || is_name_referred(schema, b"entry")
        || is_name_referred(schema, b"kept")
        || is_name_referred(schema, b"word")
        || is_name_referred(schema, b"gram")
}

/// Whether the name is in use of an index that is made with one of the tables, for its keys.
pub fn is_own_index_name_used(schema: &Schema) -> bool
    ensures { result ≡ uses_index_name schema.now }
{
    is_name_used(schema, b"sqlite_autoindex_item_1")
        || is_name_used(schema, b"sqlite_autoindex_member_1")
        || is_name_used(schema, b"sqlite_autoindex_member_2")
        || is_name_used(schema, b"sqlite_autoindex_entry_1")
        || is_name_used(schema, b"sqlite_autoindex_kept_1")
        || is_name_used(schema, b"sqlite_autoindex_kept_2")
}

/// Whether all tables can be made and be had then: their names and those of their indexes are free, no foreign key names them, and no table waits for its counter.
pub fn has_room(schema: &Schema) -> bool
    ensures { IsTrue result ↔ HasRoom schema.now }
{
    !is_table_name_used(schema)
        && !is_own_name_referred(schema)
        && !is_own_index_name_used(schema)
        && !lacks_counting_table(schema)
}
