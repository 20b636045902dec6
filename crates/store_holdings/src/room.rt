// Whether a database leaves room for the tables of the last layout.
ghost use Rattle.std.specs.Prelude.{◌≡◌, ◌↔◌, IsTrue, false};
ghost use Rattle.sqlite.specs.Change.{is_used};
ghost use Rattle.store_sql.specs.PartTable.{part};
ghost use Rattle.store_tables.specs.Room.{LeavesRoom, is_referred};
ghost use Rattle.store_holdings.specs.Holds.{HasPlace};
ghost use Rattle.store_holdings.specs.Room.{HasPartRoom};

use sqlite_schema::schema::Schema;
use store_tables::{
    has_room, is_name_referred, is_name_used, is_own_name_used, lacks_counting_table,
};

// Whether these names of a table and of the index of its key are free, and no foreign key names the table.
fn are_free(schema: &Schema, name: &[u8], index: &[u8]) -> bool
    ensures { IsTrue result ↔ ((is_used schema.now name.now ≡ false) × ((is_referred schema.now name.now ≡ false) × (is_used schema.now index.now ≡ false))) }
{
    !is_name_used(schema, name) && !is_name_referred(schema, name) && !is_name_used(schema, index)
}

// Whether the table of parts can be made, and be had then: its name and that of the index of its key are free, and no foreign key
// names it.
fn leaves_room_for_parts(schema: &Schema) -> bool
    ensures { IsTrue result ↔ LeavesRoom schema.now (part 0) }
{
    are_free(schema, b"dictcat_part", b"sqlite_autoindex_dictcat_part_1")
}

/// Whether a file of an older version leaves room for the table of parts, beside what is there.
pub fn has_part_room(schema: &Schema) -> bool
    ensures { IsTrue result ↔ HasPartRoom schema.now }
{
    leaves_room_for_parts(schema) && !lacks_counting_table(schema)
}

/// Whether the tables of a catalogue can be made, and no name is in use that is kept for the product.
pub fn has_place(schema: &Schema) -> bool
    ensures { IsTrue result ↔ HasPlace schema.now }
{
    has_room(schema) && !is_own_name_used(schema) && leaves_room_for_parts(schema)
}
