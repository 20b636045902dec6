// How the tables of a file are laid out, and whether a schema has them so.
ghost use Rattle.std.specs.Prelude.{◌≡◌, ◌↔◌, IsTrue};
ghost use Rattle.std.specs.List.{AllByRecursion};
ghost use Rattle.store_tables.specs.Found.{HasOwn};
ghost use Rattle.store_tables.specs.Keyed.{entry_with_keys, old_entry, word, gram};
ghost use Rattle.store_tables.specs.Tables.{mark, item, member, edition, kept};
ghost use Rattle.store_sql.specs.HeaderTable.{header};
ghost use Rattle.store_sql.specs.PartTable.{part};
ghost use Rattle.store_rows.specs.Versions.{Plain, Keyed, Shown, Parted, layout_of};
ghost use Rattle.store_holdings.specs.Holds.{HasLayout};
ghost use Rattle.store_sql.specs.Readings.{tables_of};
ghost use Rattle.store_opening.specs.Layouts.{layout_in};
ghost use Rattle.store_opening.specs.Opens.{may_have_orphans};

use sqlite_schema::schema::Schema;
use store_holdings::has_part_room;
use store_older_sql::{has_keyed_table, has_old_entry};
use store_sql::header_found::has_header_table;
use store_sql::part_found::has_part_table;
use store_tables::{KeyedTable, StoreTable, has_table};

/// How the tables of a file are laid out.
#[derive(Clone, Copy, Debug, PartialEq, Eq)]
pub(crate) enum TableLayout {
    /// Entries alone.
    Plain,
    /// Entries with keys, beside words and grams, none of which is looked at.
    Keyed,
    /// The same, and what is shown of each entry.
    Shown,
    /// Editions without their texts, and the parts of their files.
    Parted,
}

/// The layout of the tables of this version.
pub(crate) fn layout_of(version: u64) -> TableLayout
    ensures { layout_in result ≡ layout_of version }
{
    if version == 1 {
        return TableLayout::Plain;
    }
    if version == 4 {
        return TableLayout::Shown;
    }
    if version == 5 || version == 6 {
        return TableLayout::Parted;
    }
    TableLayout::Keyed
}

/// Whether a file of this version may have parts of no edition.
pub(crate) fn may_have_orphans(version: u64) -> bool
    ensures { result ≡ may_have_orphans version }
{
    version >= 6
}

// Whether a schema has the tables that all layouts have.
fn has_common(schema: &Schema) -> bool
    ensures { IsTrue result ↔ (HasOwn schema.now mark × HasOwn schema.now item × HasOwn schema.now member × HasOwn schema.now kept) }
{
    has_table(schema, StoreTable::Mark)
        && has_table(schema, StoreTable::Item)
        && has_table(schema, StoreTable::Member)
        && has_table(schema, StoreTable::Kept)
}

// And the editions with their texts, which those before the last have.
fn has_older(schema: &Schema) -> bool
    ensures { IsTrue result ↔ (HasOwn schema.now mark × HasOwn schema.now item × HasOwn schema.now member × HasOwn schema.now kept × HasOwn schema.now edition) }
{
    has_common(schema) && has_table(schema, StoreTable::Edition)
}

// All tables of schema 1.
fn has_plain_tables(schema: &Schema) -> bool
    ensures { IsTrue result ↔ AllByRecursion (HasOwn schema.now) (tables_of Plain) }
{
    has_older(schema) && has_table(schema, StoreTable::Entry)
}

// The words and the grams, which those with keys have.
fn has_pieces(schema: &Schema) -> bool
    ensures { IsTrue result ↔ (HasOwn schema.now word × HasOwn schema.now gram) }
{
    has_keyed_table(schema, KeyedTable::Word) && has_keyed_table(schema, KeyedTable::Gram)
}

// The entries of schemas 2 and 3, with their words and grams.
fn has_old_tables(schema: &Schema) -> bool
    ensures { IsTrue result ↔ (HasOwn schema.now old_entry × HasOwn schema.now word × HasOwn schema.now gram) }
{
    has_old_entry(schema) && has_pieces(schema)
}

// All tables of schemas 2 and 3.
fn has_keyed_tables(schema: &Schema) -> bool
    ensures { IsTrue result ↔ AllByRecursion (HasOwn schema.now) (tables_of Keyed) }
{
    has_older(schema) && has_old_tables(schema)
}

// The entries of schema 4, with their words and grams.
fn has_filed_tables(schema: &Schema) -> bool
    ensures { IsTrue result ↔ (HasOwn schema.now entry_with_keys × HasOwn schema.now word × HasOwn schema.now gram) }
{
    has_keyed_table(schema, KeyedTable::Entry) && has_pieces(schema)
}

// All tables of schema 4.
fn has_shown_tables(schema: &Schema) -> bool
    ensures { IsTrue result ↔ AllByRecursion (HasOwn schema.now) (tables_of Shown) }
{
    has_older(schema) && has_filed_tables(schema)
}

// The editions without their texts, and the parts of their files.
fn has_file_tables(schema: &Schema) -> bool
    ensures { IsTrue result ↔ (HasOwn schema.now header × HasOwn schema.now part) }
{
    has_header_table(schema) && has_part_table(schema)
}

// All tables of schemas 5 and 6.
fn has_parted_tables(schema: &Schema) -> bool
    ensures { IsTrue result ↔ AllByRecursion (HasOwn schema.now) (tables_of Parted) }
{
    has_common(schema) && has_file_tables(schema)
}

fn has_plain(schema: &Schema) -> bool
    ensures { IsTrue result ↔ HasLayout Plain schema.now }
{
    has_plain_tables(schema) && has_part_room(schema)
}

fn has_keyed(schema: &Schema) -> bool
    ensures { IsTrue result ↔ HasLayout Keyed schema.now }
{
    has_keyed_tables(schema) && has_part_room(schema)
}

fn has_shown(schema: &Schema) -> bool
    ensures { IsTrue result ↔ HasLayout Shown schema.now }
{
    has_shown_tables(schema) && has_part_room(schema)
}

fn has_parted(schema: &Schema) -> bool
    ensures { IsTrue result ↔ HasLayout Parted schema.now }
{
    has_parted_tables(schema)
}

/// Whether a schema has the tables of this version, and leaves room beside older ones for that of the last.
pub(crate) fn has_layout(schema: &Schema, version: u64) -> bool
    ensures { IsTrue result ↔ HasLayout (layout_of version) schema.now }
{
    match layout_of(version) {
        TableLayout::Plain => has_plain(schema),
        TableLayout::Keyed => has_keyed(schema),
        TableLayout::Shown => has_shown(schema),
        TableLayout::Parted => has_parted(schema),
    }
}
