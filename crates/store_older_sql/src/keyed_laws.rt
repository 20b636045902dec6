//! Laws of what the statements do: each function does nothing, and its contract is the law.

ghost use Rattle.std.specs.Prelude.{◌≡◌, [], ◌∷◌, List, true, false};
ghost use Rattle.sqlite.specs.Effect.{Database};
ghost use Rattle.sqlite.specs.Order.{Row};
ghost use Rattle.sqlite_schema.specs.Names.{same_name};
ghost use Rattle.store_tables.specs.Definitions.{IsDefinition, are_named_apart};
ghost use Rattle.store_tables.specs.Tables as store;
ghost use Rattle.store_tables.specs.declared.tables.StoreTable.{StoreTable};
ghost use Rattle.store_sql.specs.Reads.{IsListing};
ghost use Rattle.store_tables.specs.Keyed.{entry_with_keys, keyed_table_of};
ghost use Rattle.store_older_sql.specs.Scans.{AreAllOlder};
ghost use Rattle.store_older_sql.specs.Scans.OlderScan.{ShownByRowid};
ghost use Rattle.store_tables.specs.declared.keyed.KeyedTable.{KeyedTable};

/// Each of the tables is defined for whichever tree it is made in, so that the laws of what is made and dropped hold of it. No two take a name in common, nor do one of them and a table of schema 1 of another name.
pub fn keyed_definition_laws()
    ensures each { (table : KeyedTable) → IsDefinition (keyed_table_of table) }
    ensures apart { (table other : KeyedTable) → (table ≡ other → ⊥) → are_named_apart (keyed_table_of table 0) (keyed_table_of other 0) ≡ true }
    ensures store { (table : KeyedTable) (other : StoreTable) → same_name (keyed_table_of table 0).name (store.table_of other 0).name ≡ false
        → (are_named_apart (keyed_table_of table 0) (store.table_of other 0) ≡ true) × (are_named_apart (store.table_of other 0) (keyed_table_of table 0) ≡ true) }
{}

/// All entries of schema 4 that were read by rowid are those that the table has, in the order of their rowids: so whether these are apart holds of the table.
pub fn rowid_law()
    ensures { (db : Database) (rows : List Row) → AreAllOlder ShownByRowid db rows → IsListing (entry_with_keys 0).name (0 ∷ []) db rows }
{}
