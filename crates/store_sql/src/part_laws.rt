//! Laws of the table of parts: the function does nothing, and its contract is the law.

ghost use Rattle.std.specs.Prelude.{◌≡◌, true};
ghost use Rattle.store_tables.specs.Definitions.{IsDefinition, are_named_apart};
ghost use Rattle.store_tables.specs.Keyed as keyed;
ghost use Rattle.store_tables.specs.Tables as store;
ghost use Rattle.store_tables.specs.declared.keyed.KeyedTable.{KeyedTable};
ghost use Rattle.store_tables.specs.declared.tables.StoreTable.{StoreTable};
ghost use Rattle.store_sql.specs.PartTable.{part};

/// The table of parts is defined for whichever tree it is made in, so that the laws of what is made and dropped hold of it; and it takes no name of another of the product's tables, nor one of them a name of it.
pub fn definition_laws()
    ensures part { IsDefinition part }
    ensures store { (other : StoreTable) → (are_named_apart (part 0) (store.table_of other 0) ≡ true) × (are_named_apart (store.table_of other 0) (part 0) ≡ true) }
    ensures keyed { (other : KeyedTable) → (are_named_apart (part 0) (keyed.keyed_table_of other 0) ≡ true) × (are_named_apart (keyed.keyed_table_of other 0) (part 0) ≡ true) }
{}
