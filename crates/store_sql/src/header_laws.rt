//! Laws of the table of headers: the function does nothing, and its contract is the law.

ghost use Rattle.std.specs.Prelude.{◌≡◌, true};
ghost use Rattle.sqlite.specs.Table.{Table};
ghost use Rattle.store_tables.specs.Definitions.{IsDefinition, are_named_apart, names_of};
ghost use Rattle.store_tables.specs.Keyed as keyed;
ghost use Rattle.store_tables.specs.Tables as store;
ghost use Rattle.store_tables.specs.declared.keyed.KeyedTable.{KeyedTable};
ghost use Rattle.store_tables.specs.declared.tables.StoreTable.{StoreTable};
ghost use Rattle.store_tables.specs.declared.tables.StoreTable.TheVariants.{Edition};
ghost use Rattle.store_sql.specs.HeaderTable.{header};

/// The table of headers is defined for whichever tree it is made in, so that the laws of what is made and dropped hold of it. It takes the names of the table of editions with their texts, so that it can be made where that one was dropped, and is apart from whatever that one is apart from: the product's other tables.
pub fn definition_laws()
    ensures header { IsDefinition header }
    ensures names { names_of (header 0) ≡ names_of (store.edition 0) }
    ensures beside { (other : Table) → (are_named_apart (header 0) other ≡ are_named_apart (store.edition 0) other) × (are_named_apart other (header 0) ≡ are_named_apart other (store.edition 0)) }
    ensures store { (other : StoreTable) → (other ≡ Edition → ⊥) → (are_named_apart (header 0) (store.table_of other 0) ≡ true) × (are_named_apart (store.table_of other 0) (header 0) ≡ true) }
    ensures keyed { (other : KeyedTable) → (are_named_apart (header 0) (keyed.keyed_table_of other 0) ≡ true) × (are_named_apart (keyed.keyed_table_of other 0) (header 0) ≡ true) }
{}
