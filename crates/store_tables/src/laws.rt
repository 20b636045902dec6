//! What making a table does to a schema: each function does nothing, and its contract is the law.

ghost use Rattle.std.specs.Prelude.{◌≡◌, ◌<◌, ◌^◌, ◌==◌, ℕ, List, codes, true, false, None};
ghost use Rattle.std.specs.List.{AllByRecursion, list_any};
ghost use Rattle.sqlite.specs.Schema.{Schema};
ghost use Rattle.sqlite.specs.Table.{Table};
ghost use Rattle.sqlite.specs.Change.{created, next_tree, without_table, is_used};
ghost use Rattle.sqlite.specs.Does.{lacks_sequence};
ghost use Rattle.sqlite_schema.specs.Names.{same_name, table_named, view_named};
ghost use Rattle.sqlite_schema.specs.declared.schema.Index.{Index};
ghost use Rattle.store_tables.specs.Tables.{table_of};
ghost use Rattle.store_tables.specs.Definitions.{IsDefinition, are_named_apart, names_of};
ghost use Rattle.store_tables.specs.Found.{HasOwn};
ghost use Rattle.store_tables.specs.Room.{HasRoom, LeavesRoom, is_referred};
ghost use Rattle.store_tables.specs.declared.tables.StoreTable.{StoreTable};

/// Each table of schema 1 is defined for whichever tree it is made in, and no two take a name in common.
pub fn definition_laws()
    ensures each { (table : StoreTable) → IsDefinition (table_of table) }
    ensures apart { (table other : StoreTable) → (table ≡ other → ⊥) → are_named_apart (table_of table 0) (table_of other 0) ≡ true }
{}

/// Where there is room for all tables there is room for each, and making a table leaves the room for another that takes no name of it. A name that is free stays free where the table doesn't take it.
pub fn room_laws()
    ensures each { (schema : Schema) → HasRoom schema → (table : StoreTable) → LeavesRoom schema (table_of table 0) }
    ensures kept { (schema : Schema) (table : ℕ → Table) → IsDefinition table → (other : Table) → are_named_apart (table 0) other ≡ true → LeavesRoom schema other → LeavesRoom (created schema (table 0)) other }
    ensures unused { (schema : Schema) (table : ℕ → Table) → IsDefinition table → (name : List ℕ) → list_any (λ own. same_name own name) (names_of (table 0)) ≡ false → is_used schema name ≡ false → is_used (created schema (table 0)) name ≡ false }
{}

/// A table that is made where its name is free and no foreign key names it is had, as long as no index is over the tree that it gets and that tree is within the bound of every tree's; and each that was had is had still.
pub fn made_laws()
    ensures made { (schema : Schema) (table : ℕ → Table) → IsDefinition table → is_used schema (table 0).name ≡ false → is_referred schema (table 0).name ≡ false → next_tree schema < 2 ^ 31
        → AllByRecursion (λ index. (index.table == next_tree schema) ≡ false) schema.indexes → HasOwn (created schema (table 0)) table }
    ensures kept { (schema : Schema) (table : ℕ → Table) → IsDefinition table → (other : ℕ → Table) → IsDefinition other → HasOwn schema other → HasOwn (created schema (table 0)) other }
{}

/// Where a table was dropped, each other table that was had is had still, no foreign key names the one that went, and what there was room for has room. A name that was free is free, and so is one that its own indexes alone had; no table waits for its counter, if none did.
pub fn dropped_laws()
    ensures kept { (schema : Schema) (table : ℕ → Table) → IsDefinition table → (own : HasOwn schema table) → (other : ℕ → Table) → IsDefinition other → same_name (other 0).name (table 0).name ≡ false → HasOwn schema other → HasOwn (without_table schema own.tree) other }
    ensures unreferred { (schema : Schema) (table : ℕ → Table) → IsDefinition table → (own : HasOwn schema table) → is_referred (without_table schema own.tree) (table 0).name ≡ false }
    ensures room { (schema : Schema) (table : ℕ → Table) → IsDefinition table → (own : HasOwn schema table) → (other : Table) → LeavesRoom schema other → LeavesRoom (without_table schema own.tree) other }
    ensures unused { (schema : Schema) (table : ℕ → Table) → IsDefinition table → (own : HasOwn schema table) → (name : List ℕ) → is_used schema name ≡ false → is_used (without_table schema own.tree) name ≡ false }
    ensures freed { (schema : Schema) (table : ℕ → Table) → IsDefinition table → (own : HasOwn schema table) → (name : List ℕ) → table_named schema name ≡ None → view_named schema name ≡ None
        → AllByRecursion (λ (index : Index). same_name index.name name ≡ true → index.table ≡ own.tree) schema.indexes → is_used (without_table schema own.tree) name ≡ false }
    ensures counted { (schema : Schema) (table : ℕ → Table) → IsDefinition table → (own : HasOwn schema table) → same_name (table 0).name (codes "sqlite_sequence") ≡ false → lacks_sequence schema ≡ false → lacks_sequence (without_table schema own.tree) ≡ false }
{}
