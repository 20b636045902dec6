//! Laws of tables, of what is dropped, and of names: each function does nothing, and its contract is the law.

ghost use Rattle.std.specs.Prelude.{◌≡◌, ◌&&◌, ℕ, List, codes, not, true, false, None};
ghost use Rattle.std.specs.List.{AllByRecursion, list_any};
ghost use Rattle.sqlite.specs.Effect.{Database, IsDatabase};
ghost use Rattle.sqlite.specs.Table.{Table};
ghost use Rattle.sqlite.specs.Change.{is_used};
ghost use Rattle.sqlite.specs.Does.{lacks_sequence};
ghost use Rattle.sqlite_schema.specs.Names.{same_name, table_named, index_named, view_named};
ghost use Rattle.sqlite_schema.specs.declared.schema.Index.{Index};
ghost use Rattle.sqlite_rules.specs.Lists.{Has as In};
ghost use Rattle.store_tables.specs.Definitions.{IsDefinition, names_of};
ghost use Rattle.store_tables.specs.Found.{HasOwn};
ghost use Rattle.store_tables.specs.Effects.{rows_of};
ghost use Rattle.store_tables.specs.Room.{LeavesRoom, is_referred};
ghost use Rattle.store_older_sql.specs.Drops.{IsDropped};
ghost use Rattle.store_tables.specs.OwnNames.{is_own_name};
ghost use Rattle.store_older_sql.specs.Entries.{entry_table_of};
ghost use Rattle.store_older_sql.specs.declared.entries.EntryForm.{EntryForm};

/// Each form of `entry` is defined for whichever tree it is made in, so that the laws of what is made and dropped hold of it.
pub fn old_definition_laws()
    ensures forms { (form : EntryForm) → IsDefinition (entry_table_of form) }
{}

/// All forms take the same names, so that one can be made where another was dropped.
pub fn form_law()
    ensures { (form other : EntryForm) → names_of (entry_table_of form 0) ≡ names_of (entry_table_of other 0) }
{}

/// Where a table was dropped, each of another name that was had is had still, with its rows, and what there was room for has room. No foreign key names the one that went. Its name is free where no index and no view has it, and so are those that its own indexes alone had; a name that was free is free still, and no table waits for its counter, if none did.
pub fn dropped_laws()
    ensures kept { (table : ℕ → Table) → IsDefinition table → (old new : Database) → IsDropped (table 0).name old new → HasOwn old.schema table → (other : ℕ → Table) → IsDefinition other → same_name (other 0).name (table 0).name ≡ false → HasOwn old.schema other → HasOwn new.schema other }
    ensures rows { (table : ℕ → Table) → IsDefinition table → (old new : Database) → IsDropped (table 0).name old new → HasOwn old.schema table → (other : ℕ → Table) → IsDefinition other → same_name (other 0).name (table 0).name ≡ false → HasOwn old.schema other → rows_of (other 0).name new ≡ rows_of (other 0).name old }
    ensures room { (table : ℕ → Table) → IsDefinition table → (old new : Database) → IsDropped (table 0).name old new → HasOwn old.schema table → (other : Table) → LeavesRoom old.schema other → LeavesRoom new.schema other }
    ensures unreferred { (table : ℕ → Table) → IsDefinition table → (old new : Database) → IsDropped (table 0).name old new → HasOwn old.schema table → is_referred new.schema (table 0).name ≡ false }
    ensures gone { (table : ℕ → Table) → IsDefinition table → (old new : Database) → IsDropped (table 0).name old new → HasOwn old.schema table → IsDatabase old → index_named old.schema (table 0).name ≡ None → view_named old.schema (table 0).name ≡ None → is_used new.schema (table 0).name ≡ false }
    ensures freed { (table : ℕ → Table) → IsDefinition table → (old new : Database) → IsDropped (table 0).name old new → (own : HasOwn old.schema table) → (name : List ℕ) → table_named old.schema name ≡ None → view_named old.schema name ≡ None
        → AllByRecursion (λ (index : Index). same_name index.name name ≡ true → index.table ≡ own.tree) old.schema.indexes → is_used new.schema name ≡ false }
    ensures unused { (table : ℕ → Table) → IsDefinition table → (old new : Database) → IsDropped (table 0).name old new → HasOwn old.schema table → (name : List ℕ) → is_used old.schema name ≡ false → is_used new.schema name ≡ false }
    ensures counted { (table : ℕ → Table) → IsDefinition table → (old new : Database) → IsDropped (table 0).name old new → HasOwn old.schema table → same_name (table 0).name (codes "sqlite_sequence") ≡ false → lacks_sequence old.schema ≡ false → lacks_sequence new.schema ≡ false }
{}

/// In a sound database a name is that of one table, index or view at most, and a table's keys have their indexes. So a dropped table frees its own names and no others: a table that takes the names of its definition can be made again, whatever its columns.
pub fn names_laws()
    ensures tables { (db : Database) → IsDatabase db → (t : Table) (i : Index) → In db.schema.tables t → In db.schema.indexes i → same_name t.name i.name ≡ false }
    ensures indexes { (db : Database) → IsDatabase db → (i j : Index) → In db.schema.indexes i → In db.schema.indexes j → (i.table ≡ j.table → ⊥) → same_name i.name j.name ≡ false }
    ensures exact { (table : ℕ → Table) → IsDefinition table → (old new : Database) → IsDatabase old → IsDropped (table 0).name old new → (own : HasOwn old.schema table) → (name : List ℕ)
        → is_used new.schema name ≡ (is_used old.schema name && not (is_own_name old.schema (table own.tree) name)) }
    ensures owned { (table : ℕ → Table) → IsDefinition table → (db : Database) → IsDatabase db → (own : HasOwn db.schema table) → (name : List ℕ) → list_any (λ own. same_name own name) (names_of (table 0)) ≡ true → is_own_name db.schema (table own.tree) name ≡ true }
    ensures again { (table : ℕ → Table) → IsDefinition table → (old new : Database) → IsDatabase old → IsDropped (table 0).name old new → HasOwn old.schema table → (other : Table) → names_of other ≡ names_of (table 0) → LeavesRoom new.schema other }
{}
