//! Laws of what a database has, when a table is made and when rows are added: each function does nothing, and its contract is the law.

ghost use Rattle.std.specs.Prelude.{◌≡◌, ◌≤◌, ◌++◌, ℕ, true, false, List, [], ◌∷◌, Some, IsPermutation};
ghost use Rattle.std.specs.List.{list_any};
ghost use Rattle.sqlite.specs.Order.{Row};
ghost use Rattle.sqlite.specs.Table.{Table};
ghost use Rattle.sqlite.specs.Effect.{Database, IsDatabase};
ghost use Rattle.sqlite.specs.Held.{state};
ghost use Rattle.sqlite.specs.Steps.{FailsToCommit};
ghost use Rattle.sqlite.specs.declared.error.Error.{Error};
ghost use Rattle.sqlite.specs.Change.{is_used};
ghost use Rattle.sqlite_schema.specs.Names.{same_name};
ghost use Rattle.store_tables.specs.Definitions.{IsDefinition, are_named_apart, names_of};
ghost use Rattle.store_tables.specs.Found.{HasOwn};
ghost use Rattle.store_tables.specs.Room.{LeavesRoom, is_referred};
ghost use Rattle.store_tables.specs.Effects.{Has, IsAdded, CountsFaults, rows_of, table_in, FailsToRead};
ghost use Rattle.store_tables.specs.Added.{AreAdded};
ghost use Rattle.store_tables.specs.Creates.{IsMade};

use sqlite::Alter;

/// A table that is made where its name is free and no foreign key names it is had as the statements need it, and those that were had are had still. The room for another that takes no name of it stays, as does a name that is free, and so do the rows of every table that was there.
pub fn made_laws()
    ensures made { (table : ℕ → Table) → IsDefinition table → (old new : Database) → IsMade (table 0) old new → IsDatabase old → is_used old.schema (table 0).name ≡ false → is_referred old.schema (table 0).name ≡ false → HasOwn new.schema table }
    ensures kept { (table : ℕ → Table) → IsDefinition table → (old new : Database) → IsMade (table 0) old new → (other : ℕ → Table) → IsDefinition other → HasOwn old.schema other → HasOwn new.schema other }
    ensures room { (table : ℕ → Table) → IsDefinition table → (old new : Database) → IsMade (table 0) old new → (other : Table) → are_named_apart (table 0) other ≡ true → LeavesRoom old.schema other → LeavesRoom new.schema other }
    ensures unused { (table : ℕ → Table) → IsDefinition table → (old new : Database) → IsMade (table 0) old new → (name : List ℕ) → list_any (λ own. same_name own name) (names_of (table 0)) ≡ false → is_used old.schema name ≡ false → is_used new.schema name ≡ false }
    ensures rows { (table : Table) (old new : Database) → IsMade table old new → (name : List ℕ) (there : Table) → table_in name old ≡ Some there → rows_of name new ≡ rows_of name old }
{}

/// A table that a test found is one that the statements can use, and a statement that leaves the schema leaves it so.
pub fn has_laws()
    ensures own { (table : ℕ → Table) (db : Database) → HasOwn db.schema table → Has table db }
    ensures still { (table : ℕ → Table) (old new : Database) → new.schema ≡ old.schema → Has table old → Has table new }
{}

/// Rows that are added one after another are added all, and in whatever order they are listed.
pub fn added_laws()
    ensures none { (name : List ℕ) (db : Database) → AreAdded name [] db db }
    ensures one { (name : List ℕ) (done : List Row) (row : Row) (old mid new : Database) → AreAdded name done old mid → IsAdded name row mid new → AreAdded name (done ++ row ∷ []) old new }
    ensures more { (name : List ℕ) (done more : List Row) (old mid new : Database) → AreAdded name done old mid → AreAdded name more mid new → AreAdded name (done ++ more) old new }
    ensures listed { (name : List ℕ) (rows same : List Row) (old new : Database) → IsPermutation rows same → AreAdded name rows old new → AreAdded name same old new }
{}

/// An error that names the disk comes with a fault of the disk, over one statement and, since no fault is forgotten, over several.
pub fn fault_laws<S: Alter>()
    ensures since { (old : _) → (mid : _) → (new : _) → (e : Error) → (state S.Store old).faults ≤ (state S.Store mid).faults → CountsFaults (state S.Store mid) (state S.Store new) e → CountsFaults (state S.Store old) (state S.Store new) e }
    ensures read { (old : _) → (new : _) → (e : Error) → FailsToRead (state S.Store old) (state S.Store new) e → CountsFaults (state S.Store old) (state S.Store new) e }
    ensures commit { (old : _) → (new : _) → (e : Error) → FailsToCommit (state S.Store old) (state S.Store new) e → CountsFaults (state S.Store old) (state S.Store new) e }
{}
