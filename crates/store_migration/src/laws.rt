// What a migration makes, and what a stop in it leaves.
ghost use Rattle.std.specs.Prelude.{◌↔◌, ℕ, List, Option};
ghost use Rattle.sqlite.specs.Effect.{Database};
ghost use Rattle.sqlite.specs.Held.{Held, state};
ghost use Rattle.sqlite.specs.State.{IsLive, Survives};
ghost use Rattle.dict_catalogue.specs.Steps.{Catalogue};
ghost use Rattle.store_rows.specs.Versions.{known};
ghost use Rattle.store_holdings.specs.Holds.{Holds, IsHeld};
ghost use Rattle.store_migration.specs.Migrated.{IsMigrated, HoldsOlder, MayMigrate};
ghost use Rattle.store_migration.specs.Leaves.{StateLeavesOneOf};

use sqlite::Alter;

/// What a migration makes holds the same catalogue under the known version; and where the database before holds a catalogue that
/// the one after holds, each holds what the other does.
///
/// It does nothing. Its clauses are the law.
pub fn migrated_holds()
    ensures holds { (version : ℕ) (old new : Database) (M : Catalogue) → IsMigrated version old new → Holds version old M → Holds known new M }
    ensures same { (old new : Database) (N : Catalogue) → HoldsOlder old N → Holds known new N → (M : Catalogue) → IsHeld old M ↔ Holds known new M }
{}

/// Wherever a migration is stopped, what is left stands for one of the catalogues that could be left before it: so no law of
/// what a stop leaves has a catalogue more by it.
///
/// It does nothing. Its clause is the law.
pub fn stopped_migration<S: Alter>()
    ensures { (old new : Held S) → IsLive (state S.Store old) → Survives (state S.Store old) (state S.Store new) (MayMigrate (state S.Store old)) → (ms : List (Option Catalogue)) → StateLeavesOneOf (state S.Store old) ms → StateLeavesOneOf (state S.Store new) ms }
{}
