// What holds of a database that holds a catalogue.
ghost use Rattle.std.specs.Prelude.{◌≡◌, ◌≤◌, ℕ};
ghost use Rattle.sqlite.specs.Effect.{Database, IsDatabase};
ghost use Rattle.sqlite.specs.Tree.{Trees};
ghost use Rattle.dict_catalogue.specs.Steps.{Catalogue};
ghost use Rattle.store_holdings.specs.Holds.{Holds, IsHeld, IsLeft};
ghost use Rattle.store_opening.specs.Opens.{HasMark, HasKnownMark};

/// A database that holds a catalogue has the readable mark of its version, and of no other: what the faults of an opening tell of
/// a database is never so of one that holds a catalogue.
///
/// It does nothing. Its clauses are the law.
pub fn held_is_marked()
    ensures marked { (version : ℕ) (db : Database) (M : Catalogue) → 1 ≤ version → Holds version db M → HasMark db version }
    ensures known { (db : Database) (M : Catalogue) → IsHeld db M → HasKnownMark db }
    ensures once { (db : Database) (v w : ℕ) → HasMark db v → HasMark db w → v ≡ w }
{}

/// A database that holds a catalogue has one version, and holds no other catalogue under any. So do the trees that a stop leaves,
/// and every database over them holds what they hold.
///
/// It does nothing. Its clauses are the law.
pub fn one_is_held()
    ensures version { (db : Database) (v w : ℕ) (M N : Catalogue) → Holds v db M → Holds w db N → v ≡ w }
    ensures held { (db : Database) (M N : Catalogue) → IsHeld db M → IsHeld db N → M ≡ N }
    ensures left { (trees : Trees) (M N : Catalogue) → IsLeft M trees → IsLeft N trees → M ≡ N }
    ensures over { (db : Database) (M : Catalogue) → IsDatabase db → IsLeft M db.trees → IsHeld db M }
{}
