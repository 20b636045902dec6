//! Laws of what the statements do: the function does nothing, and its contract is the law.

ghost use Rattle.std.specs.Prelude.{ℕ, Bool, List, []};
ghost use Rattle.sqlite.specs.Order.{Row};
ghost use Rattle.sqlite.specs.Effect.{Database};
ghost use Rattle.store_tables.specs.Effects.{HasApartRowids, IsAdded, IsRemoved, rows_of};
ghost use Rattle.store_sql.specs.Reads.{IsListing};

/// No two rows have one rowid where there are no rows, and stay apart when rows are added and taken out; a listing tells of its table whether they are.
pub fn apart_laws()
    ensures none { HasApartRowids [] }
    ensures added { (name : List ℕ) (row : Row) (old new : Database) → IsAdded name row old new → HasApartRowids (rows_of name old) → HasApartRowids (rows_of name new) }
    ensures removed { (name : List ℕ) (test : Row → Bool) (old new : Database) → IsRemoved name test old new → HasApartRowids (rows_of name old) → HasApartRowids (rows_of name new) }
    ensures listed { (name columns : List ℕ) (db : Database) (rows : List Row) → IsListing name columns db rows → HasApartRowids rows → HasApartRowids (rows_of name db) }
{}
