//! What holds of every query and every key.

ghost use Rattle.std.specs.Prelude.{◌≡◌, ◌↔◌, ◌++◌, false, List, ℕ, IsUtf8};
ghost use Rattle.dict_match.specs.Matching.{Hits};
ghost use Rattle.dict_match.specs.declared.strategy.Strategy.{Strategy};
ghost use Rattle.store_derived.specs.Search.{SelectsKey, IsBetween, rows_for, is_tested, with_last};

/// From a list up to that list with 255 behind it are exactly the texts that begin with it.
pub fn range_law()
    ensures { (q k : List ℕ) → IsUtf8 k → IsBetween q (with_last q) k ↔ ((b : List ℕ) × (k ≡ q ++ b)) }
{}

/// What a query finds is among what it looks at; and where no test follows, it is all that it looks at.
pub fn search_laws()
    ensures among { (strategy : Strategy) (q k : List ℕ) → IsUtf8 k → Hits strategy q k → SelectsKey (rows_for strategy q) k }
    ensures only { (strategy : Strategy) (q k : List ℕ) → is_tested strategy ≡ false → IsUtf8 k → SelectsKey (rows_for strategy q) k → Hits strategy q k }
{}
