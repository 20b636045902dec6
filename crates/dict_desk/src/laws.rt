// What is found, by worked examples.
ghost use Rattle.std.specs.Prelude.{◌≡◌, [], ◌∷◌, Some, None, codes};
ghost use Rattle.dict_match.specs.declared.strategy.Strategy.TheVariants.{Exact, Prefix, Suffix, Substring};
ghost use Rattle.dict_index.specs.Found.{found, headwords};
ghost use Rattle.dict_desk.specs.Asked.{definitions, matches, strategy_of};
ghost use Rattle.dict_desk.specs.Worked.{worked_catalogue, old_gems, opal_entry, fire_opal_entry, dot_entry, dot_again, of_gem, in_gem, in_ore};

/// What DEFINE gives of a small catalogue, worked by hand: by a name, by the star, by the exclamation mark, by a
/// virtual database, by a name that is none, and of a former edition.
///
/// It does nothing. Its clauses are the examples, from the definitions alone.
pub fn worked_definitions()
    ensures name { definitions worked_catalogue (codes "gem") (codes "OPAL") ≡ Some (of_gem opal_entry ∷ []) }
    ensures star { definitions worked_catalogue (codes "*") (codes "opal") ≡ Some (of_gem opal_entry ∷ []) }
    ensures first { definitions worked_catalogue (codes "!") (codes "fire  opal") ≡ Some (of_gem fire_opal_entry ∷ []) }
    ensures listed { definitions worked_catalogue (codes "all") (codes "dot") ≡ Some (of_gem dot_entry ∷ []) }
    ensures nothing { definitions worked_catalogue (codes "*") (codes "old") ≡ Some [] }
    ensures unknown { definitions worked_catalogue (codes "GEM") (codes "opal") ≡ None }
    ensures empty { definitions worked_catalogue (codes "*") (codes "") ≡ Some [] }
{}

/// What MATCH gives of it, and which entries a query finds in its former edition.
///
/// It does nothing. Its clauses are the examples, from the definitions alone.
pub fn worked_matches()
    ensures name { matches worked_catalogue (codes "gem") Suffix (codes "opal") ≡ Some (in_gem (codes "opal") ∷ in_gem (codes "Fire Opal") ∷ []) }
    ensures star { matches worked_catalogue (codes "*") Substring (codes "o") ≡ Some (in_ore (codes "iron") ∷ in_gem (codes "opal") ∷ in_gem (codes "Fire Opal") ∷ in_gem (codes "dot") ∷ []) }
    ensures first { matches worked_catalogue (codes "!") Substring (codes "o") ≡ Some (in_ore (codes "iron") ∷ []) }
    ensures listed { matches worked_catalogue (codes "all") Substring (codes "o") ≡ Some (in_gem (codes "opal") ∷ in_gem (codes "Fire Opal") ∷ in_gem (codes "dot") ∷ in_ore (codes "iron") ∷ []) }
    ensures prefix { matches worked_catalogue (codes "gem") Prefix (codes "") ≡ Some [] }
    ensures twice { found Exact (codes "dot") old_gems ≡ dot_entry ∷ dot_again ∷ [] }
    ensures once { headwords (found Substring (codes "o") old_gems) ≡ codes "opal" ∷ codes "dot" ∷ [] }
    ensures period { strategy_of (codes ".") ≡ Some Prefix }
    ensures exact { strategy_of (codes "exact") ≡ Some Exact }
    ensures case { strategy_of (codes "EXACT") ≡ None }
{}
