// A law of the definitions.
ghost use Rattle.std.specs.Prelude.{◌≡◌, ℕ, List};
ghost use Rattle.dict_catalogue.specs.Steps.{Catalogue};
ghost use Rattle.http_request.specs.Heads.{Needs};
ghost use Rattle.http_request.specs.declared.kinds.Need.TheVariants as needs;
ghost use Rattle.http_service.specs.Settling.{Settled, Settles};

/// Over a catalogue, octets of which no more is needed have one answer, and one catalogue after it: there is no second
/// one, and that there is none can't be. For octets of which more is needed nothing is settled.
///
/// It does nothing. Its clauses are the law.
pub fn one_answer()
    ensures one { (M : Catalogue) (x : List ℕ) (a b : Settled) → Settles M x a → Settles M x b → a ≡ b }
    ensures some { (M : Catalogue) (x : List ℕ) → (Needs x needs.More → ⊥) → ((a : Settled) → Settles M x a → ⊥) → ⊥ }
    ensures none { (M : Catalogue) (x : List ℕ) (a : Settled) → Needs x needs.More → Settles M x a → ⊥ }
{}
