// What holds of every spelling.
ghost use Rattle.std.specs.Prelude.{◌≡◌, ℕ, List};
ghost use Rattle.dict_text.specs.Number.{Spells};

/// Each text spells at most one number, and each number has at most one spelling.
pub fn one_spelling()
    ensures numbers { (s : List ℕ) (m n : ℕ) → Spells s m → Spells s n → m ≡ n }
    ensures texts { (s t : List ℕ) (n : ℕ) → Spells s n → Spells t n → s ≡ t }
{}
