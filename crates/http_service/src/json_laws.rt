// A law of the definitions.
ghost use Rattle.std.specs.Prelude.{◌≡◌, ℕ, List};
ghost use Rattle.http_service.specs.Bodies.{IsPlace, IsVirtual};

/// A body says one place at most, and one title with one list of members at most.
pub fn one_body()
    ensures place { (body : List ℕ) (m n : ℕ) → IsPlace body m → IsPlace body n → m ≡ n }
    ensures title { (body s t : List ℕ) (xs ys : List (List ℕ)) → IsVirtual body s xs → IsVirtual body t ys → s ≡ t }
    ensures members { (body s t : List ℕ) (xs ys : List (List ℕ)) → IsVirtual body s xs → IsVirtual body t ys → xs ≡ ys }
{}
