// Laws of the definitions.
ghost use Rattle.std.specs.Prelude.{◌≡◌, ◌<◌, ◌++◌, ℕ, List, length};
ghost use Rattle.http_request.specs.Heads.{Needs};
ghost use Rattle.http_request.specs.Requests.{IsAwaited, EditorRequest, IsRequest};
ghost use Rattle.http_request.specs.declared.kinds.Need as needs;
ghost use Rattle.http_request.specs.declared.kinds.Need.TheVariants.{More as NeedsMore, Whole as IsWhole};

/// Octets have one answer. A request that is whole stays so, and is the same one, whatever follows. One whose head is whole is awaited
/// until all its octets have come.
pub fn one_answer()
    ensures one { (x : List ℕ) (a b : needs.Need) → Needs x a → Needs x b → a ≡ b }
    ensures stays { (x y : List ℕ) (n : ℕ) → Needs x (IsWhole n) → Needs (x ++ y) (IsWhole n) }
    ensures awaits { (x y : List ℕ) (size : ℕ) → IsAwaited x size → length (x ++ y) < size → Needs (x ++ y) NeedsMore }
{}

/// Octets are one whole request at most, and octets after it don't change it.
pub fn one_request()
    ensures one { (x : List ℕ) (a b : EditorRequest) → IsRequest x a → IsRequest x b → a ≡ b }
    ensures stays { (x y : List ℕ) (r : EditorRequest) → IsRequest x r → IsRequest (x ++ y) r }
{}
