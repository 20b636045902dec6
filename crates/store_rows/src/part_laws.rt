// What holds of every file in parts.
ghost use Rattle.std.specs.Prelude.{◌≡◌, ◌<◌, ◌*◌, ℕ, List, [], length, take, drop, slice_index_or};
ghost use Rattle.std.specs.List.{concat};
ghost use Rattle.store_rows.specs.Parts.{AreParts, parts_of};

/// The parts of a file joined are the file, they are parts, and what are parts are those of what they join to.
///
/// It does nothing. Its clauses are the law.
pub fn parts_laws()
    ensures joined { (octets : List ℕ) → concat (parts_of octets) ≡ octets }
    ensures regular { (octets : List ℕ) → AreParts (parts_of octets) }
    ensures only { (parts : List (List ℕ)) → AreParts parts → parts ≡ parts_of (concat parts) }
    ensures each { (octets : List ℕ) (number : ℕ) → number < length (parts_of octets) → slice_index_or (parts_of octets) number [] ≡ take 16384 (drop (number * 16384) octets) }
{}
