//! Whether a key has a run of three octets.
ghost use Rattle.std.specs.Prelude.{◌≡◌, ◌≤◌, ◌-◌, ◌∷◌, [], length, slice_index};
ghost use Rattle.std.specs.Str.{bytes_eq};
ghost use Rattle.store_pieces.specs.Selected.{has_gram};

/// Whether a run of three octets stands in a key.
pub(crate) fn has_gram(gram: &[u8; 3], key: &[u8]) -> bool
    ensures { result ≡ has_gram gram.now key.now }
{
    for end in 3..key.len() + 1 {
        if ends_at(gram, key, end) {
            return true;
        }
    }
    false
}

/// Whether it ends at a place of the key. The octet in the midst is held first: it tells characters of several octets apart.
fn ends_at(gram: &[u8; 3], key: &[u8], end: usize) -> bool
    requires low { 3 ≤ end }
    requires high { end ≤ length key.now }
    ensures { result ≡ bytes_eq gram.now (slice_index key.now (end - 3) ∷ slice_index key.now (end - 2) ∷ slice_index key.now (end - 1) ∷ []) }
{
    if key[end - 2] != gram[1] {
        return false;
    }
    *gram == [key[end - 3], key[end - 2], key[end - 1]]
}
