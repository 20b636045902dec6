// The parts of a file that lies in memory.
ghost use Rattle.std.specs.Prelude.{◌≡◌, ◌≤◌, ◌<◌, [], length, slice_index_or, MatchOption};
ghost use Rattle.store_rows.specs.Parts.{parts_of};

/// How many octets a part has, but for the last.
pub const PART_SIZE: usize = 16_384;

/// The part of that number, if there is one.
pub fn part(octets: &[u8], number: usize) -> Option<&[u8]>
    ensures { MatchOption result (length (parts_of octets.now) ≤ number)
        (λ part. (number < length (parts_of octets.now)) × (part.now ≡ slice_index_or (parts_of octets.now) number [])) }
{
    let whole = octets.len() / PART_SIZE;
    if number < whole {
        let start = number * PART_SIZE;
        return Some(&octets[start..start + PART_SIZE]);
    }
    if number > whole {
        return None;
    }
    if octets.len() == whole * PART_SIZE {
        return None;
    }
    let start = number * PART_SIZE;
    Some(&octets[start..])
}
