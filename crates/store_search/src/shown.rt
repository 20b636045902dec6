//! What is shown of entries, each text once.
ghost use Rattle.std.specs.Prelude.{◌≡◌, IfOk, map};
ghost use Rattle.dict_index.specs.Found.{distinct};
ghost use Rattle.store_search.specs.Entries.{entries_at, indexed_shown};

use crate::entries::Entries;
use dict_index::distinct_law;
use std::alloc::{AllocError, Global};
use std::collections::HashSet;

/// Of these places those whose text that is shown is none of the earlier ones'. The only error is refused memory.
pub(crate) fn first_shown(
    alloc: Global,
    entries: &Entries,
    places: &[u32],
) -> Result<Vec<u32>, AllocError>
    ensures { IfOk result (λ firsts. map indexed_shown (entries_at entries.now firsts.items) ≡ distinct (map indexed_shown (entries_at entries.now places.now))) }
{
    distinct_law();
    let mut seen = HashSet::with_capacity(alloc, places.len())?;
    let mut firsts = Vec::with_capacity(alloc, places.len())?;
    for place in places {
        if seen.insert(entries.shown_octets(*place as usize))? {
            firsts.push(*place)?;
        }
    }
    Ok(firsts)
}
