//! The index of an edition, which is to be made.
ghost use Rattle.std.specs.Prelude.{◌≡◌, ◌≤◌, length, map, IfOk};
ghost use Rattle.dict_index.specs.Limits.{most_entries};
ghost use Rattle.dict_index.specs.Views.{line_of};
ghost use Rattle.store_search.specs.Entries.{entry_of};

use crate::builder::IndexBuilder;
use crate::making::IndexMaking;
use dict_index::{Edition, Entry};
use std::alloc::{AllocError, Global};

// What makes the index of entries.
fn making_of_entries(alloc: Global, entries: &[Entry]) -> Result<IndexMaking, AllocError>
    requires { length entries.now ≤ most_entries }
    ensures { IfOk result (λ making. making.entries ≡ map entry_of (map line_of entries.now)) }
{
    let mut builder = IndexBuilder::new(alloc);
    for entry in entries {
        builder.push(entry.headword, entry.shown, entry.offset, entry.size)?;
    }
    Ok(builder.making())
}

/// What makes the index of an edition, of which nothing is made yet. The only error is refused memory; then nothing of it is left.
pub fn making_of_edition(alloc: Global, edition: &Edition) -> Result<IndexMaking, AllocError>
    ensures { IfOk result (λ making. making.entries ≡ map entry_of edition.now.lines) }
{
    edition.is_well_formed();
    making_of_entries(alloc, edition.entries())
}
