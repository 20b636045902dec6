// The index of an edition, as its entries are taken.
ghost use Rattle.std.specs.Prelude.{◌≡◌, ◌++◌, ◌∷◌, [], IfErr, OnOk};
ghost use Rattle.dict_match.specs.Key.{key_of};
ghost use Rattle.store_tables.specs.Records.{shown_as};
ghost use Rattle.store_tables.specs.Typed.{owned_entry};
ghost use Rattle.store_rows.specs.Views.{columns_line};
ghost use Rattle.store_search.specs.Entries.{entry_of};
ghost use Rattle.store_rows.specs.FileParts.{natural};
ghost use Rattle.store_scans.specs.Indexing.{indexed_of};

use dict_index::MAX_LINES;
use std::alloc::Global;
use std::marker::Model;
use store_rows::{RowsFault, StoredColumns};
use store_search::{IndexBuilder, IndexMaking};
use store_tables::EntryRecord;

/// The index of those entries of an edition that were taken so far. It has no more of them than an index of a dictionary has lines.
#[derive(Drop)]
pub struct EditionIndex {
    builder: IndexBuilder,
}

impl Model for EditionIndex {
    ghost use Rattle.std.specs.Prelude.{List, length, ◌≤◌};
    ghost use Rattle.dict_index.specs.Limits.{most_lines};
    ghost use Rattle.store_search.specs.Entries.{Indexed};

    ghost Value = { List Indexed };

    ghost view = { λ index. index.builder };

    ghost invariant = { λ index. length index.builder ≤ most_lines };
}

// The number in a column; where it is below 0, nothing of an edition's text.
fn natural(found: i64) -> usize
    ensures { result ≡ natural found }
{
    if found < 0 {
        return 0;
    }
    found as usize
}

impl EditionIndex {
    /// No entry was taken. No memory is taken.
    pub fn new(alloc: Global) -> EditionIndex
        ensures { result ≡ [] }
    {
        EditionIndex {
            builder: IndexBuilder::new(alloc),
        }
    }

    // Adds an entry. The fault is that memory was refused.
    fn put(
        &mut self,
        headword: &str,
        shown: &str,
        start: usize,
        size: usize,
    ) -> Result<(), RowsFault>
        ensures added { OnOk result (self.new ≡ self.old ++ record { key = key_of headword.now; shown = shown.now; start = start; size = size } ∷ []) }
        ensures only { IfErr result (λ fault. fault ≡ RowsFault.Memory) }
    {
        // No reader takes so many entries of one edition.
        if self.builder.len() >= MAX_LINES {
            return Err(RowsFault::Memory);
        }
        self.builder.push(headword, shown, start, size)?;
        Ok(())
    }

    /// Adds an entry, of which this is shown. The fault is that memory was refused.
    pub(crate) fn add(&mut self, row: &EntryRecord<String>, shown: &str) -> Result<(), RowsFault>
        ensures added { OnOk result (self.new ≡ self.old ++ indexed_of (shown_as (owned_entry row.now) shown.now) ∷ []) }
        ensures only { IfErr result (λ fault. fault ≡ RowsFault.Memory) }
    {
        self.put(
            row.headword.as_str(),
            shown,
            natural(row.start),
            natural(row.length),
        )
    }

    /// Adds the entry of a line. The fault is that memory was refused.
    pub(crate) fn add_line(&mut self, line: &StoredColumns<'_>) -> Result<(), RowsFault>
        ensures added { OnOk result (self.new ≡ self.old ++ entry_of (columns_line line.now) ∷ []) }
        ensures only { IfErr result (λ fault. fault ≡ RowsFault.Memory) }
    {
        self.put(
            line.headword,
            line.shown,
            line.offset as usize,
            line.size as usize,
        )
    }

    /// The index of the entries that were taken, of which nothing is made yet.
    pub fn making(self) -> IndexMaking
        ensures { result.entries ≡ self }
    {
        let EditionIndex { builder } = self;
        builder.making()
    }
}
