//! The making of an index, entry by entry.
ghost use Rattle.std.specs.Prelude.{◌≡◌, ◌≤◌, ◌<◌, ◌^◌, [], ◌∷◌, ◌++◌, length, IfOk, OnOk, OnErr};
ghost use Rattle.dict_match.specs.Key.{key_of};

use crate::entries::Entries;
use crate::index::Index;
use crate::making::IndexMaking;
use dict_match::{key_laws, key_of};
use std::alloc::{AllocError, Global};
use std::marker::Model;
use store_derived::Span;

/// Takes the entries of an edition, one after another, in their order. Contracts see it as the list of those taken.
#[derive(Drop)]
pub struct IndexBuilder {
    alloc: Global,
    entries: Entries,
}

impl Model for IndexBuilder {
    ghost use Rattle.std.specs.Prelude.{List};
    ghost use Rattle.store_search.specs.Entries.{Indexed};

    ghost Value = { List Indexed };

    ghost view = { λ builder. builder.entries };
}

impl IndexBuilder {
    /// Nothing was taken. No memory is taken.
    pub fn new(alloc: Global) -> IndexBuilder
        ensures { result ≡ [] }
    {
        IndexBuilder {
            alloc,
            entries: Entries::new(alloc),
        }
    }

    /// How many entries were taken.
    pub fn len(&self) -> usize
        ensures { result ≡ length self.now }
    {
        self.entries.len()
    }

    /// Takes the next entry: its headword, what is shown of it, and where its text begins in that of its edition and how
    /// long it is, in octets. The only error is refused memory; then the builder is as it was.
    pub fn push(
        &mut self,
        headword: &str,
        shown: &str,
        start: usize,
        size: usize,
    ) -> Result<(), AllocError>
        ensures pushed { OnOk result (self.new ≡ self.old ++ record { key = key_of headword.now; shown = shown.now; start = start; size = size } ∷ []) }
        ensures refused { OnErr result (self.new ≡ self.old) }
    {
        key_laws();
        let key = key_of(self.alloc, headword)?;
        self.entries
            .push(key.as_bytes(), shown, Span { start, size })
    }

    /// The index of the entries that were taken. The only error is refused memory; then nothing of it is left.
    pub fn finish(self) -> Result<Index, AllocError>
        requires { length self < 2 ^ 32 }
        ensures { IfOk result (λ index. index ≡ self) }
    {
        self.making().end()
    }

    /// The same, of which nothing is made yet: it is made by steps, 65,536 at most.
    pub fn making(self) -> IndexMaking
        requires { length self < 2 ^ 32 }
        ensures same { result.entries ≡ self }
        ensures few { result.left ≤ 2 ^ 16 }
    {
        let mut entries = self.entries;
        entries.shrink();
        IndexMaking::of(self.alloc, entries)
    }
}
