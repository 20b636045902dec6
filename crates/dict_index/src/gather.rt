// The entries and the reserved texts of the lines of an index.
ghost use Rattle.std.specs.Prelude.{◌≡◌, ℕ, List, [], ◌∷◌, ◌++◌, IfOk, IfErr, OnOk};
ghost use Rattle.std.specs.Str.{IsUtf8};
ghost use Rattle.dict_index.specs.Reserved.{is_reserved, is_known_reserved};
ghost use Rattle.dict_index.specs.Line.{IsLine};
ghost use Rattle.dict_index.specs.Views.{line_of, HasBodyIn, HasItsKey, HasReservedKey};
ghost use Rattle.dict_index.specs.Tests.{PassesLine};
ghost use Rattle.dict_index.specs.declared.fault.EditionRefusal.TheVariants.{Reserved, ReservedTwice};

use crate::entry::Entry;
use crate::fault::EditionRefusal;
use crate::line::{EntryLineFault, as_text, searched_key};
use std::alloc::{AllocError, Global};
use std::collections::BTreeMap;

/// What the lines so far say: their entries, and the texts of the known reserved keys.
#[derive(Drop)]
pub(crate) struct Gathered<'a> {
    pub entries: Vec<Entry<'a>>,
    pub reserved: BTreeMap<String, &'a str>,
}

// Whether a key is reserved.
pub(crate) fn is_reserved_key(key: &[u8]) -> bool
    ensures { result ≡ is_reserved key.now }
{
    key.starts_with(b"00database".as_slice())
}

// Whether a reserved key is one of those that are known.
fn is_known_key(key: &[u8]) -> bool
    ensures { result ≡ is_known_reserved key.now }
{
    key == b"00databaseshort".as_slice()
        || key == b"00databaseinfo".as_slice()
        || key == b"00databaseurl".as_slice()
        || key == b"00databaseutf8".as_slice()
        || key == b"00databasealphabet".as_slice()
        || key.starts_with(b"00databasedictfmt".as_slice())
}

// The entry with the key that searches look at, in place of the one by which its headword would be reserved.
fn with_its_key<'a>(alloc: Global, read: Entry<'a>) -> Result<Entry<'a>, AllocError>
    requires { HasReservedKey read }
    ensures key { IfOk result HasItsKey }
    ensures line { IfOk result (λ entry. line_of entry ≡ line_of read.entry) }
    ensures body { IfOk result (λ entry. entry.body.now ≡ read.entry.body.now) }
{
    let key = searched_key(alloc, read.headword, read.key)?;
    Ok(Entry {
        headword: read.headword,
        key,
        shown: read.shown,
        body: read.body,
        offset: read.offset,
        size: read.size,
    })
}

impl<'a> Gathered<'a> {
    ghost use Rattle.dict_index.specs.Gathered.{HasGathered, IsGatherFault};

    /// Nothing yet.
    pub(crate) fn new(alloc: Global) -> Self
        ensures { (text : List ℕ) → HasGathered text [] result }
    {
        Gathered {
            entries: Vec::new(alloc),
            reserved: BTreeMap::new(alloc),
        }
    }

    // Adds a line's entry, or its text where its key is reserved.
    pub(crate) fn add(&mut self, alloc: Global, read: Entry<'a>) -> Result<(), EntryLineFault>
        requires key { HasReservedKey read }
        requires text { IsUtf8 read.headword.now }
        ensures added { OnOk result ((text : List ℕ) (lines : List (List ℕ)) (line : List ℕ) →
            IsLine line (line_of read.entry) → HasBodyIn text read.entry → HasGathered text lines self.old → HasGathered text (lines ++ line ∷ []) self.new) }
        ensures passes { OnOk result ((text : List ℕ) (lines : List (List ℕ)) (line : List ℕ) →
            IsLine line (line_of read.entry) → HasGathered text lines self.old → PassesLine Reserved text lines line × PassesLine ReservedTwice text lines line) }
        ensures refused { IfErr result (λ fault. (text : List ℕ) (lines : List (List ℕ)) (line : List ℕ) →
            IsLine line (line_of read.entry) → HasGathered text lines self.old → IsGatherFault fault text lines line) }
    {
        if !is_reserved_key(read.key.as_bytes()) {
            let Ok(entry) = with_its_key(alloc, read) else {
                return Err(EntryLineFault::Memory);
            };
            let Ok(()) = self.entries.push(entry) else {
                return Err(EntryLineFault::Memory);
            };
            return Ok(());
        }
        if !is_known_key(read.key.as_bytes()) {
            return Err(EntryLineFault::Refused(EditionRefusal::Reserved));
        }
        let name = as_text(read.key.as_bytes());
        if self.reserved.contains_key(name) {
            return Err(EntryLineFault::Refused(EditionRefusal::ReservedTwice));
        }
        let Ok(owned) = String::from_str(alloc, name) else {
            return Err(EntryLineFault::Memory);
        };
        let Ok(_) = self.reserved.insert(owned, read.body) else {
            return Err(EntryLineFault::Memory);
        };
        Ok(())
    }
}
