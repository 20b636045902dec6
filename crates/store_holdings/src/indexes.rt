// Indexes by numbers.
ghost use Rattle.std.specs.Prelude.{◌≡◌, ℕ, List, [], nat_eq, None, Some, Ok, IfOk, OnOk, OnErr, if◌then◌else◌};
ghost use Rattle.store_search.specs.Entries.{Indexed};
ghost use Rattle.store_holdings.specs.Indexes.{entries_under, IsOut};

use std::alloc::{AllocError, Global};
use std::collections::BTreeMap;
use std::marker::Model;
use std::mem::drop;
use store_search::{Index, IndexBuilder, IndexMaking};

// An index, or the entries that it is to be made of. Contracts see the entries.
#[derive(Drop)]
struct Slot {
    made: Option<Index>,
    // What it is made of, until it is. It stands apart, so that a slot is small: each lookup moves it.
    making: Option<Box<IndexMaking>>,
}

impl Model for Slot {
    ghost use Rattle.std.specs.Prelude.{List, [], option_map, unwrap_or};
    ghost use Rattle.store_search.specs.Entries.{Indexed};

    ghost Value = { List Indexed };

    ghost view = { λ slot. unwrap_or slot.made (unwrap_or (option_map (λ making. making.value.entries) slot.making) []) };
}

impl Slot {
    // One without entries.
    fn empty() -> Slot
        ensures { result ≡ [] }
    {
        Slot {
            made: None,
            making: None,
        }
    }

    // One that is made.
    fn made(index: Index) -> Slot
        ensures { result ≡ index }
    {
        Slot {
            made: Some(index),
            making: None,
        }
    }

    // One of which nothing is made yet. The only error is refused memory.
    fn unmade(alloc: Global, making: IndexMaking) -> Result<Slot, AllocError>
        ensures { IfOk result (λ slot. slot ≡ making.entries) }
    {
        let making = Box::new(alloc, making)?;
        Ok(Slot {
            made: None,
            making: Some(making),
        })
    }

    // The index, which is made where it isn't yet. The only error is refused memory; then the entries stay.
    fn take(&mut self, alloc: Global) -> Result<Index, AllocError>
        ensures index { IfOk result (λ index. index ≡ self.old) }
        ensures refused { OnErr result (self.new ≡ self.old) }
    {
        if let Some(index) = self.made.take() {
            return Ok(index);
        }
        match &mut self.making {
            Some(making) => making.finish(),
            None => IndexBuilder::new(alloc).finish(),
        }
    }
}

/// Indexes of editions by the numbers of the editions. One may be made when it is asked for first, of the entries that were put.
/// Contracts see the entries. No memory is taken before the first is put.
#[derive(Drop)]
pub struct Indexes {
    alloc: Global,
    by_number: BTreeMap<u64, Slot>,
}

impl Model for Indexes {
    ghost use Rattle.std.specs.Prelude.{ℕ, List};
    ghost use Rattle.store_search.specs.Entries.{Indexed};

    ghost Value = { List (ℕ × List Indexed) };

    ghost view = { λ indexes. indexes.by_number.entries };
}

impl Indexes {
    /// No indexes.
    pub fn new(alloc: Global) -> Indexes
        ensures { (q : ℕ) → entries_under q result ≡ None }
    {
        Indexes {
            alloc,
            by_number: BTreeMap::new(alloc),
        }
    }

    /// Takes the index under a number out, until it is put back. It is made first, where it isn't yet.
    ///
    /// The error is that a growth was refused, and all is as it was.
    pub fn take(&mut self, number: u64) -> Result<Option<Index>, AllocError>
        ensures found { IfOk result (λ found. found ≡ entries_under number self.old) }
        ensures absent { entries_under number self.old ≡ None → result ≡ Ok None }
        ensures out { IfOk result (λ found. (index : List Indexed) → found ≡ Some index → IsOut number index self.old self.new) }
        ensures none { IfOk result (λ found. found ≡ None → self.new ≡ self.old) }
        ensures refused { OnErr result (self.new ≡ self.old) }
    {
        if self.by_number.get(&number).is_none() {
            return Ok(None);
        }
        let Ok(Some(taken)) = self.by_number.insert(number, Slot::empty()) else {
            return Ok(None);
        };
        let mut slot = taken;
        match slot.take(self.alloc) {
            Ok(index) => {
                drop(slot);
                Ok(Some(index))
            }
            Err(fault) => {
                self.put_slot(number, slot);
                Err(fault)
            }
        }
    }

    // Puts back what stood under a number.
    fn put_slot(&mut self, number: u64, slot: Slot)
        ensures { (before : List (ℕ × List Indexed)) → IsOut number slot before self.old → self.new ≡ before }
    {
        let _ = self.by_number.insert(number, slot);
    }

    /// Puts an index back that was taken out from under this number: then all is as it was before.
    pub fn put_back(&mut self, number: u64, index: Index)
        ensures { (before : List (ℕ × List Indexed)) → IsOut number index before self.old → self.new ≡ before }
    {
        let slot = Slot::made(index);
        self.put_slot(number, slot);
    }

    /// Makes the index under a number, if one stands there that isn't made yet. The only error is refused memory.
    pub fn make(&mut self, number: u64) -> Result<(), AllocError>
        ensures { self.new ≡ self.old }
    {
        if let Some(index) = self.take(number)? {
            self.put_back(number, index);
        }
        Ok(())
    }

    fn put_new(&mut self, number: u64, slot: Slot) -> Result<(), AllocError>
        ensures put { OnOk result ((q : ℕ) → entries_under q self.new ≡ (if nat_eq number q then Some slot else entries_under q self.old)) }
        ensures refused { OnErr result ((q : ℕ) → entries_under q self.new ≡ entries_under q self.old) }
        ensures in_place { OnErr result (entries_under number self.old ≡ None) }
    {
        match self.by_number.insert(number, slot) {
            Ok(_) => Ok(()),
            Err(_) => Err(AllocError),
        }
    }

    /// Puts an index under a number, in place of one that stood there.
    ///
    /// The error is that a growth was refused, and all is as it was. In place of another index none is wanted.
    pub fn put(&mut self, number: u64, index: Index) -> Result<(), AllocError>
        ensures put { OnOk result ((q : ℕ) → entries_under q self.new ≡ (if nat_eq number q then Some index else entries_under q self.old)) }
        ensures refused { OnErr result ((q : ℕ) → entries_under q self.new ≡ entries_under q self.old) }
        ensures in_place { OnErr result (entries_under number self.old ≡ None) }
    {
        let slot = Slot::made(index);
        self.put_new(number, slot)
    }

    /// Puts an index under a number that is made when it is asked for first, in place of one that stood there. The error is that a
    /// growth was refused, and all is as it was.
    pub fn put_unmade(&mut self, number: u64, making: IndexMaking) -> Result<(), AllocError>
        ensures put { OnOk result ((q : ℕ) → entries_under q self.new ≡ (if nat_eq number q then Some making.entries else entries_under q self.old)) }
        ensures refused { OnErr result ((q : ℕ) → entries_under q self.new ≡ entries_under q self.old) }
    {
        let slot = Slot::unmade(self.alloc, making)?;
        self.put_new(number, slot)
    }

    /// Lets go of the index under a number, if one stands there.
    pub fn let_go(&mut self, number: u64)
        ensures { (q : ℕ) → entries_under q self.new ≡ (if nat_eq number q then None else entries_under q self.old) }
    {
        let _gone = self.by_number.remove(&number);
    }
}
