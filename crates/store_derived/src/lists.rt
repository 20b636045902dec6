//! Lists of places, one after another in one piece of memory.
ghost use Rattle.std.specs.Prelude.{◌≡◌, [], ◌∷◌, ◌++◌, ℕ, List, length, IfOk, OnOk, OnErr, slice_index_or};

use crate::numbers::Numbers;
use std::alloc::{AllocError, Global};
use std::marker::Model;

/// Lists of places, each of which is found by its own place, counted from 0. Contracts see them as the list of them.
#[derive(Drop)]
pub struct PlaceLists {
    places: Vec<u32>,
    /// Where each list begins.
    begins: Numbers,
}

impl Model for PlaceLists {
    ghost use Rattle.std.specs.Prelude.{List, ℕ};
    ghost use Rattle.store_derived.specs.Runs.{AreBegins, runs};

    ghost Value = { List (List ℕ) };

    ghost view = { λ lists. runs lists.places.items lists.begins };

    ghost invariant = { λ lists. AreBegins lists.places.items lists.begins };
}

impl PlaceLists {
    /// No list, with memory for so many places. The only error is refused memory.
    pub fn with_capacity(alloc: Global, places: usize) -> Result<PlaceLists, AllocError>
        ensures { IfOk result (λ lists. lists ≡ []) }
    {
        let places = Vec::with_capacity(alloc, places)?;
        Ok(PlaceLists {
            places,
            begins: Numbers::new(alloc),
        })
    }

    /// The list at a place, and an empty one where there is none.
    pub fn get(&self, at: usize) -> &[u32]
        ensures { result.now ≡ slice_index_or self.now at [] }
    {
        if at >= self.begins.len() {
            return &[];
        }
        let len = self.places.len();
        let from = self.begins.get_or(at, len);
        let to = self.begins.get_or(at + 1, len);
        &self.places[from..to]
    }

    /// Puts a list of one place behind the others. The only error is refused memory.
    pub fn push_new(&mut self, place: u32) -> Result<(), AllocError>
        ensures { OnOk result (self.new ≡ self.old ++ (place ∷ []) ∷ []) }
    {
        put_new(&mut self.places, &mut self.begins, place)
    }

    /// Puts a place behind those of the last list, where there is one. The only error is refused memory.
    pub fn push_last(&mut self, place: u32) -> Result<(), AllocError>
        ensures { OnOk result ((front : List (List ℕ)) (last : List ℕ) → self.old ≡ front ++ last ∷ [] → self.new ≡ front ++ (last ++ place ∷ []) ∷ []) }
    {
        self.places.push(place)?;
        Ok(())
    }

    /// Lets the memory go that is kept for more of them, as far as that can be had.
    pub fn shrink(&mut self)
        ensures { self.new ≡ self.old }
    {
        self.places.shrink_to_fit();
        self.begins.shrink();
    }
}

/// Puts a place behind the places, and where it stands behind the begins; or leaves both as they were.
fn put_new(places: &mut Vec<u32>, begins: &mut Numbers, place: u32) -> Result<(), AllocError>
    ensures places { OnOk result (places.new.items ≡ places.old.items ++ place ∷ []) }
    ensures begins { OnOk result (begins.new ≡ begins.old ++ length places.old.items ∷ []) }
    ensures places_refused { OnErr result (places.new.items ≡ places.old.items) }
    ensures begins_refused { OnErr result (begins.new ≡ begins.old) }
{
    begins.push(places.len())?;
    if let Err(error) = places.push(place) {
        let _begin = begins.pop();
        return Err(AllocError::from(error));
    }
    Ok(())
}
