// Which connections are open.
ghost use Rattle.std.specs.Prelude.{◌≡◌, ◌<◌, ◌≤◌, ◌+◌, ◌++◌, [], ◌∷◌, true, None, Some, Ok, All, IfOk, IfSome, OnOk, OnErr, vec_len, vec_capacity, remove};
ghost use Rattle.std.specs.List.{AllPairs};
ghost use Rattle.net_hub.specs.Books.{is_given, opening, place_of_connection};

use crate::fault::HubFault;
use std::alloc::{AllocError, Global};

/// The most connections that are open at once.
pub const MAX_OPEN: usize = 64;

/// The ids of the open connections in rising order, and the greatest id that was given. Its room is taken when it is
/// made, and never grows.
#[derive(Drop)]
pub struct ConnectionTable {
    greatest: Option<u64>,
    ids: Vec<u64>,
    ghost rising: { AllPairs (λ a b. a < b) ids.items },
    ghost given: { All (λ id. is_given greatest id ≡ true) ids.items },
    ghost few: { vec_len ids ≤ 64 },
    ghost room: { 64 ≤ vec_capacity ids },
}

impl ConnectionTable {
    /// No connection is open, and no id was given.
    pub fn new(alloc: Global) -> Result<Self, AllocError>
        ensures none { IfOk result (λ book. book.ids.items ≡ []) }
        ensures new { IfOk result (λ book. book.greatest ≡ None) }
    {
        Ok(ConnectionTable {
            greatest: None,
            ids: Vec::with_capacity(alloc, MAX_OPEN)?,
        })
    }

    /// How many are open.
    pub fn len(&self) -> usize
        ensures { result ≡ vec_len self.now.ids }
    {
        self.ids.len()
    }

    /// Whether a connection of this id may be opened now, or why not.
    pub fn admits(&self, id: u64) -> Result<(), HubFault>
        ensures { result ≡ opening id self.now.greatest (vec_len self.now.ids) }
    {
        if let Some(greatest) = self.greatest
            && id <= greatest
        {
            return Err(HubFault::UnknownConnection);
        }
        if self.ids.len() >= MAX_OPEN {
            return Err(HubFault::TooMany);
        }
        Ok(())
    }

    /// Opens a connection of this id, last, or refuses it and changes nothing.
    pub fn open(&mut self, id: u64) -> Result<(), HubFault>
        ensures refusal { result ≡ opening id self.old.greatest (vec_len self.old.ids) }
        ensures ids { OnOk result (self.new.ids.items ≡ self.old.ids.items ++ id ∷ []) }
        ensures greatest { OnOk result (self.new.greatest ≡ Some id) }
        ensures same { OnErr result (self.new ≡ self.old) }
    {
        self.admits(id)?;
        self.ids.push_reserved(id);
        self.greatest = Some(id);
        Ok(())
    }

    /// Gives this id to a connection that isn't open any more.
    pub fn skip(&mut self, id: u64)
        requires { opening id self.old.greatest (vec_len self.old.ids) ≡ Ok tt }
        ensures ids { self.new.ids.items ≡ self.old.ids.items }
        ensures greatest { self.new.greatest ≡ Some id }
    {
        self.greatest = Some(id);
    }

    /// The place of an open connection, from 0.
    pub fn place_of(&self, id: u64) -> Option<usize>
        ensures value { result ≡ place_of_connection id self.now.ids.items }
        ensures within { IfSome result (λ place. place < vec_len self.now.ids) }
    {
        self.ids.iter().position(|one| *one == id)
    }

    /// Closes the connection at a place. Its id is never given again.
    pub fn close(&mut self, place: usize)
        requires { place < vec_len self.old.ids }
        ensures ids { self.new.ids.items ≡ remove self.old.ids.items place }
        ensures len { vec_len self.new.ids + 1 ≡ vec_len self.old.ids }
        ensures greatest { self.new.greatest ≡ self.old.greatest }
    {
        self.ids.remove(place);
    }
}
