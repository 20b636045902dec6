// Parts taken one after another, and what they join to.
ghost use Rattle.std.specs.Prelude.{◌≡◌, ◌≤◌, ◌++◌, ◌∷◌, ℕ, [], List, length, OnOk, IfErr, OnErr, MatchBool};
ghost use Rattle.store_rows.specs.Parts.{parts_of};
ghost use Rattle.store_rows.specs.Joining.{IsNext, MayRefusePart};

use crate::file::PART_SIZE;
use std::alloc::{AllocError, Global};
use std::marker::Model;

/// Why a part isn't taken.
#[derive(Clone, Copy, Debug, PartialEq, Eq)]
pub enum Refused {
    /// It isn't the part that follows: its number is another, it is empty or too long, or the part before it is short.
    Wrong,
    /// There is no memory for it.
    Memory,
}

/// The octets of a file whose parts are taken one after another.
#[derive(Drop)]
pub struct Joiner {
    octets: Vec<u8>,
}

impl Model for Joiner {
    ghost Value = { List ℕ };

    ghost view = { λ joiner. joiner.octets.items };
}

impl Joiner {
    /// Of no part.
    pub fn new(alloc: Global) -> Self
        ensures { result ≡ [] }
    {
        Joiner {
            octets: Vec::new(alloc),
        }
    }

    /// Takes the next part.
    pub fn push(&mut self, number: u64, part: &[u8]) -> Result<(), Refused>
        ensures taken { OnOk result (IsNext self.old number part.now) }
        ensures joined { OnOk result (self.new ≡ self.old ++ part.now) }
        ensures parts { OnOk result (parts_of self.new ≡ parts_of self.old ++ part.now ∷ []) }
        ensures refused { IfErr result (MayRefusePart self.old number part.now) }
        ensures same { OnErr result (self.new ≡ self.old) }
    {
        if !is_next(&self.octets, number, part) {
            return Err(Refused::Wrong);
        }
        let Ok(()) = self.octets.extend_from_slice(part) else {
            return Err(Refused::Memory);
        };
        Ok(())
    }

    /// The octets so far.
    pub fn as_bytes(&self) -> &[u8]
        ensures { result.now ≡ self.now }
    {
        self.octets.as_slice()
    }

    /// The octets.
    pub fn into_bytes(self) -> Vec<u8>
        ensures { result.items ≡ self }
    {
        self.octets
    }
}

// Whether the part is the one that follows the octets so far.
fn is_next(octets: &[u8], number: u64, part: &[u8]) -> bool
    ensures { MatchBool result (IsNext octets.now number part.now) (¬ IsNext octets.now number part.now) }
{
    if octets.len() % PART_SIZE != 0 {
        return false;
    }
    if number != (octets.len() / PART_SIZE) as u64 {
        return false;
    }
    has_part_size(part)
}

// Whether a part may have so many octets.
fn has_part_size(part: &[u8]) -> bool
    ensures { MatchBool result ((1 ≤ length part.now) × (length part.now ≤ 16384)) (¬ ((1 ≤ length part.now) × (length part.now ≤ 16384))) }
{
    !part.is_empty() && part.len() <= PART_SIZE
}
