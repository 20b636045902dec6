//! Numbers, one after another.
ghost use Rattle.std.specs.Prelude.{◌≡◌, [], ◌∷◌, ◌++◌, length, MatchOption, OnOk, OnErr, slice_index_or};

use std::alloc::{AllocError, Global};
use std::marker::Model;

/// The largest number that 32 bits hold.
pub(crate) const WIDEST: usize = u32::MAX as usize;

/// Numbers, each of which is found by its place. Those before the first one that 32 bits do not hold take 32 bits each.
#[derive(Drop)]
pub(crate) struct Numbers {
    narrow: Vec<u32>,
    /// The rest: from the first one that 32 bits do not hold.
    wide: Vec<usize>,
}

impl Model for Numbers {
    ghost use Rattle.std.specs.Prelude.{List, ℕ, ◌++◌};

    ghost Value = { List ℕ };

    ghost view = { λ numbers. numbers.narrow.items ++ numbers.wide.items };
}

impl Numbers {
    pub(crate) fn new(alloc: Global) -> Numbers
        ensures { result ≡ [] }
    {
        Numbers {
            narrow: Vec::new(alloc),
            wide: Vec::new(alloc),
        }
    }

    pub(crate) fn len(&self) -> usize
        ensures { result ≡ length self.now }
    {
        self.narrow.len() + self.wide.len()
    }

    /// The number at a place, and `other` where there is none.
    pub(crate) fn get_or(&self, at: usize, other: usize) -> usize
        ensures { result ≡ slice_index_or self.now at other }
    {
        let count = self.narrow.len();
        if at < count {
            return self.narrow[at] as usize;
        }
        match self.wide.get(at - count) {
            Some(number) => *number,
            None => other,
        }
    }

    /// Puts a number behind the others. The only error is refused memory; then they are as they were.
    pub(crate) fn push(&mut self, number: usize) -> Result<(), AllocError>
        ensures pushed { OnOk result (self.new ≡ self.old ++ number ∷ []) }
        ensures refused { OnErr result (self.new ≡ self.old) }
    {
        if self.wide.is_empty() && number <= WIDEST {
            self.narrow.push(number as u32)?;
        } else {
            self.wide.push(number)?;
        }
        Ok(())
    }

    /// Takes the last number away, where there is one.
    pub(crate) fn pop(&mut self) -> Option<usize>
        ensures { MatchOption result ((self.old ≡ []) × (self.new ≡ [])) (λ number. self.old ≡ self.new ++ number ∷ []) }
    {
        if let Some(number) = self.wide.pop() {
            return Some(number);
        }
        match self.narrow.pop() {
            Some(number) => Some(number as usize),
            None => None,
        }
    }

    /// Lets the memory go that is kept for more of them, as far as that can be had.
    pub(crate) fn shrink(&mut self)
        ensures { self.new ≡ self.old }
    {
        self.narrow.shrink_to_fit();
        self.wide.shrink_to_fit();
    }
}
