// Octets that only clauses read.
ghost use Rattle.std.specs.Prelude.{◌≡◌, ℕ, List, [], ◌++◌};
ghost use Rattle.std.specs.Borrow.{ftrue};

use std::marker::{Model, PhantomData};

/// A list of octets that takes no memory.
#[derive(Drop)]
pub struct Trail {
    marker: PhantomData<u8>,
    pub ghost octets: { List ℕ },
}

impl Model for Trail {
    ghost also_owns = { λ _. ftrue };
}

impl Trail {
    /// No octet.
    pub fn new() -> Trail
        ensures { result.octets ≡ [] }
    {
        Trail {
            marker: PhantomData,
        }
    }

    /// These octets come behind.
    pub fn note(&mut self, _octets: &[u8])
        ensures { self.new.octets ≡ self.old.octets ++ _octets.now }
    {}
}
