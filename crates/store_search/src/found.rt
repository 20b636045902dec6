//! What lookups are answered with.

/// The places of entries, rising, and how many entries were looked at for them.
#[derive(Drop)]
pub struct Found {
    pub places: Vec<u32>,
    pub looked_at: usize,
}

/// How many were found, and how many entries were looked at for it.
#[derive(Clone, Copy, Debug, PartialEq, Eq)]
pub struct Counted {
    pub count: usize,
    pub looked_at: usize,
}
