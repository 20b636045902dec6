//! Where the texts of entries stand.
ghost use Rattle.std.specs.Prelude.{◌≡◌, [], ◌∷◌, ◌++◌, length, OnOk, OnErr, slice_index_or};
ghost use Rattle.store_derived.specs.Spans.{no_span, widened};

use crate::numbers::WIDEST;
use std::alloc::{AllocError, Global};
use std::marker::Model;

/// Where the text of an entry begins in that of its edition, and how long it is, in octets.
#[derive(Clone, Copy, Debug, PartialEq, Eq)]
pub struct Span {
    pub start: usize,
    pub size: usize,
}

/// The same in 32 bits each.
#[derive(Clone, Copy, Debug, PartialEq, Eq)]
pub(crate) struct NarrowSpan {
    pub start: u32,
    pub size: u32,
}

impl NarrowSpan {
    fn widened(self) -> Span
        ensures { result ≡ widened self }
    {
        Span {
            start: self.start as usize,
            size: self.size as usize,
        }
    }
}

/// Spans, each of which is found by its place, counted from 0. Those before the first one that 32 bits do not hold take 32
/// bits for each of their numbers. Contracts see them as the list of them.
#[derive(Drop)]
pub struct Spans {
    narrow: Vec<NarrowSpan>,
    /// The rest: from the first one that 32 bits do not hold.
    wide: Vec<Span>,
}

impl Model for Spans {
    ghost use Rattle.std.specs.Prelude.{List};
    ghost use Rattle.store_derived.specs.declared.spans.Span.{Span};
    ghost use Rattle.store_derived.specs.Spans.{spans};

    ghost Value = { List Span };

    ghost view = { λ kept. spans kept.narrow.items kept.wide.items };
}

impl Spans {
    /// No span. No memory is taken.
    pub fn new(alloc: Global) -> Spans
        ensures { result ≡ [] }
    {
        Spans {
            narrow: Vec::new(alloc),
            wide: Vec::new(alloc),
        }
    }

    /// How many spans there are.
    pub fn len(&self) -> usize
        ensures { result ≡ length self.now }
    {
        self.narrow.len() + self.wide.len()
    }

    /// The span at a place; an empty one where there is none.
    pub fn get(&self, at: usize) -> Span
        ensures { result ≡ slice_index_or self.now at no_span }
    {
        let count = self.narrow.len();
        if at < count {
            return self.narrow[at].widened();
        }
        match self.wide.get(at - count) {
            Some(span) => *span,
            None => Span { start: 0, size: 0 },
        }
    }

    /// Puts a span behind the others. The only error is refused memory; then they are as they were.
    pub fn push(&mut self, span: Span) -> Result<(), AllocError>
        ensures pushed { OnOk result (self.new ≡ self.old ++ span ∷ []) }
        ensures refused { OnErr result (self.new ≡ self.old) }
    {
        if self.wide.is_empty() && span.start <= WIDEST && span.size <= WIDEST {
            self.narrow.push(NarrowSpan {
                start: span.start as u32,
                size: span.size as u32,
            })?;
        } else {
            self.wide.push(span)?;
        }
        Ok(())
    }

    /// Lets the memory go that is kept for more of them, as far as that can be had.
    pub fn shrink(&mut self)
        ensures { self.new ≡ self.old }
    {
        self.narrow.shrink_to_fit();
        self.wide.shrink_to_fit();
    }
}
