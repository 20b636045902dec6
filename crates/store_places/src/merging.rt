//! Lists that are sorted in slices: runs are sorted, and then merged two by two.
ghost use Rattle.std.specs.Prelude.{◌≡◌, ◌≤◌, ◌<◌, ◌-◌, ◌++◌, length, take, drop, IfOk, OnOk, IsPermutation};
ghost use Rattle.store_places.specs.Merging.{elements, AreWithin};

use std::alloc::{AllocError, Global};
use std::cmp::Ordering;
use std::mem;

/// So many elements are sorted at once, before runs of them are merged.
const RUN: usize = 16_384;

/// So many elements of runs are merged in a slice.
const SLICE: usize = 65_536;

/// What tells the order of two elements. No proof rests on it.
pub trait Compares<T> {
    /// How the one compares with the other.
    fn compare(&self, one: &T, other: &T) -> Ordering;
}

/// A list that is being sorted: its elements, in some order.
#[derive(Drop)]
pub struct Merging<T> {
    pub alloc: Global,
    /// The elements, in runs of which each is sorted.
    pub items: Vec<T>,
    /// Those of them that are merged into longer runs.
    pub merged: Vec<T>,
    /// How long the runs are; 0 where nothing is sorted yet.
    pub width: usize,
    /// What is left of the run that is merged, and of the one behind it.
    pub left: usize,
    pub left_end: usize,
    pub right: usize,
    pub right_end: usize,
}

/// Puts the elements between two places behind the others, if there are some.
fn put_part<T: Copy>(
    merged: &mut Vec<T>,
    items: &[T],
    from: usize,
    to: usize,
) -> Result<(), AllocError>
    requires { to ≤ length items.now }
    ensures { OnOk result (merged.new.items ≡ merged.old.items ++ take (to - from) (drop from items.now)) }
{
    if from >= to {
        return Ok(());
    }
    merged.extend_from_slice(&items[from..to])
}

impl<T: Copy> Merging<T> {
    /// Nothing is sorted yet. The only error is refused memory.
    pub fn of(alloc: Global, items: Vec<T>) -> Result<Merging<T>, AllocError>
        ensures same { IfOk result (λ m. elements m ≡ items.items) }
        ensures within { IfOk result AreWithin }
    {
        let merged = Vec::with_capacity(alloc, items.len())?;
        Ok(Merging {
            alloc,
            items,
            merged,
            width: 0,
            left: 0,
            left_end: 0,
            right: 0,
            right_end: 0,
        })
    }

    /// Sorts the next run, or merges the next slice. Whether there is more to sort. The only error is refused memory.
    pub fn step<C: Compares<T>>(&mut self, order: &C) -> Result<bool, AllocError>
        requires { AreWithin self.old }
        ensures same { IsPermutation (elements self.old) (elements self.new) }
        ensures within { AreWithin self.new }
    {
        if self.width == 0 {
            return self.put_next(order);
        }
        for count in 0..SLICE {
            if !self.put_next(order)? {
                return Ok(false);
            }
        }
        Ok(true)
    }

    /// The elements, in the order that they have now. The only error is refused memory.
    pub fn end(self) -> Result<Vec<T>, AllocError>
        requires { AreWithin self }
        ensures { IfOk result (λ items. items.items ≡ elements self) }
    {
        let Merging {
            items,
            mut merged,
            left,
            left_end,
            right,
            ..
        } = self;
        put_part(&mut merged, items.as_slice(), left, left_end)?;
        put_part(&mut merged, items.as_slice(), right, items.len())?;
        Ok(merged)
    }

    /// Puts the next element of two runs, or begins the next ones.
    fn put_next<C: Compares<T>>(&mut self, order: &C) -> Result<bool, AllocError>
        requires { AreWithin self.old }
        ensures same { IsPermutation (elements self.old) (elements self.new) }
        ensures within { AreWithin self.new }
    {
        if self.left >= self.left_end {
            return self.put_rest(order);
        }
        if self.right < self.right_end {
            let first = order.compare(&self.items[self.left], &self.items[self.right]);
            if first == Ordering::Greater {
                return self.put_right();
            }
        }
        self.put_left()
    }

    /// Puts the next element of the one run.
    fn put_left(&mut self) -> Result<bool, AllocError>
        requires within { AreWithin self.old }
        requires some { self.old.left < self.old.left_end }
        ensures same { IsPermutation (elements self.old) (elements self.new) }
        ensures within { AreWithin self.new }
    {
        let next = self.items[self.left];
        self.merged.push(next)?;
        self.left += 1;
        Ok(true)
    }

    /// Puts the next element of the other run.
    fn put_right(&mut self) -> Result<bool, AllocError>
        requires within { AreWithin self.old }
        requires some { self.old.right < self.old.right_end }
        ensures same { IsPermutation (elements self.old) (elements self.new) }
        ensures within { AreWithin self.new }
    {
        let next = self.items[self.right];
        self.merged.push(next)?;
        self.right += 1;
        Ok(true)
    }

    /// Puts what is left of the other run where nothing is left of the one; or begins the next ones.
    fn put_rest<C: Compares<T>>(&mut self, order: &C) -> Result<bool, AllocError>
        requires within { AreWithin self.old }
        requires none { self.old.left_end ≤ self.old.left }
        ensures same { IsPermutation (elements self.old) (elements self.new) }
        ensures within { AreWithin self.new }
    {
        if self.right < self.right_end {
            return self.put_right();
        }
        if self.right >= self.items.len() {
            return Ok(self.begin_again());
        }
        if self.width == 0 {
            return self.put_run(order);
        }
        self.begin_pair();
        Ok(true)
    }

    /// Sorts the next elements into a run.
    fn put_run<C: Compares<T>>(&mut self, order: &C) -> Result<bool, AllocError>
        requires within { AreWithin self.old }
        requires none { self.old.left_end ≤ self.old.left }
        requires some { self.old.right < length self.old.items.items }
        ensures same { IsPermutation (elements self.old) (elements self.new) }
        ensures within { AreWithin self.new }
    {
        let to = self.items.len().min(self.right.saturating_add(RUN));
        let mut run = Vec::from_slice(self.alloc, &self.items[self.right..to])?;
        run.sort_unstable_by(|one, other| order.compare(one, other));
        self.merged.extend_from_slice(run.as_slice())?;
        self.right = to;
        Ok(true)
    }

    /// The next two runs are merged.
    fn begin_pair(&mut self)
        requires within { AreWithin self.old }
        requires none { self.old.left_end ≤ self.old.left }
        requires some { self.old.right < length self.old.items.items }
        ensures same { elements self.new ≡ elements self.old }
        ensures within { AreWithin self.new }
    {
        let count = self.items.len();
        let middle = count.min(self.right.saturating_add(self.width));
        self.left = self.right;
        self.left_end = middle;
        self.right = middle;
        self.right_end = count.min(middle.saturating_add(self.width));
    }

    /// The runs that were merged are the next ones to be merged, where there are several. Whether there are.
    fn begin_again(&mut self) -> bool
        requires within { AreWithin self.old }
        requires none { self.old.left_end ≤ self.old.left }
        requires all { length self.old.items.items ≤ self.old.right }
        ensures same { elements self.new ≡ elements self.old }
        ensures within { AreWithin self.new }
    {
        let width = if self.width == 0 {
            RUN
        } else {
            self.width.saturating_mul(2)
        };
        if width >= self.merged.len() {
            return false;
        }
        mem::swap(&mut self.items, &mut self.merged);
        self.merged.clear();
        self.width = width;
        self.left = 0;
        self.left_end = 0;
        self.right = 0;
        self.right_end = 0;
        true
    }
}
