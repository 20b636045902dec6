// The numbers under which there may be parts of no edition.
ghost use Rattle.std.specs.Prelude.{◌<◌, IfSome};
ghost use Rattle.store_commands.specs.Left.{IsLess};
ghost use Rattle.store_desk.specs.Left.{orphans_left};

use std::marker::Model;

// The parts of a number go by so many slices at most: 32 of a text, and 8 of an index. What may be left behind them the next opening finds.
const SLICES: u32 = 40;

/// Numbers under which there may be parts of no edition. They are done with one by one, the last one first. No answer rests on them.
pub(crate) struct Orphans {
    numbers: Vec<u64>,
    // By so many slices more the parts of the last one are taken out at most.
    slices: u32,
}

// It is written out, so that what owns one doesn't prove again how each part is dropped.
impl Drop for Orphans {
    fn drop(self) {
        let Orphans {
            numbers: _,
            slices: _,
        } = self;
    }
}

impl Model for Orphans {
    ghost use Rattle.std.specs.Prelude.{vec_len};
    ghost use Rattle.store_desk.specs.Left.{OrphansState};

    ghost Value = { OrphansState };

    ghost view = { λ orphans. record { numbers = vec_len orphans.numbers; slices = orphans.slices } };
}

impl Orphans {
    /// These.
    pub(crate) fn of(numbers: Vec<u64>) -> Orphans {
        Orphans {
            numbers,
            slices: SLICES,
        }
    }

    /// Whether there are none.
    pub(crate) fn is_empty(&self) -> bool {
        self.numbers.is_empty()
    }

    /// The one whose parts are taken out next.
    pub(crate) fn last(&self) -> Option<u64>
        ensures { IfSome result (λ _. 0 < self.now.numbers) }
    {
        match self.numbers.last() {
            Some(last) => Some(*last),
            None => None,
        }
    }

    /// Notes one more. Where memory is refused for it, it is left out, for the next opening to find.
    pub(crate) fn note(&mut self, number: u64) {
        if !self.numbers.contains(&number) && self.numbers.push(number).is_ok() {
            self.slices = SLICES;
        }
    }

    /// None of these is noted any more.
    pub(crate) fn forget(&mut self, numbers: &[u64]) {
        self.numbers.retain(|number| !numbers.contains(number));
        self.slices = SLICES;
    }

    /// A slice of the last one's parts was taken out, or it can't be. It is done with where there is no more of it, or were as many slices as a
    /// text has.
    pub(crate) fn pass(&mut self, more: bool)
        requires { 0 < self.old.numbers }
        ensures { IsLess (orphans_left self.new) (orphans_left self.old) }
    {
        if more && self.slices > 0 {
            self.slices -= 1;
            return;
        }
        self.numbers.pop();
        self.slices = SLICES;
    }
}
