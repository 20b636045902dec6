// A desk in memory that fails at one of its calls, for runs of what stands over a desk.
ghost use Rattle.std.specs.Prelude.{◌≡◌, ◌↔◌, true, false, ◌||◌, IfErr, OnOk, OnErr, Err};
ghost use Rattle.dict_desk.specs.Faults.{IsOfLookup, has_closed_by, has_failed_by};
ghost use Rattle.dict_desk.specs.declared.fault.Fault.TheVariants as faults;

use dict_catalogue::{Command, Kept, Summary};
use dict_desk::{Answered, End, Fault, Keeper, Lookup, PlainDesk, Preparer, RowSink, What};
use dict_match::{Key, Strategy};

/// A desk in memory that fails at one call: for memory, and goes on, or as a store does, and is closed. Contracts say
/// nothing of what it shows; it is there to be run.
#[derive(Drop)]
pub struct FailingDesk {
    desk: PlainDesk,
    // How many calls come before the one that fails.
    left: u64,
    by_disk: bool,
    is_closed: bool,
    has_failed: bool,
}

// Whether a call answered a failure.
fn failed_by<T>(answer: &Result<T, Fault>) -> bool
    ensures { result ≡ has_failed_by answer.now }
{
    match answer {
        Ok(_) => false,
        Err(fault) => fault.is_failure(),
    }
}

impl FailingDesk {
    /// This desk, which answers so many calls by `&mut self` before one fails: by a fault of the disk, after which it is
    /// closed, or for memory, after which it goes on.
    pub fn new(desk: PlainDesk, left: u64, by_disk: bool) -> Self
        ensures open { ⟦<FailingDesk as Lookup>⟧.is_closed result ≡ false }
        ensures fails_not { ⟦<FailingDesk as Lookup>⟧.has_failed result ≡ false }
    {
        FailingDesk {
            desk,
            left,
            by_disk,
            is_closed: false,
            has_failed: false,
        }
    }

    // One more call: it may go on, or it fails.
    fn turn(&mut self) -> Result<(), Fault>
        ensures kinds { IfErr result IsOfLookup }
        ensures failed { OnErr result ((self.new.has_failed || self.new.is_closed) ≡ true) }
        ensures closes { self.new.is_closed ≡ (self.old.is_closed || has_closed_by result) }
        ensures closed { (result ≡ Err faults.Closed) ↔ (self.old.is_closed ≡ true) }
        ensures goes_on { OnOk result (self.new.is_closed ≡ false) }
        ensures same { OnOk result (self.new.has_failed ≡ self.old.has_failed) }
        ensures by_disk { IfErr result (λ fault. fault ≡ faults.Disk → (self.old.by_disk ≡ true) × (self.old.left ≡ 0)) }
    {
        if self.is_closed {
            return Err(Fault::Closed);
        }
        if self.left > 0 {
            self.left -= 1;
            return Ok(());
        }
        self.left = u64::MAX;
        self.has_failed = true;
        if self.by_disk {
            self.is_closed = true;
            return Err(Fault::Disk);
        }
        Err(Fault::Memory)
    }
}

impl Lookup for FailingDesk {
    ghost use Rattle.std.specs.Prelude.{◌≡◌, ◌||◌, true, false};
    ghost use Rattle.std.proofs.lemmas.Bool.{true≢false};
    ghost use Rattle.dict_desk.specs.declared.fault.Fault.TheVariants as faults;

    ghost shows = { λ _ _. ⊥ };

    ghost leaves_one_of = { λ _ _. ⊥ };

    ghost Beside = { ⊥ };

    ghost keeps_beside = { λ _ _. ⊥ };

    ghost is_trusted = { λ _. Unit {0} };

    ghost looks_at = { λ _ _ _. Unit {0} };

    ghost is_closed = { λ s. s.is_closed };

    ghost has_failed = { λ s. s.has_failed || s.is_closed };

    ghost gives_way = { λ old _ fault. fault ≡ faults.Disk → (old.by_disk ≡ true) × (old.left ≡ 0) };

    fn summary(&self) -> Result<&Summary, Fault> {
        if self.is_closed {
            return Err(Fault::Closed);
        }
        self.desk.summary()
    }

    fn info<T: RowSink>(&mut self, number: u64, sink: &mut T) -> Result<End, Fault> {
        self.turn()?;
        let answer = self.desk.info(number, sink);
        self.has_failed = failed_by(&answer);
        answer
    }

    fn count(
        &mut self,
        number: u64,
        strategy: Strategy,
        query: &Key,
        what: What,
    ) -> Result<u64, Fault> {
        self.turn()?;
        let answer = self.desk.count(number, strategy, query, what);
        self.has_failed = failed_by(&answer);
        answer
    }

    fn find<T: RowSink>(
        &mut self,
        number: u64,
        strategy: Strategy,
        query: &Key,
        what: What,
        sink: &mut T,
    ) -> Result<End, Fault> {
        self.turn()?;
        let answer = self.desk.find(number, strategy, query, what, sink);
        self.has_failed = failed_by(&answer);
        answer
    }

    ghost well_formed = { λ s M h. absurd h };

    ghost wider = { λ s ms ns h left. absurd left };

    ghost still_open = { λ s. elim s.has_failed as (λ failed. (failed || s.is_closed) ≡ false → s.is_closed ≡ false) [ true ↦ λ h. absurd (true≢false h) | false ↦ λ h. h ] };
}

impl Keeper for FailingDesk {
    ghost use Rattle.std.specs.Prelude.{◌≡◌, true};
    ghost use Rattle.dict_desk.specs.declared.fault.Fault.TheVariants as faults;

    ghost fails_to_apply = { λ old _ _ fault. fault ≡ faults.Disk → (old.by_disk ≡ true) × (old.left ≡ 0) };

    fn kept(&mut self, id: &str) -> Result<Option<Kept>, Fault> {
        self.turn()?;
        let answer = self.desk.kept(id);
        self.has_failed = failed_by(&answer);
        answer
    }

    fn apply(&mut self, id: &str, command: &Command) -> Result<Kept, Fault> {
        self.turn()?;
        let answer = self.desk.apply(id, command);
        self.has_failed = failed_by(&answer);
        answer
    }
}

// It prepares nothing, and is asked for it by a call that may fail.
impl Preparer for FailingDesk {
    ghost use Rattle.std.specs.Prelude.{◌≡◌, true};
    ghost use Rattle.dict_desk.specs.declared.fault.Fault.TheVariants as faults;

    ghost expects = { λ _ _ _. Unit {0} };

    ghost prepares = { λ _ _ _. Unit {0} };

    ghost fails_to_prepare = { λ old _ fault. fault ≡ faults.Disk → (old.by_disk ≡ true) × (old.left ≡ 0) };

    fn expect(&mut self, _command: &Command) -> Result<(), Fault> {
        self.turn()
    }

    fn expect_install(&mut self, _name: &str, _index: &[u8], _text: &[u8]) -> Result<(), Fault> {
        self.turn()
    }

    fn prepare(&mut self) -> Result<bool, Fault> {
        match self.turn() {
            Ok(()) => Ok(false),
            Err(fault) => Err(fault),
        }
    }

    fn answer_prepared(
        &mut self,
        _id: &str,
        _name: &str,
        _index: &[u8],
        _text: &[u8],
    ) -> Result<Option<Answered>, Fault> {
        match self.turn() {
            Ok(()) => Ok(None),
            Err(fault) => Err(fault),
        }
    }

    fn forget(&mut self) -> Result<(), Fault> {
        self.turn()
    }
}
