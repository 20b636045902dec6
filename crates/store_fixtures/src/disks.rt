// A disk in memory that fails at one of its calls, or from it on, for runs of what stands over two of them.
ghost use Rattle.std.specs.Prelude.{◌≡◌, ◌+◌, ◌&&◌, ◌↔◌, [], false, not, if◌then◌else◌, IsErr, IsTrue, IfOk, OnOk};
ghost use Rattle.sqlite_disk.specs.Disk.{CountsFault, Only};
ghost use Rattle.sqlite_disk.specs.Fuse.{calls_left};
ghost use Rattle.sqlite_disk.specs.Refusal.{finds_no_room};

use sqlite_disk::{Crash, Disk, Fuse, Memory, Tally};
use std::alloc::Global;
use std::io;

/// A disk that fails one call, and goes on. It counts its calls.
#[derive(Drop)]
pub struct FailsOnce<D: Disk> {
    /// The disk below.
    pub inner: D,
    fails_at: u64,
    /// How many calls there were, the one that failed counted.
    pub calls: u64,
    refused: u64,
    sync_refused: bool,
}

impl<D: Disk> FailsOnce<D> {
    /// The disk fails at this call, counted from 0.
    pub fn new(inner: D, fails_at: u64) -> FailsOnce<D>
        ensures inner { result.inner ≡ inner }
        ensures fresh { (result.refused ≡ 0) × (result.sync_refused ≡ false) }
        ensures call { (result.fails_at ≡ fails_at) × (result.calls ≡ 0) }
    {
        FailsOnce {
            inner,
            fails_at,
            calls: 0,
            refused: 0,
            sync_refused: false,
        }
    }
}

// One more call: it may go on, or it is the one that fails.
fn count(fails_at: u64, calls: &mut u64, refused: &mut u64) -> io::Result<()>
    ensures faults { CountsFault result refused.old refused.new }
    ensures kind { finds_no_room result ≡ false }
    ensures fails { IsErr result ↔ (calls.old ≡ fails_at) }
{
    let call = *calls;
    *calls = call.saturating_add(1);
    if call == fails_at {
        *refused = refused.saturating_add(1);
        return Err(io::Error::other("one call fails"));
    }
    Ok(())
}

impl<D: Disk> Disk for FailsOnce<D> {
    ghost seen = { λ f. D.Disk.seen f.inner };

    ghost may_leave = { λ f. D.Disk.may_leave f.inner };

    ghost is_usable = { λ f. D.Disk.is_usable f.inner && not f.sync_refused };

    ghost faults = { λ f. D.Disk.faults f.inner + f.refused };

    ghost tally_of = { λ f. D.Disk.tally_of f.inner };

    ghost key_of = { λ f. D.Disk.key_of f.inner };

    ghost is_clean = { λ f. D.Disk.is_clean f.inner };

    ghost is_fair = { λ f. D.Disk.is_fair f.inner };

    ghost fair_if_clean = { λ f. D.Disk.fair_if_clean f.inner };

    ghost seen_may_stay = { λ f. D.Disk.seen_may_stay f.inner };

    ghost is_mixing = { λ f. D.Disk.is_mixing f.inner };

    ghost is_rotten = { λ f. D.Disk.is_rotten f.inner };

    fn mixes(&self) -> bool {
        self.inner.mixes()
    }

    fn key(&self) -> u64 {
        self.inner.key()
    }

    fn tally(&self) -> Tally {
        self.inner.tally()
    }

    fn may_be_used(&self) -> bool {
        self.inner.may_be_used() && !self.sync_refused
    }

    fn len(&mut self) -> io::Result<usize> {
        count(self.fails_at, &mut self.calls, &mut self.refused)?;
        self.inner.len()
    }

    fn read_at(&mut self, at: usize, buf: &mut [u8]) -> io::Result<()> {
        count(self.fails_at, &mut self.calls, &mut self.refused)?;
        self.inner.read_at(at, buf)
    }

    fn read_checked(&mut self, key: u64, want: u64, at: usize, buf: &mut [u8]) -> io::Result<()> {
        count(self.fails_at, &mut self.calls, &mut self.refused)?;
        self.inner.read_checked(key, want, at, buf)
    }

    fn write_at(&mut self, at: usize, bytes: &[u8]) -> io::Result<()> {
        count(self.fails_at, &mut self.calls, &mut self.refused)?;
        self.inner.write_at(at, bytes)
    }

    fn set_len(&mut self, len: usize) -> io::Result<()> {
        count(self.fails_at, &mut self.calls, &mut self.refused)?;
        self.inner.set_len(len)
    }

    fn sync(&mut self) -> io::Result<()> {
        if let Err(error) = count(self.fails_at, &mut self.calls, &mut self.refused) {
            self.sync_refused = true;
            return Err(error);
        }
        self.inner.sync()
    }
}

impl<D: Crash> Crash for FailsOnce<D> {
    fn crash(&mut self) {
        self.inner.crash();
        self.fails_at = u64::MAX;
        self.sync_refused = false;
    }
}

/// A disk in memory that fails at one call, or from one on.
pub type Failing = FailsOnce<Fuse<Memory>>;

// Puts these octets on a new disk.
fn fill<D: Disk>(disk: &mut D, octets: &[u8]) -> io::Result<()>
    ensures holds { OnOk result (D.Disk.seen disk.old ≡ [] → D.Disk.seen disk.new ≡ octets.now) }
    ensures left { OnOk result (D.Disk.seen disk.old ≡ [] → Only octets.now (D.Disk.may_leave disk.new)) }
    ensures usable { OnOk result (IsTrue (D.Disk.is_usable disk.new)) }
{
    if !disk.may_be_used() {
        return Err(io::Error::other("a new disk that may not be used"));
    }
    disk.write_at(0, octets)?;
    if !disk.may_be_used() {
        return Err(io::Error::other("a disk that may not be used any more"));
    }
    disk.sync()
}

/// A disk of these octets that fails at this call, or from it on. An error where there is no memory for them.
pub fn failing_disk(alloc: Global, octets: &[u8], call: u64, goes_on: bool) -> io::Result<Failing>
    ensures holds { IfOk result (λ disk. ⟦<FailsOnce<Fuse<Memory>> as Disk>⟧.seen disk ≡ octets.now) }
    ensures left { IfOk result (λ disk. Only octets.now (⟦<FailsOnce<Fuse<Memory>> as Disk>⟧.may_leave disk)) }
    ensures usable { IfOk result (λ disk. IsTrue (⟦<FailsOnce<Fuse<Memory>> as Disk>⟧.is_usable disk)) }
    ensures fails { IfOk result (λ disk. (disk.fails_at ≡ (if goes_on then call else u64.MAX)) × (calls_left disk.inner ≡ (if goes_on then u64.MAX else call))) }
{
    let mut file = Memory::new(alloc);
    fill(&mut file, octets)?;
    Ok(if goes_on {
        FailsOnce::new(Fuse::new(file, u64::MAX), call)
    } else {
        FailsOnce::new(Fuse::new(file, call), u64::MAX)
    })
}
