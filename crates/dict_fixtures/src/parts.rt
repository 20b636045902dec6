// A desk that prepares.
ghost use Rattle.std.specs.Prelude.{◌≡◌, ◌≢◌, IfErr, Err, false};
ghost use Rattle.dict_desk.specs.Faults.{IsOfCommand, has_closed_by, has_failed_by};
ghost use Rattle.dict_desk.specs.declared.fault.Fault.TheVariants as faults;

use dict_catalogue::{Command, Kept, Summary};
use dict_desk::{Answered, End, Fault, Keeper, Lookup, PlainDesk, Preparer, RowSink, What};
use dict_index::{Edition, IndexFault, read_edition};
use dict_match::{Key, Strategy};
use std::alloc::{AllocError, Global};

/// A request for an install, without the last 65,536 octets of its text.
pub const HEAD: &[u8] =
    b"PUT /databases/gem HTTP/1.1\r\nRequest-Id: r1\r\nContent-Length: 65637\r\n\r\n53\n00-database-short\tA\tZ\nopal\tZ\tP\nFire Opal\tZ\tP\ndot\to\tF\n00-database-short\n  Gems\nopal\n  a stone\n.dot\n";

// An install by its name and its files.
#[derive(Drop)]
struct Files {
    name: String,
    index: Vec<u8>,
    text: Vec<u8>,
}

impl Files {
    fn new(alloc: Global, name: &str, index: &[u8], text: &[u8]) -> Result<Files, AllocError> {
        Ok(Files {
            name: String::from_str(alloc, name)?,
            index: Vec::from_slice(alloc, index)?,
            text: Vec::from_slice(alloc, text)?,
        })
    }

    fn are(&self, name: &str, index: &[u8], text: &[u8]) -> bool {
        self.name.as_str() == name && self.index.as_slice() == index && self.text.as_slice() == text
    }
}

/// A desk in memory that prepares each install by so many parts, in which nothing is done, and notes which it was told of. It answers
/// an install whose files it noted, once no part is left, and no other. Contracts say nothing of what it shows; it is there to be run.
#[derive(Drop)]
pub struct PartsDesk {
    alloc: Global,
    desk: PlainDesk,
    // The install that it was told of last, and the same as a text.
    files: Option<Files>,
    noted: String,
    // By how many parts a command is prepared.
    each: u32,
    /// How many parts are left of the command that was noted last.
    pub left: u32,
    /// How many commands were noted.
    pub expected: u32,
    /// How many commands were applied.
    pub applied: u32,
    /// How many of them were what it had prepared.
    pub answered: u32,
    /// How often it let go of what it had prepared.
    pub forgotten: u32,
}

impl PartsDesk {
    /// An empty desk, which prepares each command by so many parts.
    pub fn new(alloc: Global, each: u32) -> Self {
        PartsDesk {
            alloc,
            desk: PlainDesk::new(alloc),
            files: None,
            noted: String::new(alloc),
            each,
            left: 0,
            expected: 0,
            applied: 0,
            answered: 0,
            forgotten: 0,
        }
    }

    /// Of the install that it was told of last, and has not let go of: its name, and how many octets its index and its text have.
    pub fn noted(&self) -> &str {
        self.noted.as_str()
    }

    // Does an install that it had prepared.
    fn install(&mut self, id: &str, name: &str, edition: &Edition) -> Result<Kept, Fault>
        ensures kinds { IfErr result IsOfCommand }
        ensures failed { self.new.desk.has_failed ≡ has_failed_by result }
        ensures closes { has_closed_by result ≡ false }
        ensures closed { result ≢ Err faults.Closed }
    {
        self.answered = self.answered.saturating_add(1);
        self.apply(id, &Command::Install { name, edition })
    }

    // Whether it was told of this install last, and no part is left.
    fn has_prepared(&self, name: &str, index: &[u8], text: &[u8]) -> bool {
        match &self.files {
            Some(files) => self.left == 0 && files.are(name, index, text),
            None => false,
        }
    }
}

fn noted_of(alloc: Global, name: &str, index: &[u8], text: &[u8]) -> Result<String, AllocError> {
    let index = index.len();
    let text = text.len();
    Ok(format!(in alloc; "{name} {index} {text}")?)
}

impl Lookup for PartsDesk {
    ghost use Rattle.std.specs.Prelude.{◌≡◌, false};
    ghost use Rattle.std.proofs.Common.{refl};

    ghost shows = { λ _ _. ⊥ };

    ghost leaves_one_of = { λ _ _. ⊥ };

    ghost Beside = { ⊥ };

    ghost keeps_beside = { λ _ _. ⊥ };

    ghost is_trusted = { λ _. Unit {0} };

    ghost looks_at = { λ _ _ _. Unit {0} };

    ghost is_closed = { λ _. false };

    ghost has_failed = { λ s. s.desk.has_failed };

    ghost gives_way = { λ _ _ _. Unit {0} };

    fn summary(&self) -> Result<&Summary, Fault> {
        self.desk.summary()
    }

    fn info<T: RowSink>(&mut self, number: u64, sink: &mut T) -> Result<End, Fault> {
        self.desk.info(number, sink)
    }

    fn count(
        &mut self,
        number: u64,
        strategy: Strategy,
        query: &Key,
        what: What,
    ) -> Result<u64, Fault> {
        self.desk.count(number, strategy, query, what)
    }

    fn find<T: RowSink>(
        &mut self,
        number: u64,
        strategy: Strategy,
        query: &Key,
        what: What,
        sink: &mut T,
    ) -> Result<End, Fault> {
        self.desk.find(number, strategy, query, what, sink)
    }

    ghost well_formed = { λ s M h. absurd h };

    ghost wider = { λ s ms ns h left. absurd left };

    ghost still_open = { λ s h. refl };
}

impl Keeper for PartsDesk {
    ghost fails_to_apply = { λ _ _ _ _. Unit {0} };

    fn kept(&mut self, id: &str) -> Result<Option<Kept>, Fault> {
        self.desk.kept(id)
    }

    fn apply(&mut self, id: &str, command: &Command) -> Result<Kept, Fault> {
        self.applied = self.applied.saturating_add(1);
        self.desk.apply(id, command)
    }
}

impl Preparer for PartsDesk {
    ghost use Rattle.std.specs.Prelude.{◌⊎◌, ◌+◌, true, false, Ok};

    ghost expects = { λ old _ new. new.left ≡ old.each };

    ghost prepares = { λ old result new. ((result ≡ Ok false) × (old.left ≡ 0)) ⊎ ((result ≡ Ok true) × (new.left + 1 ≡ old.left)) };

    ghost fails_to_prepare = { λ _ _ _. Unit {0} };

    fn expect(&mut self, command: &Command) -> Result<(), Fault> {
        self.files = None;
        self.noted = String::new(self.alloc);
        self.left = self.each;
        self.desk.expect(command)
    }

    fn expect_install(&mut self, name: &str, index: &[u8], text: &[u8]) -> Result<(), Fault> {
        if let Ok(noted) = noted_of(self.alloc, name, index, text) {
            self.noted = noted;
        }
        self.files = Files::new(self.alloc, name, index, text).ok();
        self.expected = self.expected.saturating_add(1);
        self.left = self.each;
        self.desk.expect_install(name, index, text)
    }

    fn prepare(&mut self) -> Result<bool, Fault> {
        if self.left == 0 {
            return self.desk.prepare();
        }
        self.left -= 1;
        Ok(true)
    }

    fn answer_prepared(
        &mut self,
        id: &str,
        name: &str,
        index: &[u8],
        text: &[u8],
    ) -> Result<Option<Answered>, Fault> {
        if !self.has_prepared(name, index, text) {
            return Ok(None);
        }
        match read_edition(self.alloc, index, text) {
            Ok(edition) => Ok(Some(Answered::Done(self.install(id, name, &edition)))),
            Err(IndexFault::Refused { refusal, line }) => {
                Ok(Some(Answered::Refused { refusal, line }))
            }
            Err(IndexFault::Memory) => Ok(None),
        }
    }

    fn forget(&mut self) -> Result<(), Fault> {
        self.files = None;
        self.noted = String::new(self.alloc);
        self.forgotten = self.forgotten.saturating_add(1);
        self.left = 0;
        self.desk.forget()
    }
}
