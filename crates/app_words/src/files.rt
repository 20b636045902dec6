// Files as a whole.
ghost use Rattle.std.specs.Prelude.{◌≡◌, ℕ, List, Option, None, IfOk, MatchResult, ⊤};
ghost use Rattle.app_words.specs.Files.{IsReadFrom, IsReadFaultTold, AreUnreadFiles, IsUnreadable};
ghost use Rattle.app_words.specs.declared.files.ReadFault.{ReadFault as Fault};

use crate::fault::ProgramFault;
use std::fs;
use std::io::ErrorKind;
use std::rt::Files;

/// Why a file was not read.
#[derive(Clone, Copy, Debug, PartialEq, Eq)]
pub enum ReadFault {
    /// It isn't there, or can't be read.
    Unreadable,
    /// A growth was refused.
    Memory,
}

/// What gives the octets of files, by their paths.
pub trait InputFiles {
    /// The octets of the file with a path, where they are known.
    ghost octets: { Self → List ℕ → Option (List ℕ) };

    /// The file with a path is read.
    ghost reads: { Self → List ℕ → Type 0 };

    /// The file with a path isn't read, by this fault.
    ghost refuses: { Self → List ℕ → Fault → Type 0 };

    /// Reads the file with this path whole. One whose octets are known can be read.
    fn read(&self, path: &str) -> Result<Vec<u8>, ReadFault>
        ensures ok { IfOk result (λ read. IsReadFrom (octets self.now path.now) read.items) }
        ensures unreadable { IsUnreadable result → octets self.now path.now ≡ None }
        ensures found { MatchResult result (λ _. reads self.now path.now) (refuses self.now path.now) };
}

/// The files of the machine. Nothing is known of their octets, nor of which can be read.
#[derive(Drop)]
pub struct OverFiles<'r, R> {
    rt: &'r R,
}

impl<'r, R: Files + AllocGlobal> OverFiles<'r, R> {
    pub fn new(rt: &'r R) -> Self {
        OverFiles { rt }
    }
}

impl<R: Files + AllocGlobal> InputFiles for OverFiles<'_, R> {
    ghost octets = { λ _ _. None };

    ghost reads = { λ _ _. ⊤ };

    ghost refuses = { λ _ _ _. ⊤ };

    fn read(&self, path: &str) -> Result<Vec<u8>, ReadFault> {
        match fs::read(self.rt, path) {
            Ok(octets) => Ok(octets),
            Err(fault) if fault.kind() == ErrorKind::OutOfMemory => Err(ReadFault::Memory),
            Err(_) => Err(ReadFault::Unreadable),
        }
    }
}

/// The octets of the file with this path.
pub fn read_file<'w, I: InputFiles>(files: &I, path: &'w str) -> Result<Vec<u8>, ProgramFault<'w>>
    ensures value { MatchResult result (λ read. IsReadFrom (I.octets files.now path.entry.now) read.items)
        (λ _. AreUnreadFiles (I.octets files.now) path.entry.now path.entry.now result) }
    ensures found { MatchResult result (λ _. I.reads files.now path.entry.now) (IsReadFaultTold (I.refuses files.now path.entry.now)) }
{
    match files.read(path) {
        Ok(octets) => Ok(octets),
        Err(ReadFault::Unreadable) => Err(ProgramFault::CannotRead(path)),
        Err(ReadFault::Memory) => Err(ProgramFault::Memory),
    }
}
