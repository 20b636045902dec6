// An install that may come, read before the command comes.
ghost use Rattle.std.specs.Prelude.{◌≡◌, ◌-◌, ◌+◌, ◌≤◌, ◌≢◌, false, true, None, IfOk, IsTrue, IfSome, OnOk};
ghost use Rattle.dict_index.specs.Meaning.{IsFault};
ghost use Rattle.dict_reading.specs.Slices.{IsSlice};
ghost use Rattle.store_commands.specs.Drafts.{IsDraftOf};
ghost use Rattle.store_commands.specs.Left.{IsLess, draft_left};

use crate::install::InstallFiles;
use dict_index::EditionRefusal;
use std::alloc::{AllocError, Global};
use std::marker::Model;

/// An install that may come: its name, and its index and its text as they came. They are read in slices, and then the lines of the
/// edition's entries are written in slices, as they are stored.
#[derive(Drop)]
pub struct Draft {
    pub(crate) files: InstallFiles,
}

impl Model for Draft {
    ghost use Rattle.store_commands.specs.Drafts.{DraftState};

    ghost Value = { DraftState };

    ghost use Rattle.store_commands.specs.Installs.{AreKnown, state_of};

    ghost view = { λ draft. state_of draft.files };

    ghost invariant = { λ draft. AreKnown draft.files };
}

impl Draft {
    /// A draft of an install by its name, its index and its text. Both files are copied, and their tests as a whole are made; no line is
    /// read. The only error is want of memory.
    pub fn begin(alloc: Global, name: &str, index: &[u8], text: &[u8]) -> Result<Draft, AllocError>
        ensures { IfOk result (IsDraftOf name.now index.now text.now) }
    {
        let files = InstallFiles::begin(alloc, name, index, text)?;
        Ok(Draft { files })
    }

    /// Reads a slice of lines: `dict_reading::SLICE_LINES` at most; or, once all are read, writes those of 4,096 entries at most as they are
    /// stored. Whether there may be more to do, of which less is left than before: there isn't where a test fails, or all is written. The
    /// only error is want of memory.
    pub fn step(&mut self) -> Result<bool, AllocError>
        ensures files { IsDraftOf self.old.name self.old.index self.old.text self.new }
        ensures reads { OnOk result (self.new.is_refused ≡ false → IsSlice self.old.index self.old.lines (self.new.lines - self.old.lines)) }
        ensures writes { OnOk result (self.new.written ≤ self.old.written + 4096) }
        ensures done { IfOk result (λ more. more ≡ false → self.new.is_done ≡ true) }
        ensures fewer { IfOk result (λ more. IsTrue more → IsLess (draft_left self.new) (draft_left self.old)) }
    {
        self.files.step()
    }

    /// Whether it has come to a test that fails.
    pub fn is_refused(&self) -> bool
        ensures { result ≡ self.now.is_refused }
    {
        self.files.is_refused()
    }

    /// The first test that these files don't pass, with its line where it is a test of a line; where they are the draft's own, under
    /// its name, and it has come to that test.
    pub fn refusal(
        &self,
        name: &str,
        index: &[u8],
        text: &[u8],
    ) -> Option<(EditionRefusal, Option<usize>)>
        ensures refused { IfSome result (λ told. IsFault index.now text.now told.0 told.1) }
        ensures some { IsDraftOf name.now index.now text.now self.now → self.now.is_refused ≡ true → result ≢ None }
    {
        self.files.refusal(name, index, text)
    }
}
