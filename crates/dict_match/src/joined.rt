// Words joined by one space, from characters that come one after another.
ghost use Rattle.std.specs.Prelude.{List, [], ◌∷◌, ◌++◌, ℕ, IfOk, OnOk};
ghost use Rattle.std.specs.String.{string_bytes};
ghost use Rattle.dict_match.specs.Joined.{AreJoinedSoFar};

use dict_text::is_blank;
use std::alloc::{AllocError, Global};

/// What has been written of the words of the characters that have come.
#[derive(Drop)]
pub(crate) struct Joined {
    pub(crate) written: String,
    between_words: bool,
}

impl Joined {
    /// Nothing has come. There is room for so many bytes.
    pub(crate) fn with_capacity(alloc: Global, bytes: usize) -> Result<Joined, AllocError>
        ensures { IfOk result (λ joined. AreJoinedSoFar [] (string_bytes joined.written) joined.between_words) }
    {
        Ok(Joined {
            written: String::with_capacity(alloc, bytes)?,
            between_words: true,
        })
    }

    /// Takes one more character.
    #[inline]
    pub(crate) fn push(&mut self, c: char) -> Result<(), AllocError>
        ensures { OnOk result ((cs : List ℕ) → AreJoinedSoFar cs (string_bytes self.old.written) self.old.between_words → AreJoinedSoFar (cs ++ c ∷ []) (string_bytes self.new.written) self.new.between_words) }
    {
        if is_blank(c) {
            self.between_words = true;
            return Ok(());
        }
        if self.between_words && !self.written.is_empty() {
            self.written.push(' ')?;
        }
        self.written.push(c)?;
        self.between_words = false;
        Ok(())
    }
}
