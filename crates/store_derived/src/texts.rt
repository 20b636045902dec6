//! Texts, one after another in one piece of memory.
ghost use Rattle.std.specs.Prelude.{◌≡◌, [], ◌∷◌, ◌++◌, ℕ, List, length, OnOk, OnErr, slice_index_or};

use crate::numbers::Numbers;
use std::alloc::{AllocError, Global};
use std::marker::Model;

/// Texts, each of which is found by its place, counted from 0. Contracts see them as the list of them.
#[derive(Drop)]
pub struct Texts {
    octets: Vec<u8>,
    /// Where each of them begins.
    begins: Numbers,
}

impl Model for Texts {
    ghost use Rattle.std.specs.Prelude.{List, ℕ};
    ghost use Rattle.store_derived.specs.Runs.{AreBegins, runs};

    ghost Value = { List (List ℕ) };

    ghost view = { λ texts. runs texts.octets.items texts.begins };

    ghost invariant = { λ texts. AreBegins texts.octets.items texts.begins };
}

impl Texts {
    /// No text. No memory is taken.
    pub fn new(alloc: Global) -> Texts
        ensures { result ≡ [] }
    {
        Texts {
            octets: Vec::new(alloc),
            begins: Numbers::new(alloc),
        }
    }

    /// How many texts there are.
    pub fn len(&self) -> usize
        ensures { result ≡ length self.now }
    {
        self.begins.len()
    }

    /// The text at a place, and nothing where there is none.
    pub fn get(&self, at: usize) -> &[u8]
        ensures { result.now ≡ slice_index_or self.now at [] }
    {
        if at >= self.begins.len() {
            return b"";
        }
        let len = self.octets.len();
        let from = self.begins.get_or(at, len);
        let to = self.begins.get_or(at + 1, len);
        &self.octets[from..to]
    }

    /// Puts a text behind the others. The only error is refused memory; then they are as they were.
    pub fn push(&mut self, text: &[u8]) -> Result<(), AllocError>
        ensures pushed { OnOk result (self.new ≡ self.old ++ text.now ∷ []) }
        ensures refused { OnErr result (self.new ≡ self.old) }
    {
        put_text(&mut self.octets, &mut self.begins, text)
    }

    /// Takes the last text away, where there is one.
    pub fn pop(&mut self)
        ensures { (before : List (List ℕ)) (text : List ℕ) → self.old ≡ before ++ text ∷ [] → self.new ≡ before }
    {
        if let Some(begin) = self.begins.pop() {
            self.octets.truncate(begin);
        }
    }

    /// Lets the memory go that is kept for more of them, as far as that can be had.
    pub fn shrink(&mut self)
        ensures { self.new ≡ self.old }
    {
        self.octets.shrink_to_fit();
        self.begins.shrink();
    }
}

/// Puts a text behind the octets, and where it begins behind the begins; or leaves both as they were.
fn put_text(octets: &mut Vec<u8>, begins: &mut Numbers, text: &[u8]) -> Result<(), AllocError>
    ensures octets { OnOk result (octets.new.items ≡ octets.old.items ++ text.now) }
    ensures begins { OnOk result (begins.new ≡ begins.old ++ length octets.old.items ∷ []) }
    ensures octets_refused { OnErr result (octets.new.items ≡ octets.old.items) }
    ensures begins_refused { OnErr result (begins.new ≡ begins.old) }
{
    begins.push(octets.len())?;
    if let Err(error) = octets.extend_from_slice(text) {
        let _begin = begins.pop();
        return Err(error);
    }
    Ok(())
}
