// How far an edition was read.
ghost use Rattle.std.specs.Prelude.{◌≡◌, ◌≢◌, ◌↔◌, ◌+◌, ◌-◌, ◌<◌, ◌≤◌, ◌^◌, ℕ, List, IfErr, IfOk, OnErr, OnOk, IsTrue, length};
ghost use Rattle.dict_index.specs.Meaning.{IsReadEdition};
ghost use Rattle.dict_index.specs.Refused.{IsIndexFault};
ghost use Rattle.dict_index.specs.declared.fault.IndexFault.TheVariants as faults;
ghost use Rattle.dict_reading.specs.Lines.{line_told_at};

use crate::gathered::GatheredPlaces;
use crate::line::EditionLineFault;
use crate::reading::Reading;
use crate::title::title_and_info;
use dict_index::{IndexFault, cut_at, whole_refusal};
use std::alloc::Global;

/// A slice has so many lines at most.
pub const SLICE_LINES: usize = 4_096;

/// A slice ends behind the line by which its octets come to so many.
pub const SLICE_OCTETS: usize = 1_048_576;

/// How far an edition was read from an index and a text. Both are handed to each call: the same ones always.
#[derive(Drop)]
pub struct EditionReader {
    alloc: Global,
    // So many octets of the index.
    place: usize,
    // So many lines.
    number: usize,
    gathered: GatheredPlaces,
}

// A line's fault, told with the line's number.
fn at_line(fault: EditionLineFault, number: usize) -> IndexFault
    ensures { result ≡ line_told_at fault number }
{
    match fault {
        EditionLineFault::Memory => IndexFault::Memory,
        EditionLineFault::Refused(refusal) => IndexFault::Refused {
            refusal,
            line: Some(number),
        },
    }
}

impl EditionReader {
    ghost use Rattle.dict_index.specs.Line.{Line, IsLine};
    ghost use Rattle.dict_index.specs.Tests.{line_at};
    ghost use Rattle.dict_reading.specs.Reading.{HasRead, IsAtEnd};
    ghost use Rattle.dict_reading.specs.Slices.{IsSlice};

    /// Begins to read an edition from an index and a text, both whole: their tests as a whole are made, and no line is read. The
    /// first test that fails is told, and nothing else: no memory is asked for.
    pub fn begin(alloc: Global, index: &[u8], text: &[u8]) -> Result<Self, IndexFault>
        ensures read { IfOk result (HasRead index.now text.now) }
        ensures none { IfOk result (λ reader. reader.number ≡ 0) }
        ensures refused { IfErr result (λ fault. IsIndexFault fault index.now text.now) }
        ensures known { IfErr result (λ fault. fault ≢ faults.Memory) }
    {
        if let Some(refusal) = whole_refusal(index, text) {
            return Err(IndexFault::Refused {
                refusal,
                line: None,
            });
        }
        Ok(EditionReader {
            alloc,
            place: 0,
            number: 0,
            gathered: GatheredPlaces::new(alloc),
        })
    }

    // Reads the next line. It answers how many octets the line, with its LF, and its body have.
    fn take_line(&mut self, index: &[u8], text: &[u8]) -> Result<usize, IndexFault>
        requires read { HasRead index.now text.now self.old }
        requires more { self.old.place < length index.now }
        ensures read { OnOk result (HasRead index.now text.now self.new) }
        ensures one { OnOk result (self.new.number ≡ self.old.number + 1) }
        ensures further { OnOk result (self.old.place < self.new.place) }
        ensures octets { IfOk result (λ octets. (said : Line) → IsLine (line_at index.now self.old.number) said → octets ≡ length (line_at index.now self.old.number) + 1 + said.size) }
        ensures bounded { IfOk result (λ octets. octets < length index.now + 1 + 64 ^ 6) }
        ensures kept { OnErr result (HasRead index.now text.now self.new) }
        ensures none { OnErr result (self.new.number ≡ self.old.number) }
        ensures refused { IfErr result (λ fault. IsIndexFault fault index.now text.now) }
    {
        let (_, rest) = index.split_at(self.place);
        let Some((line, _behind)) = cut_at(b'\n', rest) else {
            unreachable!()
        };
        let (whole, _) = rest.split_at(line.len() + 1);
        match self
            .gathered
            .take(self.alloc, self.place, line, whole, text)
        {
            Ok(size) => {
                self.place += whole.len();
                self.number += 1;
                Ok(whole.len() + size)
            }
            Err(fault) => Err(at_line(fault, self.number + 1)),
        }
    }

    /// How many lines were read.
    pub fn line_count(&self) -> usize
        ensures { result ≡ self.now.number }
    {
        self.number
    }

    /// Whether all lines were read.
    pub fn is_at_end(&self, index: &[u8]) -> bool
        requires { (text : List ℕ) × HasRead index.now text self.now }
        ensures { IsTrue result ↔ IsAtEnd index.now self.now }
    {
        self.place >= index.len()
    }

    /// Reads a slice of lines: at least one where one is left, at most 4,096, and no further one once they and their bodies come to
    /// 1,048,576 octets. Whether a line is left. The first test that fails is told, with its line; where that is so, or memory was
    /// refused, the lines before are read.
    pub fn take(&mut self, index: &[u8], text: &[u8]) -> Result<bool, IndexFault>
        requires { HasRead index.now text.now self.old }
        ensures read { HasRead index.now text.now self.new }
        ensures left { IfOk result (λ more. IsTrue more ↔ ¬ IsAtEnd index.now self.new) }
        ensures some { OnOk result (¬ IsAtEnd index.now self.old → self.old.number < self.new.number) }
        ensures forward { self.old.number ≤ self.new.number }
        ensures slice { IsSlice index.now self.old.number (self.new.number - self.old.number) }
        ensures refused { IfErr result (λ fault. IsIndexFault fault index.now text.now) }
    {
        let mut lines = 0usize;
        let mut octets = 0usize;
        'lines: while lines < SLICE_LINES && octets < SLICE_OCTETS && !self.is_at_end(index) {
            match self.take_line(index, text) {
                Ok(count) => {
                    lines += 1;
                    octets += count;
                }
                Err(fault) => return Err(fault),
            }
        }
        Ok(!self.is_at_end(index))
    }

    /// Reads all lines that are left, slice by slice. The first test that fails is told, with its line.
    pub fn take_all(&mut self, index: &[u8], text: &[u8]) -> Result<(), IndexFault>
        requires { HasRead index.now text.now self.old }
        ensures read { HasRead index.now text.now self.new }
        ensures all { OnOk result (IsAtEnd index.now self.new) }
        ensures refused { IfErr result (λ fault. IsIndexFault fault index.now text.now) }
    {
        'slices: while !self.is_at_end(index) {
            if let Err(fault) = self.take(index, text) {
                return Err(fault);
            }
        }
        Ok(())
    }

    /// The edition, where all lines are read: what the two files say, over which it is a view. The first test of the title that
    /// fails is told; the only other error is want of memory.
    pub fn end<'a>(&'a self, index: &'a [u8], text: &'a [u8]) -> Result<Reading<'a>, IndexFault>
        requires read { HasRead index.now text.now self.now }
        requires all { IsAtEnd index.now self.now }
        ensures edition { IfOk result (IsReadEdition index.now text.now) }
        ensures refused { IfErr result (λ fault. IsIndexFault fault index.now text.now) }
    {
        let short = self.gathered.text_at(text, "00databaseshort");
        let info = self.gathered.text_at(text, "00databaseinfo");
        let (title, info) = match title_and_info(self.alloc, short, info) {
            Ok(told) => told,
            Err(fault) => return Err(fault),
        };
        Ok(Reading {
            title,
            info,
            index,
            text,
            places: self.gathered.entries.as_slice(),
        })
    }
}
