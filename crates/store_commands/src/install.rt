// The files of an install that may come, and what is made of them before the command comes.
ghost use Rattle.std.specs.Prelude.{◌≡◌, ◌≢◌, ◌↔◌, ◌+◌, ◌≤◌, ◌<◌, ◌++◌, ◌∷◌, [], ℕ, false, true, IsTrue, IfErr, IfOk, IfSome, List, None, OnOk, Some, length, slice_get, string_bytes, take};
ghost use Rattle.std.specs.List.{AllByRecursion};
ghost use Rattle.dict_index.specs.Line.{Line};
ghost use Rattle.dict_index.specs.Meaning.{IsFault};
ghost use Rattle.dict_index.specs.Refused.{IsIndexFault};
ghost use Rattle.store_rows.specs.Stored.{stored_index, stored_line, IsStorable};
ghost use Rattle.dict_reading.specs.Reading.{HasRead, IsAtEnd};
ghost use Rattle.store_commands.specs.Installs.{IsReadSoFar, ReadsSlice, AreFirstLines, AreAllLines, AreKnown, HasFiles, IsShortStep, is_done, is_refused, state_of};
ghost use Rattle.store_commands.specs.Left.{IsLess, draft_left, progress_left};

use dict_index::{EditionRefusal, IndexFault, one_meaning};
use dict_reading::{EditionReader, Reading};
use std::alloc::{AllocError, Global};
use store_rows::write_line;

// The lines of so many entries are written at a time.
const SLICE_ENTRIES: usize = 4_096;

/// How far two files are read as an edition, or the first test that they don't pass, with its line.
#[derive(Drop)]
pub(crate) enum Progress {
    Reader(EditionReader),
    Refused(EditionRefusal, Option<usize>),
}

/// The name, the index and the text of an install, as they came. They are read in slices, and then the lines of the edition's entries are
/// written in slices, as they are stored.
#[derive(Drop)]
pub(crate) struct InstallFiles {
    pub(crate) alloc: Global,
    pub(crate) name: String,
    pub(crate) came: Vec<u8>,
    pub(crate) text: Vec<u8>,
    pub(crate) progress: Progress,
    pub(crate) stored: Vec<u8>,
    // So many entries have their lines in `stored`.
    pub(crate) written: usize,
    pub(crate) is_whole: bool,
}

// What is known of files where reading them ended so.
fn refused(fault: IndexFault) -> Result<Progress, AllocError>
    ensures known { IfOk result (λ progress. (index text : List ℕ) → IsIndexFault fault index text → IsReadSoFar index text progress) }
    ensures told { IfOk result (λ progress. is_refused progress ≡ true) }
{
    match fault {
        IndexFault::Memory => Err(AllocError),
        IndexFault::Refused { refusal, line } => Ok(Progress::Refused(refusal, line)),
    }
}

// What is known of files of which no line is read.
fn begin_reading(alloc: Global, index: &[u8], text: &[u8]) -> Result<Progress, AllocError>
    ensures { IfOk result (IsReadSoFar index.now text.now) }
{
    match EditionReader::begin(alloc, index, text) {
        Ok(reader) => Ok(Progress::Reader(reader)),
        Err(fault) => refused(fault),
    }
}

// Reads a slice of lines, if one is left. Whether one was.
fn read_slice(progress: &mut Progress, index: &[u8], text: &[u8]) -> Result<bool, AllocError>
    requires read { IsReadSoFar index.now text.now progress.old }
    ensures read { IsReadSoFar index.now text.now progress.new }
    ensures slice { OnOk result (ReadsSlice index.now progress.old progress.new) }
    ensures none { IfOk result (λ some. some ≡ false → progress.new ≡ progress.old) }
    ensures all { IfOk result (λ some. some ≡ false → (reader : EditionReader) → progress.old ≡ Progress.Reader reader → IsAtEnd index.now reader) }
    ensures fewer { IfOk result (λ some. IsTrue some → IsLess (progress_left progress.new) (progress_left progress.old)) }
{
    let Progress::Reader(reader) = progress else {
        return Ok(false);
    };
    if reader.is_at_end(index) {
        return Ok(false);
    }
    // That many lines were read is a number of 64 bits, so there is an end of reading more.
    reader.line_count();
    match reader.take(index, text) {
        Ok(_) => Ok(true),
        Err(fault) => {
            *progress = refused(fault)?;
            Ok(true)
        }
    }
}

// How many are written behind the next slice, of so many, of which some are.
fn slice_end(written: usize, all: usize) -> usize
    requires { written ≤ all }
    ensures ordered { written ≤ result }
    ensures within { result ≤ all }
    ensures few { result ≤ written + 4096 }
    ensures more { written < all → written < result }
{
    if all - written <= SLICE_ENTRIES {
        return all;
    }
    written + SLICE_ENTRIES
}

// Writes the line of the entry at a place.
fn write_entry(reading: &Reading<'_>, place: usize, octets: &mut Vec<u8>) -> Result<(), AllocError>
    requires storable { AllByRecursion IsStorable reading.now.lines }
    requires there { place < length reading.now.lines }
    ensures { OnOk result ((said : Line) → slice_get reading.now.lines place ≡ Some said → octets.new.items ≡ octets.old.items ++ (stored_line said ++ 10 ∷ [])) }
{
    let Some(line) = reading.line(place) else {
        unreachable!()
    };
    write_line(
        line.headword,
        line.offset as u64,
        line.size as u64,
        line.shown,
        octets,
    )
}

// Writes the lines of the entries from one place up to another, behind those of the entries before.
fn write_lines(
    reading: &Reading<'_>,
    from: usize,
    to: usize,
    octets: &mut Vec<u8>,
) -> Result<(), AllocError>
    requires storable { AllByRecursion IsStorable reading.now.lines }
    requires ordered { from ≤ to }
    requires within { to ≤ length reading.now.lines }
    ensures { OnOk result (octets.old.items ≡ stored_index (take from reading.now.lines) → octets.new.items ≡ stored_index (take to reading.now.lines)) }
{
    for place in from..to {
        write_entry(reading, place, octets)?;
    }
    Ok(())
}

// Writes the lines of the next entries behind those of so many. It answers of how many they are written then, and whether there are
// more. The files are refused where their title is.
fn write_slice(
    reader: &EditionReader,
    index: &[u8],
    text: &[u8],
    written: usize,
    stored: &mut Vec<u8>,
) -> Result<(usize, bool), IndexFault>
    requires read { HasRead index.now text.now reader.now }
    requires all { IsAtEnd index.now reader.now }
    ensures front { IfOk result (λ told. AreFirstLines index.now text.now written stored.old.items → AreFirstLines index.now text.now told.0 stored.new.items) }
    ensures whole { IfOk result (λ told. AreFirstLines index.now text.now written stored.old.items → told.1 ≡ false → AreAllLines index.now text.now stored.new.items) }
    ensures few { IfOk result (λ told. told.0 ≤ written + 4096) }
    ensures more { IfOk result (λ told. IsTrue told.1 → written < told.0) }
    ensures refused { IfErr result (λ fault. IsIndexFault fault index.now text.now) }
{
    one_meaning();
    let reading = match reader.end(index, text) {
        Ok(reading) => reading,
        Err(fault) => return Err(fault),
    };
    let all = reading.len();
    if all <= written {
        return Ok((written, false));
    }
    let to = slice_end(written, all);
    match write_lines(&reading, written, to, stored) {
        Ok(()) => Ok((to, to < all)),
        Err(_) => Err(IndexFault::Memory),
    }
}

impl InstallFiles {
    /// Copies of these; the tests of the files as a whole are made, and no line is read.
    pub(crate) fn begin(
        alloc: Global,
        name: &str,
        index: &[u8],
        text: &[u8],
    ) -> Result<InstallFiles, AllocError>
        ensures known { IfOk result AreKnown }
        ensures files { IfOk result (HasFiles name.now index.now text.now) }
    {
        let progress = begin_reading(alloc, index, text)?;
        let name = String::from_str(alloc, name)?;
        let came = Vec::from_slice(alloc, index)?;
        let text = Vec::from_slice(alloc, text)?;
        Ok(InstallFiles {
            alloc,
            name,
            came,
            text,
            progress,
            stored: Vec::new(alloc),
            written: 0,
            is_whole: false,
        })
    }

    /// Reads a slice of lines, or, once all are read, writes those of some entries as they are stored. Whether there may be more to do.
    pub(crate) fn step(&mut self) -> Result<bool, AllocError>
        requires { AreKnown self.old }
        ensures known { AreKnown self.new }
        ensures files { HasFiles (string_bytes self.old.name) self.old.came.items self.old.text.items self.new }
        ensures short { OnOk result (IsShortStep self.old self.new) }
        ensures done { IfOk result (λ more. more ≡ false → is_done self.new ≡ true) }
        ensures fewer { IfOk result (λ more. IsTrue more → IsLess (draft_left (state_of self.new)) (draft_left (state_of self.old))) }
    {
        if self.is_whole {
            return Ok(false);
        }
        if read_slice(&mut self.progress, &self.came, &self.text)? {
            return Ok(true);
        }
        self.write_next()
    }

    // Writes the lines of the next entries, where all lines are read.
    fn write_next(&mut self) -> Result<bool, AllocError>
        requires known { AreKnown self.old }
        requires all { (reader : EditionReader) → self.old.progress ≡ Progress.Reader reader → IsAtEnd self.old.came.items reader }
        requires part { self.old.is_whole ≡ false }
        ensures known { AreKnown self.new }
        ensures files { HasFiles (string_bytes self.old.name) self.old.came.items self.old.text.items self.new }
        ensures reads { OnOk result (ReadsSlice self.old.came.items self.old.progress self.new.progress) }
        ensures writes { self.new.written ≤ self.old.written + 4096 }
        ensures done { IfOk result (λ more. more ≡ false → is_done self.new ≡ true) }
        ensures fewer { IfOk result (λ more. IsTrue more → IsLess (draft_left (state_of self.new)) (draft_left (state_of self.old))) }
    {
        let Progress::Reader(reader) = &self.progress else {
            return Ok(false);
        };
        match write_slice(
            reader,
            &self.came,
            &self.text,
            self.written,
            &mut self.stored,
        ) {
            Ok((written, more)) => {
                self.written = written;
                self.is_whole = !more;
                Ok(more)
            }
            Err(fault) => {
                self.stored = Vec::new(self.alloc);
                self.written = 0;
                self.progress = refused(fault)?;
                Ok(false)
            }
        }
    }

    /// Whether a test fails.
    pub(crate) fn is_refused(&self) -> bool
        ensures { result ≡ is_refused self.now.progress }
    {
        match &self.progress {
            Progress::Reader(_) => false,
            Progress::Refused(_, _) => true,
        }
    }

    /// The test that failed, with its line where it is a test of a line, if these are the files, and this is the name.
    pub(crate) fn refusal(
        &self,
        name: &str,
        index: &[u8],
        text: &[u8],
    ) -> Option<(EditionRefusal, Option<usize>)>
        requires { AreKnown self.now }
        ensures refused { IfSome result (λ told. IsFault index.now text.now told.0 told.1) }
        ensures some { HasFiles name.now index.now text.now self.now → is_refused self.now.progress ≡ true → result ≢ None }
    {
        let Progress::Refused(refusal, line) = &self.progress else {
            return None;
        };
        if !is_same(&self.came, index)
            || !is_same(&self.text, text)
            || !is_same(self.name.as_bytes(), name.as_bytes())
        {
            return None;
        }
        Some((*refusal, *line))
    }
}

// Whether octets are equal.
pub(crate) fn is_same(one: &[u8], other: &[u8]) -> bool
    ensures { IsTrue result ↔ (one.now ≡ other.now) }
{
    one == other
}
