// From an index and a text to an edition.
ghost use Rattle.std.specs.Prelude.{◌≡◌, ℕ, ◌≤◌, ◌++◌, ◌∷◌, [], List, IfOk, IfErr, OnOk, length};
ghost use Rattle.std.specs.Str.{IsUtf8};
ghost use Rattle.dict_text.specs.Lines.{text_lines};
ghost use Rattle.dict_index.specs.Limits.{most_lines};
ghost use Rattle.dict_index.specs.Refusals.{line_tests};
ghost use Rattle.dict_index.specs.Gathered.{HasGathered};
ghost use Rattle.dict_index.specs.Meaning.{IsReadEdition};
ghost use Rattle.dict_index.specs.Refused.{PassesEach, PassLines, IsLinesFault, IsFaultBehind, IsIndexFault, told_at};

use crate::edition::Edition;
use crate::fault::IndexFault;
use crate::gather::Gathered;
use crate::line::{EntryLineFault, read_line};
use crate::title::{refused, title_and_info};
use crate::whole::whole_refusal;
use dict_text::text_lines;
use std::alloc::Global;

// Reads a line, and adds what it says.
fn read_and_add<'a>(
    alloc: Global,
    gathered: &mut Gathered<'a>,
    line: &'a [u8],
    text: &'a [u8],
) -> Result<(), EntryLineFault>
    requires { IsUtf8 line.now }
    ensures added { OnOk result ((lines : List (List ℕ)) → HasGathered text.now lines gathered.old → HasGathered text.now (lines ++ line.now ∷ []) gathered.new) }
    ensures passes { OnOk result ((lines : List (List ℕ)) → HasGathered text.now lines gathered.old → PassesEach line_tests text.now lines line.now) }
    ensures refused { IfErr result (λ fault. (lines : List (List ℕ)) → HasGathered text.now lines gathered.old → IsFaultBehind fault text.now lines line.now) }
{
    match read_line(alloc, line, text) {
        Ok(entry) => gathered.add(alloc, entry),
        Err(fault) => Err(fault),
    }
}

// A line's fault, told with the line's number.
fn at_line(fault: EntryLineFault, number: usize) -> IndexFault
    ensures { result ≡ told_at fault number }
{
    match fault {
        EntryLineFault::Memory => IndexFault::Memory,
        EntryLineFault::Refused(refusal) => IndexFault::Refused {
            refusal,
            line: Some(number),
        },
    }
}

// Gathers the lines of an index in order, up to the first that a test refuses.
fn gather_lines<'a>(
    alloc: Global,
    index: &'a [u8],
    text: &'a [u8],
) -> Result<Gathered<'a>, IndexFault>
    requires text { IsUtf8 index.now }
    requires few { length (text_lines index.now) ≤ most_lines }
    ensures gathered { IfOk result (HasGathered text.now (text_lines index.now)) }
    ensures passes { OnOk result (PassLines index.now text.now (length (text_lines index.now))) }
    ensures refused { IfErr result (λ fault. IsLinesFault fault index.now text.now) }
{
    let mut gathered = Gathered::new(alloc);
    let mut number = 0usize;
    let mut lines = text_lines(index);
    while let Some(line) = lines.next() {
        number += 1;
        match read_and_add(alloc, &mut gathered, line, text) {
            Ok(()) => {}
            Err(fault) => return Err(at_line(fault, number)),
        }
    }
    Ok(gathered)
}

/// Reads an edition from dictd's two files, an index and a text, both whole. The edition borrows from them.
///
/// The index is UTF-8 text whose lines, each ended by LF, are headword, tab, offset, tab and length. A line may go
/// on with a tab and a fourth column, the headword that is shown. The first test that fails is told, and its line
/// where it is a test of a line: `Memory` comes only where a growth was refused.
pub fn read_edition<'a>(
    alloc: Global,
    index: &'a [u8],
    text: &'a [u8],
) -> Result<Edition<'a>, IndexFault>
    ensures edition { IfOk result (IsReadEdition index.now text.now) }
    ensures refused { IfErr result (λ fault. IsIndexFault fault index.now text.now) }
{
    if let Some(refusal) = whole_refusal(index, text) {
        return Err(refused(refusal));
    }
    let Gathered { entries, reserved } = match gather_lines(alloc, index, text) {
        Ok(gathered) => gathered,
        Err(fault) => return Err(fault),
    };
    let (title, info) = match title_and_info(alloc, &reserved) {
        Ok(told) => told,
        Err(fault) => return Err(fault),
    };
    Ok(Edition {
        title,
        info,
        text,
        entries,
    })
}
