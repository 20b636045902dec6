// The index in memory of an edition that may come, made in slices.
ghost use Rattle.std.specs.Prelude.{◌≡◌, ◌<◌, IfSome, IsTrue, OnOk, length, map, take};
ghost use Rattle.dict_index.specs.Edition.{ReadEdition};
ghost use Rattle.dict_index.specs.Meaning.{IsReadEdition};
ghost use Rattle.store_search.specs.Entries.{entry_of};
ghost use Rattle.store_commands.specs.Installs.{IsReadInstall};
ghost use Rattle.store_commands.specs.declared.reads.ReadInstall.{ReadInstall};
ghost use Rattle.store_commands.specs.Left.{IsLess};
ghost use Rattle.store_desk.specs.Coming.{IsIndexOfInstall};
ghost use Rattle.store_desk.specs.Left.{both_left, index_left};

use dict_index::one_meaning;
use dict_reading::Reading;
use std::alloc::AllocError;
use std::mem;
use store_commands::ReadInstall;
use store_search::{Index, IndexBuilder, IndexMaking};

// So many entries are taken at a time.
const SLICE_ENTRIES: usize = 4_096;

/// What is made of an index: some entries are taken, or all, and parts are made of them; or memory was refused, and it is let go of.
#[derive(Drop)]
pub(crate) enum IndexPart {
    Entries(IndexBuilder),
    Parts(IndexMaking),
    Lost,
}

// Takes the next entries of an edition, of which as many are taken as the builder has.
fn take_entries(reading: &Reading<'_>, builder: &mut IndexBuilder) -> Result<(), AllocError>
    requires front { builder.old ≡ map entry_of (take (length builder.old) reading.now.lines) }
    requires some { length builder.old < length reading.now.lines }
    ensures front { OnOk result (builder.new ≡ map entry_of (take (length builder.new) reading.now.lines)) }
    ensures fewer { OnOk result (IsLess (both_left (index_left (IndexPart.Entries builder.new))) (both_left (index_left (IndexPart.Entries builder.old)))) }
{
    let from = builder.len();
    let to = reading.len().min(from.saturating_add(SLICE_ENTRIES));
    for place in from..to {
        let Some(line) = reading.line(place) else {
            unreachable!()
        };
        builder.push(line.headword, line.shown, line.offset, line.size)?;
    }
    Ok(())
}

// The index behind the next slice of entries, or the one of which all are taken.
fn take_slice(install: &ReadInstall, builder: IndexBuilder) -> IndexPart
    requires known { IsReadInstall install.now }
    requires index { IsIndexOfInstall install.now (IndexPart.Entries builder) }
    ensures index { IsIndexOfInstall install.now result }
    ensures fewer { IsLess (both_left (index_left result)) (both_left (index_left (IndexPart.Entries builder))) }
{
    one_meaning();
    let Some(reading) = install.reading() else {
        drop(builder);
        return IndexPart::Lost;
    };
    reading.is_well_formed();
    if builder.len() >= reading.len() {
        return IndexPart::Parts(builder.making());
    }
    let mut builder = builder;
    match take_entries(&reading, &mut builder) {
        Ok(()) => IndexPart::Entries(builder),
        Err(_) => {
            drop(builder);
            IndexPart::Lost
        }
    }
}

// The index of which all entries are taken, behind the next part of it; and whether there was one.
fn step_parts(making: IndexMaking) -> (IndexPart, bool)
    ensures index { (install : ReadInstall) → IsIndexOfInstall install (IndexPart.Parts making) → IsIndexOfInstall install result.0 }
    ensures fewer { IsTrue result.1 → IsLess (both_left (index_left result.0)) (both_left (index_left (IndexPart.Parts making))) }
{
    let mut making = making;
    match making.step() {
        Ok(more) => (IndexPart::Parts(making), more),
        Err(_) => {
            drop(making);
            (IndexPart::Lost, false)
        }
    }
}

// The index behind the next step, and whether there was one.
fn made_on(install: &ReadInstall, index: IndexPart) -> (IndexPart, bool)
    requires known { IsReadInstall install.now }
    requires index { IsIndexOfInstall install.now index }
    ensures index { IsIndexOfInstall install.now result.0 }
    ensures fewer { IsTrue result.1 → IsLess (both_left (index_left result.0)) (both_left (index_left index)) }
{
    match index {
        IndexPart::Entries(builder) => (take_slice(install, builder), true),
        IndexPart::Parts(making) => step_parts(making),
        IndexPart::Lost => (IndexPart::Lost, false),
    }
}

/// Makes the next step of an index. Whether there was one.
pub(crate) fn make_part(install: &ReadInstall, index: &mut IndexPart) -> bool
    requires known { IsReadInstall install.now }
    requires index { IsIndexOfInstall install.now index.old }
    ensures index { IsIndexOfInstall install.now index.new }
    ensures fewer { IsTrue result → IsLess (both_left (index_left index.new)) (both_left (index_left index.old)) }
{
    let before = mem::replace(index, IndexPart::Lost);
    let made = made_on(install, before);
    drop(mem::replace(index, made.0));
    made.1
}

// The whole index, where all entries are taken; what is missing of it is made. None also where memory is refused.
fn whole_index(install: &ReadInstall, index: IndexPart) -> Option<Index>
    requires { IsIndexOfInstall install.now index }
    ensures { IfSome result (λ whole. (reading : ReadEdition) → IsReadEdition install.now.came.items install.now.filing.text.items reading → whole ≡ map entry_of reading.lines) }
{
    let _filed = &install.filing;
    let IndexPart::Parts(making) = index else {
        return None;
    };
    match making.end() {
        Ok(whole) => Some(whole),
        Err(_) => None,
    }
}

/// The same, taken out.
pub(crate) fn take_whole(install: &ReadInstall, index: &mut IndexPart) -> Option<Index>
    requires { IsIndexOfInstall install.now index.old }
    ensures index { IsIndexOfInstall install.now index.new }
    ensures whole { IfSome result (λ whole. (reading : ReadEdition) → IsReadEdition install.now.came.items install.now.filing.text.items reading → whole ≡ map entry_of reading.lines) }
{
    let before = mem::replace(index, IndexPart::Lost);
    whole_index(install, before)
}
