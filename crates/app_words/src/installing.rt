// An install of an edition that two files make.
ghost use Rattle.std.specs.Prelude.{◌≡◌};
ghost use Rattle.dict_proto.specs.Streams.{change};
ghost use Rattle.dict_index.specs.Edition.{edition_of};
ghost use Rattle.dict_catalogue.specs.Commands.{install};
ghost use Rattle.dict_session.specs.Desks.{Stays};
ghost use Rattle.app_words.specs.Changing.{IsChanged};
ghost use Rattle.app_words.specs.Files.{IsInOrder, NamesNoFile};
ghost use Rattle.app_words.specs.Installing.{InstallEnds, InstallsFiles, InstallsRead};

use crate::changing::{change, tell_kept};
use crate::fault::ProgramFault;
use crate::files::{InputFiles, read_file};
use dict_catalogue::Command;
use dict_desk::Preparer;
use dict_index::{Edition, read_edition};
use dict_proto::Sink;
use std::alloc::Global;

/// What is installed: the paths of an index and of a text, and the name that the database has.
#[derive(Clone, Copy, Debug, PartialEq, Eq)]
pub struct InstallRequest<'w> {
    pub name: &'w str,
    pub index: &'w str,
    pub text: &'w str,
}

/// Installs the edition that an index and a text make, under the id of its request, and writes the reply as a line of JSON.
///
/// Where a reply is kept under the id, it is written again, and neither file is read: no clause says that none is. Else the index
/// is read before the text, and both before what they say is refused. Where `Memory` is told, nothing was changed.
pub fn install<'w, K: Preparer, I: InputFiles, W: Sink>(
    alloc: Global,
    desk: &mut K,
    id: &str,
    wanted: InstallRequest<'w>,
    files: &I,
    writer: &mut W,
) -> Result<(), ProgramFault<'w>>
    ensures installed { InstallEnds K.shows K.leaves_one_of K.keeps_beside K.is_trusted K.is_closed K.gives_way K.fails_to_apply (I.octets files.now) desk.old desk.new wanted.entry.name.now id.now
        wanted.entry.index.now wanted.entry.text.now result (change W.stream writer.old writer.new) }
    ensures memory { result ≡ Err ProgramFault.Memory → Stays K.shows K.leaves_one_of K.keeps_beside K.is_trusted K.is_closed desk.old desk.new }
    ensures order { IsInOrder (I.reads files.now) (I.refuses files.now) wanted.entry.index.now wanted.entry.text.now result }
{
    match desk.kept(id) {
        Ok(Some(kept)) => tell_kept(&kept, writer),
        Ok(None) => install_files(alloc, desk, id, wanted, files, writer),
        Err(fault) => Err(ProgramFault::from(fault)),
    }
}

// Installs the edition that two files make.
fn install_files<'w, K: Preparer, I: InputFiles, W: Sink>(
    alloc: Global,
    desk: &mut K,
    id: &str,
    wanted: InstallRequest<'w>,
    files: &I,
    writer: &mut W,
) -> Result<(), ProgramFault<'w>>
    ensures installed { InstallsFiles K.shows K.leaves_one_of K.keeps_beside K.is_trusted K.is_closed K.gives_way K.fails_to_apply (I.octets files.now) desk.old desk.new wanted.entry.name.now id.now
        wanted.entry.index.now wanted.entry.text.now result (change W.stream writer.old writer.new) }
    ensures memory { result ≡ Err ProgramFault.Memory → Stays K.shows K.leaves_one_of K.keeps_beside K.is_trusted K.is_closed desk.old desk.new }
    ensures order { IsInOrder (I.reads files.now) (I.refuses files.now) wanted.entry.index.now wanted.entry.text.now result }
{
    let index = read_file(files, wanted.index)?;
    let text = read_file(files, wanted.text)?;
    install_octets(alloc, desk, id, wanted.name, index, text, writer)
}

// Installs the edition that an index and a text say.
fn install_octets<K: Preparer, W: Sink>(
    alloc: Global,
    desk: &mut K,
    id: &str,
    name: &str,
    index: Vec<u8>,
    text: Vec<u8>,
    writer: &mut W,
) -> Result<(), ProgramFault<'static>>
    ensures installed { InstallsRead K.shows K.leaves_one_of K.keeps_beside K.is_trusted K.is_closed K.gives_way K.fails_to_apply desk.old desk.new name.now id.now index.items text.items result
        (change W.stream writer.old writer.new) }
    ensures memory { result ≡ Err ProgramFault.Memory → Stays K.shows K.leaves_one_of K.keeps_beside K.is_trusted K.is_closed desk.old desk.new }
    ensures files { NamesNoFile result }
{
    let edition = match read_edition(alloc, &index, &text) {
        Ok(edition) => edition,
        Err(fault) => return Err(ProgramFault::from(fault)),
    };
    install_edition(desk, id, name, &edition, writer)
}

// Installs an edition.
fn install_edition<K: Preparer, W: Sink>(
    desk: &mut K,
    id: &str,
    name: &str,
    edition: &Edition,
    writer: &mut W,
) -> Result<(), ProgramFault<'static>>
    ensures changed { IsChanged K.shows K.leaves_one_of K.keeps_beside K.is_trusted K.is_closed K.fails_to_apply desk.old desk.new id.now (install name.now (edition_of edition.now)) result
        (change W.stream writer.old writer.new) }
    ensures memory { result ≡ Err ProgramFault.Memory → Stays K.shows K.leaves_one_of K.keeps_beside K.is_trusted K.is_closed desk.old desk.new }
    ensures files { NamesNoFile result }
{
    let command = Command::Install { name, edition };
    change(desk, id, &command, writer)
}
