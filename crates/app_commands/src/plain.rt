// A session over one database in lists.
ghost use Rattle.dict_proto.specs.Streams.{change};
ghost use Rattle.dict_session.specs.Desks.{condition};
ghost use Rattle.app_commands.specs.Plain.{PlainEnds, RunEnds, Installs, FilesEnd, standing, told_by};
ghost use Rattle.std.specs.Prelude.{◌≡◌, codes};
ghost use Rattle.dict_index.specs.Edition.{edition_of};
ghost use Rattle.dict_catalogue.specs.Commands.{install};
ghost use Rattle.dict_catalogue.specs.Steps.{Catalogue, empty_catalogue, step};
ghost use Rattle.dict_desk.specs.Applying.{Applies};
ghost use Rattle.app_words.specs.Files.{IsInOrder};

use app_words::{InputFiles, ProgramFault, read_file};
use dict_catalogue::{Command, Kept};
use dict_desk::{Fault as DeskFault, Keeper, PlainDesk};
use dict_index::{Edition, read_edition};
use dict_proto::{Sink, Source};
use dict_session::{SessionFault, run};
use net_serving::HOST;
use std::alloc::Global;
use std::mem;

/// The id under which the database is installed.
const INSTALL_ID: &str = "plain";

/// Runs a session over the database that an index and a text make, under a name, with host `localhost` and as
/// connection 1. The edition's refusals come first, and then that of its install: the name's. The octets are given back
/// before the session begins. The desk is made anew, and tells in the end whether its last call failed.
pub fn run_plain<S: Source, W: Sink>(
    alloc: Global,
    desk: &mut PlainDesk,
    name: &str,
    index: Vec<u8>,
    text: Vec<u8>,
    reader: &mut S,
    writer: &mut W,
) -> Result<(), ProgramFault<'static>>
    ensures { PlainEnds (standing desk.new) name.now index.items text.items result
        (change S.stream reader.old reader.new) (change W.stream writer.old writer.new) }
{
    drop(mem::replace(desk, PlainDesk::new(alloc)));
    install_octets(alloc, desk, name, index, text)?;
    run_over(alloc, desk, reader, writer)
}

// Runs a session over what a desk shows.
fn run_over<D: Keeper, S: Source, K: Sink>(
    alloc: Global,
    desk: &mut D,
    reader: &mut S,
    writer: &mut K,
) -> Result<(), ProgramFault<'static>>
    ensures ends { D.is_trusted desk.new → (M : Catalogue) → D.shows desk.old M → RunEnds M (condition D.has_failed D.is_closed desk.new) result
        (change S.stream reader.old reader.new) (change K.stream writer.old writer.new) }
    ensures trust { D.is_trusted desk.new → D.is_trusted desk.old }
    ensures beside { (beside : D.Beside) → D.keeps_beside desk.old beside → D.keeps_beside desk.new beside }
{
    match run(alloc, reader, writer, desk, HOST, 1) {
        Ok(_) => Ok(()),
        Err(fault) => Err(told_by(fault)),
    }
}

// Installs the edition that an index and a text say under the name.
fn install_octets<D: Keeper>(
    alloc: Global,
    desk: &mut D,
    name: &str,
    index: Vec<u8>,
    text: Vec<u8>,
) -> Result<(), ProgramFault<'static>>
    ensures { D.is_trusted desk.new → D.shows desk.old empty_catalogue → Installs (D.shows desk.new) name.now index.items text.items result }
{
    let edition = match read_edition(alloc, &index, &text) {
        Ok(edition) => edition,
        Err(fault) => return Err(ProgramFault::from(fault)),
    };
    match install(desk, name, &edition) {
        Ok(_) => Ok(()),
        Err(DeskFault::Refused(refusal)) => Err(ProgramFault::Refused(refusal)),
        Err(_) => Err(ProgramFault::Memory),
    }
}

// What is told of a session's fault.
fn told_by(fault: SessionFault) -> ProgramFault<'static>
    ensures { result ≡ told_by fault }
{
    match fault {
        SessionFault::Memory => ProgramFault::Memory,
        SessionFault::Read => ProgramFault::SessionEnded,
        SessionFault::Write => ProgramFault::SessionEnded,
        SessionFault::Broken => ProgramFault::SessionEnded,
    }
}

// Installs the edition under the name, as the first command.
fn install<K: Keeper>(desk: &mut K, name: &str, edition: &Edition) -> Result<Kept, DeskFault>
    ensures value { K.is_trusted desk.new → (M : Catalogue) → K.shows desk.old M → Applies (K.shows desk.new) M (step M (codes "plain") (install name.now (edition_of edition.now))) result }
    ensures trust { K.is_trusted desk.new → K.is_trusted desk.old }
    ensures beside { (beside : K.Beside) → K.keeps_beside desk.old beside → K.keeps_beside desk.new beside }
{
    let command = Command::Install { name, edition };
    desk.apply(INSTALL_ID, &command)
}

// A session over two files, by their paths.
#[tactic(auto, unfolding(crate::specs::Plain::FilesEnd))]
pub(crate) fn run_files<'w, I: InputFiles, S: Source, K: Sink>(
    alloc: Global,
    desk: &mut PlainDesk,
    name: &str,
    index: &'w str,
    text: &'w str,
    files: &I,
    reader: &mut S,
    writer: &mut K,
) -> Result<(), ProgramFault<'w>>
    ensures ends { FilesEnd (standing desk.new) (I.octets files.now) name.now index.entry.now text.entry.now result
        (change S.stream reader.old reader.new) (change K.stream writer.old writer.new) }
    ensures order { IsInOrder (I.reads files.now) (I.refuses files.now) index.entry.now text.entry.now result }
{
    let index = read_file(files, index)?;
    let text = read_file(files, text)?;
    run_plain(alloc, desk, name, index, text, reader, writer)
}
