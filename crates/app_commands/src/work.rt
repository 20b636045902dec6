// Work over the catalogues of files, whatever opens them.
ghost use Rattle.dict_proto.specs.Streams.{change};
ghost use Rattle.dict_catalogue.specs.Views.{command_meant};
ghost use Rattle.app_commands.specs.Order.{InstallsInOrder};
ghost use Rattle.app_commands.specs.Working.{AuditEnds, ChangeEnds, CreateEnds, InstallsOn, ListEnds, TellsSound};

use crate::catalogues::Catalogues;
use app_words::{InputFiles, InstallRequest, ProgramFault, change, install, list};
use dict_catalogue::Command;
use dict_desk::{Keeper, Preparer};
use dict_proto::Sink;
use net_serving::DeskOpener;
use std::alloc::Global;

// Makes an empty catalogue in the file with this path.
pub(crate) fn create_over<'w, K: Keeper + Drop, D: Catalogues<K>>(
    desks: &mut D,
    path: &'w str,
) -> Result<(), ProgramFault<'w>>
    ensures { CreateEnds K.Lookup D.DeskOpener D.Catalogues.own path.entry.now desks.old desks.new result }
{
    let desk = desks.make(path)?;
    let _ = desks.close(desk);
    Ok(())
}

// Writes a line for each item of a catalogue.
pub(crate) fn list_over<'w, K: Keeper + Drop, D: DeskOpener<K>, W: Sink>(
    desks: &mut D,
    path: &'w str,
    writer: &mut W,
) -> Result<(), ProgramFault<'w>>
    ensures { ListEnds K.Lookup D.DeskOpener path.entry.now desks.old desks.new result (change W.stream writer.old writer.new) }
{
    let desk = desks.open_for_command(path)?;
    let end = list(&desk, writer);
    let _ = desks.close(desk);
    end
}

// Reads a catalogue whole, and says that it is sound where its file holds it alone once it is closed.
pub(crate) fn audit_over<'w, K: Keeper + Drop, D: Catalogues<K>, W: Sink>(
    desks: &mut D,
    path: &'w str,
    writer: &mut W,
) -> Result<(), ProgramFault<'w>>
    ensures { AuditEnds K.Lookup D.DeskOpener D.Catalogues.own path.entry.now desks.old desks.new result (change W.stream writer.old writer.new) }
{
    let mut desk = desks.open_for_command(path)?;
    let audited = desks.audit(&mut desk);
    let closed = desks.close(desk);
    tell_sound(audited, closed, writer)
}

// Says that a file is sound where it was read whole and closed, or the first fault.
fn tell_sound<W: Sink>(
    audited: Result<(), ProgramFault<'static>>,
    closed: Result<(), ProgramFault<'static>>,
    writer: &mut W,
) -> Result<(), ProgramFault<'static>>
    ensures { TellsSound audited.entry closed.entry result (change W.stream writer.old writer.new) }
{
    audited?;
    closed?;
    match writer.put(b"sound\n") {
        Ok(()) => Ok(()),
        Err(_) => Err(ProgramFault::CannotWrite),
    }
}

// Applies a command to a catalogue, and writes its reply.
pub(crate) fn change_over<'w, K: Preparer + Drop, D: DeskOpener<K>, W: Sink>(
    desks: &mut D,
    path: &'w str,
    id: &str,
    command: &Command,
    writer: &mut W,
) -> Result<(), ProgramFault<'w>>
    ensures { ChangeEnds K.Lookup D.DeskOpener K.fails_to_apply path.entry.now id.now (command_meant command.now) desks.old desks.new result
        (change W.stream writer.old writer.new) }
{
    let mut desk = desks.open_for_command(path)?;
    let end = change(&mut desk, id, command, writer);
    let _ = desks.close(desk);
    end
}

// Installs the edition that two files make in a catalogue, and writes the reply.
pub(crate) fn install_over<'w, K: Preparer + Drop, D: DeskOpener<K>, I: InputFiles, W: Sink>(
    alloc: Global,
    desks: &mut D,
    path: &'w str,
    id: &str,
    wanted: InstallRequest<'w>,
    files: &I,
    writer: &mut W,
) -> Result<(), ProgramFault<'w>>
    ensures ends { InstallsOn K.Lookup D.DeskOpener K.fails_to_apply (I.octets files.now) path.entry.now wanted.entry.name.now id.now wanted.entry.index.now wanted.entry.text.now
        desks.old desks.new result (change W.stream writer.old writer.new) }
    ensures order { InstallsInOrder D.DeskOpener desks.old desks.new (I.reads files.now) (I.refuses files.now) path.entry.now wanted.entry.index.now wanted.entry.text.now result }
{
    let mut desk = desks.open_for_command(path)?;
    let end = install(alloc, &mut desk, id, wanted, files, writer);
    let _ = desks.close(desk);
    end
}
