// What is done of what the program is asked for.
ghost use Rattle.dict_proto.specs.Streams.{change};
ghost use Rattle.app_commands.specs.Order.{ChangesInOrder, EndsInOrder};
ghost use Rattle.app_commands.specs.Program.{ChangeTaskEnds, TaskEnds};
ghost use Rattle.app_words.specs.Asked.{words_shown};
ghost use Rattle.dict_catalogue.specs.Commands.{put_virtual};
ghost use Rattle.app_commands.specs.Working.{ChangeEnds, ServesOn};

use crate::catalogues::Catalogues;
use crate::plain::run_files;
use crate::work::{audit_over, change_over, create_over, install_over, list_over};
use app_words::{InputFiles, InstallRequest, ItemChange, ProgramFault, Task};
use dict_catalogue::Command;
use dict_desk::{PlainDesk, Preparer};
use dict_proto::{Sink, Source};
use mio::net::TcpListener;
use net_driver::{Network, SystemSockets};
use net_serving::{DeskOpener, ServerOptions, serve_catalogue};
use std::alloc::Global;
use std::net::Net;

/// Does a task: opens the catalogue that it names, reads its files, has a network bind a server's sockets, takes a session's octets from the reader, and writes what it
/// answers. The catalogue of a session over two files is kept in `plain`, which is made anew for it. An index is read before its text,
/// and both before what they say is refused.
pub fn perform<
    'w,
    K: Preparer + Drop,
    D: Catalogues<K>,
    B: Network<TcpListener, SystemSockets>,
    N: Net,
    I: InputFiles,
    S: Source,
    W: Sink,
>(
    network: &B,
    net: &N,
    alloc: Global,
    task: &Task<'w>,
    desks: &mut D,
    plain: &mut PlainDesk,
    files: &I,
    reader: &mut S,
    writer: &mut W,
) -> Result<(), ProgramFault<'w>>
    ensures ends { TaskEnds K.Lookup D.DeskOpener D.Catalogues.own B.Network K.fails_to_apply K.expects K.prepares (I.octets files.now) plain.new desks.old desks.new task.now result
        (change S.stream reader.old reader.new) (change W.stream writer.old writer.new) }
    ensures order { EndsInOrder D.DeskOpener desks.old desks.new (I.reads files.now) (I.refuses files.now) task.now result }
{
    match task {
        Task::Plain { name, index, text } => {
            run_files(alloc, plain, name, *index, *text, files, reader, writer)
        }
        Task::Create { file } => create_over(desks, *file),
        Task::List { file } => list_over(desks, *file, writer),
        Task::Audit { file } => audit_over(desks, *file, writer),
        Task::Session { file } => desks.session(*file, reader, writer),
        Task::Change {
            file,
            name,
            id,
            change,
        } => perform_change(alloc, desks, *file, *name, *id, change, files, writer),
        Task::Serve {
            file,
            dict,
            http,
            rounds,
        } => {
            let wanted = ServerOptions {
                dict: *dict,
                http: *http,
                rounds: *rounds,
            };
            serve(network, net, alloc, desks, *file, &wanted, writer)
        }
    }
}

// Serves the catalogue of a file.
#[tactic(auto, unfolding(crate::specs::Working::ServesOn))]
fn serve<
    'w,
    K: Preparer + Drop,
    D: DeskOpener<K>,
    B: Network<TcpListener, SystemSockets>,
    N: Net,
    W: Sink,
>(
    network: &B,
    net: &N,
    alloc: Global,
    desks: &mut D,
    file: &'w str,
    wanted: &ServerOptions<'w>,
    writer: &mut W,
) -> Result<(), ProgramFault<'w>>
    ensures { ServesOn K.Lookup D.DeskOpener B.Network K.expects K.prepares file.entry.now wanted.now.dict.now wanted.now.http.now wanted.now.rounds desks.old desks.new result
        (change W.stream writer.old writer.new) }
{
    let mut driver = None;
    let end = serve_catalogue(
        network,
        net,
        alloc,
        desks,
        file,
        wanted,
        writer,
        &mut driver,
    );
    drop(driver);
    end
}

// Changes the catalogue of a file.
fn perform_change<'w, K: Preparer + Drop, D: DeskOpener<K>, I: InputFiles, W: Sink>(
    alloc: Global,
    desks: &mut D,
    file: &'w str,
    name: &'w str,
    id: &'w str,
    what: &ItemChange<'w>,
    files: &I,
    writer: &mut W,
) -> Result<(), ProgramFault<'w>>
    ensures ends { ChangeTaskEnds K.Lookup D.DeskOpener K.fails_to_apply (I.octets files.now) desks.old desks.new file.entry.now name.entry.now id.entry.now what.now result
        (change W.stream writer.old writer.new) }
    ensures order { ChangesInOrder D.DeskOpener desks.old desks.new (I.reads files.now) (I.refuses files.now) file.entry.now what.now result }
{
    match what {
        ItemChange::Install { index, text } => {
            let (index, text) = (*index, *text);
            let wanted = InstallRequest { name, index, text };
            install_over(alloc, desks, file, id, wanted, files, writer)
        }
        ItemChange::Rollback => {
            let command = Command::Rollback { name };
            change_over(desks, file, id, &command, writer)
        }
        ItemChange::Retire => {
            let command = Command::Retire { name };
            change_over(desks, file, id, &command, writer)
        }
        ItemChange::Virtual { title, members } => {
            let (title, members) = (*title, members.as_slice());
            put_virtual_over(desks, file, id, name, title, members, writer)
        }
        ItemChange::Place { place } => {
            let place = u64::from(*place);
            let command = Command::Place { name, place };
            change_over(desks, file, id, &command, writer)
        }
    }
}

// Puts a virtual item into the catalogue of a file.
fn put_virtual_over<'w, K: Preparer + Drop, D: DeskOpener<K>, W: Sink>(
    desks: &mut D,
    file: &'w str,
    id: &str,
    name: &str,
    title: &str,
    members: &[&str],
    writer: &mut W,
) -> Result<(), ProgramFault<'w>>
    ensures { ChangeEnds K.Lookup D.DeskOpener K.fails_to_apply file.entry.now id.now (put_virtual name.now title.now (words_shown members.now)) desks.old desks.new result
        (change W.stream writer.old writer.new) }
{
    let command = Command::PutVirtual {
        name,
        title,
        members,
    };
    change_over(desks, file, id, &command, writer)
}
