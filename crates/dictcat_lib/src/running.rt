// The program over desks of files.
ghost use Rattle.std.specs.Prelude.{map};
ghost use Rattle.dict_proto.specs.Streams.{change};
ghost use Rattle.app_commands.specs.Program.{CommandEnds};

use crate::files::CatalogueFiles;
use crate::opener::FileOpener;
use app_commands::{Catalogues, command};
use app_words::InputFiles;
use dict_desk::{Keeper, Lookup, PlainDesk, Preparer};
use dict_proto::{Sink, Source};
use mio::net::TcpListener;
use net_driver::{Network, System, SystemSockets};
use net_serving::DeskOpener;
use sqlite::{Alter, FileStore};
use sqlite_disk::Disk;
use std::convert::AsStr;
use store_desk::Desk;

// The same over any catalogues in a store of any kind. Over those of a type the prover compares the bounds of `command` for minutes.
fn run_any<
    A: AsStr,
    K: Alter + Drop,
    C: Catalogues<Desk<K>>,
    I: InputFiles,
    S: Source,
    W: Sink,
    F: Sink,
>(
    rt: &HostRuntime,
    words: &[A],
    desks: &mut C,
    plain: &mut PlainDesk,
    files: &I,
    reader: &mut S,
    writer: &mut W,
    faults: &mut F,
) -> u8
    ensures { CommandEnds ⟦<Desk<K> as Lookup>⟧ C.DeskOpener C.Catalogues.own ⟦<System as Network<TcpListener, SystemSockets>>⟧ I.InputFiles
        ⟦<Desk<K> as Keeper>⟧.fails_to_apply ⟦<Desk<K> as Preparer>⟧.expects ⟦<Desk<K> as Preparer>⟧.prepares files.now plain.new desks.old desks.new (map A.text words.now) result
        (change S.stream reader.old reader.new) (change W.stream writer.old writer.new) (change F.stream faults.old faults.new) }
{
    command(
        &System,
        rt,
        rt.alloc(),
        words,
        desks,
        plain,
        files,
        reader,
        writer,
        faults,
    )
}

// The same over any catalogues in files.
fn run_files<
    A: AsStr,
    D: Disk + Drop,
    C: Catalogues<Desk<FileStore<D>>>,
    I: InputFiles,
    S: Source,
    W: Sink,
    F: Sink,
>(
    rt: &HostRuntime,
    words: &[A],
    desks: &mut C,
    plain: &mut PlainDesk,
    files: &I,
    reader: &mut S,
    writer: &mut W,
    faults: &mut F,
) -> u8
    ensures { CommandEnds ⟦<Desk<FileStore<D>> as Lookup>⟧ C.DeskOpener C.Catalogues.own ⟦<System as Network<TcpListener, SystemSockets>>⟧ I.InputFiles
        ⟦<Desk<FileStore<D>> as Keeper>⟧.fails_to_apply ⟦<Desk<FileStore<D>> as Preparer>⟧.expects ⟦<Desk<FileStore<D>> as Preparer>⟧.prepares files.now plain.new desks.old desks.new (map A.text words.now) result
        (change S.stream reader.old reader.new) (change W.stream writer.old writer.new) (change F.stream faults.old faults.new) }
{
    run_any(rt, words, desks, plain, files, reader, writer, faults)
}

/// `command` of `app_commands` over the catalogue in a file, by the system's sockets.
pub fn run_over<
    'r,
    A: AsStr,
    D: Disk + Drop,
    O: FileOpener<D>,
    I: InputFiles,
    S: Source,
    W: Sink,
    F: Sink,
>(
    rt: &HostRuntime,
    words: &[A],
    desks: &mut CatalogueFiles<'r, D, O>,
    plain: &mut PlainDesk,
    files: &I,
    reader: &mut S,
    writer: &mut W,
    faults: &mut F,
) -> u8
    ensures { CommandEnds ⟦<Desk<FileStore<D>> as Lookup>⟧ ⟦<CatalogueFiles<'r, D, O> as DeskOpener<Desk<FileStore<D>>>>⟧ (let q = ⟦<CatalogueFiles<'r, D, O> as Catalogues<Desk<FileStore<D>>>>⟧ in record { is_made = q.is_made; is_unmade = q.is_unmade; is_sound = q.is_sound; is_unsound = q.is_unsound; has_spoken = q.has_spoken }) ⟦<System as Network<TcpListener, SystemSockets>>⟧ I.InputFiles
        ⟦<Desk<FileStore<D>> as Keeper>⟧.fails_to_apply ⟦<Desk<FileStore<D>> as Preparer>⟧.expects ⟦<Desk<FileStore<D>> as Preparer>⟧.prepares files.now plain.new desks.old desks.new (map A.text words.now) result
        (change S.stream reader.old reader.new) (change W.stream writer.old writer.new) (change F.stream faults.old faults.new) }
{
    run_files(rt, words, desks, plain, files, reader, writer, faults)
}
