// The program but for its standard streams.
ghost use Rattle.std.specs.Prelude.{◌≡◌, ◌≢◌, ℕ, List, map};
ghost use Rattle.std.specs.IoError.{error_kind};
ghost use Rattle.std.specs.declared.io.ErrorKind.TheVariants.{OutOfMemory};
ghost use Rattle.clap.specs.Values.{kind_of};
ghost use Rattle.app_words.specs.Asked.{Fails};
ghost use Rattle.app_commands.specs.Program.{AnswerEnds, CommandEnds, Closes, PutsTextOrFront, ShowsText, TellsFault, TellsMistake, not_text};
ghost use Rattle.app_words.specs.Writing.{IsUntouched};
ghost use Rattle.dict_proto.specs.Streams.{StreamChange, change};

use crate::catalogues::Catalogues;
use crate::task::perform;
use app_words::{InputFiles, ProgramFault, read_words};
use clap::Error;
use clap::error::ErrorKind;
use dict_desk::{PlainDesk, Preparer};
use dict_proto::{Sink, Source};
use mio::net::TcpListener;
use net_driver::{Network, SystemSockets};
use std::alloc::Global;
use std::convert::AsStr;
use std::io;
use std::net::Net;

/// Does what the words ask for, of which the first is the program's name, and answers the status to end with: 0
/// where it is done, 1 for a refusal, 2 for words that it can't make out, 3 for a file, an output or a session
/// that failed, and 4 where memory ran out. Nothing goes to `faults` where the status is 0, and else one text.
///
/// No catalogue is opened, changed or closed but that of the file that the words name, and this once, as its task says. A file
/// can be named to `desks` and `files` alone: nothing else that this is handed opens one.
pub fn command<
    A: AsStr,
    K: Preparer + Drop,
    D: Catalogues<K>,
    B: Network<TcpListener, SystemSockets>,
    N: Net,
    I: InputFiles,
    S: Source,
    W: Sink,
    F: Sink,
>(
    network: &B,
    net: &N,
    alloc: Global,
    words: &[A],
    desks: &mut D,
    plain: &mut PlainDesk,
    files: &I,
    reader: &mut S,
    writer: &mut W,
    faults: &mut F,
) -> u8
    ensures { CommandEnds K.Lookup D.DeskOpener D.Catalogues.own B.Network I.InputFiles K.fails_to_apply K.expects K.prepares files.now plain.new desks.old desks.new (map A.text words.now) result
        (change S.stream reader.old reader.new) (change W.stream writer.old writer.new) (change F.stream faults.old faults.new) }
{
    match read_words(alloc, words) {
        Ok(task) => {
            let end = perform(
                network, net, alloc, &task, desks, plain, files, reader, writer,
            );
            let status = status_of_end(&end, faults);
            drop(task);
            status
        }
        Err(error) => {
            let status = answer_words(alloc, &error, writer, faults);
            drop(error);
            status
        }
    }
}

/// Says why the program's words can't be had: they are no texts, or memory ran out.
pub fn refuse_words<F: Sink>(fault: &io::Error, faults: &mut F) -> u8
    ensures memory { error_kind fault.now ≡ OutOfMemory → TellsFault ProgramFault.Memory result (change F.stream faults.old faults.new) }
    ensures not_text { error_kind fault.now ≢ OutOfMemory → (result ≡ 2) × PutsTextOrFront not_text (change F.stream faults.old faults.new) }
{
    if fault.kind() == io::ErrorKind::OutOfMemory {
        return tell_fault(&ProgramFault::Memory, faults);
    }
    let _ = faults.put(NOT_TEXT.as_bytes());
    2
}

// What clap says of words that are no texts.
const NOT_TEXT: &str =
    "error: invalid UTF-8 was detected in one or more arguments\n\nUsage: dictcat <COMMAND>\n\nFor more information, try '--help'.\n";

// Answers words that ask for no task: for help or the version, or by mistake.
fn answer_words<K: Sink, F: Sink>(
    alloc: Global,
    error: &Error,
    writer: &mut K,
    faults: &mut F,
) -> u8
    ensures { (words : List (List ℕ)) → Fails words (kind_of error.now) → (reader : StreamChange) → IsUntouched reader
        → AnswerEnds words result reader (change K.stream writer.old writer.new) (change F.stream faults.old faults.new) }
{
    match error.kind() {
        ErrorKind::OutOfMemory => tell_fault(&ProgramFault::Memory, faults),
        ErrorKind::DisplayHelp | ErrorKind::DisplayVersion => {
            let end = show(alloc, error, writer);
            status_of_end(&end, faults)
        }
        _ => tell_mistake(alloc, error, faults),
    }
}

// Shows help or the version.
fn show<K: Sink>(alloc: Global, error: &Error, writer: &mut K) -> Result<(), ProgramFault<'static>>
    ensures { ShowsText result (change K.stream writer.old writer.new) }
{
    let Ok(text) = error.to_string(alloc) else {
        return Err(ProgramFault::Memory);
    };
    match writer.put(text.as_bytes()) {
        Ok(()) => Ok(()),
        Err(_) => Err(ProgramFault::CannotWrite),
    }
}

// Tells what is wrong with the words.
fn tell_mistake<F: Sink>(alloc: Global, error: &Error, faults: &mut F) -> u8
    ensures { TellsMistake result (change F.stream faults.old faults.new) }
{
    let Ok(text) = error.to_string(alloc) else {
        return tell_fault(&ProgramFault::Memory, faults);
    };
    let _ = faults.put(text.as_bytes());
    2
}

// What is done ends with 0, and what is not with the status of its fault, which is told.
fn status_of_end<F: Sink>(end: &Result<(), ProgramFault<'_>>, faults: &mut F) -> u8
    ensures { Closes end.now result (change F.stream faults.old faults.new) }
{
    match end {
        Ok(()) => 0,
        Err(fault) => tell_fault(fault, faults),
    }
}

// Tells a fault in a line of its own.
fn tell_fault<F: Sink>(fault: &ProgramFault<'_>, faults: &mut F) -> u8
    ensures { TellsFault fault.now result (change F.stream faults.old faults.new) }
{
    let _ = fault.put_line(faults);
    fault.status()
}
