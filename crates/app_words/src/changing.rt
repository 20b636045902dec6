// A change of a desk's catalogue.
ghost use Rattle.std.specs.Prelude.{◌≡◌};
ghost use Rattle.dict_proto.specs.Streams.{change, Puts};
ghost use Rattle.dict_catalogue.specs.Views.{command_meant, kept_shown};
ghost use Rattle.dict_session.specs.Desks.{Stays};
ghost use Rattle.app_words.specs.Writing.{Prints};
ghost use Rattle.app_words.specs.Changing.{IsChanged, TellsAnswer, kept_line};

use crate::fault::ProgramFault;
use dict_catalogue::{Command, Kept};
use dict_desk::{Fault as DeskFault, Preparer};
use dict_proto::{Sink, SinkFault};
use http_service::put_kept;

// What a command leaves to be done later has so many parts at most.
const MAX_PARTS: usize = 65_536;

// Does a bounded part of what commands left to be done later. Whether there is more.
fn do_part<K: Preparer>(desk: &mut K) -> bool
    ensures { Stays K.shows K.leaves_one_of K.keeps_beside K.is_trusted K.is_closed desk.old desk.new }
{
    match desk.prepare() {
        Ok(more) => more,
        Err(_) => false,
    }
}

// Does what commands left to be done later. Where that fails, it is left for the next command.
fn do_later<K: Preparer>(desk: &mut K)
    ensures { Stays K.shows K.leaves_one_of K.keeps_beside K.is_trusted K.is_closed desk.old desk.new }
{
    for _ in 0..MAX_PARTS {
        if !do_part(desk) {
            return;
        }
    }
}

/// Applies a command under the id of its request, writes its reply as a line of JSON, and does what the command left to be done later.
///
/// The command acts before the reply is written, and the writing takes no memory: where `Memory` is told, nothing was
/// changed; where `CannotWrite` is, it has acted, and its reply is kept under the id.
pub fn change<K: Preparer, W: Sink>(
    desk: &mut K,
    id: &str,
    command: &Command,
    writer: &mut W,
) -> Result<(), ProgramFault<'static>>
    ensures changed { IsChanged K.shows K.leaves_one_of K.keeps_beside K.is_trusted K.is_closed K.fails_to_apply desk.old desk.new id.now (command_meant command.now) result (change W.stream writer.old writer.new) }
    ensures memory { result ≡ Err ProgramFault.Memory → Stays K.shows K.leaves_one_of K.keeps_beside K.is_trusted K.is_closed desk.old desk.new }
{
    let answer = desk.apply(id, command);
    let told = tell_answer(&answer, writer);
    if answer.is_ok() {
        do_later(desk);
    }
    told
}

// Writes the reply of a command that was accepted, or gives its fault.
fn tell_answer<W: Sink>(
    answer: &Result<Kept, DeskFault>,
    writer: &mut W,
) -> Result<(), ProgramFault<'static>>
    ensures { TellsAnswer answer.now result (change W.stream writer.old writer.new) }
{
    match answer {
        Ok(kept) => tell_kept(kept, writer),
        Err(fault) => Err(ProgramFault::from(*fault)),
    }
}

// Writes a reply as a line of JSON.
pub(crate) fn tell_kept<W: Sink>(kept: &Kept, writer: &mut W) -> Result<(), ProgramFault<'static>>
    ensures { Prints (kept_line (kept_shown kept.now)) result (change W.stream writer.old writer.new) }
{
    match put_line(writer, kept) {
        Ok(()) => Ok(()),
        Err(_) => Err(ProgramFault::CannotWrite),
    }
}

// Puts a reply, and the line's end.
fn put_line<W: Sink>(writer: &mut W, kept: &Kept) -> Result<(), SinkFault>
    ensures { Puts result (W.stream writer.old) (W.stream writer.new) (kept_line (kept_shown kept.now)) }
{
    put_kept(writer, kept)?;
    writer.put(b"\n")
}
