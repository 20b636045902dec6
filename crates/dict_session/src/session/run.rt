// A session over a source and a sink.
ghost use Rattle.dict_proto.specs.Streams.{change};
ghost use Rattle.std.specs.Prelude.{◌≡◌, Err};
ghost use Rattle.dict_catalogue.specs.Steps.{Catalogue};
ghost use Rattle.dict_session.specs.Desks.{condition, Stays};
ghost use Rattle.dict_session.specs.Run.{Ends};
ghost use Rattle.dict_session.specs.Through.{EndsThrough};

use crate::session::Session;
use crate::step::{Course, Step};
use dict_desk::Lookup;
use dict_proto::{Sink, Source};
use std::alloc::Global;

/// How a session ended that met no fault.
#[derive(Clone, Copy, Debug, PartialEq, Eq)]
pub enum SessionEnd {
    /// A QUIT was answered.
    Quit,
    /// The client's octets ended.
    InputEnd,
}

/// Why a session ended otherwise.
#[derive(Clone, Copy, Debug, PartialEq, Eq)]
pub enum SessionFault {
    /// The reader failed, or has given 18,446,744,073,709,551,615 octets.
    Read,
    /// The writer failed.
    Write,
    /// The desk failed after an answer's first octet.
    Broken,
    /// The session's room was refused. Nothing was read or written.
    Memory,
}

/// Greets a client, and answers its lines up to a QUIT or to the end of its octets. `host` is the name of the server's
/// host, and `connection` the connection's number. At most 4,096 octets are read at a time, and no more once a QUIT
/// was answered or the session is broken.
pub fn run<S: Source, K: Sink, L: Lookup>(
    alloc: Global,
    reader: &mut S,
    writer: &mut K,
    desk: &mut L,
    host: &str,
    connection: u64,
) -> Result<SessionEnd, SessionFault>
    ensures answers { L.is_trusted desk.new → (M : Catalogue) → L.shows desk.old M → Ends M host.now connection (condition L.has_failed L.is_closed desk.new) result
        (change S.stream reader.old reader.new) (change K.stream writer.old writer.new) }
    ensures desk { Stays L.shows L.leaves_one_of L.keeps_beside L.is_trusted L.is_closed desk.old desk.new }
    ensures through { L.is_trusted desk.new → (M : Catalogue) → L.shows desk.old M → EndsThrough M host.now connection (L.is_closed desk.old) (condition L.has_failed L.is_closed desk.new) result
        (change S.stream reader.old reader.new) (change K.stream writer.old writer.new) }
    ensures memory { result ≡ Err SessionFault.Memory → (reader.new ≡ reader.old) × (writer.new ≡ writer.old) }
{
    let Ok(mut session) = Session::new(alloc, host, connection) else {
        return Err(SessionFault::Memory);
    };
    match session.greet(writer) {
        Step::More => {}
        Step::Quit | Step::Broken => return Err(SessionFault::Write),
    }
    let mut room = [0u8; 4096];
    'reads: for _turn in 0..u64::MAX {
        match reader.take(&mut room) {
            Err(_) => return Err(SessionFault::Read),
            Ok(0) => return Ok(SessionEnd::InputEnd),
            Ok(n) => match session.advance(alloc, &room[..n], desk, writer) {
                Course::More => {}
                Course::Quit => return Ok(SessionEnd::Quit),
                Course::SinkFailed => return Err(SessionFault::Write),
                Course::DeskFailed => return Err(SessionFault::Broken),
            },
        }
    }
    Err(SessionFault::Read)
}
