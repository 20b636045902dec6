// Why the program didn't do what it was asked.
ghost use Rattle.std.specs.Prelude.{◌≡◌, ◌++◌, codes};
ghost use Rattle.dict_proto.specs.Streams.{Puts};
ghost use Rattle.app_words.specs.Faults.{fault_line, refused, refused_at, status_of, store_line};

use dict_catalogue::CommandRefusal;
use dict_desk::Fault as DeskFault;
use dict_index::{EditionRefusal, IndexFault};
use dict_proto::{Sink, SinkFault, put_all};
use itoa::Buffer;
use thiserror::Error;

/// Why a command was not done. Its text is the line that standard error gets, without the line's end.
#[derive(Clone, Copy, Debug, PartialEq, Eq, Error)]
pub enum ProgramFault<'w> {
    /// A line of an index doesn't pass a test of editions.
    #[error("refused {} {} line {line}", .refusal.number(), .refusal.name())]
    Line {
        refusal: EditionRefusal,
        line: usize,
    },
    /// An index and a text as a whole don't pass a test of editions.
    #[error("refused {} {}", .0.number(), .0.name())]
    Edition(EditionRefusal),
    /// A command doesn't pass a test of commands: of these, a name that isn't lawful.
    #[error("refused {} {}", .0.number(), .0.name())]
    Refused(CommandRefusal),
    /// The catalogue of a file can't be had.
    #[error("{}", .0.line())]
    Store(StoreFault),
    /// The file with this path can't be read.
    #[error("cannot read {0}")]
    CannotRead(&'w str),
    /// A session's reader or writer failed.
    #[error("session ended by a fault")]
    SessionEnded,
    /// Standard output failed outside a session.
    #[error("cannot write output")]
    CannotWrite,
    /// This is no address of a socket, or it can't be listened at.
    #[error("cannot bind {0}")]
    CannotBind(&'w str),
    /// Sockets can't be waited for.
    #[error("cannot wait for connections")]
    CannotWait,
    /// A growth was refused.
    #[error("fault 40 Memory")]
    Memory,
}

/// Why the catalogue of a file can't be had.
#[derive(Clone, Copy, Debug, PartialEq, Eq)]
pub enum StoreFault {
    /// The store failed. A command that was asked for is there whole or not at all.
    Disk,
    /// The store failed earlier.
    Closed,
    /// The file has no readable mark of a catalogue; where one was to be made, a name of its tables is in use.
    NotACatalogue,
    /// The file has the mark of a catalogue, and holds none.
    Damaged,
    /// The file's catalogue is of a later version than the program knows.
    NewerSchema,
}

impl StoreFault {
    /// The line that standard error gets, without the line's end.
    pub fn line(self) -> &'static str
        ensures { result.now ≡ store_line self }
    {
        match self {
            StoreFault::Disk => "fault 41 Disk",
            StoreFault::Closed => "fault 42 Closed",
            StoreFault::NotACatalogue => "fault 43 NotACatalogue",
            StoreFault::Damaged => "fault 44 Damaged",
            StoreFault::NewerSchema => "fault 45 NewerSchema",
        }
    }
}

impl ProgramFault<'_> {
    /// The status that the program ends with: 1 for a refusal, 4 for memory, and else 3.
    pub fn status(&self) -> u8
        ensures { result ≡ status_of self.now }
    {
        match self {
            ProgramFault::Line { .. } | ProgramFault::Edition(_) | ProgramFault::Refused(_) => 1,
            ProgramFault::Store(_)
            | ProgramFault::CannotRead(_)
            | ProgramFault::SessionEnded
            | ProgramFault::CannotWrite => 3,
            ProgramFault::CannotBind(_) | ProgramFault::CannotWait => 3,
            ProgramFault::Memory => 4,
        }
    }

    /// Puts the line that standard error gets, and the line's end. It takes no memory.
    pub fn put_line<K: Sink>(&self, sink: &mut K) -> Result<(), SinkFault>
        ensures { Puts result (K.stream sink.old) (K.stream sink.new) (fault_line self.now ++ codes "\n") }
    {
        match self {
            ProgramFault::Line { refusal, line } => {
                put_refusal_at(sink, refusal.number(), refusal.name(), *line)
            }
            ProgramFault::Edition(refusal) => put_refusal(sink, refusal.number(), refusal.name()),
            ProgramFault::Refused(refusal) => put_refusal(sink, refusal.number(), refusal.name()),
            ProgramFault::Store(fault) => put_all(sink, &[fault.line().as_bytes(), b"\n"]),
            ProgramFault::CannotRead(path) => put_all(
                sink,
                &[b"cannot read ", path.as_bytes(), b"\n"],
            ),
            ProgramFault::SessionEnded => sink.put(b"session ended by a fault\n"),
            ProgramFault::CannotWrite => sink.put(b"cannot write output\n"),
            ProgramFault::CannotBind(address) => {
                put_all(sink, &[b"cannot bind ", address.as_bytes(), b"\n"])
            }
            ProgramFault::CannotWait => sink.put(b"cannot wait for connections\n"),
            ProgramFault::Memory => sink.put(b"fault 40 Memory\n"),
        }
    }
}

// Puts the line of a refusal, by its number and its name.
fn put_refusal<K: Sink>(sink: &mut K, number: u8, name: &str) -> Result<(), SinkFault>
    ensures { Puts result (K.stream sink.old) (K.stream sink.new) (refused number name.now ++ codes "\n") }
{
    let mut buffer = Buffer::new();
    let number = buffer.format(number);
    put_all(
        sink,
        &[b"refused ", number.as_bytes(), b" ", name.as_bytes(), b"\n"],
    )
}

// The same at a line of an index.
fn put_refusal_at<K: Sink>(
    sink: &mut K,
    number: u8,
    name: &str,
    line: usize,
) -> Result<(), SinkFault>
    ensures { Puts result (K.stream sink.old) (K.stream sink.new) (refused_at number name.now line ++ codes "\n") }
{
    let mut number_buffer = Buffer::new();
    let mut line_buffer = Buffer::new();
    let number = number_buffer.format(number);
    let line = line_buffer.format(line);
    put_all(
        sink,
        &[
            b"refused ",
            number.as_bytes(),
            b" ",
            name.as_bytes(),
            b" line ",
            line.as_bytes(),
            b"\n",
        ],
    )
}

impl From<IndexFault> for ProgramFault<'_> {
    ghost use Rattle.app_words.specs.Faults.{told};

    ghost from_gives = { λ fault gives. gives ≡ told fault };

    fn from(fault: IndexFault) -> Self {
        match fault {
            IndexFault::Refused {
                refusal,
                line: Some(line),
            } => ProgramFault::Line { refusal, line },
            IndexFault::Refused {
                refusal,
                line: None,
            } => ProgramFault::Edition(refusal),
            IndexFault::Memory => ProgramFault::Memory,
        }
    }
}

impl From<DeskFault> for ProgramFault<'_> {
    ghost use Rattle.app_words.specs.Faults.{told_of};

    ghost from_gives = { λ fault gives. gives ≡ told_of fault };

    fn from(fault: DeskFault) -> Self {
        match fault {
            DeskFault::Refused(refusal) => ProgramFault::Refused(refusal),
            DeskFault::Memory => ProgramFault::Memory,
            DeskFault::Disk => ProgramFault::Store(StoreFault::Disk),
            DeskFault::Closed => ProgramFault::Store(StoreFault::Closed),
            DeskFault::NotACatalogue => ProgramFault::Store(StoreFault::NotACatalogue),
            DeskFault::Damaged => ProgramFault::Store(StoreFault::Damaged),
            DeskFault::NewerSchema => ProgramFault::Store(StoreFault::NewerSchema),
        }
    }
}
