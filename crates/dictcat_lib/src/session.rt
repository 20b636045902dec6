// A session over a file's catalogue.
ghost use Rattle.std.specs.Prelude.{◌≡◌, Err, IfOk, MatchResult};
ghost use Rattle.sqlite.specs.Files.{over_files};
ghost use Rattle.sqlite.specs.Held.{Held};
ghost use Rattle.dict_proto.specs.Streams.{change};
ghost use Rattle.app_words.specs.Writing.{IsUntouched};
ghost use Rattle.dictcat_lib.specs.DeskOpener.{IsNoDeskAt};
ghost use Rattle.dictcat_lib.specs.Files.{IsOpenedFrom};
ghost use Rattle.dictcat_lib.specs.Opening.{HasSpoken, over_told};

use crate::left::{Left, hold};
use crate::opener::FileOpener;
use crate::stores::{close_file, open_file};
use app_words::ProgramFault;
use dict_proto::{Sink, Source};
use dict_session::{SessionEnd, SessionFault};
use net_serving::HOST;
use sqlite::FileStore;
use sqlite_disk::Disk;
use store_desk::{Desk, session_over};

// A session's desk, and how it ended.
type Spoken<D> = (Desk<FileStore<D>>, Result<SessionEnd, SessionFault>);

// Runs a session over the catalogue in the file with this path, with host `localhost` and as connection 1. Where there is none, `held`
// is what is left of the file.
pub(crate) fn run_session<'w, D: Disk + Drop, O: FileOpener<D>, R: Source, W: Sink>(
    rt: &HostRuntime,
    file: &'w str,
    start: &mut Option<O>,
    number: &mut u64,
    held: &mut Option<Left<D>>,
    reader: &mut R,
    writer: &mut W,
) -> Result<Spoken<D>, ProgramFault<'w>>
    ensures spoken { MatchResult result
        (λ ran. (conn : Held _) × IsOpenedFrom O.image conn × HasSpoken over_files conn ran.0 ran.1 (change R.stream reader.old reader.new) (change W.stream writer.old writer.new))
        (λ fault. IsNoDeskAt O.image O.refuses file.entry.now start.old start.new held.old held.new fault × IsUntouched (change R.stream reader.old reader.new) × IsUntouched (change W.stream writer.old writer.new)) }
    ensures memory { IfOk result (λ ran. ran.1 ≡ Err SessionFault.Memory → IsUntouched (change R.stream reader.old reader.new) × IsUntouched (change W.stream writer.old writer.new)) }
{
    let conn = open_file(rt, file, false, start, number, held)?;
    match session_over(rt.alloc(), conn, reader, writer, HOST, 1) {
        Ok(spoken) => Ok(spoken),
        Err((conn, fault)) => {
            hold(held, close_file(conn));
            Err(ProgramFault::from(fault))
        }
    }
}

// What is told of a session over a file.
pub(crate) fn told_over(end: Result<SessionEnd, SessionFault>) -> Result<(), ProgramFault<'static>>
    ensures { result ≡ over_told end }
{
    match end {
        Ok(_) => Ok(()),
        Err(SessionFault::Memory) => Err(ProgramFault::Memory),
        Err(_) => Err(ProgramFault::SessionEnded),
    }
}
