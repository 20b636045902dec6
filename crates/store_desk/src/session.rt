// A session over the catalogue that a database holds.
ghost use Rattle.std.specs.Prelude.{◌≡◌, false, List, Option, None, IfOk, IfErr, Err};
ghost use Rattle.sqlite.specs.Effect.{Database};
ghost use Rattle.sqlite.specs.State.{HasCleanDisk};
ghost use Rattle.sqlite.specs.Held.{state};
ghost use Rattle.dict_catalogue.specs.Steps.{Catalogue};
ghost use Rattle.dict_proto.specs.Streams.{change};
ghost use Rattle.store_desk.specs.Adopted.{IsNotAdopted, FailsToOpen};
ghost use Rattle.store_desk.specs.Desk.{KeepsBeside, LeavesOneOf};
ghost use Rattle.store_desk.specs.Over.{HasRun, IsUnmoved, ConnectionKeepsBeside, ConnectionLeavesOneOf, TellsNoLeft};

use crate::adopting::is_whole;
use crate::desk::Desk;
use dict_desk::Fault;
use dict_proto::{Sink, Source};
use dict_session::{SessionEnd, SessionFault, run};
use sqlite::{Alter, Connection};
use std::alloc::Global;

/// Opens the desk over a connection, and runs a session over its catalogue. `host` is the name of the server's host, and
/// `number` the session's number. The desk is handed back with the end: it tells how its last call ended, so whether the session was
/// broken off for it.
///
/// Nothing is written to a database of the known version; of one of an older version the tables of the known one are made, as by
/// `adopt`. Where it isn't opened, the fault is one of `adopt`, nothing was read or written, and the
/// connection is handed back, in no transaction. Its limit on steps is taken away.
pub fn session_over<S: Alter + Drop, R: Source, K: Sink>(
    alloc: Global,
    connection: Connection<S>,
    reader: &mut R,
    writer: &mut K,
    host: &str,
    number: u64,
) -> Result<(Desk<S>, Result<SessionEnd, SessionFault>), (Connection<S>, Fault)>
    requires { connection.in_transaction ≡ false }
    ensures ran { IfOk result (λ ran. HasCleanDisk (state S.Store ran.0.conn) → HasRun S.Store connection ran.0 host.now number ran.1
        (change R.stream reader.old reader.new) (change K.stream writer.old writer.new)) }
    ensures memory { IfOk result (λ ran. ran.1 ≡ Err SessionFault.Memory → IsUnmoved (change R.stream reader.old reader.new) × IsUnmoved (change K.stream writer.old writer.new)) }
    ensures leaves { IfOk result (λ ran. (ms : List (Option Catalogue)) → ConnectionLeavesOneOf S.Store connection ms → LeavesOneOf S.Store ran.0 ms) }
    ensures beside { IfOk result (λ ran. (db : Database) → ConnectionKeepsBeside S.Store connection db → KeepsBeside S.Store ran.0 db) }
    ensures unopened { IfErr result (λ left. IsNotAdopted S.Store connection left.0 left.1) }
    ensures failed { IfErr result (λ left. HasCleanDisk (state S.Store left.0) → left.1 ≡ Fault.Disk → FailsToOpen S.Store (record connection { step_limit = None }) left.0) }
    ensures not_left { IfErr result (λ left. TellsNoLeft S.Store connection left.0 left.1) }
    ensures untouched { IfErr result (λ _. IsUnmoved (change R.stream reader.old reader.new) × IsUnmoved (change K.stream writer.old writer.new)) }
    ensures leaves_unopened { IfErr result (λ left. (ms : List (Option Catalogue)) → ConnectionLeavesOneOf S.Store connection ms → ConnectionLeavesOneOf S.Store left.0 ms) }
    ensures beside_unopened { IfErr result (λ left. (db : Database) → ConnectionKeepsBeside S.Store connection db → ConnectionKeepsBeside S.Store left.0 db) }
    ensures autocommit { IfErr result (λ left. left.0.in_transaction ≡ false) }
{
    is_whole(&connection);
    let mut desk = match Desk::adopt(alloc, connection, false) {
        Ok(desk) => desk,
        Err(left) => return Err(left),
    };
    let end = run(alloc, reader, writer, &mut desk, host, number);
    Ok((desk, end))
}
