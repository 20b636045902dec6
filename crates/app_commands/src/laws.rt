// What each status tells.
ghost use Rattle.std.specs.Prelude.{◌≤◌, ℕ, List};
ghost use Rattle.dict_desk.specs.Plain.{PlainState};
ghost use Rattle.dict_proto.specs.Streams.{StreamChange};
ghost use Rattle.app_words.specs.Writing.{IsUntouched};
ghost use Rattle.app_commands.specs.Program.{CommandEnds, IsDone, IsExhausted, IsFailed};

use crate::catalogues::Catalogues;
use app_words::InputFiles;
use dict_desk::Preparer;
use mio::net::TcpListener;
use net_driver::{Network, SystemSockets};

/// With 0 what was asked for was done, and nothing is told. With 1 and 2 nothing was read or written. With 3 neither, or a
/// session ended by a fault, or nothing was read and the writer failed, or a server that had told its addresses was cut off
/// by a fault. With 4 nothing was read or written, and a change that was asked for was not made; or memory ran out in a
/// server that had told its addresses. There is no other status.
pub fn status_laws<
    K: Preparer,
    D: Catalogues<K>,
    B: Network<TcpListener, SystemSockets>,
    I: InputFiles,
>()
    ensures statuses { (files : I) (plain : PlainState) (old new : D) (words : List (List ℕ)) (status : ℕ) (reader writer faults : StreamChange)
        → CommandEnds K.Lookup D.DeskOpener D.Catalogues.own B.Network I.InputFiles K.fails_to_apply K.expects K.prepares files plain old new words status reader writer faults → status ≤ 4 }
    ensures done { (files : I) (plain : PlainState) (old new : D) (words : List (List ℕ)) (reader writer faults : StreamChange)
        → CommandEnds K.Lookup D.DeskOpener D.Catalogues.own B.Network I.InputFiles K.fails_to_apply K.expects K.prepares files plain old new words 0 reader writer faults → IsDone K.Lookup D.DeskOpener D.Catalogues.own B.Network K.fails_to_apply K.expects K.prepares (I.octets files) plain old new words reader writer × IsUntouched faults }
    ensures refused { (files : I) (plain : PlainState) (old new : D) (words : List (List ℕ)) (reader writer faults : StreamChange)
        → CommandEnds K.Lookup D.DeskOpener D.Catalogues.own B.Network I.InputFiles K.fails_to_apply K.expects K.prepares files plain old new words 1 reader writer faults → IsUntouched reader × IsUntouched writer }
    ensures misread { (files : I) (plain : PlainState) (old new : D) (words : List (List ℕ)) (reader writer faults : StreamChange)
        → CommandEnds K.Lookup D.DeskOpener D.Catalogues.own B.Network I.InputFiles K.fails_to_apply K.expects K.prepares files plain old new words 2 reader writer faults → IsUntouched reader × IsUntouched writer }
    ensures failed { (files : I) (plain : PlainState) (old new : D) (words : List (List ℕ)) (reader writer faults : StreamChange)
        → CommandEnds K.Lookup D.DeskOpener D.Catalogues.own B.Network I.InputFiles K.fails_to_apply K.expects K.prepares files plain old new words 3 reader writer faults → IsFailed K.Lookup D.DeskOpener D.Catalogues.own K.expects K.prepares plain old new words reader writer }
    ensures memory { (files : I) (plain : PlainState) (old new : D) (words : List (List ℕ)) (reader writer faults : StreamChange)
        → CommandEnds K.Lookup D.DeskOpener D.Catalogues.own B.Network I.InputFiles K.fails_to_apply K.expects K.prepares files plain old new words 4 reader writer faults → IsExhausted K.Lookup D.DeskOpener D.Catalogues.own K.expects K.prepares old new words reader writer }
{}
