// Rounds over the desk of a file, which is opened again where its store failed.
ghost use Rattle.std.specs.Prelude.{◌≡◌, ◌⊎◌, ◌<◌, ◌-◌, true, false, IfOk, MatchResult, Option, Some, None, Result, List, [], ◌∷◌};
ghost use Rattle.std.specs.Duration.{as_nanos};
ghost use Rattle.std.specs.declared.io.Error.{Error};
ghost use Rattle.net_driver.specs.declared.serving.RoundsEnd.{RoundsEnd};
ghost use Rattle.dict_proto.specs.Streams.{change};
ghost use Rattle.net_serving.specs.Counting.{HasMadeRounds, AreMadeTo};
ghost use Rattle.net_serving.specs.Serving.{AreRoundsLeft, AreServed, EndsServing, Follows, IsFirstStretch, IsNew, IsNotReopened, IsOpen, IsOpenBehind, IsOver, Stretch, WasOpened};
ghost use Rattle.net_serving.specs.Deeds.{WasShut, got};
ghost use Rattle.net_serving.specs.Listening.{Begins};
ghost use Rattle.net_serving.specs.Done.{HasDone, HasReopened, HasTurned, ServeEnds};

use crate::desks::DeskOpener;
use crate::listening::{ServerOptions, listen, waiting_fault};
use app_words::ProgramFault;
use dict_desk::Preparer;
use dict_proto::Sink;
use mio::net::TcpListener;
use net_driver::{Driver, Network, RoundsEnd, SystemSockets, pace, serve};
use std::alloc::Global;
use std::net::Net;
use std::time::Duration;

/// Serves the catalogue of a file: opens it, has a network bind sockets to two addresses, for readers and then for editors, writes which
/// these are, and makes rounds, as many as are asked for where nothing fails. After a round in which its store failed the file is
/// opened again, and the rounds that are left go on over it, with the connections that are open. What is shown then is one of the
/// catalogues that a stop could have left. In the end the file is closed.
///
/// The faults come in this order: of the file and its catalogue, of the address for readers, of that for editors, of the
/// writer, of waiting for sockets or of opening the file again. The driver is kept, where sockets were bound and told.
pub fn serve_catalogue<
    'w,
    K: Preparer + Drop,
    D: DeskOpener<K>,
    W: Sink,
    B: Network<TcpListener, SystemSockets>,
    N: Net,
>(
    network: &B,
    net: &N,
    alloc: Global,
    desks: &mut D,
    path: &'w str,
    wanted: &ServerOptions<'w>,
    writer: &mut W,
    kept: &mut Option<Driver<'static>>,
) -> Result<(), ProgramFault<'w>>
    ensures { ServeEnds K.shows K.leaves_one_of K.keeps_beside K.is_trusted D.is_opened K.has_failed K.is_closed K.expects K.prepares (Begins B.Network) (λ path. D.is_unopened path desks.old desks.new) (WasShut K.shows K.leaves_one_of K.is_trusted D.is_safe D.holds_alone D.still_leaves D.still_keeps D.is_uncopied desks.new) (IsNotReopened K.leaves_one_of D.is_unreopened D.still_leaves D.still_keeps desks.new) (D.history desks.old) (D.history desks.new) path.entry.now wanted.now.dict.now wanted.now.http.now wanted.now.rounds result
        (change W.stream writer.old writer.new) kept.new }
{
    *kept = None;
    let desk = desks.open(path)?;
    let mut driver = match listen(network, net, alloc, wanted, writer) {
        Ok(driver) => driver,
        Err(fault) => {
            let _ = desks.close(desk);
            return Err(fault);
        }
    };
    let (rounds, wait) = pace(wanted.rounds);
    let served = serve_rounds(desks, path, &mut driver, desk, rounds, wait);
    *kept = Some(driver);
    let desk = served?;
    let _ = desks.close(desk);
    Ok(())
}

/// So many rounds over a desk that was opened, and over those that are opened after it: where its store failed, it is
/// closed, and the rounds that are left are made over the next. The desk that is open in the end is handed back; at a fault
/// none is.
pub fn serve_rounds<'w, K: Preparer + Drop, D: DeskOpener<K>>(
    desks: &mut D,
    path: &'w str,
    driver: &mut Driver,
    desk: K,
    rounds: u64,
    wait: Duration,
) -> Result<K, ProgramFault<'w>>
    requires { IsNew K.shows K.leaves_one_of K.is_trusted (WasOpened D.is_opened) desk }
    ensures stands { IfOk result (IsOpen K.is_closed (IsNew K.shows K.leaves_one_of K.is_trusted (WasOpened D.is_opened))) }
    ensures served { (stretches : List (Stretch K)) × AreServed K.shows K.leaves_one_of K.keeps_beside K.is_trusted D.is_opened K.has_failed K.is_closed K.expects K.prepares (as_nanos wait) stretches driver.old driver.new
        × IsFirstStretch rounds desk stretches
        × EndsServing K.is_closed (WasShut K.shows K.leaves_one_of K.is_trusted D.is_safe D.holds_alone D.still_leaves D.still_keeps D.is_uncopied desks.new) (IsNotReopened K.leaves_one_of D.is_unreopened D.still_leaves D.still_keeps desks.new path.entry.now) stretches driver.new result
        × HasDone path.entry.now desk stretches (got result) (D.history desks.old) (D.history desks.new)
        × IfOk result (λ last. IsOpenBehind K.shows K.leaves_one_of K.keeps_beside K.is_trusted D.is_opened K.is_closed desk stretches last 0) }
    ensures made { HasMadeRounds rounds result driver.old.event_loop.rounds driver.new.event_loop.rounds }
{
    let mut pending = Pending { desk, left: rounds };
    while pending.left > 0 {
        pending = serve_stretch(desks, path, driver, pending, wait)?;
    }
    let Pending { desk, .. } = pending;
    Ok(desk)
}

// A desk, and how many rounds are left.
#[derive(Drop)]
struct Pending<K: Drop> {
    desk: K,
    left: u64,
}

// Makes rounds over one opening of the file, which is opened again where its store failed.
fn serve_stretch<'w, K: Preparer + Drop, D: DeskOpener<K>>(
    desks: &mut D,
    path: &'w str,
    driver: &mut Driver,
    pending: Pending<K>,
    wait: Duration,
) -> Result<Pending<K>, ProgramFault<'w>>
    requires opened { IsNew K.shows K.leaves_one_of K.is_trusted (WasOpened D.is_opened) pending.desk }
    requires some { 0 < pending.left }
    ensures served { (left : K) × (ended : Result RoundsEnd Error) × IsOver K.shows K.leaves_one_of K.keeps_beside K.is_trusted D.is_opened K.has_failed K.is_closed K.expects K.prepares (as_nanos wait)
        (record { opened = pending.desk; left = left; asked = pending.left; rounds = driver.new.event_loop.rounds - driver.old.event_loop.rounds; ended = ended }) driver.old driver.new
        × EndsServing K.is_closed (WasShut K.shows K.leaves_one_of K.is_trusted D.is_safe D.holds_alone D.still_leaves D.still_keeps D.is_uncopied desks.new) (IsNotReopened K.leaves_one_of D.is_unreopened D.still_leaves D.still_keeps desks.new path.entry.now) (record { opened = pending.desk; left = left; asked = pending.left; rounds = driver.new.event_loop.rounds - driver.old.event_loop.rounds; ended = ended } ∷ []) driver.new result
        × IfOk result (λ next. ((next.desk ≡ left) × (K.is_closed left ≡ false) × (next.left ≡ 0))
        ⊎ ((K.is_closed left ≡ true) × Follows K.shows K.leaves_one_of K.keeps_beside K.is_trusted left next.desk × D.is_opened (Some left) next.desk × AreRoundsLeft ended next.left
        × HasReopened path.entry.now left next.desk (D.history desks.old) (D.history desks.new)))
        × MatchResult result (λ next. HasTurned path.entry.now left (Some next.desk) (D.history desks.old) (D.history desks.new)) (λ _. HasTurned path.entry.now left None (D.history desks.old) (D.history desks.new)) }
    ensures opened { IfOk result (λ next. 0 < next.left → IsNew K.shows K.leaves_one_of K.is_trusted (WasOpened D.is_opened) next.desk) }
    ensures stands { IfOk result (λ next. IsOpen K.is_closed (IsNew K.shows K.leaves_one_of K.is_trusted (WasOpened D.is_opened)) next.desk) }
    ensures fewer { IfOk result (λ next. next.left < pending.left) }
    ensures made { AreMadeTo pending.left (λ next. next.left) result driver.old.event_loop.rounds driver.new.event_loop.rounds }
{
    let Pending {
        mut desk,
        left: rounds,
    } = pending;
    match serve(&mut driver.event_loop, &mut desk, rounds, wait) {
        Ok(RoundsEnd::Whole) => Ok(Pending { desk, left: 0 }),
        Ok(RoundsEnd::Closed(left)) => {
            let desk = desks.reopen(path, desk)?;
            Ok(Pending { desk, left })
        }
        Err(error) => {
            let _ = desks.close(desk);
            Err(waiting_fault(&error))
        }
    }
}
