// Rounds, one after another.
ghost use Rattle.std.specs.Prelude.{◌≡◌, ◌≤◌, ℕ, false, IfErr, List, Ok};
ghost use Rattle.std.specs.IoError.{error_kind};
ghost use Rattle.net_connection.specs.Leading.{HasLedOn};
ghost use Rattle.net_driver.specs.Looking.{WaitsIf};
ghost use Rattle.net_driver.specs.Rounds.{Waits, Moves};
ghost use Rattle.net_driver.specs.Served.{AreRounds, Round, is_waited};
ghost use Rattle.net_driver.specs.Serving.{AreCounted, IsClosedBy, longest_wait, rounds_of};
ghost use Rattle.std.specs.Duration.{as_nanos};

use crate::event_loop::EventLoop;
use crate::sockets::Sockets;
use dict_desk::Preparer;
use net_outlet::Transport;
use std::io;
use std::time::Duration;

// How long a wait for the sockets lasts at most, in milliseconds: where the count of rounds is given, and where it isn't.
const SHORT_WAIT: u64 = 50;

const LONG_WAIT: u64 = 1_000;

/// Why the rounds ended.
#[derive(Clone, Copy, Debug, PartialEq, Eq)]
pub enum RoundsEnd {
    /// All of them were made.
    Whole,
    /// The store of the desk failed, and it answers no more. So many rounds are left.
    Closed(u64),
}

/// How many rounds are made, and how long a wait lasts at most, where so many rounds are asked for, or no number is
/// given.
pub fn pace(rounds: Option<u32>) -> (u64, Duration)
    ensures count { result.0 ≡ rounds_of rounds }
    ensures wait { as_nanos result.1 ≡ longest_wait rounds }
{
    match rounds {
        Some(count) => (u64::from(count), Duration::from_millis(SHORT_WAIT)),
        None => (u64::MAX, Duration::from_millis(LONG_WAIT)),
    }
}

/// So many rounds over a desk, fewer where it is closed; each goes on where the one before it ended. After a round in which
/// nothing happened, and that isn't the last, the sockets are waited for, at most as long as `wait`. An error is one of
/// waiting for sockets; the loop and the desk may be used again.
pub fn serve<T: Transport, S: Sockets<T>, K: Preparer>(
    event_loop: &mut EventLoop<T, S>,
    desk: &mut K,
    rounds: u64,
    wait: Duration,
) -> io::Result<RoundsEnd>
    ensures by_rounds { (each : List (Round K T S _)) × AreRounds K.shows K.leaves_one_of K.keeps_beside K.is_trusted K.has_failed K.is_closed K.expects K.prepares T.taken T.coming T.made S.refuses S.asked S.told (as_nanos wait) rounds event_loop.old desk.old event_loop.new desk.new each result }
    ensures led { HasLedOn (K.is_trusted desk.new) (K.shows desk.old) (K.leaves_one_of desk.old) (K.shows desk.new) (K.leaves_one_of desk.new) event_loop.old.hub event_loop.new.hub
        (λ events. Moves event_loop.old.connections event_loop.new.connections events) }
    ensures trust { K.is_trusted desk.new → K.is_trusted desk.old }
    ensures beside { (beside : K.Beside) → K.keeps_beside desk.old beside → K.keeps_beside desk.new beside }
    ensures closed { IsClosedBy (K.is_closed desk.new) rounds result }
    ensures counted { AreCounted rounds result event_loop.old.rounds event_loop.new.rounds }
    ensures grown { event_loop.old.rounds ≤ event_loop.new.rounds }
    ensures failure { IfErr result (λ error. event_loop.new.failure ≡ Some (error_kind error)) }
{
    for made in 0..rounds {
        let has_moved = event_loop.round(desk)?;
        if desk.summary().is_err() {
            return Ok(RoundsEnd::Closed(rounds - made - 1));
        }
        wait_if(event_loop, is_wait_due(has_moved, rounds - made), wait)?;
    }
    Ok(RoundsEnd::Whole)
}

// Whether the sockets are waited for behind a round, of so many with it.
fn is_wait_due(has_moved: bool, rounds: u64) -> bool
    ensures { result ≡ is_waited (Ok has_moved) false rounds }
{
    if has_moved {
        return false;
    }
    rounds > 1
}

// Waits for the sockets, where it is asked to.
fn wait_if<T: Transport, S: Sockets<T>>(
    event_loop: &mut EventLoop<T, S>,
    is_asked: bool,
    most: Duration,
) -> io::Result<()>
    ensures behind { WaitsIf S.asked (as_nanos most) (S.told event_loop.new.sockets) is_asked result event_loop.old event_loop.new }
    ensures hub { event_loop.new.hub ≡ event_loop.old.hub }
    ensures waits { (id : ℕ) (octets : List ℕ) → Waits event_loop.new.connections id octets → Waits event_loop.old.connections id octets }
    ensures last { event_loop.new.connections.last ≡ event_loop.old.connections.last }
    ensures rounds { event_loop.new.rounds ≡ event_loop.old.rounds }
    ensures failure { IfErr result (λ error. event_loop.new.failure ≡ Some (error_kind error)) }
{
    if is_asked {
        return event_loop.wait(most);
    }
    Ok(())
}
