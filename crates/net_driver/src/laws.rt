//! Laws of the definitions: each function does nothing, and its contract is the law.
ghost use Rattle.std.specs.Prelude.{◌≡◌, ◌≤◌, ◌<◌, ℕ, List, None, Some, length, slice_index_or, true};
ghost use Rattle.std.specs.List.{AllPairs};
ghost use Rattle.net_hub.specs.Runs.{Accepted};
ghost use Rattle.net_hub.specs.declared.kind.Kind.{Kind};
ghost use Rattle.net_connection.specs.Handing.{held_for};
ghost use Rattle.net_driver.specs.Accepting.{Accepts};
ghost use Rattle.net_driver.specs.Asking.{Asking, accept_count};
ghost use Rattle.net_driver.specs.Turning.{IsFirst, first_at, first_of, is_other};
ghost use Rattle.net_driver.specs.declared.listening.Listening.{Listening};
ghost use Rattle.net_driver.specs.declared.listening.Listening.TheVariants.{Ready};

use crate::event_loop::EventLoop;
use crate::sockets::Sockets;
use net_connection::Connection;
use net_outlet::Transport;

/// In a round a listening socket is asked for a connection at most 16 times. Where one may wait there still as the round ends, it was
/// asked 16 times: else all that waited were taken.
pub fn accepting_laws<T: Transport, S: Sockets<T>>(
    old: &EventLoop<'_, T, S>,
    new: &EventLoop<'_, T, S>,
)
    ensures most { (kind : Kind) (before after : Listening) (calls : List (Asking T)) (events : List Accepted)
        → Accepts S.refuses kind before after old.now.hub new.now.hub old.now.connections new.now.connections calls events → accept_count calls ≤ 16 }
    ensures whole { (kind : Kind) (before : Listening) (calls : List (Asking T)) (events : List Accepted)
        → Accepts S.refuses kind before Ready old.now.hub new.now.hub old.now.connections new.now.connections calls events → accept_count calls ≡ 16 }
{}

/// Whose command comes first in a round: octets of that connection are held back for no fewer turns than of each other. Where nobody's
/// does, none are. Whoever's are held back for fewer turns than another's is behind one in each turn of the round.
pub fn first_laws<T: Transport>(all: &[Connection<T>], new: &[Connection<T>])
    ensures some { (id : ℕ) → first_of all.now ≡ Some id → IsFirst all.now id }
    ensures none { first_of all.now ≡ None → (k : ℕ) (d : Connection T) → k < length all.now → held_for (slice_index_or all.now k d) ≡ 0 }
    ensures behind { (place j k : ℕ) (d : Connection T) → AllPairs (λ a b. a.id < b.id) all.now → j < length all.now → k < length all.now
        → held_for (slice_index_or all.now j d) < held_for (slice_index_or all.now k d) → is_other (first_at all.now new.now place) (slice_index_or all.now j d).id ≡ true }
{}
