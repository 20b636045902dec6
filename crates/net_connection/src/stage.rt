// How far a connection has come.
ghost use Rattle.std.specs.Prelude.{◌≡◌};
ghost use Rattle.net_connection.specs.Calls.{has_departed};
ghost use Rattle.net_connection.specs.Stages.{stage_answered, drained, stage_finished, parted, stage_of_new};

use net_hub::Out;
use net_outlet::{Received, Sent};

/// How far a connection has come.
#[derive(Clone, Copy, Debug, PartialEq, Eq)]
pub enum Stage {
    /// What comes goes to the hub.
    Open,
    /// The hub closed it, and octets wait.
    Closing,
    /// The peer ended its side, and octets wait.
    Parting,
    /// All is sent, and the peer was told so. What still comes is dropped, so that no reset overtakes what was sent.
    Draining,
    /// Its socket is to be closed.
    Over,
}

impl Stage {
    ghost use Rattle.net_connection.specs.Calls.{is_dropped};
    ghost use Rattle.net_connection.specs.Stages.{is_departing, is_held, is_open};

    /// Whether what comes goes to the hub.
    pub fn is_open(self) -> bool
        ensures { result ≡ is_open self }
    {
        match self {
            Stage::Open => true,
            Stage::Closing | Stage::Parting | Stage::Draining | Stage::Over => false,
        }
    }

    /// Whether what comes goes to nobody, and the socket is still held.
    pub fn is_departing(self) -> bool
        ensures { result ≡ is_departing self }
    {
        match self {
            Stage::Closing | Stage::Parting | Stage::Draining => true,
            Stage::Open | Stage::Over => false,
        }
    }

    /// Whether what comes is read and dropped, where a reading may give something or not.
    pub fn is_dropped(self, may_receive: bool) -> bool
        ensures { result ≡ is_dropped self may_receive }
    {
        match self {
            Stage::Draining => may_receive,
            Stage::Open | Stage::Closing | Stage::Parting | Stage::Over => false,
        }
    }

    /// Whether the socket is still held.
    pub fn is_held(self) -> bool
        ensures { result ≡ is_held self }
    {
        match self {
            Stage::Open | Stage::Closing | Stage::Parting | Stage::Draining => true,
            Stage::Over => false,
        }
    }
}

/// The stage of a new connection. One that the hub closed as it was opened got no whole greeting.
pub fn stage_of_new(out: Out) -> Stage
    ensures { result ≡ stage_of_new out }
{
    match out {
        Out::More => Stage::Open,
        Out::Close => Stage::Over,
    }
}

/// The stage after the hub's answer to octets.
pub fn answered(out: Out, before: Stage) -> Stage
    ensures { result ≡ stage_answered out before }
{
    match out {
        Out::More => before,
        Out::Close => Stage::Closing,
    }
}

/// The stage where the peer ended its side, and octets wait or not.
pub fn parted(is_clear: bool) -> Stage
    ensures { result ≡ parted is_clear }
{
    if is_clear {
        Stage::Over
    } else {
        Stage::Parting
    }
}

/// The stage of a connection that the hub closed and of which all is sent, where the peer was told so, or couldn't be.
pub fn told(is_told: bool) -> Stage
    ensures { result ≡ stage_finished Stage.Closing is_told }
{
    if is_told {
        Stage::Draining
    } else {
        Stage::Over
    }
}

/// The stage after a reading of what is dropped, of which this many octets may still come.
pub fn drained(most: usize, received: Received) -> Stage
    ensures { result ≡ drained most received }
{
    match received {
        Received::Octets(count) if count <= most => Stage::Draining,
        Received::Nothing | Received::Interrupted => Stage::Draining,
        Received::Octets(_) | Received::End | Received::Failed => Stage::Over,
    }
}

/// Whether a turn of one that is no longer open did something, or is to be had again at once.
pub fn has_departed(sent: Sent, has_finished: bool, has_dropped: bool) -> bool
    ensures { result ≡ has_departed sent has_finished has_dropped }
{
    match sent {
        Sent::Nothing => has_finished || has_dropped,
        Sent::Interrupted | Sent::Some | Sent::Failed => true,
    }
}
