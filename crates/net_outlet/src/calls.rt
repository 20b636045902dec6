// What a call of a transport came to.
ghost use Rattle.std.specs.Prelude.{◌≡◌};
ghost use Rattle.net_outlet.specs.OutletCalls.{sent_by_kind, received_by_kind, sent_by, received_by, has_moved};

use std::io::{ErrorKind, Result};

/// What one sending came to.
#[derive(Clone, Copy, Debug, PartialEq, Eq)]
pub enum Sent {
    /// No octet was taken, and the transport tells when to ask again.
    Nothing,
    /// The call was interrupted, and no octet was taken: it may be asked again at once.
    Interrupted,
    /// Octets were taken: it may be asked again at once.
    Some,
    /// The transport failed.
    Failed,
}

/// What one reading came to.
#[derive(Clone, Copy, Debug, PartialEq, Eq)]
pub enum Received {
    /// No octet came, and the transport tells when to ask again.
    Nothing,
    /// The call was interrupted: it may be asked again at once.
    Interrupted,
    /// So many octets came.
    Octets(usize),
    /// The peer ended its side.
    End,
    /// The transport failed.
    Failed,
}

impl Sent {
    ghost use Rattle.net_outlet.specs.OutletCalls.{sending_failed, is_vain};

    /// Whether the transport failed.
    pub fn has_failed(self) -> bool
        ensures { result ≡ sending_failed self }
    {
        match self {
            Sent::Nothing | Sent::Interrupted | Sent::Some => false,
            Sent::Failed => true,
        }
    }

    /// Whether no octet was taken.
    pub fn is_vain(self) -> bool
        ensures { result ≡ is_vain self }
    {
        match self {
            Sent::Nothing | Sent::Interrupted | Sent::Failed => true,
            Sent::Some => false,
        }
    }
}

impl Received {
    ghost use Rattle.net_outlet.specs.OutletCalls.{count_received, has_come};

    /// Whether the reading did something, or is to be made again at once.
    pub fn has_come(self) -> bool
        ensures { result ≡ has_come self }
    {
        match self {
            Received::Nothing => false,
            Received::Interrupted | Received::Octets(_) | Received::End | Received::Failed => true,
        }
    }

    /// How many octets came.
    pub fn count(self) -> usize
        ensures { result ≡ count_received self }
    {
        match self {
            Received::Octets(count) => count,
            Received::Nothing | Received::Interrupted | Received::End | Received::Failed => 0,
        }
    }
}

/// What a sending came to.
pub fn sent_by(outcome: &Result<usize>) -> Sent
    ensures { result ≡ sent_by outcome.now }
{
    match outcome {
        Ok(0) => Sent::Nothing,
        Ok(_) => Sent::Some,
        Err(error) => sent_by_kind(error.kind()),
    }
}

/// What a reading came to.
pub fn received_by(outcome: &Result<usize>) -> Received
    ensures { result ≡ received_by outcome.now }
{
    match outcome {
        Ok(0) => Received::End,
        Ok(count) => Received::Octets(*count),
        Err(error) => received_by_kind(error.kind()),
    }
}

// What a sending with an error of this kind came to.
fn sent_by_kind(kind: ErrorKind) -> Sent
    ensures { result ≡ sent_by_kind kind }
{
    match kind {
        ErrorKind::WouldBlock => Sent::Nothing,
        ErrorKind::Interrupted => Sent::Interrupted,
        _ => Sent::Failed,
    }
}

// What a reading with an error of this kind came to.
fn received_by_kind(kind: ErrorKind) -> Received
    ensures { result ≡ received_by_kind kind }
{
    match kind {
        ErrorKind::WouldBlock => Received::Nothing,
        ErrorKind::Interrupted => Received::Interrupted,
        _ => Received::Failed,
    }
}

/// Whether a sending or a reading did something, or is to be made again at once.
pub fn has_moved(sent: Sent, received: Received) -> bool
    ensures { result ≡ has_moved sent received }
{
    match sent {
        Sent::Nothing => received.has_come(),
        Sent::Interrupted | Sent::Some | Sent::Failed => true,
    }
}
