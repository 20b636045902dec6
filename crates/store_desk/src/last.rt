// How the last call of a desk ended.
ghost use Rattle.std.specs.Prelude.{◌≡◌};
ghost use Rattle.store_desk.specs.Desk.{last_by};

use dict_desk::Fault;

/// How the last call by `&mut` of a desk ended: it did what it was asked, or refused it; it answered a fault from 40 on; or
/// the store failed, then or earlier, and the desk is closed.
#[derive(Clone, Copy, Debug, PartialEq, Eq)]
pub enum LastCall {
    Fine,
    Failed,
    Closed,
}

// How a call ended that was asked of a desk that isn't closed.
pub(crate) fn last_by<T>(outcome: &Result<T, Fault>) -> LastCall
    ensures { result ≡ last_by outcome.now }
{
    match outcome {
        Ok(_) => LastCall::Fine,
        Err(Fault::Refused(_)) => LastCall::Fine,
        Err(Fault::Disk) => LastCall::Closed,
        Err(_) => LastCall::Failed,
    }
}
