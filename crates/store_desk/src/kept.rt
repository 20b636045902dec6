// The texts that a desk keeps in memory for lookups, by how its last call ended.
ghost use Rattle.std.specs.Prelude.{◌≡◌};
ghost use Rattle.store_desk.specs.KeptParts.{texts_after, texts_behind};

use crate::last::LastCall;
use dict_desk::Fault;
use store_holdings::TextParts;

// After a fault from 40 on none is kept: what memory they had is free then.
pub(crate) fn forget_by(texts: &mut TextParts, last: LastCall)
    ensures { texts.new ≡ texts_after last texts.old }
{
    match last {
        LastCall::Fine => {}
        LastCall::Failed | LastCall::Closed => texts.forget_all(),
    }
}

// Behind what was prepared, none is kept behind a fault.
pub(crate) fn forget_behind<T>(texts: &mut TextParts, outcome: &Result<T, Fault>)
    ensures { texts.new ≡ texts_behind outcome.now texts.old }
{
    match outcome {
        Ok(_) => {}
        Err(_) => texts.forget_all(),
    }
}
