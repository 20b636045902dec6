//! The end of a transaction.

ghost use Rattle.std.specs.Prelude.{◌≡◌, false, IsTrue, IfErr, OnOk};
ghost use Rattle.sqlite.specs.State.{HasCleanDisk, Survives, Shows};
ghost use Rattle.sqlite.specs.Held.{state};
ghost use Rattle.sqlite.specs.Steps.{FailsToCommit};

use sqlite::{Alter, Error, Transaction};

/// Commits what the transaction has written. After an error the connection may be shut, and the next open finds the database as it was before the transaction or as this call was to leave it.
pub fn commit<S: Alter>(tx: Transaction<'_, S>) -> Result<(), Error>
    ensures ended { tx.exit.0.now.in_transaction ≡ false }
    ensures committed { HasCleanDisk (state S.Store tx.exit.0.now) → OnOk result
        (IsTrue (state S.Store tx.entry.conn.now).in_transaction × Shows (state S.Store tx.entry.conn.now) (state S.Store tx.exit.0.now) (state S.Store tx.entry.conn.now).now (state S.Store tx.entry.conn.now).now false) }
    ensures only { HasCleanDisk (state S.Store tx.exit.0.now) → OnOk result
        ((trees : _) → (state S.Store tx.exit.0.now).may_leave trees → trees ≡ (state S.Store tx.exit.0.now).committed.trees) }
    ensures failed { HasCleanDisk (state S.Store tx.exit.0.now) → IfErr result (FailsToCommit (state S.Store tx.entry.conn.now) (state S.Store tx.exit.0.now)) }
    ensures survives { Survives (state S.Store tx.entry.conn.now) (state S.Store tx.exit.0.now) (λ trees. trees ≡ (state S.Store tx.entry.conn.now).now.trees) }
{
    tx.commit()
}
