//! What the statements of a transaction run on.

ghost use Rattle.std.specs.Prelude.{◌≡◌, ℕ, false, IsTrue, IfErr, IfOk, Err};
ghost use Rattle.sqlite.specs.State.{HasCleanDisk, Survives, ExecutesInside, Shown, FailsToQuery};
ghost use Rattle.sqlite.specs.Held.{Held, state};
ghost use Rattle.sqlite.specs.Values.{bound};
ghost use Rattle.sqlite.specs.declared.error.Error.TheVariants.{SqliteFailure};
ghost use Rattle.sqlite.specs.declared.error.ErrorCode.TheVariants.{TransactionState};
ghost use Rattle.store_tables.specs.Transactions.{ShowsNoWrite};

use sqlite::types::ValueRef;
use sqlite::{Alter, Error, Row, Transaction};

/// What the statements of a transaction run on: a `Transaction` of `sqlite`, which is undone where it is dropped.
pub trait OpenTransaction<S: Alter> {
    // The connection, as it is now.
    ghost held: { Self → Held S };

    // By which reference it is held: the same one before and after a call.
    ghost reference: { Self → ℕ };

    /// Runs one command that writes, where the transaction is open. It answers the count that `sqlite` reports.
    ///
    /// Where none is open, `TransactionState` tells so, and nothing is run. After another error either nothing has
    /// changed, or all that the transaction has written is undone and it is open no more.
    fn execute(&mut self, sql: &str, params: &[ValueRef<'_>]) -> Result<usize, Error>
        ensures same_reference { reference self.new ≡ reference self.old }
        ensures ended { (state S.Store (held self.old)).in_transaction ≡ false → (result ≡ Err (SqliteFailure TransactionState)) × (held self.new ≡ held self.old) }
        ensures runs { HasCleanDisk (state S.Store (held self.new)) → IsTrue (state S.Store (held self.old)).in_transaction → ExecutesInside 0 sql.now (bound params.now) (state S.Store (held self.old)) (state S.Store (held self.new)) result }
        ensures survives { Survives (state S.Store (held self.old)) (state S.Store (held self.new)) (λ _. ⊥) };

    /// All rows of a query, as the transaction sees them.
    ///
    /// After an error either nothing has changed, or all that the transaction has written is undone and it is open no more.
    fn query_all(&mut self, sql: &str, params: &[ValueRef<'_>]) -> Result<Vec<Row>, Error>
        requires { ShowsNoWrite sql.now }
        ensures same_reference { reference self.new ≡ reference self.old }
        ensures ok { HasCleanDisk (state S.Store (held self.new)) → IfOk result (λ rows. Shown sql.now (bound params.now) (state S.Store (held self.old)) (state S.Store (held self.new)) rows.items) }
        ensures err { HasCleanDisk (state S.Store (held self.new)) → IfErr result (FailsToQuery sql.now (bound params.now) (state S.Store (held self.old)) (state S.Store (held self.new))) }
        ensures survives { Survives (state S.Store (held self.old)) (state S.Store (held self.new)) (λ _. ⊥) };
}

impl<S: Alter> OpenTransaction<S> for Transaction<'_, S> {
    ghost held = { λ tx. tx.conn.now };

    ghost reference = { λ tx. tx.conn.ghost_name };

    fn execute(&mut self, sql: &str, params: &[ValueRef<'_>]) -> Result<usize, Error> {
        Transaction::execute(self, sql, params)
    }

    fn query_all(&mut self, sql: &str, params: &[ValueRef<'_>]) -> Result<Vec<Row>, Error> {
        Transaction::query_all(self, sql, params)
    }
}
