// What holds of a connection, whatever it is asked.
ghost use Rattle.std.specs.Prelude.{IsTrue};
ghost use Rattle.sqlite.specs.Held.{state};

use sqlite::{Alter, Connection};

/// What an open store has committed is among what a stop may leave.
///
/// It does nothing. Its clause is the law.
pub fn committed_may_stay<S: Alter>(conn: &Connection<S>)
    ensures { IsTrue (state S.Store conn.now).is_open → (state S.Store conn.now).may_leave (state S.Store conn.now).committed.trees }
{}
