//! Commands that desks accept, and statements of others.

ghost use Rattle.std.specs.Prelude.{◌≡◌, IfErr, OnOk};
ghost use Rattle.sqlite.specs.State.{HasCleanDisk};
ghost use Rattle.sqlite.specs.Held.{state};
ghost use Rattle.dict_catalogue.specs.Steps.{Catalogue, after};
ghost use Rattle.dict_desk.specs.Faults.{IsOfCommand};
ghost use Rattle.store_fixtures.specs.Asked.{AreAccepted, FailsBehind, requests_asked};
ghost use Rattle.store_fixtures.specs.Batched.{ExecutedInTurn};

use crate::asked::{Asked, Editions};
use dict_desk::{Fault, Keeper};
use sqlite::{Alter, Connection, Error};

/// Applies commands in turn, up to the first that is not accepted, whose fault it answers.
pub fn accept_all<K: Keeper>(
    desk: &mut K,
    editions: &Editions,
    asked: &[(&'static str, Asked)],
) -> Result<(), Fault>
    ensures applied { OnOk result (AreAccepted K.applies desk.old (requests_asked editions.now.all.items asked.now) desk.new) }
    ensures stopped { IfErr result (λ fault. FailsBehind K.applies desk.old (requests_asked editions.now.all.items asked.now) fault desk.new) }
    ensures shows { K.is_trusted desk.new → (M : Catalogue) → K.shows desk.old M → OnOk result (K.shows desk.new (after M (requests_asked editions.now.all.items asked.now))) }
    ensures trust { K.is_trusted desk.new → K.is_trusted desk.old }
    ensures beside { (beside : K.Beside) → K.keeps_beside desk.old beside → K.keeps_beside desk.new beside }
    ensures kinds { IfErr result IsOfCommand }
{
    for (id, one) in asked {
        let _kept = desk.apply(id, &one.command(editions))?;
    }
    Ok(())
}

/// Runs statements, one text after the other, up to the first that fails.
pub fn batched<S: Alter>(conn: &mut Connection<S>, texts: &[&str]) -> Result<(), Error>
    ensures ran { HasCleanDisk (state S.Store conn.new) → ExecutedInTurn S.Store texts.now conn.old conn.new result }
    ensures limit { conn.new.step_limit ≡ conn.old.step_limit }
{
    for text in texts {
        conn.execute_batch(*text)?;
    }
    Ok(())
}
