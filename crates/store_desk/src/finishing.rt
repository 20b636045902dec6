// The install of what was prepared.
ghost use Rattle.std.specs.Prelude.{◌≡◌, ◌≢◌, ℕ, false, true, map, Err, Some, IsTrue, IfErr, IfSome, IfNone};
ghost use Rattle.sqlite.specs.State.{HasCleanDisk, Survives};
ghost use Rattle.sqlite.specs.Held.{state};
ghost use Rattle.dict_index.specs.Edition.{ReadEdition, edition_of};
ghost use Rattle.dict_index.specs.Meaning.{IsReadEdition, IsFault};
ghost use Rattle.dict_catalogue.specs.Commands.{install};
ghost use Rattle.dict_catalogue.specs.Steps.{Catalogue};
ghost use Rattle.dict_catalogue.specs.Views.{summary_shown};
ghost use Rattle.store_commands.specs.Answers.{HoldsBy};
ghost use Rattle.store_commands.specs.Changes.{IsInRange};
ghost use Rattle.store_commands.specs.Committed.{StaysCommitted};
ghost use Rattle.store_commands.specs.Finishing.{IsFinished};
ghost use Rattle.dict_desk.specs.Faults.{IsOfCommand, has_closed_by, has_failed_by};
ghost use Rattle.store_desk.specs.Causes.{IsAppliedTo};
ghost use Rattle.store_holdings.specs.Indexes.{entries_under};
ghost use Rattle.store_search.specs.Entries.{entry_of};
ghost use Rattle.store_desk.specs.Desk.{HasFiled, Shows, is_closed, has_failed};
ghost use Rattle.store_desk.specs.Indexed.{HasPutIfSome};
ghost use Rattle.store_desk.specs.Left.{has_filed};

use crate::adopting::is_whole;
use crate::coming::{AskedInstall, Coming};
use crate::desk::Desk;
use crate::indexing::settle;
use crate::keeper::take_over;
use crate::kept::forget_by;
use crate::last::last_by;
use crate::laws::committed_may_stay;
use crate::tidying::note_gone;
use crate::withdrawing::let_go;
use dict_catalogue::{Kept, Summary};
use dict_desk::Fault;
use dict_index::EditionRefusal;
use sqlite::{Alter, Connection};
use std::alloc::Global;
use store_commands::Applied;
use store_holdings::Indexes;

// Finishes the install of what is prepared, if anything is, as `Coming::finish` does.
fn finish_coming<S: Alter>(
    alloc: Global,
    conn: &mut Connection<S>,
    summary: &Summary,
    indexes: &mut Indexes,
    number: u64,
    filing: &mut Option<Coming>,
    request: &AskedInstall<'_>,
) -> Option<Result<Applied, Fault>>
    requires autocommit { conn.old.in_transaction ≡ false }
    requires filed { HasFiled filing.old (state S.Store conn.old) }
    requires holds { HoldsBy (summary_shown summary.now) (state S.Store conn.old) }
    requires range { IsInRange (summary_shown summary.now) }
    ensures same { HasFiled filing.old (state S.Store conn.new) → HasFiled filing.new (state S.Store conn.new) }
    ensures begun { IfSome result (λ _. has_filed filing.old ≡ true) }
    ensures finished { IfSome result (λ outcome. (reading : ReadEdition) × IsReadEdition request.now.index.now request.now.text.now reading
        × IsFinished S.Store (summary_shown summary.now) request.now.id.now request.now.name.now reading conn.old conn.new outcome × HasPutIfSome number (Some (map entry_of reading.lines)) indexes.old indexes.new) }
    ensures settled { HasCleanDisk (state S.Store conn.new) → IsTrue (state S.Store conn.new).is_open → IfSome result (λ _. (state S.Store conn.new).now ≡ (state S.Store conn.new).committed) }
    ensures others { (q : ℕ) → q ≢ number → entries_under q indexes.new ≡ entries_under q indexes.old }
    ensures stays { HasCleanDisk (state S.Store conn.new) → IfNone result (StaysCommitted (state S.Store conn.old) (state S.Store conn.new)) }
    ensures ended { conn.new.in_transaction ≡ false }
    ensures survives { IfNone result (Survives (state S.Store conn.old) (state S.Store conn.new) (λ _. ⊥)) }
{
    let Some(coming) = filing else {
        return None;
    };
    coming.finish(alloc, conn, summary, indexes, number, request)
}

impl<S: Alter + Drop> Desk<S> {
    // The first test that these files don't pass, where the draft is of them, under this name, and has come to it.
    pub(crate) fn refusal(
        &self,
        name: &str,
        index: &[u8],
        text: &[u8],
    ) -> Option<(EditionRefusal, Option<usize>)>
        ensures { IfSome result (λ told. IsFault index.now text.now told.0 told.1) }
    {
        match &self.draft {
            Some(draft) => draft.refusal(name, index, text),
            None => None,
        }
    }

    // Finishes the install of what was prepared of this name and these files, under an id. None, and nothing is written: it isn't prepared
    // whole, or not of these; or `apply_read` tells that it can't be finished.
    pub(crate) fn finish(
        &mut self,
        id: &str,
        name: &str,
        index: &[u8],
        text: &[u8],
    ) -> Option<Result<Kept, Fault>>
        requires { is_closed self.old.last ≡ false }
        ensures done { IfSome result (λ outcome. (reading : ReadEdition) × IsReadEdition index.now text.now reading × IsAppliedTo S.Store self.old (record { id = id.now; command = install name.now (edition_of reading) }) outcome self.new) }
        ensures kinds { IfSome result (λ outcome. IfErr outcome IsOfCommand) }
        ensures failed { IfSome result (λ outcome. has_failed self.new.last ≡ has_failed_by outcome) }
        ensures closes { IfSome result (λ outcome. is_closed self.new.last ≡ has_closed_by outcome) }
        ensures closed { IfSome result (λ outcome. outcome ≢ Err Fault.Closed) }
        ensures last { IfNone result (self.new.last ≡ self.old.last) }
        ensures shows { HasCleanDisk (state S.Store self.new.conn) → (M : Catalogue) → Shows S.Store self.old M → IfNone result (Shows S.Store self.new M) }
        ensures survives { IfNone result (Survives (state S.Store self.old.conn) (state S.Store self.new.conn) (λ _. ⊥)) }
    {
        let number = self.summary.installs.saturating_add(1);
        let request = AskedInstall {
            id,
            name,
            index,
            text,
        };
        is_whole(&self.conn);
        committed_may_stay(&self.conn);
        let Some(outcome) = finish_coming(
            self.alloc,
            &mut self.conn,
            &self.summary,
            &mut self.indexes,
            number,
            &mut self.filing,
            &request,
        ) else {
            self.indexes.let_go(number);
            return None;
        };
        self.last = last_by(&outcome);
        forget_by(&mut self.texts, self.last);
        let_go(&mut self.filing, &mut self.orphans);
        settle(&mut self.indexes, &self.summary.items, number, &outcome);
        note_gone(self.alloc, &mut self.orphans, &self.summary.items, &outcome);
        Some(take_over(&mut self.summary, outcome))
    }
}
