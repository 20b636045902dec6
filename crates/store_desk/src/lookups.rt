// What readers ask of a desk.
use crate::desk::Desk;
use crate::finding::hand_rows;
use crate::kept::forget_by;
use crate::last::{LastCall, last_by};
use dict_catalogue::Summary;
use dict_desk::{End, Fault, Lookup, RowSink, What};
use dict_match::{Key, Strategy};
use sqlite::Alter;
use store_holdings::count_under;

impl<S: Alter + Drop> Lookup for Desk<S> {
    ghost use Rattle.sqlite.specs.State.{HasCleanDisk};
    ghost use Rattle.sqlite.specs.Held.{state};
    ghost use Rattle.sqlite.specs.Effect.{Database};
    ghost use Rattle.store_desk.specs.Desk.{Shows, LeavesOneOf, KeepsBeside, is_closed, has_failed};
    ghost use Rattle.store_desk.specs.Causes.{GivesWay};
    ghost use Rattle.store_desk.specs.DeskLaws.{open_unless_failed};
    ghost use Rattle.store_desk.specs.Left.{CountsLook};
    ghost use Rattle.store_desk.specs.OnlyReads.{OnlyReads};

    ghost shows = { λ s M. Shows S.Store s M };

    ghost leaves_one_of = { λ s ms. LeavesOneOf S.Store s ms };

    ghost Beside = { Database };

    ghost keeps_beside = { λ s db. KeepsBeside S.Store s db };

    ghost is_trusted = { λ s. HasCleanDisk (state S.Store s.conn) };

    ghost looks_at = { λ old new few. CountsLook old.counts new.counts few };

    ghost only_reads = { OnlyReads S.Store };

    ghost is_closed = { λ s. is_closed s.last };

    ghost has_failed = { λ s. has_failed s.last };

    ghost gives_way = { GivesWay S.Store };

    fn summary(&self) -> Result<&Summary, Fault> {
        match self.last {
            LastCall::Closed => Err(Fault::Closed),
            LastCall::Fine | LastCall::Failed => Ok(&self.summary),
        }
    }

    fn info<T: RowSink>(&mut self, number: u64, sink: &mut T) -> Result<End, Fault> {
        if self.last == LastCall::Closed {
            return Err(Fault::Closed);
        }
        let outcome = store_holdings::info(
            self.alloc,
            &mut self.conn,
            number,
            sink,
            &mut self.rows_taken,
        );
        self.last = last_by(&outcome);
        forget_by(&mut self.texts, self.last);
        outcome
    }

    fn count(
        &mut self,
        number: u64,
        strategy: Strategy,
        query: &Key,
        what: What,
    ) -> Result<u64, Fault> {
        if self.last == LastCall::Closed {
            return Err(Fault::Closed);
        }
        let outcome = count_under(
            self.alloc,
            &mut self.indexes,
            number,
            strategy,
            query,
            what,
            &mut self.rows_taken,
        );
        self.last = last_by(&outcome);
        forget_by(&mut self.texts, self.last);
        outcome
    }

    fn find<T: RowSink>(
        &mut self,
        number: u64,
        strategy: Strategy,
        query: &Key,
        what: What,
        sink: &mut T,
    ) -> Result<End, Fault> {
        if self.last == LastCall::Closed {
            return Err(Fault::Closed);
        }
        let outcome = hand_rows(
            self.alloc,
            &mut self.conn,
            &mut self.texts,
            self.summary.installs,
            &mut self.indexes,
            number,
            strategy,
            query,
            what,
            sink,
            &mut self.rows_taken,
        );
        self.last = last_by(&outcome);
        forget_by(&mut self.texts, self.last);
        outcome
    }

    ghost well_formed = { λ s M h. h.well_formed };

    ghost wider = { λ s ms ns among left clean trees may. ((left clean trees may).0, among (left clean trees may).0 (left clean trees may).1, (left clean trees may).2) };

    ghost still_open = { λ s fine. open_unless_failed s.last fine };
}
