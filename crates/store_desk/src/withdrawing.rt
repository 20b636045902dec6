// What is prepared of a change is let go of, before anything that it doesn't fit.
ghost use Rattle.std.specs.Prelude.{◌≡◌, true, false, None, IfErr, OnOk};
ghost use Rattle.store_desk.specs.Desk.{is_closed};
ghost use Rattle.store_desk.specs.Left.{HasForgotten, recounted};

use crate::coming::Coming;
use crate::desk::Desk;
use crate::last::LastCall;
use crate::orphans::Orphans;
use dict_desk::Fault;
use sqlite::Alter;

// Lets go of what is filed. Its parts are left, of no edition, and its number is noted.
pub(crate) fn let_go(filing: &mut Option<Coming>, orphans: &mut Orphans)
    ensures gone { filing.new ≡ None }
    ensures same { filing.old ≡ None → orphans.new ≡ orphans.old }
{
    if let Some(coming) = filing.take() {
        if let Some(number) = coming.number_filed() {
            orphans.note(number);
        }
        drop(coming);
    }
}

impl<S: Alter + Drop> Desk<S> {
    // Lets go of what is prepared: what is read, and what is filed.
    pub(crate) fn let_go_of_prepared(&mut self)
        ensures same { self.new ≡ record self.old { counts = recounted self.old.counts self.new.counts } }
        ensures gone { HasForgotten self.new.counts }
    {
        drop(self.draft.take());
        let_go(&mut self.filing, &mut self.orphans);
    }

    // Lets go of what is prepared. `Closed`: the desk was so before. Nothing is written.
    pub(crate) fn withdraw(&mut self) -> Result<(), Fault>
        ensures same { self.new ≡ record self.old { counts = recounted self.old.counts self.new.counts } }
        ensures gone { OnOk result (HasForgotten self.new.counts) }
        ensures ended { self.new.conn.in_transaction ≡ false }
        ensures open { OnOk result (is_closed self.old.last ≡ false) }
        ensures closed { IfErr result (λ fault. (fault ≡ Fault.Closed) × (is_closed self.old.last ≡ true) × (self.new ≡ self.old)) }
    {
        if self.last == LastCall::Closed {
            return Err(Fault::Closed);
        }
        self.let_go_of_prepared();
        Ok(())
    }
}
