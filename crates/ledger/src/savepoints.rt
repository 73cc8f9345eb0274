// Groups of payments: begin, end and abandon.
ghost use Rattle.std.specs.Prelude.{◌≡◌};
ghost use Rattle.calls.specs.declared.call.Call.TheVariants.{Begin, End, Abandon};
ghost use Rattle.ledger.specs.States.{state_of};
ghost use Rattle.ledger.specs.Calls.{Does};
ghost use Rattle.calls.specs.Answers.{done_or, closed_or};

use crate::state::Ledger;
use calls::call::Closing;
use credit::refusal::Refusal;

impl Ledger {
    // Opens a group of payments.
    pub fn begin(&mut self) -> Result<(), Refusal>
        ensures answer { Does (state_of self.old) Begin (done_or result) (state_of self.new) }
    {
        self.begin_checks()?;
        self.save();
        Ok(())
    }

    // Closes the inmost group: its payments are kept, or undone where it is spoiled.
    pub fn end(&mut self) -> Result<Closing, Refusal>
        ensures answer { Does (state_of self.old) End (closed_or result) (state_of self.new) }
    {
        self.close_checks()?;
        let closing = if self.inmost_spoiled() {
            self.undo_inmost()
        } else {
            self.keep_inmost()
        };
        Ok(closing)
    }

    // Closes the inmost group and undoes its payments.
    pub fn abandon(&mut self) -> Result<Closing, Refusal>
        ensures answer { Does (state_of self.old) Abandon (closed_or result) (state_of self.new) }
    {
        self.close_checks()?;
        Ok(self.undo_inmost())
    }
}
