// Cancelling rings of debt.
ghost use Rattle.std.specs.Prelude.{◌≡◌, List};
ghost use Rattle.credit.specs.declared.line.Line.{Line};
ghost use Rattle.rings.specs.Rings.{Tidied};
ghost use Rattle.calls.specs.declared.call.Call.TheVariants.{Tidy};
ghost use Rattle.calls.specs.declared.call.Answer.TheVariants.{Done};
ghost use Rattle.ledger.specs.States.{state_of, with_lines};
ghost use Rattle.ledger.specs.Calls.{Does};

use crate::state::Ledger;
use rings::tidy::tidy;

impl Ledger {
    // Cancels rings on the lines.
    fn cancel_rings(&mut self)
        ensures { (ls : List Line) × Tidied (state_of self.old).lines ls × (state_of self.new ≡ with_lines (state_of self.old) ls) }
    {
        tidy(&mut self.lines);
    }

    // While members owe each other round a ring of three or more, each debt on the ring falls by the least of them. No
    // net position moves, and no debt grows or turns. It is never refused.
    pub fn tidy(&mut self)
        ensures answer { Does (state_of self.old) Tidy Done (state_of self.new) }
    {
        self.cancel_rings();
    }
}
