// A ledger on which batches are closed one after the other.
ghost use Rattle.std.specs.Prelude.{◌≡◌, true, false, is_some};
ghost use Rattle.ledger.specs.States.{state_of};
ghost use Rattle.ledger.specs.Checks.{none_open};

use crate::batches::close_batch;
use batch::sheet::SheetLine;
use ledger::state::Ledger;
use std::alloc::{AllocError, Global};

// A ledger between batches: no group of payments is open, and no reservation stands.
#[derive(Drop)]
pub struct Month {
    ledger: Ledger,
    ghost outside: { none_open (state_of ledger).groups ≡ true },
    ghost free: { is_some (state_of ledger).standing ≡ false },
}

impl Month {
    ghost use Rattle.std.specs.Prelude.{length, IfOk, nat_lt};
    ghost use Rattle.credit.specs.declared.refusal.Refusal.TheVariants.{BatchTooLong};
    ghost use Rattle.credit.specs.Refusals.{check, passes};
    ghost use Rattle.ledger.specs.States.{fresh};
    ghost use Rattle.closing.specs.Closes.{door_checks};
    ghost use Rattle.closing.specs.Batches.{ClosesOrStays};
    ghost use Rattle.closing.specs.Agrees.{SheetLaw};

    // A month begins with a new ledger.
    pub fn new(heap: Global) -> Result<Self, AllocError>
        ensures { IfOk result (λ month. state_of month.ledger ≡ fresh) }
    {
        let ledger = Ledger::new(heap)?;
        Ok(Month { ledger })
    }

    // Closes the next batch. Whatever the batches before it were, it begins outside of every group: it is refused as a
    // whole only where it is too long.
    pub fn close(&mut self, batch: &[u8], heap: Global) -> Result<Vec<SheetLine>, AllocError>
        ensures door { door_checks (state_of self.old.ledger) batch.now ≡ check (nat_lt 32768 (length batch.now)) BatchTooLong passes }
        ensures closes { ClosesOrStays (state_of self.old.ledger) batch.now result (state_of self.new.ledger) }
        ensures law { SheetLaw }
    {
        close_batch(&mut self.ledger, batch, heap)
    }
}
