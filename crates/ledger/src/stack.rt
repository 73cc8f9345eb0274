// The open groups of payments: saving debts, giving them back, and marking the inmost group.
ghost use Rattle.std.specs.Prelude.{◌≡◌, ◌<◌, ◌≤◌, true, false, length, is_some};
ghost use Rattle.lists.specs.Lists.{listed};
ghost use Rattle.calls.specs.Answers.{closing};
ghost use Rattle.calls.specs.declared.call.Answer.TheVariants.{Kept, Undone};
ghost use Rattle.ledger.specs.Debts.{debts, with_debts};
ghost use Rattle.ledger.specs.States.{state_of, with_groups};
ghost use Rattle.ledger.specs.Calls.{begun, closed, spoil_inmost};

use crate::state::{Ledger, Savepoint};
use calls::call::Closing;
use credit::line::Line;
use lists::few::Few;

// The debts of the lines, in their order.
fn debts_of(lines: &[Line]) -> Few<i32, 256>
    requires { length lines.now ≤ 256 }
    ensures { listed result ≡ debts lines.now }
{
    let mut saved = [0; 256];
    for (i, line) in lines.iter().enumerate() {
        saved[i] = line.debt;
    }
    Few::front(saved, lines.len())
}

// Gives each line its debt back.
fn restore(lines: &mut [Line], saved: &[i32])
    requires { length lines.old ≡ length saved.now }
    ensures { lines.new ≡ with_debts lines.old saved.now }
{
    // By position: once `iter_mut().zip(..)` is over, a proof knows nothing of the lines that it wrote.
    for (i, line) in lines.iter_mut().enumerate() {
        line.debt = saved[i];
    }
}

impl Ledger {
    // Opens a group of payments: spoiled from the start where it is begun inside a spoiled one.
    pub(crate) fn save(&mut self)
        requires { length (state_of self.old).groups < 8 }
        ensures { state_of self.new ≡ begun (state_of self.old) }
    {
        let debts = debts_of(&self.lines);
        let spoiled = self.inmost_spoiled();
        self.savepoints.push_reserved(Savepoint { debts, spoiled });
    }

    // Closes the inmost group, if any, and keeps its payments.
    pub(crate) fn keep_inmost(&mut self) -> Closing
        ensures answer { closing result ≡ Kept }
        ensures state { state_of self.new ≡ closed (state_of self.old) (state_of self.old).groups true }
    {
        let _ = self.savepoints.pop();
        Closing::Kept
    }

    // Closes the inmost group, if any, and puts every debt back as at its begin.
    pub(crate) fn undo_inmost(&mut self) -> Closing
        requires { is_some self.old.standing ≡ false }
        ensures answer { closing result ≡ Undone }
        ensures state { state_of self.new ≡ closed (state_of self.old) (state_of self.old).groups false }
    {
        if let Some(savepoint) = self.savepoints.pop() {
            restore(&mut self.lines, savepoint.debts.as_slice());
        }
        Closing::Undone
    }

    // Marks the inmost group, if any, as spoiled.
    #[tactic(auto, using(crate::proofs::Stacks::groups_mark))]
    pub(crate) fn spoil_inmost(&mut self)
        ensures { state_of self.new ≡ with_groups (state_of self.old) (spoil_inmost (state_of self.old).groups) }
    {
        if let Some(savepoint) = self.savepoints.last_mut() {
            savepoint.spoiled = true;
        }
    }
}
