// A new ledger, and the opening of lines.
ghost use Rattle.std.specs.Prelude.{◌≡◌, IfOk};
ghost use Rattle.credit.specs.Refusals.{passes};
ghost use Rattle.calls.specs.declared.call.Call.TheVariants.{Open};
ghost use Rattle.ledger.specs.States.{state_of, fresh};
ghost use Rattle.ledger.specs.Between.{line_between};
ghost use Rattle.ledger.specs.Checks.{open_checks};
ghost use Rattle.ledger.specs.Calls.{Does, new_line, opened};
ghost use Rattle.calls.specs.Answers.{done_or};

use crate::state::{Ledger, Savepoint};
use credit::line::Line;
use credit::refusal::Refusal;
use std::alloc::{AllocError, Global};

// The line that joins two members.
pub(crate) fn line_between(lines: &[Line], first: u32, second: u32) -> Option<Line>
    ensures { result ≡ line_between first second lines.now }
{
    lines.iter().copied().find(|line| line.joins(first, second))
}

// A line without debt; the first trusts the second for `trust`, the second the first for `back`.
fn new_line(first: u32, second: u32, trust: i32, back: i32) -> Line
    ensures { result ≡ new_line first second trust back }
{
    let (a, b, trust_a, trust_b) = if first < second {
        (first, second, trust, back)
    } else {
        (second, first, back, trust)
    };
    Line {
        a,
        b,
        trust_a,
        trust_b,
        debt: 0,
    }
}

impl Ledger {
    // A ledger without lines, with the memory for all that it may hold.
    pub fn new(heap: Global) -> Result<Ledger, AllocError>
        ensures { IfOk result (λ l. state_of l ≡ fresh) }
    {
        let lines = Vec::with_capacity(heap, 256)?;
        let savepoints = Vec::with_capacity(heap, 8)?;
        Ok(Ledger {
            lines,
            savepoints,
            standing: None,
        })
    }

    // Adds a line that the checks let pass.
    fn add_line(&mut self, first: u32, second: u32, trust: i32, back: i32)
        requires { open_checks (state_of self.old) first second trust back ≡ passes }
        ensures { state_of self.new ≡ opened (state_of self.old) first second trust back }
    {
        self.lines
            .push_reserved(new_line(first, second, trust, back));
    }

    // Opens a line between two members: the first trusts the second for `trust`, the second the first for `back`.
    pub fn open(&mut self, first: u32, second: u32, trust: i32, back: i32) -> Result<(), Refusal>
        ensures answer { Does (state_of self.old) (Open first second trust back) (done_or result) (state_of self.new) }
    {
        self.open_checks(first, second, trust, back)?;
        self.add_line(first, second, trust, back);
        Ok(())
    }
}
