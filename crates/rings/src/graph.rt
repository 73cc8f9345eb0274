ghost use Rattle.std.specs.Prelude.{◌≡◌, ℕ, ◌<◌, true, ◌⊎◌, pos, ◌<ℤ◌, MatchOption};
ghost use Rattle.credit.specs.Sums.{every};
ghost use Rattle.credit.specs.Net.{bounded};
ghost use Rattle.search.specs.Answers.{Searched};
ghost use Rattle.search.specs.Rowed.{reaches};
ghost use Rattle.rings.specs.Rings.{line_owes};
ghost use Rattle.rings.specs.Steps.{DebtStep};

use credit::line::Line;
use search::breadth_first::search;
use search::chain::{Chain, NoChain};
use search::rows::Rows;

// Who owes whom on a line.
#[derive(Clone, Copy)]
pub(crate) struct Debt {
    pub(crate) debtor: u32,
    pub(crate) creditor: u32,
}

// Who owes whom on a line, or None where its debt is 0.
pub(crate) fn debt_of(line: Line) -> Option<Debt>
    requires { bounded line ≡ true }
    ensures { MatchOption result (line.debt ≡ pos 0) (λ d. pos 0 <ℤ line_owes d.debtor d.creditor line) }
{
    if line.debt > 0 {
        Some(Debt {
            debtor: line.b,
            creditor: line.a,
        })
    } else if line.debt < 0 {
        Some(Debt {
            debtor: line.a,
            creditor: line.b,
        })
    } else {
        None
    }
}

// The graph of the debts on these lines: a step leads from each debtor to the creditor. Built once for each search.
fn debts(lines: &[Line]) -> Rows
    requires { every bounded lines.now ≡ true }
    ensures sound { (m n : ℕ) → reaches result m n ≡ true → DebtStep lines.now m n }
    ensures complete { (m n : ℕ) → m < 64 → n < 64 → DebtStep lines.now m n → reaches result m n ≡ true }
{
    let mut rows = Rows::new();
    for line in lines {
        if let Some(debt) = debt_of(*line) {
            rows.add(debt.debtor, debt.creditor);
        }
    }
    rows
}

// A shortest chain from debtors to creditors.
pub(crate) fn chain_of_debts(lines: &[Line], start: u32, goal: u32) -> Result<Chain, NoChain>
    requires { every bounded lines.now ≡ true }
    ensures { Searched (DebtStep lines.now) start goal result }
{
    search(&debts(lines), start, goal)
}
