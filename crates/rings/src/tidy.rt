// For the crates above: callers keep every line within its bounds, and at most one line for each pair.
ghost use Rattle.std.specs.Prelude.{◌≡◌, ℕ, ◌<◌, true, length, MatchOption};
ghost use Rattle.lists.specs.Lists.{listed};
ghost use Rattle.credit.specs.Sums.{every};
ghost use Rattle.credit.specs.Net.{bounded, net};
ghost use Rattle.credit.specs.Pairs.{distinct};
ghost use Rattle.rings.specs.Rings.{Tidied};
ghost use Rattle.rings.specs.Steps.{Eases};
ghost use Rattle.rings.specs.Rounds.{RoundOver, Clear, Reached};

use crate::graph::{chain_of_debts, debt_of};
use crate::ring::cancel;
use credit::line::Line;
use search::chain::Chain;

// Cancels rings of debt until none is left. No net position moves, and no debt grows or turns.
// Each search either cancels a ring, which sets some debt to 0 for good, or leaves a line for good: there are at most
// twice as many searches as lines.
#[tactic(auto, using(crate::proofs::Clearing::tidied_clear))]
pub fn tidy(lines: &mut [Line])
    requires bounds { every bounded lines.old ≡ true }
    requires pairs { distinct lines.old ≡ true }
    ensures tidied { Tidied lines.old lines.new }
    ensures nets { (m : ℕ) → net m lines.new ≡ net m lines.old }
    ensures debts { Eases lines.old lines.new }
    ensures bounds { every bounded lines.new ≡ true }
    ensures pairs { distinct lines.new ≡ true }
{
    // by place: what clears one line may change any, so no line can stay borrowed meanwhile
    for i in 0..lines.len() {
        clear(lines, i);
    }
}

// Cancels rings that lead over line i until there is none.
fn clear(lines: &mut [Line], i: usize)
    requires place { i < length lines.old }
    requires bounds { every bounded lines.old ≡ true }
    requires pairs { distinct lines.old ≡ true }
    ensures reached { Reached lines.old lines.new }
    ensures clear { Clear lines.new i }
{
    while let Some(chain) = ring_over(lines, i) {
        cancel(lines, chain);
    }
}

// A chain of debts that closes to a ring by the debt on line i, or None where no ring leads over that line.
fn ring_over(lines: &[Line], i: usize) -> Option<Chain>
    requires place { i < length lines.now }
    requires bounds { every bounded lines.now ≡ true }
    requires pairs { distinct lines.now ≡ true }
    ensures { MatchOption result (Clear lines.now i) (λ chain. RoundOver lines.now i (listed chain.members)) }
{
    let debt = debt_of(lines[i])?;
    chain_of_debts(lines, debt.creditor, debt.debtor).ok()
}
