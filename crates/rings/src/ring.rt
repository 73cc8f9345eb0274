ghost use Rattle.std.specs.Prelude.{◌≡◌, ◌<◌, ◌≤◌, true, ◌⊎◌, length, pos, ◌+ℤ◌, ◌-ℤ◌, ◌≤ℤ◌};
ghost use Rattle.lists.specs.Lists.{listed};
ghost use Rattle.credit.specs.Sums.{every, only};
ghost use Rattle.credit.specs.Net.{bounded};
ghost use Rattle.credit.specs.Plans.{with_debt};
ghost use Rattle.credit.specs.Pairs.{distinct};
ghost use Rattle.rings.specs.Rings.{steps as steps_of, on, Ring as RingOf, cancel as cancelled};
ghost use Rattle.rings.specs.Rounds.{Apart, Rounds, Links, Under, Met};

use credit::line::Line;
use search::chain::Chain;

// The most that anybody may owe on a line.
const MOST: i32 = 1_000_000;

// A ring: each member of the chain owes the next, and the last owes the first.
#[derive(Clone, Copy)]
pub struct Ring {
    chain: Chain,
    // whom each member owes on the ring
    creditors: [Option<u32>; 64],

    ghost table: { Links creditors (listed chain.members) },
}

impl Ring {
    ghost use Rattle.rings.specs.Parties.{party};

    // The ring that a chain of different members closes to.
    fn new(chain: Chain) -> Ring
        requires three { 3 ≤ length (listed chain.members) }
        requires apart { Apart (listed chain.members) }
        ensures { result.chain ≡ chain }
    {
        let members = chain.members.as_slice();
        let mut creditors = [None; 64];
        for step in members.windows(2) {
            creditors[step[0] as usize] = Some(step[1]);
        }
        if let [first, .., last] = members {
            creditors[*last as usize] = Some(*first);
        }
        Ring { chain, creditors }
    }

    // Whether a step of the ring leads from a debtor to a creditor.
    fn leads(&self, debtor: u32, creditor: u32) -> bool
        requires debtor { debtor < 64 }
        requires creditor { creditor < 64 }
        ensures { result ≡ on debtor creditor (steps_of (party self.now)) }
    {
        self.creditors[debtor as usize] == Some(creditor)
    }

    // The lesser of an amount and of what a debtor owes a creditor, where the ring leads from the one to the other.
    fn lesser(&self, debtor: u32, creditor: u32, owed: i32, amount: i32) -> i32
        requires debtor { debtor < 64 }
        requires creditor { creditor < 64 }
        ensures most { result ≤ℤ amount }
        ensures under { on debtor creditor (steps_of (party self.now)) ≡ true → result ≤ℤ owed }
        ensures met { (result ≡ amount) ⊎ ((on debtor creditor (steps_of (party self.now)) ≡ true) × (result ≡ owed)) }
    {
        if self.leads(debtor, creditor) {
            amount.min(owed)
        } else {
            amount
        }
    }

    // The lesser of an amount and of what is owed on a line along the ring.
    fn least_on(&self, line: Line, amount: i32) -> i32
        requires { bounded line ≡ true }
        ensures most { result ≤ℤ amount }
        ensures under { Under (party self.now) result line }
        ensures met { (result ≡ amount) ⊎ Met (party self.now) result line }
    {
        let least = self.lesser(line.b, line.a, line.debt, amount);
        self.lesser(line.a, line.b, -line.debt, least)
    }

    // The least that is owed on a step of the ring.
    fn least(&self, lines: &[Line]) -> i32
        requires rounds { Rounds lines.now (listed self.now.chain.members) }
        requires bounds { every bounded lines.now ≡ true }
        requires pairs { distinct lines.now ≡ true }
        ensures ring { RingOf lines.now (party self.now) result }
        ensures most { result ≤ℤ pos 1000000 }
    {
        let mut least = MOST;
        for line in lines {
            least = self.least_on(*line, least);
        }
        least
    }

    // By how much what a debtor owes a creditor falls: not at all where the ring does not lead from the one to the other.
    fn fall(&self, debtor: u32, creditor: u32, by: i32) -> i32
        requires debtor { debtor < 64 }
        requires creditor { creditor < 64 }
        requires some { pos 0 ≤ℤ by }
        ensures value { result ≡ only (on debtor creditor (steps_of (party self.now))) by }
        ensures low { pos 0 ≤ℤ result }
        ensures high { result ≤ℤ by }
    {
        if self.leads(debtor, creditor) { by } else { 0 }
    }

    // A line once what is owed on it along the ring has fallen.
    fn lowered(&self, mut line: Line, by: i32) -> Line
        requires bounds { bounded line ≡ true }
        requires some { pos 0 ≤ℤ by }
        requires most { by ≤ℤ pos 1000000 }
        ensures { result ≡ with_debt line ((line.debt -ℤ only (on line.b line.a (steps_of (party self.now))) by) +ℤ only (on line.a line.b (steps_of (party self.now))) by) }
    {
        line.debt -= self.fall(line.b, line.a, by);
        line.debt += self.fall(line.a, line.b, by);
        line
    }

    // Lowers each debt on the ring.
    fn lower(&self, lines: &mut [Line], by: i32)
        requires apart { Apart (party self.now) }
        requires bounds { every bounded lines.old ≡ true }
        requires some { pos 0 ≤ℤ by }
        requires most { by ≤ℤ pos 1000000 }
        ensures { lines.new ≡ cancelled (steps_of (party self.now)) by lines.old }
    {
        for line in lines.iter_mut() {
            *line = self.lowered(*line, by);
        }
    }
}

// Lowers each debt on the ring that a chain of debts closes to by the least of them, and answers by how much.
pub(crate) fn cancel(lines: &mut [Line], chain: Chain) -> i32
    requires rounds { Rounds lines.old (listed chain.members) }
    requires bounds { every bounded lines.old ≡ true }
    requires pairs { distinct lines.old ≡ true }
    ensures ring { RingOf lines.old (listed chain.members) result }
    ensures lowered { lines.new ≡ cancelled (steps_of (listed chain.members)) result lines.old }
{
    let ring = Ring::new(chain);
    let by = ring.least(lines);
    ring.lower(lines, by);
    by
}
