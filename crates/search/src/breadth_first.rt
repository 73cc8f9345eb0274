ghost use Rattle.std.specs.Prelude.{◌≡◌, ℕ, ◌<◌, List, IfOk, MatchResult, if◌then◌else◌, slice_index};
ghost use Rattle.lists.specs.Lists.{listed};
ghost use Rattle.members.specs.Groups.{inside};
ghost use Rattle.search.specs.Chains.{IsShortest, Separates};
ghost use Rattle.search.specs.Levels.{Spread, Members, Traced};
ghost use Rattle.search.specs.Answers.{Searched};

use crate::chain::{Chain, NoChain};
use crate::graph::Graph;
use lists::few::Few;
use members::group::Group;

// A shortest chain of steps from the start to the goal.
pub fn search<G: Graph>(graph: &G, start: u32, goal: u32) -> Result<Chain, NoChain>
    ensures { Searched (G.steps graph.now) start goal result }
{
    if start > 63 || goal > 63 {
        return Err(NoChain::NotMembers);
    }
    let mut before = [0u32; 64];
    match levels(graph, start, goal, &mut before) {
        Ok(steps) => Ok(trace(&before, goal, steps)),
        Err(group) => Err(NoChain::Closed(group)),
    }
}

// Goes from the start level by level, and notes in `before` whom each member is reached from. How many steps it takes to
// the goal, or a group that shows that there is no chain.
fn levels<G: Graph>(
    graph: &G,
    start: u32,
    goal: u32,
    before: &mut [u32; 64],
) -> Result<usize, Group>
    requires from { start < 64 }
    requires to { goal < 64 }
    requires members { Members before.old }
    ensures members { Members before.new }
    ensures short { IfOk result (λ steps. steps < 64) }
    ensures leads { MatchResult result (λ steps. (c : List ℕ) → Traced before.new goal steps c → IsShortest (G.steps graph.now) start goal c steps) (λ group. Separates (G.steps graph.now) start goal group.bits) }
{
    if start == goal {
        return Ok(0);
    }
    let mut seen = Group::empty().with(start);
    let mut frontier = seen;
    let mut level = 0usize;
    while let Some(next) = spread(graph, frontier, seen, before, goal) {
        if next.bits == 0 {
            return Err(seen);
        }
        seen = seen.union(next);
        frontier = next;
        level += 1;
    }
    Ok(level + 1)
}

// The members outside `seen` that are one step from the frontier, each noted in `before` with the member it is
// reached from; or None as soon as the goal is among them.
#[tactic(auto, using(members::proofs::Digits::inside_zero))]
fn spread<G: Graph>(
    graph: &G,
    frontier: Group,
    seen: Group,
    before: &mut [u32; 64],
    goal: u32,
) -> Option<Group>
    requires member { goal < 64 }
    requires members { Members before.old }
    ensures { Spread (G.steps graph.now) frontier.bits seen.bits goal before.old before.new result }
{
    let mut next = Group::empty();
    for m in frontier.walk() {
        let fresh = graph.reached(m).minus(seen.union(next));
        if fresh.holds(goal) {
            before[goal as usize] = m;
            return None;
        }
        note(before, fresh, m);
        next = next.union(fresh);
    }
    Some(next)
}

// Notes each member of a group as reached from m.
#[tactic(auto, using(members::proofs::Digits::inside_zero))]
fn note(before: &mut [u32; 64], group: Group, m: u32)
    ensures { (n : ℕ) → slice_index before.new n ≡ (if inside group.bits n then m else slice_index before.old n) }
{
    for n in group.walk() {
        before[n as usize] = m;
    }
}

// The chain to the goal that `before` leads back along, of so many steps.
fn trace(before: &[u32; 64], goal: u32, steps: usize) -> Chain
    requires member { goal < 64 }
    requires short { steps < 64 }
    requires members { Members before.now }
    ensures { Traced before.now goal steps (listed result.members) }
{
    let mut members = Few::empty(0);
    let mut at = goal;
    members.push(at);
    for _ in 0..steps {
        at = before[at as usize];
        members.push(at);
    }
    members.reverse();
    Chain { members }
}

#[cfg(test)]
mod tests {
    use super::*;
    use crate::rows::Rows;
    use std::test::Fail;

    // 1 to 2 to 3 to 4, and 1 to 5 to 4
    fn graph() -> Rows {
        let mut rows = Rows::new();
        rows.add(1, 2);
        rows.add(2, 3);
        rows.add(3, 4);
        rows.add(1, 5);
        rows.add(5, 4);
        rows
    }

    #[test]
    fn takes_the_shorter_way(rt: HostRuntime) -> Result<(), Fail> {
        match search(&graph(), 1, 4) {
            Ok(chain) => {
                assert_eq!(rt; chain.members.as_slice(), [1, 5, 4].as_slice());
                Ok(())
            }
            _ => Err(Fail::new("no chain")),
        }
    }

    #[test]
    fn tells_who_is_cut_off(rt: HostRuntime) -> Result<(), Fail> {
        match search(&graph(), 2, 1) {
            Err(NoChain::Closed(group)) => {
                assert_eq!(rt; group.bits, 0b11100);
                Ok(())
            },
            _ => Err(Fail::new("no group")),
        }
    }

    #[test]
    fn answers_between_members_alone(rt: HostRuntime) -> Result<(), Fail> {
        assert!(rt; matches!(search(&graph(), 64, 1), Err(NoChain::NotMembers)));
        assert!(rt; matches!(search(&graph(), 1, 64), Err(NoChain::NotMembers)));
        match search(&graph(), 7, 7) {
            Ok(chain) => {
                assert_eq!(rt; chain.members.as_slice(), [7].as_slice());
                Ok(())
            },
            _ => Err(Fail::new("no chain")),
        }
    }
}
