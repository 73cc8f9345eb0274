// Chains filled one after another.
ghost use Rattle.std.specs.Prelude.{◌≡◌, ◌<◌, ◌≤◌, ◌≢◌, true, length, pos, ◌≤ℤ◌, Ok, Err};
ghost use Rattle.std.specs.List.{All, AllPairs};
ghost use Rattle.lists.specs.Lists.{listed};
ghost use Rattle.credit.specs.Plans.{booked};
ghost use Rattle.search.specs.Chains.{IsShortest};
ghost use Rattle.search.specs.Answers.{steps};
ghost use Rattle.credit.specs.Refusals.{passes};
ghost use Rattle.routing.specs.Meaning.{usable, router_checks};
ghost use Rattle.filling.specs.Steps.{RoomStep};
ghost use Rattle.filling.specs.Fillings.{sent_along, Fills, Closed, Ends};

use crate::booked::Booked;
use crate::chain::Hop;
use credit::line::Line;
use credit::payment::Payment;
use credit::plan::planned_after;
use members::group::Group;
use search::chain::Chain;

// Moves x more over hops whose lines all differ.
fn send(lines: &[Line], plan: &mut [i32], hops: &[Hop], x: i32)
    requires usable { usable lines.now plan.old ≡ true }
    requires within { All (λ h. h.place < length lines.now) hops.now }
    requires apart { AllPairs (λ g h. g.place ≢ h.place) hops.now }
    requires low { pos 0 ≤ℤ x }
    requires high { x ≤ℤ pos 1000000 }
    ensures { plan.new ≡ sent_along lines.now hops.now x plan.old }
{
    for hop in hops {
        plan[hop.place] = planned_after(&lines[hop.place], plan[hop.place], hop.from, x);
    }
}

// Fills a chain: by its least room, or by what is still to send where that is less. Tells how much that is.
fn fill(lines: &[Line], plan: &mut [i32], least: u32, chain: &Chain, rest: Payment) -> i32
    requires checks { router_checks lines.now rest plan.old ≡ passes }
    requires shortest { IsShortest (RoomStep (booked lines.now plan.old) (pos least)) rest.payer rest.payee (listed chain.now.members) (steps chain.now) }
    ensures { Fills lines.now rest (pos least) plan.old result plan.new }
{
    let booked = Booked::new(lines, plan);
    let hops = booked.hops(least, chain);
    let x = booked.least_room(&hops, rest.amount) as i32;
    send(lines, plan, &hops, x);
    x
}

// Fills one chain from payer to payee, or names a group that no line with enough room leaves.
fn fill_next(lines: &[Line], plan: &mut [i32], least: u32, rest: Payment) -> Result<i32, Group>
    requires { router_checks lines.now rest plan.old ≡ passes }
    ensures { elim result [ Ok x ↦ Fills lines.now rest (pos least) plan.old x plan.new | Err g ↦ Closed lines.now rest.payer rest.payee (pos least) plan.old g.bits × (plan.new ≡ plan.old) ] }
{
    let chain = Booked::new(lines, plan).reach(least, rest)?;
    Ok(fill(lines, plan, least, &chain, rest))
}

// What a round leaves to send, and a group that no line with enough room leaves.
#[derive(Clone, Copy)]
pub(crate) struct Short {
    pub(crate) left: i32,
    pub(crate) group: Group,
}

// Fills chains from payer to payee as long as something is to send and there is one with enough room.
pub(crate) fn round(
    lines: &[Line],
    plan: &mut [i32],
    least: u32,
    payment: Payment,
) -> Result<(), Short>
    requires checks { router_checks lines.now payment plan.old ≡ passes }
    requires least { 1 ≤ least }
    ensures { Ends lines.now payment (pos least) plan.old result plan.new }
{
    let mut rest = payment;
    while rest.amount > 0 {
        match fill_next(lines, plan, least, rest) {
            Ok(x) => rest.amount -= x,
            Err(group) => {
                return Err(Short {
                    left: rest.amount,
                    group,
                });
            }
        }
    }
    Ok(())
}
