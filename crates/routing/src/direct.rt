ghost use Rattle.std.specs.Prelude.{◌≡◌, ◌<◌, true, length, ℤ, pos, ◌+ℤ◌, ◌≤ℤ◌, slice_set};
ghost use Rattle.std.specs.Int.{int_min};
ghost use Rattle.std.specs.List.{position};
ghost use Rattle.members.specs.declared.group.Group.{Group as Members};
ghost use Rattle.credit.specs.declared.refusal.Refusal.TheVariants.{WantOfRoom};
ghost use Rattle.credit.specs.Refusals.{passes};
ghost use Rattle.credit.specs.Net.{bounded};
ghost use Rattle.credit.specs.Pairs.{joins};
ghost use Rattle.credit.specs.Plans.{moved, roomy};
ghost use Rattle.routing.specs.Meaning.{router_checks, Finds, Routes};
ghost use Rattle.routing.specs.Direct.{share_on, direct_share, Shared, Directs};
ghost use Rattle.routing.specs.Handing.{Wider, Stays, Handed};

use crate::checks::admitted;
use crate::router::Router;
use credit::line::Line;
use credit::payment::Payment;
use credit::plan::planned_after;
use credit::refusal::Refusal;

// Direct first, over any router: what the first line that joins payer and payee can carry goes on it, and the router
// below finds the rest.
#[derive(Drop)]
pub struct Direct<R> {
    below: R,
}

// What goes on the direct line: its place, its plan number before and after, and the part of the amount.
#[derive(Clone, Copy)]
pub struct Share {
    pub place: usize,
    pub before: i32,
    pub after: i32,
    pub part: i32,
}

impl Share {
    // Puts the share into the plan.
    fn put(self, plan: &mut [i32])
        requires { self.place < length plan.old }
        ensures { plan.new ≡ slice_set plan.old self.place self.after }
    {
        plan[self.place] = self.after;
    }

    // Takes the share back.
    fn take_back(self, plan: &mut [i32])
        requires { self.place < length plan.old }
        ensures { plan.new ≡ slice_set plan.old self.place self.before }
    {
        plan[self.place] = self.before;
    }
}

// The place of the first line that joins the two.
fn joining(lines: &[Line], payment: Payment) -> Option<usize>
    ensures { result ≡ position (joins payment.payer payment.payee) lines.now }
{
    lines
        .iter()
        .position(|line| line.joins(payment.payer, payment.payee))
}

// The amount, or the room where that is less.
fn at_most(amount: i32, room: i64) -> i32
    requires { pos 0 ≤ℤ room }
    ensures { result ≡ int_min amount room }
{
    // no more than the amount: `try_from` would bring an error that cannot come
    i64::from(amount).min(room) as i32
}

// What the line can carry for the payer.
fn share_on(line: &Line, place: usize, payment: Payment, planned: i32) -> Share
    requires sound { bounded line.now ≡ true }
    requires fit { roomy (moved line.now planned) ≡ true }
    requires small { (pos 1 ≤ℤ payment.amount) × (payment.amount ≤ℤ pos 1000000) }
    ensures { result ≡ share_on line.now place payment planned }
{
    let part = at_most(payment.amount, line.room_from(planned, payment.payer));
    Share {
        place,
        before: planned,
        after: planned_after(line, planned, payment.payer, part),
        part,
    }
}

// What goes on the first line that joins payer and payee.
fn direct_share(lines: &[Line], payment: Payment, plan: &[i32]) -> Option<Share>
    requires { router_checks lines.now payment plan.now ≡ passes }
    ensures { result ≡ direct_share lines.now payment plan.now }
{
    let place = joining(lines, payment)?;
    Some(share_on(&lines[place], place, payment, plan[place]))
}

// The room together with the direct part.
fn with_part(room: i32, part: i32) -> i32
    requires { ((room +ℤ part) ≤ℤ pos 1000000) × (pos 0 ≤ℤ part) }
    ensures { result ≡ room +ℤ part }
{
    room + part
}

// The refusal with its room larger by the share's part; one for another reason stays.
fn widened(refusal: Refusal, share: Share) -> Refusal
    requires low { pos 0 ≤ℤ share.part }
    requires high { (g : Members) (w : ℤ) → refusal ≡ WantOfRoom g w → (w +ℤ share.part) ≤ℤ pos 1000000 }
    ensures wider { Wider refusal share.part result }
    ensures stays { Stays refusal result }
{
    match refusal {
        Refusal::WantOfRoom { group, room } => Refusal::WantOfRoom {
            group,
            room: with_part(room, share.part),
        },
        other => other,
    }
}

impl<R> Direct<R> {
    pub fn new(below: R) -> Self
        ensures { result.below ≡ below }
    {
        Direct { below }
    }
}

impl<R: Router> Direct<R> {
    // Has the router below find the rest, the share being in the plan. Where it refuses, the share is taken back.
    fn route_rest(
        &mut self,
        lines: &[Line],
        rest: Payment,
        share: Share,
        plan: &mut [i32],
    ) -> Result<(), Refusal>
        requires checks { router_checks lines.now rest plan.old ≡ passes }
        requires place { share.place < length plan.old }
        requires part { (pos 0 ≤ℤ share.part) × ((share.part +ℤ rest.amount) ≤ℤ pos 1000000) }
        ensures { Handed lines.now rest share plan.old result plan.new }
    {
        match self.below.route(lines, rest, plan) {
            Ok(()) => Ok(()),
            Err(refusal) => {
                share.take_back(plan);
                Err(widened(refusal, share))
            }
        }
    }

    // Past the checks: the share on the direct line, and the rest, if any, by the router below.
    fn send(&mut self, lines: &[Line], payment: Payment, plan: &mut [i32]) -> Result<(), Refusal>
        requires { router_checks lines.now payment plan.old ≡ passes }
        ensures finds { Finds lines.now payment plan.old result plan.new }
        ensures shared { Shared (direct_share lines.now payment plan.old) lines.now payment plan.old result plan.new }
    {
        let Some(share) = direct_share(lines, payment, plan) else {
            return self.below.route(lines, payment, plan);
        };
        share.put(plan);
        if share.part < payment.amount {
            let rest = Payment {
                amount: payment.amount - share.part,
                ..payment
            };
            self.route_rest(lines, rest, share, plan)
        } else {
            Ok(())
        }
    }
}

impl<R: Router> Router for Direct<R> {
    fn route(&mut self, lines: &[Line], payment: Payment, plan: &mut [i32]) -> Result<(), Refusal>
        ensures routes { Routes lines.now payment plan.old result plan.new }
        ensures directs { Directs lines.now payment plan.old result plan.new }
    {
        admitted(lines, payment, plan)?;
        self.send(lines, payment, plan)
    }
}

#[cfg(test)]
mod tests {
    use super::*;
    use members::group::Group;
    use std::test::Fail;

    const FAR: Line = Line {
        a: 1,
        b: 2,
        trust_a: 0,
        trust_b: 30,
        debt: 0,
    };

    const NEAR: Line = Line {
        a: 1,
        b: 3,
        trust_a: 0,
        trust_b: 1,
        debt: 0,
    };

    const FORTY: Payment = Payment {
        payer: 1,
        payee: 3,
        amount: 40,
    };

    // The direct line carries 1 of 40; where the rest is refused, the room is larger by 1 and the plan is as it was.
    #[test]
    fn taken_back(rt: HostRuntime) -> Result<(), Fail> {
        let mut plan = [0, 0];
        let share = direct_share(&[FAR, NEAR], FORTY, &plan).ok_or("no line joins them")?;
        assert!(rt; share.place == 1 && share.part == 1);
        share.put(&mut plan);
        assert_eq!(rt; plan, [0, 1]);
        share.take_back(&mut plan);
        assert_eq!(rt; plan, [0, 0]);
        let group = Group { bits: 2 };
        let wider = widened(Refusal::WantOfRoom { group, room: 30 }, share);
        assert_eq!(rt; wider, Refusal::WantOfRoom { group, room: 31 });
        Ok(())
    }
}
