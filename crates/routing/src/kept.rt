ghost use Rattle.std.specs.Prelude.{◌≡◌, ◌≤◌, true, [], length, IfSome, Err};
ghost use Rattle.credit.specs.Refusals.{passes};
ghost use Rattle.credit.specs.Sums.{every};
ghost use Rattle.credit.specs.Net.{bounded};
ghost use Rattle.credit.specs.Plans.{fits};
ghost use Rattle.routing.specs.Meaning.{router_checks, Finds, Routes};
ghost use Rattle.routing.specs.Kept.{remembered, noted, refusal_by, recalled as recalled_by, Notes, Recalls, Keeps};

use crate::checks::admitted;
use crate::memory::Memory;
use crate::router::Router;
use credit::line::Line;
use credit::payment::Payment;
use credit::refusal::Refusal;
use credit::room::group_room;
use lists::few::Few;
use members::group::Group;

impl Memory {
    fn new() -> Memory
        ensures { remembered result ≡ [] }
    {
        let groups = Few::empty(Group::empty());
        Memory { groups }
    }

    // Remembers a group as the newest; the oldest of eight is forgotten.
    fn note(&mut self, group: Group)
        ensures { remembered self.new ≡ noted group (remembered self.old) }
    {
        self.groups.push_front(group);
    }

    // The refusal by the newest of the remembered groups that gives one.
    fn recalled(&self, lines: &[Line], payment: Payment, plan: &[i32]) -> Option<Refusal>
        requires few { length lines.now ≤ 256 }
        requires bounds { every bounded lines.now ≡ true }
        requires fit { fits lines.now plan.now ≡ true }
        ensures value { result ≡ recalled_by lines.now payment plan.now (remembered self.now) }
        ensures finds { IfSome result (λ e. Finds lines.now payment plan.now (Err e) plan.now) }
    {
        recalled(self.groups.as_slice(), lines, payment, plan)
    }
}

// The refusal by a group with the payer in, the payee out and too little room, counted with these lines and this plan.
fn refusal_by(group: Group, lines: &[Line], payment: Payment, plan: &[i32]) -> Option<Refusal>
    requires few { length lines.now ≤ 256 }
    requires bounds { every bounded lines.now ≡ true }
    requires fit { fits lines.now plan.now ≡ true }
    ensures { result ≡ refusal_by lines.now payment plan.now group }
{
    if !group.holds(payment.payer) || group.holds(payment.payee) {
        return None;
    }
    let room = group_room(lines, plan, group);
    if room < payment.amount {
        Some(Refusal::WantOfRoom { group, room })
    } else {
        None
    }
}

// The refusal by the first of the groups that gives one.
fn recalled(groups: &[Group], lines: &[Line], payment: Payment, plan: &[i32]) -> Option<Refusal>
    requires few { length lines.now ≤ 256 }
    requires bounds { every bounded lines.now ≡ true }
    requires fit { fits lines.now plan.now ≡ true }
    ensures value { result ≡ recalled_by lines.now payment plan.now groups.now }
    ensures finds { IfSome result (λ e. Finds lines.now payment plan.now (Err e) plan.now) }
{
    for group in groups {
        if let Some(refusal) = refusal_by(*group, lines, payment, plan) {
            return Some(refusal);
        }
    }
    None
}

// Kept, over any router: a group that was named before and is still too tight refuses the payment; otherwise the router
// below decides, and the group that it names is remembered.
#[derive(Drop)]
pub struct Kept<R> {
    below: R,
    memory: Memory,
}

impl<R> Kept<R> {
    // Remembers no group yet.
    pub fn new(below: R) -> Self
        ensures below { result.below ≡ below }
        ensures memory { remembered result.memory ≡ [] }
    {
        let memory = Memory::new();
        Kept { below, memory }
    }
}

impl<R: Router> Kept<R> {
    // Has the router below decide, and remembers the group that it names.
    fn decide(&mut self, lines: &[Line], payment: Payment, plan: &mut [i32]) -> Result<(), Refusal>
        requires { router_checks lines.now payment plan.old ≡ passes }
        ensures routes { Routes lines.now payment plan.old result plan.new }
        ensures notes { Notes result (remembered self.old.memory) (remembered self.new.memory) }
    {
        let answer = self.below.route(lines, payment, plan);
        if let Err(Refusal::WantOfRoom { group, .. }) = answer {
            self.memory.note(group);
        }
        answer
    }

    // Past the checks: by a remembered group, or by the router below.
    fn answer(&mut self, lines: &[Line], payment: Payment, plan: &mut [i32]) -> Result<(), Refusal>
        requires { router_checks lines.now payment plan.old ≡ passes }
        ensures finds { Finds lines.now payment plan.old result plan.new }
        ensures recalls { Recalls (recalled_by lines.now payment plan.old (remembered self.old.memory)) lines.now payment plan.old (remembered self.old.memory) result plan.new (remembered self.new.memory) }
    {
        if let Some(refusal) = self.memory.recalled(lines, payment, plan) {
            return Err(refusal);
        }
        self.decide(lines, payment, plan)
    }
}

impl<R: Router> Router for Kept<R> {
    fn route(&mut self, lines: &[Line], payment: Payment, plan: &mut [i32]) -> Result<(), Refusal>
        ensures routes { Routes lines.now payment plan.old result plan.new }
        ensures keeps { Keeps lines.now payment plan.old (remembered self.old.memory) result plan.new (remembered self.new.memory) }
    {
        admitted(lines, payment, plan)?;
        self.answer(lines, payment, plan)
    }
}

#[cfg(test)]
mod tests {
    use super::*;

    const NARROW: Line = Line {
        a: 1,
        b: 2,
        trust_a: 0,
        trust_b: 10,
        debt: 0,
    };

    const ELEVEN: Payment = Payment {
        payer: 1,
        payee: 2,
        amount: 11,
    };

    // A remembered group refuses while it is too tight, and no more once its room has grown.
    #[test]
    fn counted_anew(rt: HostRuntime) {
        let mut memory = Memory::new();
        let group = Group { bits: 2 };
        memory.note(group);
        assert_eq!(rt;
            memory.recalled(&[NARROW], ELEVEN, &[0]),
            Some(Refusal::WantOfRoom { group, room: 10 })
        );
        let grown = Line {
            trust_b: 11,
            ..NARROW
        };
        assert_eq!(rt; memory.recalled(&[grown], ELEVEN, &[0]), None);
    }

    // The oldest of eight is forgotten when a ninth is named.
    #[test]
    fn the_last_eight(rt: HostRuntime) {
        let mut memory = Memory::new();
        memory.note(Group { bits: 2 });
        for _ in 0..7 {
            memory.note(Group { bits: 4 });
        }
        assert!(rt; memory.recalled(&[NARROW], ELEVEN, &[0]).is_some());
        memory.note(Group { bits: 4 });
        assert_eq!(rt; memory.recalled(&[NARROW], ELEVEN, &[0]), None);
    }
}
