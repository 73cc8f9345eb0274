// The steps of payments and reservations: asking a router, booking its plan, and setting the standing reservation.
ghost use Rattle.std.specs.Prelude.{◌≡◌, ℕ, true, false, length, is_some, Some, None, OnOk};
ghost use Rattle.credit.specs.Refusals.{passes};
ghost use Rattle.credit.specs.Plans.{booked, fits};
ghost use Rattle.routing.specs.Meaning.{Routes};
ghost use Rattle.ledger.specs.Sound.{proper, strained};
ghost use Rattle.ledger.specs.States.{state_of, with_lines, with_standing};
ghost use Rattle.ledger.specs.Checks.{matches};
ghost use Rattle.ledger.specs.Calls.{blank};
ghost use Rattle.ledger.specs.Answers.{noted};

use crate::checks::spoiling;
use crate::state::Ledger;
use credit::booking::book;
use credit::payment::Payment;
use credit::refusal::Refusal;
use routing::router::Router;

impl Ledger {
    // Asks the router on a blank sheet. What it routes fits, and leaves room for a reservation of that payment.
    pub(crate) fn ask<R: Router>(
        &self,
        router: &mut R,
        payment: Payment,
        plan: &mut [i32; 256],
    ) -> Result<(), Refusal>
        ensures routes { Routes self.now.lines.items payment blank result plan.new }
        ensures fit { OnOk result (fits self.now.lines.items plan.new ≡ true) }
        ensures proper { OnOk result (proper (Some payment) ≡ true) }
        ensures ample { OnOk result ((g : ℕ) → strained (Some payment) g self.now.lines.items ≡ false) }
    {
        plan.fill(0);
        router.route(&self.lines, payment, plan)
    }

    // Routes a payment for which a reservation stands. No router refuses it, since the lines keep its room.
    pub(crate) fn route_reserved<R: Router>(
        &self,
        router: &mut R,
        payment: Payment,
        plan: &mut [i32; 256],
    )
        requires { matches self.now.standing payment ≡ true }
        ensures routes { Routes self.now.lines.items payment blank passes plan.new }
        ensures fit { fits self.now.lines.items plan.new ≡ true }
    {
        let _ = self.ask(router, payment, plan);
    }

    // Whether a reservation for this payment stands.
    pub(crate) fn holds(&self, payment: Payment) -> bool
        ensures { result ≡ matches self.now.standing payment }
    {
        self.standing == Some(payment)
    }

    // Lets a reservation stand that the lines have room for.
    pub(crate) fn hold(&mut self, payment: Payment)
        requires proper { proper (Some payment) ≡ true }
        requires ample { (g : ℕ) → strained (Some payment) g self.old.lines.items ≡ false }
        ensures { state_of self.new ≡ with_standing (state_of self.old) (Some payment) }
    {
        self.standing = Some(payment);
    }

    // Ends the standing reservation.
    pub(crate) fn vacate(&mut self)
        ensures state { state_of self.new ≡ with_standing (state_of self.old) None }
        ensures lines { self.new.lines ≡ self.old.lines }
    {
        self.standing = None;
    }

    // Books a plan that fits.
    pub(crate) fn enter(&mut self, plan: &[i32])
        requires vacant { is_some self.old.standing ≡ false }
        requires fit { fits self.old.lines.items plan.now ≡ true }
        ensures { state_of self.new ≡ with_lines (state_of self.old) (booked self.old.lines.items plan.now) }
    {
        book(&mut self.lines, plan);
    }

    // Books a plan for the standing reservation, which then no longer stands.
    pub(crate) fn settle(&mut self, plan: &[i32])
        requires { fits self.old.lines.items plan.now ≡ true }
        ensures { state_of self.new ≡ with_standing (with_lines (state_of self.old) (booked self.old.lines.items plan.now)) None }
    {
        self.vacate();
        self.enter(plan);
    }

    // Spoils the inmost group where a payment was refused so.
    pub(crate) fn note(&mut self, paid: &Result<(), Refusal>)
        ensures { state_of self.new ≡ noted paid.now (state_of self.old) }
    {
        if let Err(refusal) = paid {
            if spoiling(refusal) {
                self.spoil_inmost();
            }
        }
    }
}
