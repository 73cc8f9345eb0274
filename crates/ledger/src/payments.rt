// Payments.
ghost use Rattle.std.specs.Prelude.{◌≡◌, length, replicate, pos};
ghost use Rattle.calls.specs.declared.call.Call.TheVariants.{Pay};
ghost use Rattle.ledger.specs.States.{state_of};
ghost use Rattle.ledger.specs.Calls.{Does};
ghost use Rattle.calls.specs.Answers.{done_or};
ghost use Rattle.ledger.specs.Answers.{cleared, noted};

use crate::plan_guard::PlanGuard;
use crate::state::Ledger;
use credit::payment::Payment;
use credit::refusal::Refusal;
use routing::router::Router;

impl Ledger {
    // Routes and books a payment, or refuses it and leaves everything as it was.
    fn try_pay<R: Router>(
        &mut self,
        router: &mut R,
        payment: Payment,
        plan: &mut [i32; 256],
    ) -> Result<(), Refusal>
        ensures { Does (state_of self.old) (Pay 256 payment) (done_or result) (noted result (state_of self.new)) }
    {
        self.pay_checks(payment)?;
        self.ask(router, payment, plan)?;
        self.enter(plan);
        Ok(())
    }

    // Pays with a plan sheet of 256 places.
    fn pay_on<R: Router>(
        &mut self,
        router: &mut R,
        payment: Payment,
        plan: &mut [i32; 256],
    ) -> Result<(), Refusal>
        ensures sheet { plan.new ≡ replicate 256 (pos 0) }
        ensures answer { Does (state_of self.old) (Pay 256 payment) (done_or result) (state_of self.new) }
    {
        let guard = PlanGuard { plan };
        let paid = self.try_pay(router, payment, guard.plan);
        self.note(&paid);
        paid
    }

    // Pays along routes that the router finds.
    pub fn pay<R: Router>(
        &mut self,
        router: &mut R,
        payment: Payment,
        plan: &mut [i32],
    ) -> Result<(), Refusal>
        ensures sheet { plan.new ≡ cleared plan.old }
        ensures answer { Does (state_of self.old) (Pay (length plan.old) payment) (done_or result) (state_of self.new) }
    {
        match plan.as_mut_array() {
            Some(plan) => self.pay_on(router, payment, plan),
            None => Err(Refusal::BadPlanSheet),
        }
    }
}
