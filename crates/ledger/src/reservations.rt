// Reservations: reserve, book and release.
ghost use Rattle.std.specs.Prelude.{◌≡◌, length, replicate, pos};
ghost use Rattle.calls.specs.declared.call.Call.TheVariants.{Reserve, Book, Release};
ghost use Rattle.calls.specs.declared.call.Answer.TheVariants.{Released};
ghost use Rattle.ledger.specs.States.{state_of};
ghost use Rattle.ledger.specs.Calls.{Does};
ghost use Rattle.ledger.specs.Answers.{held_or, booked_or, HandedBack, cleared};

use crate::plan_guard::PlanGuard;
use crate::reservation::{Reservation, Unbooked};
use crate::state::Ledger;
use credit::payment::Payment;
use credit::refusal::Refusal;
use routing::router::Router;

impl Ledger {
    // Reserves with a plan sheet of 256 places.
    fn reserve_on<R: Router>(
        &mut self,
        router: &mut R,
        payment: Payment,
        plan: &mut [i32; 256],
    ) -> Result<Reservation, Refusal>
        ensures sheet { plan.new ≡ replicate 256 (pos 0) }
        ensures answer { Does (state_of self.old) (Reserve 256 payment) (held_or result) (state_of self.new) }
    {
        let guard = PlanGuard { plan };
        self.pay_checks(payment)?;
        self.ask(router, payment, guard.plan)?;
        self.hold(payment);
        Ok(Reservation { payment })
    }

    // Reserves a payment: moves no debt, and lets the reservation stand.
    pub fn reserve<R: Router>(
        &mut self,
        router: &mut R,
        payment: Payment,
        plan: &mut [i32],
    ) -> Result<Reservation, Refusal>
        ensures sheet { plan.new ≡ cleared plan.old }
        ensures answer { Does (state_of self.old) (Reserve (length plan.old) payment) (held_or result) (state_of self.new) }
    {
        match plan.as_mut_array() {
            Some(plan) => self.reserve_on(router, payment, plan),
            None => Err(Refusal::BadPlanSheet),
        }
    }

    // Books with a plan sheet of 256 places.
    fn book_on<R: Router>(
        &mut self,
        router: &mut R,
        reservation: Reservation,
        plan: &mut [i32; 256],
    ) -> Result<(), Unbooked>
        ensures sheet { plan.new ≡ replicate 256 (pos 0) }
        ensures answer { Does (state_of self.old) (Book 256 reservation.payment) (booked_or result) (state_of self.new) }
        ensures token { HandedBack reservation result }
    {
        let guard = PlanGuard { plan };
        if !self.holds(reservation.payment) {
            return Err(Unbooked {
                refusal: Refusal::NoSuchReservation,
                reservation,
            });
        }
        self.route_reserved(router, reservation.payment, guard.plan);
        let Reservation { payment: _ } = reservation;
        self.settle(guard.plan);
        Ok(())
    }

    // Books the standing reservation through a router; a refused booking hands the token back.
    pub fn book<R: Router>(
        &mut self,
        router: &mut R,
        reservation: Reservation,
        plan: &mut [i32],
    ) -> Result<(), Unbooked>
        ensures sheet { plan.new ≡ cleared plan.old }
        ensures answer { Does (state_of self.old) (Book (length plan.old) reservation.payment) (booked_or result) (state_of self.new) }
        ensures token { HandedBack reservation result }
    {
        match plan.as_mut_array() {
            Some(plan) => self.book_on(router, reservation, plan),
            None => Err(Unbooked {
                refusal: Refusal::BadPlanSheet,
                reservation,
            }),
        }
    }

    // Ends a reservation; answers whether it was the one that stood.
    pub fn release(&mut self, reservation: Reservation) -> bool
        ensures answer { Does (state_of self.old) (Release reservation.payment) (Released result) (state_of self.new) }
    {
        let stood = self.holds(reservation.payment);
        let Reservation { payment: _ } = reservation;
        if stood {
            self.vacate();
        }
        stood
    }
}
