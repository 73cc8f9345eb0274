ghost use Rattle.routing.specs.Meaning.{Routes};

use credit::line::Line;
use credit::payment::Payment;
use credit::refusal::Refusal;

// Whatever finds routes. What a router remembers has no part in its meaning.
pub trait Router {
    // Adds a flow of the amount from payer to payee to the plan, or refuses and leaves the plan as it was.
    fn route(&mut self, lines: &[Line], payment: Payment, plan: &mut [i32]) -> Result<(), Refusal>
        ensures { Routes lines.now payment plan.old result plan.new };
}
