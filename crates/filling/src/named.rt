// What the two names promise. The clauses of `Filling` hold at every threshold; these hold `Breadth` and `Scaling` to theirs.
ghost use Rattle.routing.specs.Meaning.{Routes};
ghost use Rattle.filling.specs.Fillings.{Breadths, Scales};

use crate::router::{Breadth, Scaling};
use credit::line::Line;
use credit::payment::Payment;
use credit::refusal::Refusal;
use routing::router::Router;

// Routes by breadth.
pub fn by_breadth(
    breadth: &mut Breadth,
    lines: &[Line],
    payment: Payment,
    plan: &mut [i32],
) -> Result<(), Refusal>
    ensures routes { Routes lines.now payment plan.old result plan.new }
    ensures fills { Breadths lines.now payment plan.old result plan.new }
{
    breadth.route(lines, payment, plan)
}

// Routes by scaling.
pub fn by_scaling(
    scaling: &mut Scaling,
    lines: &[Line],
    payment: Payment,
    plan: &mut [i32],
) -> Result<(), Refusal>
    ensures routes { Routes lines.now payment plan.old result plan.new }
    ensures fills { Scales lines.now payment plan.old result plan.new }
{
    scaling.route(lines, payment, plan)
}
