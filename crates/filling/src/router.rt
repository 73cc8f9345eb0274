// One router that fills chains from a threshold on, and its two instances.
ghost use Rattle.std.specs.Prelude.{◌≡◌, ◌≤◌};
ghost use Rattle.routing.specs.Meaning.{Routes};
ghost use Rattle.filling.specs.Fillings.{FillsFrom, Breadths, Scales};

use crate::rounds::route_by;
use credit::line::Line;
use credit::payment::Payment;
use credit::refusal::Refusal;
use routing::checks::admitted;
use routing::router::Router;

// Fills shortest chains with room of at least a threshold, each by its least room or by what is still to send. The
// threshold starts at TOP and is halved down to 1.
#[derive(Clone, Copy)]
pub struct Filling<const TOP: u32> {
    ghost some: { 1 ≤ TOP },
}

// One round, with room of at least 1.
pub type Breadth = Filling<1>;

// Thresholds from 1,048,576 on.
pub type Scaling = Filling<1_048_576>;

impl<const TOP: u32> Router for Filling<TOP> {
    fn route(&mut self, lines: &[Line], payment: Payment, plan: &mut [i32]) -> Result<(), Refusal>
        ensures routes { Routes lines.now payment plan.old result plan.new }
        ensures fills { FillsFrom TOP lines.now payment plan.old result plan.new }
        ensures breadths { TOP ≡ 1 → Breadths lines.now payment plan.old result plan.new }
        ensures scales { TOP ≡ 1048576 → Scales lines.now payment plan.old result plan.new }
    {
        admitted(lines, payment, plan)?;
        route_by(lines, payment, plan, TOP)
    }
}
