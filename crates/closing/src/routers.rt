// The routers of a batch program, of which the one that was picked last serves.
ghost use Rattle.std.specs.Prelude.{◌≡◌, []};
ghost use Rattle.batch.specs.declared.form.Choice.TheVariants.{Breadth as ByBreadth};
ghost use Rattle.routing.specs.Meaning.{Routes};
ghost use Rattle.routing.specs.Kept.{remembered};
ghost use Rattle.closing.specs.Chosen.{ServedBy};

use crate::picking::Picks;
use batch::form::Choice;
use credit::line::Line;
use credit::payment::Payment;
use credit::refusal::Refusal;
use filling::router::{Breadth, Scaling};
use routing::direct::Direct;
use routing::kept::Kept;
use routing::router::Router;

// Direct first over breadth, scaling, and kept over scaling.
#[derive(Drop)]
pub struct Routers {
    choice: Choice,
    direct: Direct<Breadth>,
    scaling: Scaling,
    kept: Kept<Scaling>,
}

impl Routers {
    // Direct first over breadth serves at the start, and nothing is remembered.
    pub fn new() -> Self
        ensures choice { result.choice ≡ ByBreadth }
        ensures memory { remembered result.kept.memory ≡ [] }
    {
        Routers {
            choice: Choice::Breadth,
            direct: Direct::new(Breadth {}),
            scaling: Scaling {},
            kept: Kept::new(Scaling {}),
        }
    }
}

impl Picks for Routers {
    ghost picked = { λ r. r.choice };

    fn pick(&mut self, choice: Choice) {
        self.choice = choice;
    }
}

impl Router for Routers {
    fn route(&mut self, lines: &[Line], payment: Payment, plan: &mut [i32]) -> Result<(), Refusal>
        ensures routes { Routes lines.now payment plan.old result plan.new }
        ensures choice { self.new.choice ≡ self.old.choice }
        ensures served { ServedBy self.old.choice lines.now payment plan.old (remembered self.old.kept.memory) result plan.new (remembered self.new.kept.memory) }
    {
        // a match: the three are of three types and live on between payments, since kept remembers groups
        match self.choice {
            Choice::Breadth => self.direct.route(lines, payment, plan),
            Choice::Scaling => self.scaling.route(lines, payment, plan),
            Choice::Kept => self.kept.route(lines, payment, plan),
        }
    }
}
