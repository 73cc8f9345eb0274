ghost use Rattle.std.specs.Prelude.{◌≡◌, true};
ghost use Rattle.credit.specs.Plans.{booked};
ghost use Rattle.routing.specs.Meaning.{usable};

use credit::line::Line;
use std::marker::Model;

// Lines and a plan that a router takes. Clauses see the lines once the plan is booked.
#[derive(Drop)]
pub(crate) struct Booked<'a, 'b> {
    pub(crate) lines: &'a [Line],
    pub(crate) plan: &'b [i32],
}

impl<'a, 'b> Model for Booked<'a, 'b> {
    ghost use Rattle.std.specs.Prelude.{◌≡◌, List, true};
    ghost use Rattle.credit.specs.declared.line.Line.{Line as Row};
    ghost use Rattle.credit.specs.Plans.{booked};
    ghost use Rattle.routing.specs.Meaning.{usable};

    ghost Value = { List Row };

    ghost view = { λ b. booked b.lines.now b.plan.now };

    ghost invariant = { λ b. usable b.lines.now b.plan.now ≡ true };
}

impl<'a, 'b> Booked<'a, 'b> {
    pub(crate) fn new(lines: &'a [Line], plan: &'b [i32]) -> Self
        requires { usable lines.now plan.now ≡ true }
        ensures { result ≡ booked lines.now plan.now }
    {
        Booked { lines, plan }
    }
}
