// For the crates above: callers keep every line within its bounds, and a plan that fits.
ghost use Rattle.std.specs.Prelude.{◌≡◌, true};
ghost use Rattle.credit.specs.Sums.{every};
ghost use Rattle.credit.specs.Net.{bounded};
ghost use Rattle.credit.specs.Plans.{booked, fits};

use crate::line::Line;
use crate::plan::planned;

// Books a plan: each debt d becomes d - x. A line without a place in the plan stays.
#[tactic(auto, using(crate::proofs::Booked::book_steps))]
pub fn book(lines: &mut [Line], plan: &[i32])
    requires bounds { every bounded lines.old ≡ true }
    requires fit { fits lines.old plan.now ≡ true }
    ensures { lines.new ≡ booked lines.old plan.now }
{
    // by places, since a proof knows nothing of what is written through a zip
    for (i, line) in lines.iter_mut().enumerate() {
        line.shift(planned(plan, i));
    }
}
