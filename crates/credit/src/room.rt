// For the crates above: callers keep at most 256 lines, every line within its bounds, and a plan that fits.
ghost use Rattle.std.specs.Prelude.{◌≡◌, ◌≤◌, true, length, pos, ◌≤ℤ◌};
ghost use Rattle.credit.specs.Sums.{every};
ghost use Rattle.credit.specs.Net.{bounded};
ghost use Rattle.credit.specs.Rooms.{room};
ghost use Rattle.credit.specs.Plans.{booked, fits};

use crate::line::Line;
use crate::plan::planned;
use members::group::Group;

// The sum of what the lines bring to the room of a group after a plan, with the bound that lets group_room narrow it.
fn total_room(lines: &[Line], plan: &[i32], group: Group) -> i64
    requires few { length lines.now ≤ 256 }
    requires bounds { every bounded lines.now ≡ true }
    requires fit { fits lines.now plan.now ≡ true }
    ensures value { result ≡ room group.bits (booked lines.now plan.now) }
    ensures bound { (pos 0 ≤ℤ result) × (result ≤ℤ pos 512000000) }
{
    // with their places: a plan may be shorter than the lines, and a zip would leave the others out
    lines
        .iter()
        .enumerate()
        .map(|(i, line)| line.room_out(planned(plan, i), group))
        .sum()
}

// The room of a group after a plan: what its members can send out over all lines to outsiders. A plan may be shorter
// than the lines; an empty one gives the room as the lines stand.
pub fn group_room(lines: &[Line], plan: &[i32], group: Group) -> i32
    requires few { length lines.now ≤ 256 }
    requires bounds { every bounded lines.now ≡ true }
    requires fit { fits lines.now plan.now ≡ true }
    ensures value { result ≡ room group.bits (booked lines.now plan.now) }
    ensures bound { (pos 0 ≤ℤ result) × (result ≤ℤ pos 512000000) }
{
    total_room(lines, plan, group) as i32
}
