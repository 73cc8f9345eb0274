// For the crates above: callers keep a plan number within two million either way, and move at most a million more.
ghost use Rattle.std.specs.Prelude.{◌≡◌, pos, neg_ℤ, ◌≤ℤ◌, slice_index_or};
ghost use Rattle.credit.specs.Plans.{sent_from};

use crate::line::Line;

// What a plan moves on a line: 0 where it has no place for the line.
pub(crate) fn planned(plan: &[i32], i: usize) -> i32
    ensures { result ≡ slice_index_or plan.now i (pos 0) }
{
    plan.get(i).copied().unwrap_or(0)
}

// The plan number of a line once x more is moved over it from one of its ends.
pub fn planned_after(line: &Line, planned: i32, from: u32, x: i32) -> i32
    requires low { (neg_ℤ (pos 2000000) ≤ℤ planned) × (pos 0 ≤ℤ x) }
    requires high { (planned ≤ℤ pos 2000000) × (x ≤ℤ pos 1000000) }
    ensures { result ≡ sent_from line.now from planned x }
{
    if line.a == from {
        planned + x
    } else {
        planned - x
    }
}
