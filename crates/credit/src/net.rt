// For the crates above: callers keep at most 256 lines, every line within its bounds.
ghost use Rattle.std.specs.Prelude.{◌≡◌, ◌≤◌, true, length, pos, neg_ℤ, ◌≤ℤ◌};
ghost use Rattle.credit.specs.Sums.{every};
ghost use Rattle.credit.specs.Net.{bounded, net as net_of, net_table};

use crate::line::Line;

// The sum of what the lines bring to a member, with the bound that lets net_position narrow it.
fn total_share(lines: &[Line], member: u32) -> i64
    requires few { length lines.now ≤ 256 }
    requires bounds { every bounded lines.now ≡ true }
    ensures value { result ≡ net_of member lines.now }
    ensures bound { (neg_ℤ (pos 256000000) ≤ℤ result) × (result ≤ℤ pos 256000000) }
{
    lines.iter().map(|line| line.share(member)).sum()
}

// A member's net position: what others owe it, less what it owes.
pub fn net_position(lines: &[Line], member: u32) -> i32
    requires few { length lines.now ≤ 256 }
    requires bounds { every bounded lines.now ≡ true }
    ensures { result ≡ net_of member lines.now }
{
    total_share(lines, member) as i32
}

// All 64 net positions, by member.
#[tactic(auto, using(crate::proofs::Chains::table_full))]
pub fn net_positions(lines: &[Line]) -> [i32; 64]
    requires few { length lines.now ≤ 256 }
    requires bounds { every bounded lines.now ≡ true }
    ensures { result ≡ net_table lines.now }
{
    let mut table = [0; 64];
    // the places of the table are the members' numbers
    for (member, net) in table.iter_mut().enumerate() {
        *net = net_position(lines, member as u32);
    }
    table
}
