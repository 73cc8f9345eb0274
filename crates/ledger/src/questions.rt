// Questions, which move nothing.
ghost use Rattle.std.specs.Prelude.{◌≡◌, ◌≤◌, true, length, pos, neg_ℤ, ◌≤ℤ◌, is_some};
ghost use Rattle.credit.specs.Sums.{every};
ghost use Rattle.credit.specs.Net.{net, net_table, bounded};
ghost use Rattle.credit.specs.Rooms.{room};
ghost use Rattle.ledger.specs.States.{state_of};
ghost use Rattle.ledger.specs.Between.{owed_to, debt_between};
ghost use Rattle.routing.specs.Meaning.{pair_checks};
ghost use Rattle.ledger.specs.Checks.{member_checks};
ghost use Rattle.ledger.specs.Questions.{answered};

use crate::lines::line_between;
use crate::state::Ledger;
use credit::line::Line;
use credit::net;
use credit::refusal::Refusal;
use credit::room::group_room;
use members::group::Group;
use routing::checks::pair;

// What the other member of a line owes this one.
fn owed_to(line: &Line, member: u32) -> i32
    requires { (neg_ℤ (pos 1000000) ≤ℤ line.now.debt) × (line.now.debt ≤ℤ pos 1000000) }
    ensures { result ≡ owed_to member line.now }
{
    if member == line.a {
        line.debt
    } else {
        -line.debt
    }
}

// The room of a group as the lines stand.
fn room_of(lines: &[Line], group: Group) -> i32
    requires few { length lines.now ≤ 256 }
    requires bounds { every bounded lines.now ≡ true }
    ensures { result ≡ room group.bits lines.now }
{
    group_room(lines, &[], group)
}

impl Ledger {
    // A member's net position: what others owe it, less what it owes.
    pub fn net_position(&self, member: u32) -> Result<i32, Refusal>
        ensures { result ≡ answered (member_checks member) (net member (state_of self.now).lines) }
    {
        if member >= 64 {
            return Err(Refusal::NoSuchMember);
        }
        Ok(net::net_position(&self.lines, member))
    }

    // The net positions of all members.
    pub fn net_positions(&self) -> [i32; 64]
        ensures { result ≡ net_table (state_of self.now).lines }
    {
        net::net_positions(&self.lines)
    }

    // What the second member owes the first; absent when no line joins them.
    pub fn debt_between(&self, first: u32, second: u32) -> Result<Option<i32>, Refusal>
        ensures { result ≡ answered (pair_checks first second) (debt_between first second (state_of self.now).lines) }
    {
        pair(first, second)?;
        Ok(self.debt_on(first, second))
    }

    // The debt on the line between two members, towards the first.
    fn debt_on(&self, first: u32, second: u32) -> Option<i32>
        ensures { result ≡ debt_between first second self.now.lines.items }
    {
        line_between(&self.lines, first, second).map(|line| owed_to(&line, first))
    }

    // The room of a group: the rooms of all lines from an insider to an outsider.
    pub fn group_room(&self, group: Group) -> i32
        ensures { result ≡ room group.bits (state_of self.now).lines }
    {
        room_of(&self.lines, group)
    }

    // The lines in opening order.
    pub fn lines(&self) -> &[Line]
        ensures { result.now ≡ (state_of self.now).lines }
    {
        self.lines.as_slice()
    }

    // The number of open groups of payments.
    pub fn open_groups(&self) -> usize
        ensures { result ≡ length (state_of self.now).groups }
    {
        self.savepoints.len()
    }

    pub fn reservation_stands(&self) -> bool
        ensures { result ≡ is_some (state_of self.now).standing }
    {
        self.standing.is_some()
    }
}
