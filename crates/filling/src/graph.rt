// The members as a graph: a step wherever a line has enough room after a plan.
ghost use Rattle.std.specs.Prelude.{◌≡◌, ℕ, ◌<◌, true, pos, ◌&&◌, ◌||◌, ◌==◌, int_le, nat_lt};
ghost use Rattle.credit.specs.Net.{bounded};
ghost use Rattle.credit.specs.Plans.{moved, room_from};
ghost use Rattle.search.specs.Rowed.{reaches};
ghost use Rattle.search.specs.Answers.{Answered};
ghost use Rattle.filling.specs.Steps.{leads, RoomStep};

use crate::booked::Booked;
use credit::line::Line;
use credit::payment::Payment;
use members::group::Group;
use search::breadth_first::search;
use search::chain::{Chain, NoChain};
use search::rows::Rows;

// Whether the line has room of at least so much.
fn has_room(line: &Line, planned: i32, least: u32, from: u32) -> bool
    ensures { result ≡ int_le (pos least) (room_from (moved line.now planned) from) }
{
    i64::from(least) <= line.room_from(planned, from)
}

// Whether the line leads from one member to another with room of at least so much.
pub(crate) fn leads_to(line: &Line, planned: i32, least: u32, from: u32, to: u32) -> bool
    ensures { result ≡ leads (moved line.now planned) (pos least) from to }
{
    line.joins(from, to) && has_room(line, planned, least, from)
}

// Adds the step over the line from one of its ends where it has enough room.
fn add_step(rows: &mut Rows, line: &Line, planned: i32, least: u32, from: u32, to: u32)
    ensures { (m n : ℕ) → reaches rows.new m n ≡ (reaches rows.old m n || (int_le (pos least) (room_from (moved line.now planned) from) && (m == from && nat_lt m 64 && (n == to && nat_lt n 64)))) }
{
    if has_room(line, planned, least, from) {
        rows.add(from, to);
    }
}

// Adds the steps over one line.
fn add_line(rows: &mut Rows, line: &Line, planned: i32, least: u32)
    requires { bounded line.now ≡ true }
    ensures { (m n : ℕ) → reaches rows.new m n ≡ (reaches rows.old m n || leads (moved line.now planned) (pos least) m n) }
{
    add_step(rows, line, planned, least, line.a, line.b);
    add_step(rows, line, planned, least, line.b, line.a);
}

impl Booked<'_, '_> {
    // The graph whose steps go over lines with room of at least so much. Each line is read once.
    fn graph(&self, least: u32) -> Rows
        ensures sound { (m n : ℕ) → reaches result m n ≡ true → RoomStep self.now (pos least) m n }
        ensures complete { (m n : ℕ) → RoomStep self.now (pos least) m n → reaches result m n ≡ true }
    {
        let mut rows = Rows::new();
        for (line, planned) in self.lines.iter().zip(self.plan) {
            add_line(&mut rows, line, *planned, least);
        }
        rows
    }

    // A shortest chain from payer to payee over lines with room of at least so much, or a group that no such line leaves.
    pub(crate) fn reach(&self, least: u32, payment: Payment) -> Result<Chain, Group>
        requires payer { payment.payer < 64 }
        requires payee { payment.payee < 64 }
        ensures { Answered (RoomStep self.now (pos least)) payment.payer payment.payee result }
    {
        match search(&self.graph(least), payment.payer, payment.payee) {
            Ok(chain) => Ok(chain),
            Err(NoChain::Closed(group)) => Err(group),
            // both are members
            Err(NoChain::NotMembers) => unreachable(),
        }
    }
}
