// Rounds of fillings with a threshold that is halved down to 1.
ghost use Rattle.std.specs.Prelude.{◌≡◌, ◌/◌, ◌<◌, ◌≤◌, ◌++◌, length, drop, pos, if◌then◌else◌, Some, None, nat_lt};
ghost use Rattle.lists.specs.Lists.{listed};
ghost use Rattle.credit.specs.Refusals.{passes};
ghost use Rattle.routing.specs.Meaning.{router_checks, Finds};
ghost use Rattle.filling.specs.Fillings.{Round, Rounds, RoundsEnd, Settles};

use crate::fill::{Short, round};
use credit::line::Line;
use credit::payment::Payment;
use credit::refusal::Refusal;
use lists::few::Few;

// Half the threshold, unless it is 1.
fn halved(least: u32) -> Option<u32>
    ensures { result ≡ (if nat_lt 1 least then Some (least / 2) else None) }
{
    (least > 1).then_some(least / 2)
}

// Fills chains with room of at least the threshold as long as something is to send and there is one, and so with half
// the threshold, down to 1.
fn rounds(lines: &[Line], plan: &mut [i32], top: u32, payment: Payment) -> Result<(), Short>
    requires checks { router_checks lines.now payment plan.old ≡ passes }
    requires low { 1 ≤ top }
    ensures { RoundsEnd lines.now payment top plan.old result plan.new }
{
    let mut least = top;
    let mut rest = payment;
    while let Err(short) = round(lines, plan, least, rest) {
        let Some(half) = halved(least) else {
            return Err(short);
        };
        least = half;
        rest.amount = short.left;
    }
    Ok(())
}

// A copy of the numbers of at most 256 lines.
fn copied(numbers: &[i32]) -> Few<i32, 256>
    requires { length numbers.now ≤ 256 }
    ensures { listed result ≡ numbers.now }
{
    Few::of(0, numbers)
}

// Puts the first numbers of a plan back.
fn put_back(plan: &mut [i32], before: &[i32])
    requires { length before.now ≤ length plan.old }
    ensures { plan.new ≡ before.now ++ drop (length before.now) plan.old }
{
    plan[..before.len()].copy_from_slice(before);
}

// Past the checks: routes by rounds of fillings, or names the group that the last round ends with. Then the plan is as at
// entry, and what was sent is the group's room.
pub(crate) fn route_by(
    lines: &[Line],
    payment: Payment,
    plan: &mut [i32],
    top: u32,
) -> Result<(), Refusal>
    requires checks { router_checks lines.now payment plan.old ≡ passes }
    requires low { 1 ≤ top }
    ensures finds { Finds lines.now payment plan.old result plan.new }
    ensures settles { Settles (Rounds lines.now payment.payer payment.payee top payment.amount plan.old) lines.now payment plan.old result plan.new }
    ensures once { top ≡ 1 → Settles (Round lines.now payment.payer payment.payee (pos 1) payment.amount plan.old) lines.now payment plan.old result plan.new }
{
    let before = copied(&plan[..lines.len()]);
    match rounds(lines, plan, top, payment) {
        Ok(()) => Ok(()),
        Err(short) => {
            put_back(plan, before.as_slice());
            Err(Refusal::WantOfRoom {
                group: short.group,
                room: payment.amount - short.left,
            })
        }
    }
}
