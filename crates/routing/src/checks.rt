ghost use Rattle.std.specs.Prelude.{◌≡◌, ◌≤◌, ◌&&◌, length};
ghost use Rattle.credit.specs.Refusals.{passes};
ghost use Rattle.credit.specs.Sums.{every};
ghost use Rattle.credit.specs.Net.{bounded};
ghost use Rattle.credit.specs.Plans.{moved, roomy, fits};
ghost use Rattle.routing.specs.Meaning.{pair_checks, payment_checks, usable, router_checks};

use credit::line::Line;
use credit::payment::Payment;
use credit::refusal::Refusal;

// Two members: passed, or the first refusal that applies.
pub fn pair(first: u32, second: u32) -> Result<(), Refusal>
    ensures { result ≡ pair_checks first second }
{
    if first >= 64 || second >= 64 {
        return Err(Refusal::NoSuchMember);
    }
    if first == second {
        return Err(Refusal::SameMember);
    }
    Ok(())
}

// Members and amount of a payment: passed, or the first refusal that applies.
pub fn checked(payment: Payment) -> Result<(), Refusal>
    ensures { result ≡ payment_checks payment passes }
{
    pair(payment.payer, payment.payee)?;
    if payment.amount < 1 || payment.amount > 1_000_000 {
        return Err(Refusal::OutOfRange);
    }
    Ok(())
}

// No room of the line is negative once planned is moved on it.
fn is_roomy(line: &Line, planned: i32) -> bool
    ensures { result ≡ roomy (moved line.now planned) }
{
    line.room_onward(planned) >= 0 && line.room_back(planned) >= 0
}

// The line is within its bounds, and no room of it is negative once planned is moved on it.
fn is_sound(line: &Line, planned: i32) -> bool
    ensures { result ≡ (bounded line.now && roomy (moved line.now planned)) }
{
    line.is_bounded() && is_roomy(line, planned)
}

// Every line is within its bounds and no room is negative under the plan.
fn all_fit(lines: &[Line], plan: &[i32]) -> bool
    requires { length lines.now ≤ length plan.now }
    ensures { result ≡ (every bounded lines.now && fits lines.now plan.now) }
{
    lines
        .iter()
        .zip(plan)
        .all(|(line, planned)| is_sound(line, *planned))
}

// Lines and plan that a router takes.
fn is_usable(lines: &[Line], plan: &[i32]) -> bool
    ensures { result ≡ usable lines.now plan.now }
{
    lines.len() <= 256 && lines.len() <= plan.len() && all_fit(lines, plan)
}

// What a router is given: passed, or the first refusal that applies.
pub fn admitted(lines: &[Line], payment: Payment, plan: &[i32]) -> Result<(), Refusal>
    ensures { result ≡ router_checks lines.now payment plan.now }
{
    checked(payment)?;
    if !is_usable(lines, plan) {
        return Err(Refusal::BadPlanSheet);
    }
    Ok(())
}
