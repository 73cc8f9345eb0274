// The checks of the calls, in their order.
ghost use Rattle.std.specs.Prelude.{◌≡◌, ◌<◌, false, length, is_some, OnOk};
ghost use Rattle.ledger.specs.States.{state_of};
ghost use Rattle.ledger.specs.Checks.{inmost_spoiled, none_open, pay_checks, open_checks, begin_checks, close_checks};
ghost use Rattle.credit.specs.Pairs.{joined};
ghost use Rattle.ledger.specs.Calls.{spoils};
ghost use Rattle.ledger.specs.Between.{line_checks};

use crate::state::Ledger;
use credit::line::{Line, in_trust};
use credit::payment::Payment;
use credit::refusal::Refusal;
use routing::checks::{checked, pair};

// Whether the pair has a line.
fn is_joined(lines: &[Line], first: u32, second: u32) -> bool
    ensures { result ≡ joined first second lines.now }
{
    lines.iter().any(|line| line.joins(first, second))
}

// Of the arguments of a new line, and of the lines that there are.
fn line_checks(
    lines: &[Line],
    first: u32,
    second: u32,
    trust: i32,
    back: i32,
) -> Result<(), Refusal>
    ensures { result ≡ line_checks lines.now first second trust back }
{
    pair(first, second)?;
    if !(in_trust(trust) && in_trust(back)) {
        return Err(Refusal::OutOfRange);
    }
    if is_joined(lines, first, second) {
        return Err(Refusal::PairHasLine);
    }
    if lines.len() >= 256 {
        return Err(Refusal::TooManyLines);
    }
    Ok(())
}

// Whether a payment refused so spoils the inmost open group.
pub(crate) fn spoiling(refusal: &Refusal) -> bool
    ensures { result ≡ spoils refusal.now }
{
    matches!(
        refusal,
        Refusal::NoSuchMember
            | Refusal::SameMember
            | Refusal::OutOfRange
            | Refusal::WantOfRoom { .. }
    )
}

impl Ledger {
    // Whether the inmost open group is spoiled.
    pub(crate) fn inmost_spoiled(&self) -> bool
        ensures { result ≡ inmost_spoiled (state_of self.now).groups }
    {
        self.savepoints
            .last()
            .is_some_and(|savepoint| savepoint.spoiled)
    }

    pub(crate) fn none_open(&self) -> bool
        ensures { result ≡ none_open (state_of self.now).groups }
    {
        self.savepoints.is_empty()
    }

    // Of pay and reserve with a sheet of 256 places, before a router is asked.
    pub(crate) fn pay_checks(&self, payment: Payment) -> Result<(), Refusal>
        ensures verdict { result ≡ pay_checks (state_of self.now) 256 payment }
        ensures vacant { OnOk result (is_some self.now.standing ≡ false) }
    {
        if self.standing.is_some() {
            return Err(Refusal::ReservationStands);
        }
        if self.inmost_spoiled() {
            return Err(Refusal::Spoiled);
        }
        checked(payment)
    }

    // Of the opening of a line.
    pub(crate) fn open_checks(
        &self,
        first: u32,
        second: u32,
        trust: i32,
        back: i32,
    ) -> Result<(), Refusal>
        ensures { result ≡ open_checks (state_of self.now) first second trust back }
    {
        if self.standing.is_some() {
            return Err(Refusal::ReservationStands);
        }
        if !self.none_open() {
            return Err(Refusal::SavepointOpen);
        }
        line_checks(&self.lines, first, second, trust, back)
    }

    pub(crate) fn begin_checks(&self) -> Result<(), Refusal>
        ensures verdict { result ≡ begin_checks (state_of self.now) }
        ensures shallow { OnOk result (length (state_of self.now).groups < 8) }
    {
        if self.standing.is_some() {
            return Err(Refusal::ReservationStands);
        }
        if self.open_groups() >= 8 {
            return Err(Refusal::TooManySavepoints);
        }
        Ok(())
    }

    // Of end and abandon.
    pub(crate) fn close_checks(&self) -> Result<(), Refusal>
        ensures verdict { result ≡ close_checks (state_of self.now) }
        ensures vacant { OnOk result (is_some self.now.standing ≡ false) }
    {
        if self.standing.is_some() {
            return Err(Refusal::ReservationStands);
        }
        if self.none_open() {
            return Err(Refusal::NoSavepoint);
        }
        Ok(())
    }
}
