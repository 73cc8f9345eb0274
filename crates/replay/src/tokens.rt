// The calls that a token takes part in. A call as a plain value names a reservation by its payment; the token is held
// here, and only that of the standing reservation can be.
ghost use Rattle.std.specs.Prelude.{◌≡◌, not, length, Some, Err, ◌==◌};
ghost use Rattle.credit.specs.declared.refusal.Refusal.TheVariants.{BadPlanSheet, NoSuchReservation};
ghost use Rattle.credit.specs.Refusals.{check};
ghost use Rattle.calls.specs.declared.call.Call.TheVariants.{Reserve, Book, Release};
ghost use Rattle.ledger.specs.States.{state_of};
ghost use Rattle.replay.specs.Tokens.{Sought, Genuine, Serves};

use calls::call::Answer;
use credit::payment::Payment;
use credit::refusal::Refusal;
use ledger::reservation::{Reservation, Unbooked};
use ledger::state::Ledger;
use routing::router::Router;

// The answer of a call, and the token that is held after it.
pub(crate) struct Served {
    pub(crate) answer: Answer,
    pub(crate) held: Option<Reservation>,
}

// The token for a payment, or what else is held.
fn token_for(
    held: Option<Reservation>,
    payment: Payment,
) -> Result<Reservation, Option<Reservation>>
    ensures { Sought held payment result }
{
    match held {
        Some(token) if token.payment() == payment => Ok(token),
        other => Err(other),
    }
}

// Reserves, and keeps the token: where the ledger accepts none was held, since none stood.
pub(crate) fn reserve<R: Router>(
    ledger: &mut Ledger,
    router: &mut R,
    held: Option<Reservation>,
    payment: Payment,
    sheet: &mut [i32],
) -> Served
    requires { Genuine held (state_of ledger.old) }
    ensures { Serves (state_of ledger.old) (Reserve (length sheet.old) payment) result (state_of ledger.new) }
{
    match ledger.reserve(router, payment, sheet) {
        Err(refusal) => Served {
            answer: Answer::Refused(refusal),
            held,
        },
        Ok(token) => match held {
            Some(_) => unreachable(),
            None => Served {
                answer: Answer::Reserved(payment),
                held: Some(token),
            },
        },
    }
}

// Books the reservation whose token this is.
fn book_held<R: Router>(
    ledger: &mut Ledger,
    router: &mut R,
    token: Reservation,
    sheet: &mut [i32],
) -> Served
    requires { Genuine (Some token) (state_of ledger.old) }
    ensures { Serves (state_of ledger.old) (Book (length sheet.old) token.payment) result (state_of ledger.new) }
{
    match ledger.book(router, token, sheet) {
        Ok(()) => Served {
            answer: Answer::Done,
            held: None,
        },
        Err(
            Unbooked {
                refusal,
                reservation,
            },
        ) => Served {
            answer: Answer::Refused(refusal),
            held: Some(reservation),
        },
    }
}

// Why a booking is refused for which there is no token.
fn without_token(places: usize) -> Refusal
    ensures { Err result ≡ check (not (places == 256)) BadPlanSheet (Err NoSuchReservation) }
{
    if places == 256 {
        Refusal::NoSuchReservation
    } else {
        Refusal::BadPlanSheet
    }
}

// Books the reservation of a payment. Where its token is not held it does not stand.
pub(crate) fn book<R: Router>(
    ledger: &mut Ledger,
    router: &mut R,
    held: Option<Reservation>,
    payment: Payment,
    sheet: &mut [i32],
) -> Served
    requires { Genuine held (state_of ledger.old) }
    ensures { Serves (state_of ledger.old) (Book (length sheet.old) payment) result (state_of ledger.new) }
{
    match token_for(held, payment) {
        Ok(token) => book_held(ledger, router, token, sheet),
        Err(held) => Served {
            answer: Answer::Refused(without_token(sheet.len())),
            held,
        },
    }
}

// Ends the reservation of a payment. Where its token is not held it does not stand.
pub(crate) fn release(ledger: &mut Ledger, held: Option<Reservation>, payment: Payment) -> Served
    requires { Genuine held (state_of ledger.old) }
    ensures { Serves (state_of ledger.old) (Release payment) result (state_of ledger.new) }
{
    match token_for(held, payment) {
        Ok(token) => Served {
            answer: Answer::Released(ledger.release(token)),
            held: None,
        },
        Err(held) => Served {
            answer: Answer::Released(false),
            held,
        },
    }
}

// Ends the token that is held at last.
pub(crate) fn give_back(ledger: &mut Ledger, held: Option<Reservation>) {
    if let Some(token) = held {
        let _ = ledger.release(token);
    }
}
