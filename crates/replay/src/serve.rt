// A call given as a plain value, served by a ledger.
ghost use Rattle.std.specs.Prelude.{◌≡◌, length, ◌==◌};
ghost use Rattle.ledger.specs.States.{state_of};
ghost use Rattle.replay.specs.Tokens.{places_of, on_sheet, Genuine, Serves};

use crate::tokens::{Served, book, release, reserve};
use calls::call::{Answer, Call};
use ledger::reservation::Reservation;
use ledger::state::Ledger;
use routing::router::Router;

// Gives a ledger one call, with this sheet where the call takes one.
fn serve_on<R: Router>(
    ledger: &mut Ledger,
    router: &mut R,
    held: Option<Reservation>,
    call: Call,
    sheet: &mut [i32],
) -> Served
    requires { Genuine held (state_of ledger.old) }
    ensures { Serves (state_of ledger.old) (on_sheet call (length sheet.old)) result (state_of ledger.new) }
{
    match call {
        Call::Open {
            first,
            second,
            trust,
            back,
        } => Served {
            answer: Answer::from(ledger.open(first, second, trust, back)),
            held,
        },
        Call::Pay { payment, .. } => Served {
            answer: Answer::from(ledger.pay(router, payment, sheet)),
            held,
        },
        Call::Reserve { payment, .. } => reserve(ledger, router, held, payment, sheet),
        Call::Book { payment, .. } => book(ledger, router, held, payment, sheet),
        Call::Release(payment) => release(ledger, held, payment),
        Call::Begin => Served {
            answer: Answer::from(ledger.begin()),
            held,
        },
        Call::End => Served {
            answer: Answer::from(ledger.end()),
            held,
        },
        Call::Abandon => Served {
            answer: Answer::from(ledger.abandon()),
            held,
        },
        Call::Tidy => {
            ledger.tidy();
            Served {
                answer: Answer::Done,
                held,
            }
        }
    }
}

// Whether the sheet of a call has 256 places.
fn takes_whole(call: &Call) -> bool
    ensures { result ≡ (places_of call.now == 256) }
{
    match call {
        Call::Pay { places, .. } | Call::Reserve { places, .. } | Call::Book { places, .. } => {
            *places == 256
        }
        _ => true,
    }
}

// Gives a ledger one call. A sheet of another length than 256 is refused whatever its length is: an empty one stands
// for it.
pub(crate) fn serve<R: Router>(
    ledger: &mut Ledger,
    router: &mut R,
    held: Option<Reservation>,
    call: Call,
) -> Served
    requires { Genuine held (state_of ledger.old) }
    ensures { Serves (state_of ledger.old) call result (state_of ledger.new) }
{
    if takes_whole(&call) {
        serve_on(ledger, router, held, call, &mut [0; 256])
    } else {
        serve_on(ledger, router, held, call, &mut [])
    }
}
