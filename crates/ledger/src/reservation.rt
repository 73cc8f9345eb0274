// Reservations: the token that a caller holds.
ghost use Rattle.std.specs.Prelude.{◌≡◌};

use credit::payment::Payment;
use credit::refusal::Refusal;

// A token for a reservation of a payment. It is not `Drop`: it must be booked or released.
pub struct Reservation {
    pub(crate) payment: Payment,
}

impl Reservation {
    // The payment that is reserved.
    pub fn payment(&self) -> Payment
        ensures { result ≡ self.now.payment }
    {
        self.payment
    }
}

// A refused booking, which hands the token back.
pub struct Unbooked {
    pub refusal: Refusal,
    pub reservation: Reservation,
}
